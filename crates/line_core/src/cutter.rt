//! `LineCutter`: cuts a script into lines as its bytes arrive, in constant memory. `ScriptLines` keeps in it the line
//! that spans two blocks, which it adds in parts. Users of the library feed it byte by byte; no program here does.
ghost use Rattle.std.specs.Prelude.{◌≡◌, ◌≤◌, ◌==◌, [], length};

use crate::line::{LINE_BYTES, Line, body_of};
use std::marker::Model;

/// The number of bytes of a line that are kept: one more than a line may have, so that an over-long line shows.
pub(crate) const HELD_BYTES: usize = LINE_BYTES + 1;

/// Cuts a script into its lines, byte by byte. It holds the number of the present line, from 1, and the line's first
/// bytes, up to `LINE_BYTES` and one.
#[derive(Debug, Drop)]
pub struct LineCutter {
    number: u32,
    length: usize,
    held: [u8; HELD_BYTES],
}

impl Model for LineCutter {
    ghost use Rattle.std.specs.Prelude.{◌≤◌, take};
    ghost use Rattle.line_core.specs.declared.cutter.TheConstants.{HELD_BYTES};
    ghost use Rattle.line_core.specs.Cutting.{OpenLine};

    ghost Value = { OpenLine };

    ghost view = { λ c. record { number = c.number; bytes = take c.length c.held } };

    ghost invariant = { λ c. c.length ≤ HELD_BYTES };
}

impl LineCutter {
    ghost use Rattle.line_core.specs.declared.script.TheConstants.{SCRIPT_BYTES};
    ghost use Rattle.line_core.specs.Cutting.{line_of, line_at, line_after, with_bytes};

    /// A cutter at the start of line 1.
    pub fn new() -> LineCutter
        ensures number { result.number ≡ 1 }
        ensures bytes { result.bytes ≡ [] }
    {
        LineCutter {
            number: 1,
            length: 0,
            held: [0; HELD_BYTES],
        }
    }

    /// The number of the line that is held, even if it has no bytes yet.
    pub fn number(&self) -> u32
        ensures number { result ≡ self.now.number }
    {
        self.number
    }

    /// Takes one byte of the script. A line feed returns the line that was held, or none if it has no answer, and
    /// begins the next line. Any other byte is appended to the line, and returns none.
    ///
    /// For users of the library; no program here calls it.
    pub fn feed(&mut self, byte: u8) -> Option<Line>
        requires few { self.old.number ≤ SCRIPT_BYTES }
        ensures line { result ≡ line_at self.old byte }
        ensures held { self.new ≡ line_after self.old byte }
    {
        if byte != b'\n' {
            self.add(&[byte]);
            return None;
        }
        let line = self.line();
        self.begin_line(self.number + 1);
        line
    }

    /// Ends the script: returns the line that was held, or none if it has no answer. For users of the library; no program
    /// here calls it.
    pub fn end(self) -> Option<Line>
        ensures line { result ≡ line_of self }
    {
        self.line()
    }

    fn line(&self) -> Option<Line>
        ensures line { result ≡ line_of self.now }
    {
        let number = self.number;
        let body = body_of(self.bytes())?;
        Some(Line { number, body })
    }

    /// The bytes of the line so far; only the first `HELD_BYTES` of an over-long one.
    pub(crate) fn bytes(&self) -> &[u8]
        ensures bytes { result.now ≡ self.now.bytes }
    {
        &self.held[..self.length]
    }

    /// Whether the line has no bytes so far.
    pub(crate) fn is_empty(&self) -> bool
        ensures empty { result ≡ (length self.now.bytes == 0) }
    {
        self.length == 0
    }

    /// Appends bytes to the line.
    pub(crate) fn add(&mut self, bytes: &[u8])
        ensures added { self.new ≡ with_bytes self.old bytes.now }
    {
        let count = (HELD_BYTES - self.length).min(bytes.len());
        self.held[self.length..self.length + count].copy_from_slice(&bytes[..count]);
        self.length += count;
    }

    /// Begins the line of this number.
    pub(crate) fn begin_line(&mut self, number: u32)
        ensures begun { self.new ≡ record { number = number; bytes = [] } }
    {
        self.number = number;
        self.length = 0;
    }
}
