//! `ScriptLines`: the lines of a script from a reader. It keeps one block, and lines that lie within the block are not
//! copied.
ghost use Rattle.std.specs.Prelude.{◌≡◌, ◌+◌, ◌^◌, ◌<◌, ◌≤◌, true, false, List, ℕ, [], length, take, drop, Option, None, IfSome, if◌then◌else◌};
ghost use Rattle.line_core.specs.Cutting.{with_bytes};
ghost use Rattle.line_core.specs.declared.script.TheConstants.{SCRIPT_BYTES};

use crate::cutter::{HELD_BYTES, LineCutter};
use crate::raw_line::RawLine;
use crate::script::{Ending, SCRIPT_BYTES, first_line_feed};
use std::io::Read;
use std::marker::Model;

/// The most bytes of one read.
pub(crate) const BLOCK_BYTES: usize = 16384;

/// The lines of a script from a reader, one after another. It keeps one block of the script, and the first bytes of a
/// line that began before that block.
#[derive(Drop)]
pub struct ScriptLines {
    block: [u8; BLOCK_BYTES],
    // the bytes of the block that were read, and how many of these were searched
    filled: usize,
    next: usize,
    // the bytes of the script that were read
    read: usize,
    // the line's number, and its bytes if it began in an earlier block; else the line is in the block, from `start`
    cutter: LineCutter,
    start: usize,
    length: usize,
    // whether the line's line feed was read
    ended: bool,
}

impl Model for ScriptLines {
    ghost use Rattle.std.specs.Prelude.{◌-◌, take, drop};
    ghost use Rattle.line_core.specs.ScriptLines.{LinesState, line_bytes, IsLaidOut};

    ghost Value = { LinesState };

    ghost view = { λ s. record {
      read = s.read;
      number = s.cutter.number;
      ended = s.ended;
      line = line_bytes s.cutter.bytes s.block s.start s.length;
      length = s.length;
      ready = take (s.filled - s.next) (drop s.next s.block);
    } };

    ghost invariant = { λ s.
        IsLaidOut s.next s.filled s.start s.length s.read s.cutter.number s.ended s.cutter.bytes };
}

impl ScriptLines {
    ghost use Rattle.line_core.specs.ScriptLines.{HasGiven, GoesOn, HasEnded, IsDrained, turns_to_come};
    ghost use Rattle.line_core.specs.ScriptLines.{gone_on, ended_at, all_held, filled_with};

    /// No read was made, and no line returned.
    pub fn new() -> ScriptLines
        ensures none { (known : Option (List ℕ)) → HasGiven known known result [] }
        ensures drained { IsDrained result }
    {
        ScriptLines {
            block: [0; BLOCK_BYTES],
            filled: 0,
            next: 0,
            read: 0,
            cutter: LineCutter::new(),
            start: 0,
            length: 0,
            ended: false,
        }
    }

    /// The present line: the one that `advance` found last, or, once the script has ended, the bytes after its last
    /// line feed.
    pub fn line(&self) -> RawLine<'_>
        ensures number { result.number ≡ self.now.number }
        ensures bytes { result.bytes.now ≡ self.now.line }
        ensures length { result.length ≡ self.now.length }
    {
        RawLine::new(self.cutter.number(), self.line_bytes(), self.length)
    }

    fn line_bytes(&self) -> &[u8]
        ensures bytes { result.now ≡ self.now.line }
    {
        let held = self.cutter.bytes();
        if held.is_empty() {
            &self.block[self.start..self.start + self.length.min(HELD_BYTES)]
        } else {
            held
        }
    }

    /// Advances to the next line, if its line feed was read; else returns false. It searches for the line feed.
    pub fn advance(&mut self) -> bool
        ensures next { (before now : Option (List ℕ)) → (given : List (List ℕ)) →
            HasGiven before now self.old given → GoesOn before now given result self.new }
        ensures drained { result ≡ false → IsDrained self.new }
        ensures turns { turns_to_come self.new + (if result then 1 else 0) ≤ turns_to_come self.old }
    {
        self.go_on();
        match first_line_feed(self.ready()) {
            Some(place) => {
                self.end_at(place);
                true
            }
            None => {
                self.hold_all();
                false
            }
        }
    }

    /// Reads once, at most a block; returns none if bytes were read, else how the script ends. An interrupted read
    /// counts as failed. At most one byte past the limit of a script is read.
    pub fn read<R: Read>(&mut self, reader: &mut R) -> Option<Ending>
        requires drained { IsDrained self.old }
        ensures more { result ≡ None → (before : Option (List ℕ)) → (given : List (List ℕ)) →
            HasGiven before (R.remaining reader.old) self.old given
            → HasGiven before (R.remaining reader.new) self.new given }
        ensures ended { IfSome result (λ ending. (before : Option (List ℕ)) → (given : List (List ℕ)) →
            HasGiven before (R.remaining reader.old) self.old given
            → HasEnded before (R.remaining reader.new) self.new ending given) }
        ensures turns { result ≡ None → turns_to_come self.new < turns_to_come self.old }
    {
        // Tests the bytes read, not the room: with the room, some built programs lost the case `Ok(0)`.
        if self.read > SCRIPT_BYTES {
            return Some(Ending::TooLong);
        }
        let room = (SCRIPT_BYTES + 1 - self.read).min(BLOCK_BYTES);
        match reader.read(&mut self.block[..room]) {
            Ok(0) => Some(Ending::Whole),
            Ok(count) => {
                self.filled = count.min(SCRIPT_BYTES - self.read);
                self.next = 0;
                self.read += count;
                None
            }
            Err(_) => Some(Ending::Failed),
        }
    }

    /// The bytes that were read after the present line.
    fn ready(&self) -> &[u8]
        ensures bytes { result.now ≡ self.now.ready }
    {
        &self.block[self.next..self.filled]
    }

    /// Drops the present line.
    fn go_on(&mut self)
        ensures gone { self.new ≡ gone_on self.old }
    {
        if self.ended {
            self.cutter.begin_line(self.cutter.number() + 1);
            self.length = 0;
            self.ended = false;
        }
    }

    fn end_at(&mut self, place: usize)
        requires begun { self.old.ended ≡ false }
        requires within { place < length self.old.ready }
        ensures ended { self.new ≡ ended_at self.old place }
    {
        if self.cutter.is_empty() {
            self.start = self.next;
        } else {
            add_part(&mut self.cutter, &self.block, self.next, place);
        }
        self.length += place;
        self.next += place + 1;
        self.ended = true;
    }

    fn hold_all(&mut self)
        requires begun { self.old.ended ≡ false }
        ensures held { self.new ≡ all_held self.old }
    {
        let count = self.filled - self.next;
        add_part(&mut self.cutter, &self.block, self.next, count);
        self.length += count;
        self.next = self.filled;
    }
}

/// Appends `count` bytes of the block, from `start`, to the line.
fn add_part(cutter: &mut LineCutter, block: &[u8], start: usize, count: usize)
    requires within { start + count ≤ length block.now }
    ensures added { cutter.new ≡ with_bytes cutter.old (take count (drop start block.now)) }
{
    cutter.add(&block[start..start + count]);
}
