//! Reads a whole script from memory. `lines_of` and `script_of` in `specs/` say what the lines of a script are.
ghost use Rattle.std.specs.Prelude.{◌≡◌, ◌+◌, ◌^◌, ◌<◌, ◌∷◌, ◌++◌, [], length, take, option_to_list, MatchOption, IfSome, position, IfOk, IfErr};
ghost use Rattle.point_core.specs.declared.refusal.Refusal.TheVariants.{Memory};
ghost use Rattle.line_core.specs.Script.{is_line_feed, lines_of, script_of, ending_of, last_body, answered};

use crate::line::{Body, Line, body_of};
use memchr::memchr;
use point_core::{LimitKind, Refusal};
use std::alloc::Global;

/// The most bytes of a script.
pub const SCRIPT_BYTES: usize = 1_048_576;

const _: () = prove!(SCRIPT_BYTES == 1_048_576);

/// The lines of a script that have an answer, in order.
///
/// If the script has more than `SCRIPT_BYTES` bytes, these are the lines whose line feed is within the limit, and then
/// the line at the limit, as `Bad(Limit(Script))`.
///
/// Fails only with Memory.
pub fn read_script(alloc: Global, bytes: &[u8]) -> Result<Vec<Line>, Refusal>
    ensures ok { IfOk result (λ lines. lines.items ≡ script_of bytes.now) }
    ensures err { IfErr result (λ refusal. refusal ≡ Memory) }
{
    Ok(Lines::of(bytes).collect(alloc)?)
}

/// How a script ends after its last line feed.
#[derive(Clone, Copy, Debug)]
pub enum Ending {
    /// The script's last line, which lacks its line feed.
    Whole,
    /// A line that is cut at the script's limit.
    TooLong,
    /// A line in which the reader failed.
    Failed,
}

/// An iterator over the lines that have an answer.
#[derive(Drop)]
pub(crate) struct Lines<'a> {
    rest: &'a [u8],
    number: u32,
    // none once the last line was taken
    ending: Option<Ending>,
    ghost fits: { number + length rest.now < 2 ^ 32 },
}

impl<'a> Lines<'a> {
    ghost use Rattle.line_core.specs.Lines.{lines_left, turns_left};

    /// The lines of a script, which are in its first `SCRIPT_BYTES` bytes.
    fn of(bytes: &'a [u8]) -> Self
        ensures lines { lines_left result ≡ script_of bytes.now }
    {
        Lines {
            rest: &bytes[..SCRIPT_BYTES.min(bytes.len())],
            number: 1,
            ending: Some(ending_of(bytes)),
        }
    }

    /// Takes the next line, and returns it if it has an answer.
    fn take_line(&mut self, ending: Ending) -> Option<Line>
        requires { self.old.ending ≡ Some ending }
        ensures lines { lines_left self.old ≡ option_to_list result ++ lines_left self.new }
        ensures shorter { turns_left self.new < turns_left self.old }
    {
        let number = self.number;
        let body = self.take_body(ending)?;
        Some(Line { number, body })
    }

    fn take_body(&mut self, ending: Ending) -> Option<Body>
        requires { self.old.ending ≡ Some ending }
        ensures lines { lines_left self.old ≡ answered self.old.number result (lines_left self.new) }
        ensures shorter { turns_left self.new < turns_left self.old }
    {
        match first_line(self.rest) {
            Some((line, rest)) => {
                self.rest = rest;
                self.number += 1;
                body_of(line)
            }
            None => {
                self.ending = None;
                last_body(ending, self.rest)
            }
        }
    }
}

fn ending_of(script: &[u8]) -> Ending
    ensures ending { result ≡ ending_of script.now }
{
    if script.len() <= SCRIPT_BYTES {
        Ending::Whole
    } else {
        Ending::TooLong
    }
}

/// The content of the last line, by how the script ends: a line if all was read, which may have no answer; an error if
/// the script is too long; nothing if a read failed.
pub fn last_body(ending: Ending, last: &[u8]) -> Option<Body>
    ensures body { result ≡ last_body ending last.now }
{
    match ending {
        Ending::Whole => body_of(last),
        Ending::TooLong => Some(Body::Bad(Refusal::Limit(LimitKind::Script))),
        Ending::Failed => None,
    }
}

/// The first line and the bytes after its line feed, or none if no line feed is there.
pub fn first_line(bytes: &[u8]) -> Option<(&[u8], &[u8])>
    ensures lines { MatchOption result
        (lines_of bytes.now ≡ bytes.now ∷ [])
        (λ l. lines_of bytes.now ≡ l.0.now ∷ lines_of l.1.now) }
    ensures shorter { IfSome result (λ l. length l.1.now < length bytes.now) }
{
    let end = first_line_feed(bytes)?;
    Some((&bytes[..end], &bytes[end + 1..]))
}

/// The place of the first line feed.
pub(crate) fn first_line_feed(bytes: &[u8]) -> Option<usize>
    ensures place { result ≡ position is_line_feed bytes.now }
{
    memchr(b'\n', bytes)
}

impl<'a> Iterator for Lines<'a> {
    type Item = Line;

    ghost use Rattle.std.specs.Iterator.{YieldsFirst, item_count};
    ghost use Rattle.line_core.specs.Lines.{lines_left};

    ghost next_gives = { YieldsFirst lines_left };

    ghost remaining = { item_count lines_left };

    fn next(&mut self) -> Option<Line> {
        while let Some(ending) = self.ending {
            let line = self.take_line(ending);
            if line.is_some() {
                return line;
            }
        }
        None
    }
}
