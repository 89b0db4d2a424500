//! `LineHandler` and `for_each_line`: the one loop over the lines of a script. It reads only once the handler has paused, so
//! a handler that writes its output then shows each answer before the next read.
ghost use Rattle.std.specs.Prelude.{◌≡◌, ◌+◌, ◌≤◌, [], IfErr, IfOk, OnOk};
ghost use Rattle.line_core.specs.declared.script.TheConstants.{SCRIPT_BYTES};
ghost use Rattle.line_core.specs.Handling.{FailsLast, HandlesLast, HandlesScript, IsNext, StopsAmong};
ghost use Rattle.line_core.specs.Reading.{ConsumesAtMost};

use crate::raw_line::RawLine;
use crate::script::{Ending, SCRIPT_BYTES};
use crate::script_lines::ScriptLines;
use point_core::Refusal;
use std::io::Read;

/// Handles the lines of a script, one after another. It writes to `O`, and may write notes to `N`.
///
/// A handler says what it has done with the lines so far, by relations between its state, output and notes before the first
/// line and after the last.
pub trait LineHandler<O, N> {
    ghost use Rattle.std.specs.Prelude.{OnOk, IfErr};
    ghost use Rattle.point_core.specs.declared.refusal.Refusal.{Refusal};
    ghost use Rattle.line_core.specs.declared.script.Ending.{Ending};
    ghost use Rattle.line_core.specs.Handling.{Handled, HandlesLine, IsNext, Pauses};
    ghost use Rattle.line_core.specs.Line.{body_of};
    ghost use Rattle.line_core.specs.Script.{last_body};

    /// Lines that ended with a line feed were handled.
    ghost handled: { Handled (Self × O × N) };

    /// All lines were handled, and the script ends so.
    ghost ended: { Ending → Handled (Self × O × N) };

    /// A call failed so, at the last of the lines or after it.
    ghost failed: { Refusal → Handled (Self × O × N) };

    /// Handles a line that ended with a line feed.
    fn handle(&mut self, line: &RawLine<'_>, output: &mut O, notes: &mut N) -> Result<(), Refusal>
        requires next { IsNext handled (self.old, output.old, notes.old) line.now.number }
        ensures ok { OnOk result (HandlesLine handled handled line.now.number line.now.bytes.now (body_of line.now.bytes.now)
            (self.old, output.old, notes.old) (self.new, output.new, notes.new)) }
        ensures err { IfErr result (λ refusal. HandlesLine handled (failed refusal)
            line.now.number line.now.bytes.now (body_of line.now.bytes.now)
            (self.old, output.old, notes.old) (self.new, output.new, notes.new)) };

    /// Comes before each read.
    fn pause(&mut self, output: &mut O, notes: &mut N) -> Result<(), Refusal>
        ensures ok { OnOk result (Pauses handled handled
            (self.old, output.old, notes.old) (self.new, output.new, notes.new)) }
        ensures err { IfErr result (λ refusal. Pauses handled (failed refusal)
            (self.old, output.old, notes.old) (self.new, output.new, notes.new)) };

    /// Handles the bytes after the last line feed: the last line, or the one in which the script passes its limit. After a
    /// failed read it is not called.
    fn handle_last(
        &mut self,
        line: &RawLine<'_>,
        ending: Ending,
        output: &mut O,
        notes: &mut N,
    ) -> Result<(), Refusal>
        requires next { IsNext handled (self.old, output.old, notes.old) line.now.number }
        ensures ok { OnOk result (HandlesLine handled (ended ending)
            line.now.number line.now.bytes.now (last_body ending line.now.bytes.now)
            (self.old, output.old, notes.old) (self.new, output.new, notes.new)) }
        ensures err { IfErr result (λ refusal. HandlesLine handled (failed refusal)
            line.now.number line.now.bytes.now (last_body ending line.now.bytes.now)
            (self.old, output.old, notes.old) (self.new, output.new, notes.new)) };
}

/// Reads a script and has each line handled once its line feed, or the end of the script, has been read. It reads up to the
/// end, or one byte past the limit of a script. An interrupted read counts as failed.
///
/// Fails as the handler does. A failed read is no failure, but an ending.
pub fn for_each_line<R: Read, O, N, H: LineHandler<O, N>>(
    reader: &mut R,
    handler: &mut H,
    output: &mut O,
    notes: &mut N,
) -> Result<Ending, Refusal>
    requires fresh { H.handled (handler.old, output.old, notes.old) [] [] (handler.old, output.old, notes.old) }
    ensures ok { IfOk result (λ ending. HandlesScript H.handled H.ended (R.remaining reader.old) (R.remaining reader.new) ending
        (handler.old, output.old, notes.old) (handler.new, output.new, notes.new)) }
    ensures err { IfErr result (λ refusal. StopsAmong (H.failed refusal) (R.remaining reader.old)
        (handler.old, output.old, notes.old) (handler.new, output.new, notes.new)) }
    ensures within { ConsumesAtMost (SCRIPT_BYTES + 1) (R.remaining reader.old) (R.remaining reader.new) }
{
    let mut lines = ScriptLines::new();
    loop {
        if lines.advance() {
            let line = lines.line();
            handler.handle(&line, output, notes)?;
        } else {
            handler.pause(output, notes)?;
            if let Some(ending) = lines.read(reader) {
                let line = lines.line();
                end_script(handler, &line, ending, output, notes)?;
                return Ok(ending);
            }
        }
    }
}

/// Handles the last line, unless a read failed in it.
fn end_script<O, N, H: LineHandler<O, N>>(
    handler: &mut H,
    line: &RawLine<'_>,
    ending: Ending,
    output: &mut O,
    notes: &mut N,
) -> Result<(), Refusal>
    requires next { IsNext H.handled (handler.old, output.old, notes.old) line.now.number }
    ensures ok { OnOk result (HandlesLast H.handled H.ended ending line.now.number line.now.bytes.now
        (handler.old, output.old, notes.old) (handler.new, output.new, notes.new)) }
    ensures err { IfErr result (λ refusal. FailsLast H.handled (H.failed refusal) ending line.now.number line.now.bytes.now
        (handler.old, output.old, notes.old) (handler.new, output.new, notes.new)) }
{
    match ending {
        Ending::Whole | Ending::TooLong => handler.handle_last(line, ending, output, notes),
        Ending::Failed => Ok(()),
    }
}
