//! Runs a script from a reader to a writer. It reads only when no answer is pending, so an interactive user sees each
//! answer.
ghost use Rattle.std.specs.Prelude.{[]};
ghost use Rattle.script_core.specs.Answering.{HasAnswered};
ghost use Rattle.script_core.specs.Run.{RunsScript};

use crate::answers::Answers;
use crate::totals::Totals;
use line_core::{Ending, for_each_line};
use point_core::Refusal;
use std::alloc::Global;
use std::io::{Read, Write};

/// Reads a script and writes its answers: the text of each line's answer, in order. A line is answered when its end is
/// read, and its answer is written before the next read. It reads up to the end, or one byte past the limit of a
/// script, and flushes once, at the end. An interrupted read or write counts as failed.
///
/// Its memory does not grow with the script, but with the objects on the desk.
///
/// Fails with Read if a read failed: then the lines whose line feed was read are answered. Fails with Write if a write
/// failed or took no byte, or the flush failed, and with Memory if an allocation failed: then a prefix of the answers
/// is written.
pub fn engine<R: Read, W: Write>(
    alloc: Global,
    reader: &mut R,
    writer: &mut W,
) -> Result<Totals, Refusal>
    ensures run { RunsScript result (R.remaining reader.old) (R.remaining reader.new)
        (W.contents writer.old) (W.contents writer.new) }
{
    let mut answers = Answers::new(alloc)?;
    with_answers(&mut answers, reader, writer)
}

fn with_answers<R: Read, W: Write>(
    answers: &mut Answers,
    reader: &mut R,
    writer: &mut W,
) -> Result<Totals, Refusal>
    requires fresh { HasAnswered [] answers.old (W.contents writer.old) (W.contents writer.old) }
    ensures run { RunsScript result (R.remaining reader.old) (R.remaining reader.new)
        (W.contents writer.old) (W.contents writer.new) }
{
    let ending = for_each_line(reader, answers, writer, &mut ())?;
    let totals = answers.finish(writer)?;
    match ending {
        Ending::Failed => Err(Refusal::Read),
        Ending::Whole | Ending::TooLong => Ok(totals),
    }
}
