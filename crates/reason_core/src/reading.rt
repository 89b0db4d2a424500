//! Runs a script from a reader, and writes an explanation after the answer of each refused line. `fencectl explain` and
//! the prompt call it.
ghost use Rattle.std.specs.Prelude.{[]};
ghost use Rattle.script_core.specs.Answering.{HasAnswered};
ghost use Rattle.script_core.specs.Run.{RunsScript};
ghost use Rattle.reason_core.specs.Notes.{NotesFollow};

use crate::explainer::Explainer;
use crate::look::NoteLook;
use line_core::{Ending, for_each_line};
use point_core::Refusal;
use script_core::Totals;
use std::alloc::Global;
use std::io::{Read, Write};

/// Runs a script as `engine` does, and after the answer of each refused line writes to `notes` why it was refused: its
/// number, the word that is at fault and a sentence; of a wait each point that is not reached. The answer of a line is written
/// before its explanation, and both before the next read.
///
/// Its memory does not grow with the script: it keeps the desk, and for each name and cookie in use the number of the line
/// that made it.
///
/// Fails with Read if a read failed: then the lines whose line feed was read are answered. Fails with Write if a write
/// failed or took no byte, of an answer or an explanation, or the flush failed, and with Memory if a growth was refused: then
/// a prefix of the answers is written.
pub fn explain<R: Read, W: Write, N: Write>(
    alloc: Global,
    look: NoteLook,
    reader: &mut R,
    writer: &mut W,
    notes: &mut N,
) -> Result<Totals, Refusal>
    ensures run { RunsScript result (R.remaining reader.old) (R.remaining reader.new)
        (W.contents writer.old) (W.contents writer.new) }

    // Whatever the result, each note follows the answers of all lines up to its own.
    ensures follows { NotesFollow N.contents (R.remaining reader.old)
        (W.contents writer.old) (W.contents writer.new) notes.old notes.new }
{
    let mut explainer = Explainer::new(alloc, look)?;
    with_explainer(&mut explainer, reader, writer, notes)
}

fn with_explainer<R: Read, W: Write, N: Write>(
    explainer: &mut Explainer,
    reader: &mut R,
    writer: &mut W,
    notes: &mut N,
) -> Result<Totals, Refusal>
    requires fresh { HasAnswered [] explainer.old.answers (W.contents writer.old) (W.contents writer.old) }
    ensures run { RunsScript result (R.remaining reader.old) (R.remaining reader.new)
        (W.contents writer.old) (W.contents writer.new) }
    ensures follows { NotesFollow N.contents (R.remaining reader.old)
        (W.contents writer.old) (W.contents writer.new) notes.old notes.new }
{
    let ending = for_each_line(reader, explainer, writer, notes)?;
    let totals = explainer.answers.finish(writer)?;
    match ending {
        Ending::Failed => Err(Refusal::Read),
        Ending::Whole | Ending::TooLong => Ok(totals),
    }
}
