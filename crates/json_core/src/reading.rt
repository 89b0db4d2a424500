//! Runs a script from a reader, and writes JSON. `run --json` calls it.
ghost use Rattle.std.specs.Prelude.{[]};
ghost use Rattle.json_core.specs.Answering.{HasAnswered};
ghost use Rattle.json_core.specs.Run.{RunsJson};

use crate::objects::Objects;
use line_core::{Ending, for_each_line};
use point_core::Refusal;
use script_core::Totals;
use std::alloc::Global;
use std::io::{Read, Write};

/// Runs a script as `engine` does, and writes for each line that has an answer a JSON object, on a line of its own: the
/// line's number and text, and its answer. A line is answered when its end is read, and its object is written before
/// the next read.
///
/// Its memory does not grow with the script, but with the objects on the desk and the text of one answer.
///
/// Fails with `Read` if a read failed: then the lines whose line feed was read are answered. Fails with `Write` if a
/// write failed or took no byte, or the flush failed, and with `Memory` if an allocation failed: then a prefix of the
/// objects is written.
pub fn run_json<R: Read, W: Write>(
    alloc: Global,
    reader: &mut R,
    writer: &mut W,
) -> Result<Totals, Refusal>
    ensures run { RunsJson result (R.remaining reader.old) (R.remaining reader.new)
        (W.contents writer.old) (W.contents writer.new) }
{
    let mut objects = Objects::new(alloc)?;
    with_objects(&mut objects, reader, writer)
}

fn with_objects<R: Read, W: Write>(
    objects: &mut Objects,
    reader: &mut R,
    writer: &mut W,
) -> Result<Totals, Refusal>
    requires fresh { HasAnswered [] [] objects.old.desk objects.old.totals
        (W.contents writer.old) (W.contents writer.old) }
    ensures run { RunsJson result (R.remaining reader.old) (R.remaining reader.new)
        (W.contents writer.old) (W.contents writer.new) }
{
    let ending = for_each_line(reader, objects, writer, &mut ())?;
    let totals = objects.finish(writer)?;
    match ending {
        Ending::Failed => Err(Refusal::Read),
        Ending::Whole | Ending::TooLong => Ok(totals),
    }
}
