//! `fencectl run --json` and `fencectl explain`: run a script, with its exit status.
ghost use Rattle.std.specs.Prelude.{◌≡◌, Result};
ghost use Rattle.point_core.specs.declared.refusal.Refusal.{Refusal};
ghost use Rattle.script_core.specs.declared.totals.Totals.{Totals};
ghost use Rattle.script_core.specs.Run.{RunsScript};
ghost use Rattle.json_core.specs.Run.{RunsJson};
ghost use Rattle.fencectl_core.specs.Ends.{ReportsFault, run_status};

use crate::status::status_of_run;
use json_core::run_json;
use reason_core::{NoteLook, explain};
use std::alloc::Global;
use std::io::{Read, Write};

/// Runs the script of a reader, and writes its answers as JSON. A fault is reported on `errors`.
pub(crate) fn json_script<R: Read, W: Write, E: Write>(
    alloc: Global,
    reader: &mut R,
    writer: &mut W,
    errors: &mut E,
) -> u8
    ensures ended { (ended : Result Totals Refusal) × (result ≡ run_status ended)
        × RunsJson ended (R.remaining reader.old) (R.remaining reader.new) (W.contents writer.old) (W.contents writer.new)
        × ReportsFault ended (E.contents errors.old) (E.contents errors.new) }
{
    let ended = run_json(alloc, reader, writer);
    status_of_run(ended, errors)
}

/// Runs the script of a reader, and explains on `notes` why lines were refused. A fault is reported on `errors`.
pub(crate) fn explain_script<R: Read, W: Write, N: Write, E: Write>(
    alloc: Global,
    look: NoteLook,
    reader: &mut R,
    writer: &mut W,
    notes: &mut N,
    errors: &mut E,
) -> u8
    ensures ended { (ended : Result Totals Refusal) × (result ≡ run_status ended)
        × RunsScript ended (R.remaining reader.old) (R.remaining reader.new) (W.contents writer.old) (W.contents writer.new)
        × ReportsFault ended (E.contents errors.old) (E.contents errors.new) }
{
    let ended = explain(alloc, look, reader, writer, notes);
    status_of_run(ended, errors)
}
