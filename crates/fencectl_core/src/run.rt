//! `fencectl run`: runs a script, with its exit status. `script_runner` calls it too.
ghost use Rattle.std.specs.Prelude.{◌≡◌, Result};
ghost use Rattle.point_core.specs.declared.refusal.Refusal.{Refusal};
ghost use Rattle.script_core.specs.declared.totals.Totals.{Totals};
ghost use Rattle.script_core.specs.Run.{RunsScript};
ghost use Rattle.fencectl_core.specs.Ends.{ReportsFault, run_status};

use crate::status::status_of_run;
use script_core::engine;
use std::alloc::Global;
use std::io::{Read, Write};

/// Runs the script of a reader, and gives the exit status. A fault is reported on `errors`, and its status is 2.
pub fn run_script<R: Read, W: Write, E: Write>(
    alloc: Global,
    reader: &mut R,
    writer: &mut W,
    errors: &mut E,
) -> u8
    ensures ended { (ended : Result Totals Refusal) × (result ≡ run_status ended)
        × RunsScript ended (R.remaining reader.old) (R.remaining reader.new) (W.contents writer.old) (W.contents writer.new)
        × ReportsFault ended (E.contents errors.old) (E.contents errors.new) }
{
    let ended = engine(alloc, reader, writer);
    status_of_run(ended, errors)
}
