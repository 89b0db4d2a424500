//! Checks one script from a reader: has each of its lines handled by a `ScriptChecker`, and reports the counts.
ghost use Rattle.std.specs.Prelude.{◌≡◌, ◌+◌, ◌⊎◌, List, ℕ, Err, IfOk, IfErr};
ghost use Rattle.std.specs.Io.KnownBytes.{Keeps};
ghost use Rattle.point_core.specs.declared.refusal.Refusal.TheVariants.{Limit, Read as ReadFault, Write as WriteFault, Memory};
ghost use Rattle.point_core.specs.declared.refusal.LimitKind.TheVariants.{Script};
ghost use Rattle.line_core.specs.declared.script.Ending.TheVariants.{Whole};
ghost use Rattle.line_core.specs.declared.script.TheConstants.{SCRIPT_BYTES};
ghost use Rattle.line_core.specs.Reading.{ConsumesAtMost, IsInput, WasRead};
ghost use Rattle.check_core.specs.Check.{ChecksScript, IsTooLong};

use crate::form::CheckPlace;
use crate::script_checker::ScriptChecker;
use crate::tally::CheckTally;
use line_core::{Ending, SCRIPT_BYTES, for_each_line};
use point_core::{LimitKind, Refusal};
use std::alloc::Global;
use std::io::{Read, Write};

/// Runs a script as `engine` does, and compares the answer of each line with the lines that the notes after it expect; a
/// line without such notes may answer anything. Writes each answer that differs, and each note that is a slip, in the form of its
/// place, once that is known.
///
/// A line is answered when its end is read. Only the desk and the last line that has an answer are kept, so memory does not
/// grow with the script.
///
/// Fails with Read if a read failed, with Limit if the script has more than `SCRIPT_BYTES` bytes, with Write if a write
/// failed, and with Memory if a growth was refused. Then the differences found so far are written.
pub fn check<R: Read, W: Write>(
    alloc: Global,
    place: &CheckPlace<'_>,
    reader: &mut R,
    writer: &mut W,
) -> Result<CheckTally, Refusal>
    ensures ok { IfOk result (λ tally. (script : List ℕ) × IsInput (R.remaining reader.old) script
        × ChecksScript script tally) }

    // The whole script is read, which is no longer than one may be.
    ensures reads { IfOk result (λ _. (script : List ℕ)
        × WasRead (R.remaining reader.old) (R.remaining reader.new) script Whole) }

    // If nothing differs, and no note is a slip, nothing is written.
    ensures quiet { IfOk result (λ tally. tally.differing ≡ 0 → tally.slips ≡ 0
        → Keeps (W.contents writer.old) (W.contents writer.new)) }

    // Whatever the result, at most one byte past the limit of a script is read, and none past it if a read failed.
    ensures within { ConsumesAtMost (SCRIPT_BYTES + 1) (R.remaining reader.old) (R.remaining reader.new) }
    ensures read { result ≡ Err ReadFault
        → ConsumesAtMost SCRIPT_BYTES (R.remaining reader.old) (R.remaining reader.new) }
    // A script is too long only if more of it was read than it may have.
    ensures limit { result ≡ Err (Limit Script) → IsTooLong (R.remaining reader.old) (R.remaining reader.new) }
    ensures refusals { IfErr result (λ refusal.
        (refusal ≡ ReadFault) ⊎ (refusal ≡ Limit Script) ⊎ (refusal ≡ WriteFault) ⊎ (refusal ≡ Memory)) }
{
    let mut checker = ScriptChecker::new(alloc, place);
    let ending = for_each_line(reader, &mut checker, writer, &mut ())?;
    let mut tally = checker.checker.tally;
    tally.slips = checker.slips;
    // For the proof: what a call drops is taken apart once, and not in each arm.
    drop(checker);
    match ending {
        Ending::Whole => Ok(tally),
        Ending::TooLong => Err(Refusal::Limit(LimitKind::Script)),
        Ending::Failed => Err(Refusal::Read),
    }
}
