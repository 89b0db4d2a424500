//! `ScriptChecker`: the handler of a script's lines in a check. It gives each line to a `Checker`, and counts the notes that are
//! slips. `check` makes one for each script.
ghost use Rattle.std.specs.Prelude.{◌≡◌, ◌⊎◌, ◌<◌, ◌≤◌, ◌+◌};
ghost use Rattle.point_core.specs.declared.refusal.Refusal.TheVariants.{Write as WriteFault, Memory};
ghost use Rattle.line_core.specs.declared.script.Ending.TheVariants.{Whole};

use crate::checker::Checker;
use crate::form::CheckPlace;
use line_core::{Ending, LineHandler, RawLine};
use point_core::Refusal;
use std::alloc::Global;
use std::io::Write;

/// The state of a script's check between lines.
#[derive(Drop)]
pub(crate) struct ScriptChecker<'a> {
    pub(crate) checker: Checker<'a>,
    /// How many notes were slips.
    pub(crate) slips: u64,
}

impl<'a> ScriptChecker<'a> {
    ghost use Rattle.check_core.specs.Check.{IsFresh};

    pub(crate) fn new(alloc: Global, place: &CheckPlace<'a>) -> ScriptChecker<'a>
        ensures fresh { IsFresh result.checker }
        ensures slips { result.slips ≡ 0 }
    {
        ScriptChecker {
            checker: Checker::new(alloc, place),
            slips: 0,
        }
    }
}

/// The number of slips with the line of this number, of which there are fewer before it.
fn counted(slips: u64, more: u64, number: u32) -> u64
    requires few { slips < number }
    requires one { more ≤ 1 }
    ensures { result ≡ slips + more }
{
    slips + more
}

impl<'a, W: Write> LineHandler<W, ()> for ScriptChecker<'a> {
    ghost use Rattle.check_core.specs.Checked.{HasHandled, HasEnded};

    ghost handled = { λ start lines said now. HasHandled lines said now.0 (W.contents start.1) (W.contents now.1) };

    ghost ended = { λ end start lines said now.
        end ≡ Whole → HasEnded lines said now.0 (W.contents start.1) (W.contents now.1) };

    ghost failed = { λ refusal start lines said now. (refusal ≡ WriteFault) ⊎ (refusal ≡ Memory) };

    fn handle(
        &mut self,
        line: &RawLine<'_>,
        writer: &mut W,
        _notes: &mut (),
    ) -> Result<(), Refusal> {
        let slips = self.checker.report_slip(line, writer)?;
        self.checker.take(line.number, line.bytes, writer)?;
        self.slips = counted(self.slips, slips, line.number);
        Ok(())
    }

    fn pause(&mut self, _writer: &mut W, _notes: &mut ()) -> Result<(), Refusal> {
        Ok(())
    }

    /// Does nothing if the script is too long: then it has no counts.
    fn handle_last(
        &mut self,
        line: &RawLine<'_>,
        ending: Ending,
        writer: &mut W,
        _notes: &mut (),
    ) -> Result<(), Refusal> {
        match ending {
            Ending::Whole => {
                let slips = self.checker.report_slip(line, writer)?;
                self.checker.take_last(line.number, line.bytes, writer)?;
                self.slips = counted(self.slips, slips, line.number);
                Ok(())
            }
            Ending::TooLong | Ending::Failed => Ok(()),
        }
    }
}
