//! Writes the Test Anything Protocol: a plan, and a test for each script. Its version is 13 or 14.
ghost use Rattle.std.specs.Prelude.{◌≡◌, ◌⊎◌, true, false, OnOk, IfErr};
ghost use Rattle.point_core.specs.declared.refusal.Refusal.TheVariants.{Write as WriteFault, Memory};
ghost use Rattle.check_core.specs.Tap.{TellsTest};

use crate::form::CheckForm;
use crate::outcome::CheckOutcome;
use crate::parts::{ReportPart, write_parts};
use crate::scripts::CheckOptions;
use crate::summary::{parts_of_outcome, parts_of_slips};
use point_core::Refusal;
use std::alloc::Global;
use std::io::Write;

/// Writes the version and the plan, which has that many tests. If there is none, but one should be, it writes one that fails. Other
/// forms have nothing of this.
pub(crate) fn write_plan<W: Write>(
    alloc: Global,
    options: &CheckOptions,
    tests: usize,
    writer: &mut W,
) -> Result<(), Refusal>
    ensures refusals { IfErr result (λ refusal. (refusal ≡ WriteFault) ⊎ (refusal ≡ Memory)) }
{
    let CheckForm::Tap(version) = options.form else {
        return Ok(());
    };
    let (tests, end) = match tests {
        0 if !options.allows_empty => (1, "\nnot ok 1 - no script was found\n"),
        _ => (tests as u64, "\n"),
    };
    let parts = [
        ReportPart::Number(version),
        ReportPart::Text("\n1.."),
        ReportPart::Number(tests),
        ReportPart::Text(end),
    ];
    write_parts(alloc, "TAP version ", &parts, writer)
}

/// The test of a script.
#[derive(Clone, Copy)]
pub(crate) struct Test<'a> {
    /// How many tests come before it.
    pub(crate) before: usize,
    pub(crate) name: &'a str,
    pub(crate) outcome: CheckOutcome,
    /// Each answer that differs, as an item.
    pub(crate) differences: &'a [u8],
}

impl<'a> Test<'a> {
    /// Writes the test, which `passes` or does not.
    pub(crate) fn write<W: Write>(
        &self,
        alloc: Global,
        passes: bool,
        writer: &mut W,
    ) -> Result<(), Refusal>
        ensures told { OnOk result (TellsTest passes (W.contents writer.old) (W.contents writer.new)) }
        ensures refusals { IfErr result (λ refusal. (refusal ≡ WriteFault) ⊎ (refusal ≡ Memory)) }
    {
        if passes {
            self.write_passed(alloc, writer)
        } else {
            self.write_failed(alloc, writer)
        }
    }

    /// Writes a test that passes, which is skipped if its script expects nothing.
    fn write_passed<W: Write>(&self, alloc: Global, writer: &mut W) -> Result<(), Refusal>
        ensures told { OnOk result (TellsTest true (W.contents writer.old) (W.contents writer.new)) }
        ensures refusals { IfErr result (λ refusal. (refusal ≡ WriteFault) ⊎ (refusal ≡ Memory)) }
    {
        let end = match self.outcome.tally().checked {
            0 => " # SKIP expects nothing\n",
            _ => "\n",
        };
        let number = self.number();
        let parts = [
            ReportPart::Number(number),
            ReportPart::Text(" - "),
            ReportPart::Description(self.name),
            ReportPart::Text(end),
        ];
        write_parts(alloc, "ok ", &parts, writer)
    }

    /// Writes a test that does not pass, why, and each answer that differs.
    fn write_failed<W: Write>(&self, alloc: Global, writer: &mut W) -> Result<(), Refusal>
        ensures told { OnOk result (TellsTest false (W.contents writer.old) (W.contents writer.new)) }
        ensures refusals { IfErr result (λ refusal. (refusal ≡ WriteFault) ⊎ (refusal ≡ Memory)) }
    {
        let list = match self.differences.is_empty() {
            true => "\"\n",
            false => "\"\n  differences:\n",
        };
        let [what, count, of, all, end] = parts_of_outcome(self.outcome);
        let [having, slips, noun] = parts_of_slips(self.outcome);
        let number = self.number();
        let parts = [
            ReportPart::Number(number),
            ReportPart::Text(" - "),
            ReportPart::Description(self.name),
            ReportPart::Text("\n  ---\n  message: \""),
            what,
            count,
            of,
            all,
            end,
            having,
            slips,
            noun,
            ReportPart::Text(list),
            ReportPart::Bytes(self.differences),
            ReportPart::Text("  ...\n"),
        ];
        write_parts(alloc, "not ok ", &parts, writer)
    }

    /// Its number among the tests, from 1.
    fn number(&self) -> u64 {
        (self.before as u64).saturating_add(1)
    }
}
