//! `CheckTally`: how many answers a script has, how many of them had expected lines, and how many differed; and how many of its
//! notes are slips.
ghost use Rattle.std.specs.Prelude.{◌≡◌, ◌+◌, ◌^◌, ◌<◌};
ghost use Rattle.check_core.specs.Finding.{is_asked_finding, is_difference};

use crate::finding::CheckFinding;

/// The counts of a script's answers.
#[derive(Clone, Copy)]
pub struct CheckTally {
    /// The lines that have an answer.
    pub lines: u64,
    /// How many of them have expected lines. Lines that are expected before the first command count as one more.
    pub checked: u64,
    /// How many of the checked ones answered otherwise.
    pub differing: u64,
    /// The notes that are nearly `#= TEXT`, and expect nothing. `ScriptChecker` counts them.
    pub slips: u64,
}

impl CheckTally {
    ghost use Rattle.check_core.specs.Tally.{one_if, with_counts, IsEmpty, HasRoom};

    pub(crate) fn new() -> Self
        ensures empty { IsEmpty result }
    {
        CheckTally {
            lines: 0,
            checked: 0,
            differing: 0,
            slips: 0,
        }
    }

    /// Counts one more finding.
    pub(crate) fn count(&mut self, finding: CheckFinding)
        requires { HasRoom self.old }
        ensures lines { self.new.lines ≡ self.old.lines }
        ensures checked { self.new.checked ≡ self.old.checked + one_if (is_asked_finding finding) }
        ensures differing { self.new.differing ≡ self.old.differing + one_if (is_difference finding) }
    {
        match finding {
            CheckFinding::Unasked => {}
            CheckFinding::AsExpected => self.checked += 1,
            CheckFinding::Differs => {
                self.checked += 1;
                self.differing += 1;
            }
        }
    }

    /// The counts of both together. A sum that would pass the greatest number stays at it.
    pub(crate) fn with(self, other: &CheckTally) -> CheckTally
        ensures { result ≡ with_counts self other.now }
    {
        CheckTally {
            lines: self.lines.saturating_add(other.lines),
            checked: self.checked.saturating_add(other.checked),
            differing: self.differing.saturating_add(other.differing),
            slips: self.slips.saturating_add(other.slips),
        }
    }
}
