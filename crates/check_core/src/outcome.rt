//! `CheckOutcome`, the result for one script, and `Verdict`, the result for all scripts, which sets the exit status.
ghost use Rattle.std.specs.Prelude.{◌≡◌};
ghost use Rattle.std.specs.List.{list_any};
ghost use Rattle.check_core.specs.Outcome.{is_failed, is_passed, is_wrong, tally_of, verdict_of};

use crate::tally::CheckTally;
use point_core::Refusal;

/// The result of checking a script.
#[derive(Clone, Copy)]
pub enum CheckOutcome {
    /// It was checked to its end.
    Checked(CheckTally),
    /// It could not be opened, or not be checked to its end: with `Read` or with `Limit` of a script.
    Failed(Refusal),
}

/// The result of checking several scripts.
#[derive(Clone, Copy)]
pub enum Verdict {
    /// Each was checked to its end, and is as it should be.
    Passed,
    /// An answer differs, a note is a slip, or a script expects nothing that should.
    Differs,
    /// A script could not be checked to its end.
    Failed,
}

impl CheckOutcome {
    pub(crate) fn is_failed(self) -> bool
        ensures { result ≡ is_failed self }
    {
        match self {
            CheckOutcome::Checked(_) => false,
            CheckOutcome::Failed(_) => true,
        }
    }

    /// Whether a script that was checked does not pass: an answer differs, a note is a slip, or nothing is expected though
    /// something has to be.
    pub(crate) fn is_wrong(self, allows_empty: bool) -> bool
        ensures { result ≡ is_wrong allows_empty self }
    {
        match self {
            CheckOutcome::Checked(tally) => {
                tally.differing > 0 || tally.slips > 0 || (tally.checked == 0 && !allows_empty)
            }
            CheckOutcome::Failed(_) => false,
        }
    }

    /// Whether it was checked to its end, and is as it should be.
    pub(crate) fn passes(self, allows_empty: bool) -> bool
        ensures { result ≡ is_passed allows_empty self }
    {
        !self.is_failed() && !self.is_wrong(allows_empty)
    }

    /// The counts, which are 0 if it was not checked to its end.
    pub(crate) fn tally(self) -> CheckTally
        ensures { result ≡ tally_of self }
    {
        match self {
            CheckOutcome::Checked(tally) => tally,
            CheckOutcome::Failed(_) => CheckTally::new(),
        }
    }
}

/// The verdict over all outcomes. No script at all counts as one that expects nothing.
pub(crate) fn verdict_of(outcomes: &[CheckOutcome], allows_empty: bool) -> Verdict
    ensures { result ≡ verdict_of outcomes.now allows_empty }
{
    if some_failed(outcomes) {
        Verdict::Failed
    } else if some_wrong(outcomes, allows_empty) || (outcomes.is_empty() && !allows_empty) {
        Verdict::Differs
    } else {
        Verdict::Passed
    }
}

fn some_failed(outcomes: &[CheckOutcome]) -> bool
    ensures { result ≡ list_any is_failed outcomes.now }
{
    outcomes.iter().any(|outcome| outcome.is_failed())
}

fn some_wrong(outcomes: &[CheckOutcome], allows_empty: bool) -> bool
    ensures { result ≡ list_any (is_wrong allows_empty) outcomes.now }
{
    outcomes
        .iter()
        .any(|outcome| outcome.is_wrong(allows_empty))
}
