//! Exit statuses: 0 is success, 1 a refused line or a difference, 2 a fault.
ghost use Rattle.std.specs.Prelude.{◌≡◌, ◌==◌, if◌then◌else◌};
ghost use Rattle.fencectl_core.specs.Ends.{ReportsFault, run_status};
ghost use Rattle.fencectl_core.specs.Verdicts.{check_status, verdict_status};

use crate::action::CheckReport;
use crate::fault::{FAULT, tell_fault};
use check_core::Verdict;
use point_core::Refusal;
use script_core::Totals;
use std::io::Write;

/// Every line was accepted, every answer was as expected, the clients settled, nothing hangs, or a plan is right in every
/// schedule.
pub const ACCEPTED: u8 = 0;
/// A line was refused, an answer differs, something hangs, or a plan gets stuck or answers wrongly.
pub const REFUSED: u8 = 1;

/// The status of a script that was answered to its end: 0 if every line was accepted, 1 if one was refused.
fn status_of_totals(totals: Totals) -> u8
    ensures { result ≡ (if totals.refused == 0 then 0 else 1) }
{
    if totals.refused == 0 {
        ACCEPTED
    } else {
        REFUSED
    }
}

/// The status of a run, by how it ended. A fault is reported to the writer, and its status is 2.
pub(crate) fn status_of_run<W: Write>(ended: Result<Totals, Refusal>, writer: &mut W) -> u8
    ensures status { result ≡ run_status ended }
    ensures reported { ReportsFault ended (W.contents writer.old) (W.contents writer.new) }
{
    match ended {
        Ok(totals) => status_of_totals(totals),
        Err(refusal) => tell_fault(&refusal, writer),
    }
}

/// The status of a check: 0 if every script passes, 1 if one does not, and 2 if one could not be checked to its end. Tests of the
/// Test Anything Protocol say themselves which of them fail, and their readers take another status for a broken stream: it is 0.
pub(crate) fn status_of_check(report: CheckReport, verdict: Verdict) -> u8
    ensures status { result ≡ check_status report verdict }
{
    match report {
        CheckReport::All | CheckReport::Counts => status_of_verdict(verdict),
        CheckReport::Tap => ACCEPTED,
    }
}

/// The status of a check or an update whose report is no stream of tests.
pub(crate) fn status_of_verdict(verdict: Verdict) -> u8
    ensures status { result ≡ verdict_status verdict }
{
    match verdict {
        Verdict::Passed => ACCEPTED,
        Verdict::Differs => REFUSED,
        Verdict::Failed => FAULT,
    }
}
