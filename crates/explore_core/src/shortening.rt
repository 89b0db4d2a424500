//! The schedules that are shown, shortened: a search finds an answer or a race after many lines that make no difference to it. It lists
//! thousands of answers, and a report shows few of their schedules: `explore_report` shortens these.
ghost use Rattle.std.specs.Prelude.{◌≡◌, ◌≤◌, true, length, IfOk};
ghost use Rattle.explore_core.specs.Shortening.{IsBetter, IsTrueAnswer, IsTrueRace, line_of, pair_of};

use crate::best::{Aim, Best, Purpose, improve};
use crate::found::{Given, Race};
use crate::plan::Plan;
use crate::rerun::Rerun;
use crate::shown::Shown;
use std::alloc::{AllocError, Global};

impl Given {
    /// Leaves lines out of the schedule that the answer doesn't need. Each shorter schedule is run again, so the answer is given after
    /// it.
    ///
    /// The shortened schedule need not be a shortest one. Without memory to run a schedule, the lines stay.
    pub fn shorten(&mut self, alloc: Global, plan: &Plan)
        ensures same { line_of self.new ≡ line_of self.old }
        ensures given { IsTrueAnswer plan.now self.old → IsTrueAnswer plan.now self.new }
        ensures shorter { length self.new.schedule.items ≤ length self.old.schedule.items }
    {
        let purpose = Purpose {
            shown: Shown::Answer(self.client, self.place, &self.answer),
            aim: Aim::Few,
        };
        improve(alloc, plan, &purpose, &mut self.schedule);
    }
}

impl Race {
    /// Leaves lines out of the schedule that the race doesn't need, as `Given::shorten` does for an answer.
    pub fn shorten(&mut self, alloc: Global, plan: &Plan)
        ensures same { pair_of self.new ≡ pair_of self.old }
        ensures raced { IsTrueRace plan.now self.old → IsTrueRace plan.now self.new }
        ensures shorter { length self.new.schedule.items ≤ length self.old.schedule.items }
    {
        let purpose = Purpose {
            shown: Shown::Race(self.one, self.other),
            aim: Aim::Few,
        };
        improve(alloc, plan, &purpose, &mut self.schedule);
    }
}

/// Leaves out of the schedule the last lines of one client after another, as many as it need not have.
pub(crate) fn stop_each(
    plan: &Plan,
    purpose: &Purpose<'_>,
    rerun: &mut Rerun,
    best: &mut Best,
) -> Result<(), AllocError>
    ensures better { IsBetter plan.now purpose.now best.old best.new }
{
    for (client, lines) in plan.clients.iter().enumerate() {
        stop_early(plan, purpose, rerun, best, client, lines.len())?;
    }
    Ok(())
}

/// Leaves out the last of the client's lines, then twice as many if it is shown without them, or half as many if not.
fn stop_early(
    plan: &Plan,
    purpose: &Purpose<'_>,
    rerun: &mut Rerun,
    best: &mut Best,
    client: usize,
    lines: usize,
) -> Result<(), AllocError>
    ensures better { IsBetter plan.now purpose.now best.old best.new }
{
    let mut place = lines;
    let mut count: usize = 1;
    while count > 0 {
        if leave_out(plan, purpose, rerun, best, client, place, count)? {
            place -= count;
            count = count.saturating_mul(2);
        } else {
            count /= 2;
        }
    }
    Ok(())
}

/// Leaves out that many of the client's lines above the place, and what can't be made without them, if it is shown still; whether it
/// is.
fn leave_out(
    plan: &Plan,
    purpose: &Purpose<'_>,
    rerun: &mut Rerun,
    best: &mut Best,
    client: usize,
    place: usize,
    count: usize,
) -> Result<bool, AllocError>
    ensures better { IsBetter plan.now purpose.now best.old best.new }
    ensures there { IfOk result (λ out. out ≡ true → count ≤ place) }
{
    if place < count {
        return Ok(false);
    }
    rerun.restart(plan)?;
    rerun.follow_but(plan, best.schedule.as_slice(), client, place - count)?;
    best.take(plan, purpose, rerun)
}
