//! The schedules that are shown, brought near to the order of the plan's lines by their turns, such as the order of a recorded run: who
//! has the program follow such a schedule has it leave its run late, and for few lines.
//!
//! A finding is often that one client is late: it waits with what is shown, and the others go on as in the plan's order. So this is tried
//! first. Then, from the first line on, clients whose lines are next in turn go ahead of the rest of the schedule (`stretch.rt`).
ghost use Rattle.std.specs.Prelude.{◌≡◌, ◌≤◌};
ghost use Rattle.explore_core.specs.Shortening.{GetsStuck, IsBetter, IsTrueAnswer, IsTrueRace, line_of, overtaken, pair_of, with_line};

use crate::best::{Aim, Best, Purpose, improve};
use crate::found::{Given, Race};
use crate::plan::Plan;
use crate::position::line_at;
use crate::rerun::Rerun;
use crate::shortening::stop_each;
use crate::shown::Shown;
use crate::stretch::Stretch;
use crate::turns::overtaken_by;
use std::alloc::{AllocError, Global};

/// How many stretches of a schedule are tried at most. In each try the whole schedule is run again.
const STRETCHES: usize = 2_000;

/// How many lines the others make at most while a client waits.
const WAITING_LINES: usize = 256;

impl Given {
    /// Brings the schedule near to the order of the plan's lines by their turns, as far as the answer is still given after it. It may
    /// have more lines then.
    ///
    /// Without memory to run a schedule, it stays as it is.
    pub fn bring_near(&mut self, alloc: Global, plan: &Plan)
        ensures same { line_of self.new ≡ line_of self.old }
        ensures given { IsTrueAnswer plan.now self.old → IsTrueAnswer plan.now self.new }
        ensures nearer { overtaken plan.now (with_line self.new) ≤ overtaken plan.now (with_line self.old) }
    {
        let purpose = Purpose {
            shown: Shown::Answer(self.client, self.place, &self.answer),
            aim: Aim::Near,
        };
        improve(alloc, plan, &purpose, &mut self.schedule);
    }
}

impl Race {
    /// Brings the schedule near to the order of the plan's lines, as `Given::bring_near` does for an answer.
    pub fn bring_near(&mut self, alloc: Global, plan: &Plan)
        ensures same { pair_of self.new ≡ pair_of self.old }
        ensures raced { IsTrueRace plan.now self.old → IsTrueRace plan.now self.new }
        ensures nearer { overtaken plan.now self.new.schedule.items ≤ overtaken plan.now self.old.schedule.items }
    {
        let purpose = Purpose {
            shown: Shown::Race(self.one, self.other),
            aim: Aim::Near,
        };
        improve(alloc, plan, &purpose, &mut self.schedule);
    }
}

/// Brings a schedule that gets stuck near to the order of the plan's lines, as `Given::bring_near` does for an answer. It need not be a
/// shortest one then.
pub fn bring_stuck_near(alloc: Global, plan: &Plan, schedule: &mut Vec<usize>)
    ensures stuck { GetsStuck plan.now schedule.old.items → GetsStuck plan.now schedule.new.items }
    ensures nearer { overtaken plan.now schedule.new.items ≤ overtaken plan.now schedule.old.items }
{
    let purpose = Purpose {
        shown: Shown::Stuck,
        aim: Aim::Near,
    };
    improve(alloc, plan, &purpose, schedule);
}

/// Tries orders that are near to the turns. Last lines that overtake others for nothing are left out.
pub(crate) fn come_near(
    plan: &Plan,
    purpose: &Purpose<'_>,
    rerun: &mut Rerun,
    best: &mut Best,
) -> Result<(), AllocError>
    ensures better { IsBetter plan.now purpose.now best.old best.new }
{
    let mut stretch = Stretch::new(*best.schedule.allocator());
    let done = try_all(plan, purpose, rerun, best, &mut stretch);
    drop(stretch);
    done
}

fn try_all(
    plan: &Plan,
    purpose: &Purpose<'_>,
    rerun: &mut Rerun,
    best: &mut Best,
    stretch: &mut Stretch,
) -> Result<(), AllocError>
    ensures better { IsBetter plan.now purpose.now best.old best.new }
{
    wait(plan, purpose, rerun, best, stretch)?;
    stop_each(plan, purpose, rerun, best)?;
    go_in_turn(plan, purpose, rerun, best, stretch)?;
    stop_each(plan, purpose, rerun, best)
}

/// Tries to have a client wait with what is shown while the others go in turn.
fn wait(
    plan: &Plan,
    purpose: &Purpose<'_>,
    rerun: &mut Rerun,
    best: &mut Best,
    stretch: &mut Stretch,
) -> Result<(), AllocError>
    ensures better { IsBetter plan.now purpose.now best.old best.new }
{
    match &purpose.shown {
        Shown::Answer(client, place, _) => wait_at(
            plan, purpose, rerun, best, stretch, *client, *place,
        ),
        Shown::Race(one, other) => {
            wait_inside(plan, purpose, rerun, best, stretch, *one)?;
            wait_inside(plan, purpose, rerun, best, stretch, *other)
        }
        Shown::Stuck => Ok(()),
    }
}

/// Tries to have the client of the access wait before the access ends.
fn wait_inside(
    plan: &Plan,
    purpose: &Purpose<'_>,
    rerun: &mut Rerun,
    best: &mut Best,
    stretch: &mut Stretch,
    access: usize,
) -> Result<(), AllocError>
    ensures better { IsBetter plan.now purpose.now best.old best.new }
{
    let Some(access) = plan.access(access) else {
        return Ok(());
    };
    wait_at(
        plan,
        purpose,
        rerun,
        best,
        stretch,
        access.client,
        access.last,
    )
}

/// Tries to have the client wait with the line at this place while the others go in turn, one line further in each try.
fn wait_at(
    plan: &Plan,
    purpose: &Purpose<'_>,
    rerun: &mut Rerun,
    best: &mut Best,
    stretch: &mut Stretch,
    client: usize,
    place: usize,
) -> Result<(), AllocError>
    ensures better { IsBetter plan.now purpose.now best.old best.new }
{
    let Some(step) = line_at(plan, client, place) else {
        return Ok(());
    };
    let before = overtaken_by(plan, &[], step.turn)?;
    for more in 0..WAITING_LINES {
        let lines = before.saturating_add(more);
        if !stretch.go_but(plan, rerun, client, place, lines)? {
            return Ok(());
        }
        if best.take(plan, purpose, rerun)? {
            return Ok(());
        }
    }
    Ok(())
}

fn go_in_turn(
    plan: &Plan,
    purpose: &Purpose<'_>,
    rerun: &mut Rerun,
    best: &mut Best,
    stretch: &mut Stretch,
) -> Result<(), AllocError>
    ensures better { IsBetter plan.now purpose.now best.old best.new }
{
    for _ in 0..STRETCHES {
        if !stretch.advance(plan, purpose, rerun, best)? {
            return Ok(());
        }
    }
    Ok(())
}
