//! `Best`: a schedule that is made better as long as another is found that shows what it shows, and costs no more. `shortening.rt` and
//! `nearing.rt` try which clients go.
ghost use Rattle.std.specs.Prelude.{◌≡◌, ◌≤◌, true, IfOk, IfSome};
ghost use Rattle.explore_core.specs.Shortening.{HasRun, IsBetter, IsShownAfter, cost_of};

use crate::level::are_same;
use crate::nearing::come_near;
use crate::plan::Plan;
use crate::rerun::Rerun;
use crate::shortening::stop_each;
use crate::shown::Shown;
use std::alloc::{AllocError, Global};
use std::mem::swap;

/// What a schedule is shown for, and what it should be.
#[derive(Clone, Copy)]
pub(crate) struct Purpose<'a> {
    pub(crate) shown: Shown<'a>,
    pub(crate) aim: Aim,
}

/// What a better schedule has less of.
#[derive(Clone, Copy)]
pub(crate) enum Aim {
    /// Lines.
    Few,
    /// Lines that its lines overtake.
    Near,
}

#[derive(Drop)]
pub(crate) struct Best {
    pub(crate) schedule: Vec<usize>,
    /// What the schedule costs.
    cost: usize,
}

impl Best {
    /// Takes the schedule of the run, if it shows what it should, and costs no more; whether it does.
    pub(crate) fn take(
        &mut self,
        plan: &Plan,
        purpose: &Purpose<'_>,
        rerun: &mut Rerun,
    ) -> Result<bool, AllocError>
        requires run { HasRun plan.now rerun.old }
        ensures better { IsBetter plan.now purpose.now self.old self.new }
    {
        if !rerun.goes_on() {
            return Ok(false);
        }
        let cost = rerun.cost(plan, purpose)?;
        if cost > self.cost {
            return Ok(false);
        }
        if !rerun.shows(plan, &purpose.shown)? {
            return Ok(false);
        }
        swap(&mut self.schedule, &mut rerun.gone);
        self.cost = cost;
        Ok(true)
    }
}

/// Makes the schedule better. Without memory to run schedules, it stays as it is.
pub(crate) fn improve(alloc: Global, plan: &Plan, purpose: &Purpose<'_>, schedule: &mut Vec<usize>)
    ensures shown { IsShownAfter plan.now purpose.now.shown schedule.old.items →
        IsShownAfter plan.now purpose.now.shown schedule.new.items }
    ensures cost { cost_of plan.now purpose.now schedule.new.items ≤ cost_of plan.now purpose.now schedule.old.items }
{
    let mut rerun = Rerun::new(alloc);
    improve_by(plan, purpose, &mut rerun, schedule);
    drop(rerun);
}

fn improve_by(plan: &Plan, purpose: &Purpose<'_>, rerun: &mut Rerun, schedule: &mut Vec<usize>)
    ensures shown { IsShownAfter plan.now purpose.now.shown schedule.old.items →
        IsShownAfter plan.now purpose.now.shown schedule.new.items }
    ensures cost { cost_of plan.now purpose.now schedule.new.items ≤ cost_of plan.now purpose.now schedule.old.items }
{
    let Ok(Some(cost)) = known_cost(plan, purpose, rerun, schedule.as_slice()) else {
        return;
    };
    let mut best = Best {
        schedule: Vec::new(*schedule.allocator()),
        cost,
    };
    swap(schedule, &mut best.schedule);
    improve_best(plan, purpose, rerun, &mut best);
    swap(schedule, &mut best.schedule);
    drop(best);
}

/// What the schedule costs, if its clients can go one after another.
fn known_cost(
    plan: &Plan,
    purpose: &Purpose<'_>,
    rerun: &mut Rerun,
    schedule: &[usize],
) -> Result<Option<usize>, AllocError>
    ensures cost { IfOk result (λ known. IfSome known (λ cost. cost ≡ cost_of plan.now purpose.now schedule.now)) }
{
    rerun.restart(plan)?;
    rerun.follow(plan, schedule)?;
    if !rerun.goes_on() || !are_same(rerun.gone.as_slice(), schedule) {
        return Ok(None);
    }
    Ok(Some(rerun.cost(plan, purpose)?))
}

fn improve_best(plan: &Plan, purpose: &Purpose<'_>, rerun: &mut Rerun, best: &mut Best)
    ensures better { IsBetter plan.now purpose.now best.old best.new }
{
    match purpose.aim {
        Aim::Few => drop(stop_each(plan, purpose, rerun, best)),
        Aim::Near => drop(come_near(plan, purpose, rerun, best)),
    }
}
