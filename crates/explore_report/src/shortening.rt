//! The schedules that a report shows: of answers that are wrong, of races, and the one that gets stuck. Once a search has ended, they
//! are shortened, or, to predict, brought near to the order of the plan's lines, so all forms of a report show the same schedules.
ghost use Rattle.std.specs.Prelude.{◌≡◌};
ghost use Rattle.explore_core.specs.Shortening.{AreShortened, IsShortened, IsTrueAnswer, IsTrueRace, line_of, pair_of};
ghost use Rattle.explore_report.specs.Shown.{IsBroughtNear, StaysStuck};

use crate::case::answer_text;
use crate::context::Section;
use crate::finding::finding_of;
use crate::plan_script::PlanScript;
use crate::purpose::Purpose;
use explore_core::{Found, Given, Plan, Race, bring_stuck_near};
use std::alloc::{AllocError, Global};

/// Leaves out of the schedules of wrong answers and of races what these don't need. Without memory, schedules stay as they are.
pub(crate) fn shorten(alloc: Global, plan: &PlanScript<'_>, found: &mut Found)
    ensures shortened { IsShortened plan.now.plan found.old found.new }
{
    show_wrong(alloc, plan, Purpose::Decide, found.given.as_mut_slice());
    show_races(
        alloc,
        &plan.plan,
        Purpose::Decide,
        found.races.as_mut_slice(),
    );
}

/// Brings the schedules of wrong answers, of races, and the one that gets stuck near to the order of the plan's lines. Without memory,
/// schedules stay as they are.
pub(crate) fn bring_near(alloc: Global, plan: &PlanScript<'_>, found: &mut Found)
    ensures near { IsBroughtNear plan.now.plan found.old found.new }
{
    show_wrong(alloc, plan, Purpose::Predict, found.given.as_mut_slice());
    show_races(
        alloc,
        &plan.plan,
        Purpose::Predict,
        found.races.as_mut_slice(),
    );
    show_stuck(alloc, &plan.plan, &mut found.stuck);
}

fn show_wrong(alloc: Global, plan: &PlanScript<'_>, purpose: Purpose, given: &mut [Given])
    ensures shown { AreShortened line_of (IsTrueAnswer plan.now.plan) given.old given.new }
{
    for one in given.iter_mut() {
        show_if_wrong(alloc, plan, purpose, one);
    }
}

fn show_if_wrong(alloc: Global, plan: &PlanScript<'_>, purpose: Purpose, given: &mut Given)
    ensures same { line_of given.new ≡ line_of given.old }
    ensures right { IsTrueAnswer plan.now.plan given.old → IsTrueAnswer plan.now.plan given.new }
{
    if let Ok(true) = is_wrong(alloc, plan, given) {
        show_answer(alloc, &plan.plan, purpose, given);
    }
}

fn show_answer(alloc: Global, plan: &Plan, purpose: Purpose, given: &mut Given)
    ensures same { line_of given.new ≡ line_of given.old }
    ensures right { IsTrueAnswer plan.now given.old → IsTrueAnswer plan.now given.new }
{
    match purpose {
        Purpose::Decide => given.shorten(alloc, plan),
        Purpose::Predict => given.bring_near(alloc, plan),
    }
}

/// Whether the answer of a client's line is a finding.
fn is_wrong(alloc: Global, plan: &PlanScript<'_>, given: &Given) -> Result<bool, AllocError> {
    let Some(index) = plan.row_at(Section::Client(given.client), given.place) else {
        return Ok(false);
    };
    let text = answer_text(alloc, &given.answer)?;
    Ok(finding_of(plan, index, &given.answer, text.as_slice()).is_some())
}

fn show_races(alloc: Global, plan: &Plan, purpose: Purpose, races: &mut [Race])
    ensures shown { AreShortened pair_of (IsTrueRace plan.now) races.old races.new }
{
    for race in races.iter_mut() {
        show_race(alloc, plan, purpose, race);
    }
}

fn show_race(alloc: Global, plan: &Plan, purpose: Purpose, race: &mut Race)
    ensures same { pair_of race.new ≡ pair_of race.old }
    ensures right { IsTrueRace plan.now race.old → IsTrueRace plan.now race.new }
{
    match purpose {
        Purpose::Decide => race.shorten(alloc, plan),
        Purpose::Predict => race.bring_near(alloc, plan),
    }
}

fn show_stuck(alloc: Global, plan: &Plan, stuck: &mut Option<Vec<usize>>)
    ensures stuck { StaysStuck plan.now stuck.old stuck.new }
{
    if let Some(schedule) = stuck {
        bring_stuck_near(alloc, plan, schedule);
    }
}
