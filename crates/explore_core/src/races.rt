//! The races found so far, each with a schedule after which both clients access the buffer. A search looks for them at each state that
//! it visits: which lines clients make next there is all that a race depends on.
ghost use Rattle.std.specs.Prelude.{◌≡◌, ◌<◌, true, IfOk, OnOk};
ghost use Rattle.std.specs.List.{list_any};
ghost use Rattle.explore_core.specs.Access.{RaceAt};
ghost use Rattle.explore_core.specs.Found.{ListsRace};
ghost use Rattle.explore_core.specs.Search.{Grows, HasRaces, HasRacesOf, IsState, RecordsRace, is_of, standing_at};

use crate::found::{Found, Race};
use crate::list::shown;
use crate::plan::Plan;
use crate::state::State;
use std::alloc::AllocError;

/// Lists the races at the state that are not listed yet.
pub(crate) fn list_races(
    plan: &Plan,
    depth: usize,
    state: &State,
    found: &mut Found,
) -> Result<(), AllocError>
    requires state { IsState plan.now depth state.now }
    ensures grows { Grows plan.now depth found.old found.new }
    ensures lists { OnOk result (HasRaces plan.now found.new (standing_at plan.now state.now)) }
{
    for other in 0..plan.accesses.len() {
        list_races_of(plan, depth, state, other, found)?;
    }
    Ok(())
}

/// Lists the races of the access with those before it.
fn list_races_of(
    plan: &Plan,
    depth: usize,
    state: &State,
    other: usize,
    found: &mut Found,
) -> Result<(), AllocError>
    requires state { IsState plan.now depth state.now }
    ensures grows { Grows plan.now depth found.old found.new }
    ensures lists { OnOk result (HasRacesOf plan.now found.new (standing_at plan.now state.now) other) }
{
    for one in 0..other {
        list_race(plan, depth, state, one, other, found)?;
    }
    Ok(())
}

/// Lists the two accesses, if they are a race at the state.
fn list_race(
    plan: &Plan,
    depth: usize,
    state: &State,
    one: usize,
    other: usize,
    found: &mut Found,
) -> Result<(), AllocError>
    requires state { IsState plan.now depth state.now }
    requires before { one < other }
    ensures grows { Grows plan.now depth found.old found.new }
    ensures lists { OnOk result (RaceAt plan.now (standing_at plan.now state.now).made one other →
        ListsRace found.new.races.items one other) }
{
    if !is_race(plan, state.made.as_slice(), one, other) {
        return Ok(());
    }
    record(&mut found.races, one, other, state.schedule.as_slice())?;
    Ok(())
}

/// Whether the two accesses are a race where each client has made that many lines.
pub(crate) fn is_race(plan: &Plan, made: &[usize], one: usize, other: usize) -> bool
    requires before { one < other }
    ensures is { result ≡ true → RaceAt plan.now made.now one other }
    ensures all { RaceAt plan.now made.now one other → result ≡ true }
{
    let Some(first) = plan.access(one) else {
        return false;
    };
    let Some(second) = plan.access(other) else {
        return false;
    };
    first.is_race(&second, made)
}

/// Lists the race with the schedule, unless it is listed already.
fn record(
    races: &mut Vec<Race>,
    one: usize,
    other: usize,
    schedule: &[u16],
) -> Result<(), AllocError>
    ensures records { RecordsRace races.old.items races.new.items one other schedule.now }
    ensures lists { OnOk result (ListsRace races.new.items one other) }
{
    if is_listed(races.as_slice(), one, other) {
        return Ok(());
    }
    races.reserve(1)?;
    let schedule = shown(*races.allocator(), schedule)?;
    races.push_reserved(Race {
        one,
        other,
        schedule,
    });
    Ok(())
}

fn is_listed(races: &[Race], one: usize, other: usize) -> bool
    ensures { result ≡ list_any (is_of one other) races.now }
{
    races.iter().any(|race| is_of(race, one, other))
}

fn is_of(race: &Race, one: usize, other: usize) -> bool
    ensures { result ≡ is_of one other race.now }
{
    race.one == one && race.other == other
}
