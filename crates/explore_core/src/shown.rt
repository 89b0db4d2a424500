//! `Shown`: what a schedule is shown for, and whether it happens at a position. `Rerun` asks where the clients of a schedule have come to.
ghost use Rattle.std.specs.Prelude.{◌≡◌, true, false, None, IfOk, IsSome, ℕ, slice_get, get_or};
ghost use Rattle.explore_core.specs.Access.{RaceAt};
ghost use Rattle.explore_core.specs.Schedule.{MayGo, Standing, IsStuck, after_one, lines_of, next_line};
ghost use Rattle.explore_core.specs.Search.{Answers, IsAt};
ghost use Rattle.explore_core.specs.Shortening.{Happens};

use crate::block::may_go;
use crate::listing::is_same_answer;
use crate::plan::Plan;
use crate::position::{Position, line_at};
use crate::progress::place_of;
use crate::races::is_race;
use crate::rerun::{Turn, make_next};
use command_core::Answer;
use std::alloc::AllocError;

/// What a schedule is shown for.
#[derive(Clone, Copy)]
pub(crate) enum Shown<'a> {
    /// The client's line at this place gets this answer.
    Answer(usize, usize, &'a Answer),
    /// The two accesses are a race.
    Race(usize, usize),
    /// No client can go, though one is not done.
    Stuck,
}

/// Whether it happens at the position. A line whose answer it is, is made.
pub(crate) fn happens(
    plan: &Plan,
    shown: &Shown<'_>,
    position: &mut Position,
) -> Result<bool, AllocError>
    ensures happens { IfOk result (λ yes. yes ≡ true → (now : Standing) → IsAt position.old now → Happens plan.now now shown.now) }
{
    match shown {
        Shown::Answer(client, place, answer) => gets(plan, position, *client, *place, answer),
        Shown::Race(one, other) => Ok(races(plan, position, *one, *other)),
        Shown::Stuck => is_stuck(plan, position),
    }
}

/// Makes the client's next line, and says whether it is the line at this place, and gets this answer.
fn gets(
    plan: &Plan,
    position: &mut Position,
    client: usize,
    place: usize,
    answer: &Answer,
) -> Result<bool, AllocError>
    ensures may { IfOk result (λ gets. gets ≡ true → (now : Standing) → IsAt position.old now → MayGo plan.now now.made client) }
    ensures answers { IfOk result (λ gets. gets ≡ true → (now : Standing) →
        IsAt position.old now → Answers plan.now now client place answer.now) }
{
    let made = position.made.as_slice();
    if place_of(made, client) != place || !may_go(plan, made, client) {
        return Ok(false);
    }
    let Some(step) = line_at(plan, client, place) else {
        return Ok(false);
    };
    let Some(given) = position.go(client, place, step)? else {
        return Ok(false);
    };
    let is_same = is_same_answer(&given, answer);
    drop(given);
    Ok(is_same)
}

/// Whether the two accesses are a race at the position.
fn races(plan: &Plan, position: &Position, one: usize, other: usize) -> bool
    ensures races { result ≡ true → (now : Standing) → IsAt position.now now → RaceAt plan.now now.made one other }
{
    one < other && is_race(plan, position.made.as_slice(), one, other)
}

/// Whether no client can go at the position, though one is not done.
fn is_stuck(plan: &Plan, position: &mut Position) -> Result<bool, AllocError>
    ensures stuck { IfOk result (λ stuck. stuck ≡ true → (now : Standing) → IsAt position.old now → IsStuck plan.now now) }
{
    if !has_lines(plan, position.made.as_slice()) {
        return Ok(false);
    }
    Ok(!can_one_go(plan, position)?)
}

/// Whether a client is not done where each has made that many lines.
fn has_lines(plan: &Plan, made: &[usize]) -> bool
    ensures has { result ≡ true → (client : ℕ) × IsSome (slice_get (lines_of plan.now client) (get_or made.now client 0)) }
{
    for client in 0..plan.clients.len() {
        if line_at(plan, client, place_of(made, client)).is_some() {
            return true;
        }
    }
    false
}

/// Whether a client may and can go at the position. The first that does goes.
fn can_one_go(plan: &Plan, position: &mut Position) -> Result<bool, AllocError>
    ensures nobody { IfOk result (λ can. can ≡ false → (now : Standing) →
        IsAt position.old now → (client : ℕ) → MayGo plan.now now.made client → after_one plan.now now client ≡ None) }
{
    for client in 0..plan.clients.len() {
        match make_next(plan, position, client)? {
            Turn::Stays => {}
            _ => return Ok(true),
        }
    }
    Ok(false)
}
