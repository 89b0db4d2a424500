//! The order of a plan's lines by their turns: how many lines a line overtakes, and whose line is next.
ghost use Rattle.std.specs.Prelude.{◌≡◌, ◌+◌, drop, IfOk};
ghost use Rattle.std.specs.List.{prefix_len};
ghost use Rattle.explore_core.specs.Schedule.{lines_of};
ghost use Rattle.explore_core.specs.Shortening.{comes_before, overtaken_by};

use crate::plan::{Plan, Step};
use crate::position::line_at;
use crate::progress::place_of;
use std::alloc::AllocError;

/// How many lines a line of that turn overtakes, where each client has made that many lines: of each client the next ones, as long as
/// their turns are less.
///
/// Fails only for more lines than a usize counts.
pub(crate) fn overtaken_by(plan: &Plan, made: &[usize], turn: usize) -> Result<usize, AllocError>
    ensures overtaken { IfOk result (λ overtaken. overtaken ≡ overtaken_by plan.now made.now turn) }
{
    let mut overtaken: usize = 0;
    for client in 0..plan.clients.len() {
        overtaken = sum(
            overtaken,
            overtaken_of(plan, client, place_of(made, client), turn),
        )?;
    }
    Ok(overtaken)
}

fn overtaken_of(plan: &Plan, client: usize, place: usize, turn: usize) -> usize
    ensures { result ≡ prefix_len (comes_before turn) (drop place (lines_of plan.now client)) }
{
    let Some(lines) = plan.clients.get(client) else {
        return 0;
    };
    count_before(lines.as_slice(), place, turn)
}

/// How many lines from this place on have turns that are less, up to the first that hasn't.
fn count_before(lines: &[Step], place: usize, turn: usize) -> usize
    ensures { result ≡ prefix_len (comes_before turn) (drop place lines.now) }
{
    let mut count = 0;
    for at in place..lines.len() {
        if lines[at].turn >= turn {
            return count;
        }
        count += 1;
    }
    count
}

pub(crate) fn sum(one: usize, other: usize) -> Result<usize, AllocError>
    ensures sum { IfOk result (λ sum. sum ≡ one + other) }
{
    let Some(sum) = one.checked_add(other) else {
        // This can't happen: no plan has so many lines.
        return Err(AllocError);
    };
    Ok(sum)
}

/// The client whose next line has the least turn, of those that are not held.
pub(crate) fn first_in_turn(plan: &Plan, made: &[usize], held: &[usize]) -> Option<usize> {
    let mut first = None;
    let mut least = usize::MAX;
    for client in 0..plan.clients.len() {
        if held.contains(&client) {
            continue;
        }
        let Some(step) = line_at(plan, client, place_of(made, client)) else {
            continue;
        };
        if first.is_none() || step.turn < least {
            first = Some(client);
            least = step.turn;
        }
    }
    first
}
