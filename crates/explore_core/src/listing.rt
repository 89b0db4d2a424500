//! The answers found so far, each with a schedule that gives it.
ghost use Rattle.std.specs.Prelude.{◌≡◌, ◌+◌, ◌≤◌, true, IfOk, OnOk, vec_len};
ghost use Rattle.std.specs.Vec.{vec_capacity};
ghost use Rattle.explore_core.specs.Found.{Lists};
ghost use Rattle.explore_core.specs.Search.{Records};

use crate::found::Given;
use crate::list::shown;
use command_core::Answer;
use std::alloc::AllocError;

/// Lists the answer of the line with the schedule, unless the answer is listed already.
pub(crate) fn record(
    list: &mut Vec<Given>,
    client: usize,
    place: usize,
    answer: Answer,
    schedule: &[u16],
) -> Result<(), AllocError>
    ensures records { Records list.old.items list.new.items client place answer schedule.now }
    ensures lists { OnOk result (Lists list.new.items client place answer) }
{
    if is_listed(list.as_slice(), client, place, &answer) {
        drop(answer);
        return Ok(());
    }
    let Ok(schedule) = prepare(list, schedule) else {
        drop(answer);
        return Err(AllocError);
    };
    list.push_reserved(Given {
        client,
        place,
        answer,
        schedule,
    });
    Ok(())
}

/// Makes room for one more, and gives the schedule as it is shown.
fn prepare(list: &mut Vec<Given>, schedule: &[u16]) -> Result<Vec<usize>, AllocError>
    ensures same { list.new.items ≡ list.old.items }
    ensures room { OnOk result (vec_len list.new + 1 ≤ vec_capacity list.new) }
    ensures shown { IfOk result (λ shown. shown.items ≡ schedule.now) }
{
    list.reserve(1)?;
    let schedule = shown(*list.allocator(), schedule)?;
    Ok(schedule)
}

fn is_listed(list: &[Given], client: usize, place: usize, answer: &Answer) -> bool
    ensures listed { result ≡ true → Lists list.now client place answer.now }
    ensures all { Lists list.now client place answer.now → result ≡ true }
{
    // From the end, where the answers of nearby states are.
    for index in 0..list.len() {
        let last = list.len() - 1 - index;
        if is_of(&list[last], client, place, answer) {
            return true;
        }
    }
    false
}

fn is_of(given: &Given, client: usize, place: usize, answer: &Answer) -> bool
    ensures is { result ≡ true → (given.now.client ≡ client) × (given.now.place ≡ place) × (given.now.answer ≡ answer.now) }
    ensures all { given.now.client ≡ client → given.now.place ≡ place → given.now.answer ≡ answer.now → result ≡ true }
{
    given.client == client && given.place == place && is_same_answer(&given.answer, answer)
}

pub(crate) fn is_same_answer(answer: &Answer, other: &Answer) -> bool
    ensures is { result ≡ true → answer.now ≡ other.now }
    ensures all { answer.now ≡ other.now → result ≡ true }
{
    *answer == *other
}
