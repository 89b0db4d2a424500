//! The progress of a plan's clients: how many lines each has made or skipped, which is also the place of its next line. A list has
//! one number a client. `Position` and states of a search keep such a list, and so does a report that makes a schedule's lines again.
ghost use Rattle.std.specs.Prelude.{◌≡◌, OnOk, get_or, replicate, set};

use std::alloc::AllocError;

/// Empties the list, and enters that no client has made a line.
pub fn clear_made(made: &mut Vec<usize>, clients: usize) -> Result<(), AllocError>
    ensures none { OnOk result (made.new.items ≡ replicate clients 0) }
{
    made.clear();
    for _ in 0..clients {
        made.push(0)?;
    }
    Ok(())
}

/// How many lines the client has made or skipped: the place of its next line. Zero, if there is no such client.
pub fn place_of(made: &[usize], client: usize) -> usize
    ensures { result ≡ get_or made.now client 0 }
{
    made.get(client).copied().unwrap_or(0)
}

/// Counts the client's lines as made or skipped up to this place, if there is such a client.
pub fn count_to(made: &mut Vec<usize>, client: usize, place: usize)
    ensures { made.new.items ≡ set made.old.items client place }
{
    set(made.as_mut_slice(), client, place);
}

fn set(made: &mut [usize], client: usize, place: usize)
    ensures { made.new ≡ set made.old client place }
{
    if client < made.len() {
        made[client] = place;
    }
}
