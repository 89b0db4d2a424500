//! Lists of clients: schedules, as a search keeps them and as they are shown.
ghost use Rattle.std.specs.Prelude.{◌≡◌, ◌++◌, ◌∷◌, [], IfOk};

use std::alloc::{AllocError, Global};

/// How many clients a plan may have. A search keeps thousands of schedules, so a schedule takes two bytes for each client.
pub const SCHEDULED_CLIENTS: usize = 65_536;

/// The clients as they are shown.
pub(crate) fn shown(alloc: Global, clients: &[u16]) -> Result<Vec<usize>, AllocError>
    ensures shown { IfOk result (λ shown. shown.items ≡ clients.now) }
{
    let mut shown = Vec::with_capacity(alloc, clients.len())?;
    for client in clients {
        shown.push(usize::from(*client))?;
    }
    Ok(shown)
}

/// The clients, and one more.
///
/// Fails also for a client from `SCHEDULED_CLIENTS` on.
pub(crate) fn with_client(
    alloc: Global,
    clients: &[u16],
    client: usize,
) -> Result<Vec<u16>, AllocError>
    ensures more { IfOk result (λ more. more.items ≡ clients.now ++ client ∷ []) }
{
    if client >= SCHEDULED_CLIENTS {
        return Err(AllocError);
    }
    let mut more = Vec::with_capacity(alloc, clients.len() + 1)?;
    more.extend_from_slice(clients)?;
    more.push(client as u16)?;
    Ok(more)
}
