//! `State`: the state of a plan after a schedule. A search keeps states by level (`level.rt`), and looks at the desk to find them again.
ghost use Rattle.std.specs.Prelude.{◌≡◌, ◌++◌, ◌∷◌, [], IfOk};

use crate::list::with_client;
use std::alloc::{AllocError, Global};

/// The first schedule that leads to the state, and how many lines each client has made or skipped there.
#[derive(Drop)]
pub(crate) struct State {
    pub(crate) schedule: Vec<u16>,
    pub(crate) made: Vec<usize>,
}

impl State {
    /// The state after the schedule and one more line of the client, where the clients have made these lines.
    pub(crate) fn after(
        alloc: Global,
        schedule: &[u16],
        client: usize,
        made: &[usize],
    ) -> Result<State, AllocError>
        ensures schedule { IfOk result (λ state. state.schedule.items ≡ schedule.now ++ client ∷ []) }
        ensures made { IfOk result (λ state. state.made.items ≡ made.now) }
    {
        let schedule = with_client(alloc, schedule, client)?;
        let made = Vec::from_slice(alloc, made)?;
        Ok(State { schedule, made })
    }
}
