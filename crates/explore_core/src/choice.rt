//! `Choice`: which clients the reduced search lets go at a state, how far each other client may come before one of them goes, and what
//! may be pending until then. What makes it proposes it without a proof (`trial.rt`), and the search follows it only if it passes
//! `is_persistent` (`persistence.rt`).
ghost use Rattle.std.specs.Prelude.{◌≡◌};
ghost use Rattle.explore_core.specs.Choice.{choice_of};

use crate::flow::Flow;
use crate::progress::count_to;
use std::alloc::{AllocError, Global};

/// A choice of clients.
#[derive(Drop)]
pub(crate) struct Choice {
    /// Whether each client is chosen.
    pub(crate) chosen: Vec<bool>,
    /// For each client, the place of the line that stops it while the chosen clients stand still: one with which it waits, or the end.
    pub(crate) limits: Vec<usize>,
    /// What may be pending while the chosen clients stand still.
    pub(crate) flow: Flow,
}

impl Choice {
    /// No client.
    pub(crate) fn new(alloc: Global) -> Choice {
        Choice {
            chosen: Vec::new(alloc),
            limits: Vec::new(alloc),
            flow: Flow::new(alloc),
        }
    }

    pub(crate) fn clear(&mut self) {
        self.chosen.clear();
        self.limits.clear();
    }

    /// Chooses none of as many clients as there are places, and stops each at its place.
    pub(crate) fn begin(&mut self, made: &[usize]) -> Result<(), AllocError> {
        self.chosen.clear();
        for _ in made {
            self.chosen.push(false)?;
        }
        self.stop_all(made)
    }

    pub(crate) fn choose(&mut self, client: usize) {
        if client < self.chosen.len() {
            self.chosen[client] = true;
        }
    }

    /// Stops each client at its place.
    pub(crate) fn stop_all(&mut self, places: &[usize]) -> Result<(), AllocError> {
        self.limits.clear();
        self.limits.extend_from_slice(places)?;
        Ok(())
    }

    pub(crate) fn stop(&mut self, client: usize, place: usize) {
        count_to(&mut self.limits, client, place);
    }

    pub(crate) fn is_chosen(&self, client: usize) -> bool
        ensures { result ≡ (choice_of self.now).chosen client }
    {
        self.chosen.get(client).copied().unwrap_or(false)
    }

    /// The place that the client does not pass while the chosen clients stand still.
    pub(crate) fn limit(&self, client: usize) -> usize
        ensures { result ≡ (choice_of self.now).limit client }
    {
        self.limits.get(client).copied().unwrap_or(0)
    }
}
