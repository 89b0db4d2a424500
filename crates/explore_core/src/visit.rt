//! `Visit`: a desk at a state, on which one client after another tries its next line. A line that changes the desk takes it
//! away from the state, and the state's schedule is run again on the emptied desk before another client goes. A search has one
//! visit, which goes from state to state, since a desk takes kilobytes.
ghost use Rattle.std.specs.Prelude.{◌≡◌, not, OnOk};
ghost use Rattle.explore_core.specs.Schedule.{Standing, ComesTo};
ghost use Rattle.explore_core.specs.Search.{IsAt, IsVisitOf, stays, standing_of};

use crate::plan::Plan;
use crate::position::{Position, is_refused, keeps_world};
use command_core::{Answer, Command};
use std::alloc::{AllocError, Global};

#[derive(Drop)]
pub(crate) struct Visit {
    pub(crate) position: Position,
    // whether the desk is away from the state
    has_left: bool,
}

impl Visit {
    /// A visit that is at no state yet.
    pub(crate) fn new(alloc: Global) -> Visit {
        Visit {
            position: Position::new(alloc),
            has_left: true,
        }
    }

    /// Leaves the state, for any other.
    pub(crate) fn leave(&mut self)
        ensures { (now : Standing) → IsVisitOf self.new now }
    {
        self.has_left = true;
    }

    /// Runs the state's schedule again on the emptied desk, if the desk is away from the state.
    pub(crate) fn come_back(&mut self, plan: &Plan, schedule: &[u16]) -> Result<(), AllocError>
        requires comes { ComesTo plan.now schedule.now (standing_of plan.now schedule.now) }
        ensures at { OnOk result (IsVisitOf self.old (standing_of plan.now schedule.now) →
            IsAt self.new.position (standing_of plan.now schedule.now)) }
    {
        if !self.has_left {
            return Ok(());
        }
        self.position.restart(plan, schedule)?;
        self.has_left = false;
        Ok(())
    }

    /// Notes whether the command, which got this answer, took the desk away from the state.
    pub(crate) fn note(&mut self, command: &Command, answer: &Answer)
        ensures left { self.new.has_left ≡ not (stays command.now answer.now) }
        ensures position { self.new.position ≡ self.old.position }
    {
        self.has_left = !stays(command, answer);
    }
}

/// Whether the command, with this answer, has left every desk as it was.
fn stays(command: &Command, answer: &Answer) -> bool
    ensures { result ≡ stays command.now answer.now }
{
    keeps_world(command) || is_refused(answer)
}
