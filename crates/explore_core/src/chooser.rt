//! `Chooser`: which clients go at a state. Where a few clients are enough to know where every schedule leads, only these go. It asks
//! `choose` for a choice, which is followed only if `is_persistent` finds it so. The search has one for a plan.
//!
//! Invariant, of a chooser that is ready for the plan: if it chooses, the plan is calm, and no client waits inside a block.
ghost use Rattle.std.specs.Prelude.{◌≡◌, true, IfOk};
ghost use Rattle.explore_core.specs.Choosing.{IsReady, IsChoiceAt};
ghost use Rattle.explore_core.specs.Found.{CanBeExplored};
ghost use Rattle.explore_core.specs.Schedule.{Standing};
ghost use Rattle.explore_core.specs.Search.{AreAsked, IsAt};

use crate::block::{are_outside, never_waits};
use crate::choice::Choice;
use crate::persistence::is_persistent;
use crate::plan::Plan;
use crate::position::Position;
use crate::room::is_calm;
use crate::trial::choose;
use point_core::Name;
use std::alloc::{AllocError, Global};

/// Which orders of the clients a search follows.
#[derive(Clone, Copy)]
pub enum Orders {
    /// Enough orders to know where every schedule leads.
    Enough,
    /// Every order: at each state all clients go.
    All,
}

#[derive(Drop)]
pub(crate) struct Chooser {
    // whether a state's clients are chosen at all
    chooses: bool,
}

impl Chooser {
    pub(crate) fn new(plan: &Plan, orders: Orders) -> Chooser
        requires explorable { CanBeExplored plan.now }
        ensures ready { IsReady plan.now result }
    {
        let chooses = orders.are_enough() && is_calm(plan) && never_waits(plan);
        Chooser { chooses }
    }

    /// Chooses clients at the state where the position is. Whether no other needs to go there, if others may go behind their lines. It
    /// chooses none where a client is inside a block: only that one may go.
    pub(crate) fn choose(
        &self,
        alloc: Global,
        plan: &Plan,
        asked: &[Name],
        position: &Position,
        choice: &mut Choice,
    ) -> Result<bool, AllocError>
        requires asked { AreAsked plan.now asked.now }
        ensures enough { IfOk result (λ enough. enough ≡ true → (now : Standing) → IsAt position.now now →
            IsChoiceAt plan.now self.now now choice.new) }
    {
        if !self.chooses || !are_outside(plan, position.made.as_slice()) {
            return Ok(false);
        }
        choose(alloc, plan, asked, position, choice)?;
        Ok(is_persistent(plan, asked, position, choice))
    }
}

impl Orders {
    fn are_enough(self) -> bool {
        match self {
            Orders::Enough => true,
            Orders::All => false,
        }
    }
}
