//! `Search`: a plan explored level by level. Whenever it stops, what it has found until then is right: each thing that it shows happens,
//! and no schedule gets stuck sooner than one that is shown. Once a level has no states, every schedule is covered.
ghost use Rattle.std.specs.Prelude.{◌≡◌, ◌∷◌, [], true, false, IfErr, IfOk};
ghost use Rattle.explore_core.specs.declared.state.State.{State as Kept};
ghost use Rattle.explore_core.specs.Found.{CanBeExplored, HasVisited, IsAll, IsShortest, IsTrue, ListsOnce};
ghost use Rattle.explore_core.specs.Search.{IsState};

use crate::chooser::{Chooser, Orders};
use crate::found::Found;
use crate::level::Stop;
use crate::plan::Plan;
use crate::progress::clear_made;
use crate::setup::Setup;
use crate::state::State;
use crate::tour::Tour;
use point_core::Refusal;
use std::alloc::{AllocError, Global};
use std::marker::Model;

/// A search of a plan. It visits one level after another, until every schedule is covered, more states would be visited than the
/// bound, or memory is refused.
#[derive(Drop)]
pub struct Search<'a> {
    setup: Setup<'a>,
    tour: Tour,
    // the states of the level that comes next
    level: Vec<State>,
    // how many states are visited at most
    bound: usize,
    has_ended: bool,
}

impl<'a> Model for Search<'a> {
    ghost use Rattle.explore_core.specs.Searching.{SearchState};

    ghost Value = { SearchState };

    ghost use Rattle.std.specs.Prelude.{◌≡◌, true, false, length};
    ghost use Rattle.explore_core.specs.Levels.{IsComplete, MayVisit};
    ghost use Rattle.explore_core.specs.Search.{IsRight};
    ghost use Rattle.explore_core.specs.Tour.{IsSetup};

    ghost view = { λ s. record {
      plan = s.setup.plan.now;
      bound = s.bound;
      found = s.tour.found;
      coming = length s.level.items;
      has_ended = s.has_ended;
    } };

    ghost invariant = { λ s. IsSetup s.setup
        × IsRight s.setup.plan.now s.bound s.tour.found
        × (s.tour.found.covered ≡ true → IsComplete s.setup.plan.now s.tour.found)
        × (s.has_ended ≡ false → MayVisit s.setup.plan.now s.bound s.setup.depth s.level.items s.tour.found) };
}

impl<'a> Search<'a> {
    /// A search that has visited no level. `orders` says which orders of the clients it follows: it makes a difference to the number of
    /// states, and to which schedules are shown, but not to what is found.
    ///
    /// Fails with `Memory` only.
    pub fn new(
        alloc: Global,
        plan: &'a Plan,
        orders: Orders,
        bound: usize,
    ) -> Result<Search<'a>, Refusal>
        requires explorable { CanBeExplored plan.now }
        ensures plan { IfOk result (λ search. search.plan ≡ plan.now) }
        ensures bound { IfOk result (λ search. search.bound ≡ bound) }
        ensures memory { IfErr result (λ refusal. refusal ≡ Refusal.Memory) }
    {
        let asked = plan.asked_files(alloc)?;
        let chooser = Chooser::new(plan, orders);
        let level = first_level(alloc, plan)?;
        let setup = Setup {
            alloc,
            plan,
            asked,
            chooser,
            depth: 0,
        };
        Ok(Search {
            setup,
            tour: Tour::new(alloc),
            level,
            bound,
            has_ended: bound == 0,
        })
    }

    /// Visits one level. Whether there may be another: if not, `found` says whether every schedule is covered.
    pub fn next_level(&mut self) -> bool
        ensures plan { self.new.plan ≡ self.old.plan }
        ensures bound { self.new.bound ≡ self.old.bound }
        ensures covered { self.old.has_ended ≡ false → self.old.coming ≡ 0 → self.new.found.covered ≡ true }
    {
        if self.has_ended {
            return false;
        }
        if self.level.is_empty() {
            self.tour.found.covered = true;
            self.has_ended = true;
            return false;
        }
        let Some(deeper) = self.setup.depth.checked_add(1) else {
            self.has_ended = true;
            return false;
        };
        match self
            .tour
            .visit_level(&self.setup, self.level.as_slice(), self.bound)
        {
            Ok(level) => {
                self.level = level;
                self.setup.depth = deeper;
                true
            }
            Err(stop) => {
                self.tour.found.out_of_memory = stop.is_memory();
                self.has_ended = true;
                false
            }
        }
    }

    /// Visits one level after another, until the search has ended.
    pub fn finish(&mut self)
        ensures plan { self.new.plan ≡ self.old.plan }
        ensures bound { self.new.bound ≡ self.old.bound }
    {
        for _ in 0..usize::MAX {
            if !self.next_level() {
                return;
            }
        }
    }

    /// What is found so far.
    pub fn found(&self) -> &Found
        ensures found { result.now ≡ self.now.found }
        ensures shown { IsTrue self.now.plan result.now }
        ensures once { ListsOnce result.now }
        ensures all { result.now.covered ≡ true → IsAll self.now.plan result.now }
        ensures shortest { IsShortest self.now.plan result.now }
        ensures visited { HasVisited self.now.plan self.now.bound result.now }
    {
        &self.tour.found
    }

    /// What is found, once there is no other level to visit, or enough is found.
    pub fn into_found(self) -> Found
        ensures shown { IsTrue self.entry.plan result }
        ensures once { ListsOnce result }
        ensures all { result.covered ≡ true → IsAll self.entry.plan result }
        ensures shortest { IsShortest self.entry.plan result }
        ensures visited { HasVisited self.entry.plan self.entry.bound result }
    {
        let Search { tour, .. } = self;
        tour.into_found()
    }
}

/// The state in which no client has made a line.
fn first_level(alloc: Global, plan: &Plan) -> Result<Vec<State>, AllocError>
    ensures first { IfOk result (λ level. (state : Kept) × (level.items ≡ state ∷ []) × IsState plan.now 0 state) }
{
    let state = first_state(alloc, plan)?;
    let mut level = Vec::new(alloc);
    level.push(state)?;
    Ok(level)
}

fn first_state(alloc: Global, plan: &Plan) -> Result<State, AllocError>
    ensures first { IfOk result (IsState plan.now 0) }
{
    let mut made = Vec::new(alloc);
    clear_made(&mut made, plan.clients.len())?;
    Ok(State {
        schedule: Vec::new(alloc),
        made,
    })
}
