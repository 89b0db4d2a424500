//! `explore`: a plan decided over every schedule.
ghost use Rattle.std.specs.Prelude.{◌≡◌, true, IfOk, IfErr};
ghost use Rattle.explore_core.specs.Found.{CanBeExplored, IsTrue, ListsOnce, IsAll, IsShortest, HasVisited};

use crate::chooser::Orders;
use crate::found::Found;
use crate::plan::Plan;
use crate::search::Search;
use point_core::Refusal;
use std::alloc::Global;

/// The default bound of `explore`: how many states it visits at most.
pub const STATES: usize = 1_000_000;

/// Decides a plan over every schedule, unless more than `bound` states would be visited or memory is refused: `Found` says so, and has
/// what was found until then. `Search` does the same level by level.
///
/// Fails with `Memory` only, if there is none to begin with.
pub fn explore(alloc: Global, plan: &Plan, orders: Orders, bound: usize) -> Result<Found, Refusal>
    requires explorable { CanBeExplored plan.now }
    ensures shown { IfOk result (λ found. IsTrue plan.now found) }
    ensures once { IfOk result (λ found. ListsOnce found) }
    ensures all { IfOk result (λ found. found.covered ≡ true → IsAll plan.now found) }
    ensures shortest { IfOk result (λ found. IsShortest plan.now found) }
    ensures visited { IfOk result (λ found. HasVisited plan.now bound found) }
    ensures memory { IfErr result (λ e. e ≡ Refusal.Memory) }
{
    let mut search = Search::new(alloc, plan, orders, bound)?;
    search.finish();
    Ok(search.into_found())
}
