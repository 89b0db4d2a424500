//! `run_clients`: checks the plans, runs a client for each of them, and settles the table. It returns Ok only if the
//! table is the plans' in every schedule. `fencectl clients` calls it.
ghost use Rattle.std.specs.Prelude.{◌≡◌, ◌⊎◌, ℕ, ◌<◌, ◌≤◌, map, length, None, ◌↔◌, IsTrue, IfErr, IfOk, IfSome};
ghost use Rattle.std.specs.List.{range_with_len};
ghost use Rattle.point_core.specs.declared.context.TheConstants.{CONTEXTS};
ghost use Rattle.point_core.specs.Reach.{value_at};
ghost use Rattle.words_core.specs.declared.seat.TheConstants.{PARTS};
ghost use Rattle.words_core.specs.theorem.Seat.{SeatModel};
ghost use Rattle.resv_core.specs.Settled.{increments_of, values_of};
ghost use Rattle.clients_core.specs.Clients.{IsClientRefusal, ArePlans};
ghost use Rattle.clients_core.specs.Plans.{cause_to_refuse_plans, settled_of};
ghost use Rattle.clients_core.specs.Working.{AreWorkedOff, HasFailed, IsTorn};

use crate::gate::Gate;
use crate::gathered_values::gathered;
use crate::plans::{check_plans, total_increment};
use crate::workers::work_all;
use point_core::{Context, Reach, Refusal};
use resv_core::{Plan, Settled, SharedTable};
use std::alloc::Global;
use std::sync::Wait;
use std::thread::Threads;
use words_core::{Seat, Words};

/// Runs a client for each plan, the first on the calling thread and each other in a thread of its own, against a table of as
/// many buffers, and settles the table once all of them have ended. Client i, from 1, drives context i. Its acts are made in
/// order, each between the two calls of the gate; a look fails with `Torn` if it does not show an earlier put of its own
/// client.
///
/// Returns the settled table of the plans, which is equal in every schedule, and the table itself, on which each client
/// has completed its plan.
///
/// Before any thread starts it fails with `NoEntry` if a plan has a point of a context past the number of plans or a
/// buffer that is not below `buffers`; with `Limit` of the clients, which are 1 to `CLIENTS`, of the buffers, at most
/// `BUFFERS`, and of a plan's acts, at most `ACTS`; and with `Overflow` if the increments of a plan sum up past the
/// greatest u64. After that it fails with the refusal of the client with the least number that was refused: `Exists`,
/// `TimedOut`, `Torn` or `Memory`, which is also what a client whose thread cannot be started fails with. Then with `Torn`
/// if a context's value is not what its plan adds up to, and last as the table's `settle` does.
pub fn run_clients<R: Threads + Wait + Sync, T: SharedTable, G: Gate>(
    rt: &R,
    alloc: Global,
    buffers: usize,
    plans: &[Plan],
    gate: &G,
) -> Result<(Settled, T), Refusal>
    ensures settled { IfOk result (λ r. r.0 ≡ settled_of buffers plans.now) }
    ensures made { IfOk result (λ r.
        ((T.made_for r.1).contexts ≡ length plans.now) × ((T.made_for r.1).buffers ≡ buffers)) }
    ensures worked { IfOk result (λ r. (all : SeatModel) × (all.words ≡ T.made_for r.1) × (all.parts ≡ PARTS)
        × AreWorkedOff (T.puts r.1) (T.exports r.1) (T.made_for r.1) plans.now all) }
    ensures refused { IfSome (cause_to_refuse_plans buffers plans.now) (λ e. result ≡ Err e) }
    ensures started { cause_to_refuse_plans buffers plans.now ≡ None → IfErr result IsClientRefusal }
    ensures first { cause_to_refuse_plans buffers plans.now ≡ None →
        IfErr result (HasFailed T.puts T.exports T.settles T.made_for buffers plans.now) }
{
    check_plans(buffers, plans)?;
    let (words, all) = Words::new(alloc, plans.len(), buffers, 0)?;
    let table = T::empty(alloc, &words)?;
    let all = work_all(rt, alloc, &words, &table, gate, plans, all)?;
    let settled = settle(rt, alloc, &words, &table, plans, all)?;
    Ok((settled, table))
}

/// Gathers the seat and settles the table.
///
/// Fails with `Torn` if a context's value is not what its plan adds up to, and as the table's `settle` does.
fn settle<R: Wait, T: SharedTable>(
    rt: &R,
    alloc: Global,
    words: &Words,
    table: &T,
    plans: &[Plan],
    all: Seat,
) -> Result<Settled, Refusal>
    requires own { (T.made_for table.now ≡ words.now) × (all.words ≡ words.now) }
    requires whole { all.parts ≡ PARTS }
    requires plans { ArePlans words.now plans.now }
    ensures settled { IfOk result (λ settled. settled ≡ settled_of words.now.buffers plans.now) }
    ensures refusals { IfErr result (λ e. (e ≡ Refusal.Torn) ⊎ (e ≡ Refusal.Memory)) }
    ensures torn { IfErr result (λ e. e ≡ Refusal.Torn → IsTorn (T.settles table.now) plans.now all) }
{
    let Ok(mut all) = all.gather() else {
        unreachable!()
    };
    let reach = gathered(words, &mut all);
    if !are_totals(&reach, plans) {
        return Err(Refusal::Torn);
    }
    table.settle(rt, alloc, words, &mut all, plans)
}

/// Whether each context's value is what its plan adds up to.
fn are_totals(reach: &Reach, plans: &[Plan]) -> bool
    requires plans { length plans.now ≤ CONTEXTS }
    ensures { IsTrue result ↔ (map (value_at reach.now) (range_with_len 1 (length plans.now)) ≡ values_of plans.now) }
{
    for (index, plan) in plans.iter().enumerate() {
        if !is_total(reach.get(Context::at(index)), plan) {
            return false;
        }
    }
    true
}

fn is_total(value: u64, plan: &Plan) -> bool
    ensures { IsTrue result ↔ (value ≡ increments_of plan.now) }
{
    match total_increment(plan) {
        Some(total) => value == total,
        None => false,
    }
}
