//! `check_plans`: all refusals of plans that come before any thread starts, in their order. Afterwards every act is on
//! a context and a buffer of the words, and no increment overflows. `run_clients` calls it first.
ghost use Rattle.std.specs.Prelude.{◌≡◌, true, ◌^◌, ◌<◌, ◌≤◌, ◌↔◌, nat_lt, nat_le, length, None, Some, IfErr, IfSome, IsSome, OnOk};
ghost use Rattle.std.specs.List.{list_all};
ghost use Rattle.point_core.specs.declared.limits.TheConstants.{BUFFERS};
ghost use Rattle.clients_core.specs.declared.plans.TheConstants.{CLIENTS};
ghost use Rattle.clients_core.specs.Plans.{cause_to_refuse_plans, is_within, are_within, has_few_acts, never_wraps};
ghost use Rattle.resv_core.specs.Settled.{increment_by, increments_of};

use point_core::{BUFFERS, LimitKind, Refusal};
use resv_core::{Act, Plan};

/// Limit of clients.
pub const CLIENTS: usize = 8;

const _: () = prove!(CLIENTS == 8);

/// Limit of a plan's acts.
pub const ACTS: usize = 65_536;

const _: () = prove!(ACTS == 65_536);

/// Whether clients may be started with these plans, one for each.
///
/// Fails, in this order, with `NoEntry`, with `Limit` of the clients, the buffers and the plan, and with `Overflow`.
pub(crate) fn check_plans(buffers: usize, plans: &[Plan]) -> Result<(), Refusal>
    ensures refused { IfErr result (λ e. cause_to_refuse_plans buffers plans.now ≡ Some e) }
    ensures none { OnOk result (cause_to_refuse_plans buffers plans.now ≡ None) }
    ensures within { OnOk result (are_within (length plans.now) buffers plans.now ≡ true) }
    ensures clients { OnOk result ((1 ≤ length plans.now) × (length plans.now ≤ CLIENTS)) }
    ensures few_buffers { OnOk result (buffers ≤ BUFFERS) }
    ensures fits { OnOk result (list_all never_wraps plans.now ≡ true) }
{
    if !are_within(plans, plans.len(), buffers) {
        return Err(Refusal::NoEntry);
    }
    if plans.is_empty() || plans.len() > CLIENTS {
        return Err(Refusal::Limit(LimitKind::Clients));
    }
    if buffers > BUFFERS {
        return Err(Refusal::Limit(LimitKind::Buffers));
    }
    if !have_few_acts(plans) {
        return Err(Refusal::Limit(LimitKind::Plan));
    }
    if !never_wrap(plans) {
        return Err(Refusal::Overflow);
    }
    Ok(())
}

/// Whether each act names an existing context and an existing buffer.
fn are_within(plans: &[Plan], contexts: usize, buffers: usize) -> bool
    ensures { result ≡ are_within contexts buffers plans.now }
{
    plans
        .iter()
        .all(|plan| is_plan_within(plan, contexts, buffers))
}

/// Whether each act of the plan is on a context and a buffer that there is. Every round has the same contexts and buffers.
fn is_plan_within(plan: &Plan, contexts: usize, buffers: usize) -> bool
    ensures { result ≡ list_all (is_within contexts buffers) plan.now }
{
    let round = plan.round();
    round.times == 0 || are_acts_within(round.acts, contexts, buffers)
}

fn are_acts_within(acts: &[Act], contexts: usize, buffers: usize) -> bool
    ensures { result ≡ list_all (is_within contexts buffers) acts.now }
{
    acts.iter().all(|act| is_within(act, contexts, buffers))
}

fn is_within(act: &Act, contexts: usize, buffers: usize) -> bool
    ensures { result ≡ is_within contexts buffers act.now }
{
    match *act {
        Act::Inc(_) => true,
        Act::Put(buffer, point, _) => {
            buffer < buffers && usize::from(point.ctx.number()) <= contexts
        }
        Act::Look(buffer, _) => buffer < buffers,
    }
}

/// Whether no plan is too long.
fn have_few_acts(plans: &[Plan]) -> bool
    ensures { result ≡ list_all has_few_acts plans.now }
{
    plans.iter().all(|plan| plan.len() <= ACTS)
}

/// Whether no plan advances its timeline past the greatest u64.
fn never_wrap(plans: &[Plan]) -> bool
    ensures { result ≡ list_all never_wraps plans.now }
{
    plans.iter().all(|plan| never_wraps(plan))
}

fn never_wraps(plan: &Plan) -> bool
    ensures { result ≡ never_wraps plan.now }
{
    total_increment(plan).is_some()
}

/// By how much a plan advances its client's timeline, or none past the greatest u64.
pub(crate) fn total_increment(plan: &Plan) -> Option<u64>
    ensures fits { IsSome result ↔ (increments_of plan.now < 2 ^ 64) }
    ensures total { IfSome result (λ total. total ≡ increments_of plan.now) }
{
    let round = plan.round();
    if round.times == 0 {
        return Some(0);
    }
    increment_of_all(round.acts)?.checked_mul(u64::from(round.times))
}

fn increment_of_all(acts: &[Act]) -> Option<u64>
    ensures fits { IsSome result ↔ (increments_of acts.now < 2 ^ 64) }
    ensures total { IfSome result (λ total. total ≡ increments_of acts.now) }
{
    let mut total = 0u64;
    for act in acts {
        total = total.checked_add(increment_of(act))?;
    }
    Some(total)
}

fn increment_of(act: &Act) -> u64
    ensures { result ≡ increment_by act.now }
{
    match *act {
        Act::Inc(n) => n,
        Act::Put(_, _, _) | Act::Look(_, _) => 0,
    }
}
