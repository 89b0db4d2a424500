//! Plans of clients, on threads.
use crate::calls::{Calls, point};
use clients_core::{ACTS, CLIENTS, OpenGate, run_clients};
use point_core::{Refusal, Usage};
use resv_core::{Act, Plan, Settled, SharedTable};
use std::alloc::Global;
use std::sync::Wait;
use std::thread::Threads;

const REFUSED: Result<(), Refusal> = Err(Refusal::Memory);

/// Runs plans that are refused, and plans that succeed, against one buffer of a table of this type.
pub(crate) fn make_calls<R: Threads + Wait + Sync, T: SharedTable>(
    rt: &HostRuntime,
    threads: &R,
    calls: &mut Calls,
) {
    run_listed::<R, T>(rt, threads, calls, &[]);
    run_listed::<R, T>(rt, threads, calls, &[idle(); CLIENTS + 1]);
    run_too_long::<R, T>(rt, threads, calls);
    run_listed::<R, T>(
        rt,
        threads,
        calls,
        &[&[Act::Put(0, point(1, 1), Usage::Write)]],
    );
    run_listed::<R, T>(rt, threads, calls, &[&[Act::Inc(u64::MAX), Act::Inc(1)]]);
    run_listed::<R, T>(
        rt,
        threads,
        calls,
        &[&[
            Act::Put(0, point(0, 4), Usage::Read),
            Act::Look(0, Usage::Read),
            Act::Inc(3),
        ]],
    );
    run_listed::<R, T>(
        rt,
        threads,
        calls,
        &[
            &[Act::Put(0, point(0, 1), Usage::Write)],
            &[Act::Put(0, point(1, 1), Usage::Write)],
            &[Act::Put(0, point(2, 1), Usage::Write)],
        ],
    );
}

/// A client that does nothing.
fn idle() -> &'static [Act] {
    &[]
}

/// Runs one plan that is longer than plans may be.
fn run_too_long<R: Threads + Wait + Sync, T: SharedTable>(
    rt: &HostRuntime,
    threads: &R,
    calls: &mut Calls,
) {
    match Vec::from_elem(rt.alloc(), Act::Inc(0), ACTS + 1) {
        Ok(acts) => run_listed::<R, T>(rt, threads, calls, &[acts.as_slice()]),
        Err(_) => calls.tell(rt, "run_clients", &REFUSED),
    }
}

fn run_listed<R: Threads + Wait + Sync, T: SharedTable>(
    rt: &HostRuntime,
    threads: &R,
    calls: &mut Calls,
    clients: &[&[Act]],
) {
    if calls.allows(rt, "run_clients") {
        let settled = settled::<R, T>(threads, rt.alloc(), clients);
        calls.tell(rt, "run_clients", &settled);
    }
}

/// The settled end of clients with these acts.
fn settled<R: Threads + Wait + Sync, T: SharedTable>(
    threads: &R,
    alloc: Global,
    clients: &[&[Act]],
) -> Result<Settled, Refusal> {
    let plans = plans_of(alloc, clients)?;
    match run_clients::<R, T, OpenGate>(threads, alloc, 1, plans.as_slice(), &OpenGate) {
        Ok((settled, _table)) => Ok(settled),
        Err(refusal) => Err(refusal),
    }
}

pub(crate) fn plans_of(alloc: Global, clients: &[&[Act]]) -> Result<Vec<Plan>, Refusal> {
    let mut plans = Vec::new(alloc);
    for acts in clients {
        plans.reserve(1)?;
        plans.push_reserved(Plan::of(Vec::from_slice(alloc, acts)?));
    }
    Ok(plans)
}
