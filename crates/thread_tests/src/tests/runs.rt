//! Tests of clients on threads, against both tables.
ghost use Rattle.std.specs.Prelude.{◌≤◌};

use crate::tests::plans::{READ, WRITTEN, check_rows};
use crate::tests::seats::holds;
use clients_core::{Board, LockedTable, OpenGate, ROUND_BUFFERS, plans_of_rounds, run_clients};
use resv_core::{Plan, Settled, SharedTable};
use std::alloc::Global;
use std::process::Abort;
use std::sync::Wait;
use std::thread::Threads;

/// Checks that there is a value for each client, and that each is 100.
fn check_values(rt: &impl Abort, values: &[u64], clients: usize) {
    holds(rt, values.len() == clients);
    for value in values {
        holds(rt, *value == 100);
    }
}

/// Checks the end of clients of 100 rounds: each timeline ends at 100, and its points of the last round are pending.
fn check_rounds(rt: &impl Abort, settled: &Settled, clients: usize) {
    check_values(rt, settled.values.as_slice(), clients);
    let [written, read] = settled.tables.as_slice() else {
        panic!(rt; "there are not two tables")
    };
    check_rows(rt, written.as_slice(), &WRITTEN, clients, 200);
    check_rows(rt, read.as_slice(), &READ, clients, 300);
}

/// Runs clients once, and checks their end.
fn run_once<R: Threads + Wait + Abort + Sync, T: SharedTable>(
    rt: &R,
    alloc: Global,
    plans: &[Plan],
) {
    let (settled, _table) = run_clients::<R, T, OpenGate>(
        rt,
        alloc,
        ROUND_BUFFERS,
        plans,
        &OpenGate,
    ).expect(rt, "a settled table");
    check_rounds(rt, &settled, plans.len());
}

/// Runs clients of 100 rounds many times; the end depends only on their plans.
fn run_rounds<R: Threads + Wait + Abort + Sync, T: SharedTable>(
    rt: &R,
    alloc: Global,
    clients: usize,
)
    requires clients { (1 ≤ clients) × (clients ≤ 8) }
{
    let plans = plans_of_rounds(alloc, clients, 100).expect(rt, "plans");
    holds(rt, plans.len() == clients);
    for _ in 0..200u8 {
        run_once::<R, T>(rt, alloc, plans.as_slice());
    }
}

#[test]
fn two_clients(rt: HostRuntime) {
    run_rounds::<HostRuntime, LockedTable>(&rt, rt.alloc(), 2);
    run_rounds::<HostRuntime, Board>(&rt, rt.alloc(), 2);
}

#[test]
fn eight_clients(rt: HostRuntime) {
    run_rounds::<HostRuntime, LockedTable>(&rt, rt.alloc(), 8);
    run_rounds::<HostRuntime, Board>(&rt, rt.alloc(), 8);
}
