//! Tests of gates that hold clients back.
use crate::tests::plans::{WRITTEN, check_one_table, check_refused, plans_of, point};
use crate::tests::seats::holds;
use clients_core::{
    Board, Gate, LockedTable, ROUND_ACTS, ROUND_BUFFERS, plans_of_rounds, run_clients,
};
use point_core::{Context, Point, Refusal, Usage};
use resv_core::{Act, Plan, SharedTable};
use std::alloc::Global;
use std::process::Abort;
use std::sync::Wait;
use std::sync::atomic::{AtomicBool, AtomicUsize, Ordering};
use std::thread::Threads;

/// Holds a client's first act back until another client's first act has ended.
#[derive(Drop)]
pub(crate) struct HoldGate {
    held: usize,
    other: usize,
    ended: AtomicBool,
}

impl HoldGate {
    pub(crate) fn new(held: usize, other: usize) -> HoldGate {
        HoldGate {
            held,
            other,
            ended: AtomicBool::new(false),
        }
    }
}

impl Gate for HoldGate {
    fn enter(&self, client: usize, act: usize) -> bool {
        if client != self.held || act != 0 {
            return true;
        }
        for _ in 0..1_000_000_000u32 {
            if self.ended.load(Ordering::SeqCst) {
                return true;
            }
        }
        false
    }

    fn leave(&self, client: usize, act: usize) {
        if client == self.other && act == 0 {
            self.ended.store(true, Ordering::SeqCst);
        }
    }
}

/// A gate that never opens.
#[derive(Clone, Copy)]
struct ClosedGate;

impl Gate for ClosedGate {
    fn enter(&self, _client: usize, _act: usize) -> bool {
        false
    }

    fn leave(&self, _client: usize, _act: usize) {}
}

/// Opens to a single client, whose acts have to come in order, each between its two calls.
#[derive(Drop)]
struct CountingGate {
    next: AtomicUsize,
    inside: AtomicBool,
}

impl Gate for CountingGate {
    fn enter(&self, client: usize, act: usize) -> bool {
        client == 1
            && act == self.next.load(Ordering::SeqCst)
            && !self.inside.swap(true, Ordering::SeqCst)
    }

    fn leave(&self, _client: usize, act: usize) {
        self.next.store(act.wrapping_add(1), Ordering::SeqCst);
        self.inside.store(false, Ordering::SeqCst);
    }
}

/// Runs one client through rounds, and checks that each of its acts was entered and left.
fn run_counted<R: Threads + Wait + Abort + Sync>(rt: &R, alloc: Global) {
    let plans = plans_of_rounds(alloc, 1, 3).expect(rt, "a plan");
    let gate = CountingGate {
        next: AtomicUsize::new(0),
        inside: AtomicBool::new(false),
    };
    let ended = run_clients::<R, Board, CountingGate>(
        rt,
        alloc,
        ROUND_BUFFERS,
        plans.as_slice(),
        &gate,
    );
    holds(rt, ended.is_ok());
    check_counted(rt, &gate, 3 * ROUND_ACTS);
}

fn check_counted(rt: &impl Abort, gate: &CountingGate, acts: usize) {
    holds(rt, gate.next.load(Ordering::SeqCst) == acts);
    holds(rt, !gate.inside.load(Ordering::SeqCst));
}

#[test]
fn each_act_of_rounds_is_entered_and_left(rt: HostRuntime) {
    run_counted(&rt, rt.alloc());
}

/// Runs two clients that both end, though one of them waits for the other's put.
fn run_held<R: Threads + Wait + Abort + Sync, T: SharedTable>(
    rt: &R,
    alloc: Global,
    plans: &[Plan],
    held: usize,
    other: usize,
) {
    let gate = HoldGate::new(held, other);
    let (settled, _table) = run_clients::<R, T, HoldGate>(rt, alloc, 1, plans, &gate).expect(
        rt,
        "a settled table",
    );
    check_one_table(rt, &settled, &[0, 0], &WRITTEN, 1);
}

/// Runs two clients with gates that hold one or the other, and with one that never opens.
fn run_gates<R: Threads + Wait + Abort + Sync, T: SharedTable>(
    rt: &R,
    alloc: Global,
    plans: &[Plan],
) {
    run_held::<R, T>(rt, alloc, plans, 1, 2);
    run_held::<R, T>(rt, alloc, plans, 2, 1);
    let refused = run_clients::<R, T, ClosedGate>(rt, alloc, 1, plans, &ClosedGate);
    check_refused(rt, refused, Refusal::TimedOut);
}

#[test]
fn gates_of_two_clients(rt: HostRuntime) {
    let ctx = Context::at(1);
    let first = [Act::Put(0, point(1), Usage::Write)];
    let second = [Act::Put(0, Point { ctx, value: 1 }, Usage::Write)];
    let plans = plans_of(&rt, rt.alloc(), &[&first, &second]);
    run_gates::<HostRuntime, LockedTable>(&rt, rt.alloc(), plans.as_slice());
    run_gates::<HostRuntime, Board>(&rt, rt.alloc(), plans.as_slice());
}
