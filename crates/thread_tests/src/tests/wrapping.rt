//! Tests of a run with a table that misbehaves: `OddTable` wraps the table under locks.
ghost use Rattle.std.specs.Prelude.{◌≡◌, ◌<◌, IfErr};
ghost use Rattle.point_core.specs.declared.refusal.Refusal.TheVariants as refusal;

use crate::tests::gates::HoldGate;
use crate::tests::plans::{check_refused, plans_of};
use crate::tests::seats::holds;
use clients_core::{Gate, LockedTable, OpenGate, run_clients};
use point_core::{Context, Entry, Items, Listing, Point, Refusal, Usage};
use resv_core::{Act, Plan, Settled, SharedTable};
use std::alloc::Global;
use std::process::Abort;
use std::sync::atomic::{AtomicUsize, Ordering};
use std::sync::{Mutex, Wait};
use std::thread::Threads;
use words_core::{Seat, Whole, Words};

/// A put of this value waits until another is recorded, or a fixed number of turns has passed.
const SLOW: u64 = 9;

const TURNS: u32 = 1_000_000;

/// Records each put that its table has accepted. It lists nothing for `Bookkeep`, and never settles the plan of a single client.
/// A client's look is its `export`.
#[derive(Drop)]
pub(crate) struct OddTable {
    table: LockedTable,
    puts: Mutex<Vec<Entry>>,
}

impl SharedTable for OddTable {
    ghost made_for = { λ odd. odd.table };

    ghost puts = { λ odd buffer e before after answer. Unit {0} };

    ghost exports = { λ odd buffer usage before after answer. Unit {0} };

    fn empty(alloc: Global, words: &Words) -> Result<OddTable, Refusal> {
        Ok(OddTable {
            table: LockedTable::empty(alloc, words)?,
            puts: Mutex::new(Vec::new(alloc)),
        })
    }

    fn put<R: Wait>(
        &self,
        rt: &R,
        alloc: Global,
        words: &Words,
        seat: &mut Seat,
        buffer: usize,
        point: Point,
        usage: Usage,
    ) -> Result<(), Refusal> {
        let Point { ctx, value } = point;
        if value == SLOW {
            await_record(rt, &self.puts);
        }
        self.table.put(rt, alloc, words, seat, buffer, Point { ctx, value }, usage)?;
        let point = Point { ctx, value };
        record(&mut self.puts.lock(rt), Entry { point, usage })
    }

    fn export<R: Wait>(
        &self,
        rt: &R,
        alloc: Global,
        words: &Words,
        seat: &mut Seat,
        buffer: usize,
        usage: Usage,
    ) -> Result<Listing, Refusal> {
        let lists_nothing = matches!(usage, Usage::Bookkeep);
        let listing = self.table.export(rt, alloc, words, seat, buffer, usage)?;
        if !lists_nothing {
            return Ok(listing);
        }
        let Listing { points: _, floor } = listing;
        Ok(Listing {
            points: Items::of(Vec::new(alloc)),
            floor,
        })
    }

    fn settle<R: Wait>(
        &self,
        rt: &R,
        alloc: Global,
        words: &Words,
        all: &mut Whole,
        plans: &[Plan],
    ) -> Result<Settled, Refusal> {
        let settled = self.table.settle(rt, alloc, words, all, plans)?;
        if plans.len() == 1 {
            return Err(Refusal::Torn);
        }
        Ok(settled)
    }
}

fn await_record<R: Wait>(rt: &R, puts: &Mutex<Vec<Entry>>) {
    for _ in 0..TURNS {
        if !puts.lock(rt).is_empty() {
            return;
        }
    }
}

fn record(puts: &mut Vec<Entry>, entry: Entry) -> Result<(), Refusal>
    ensures { IfErr result (λ e. e ≡ refusal.Memory) }
{
    puts.reserve(1)?;
    puts.push_reserved(entry);
    Ok(())
}

/// A client that puts a point of its own timeline, and looks at the usage.
fn acts_of(place: usize, usage: Usage) -> [Act; 2]
    requires few { place < 2 }
{
    let ctx = Context::at(place);
    [
        Act::Put(0, Point { ctx, value: 4 }, Usage::Read),
        Act::Look(0, usage),
    ]
}

/// The plans of two clients, which look at the usage.
fn plans_of_two(rt: &impl Abort, alloc: Global, usage: Usage) -> Vec<Plan> {
    plans_of(rt, alloc, &[&acts_of(0, usage), &acts_of(1, usage)])
}

/// The put of the client at an index.
fn put_of(place: usize) -> Entry
    requires few { place < 2 }
{
    let ctx = Context::at(place);
    Entry {
        point: Point { ctx, value: 4 },
        usage: Usage::Read,
    }
}

/// Whether these are the puts of two clients, in one order or the other.
fn are_puts_of_two(puts: &[Entry]) -> bool {
    puts.len() == 2 && puts.contains(&put_of(0)) && puts.contains(&put_of(1))
}

/// The puts that a table has recorded, of clients with these plans.
fn recorded<R: Threads + Wait + Abort + Sync, G: Gate>(
    rt: &R,
    alloc: Global,
    plans: &[Plan],
    gate: &G,
) -> Vec<Entry> {
    let (_, table) = run_clients::<R, OddTable, G>(rt, alloc, 1, plans, gate).expect(
        rt,
        "a settled table",
    );
    let OddTable { table: _, puts } = table;
    puts.into_inner()
}

/// Checks that a table which records its puts has recorded the put of each client of `plans_of_two`.
fn check_recorded<R: Threads + Wait + Abort + Sync>(rt: &R, alloc: Global, plans: &[Plan]) {
    let puts = recorded(rt, alloc, plans, &OpenGate);
    holds(rt, are_puts_of_two(puts.as_slice()));
}

#[test]
fn every_put_reaches_the_table(rt: HostRuntime) {
    let plans = plans_of_two(&rt, rt.alloc(), Usage::Read);
    check_recorded(&rt, rt.alloc(), plans.as_slice());
}

/// Checks that clients against the table fail with `Torn`.
fn check_torn<R: Threads + Wait + Abort + Sync>(rt: &R, alloc: Global, plans: &[Plan]) {
    let refused = run_clients::<R, OddTable, OpenGate>(rt, alloc, 1, plans, &OpenGate);
    check_refused(rt, refused, Refusal::Torn);
}

#[test]
fn a_table_that_never_settles(rt: HostRuntime) {
    let plans = plans_of(&rt, rt.alloc(), &[&acts_of(0, Usage::Read)]);
    check_torn(&rt, rt.alloc(), plans.as_slice());
}

/// Closed to one client from an act on, and counts the acts that were left.
#[derive(Drop)]
struct ClosedTo {
    client: usize,
    from: usize,
    left: AtomicUsize,
}

impl Gate for ClosedTo {
    fn enter(&self, client: usize, act: usize) -> bool {
        client != self.client || act < self.from
    }

    fn leave(&self, _client: usize, _act: usize) {
        self.left.fetch_add(1, Ordering::SeqCst);
    }
}

/// Checks the error of two clients, one of which finds the gate closed at an act, while the other looks at a table that
/// lists nothing; and that the other has left both its acts, and the first the acts before the closed one.
fn check_least<R: Threads + Wait + Abort + Sync>(
    rt: &R,
    alloc: Global,
    plans: &[Plan],
    client: usize,
    from: usize,
    wanted: Refusal,
) {
    let gate = ClosedTo {
        client,
        from,
        left: AtomicUsize::new(0),
    };
    let refused = run_clients::<R, OddTable, ClosedTo>(rt, alloc, 1, plans, &gate);
    check_refused(rt, refused, wanted);
    holds(
        rt,
        gate.left.load(Ordering::SeqCst) == from.saturating_add(2),
    );
}

#[test]
fn a_table_that_lists_nothing(rt: HostRuntime) {
    let plans = plans_of_two(&rt, rt.alloc(), Usage::Bookkeep);
    check_torn(&rt, rt.alloc(), plans.as_slice());
    check_least(&rt, rt.alloc(), plans.as_slice(), 1, 0, Refusal::TimedOut);
    check_least(&rt, rt.alloc(), plans.as_slice(), 1, 1, Refusal::TimedOut);
    check_least(&rt, rt.alloc(), plans.as_slice(), 2, 0, Refusal::Torn);
}

fn is_slow_first(puts: &[Entry]) -> bool {
    match puts.first() {
        Some(entry) => entry.point.value == SLOW,
        None => false,
    }
}

/// Checks that the first client's slow put is recorded before the second client's.
fn check_slow_first<R: Threads + Wait + Abort + Sync>(rt: &R, alloc: Global, plans: &[Plan]) {
    let gate = HoldGate::new(2, 1);
    let puts = recorded(rt, alloc, plans, &gate);
    holds(rt, is_slow_first(puts.as_slice()));
}

#[test]
fn a_slow_act_is_left_when_it_is_done(rt: HostRuntime) {
    let ctx = Context::at(0);
    let slow = [Act::Put(0, Point { ctx, value: SLOW }, Usage::Read)];
    let plans = plans_of(&rt, rt.alloc(), &[&slow, &acts_of(1, Usage::Read)]);
    check_slow_first(&rt, rt.alloc(), plans.as_slice());
}
