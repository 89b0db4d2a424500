//! Plans for tests, and checks of their settled end.
ghost use Rattle.std.specs.Prelude.{◌≡◌};

use crate::tests::seats::holds;
use point_core::{Context, Point, Refusal, TopRow, Usage};
use resv_core::{Act, Plan, Settled};
use std::alloc::Global;
use std::process::Abort;

/// A point of the first context.
pub(crate) fn point(value: u64) -> Point
    ensures context { result.ctx ≡ 1 }
{
    Point {
        ctx: Context::at(0),
        value,
    }
}

/// The plans of these acts, one for each client.
pub(crate) fn plans_of(rt: &impl Abort, alloc: Global, clients: &[&[Act]]) -> Vec<Plan> {
    let mut plans = Vec::new(alloc);
    for acts in clients {
        let plan = Plan::of(Vec::from_slice(alloc, acts).expect(rt, "acts"));
        holds(rt, plan.as_slice() == *acts);
        plans.push(plan).expect(rt, "a plan");
    }
    plans
}

/// Checks that a call fails with this error.
pub(crate) fn check_refused<A: Drop>(rt: &impl Abort, answer: Result<A, Refusal>, wanted: Refusal) {
    holds(rt, answer.err() == Some(wanted));
}

fn is_row(row: &TopRow, usage: Usage, place: usize, point: u64) -> bool {
    row.usage == usage && row.ctx.index() == place && row.point == point
}

/// Checks that the first rows have this usage and point, one for each client, and returns the rest.
fn rows_after<'a>(
    rt: &impl Abort,
    rows: &'a [TopRow],
    usage: Usage,
    clients: usize,
    point: u64,
) -> &'a [TopRow] {
    let mut rest = rows;
    for place in 0..clients {
        let Some((row, after)) = rest.split_first() else {
            panic!(rt; "a row is missing")
        };
        holds(rt, is_row(row, usage, place, point));
        rest = after;
    }
    rest
}

/// Checks that a table has a row of this point for each of these usages and, under it, for each client.
pub(crate) fn check_rows(
    rt: &impl Abort,
    rows: &[TopRow],
    usages: &[Usage],
    clients: usize,
    point: u64,
) {
    let mut rest = rows;
    for usage in usages {
        rest = rows_after(rt, rest, *usage, clients, point);
    }
    holds(rt, rest.is_empty());
}

/// The usages at which a fence that was put for writing is pending.
pub(crate) const WRITTEN: [Usage; 3] = [Usage::Write, Usage::Read, Usage::Bookkeep];

/// The usages at which a fence that was put for reading is pending.
pub(crate) const READ: [Usage; 2] = [Usage::Read, Usage::Bookkeep];

/// Checks the value of each client's timeline, and that one table has a row of this point for each usage and client.
pub(crate) fn check_one_table(
    rt: &impl Abort,
    settled: &Settled,
    values: &[u64],
    usages: &[Usage],
    point: u64,
) {
    holds(rt, settled.values.as_slice() == values);
    let [rows] = settled.tables.as_slice() else {
        panic!(rt; "there is not one table")
    };
    check_rows(rt, rows.as_slice(), usages, values.len(), point);
}
