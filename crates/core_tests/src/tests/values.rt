//! Values for tests, from plain numbers and texts: a point is written as its context and its value.
use point_core::{CONTEXTS, Context, Name, Point, Reach, TopRow, Usage};
use std::alloc::Global;
use std::process::Abort;

pub(crate) const LAST_CONTEXT: u16 = CONTEXTS as u16;

pub(crate) const EVERY_USAGE: [Usage; 4] = [
    Usage::Kernel,
    Usage::Write,
    Usage::Read,
    Usage::Bookkeep,
];

/// Ends the test unless the condition holds. An `assert!` costs more to prove than a call of this function.
pub(crate) fn holds(rt: &impl Abort, condition: bool) {
    assert!(rt; condition);
}

pub(crate) fn name(rt: &impl Abort, bytes: &[u8]) -> Name {
    Name::read(bytes).expect(rt, "a name")
}

fn digit(number: usize) -> u8 {
    b'0' + (number % 10) as u8
}

/// The name of a number below 10000, in four digits.
pub(crate) fn numbered(rt: &impl Abort, number: usize) -> Name {
    let digits = [
        digit(number / 1000),
        digit(number / 100),
        digit(number / 10),
        digit(number),
    ];
    name(rt, &digits)
}

pub(crate) fn context(rt: &impl Abort, number: u16) -> Context {
    Context::new(number).expect(rt, "a context")
}

pub(crate) fn point(rt: &impl Abort, number: u16, value: u64) -> Point {
    let ctx = context(rt, number);
    Point { ctx, value }
}

pub(crate) fn points_of(rt: &impl Abort, alloc: Global, rows: &[(u16, u64)]) -> Vec<Point> {
    let mut points = Vec::new(alloc);
    for (number, value) in rows {
        points.push(point(rt, *number, *value)).expect(rt, "memory");
    }
    points
}

/// The points are these, in this order.
pub(crate) fn has_points(rt: &impl Abort, alloc: Global, points: &[Point], rows: &[(u16, u64)]) {
    holds(rt, points == points_of(rt, alloc, rows).as_slice());
}

pub(crate) fn row(rt: &impl Abort, usage: Usage, number: u16, point: u64) -> TopRow {
    let ctx = context(rt, number);
    TopRow { usage, ctx, point }
}

/// The reach that is exactly at these points.
pub(crate) fn reach_of(rt: &impl Abort, rows: &[(u16, u64)]) -> Reach {
    let mut reach = Reach::zero();
    for (number, value) in rows {
        reach.raise_to(point(rt, *number, *value));
    }
    reach
}

/// The reach with this value of the first context.
pub(crate) fn reach_at(rt: &impl Abort, value: u64) -> Reach {
    reach_of(rt, &[(1, value)])
}

/// A value for each usage, which rises from the strongest to the weakest.
pub(crate) fn value_of(usage: Usage) -> u64 {
    u64::from(usage.number()) + 1
}

/// Whether the rows are those of every context at every usage, each at the value of its usage.
pub(crate) fn are_full_rows(rows: &[TopRow]) -> bool {
    let mut place = 0usize;
    for usage in EVERY_USAGE {
        for index in 0..CONTEXTS {
            let ctx = Context::at(index);
            let point = value_of(usage);
            if rows.get(place) != Some(&TopRow { usage, ctx, point }) {
                return false;
            }
            place = place.saturating_add(1);
        }
    }
    rows.len() == place
}

/// The next state of a pseudo-random sequence.
pub(crate) fn stirred(state: u64) -> u64 {
    state
        .wrapping_mul(6364136223846793005)
        .wrapping_add(1442695040888963407)
}
