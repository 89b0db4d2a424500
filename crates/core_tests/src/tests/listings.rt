//! Tests of `canon`: listings that were worked out by hand.
use crate::tests::values::{LAST_CONTEXT, has_points, holds, points_of, reach_of};
use point_core::{LatestPoints, Reach, canon};
use std::alloc::Global;
use std::process::Abort;

type Rows = &'static [(u16, u64)];

type Listed = (Rows, Rows, Rows);

/// A reach, points, and their listing.
static LISTED: [Listed; 4] = [
    (&[], &[(1, 5), (1, 3), (2, 2)], &[(1, 5), (2, 2)]),
    (&[(1, 5)], &[(1, 5), (1, 3), (2, 2)], &[(2, 2)]),
    (&[], &[], &[]),
    (
        &[],
        &[(LAST_CONTEXT, 1), (2, 9), (1, 4), (2, 7)],
        &[(1, 4), (2, 9), (LAST_CONTEXT, 1)],
    ),
];

fn listed() -> &'static [Listed] {
    &LISTED
}

fn lists(rt: &impl Abort, alloc: Global, reach: &Reach, rows: Rows, listed: Rows) {
    let points = points_of(rt, alloc, rows);
    let list = canon(alloc, points.as_slice(), reach).expect(rt, "memory");
    has_points(rt, alloc, list.as_slice(), listed);
}

#[test]
fn points_are_listed(rt: HostRuntime) {
    for (reached, rows, listed) in listed() {
        let reach = reach_of(&rt, reached);
        lists(&rt, rt.alloc(), &reach, rows, listed);
    }
}

#[test]
fn a_list_takes_memory_only_for_its_points(rt: HostRuntime) {
    let reach = reach_of(&rt, &[(1, 5)]);
    let mut latest = LatestPoints::above(&reach);
    latest.put_all(points_of(&rt, rt.alloc(), &[(3, 7), (2, 2), (3, 6)]).as_slice());
    let points = latest.points(rt.alloc(), &reach).expect(&rt, "memory");
    holds(&rt, points.len() == 2 && points.capacity() == 2);
}
