//! Tests of reservations: which entry a new one replaces.
use crate::tests::values::{holds, point, reach_at, row};
use point_core::{Point, Reach, TopRow, Usage};
use resv_core::{PLACES, Resv};
use std::process::Abort;

fn add(rt: &impl Abort, resv: &mut Resv, point: Point, usage: Usage, reach: &Reach) {
    resv.reserve(1, reach).expect(rt, "memory");
    resv.add(point, usage, reach);
}

fn has_rows(rt: &impl Abort, resv: &Resv, reach: &Reach, rows: &[TopRow]) {
    let table = resv.table(reach).expect(rt, "memory");
    holds(rt, table.as_slice() == rows);
}

fn has_room(rt: &impl Abort, resv: &Resv, room: usize) {
    holds(rt, resv.room() == room);
}

fn replaces_what_is_signalled(rt: &impl Abort, resv: &mut Resv) {
    let one = reach_at(rt, 1);
    resv.reserve(2, &Reach::zero()).expect(rt, "memory");
    resv.add(point(rt, 1, 1), Usage::Write, &Reach::zero());
    let room = resv.room();
    add(rt, resv, point(rt, 2, 4), Usage::Read, &one);
    has_room(rt, resv, room);
    add(rt, resv, point(rt, 2, 3), Usage::Read, &one);
    has_room(rt, resv, room.saturating_sub(1));
    resv.trim(&one);
    has_room(rt, resv, PLACES - 1);
    let rows = [row(rt, Usage::Read, 2, 4), row(rt, Usage::Bookkeep, 2, 4)];
    has_rows(rt, resv, &one, &rows);
}

#[test]
fn signalled_entry_is_replaced(rt: HostRuntime) {
    let mut resv = Resv::new(rt.alloc()).expect(&rt, "a reservation");
    replaces_what_is_signalled(&rt, &mut resv);
}

/// Adds the points of the first context from 400 down to 1, and checks that only the latest is left.
fn keeps_the_latest(rt: &impl Abort, resv: &mut Resv) {
    for value in (1..=400u64).rev() {
        let point = point(rt, 1, value);
        add(rt, resv, point, Usage::Bookkeep, &Reach::zero());
    }
    let rows = [row(rt, Usage::Bookkeep, 1, 400)];
    has_rows(rt, resv, &Reach::zero(), &rows);
}

#[test]
fn four_hundred_falling_points(rt: HostRuntime) {
    let mut resv = Resv::new(rt.alloc()).expect(&rt, "a reservation");
    keeps_the_latest(&rt, &mut resv);
}
