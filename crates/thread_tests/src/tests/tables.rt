//! Tests of one buffer of each table, and of the buffer under a lock.
ghost use Rattle.std.specs.Prelude.{◌≡◌, ◌<◌};

use crate::tests::plans::{check_refused, point};
use crate::tests::seats::{holds, whole_of, words_of};
use crate::tests::table_plans::{plans_of_a_put, second_point};
use clients_core::{Board, LockedBuffer, LockedTable};
use point_core::{Entry, Listing, Point, Reach, Refusal, Usage};
use resv_core::SharedTable;
use std::alloc::Global;
use std::process::Abort;
use std::sync::Wait;
use words_core::{Seat, Words};

/// Checks the points of a listing, and its floor.
fn check_listing(rt: &impl Abort, listing: &Listing, floor: &Reach, points: &[Point]) {
    holds(
        rt,
        listing.floor == *floor && listing.points.as_slice() == points,
    );
}

/// Checks a look at a buffer, which lists these points.
fn check_look(
    rt: &impl Abort,
    buffer: &mut LockedBuffer,
    usage: Usage,
    reach: &Reach,
    points: &[Point],
) {
    let listing = buffer.export(usage, reach).expect(rt, "a look");
    check_listing(rt, &listing, reach, points);
}

/// Checks that nothing is pending in a buffer at a reach.
fn check_empty(rt: &impl Abort, buffer: &mut LockedBuffer, reach: &Reach) {
    let rows = buffer.settle(&[], reach).expect(rt, "rows");
    holds(rt, rows.is_empty());
}

/// Checks the errors of a buffer, and that nothing is pending in it at a reach.
fn check_settled(rt: &impl Abort, buffer: &mut LockedBuffer, reach: &Reach) {
    let refused = buffer.export(Usage::Read, &Reach::zero());
    check_refused(rt, refused, Refusal::Torn);
    check_empty(rt, buffer, reach);
    let later = Entry {
        point: point(9),
        usage: Usage::Read,
    };
    check_refused(rt, buffer.settle(&[later], reach), Refusal::Torn);
}

/// Checks puts, looks and settlements of an empty buffer.
fn check_buffer(rt: &impl Abort, buffer: &mut LockedBuffer) {
    let none = Reach::zero();
    let mut four = Reach::zero();
    four.raise_to(point(4));
    buffer.put(point(4), Usage::Read, &none).expect(rt, "a put");
    buffer
        .put(point(2), Usage::Write, &none)
        .expect(rt, "a put");
    check_look(rt, buffer, Usage::Write, &none, &[point(2)]);
    check_look(rt, buffer, Usage::Read, &four, &[]);
    check_settled(rt, buffer, &four);
}

#[test]
fn locked_buffer_rows(rt: HostRuntime) {
    let mut buffer = LockedBuffer::new(rt.alloc()).expect(&rt, "a buffer");
    check_buffer(&rt, &mut buffer);
}

/// Checks a look at a buffer of a table, which lists these points. Nothing is signalled.
fn check_export<R: Wait + Abort, T: SharedTable>(
    rt: &R,
    alloc: Global,
    table: &T,
    words: &Words,
    seat: &mut Seat,
    buffer: usize,
    usage: Usage,
    points: &[Point],
)
    requires own { (seat.old.words ≡ words.now) × (T.made_for table.now ≡ words.now) }
    requires buffer { buffer < words.now.buffers }
    ensures same { (seat.new.words ≡ seat.old.words) × (seat.new.parts ≡ seat.old.parts) }
{
    let listing = table
        .export(rt, alloc, words, seat, buffer, usage)
        .expect(rt, "a look");
    check_listing(rt, &listing, &Reach::zero(), points);
}

/// Checks two looks at the second buffer into one listing.
fn check_kept_listing<R: Wait + Abort, T: SharedTable>(
    rt: &R,
    alloc: Global,
    table: &T,
    words: &Words,
    seat: &mut Seat,
)
    requires own { (seat.old.words ≡ words.now) × (T.made_for table.now ≡ words.now) }
    requires buffers { words.now.buffers ≡ 2 }
    ensures same { (seat.new.words ≡ seat.old.words) × (seat.new.parts ≡ seat.old.parts) }
{
    let mut listing = Listing::empty(alloc);
    let first = table.export_into(rt, alloc, words, seat, 1, Usage::Read, &mut listing);
    first.expect(rt, "a look");
    check_listing(rt, &listing, &Reach::zero(), &[point(4)]);
    let second = table.export_into(rt, alloc, words, seat, 1, Usage::Write, &mut listing);
    second.expect(rt, "a look");
    check_listing(rt, &listing, &Reach::zero(), &[]);
}

/// Checks that a new table has not settled the plans of a put.
fn check_unsettled<R: Wait + Abort, T: SharedTable>(rt: &R, alloc: Global) {
    let (words, seat) = words_of(rt, alloc, 2, 2, 0);
    let mut all = whole_of(rt, seat);
    let plans = plans_of_a_put(rt, alloc);
    let table = T::empty(alloc, &words).expect(rt, "a table");
    let refused = table.settle(rt, alloc, &words, &mut all, plans.as_slice());
    check_refused(rt, refused, Refusal::Torn);
}

/// Checks puts into the second buffer of a new table, which show only there, each from its usage on.
fn check_new_table<R: Wait + Abort, T: SharedTable>(
    rt: &R,
    alloc: Global,
    words: &Words,
    seat: &mut Seat,
)
    requires own { seat.old.words ≡ words.now }
    requires sizes { (words.now.contexts ≡ 2) × (words.now.buffers ≡ 2) }
    ensures same { (seat.new.words ≡ seat.old.words) × (seat.new.parts ≡ seat.old.parts) }
{
    let table = T::empty(alloc, words).expect(rt, "a table");
    let put = table.put(rt, alloc, words, seat, 1, point(4), Usage::Read);
    put.expect(rt, "a put");
    let put = table.put(rt, alloc, words, seat, 1, second_point(3), Usage::Bookkeep);
    put.expect(rt, "a put");
    let both = [point(4), second_point(3)];
    check_export::<R, T>(rt, alloc, &table, words, seat, 1, Usage::Bookkeep, &both);
    check_export::<R, T>(rt, alloc, &table, words, seat, 1, Usage::Read, &both[..1]);
    check_export::<R, T>(rt, alloc, &table, words, seat, 1, Usage::Write, &[]);
    check_export::<R, T>(rt, alloc, &table, words, seat, 0, Usage::Bookkeep, &[]);
    check_kept_listing::<R, T>(rt, alloc, &table, words, seat);
}

/// Checks tables of two buffers and two contexts.
fn check_tables<R: Wait + Abort, T: SharedTable>(rt: &R, alloc: Global) {
    let (words, mut seat) = words_of(rt, alloc, 2, 2, 0);
    check_new_table::<R, T>(rt, alloc, &words, &mut seat);
    check_unsettled::<R, T>(rt, alloc);
}

#[test]
fn tables_of_two_buffers(rt: HostRuntime) {
    check_tables::<HostRuntime, LockedTable>(&rt, rt.alloc());
    check_tables::<HostRuntime, Board>(&rt, rt.alloc());
}
