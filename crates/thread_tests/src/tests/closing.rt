//! Tests of a context that its driver closes, and of files that are polled, waited for and merged meanwhile.
ghost use Rattle.std.specs.Prelude.{◌≡◌, ◌<◌, ◌≤◌};

use crate::tests::files::{check_poll, plain};
use crate::tests::seats::{close, drive_on, driver_of, holds, whole_of, words_of};
use point_core::{Clock, Context, Refusal, Status};
use std::alloc::Global;
use std::process::Abort;
use std::thread::{Threads, join};
use syncfile_core::SyncFile;
use words_core::{Driver, Seat, Words};

/// Checks the result of each kind of load on the first context, which was closed at 4.
fn check_loads(rt: &impl Abort, words: &Words, seat: &mut Seat)
    requires own { seat.old.words ≡ words.now }
    requires context { 1 ≤ words.now.contexts }
    ensures same { seat.new.words ≡ words.now }
{
    let ctx = Context::at(0);
    let last = Clock {
        value: 4,
        closed: true,
    };
    holds(rt, words.load(seat, ctx) == 4);
    holds(rt, words.clock(seat, ctx) == last);
    holds(rt, words.load_all(seat).get(ctx) == u64::MAX);
}

/// Checks the files of a context that was closed at 4.
fn check_files(rt: &impl Abort, alloc: Global, late: &SyncFile, words: &Words, seat: &mut Seat)
    requires own { seat.old.words ≡ words.now }
    ensures same { seat.new.words ≡ words.now }
{
    check_poll(rt, late, words, seat, Ok(Status::Cancelled));
    check_poll(
        rt,
        &plain(rt, alloc, 0, 4),
        words,
        seat,
        Ok(Status::Signalled),
    );
    holds(rt, late.wait_for(words, seat, 1) == Ok(()));
    holds(
        rt,
        merged(rt, alloc, late, words, seat)
            .points
            .as_slice()
            .is_empty(),
    );
}

/// The file merged with itself.
fn merged(
    rt: &impl Abort,
    alloc: Global,
    file: &SyncFile,
    words: &Words,
    seat: &mut Seat,
) -> SyncFile
    requires own { seat.old.words ≡ words.now }
    ensures same { seat.new.words ≡ words.now }
{
    SyncFile::merge_with(alloc, file.name, file, file, words, seat).expect(rt, "a file")
}

/// Drives the first context to 4, and closes it.
fn drive_and_close(rt: &impl Abort, late: &SyncFile, words: &Words, seat: &mut Seat)
    requires own { (seat.old.words ≡ words.now) × (1 < seat.old.parts) }
    requires context { 1 ≤ words.now.contexts }
    ensures same { seat.new.words ≡ words.now }
{
    let part = words.part(seat, 1);
    let mut driver = driver_of(rt, words, part, Context::at(0));
    holds(rt, driver.inc(words, 4) == Ok(4));
    check_poll(rt, late, words, seat, Ok(Status::Active));
    let closed = close(rt, words, driver);
    words.join(seat, closed);
}

/// Checks the first context by the whole seat.
fn check_whole(rt: &impl Abort, words: &Words, seat: Seat, value: u64)
    requires own { seat.words ≡ words.now }
    requires context { 1 ≤ words.now.contexts }
{
    let mut whole = whole_of(rt, seat);
    holds(rt, whole.closed(words, Context::at(0)));
    holds(rt, whole.value(words, Context::at(0)) == value);
}

#[test]
fn a_closed_context_cancels_its_pending_points(rt: HostRuntime) {
    let (words, mut seat) = words_of(&rt, rt.alloc(), 1, 0, 0);
    let late = plain(&rt, rt.alloc(), 0, 5);
    drive_and_close(&rt, &late, &words, &mut seat);
    check_files(&rt, rt.alloc(), &late, &words, &mut seat);
    check_loads(&rt, &words, &mut seat);
    check_whole(&rt, &words, seat, 4);
}

/// Checks that a driver at the greatest value comes back, with its value.
fn check_refused(rt: &impl Abort, words: &Words, driver: Driver)
    requires own { driver.seat.words ≡ words.now }
{
    let Err((refusal, driver)) = driver.close(words) else {
        panic!(rt; "the context was closed")
    };
    holds(
        rt,
        refusal == Refusal::Overflow && driver.value() == u64::MAX,
    );
}

#[test]
fn a_driver_at_the_greatest_value_comes_back(rt: HostRuntime) {
    let (words, mut seat) = words_of(&rt, rt.alloc(), 1, 0, 0);
    let part = words.part(&mut seat, 1);
    let mut driver = driver_of(&rt, &words, part, Context::at(0));
    holds(&rt, driver.inc(&words, u64::MAX) == Ok(u64::MAX));
    check_refused(&rt, &words, driver);
    holds(&rt, !words.clock(&mut seat, Context::at(0)).closed);
}

/// Drives the first context to 1,000, and closes it.
fn drive_to_the_end(rt: &impl Abort, words: &Words, driving: Seat) -> Seat
    requires own { driving.words ≡ words.now }
    requires context { 1 ≤ words.now.contexts }
    ensures own { result.words ≡ words.now }
{
    let mut driver = driver_of(rt, words, driving, Context::at(0));
    drive_on(rt, words, &mut driver, 1_000);
    close(rt, words, driver)
}

/// Whether this is a clock of the context before or after it was closed.
fn is_allowed(clock: Clock) -> bool {
    clock.value == 1_000 || !clock.closed && clock.value < 1_000
}

/// Merges and polls a file of a point that is never reached, and checks that no load reverts a closing. True once the
/// file is cancelled.
fn look(rt: &impl Abort, alloc: Global, file: &SyncFile, words: &Words, seat: &mut Seat) -> bool
    requires own { seat.old.words ≡ words.now }
    requires context { 1 ≤ words.now.contexts }
    ensures same { seat.new.words ≡ words.now }
{
    let clock = words.clock(seat, Context::at(0));
    let is_kept = !merged(rt, alloc, file, words, seat)
        .points
        .as_slice()
        .is_empty();
    let status = file.poll(words, seat);
    holds(rt, is_allowed(clock) && !(clock.closed && is_kept));
    holds(
        rt,
        status == Ok(Status::Cancelled) || is_kept && status == Ok(Status::Active),
    );
    status == Ok(Status::Cancelled)
}

/// Polls a file until it is cancelled.
fn look_on(rt: &impl Abort, alloc: Global, file: &SyncFile, words: &Words, mut seat: Seat) -> Seat
    requires own { seat.words ≡ words.now }
    requires context { 1 ≤ words.now.contexts }
    ensures own { result.words ≡ words.now }
{
    for _ in 0..100_000_000u32 {
        if look(rt, alloc, file, words, &mut seat) {
            return seat;
        }
    }
    panic!(rt; "the context was not closed")
}

/// Closes a context on one thread while another looks at it, and returns both seats.
fn close_beside<R: Threads + Abort + Sync>(
    rt: &R,
    alloc: Global,
    file: &SyncFile,
    words: &Words,
    driving: Seat,
    looking: Seat,
) -> (Seat, Seat)
    requires own { (driving.words ≡ words.now) × (looking.words ≡ words.now) }
    requires context { 1 ≤ words.now.contexts }
    ensures own { (result.0.words ≡ words.now) × (result.1.words ≡ words.now) }
{
    join(
        rt,
        move || -> Seat
            requires { (driving.words ≡ words.now) × (1 ≤ words.now.contexts) }
            ensures { result.words ≡ words.entry.now }
        { drive_to_the_end(rt, words, driving) },
        move || -> Seat
            requires { (looking.words ≡ words.now) × (1 ≤ words.now.contexts) }
            ensures { result.words ≡ words.entry.now }
        { look_on(rt, alloc, file, words, looking) },
    )
}

/// Closes a context that another thread looks at, and checks the end.
fn close_while_looking<R: Threads + Abort + Sync>(rt: &R, alloc: Global) {
    let (words, mut seat) = words_of(rt, alloc, 1, 0, 0);
    let driving = words.part(&mut seat, 1);
    let file = plain(rt, alloc, 0, 1_001);
    let (driven, mut all) = close_beside(rt, alloc, &file, &words, driving, seat);
    words.join(&mut all, driven);
    check_whole(rt, &words, all, 1_000);
}

#[test]
fn closings_beside_looks(rt: HostRuntime) {
    for _ in 0..50u32 {
        close_while_looking(&rt, rt.alloc());
    }
}
