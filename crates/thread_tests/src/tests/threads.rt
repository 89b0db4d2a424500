//! Tests of words on two threads.
ghost use Rattle.std.specs.Prelude.{◌≡◌, ◌+◌, ◌<◌, ◌≤◌};

use crate::tests::seats::{drive_on, driver_of, holds, whole_of, words_of};
use point_core::{Context, Usage};
use std::process::Abort;
use std::thread::{Threads, join};
use words_core::{Driver, Seat, Whole, Words};

/// Whether a context is advanced before all loads of a long loop have found it at 0.
fn is_advanced(words: &Words, looking: &mut Seat, ctx: Context) -> bool
    requires own { looking.old.words ≡ words.now }
    requires context { ctx ≤ words.now.contexts }
    ensures same { (looking.new.words ≡ looking.old.words) × (looking.new.parts ≡ looking.old.parts) }
{
    for _ in 0..1_000_000_000u32 {
        if words.load(looking, ctx) >= 1 {
            return true;
        }
    }
    false
}

/// Advances one context, and drives it on to 1,000 once the other has been advanced.
fn drive_beside(
    rt: &impl Abort,
    words: &Words,
    driver: &mut Driver,
    looking: &mut Seat,
    other: Context,
)
    requires own { (driver.old.seat.words ≡ words.now) × (looking.old.words ≡ words.now) }
    requires context { other ≤ words.now.contexts }
    ensures own { (driver.new.seat.words ≡ words.now) × (looking.new.words ≡ words.now) }
{
    holds(rt, driver.inc(words, 1) == Ok(1));
    assert!(rt;
        is_advanced(words, looking, other),
        "the threads did not meet"
    );
    drive_on(rt, words, driver, 999);
}

/// Drives one context beside the other. Takes both seats, and returns them joined.
fn drive(
    rt: &impl Abort,
    words: &Words,
    driving: Seat,
    mut looking: Seat,
    mine: Context,
    other: Context,
) -> Seat
    requires own { (driving.words ≡ words.now) × (looking.words ≡ words.now) }
    requires contexts { (mine ≤ words.now.contexts) × (other ≤ words.now.contexts) }
    ensures own { result.words ≡ words.now }
{
    let mut driver = driver_of(rt, words, driving, mine);
    drive_beside(rt, words, &mut driver, &mut looking, other);
    words.join(&mut looking, driver.finish());
    looking
}

/// Drives both contexts, each on a thread, and joins the seats that come back.
fn drive_both<R: Threads + Abort + Sync>(rt: &R, words: &Words, all: &mut Seat)
    requires own { (all.old.words ≡ words.now) × (4 < all.old.parts) }
    requires contexts { 2 ≤ words.now.contexts }
    ensures own { (all.new.words ≡ words.now) × (all.old.parts ≤ all.new.parts + 4) }
{
    let (driving, looking) = (words.part(all, 1), words.part(all, 1));
    let (other_driving, other_looking) = (words.part(all, 1), words.part(all, 1));
    let (one, other) = join(
        rt,
        move || -> Seat
            requires { (driving.words ≡ words.now) × (looking.words ≡ words.now) × (2 ≤ words.now.contexts) }
            ensures { result.words ≡ words.entry.now }
        { drive(rt, words, driving, looking, Context::at(0), Context::at(1)) },
        move || -> Seat
            requires { (other_driving.words ≡ words.now) × (other_looking.words ≡ words.now) × (2 ≤ words.now.contexts) }
            ensures { result.words ≡ words.entry.now }
        {
            drive(
                rt,
                words,
                other_driving,
                other_looking,
                Context::at(1),
                Context::at(0),
            )
        },
    );
    words.join(all, one);
    words.join(all, other);
}

/// Raises one entry again and again, each time to a later point.
fn raise_on(words: &Words, mut seat: Seat, first: u64) -> Seat
    requires own { seat.words ≡ words.now }
    requires sizes { (1 ≤ words.now.buffers) × (1 ≤ words.now.contexts) }
    requires first { first ≤ 1 }
    ensures own { result.words ≡ words.now }
{
    for round in 0..1_000_000u64 {
        words.raise(
            &mut seat,
            0,
            Context::at(0),
            Usage::Write,
            2 * round + first,
        );
    }
    seat
}

/// Raises one entry on two threads, and joins the seats that come back.
fn raise_by_both<R: Threads>(rt: &R, words: &Words, all: &mut Seat)
    requires own { (all.old.words ≡ words.now) × (2 < all.old.parts) }
    requires sizes { (1 ≤ words.now.buffers) × (1 ≤ words.now.contexts) }
    ensures own { all.new.words ≡ words.now }
{
    let (one, other) = (words.part(all, 1), words.part(all, 1));
    let (one, other) = join(
        rt,
        move || -> Seat
            requires { (one.words ≡ words.now) × (1 ≤ words.now.buffers) × (1 ≤ words.now.contexts) }
            ensures { result.words ≡ words.entry.now }
        { raise_on(words, one, 0) },
        move || -> Seat
            requires { (other.words ≡ words.now) × (1 ≤ words.now.buffers) × (1 ≤ words.now.contexts) }
            ensures { result.words ≡ words.entry.now }
        { raise_on(words, other, 1) },
    );
    words.join(all, one);
    words.join(all, other);
}

/// Checks the end of both threads.
fn check_both(rt: &impl Abort, words: &Words, whole: &mut Whole)
    requires own { whole.old.words ≡ words.now }
    requires sizes { (words.now.contexts ≡ 2) × (words.now.buffers ≡ 1) }
{
    let first = whole.value(words, Context::at(0));
    let second = whole.value(words, Context::at(1));
    let top = whole.top(words, 0, Context::at(0), Usage::Write);
    holds(rt, first == 1_000 && second == 1_000 && top == 1_999_999);
}

/// Drives and raises on two threads, and checks the entry that both have raised.
fn drive_and_raise<R: Threads + Abort + Sync>(rt: &R, words: &Words, all: &mut Seat)
    requires own { (all.old.words ≡ words.now) × (8 < all.old.parts) }
    requires sizes { (2 ≤ words.now.contexts) × (1 ≤ words.now.buffers) }
    ensures own { all.new.words ≡ words.now }
{
    drive_both(rt, words, all);
    raise_by_both(rt, words, all);
    holds(
        rt,
        words.shown(all, 0, Context::at(0), Usage::Write) == 1_999_999,
    );
}

#[test]
fn two_threads_drive_and_raise(rt: HostRuntime) {
    let (words, mut all) = words_of(&rt, rt.alloc(), 2, 1, 0);
    drive_and_raise(&rt, &words, &mut all);
    check_both(&rt, &words, &mut whole_of(&rt, all));
}
