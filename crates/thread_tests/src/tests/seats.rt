//! Words, seats and drivers for tests.
ghost use Rattle.std.specs.Prelude.{◌≡◌, ◌≤◌};
ghost use Rattle.words_core.specs.declared.seat.TheConstants.{PARTS};

use point_core::Context;
use std::alloc::Global;
use std::process::Abort;
use words_core::{Driver, Seat, Whole, Words};

/// Ends the test unless the condition holds. An `assert!` costs more to prove than a call of this function.
pub(crate) fn holds(rt: &impl Abort, condition: bool) {
    assert!(rt; condition);
}

/// Words with these numbers of contexts, buffers and flags, and their first seat.
pub(crate) fn words_of(
    rt: &impl Abort,
    alloc: Global,
    contexts: usize,
    buffers: usize,
    flags: usize,
) -> (Words, Seat)
    ensures sizes { (result.0.contexts ≡ contexts) × (result.0.buffers ≡ buffers) × (result.0.flags ≡ flags) }
    ensures seat { (result.1.words ≡ result.0) × (result.1.parts ≡ PARTS) }
{
    Words::new(alloc, contexts, buffers, flags).expect(rt, "words")
}

/// The driver of a context without a driver.
pub(crate) fn driver_of(rt: &impl Abort, words: &Words, seat: Seat, ctx: Context) -> Driver
    requires own { seat.words ≡ words.now }
    requires context { ctx ≤ words.now.contexts }
    ensures own { result.seat.words ≡ words.now }
{
    let Ok(driver) = words.driver(seat, ctx) else {
        panic!(rt; "the context was claimed")
    };
    driver
}

/// Closes a driver's context, and returns its seat.
pub(crate) fn close(rt: &impl Abort, words: &Words, driver: Driver) -> Seat
    requires own { driver.seat.words ≡ words.now }
    ensures own { result.words ≡ words.now }
{
    let Ok(seat) = driver.close(words) else {
        panic!(rt; "the context was at the greatest value")
    };
    seat
}

/// The whole seat.
pub(crate) fn whole_of(rt: &impl Abort, seat: Seat) -> Whole
    ensures { result ≡ seat }
{
    let Ok(whole) = seat.gather() else {
        panic!(rt; "a part was missing")
    };
    whole
}

/// Advances a context by 1, `times` times.
pub(crate) fn drive_on(rt: &impl Abort, words: &Words, driver: &mut Driver, times: u32)
    requires own { driver.old.seat.words ≡ words.now }
    ensures own { driver.new.seat.words ≡ words.now }
{
    for _ in 0..times {
        driver.inc(words, 1).expect(rt, "an increment");
    }
}
