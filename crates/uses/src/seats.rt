//! Calls on words and seats, on a context that is closed, and on a seat that is lost.
ghost use Rattle.std.specs.Prelude.{◌≡◌, ◌<◌, ◌≤◌, IfOk, IfSome};
ghost use Rattle.words_core.specs.declared.seat.TheConstants.{PARTS};

use crate::calls::Calls;
use point_core::{Context, Refusal};
use words_core::{Driver, Seat, Words};

/// The parts of the seat that is lost.
const LOST: u32 = 10;

pub(crate) fn make_calls(rt: &HostRuntime, calls: &mut Calls) {
    if let Ok((words, mut seat)) = words_of(rt, calls, 1, 0, 0) {
        close(rt, calls, &words, &mut seat);
        drop(words);
    }
    if let Ok((words, seat)) = words_of(rt, calls, 1, 0, 0) {
        lose(rt, calls, &words, seat);
        drop(words);
    }
}

/// Words with these numbers of contexts, buffers and flags, and their first seat.
pub(crate) fn words_of(
    rt: &HostRuntime,
    calls: &mut Calls,
    contexts: usize,
    buffers: usize,
    flags: usize,
) -> Result<(Words, Seat), Refusal>
    ensures sizes { IfOk result (λ r. (r.0.contexts ≡ contexts) × (r.0.buffers ≡ buffers) × (r.0.flags ≡ flags)) }
    ensures seat { IfOk result (λ r. (r.1.words ≡ r.0) × (r.1.parts ≡ PARTS)) }
{
    let made = match calls.allow() {
        Ok(()) => Words::new(rt.alloc(), contexts, buffers, flags),
        Err(refusal) => Err(refusal),
    };
    calls.tell_made(rt, "Words::new", &made);
    made
}

/// Drives the first context to 3 and closes it, and looks at its clock before and after.
fn close(rt: &HostRuntime, calls: &mut Calls, words: &Words, seat: &mut Seat)
    requires own { (seat.old.words ≡ words.now) × (1 < seat.old.parts) }
    requires context { 1 ≤ words.now.contexts }
{
    if let Some(driver) = drive(rt, calls, words, seat, 3) {
        look(rt, calls, words, seat);
        let closed = match driver.close(words) {
            Ok(_) => Ok(()),
            Err((refusal, _)) => Err(refusal),
        };
        calls.tell(rt, "Driver::close", &closed);
        look(rt, calls, words, seat);
    }
}

/// Asks whether the first context is closed, and loads the clocks of all.
fn look(rt: &HostRuntime, calls: &mut Calls, words: &Words, seat: &mut Seat)
    requires own { seat.old.words ≡ words.now }
    requires context { 1 ≤ words.now.contexts }
    ensures own { seat.new.words ≡ words.now }
{
    let ctx = Context::at(0);
    let closed = words.closed(seat, ctx);
    calls.tell(rt, "Words::closed", &closed);
    let clocks = words.load_clocks(seat);
    calls.tell(rt, "load_clocks", &clocks.clock(ctx));
}

/// Loses a seat of ten parts, and asks twice for the whole.
fn lose(rt: &HostRuntime, calls: &mut Calls, words: &Words, mut seat: Seat)
    requires own { (seat.words ≡ words.now) × (seat.parts ≡ PARTS) }
{
    drop(words.part(&mut seat, LOST));
    if let Some(seat) = gather(rt, calls, seat) {
        drop(gather(rt, calls, seat));
    }
}

/// Gathers a seat; returns it if parts are missing.
fn gather(rt: &HostRuntime, calls: &mut Calls, seat: Seat) -> Option<Seat> {
    match seat.gather() {
        Ok(_) => None,
        Err((seat, missing)) => {
            calls.tell(rt, "gather", &(Refusal::NotAll, missing));
            Some(seat)
        }
    }
}

/// The driver of the first context, by a seat of one part, after an increment.
pub(crate) fn drive(
    rt: &HostRuntime,
    calls: &mut Calls,
    words: &Words,
    seat: &mut Seat,
    n: u64,
) -> Option<Driver>
    requires own { (seat.old.words ≡ words.now) × (1 < seat.old.parts) }
    requires context { 1 ≤ words.now.contexts }
    ensures own { seat.new.words ≡ words.now }
    ensures driver { IfSome result (λ driver. driver.seat.words ≡ words.now) }
{
    let driving = words.part(seat, 1);
    match words.driver(driving, Context::at(0)) {
        Ok(mut driver) => {
            inc(rt, calls, words, &mut driver, n);
            Some(driver)
        }
        Err(_) => None,
    }
}

pub(crate) fn inc(rt: &HostRuntime, calls: &mut Calls, words: &Words, driver: &mut Driver, n: u64)
    requires own { driver.old.seat.words ≡ words.now }
    ensures own { driver.new.seat.words ≡ words.now }
{
    let value = driver.inc(words, n);
    calls.tell(rt, "inc", &value);
}
