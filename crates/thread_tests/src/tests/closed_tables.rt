//! Tests of tables whose words have a closed context.
ghost use Rattle.std.specs.Prelude.{◌≡◌, length};
ghost use Rattle.resv_core.specs.Settled.{ArePlansWithin};

use crate::tests::seats::{close, driver_of, holds, whole_of, words_of};
use crate::tests::table_plans::plan_of_an_increment;
use clients_core::{Board, LockedTable};
use point_core::{Context, Refusal};
use resv_core::{Plan, SharedTable};
use std::alloc::Global;
use std::process::Abort;
use std::sync::Wait;
use words_core::{Driver, Seat, Whole, Words};

/// The seat of a driver that closes its context, or leaves it open.
fn left(rt: &impl Abort, words: &Words, driver: Driver, closes: bool) -> Seat
    requires own { driver.seat.words ≡ words.now }
    ensures words { result.words ≡ words.now }
{
    if !closes {
        return driver.finish();
    }
    close(rt, words, driver)
}

/// The seat with all parts, whose driver has added 4 to the context, and has then closed it or left it open.
fn driven(rt: &impl Abort, words: &Words, seat: Seat, closes: bool) -> Whole
    requires own { seat.words ≡ words.now }
    requires contexts { words.now.contexts ≡ 1 }
    ensures words { result.words ≡ words.now }
{
    let mut driver = driver_of(rt, words, seat, Context::at(0));
    driver.inc(words, 4).expect(rt, "an increment");
    whole_of(rt, left(rt, words, driver, closes))
}

/// Checks that a new table refuses the plan of that increment, or settles it.
fn check_settled<R: Wait + Abort, T: SharedTable>(
    rt: &R,
    alloc: Global,
    words: &Words,
    all: &mut Whole,
    plans: &[Plan],
    refused: Option<Refusal>,
)
    requires own { all.old.words ≡ words.now }
    requires plans { length plans.now ≡ words.now.contexts }
    requires within { ArePlansWithin words.now.contexts words.now.buffers plans.now }
    ensures same { all.new.words ≡ all.old.words }
{
    let table = T::empty(alloc, words).expect(rt, "a table");
    let settled = table.settle(rt, alloc, words, all, plans);
    holds(rt, settled.err() == refused);
}

/// Checks both tables of words whose driver has closed its context, or has left it open.
fn check_tables<R: Wait + Abort>(
    rt: &R,
    alloc: Global,
    words: &Words,
    all: &mut Whole,
    closed: bool,
)
    requires own { all.old.words ≡ words.now }
    requires sizes { (words.now.contexts ≡ 1) × (words.now.buffers ≡ 0) }
{
    let found = all.closed(words, Context::at(0));
    holds(rt, found == closed);
    let refused = if closed { Some(Refusal::Torn) } else { None };
    let plans = plan_of_an_increment(rt, alloc);
    check_settled::<R, LockedTable>(rt, alloc, words, all, plans.as_slice(), refused);
    check_settled::<R, Board>(rt, alloc, words, all, plans.as_slice(), refused);
}

/// Checks both tables of new words.
fn check_words<R: Wait + Abort>(rt: &R, alloc: Global, closes: bool) {
    let (words, seat) = words_of(rt, alloc, 1, 0, 0);
    let mut all = driven(rt, &words, seat, closes);
    check_tables(rt, alloc, &words, &mut all, closes);
}

#[test]
fn tables_of_a_closed_context(rt: HostRuntime) {
    check_words(&rt, rt.alloc(), true);
    check_words(&rt, rt.alloc(), false);
}
