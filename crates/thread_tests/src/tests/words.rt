//! Tests of words, their parts and the board.
ghost use Rattle.std.specs.Prelude.{◌≡◌, ◌<◌};
ghost use Rattle.words_core.specs.declared.flags.Once.TheVariants as once;
ghost use Rattle.words_core.specs.declared.seat.TheConstants.{PARTS};

use crate::tests::seats::{driver_of, holds, whole_of, words_of};
use point_core::{BUFFERS, CONTEXTS, Context, LimitKind, Refusal, Usage};
use std::alloc::Global;
use std::process::Abort;
use words_core::{Driver, FLAGS, Once, PARTS, Seat, Words};

type Sizes = (usize, usize, usize, Option<LimitKind>);

/// Numbers of contexts, buffers and flags, and the limit that they exceed.
const SIZES: [Sizes; 6] = [
    (0, 0, 0, Some(LimitKind::Timelines)),
    (CONTEXTS + 1, 0, 0, Some(LimitKind::Timelines)),
    (1, BUFFERS + 1, 0, Some(LimitKind::Buffers)),
    (1, 0, FLAGS + 1, Some(LimitKind::Flags)),
    (2, 1, 1, None),
    (CONTEXTS, BUFFERS, FLAGS, None),
];

/// The refusal of words of these sizes, unless they are made with all parts.
fn refusal_of(alloc: Global, contexts: usize, buffers: usize, flags: usize) -> Option<Refusal> {
    match Words::new(alloc, contexts, buffers, flags) {
        Ok((_words, seat)) if seat.parts() == PARTS => None,
        Ok(_) => Some(Refusal::NotAll),
        Err(refusal) => Some(refusal),
    }
}

#[test]
fn sizes_of_words(rt: HostRuntime) {
    for (contexts, buffers, flags, limit) in SIZES {
        let refusal = refusal_of(rt.alloc(), contexts, buffers, flags);
        holds(&rt, refusal == limit.map(Refusal::Limit));
    }
}

/// Advances the first context by a seat of one part, and loads its value by the other.
fn advance(rt: &impl Abort, words: &Words, driver: &mut Driver, looking: &mut Seat)
    requires own { (driver.old.seat.words ≡ words.now) × (looking.old.words ≡ words.now) }
    requires contexts { words.now.contexts ≡ 1 }
    ensures own { driver.new.seat.words ≡ words.now }
    ensures same { (looking.new.words ≡ words.now) × (looking.new.parts ≡ looking.old.parts) }
{
    holds(rt, driver.inc(words, 5) == Ok(5));
    holds(rt, driver.inc(words, u64::MAX) == Err(Refusal::Overflow));
    holds(rt, words.load(looking, Context::at(0)) == 5);
}

/// Gathers a seat that lacks one part, which comes back.
fn lacks_one(rt: &impl Abort, seat: Seat) -> Seat
    ensures same { result ≡ seat }
{
    let Err((seat, missing)) = seat.gather() else {
        panic!(rt; "no part was missing")
    };
    holds(rt, missing == 1);
    seat
}

/// Drives the first context by a seat of one part, and joins that seat again.
fn drive_apart(rt: &impl Abort, words: &Words, mut first: Seat) -> Seat
    requires own { (first.words ≡ words.now) × (first.parts ≡ PARTS) }
    requires contexts { words.now.contexts ≡ 1 }
    ensures own { result.words ≡ words.now }
{
    let second = words.part(&mut first, 1);
    holds(rt, first.parts() == PARTS - 1 && second.parts() == 1);
    let mut driver = driver_of(rt, words, second, Context::at(0));
    advance(rt, words, &mut driver, &mut first);
    let mut first = lacks_one(rt, first);
    words.join(&mut first, driver.finish());
    first
}

#[test]
fn seats_are_parted_and_gathered(rt: HostRuntime) {
    let (words, seat) = words_of(&rt, rt.alloc(), 1, 0, 0);
    let mut whole = whole_of(&rt, drive_apart(&rt, &words, seat));
    holds(&rt, whole.value(&words, Context::at(0)) == 5);
}

/// Claims the first context by a seat that is lost, and then asks for a second driver by another seat.
fn claim_twice(rt: &impl Abort, words: &Words, mut one: Seat)
    requires own { (one.words ≡ words.now) × (1 < one.parts) × (words.now.contexts ≡ 1) }
{
    let other = words.part(&mut one, 1);
    drop(driver_of(rt, words, one, Context::at(0)));
    let Err((Refusal::Exists, other)) = words.driver(other, Context::at(0)) else {
        panic!(rt; "there were two drivers")
    };
    holds(rt, other.parts() == 1);
}

#[test]
fn a_second_driver(rt: HostRuntime) {
    let (words, seat) = words_of(&rt, rt.alloc(), 1, 0, 0);
    claim_twice(&rt, &words, seat);
}

/// Sets the first flag twice by one seat. Whatever others do, the second answer is not the first.
fn set_twice(words: &Words, seat: &mut Seat) -> (Once, Once)
    requires own { (seat.old.words ≡ words.now) × (words.now.flags ≡ 1) }
    ensures again { result.1 ≡ once.Already }
{
    let first = words.set_once(seat, 0);
    (first, words.set_once(seat, 0))
}

#[test]
fn a_flag_is_set_once(rt: HostRuntime) {
    let (words, mut seat) = words_of(&rt, rt.alloc(), 1, 0, 1);
    let (first, again) = set_twice(&words, &mut seat);
    let Once::First(won) = first else {
        panic!(rt; "the flag was set")
    };
    holds(&rt, won.flag() == 0 && matches!(again, Once::Already));
}

/// Raises a writer's entry, first to a point and then to an earlier one, and looks at it by another seat too.
fn raise(rt: &impl Abort, words: &Words, one: &mut Seat)
    requires own { (one.old.words ≡ words.now) × (1 < one.old.parts) }
    requires sizes { (words.now.contexts ≡ 1) × (words.now.buffers ≡ 1) }
{
    let ctx = Context::at(0);
    let mut other = words.part(one, 1);
    holds(rt, words.shown(one, 0, ctx, Usage::Write) == 0);
    holds(rt, words.raise(one, 0, ctx, Usage::Write, 9) == 9);
    holds(rt, words.raise(one, 0, ctx, Usage::Write, 4) == 9);
    holds(rt, words.shown(one, 0, ctx, Usage::Write) == 9);
    holds(rt, words.shown(one, 0, ctx, Usage::Read) == 0);
    holds(rt, words.shown(&mut other, 0, ctx, Usage::Write) == 9);
}

#[test]
fn entries_are_raised(rt: HostRuntime) {
    let (words, mut seat) = words_of(&rt, rt.alloc(), 1, 1, 0);
    raise(&rt, &words, &mut seat);
}
