//! Claims and values of contexts: a claim is won once, by the driver, and only the driver adds to the value.
ghost use Rattle.std.specs.Prelude.{◌≡◌, ◌+◌, ◌^◌, ◌<◌, ◌≤◌, true, replicate, IfOk, IfErr, MatchBool};
ghost use Rattle.point_core.specs.declared.context.TheConstants.{CONTEXTS};
ghost use Rattle.point_core.specs.declared.refusal.Refusal.TheVariants as refusal;
ghost use Rattle.words_core.specs.declared.seat.TheConstants.{PARTS};
ghost use Rattle.words_core.specs.theorem.Layout.{value_word, claim_word, mark_word};
ghost use Rattle.words_core.specs.theorem.Loads.{HasLoadedAll};
ghost use Rattle.words_core.specs.theorem.Seat.{seen, added_to, tests_of, with_step};
ghost use Rattle.words_core.specs.theorem.Trace.{load, add, won, lost, wins_of, shuts_of, LoadsWereLeft, IsDecided};

use crate::driver::Driver;
use crate::plays::{AddsToValue, ClaimsContext, LoadsTotal, LoadsValue};
use crate::seat::Seat;
use crate::words::{CLAIM, LINE_WORDS, Words};
use point_core::{Context, Point, Reach, Refusal};

impl Words {
    /// The right to advance a context, by one test-and-set of its claim.
    ///
    /// Fails only with `Exists`, if a claim was made on the context before, and returns the seat. If it is Ok, neither
    /// the seat nor its ancestors knew of a claim.
    pub fn driver(&self, mut seat: Seat, ctx: Context) -> Result<Driver, (Refusal, Seat)>
        requires own { seat.words ≡ self.now }
        requires context { ctx ≤ self.now.contexts }
        ensures won { IfOk result (λ d. d ≡ record { seat = with_step seat (won (claim_word ctx)); ctx = ctx; value = 0 }) }
        ensures first { IfOk result (λ d. wins_of (claim_word ctx) d.seat.trace ≡ 1) }
        ensures free { IfOk result (λ _. tests_of seat (claim_word ctx) ≡ 0) }
        ensures lost { IfErr result (λ e. (e.0 ≡ refusal.Exists) × (e.1 ≡ with_step seat (lost (claim_word ctx)))) }
    {
        if self.claim(&mut seat, ctx) {
            Ok(Driver {
                seat,
                ctx,
                value: 0,
            })
        } else {
            Err((Refusal::Exists, seat))
        }
    }

    // The test-and-set of a claim: true if it was 0. Then its context's value is 0 too, from which a driver starts.
    fn claim(&self, seat: &mut Seat, ctx: Context) -> bool
        requires own { seat.old.words ≡ self.now }
        requires context { ctx ≤ self.now.contexts }
        ensures entered { MatchBool result
            (seat.new ≡ with_step seat.old (won (claim_word ctx)))
            (seat.new ≡ with_step seat.old (lost (claim_word ctx))) }
        ensures first { result ≡ true →
            (tests_of seat.old (claim_word ctx) ≡ 0) × (wins_of (claim_word ctx) seat.old.trace ≡ 0) ×
            (added_to seat.old ctx ≡ 0) × (shuts_of (mark_word ctx) seat.old.trace ≡ 0) }
    {
        self.table
            .shared
            .fetch_or::<ClaimsContext>(&mut seat.token, LINE_WORDS * ctx.index() + CLAIM, 1)
            == 0
    }

    // The driver's fetch_add: the word is the sum of the seat's additions, since no one else adds, so the sum does not
    // wrap.
    pub(crate) fn add(&self, seat: &mut Seat, ctx: Context, n: u64) -> u64
        requires own { seat.old.words ≡ self.now }
        requires context { ctx ≤ self.now.contexts }
        requires won { 0 < wins_of (claim_word ctx) seat.old.trace }
        requires open { shuts_of (mark_word ctx) seat.old.trace ≡ 0 }
        requires fits { added_to seat.old ctx + n < 2 ^ 64 }
        ensures value { result ≡ added_to seat.old ctx + n }
        ensures entered { seat.new ≡ with_step seat.old (add (value_word ctx) n result) }
    {
        self.table
            .shared
            .fetch_add::<AddsToValue>(&mut seat.token, LINE_WORDS * ctx.index(), n)
            + n
    }

    /// The value of a context, by one load. It is no less than any value that the seat has seen, and the last one if
    /// the seat has seen that the context is closed.
    pub fn load(&self, seat: &mut Seat, ctx: Context) -> u64
        requires own { seat.old.words ≡ self.now }
        requires context { ctx ≤ self.now.contexts }
        ensures entered { seat.new ≡ with_step seat.old (load (value_word ctx) result) }
        ensures later { seen seat.old (value_word ctx) ≤ result }
        ensures seen { seen seat.new (value_word ctx) ≡ result }
        ensures last { 0 < seen seat.old (mark_word ctx) → seen seat.old (mark_word ctx) ≡ result + 1 }
    {
        self.table
            .shared
            .load::<LoadsValue>(&mut seat.token, LINE_WORDS * ctx.index())
    }

    // The load of a seat with all parts: the word is the sum of its trace's additions.
    pub(crate) fn total(&self, seat: &mut Seat, ctx: Context) -> u64
        requires own { seat.old.words ≡ self.now }
        requires context { ctx ≤ self.now.contexts }
        requires all { seat.old.parts ≡ PARTS }
        ensures entered { seat.new ≡ with_step seat.old (load (value_word ctx) result) }
        ensures later { seen seat.old (value_word ctx) ≤ result }
        ensures state { result ≡ added_to seat.old ctx }
        ensures loaded { LoadsWereLeft (value_word ctx) seat.old.trace }
        ensures driver { IsDecided (claim_word ctx) seat.old.trace }
    {
        self.table
            .shared
            .load::<LoadsTotal>(&mut seat.token, LINE_WORDS * ctx.index())
    }
}
