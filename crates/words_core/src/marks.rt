//! Marks: a word for each context that says whether it is closed. Its driver sets it, once.
ghost use Rattle.std.specs.Prelude.{◌≡◌, ◌+◌, ◌^◌, ◌<◌, ◌≤◌};
ghost use Rattle.words_core.specs.declared.seat.TheConstants.{PARTS};
ghost use Rattle.words_core.specs.theorem.Layout.{value_word, claim_word, mark_word};
ghost use Rattle.words_core.specs.Rule.{IsZeroOr};
ghost use Rattle.words_core.specs.theorem.Seat.{seen, added_to, with_step};
ghost use Rattle.words_core.specs.theorem.Trace.{load, shut, on, wins_of, shuts_of, mark_of};

use crate::plays::{LoadsMark, LoadsTotalMark, ShutsMark};
use crate::seat::Seat;
use crate::words::{LINE_WORDS, MARK, Words};
use point_core::Context;

impl Words {
    // The driver's fetch_or: the mark was 0, since no one else closes the context.
    pub(crate) fn shut(&self, seat: &mut Seat, ctx: Context, mark: u64)
        requires own { seat.old.words ≡ self.now }
        requires context { ctx ≤ self.now.contexts }
        requires won { 0 < wins_of (claim_word ctx) seat.old.trace }
        requires open { shuts_of (mark_word ctx) seat.old.trace ≡ 0 }
        requires last { mark ≡ added_to seat.old ctx + 1 }
        ensures entered { seat.new ≡ with_step seat.old (shut (mark_word ctx) mark) }
        ensures unseen { seen seat.old (mark_word ctx) ≡ 0 }
    {
        self.table
            .shared
            .fetch_or::<ShutsMark>(&mut seat.token, LINE_WORDS * ctx.index() + MARK, mark);
    }

    // The mark of a context: 0 while it is open, and 1 more than its last value once it is closed.
    pub(crate) fn mark(&self, seat: &mut Seat, ctx: Context) -> u64
        requires own { seat.old.words ≡ self.now }
        requires context { ctx ≤ self.now.contexts }
        ensures entered { seat.new ≡ with_step seat.old (load (mark_word ctx) result) }
        ensures later { seen seat.old (mark_word ctx) ≤ result }
        ensures stays { 0 < seen seat.old (mark_word ctx) → result ≡ seen seat.old (mark_word ctx) }
        ensures last { 0 < result → seen seat.old (value_word ctx) < result }
    {
        self.table
            .shared
            .load::<LoadsMark>(&mut seat.token, LINE_WORDS * ctx.index() + MARK)
    }

    // The load of a seat with all parts: the mark is what its trace has set it to.
    pub(crate) fn total_mark(&self, seat: &mut Seat, ctx: Context) -> u64
        requires own { seat.old.words ≡ self.now }
        requires context { ctx ≤ self.now.contexts }
        requires all { seat.old.parts ≡ PARTS }
        ensures entered { seat.new ≡ with_step seat.old (load (mark_word ctx) result) }
        ensures later { seen seat.old (mark_word ctx) ≤ result }
        ensures state { result ≡ mark_of (mark_word ctx) seat.old.trace }
        ensures once { shuts_of (mark_word ctx) seat.old.trace ≤ 1 }
        ensures last { 0 < shuts_of (mark_word ctx) seat.old.trace → result ≡ added_to seat.old ctx + 1 }
        ensures loaded { IsZeroOr result (on (mark_word ctx) seat.old.trace) }
    {
        self.table
            .shared
            .load::<LoadsTotalMark>(&mut seat.token, LINE_WORDS * ctx.index() + MARK)
    }
}
