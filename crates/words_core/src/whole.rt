//! `Whole`: a seat with all parts (full permission), which therefore knows every step.
ghost use Rattle.std.specs.Prelude.{◌≡◌, ◌+◌, ◌<◌, ◌≤◌, true, if◌then◌else◌};
ghost use Rattle.words_core.specs.theorem.Layout.{value_word, claim_word, mark_word, board_word, flag_word};
ghost use Rattle.words_core.specs.Rule.{IsZeroOr};
ghost use Rattle.words_core.specs.theorem.Seat.{seen, tests_of, with_step, added_to, raised_to};
ghost use Rattle.words_core.specs.theorem.Trace.{load, shown, on, wins_of, shuts_of, mark_of, LoadsWereLeft, SightsWereRaised, IsDecided};

use crate::seat::Seat;
use crate::words::Words;
use point_core::{Context, Usage};
use std::marker::Model;

/// A seat with all parts, whose trace has every step that was made on the words.
#[derive(Drop)]
pub struct Whole {
    pub(crate) seat: Seat,
}

impl Model for Whole {
    ghost use Rattle.std.specs.Prelude.{◌≡◌};
    ghost use Rattle.words_core.specs.declared.seat.TheConstants.{PARTS};
    ghost use Rattle.words_core.specs.theorem.Seat.{SeatModel};

    ghost Value = { SeatModel };

    ghost view = { λ w. w.seat };

    ghost invariant = { λ w. w.seat.parts ≡ PARTS };
}

impl Whole {
    /// The value of a context, by one load: the sum of all additions ever made to it. Each value that was loaded is 0
    /// or was left by an addition, and at most one driver was ever made for the context.
    pub fn value(&mut self, words: &Words, ctx: Context) -> u64
        requires own { self.old.words ≡ words.now }
        requires context { ctx ≤ words.now.contexts }
        ensures entered { self.new ≡ with_step self.old (load (value_word ctx) result) }
        ensures later { seen self.old (value_word ctx) ≤ result }
        ensures state { result ≡ added_to self.old ctx }
        ensures loaded { LoadsWereLeft (value_word ctx) self.old.trace }
        ensures driver { IsDecided (claim_word ctx) self.old.trace }
    {
        words.total(&mut self.seat, ctx)
    }

    /// Whether a context is closed, by one load of its mark: if its driver has closed it, once, at its last value. Each
    /// mark that was loaded is 0 or that value and 1.
    pub fn closed(&mut self, words: &Words, ctx: Context) -> bool
        requires own { self.old.words ≡ words.now }
        requires context { ctx ≤ words.now.contexts }
        ensures entered { self.new ≡
            with_step self.old (load (mark_word ctx) (mark_of (mark_word ctx) self.old.trace)) }
        ensures later { seen self.old (mark_word ctx) ≤ mark_of (mark_word ctx) self.old.trace }
        ensures state { shuts_of (mark_word ctx) self.old.trace ≡ (if result then 1 else 0) }
        ensures last { result ≡ true → mark_of (mark_word ctx) self.old.trace ≡ added_to self.old ctx + 1 }
        ensures loaded { IsZeroOr (mark_of (mark_word ctx) self.old.trace) (on (mark_word ctx) self.old.trace) }
    {
        words.total_mark(&mut self.seat, ctx) > 0
    }

    /// A buffer's entry of the board for a context and a usage, by one load: the greatest point to which it was ever
    /// raised, or 0. Each value that it showed is 0 or such a point.
    pub fn top(&mut self, words: &Words, buffer: usize, ctx: Context, usage: Usage) -> u64
        requires own { self.old.words ≡ words.now }
        requires buffer { buffer < words.now.buffers }
        requires context { ctx ≤ words.now.contexts }
        ensures entered { self.new ≡ with_step self.old (shown (board_word words.now buffer ctx usage) result) }
        ensures later { seen self.old (board_word words.now buffer ctx usage) ≤ result }
        ensures state { result ≡ raised_to self.old (board_word words.now buffer ctx usage) }
        ensures raised { SightsWereRaised (board_word words.now buffer ctx usage) self.old.trace }
    {
        let place = words.entry_place(buffer, ctx, usage);
        words.top_at(&mut self.seat, place)
    }

    /// Whether a flag is set, by one load: exactly if one step has won it, once. For users of the library; no program
    /// here calls it.
    pub fn flag(&mut self, words: &Words, flag: usize) -> bool
        requires own { self.old.words ≡ words.now }
        requires flag { flag < words.now.flags }
        ensures entered { self.new ≡ with_step self.old (load (flag_word words.now flag) (if result then 1 else 0)) }
        ensures later { seen self.old (flag_word words.now flag) ≤ (if result then 1 else 0) }
        ensures state { wins_of (flag_word words.now flag) self.old.trace ≡ (if result then 1 else 0) }
        ensures decided { IsDecided (flag_word words.now flag) self.old.trace }
        ensures set { 0 < tests_of self.old (flag_word words.now flag) → result ≡ true }
    {
        words.total_flag(&mut self.seat, flag) == 1
    }

    /// Returns the seat. For users of the library; no program here calls it.
    pub fn seat(self) -> Seat
        ensures { result ≡ self }
    {
        let Whole { seat } = self;
        seat
    }
}
