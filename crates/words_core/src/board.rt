//! The board: a lock-free table of max-registers, one for each buffer, context and usage.
ghost use Rattle.std.specs.Prelude.{◌≡◌, ◌<◌, ◌≤◌};
ghost use Rattle.words_core.specs.declared.seat.TheConstants.{PARTS};
ghost use Rattle.words_core.specs.theorem.Layout.{board_word, IsBoardWord};
ghost use Rattle.words_core.specs.theorem.Seat.{HasFound, seen, raised_to, with_step};
ghost use Rattle.words_core.specs.theorem.Trace.{raise, shown, SightsWereRaised};
ghost use Rattle.words_core.specs.theorem.Words.{sizes_of};

use crate::plays::{LoadsEntry, LoadsTop, RaisesEntry};
use crate::seat::Seat;
use crate::words::Words;
use point_core::{Context, Usage};

impl Words {
    /// Raises a buffer's entry for a context and a usage to a point, if it is less, by one fetch_max. It returns the
    /// entry after it, which is no less than any value that the seat has seen there or raised it to.
    pub fn raise(
        &self,
        seat: &mut Seat,
        buffer: usize,
        ctx: Context,
        usage: Usage,
        point: u64,
    ) -> u64
        requires own { seat.old.words ≡ self.now }
        requires buffer { buffer < self.now.buffers }
        requires context { ctx ≤ self.now.contexts }
        ensures entered { seat.new ≡ with_step seat.old (raise (board_word self.now buffer ctx usage) point result) }
        ensures raised { point ≤ result }
        ensures later { seen seat.old (board_word self.now buffer ctx usage) ≤ result }
        ensures raises { raised_to seat.old (board_word self.now buffer ctx usage) ≤ result }
        ensures seen { seen seat.new (board_word self.now buffer ctx usage) ≡ result }
    {
        let place = self.entry_place(buffer, ctx, usage);
        self.raise_at(seat, place, point)
    }

    /// A buffer's entry for a context and a usage, by one load. It is no less than any value that the seat has seen
    /// there or raised it to.
    pub fn shown(&self, seat: &mut Seat, buffer: usize, ctx: Context, usage: Usage) -> u64
        requires own { seat.old.words ≡ self.now }
        requires buffer { buffer < self.now.buffers }
        requires context { ctx ≤ self.now.contexts }
        ensures { HasFound (board_word self.now buffer ctx usage) result seat.old seat.new }
    {
        self.shown_of(seat, self.sizes.contexts, buffer, ctx, usage)
    }

    /// Like `shown`, for a caller that has the number of contexts at hand, because it looks at one entry after another:
    /// `shown` reads that number from memory for each.
    pub fn shown_of(
        &self,
        seat: &mut Seat,
        contexts: usize,
        buffer: usize,
        ctx: Context,
        usage: Usage,
    ) -> u64
        requires own { seat.old.words ≡ self.now }
        requires contexts { contexts ≡ self.now.contexts }
        requires buffer { buffer < self.now.buffers }
        requires context { ctx ≤ self.now.contexts }
        ensures { HasFound (board_word self.now buffer ctx usage) result seat.old seat.new }
    {
        let place = self.entry_place_of(contexts, buffer, ctx, usage);
        self.shown_at(seat, place)
    }

    // The fetch_max on an entry; returns the maximum, which it leaves there.
    fn raise_at(&self, seat: &mut Seat, place: usize, point: u64) -> u64
        requires own { seat.old.words ≡ self.now }
        requires entry { IsBoardWord (sizes_of self.now) place }
        ensures entered { seat.new ≡ with_step seat.old (raise place point result) }
        ensures raised { point ≤ result }
        ensures later { seen seat.old place ≤ result }
        ensures raises { raised_to seat.old place ≤ result }
    {
        let found = self
            .table
            .shared
            .fetch_max::<RaisesEntry>(&mut seat.token, place, point);
        found.max(point)
    }

    fn shown_at(&self, seat: &mut Seat, place: usize) -> u64
        requires own { seat.old.words ≡ self.now }
        requires entry { IsBoardWord (sizes_of self.now) place }
        ensures entered { seat.new ≡ with_step seat.old (shown place result) }
        ensures later { seen seat.old place ≤ result }
        ensures raises { raised_to seat.old place ≤ result }
    {
        self.table.shared.load::<LoadsEntry>(&mut seat.token, place)
    }

    // The load of a seat with all parts: the greatest point to which its trace has raised the entry.
    pub(crate) fn top_at(&self, seat: &mut Seat, place: usize) -> u64
        requires own { seat.old.words ≡ self.now }
        requires entry { IsBoardWord (sizes_of self.now) place }
        requires all { seat.old.parts ≡ PARTS }
        ensures entered { seat.new ≡ with_step seat.old (shown place result) }
        ensures later { seen seat.old place ≤ result }
        ensures state { result ≡ raised_to seat.old place }
        ensures raised { SightsWereRaised place seat.old.trace }
    {
        self.table.shared.load::<LoadsTop>(&mut seat.token, place)
    }
}
