//! `SharedTable`: the contract of buffers that clients share. `clients_core` implements it twice, with locks and as a
//! lock-free board.
ghost use Rattle.std.specs.Prelude.{◌≡◌, ℕ, ◌<◌, ◌≤◌, ◌⊎◌, length, List, Ok, Err, IfErr, IfOk, OnOk, Result};
ghost use Rattle.point_core.specs.declared.entry.Entry.{Entry};
ghost use Rattle.point_core.specs.declared.entry.Usage.{Usage};
ghost use Rattle.point_core.specs.declared.listing.Listing.{Listing};
ghost use Rattle.point_core.specs.declared.refusal.Refusal.{Refusal};
ghost use Rattle.point_core.specs.declared.refusal.Refusal.TheVariants as refusal;
ghost use Rattle.point_core.specs.Agreement.{AllAbove, HasRisingContexts};
ghost use Rattle.words_core.specs.theorem.Seat.{SeatModel};
ghost use Rattle.words_core.specs.theorem.Words.{WordsModel};
ghost use Rattle.resv_core.specs.declared.plan.Act.{Act};
ghost use Rattle.resv_core.specs.declared.plan.Settled.{Settled};
ghost use Rattle.resv_core.specs.Resv.{entry_of};
ghost use Rattle.resv_core.specs.Settled.{ArePlansWithin, gathered_values, tables_of};
ghost use Rattle.resv_core.specs.Shared.{HasClosedNone, HasLoadedOnce, HasStepped};

use crate::plan::{Plan, Settled};
use point_core::{Listing, Point, Refusal, Usage};
use std::alloc::Global;
use std::sync::Wait;
use words_core::{Seat, Whole, Words};

/// Buffers that clients share by reference, beside the words of their timelines. Each call is made with the caller's
/// seat, whose words and parts it keeps; the seat's trace only grows.
///
/// A table is made for one set of words, by `empty`, and used only with these words and their seats. An implementation
/// states its own facts about a put, an export and a settlement, beyond those of every table: a board, which consists
/// of words, has a step for each put and look in the seat's trace.
pub trait SharedTable: Sync + Sized + Drop {
    ghost made_for: { Self → WordsModel };

    // What an implementation promises of `put` into a buffer: relates the seat before and after it, and the result.
    ghost puts: { Self → ℕ → Entry → SeatModel → SeatModel → Result (Unit {0}) Refusal → Type 0 };

    // What an implementation promises of `export` at a usage.
    ghost exports: { Self → ℕ → Usage → SeatModel → SeatModel → Result Listing Refusal → Type 0 };

    // What an implementation promises of `settle`: relates the gathered seat before it, the plans and the result.
    ghost settles: { Self → SeatModel → List (List Act) → Result Settled Refusal → Type 0 } = { λ _ _ _ _. Unit {0} };

    /// A table with as many buffers as the words have, all empty.
    ///
    /// Fails only with `Memory`.
    fn empty(alloc: Global, words: &Words) -> Result<Self, Refusal>
        ensures words { IfOk result (λ table. made_for table ≡ words.now) }
        ensures memory { IfErr result (λ e. e ≡ refusal.Memory) };

    /// Puts a fence into a buffer.
    ///
    /// Fails only with `Torn`, if table and words don't belong together, and with `Memory`.
    fn put<R: Wait>(
        &self,
        rt: &R,
        alloc: Global,
        words: &Words,
        seat: &mut Seat,
        buffer: usize,
        point: Point,
        usage: Usage,
    ) -> Result<(), Refusal>
        requires own { (seat.old.words ≡ words.now) × (made_for self.now ≡ words.now) }
        requires within { (buffer < words.now.buffers) × (point.ctx ≤ words.now.contexts) }
        ensures stepped { HasStepped seat.old seat.new }
        ensures put { puts self.now buffer (entry_of point usage) seat.old seat.new result }
        ensures refusals { IfErr result (λ e. (e ≡ refusal.Torn) ⊎ (e ≡ refusal.Memory)) };

    /// The pending points of a buffer at the usage or a stronger one, by rising context, above values that are loaded
    /// in this call, which are the listing's floor.
    ///
    /// Fails as `put` does.
    fn export<R: Wait>(
        &self,
        rt: &R,
        alloc: Global,
        words: &Words,
        seat: &mut Seat,
        buffer: usize,
        usage: Usage,
    ) -> Result<Listing, Refusal>
        requires own { (seat.old.words ≡ words.now) × (made_for self.now ≡ words.now) }
        requires within { buffer < words.now.buffers }
        ensures stepped { HasStepped seat.old seat.new }
        ensures exported { exports self.now buffer usage seat.old seat.new result }
        ensures floor { IfOk result (λ listing. HasLoadedOnce listing.floor seat.old seat.new) }
        ensures rising { IfOk result (λ listing. HasRisingContexts listing.points) }
        ensures above { IfOk result (λ listing. AllAbove listing.floor listing.points) }
        ensures refusals { IfErr result (λ e. (e ≡ refusal.Torn) ⊎ (e ≡ refusal.Memory)) };

    /// Like `export`, but clears and reuses `listing`. A table without a way of its own calls `export`; the tables of
    /// `clients_core` allocate only if the list has too little room.
    ///
    /// Fails as `put` does. The listing is unspecified then.
    fn export_into<R: Wait>(
        &self,
        rt: &R,
        alloc: Global,
        words: &Words,
        seat: &mut Seat,
        buffer: usize,
        usage: Usage,
        listing: &mut Listing,
    ) -> Result<(), Refusal>
        requires own { (seat.old.words ≡ words.now) × (made_for self.now ≡ words.now) }
        requires within { buffer < words.now.buffers }
        ensures stepped { HasStepped seat.old seat.new }
        ensures exported { OnOk result (exports self.now buffer usage seat.old seat.new (Ok listing.new)) }
        ensures refused { IfErr result (λ e. exports self.now buffer usage seat.old seat.new (Err e)) }
        ensures floor { OnOk result (HasLoadedOnce listing.new.floor seat.old seat.new) }
        ensures rising { OnOk result (HasRisingContexts listing.new.points) }
        ensures above { OnOk result (AllAbove listing.new.floor listing.new.points) }
        ensures refusals { IfErr result (λ e. (e ≡ refusal.Torn) ⊎ (e ≡ refusal.Memory)) }
    {
        *listing = self.export(rt, alloc, words, seat, buffer, usage)?;
        Ok(())
    }

    /// The values that the gathered seat knows, and the tables of the plans above them.
    ///
    /// Fails with `Torn` if a context is closed, since a floor that was loaded then is the greatest value, above the
    /// gathered one; with `Torn` if the plans put other fences than were put; and with `Memory`.
    fn settle<R: Wait>(
        &self,
        rt: &R,
        alloc: Global,
        words: &Words,
        all: &mut Whole,
        plans: &[Plan],
    ) -> Result<Settled, Refusal>
        requires own { (all.old.words ≡ words.now) × (made_for self.now ≡ words.now) }
        requires plans { length plans.now ≡ words.now.contexts }
        requires within { ArePlansWithin words.now.contexts words.now.buffers plans.now }
        ensures stepped { HasStepped all.old all.new }
        ensures values { IfOk result (λ settled. settled.values ≡ gathered_values words.now.contexts all.old) }
        ensures tables { IfOk result (λ settled. settled.tables ≡ tables_of words.now.buffers plans.now settled.values) }
        ensures none_closed { IfOk result (λ settled. HasClosedNone words.now.contexts all.old) }
        ensures closed { ¬ HasClosedNone words.now.contexts all.old → result ≡ Err refusal.Torn }
        ensures settled { settles self.now all.old plans.now result }
        ensures refusals { IfErr result (λ e. (e ≡ refusal.Torn) ⊎ (e ≡ refusal.Memory)) };
}
