//! `LockedTable`: the `SharedTable` of buffers that are each under a lock of its own. It has as many buffers as the
//! words that it was made for. `run_clients` runs clients on it.
ghost use Rattle.std.specs.Prelude.{◌≡◌, ◌⊎◌, ◌++◌, ◌∷◌, [], vec_len, IfErr, IfOk, OnErr, OnOk};
ghost use Rattle.point_core.specs.Agreement.{AllAbove, HasRisingContexts, listing as pending_of};
ghost use Rattle.point_core.specs.declared.refusal.Refusal.TheVariants as refusal;
ghost use Rattle.point_core.specs.Usage.{usage_number};
ghost use Rattle.resv_core.specs.Resv.{entry_of};
ghost use Rattle.words_core.specs.theorem.Loads.{reach_seen, HasLoadedAll};

use crate::board::take_points;
use crate::gathered_values::{gathered_open, listed};
use crate::locked_buffer::LockedBuffer;
use crate::planned_entries::planned_entries;
use point_core::{Items, LatestPoints, Listing, Point, Reach, Refusal, Usage};
use resv_core::{Plan, Settled, SharedTable};
use std::alloc::Global;
use std::marker::Model;
use std::sync::{Mutex, Wait};
use words_core::{Seat, Whole, Words, WordsId};

/// Buffers under locks: a lock is held for one call, and none is taken inside another.
///
/// Put and export load their reach under the lock of their buffer, so that the floor never is above the reach that
/// comes next: of two calls on a buffer the later one loads no lower values.
#[derive(Drop)]
pub struct LockedTable {
    buffers: Vec<Mutex<Locked>>,
    words: WordsId,
}

impl Model for LockedTable {
    ghost use Rattle.std.specs.Prelude.{◌≡◌, vec_len};
    ghost use Rattle.words_core.specs.theorem.Words.{WordsModel};

    ghost Value = { WordsModel };

    ghost view = { λ table. table.words };

    ghost invariant = { λ table. vec_len table.buffers ≡ table.words.buffers };
}

impl SharedTable for LockedTable {
    ghost made_for = { λ table. table };

    // A call under a lock makes no step on words but one load of all values, so the seat's trace has only that.
    ghost puts = { λ table buffer e before after answer. HasLoadedAll before after (reach_seen after) };

    ghost exports = { λ table buffer usage before after answer. HasLoadedAll before after (reach_seen after) };

    fn empty(alloc: Global, words: &Words) -> Result<LockedTable, Refusal> {
        let buffers = empty_buffers(alloc, words.buffers())?;
        Ok(LockedTable {
            buffers,
            words: words.id(),
        })
    }

    fn put<R: Wait>(
        &self,
        rt: &R,
        _alloc: Global,
        words: &Words,
        seat: &mut Seat,
        buffer: usize,
        point: Point,
        usage: Usage,
    ) -> Result<(), Refusal> {
        self.buffers[buffer].lock(rt).put(words, seat, point, usage)
    }

    fn export<R: Wait>(
        &self,
        rt: &R,
        alloc: Global,
        words: &Words,
        seat: &mut Seat,
        buffer: usize,
        usage: Usage,
    ) -> Result<Listing, Refusal> {
        let mut listing = Listing::empty(alloc);
        self.buffers[buffer]
            .lock(rt)
            .export(alloc, words, seat, usage, &mut listing)?;
        Ok(listing)
    }

    fn export_into<R: Wait>(
        &self,
        rt: &R,
        alloc: Global,
        words: &Words,
        seat: &mut Seat,
        buffer: usize,
        usage: Usage,
        listing: &mut Listing,
    ) -> Result<(), Refusal> {
        self.buffers[buffer]
            .lock(rt)
            .export(alloc, words, seat, usage, listing)
    }

    fn settle<R: Wait>(
        &self,
        rt: &R,
        alloc: Global,
        words: &Words,
        all: &mut Whole,
        plans: &[Plan],
    ) -> Result<Settled, Refusal> {
        let reach = gathered_open(words, all)?;
        let values = listed(alloc, &reach, words.contexts())?;
        let mut tables = Vec::with_capacity(alloc, self.buffers.len())?;
        for index in 0..self.buffers.len() {
            let expected = planned_entries(alloc, index, plans)?;
            let rows = self.buffers[index]
                .lock(rt)
                .buffer
                .settle(expected.as_slice(), &reach)?;
            tables.push_reserved(Items::of(rows));
        }
        Ok(Settled {
            values: Items::of(values),
            tables: Items::of(tables),
        })
    }
}

/// The data of a lock: a buffer, and the tables that its puts and looks reuse.
#[derive(Drop)]
struct Locked {
    buffer: LockedBuffer,
    loaded: Reach,
    latest: LatestPoints,
}

impl Locked {
    /// Nothing was put.
    fn new(alloc: Global) -> Result<Locked, Refusal>
        ensures memory { IfErr result (λ e. e ≡ refusal.Memory) }
    {
        let none = Reach::zero();
        Ok(Locked {
            buffer: LockedBuffer::new(alloc)?,
            loaded: none,
            latest: LatestPoints::above(&none),
        })
    }

    /// Puts a fence in, above values that are loaded in this call.
    fn put(
        &mut self,
        words: &Words,
        seat: &mut Seat,
        point: Point,
        usage: Usage,
    ) -> Result<(), Refusal>
        requires own { seat.old.words ≡ words.now }
        ensures loaded { HasLoadedAll seat.old seat.new (reach_seen seat.new) }
        ensures put { OnOk result (self.new.buffer.journal ≡ self.old.buffer.journal ++ entry_of point usage ∷ []) }
        ensures refused { OnErr result (self.new.buffer.journal ≡ self.old.buffer.journal) }
        ensures refusals { IfErr result (λ e. (e ≡ refusal.Torn) ⊎ (e ≡ refusal.Memory)) }
    {
        self.loaded.clear();
        words.load_all_into(seat, &mut self.loaded);
        self.buffer.put(point, usage, &self.loaded)
    }

    /// The pending points above values that are loaded in this call, which are the listing's floor. The listing is cleared first.
    fn export(
        &mut self,
        alloc: Global,
        words: &Words,
        seat: &mut Seat,
        usage: Usage,
        listing: &mut Listing,
    ) -> Result<(), Refusal>
        requires own { seat.old.words ≡ words.now }
        ensures loaded { HasLoadedAll seat.old seat.new (reach_seen seat.new) }
        ensures floor { OnOk result (HasLoadedAll seat.old seat.new listing.new.floor) }
        ensures journal { self.new.buffer.journal ≡ self.old.buffer.journal }
        ensures points { OnOk result
            (listing.new.points ≡ pending_of self.old.buffer.journal (usage_number usage) listing.new.floor) }
        ensures rising { OnOk result (HasRisingContexts listing.new.points) }
        ensures above { OnOk result (AllAbove listing.new.floor listing.new.points) }
        ensures refusals { IfErr result (λ e. (e ≡ refusal.Torn) ⊎ (e ≡ refusal.Memory)) }
    {
        listing.floor.clear();
        words.load_all_into(seat, &mut listing.floor);
        let mut points = take_points(alloc, &mut listing.points);
        self.buffer
            .export_into(usage, &listing.floor, &mut self.latest, &mut points)?;
        listing.points = Items::of(points);
        Ok(())
    }
}

fn empty_buffers(alloc: Global, count: usize) -> Result<Vec<Mutex<Locked>>, Refusal>
    ensures count { IfOk result (λ buffers. vec_len buffers ≡ count) }
    ensures memory { IfErr result (λ e. e ≡ refusal.Memory) }
{
    let mut buffers = Vec::with_capacity(alloc, count)?;
    for _ in 0..count {
        buffers.push_reserved(Mutex::new(Locked::new(alloc)?));
    }
    Ok(buffers)
}
