//! `Resv`: the reservation of a buffer as a list of entries, as Linux's `struct dma_resv` has one. `LockedBuffer` of
//! `clients_core` uses it; the desk's buffers use `TopTable`.
ghost use Rattle.std.specs.Prelude.{◌≡◌, ◌+◌, ◌-◌, ◌<◌, ◌≤◌, ◌↔◌, Ok, if◌then◌else◌, length, IfErr, IfOk, IsTrue, OnErr, OnOk};
ghost use Rattle.std.specs.List.{list_any};
ghost use Rattle.point_core.specs.declared.context.TheConstants.{CONTEXTS};
ghost use Rattle.point_core.specs.Agreement.{AgreesAbove, IsReached, listing};
ghost use Rattle.point_core.specs.Usage.{usage_number};
ghost use Rattle.resv_core.specs.declared.resv.TheConstants.{PLACES};
ghost use Rattle.resv_core.specs.Resv.{IsTable, IsTrimmed, empty, entry_of, gives_way, rows_of};
ghost use Rattle.resv_core.specs.Run.{Leaves, Reserve, Add, Trim};

use crate::tops::{Tops, USAGES, compact, put_each};
use point_core::{
    CONTEXTS, Entry, LatestPoints, Point, Reach, Refusal, TopRow, Usage, covers, is_signalled,
};
use std::alloc::Global;
use std::marker::Model;

/// The number of places that a table has for each context: one for an entry of each usage, and one for a new entry.
pub const PLACES_PER_CONTEXT: usize = USAGES + 1;

/// The most entries of a table. A trimmed table has a free place for each context.
pub const PLACES: usize = PLACES_PER_CONTEXT * CONTEXTS;

const _: () = prove!(PLACES_PER_CONTEXT == 5);

const _: () = prove!(PLACES == 1_280);

/// The fences of a buffer, each with the usage that it was added for, as Linux's `struct dma_resv`.
///
/// Two tables are equivalent if their latest pending points agree, for each context at each usage or a stronger one.
/// Whether an entry is still stored once it is signalled or covered is unspecified.
#[derive(Debug, Drop)]
pub struct Resv {
    entries: Vec<Entry>,
    alloc: Global,
}

impl Model for Resv {
    ghost use Rattle.std.specs.Prelude.{◌≡◌, ◌-◌, ◌<◌, ◌≤◌, vec_len};
    ghost use Rattle.std.specs.Vec.{vec_capacity};
    ghost use Rattle.resv_core.specs.Resv.{Reservation};
    ghost use Rattle.point_core.specs.Agreement.{HasContexts};
    ghost use Rattle.resv_core.specs.declared.resv.TheConstants.{PLACES};

    ghost Value = { Reservation };

    ghost view = { λ r. record { entries = r.entries.items; room = vec_capacity r.entries - vec_len r.entries } };

    ghost invariant = { λ r. (0 < vec_capacity r.entries → vec_capacity r.entries ≡ PLACES) × HasContexts r.entries.items };
}

impl Resv {
    /// No entries and no room: the first `reserve` allocates the places. Never refused, since it does not allocate.
    pub fn new(alloc: Global) -> Result<Self, Refusal>
        ensures empty { result ≡ Ok empty }
    {
        Ok(Resv {
            entries: Vec::new(alloc),
            alloc,
        })
    }

    /// Makes room for `n` entries to be added, as Linux's `dma_resv_reserve_fences`. If there is too little, the table
    /// is trimmed; the kernel makes a larger table, and doesn't carry signalled fences over. Here the first call that
    /// needs a place allocates all places, which always suffice.
    ///
    /// Fails only with `Memory`, if there were no places yet, and leaves the table as it was.
    pub fn reserve(&mut self, n: usize, reach: &Reach) -> Result<(), Refusal>
        requires few { n ≤ CONTEXTS }
        ensures table { IsTable self.new }
        ensures room { OnOk result (n ≤ self.new.room) }
        ensures agrees { Leaves Reserve reach.now self.old.entries self.new.entries }

        // With enough room nothing changes; otherwise the table is trimmed, and has all its places.
        ensures enough { n ≤ self.old.room → (result ≡ Ok tt) × (self.new ≡ self.old) }
        ensures trimmed { OnOk result (self.old.room < n → IsTrimmed reach.now self.new.entries) }
        ensures few { OnOk result (self.old.room < n → length self.new.entries + CONTEXTS ≤ PLACES) }
        ensures places { OnOk result (self.old.room < n → length self.new.entries + self.new.room ≡ PLACES) }

        ensures memory { IfErr result (λ e. e ≡ Refusal.Memory) }
        ensures first { OnErr result (self.old ≡ empty) }
        ensures refused { OnErr result (self.new ≡ self.old) }
    {
        if n <= self.room() {
            return Ok(());
        }
        if self.entries.capacity() == 0 {
            self.entries = Vec::with_capacity(self.alloc, PLACES)?;
        } else {
            self.trim(reach);
        }
        Ok(())
    }

    /// The number of entries that can be added before the next `reserve`.
    pub fn room(&self) -> usize
        ensures room { result ≡ self.now.room }
        ensures table { IsTable self.now }
    {
        self.entries.capacity() - self.entries.len()
    }

    /// Adds a fence. It replaces an entry that is signalled, or that the new one covers: the same context, a usage
    /// number at least the new one's, a point not later. If there is no such entry it takes a free place, so `reserve`
    /// first.
    ///
    /// Linux's `dma_resv_add_fence` replaces in this manner; which entries a new one may replace differs between
    /// kernels, and these conditions are our own. At present the first such entry is replaced, in place; which one it
    /// is, and where an entry is stored, is unspecified. Does not allocate.
    pub fn add(&mut self, point: Point, usage: Usage, reach: &Reach)
        requires room { 1 ≤ self.old.room }
        ensures table { IsTable self.new }
        ensures agrees { Leaves (Add (entry_of point usage)) reach.now self.old.entries self.new.entries }
        ensures room { self.new.room ≡
            (if list_any (gives_way reach.now (entry_of point usage)) self.old.entries
            then self.old.room
            else self.old.room - 1) }
        ensures falls { self.old.room ≤ self.new.room + 1 }
        ensures places { length self.new.entries + self.new.room ≡ length self.old.entries + self.old.room }
    {
        let entry = Entry { point, usage };
        match self.entries.iter().position(|old| is_signalled(old.point, reach)
            || covers(entry, *old))
        {
            Some(index) => self.entries[index] = entry,
            None => self.entries.push_reserved(entry),
        }
    }

    /// Drops the entries that are signalled, and those that another one covers; of equal ones one stays. So there is a
    /// place for a new entry of each context. The kernel has no such call: it drops signalled fences when it makes a
    /// larger table. Does not allocate.
    pub fn trim(&mut self, reach: &Reach)
        ensures table { IsTable self.new }
        ensures agrees { Leaves Trim reach.now self.old.entries self.new.entries }
        ensures trimmed { IsTrimmed reach.now self.new.entries }
        ensures few { length self.new.entries + CONTEXTS ≤ PLACES }
        ensures places { length self.new.entries + self.new.room ≡ length self.old.entries + self.old.room }
    {
        if self.entries.capacity() != 0 {
            compact(&mut self.entries, reach);
        }
    }

    /// The pending points at the usage or a stronger one: the latest of each context, by rising context. Linux's
    /// `dma_resv_get_fences` gives each pending fence of these usages.
    pub fn collect(&self, usage: Usage, reach: &Reach) -> Result<Vec<Point>, Refusal>
        ensures points { IfOk result (λ ps. ps.items ≡ listing self.now.entries (usage_number usage) reach.now) }
        ensures memory { IfErr result (λ e. e ≡ Refusal.Memory) }
    {
        let mut latest = LatestPoints::above(reach);
        put_each(&mut latest, usage, self.entries.as_slice());
        latest.points(self.alloc, reach)
    }

    /// Like `collect`, but with a scratch table and a list that are cleared and reused; allocates only if there are
    /// more points than the list has room for.
    pub fn collect_into(
        &self,
        usage: Usage,
        reach: &Reach,
        latest: &mut LatestPoints,
        points: &mut Vec<Point>,
    ) -> Result<(), Refusal>
        ensures points { OnOk result (points.new.items ≡ listing self.now.entries (usage_number usage) reach.now) }
        ensures memory { IfErr result (λ e. e ≡ Refusal.Memory) }
    {
        latest.restart(reach);
        put_each(latest, usage, self.entries.as_slice());
        latest.list(reach, points)
    }

    /// The pending top of each context at each usage: from the strongest usage to the weakest, and by rising context.
    pub fn table(&self, reach: &Reach) -> Result<Vec<TopRow>, Refusal>
        ensures rows { IfOk result (λ rows. rows.items ≡ rows_of self.now.entries reach.now) }
        ensures memory { IfErr result (λ e. e ≡ Refusal.Memory) }
    {
        Tops::of(self.entries.as_slice(), reach).rows(self.alloc, reach)
    }

    /// Whether every entry of the usage or a stronger one is signalled, as Linux's `dma_resv_test_signaled`. Does not
    /// allocate.
    ///
    /// For users of the library; no program here calls it.
    pub fn test(&self, usage: Usage, reach: &Reach) -> bool
        ensures reached { IsTrue result ↔ IsReached self.now.entries (usage_number usage) reach.now }
    {
        self.entries.iter().all(|entry| entry.usage.number() > usage.number()
            || is_signalled(entry.point, reach))
    }

    /// Whether the table agrees above the reach with these entries: at each usage both have the same latest pending
    /// point of each context. Does not allocate.
    pub fn agrees(&self, entries: &[Entry], reach: &Reach) -> bool
        ensures agrees { IsTrue result ↔ AgreesAbove reach.now self.now.entries entries.now }
    {
        Tops::of(self.entries.as_slice(), reach).is_same(&Tops::of(entries, reach))
    }
}
