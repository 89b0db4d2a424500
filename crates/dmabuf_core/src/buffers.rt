//! `Buffers`: the buffers by name, each with its reservation. Each call changes only the buffer that it names.
ghost use Rattle.std.specs.Prelude.{◌≡◌, ◌<◌, ℕ, false, ◌↔◌, ◌++◌, [], ◌∷◌, List, length, position, slice_get, IfErr, IfNone, IfOk, IfSome, IsOk, IsOkAnd, IsTrue, MatchBool, MatchOption, MatchResult, Ok, Err, OnErr, OnOk, None, Some};
ghost use Rattle.std.specs.Map.{values_of};
ghost use Rattle.point_core.specs.declared.refusal.Refusal.TheVariants.{Memory, NoEntry};
ghost use Rattle.point_core.specs.Agreement.{AgreesAbove, as_entries, HasRisingContexts, IsReached, listing};
ghost use Rattle.point_core.specs.Latest.{points_above};
ghost use Rattle.point_core.specs.Usage.{usage_number};
ghost use Rattle.point_core.specs.Named.{same_name};
ghost use Rattle.point_core.specs.Refusal.{IsRefusedFor};
ghost use Rattle.resv_core.specs.Resv.{IsTrimmed, empty, entry_of, rows_of};
ghost use Rattle.dmabuf_core.specs.Flags.{export_usage, imported};
ghost use Rattle.dmabuf_core.specs.Buffers.{AreBuffers, OnlyChanges, cause_by_flags, cause_to_refuse, cause_without, entries_of, has_buffer, names_of, table_at};

use crate::flags::SyncFlags;
use indexmap::IndexMap;
use point_core::{
    BUFFERS, Items, LatestPoints, LimitKind, Listing, Name, Point, Reach, Refusal, TopRow, Usage,
};
use resv_core::TopTable;
use std::alloc::Global;
use std::marker::Model;
use syncfile_core::SyncFile;

/// The buffers in order of making, each with its reservation, as Linux's `struct dma_buf` and its `resv`.
#[derive(Drop)]
pub struct Buffers {
    by_name: IndexMap<Name, TopTable>,
}

impl Model for Buffers {
    ghost use Rattle.std.specs.Prelude.{List};
    ghost use Rattle.dmabuf_core.specs.Buffers.{AreBuffers, Buffer};

    ghost Value = { List Buffer };

    ghost view = { λ bs. bs.by_name.entries };

    ghost invariant = { λ bs. AreBuffers bs.by_name.entries };
}

impl Buffers {
    /// No buffers. Never refused, since it does not allocate.
    pub fn new(alloc: Global) -> Result<Buffers, Refusal>
        ensures { result ≡ Ok [] }
    {
        Ok(Buffers {
            by_name: IndexMap::new(alloc),
        })
    }

    /// Removes all buffers.
    pub fn clear(&mut self)
        ensures { self.new ≡ [] }
    {
        self.by_name.clear();
    }

    /// Makes a buffer with an empty reservation. Only `clear` removes it.
    ///
    /// Fails with `Exists` if a buffer has that name, with `Limit` if there are `BUFFERS` buffers, then with `Memory`;
    /// nothing is made then.
    pub fn create(&mut self, name: Name) -> Result<(), Refusal>
        ensures refused { IsRefusedFor (cause_to_refuse self.old name) result }
        ensures last { OnOk result (self.new ≡ self.old ++ (name, empty) ∷ []) }
        ensures unchanged { OnErr result (self.new ≡ self.old) }
        ensures kept { AreBuffers self.new }
    {
        if self.has(&name) {
            return Err(Refusal::Exists);
        }
        if self.by_name.len() >= BUFFERS {
            return Err(Refusal::Limit(LimitKind::Buffers));
        }
        let table = TopTable::new(self.allocator());
        match self.by_name.insert(name, table) {
            Ok(_) => Ok(()),
            Err(_) => Err(Refusal::Memory),
        }
    }

    /// Whether a buffer has that name.
    pub fn has(&self, name: &Name) -> bool
        ensures { result ≡ has_buffer self.now name.now }
    {
        self.by_name.contains_key(name)
    }

    /// Adds one fence to a buffer, as Linux's `dma_resv_add_fence` after a `dma_resv_reserve_fences` of one.
    ///
    /// Fails with `NoEntry`, then with `Memory`, and then leaves every table as it was. Only a buffer's first fence
    /// allocates.
    #[inline(always)]
    pub fn add(
        &mut self,
        name: &Name,
        point: Point,
        usage: Usage,
        reach: &Reach,
    ) -> Result<(), Refusal>
        ensures refused { IsRefusedFor (cause_without self.old name.now) result }
        ensures agrees { OnOk result (AgreesAbove reach.now (entries_of self.new name.now)
            (entries_of self.old name.now ++ entry_of point usage ∷ [])) }
        ensures others { OnlyChanges name.now self.old self.new }
        ensures unchanged { OnErr result (self.new ≡ self.old) }
        ensures kept { AreBuffers self.new }
    {
        let index = index_of(&self.by_name, name)?;
        self.by_name[index].put(point, usage)
    }

    /// Adds the fences of a sync file to a buffer, as Linux's `DMA_BUF_IOCTL_IMPORT_SYNC_FILE`: with usage `Write` if
    /// the flags have writing, else with usage `Read`. A file without points adds nothing; the kernel adds its stub,
    /// which is signalled. All fences are added, or none.
    ///
    /// Fails with `NoEntry`, then with `Flags` for any number but 1, 2 and 3, then with `Memory`, and leaves every table as
    /// it was.
    pub fn import(
        &mut self,
        name: &Name,
        file: &SyncFile,
        flags: u32,
        reach: &Reach,
    ) -> Result<(), Refusal>
        ensures refused { IsRefusedFor (cause_by_flags self.old name.now flags) result }
        ensures agrees { OnOk result (AgreesAbove reach.now (entries_of self.new name.now)
            (entries_of self.old name.now ++ imported flags (as_entries file.now.points))) }
        ensures others { OnlyChanges name.now self.old self.new }
        ensures nothing { file.now.points ≡ [] → self.new ≡ self.old }
        ensures unchanged { OnErr result (self.new ≡ self.old) }
        ensures kept { AreBuffers self.new }
    {
        let index = index_of(&self.by_name, name)?;
        let usage = SyncFlags::of(flags)?.import_usage();
        self.by_name[index].put_all(file.points.as_slice(), usage)
    }

    /// The fences that an access with these flags has to wait for, as a listing for a sync file, as Linux's
    /// `DMA_BUF_IOCTL_EXPORT_SYNC_FILE`: an access that only reads waits for the kernel's and the writers' fences, any
    /// other for the readers' too. Signalled fences are not listed, and the floor is the reach. If nothing is pending
    /// the listing is empty; the kernel gives a file of its stub.
    ///
    /// Fails with `NoEntry`, then with `Flags` for any number but 1, 2 and 3, then with `Memory`.
    ///
    /// For users of the library; no program here calls it.
    pub fn export(&self, name: &Name, flags: u32, reach: &Reach) -> Result<Listing, Refusal>
        ensures refused { IsRefusedFor (cause_by_flags self.now name.now flags) result }
        ensures points { IfOk result (λ l.
            l.points ≡ listing (entries_of self.now name.now) (usage_number (export_usage flags)) reach.now) }
        ensures floor { IfOk result (λ l. l.floor ≡ reach.now) }
        ensures rising { IfOk result (λ l. HasRisingContexts l.points) }
    {
        let table = self.known(name)?;
        let usage = SyncFlags::of(flags)?.export_usage();
        Ok(Listing {
            points: Items::of(table.collect(usage, reach)?),
            floor: *reach,
        })
    }

    /// The table behind `export`: the latest point of each context at the usages for which an access with these flags
    /// has to wait; none before the buffer's first fence. The points that are above a reach are pending at it. As
    /// Linux's `DMA_BUF_IOCTL_EXPORT_SYNC_FILE`, before a file is made.
    ///
    /// Fails with `NoEntry`, then with `Flags` for any number but 1, 2 and 3. Does not allocate.
    pub fn latest(&self, name: &Name, flags: u32) -> Result<Option<&LatestPoints>, Refusal>
        ensures refused { IsRefusedFor (cause_by_flags self.now name.now flags) result }
        ensures caused { IfErr result (λ e. cause_by_flags self.now name.now flags ≡ Some e) }
        ensures none { IfOk result (λ latest. IfNone latest ((reach : List ℕ) →
            listing (entries_of self.now name.now) (usage_number (export_usage flags)) reach ≡ [])) }
        ensures some { IfOk result (λ latest. IfSome latest (λ l. (reach : List ℕ) → points_above l.now reach
            ≡ listing (entries_of self.now name.now) (usage_number (export_usage flags)) reach)) }
    {
        let table = self.known(name)?;
        let usage = SyncFlags::of(flags)?.export_usage();
        Ok(table.latest(usage))
    }

    /// Whether every fence of the usage or a stronger one is signalled, as Linux's `dma_resv_test_signaled`.
    ///
    /// Fails with `NoEntry`. Does not allocate.
    #[inline(always)]
    pub fn test(&self, name: &Name, usage: Usage, reach: &Reach) -> Result<bool, Refusal>
        ensures { MatchBool (has_buffer self.now name.now)
            (IsOkAnd result (λ signalled.
            IsTrue signalled ↔ IsReached (entries_of self.now name.now) (usage_number usage) reach.now))
            (result ≡ Err NoEntry) }
    {
        Ok(self.known(name)?.test(usage, reach))
    }

    /// Drops from a buffer the fences that are signalled, and those that another one covers.
    ///
    /// Fails with `NoEntry`. Does not allocate.
    pub fn trim(&mut self, name: &Name, reach: &Reach) -> Result<(), Refusal>
        ensures known { MatchBool (has_buffer self.old name.now) (IsOk result) (result ≡ Err NoEntry) }
        ensures agrees { AgreesAbove reach.now (entries_of self.old name.now) (entries_of self.new name.now) }
        ensures trimmed { IsTrimmed reach.now (entries_of self.new name.now) }
        ensures others { OnlyChanges name.now self.old self.new }
        ensures unchanged { OnErr result (self.new ≡ self.old) }
        ensures kept { AreBuffers self.new }
    {
        let index = index_of(&self.by_name, name)?;
        self.by_name[index].trim(reach);
        Ok(())
    }

    /// The pending top of each context at each usage: from the strongest usage to the weakest, and by rising context.
    ///
    /// Fails with `NoEntry`, then with `Memory`.
    pub fn table(&self, name: &Name, reach: &Reach) -> Result<Vec<TopRow>, Refusal>
        ensures refused { IsRefusedFor (cause_without self.now name.now) result }
        ensures rows { IfOk result (λ rows. rows.items ≡ rows_of (entries_of self.now name.now) reach.now) }
    {
        self.known(name)?.table(reach)
    }

    /// The names, in order of making.
    pub fn names(&self) -> Result<Vec<Name>, Refusal>
        ensures names { IfOk result (λ names. names.items ≡ names_of self.now) }
        ensures memory { IfErr result (λ e. e ≡ Memory) }
        ensures kept { AreBuffers self.now }
    {
        Ok(self.by_name.keys().copied().collect(self.allocator())?)
    }

    fn known(&self, name: &Name) -> Result<&TopTable, Refusal>
        ensures found { IfOk result (λ table. table_at self.now name.now ≡ Some table.now) }
        ensures unknown { IfErr result (λ e. e ≡ NoEntry) }
        ensures absent { OnErr result (has_buffer self.now name.now ≡ false) }
    {
        let index = index_of(&self.by_name, name)?;
        Ok(&self.by_name[index])
    }

    fn allocator(&self) -> Global {
        *self.by_name.allocator()
    }
}

/// The index of the buffer with that name. Fails with `NoEntry`.
fn index_of(map: &IndexMap<Name, TopTable>, name: &Name) -> Result<usize, Refusal>
    ensures index { IfOk result (λ index. Some index ≡ position (same_name name.now) (names_of map.now.entries)) }
    ensures within { IfOk result (λ index. index < length map.now.entries) }
    ensures table { IfOk result (λ index.
        slice_get (values_of map.now.entries) index ≡ table_at map.now.entries name.now) }
    ensures unknown { IfErr result (λ e. e ≡ NoEntry) }
    ensures absent { OnErr result (table_at map.now.entries name.now ≡ None) }
{
    map.get_index_of(name).ok_or(Refusal::NoEntry)
}
