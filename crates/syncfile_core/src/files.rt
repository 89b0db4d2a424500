//! `Files`: the open sync files by name. Each has at most one point of each context, and none of them changes once it
//! is made.
ghost use Rattle.std.specs.Prelude.{◌≡◌, ◌++◌, [], ◌∷◌, length, All, OnOk, OnErr, IfOk, IfErr, IsOk, None, option_copied, MatchOption, MatchBool, MatchResult, IfSome, Some, Ok, Err};
ghost use Rattle.point_core.specs.declared.refusal.Refusal.TheVariants.{Memory, NoEntry};
ghost use Rattle.syncfile_core.specs.declared.files.TheConstants.{FILES};
ghost use Rattle.syncfile_core.specs.SyncFile.{File, file_of, plain_file};
ghost use Rattle.syncfile_core.specs.Drafts.{pending_of};
ghost use Rattle.syncfile_core.specs.Merge.{files_at, floor_of, merge_of, cause_to_refuse_merge, StandsForUnion};
ghost use Rattle.point_core.specs.Agreement.{as_entry, HasRisingContexts};
ghost use Rattle.point_core.specs.Clocks.{common_status};
ghost use Rattle.point_core.specs.Reach.{IsAtLeast};
ghost use Rattle.syncfile_core.specs.Status.{info_of, ReportsSetsOf};
ghost use Rattle.point_core.specs.Refusal.{IsRefusedFor};
ghost use Rattle.syncfile_core.specs.Files.{has_file, without_file, names_of, HasDistinctNames, HasStanding, cause_to_refuse};
ghost use Rattle.syncfile_core.specs.SyncFile.{file_at};

use crate::draft::Draft;
use crate::file_slots::FileSlots;
use crate::merge::Gathered;
use crate::status::{self, FileInfo};
use crate::sync_file::SyncFile;
use point_core::{Clocks, Items, LatestPoints, Listing, Name, Point, Reach, Refusal, Status};
use std::alloc::Global;
use std::marker::Model;

/// The most files that can be open at a time.
pub const FILES: usize = 1024;

const _: () = prove!(FILES == 1024);

/// The files that are open, in order of making.
#[derive(Drop)]
pub struct Files {
    alloc: Global,
    made: FileSlots,
    // the next file
    draft: Draft,
}

impl Model for Files {
    ghost use Rattle.std.specs.Prelude.{List};
    ghost use Rattle.syncfile_core.specs.SyncFile.{File};

    ghost Value = { List File };

    ghost view = { λ fs. fs.made };
}

impl Files {
    /// No files. Never refused, since it does not allocate.
    pub fn new(alloc: Global) -> Result<Files, Refusal>
        ensures empty { result ≡ Ok [] }
    {
        Ok(Files {
            alloc,
            made: FileSlots::new(alloc),
            draft: Draft::new(alloc),
        })
    }

    /// Closes all files. The next ones reuse their memory.
    pub fn clear(&mut self)
        ensures { self.new ≡ [] }
    {
        self.made.clear();
    }

    /// The file with that name.
    pub fn get(&self, name: &Name) -> Option<&SyncFile>
        ensures found { option_copied result ≡ file_at self.now name.now }
    {
        self.made.get(name)
    }

    /// The names, in order of making.
    pub fn names(&self) -> Result<Vec<Name>, Refusal>
        ensures names { IfOk result (λ names. names.items ≡ names_of self.now) }
        ensures distinct { HasDistinctNames self.now }
        ensures memory { IfErr result (λ e. e ≡ Memory) }
    {
        self.made.names(self.alloc)
    }

    /// The file's status: active while a point is, else cancelled if one is, else signalled. A file without points is
    /// signalled.
    ///
    /// Fails with `NoEntry`. Does not allocate.
    pub fn status(&self, name: &Name, clocks: &Clocks) -> Result<Status, Refusal>
        ensures status { MatchOption (file_at self.now name.now)
            (result ≡ Err NoEntry)
            (λ f. result ≡ Ok (common_status clocks.now f.points)) }
        ensures stands { IfSome (file_at self.now name.now) (λ f. ReportsSetsOf f clocks.now) }
    {
        let file = self.made.known(name)?;
        Ok(clocks.common_status(file.points.as_slice()))
    }

    /// The file's name, its status, and a fence for each of its points. A file without points is shown as one fence,
    /// the stub, as the kernel does.
    ///
    /// Fails with `NoEntry`, then with `Memory`.
    ///
    /// For users of the library; no program here calls it.
    pub fn info(&self, name: &Name, clocks: &Clocks) -> Result<FileInfo, Refusal>
        ensures info { MatchOption (file_at self.now name.now)
            (result ≡ Err NoEntry)
            (λ f. MatchResult result (λ info. info ≡ info_of f clocks.now) (λ e. e ≡ Memory)) }
    {
        let file = self.made.known(name)?;
        let points = file.points.as_slice();
        let fences = status::fences_of(self.alloc, points, clocks)?;
        Ok(FileInfo {
            name: file.name,
            status: clocks.common_status(points),
            fences: Items::of(fences),
        })
    }

    /// Whether a file of that name may be made: `Exists` if there is one, `Limit` if there are `FILES` files.
    ///
    /// Does not allocate.
    pub fn free(&self, name: &Name) -> Result<(), Refusal>
        ensures free { MatchOption (cause_to_refuse self.now name.now) (IsOk result) (λ cause. result ≡ Err cause) }
    {
        self.made.free(name)
    }

    /// Makes a file of one point, signalled or not, with a floor of 0 everywhere, as sw_sync's create-fence call does.
    ///
    /// Fails as `free` does, then with `Memory`; nothing is made then.
    #[inline(always)]
    pub fn create(&mut self, name: Name, point: Point) -> Result<(), Refusal>
        ensures refused { IsRefusedFor (cause_to_refuse self.old name) result }
        ensures last { OnOk result (self.new ≡ self.old ++ plain_file name point ∷ []) }
        ensures stands { OnOk result (HasStanding self.new name (as_entry point ∷ [])) }
        ensures unchanged { OnErr result (self.new ≡ self.old) }
    {
        let drawn = self.draft.draw_plain(point);
        self.made.make(self.alloc, name, &mut self.draft, drawn)
    }

    /// Merges two files, which both stay: the latest pending point of each context in either, above a floor that is the
    /// maximum of the reach and of both floors. Linux's `sync_file_merge` drops and keeps the same points.
    ///
    /// Fails with `NoEntry` if an input is not open, then as `free` does, then with `Memory`; nothing is made then.
    ///
    /// For users of the library; no program here calls it.
    pub fn merge(&mut self, name: Name, a: &Name, b: &Name, reach: &Reach) -> Result<(), Refusal>
        ensures refused { IsRefusedFor (cause_to_refuse_merge self.old name (a.now ∷ b.now ∷ [])) result }
        ensures last { OnOk result (self.new ≡ self.old ++ merge_of self.old name (a.now ∷ b.now ∷ []) reach.now ∷ []) }
        ensures union { OnOk result
            (StandsForUnion (files_at self.old (a.now ∷ b.now ∷ []))
            (merge_of self.old name (a.now ∷ b.now ∷ []) reach.now)) }
        ensures unchanged { OnErr result (self.new ≡ self.old) }
    {
        self.merge_many(name, &[*a, *b], reach)
    }

    /// As `merge`, of files whose floors the reach has: then it is the floor of the merge, and no floor is looked at.
    pub fn merge_reached(
        &mut self,
        name: Name,
        a: &Name,
        b: &Name,
        reach: &Reach,
    ) -> Result<(), Refusal>
        requires floors { All (λ (f : File). IsAtLeast reach.now f.floor) self.old }
        ensures refused { IsRefusedFor (cause_to_refuse_merge self.old name (a.now ∷ b.now ∷ [])) result }
        ensures last { OnOk result (self.new ≡ self.old ++ merge_of self.old name (a.now ∷ b.now ∷ []) reach.now ∷ []) }
        ensures union { OnOk result
            (StandsForUnion (files_at self.old (a.now ∷ b.now ∷ []))
            (merge_of self.old name (a.now ∷ b.now ∷ []) reach.now)) }
        ensures floor { OnOk result (floor_of reach.now (files_at self.old (a.now ∷ b.now ∷ [])) ≡ reach.now) }
        ensures unchanged { OnErr result (self.new ≡ self.old) }
    {
        let left = self.made.known(a)?;
        let right = self.made.known(b)?;
        let drawn = self.draft.draw_merge(left, right, reach);
        self.made.make(self.alloc, name, &mut self.draft, drawn)
    }

    /// Merges any number of files, as `merge` does two. A merge of none is a file without points.
    ///
    /// Fails as `merge` does.
    ///
    /// For users of the library; no program here calls it.
    pub fn merge_many(&mut self, name: Name, inputs: &[Name], reach: &Reach) -> Result<(), Refusal>
        ensures refused { IsRefusedFor (cause_to_refuse_merge self.old name inputs.now) result }
        ensures last { OnOk result (self.new ≡ self.old ++ merge_of self.old name inputs.now reach.now ∷ []) }
        ensures union { OnOk result
            (StandsForUnion (files_at self.old inputs.now) (merge_of self.old name inputs.now reach.now)) }
        ensures unchanged { OnErr result (self.new ≡ self.old) }
    {
        let mut gathered = Gathered::above(reach);
        for input in inputs {
            gathered.add(self.made.known(input)?);
        }
        let drawn = gathered.draw(&mut self.draft, reach);
        self.made.make(self.alloc, name, &mut self.draft, drawn)
    }

    /// Makes a file of a listing.
    ///
    /// Fails as `free` does, then with `Memory`; nothing is made then.
    ///
    /// For users of the library; no program here calls it.
    pub fn adopt(&mut self, name: Name, listing: Listing) -> Result<(), Refusal>
        requires rising { HasRisingContexts listing.points }
        ensures refused { IsRefusedFor (cause_to_refuse self.old name) result }
        ensures last { OnOk result (self.new ≡ self.old ++ file_of name listing.points listing.floor ∷ []) }
        ensures unchanged { OnErr result (self.new ≡ self.old) }
    {
        let drawn = self.draft.draw_listing(listing);
        self.made.make(self.alloc, name, &mut self.draft, drawn)
    }

    /// Makes a file of the latest points that are above the reach, whose floor is the reach; without a table, a file
    /// without points. It reuses memory: `adopt` of a listing makes an equal file in memory of its own.
    ///
    /// Fails as `free` does, then with `Memory`; nothing is made then.
    pub fn adopt_latest(
        &mut self,
        name: Name,
        latest: Option<&LatestPoints>,
        reach: &Reach,
    ) -> Result<(), Refusal>
        ensures refused { IsRefusedFor (cause_to_refuse self.old name) result }
        ensures last { OnOk result
            (self.new ≡ self.old ++ file_of name (pending_of (option_copied latest.entry) reach.now) reach.now ∷ []) }
        ensures unchanged { OnErr result (self.new ≡ self.old) }
    {
        let drawn = self.draft.draw_latest(latest, reach);
        self.made.make(self.alloc, name, &mut self.draft, drawn)
    }

    /// Closes a file. The others keep their order.
    ///
    /// Fails with `NoEntry`; nothing is closed then. Does not allocate.
    #[inline(always)]
    pub fn close(&mut self, name: &Name) -> Result<(), Refusal>
        ensures known { MatchBool (has_file self.old name.now) (IsOk result) (result ≡ Err NoEntry) }
        ensures without { self.new ≡ without_file self.old name.now }
    {
        if self.made.remove(name) {
            Ok(())
        } else {
            Err(Refusal::NoEntry)
        }
    }
}
