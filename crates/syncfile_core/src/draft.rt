//! `Draft`: the points and the floor of a file that is being made. `Files` draws each new file in one, and keeps it, so
//! that a file reuses the memory of one that was closed.
ghost use Rattle.std.specs.Prelude.{◌≡◌, ℕ, List, OnOk, IfErr, option_copied};
ghost use Rattle.point_core.specs.declared.refusal.Refusal.TheVariants.{Memory};
ghost use Rattle.point_core.specs.Agreement.{HasRisingContexts};
ghost use Rattle.syncfile_core.specs.SyncFile.{plain_file, file_of};
ghost use Rattle.syncfile_core.specs.Drafts.{drafted, pending_of};

use point_core::{Floor, LatestPoints, Listing, Point, Reach, Refusal};
use std::alloc::Global;

/// The points and the floor of a file that is being made, in reused memory.
#[derive(Drop)]
pub(crate) struct Draft {
    pub(crate) points: Vec<Point>,
    pub(crate) floor: Floor,
}

impl Draft {
    /// An empty draft. Does not allocate.
    pub(crate) fn new(alloc: Global) -> Draft {
        Draft {
            points: Vec::new(alloc),
            floor: Floor::zero(alloc),
        }
    }

    /// One point, with a floor of 0 everywhere.
    #[inline(always)]
    pub(crate) fn draw_plain(&mut self, point: Point) -> Result<(), Refusal>
        ensures file { OnOk result ((name : List ℕ) → drafted name self.new ≡ plain_file name point) }
        ensures rising { OnOk result (HasRisingContexts self.new.points.items) }
        ensures memory { IfErr result (λ e. e ≡ Memory) }
    {
        self.points.clear();
        self.points.reserve_exact(1)?;
        self.points.push_reserved(point);
        self.floor.clear();
        Ok(())
    }

    /// Takes the points and the floor of a listing, with their memory.
    pub(crate) fn draw_listing(&mut self, listing: Listing) -> Result<(), Refusal>
        requires rising { HasRisingContexts listing.points }
        ensures file { OnOk result ((name : List ℕ) →
            drafted name self.new ≡ file_of name listing.points listing.floor) }
        ensures rising { OnOk result (HasRisingContexts self.new.points.items) }
        ensures memory { IfErr result (λ e. e ≡ Memory) }
    {
        let Listing { points, floor } = listing;
        self.points = points.into_vec();
        self.floor.copy_from(&floor)
    }

    /// The latest points that are above the reach, with the reach as the floor; no points if there is no table.
    pub(crate) fn draw_latest(
        &mut self,
        latest: Option<&LatestPoints>,
        reach: &Reach,
    ) -> Result<(), Refusal>
        ensures file { OnOk result ((name : List ℕ) →
            drafted name self.new ≡ file_of name (pending_of (option_copied latest.entry) reach.now) reach.now) }
        ensures rising { OnOk result (HasRisingContexts self.new.points.items) }
        ensures memory { IfErr result (λ e. e ≡ Memory) }
    {
        match latest {
            Some(latest) => latest.list(reach, &mut self.points)?,
            None => self.points.clear(),
        }
        self.floor.copy_from(reach)
    }
}
