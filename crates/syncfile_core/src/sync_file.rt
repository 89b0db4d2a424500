//! `SyncFile`: at most one point of each context, by rising context, above a floor. A file never changes; polls compare
//! its points with the clocks.
ghost use Rattle.std.specs.Prelude.{◌≡◌, IfOk, IfErr};
ghost use Rattle.point_core.specs.declared.refusal.Refusal.TheVariants.{Memory};
ghost use Rattle.syncfile_core.specs.SyncFile.{plain_file};
ghost use Rattle.syncfile_core.specs.Drafts.{drafted};
ghost use Rattle.point_core.specs.Agreement.{HasRisingContexts};

use crate::draft::Draft;
use point_core::{Floor, Items, Name, Point, Refusal};
use std::alloc::Global;
use std::marker::Model;
use std::mem::swap;

/// A sync file: at most one point of each context, by rising context, and a floor: the reach above which the points
/// agree with all that was put into the file.
#[derive(Debug, Drop)]
pub struct SyncFile {
    pub name: Name,
    pub points: Items<Point>,
    pub floor: Floor,
}

impl Model for SyncFile {
    ghost use Rattle.syncfile_core.specs.SyncFile.{File};
    ghost use Rattle.point_core.specs.Agreement.{HasRisingContexts};

    ghost Value = { File };

    ghost view = { λ f. record { name = f.name; points = f.points; floor = f.floor } };

    ghost invariant = { λ f. HasRisingContexts f.points };
}

impl SyncFile {
    /// A file of one point, with a floor of 0 everywhere.
    pub fn plain(alloc: Global, name: Name, point: Point) -> Result<SyncFile, Refusal>
        ensures file { IfOk result (λ f. f ≡ plain_file name point) }
        ensures memory { IfErr result (λ e. e ≡ Memory) }
    {
        let mut points = Vec::with_capacity(alloc, 1)?;
        points.push_reserved(point);
        Ok(SyncFile {
            name,
            points: Items::of(points),
            floor: Floor::zero(alloc),
        })
    }

    /// An empty file, as a slot for one that is made later. Does not allocate.
    pub(crate) fn blank(alloc: Global, name: Name) -> SyncFile
        ensures named { result.name ≡ name }
    {
        let (points, floor) = (Items::of(Vec::new(alloc)), Floor::zero(alloc));
        SyncFile {
            name,
            points,
            floor,
        }
    }

    /// Becomes the draft's file, and swaps memory with the draft.
    pub(crate) fn take_up(&mut self, name: Name, draft: &mut Draft)
        requires rising { HasRisingContexts draft.old.points.items }
        ensures file { self.new ≡ drafted name draft.old }
    {
        self.name = name;
        self.points.exchange(&mut draft.points);
        swap(&mut self.floor, &mut draft.floor);
    }
}
