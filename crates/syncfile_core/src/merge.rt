//! Merges: two files in one pass over their points, or any number by a table of latest points.
ghost use Rattle.std.specs.Prelude.{◌≡◌, ℕ, List, [], ◌∷◌, ◌++◌, OnOk, IfErr};
ghost use Rattle.point_core.specs.declared.entry.Entry.{Entry};
ghost use Rattle.point_core.specs.declared.refusal.Refusal.TheVariants.{Memory};
ghost use Rattle.point_core.specs.Agreement.{HasRisingContexts};
ghost use Rattle.point_core.specs.Latest.{IsLatest};
ghost use Rattle.point_core.specs.Reach.{IsAtLeast};
ghost use Rattle.syncfile_core.specs.SyncFile.{File};
ghost use Rattle.syncfile_core.specs.Drafts.{drafted};
ghost use Rattle.syncfile_core.specs.Merge.{IsGathered, IsGatheredAbove, StandsForUnion, merged_file, floor_of};

use crate::draft::Draft;
use crate::sync_file::SyncFile;
use point_core::{LatestPoints, Reach, Refusal};

impl Draft {
    /// Draws the merge of two files whose floors the reach has, in one pass over their points.
    pub(crate) fn draw_merge(
        &mut self,
        left: &SyncFile,
        right: &SyncFile,
        reach: &Reach,
    ) -> Result<(), Refusal>
        requires floors { IsAtLeast reach.now left.now.floor × IsAtLeast reach.now right.now.floor }
        ensures file { OnOk result ((name : List ℕ) →
            drafted name self.new ≡ merged_file name (left.now ∷ right.now ∷ []) reach.now) }
        ensures rising { OnOk result (HasRisingContexts self.new.points.items) }
        ensures union { OnOk result ((name : List ℕ) → StandsForUnion (left.now ∷ right.now ∷ [])
            (merged_file name (left.now ∷ right.now ∷ []) reach.now)) }
        ensures floor { OnOk result (floor_of reach.now (left.now ∷ right.now ∷ []) ≡ reach.now) }
        ensures memory { IfErr result (λ e. e ≡ Memory) }
    {
        // For the proof: floors and reach have a value of each context, so the greatest ones are the reach.
        let _left = left.floor.used();
        let _right = right.floor.used();
        let _reach = reach.used();
        let (ps, qs) = (left.points.as_slice(), right.points.as_slice());
        point_core::merge_into(&mut self.points, ps, qs, reach)?;
        self.floor.copy_from(reach)
    }
}

/// For each context, the latest point of a reach and the inputs so far, and the maximum of their floors.
#[derive(Drop)]
pub(crate) struct Gathered {
    latest: LatestPoints,
    floor: Reach,
}

impl Gathered {
    /// No input yet.
    pub(crate) fn above(reach: &Reach) -> Gathered
        ensures none { IsGathered result.latest result.floor reach.now [] }
    {
        Gathered {
            latest: LatestPoints::above(reach),
            floor: *reach,
        }
    }

    /// Adds an input.
    pub(crate) fn add(&mut self, file: &SyncFile)
        ensures more { (reach : List ℕ) (inputs : List File) →
            IsGathered self.old.latest self.old.floor reach inputs →
            IsGathered self.new.latest self.new.floor reach (inputs ++ file.now ∷ []) }
    {
        let points = file.points.as_slice();
        self.latest.put_all(points);
        self.floor.join_floor(&file.floor);
    }

    /// Draws a file of the points that are above the reach.
    pub(crate) fn draw(&self, draft: &mut Draft, reach: &Reach) -> Result<(), Refusal>
        requires gathered { IsGatheredAbove self.now.latest self.now.floor reach.now }
        ensures file { (inputs : List File) →
            IsGathered self.now.latest self.now.floor reach.now inputs →
            OnOk result ((name : List ℕ) → drafted name draft.new ≡ merged_file name inputs reach.now) }
        ensures rising { OnOk result (HasRisingContexts draft.new.points.items) }
        ensures memory { IfErr result (λ e. e ≡ Memory) }
    {
        self.latest.list(reach, &mut draft.points)?;
        draft.floor.copy_from(&self.floor)
    }
}
