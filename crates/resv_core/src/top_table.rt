//! `TopTable`: the fences of a buffer as one table of latest points for each usage. The desk's buffers use it.
ghost use Rattle.std.specs.Prelude.{◌≡◌, ℕ, ◌↔◌, ◌++◌, ◌∷◌, [], List, IfErr, IfNone, IfOk, IfSome, IsTrue, OnErr, OnOk};
ghost use Rattle.point_core.specs.declared.entry.Entry.{Entry};
ghost use Rattle.point_core.specs.Agreement.{AgreesAbove, HasContexts, IsReached, listing};
ghost use Rattle.point_core.specs.Latest.{points_above};
ghost use Rattle.point_core.specs.Usage.{usage_number};
ghost use Rattle.resv_core.specs.Resv.{IsTable, IsTrimmed, empty, entries_as, entry_of, rows_of};
ghost use Rattle.resv_core.specs.Tops.{AreTops};

use crate::kept_tops::is_reached;
use crate::tops::Tops;
use point_core::{LatestPoints, Point, Reach, Refusal, TopRow, Usage};
use std::alloc::Global;
use std::marker::Model;

/// The fences of a buffer, as Linux's `struct dma_resv`: for each context the latest point at each usage or a stronger
/// one, which determines every answer.
///
/// The kernel keeps a list of fences, in which a new one takes the place of an earlier one of its context. Here a new
/// fence raises the points of its usage and of the weaker ones, so nothing is searched, and no call has to make room.
/// As a list it has an entry for each usage whose point is later than the points of the stronger usages.
#[derive(Debug, Drop)]
pub struct TopTable {
    // none before the first fence
    tops: Option<Box<Tops>>,
    alloc: Global,
}

impl Model for TopTable {
    ghost use Rattle.std.specs.Prelude.{option_map, IfSome};
    ghost use Rattle.resv_core.specs.Resv.{Reservation};
    ghost use Rattle.resv_core.specs.TopTable.{AreRising, reservation_of};

    ghost Value = { Reservation };

    ghost view = { λ t. reservation_of (option_map (λ b. b.value) t.tops) };

    ghost invariant = { λ t. IfSome t.tops (λ b. AreRising b.value) };
}

impl TopTable {
    /// No fences. Does not allocate.
    pub fn new(alloc: Global) -> TopTable
        ensures empty { result ≡ empty }
    {
        TopTable { tops: None, alloc }
    }

    /// Adds a fence, as Linux's `dma_resv_add_fence`. There it takes the place of an entry that is signalled, or of its
    /// context; here it raises the points of its context, if it is later.
    ///
    /// Fails only with `Memory`, since the first fence allocates, and leaves the table as it was.
    pub fn put(&mut self, point: Point, usage: Usage) -> Result<(), Refusal>
        ensures table { IsTable self.new }
        ensures agrees { OnOk result ((reach : List ℕ) →
            AgreesAbove reach self.new.entries (self.old.entries ++ entry_of point usage ∷ [])) }
        ensures memory { IfErr result (λ e. e ≡ Refusal.Memory) }
        ensures first { OnErr result (self.old ≡ empty) }
        ensures refused { OnErr result (self.new ≡ self.old) }
    {
        if let Some(tops) = &mut self.tops {
            tops.raise(point, usage);
            return Ok(());
        }
        self.tops = Some(first_of(self.alloc, &[point], usage)?);
        Ok(())
    }

    /// Adds fences of one usage together, as `put` adds one. Without fences nothing changes.
    ///
    /// The kernel adds the fences of an imported sync file one after another.
    pub fn put_all(&mut self, points: &[Point], usage: Usage) -> Result<(), Refusal>
        ensures table { IsTable self.new }
        ensures agrees { OnOk result ((reach : List ℕ) →
            AgreesAbove reach self.new.entries (self.old.entries ++ entries_as usage points.now)) }
        ensures nothing { points.now ≡ [] → self.new ≡ self.old }
        ensures memory { IfErr result (λ e. e ≡ Refusal.Memory) }
        ensures first { OnErr result (self.old ≡ empty) }
        ensures refused { OnErr result (self.new ≡ self.old) }
    {
        if let Some(tops) = &mut self.tops {
            tops.raise_all(points, usage);
            return Ok(());
        }
        if points.is_empty() {
            return Ok(());
        }
        self.tops = Some(first_of(self.alloc, points, usage)?);
        Ok(())
    }

    /// Drops the fences that are signalled. The kernel has no such call: it drops them when it makes a larger table.
    /// Does not allocate.
    pub fn trim(&mut self, reach: &Reach)
        ensures table { IsTable self.new }
        ensures agrees { AgreesAbove reach.now self.old.entries self.new.entries }
        ensures trimmed { IsTrimmed reach.now self.new.entries }
    {
        let Some(tops) = &mut self.tops else {
            return;
        };
        tops.drop_reached(reach);
    }

    /// The pending points at the usage or a stronger one: the latest of each context, by rising context. Linux's
    /// `dma_resv_get_fences` gives each pending fence of these usages.
    pub fn collect(&self, usage: Usage, reach: &Reach) -> Result<Vec<Point>, Refusal>
        ensures points { IfOk result (λ ps. ps.items ≡ listing self.now.entries (usage_number usage) reach.now) }
        ensures memory { IfErr result (λ e. e ≡ Refusal.Memory) }
    {
        match self.latest(usage) {
            Some(latest) => latest.points(self.alloc, reach),
            None => Ok(Vec::new(self.alloc)),
        }
    }

    /// The latest point of each context at the usage or a stronger one; none before the first fence. The points that
    /// are above a reach are the ones that `collect` lists at it. Does not allocate.
    pub fn latest(&self, usage: Usage) -> Option<&LatestPoints>
        ensures none { IfNone result ((reach : List ℕ) → listing self.now.entries (usage_number usage) reach ≡ []) }
        ensures some { IfSome result (λ latest. (reach : List ℕ) →
            points_above latest.now reach ≡ listing self.now.entries (usage_number usage) reach) }
    {
        match &self.tops {
            Some(tops) => Some(tops.at(usage)),
            None => None,
        }
    }

    /// The pending top of each context at each usage: from the strongest usage to the weakest, and by rising context.
    pub fn table(&self, reach: &Reach) -> Result<Vec<TopRow>, Refusal>
        ensures rows { IfOk result (λ rows. rows.items ≡ rows_of self.now.entries reach.now) }
        ensures memory { IfErr result (λ e. e ≡ Refusal.Memory) }
    {
        match &self.tops {
            Some(tops) => tops.rows(self.alloc, reach),
            None => Ok(Vec::new(self.alloc)),
        }
    }

    /// Whether every fence of the usage or a stronger one is signalled, as Linux's `dma_resv_test_signaled`. Does not
    /// allocate.
    pub fn test(&self, usage: Usage, reach: &Reach) -> bool
        ensures reached { IsTrue result ↔ IsReached self.now.entries (usage_number usage) reach.now }
    {
        match &self.tops {
            Some(tops) => is_reached(tops.at(usage), reach),
            None => true,
        }
    }
}

/// The tables at the first fence.
#[inline(never)]
fn first_of(alloc: Global, points: &[Point], usage: Usage) -> Result<Box<Tops>, Refusal>
    ensures tops { IfOk result (λ tops. AreTops tops.value [] (entries_as usage points.now)) }
    ensures contexts { HasContexts (entries_as usage points.now) }
    ensures memory { IfErr result (λ e. e ≡ Refusal.Memory) }
{
    let mut first = Tops::above(&Reach::zero());
    first.raise_all(points, usage);
    match Box::new(alloc, first) {
        Ok(tops) => Ok(tops),
        Err(_) => Err(Refusal::Memory),
    }
}
