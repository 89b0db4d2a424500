//! The tables of a buffer that has had a fence: points are put into them, and points that are reached are dropped.
//! `TopTable` owns them.
ghost use Rattle.std.specs.Prelude.{◌≡◌, ℕ, ◌≤◌, ◌↔◌, ◌++◌, ◌∷◌, [], IsTrue, List, MatchOption, replicate};
ghost use Rattle.point_core.specs.declared.context.TheConstants.{CONTEXTS};
ghost use Rattle.point_core.specs.declared.entry.Entry.{Entry};
ghost use Rattle.point_core.specs.Agreement.{HasContexts};
ghost use Rattle.point_core.specs.Latest.{IsLatest};
ghost use Rattle.point_core.specs.Reach.{value_at, IsAtLeast};
ghost use Rattle.point_core.specs.Usage.{usage_number};
ghost use Rattle.resv_core.specs.Resv.{entries_as, entry_of};
ghost use Rattle.resv_core.specs.TopTable.{AreDropped, AreNotLater, HasDropped, IsFirstLater};
ghost use Rattle.resv_core.specs.Tops.{AreTops};

use crate::tops::Tops;
use point_core::{CONTEXTS, Context, Entry, LatestPoints, Point, Reach, Usage};

impl Tops {
    /// The table of a usage.
    pub(crate) fn at(&self, usage: Usage) -> &LatestPoints
        ensures latest { (reach : List ℕ) (es : List Entry) →
            AreTops self.now reach es → IsLatest result.now reach es (usage_number usage) }
    {
        // No `match`, which would become a jump table.
        let number = usage.number();
        let strong = if number == Usage::Kernel.number() {
            &self.kernel
        } else {
            &self.write
        };
        let weak = if number == Usage::Read.number() {
            &self.read
        } else {
            &self.bookkeep
        };
        if number < Usage::Read.number() {
            strong
        } else {
            weak
        }
    }

    /// Puts points of one usage, as `put` does.
    pub(crate) fn raise_all(&mut self, points: &[Point], usage: Usage)
        ensures tops { (reach : List ℕ) (es : List Entry) →
            AreTops self.old reach es → AreTops self.new reach (es ++ entries_as usage points.now) }
        ensures contexts { HasContexts (entries_as usage points.now) }
        ensures nothing { points.now ≡ [] → self.new ≡ self.old }
    {
        let mut rest = points;
        while let Some((point, others)) = first_later(self.at(usage), rest) {
            self.raise_later(point, usage);
            rest = others;
        }
    }

    /// Puts a point, as `put` does. Most points are no later than the usage's table has, and then no weaker usage is
    /// looked at.
    pub(crate) fn raise(&mut self, point: Point, usage: Usage)
        ensures tops { (reach : List ℕ) (es : List Entry) →
            AreTops self.old reach es → AreTops self.new reach (es ++ entry_of point usage ∷ []) }
        ensures context { HasContexts (entry_of point usage ∷ []) }
    {
        if self.at(usage).get(point.ctx) < point.value {
            self.raise_later(point, usage);
        }
    }

    #[inline(never)]
    fn raise_later(&mut self, point: Point, usage: Usage)
        ensures tops { (reach : List ℕ) (es : List Entry) →
            AreTops self.old reach es → AreTops self.new reach (es ++ entry_of point usage ∷ []) }
        ensures context { HasContexts (entry_of point usage ∷ []) }
    {
        self.put(&Entry { point, usage });
    }

    /// Drops the points that the reach has.
    pub(crate) fn drop_reached(&mut self, reach: &Reach)
        ensures dropped { AreDropped reach.now self.old self.new }
    {
        let none = Reach::zero();
        drop_reached(&mut self.kernel, reach, &none);
        drop_reached(&mut self.write, reach, &none);
        drop_reached(&mut self.read, reach, &none);
        drop_reached(&mut self.bookkeep, reach, &none);
    }
}

/// The first of the points that is later than in the table, and the rest.
fn first_later<'a>(latest: &LatestPoints, points: &'a [Point]) -> Option<(Point, &'a [Point])>
    ensures first { MatchOption result
        (AreNotLater latest.now points.now)
        (λ (point, others). IsFirstLater latest.now points.now point others.now) }
{
    for index in 0..points.len() {
        let point = points[index];
        if latest.get(point.ctx) < point.value {
            return Some((point, &points[index + 1..]));
        }
    }
    None
}

/// Whether the reach has every point of the table.
pub(crate) fn is_reached(latest: &LatestPoints, reach: &Reach) -> bool
    ensures { IsTrue result ↔ ((ctx : ℕ) → 1 ≤ ctx → ctx ≤ CONTEXTS →
        value_at latest.now ctx ≤ value_at reach.now ctx) }
{
    for index in 0..latest.used() {
        let ctx = Context::at(index);
        if latest.get(ctx) > reach.get(ctx) {
            return false;
        }
    }
    true
}

/// Restarts the table with only the points that are above the reach.
fn drop_reached(latest: &mut LatestPoints, reach: &Reach, none: &Reach)
    requires none { none.now ≡ replicate CONTEXTS 0 }
    ensures dropped { HasDropped reach.now latest.old latest.new }
{
    let before = *latest;
    latest.restart(none);
    for index in 0..before.used() {
        let ctx = Context::at(index);
        let value = before.get(ctx);
        if value > reach.get(ctx) {
            latest.put(Point { ctx, value });
        }
    }
}
