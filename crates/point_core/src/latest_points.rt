//! `LatestPoints`: the latest point of each context. Exports and merges collect points in one, and list those above a
//! reach.
ghost use Rattle.std.specs.Prelude.{◌≡◌, ℕ, ◌+◌, ◌<◌, ◌≤◌, List, [], ◌∷◌, ◌++◌, length, max, take, IfOk, IfErr, OnOk};
ghost use Rattle.point_core.specs.declared.context.TheConstants.{CONTEXTS};
ghost use Rattle.point_core.specs.declared.entry.Entry.{Entry};
ghost use Rattle.point_core.specs.Agreement.{as_entries, HasContexts};
ghost use Rattle.point_core.specs.Latest.{IsLatest, points_above};
ghost use Rattle.point_core.specs.Reach.{value_at, with_value};
ghost use Rattle.point_core.specs.Usage.{usage_number};
ghost use Rattle.point_core.specs.Used.{used_of};

use crate::context::Context;
use crate::context_values::ContextValues;
use crate::entry::Point;
use crate::reach::Reach;
use crate::refusal::Refusal;
use std::alloc::Global;
use std::marker::Model;

/// For each context, the latest of the points that were put and of the value of a reach. It is no reach itself: a point
/// may be put before it is reached.
#[derive(Clone, Copy, Debug)]
pub struct LatestPoints {
    values: ContextValues,
}

impl Model for LatestPoints {
    ghost use Rattle.std.specs.Prelude.{◌≡◌, List, ℕ, length};
    ghost use Rattle.point_core.specs.declared.context.TheConstants.{CONTEXTS};

    ghost Value = { List ℕ };

    ghost view = { λ l. l.values };

    ghost invariant = { λ l. length l.values ≡ CONTEXTS };

    ghost inverse = { λ values. record { values = values } };
}

impl LatestPoints {
    /// A table without points, at the values of the reach.
    pub fn above(reach: &Reach) -> LatestPoints
        ensures value { result ≡ reach.now }
        ensures empty { (usage : ℕ) → IsLatest result reach.now [] usage }
    {
        LatestPoints {
            values: *reach.values(),
        }
    }

    /// Clears the table to the values of the reach, as `above` makes one.
    pub fn restart(&mut self, reach: &Reach)
        ensures value { self.new ≡ reach.now }
        ensures empty { (usage : ℕ) → IsLatest self.new reach.now [] usage }
    {
        self.values.copy_from(reach.values().in_use());
    }

    /// The latest point of a context.
    pub fn get(&self, ctx: Context) -> u64
        ensures value { result ≡ value_at self.now ctx }
        ensures context { (1 ≤ ctx) × (ctx ≤ CONTEXTS) }
    {
        self.values.get(ctx.index())
    }

    /// The number of contexts up to the last that has a point or a value.
    pub fn used(&self) -> usize
        ensures last { result ≡ used_of self.now }
        ensures within { result ≤ CONTEXTS }
        ensures past { (ctx : ℕ) → result < ctx → value_at self.now ctx ≡ 0 }
    {
        self.values.used()
    }

    /// Puts one point.
    pub fn put(&mut self, point: Point)
        ensures value { self.new ≡ with_value self.old point.ctx (max (value_at self.old point.ctx) point.value) }
        ensures context { (1 ≤ point.ctx) × (point.ctx ≤ CONTEXTS) }

        // The entry has the usage or a stronger one: the table has it too.
        ensures latest { (reach : List ℕ) (es : List Entry) (e : Entry) (usage : ℕ) →
            e.point ≡ point → usage_number e.usage ≤ usage →
            IsLatest self.old reach es usage → IsLatest self.new reach (es ++ e ∷ []) usage }
    {
        self.values.raise(point.ctx.index(), point.value);
    }

    /// Puts each of the points.
    pub fn put_all(&mut self, points: &[Point])
        ensures latest { (reach : List ℕ) (es : List Entry) →
            IsLatest self.old reach es 0 → IsLatest self.new reach (es ++ as_entries points.now) 0 }
        ensures contexts { HasContexts (as_entries points.now) }
    {
        for point in points {
            self.put(*point);
        }
    }

    /// The latest points that are above the reach, by rising context, in memory for exactly these.
    pub fn points(&self, alloc: Global, reach: &Reach) -> Result<Vec<Point>, Refusal>
        ensures points { IfOk result (λ ps. ps.items ≡ points_above self.now reach.now) }
        ensures memory { IfErr result (λ e. e ≡ Refusal.Memory) }
    {
        let mut points = Vec::with_capacity(alloc, self.number_above(reach))?;
        self.list(reach, &mut points)?;
        Ok(points)
    }

    /// Like `points`, but reuses the list `points`; allocates only to grow it.
    pub fn list(&self, reach: &Reach, points: &mut Vec<Point>) -> Result<(), Refusal>
        ensures points { OnOk result (points.new.items ≡ points_above self.now reach.now) }
        ensures memory { IfErr result (λ e. e ≡ Refusal.Memory) }
    {
        points.clear();
        for index in 0..self.used() {
            let ctx = Context::at(index);
            let value = self.get(ctx);
            if value > reach.get(ctx) {
                points
                    .push(Point { ctx, value })
                    .map_err(|_| Refusal::Memory)?;
            }
        }
        Ok(())
    }

    /// The number of contexts whose latest point is above the reach.
    fn number_above(&self, reach: &Reach) -> usize
        ensures { result ≡ length (points_above self.now reach.now) }
    {
        let mut number = 0;
        for index in 0..self.used() {
            let ctx = Context::at(index);
            if self.get(ctx) > reach.get(ctx) {
                number += 1;
            }
        }
        number
    }
}
