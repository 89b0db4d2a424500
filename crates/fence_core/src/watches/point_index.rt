//! `PointIndex`: a queue of waiting points for each context, so that a rise looks only at what it can reach. There are no
//! more queues than contexts, which `put` keeps. `Watches` puts in one point for each pending watch.
ghost use Rattle.std.specs.Prelude.{◌≡◌, ℕ, ◌<◌, ◌≤◌, ◌+◌, true, false, not, ◌&&◌, ◌||◌, [], length};
ghost use Rattle.std.specs.Prelude.{OnOk, OnErr, IfOk, IfSome, IfNone};
ghost use Rattle.fence_core.specs.declared.watches.point_index.WaitingPoint.{WaitingPoint as Waiting};
ghost use Rattle.fence_core.specs.PointIndex.{waiting, is_same, queue_at, holds, is_due, number_due, AreAbove, NoneDue};
ghost use Rattle.fence_core.specs.Registered.{ArePlaced, AreMoved, NoneFires};
ghost use Rattle.fence_core.specs.Reported.{IsReported, AreGathered, HasGathered, Fires};
ghost use Rattle.point_core.specs.Reach.{value_at, reaching};
ghost use Rattle.point_core.specs.declared.context.TheConstants.{CONTEXTS};

mod firing;
mod point_queue;

use self::firing::report_low;
use self::point_queue::{PointQueue, Standing};
use super::pending::{PendingWatches, find, replace};
use super::registration::Registration;
use crate::fence::{first_above, value_with};
use point_core::{Context, Point, Reach};
use std::alloc::{AllocError, Global};
use std::marker::Model;

/// A point, and the registration of a watch that waits for it.
#[derive(Clone, Copy)]
pub(super) struct WaitingPoint {
    ctx: Context,
    value: u64,
    pub(super) registration: Registration,
}

impl WaitingPoint {
    pub(super) fn of(point: &Point, registration: Registration) -> WaitingPoint
        ensures { result ≡ waiting point.now registration }
    {
        let Point { ctx, value } = *point;
        WaitingPoint {
            ctx,
            value,
            registration,
        }
    }
}

/// The indexed point of each pending watch, in a queue for each context up to the last one that ever had such a point.
#[derive(Drop)]
pub(super) struct PointIndex {
    alloc: Global,
    queues: Vec<PointQueue>,
}

impl Model for PointIndex {
    ghost use Rattle.std.specs.Prelude.{List, ◌≤◌, length};
    ghost use Rattle.point_core.specs.declared.context.TheConstants.{CONTEXTS};
    ghost use Rattle.fence_core.specs.declared.watches.point_index.point_queue.Standing.{Standing};

    ghost Value = { List (List Standing) };

    ghost view = { λ p. p.queues.items };

    ghost invariant = { λ p. length p.queues.items ≤ CONTEXTS };
}

impl PointIndex {
    /// No points. It does not allocate.
    pub(super) fn new(alloc: Global) -> PointIndex
        ensures { result ≡ [] }
    {
        PointIndex {
            alloc,
            queues: Vec::new(alloc),
        }
    }

    /// Whether the point reaches no point of the index.
    pub(super) fn is_above_point(&self, point: &Point) -> bool
        ensures { result ≡ true → NoneDue point.now.ctx point.now.value self.now }
    {
        first_due(self.queues.as_slice(), point.ctx, point.value).is_none()
    }

    /// Puts a point in. If it fails, no point has gone and none has come.
    pub(super) fn put(
        &mut self,
        point: &Point,
        registration: Registration,
    ) -> Result<(), AllocError>
        ensures put { OnOk result ((k : Waiting) →
            holds self.new k ≡ (is_same (waiting point.now registration) k || holds self.old k)) }
        ensures due { (ctx value : ℕ) → is_due ctx value (waiting point.now registration) ≡ false →
            number_due ctx value self.new ≡ number_due ctx value self.old }
        ensures unchanged { OnErr result ((k : Waiting) → holds self.new k ≡ holds self.old k) }
    {
        make_queues(&mut self.queues, self.alloc, point.ctx)?;
        let index = point.ctx.index();
        let watch = Standing {
            value: point.value,
            registration,
        };
        self.queues[index].put(&watch)?;
        Ok(())
    }

    /// Takes a point out.
    pub(super) fn take(&mut self, point: &WaitingPoint)
        ensures taken { (k : Waiting) → holds self.new k ≡ (not (is_same point.now k) && holds self.old k) }
        ensures fewer { (ctx value : ℕ) → is_due ctx value point.now ≡ true → holds self.old point.now ≡ true →
            number_due ctx value self.new < number_due ctx value self.old }
    {
        let index = point.ctx.index();
        if index >= self.queues.len() {
            return;
        }
        let watch = Standing {
            value: point.value,
            registration: point.registration,
        };
        self.queues[index].take(&watch);
    }

    /// Moves each watch that is indexed at or below the reach to a point above it. If it fails, some watches may not have
    /// moved.
    pub(super) fn settle(
        &mut self,
        pending: &mut PendingWatches,
        reach: &Reach,
    ) -> Result<(), AllocError>
        requires placed { ArePlaced pending.old.entries self.old }
        requires none_fires { NoneFires pending.old.entries reach.now }
        ensures moved { AreMoved reach.now pending.old.entries self.old pending.new.entries self.new }
        ensures above { OnOk result (AreAbove self.new reach.now) }
    {
        for index in 0..self.queues.len() {
            self.settle_context(pending, Context::at(index), reach)?;
        }
        Ok(())
    }

    /// `settle` for the watches indexed under one context.
    #[inline(never)]
    pub(super) fn settle_context(
        &mut self,
        pending: &mut PendingWatches,
        ctx: Context,
        reach: &Reach,
    ) -> Result<(), AllocError>
        requires placed { ArePlaced pending.old.entries self.old }
        requires none_fires { NoneFires pending.old.entries reach.now }
        ensures moved { AreMoved reach.now pending.old.entries self.old pending.new.entries self.new }
        ensures none_left { OnOk result (NoneDue ctx (value_at reach.now ctx) self.new) }
    {
        while self.move_first(pending, ctx, reach)? {}
        Ok(())
    }

    /// Moves the first watch of the context if its point is at or below the reach, and reports whether it did.
    fn move_first(
        &mut self,
        pending: &mut PendingWatches,
        ctx: Context,
        reach: &Reach,
    ) -> Result<bool, AllocError>
        requires placed { ArePlaced pending.old.entries self.old }
        requires none_fires { NoneFires pending.old.entries reach.now }
        ensures moved { AreMoved reach.now pending.old.entries self.old pending.new.entries self.new }
        ensures fewer { IfOk result (λ moved. moved ≡ true →
            number_due ctx (value_at reach.now ctx) self.new < number_due ctx (value_at reach.now ctx) self.old) }
        ensures none_left { IfOk result (λ moved. moved ≡ false → NoneDue ctx (value_at reach.now ctx) self.new) }
    {
        let Some(due) = first_due(self.queues.as_slice(), ctx, reach.get(ctx)) else {
            return Ok(false);
        };
        self.move_on(&due, pending, reach)?;
        Ok(true)
    }

    /// Moves the watch that is indexed at `due` to its first point above the reach.
    fn move_on(
        &mut self,
        due: &WaitingPoint,
        pending: &mut PendingWatches,
        reach: &Reach,
    ) -> Result<(), AllocError>
        requires placed { ArePlaced pending.old.entries self.old }
        requires none_fires { NoneFires pending.old.entries reach.now }
        requires there { holds self.old due.now ≡ true }
        requires due { is_due due.now.ctx (value_at reach.now due.now.ctx) due.now ≡ true }
        ensures moved { AreMoved reach.now pending.old.entries self.old pending.new.entries self.new }
        ensures fewer { OnOk result (number_due due.now.ctx (value_at reach.now due.now.ctx) self.new <
            number_due due.now.ctx (value_at reach.now due.now.ctx) self.old) }
    {
        let registration = due.registration;
        let watch = find(pending, &registration).unwrap();
        let next = first_above(watch.fence.members(), reach).unwrap();
        self.put(&next, registration)?;
        self.take(due);
        replace(pending, &WaitingPoint::of(&next, registration));
        Ok(())
    }

    /// Adds each watch that fires at the reach to `fired`: all of its points are signalled there. Registrations rise in
    /// `fired`, since watches fire in the order in which they were registered. If it fails, some may have been added.
    pub(super) fn report_reached(
        &self,
        pending: &PendingWatches,
        reach: &Reach,
        fired: &mut Vec<Registration>,
    ) -> Result<(), AllocError>
        requires none_fired { fired.old.items ≡ [] }
        ensures gathered { AreGathered pending.now.entries reach.now fired.new.items }
        ensures all { OnOk result ((k : Waiting) → is_due k.ctx (value_at reach.now k.ctx) k ≡ true →
            holds self.now k ≡ true → IsReported pending.now.entries reach.now fired.new.items k.registration) }
        ensures some_fires { OnErr result (Fires pending.now.entries reach.now) }
    {
        for index in 0..self.queues.len() {
            let point = reached_point(reach, index);
            self.report_due(pending, &point, reach, fired)?;
        }
        Ok(())
    }

    /// `report_reached` for the watches that are indexed in the point's context, once the point is reached too.
    pub(super) fn report_due(
        &self,
        pending: &PendingWatches,
        point: &Point,
        reach: &Reach,
        fired: &mut Vec<Registration>,
    ) -> Result<(), AllocError>
        requires gathered { AreGathered pending.now.entries (reaching reach.now point.now) fired.old.items }
        ensures added { HasGathered pending.now.entries (reaching reach.now point.now) fired.old.items fired.new.items }
        ensures all { OnOk result ((k : Waiting) →
            is_due point.now.ctx (value_at (reaching reach.now point.now) point.now.ctx) k ≡ true → holds self.now k ≡ true →
            IsReported pending.now.entries (reaching reach.now point.now) fired.new.items k.registration) }
        ensures some_fires { OnErr result (Fires pending.now.entries (reaching reach.now point.now)) }
    {
        let index = point.ctx.index();
        if index >= self.queues.len() {
            return Ok(());
        }
        let value = value_with(reach, point, point.ctx);
        report_low(&self.queues[index], pending, value, point, reach, fired)
    }
}

/// The last point that the reach has reached of the context at that place, counted from 0.
fn reached_point(reach: &Reach, index: usize) -> Point
    requires within { index < CONTEXTS }
    ensures context { result.ctx ≡ index + 1 }
    ensures reached { reaching reach.now result ≡ reach.now }
{
    let ctx = Context::at(index);
    let value = reach.at(index);
    Point { ctx, value }
}

/// Makes a queue for each context up to this one that has none yet. A new queue is empty.
fn make_queues(queues: &mut Vec<PointQueue>, alloc: Global, ctx: Context) -> Result<(), AllocError>
    requires few { length queues.old.items ≤ CONTEXTS }
    ensures few { length queues.new.items ≤ CONTEXTS }
    ensures same { (c : ℕ) → queue_at queues.new.items c ≡ queue_at queues.old.items c }
    ensures enough { OnOk result (ctx ≤ length queues.new.items) }
{
    while queues.len() <= ctx.index() {
        queues.push(PointQueue::new(alloc))?;
    }
    Ok(())
}

/// The first point of the context, if it is at or below the value.
fn first_due(queues: &[PointQueue], ctx: Context, value: u64) -> Option<WaitingPoint>
    ensures some { IfSome result (λ k. (is_due ctx value k ≡ true) × (holds queues.now k ≡ true)) }
    ensures none { IfNone result (NoneDue ctx value queues.now) }
{
    let index = ctx.index();
    if index >= queues.len() {
        return None;
    }
    let Some(first) = queues[index].first() else {
        return None;
    };
    if first.value > value {
        return None;
    }
    Some(WaitingPoint {
        ctx,
        value: first.value,
        registration: first.registration,
    })
}
