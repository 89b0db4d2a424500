//! `Watches`: callbacks that fire once their fence is signalled, as Linux's `dma_fence_add_callback`. The desk keeps
//! one registry and calls `watch`, `remove` and, before each rise, `after_inc`.
//!
//! The registry stores each pending watch once by cookie, with one of its points, and that point in `index` once by
//! context. While `is_settled`, every point of the index is above the kept reach.
ghost use Rattle.std.specs.Prelude.{◌≡◌, ◌↔◌, ◌≤◌, [], Ok, Err, None, IfOk, IfErr, OnOk, OnErr, IsOk, MatchOption, IsTrue, false, replicate};
ghost use Rattle.point_core.specs.declared.context.TheConstants.{CONTEXTS};
ghost use Rattle.std.specs.List.{list_any};
ghost use Rattle.std.specs.Map.{values_of};
ghost use Rattle.point_core.specs.declared.refusal.Refusal.TheVariants.{Memory};
ghost use Rattle.point_core.specs.Agreement.{HasRisingContexts};
ghost use Rattle.point_core.specs.Reach.{IsAtLeast, reaching};
ghost use Rattle.point_core.specs.Refusal.{IsRefusedFor};
ghost use Rattle.fence_core.specs.Fence.{members_of};
ghost use Rattle.fence_core.specs.PointIndex.{IsOneAbove};
ghost use Rattle.fence_core.specs.Reported.{with_cookies};
ghost use Rattle.fence_core.specs.Watch.{registry_of, ArePending};
ghost use Rattle.fence_core.specs.Watches.{no_watches, has_watch, cause_to_refuse, cause_to_refuse_watch, with_watch, without_watch, without_watches, fires, fired_by, after_rise_to};

mod pending;
mod point_index;
mod registration;

use self::pending::{PendingWatch, PendingWatches};
use self::point_index::{PointIndex, WaitingPoint};
use self::registration::Registration;
use crate::fence::{Fence, first_above};
use point_core::{LimitKind, Point, Reach, Refusal};
use std::alloc::{AllocError, Global};
use std::collections::HashMap;
use std::marker::Model;

/// How many watches can be pending at a time.
pub const WATCHES: usize = 4096;

const _: () = prove!(WATCHES == 4096);

/// How many watches can ever be registered.
pub const WATCHES_EVER: u64 = u64::MAX;

const _: () = prove!(WATCHES_EVER == 18_446_744_073_709_551_615);

/// Callbacks on fences, by registration. Each fires once, at the first rise after which all of its points are
/// signalled.
#[derive(Drop)]
pub struct Watches {
    alloc: Global,
    pending: PendingWatches,
    index: PointIndex,
    made: u64,
    reach: Reach,
    // The registrations that a rise fires, while it looks for them. The list is kept, so that its memory is used again.
    fired: Vec<Registration>,
    // Whether each point of the index is known to be above the reach.
    is_settled: bool,
}

impl Model for Watches {
    ghost use Rattle.fence_core.specs.Watch.{Registry, registry_of};
    ghost use Rattle.fence_core.specs.Pending.{watches_of};
    ghost use Rattle.fence_core.specs.Registered.{AreRegistered, IsIndexed, IsSettled};

    ghost Value = { Registry };

    ghost view = { λ ws. registry_of (watches_of ws.pending.entries) ws.made ws.reach };

    ghost invariant = { λ ws. AreRegistered ws.pending.entries ws.made ×
        IsIndexed ws.pending.entries ws.index ×
        IsSettled ws.is_settled ws.index ws.reach };
}

impl Watches {
    /// No watches. It does not allocate, so it is never refused.
    pub fn new(alloc: Global) -> Result<Watches, Refusal>
        ensures { result ≡ Ok no_watches }
    {
        Ok(Watches {
            alloc,
            pending: HashMap::new(alloc),
            index: PointIndex::new(alloc),
            made: 0,
            reach: Reach::zero(),
            fired: Vec::new(alloc),
            is_settled: true,
        })
    }

    /// Registers a callback on a fence, as Linux's `dma_fence_add_callback` does.
    ///
    /// Fails as `free` does, then with `Signalled` if the fence is signalled at this reach, then with `Memory`;
    /// nothing has changed then. The reach must be at least the last one that was handed in by a call that was not
    /// refused.
    pub fn add(&mut self, cookie: u64, fence: &Fence, reach: &Reach) -> Result<(), Refusal>
        requires rises { IsAtLeast reach.now self.old.reach }
        ensures refused { IsRefusedFor (cause_to_refuse_watch self.old cookie (members_of fence.now) reach.now) result }
        ensures last { OnOk result (self.new ≡ with_watch self.old cookie (members_of fence.now) reach.now) }
        ensures unchanged { OnErr result (self.new ≡ self.old) }
    {
        self.register(cookie, fence.members(), reach)
    }

    /// Registers a callback on the fence of these points, which rise by context. They are copied once, after every cause of
    /// refusal but `Memory` is excluded.
    ///
    /// Fails as `add` does, and then leaves all as it was.
    pub fn register(&mut self, cookie: u64, points: &[Point], reach: &Reach) -> Result<(), Refusal>
        requires rising { HasRisingContexts points.now }
        requires rises { IsAtLeast reach.now self.old.reach }
        ensures refused { IsRefusedFor (cause_to_refuse_watch self.old cookie points.now reach.now) result }
        ensures last { OnOk result (self.new ≡ with_watch self.old cookie points.now reach.now) }
        ensures unchanged { OnErr result (self.new ≡ self.old) }
    {
        self.free(cookie)?;
        let Some(first) = first_above(points, reach) else {
            return Err(Refusal::Signalled);
        };
        self.enter(cookie, points, &first)?;
        self.is_settled = follow(&mut self.reach, self.is_settled, reach);
        Ok(())
    }

    /// As `register`, at the last reach that was handed in.
    pub fn watch(&mut self, cookie: u64, points: &[Point]) -> Result<(), Refusal>
        requires rising { HasRisingContexts points.now }
        ensures refused { IsRefusedFor (cause_to_refuse_watch self.old cookie points.now self.old.reach) result }
        ensures last { OnOk result (self.new ≡ with_watch self.old cookie points.now self.old.reach) }
        ensures unchanged { OnErr result (self.new ≡ self.old) }
    {
        self.free(cookie)?;
        let Some(first) = first_above(points, &self.reach) else {
            return Err(Refusal::Signalled);
        };
        self.enter(cookie, points, &first)?;
        Ok(())
    }

    /// Puts in a watch of a free cookie, which is indexed at the first of its points above the kept reach.
    ///
    /// Fails only with `Memory`, and then leaves all as it was.
    fn enter(&mut self, cookie: u64, points: &[Point], first: &Point) -> Result<(), Refusal>
        requires free { cause_to_refuse self.old cookie ≡ None }
        requires rising { HasRisingContexts points.now }
        requires above { IsOneAbove self.old.reach points.now first.now }
        ensures last { OnOk result (self.new ≡ with_watch self.old cookie points.now self.old.reach) }
        ensures memory { IfErr result (λ e. e ≡ Memory) }
        ensures unchanged { OnErr result (self.new ≡ self.old) }
    {
        let fence = Fence::of(self.alloc, points)?;
        let registration = Registration::of(self.made, cookie);
        self.index.put(first, registration)?;
        let place = WaitingPoint::of(first, registration);
        let watch = PendingWatch { place, fence };
        let Ok(_new) = self.pending.insert(cookie, watch) else {
            self.index.take(&place);
            return Err(Refusal::Memory);
        };
        self.made += 1;
        Ok(())
    }

    /// Whether a watch of that cookie may be registered: `Exists` if one is pending, `Limit` if `WATCHES` are
    /// pending or `WATCHES_EVER` were registered.
    ///
    /// Does not allocate.
    pub fn free(&self, cookie: u64) -> Result<(), Refusal>
        ensures { MatchOption (cause_to_refuse self.now cookie) (IsOk result) (λ cause. result ≡ Err cause) }
    {
        if self.pending.contains_key(&cookie) {
            return Err(Refusal::Exists);
        }
        if self.pending.len() >= WATCHES || self.made == WATCHES_EVER {
            return Err(Refusal::Limit(LimitKind::Watches));
        }
        Ok(())
    }

    /// Removes the watch of that cookie, and reports whether there was one, as Linux's `dma_fence_remove_callback`
    /// does. The others keep their order.
    pub fn remove(&mut self, cookie: u64) -> bool
        ensures found { result ≡ has_watch self.old cookie }
        ensures without { self.new ≡ without_watch self.old cookie }
    {
        let Some(watch) = self.pending.remove(&cookie) else {
            return false;
        };
        self.index.take(&watch.place);
        true
    }

    /// Takes out the watches all of whose points are signalled at this reach, and returns their cookies in order of
    /// registration. It is for any rise; a desk raises one context at a time, by `after_inc`. Users of the library call it.
    ///
    /// Fails only with `Memory`, and only when a watch fires; then none has fired, and nothing has changed. The
    /// reach must be at least the last one that was handed in by a call that was not refused.
    pub fn after_rise(&mut self, reach: &Reach) -> Result<Vec<u64>, Refusal>
        requires rises { IsAtLeast reach.now self.old.reach }
        ensures fired { IfOk result (λ cookies. cookies.items ≡ fired_by self.old reach.now) }
        ensures left { OnOk result (self.new ≡ after_rise_to self.old reach.now) }
        ensures memory { IfErr result (λ e. e ≡ Memory) }
        ensures none_fires { fired_by self.old reach.now ≡ [] → IsOk result }
        ensures unchanged { OnErr result (self.new ≡ self.old) }
        ensures pending { ArePending self.old.pending }
    {
        let cookies = self.fired(reach)?;
        self.remove_all(cookies.as_slice());
        self.rise_to(reach);
        Ok(cookies)
    }

    /// As `after_rise`, to the last reach that was handed in, with the point reached too. If no watch of its context is
    /// indexed at or below the point, it looks at nothing else.
    ///
    /// Fails only with `Memory`, and only when a watch fires; then none has fired, and nothing has changed.
    #[inline(always)]
    pub fn after_inc(&mut self, point: Point) -> Result<Vec<u64>, Refusal>
        ensures fired { IfOk result (λ cookies. cookies.items ≡ fired_by self.old (reaching self.old.reach point)) }
        ensures left { OnOk result (self.new ≡ after_rise_to self.old (reaching self.old.reach point)) }
        ensures memory { IfErr result (λ e. e ≡ Memory) }
        ensures none_fires { fired_by self.old (reaching self.old.reach point) ≡ [] → IsOk result }
        ensures unchanged { OnErr result (self.new ≡ self.old) }
        ensures pending { ArePending self.old.pending }
    {
        if self.is_settled && self.index.is_above_point(&point) {
            self.reach.raise_to(point);
            return Ok(Vec::new(self.alloc));
        }
        self.after_rise_of(&point)
    }

    /// Slow path of `after_inc`: a watch may be indexed at or below the point.
    #[inline(never)]
    fn after_rise_of(&mut self, point: &Point) -> Result<Vec<u64>, Refusal>
        ensures fired { IfOk result (λ cookies. cookies.items ≡ fired_by self.old (reaching self.old.reach point.now)) }
        ensures left { OnOk result (self.new ≡ after_rise_to self.old (reaching self.old.reach point.now)) }
        ensures memory { IfErr result (λ e. e ≡ Memory) }
        ensures none_fires { fired_by self.old (reaching self.old.reach point.now) ≡ [] → IsOk result }
        ensures unchanged { OnErr result (self.new ≡ self.old) }
        ensures pending { ArePending self.old.pending }
    {
        let cookies = self.fired_by_point(point)?;
        self.remove_all(cookies.as_slice());
        self.rise_in_one_context(point);
        Ok(cookies)
    }

    /// The cookies of the watches all of whose points are signalled at this reach, by registration.
    fn fired(&mut self, reach: &Reach) -> Result<Vec<u64>, AllocError>
        ensures fired { IfOk result (λ cookies. cookies.items ≡ fired_by self.old reach.now) }
        ensures none_fires { fired_by self.old reach.now ≡ [] → IsOk result }
        ensures same { self.new ≡ self.old }
        ensures pending { ArePending self.old.pending }
    {
        self.fired.clear();
        self.index
            .report_reached(&self.pending, reach, &mut self.fired)?;
        listed(self.alloc, self.fired.as_slice())
    }

    /// The cookies that fire once `point` is reached as well.
    fn fired_by_point(&mut self, point: &Point) -> Result<Vec<u64>, AllocError>
        ensures fired { IfOk result (λ cookies. cookies.items ≡ fired_by self.old (reaching self.old.reach point.now)) }
        ensures none_fires { fired_by self.old (reaching self.old.reach point.now) ≡ [] → IsOk result }
        ensures same { self.new ≡ self.old }
        ensures pending { ArePending self.old.pending }
    {
        // For the proof: what a context keeps.
        prove!(point.ctx.number() >= 1);
        if !self.is_settled {
            return self.fired_anywhere(point);
        }
        self.fired.clear();
        self.index
            .report_due(&self.pending, point, &self.reach, &mut self.fired)?;
        listed(self.alloc, self.fired.as_slice())
    }

    /// Slow path of `fired_by_point`: a watch may fire that is indexed elsewhere. It works on a copy of the reach.
    #[inline(never)]
    fn fired_anywhere(&mut self, point: &Point) -> Result<Vec<u64>, AllocError>
        ensures fired { IfOk result (λ cookies. cookies.items ≡ fired_by self.old (reaching self.old.reach point.now)) }
        ensures none_fires { fired_by self.old (reaching self.old.reach point.now) ≡ [] → IsOk result }
        ensures same { self.new ≡ self.old }
        ensures pending { ArePending self.old.pending }
    {
        let Point { ctx, value } = *point;
        let mut reach = self.reach;
        reach.raise_to(Point { ctx, value });
        self.fired(&reach)
    }

    /// Takes out the watches of these cookies.
    fn remove_all(&mut self, cookies: &[u64])
        ensures { self.new ≡ without_watches self.old cookies.now }
    {
        for cookie in cookies {
            self.remove(*cookie);
        }
    }

    /// Keeps the reach, at which no watch fires, and moves each watch that is indexed at or below it to a point above.
    fn rise_to(&mut self, reach: &Reach)
        requires rises { IsAtLeast reach.now self.old.reach }
        requires none_fires { list_any (fires reach.now) self.old.pending ≡ false }
        ensures { self.new ≡ registry_of self.old.pending self.old.made reach.now }
    {
        let settled = self.index.settle(&mut self.pending, reach);
        self.is_settled = settled.is_ok();
        self.reach.copy_from(reach);
    }

    /// As `rise_to`, to the kept reach with the point reached too. It looks at the point's context only.
    fn rise_in_one_context(&mut self, point: &Point)
        requires none_fires { list_any (fires (reaching self.old.reach point.now)) self.old.pending ≡ false }
        ensures { self.new ≡ registry_of self.old.pending self.old.made (reaching self.old.reach point.now) }
    {
        let Point { ctx, value } = *point;
        self.reach.raise_to(Point { ctx, value });
        if !self.is_settled {
            let settled = self.index.settle(&mut self.pending, &self.reach);
            self.is_settled = settled.is_ok();
            return;
        }
        let settled = self
            .index
            .settle_context(&mut self.pending, ctx, &self.reach);
        self.is_settled = settled.is_ok();
    }
}

/// Raises the kept reach to the other. Reports whether what was known to be above the kept reach is above the other too.
fn follow(kept: &mut Reach, is_settled: bool, reach: &Reach) -> bool
    requires rises { IsAtLeast reach.now kept.old }
    ensures values { kept.new ≡ reach.now }
    ensures settled { IsTrue result ↔ (IsTrue is_settled × IsAtLeast kept.old reach.now) }
{
    // For the proof: both have a value for each context.
    prove!(kept.at(0) <= u64::MAX);
    prove!(reach.at(0) <= u64::MAX);
    if kept.at_least(reach) {
        return is_settled;
    }
    kept.copy_from(reach);
    false
}

/// The cookies of the registrations.
fn listed(alloc: Global, fired: &[Registration]) -> Result<Vec<u64>, AllocError>
    ensures listed { IfOk result (λ cookies. cookies.items ≡ values_of (with_cookies fired.now)) }
    ensures none { values_of (with_cookies fired.now) ≡ [] → IsOk result }
{
    let mut cookies = Vec::new(alloc);
    for registration in fired {
        cookies.push(registration.cookie())?;
    }
    Ok(cookies)
}
