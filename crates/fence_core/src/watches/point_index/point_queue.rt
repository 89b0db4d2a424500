//! `PointQueue`: the waiting points of one context, by value and then by registration. `PointIndex` has a queue for each
//! context, and only it changes one.
ghost use Rattle.std.specs.Prelude.{◌≡◌, ◌<◌, ◌≤◌, true, false, not, ◌&&◌, ◌||◌, ℕ, []};
ghost use Rattle.std.specs.Prelude.{OnOk, OnErr, IfSome, IfNone};
ghost use Rattle.fence_core.specs.declared.watches.point_index.point_queue.Standing.{Standing as Stands};
ghost use Rattle.fence_core.specs.PointIndex.{is_alike, has, is_low, number};

use crate::watches::registration::Registration;
use std::alloc::{AllocError, Global};
use std::collections::BTreeSet;
use std::marker::Model;

/// A waiting point of the queue's context: its value, and the registration of the watch that is indexed there.
#[derive(Clone, Copy, PartialEq, Eq, PartialOrd, Ord)]
pub(super) struct Standing {
    pub(super) value: u64,
    pub(super) registration: Registration,
}

/// The watches that are indexed in one context, by value, and by registration at one value.
#[derive(Drop)]
pub(super) struct PointQueue {
    watches: BTreeSet<Standing>,
}

impl Model for PointQueue {
    ghost use Rattle.std.specs.Prelude.{List};
    ghost use Rattle.fence_core.specs.declared.watches.point_index.point_queue.Standing.{Standing};

    ghost Value = { List Standing };

    ghost view = { λ q. q.watches.keys };
}

impl PointQueue {
    /// No watches. It does not allocate.
    pub(super) fn new(alloc: Global) -> PointQueue
        ensures { result ≡ [] }
    {
        PointQueue {
            watches: BTreeSet::new(alloc),
        }
    }

    /// Puts a watch in. If it fails, it leaves all as it was.
    pub(super) fn put(&mut self, watch: &Standing) -> Result<(), AllocError>
        ensures put { OnOk result ((s : Stands) → has self.new s ≡ (is_alike watch.now s || has self.old s)) }
        ensures low { OnOk result ((value : ℕ) → is_low value watch.now ≡ false →
            number (is_low value) self.new ≡ number (is_low value) self.old) }
        ensures unchanged { OnErr result (self.new ≡ self.old) }
    {
        let Ok(_added) = self.watches.insert(*watch) else {
            return Err(AllocError);
        };
        Ok(())
    }

    /// Takes a watch out.
    pub(super) fn take(&mut self, watch: &Standing)
        ensures taken { (s : Stands) → has self.new s ≡ (not (is_alike watch.now s) && has self.old s) }
        ensures fewer { (value : ℕ) → is_low value watch.now ≡ true → has self.old watch.now ≡ true →
            number (is_low value) self.new < number (is_low value) self.old }
    {
        self.watches.remove(watch);
    }

    /// The first of them, which has the lowest value.
    pub(super) fn first(&self) -> Option<Standing>
        ensures some { IfSome result (λ first. has self.now first ≡ true) }
        ensures least { IfSome result (λ first. (s : Stands) → has self.now s ≡ true → first.value ≤ s.value) }
        ensures none { IfNone result ((s : Stands) → has self.now s ≡ false) }
    {
        match self.watches.iter().next() {
            Some(first) => Some(*first),
            None => None,
        }
    }

    /// The watches, in that order.
    pub(super) fn watches(&self) -> &BTreeSet<Standing>
        ensures keys { result.now.keys ≡ self.now }
    {
        &self.watches
    }
}
