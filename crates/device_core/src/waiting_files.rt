//! `WaitingFiles`: the ordered index of the pending points of all files. It has a file at a point exactly if a fence of
//! the file is pending there.
ghost use Rattle.std.specs.Prelude.{◌≡◌, ◌≤◌, None, ◌+◌, ◌-◌, ◌^◌, length, not, ◌&&◌, ◌||◌, [], ◌∷◌, true, false, OnOk, OnErr, IfErr, IfSome, IfNone};
ghost use Rattle.device_core.specs.declared.waiting_files.Waiter.{Waiter as Key};
ghost use Rattle.device_core.specs.declared.errno.Errno.TheVariants.{NoMemory};
ghost use Rattle.device_core.specs.theorem.State.{AreInOrder, is_same, holds, is_due_at, waits_of};
ghost use Rattle.device_core.specs.theorem.Fences.{waiter};

use crate::errno::Errno;
use crate::fence::Fence;
use std::alloc::Global;
use std::collections::BTreeSet;
use std::marker::Model;

/// A file, and a point for which it waits.
#[derive(Clone, Copy, PartialEq, Eq, PartialOrd, Ord)]
pub(crate) struct Waiter {
    pub(crate) timeline: u64,
    pub(crate) value: u64,
    pub(crate) file: u64,
}

impl Waiter {
    /// A file, at the point of one of its fences.
    fn of(file: u64, fence: &Fence) -> Waiter
        ensures { result ≡ waiter file fence.now }
    {
        Waiter {
            timeline: fence.timeline,
            value: fence.value,
            file,
        }
    }

    /// The greatest entry of a timeline at that value.
    pub(crate) fn last(timeline: u64, value: u64) -> Waiter
        ensures { result ≡ record { timeline = timeline; value = value; file = 2 ^ 64 - 1 } }
    {
        Waiter {
            timeline,
            value,
            file: u64::MAX,
        }
    }

    /// The least entry of a timeline.
    pub(crate) fn first(timeline: u64) -> Waiter
        ensures { result ≡ record { timeline = timeline; value = 0; file = 0 } }
    {
        Waiter {
            timeline,
            value: 0,
            file: 0,
        }
    }

    /// Itself, if it is of that timeline, at or below the value.
    fn if_due(&self, timeline: u64, value: u64) -> Option<Waiter>
        ensures due { IfSome result (λ k. (k ≡ self.now) × (is_due_at timeline value self.now ≡ true)) }
        ensures past { IfNone result (is_due_at timeline value self.now ≡ false) }
    {
        if self.timeline != timeline || self.value > value {
            return None;
        }
        Some(*self)
    }
}

/// The pending points of all files, by timeline and value.
#[derive(Drop)]
pub(crate) struct WaitingFiles {
    points: BTreeSet<Waiter>,
}

impl Model for WaitingFiles {
    ghost use Rattle.std.specs.Prelude.{List};
    ghost use Rattle.device_core.specs.declared.waiting_files.Waiter.{Waiter};

    ghost Value = { List Waiter };

    ghost view = { λ w. w.points.keys };
}

impl WaitingFiles {
    /// No points. Does not allocate.
    pub(crate) fn new(alloc: Global) -> WaitingFiles
        ensures { result ≡ [] }
    {
        WaitingFiles {
            points: BTreeSet::new(alloc),
        }
    }

    /// The number of points.
    pub(crate) fn len(&self) -> usize
        ensures len { result ≡ length self.now }
    {
        self.points.len()
    }

    /// The points, by timeline and value.
    pub(crate) fn points(&self) -> &BTreeSet<Waiter>
        ensures keys { result.now.keys ≡ self.now }
    {
        &self.points
    }

    /// Enters one point.
    ///
    /// Fails only with `NoMemory`, and then leaves everything as it was.
    pub(crate) fn put(&mut self, waiter: Waiter) -> Result<(), Errno>
        ensures put { OnOk result ((k : Key) → holds self.new k ≡ (is_same waiter k || holds self.old k)) }
        ensures ordered { AreInOrder self.new }
        ensures memory { IfErr result (λ e. e ≡ NoMemory) }
        ensures unchanged { OnErr result (self.new ≡ self.old) }
    {
        let Ok(_added) = self.points.insert(waiter) else {
            return Err(Errno::NoMemory);
        };
        Ok(())
    }

    /// Enters a file at each of its pending fences.
    ///
    /// Fails only with `NoMemory`, and then leaves everything as it was.
    pub(crate) fn put_all(&mut self, file: u64, fences: &[Fence]) -> Result<(), Errno>
        requires new { (k : Key) → k.file ≡ file → holds self.old k ≡ false }
        requires ordered { AreInOrder self.old }
        ensures put { OnOk result ((k : Key) → holds self.new k ≡ (waits_of file fences.now k || holds self.old k)) }
        ensures ordered { AreInOrder self.new }
        ensures memory { IfErr result (λ e. e ≡ NoMemory) }
        ensures unchanged { OnErr result (self.new ≡ self.old) }
    {
        for fence in fences {
            let Ok(_done) = self.put_pending(file, fence) else {
                self.take_all(file, fences);
                return Err(Errno::NoMemory);
            };
        }
        Ok(())
    }

    // Fails only with `NoMemory`, and then leaves everything as it was.
    fn put_pending(&mut self, file: u64, fence: &Fence) -> Result<(), Errno>
        requires ordered { AreInOrder self.old }
        ensures put { OnOk result ((k : Key) →
            holds self.new k ≡ (waits_of file (fence.now ∷ []) k || holds self.old k)) }
        ensures ordered { AreInOrder self.new }
        ensures memory { IfErr result (λ e. e ≡ NoMemory) }
        ensures unchanged { OnErr result ((k : Key) → holds self.new k ≡ holds self.old k) }
    {
        if fence.signal.is_some() {
            return Ok(());
        }
        self.put(Waiter::of(file, fence))
    }

    fn take_pending(&mut self, file: u64, fence: &Fence)
        requires ordered { AreInOrder self.old }
        ensures taken { (k : Key) → holds self.new k ≡ (not (waits_of file (fence.now ∷ []) k) && holds self.old k) }
        ensures ordered { AreInOrder self.new }
    {
        if fence.signal.is_none() {
            self.take(Waiter::of(file, fence));
        }
    }

    /// Removes a file from each of its pending fences.
    pub(crate) fn take_all(&mut self, file: u64, fences: &[Fence])
        requires ordered { AreInOrder self.old }
        ensures taken { (k : Key) → holds self.new k ≡ (not (waits_of file fences.now k) && holds self.old k) }
        ensures ordered { AreInOrder self.new }
    {
        for fence in fences {
            self.take_pending(file, fence);
        }
    }

    /// Removes one point.
    pub(crate) fn take(&mut self, waiter: Waiter)
        ensures taken { (k : Key) → holds self.new k ≡ (not (is_same waiter k) && holds self.old k) }
        ensures fewer { holds self.old waiter ≡ true → length self.new + 1 ≡ length self.old }
        ensures ordered { AreInOrder self.new }
    {
        self.points.remove(&waiter);
    }

    /// The first point of the timeline at or below the value.
    pub(crate) fn first_due(&self, timeline: u64, value: u64) -> Option<Waiter>
        ensures some { IfSome result (λ k. (is_due_at timeline value k ≡ true) × (holds self.now k ≡ true)) }
        ensures least { IfSome result (λ first. (k : Key) →
            is_due_at timeline value k ≡ true → holds self.now k ≡ true → first.value ≤ k.value) }
        ensures none { IfNone result ((k : Key) → is_due_at timeline value k ≡ true → holds self.now k ≡ false) }
    {
        match self.points.range(Waiter::first(timeline)..).next() {
            Some(first) => first.if_due(timeline, value),
            None => None,
        }
    }

    /// The least point of a timeline for which a file waits, or the greatest number if there is none.
    pub(crate) fn floor(&self, timeline: u64) -> u64
        ensures { (k : Key) → k.timeline ≡ timeline → holds self.now k ≡ true → result ≤ k.value }
    {
        match self.first_due(timeline, u64::MAX) {
            Some(first) => first.value,
            None => u64::MAX,
        }
    }
}
