//! `OpenTimelines`: the open timelines, and the index of the points for which files wait. Each timeline has a floor, at or
//! below every point that is waited for, so most increments compare once.
ghost use Rattle.std.specs.Prelude.{◌≡◌, ℕ, ◌+◌, ◌<◌, ◌^◌, not, ◌&&◌, ◌||◌, nat_eq, if◌then◌else◌, length, [], None, Some, is_some, option_copied, option_map, true, false, IfErr, IfSome, OnOk, OnErr};
ghost use Rattle.std.specs.Bool.{OnTrue, OnFalse};
ghost use Rattle.std.specs.List.{IsDistinct};
ghost use Rattle.std.specs.Map.{keys_of};
ghost use Rattle.point_core.specs.Reach.{GREATEST};
ghost use Rattle.device_core.specs.declared.errno.Errno.TheVariants.{NoMemory};
ghost use Rattle.device_core.specs.declared.waiting_files.Waiter.{Waiter as Key};
ghost use Rattle.device_core.specs.Due.{IsFirstHeld};
ghost use Rattle.device_core.specs.Floors.{HasRisenQuietly, lowered, lowered_by, settled, timelines_in, timelines_state};
ghost use Rattle.device_core.specs.theorem.State.{AreInOrder, AreSignalled, IsIndexed, at, holds, is_due_at, raised, waits_of};

use crate::errno::Errno;
use crate::fence::{Fence, Signal, Timeline};
use crate::file::File;
use crate::room::give_room_back;
use crate::signalling::signal_due;
use crate::waiting_files::{Waiter, WaitingFiles};
use std::alloc::Global;
use std::collections::{BTreeSet, HashMap};
use std::marker::Model;

/// An open timeline, and its floor: no file waits for a lower point. The floor of a new timeline is 0.
#[derive(Clone, Copy)]
pub(crate) struct OpenTimeline {
    pub(crate) timeline: Timeline,
    pub(crate) floor: u64,
}

impl OpenTimeline {
    /// Raises it by n if the new value is below its floor, and returns whether it is.
    fn rise_below_floor(&mut self, n: u32) -> bool
        ensures below { OnTrue result (self.old.timeline.value + n < self.old.floor) }
        ensures fits { OnTrue result (self.old.timeline.value + n < 2 ^ 64) }
        ensures risen { OnTrue result (self.new ≡ record self.old { timeline = raised self.old.timeline n }) }
        ensures unchanged { OnFalse result (self.new ≡ self.old) }
    {
        let Some(value) = self.timeline.value.checked_add(u64::from(n)) else {
            return false;
        };
        if value >= self.floor {
            return false;
        }
        self.timeline.value = value;
        true
    }

    /// Lowers its floor to a fence of its own, if the fence is pending.
    fn lower(&mut self, fence: &Fence)
        ensures { self.new ≡ lowered_by fence.now self.old }
    {
        if fence.signal.is_none() {
            self.floor = self.floor.min(fence.value);
        }
    }
}

/// The open timelines by number, and the pending points of all files.
#[derive(Drop)]
pub(crate) struct OpenTimelines {
    by_number: HashMap<u64, OpenTimeline>,
    waiting: WaitingFiles,
}

impl Model for OpenTimelines {
    ghost use Rattle.device_core.specs.Floors.{HasFloors, TimelinesState, timelines_state};

    ghost Value = { TimelinesState };

    ghost view = { λ t. timelines_state t.by_number.entries t.waiting };

    ghost invariant = { λ t. HasFloors t.by_number.entries t.waiting };
}

impl OpenTimelines {
    /// None is open. Does not allocate.
    pub(crate) fn new(alloc: Global) -> OpenTimelines
        ensures { result ≡ timelines_state [] [] }
    {
        OpenTimelines {
            by_number: HashMap::new(alloc),
            waiting: WaitingFiles::new(alloc),
        }
    }

    /// The number of open timelines.
    pub(crate) fn len(&self) -> usize
        ensures len { result ≡ length self.now.entries }
        ensures distinct { IsDistinct nat_eq (keys_of self.now.entries) }
    {
        self.by_number.len()
    }

    /// The number of points for which files wait.
    pub(crate) fn waiting(&self) -> usize
        ensures len { result ≡ length self.now.index }
        ensures ordered { AreInOrder self.now.index }
    {
        self.waiting.len()
    }

    /// The points for which files wait, by timeline and value.
    pub(crate) fn points(&self) -> &BTreeSet<Waiter>
        ensures keys { result.now.keys ≡ self.now.index }
    {
        self.waiting.points()
    }

    /// Whether an open timeline has this number.
    pub(crate) fn contains_key(&self, number: &u64) -> bool
        ensures { result ≡ is_some (at self.now.entries number.now) }
    {
        self.by_number.contains_key(number)
    }

    /// The open timeline with this number.
    pub(crate) fn get(&self, number: &u64) -> Option<&Timeline>
        ensures { option_copied result ≡ at self.now.entries number.now }
    {
        match self.by_number.get(number) {
            Some(known) => Some(&known.timeline),
            None => None,
        }
    }

    /// Opens a timeline.
    ///
    /// Fails only with `NoMemory`, and then leaves everything as it was.
    pub(crate) fn insert(&mut self, number: u64, timeline: Timeline) -> Result<(), Errno>
        ensures updates { OnOk result ((q : ℕ) →
            at self.new.entries q ≡ (if nat_eq number q then Some timeline else at self.old.entries q)) }
        ensures index { self.new.index ≡ self.old.index }
        ensures memory { IfErr result (λ e. e ≡ NoMemory) }
        ensures unchanged { OnErr result (self.new ≡ self.old) }
    {
        let opened = OpenTimeline { timeline, floor: 0 };
        let Ok(_before) = self.by_number.insert(number, opened) else {
            return Err(Errno::NoMemory);
        };
        Ok(())
    }

    /// Raises an open timeline by n if no file waits for a point that it then reaches, which is one comparison. Returns
    /// whether it has risen.
    pub(crate) fn rise_quietly(&mut self, number: u64, n: u32) -> bool
        ensures risen { OnTrue result (HasRisenQuietly self.old self.new number n) }
        ensures unchanged { OnFalse result (self.new ≡ self.old) }
    {
        let Some(known) = self.by_number.get_mut(&number) else {
            return false;
        };
        known.rise_below_floor(n)
    }

    /// The least point at which a file waits for a timeline, up to the value. Below the timeline's floor none is looked
    /// for.
    pub(crate) fn first_due(&self, number: u64, value: u64) -> Option<u64>
        ensures { IsFirstHeld self.now.index number value result }
    {
        if self.is_below_floor(number, value) {
            return None;
        }
        match self.waiting.first_due(number, value) {
            Some(first) => Some(first.value),
            None => None,
        }
    }

    fn is_below_floor(&self, number: u64, value: u64) -> bool
        ensures { result ≡ true → (k : Key) → is_due_at number value k ≡ true → holds self.now.index k ≡ false }
    {
        match self.by_number.get(&number) {
            Some(known) => value < known.floor,
            None => false,
        }
    }

    /// Raises an open timeline to a value, and signals its pending fences up to there in each file.
    pub(crate) fn raise_to(
        &mut self,
        files: &mut HashMap<u64, File>,
        number: u64,
        value: u64,
        signal: Signal,
    )
        requires indexed { IsIndexed self.old.index files.old.entries }
        ensures raised { IfSome (at self.old.entries number) (λ t. (q : ℕ) → at self.new.entries q
            ≡ (if nat_eq number q then Some (record t { value = value }) else at self.old.entries q)) }
        ensures signalled { AreSignalled number value signal files.old.entries files.new.entries }
        ensures indexed { IsIndexed self.new.index files.new.entries }
    {
        signal_due(&mut self.waiting, files, number, value, signal);
        let floor = self.waiting.floor(number);
        settle(&mut self.by_number, number, value, floor);
    }

    /// Closes a timeline, and signals its pending fences in each file.
    pub(crate) fn close(&mut self, files: &mut HashMap<u64, File>, number: u64, signal: Signal)
        requires indexed { IsIndexed self.old.index files.old.entries }
        ensures closed { (q : ℕ) →
            at self.new.entries q ≡ (if nat_eq number q then None else at self.old.entries q) }
        ensures signalled { AreSignalled number GREATEST signal files.old.entries files.new.entries }
        ensures indexed { IsIndexed self.new.index files.new.entries }
    {
        self.by_number.remove(&number);
        give_room_back(&mut self.by_number);
        signal_due(&mut self.waiting, files, number, u64::MAX, signal);
    }

    /// Enters a file at each of its pending fences.
    ///
    /// Fails only with `NoMemory`, and then leaves everything as it was.
    pub(crate) fn put_all(&mut self, file: u64, fences: &[Fence]) -> Result<(), Errno>
        requires new { (k : Key) → k.file ≡ file → holds self.old.index k ≡ false }
        ensures put { OnOk result ((k : Key) →
            holds self.new.index k ≡ (waits_of file fences.now k || holds self.old.index k)) }
        ensures entries { self.new.entries ≡ self.old.entries }
        ensures ordered { AreInOrder self.old.index }
        ensures memory { IfErr result (λ e. e ≡ NoMemory) }
        ensures unchanged { OnErr result (self.new ≡ self.old) }
    {
        lower_floors(&mut self.by_number, fences);
        self.waiting.put_all(file, fences)?;
        Ok(())
    }

    /// Removes a file from each of its pending fences.
    pub(crate) fn take_all(&mut self, file: u64, fences: &[Fence])
        ensures taken { (k : Key) →
            holds self.new.index k ≡ (not (waits_of file fences.now k) && holds self.old.index k) }
        ensures entries { self.new.entries ≡ self.old.entries }
        ensures ordered { AreInOrder self.new.index }
    {
        self.waiting.take_all(file, fences);
    }
}

fn settle(timelines: &mut HashMap<u64, OpenTimeline>, number: u64, value: u64, floor: u64)
    ensures { (q : ℕ) → at timelines.new.entries q ≡
        (if nat_eq number q
        then option_map (settled value floor) (at timelines.old.entries q)
        else at timelines.old.entries q) }
{
    if let Some(known) = timelines.get_mut(&number) {
        known.timeline.value = value;
        known.floor = floor;
    }
}

/// Lowers the floor of each open timeline to its pending fences in the list.
fn lower_floors(timelines: &mut HashMap<u64, OpenTimeline>, fences: &[Fence])
    ensures lowered { (q : ℕ) →
        at timelines.new.entries q ≡ option_map (lowered q fences.now) (at timelines.old.entries q) }
    ensures same { timelines_in timelines.new.entries ≡ timelines_in timelines.old.entries }
{
    for fence in fences {
        lower_floor(timelines, fence);
    }
}

fn lower_floor(timelines: &mut HashMap<u64, OpenTimeline>, fence: &Fence)
    ensures lowered { (q : ℕ) → at timelines.new.entries q ≡
        (if nat_eq fence.now.timeline q
        then option_map (lowered_by fence.now) (at timelines.old.entries q)
        else at timelines.old.entries q) }
    ensures same { timelines_in timelines.new.entries ≡ timelines_in timelines.old.entries }
{
    if let Some(known) = timelines.get_mut(&fence.timeline) {
        known.lower(fence);
    }
}
