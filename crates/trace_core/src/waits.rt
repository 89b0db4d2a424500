//! `Waits`: which threads wait for which fences, by `wait_start` and `wait_end`, and sums of the waits that ended.
//!
//! After any calls of `start` and `end` the waits are the open waits of `specs/Waits.antt` (`AreOpen`). The tracker makes the calls
//! in the order of the text. The sums are tested.
ghost use Rattle.std.specs.Prelude.{◌≡◌, List, [], ◌∷◌, find, option_map, IfOk, IfErr, IfSome, OnOk};
ghost use Rattle.point_core.specs.declared.refusal.Refusal.TheVariants.{Memory};
ghost use Rattle.trace_core.specs.Waits.{AreOpen, IsWaitOf, Started, is_wait_for, started_by, started_of, wait_key, waiting, without_first};

use crate::fence_event::{FenceEvent, FenceKey, TimelineKey};
use crate::task::TaskName;
use indexmap::IndexMap;
use point_core::Refusal;
use std::alloc::Global;

/// How many of the longest waits are kept.
pub const LONGEST_WAITS: usize = 10;

/// A wait for a fence.
#[derive(Clone, Copy)]
pub struct Wait {
    pub pid: u32,
    pub task: TaskName,
    pub key: FenceKey,
    /// When it began, in microseconds.
    pub start: u64,
    /// How long it was, in microseconds.
    pub length: u64,
}

/// Waits that ended: how many, how long together, and the longest. Times are microseconds.
#[derive(Clone, Copy)]
pub struct WaitSum {
    pub count: u64,
    pub total: u64,
    pub longest: u64,
}

impl WaitSum {
    const NONE: WaitSum = WaitSum {
        count: 0,
        total: 0,
        longest: 0,
    };

    fn with(self, length: u64) -> WaitSum {
        WaitSum {
            count: self.count.saturating_add(1),
            total: self.total.saturating_add(length),
            longest: self.longest.max(length),
        }
    }
}

/// One of the waits of a thread for a key. If a thread began several waits for it, the wait that began last ends first.
#[derive(Clone, Copy, PartialEq, Eq, Hash)]
pub struct WaitKey {
    pub pid: u32,
    pub key: FenceKey,
    /// How many waits of the thread for the key were open when it began.
    pub nth: usize,
}

/// The waits that are open, and sums of the waits that ended.
#[derive(Drop)]
pub struct Waits {
    open: IndexMap<WaitKey, Wait>,
    by_timeline: IndexMap<TimelineKey, WaitSum>,
    longest: Vec<Wait>,
    ended: WaitSum,
    without_start: u64,
    unsignalled: u64,
}

impl Waits {
    /// No waits. Does not allocate.
    pub fn new(alloc: Global) -> Waits
        ensures { AreOpen result [] }
    {
        Waits {
            open: IndexMap::new(alloc),
            by_timeline: IndexMap::new(alloc),
            longest: Vec::new(alloc),
            ended: WaitSum::NONE,
            without_start: 0,
            unsignalled: 0,
        }
    }

    /// The waits that have not ended, in the order in which they began.
    pub fn open(&self) -> &IndexMap<WaitKey, Wait>
        ensures { result.now ≡ self.now.open }
    {
        &self.open
    }

    /// The sums of each timeline, by the first end.
    pub fn by_timeline(&self) -> &IndexMap<TimelineKey, WaitSum>
        ensures { result.now ≡ self.now.by_timeline }
    {
        &self.by_timeline
    }

    /// The longest waits that ended, the longest first.
    pub fn longest(&self) -> &[Wait]
        ensures { result.now ≡ self.now.longest.items }
    {
        self.longest.as_slice()
    }

    /// The sum of all waits that ended and began within the text.
    pub fn ended(&self) -> WaitSum
        ensures { result ≡ self.now.ended }
    {
        self.ended
    }

    /// How many ends had no start.
    pub fn without_start(&self) -> u64
        ensures { result ≡ self.now.without_start }
    {
        self.without_start
    }

    /// How many ended before a signal of the fence: a timeout, or a signal to the task.
    pub fn unsignalled(&self) -> u64
        ensures { result ≡ self.now.unsignalled }
    {
        self.unsignalled
    }

    /// Begins a wait, and returns it, with a length of 0.
    ///
    /// Fails only with `Memory`, and then nothing has begun.
    pub fn start(&mut self, event: &FenceEvent, task: TaskName) -> Result<Wait, Refusal>
        ensures begun { IfOk result (IsWaitOf event.now) }
        ensures start { IfOk result (λ wait. wait.start ≡ event.now.time) }
        ensures task { IfOk result (λ wait. wait.task ≡ task) }
        ensures are_open { OnOk result ((waits : List Started) → AreOpen self.old waits →
            AreOpen self.new (started_by event.now ∷ waits)) }
        ensures memory { IfErr result (λ e. e ≡ Memory) }
    {
        let wait = Wait {
            pid: event.pid,
            task,
            key: event.key,
            start: event.time,
            length: 0,
        };
        let key = wait_key(event, self.waiting(event));
        let Ok(_none) = self.open.insert(key, wait) else {
            return Err(Refusal::Memory);
        };
        Ok(wait)
    }

    /// Ends a wait for a fence; if the fence `is_pending`, the wait counts as unsignalled. Returns the wait, or none if its start was
    /// not seen: such an end only counts as one without a start.
    ///
    /// Fails only with `Memory`; then the wait has ended, but the sums may lack it.
    pub fn end(&mut self, event: &FenceEvent, is_pending: bool) -> Result<Option<Wait>, Refusal>
        ensures ended { IfOk result (λ wait. IfSome wait (IsWaitOf event.now)) }
        ensures last { IfOk result (λ wait. (waits : List Started) → AreOpen self.old waits →
            option_map started_of wait ≡ find (is_wait_for event.now.pid event.now.key) waits) }
        ensures are_open { OnOk result ((waits : List Started) → AreOpen self.old waits →
            AreOpen self.new (without_first (is_wait_for event.now.pid event.now.key) waits)) }
        ensures memory { IfErr result (λ e. e ≡ Memory) }
    {
        let last = wait_key(event, self.waiting(event).saturating_sub(1));
        let Some(started) = self.open.shift_remove(&last) else {
            self.without_start = self.without_start.saturating_add(1);
            return Ok(None);
        };
        let wait = Wait {
            pid: event.pid,
            key: event.key,
            length: event.time.saturating_sub(started.start),
            ..started
        };
        self.count(wait, is_pending)?;
        Ok(Some(wait))
    }

    /// Takes a wait that ended into the sums.
    fn count(&mut self, wait: Wait, is_pending: bool) -> Result<(), Refusal>
        ensures kept { self.new.open ≡ self.old.open }
        ensures memory { IfErr result (λ e. e ≡ Memory) }
    {
        if is_pending {
            self.unsignalled = self.unsignalled.saturating_add(1);
        }
        self.ended = self.ended.with(wait.length);
        self.add(wait.key.timeline_key(), wait.length)?;
        self.keep_longest(wait)
    }

    fn add(&mut self, key: TimelineKey, length: u64) -> Result<(), Refusal>
        ensures kept { self.new.open ≡ self.old.open }
        ensures memory { IfErr result (λ e. e ≡ Memory) }
    {
        let sum = match self.by_timeline.get(&key) {
            Some(sum) => *sum,
            None => WaitSum::NONE,
        };
        let Ok(_old) = self.by_timeline.insert(key, sum.with(length)) else {
            return Err(Refusal::Memory);
        };
        Ok(())
    }

    /// How many waits of the event's thread for its fence are open.
    fn waiting(&self, event: &FenceEvent) -> usize
        ensures count { (waits : List Started) → AreOpen self.now waits →
            result ≡ waiting event.now.pid event.now.key waits }
    {
        let len = self.open.len();
        for nth in 0..len {
            if !self.open.contains_key(&wait_key(event, nth)) {
                return nth;
            }
        }
        len
    }

    /// Inserts the wait into the top-N if it qualifies.
    fn keep_longest(&mut self, wait: Wait) -> Result<(), Refusal>
        ensures kept { self.new.open ≡ self.old.open }
        ensures memory { IfErr result (λ e. e ≡ Memory) }
    {
        let mut place = self.longest.len();
        for (index, other) in self.longest.as_slice().iter().enumerate() {
            if other.length < wait.length {
                place = index;
                break;
            }
        }
        if place >= LONGEST_WAITS {
            return Ok(());
        }
        if self.longest.len() >= LONGEST_WAITS {
            self.longest.pop();
        }
        let place = self.longest.len().min(place);
        let Ok(()) = self.longest.insert(place, wait) else {
            return Err(Refusal::Memory);
        };
        Ok(())
    }
}

fn wait_key(event: &FenceEvent, nth: usize) -> WaitKey
    ensures { result ≡ wait_key event.now.pid event.now.key nth }
{
    WaitKey {
        pid: event.pid,
        key: event.key,
        nth,
    }
}
