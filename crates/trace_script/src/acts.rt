//! `Acts`: what happened in a window, act by act, before points are known. A fence's point depends on how many fences of its
//! timeline are signalled before it, so the lines are written only when the window is over. `Acts` handles the steps of a reading.
//!
//! Only memory can be refused, so the error is `AllocError` where no list of the tracker is asked for.
ghost use Rattle.std.specs.Prelude.{◌≡◌, IfErr, nat_lt, vec_len};
ghost use Rattle.point_core.specs.declared.refusal.Refusal.TheVariants.{Memory};
ghost use Rattle.trace_script.specs.declared.acts.TheConstants.{ACTS};

use indexmap::IndexMap;
use line_core::SCRIPT_BYTES;
use point_core::Refusal;
use std::alloc::{AllocError, Global};
use trace_core::{
    Event, FenceKey, Life, Next, StepHandler, TaskName, TrackedEvent, Tracker, Wait, pending_of,
};

/// The bytes of the shortest line of a script that acts.
const SHORTEST_LINE: usize = 8;

/// A script holds at most this many acts.
const ACTS: usize = SCRIPT_BYTES / SHORTEST_LINE;

/// A fence of the window.
#[derive(Clone, Copy)]
pub(crate) struct ScriptFence {
    pub(crate) key: FenceKey,
    pub(crate) is_signalled: bool,
    /// Whether it was destroyed, so that its key may be another fence's.
    pub(crate) is_closed: bool,
}

/// A task that waits.
#[derive(Clone, Copy)]
pub(crate) struct Waiter {
    pub(crate) task: TaskName,
    pub(crate) pid: u32,
}

/// What happened to a fence.
#[derive(Clone, Copy)]
pub(crate) enum ActKind {
    Make,
    Signal,
    Close,
    /// A task began to wait.
    Wait(Waiter),
    /// The wait of a task ended.
    Waited(Waiter),
}

impl ActKind {
    /// Whether it is a wait's beginning or end.
    pub(crate) fn is_wait(&self) -> bool {
        matches!(self, ActKind::Wait(_) | ActKind::Waited(_))
    }
}

/// What happened to the fence at a place.
#[derive(Clone, Copy)]
pub(crate) struct TraceAct {
    pub(crate) fence: usize,
    pub(crate) kind: ActKind,
    /// When it happened, in microseconds, or none if that was before the window.
    pub(crate) time: Option<u64>,
}

/// What happened in a window.
#[derive(Drop)]
pub(crate) struct Acts {
    alloc: Global,
    pub(crate) fences: Vec<ScriptFence>,
    pub(crate) acts: Vec<TraceAct>,
    // the places of the fences that are alive
    open: IndexMap<FenceKey, usize>,
    // the time of the event that is added, or none before the window
    time: Option<u64>,
}

impl StepHandler<()> for Acts {
    ghost use Rattle.std.specs.Prelude.{◌≡◌};
    ghost use Rattle.point_core.specs.declared.refusal.Refusal.TheVariants.{Memory};

    ghost refuses = { λ e. e ≡ Memory };

    fn handle(&mut self, tracker: &Tracker, next: Next, _output: &mut ()) -> Result<(), Refusal> {
        match next {
            Next::Begin => self.begin(tracker)?,
            Next::Within(seen) => self.see(tracker, &seen)?,
            Next::Before(_) | Next::Lost(_) | Next::StartedLate | Next::Other | Next::End => {}
        }
        Ok(())
    }
}

impl Acts {
    /// Nothing happened. Does not allocate.
    pub(crate) fn new(alloc: Global) -> Acts {
        Acts {
            alloc,
            fences: Vec::new(alloc),
            acts: Vec::new(alloc),
            open: IndexMap::new(alloc),
            time: None,
        }
    }

    /// Whether there are more than go into a script.
    pub(crate) fn are_too_many(&self) -> bool
        ensures { result ≡ nat_lt ACTS (vec_len self.now.acts) }
    {
        self.acts.len() > ACTS
    }

    /// Begins with the fences that are pending, in the order of their making.
    fn begin(&mut self, tracker: &Tracker) -> Result<(), Refusal>
        ensures memory { IfErr result (λ e. e ≡ Memory) }
    {
        let mut earlier = pending_of(self.alloc, &tracker.ledger)?;
        earlier.sort()?;
        for fence in earlier.as_slice() {
            self.make(fence.key)?;
        }
        Ok(())
    }

    /// Adds what an event of the window does.
    fn see(&mut self, tracker: &Tracker, seen: &TrackedEvent) -> Result<(), AllocError> {
        let key = seen.event.key;
        self.time = Some(seen.event.time);
        self.follow(key, tracker.ledger.life(&key))?;
        match seen.wait {
            Some(wait) => self.wait(seen.event.kind, &wait),
            None => Ok(()),
        }
    }

    /// Adds the act that leads to `life`, the key's state after one of its events.
    fn follow(&mut self, key: FenceKey, life: Life) -> Result<(), AllocError> {
        let Some(place) = self.place(&key) else {
            if life.is_pending() {
                return self.make(key);
            }
            return Ok(());
        };
        if life.has_signalled {
            self.signal(place)?;
        }
        if life.is_over() {
            return self.close(&key, place);
        }
        Ok(())
    }

    /// Adds that a wait began or ended.
    fn wait(&mut self, event: Event, wait: &Wait) -> Result<(), AllocError> {
        let waiter = Waiter {
            task: wait.task,
            pid: wait.pid,
        };
        let kind = if matches!(event, Event::WaitStart) {
            ActKind::Wait(waiter)
        } else {
            ActKind::Waited(waiter)
        };
        match self.place(&wait.key) {
            Some(place) => self.push(place, kind),
            None => Ok(()),
        }
    }

    fn place(&self, key: &FenceKey) -> Option<usize> {
        self.open.get(key).copied()
    }

    fn make(&mut self, key: FenceKey) -> Result<(), AllocError> {
        let place = self.fences.len();
        let fence = ScriptFence {
            key,
            is_signalled: false,
            is_closed: false,
        };
        self.fences.push(fence)?;
        if self.open.insert(key, place).is_err() {
            return Err(AllocError);
        }
        self.push(place, ActKind::Make)
    }

    fn signal(&mut self, place: usize) -> Result<(), AllocError> {
        let Some(fence) = self.fences.get_mut(place) else {
            return Ok(());
        };
        if fence.is_signalled {
            return Ok(());
        }
        fence.is_signalled = true;
        self.push(place, ActKind::Signal)
    }

    fn close(&mut self, key: &FenceKey, place: usize) -> Result<(), AllocError> {
        self.open.swap_remove(key);
        if let Some(fence) = self.fences.get_mut(place) {
            fence.is_closed = true;
        }
        self.push(place, ActKind::Close)
    }

    fn push(&mut self, fence: usize, kind: ActKind) -> Result<(), AllocError> {
        if self.are_too_many() {
            return Ok(());
        }
        let time = self.time;
        self.acts.push(TraceAct { fence, kind, time })?;
        Ok(())
    }
}
