//! `FenceEvent` and its keys: one event of a fence, with the names of driver and timeline as numbers, so that keys are `Copy` and
//! compare fast. The tracker numbers the names; the ledger has only the numbers.
ghost use Rattle.std.specs.Prelude.{◌≡◌};
ghost use Rattle.trace_core.specs.Keys.{timeline_of, timeline_of_context, context_of, unnumbered};

use crate::event::Event;

/// A timeline, by the numbers of its driver's name and its own.
#[derive(Clone, Copy, PartialEq, Eq, Hash)]
pub struct TimelineKey {
    pub driver: u32,
    pub timeline: u32,
}

/// A context of a timeline: the lower 32 bits, which are all that the kernel prints.
#[derive(Clone, Copy, PartialEq, Eq, Hash)]
pub struct ContextKey {
    pub driver: u32,
    pub timeline: u32,
    pub context: u32,
}

/// What names a fence in a trace: its context and the lower 32 bits of its seqno. A trace may use a key again.
#[derive(Clone, Copy, PartialEq, Eq, Hash, PartialOrd, Ord)]
pub struct FenceKey {
    pub driver: u32,
    pub timeline: u32,
    pub context: u32,
    pub seqno: u32,
}

impl ContextKey {
    /// The timeline of the context.
    pub fn timeline_key(&self) -> TimelineKey
        ensures { result ≡ timeline_of_context self.now }
    {
        TimelineKey {
            driver: self.driver,
            timeline: self.timeline,
        }
    }
}

impl FenceKey {
    /// The timeline of the fence.
    pub fn timeline_key(&self) -> TimelineKey
        ensures { result ≡ timeline_of self.now }
    {
        self.context_key().timeline_key()
    }

    /// The context of the fence.
    pub fn context_key(&self) -> ContextKey
        ensures { result ≡ context_of self.now }
    {
        ContextKey {
            driver: self.driver,
            timeline: self.timeline,
            context: self.context,
        }
    }

    /// The key of the context's fences that have no number yet.
    pub fn unnumbered(&self) -> FenceKey
        ensures { result ≡ unnumbered self.now }
    {
        FenceKey { seqno: 0, ..*self }
    }
}

/// One event of a fence.
#[derive(Clone, Copy)]
pub struct FenceEvent {
    pub kind: Event,
    pub key: FenceKey,
    /// Microseconds of the trace's clock.
    pub time: u64,
    pub pid: u32,
}
