//! `BufferFence`: a fence in a buffer, by timeline and point. Whether it has signalled is read off its timeline.
ghost use Rattle.std.specs.Prelude.{◌≡◌, Some};
ghost use Rattle.point_core.specs.Agreement.{covers};
ghost use Rattle.device_core.specs.theorem.Buffers.{entry_of, fence_waiting, is_waiting, put_as, waiting_fence};
ghost use Rattle.device_core.specs.theorem.State.{at};

use crate::fence::{Fence, Timeline};
use crate::timelines::OpenTimelines;
use point_core::Usage;

/// A fence that was put into a buffer: its timeline, its point, and its usage. It has signalled once the timeline has
/// reached the point, or is closed.
#[derive(Clone, Copy)]
pub(crate) struct BufferFence {
    pub(crate) timeline: u64,
    pub(crate) value: u64,
    pub(crate) usage: Usage,
}

impl BufferFence {
    /// The fence of a file, put with that usage.
    pub(crate) fn of(fence: &Fence, usage: Usage) -> BufferFence
        ensures { result ≡ put_as usage fence.now }
    {
        BufferFence {
            timeline: fence.timeline,
            value: fence.value,
            usage,
        }
    }

    /// Whether it supersedes the other, as in Linux's `dma_resv_add_fence`: the same timeline, a usage at least as
    /// strong, a point at least as late.
    pub(crate) fn covers(&self, other: &BufferFence) -> bool
        ensures { result ≡ covers (entry_of self.now) (entry_of other.now) }
    {
        self.timeline == other.timeline
            && self.usage.number() <= other.usage.number()
            && other.value <= self.value
    }

    /// Whether its timeline is open, and has not reached the point.
    pub(crate) fn is_waiting(&self, timelines: &OpenTimelines) -> bool
        ensures { result ≡ is_waiting (at timelines.now.entries) self.now }
    {
        match timelines.get(&self.timeline) {
            Some(timeline) => timeline.value < self.value,
            None => false,
        }
    }

    /// The fence as a file has it, if it waits and is of the usage or a stronger one.
    pub(crate) fn waiting(&self, timelines: &OpenTimelines, usage: Usage) -> Option<Fence>
        ensures { result ≡ waiting_fence (at timelines.now.entries) usage self.now }
    {
        if self.usage.number() > usage.number() {
            return None;
        }
        match timelines.get(&self.timeline) {
            Some(timeline) => self.waiting_in(timeline),
            None => None,
        }
    }

    fn waiting_in(&self, timeline: &Timeline) -> Option<Fence>
        ensures { result ≡ fence_waiting self.now.timeline self.now.value (Some timeline.now) }
    {
        if timeline.value >= self.value {
            return None;
        }
        Some(Fence {
            timeline: self.timeline,
            name: timeline.name,
            point: (self.value % (1 << 32)) as u32,
            value: self.value,
            signal: None,
        })
    }
}
