//! `Slice`: a slice of time that shows a fence or a wait. The chart makes a slice when its end is read.

use trace_core::{FenceKey, Pending, TrackedEvent, Wait};

/// What a slice shows, from which its category follows.
#[derive(Clone, Copy)]
pub(crate) enum SliceKind {
    /// A fence, from making or emitting to its signal.
    Signalled,
    /// A signal of a fence that was not seen to be made.
    Unseen,
    /// A fence that was destroyed and never signalled, which is ordinary.
    Destroyed,
    /// A fence that hangs at the end.
    Hang,
    /// A fence whose signal may be among events that were lost.
    Unknown,
    /// A wait that ended.
    Wait,
    /// A wait that did not end.
    Unfinished,
}

impl SliceKind {
    /// The category of its slices.
    pub(crate) fn category(self) -> &'static str {
        match self {
            SliceKind::Signalled => "fence",
            SliceKind::Unseen => "unseen",
            SliceKind::Destroyed => "destroyed",
            SliceKind::Hang => "hang",
            SliceKind::Unknown => "unknown",
            SliceKind::Wait => "wait",
            SliceKind::Unfinished => "unfinished",
        }
    }
}

/// A slice of time: what it shows, when it begins and ends, in microseconds, and the fence.
#[derive(Clone, Copy)]
pub(crate) struct Slice {
    pub(crate) kind: SliceKind,
    pub(crate) begin: u64,
    pub(crate) end: u64,
    pub(crate) key: FenceKey,
}

impl Slice {
    /// A slice up to `time`. If the time stepped back, the slice ends where it begins.
    fn up_to(kind: SliceKind, begin: u64, time: u64, key: FenceKey) -> Slice {
        Slice {
            kind,
            begin,
            end: time.max(begin),
            key,
        }
    }

    /// A fence that was signalled. The slice begins with the signal if the trace lacks the making.
    pub(crate) fn signalled(seen: &TrackedEvent) -> Slice {
        let time = seen.event.time;
        if seen.life.pending > 0 {
            Slice::up_to(SliceKind::Signalled, seen.life.since, time, seen.event.key)
        } else {
            Slice::up_to(SliceKind::Unseen, time, time, seen.event.key)
        }
    }

    /// A fence that was destroyed while it was pending.
    pub(crate) fn destroyed(seen: &TrackedEvent) -> Slice {
        Slice::up_to(
            SliceKind::Destroyed,
            seen.life.since,
            seen.event.time,
            seen.event.key,
        )
    }

    /// The wait that the event ends.
    pub(crate) fn waited(seen: &TrackedEvent, wait: &Wait) -> Slice {
        Slice::up_to(SliceKind::Wait, wait.start, seen.event.time, seen.event.key)
    }

    /// A fence that is pending at the end of the trace, at `time`.
    pub(crate) fn pending(kind: SliceKind, fence: &Pending, time: u64) -> Slice {
        Slice::up_to(kind, fence.since, time, fence.key)
    }

    /// A wait that has not ended by the end of the trace, at `time`.
    pub(crate) fn unfinished(wait: &Wait, time: u64) -> Slice {
        Slice::up_to(SliceKind::Unfinished, wait.start, time, wait.key)
    }

    pub(crate) fn length(&self) -> u64 {
        self.end.saturating_sub(self.begin)
    }
}
