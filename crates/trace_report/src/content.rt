//! `Content`: all that both forms of a report read.

use crate::by_timeline::ByTimeline;
use crate::found::PendingFences;
use trace_core::{TimelineKey, Tracker};

/// The tracker and the pending fences, which every part of a report may read.
#[derive(Clone, Copy)]
pub(crate) struct Content<'a> {
    pub(crate) tracker: &'a Tracker,
    pub(crate) found: &'a PendingFences,
    /// The fences that hang, by timeline.
    pub(crate) hangs: &'a ByTimeline,
    /// The fences whose signals may have been lost, by timeline.
    pub(crate) unknown: &'a ByTimeline,
    /// The last time of the text or of its window, in microseconds.
    pub(crate) end: u64,
}

impl Content<'_> {
    /// How long what began at `since` lasted up to the end.
    pub(crate) fn length(&self, since: u64) -> u64 {
        self.end.saturating_sub(since)
    }

    /// What to say before a length up to the end: nothing if the end is known. The last record of a kernel's trace says only that
    /// the trace went on up to there.
    pub(crate) fn bound(&self) -> &'static str {
        if self.tracker.summary.end.is_marked {
            ""
        } else {
            "at least "
        }
    }

    /// How many fences of the timeline are pending, without fences that have no number yet.
    pub(crate) fn pending(&self, timeline: &TimelineKey) -> u64 {
        self.hangs
            .count(timeline)
            .saturating_add(self.unknown.count(timeline))
    }
}
