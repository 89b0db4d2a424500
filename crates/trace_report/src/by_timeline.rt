//! `ByTimeline`: pending fences by timeline, as a report lists and counts them. The order is tested (`tests/traces`).

use indexmap::IndexMap;
use std::alloc::{AllocError, Global};
use trace_core::{Pending, TimelineKey};

/// Pending fences by timeline: the timelines in the order of their first fences, and the fences of each in the order of their
/// making.
#[derive(Drop)]
pub(crate) struct ByTimeline {
    fences: IndexMap<TimelineKey, Vec<Pending>>,
}

impl ByTimeline {
    /// Groups fences that are in the order of their making.
    pub(crate) fn of(alloc: Global, pending: &[Pending]) -> Result<ByTimeline, AllocError> {
        let mut grouped = ByTimeline {
            fences: IndexMap::new(alloc),
        };
        for fence in pending {
            grouped.push(alloc, fence)?;
        }
        Ok(grouped)
    }

    fn push(&mut self, alloc: Global, fence: &Pending) -> Result<(), AllocError> {
        let timeline = fence.key.timeline_key();
        if let Some(fences) = self.fences.get_mut(&timeline) {
            fences.push(*fence)?;
            return Ok(());
        }
        let fences = Vec::from_slice(alloc, &[*fence])?;
        if self.fences.insert(timeline, fences).is_err() {
            return Err(AllocError);
        }
        Ok(())
    }

    /// The fences of each timeline.
    pub(crate) fn fences(&self) -> &IndexMap<TimelineKey, Vec<Pending>> {
        &self.fences
    }

    /// How many fences the timeline has.
    pub(crate) fn count(&self, timeline: &TimelineKey) -> u64 {
        match self.fences.get(timeline) {
            Some(fences) => fences.len() as u64,
            None => 0,
        }
    }
}
