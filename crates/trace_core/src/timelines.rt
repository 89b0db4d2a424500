//! `TimelineTallies`: the tally of each timeline, a fold over the timeline's events (`specs/Timelines.antt`).
ghost use Rattle.std.specs.Prelude.{◌≡◌, if◌then◌else◌, OnOk, IfErr};
ghost use Rattle.point_core.specs.declared.refusal.Refusal.TheVariants.{Memory};
ghost use Rattle.trace_core.specs.declared.fence_event.TimelineKey.{TimelineKey};
ghost use Rattle.trace_core.specs.Keys.{same_timeline};
ghost use Rattle.trace_core.specs.Tally.{none, tally_after};
ghost use Rattle.trace_core.specs.Timelines.{tally_at};

use crate::fence_event::TimelineKey;
use crate::finding::Finding;
use crate::tally::Tally;
use indexmap::IndexMap;
use point_core::Refusal;
use std::alloc::Global;

/// The timelines, by first sight.
#[derive(Drop)]
pub struct TimelineTallies {
    by_key: IndexMap<TimelineKey, Tally>,
}

impl TimelineTallies {
    /// No timelines. Does not allocate.
    pub fn new(alloc: Global) -> TimelineTallies
        ensures { (key : TimelineKey) → tally_at result key ≡ none }
    {
        TimelineTallies {
            by_key: IndexMap::new(alloc),
        }
    }

    /// What the timeline did; each count is 0 if no event of it was seen.
    pub fn tally(&self, key: &TimelineKey) -> Tally
        ensures { result ≡ tally_at self.now key.now }
    {
        match self.by_key.get(key) {
            Some(tally) => *tally,
            None => Tally::NONE,
        }
    }

    /// The timelines with what they did, by first sight.
    pub fn by_key(&self) -> &IndexMap<TimelineKey, Tally>
        ensures { result.now ≡ self.now.by_key }
    {
        &self.by_key
    }

    /// Counts one event of the timeline `key`, classified as `found`.
    ///
    /// Fails only with `Memory`, and then nothing has changed.
    pub fn count(&mut self, key: TimelineKey, found: &Finding) -> Result<(), Refusal>
        ensures counted { OnOk result ((k : TimelineKey) → tally_at self.new k ≡
            (if same_timeline key k then tally_after found.now (tally_at self.old key) else tally_at self.old k)) }
        ensures memory { IfErr result (λ e. e ≡ Memory) }
    {
        if let Some(tally) = self.by_key.get_mut(&key) {
            tally.count(found);
            return Ok(());
        }
        let mut tally = Tally::NONE;
        tally.count(found);
        let Ok(_old) = self.by_key.insert(key, tally) else {
            return Err(Refusal::Memory);
        };
        Ok(())
    }
}
