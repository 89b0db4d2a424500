//! `Delays`: how long the fences of each timeline took to signal, as counts by step of time, so that memory does not grow with the
//! number of fences. Tested, not proved.
ghost use Rattle.std.specs.Prelude.{◌≡◌, IfErr};
ghost use Rattle.point_core.specs.declared.refusal.Refusal.TheVariants.{Memory};

use crate::fence_event::TimelineKey;
use indexmap::IndexMap;
use point_core::Refusal;
use std::alloc::Global;

/// The steps of each doubling of a time, so that a median is exact to within a sixteenth.
const STEPS: u64 = 16;

/// The first bits of a time that say its step.
const STEP_BITS: u32 = 4;

/// The last step, which the greatest time has.
const LAST_STEP: u32 = 975;

/// Times of a timeline that fall into one step.
#[derive(Clone, Copy, PartialEq, Eq, Hash)]
struct StepKey {
    timeline: TimelineKey,
    step: u32,
}

/// How many times of a timeline there are, and the longest, in microseconds.
#[derive(Clone, Copy)]
struct DelaySum {
    count: u64,
    longest: u64,
}

/// The middle, the 95th percentile and the longest of a timeline's times, in microseconds.
#[derive(Clone, Copy)]
pub struct Delay {
    pub count: u64,
    /// To within a sixteenth.
    pub median: u64,
    /// To within a sixteenth.
    pub percentile_95: u64,
    pub longest: u64,
}

/// The times of each timeline, counted by steps.
#[derive(Drop)]
pub struct Delays {
    steps: IndexMap<StepKey, u64>,
    spans: IndexMap<TimelineKey, DelaySum>,
}

impl Delays {
    /// No times. Does not allocate.
    pub fn new(alloc: Global) -> Delays {
        Delays {
            steps: IndexMap::new(alloc),
            spans: IndexMap::new(alloc),
        }
    }

    /// Counts a time.
    ///
    /// Fails only with `Memory`; then the delays are not to be used further.
    pub fn add(&mut self, timeline: TimelineKey, time: u64) -> Result<(), Refusal>
        ensures memory { IfErr result (λ e. e ≡ Memory) }
    {
        let key = StepKey {
            timeline,
            step: step_of(time),
        };
        if let Some(count) = self.steps.get_mut(&key) {
            *count = count.saturating_add(1);
        } else if self.steps.insert(key, 1).is_err() {
            return Err(Refusal::Memory);
        }
        self.lengthen(timeline, time)
    }

    fn lengthen(&mut self, timeline: TimelineKey, time: u64) -> Result<(), Refusal>
        ensures memory { IfErr result (λ e. e ≡ Memory) }
    {
        if let Some(span) = self.spans.get_mut(&timeline) {
            span.count = span.count.saturating_add(1);
            span.longest = span.longest.max(time);
            return Ok(());
        }
        let span = DelaySum {
            count: 1,
            longest: time,
        };
        match self.spans.insert(timeline, span) {
            Ok(_none) => Ok(()),
            Err(_) => Err(Refusal::Memory),
        }
    }

    /// The count, the percentiles and the longest of a timeline's times; all are 0 if it has none.
    pub fn delay(&self, timeline: &TimelineKey) -> Delay {
        let span = self.span(timeline);
        Delay {
            count: span.count,
            median: self.time_at(timeline, span.count / 2).min(span.longest),
            percentile_95: self
                .time_at(timeline, span.count.saturating_sub(span.count / 20 + 1))
                .min(span.longest),
            longest: span.longest,
        }
    }

    fn span(&self, timeline: &TimelineKey) -> DelaySum {
        match self.spans.get(timeline) {
            Some(span) => *span,
            None => DelaySum {
                count: 0,
                longest: 0,
            },
        }
    }

    /// The greatest time in the step of the time at `place`, in ascending order.
    fn time_at(&self, timeline: &TimelineKey, place: u64) -> u64 {
        let mut key = StepKey {
            timeline: *timeline,
            step: 0,
        };
        let mut passed: u64 = 0;
        for step in 0..LAST_STEP + 1 {
            key.step = step;
            if let Some(count) = self.steps.get(&key) {
                passed = passed.saturating_add(*count);
                if passed > place {
                    return end_of(step);
                }
            }
        }
        u64::MAX
    }
}

/// The step that a time falls into.
fn step_of(time: u64) -> u32 {
    if time < STEPS {
        return small(time);
    }
    let shift = time.ilog2().saturating_sub(STEP_BITS);
    let first = small(time.checked_shr(shift).unwrap_or(0));
    shift
        .saturating_mul(1 << STEP_BITS)
        .saturating_add(first)
        .min(LAST_STEP)
}

/// The greatest time of a step.
fn end_of(step: u32) -> u64 {
    if u64::from(step) < STEPS {
        return u64::from(step);
    }
    let shift = (step >> STEP_BITS).saturating_sub(1);
    let first = u64::from(step % (1 << STEP_BITS)).saturating_add(STEPS);
    let width = 1u64.checked_shl(shift).unwrap_or(u64::MAX);
    first
        .saturating_add(1)
        .saturating_mul(width)
        .saturating_sub(1)
}

fn small(number: u64) -> u32 {
    u32::try_from(number).unwrap_or(u32::MAX)
}
