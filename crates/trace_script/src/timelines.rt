//! `Timelines`: the timelines of a script, and each fence's place on one of them. They are found once the window is over, since it
//! takes all of a trace to know which contexts are timelines, and which fences are signalled.
//!
//! Which timelines there are, and which points fences get, is tested. Which fences hang is proved of `hangs`.
ghost use Rattle.std.specs.Prelude.{◌≡◌, ◌&&◌, List, not, IfOk, IfSome};
ghost use Rattle.trace_core.specs.History.{IsLedgerOf, Step, hangs, is_unnumbered};
ghost use Rattle.trace_script.specs.Names.{file_name, lane_name};

use crate::acts::{ActKind, Acts, ScriptFence, TraceAct};
use crate::safe_names::SafeNames;
use indexmap::IndexMap;
use point_core::Name;
use std::alloc::{AllocError, Global};
use text_core::{Part, push_parts};
use trace_core::{ContextKey, FenceKey, Ledger, TimelineKey, Tracker};

/// The name that Linux gives to a fence that is on no timeline, such as a merged one. Each of these fences has a context.
const UNBOUND: &[u8] = b"unbound";

/// A timeline with more contexts than these makes a context for each fence.
const SEPARATE_CONTEXTS: u64 = 16;

/// How many fences are shown of a timeline before its first that hangs.
const FENCES_BEFORE: usize = 2;

/// Which fences a script has.
#[derive(Clone, Copy)]
pub enum ScriptFences {
    /// All fences of the window.
    All,
    /// The fences that hang at the window's end, and a few of their timelines before them.
    Hanging,
}

/// What a timeline of the script shows.
#[derive(Clone, Copy, PartialEq, Eq, Hash)]
pub(crate) enum Lane {
    /// The contexts of a timeline of the trace.
    Timeline(TimelineKey),
    /// One of several contexts.
    Context(ContextKey),
}

impl Lane {
    /// Its timeline of the trace.
    pub(crate) fn timeline(&self) -> TimelineKey {
        match self {
            Lane::Timeline(key) => *key,
            Lane::Context(key) => key.timeline_key(),
        }
    }

    /// The context, if it is one of several.
    pub(crate) fn context(&self) -> Option<u32> {
        match self {
            Lane::Timeline(_) => None,
            Lane::Context(key) => Some(key.context),
        }
    }
}

/// A timeline of the script.
#[derive(Clone, Copy)]
pub(crate) struct ScriptTimeline {
    pub(crate) lane: Lane,
    /// Its name, or none if no script may have it.
    pub(crate) name: Option<Name>,
    // the name of the trace's timeline, with which the names of files begin
    base: Name,
    // how many points its fences have
    points: u64,
    // the place of its first fence that hangs
    hangs_from: Option<usize>,
    // how many fences are shown that were made before that
    before: usize,
}

/// A fence as the script has it.
#[derive(Clone, Copy)]
pub(crate) struct FenceFile {
    /// The name of its file, or none if no script may have it.
    pub(crate) name: Option<Name>,
    /// The place of its timeline.
    pub(crate) timeline: usize,
    /// Its point there, from 1, or 0 if the script leaves it out.
    pub(crate) point: u64,
    pub(crate) is_signalled: bool,
    // whether it hangs at the end of the window
    is_hanging: bool,
    is_shown: bool,
}

/// The timelines of a script, and its files, a file for each fence.
#[derive(Drop)]
pub(crate) struct Timelines {
    alloc: Global,
    by_lane: IndexMap<Lane, usize>,
    names: SafeNames,
    pub(crate) timelines: Vec<ScriptTimeline>,
    pub(crate) files: Vec<FenceFile>,
}

impl Timelines {
    /// No timelines. Does not allocate.
    pub(crate) fn new(alloc: Global) -> Timelines {
        Timelines {
            alloc,
            by_lane: IndexMap::new(alloc),
            names: SafeNames::new(alloc),
            timelines: Vec::new(alloc),
            files: Vec::new(alloc),
        }
    }

    /// Gives each fence its file.
    pub(crate) fn fill(
        &mut self,
        tracker: &Tracker,
        acts: &Acts,
        chosen: ScriptFences,
    ) -> Result<(), AllocError> {
        for fence in acts.fences.as_slice() {
            self.add(tracker, fence)?;
        }
        if matches!(chosen, ScriptFences::Hanging) {
            self.choose_hanging();
        }
        self.number_signalled(acts.acts.as_slice());
        self.number_the_rest();
        Ok(())
    }

    /// Adds the next fence. A fence that its driver has not numbered is left out.
    fn add(&mut self, tracker: &Tracker, fence: &ScriptFence) -> Result<(), AllocError> {
        let place = self.files.len();
        let timeline = self.timeline(tracker, lane_of(tracker, &fence.key))?;
        let is_hanging = !fence.is_closed && hangs(&tracker.ledger, &fence.key);
        if is_hanging {
            self.hang(timeline, place);
        }
        let name = self.name(timeline, &fence.key)?;
        self.files.push(FenceFile {
            name,
            timeline,
            point: 0,
            is_signalled: fence.is_signalled,
            is_hanging,
            is_shown: !tracker.ledger.is_unnumbered(&fence.key),
        })?;
        Ok(())
    }

    /// The name of a fence's file.
    fn name(&self, timeline: usize, key: &FenceKey) -> Result<Option<Name>, AllocError> {
        match self.timelines.get(timeline) {
            Some(timeline) => file_name(self.alloc, timeline.base, key),
            None => Ok(None),
        }
    }

    /// A fence of the timeline hangs.
    fn hang(&mut self, timeline: usize, place: usize) {
        if let Some(timeline) = self.timelines.get_mut(timeline) {
            if timeline.hangs_from.is_none() {
                timeline.hangs_from = Some(place);
            }
        }
    }

    /// The place of the lane's timeline, which gets one if it has none.
    fn timeline(&mut self, tracker: &Tracker, lane: Lane) -> Result<usize, AllocError> {
        if let Some(place) = self.by_lane.get(&lane) {
            return Ok(*place);
        }
        let place = self.timelines.len();
        let key = lane.timeline();
        let (_, raw) = tracker.names(&key);
        let base = self.names.name(self.alloc, key, raw)?;
        let timeline = ScriptTimeline {
            lane,
            name: lane_name(self.alloc, base, lane.context())?,
            base,
            points: 0,
            hangs_from: None,
            before: 0,
        };
        self.timelines.push(timeline)?;
        if self.by_lane.insert(lane, place).is_err() {
            return Err(AllocError);
        }
        Ok(place)
    }

    /// Leaves out all fences but those that hang, and the last of their timelines before them.
    fn choose_hanging(&mut self) {
        for back in 1..self.files.len().saturating_add(1) {
            let place = self.files.len().saturating_sub(back);
            if let Some(fence) = self.files.get_mut(place) {
                if let Some(timeline) = self.timelines.get_mut(fence.timeline) {
                    fence.is_shown = fence.is_shown && timeline.shows(place, fence.is_hanging);
                }
            }
        }
    }

    /// Numbers the fences that are signalled, in the order of their signals.
    fn number_signalled(&mut self, acts: &[TraceAct]) {
        for act in acts {
            if matches!(act.kind, ActKind::Signal) {
                self.number(act.fence);
            }
        }
    }

    /// Gives the fences that were not signalled the points after the last signalled one.
    fn number_the_rest(&mut self) {
        for place in 0..self.files.len() {
            self.number(place);
        }
    }

    /// Gives a fence that is shown the next point of its timeline, unless it has one.
    fn number(&mut self, place: usize) {
        let Some(fence) = self.files.get_mut(place) else {
            return;
        };
        if fence.is_shown && fence.point == 0 {
            if let Some(timeline) = self.timelines.get_mut(fence.timeline) {
                timeline.points = timeline.points.saturating_add(1);
                fence.point = timeline.points;
            }
        }
    }
}

impl ScriptTimeline {
    /// Whether a fence is shown of those that hang and the last ones before them. Later fences were asked about before.
    fn shows(&mut self, place: usize, is_hanging: bool) -> bool {
        if is_hanging {
            return true;
        }
        let Some(first) = self.hangs_from else {
            return false;
        };
        if place > first || self.before >= FENCES_BEFORE {
            return false;
        }
        self.before = self.before.saturating_add(1);
        true
    }
}

/// Whether a fence of the key hangs, and is a fence already: its driver has numbered it.
fn hangs(ledger: &Ledger, key: &FenceKey) -> bool
    ensures hangs { (steps : List Step) → IsLedgerOf ledger.now steps →
        result ≡ (hangs steps key.now && not (is_unnumbered steps key.now)) }
{
    ledger.hangs(key) && !ledger.is_unnumbered(key)
}

/// The lane of a fence. A context has a lane of its own if it has several points, or if a few contexts share a name, as the timelines
/// of a program do on `sw_sync`. All other contexts of a name share a lane, as those of merged fences.
fn lane_of(tracker: &Tracker, key: &FenceKey) -> Lane {
    let timeline = key.timeline_key();
    let contexts = tracker.ledger.timeline(&timeline).contexts;
    let has_several = tracker.ledger.contexts().has_several(key);
    if contexts > 1 && (has_several || are_timelines(tracker, &timeline, contexts)) {
        Lane::Context(key.context_key())
    } else {
        Lane::Timeline(timeline)
    }
}

/// Whether the contexts of that name are timelines, and not each of one fence.
fn are_timelines(tracker: &Tracker, timeline: &TimelineKey, contexts: u64) -> bool {
    let (_, name) = tracker.names(timeline);
    contexts <= SEPARATE_CONTEXTS && name != UNBOUND
}

/// The name of a timeline of the script, `NAME` or `NAME.CONTEXT`, if a script may have it.
fn lane_name(alloc: Global, base: Name, context: Option<u32>) -> Result<Option<Name>, AllocError>
    ensures name { IfOk result (λ name. IfSome name (λ n. n ≡ lane_name base context)) }
{
    let Some(context) = context else {
        return Ok(Some(base));
    };
    let mut name = Vec::new(alloc);
    let parts = [
        Part::Bytes(base.as_bytes()),
        Part::Text("."),
        Part::Number(u64::from(context)),
    ];
    push_parts(&mut name, &parts)?;
    Ok(Name::read(name.as_slice()))
}

/// The name of a fence's file, if a script may have it.
fn file_name(alloc: Global, base: Name, key: &FenceKey) -> Result<Option<Name>, AllocError>
    ensures name { IfOk result (λ name. IfSome name (λ n. n ≡ file_name base key.now.context key.now.seqno)) }
{
    let mut name = Vec::new(alloc);
    let parts = [
        Part::Bytes(base.as_bytes()),
        Part::Text("."),
        Part::Number(u64::from(key.context)),
        Part::Text("."),
        Part::Number(u64::from(key.seqno)),
    ];
    push_parts(&mut name, &parts)?;
    Ok(Name::read(name.as_slice()))
}
