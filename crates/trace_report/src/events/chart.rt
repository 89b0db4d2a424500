//! `Chart`: the slices, arrows and marks of a trace's events, added to the page as they end. It handles the steps of a reading.
//! What it adds is tested (`tests/topics/trace-events`).
ghost use Rattle.std.specs.Prelude.{◌≡◌, ◌⊎◌, IfErr};
ghost use Rattle.point_core.specs.declared.refusal.Refusal.TheVariants.{Write as WriteFault, Memory};

use crate::events::event::{Losses, NamePair, Rule, TraceEvent};
use crate::events::page::EventPage;
use crate::events::rows::{RowPlace, Rows, Track, TrackRow, process_of_driver};
use crate::events::slice::{Slice, SliceKind};
use indexmap::{IndexMap, IndexSet};
use point_core::Refusal;
use std::alloc::{AllocError, Global};
use std::io::Write;
use std::mem;
use text_core::{Part, push_parts};
use trace_core::{
    Event, FenceKey, Next, Pending, PendingKind, StepHandler, TimelineKey, TrackedEvent, Tracker,
    pending_of,
};

/// The last signal of a fence that is not gone.
#[derive(Clone, Copy)]
struct LastSignal {
    row: TrackRow,
    time: u64,
}

/// Trace events, and what has to be known for the next ones.
#[derive(Drop)]
pub(crate) struct Chart {
    alloc: Global,
    page: EventPage,
    rows: Rows,
    // the first context of each timeline
    firsts: IndexMap<TimelineKey, u32>,
    // the processes that have a name
    processes: IndexSet<u64>,
    signals: IndexMap<FenceKey, LastSignal>,
    losses: Losses,
    // how many arrows there are
    flows: u64,
}

impl<W: Write> StepHandler<W> for Chart {
    ghost use Rattle.std.specs.Prelude.{◌≡◌, ◌⊎◌};
    ghost use Rattle.point_core.specs.declared.refusal.Refusal.TheVariants.{Write as WriteFault, Memory};

    ghost refuses = { λ e. (e ≡ WriteFault) ⊎ (e ≡ Memory) };

    fn handle(&mut self, tracker: &Tracker, next: Next, writer: &mut W) -> Result<(), Refusal> {
        match next {
            Next::Within(seen) => return self.write_event(tracker, &seen, writer),
            Next::Before(_) => self.losses = Losses::NONE,
            Next::Lost(events) => self.losses.add_line(events),
            Next::StartedLate => self.losses.add_late_buffer(),
            Next::Begin | Next::Other | Next::End => {}
        }
        Ok(())
    }
}

impl Chart {
    /// No event.
    pub(crate) fn new(alloc: Global) -> Chart {
        Chart {
            alloc,
            page: EventPage::new(alloc),
            rows: Rows::new(alloc),
            firsts: IndexMap::new(alloc),
            processes: IndexSet::new(alloc),
            signals: IndexMap::new(alloc),
            losses: Losses::NONE,
            flows: 0,
        }
    }

    fn write_event<W: Write>(
        &mut self,
        tracker: &Tracker,
        seen: &TrackedEvent,
        writer: &mut W,
    ) -> Result<(), Refusal>
        ensures refusals { IfErr result (λ e. (e ≡ WriteFault) ⊎ (e ≡ Memory)) }
    {
        self.add_losses(seen.event.time);
        self.add(tracker, seen)?;
        self.page.write_block(writer)
    }

    /// Adds what ends with an event that the tracker has.
    fn add(&mut self, tracker: &Tracker, seen: &TrackedEvent) -> Result<(), AllocError> {
        match seen.event.kind {
            Event::Signaled => self.signal(tracker, seen),
            Event::Destroy => self.destroy(tracker, seen),
            Event::WaitEnd => self.end_wait(tracker, seen),
            Event::Init | Event::Emit | Event::EnableSignal | Event::WaitStart => Ok(()),
        }
    }

    fn add_losses(&mut self, time: u64) {
        let losses = mem::replace(&mut self.losses, Losses::NONE);
        if !losses.are_none() {
            self.page.push(&TraceEvent::Lost(time, losses));
        }
    }

    /// A fence was signalled: its slice ends, and rules may be broken.
    fn signal(&mut self, tracker: &Tracker, seen: &TrackedEvent) -> Result<(), AllocError> {
        let slice = Slice::signalled(seen);
        let row = self.add_fence(tracker, &slice)?;
        let signal = LastSignal {
            row,
            time: slice.end,
        };
        if self.signals.insert(slice.key, signal).is_err() {
            return Err(AllocError);
        }
        if seen.found.overtaken {
            self.add_rule(tracker, Rule::Overtaken, &slice);
        }
        if seen.found.signalled_twice {
            self.add_rule(tracker, Rule::SignalledTwice, &slice);
        }
        Ok(())
    }

    fn add_rule(&mut self, tracker: &Tracker, rule: Rule, slice: &Slice) {
        let process = process_of_driver(slice.key.driver);
        let names = names_of(tracker, &slice.key);
        self.page
            .push(&TraceEvent::Broken(rule, process, *slice, names));
    }

    /// A fence was destroyed. The slice of a fence that is pending ends here. The signal of a fence that is gone is forgotten,
    /// since no wait for it can end any more.
    fn destroy(&mut self, tracker: &Tracker, seen: &TrackedEvent) -> Result<(), AllocError> {
        if tracker.ledger.life(&seen.event.key).is_over() {
            self.signals.swap_remove(&seen.event.key);
        }
        if seen.found.destroyed_pending {
            self.add_fence(tracker, &Slice::destroyed(seen))?;
        }
        Ok(())
    }

    /// A wait ended. An arrow leads to it from the signal of its fence, if that came during the wait.
    fn end_wait(&mut self, tracker: &Tracker, seen: &TrackedEvent) -> Result<(), AllocError> {
        let Some(wait) = seen.wait else {
            return Ok(());
        };
        let slice = Slice::waited(seen, &wait);
        let row = self.add_wait(tracker, seen.event.pid, wait.task.as_bytes(), &slice)?;
        if let Some(signal) = self.signal_within(&slice) {
            self.add_arrow(&signal, row, slice.end);
        }
        Ok(())
    }

    /// The last signal of the fence of a wait, if it came during the wait.
    fn signal_within(&self, slice: &Slice) -> Option<LastSignal> {
        let signal = *self.signals.get(&slice.key)?;
        if slice.begin <= signal.time && signal.time <= slice.end {
            Some(signal)
        } else {
            None
        }
    }

    fn add_arrow(&mut self, signal: &LastSignal, row: TrackRow, end: u64) {
        let number = self.flows;
        self.flows = self.flows.saturating_add(1);
        self.page
            .push(&TraceEvent::FlowBegin(signal.row, number, signal.time));
        self.page.push(&TraceEvent::FlowEnd(row, number, end));
    }

    /// Adds the slice of a fence; returns its row.
    fn add_fence(&mut self, tracker: &Tracker, slice: &Slice) -> Result<TrackRow, AllocError> {
        let track = self.track_of(tracker, &slice.key)?;
        let place = self.rows.place(track, slice.begin, slice.end)?;
        let names = names_of(tracker, &slice.key);
        if place.is_new {
            let name = track_name(self.alloc, track, &names)?;
            self.begin_row(names.driver, name.as_slice(), &place)?;
        }
        self.page.push(&TraceEvent::Slice(place.row, *slice, names));
        Ok(place.row)
    }

    /// Adds the slice of a wait of that task; returns its row.
    fn add_wait(
        &mut self,
        tracker: &Tracker,
        pid: u32,
        task: &[u8],
        slice: &Slice,
    ) -> Result<TrackRow, AllocError> {
        let place = self.rows.place(Track::Task(pid), slice.begin, slice.end)?;
        if place.is_new {
            self.begin_row(task, task, &place)?;
        }
        let names = names_of(tracker, &slice.key);
        self.page.push(&TraceEvent::Slice(place.row, *slice, names));
        Ok(place.row)
    }

    /// The track of a fence: its timeline, or its context, if that is not the first context of the timeline and has several
    /// points.
    fn track_of(&mut self, tracker: &Tracker, key: &FenceKey) -> Result<Track, AllocError> {
        let timeline = key.timeline_key();
        let Some(first) = self.firsts.get(&timeline) else {
            if self.firsts.insert(timeline, key.context).is_err() {
                return Err(AllocError);
            }
            return Ok(Track::Timeline(timeline));
        };
        if *first == key.context || !tracker.ledger.contexts().has_several(key) {
            return Ok(Track::Timeline(timeline));
        }
        Ok(Track::Context(key.context_key()))
    }

    /// Names a row, and its process if that has no name.
    fn begin_row(
        &mut self,
        process: &[u8],
        name: &[u8],
        place: &RowPlace,
    ) -> Result<(), AllocError> {
        let row = place.row;
        let Ok((_, is_new)) = self.processes.insert_full(row.process) else {
            return Err(AllocError);
        };
        if is_new {
            self.page.push(&TraceEvent::Process(row.process, process));
        }
        self.page.push(&TraceEvent::Thread(row, name));
        self.page.push(&TraceEvent::Order(row, place.track));
        Ok(())
    }

    /// Adds the losses since the last event, the pending fences, the unfinished waits and the end, at a time in microseconds, and
    /// writes all.
    pub(crate) fn finish<W: Write>(
        &mut self,
        tracker: &Tracker,
        time: u64,
        writer: &mut W,
    ) -> Result<(), Refusal>
        ensures refusals { IfErr result (λ e. (e ≡ WriteFault) ⊎ (e ≡ Memory)) }
    {
        self.add_losses(time);
        self.write_pending(tracker, time, writer)?;
        self.write_waits(tracker, time, writer)?;
        self.page.end(time);
        self.page.write(writer)
    }

    fn write_pending<W: Write>(
        &mut self,
        tracker: &Tracker,
        time: u64,
        writer: &mut W,
    ) -> Result<(), Refusal>
        ensures refusals { IfErr result (λ e. (e ≡ WriteFault) ⊎ (e ≡ Memory)) }
    {
        let pending = pending_of(self.alloc, &tracker.ledger)?;
        for fence in pending.as_slice() {
            self.add_pending(tracker, fence, time)?;
            self.page.write_block(writer)?;
        }
        Ok(())
    }

    /// Adds the slice of a fence that is pending, unless its driver has not numbered it.
    fn add_pending(
        &mut self,
        tracker: &Tracker,
        fence: &Pending,
        time: u64,
    ) -> Result<(), AllocError> {
        let kind = match fence.kind {
            PendingKind::Hang => SliceKind::Hang,
            PendingKind::Unknown => SliceKind::Unknown,
            PendingKind::Unnumbered => return Ok(()),
        };
        self.add_fence(tracker, &Slice::pending(kind, fence, time))?;
        Ok(())
    }

    /// Writes the slices of the waits that have not ended.
    fn write_waits<W: Write>(
        &mut self,
        tracker: &Tracker,
        time: u64,
        writer: &mut W,
    ) -> Result<(), Refusal>
        ensures refusals { IfErr result (λ e. (e ≡ WriteFault) ⊎ (e ≡ Memory)) }
    {
        for (_, wait) in tracker.waits.open().iter() {
            let slice = Slice::unfinished(wait, time);
            self.add_wait(tracker, wait.pid, wait.task.as_bytes(), &slice)?;
            self.page.write_block(writer)?;
        }
        Ok(())
    }
}

/// The name of the rows of fences: `TIMELINE`, or `TIMELINE context N`.
fn track_name(alloc: Global, track: Track, names: &NamePair<'_>) -> Result<Vec<u8>, AllocError> {
    let mut name = Vec::new(alloc);
    let timeline = Part::Bytes(names.timeline);
    let pushed = match track {
        Track::Context(key) => {
            let context = Part::Number(u64::from(key.context));
            push_parts(&mut name, &[timeline, Part::Text(" context "), context])
        }
        Track::Timeline(_) | Track::Task(_) => push_parts(&mut name, &[timeline]),
    };
    pushed?;
    Ok(name)
}

/// The names of the fence's driver and of its timeline.
fn names_of<'t>(tracker: &'t Tracker, key: &FenceKey) -> NamePair<'t> {
    let (driver, timeline) = tracker.names(&key.timeline_key());
    NamePair { driver, timeline }
}
