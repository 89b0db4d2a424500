//! `Tracker`: everything that a trace says of fences, piece by piece. `Tracks` relates it to the items of the text; `take` and
//! `count_dropped` uphold it, and only `Reading` calls them.
ghost use Rattle.std.specs.Prelude.{◌≡◌, List, [], ◌∷◌, ◌++◌, is_some, option_map, IfOk, IfErr, IfSome, OnOk};
ghost use Rattle.point_core.specs.declared.refusal.Refusal.TheVariants.{Memory};
ghost use Rattle.trace_core.specs.Item.{Meaning, meaning_of, Event as EventMeaning};
ghost use Rattle.trace_core.specs.Record.{Printed, printed};
ghost use Rattle.trace_core.specs.Names.{name_or_none};
ghost use Rattle.trace_core.specs.Tracker.{Follows, Keeps, Says, Tracks, given, is_event};
ghost use Rattle.trace_core.specs.Summary.{last_time};
ghost use Rattle.trace_core.specs.Waits.{AreOpen, IsWaitOf, Started, started_of, wait_by, waits_after};

use crate::delays::Delays;
use crate::event::Event;
use crate::fence_event::{FenceEvent, FenceKey, TimelineKey};
use crate::finding::Finding;
use crate::item::TraceItem;
use crate::ledger::{Classified, Ledger};
use crate::life::Life;
use crate::names::Names;
use crate::piece::Piece;
use crate::record::Record;
use crate::summary::Summary;
use crate::task::TaskName;
use crate::waits::{Wait, Waits};
use crate::window::Span;
use point_core::Refusal;
use std::alloc::Global;

/// An event of a fence, with its class.
#[derive(Clone, Copy)]
pub struct TrackedEvent {
    pub event: FenceEvent,
    /// The state of its key before it.
    pub life: Life,
    /// Its class.
    pub found: Finding,
    /// The wait that it begins, or the wait that it ends, if that began within the text.
    pub wait: Option<Wait>,
}

/// The state of a trace read so far.
#[derive(Drop)]
pub struct Tracker {
    pub summary: Summary,
    /// Interned names; keys hold their numbers.
    pub drivers: Names,
    pub timelines: Names,
    pub ledger: Ledger,
    pub waits: Waits,
    pub delays: Delays,
}

impl Tracker {
    /// A tracker before the first piece. Does not allocate.
    pub fn new(alloc: Global) -> Tracker
        ensures none { Tracks result [] [] }
    {
        Tracker {
            summary: Summary::new(alloc),
            drivers: Names::new(alloc),
            timelines: Names::new(alloc),
            ledger: Ledger::new(alloc),
            waits: Waits::new(alloc),
            delays: Delays::new(alloc),
        }
    }

    /// Records the next piece of the text; returns its event, or none if the piece is not the record of one.
    ///
    /// After `Memory` the tracker is not to be used further.
    pub fn take(&mut self, piece: &Piece<'_>) -> Result<Option<TrackedEvent>, Refusal>
        ensures more { IfOk result (λ seen. (items : List Meaning) → (earlier : List (TrackedEvent × Printed)) →
            Tracks self.old items earlier → Tracks self.new (meaning_of piece.now.item ∷ items)
            (given seen (meaning_of piece.now.item) ++ earlier)) }
        ensures events { IfOk result (λ seen. is_some seen ≡ is_event (meaning_of piece.now.item)) }
        ensures memory { IfErr result (λ e. e ≡ Memory) }
    {
        self.summary.take(piece)?;
        match &piece.item {
            TraceItem::Event(record) => return Ok(Some(self.see(record)?)),
            TraceItem::Lost { .. } | TraceItem::BufferStarted { .. } => self.ledger.lose(),
            TraceItem::Other { time: _, is_end: _ }
            | TraceItem::Unread
            | TraceItem::Counts {
                in_buffer: _,
                written: _,
                processors: _,
            }
            | TraceItem::Note => {}
        }
        Ok(None)
    }

    /// Counts the bytes that were dropped from a line that is too long.
    pub fn count_dropped(&mut self, bytes: usize)
        ensures tracks { (items : List Meaning) → (seen : List (TrackedEvent × Printed)) →
            Tracks self.old items seen → Tracks self.new items seen }
    {
        self.summary.add_bytes(bytes);
    }

    /// The last time of the window or of the text, in microseconds, up to which a fence that hangs is known to be pending.
    pub fn end(&self, span: Span) -> u64
        ensures end { (items : List Meaning) → (seen : List (TrackedEvent × Printed)) →
            Tracks self.now items seen → result ≡ last_time span items }
    {
        self.summary.end.latest.min(span.to)
    }

    /// The names of the timeline's driver and of the timeline, each empty if it was not seen.
    pub fn names(&self, key: &TimelineKey) -> (&[u8], &[u8])
        ensures driver { result.0.now ≡ name_or_none self.now.drivers key.now.driver }
        ensures timeline { result.1.now ≡ name_or_none self.now.timelines key.now.timeline }
    {
        let driver = self.drivers.name(key.driver).unwrap_or(b"");
        let timeline = self.timelines.name(key.timeline).unwrap_or(b"");
        (driver, timeline)
    }

    fn see(&mut self, raw: &Record<'_>) -> Result<TrackedEvent, Refusal>
        ensures seen { IfOk result (λ seen. (items : List Meaning) → (earlier : List (TrackedEvent × Printed)) →
            Follows self.old items earlier → Follows self.new (EventMeaning (printed raw.now) ∷ items)
            ((seen, printed raw.now) ∷ earlier)) }
        ensures summary { self.new.summary ≡ self.old.summary }
        ensures memory { IfErr result (λ e. e ≡ Memory) }
    {
        let event = self.fence_event(raw)?;
        let Classified { life, found } = self.ledger.see(&event)?;
        let wait = self.time(&event, life, raw.task)?;
        self.ledger.forget(&event, life);
        Ok(TrackedEvent {
            event,
            life,
            found,
            wait,
        })
    }

    /// The event, with its names by number.
    fn fence_event(&mut self, raw: &Record<'_>) -> Result<FenceEvent, Refusal>
        ensures says { IfOk result (λ e. Says self.new.drivers self.new.timelines e (printed raw.now)) }
        ensures drivers { Keeps self.old.drivers self.new.drivers }
        ensures timelines { Keeps self.old.timelines self.new.timelines }
        ensures ledger { self.new.ledger ≡ self.old.ledger }
        ensures waits { self.new.waits ≡ self.old.waits }
        ensures summary { self.new.summary ≡ self.old.summary }
        ensures memory { IfErr result (λ e. e ≡ Memory) }
    {
        let driver = self.drivers.number(raw.driver)?;
        let timeline = self.timelines.number(raw.timeline)?;
        Ok(FenceEvent {
            kind: raw.event,
            key: FenceKey {
                driver,
                timeline,
                context: raw.context,
                seqno: raw.seqno,
            },
            time: raw.time,
            pid: raw.pid,
        })
    }

    /// Updates waits and delays. `life` is the state of the event's key before it. Returns the wait that the event begins or ends.
    fn time(&mut self, event: &FenceEvent, life: Life, task: &[u8]) -> Result<Option<Wait>, Refusal>
        ensures drivers { self.new.drivers ≡ self.old.drivers }
        ensures timelines { self.new.timelines ≡ self.old.timelines }
        ensures ledger { self.new.ledger ≡ self.old.ledger }
        ensures wait { IfOk result (λ wait. IfSome wait (IsWaitOf event.now)) }
        ensures begun { IfOk result (λ wait. (waits : List Started) → AreOpen self.old.waits waits →
            option_map started_of wait ≡ wait_by event.now.kind event.now waits) }
        ensures waits { OnOk result ((waits : List Started) → AreOpen self.old.waits waits →
            AreOpen self.new.waits (waits_after event.now.kind event.now waits)) }
        ensures summary { self.new.summary ≡ self.old.summary }
        ensures memory { IfErr result (λ e. e ≡ Memory) }
    {
        match event.kind {
            Event::WaitStart => return Ok(Some(self.waits.start(event, TaskName::new(task))?)),
            Event::WaitEnd => return self.waits.end(event, life.is_pending()),
            Event::Signaled => {
                if life.pending > 0 {
                    let delay = event.time.saturating_sub(life.since);
                    self.delays.add(event.key.timeline_key(), delay)?;
                }
            }
            Event::Init | Event::Emit | Event::EnableSignal | Event::Destroy => {}
        }
        Ok(None)
    }
}
