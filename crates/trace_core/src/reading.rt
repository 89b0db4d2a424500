//! `Reading`: a window of a trace, from a reader, step by step.
//!
//! Each step hands one piece to the tracker, and returns what it was. `HasRead` says which pieces were handed over so far; `next`
//! upholds it. `for_each_step` loops over the steps.
ghost use Rattle.std.specs.Prelude.{◌≡◌, ◌⊎◌, [], List, ℕ, Option, IfOk, IfErr};
ghost use Rattle.point_core.specs.declared.refusal.Refusal.TheVariants.{Read as ReadFault, Memory};
ghost use Rattle.trace_core.specs.Item.{Meaning, meaning_of};
ghost use Rattle.trace_core.specs.Pieces.{IsWaiting};
ghost use Rattle.trace_core.specs.Record.{Printed};
ghost use Rattle.trace_core.specs.Reading.{GetsAhead, GoesOn, HasRead, begins, event_at, is_end, loss_of, next_of, stage_with};
ghost use Rattle.trace_core.specs.Tracker.{Tracks};

use crate::item::TraceItem;
use crate::pieces::Pieces;
use crate::tracker::{TrackedEvent, Tracker};
use crate::window::{Span, Stage};
use point_core::Refusal;
use std::io::Read;

/// One step of a reading.
#[derive(Clone, Copy)]
pub enum Next {
    /// The window begins: what comes next is its first event, or its end.
    Begin,
    /// A line says that events were lost here, and how many where that is known.
    Lost(Option<u64>),
    /// A line says that all earlier events of a processor are missing.
    StartedLate,
    /// An event before the window.
    Before(TrackedEvent),
    /// An event of the window.
    Within(TrackedEvent),
    /// Another line, or more of the text.
    Other,
    /// The end of the window, or of the text.
    End,
}

impl Next {
    /// Whether nothing comes after it.
    pub fn is_end(&self) -> bool
        ensures { result ≡ is_end self.now }
    {
        matches!(self, Next::End)
    }
}

/// A trace from a reader, up to the end of a window. Each step takes in one piece, or reads once.
///
/// `next` gives `Begin` once, before the first event of the window and before `End`. Each other step passes a piece or reads on
/// (`GetsAhead`).
#[derive(Drop)]
pub struct Reading {
    pieces: Pieces,
    span: Span,
    stage: Stage,
    // whether `Begin` was given
    has_begun: bool,
}

impl Reading {
    /// Before the first read. Does not allocate.
    pub fn new(span: Span) -> Reading
        ensures none { (now : Option (List ℕ)) → (tracker : Tracker) →
            Tracks tracker [] [] → HasRead span result tracker now now [] [] }
    {
        Reading {
            pieces: Pieces::new(),
            span,
            stage: Stage::Before,
            has_begun: false,
        }
    }

    /// Takes the next piece of the text, which the tracker takes in, or reads more.
    ///
    /// After a refusal neither the reading nor the tracker is to be used further.
    pub fn next<R: Read>(&mut self, tracker: &mut Tracker, reader: &mut R) -> Result<Next, Refusal>
        ensures more { IfOk result (λ next. (span : Span) → (before : Option (List ℕ)) →
            (items : List Meaning) → (seen : List (TrackedEvent × Printed)) →
            HasRead span self.old tracker.old before (R.remaining reader.old) items seen →
            GoesOn span self.new tracker.new before (R.remaining reader.new) items seen next) }
        ensures ahead { IfOk result (GetsAhead self.old self.new (R.remaining reader.old) (R.remaining reader.new)) }
        ensures refusals { IfErr result (λ e. (e ≡ ReadFault) ⊎ (e ≡ Memory)) }
    {
        let Some(piece) = self.pieces.next() else {
            return self.read_on(tracker, reader);
        };
        let stage = stage_with(self.stage, self.span, &piece.item);
        if begins(stage, self.has_begun) {
            self.has_begun = true;
            return Ok(Next::Begin);
        }
        if stage.is_over() {
            return Ok(Next::End);
        }
        let seen = tracker.take(&piece)?;
        let next = next_of(stage, seen, &piece.item);
        let length = piece.length;
        self.stage = stage;
        self.pieces.pass(length);
        Ok(next)
    }

    /// Reads once, or ends with the text. The tracker counts the bytes that the read drops, since no piece has them.
    fn read_on<R: Read>(&mut self, tracker: &mut Tracker, reader: &mut R) -> Result<Next, Refusal>
        requires waiting { IsWaiting self.old.pieces }
        ensures more { IfOk result (λ next. (span : Span) → (before : Option (List ℕ)) →
            (items : List Meaning) → (seen : List (TrackedEvent × Printed)) →
            HasRead span self.old tracker.old before (R.remaining reader.old) items seen →
            GoesOn span self.new tracker.new before (R.remaining reader.new) items seen next) }
        ensures ahead { IfOk result (GetsAhead self.old self.new (R.remaining reader.old) (R.remaining reader.new)) }
        ensures refusals { IfErr result (λ e. (e ≡ ReadFault) ⊎ (e ≡ Memory)) }
    {
        if !self.pieces.is_whole() {
            let dropped = self.pieces.read(reader)?;
            tracker.count_dropped(dropped);
            return Ok(Next::Other);
        }
        if !self.has_begun {
            self.has_begun = true;
            return Ok(Next::Begin);
        }
        Ok(Next::End)
    }
}

/// The stage after the item; only events have a time.
fn stage_with(stage: Stage, span: Span, item: &TraceItem<'_>) -> Stage
    ensures { result ≡ stage_with stage span (meaning_of item.now) }
{
    match item {
        TraceItem::Event(record) => stage.after(span, record.time),
        TraceItem::Other { time: _, is_end: _ }
        | TraceItem::Unread
        | TraceItem::Lost { cpu: _, events: _ }
        | TraceItem::BufferStarted { cpu: _ }
        | TraceItem::Counts {
            in_buffer: _,
            written: _,
            processors: _,
        }
        | TraceItem::Note => stage,
    }
}

/// Whether the window begins at that stage, unless it has begun.
fn begins(stage: Stage, has_begun: bool) -> bool
    ensures { result ≡ begins stage has_begun }
{
    match stage {
        Stage::Before => false,
        Stage::Within | Stage::After => !has_begun,
    }
}

/// The step that an item makes, at the stage after the item.
fn next_of(stage: Stage, seen: Option<TrackedEvent>, item: &TraceItem<'_>) -> Next
    ensures { result ≡ next_of stage seen (meaning_of item.now) }
{
    match seen {
        Some(seen) => event_at(stage, seen),
        None => loss_of(item),
    }
}

fn event_at(stage: Stage, seen: TrackedEvent) -> Next
    ensures { result ≡ event_at stage seen }
{
    match stage {
        Stage::Before => Next::Before(seen),
        Stage::Within | Stage::After => Next::Within(seen),
    }
}

fn loss_of(item: &TraceItem<'_>) -> Next
    ensures { result ≡ loss_of (meaning_of item.now) }
{
    match item {
        TraceItem::Lost { cpu: _, events } => Next::Lost(*events),
        TraceItem::BufferStarted { cpu: _ } => Next::StartedLate,
        TraceItem::Event(_)
        | TraceItem::Other { time: _, is_end: _ }
        | TraceItem::Unread
        | TraceItem::Counts {
            in_buffer: _,
            written: _,
            processors: _,
        }
        | TraceItem::Note => Next::Other,
    }
}
