//! `Summary`: counts of a text's lines, losses and times. Only its end is proved (`end_in`), and all else is tested. `Tracker`
//! adds each piece, and the bytes that are in none.
ghost use Rattle.std.specs.Prelude.{◌≡◌, [], false, IfErr, OnOk};
ghost use Rattle.point_core.specs.declared.refusal.Refusal.TheVariants.{Memory};
ghost use Rattle.trace_core.specs.Item.{meaning_of};
ghost use Rattle.trace_core.specs.Summary.{end_in, end_with, reached};

use crate::item::TraceItem;
use crate::piece::Piece;
use point_core::Refusal;
use std::alloc::Global;

/// How many numbers of processors are kept whose buffers started late.
const LATE_BUFFERS: usize = 4096;

/// How many events the buffer had, how many were written to it, and how many processors there were, as a header says.
#[derive(Clone, Copy)]
pub struct Counts {
    pub in_buffer: u64,
    pub written: u64,
    pub processors: u32,
}

/// The times of a text's events of fences, in microseconds.
#[derive(Clone, Copy)]
pub struct TraceClock {
    pub first: u64,
    /// The greatest timestamp (not the last one: timestamps may go backwards).
    pub latest: u64,
    pub last: u64,
    /// How often a time was earlier than the one before.
    pub steps_back: u64,
}

/// Up to when a trace is known.
#[derive(Clone, Copy)]
pub struct TraceEnd {
    /// The greatest time of a record of any event, in microseconds, up to which a fence that hangs is known to be pending.
    pub latest: u64,
    /// Whether a record marks the end of the trace, so that it is known how long what hangs was pending.
    pub is_marked: bool,
}

impl TraceEnd {
    /// The end after a record, which marks the end of the trace or not.
    fn reached(self, time: u64, is_end: bool) -> TraceEnd
        ensures { result ≡ reached time is_end self }
    {
        TraceEnd {
            latest: self.latest.max(time),
            is_marked: self.is_marked || is_end,
        }
    }
}

/// What a text was made of.
#[derive(Drop)]
pub struct Summary {
    pub bytes: u64,
    pub lines: u64,
    /// Records of other events.
    pub others: u64,
    /// Lines that are no records and no notes.
    pub unread: u64,
    /// Records with a line feed in the timeline's name.
    pub over_lines: u64,
    /// Lines that say that events were lost.
    pub loss_markers: u64,
    /// How many events these lines say were lost.
    pub lost_events: u64,
    /// Lines that say that events were lost, and not how many.
    pub unnumbered_losses: u64,
    pub counts: Option<Counts>,
    /// The processors that lack all events before some time, since their buffers started late: the first `LATE_BUFFERS`, in the
    /// order of the text.
    pub late_buffers: Vec<u32>,
    pub clock: Option<TraceClock>,
    pub end: TraceEnd,
}

impl Summary {
    /// The summary of an empty text. Does not allocate.
    pub fn new(alloc: Global) -> Summary
        ensures end { result.end ≡ end_in [] }
    {
        Summary {
            bytes: 0,
            lines: 0,
            others: 0,
            unread: 0,
            over_lines: 0,
            loss_markers: 0,
            lost_events: 0,
            unnumbered_losses: 0,
            counts: None,
            late_buffers: Vec::new(alloc),
            clock: None,
            end: TraceEnd {
                latest: 0,
                is_marked: false,
            },
        }
    }

    /// Takes in a piece of the text.
    ///
    /// Fails only with `Memory`; then the piece may be counted in part.
    pub fn take(&mut self, piece: &Piece<'_>) -> Result<(), Refusal>
        ensures end { OnOk result (self.new.end ≡ end_with (meaning_of piece.now.item) self.old.end) }
        ensures memory { IfErr result (λ e. e ≡ Memory) }
    {
        self.add_bytes(piece.length);
        self.lines = self.lines.saturating_add(piece.lines as u64);
        match piece.item {
            TraceItem::Event(record) => self.record(record.time, piece.lines > 1),
            TraceItem::Other { time, is_end } => self.other(time, is_end),
            TraceItem::Unread => self.unread = self.unread.saturating_add(1),
            TraceItem::Lost { cpu: _, events } => self.lose(events),
            TraceItem::BufferStarted { cpu } => return self.start_late(cpu),
            TraceItem::Counts {
                in_buffer,
                written,
                processors,
            } => {
                self.counts = Some(Counts {
                    in_buffer,
                    written,
                    processors,
                });
            }
            TraceItem::Note => {}
        }
        Ok(())
    }

    /// Counts bytes of the text.
    pub fn add_bytes(&mut self, bytes: usize)
        ensures end { self.new.end ≡ self.old.end }
    {
        self.bytes = self.bytes.saturating_add(bytes as u64);
    }

    fn record(&mut self, time: u64, over_lines: bool)
        ensures end { self.new.end ≡ reached time false self.old.end }
    {
        self.end = self.end.reached(time, false);
        if over_lines {
            self.over_lines = self.over_lines.saturating_add(1);
        }
        self.clock = Some(match self.clock {
            None => TraceClock {
                first: time,
                latest: time,
                last: time,
                steps_back: 0,
            },
            Some(clock) => TraceClock {
                first: clock.first,
                latest: clock.latest.max(time),
                last: time,
                steps_back: if time < clock.last {
                    clock.steps_back.saturating_add(1)
                } else {
                    clock.steps_back
                },
            },
        });
    }

    fn other(&mut self, time: u64, is_end: bool)
        ensures end { self.new.end ≡ reached time is_end self.old.end }
    {
        self.others = self.others.saturating_add(1);
        self.end = self.end.reached(time, is_end);
    }

    fn lose(&mut self, events: Option<u64>)
        ensures end { self.new.end ≡ self.old.end }
    {
        self.loss_markers = self.loss_markers.saturating_add(1);
        match events {
            Some(events) => self.lost_events = self.lost_events.saturating_add(events),
            None => self.unnumbered_losses = self.unnumbered_losses.saturating_add(1),
        }
    }

    fn start_late(&mut self, cpu: u32) -> Result<(), Refusal>
        ensures end { self.new.end ≡ self.old.end }
        ensures memory { IfErr result (λ e. e ≡ Memory) }
    {
        if self.late_buffers.len() < LATE_BUFFERS {
            let Ok(()) = self.late_buffers.push(cpu) else {
                return Err(Refusal::Memory);
            };
        }
        Ok(())
    }
}
