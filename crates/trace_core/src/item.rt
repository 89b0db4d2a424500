//! `TraceItem`: what a piece of the text is. `item_of` decides it by the piece's bytes only, as `specs/Piece.antt` defines it.
ghost use Rattle.std.specs.Prelude.{◌≡◌};
ghost use Rattle.trace_core.specs.Item.{meaning_of};
ghost use Rattle.trace_core.specs.Piece.{item_of, record_or_other};

use crate::event::event_at;
use crate::header::header_of;
use crate::loss::{lost, note};
use crate::record::{Record, record_with};
use crate::steps::{after, before};

/// The most bytes of a piece that is read. A longer line is unread, whatever it says.
pub const PIECE_BYTES: usize = 8192;

/// The event that marks the end of a trace, as a write to ftrace's `trace_marker` makes it. `bimphlai-run` ends its traces with it.
const END: &[u8] = b"tracing_mark_write: end of the trace";

/// What a piece of the text is: a line, or a record of a `dma_fence` event, which is several lines if a name holds line feeds.
#[derive(Clone, Copy)]
pub enum TraceItem<'a> {
    /// A record of a `dma_fence` event.
    Event(Record<'a>),
    /// A record of another event, which may mark the end of the trace.
    Other {
        time: u64,
        is_end: bool,
    },
    /// A line that is no record: a record of a `dma_fence` event that is cut, or has a number that is too great, too.
    Unread,
    /// Events of a processor were lost, and how many where that is known: `CPU:n [LOST m EVENTS]`, `CPU:n [LOST EVENTS]`.
    Lost {
        cpu: u32,
        events: Option<u64>,
    },
    /// All events of a processor before this line are missing: `##### CPU n buffer started ####`.
    BufferStarted {
        cpu: u32,
    },
    /// How many events are in the buffer, how many were written to it, and how many processors there are:
    /// `# entries-in-buffer/entries-written: a/b   #P:n`.
    Counts {
        in_buffer: u64,
        written: u64,
        processors: u32,
    },
    /// Any other line that begins with `#`.
    Note,
}

/// What the piece is.
#[tactic(auto, unfolding(crate::specs::Piece::item_of))]
pub fn item_of(piece: &[u8]) -> TraceItem<'_>
    ensures item { meaning_of result ≡ item_of piece.now }
{
    if piece.len() > PIECE_BYTES {
        return TraceItem::Unread;
    }
    if after(piece, b"#").is_some() {
        return note(piece);
    }
    match lost(piece) {
        Some((cpu, events)) => TraceItem::Lost { cpu, events },
        None => record_or_other(piece),
    }
}

#[tactic(auto, unfolding(crate::specs::Piece::record_or_other))]
fn record_or_other(piece: &[u8]) -> TraceItem<'_>
    ensures item { meaning_of result ≡ record_or_other piece.now }
{
    let Some(header) = header_of(piece) else {
        return TraceItem::Unread;
    };
    let Some((event, text)) = event_at(header.text) else {
        return TraceItem::Other {
            time: header.time,
            is_end: before(header.text, END).is_some(),
        };
    };
    match record_with(header, event, text) {
        Some(record) => TraceItem::Event(record),
        None => TraceItem::Unread,
    }
}
