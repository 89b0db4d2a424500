//! `Record`: one `dma_fence` event of a trace. `laws::records_as_printed` says that it is read exactly as the kernel prints it.
ghost use Rattle.std.specs.Prelude.{◌≡◌, option_map};
ghost use Rattle.trace_core.specs.Header.{header_from};
ghost use Rattle.trace_core.specs.Record.{record_of, record_from, record_with, printed};

use crate::event::{Event, event_at};
use crate::fields::fields_of;
use crate::header::{Header, header_of};

/// One `dma_fence` event, as the kernel printed it. Names are raw bytes without NUL; a line feed may be among them.
#[derive(Clone, Copy)]
pub struct Record<'a> {
    /// The task's name, without the blanks around it. The kernel prints `<...>` for a name that it forgot.
    pub task: &'a [u8],
    pub pid: u32,
    pub cpu: u32,
    /// Microseconds of the trace's clock.
    pub time: u64,
    pub event: Event,
    pub driver: &'a [u8],
    pub timeline: &'a [u8],
    /// The lower 32 bits of the fence's context, which are all that the kernel prints.
    pub context: u32,
    /// The lower 32 bits of the fence's seqno.
    pub seqno: u32,
}

/// The record that the piece is, or none if it is no record of a `dma_fence` event. A record with a number that is too great is
/// none.
#[tactic(auto, unfolding(crate::specs::Record::record_of))]
pub fn record_of(piece: &[u8]) -> Option<Record<'_>>
    ensures record { option_map printed result ≡ record_of piece.now }
{
    record_from(header_of(piece)?)
}

/// The record of a header, if a `dma_fence` event follows it.
#[tactic(auto, unfolding(crate::specs::Record::record_from))]
fn record_from(header: Header<'_>) -> Option<Record<'_>>
    ensures record { option_map printed result ≡ record_from (header_from header.entry) }
{
    let (event, text) = event_at(header.text)?;
    record_with(header, event, text)
}

/// The record of a header and an event, if the text has the fields of one.
#[inline(always)]
#[tactic(auto, unfolding(crate::specs::Record::record_with))]
pub(crate) fn record_with<'a>(
    header: Header<'a>,
    event: Event,
    text: &'a [u8],
) -> Option<Record<'a>>
    ensures record { option_map printed result ≡ record_with (header_from header.entry) event text.now }
{
    let fields = fields_of(text)?;
    Some(Record {
        task: header.task,
        pid: header.pid,
        cpu: header.cpu,
        time: header.time,
        event,
        driver: fields.driver,
        timeline: fields.timeline,
        context: fields.context,
        seqno: fields.seqno,
    })
}
