//! A trace as trace events, the JSON that Perfetto opens, written while the trace is read.
//!
//! What a document says is tested by a strict reader (`tests/topics/trace-events`). `fencectl trace --perfetto` calls
//! `events_of_trace`.
ghost use Rattle.std.specs.Prelude.{◌≡◌, ◌⊎◌, [], IfOk, IfErr};
ghost use Rattle.point_core.specs.declared.refusal.Refusal.TheVariants.{Read as ReadFault, Write as WriteFault, Memory};
ghost use Rattle.trace_core.specs.Tracker.{Tracks};
ghost use Rattle.trace_report.specs.Events.{WritesTrace};

mod chart;
mod event;
mod page;
mod rows;
mod slice;

use chart::Chart;
use point_core::Refusal;
use std::alloc::Global;
use std::io::{Read, Write};
use trace_core::{Span, Tracker, for_each_step};

/// What was written of a trace.
#[derive(Clone, Copy)]
pub enum Written {
    /// A document of trace events.
    Document,
    /// Nothing, since the text has no event of a fence up to the end of the window.
    NoEvents,
}

/// Reads a trace up to the end of a window, and writes as trace events what ended in the window and what is pending at its
/// end. They are written while the text is read.
///
/// After a refusal a prefix of the events may have been written. A text of more pieces than 64 bits count is refused with
/// `Read`.
pub fn events_of_trace<R: Read, W: Write>(
    alloc: Global,
    span: Span,
    reader: &mut R,
    writer: &mut W,
) -> Result<Written, Refusal>
    ensures written { IfOk result (WritesTrace span (R.remaining reader.old) (R.remaining reader.new)) }
    ensures refusals { IfErr result (λ e. (e ≡ ReadFault) ⊎ (e ≡ WriteFault) ⊎ (e ≡ Memory)) }
{
    let mut chart = Chart::new(alloc);
    let mut tracker = Tracker::new(alloc);
    let written = write_trace(span, &mut tracker, &mut chart, reader, writer);
    drop(tracker);
    drop(chart);
    written
}

fn write_trace<R: Read, W: Write>(
    span: Span,
    tracker: &mut Tracker,
    chart: &mut Chart,
    reader: &mut R,
    writer: &mut W,
) -> Result<Written, Refusal>
    requires fresh { Tracks tracker.old [] [] }
    ensures written { IfOk result (WritesTrace span (R.remaining reader.old) (R.remaining reader.new)) }
    ensures refusals { IfErr result (λ e. (e ≡ ReadFault) ⊎ (e ≡ WriteFault) ⊎ (e ≡ Memory)) }
{
    for_each_step(span, tracker, reader, chart, writer)?;
    if tracker.ledger.events() == 0 {
        return Ok(Written::NoEvents);
    }
    let end = tracker.end(span);
    chart.finish(tracker, end, writer)?;
    Ok(Written::Document)
}
