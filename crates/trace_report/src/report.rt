//! A report of a trace: reads it to its end, and writes it as text or as JSON. `ReportsTrace` says which outcome a trace has.
//! `fencectl trace` calls `report_trace`.
ghost use Rattle.std.specs.Prelude.{◌≡◌, ◌⊎◌, [], List, IfOk, IfErr};
ghost use Rattle.point_core.specs.declared.refusal.Refusal.TheVariants.{Read as ReadFault, Write as WriteFault, Memory};
ghost use Rattle.trace_core.specs.History.{Step, IsLedgerOf};
ghost use Rattle.trace_core.specs.Tracker.{Tracks};
ghost use Rattle.trace_report.specs.Found.{AreHangs};
ghost use Rattle.trace_report.specs.Report.{IsVerdict, ReportsTrace, is_sound};

use crate::by_timeline::ByTimeline;
use crate::content::Content;
use crate::document::document_of;
use crate::found::PendingFences;
use crate::text::text_of;
use point_core::Refusal;
use report_core::write_whole;
use std::alloc::Global;
use std::io::{Read, Write};
use trace_core::{Next, Pending, Span, StepHandler, Tally, Tracker, for_each_step};

/// How a report is written.
#[derive(Clone, Copy)]
pub enum ReportForm {
    Text,
    Json,
}

/// What a trace shows.
#[derive(Clone, Copy)]
pub enum TraceOutcome {
    /// Nothing hangs, and no rule is broken.
    Sound,
    /// A fence hangs, or a rule is broken.
    Broken,
    /// The text has no event of a fence. Nothing was written.
    NoEvents,
}

/// A report handles no step, since the tracker has all that it reports.
#[derive(Clone, Copy)]
struct NoHandler;

impl StepHandler<()> for NoHandler {
    ghost use Rattle.std.specs.Prelude.{◌≡◌};
    ghost use Rattle.point_core.specs.declared.refusal.Refusal.TheVariants.{Memory};

    ghost refuses = { λ e. e ≡ Memory };

    fn handle(&mut self, _tracker: &Tracker, _next: Next, _output: &mut ()) -> Result<(), Refusal> {
        Ok(())
    }
}

/// Reads a trace up to the end of a window, and writes the report. The window's beginning leaves nothing out: what was made before
/// it may hang in it.
///
/// Fails with `Read` or `Write` if the reader or the writer fails, and with `Memory`. After `Write` a prefix of the report may have
/// been written; after `Read` and `Memory` nothing was. A text of more pieces than 64 bits count is refused with `Read`.
pub fn report_trace<R: Read, W: Write>(
    alloc: Global,
    form: ReportForm,
    span: Span,
    reader: &mut R,
    writer: &mut W,
) -> Result<TraceOutcome, Refusal>
    // The verdict follows from the events of the text, and nothing is written of a text without one.
    ensures reported { IfOk result (ReportsTrace span (R.remaining reader.old) (R.remaining reader.new)
        (W.contents writer.old) (W.contents writer.new)) }
    ensures refusals { IfErr result (λ e. (e ≡ ReadFault) ⊎ (e ≡ WriteFault) ⊎ (e ≡ Memory)) }
{
    let mut tracker = Tracker::new(alloc);
    let outcome = read_and_report(alloc, form, span, &mut tracker, reader, writer);
    drop(tracker);
    outcome
}

fn read_and_report<R: Read, W: Write>(
    alloc: Global,
    form: ReportForm,
    span: Span,
    tracker: &mut Tracker,
    reader: &mut R,
    writer: &mut W,
) -> Result<TraceOutcome, Refusal>
    requires fresh { Tracks tracker.old [] [] }
    ensures reported { IfOk result (ReportsTrace span (R.remaining reader.old) (R.remaining reader.new)
        (W.contents writer.old) (W.contents writer.new)) }
    ensures refusals { IfErr result (λ e. (e ≡ ReadFault) ⊎ (e ≡ WriteFault) ⊎ (e ≡ Memory)) }
{
    for_each_step(span, tracker, reader, &mut NoHandler, &mut ())?;
    if tracker.ledger.events() == 0 {
        return Ok(TraceOutcome::NoEvents);
    }
    let found = PendingFences::new(alloc, &tracker.ledger)?;
    let end = tracker.end(span);
    let outcome = write_report(alloc, form, end, tracker, &found, writer);
    drop(found);
    outcome
}

fn write_report<W: Write>(
    alloc: Global,
    form: ReportForm,
    end: u64,
    tracker: &Tracker,
    found: &PendingFences,
    writer: &mut W,
) -> Result<TraceOutcome, Refusal>
    ensures verdict { IfOk result (λ outcome. (steps : List Step) → IsLedgerOf tracker.now.ledger steps →
        AreHangs steps found.now.hangs.items → IsVerdict steps outcome) }
    ensures refusals { IfErr result (λ e. (e ≡ WriteFault) ⊎ (e ≡ Memory)) }
{
    let report = report_of(alloc, form, end, tracker, found)?;
    write_whole(writer, report.as_slice())?;
    Ok(outcome_of(tracker, found))
}

/// The bytes of the report. It is made as a whole: it is as long as the lists of what is pending and the kept contexts, which
/// are in memory too.
fn report_of(
    alloc: Global,
    form: ReportForm,
    end: u64,
    tracker: &Tracker,
    found: &PendingFences,
) -> Result<Vec<u8>, Refusal>
    ensures memory { IfErr result (λ e. e ≡ Memory) }
{
    let hangs = ByTimeline::of(alloc, found.hangs.as_slice())?;
    let unknown = ByTimeline::of(alloc, found.unknown.as_slice())?;
    let content = Content {
        tracker,
        found,
        hangs: &hangs,
        unknown: &unknown,
        end,
    };
    let bytes = match form {
        ReportForm::Text => text_of(alloc, content)?,
        ReportForm::Json => document_of(alloc, content)?,
    };
    Ok(bytes)
}

/// The verdict on a trace that has events.
fn outcome_of(tracker: &Tracker, found: &PendingFences) -> TraceOutcome
    ensures verdict { (steps : List Step) → IsLedgerOf tracker.now.ledger steps → AreHangs steps found.now.hangs.items
        → IsVerdict steps result }
{
    let total = tracker.ledger.total();
    if is_sound(found.hangs.as_slice(), &total) {
        TraceOutcome::Sound
    } else {
        TraceOutcome::Broken
    }
}

/// Whether nothing hangs, and no rule is broken.
fn is_sound(hangs: &[Pending], total: &Tally) -> bool
    ensures { result ≡ is_sound hangs.now total.now }
{
    hangs.is_empty() && total.overtaken == 0 && total.signalled_twice == 0
}
