//! `fencectl trace`: reports what hangs in a trace, or writes its events as a script, a picture or trace events.
ghost use Rattle.std.specs.Prelude.{◌≡◌, IfOk};
ghost use Rattle.fencectl_core.specs.Verdicts.{IsScriptStatus, outcome_status, written_status};

use crate::action::Trace;
use crate::drawing::{draw_trace, report_mistake, write_document};
use crate::fault::FAULT;
use crate::status::{ACCEPTED, REFUSED};
use point_core::Refusal;
use source_core::{Input, Source};
use std::io::Read;
use trace_core::Span;
use trace_report::{ReportForm, TraceOutcome, Written, events_of_trace, report_trace};
use trace_script::{ScriptFences, Scripted, script_of_trace};

/// The report on a text without an event of a fence.
const NO_EVENTS: &str = "\
fencectl: there is no dma_fence event in the text. To record them, as root:
  echo 1 > /sys/kernel/tracing/events/dma_fence/enable
  cat /sys/kernel/tracing/trace_pipe > FILE
  echo 0 > /sys/kernel/tracing/events/dma_fence/enable
";

/// The first bytes of files that tools write around a text, and of a text that bimphlai-run writes.
const TRACE_CMD: &[u8] = b"\x17\x08\x44tracing";

const GZIP: &[u8] = b"\x1f\x8b";

const RECORDED: &[u8] = b"# tracer: nop\n# recorded by bimphlai-run\n";

/// How many of the first bytes are looked at.
const START_BYTES: usize = 64;

/// The reports on files that begin so and have no event.
const BINARY: &str =
    "fencectl: this is trace-cmd's binary file: trace-cmd report FILE prints its text\n";

const COMPRESSED: &str = "fencectl: this file is compressed: gzip -dc FILE prints its text\n";

const NO_FENCE: &str = "fencectl: the program that bimphlai-run recorded made no fence\n";

/// The report on a text without one up to the end of the window.
const NO_EVENTS_YET: &str = "fencectl: there is no dma_fence event in the text up to --to";

const TOO_LONG: &str = "\
fencectl: what happened has more than a script may have: 256 timelines, 1,024 files at a time and 1,048,576 bytes; choose a \
window with --from and --to";

const ONE_FORM: &str =
    "fencectl: --json, --script, --draw and --perfetto each ask for another form";

const NO_OUTPUT: &str = "fencectl: --output goes with --script or --draw";

const NO_HANGS: &str = "fencectl: --hangs goes with --script or --draw";

const NO_TIMES: &str =
    "fencectl: --from and --to take seconds with up to six decimals, the first not after the second";

/// Reads a trace, and prints the report, or what happened as a script, a picture or trace events. Options that don't fit are
/// reported, with the status of a fault.
pub(crate) fn trace(rt: &HostRuntime, asked: &Trace<'_>) -> Result<u8, Refusal> {
    if let Some(mistake) = mistake_in(asked) {
        return report_mistake(rt, mistake);
    }
    match Span::read(asked.from, asked.to) {
        Some(span) => trace_within(rt, asked, span),
        None => report_mistake(rt, NO_TIMES),
    }
}

fn trace_within(rt: &HostRuntime, asked: &Trace<'_>, span: Span) -> Result<u8, Refusal> {
    if asked.is_perfetto {
        events_within(rt, asked, span)
    } else if asked.is_script || asked.is_drawing {
        script_within(rt, asked, span)
    } else {
        report(rt, asked, span)
    }
}

/// What is wrong with the options together, if anything is.
fn mistake_in(asked: &Trace<'_>) -> Option<&'static str> {
    let has_script = asked.is_script || asked.is_drawing;
    if has_several_forms(asked) {
        Some(ONE_FORM)
    } else if asked.output.is_some() && !has_script {
        Some(NO_OUTPUT)
    } else if asked.is_hanging && !has_script {
        Some(NO_HANGS)
    } else {
        None
    }
}

fn has_several_forms(asked: &Trace<'_>) -> bool {
    (asked.is_json && (asked.is_script || asked.is_drawing || asked.is_perfetto))
        || (asked.is_script && (asked.is_drawing || asked.is_perfetto))
        || (asked.is_drawing && asked.is_perfetto)
}

/// Writes what happened as trace events. Gives 0, or 2 if the text has no event of a fence, which is reported on standard error.
fn events_within(rt: &HostRuntime, asked: &Trace<'_>, span: Span) -> Result<u8, Refusal> {
    let mut source = Source::open(rt, asked.text, rt.stdin())?;
    let written = events_of_trace(rt.alloc(), span, &mut source, &mut rt.stdout())?;
    status_of_written(rt, asked, written)
}

fn status_of_written(rt: &HostRuntime, asked: &Trace<'_>, written: Written) -> Result<u8, Refusal>
    ensures status { IfOk result (λ status. status ≡ written_status written) }
{
    match written {
        Written::Document => Ok(ACCEPTED),
        Written::NoEvents => report_none(rt, asked),
    }
}

/// Writes what happened as a script, or draws it. Gives 0, or 2 if the text has no event of a fence or more than a script may have,
/// which is reported on standard error.
fn script_within(rt: &HostRuntime, asked: &Trace<'_>, span: Span) -> Result<u8, Refusal> {
    let mut source = Source::open(rt, asked.text, rt.stdin())?;
    let scripted = script_of_trace(rt.alloc(), span, fences_of(asked), &mut source)?;
    write_script(rt, asked, &scripted)
}

/// Which fences the script has.
fn fences_of(asked: &Trace<'_>) -> ScriptFences {
    if asked.is_hanging {
        ScriptFences::Hanging
    } else {
        ScriptFences::All
    }
}

fn write_script(rt: &HostRuntime, asked: &Trace<'_>, scripted: &Scripted) -> Result<u8, Refusal>
    ensures status { IfOk result (IsScriptStatus asked.now.is_drawing scripted.now) }
{
    match scripted {
        Scripted::Script(text) => {
            if asked.is_drawing {
                draw_trace(rt, asked.output, text.as_slice(), asked.from.is_some())
            } else {
                write_document(rt, asked.output, text.as_slice(), ACCEPTED)
            }
        }
        Scripted::NoEvents => report_none(rt, asked),
        Scripted::TooLong => report_mistake(rt, TOO_LONG),
    }
}

/// Reports that there is no event, in the text or up to the end of the window.
fn report_none(rt: &HostRuntime, asked: &Trace<'_>) -> Result<u8, Refusal>
    ensures status { IfOk result (λ status. status ≡ 2) }
{
    if asked.to.is_some() {
        return report_mistake(rt, NO_EVENTS_YET);
    }
    let reason = reason_of(rt, asked.text)?;
    eprint!(rt; "{reason}").map_err(|_| Refusal::Write)?;
    Ok(FAULT)
}

/// Why the text has no event, by its first bytes. Standard input is read, so only a file is looked at again.
fn reason_of(rt: &HostRuntime, text: Input<'_>) -> Result<&'static str, Refusal> {
    let mut start = [0; START_BYTES];
    let mut source = Source::open(rt, text, rt.stdin())?;
    match source.read(&mut start) {
        Ok(_) => Ok(reason_for(&start)),
        Err(_) => Err(Refusal::Read),
    }
}

fn reason_for(start: &[u8]) -> &'static str {
    if start.starts_with(TRACE_CMD) {
        BINARY
    } else if start.starts_with(GZIP) {
        COMPRESSED
    } else if start.starts_with(RECORDED) {
        NO_FENCE
    } else {
        NO_EVENTS
    }
}

/// Prints the report. Gives 0 if nothing hangs and no rule is broken, 1 if something does, and 2 if the text has no event
/// of a fence, which is reported on standard error.
fn report(rt: &HostRuntime, asked: &Trace<'_>, span: Span) -> Result<u8, Refusal> {
    let mut source = Source::open(rt, asked.text, rt.stdin())?;
    let form = form_of(asked.is_json);
    let outcome = report_trace(rt.alloc(), form, span, &mut source, &mut rt.stdout())?;
    status_of_outcome(rt, asked, outcome)
}

fn form_of(is_json: bool) -> ReportForm {
    if is_json {
        ReportForm::Json
    } else {
        ReportForm::Text
    }
}

fn status_of_outcome(
    rt: &HostRuntime,
    asked: &Trace<'_>,
    outcome: TraceOutcome,
) -> Result<u8, Refusal>
    ensures status { IfOk result (λ status. status ≡ outcome_status outcome) }
{
    match outcome {
        TraceOutcome::Sound => Ok(ACCEPTED),
        TraceOutcome::Broken => Ok(REFUSED),
        TraceOutcome::NoEvents => report_none(rt, asked),
    }
}
