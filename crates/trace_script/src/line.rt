//! `TraceLine`: a line of the script, with its text by `specs/Line.antt`. `ScriptDraft` adds the lines in the order of the acts.
ghost use Rattle.std.specs.Prelude.{◌≡◌, ◌++◌, OnOk};
ghost use Rattle.trace_script.specs.Line.{context_noted, line_text, said, timeline_text, verb};

use crate::safe_names::front;
use std::alloc::AllocError;
use text_core::{Part, push_parts};

/// The bytes of a name that a note has, so that its line is short enough.
const NOTED_BYTES: usize = 64;

/// A line of a script. Names of files and timelines are the script's.
#[derive(Clone, Copy)]
pub(crate) enum TraceLine<'a> {
    /// A note: what follows happened at that time, in microseconds.
    Time(u64),
    /// A note with the names of a driver and a timeline, and its context if it is one of several; and the timeline of the script.
    Timeline {
        driver: &'a [u8],
        raw: &'a [u8],
        context: Option<u32>,
        name: &'a [u8],
    },
    /// A note: the fence is not signalled up to the end, so its point is none of the trace.
    Unsignalled(&'a [u8]),
    /// A fence of a timeline at that point.
    Fence {
        file: &'a [u8],
        timeline: &'a [u8],
        point: u64,
    },
    /// One more fence of the timeline of that name is signalled.
    Signal(&'a [u8]),
    /// A fence is destroyed.
    Close(&'a [u8]),
    /// A note: a task began to wait at that time, in microseconds, or its wait ended.
    Wait {
        file: &'a [u8],
        task: &'a [u8],
        pid: u32,
        time: u64,
        is_over: bool,
    },
    /// A note: the trace ends at that time.
    End(u64),
}

/// Adds the line.
pub(crate) fn push_line(text: &mut Vec<u8>, line: &TraceLine<'_>) -> Result<(), AllocError>
    ensures added { OnOk result (text.new.items ≡ text.old.items ++ line_text (said line.now)) }
{
    match line {
        TraceLine::Time(time) => push_parts(
            text,
            &[Part::Text("# "), Part::Seconds(*time), Part::Text("\n")],
        ),
        TraceLine::Timeline {
            driver,
            raw,
            context,
            name,
        } => push_timeline(text, driver, raw, *context, name),
        TraceLine::Unsignalled(file) => push_parts(
            text,
            &[
                Part::Text("# "),
                Part::Bytes(file),
                Part::Text(" is not signalled\n"),
            ],
        ),
        TraceLine::Fence {
            file,
            timeline,
            point,
        } => push_parts(
            text,
            &[
                Part::Text("fence "),
                Part::Bytes(file),
                Part::Text(" "),
                Part::Bytes(timeline),
                Part::Text(" "),
                Part::Number(*point),
                Part::Text("\n"),
            ],
        ),
        TraceLine::Signal(name) => push_parts(
            text,
            &[Part::Text("inc "), Part::Bytes(name), Part::Text(" 1\n")],
        ),
        TraceLine::Close(file) => push_parts(
            text,
            &[Part::Text("close "), Part::Bytes(file), Part::Text("\n")],
        ),
        TraceLine::Wait {
            file,
            task,
            pid,
            time,
            is_over,
        } => push_parts(
            text,
            &[
                Part::Text("# "),
                Part::Seconds(*time),
                Part::Text(" "),
                Part::Noted(front(task, NOTED_BYTES)),
                Part::Text("-"),
                Part::Number(u64::from(*pid)),
                Part::Text(verb(*is_over)),
                Part::Bytes(file),
                Part::Text("\n"),
            ],
        ),
        TraceLine::End(time) => push_parts(
            text,
            &[Part::Text("# "), Part::Seconds(*time), Part::Text(" end\n")],
        ),
    }
}

fn push_timeline<'a>(
    text: &mut Vec<u8>,
    driver: &'a [u8],
    raw: &'a [u8],
    context: Option<u32>,
    name: &'a [u8],
) -> Result<(), AllocError>
    ensures added { OnOk result (text.new.items ≡
        text.old.items ++ timeline_text driver.now raw.now context name.now) }
{
    push_parts(
        text,
        &[
            Part::Text("# "),
            Part::Noted(front(driver, NOTED_BYTES)),
            Part::Text("/"),
            Part::Noted(front(raw, NOTED_BYTES)),
        ],
    )?;
    push_context(text, context)?;
    push_parts(
        text,
        &[
            Part::Text("\ntimeline "),
            Part::Bytes(name),
            Part::Text("\n"),
        ],
    )
}

/// Adds which context of several it is.
fn push_context(text: &mut Vec<u8>, context: Option<u32>) -> Result<(), AllocError>
    ensures added { OnOk result (text.new.items ≡ text.old.items ++ context_noted context) }
{
    match context {
        Some(context) => push_parts(
            text,
            &[Part::Text(" context "), Part::Number(u64::from(context))],
        ),
        None => push_parts(text, &[]),
    }
}

/// What the note on a wait says of its task.
fn verb(is_over: bool) -> &'static str
    ensures verb { result.now ≡ verb is_over }
{
    if is_over {
        " waited for "
    } else {
        " waits for "
    }
}
