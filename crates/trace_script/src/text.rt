//! A script of a trace: reads the window, then writes what happened in it, line by line.
//!
//! The script is text, since it is what a user saves and runs. `ScriptsTrace` says only that it has lines of known forms and is
//! within the limit of scripts, unless the text has no events; which lines it has is tested. `fencectl trace --script` and
//! `--draw` call it.
ghost use Rattle.std.specs.Prelude.{◌≡◌, ◌≤◌, ◌⊎◌, ◌||◌, [], false, length, nat_lt, IfOk, IfErr, OnOk};
ghost use Rattle.line_core.specs.declared.script.TheConstants.{SCRIPT_BYTES};
ghost use Rattle.point_core.specs.declared.context.TheConstants.{CONTEXTS};
ghost use Rattle.point_core.specs.declared.refusal.Refusal.TheVariants.{Read as ReadFault, Memory};
ghost use Rattle.trace_core.specs.Tracker.{Tracks};
ghost use Rattle.trace_script.specs.Line.{AreLines, IsNamed, said};
ghost use Rattle.trace_script.specs.Scripted.{IsWritten, ScriptsTrace};

use crate::acts::{ActKind, Acts, TraceAct, Waiter};
use crate::line::{TraceLine, push_line};
use crate::timelines::{FenceFile, Lane, ScriptFences, Timelines};
use indexmap::IndexSet;
use line_core::SCRIPT_BYTES;
use point_core::{CONTEXTS, Name, Refusal};
use std::alloc::{AllocError, Global};
use std::io::Read;
use syncfile_core::FILES;
use trace_core::{Span, Tracker, for_each_step};

/// The result of a trace.
#[derive(Drop)]
pub enum Scripted {
    /// A script.
    Script(Vec<u8>),
    /// The text has no event of a fence up to the end of the window.
    NoEvents,
    /// The window has more timelines, files at a time, acts or bytes than a script may have, or a file whose name none may have.
    TooLong,
}

/// Reads a trace up to the end of a window, and gives what happened in the window as a script.
///
/// A timeline of the script is a context of the trace, or several contexts of one driver and name that have a point each, such as
/// merged fences. Its points number the fences from 1: signalled ones first, in the order of their signals, then the others. A file
/// is a fence, and is closed when the fence was destroyed. Fences that are pending when the window begins are made first, and a fence
/// that its driver has not numbered is left out. Notes have the times, the waits, and the end.
///
/// Each line should be accepted, and a file be pending at the end exactly if its fence is. No clause says so: tests run the
/// scripts of traces and compare what is pending (`tests/topics/traces`). The contract has only the form of each line and the
/// script's length.
///
/// Fails with `Read` if the reader fails, and with `Memory`. A text of more pieces than 64 bits count is refused with `Read`.
pub fn script_of_trace<R: Read>(
    alloc: Global,
    span: Span,
    chosen: ScriptFences,
    reader: &mut R,
) -> Result<Scripted, Refusal>
    ensures scripted { IfOk result (ScriptsTrace span (R.remaining reader.old) (R.remaining reader.new)) }
    ensures refusals { IfErr result (λ e. (e ≡ ReadFault) ⊎ (e ≡ Memory)) }
{
    let mut tracker = Tracker::new(alloc);
    let mut acts = Acts::new(alloc);
    script_of(alloc, span, chosen, &mut tracker, &mut acts, reader)
}

fn script_of<R: Read>(
    alloc: Global,
    span: Span,
    chosen: ScriptFences,
    tracker: &mut Tracker,
    acts: &mut Acts,
    reader: &mut R,
) -> Result<Scripted, Refusal>
    requires fresh { Tracks tracker.old [] [] }
    ensures scripted { IfOk result (ScriptsTrace span (R.remaining reader.old) (R.remaining reader.new)) }
    ensures refusals { IfErr result (λ e. (e ≡ ReadFault) ⊎ (e ≡ Memory)) }
{
    for_each_step(span, tracker, reader, acts, &mut ())?;
    if tracker.ledger.events() == 0 {
        return Ok(Scripted::NoEvents);
    }
    let mut timelines = Timelines::new(alloc);
    timelines.fill(tracker, acts, chosen)?;
    let recorded = Recorded {
        tracker,
        acts,
        timelines: &timelines,
        end: tracker.end(span),
    };
    let scripted = written(alloc, &recorded)?;
    Ok(scripted)
}

/// What was recorded up to the end of the window.
#[derive(Clone, Copy)]
struct Recorded<'a> {
    tracker: &'a Tracker,
    acts: &'a Acts,
    timelines: &'a Timelines,
    /// The last time of the window, in microseconds.
    end: u64,
}

fn written(alloc: Global, recorded: &Recorded<'_>) -> Result<Scripted, AllocError>
    ensures written { IfOk result IsWritten }
{
    let mut draft = ScriptDraft {
        alloc,
        bytes: Vec::new(alloc),
        timelines: IndexSet::new(alloc),
        files: 0,
        time: None,
        is_crowded: recorded.acts.are_too_many(),
    };
    draft.acts(recorded)?;
    draft.add(&TraceLine::End(recorded.end))?;
    if draft.is_too_long() {
        return Ok(Scripted::TooLong);
    }
    Ok(Scripted::Script(draft.bytes))
}

/// A script that is being written.
#[derive(Drop)]
struct ScriptDraft {
    alloc: Global,
    bytes: Vec<u8>,
    // the places of the timelines that it has made
    timelines: IndexSet<usize>,
    // how many of its files are open
    files: usize,
    // the time that the last note gives
    time: Option<u64>,
    // whether it had more files at a time, or acts, than a script may have, or a file whose name no script may have
    is_crowded: bool,
}

impl ScriptDraft {
    /// Whether it has more than a script may have.
    fn is_too_long(&self) -> bool
        ensures exceeds { result ≡ (self.now.is_crowded || nat_lt CONTEXTS (length self.now.timelines.keys)
            || nat_lt SCRIPT_BYTES (length self.now.bytes.items)) }
        ensures fits { result ≡ false → length self.now.bytes.items ≤ SCRIPT_BYTES }
    {
        self.is_crowded || self.timelines.len() > CONTEXTS || self.bytes.len() > SCRIPT_BYTES
    }

    /// Adds what happened, up to where it is too long.
    fn acts(&mut self, recorded: &Recorded<'_>) -> Result<(), AllocError>
        ensures lines { OnOk result (AreLines self.old.bytes.items → AreLines self.new.bytes.items) }
    {
        for act in recorded.acts.acts.as_slice() {
            if !self.is_too_long() {
                self.act(recorded, act)?;
            }
        }
        Ok(())
    }

    fn act(&mut self, recorded: &Recorded<'_>, act: &TraceAct) -> Result<(), AllocError>
        ensures lines { OnOk result (AreLines self.old.bytes.items → AreLines self.new.bytes.items) }
    {
        let Some(file) = recorded.timelines.files.get(act.fence) else {
            return Ok(());
        };
        if file.point == 0 {
            return Ok(());
        }
        let Some(timeline) = recorded.timelines.timelines.get(file.timeline) else {
            return Ok(());
        };
        let (Some(name), Some(timeline_name)) = (file.name, timeline.name) else {
            self.is_crowded = true;
            return Ok(());
        };
        self.note_time(act)?;
        self.act_of(
            recorded.tracker,
            act,
            &ScriptFile {
                file,
                name,
                lane: timeline.lane,
                timeline: timeline_name,
            },
        )
    }

    /// Adds a note on the time of a command, if it is another time than that of the note before. A note on a wait has the time.
    fn note_time(&mut self, act: &TraceAct) -> Result<(), AllocError>
        ensures lines { OnOk result (AreLines self.old.bytes.items → AreLines self.new.bytes.items) }
    {
        let is_known = self.time == act.time || act.kind.is_wait();
        self.time = act.time;
        match act.time {
            Some(time) if !is_known => self.add(&TraceLine::Time(time)),
            _ => Ok(()),
        }
    }

    fn act_of(
        &mut self,
        tracker: &Tracker,
        act: &TraceAct,
        fence: &ScriptFile<'_>,
    ) -> Result<(), AllocError>
        ensures lines { OnOk result (AreLines self.old.bytes.items → AreLines self.new.bytes.items) }
    {
        match act.kind {
            ActKind::Make => self.make(tracker, fence),
            ActKind::Signal => self.add(&TraceLine::Signal(fence.timeline.as_bytes())),
            ActKind::Close => {
                self.files = self.files.saturating_sub(1);
                self.add(&TraceLine::Close(fence.name.as_bytes()))
            }
            ActKind::Wait(waiter) => self.wait(act.time, &waiter, fence.name, false),
            ActKind::Waited(waiter) => self.wait(act.time, &waiter, fence.name, true),
        }
    }

    /// Makes the fence, and its timeline before it if there is none yet.
    fn make(&mut self, tracker: &Tracker, fence: &ScriptFile<'_>) -> Result<(), AllocError>
        ensures lines { OnOk result (AreLines self.old.bytes.items → AreLines self.new.bytes.items) }
    {
        self.make_timeline(tracker, fence)?;
        self.note_unsignalled(fence)?;
        self.files = self.files.saturating_add(1);
        self.is_crowded |= self.files > FILES;
        self.add(&TraceLine::Fence {
            file: fence.name.as_bytes(),
            timeline: fence.timeline.as_bytes(),
            point: fence.file.point,
        })
    }

    fn make_timeline(&mut self, tracker: &Tracker, fence: &ScriptFile<'_>) -> Result<(), AllocError>
        ensures lines { OnOk result (AreLines self.old.bytes.items → AreLines self.new.bytes.items) }
    {
        let Ok((_, is_new)) = self.timelines.insert_full(fence.file.timeline) else {
            return Err(AllocError);
        };
        if !is_new {
            return Ok(());
        }
        self.timeline(tracker, fence)
    }

    /// Adds a note on a fence that is not signalled up to the end.
    fn note_unsignalled(&mut self, fence: &ScriptFile<'_>) -> Result<(), AllocError>
        ensures lines { OnOk result (AreLines self.old.bytes.items → AreLines self.new.bytes.items) }
    {
        if fence.file.is_signalled {
            return Ok(());
        }
        self.add(&TraceLine::Unsignalled(fence.name.as_bytes()))
    }

    fn timeline(&mut self, tracker: &Tracker, fence: &ScriptFile<'_>) -> Result<(), AllocError>
        ensures lines { OnOk result (AreLines self.old.bytes.items → AreLines self.new.bytes.items) }
    {
        let (driver, raw) = tracker.names(&fence.lane.timeline());
        self.add(&TraceLine::Timeline {
            driver,
            raw,
            context: fence.lane.context(),
            name: fence.timeline.as_bytes(),
        })
    }

    /// Adds a note on a wait, which begins or is over.
    fn wait(
        &mut self,
        time: Option<u64>,
        waiter: &Waiter,
        name: Name,
        is_over: bool,
    ) -> Result<(), AllocError>
        ensures lines { OnOk result (AreLines self.old.bytes.items → AreLines self.new.bytes.items) }
    {
        self.add(&TraceLine::Wait {
            file: name.as_bytes(),
            task: waiter.task.as_bytes(),
            pid: waiter.pid,
            time: time.unwrap_or(0),
            is_over,
        })
    }

    fn add(&mut self, line: &TraceLine<'_>) -> Result<(), AllocError>
        ensures lines { OnOk result (IsNamed (said line.now) → AreLines self.old.bytes.items → AreLines self.new.bytes.items) }
    {
        push_line(&mut self.bytes, line)
    }
}

/// A fence, with its timeline and the name of its file.
#[derive(Clone, Copy)]
struct ScriptFile<'a> {
    file: &'a FenceFile,
    name: Name,
    lane: Lane,
    timeline: Name,
}
