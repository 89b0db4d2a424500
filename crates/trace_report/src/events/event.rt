//! `TraceEvent`: an object of the trace event format, which Perfetto reads. `EventPage` writes it.

use crate::events::rows::TrackRow;
use crate::events::slice::Slice;
use itoa::Buffer;
use text_core::JsonPage;
use trace_core::FenceKey;

/// The names of a driver and of its timeline.
#[derive(Clone, Copy)]
pub(crate) struct NamePair<'a> {
    pub(crate) driver: &'a [u8],
    pub(crate) timeline: &'a [u8],
}

/// A rule that was broken.
#[derive(Clone, Copy)]
pub(crate) enum Rule {
    /// Signalled after a later fence of its context, which was made after it.
    Overtaken,
    SignalledTwice,
}

impl Rule {
    fn name(self) -> &'static str {
        match self {
            Rule::Overtaken => "overtaken",
            Rule::SignalledTwice => "signalled twice",
        }
    }
}

/// What lines say of lost events, since the event before them.
#[derive(Clone, Copy)]
pub(crate) struct Losses {
    /// How many say that events were lost.
    pub(crate) lines: u64,
    /// How many events they say were lost.
    pub(crate) events: u64,
    /// How many say that all earlier events of a processor are missing.
    pub(crate) late_buffers: u64,
}

impl Losses {
    /// Nothing was lost.
    pub(crate) const NONE: Losses = Losses {
        lines: 0,
        events: 0,
        late_buffers: 0,
    };

    /// Whether no line says that events are missing.
    pub(crate) fn are_none(&self) -> bool {
        self.lines == 0 && self.late_buffers == 0
    }

    /// Adds a line that says that events were lost, and how many where it does.
    pub(crate) fn add_line(&mut self, events: Option<u64>) {
        self.lines = self.lines.saturating_add(1);
        self.events = self.events.saturating_add(events.unwrap_or(0));
    }

    /// Adds a line that says that all earlier events of a processor are missing.
    pub(crate) fn add_late_buffer(&mut self) {
        self.late_buffers = self.late_buffers.saturating_add(1);
    }
}

/// A trace event. Times are microseconds.
#[derive(Clone, Copy)]
pub(crate) enum TraceEvent<'a> {
    /// The name of a process.
    Process(u64, &'a [u8]),
    /// The name of a row.
    Thread(TrackRow, &'a [u8]),
    /// A row's place among the rows of its process.
    Order(TrackRow, u64),
    /// A fence or a wait.
    Slice(TrackRow, Slice, NamePair<'a>),
    /// The beginning of the arrow of that number, at a time within a slice of the row.
    FlowBegin(TrackRow, u64, u64),
    /// Its end, which binds to the slice that it is in.
    FlowEnd(TrackRow, u64, u64),
    /// A rule that the fence of a slice broke at its end, at the process of its driver.
    Broken(Rule, u64, Slice, NamePair<'a>),
    /// Lost events, and the time of what follows them.
    Lost(u64, Losses),
    /// The time at which the trace ends.
    End(u64),
}

impl TraceEvent<'_> {
    /// Adds the object. Its phase `ph` is M for a name, X for a slice, s and f for the ends of an arrow, and i for an instant.
    pub(crate) fn put(&self, page: &mut JsonPage) {
        page.begin_object();
        match self {
            TraceEvent::Process(process, name) => put_process(page, *process, name),
            TraceEvent::Thread(row, name) => put_thread(page, row, name),
            TraceEvent::Order(row, place) => put_order(page, row, *place),
            TraceEvent::Slice(row, slice, names) => put_slice(page, row, slice, names),
            TraceEvent::FlowBegin(row, number, time) => {
                page.strings("name cat ph", &["signal", "flow", "s"]);
                put_flow(page, row, *number, *time);
            }
            TraceEvent::FlowEnd(row, number, time) => {
                page.strings("name cat ph bp", &["signal", "flow", "f", "e"]);
                put_flow(page, row, *number, *time);
            }
            TraceEvent::Broken(rule, process, slice, names) => {
                put_broken(page, *rule, *process, slice, names);
            }
            TraceEvent::Lost(time, losses) => put_lost(page, *time, losses),
            TraceEvent::End(time) => put_instant(page, "end of the trace", "end", *time),
        }
        page.end_object();
    }
}

fn put_process(page: &mut JsonPage, process: u64, name: &[u8]) {
    page.strings("name ph", &["process_name", "M"]);
    page.numbers("pid tid", &[process, process]);
    put_name(page, name);
}

fn put_thread(page: &mut JsonPage, row: &TrackRow, name: &[u8]) {
    page.strings("name ph", &["thread_name", "M"]);
    page.numbers("pid tid", &[row.process, row.thread]);
    put_name(page, name);
}

fn put_name(page: &mut JsonPage, name: &[u8]) {
    page.object("args");
    page.lossy("name", name);
    page.end_object();
}

fn put_order(page: &mut JsonPage, row: &TrackRow, place: u64) {
    page.strings("name ph", &["thread_sort_index", "M"]);
    page.numbers("pid tid", &[row.process, row.thread]);
    page.object("args");
    page.numbers("sort_index", &[place]);
    page.end_object();
}

fn put_slice(page: &mut JsonPage, row: &TrackRow, slice: &Slice, names: &NamePair<'_>) {
    put_point(page, &slice.key);
    page.strings("cat ph", &[slice.kind.category(), "X"]);
    page.numbers(
        "ts dur pid tid",
        &[slice.begin, slice.length(), row.process, row.thread],
    );
    put_fence(page, &slice.key, names);
}

/// The name of a fence: its context and its seqno, as `120:31`.
fn put_point(page: &mut JsonPage, key: &FenceKey) {
    let mut context = Buffer::new();
    let mut seqno = Buffer::new();
    let text = [context.format(key.context), ":", seqno.format(key.seqno)];
    page.joined("name", &text);
}

fn put_fence(page: &mut JsonPage, key: &FenceKey, names: &NamePair<'_>) {
    page.object("args");
    page.lossy("driver", names.driver);
    page.lossy("timeline", names.timeline);
    page.numbers(
        "context seqno",
        &[u64::from(key.context), u64::from(key.seqno)],
    );
    page.end_object();
}

fn put_flow(page: &mut JsonPage, row: &TrackRow, number: u64, time: u64) {
    page.numbers("id ts pid tid", &[number, time, row.process, row.thread]);
}

/// An instant of a process.
fn put_broken(page: &mut JsonPage, rule: Rule, process: u64, slice: &Slice, names: &NamePair<'_>) {
    page.strings("name cat ph s", &[rule.name(), "broken", "i", "p"]);
    page.numbers("ts pid tid", &[slice.end, process, process]);
    put_fence(page, &slice.key, names);
}

fn put_lost(page: &mut JsonPage, time: u64, losses: &Losses) {
    put_instant(page, "events were lost", "lost", time);
    page.object("args");
    page.numbers(
        "lines events late_buffers",
        &[losses.lines, losses.events, losses.late_buffers],
    );
    page.end_object();
}

/// An instant of all processes.
fn put_instant(page: &mut JsonPage, name: &str, category: &str, time: u64) {
    page.strings("name cat ph s", &[name, category, "i", "g"]);
    page.numbers("ts pid tid", &[time, 0, 0]);
}
