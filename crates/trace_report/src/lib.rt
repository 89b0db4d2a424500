//! Reports of traces, as text or as JSON: the fences that hang, the tasks that wait, the rules that were broken, and what
//! each timeline did. And traces as trace events, the JSON that Perfetto and `chrome://tracing` open: each fence and each
//! wait is a slice of time, on a row of its driver or its task, and is written when its end is read.
//!
//! [`Tracker`](trace_core::Tracker) knows what the events mean; this crate only chooses and writes. `fencectl trace` calls it.
#![tactic(auto)]

mod by_timeline;
mod content;
mod document;
mod events;
mod found;
mod report;
mod text;

pub use events::{Written, events_of_trace};
pub use report::{ReportForm, TraceOutcome, report_trace};
