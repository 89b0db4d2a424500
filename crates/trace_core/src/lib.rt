//! Traces: the text that Linux's ftrace gives of its `dma_fence` events, and what its records say of fences.
//!
//! It reads the text of tracefs (`trace`, `trace_pipe`), of `trace-cmd report` and of `perf script`; `specs/` defines a record
//! by its bytes. [`Reading`] cuts a text into pieces, and hands them to a [`Tracker`], which keeps what is alive: the fences that
//! were made and not signalled, the waits, and what each timeline did. Each of the ledger's numbers is a fold over the events
//! (`specs/History.antt`). `trace_report` and `trace_script` call it.
#![tactic(auto)]

mod contexts;
mod delays;
mod event;
mod fence_event;
mod fields;
mod finding;
mod handler;
mod header;
mod item;
pub mod laws;
mod ledger;
mod life;
mod lives;
mod loss;
mod names;
mod number;
mod order;
mod pending;
mod piece;
mod pieces;
mod points;
mod reading;
mod record;
mod runs;
mod steps;
mod summary;
mod tally;
mod task;
mod timelines;
mod tracker;
mod waits;
mod window;

pub use contexts::{ContextState, Contexts, KEPT_CONTEXTS};
pub use delays::{Delay, Delays};
pub use event::Event;
pub use fence_event::{ContextKey, FenceEvent, FenceKey, TimelineKey};
pub use finding::Finding;
pub use handler::{StepHandler, for_each_step};
pub use item::{PIECE_BYTES, TraceItem, item_of};
pub use ledger::{Classified, Ledger};
pub use life::Life;
pub use lives::Lives;
pub use names::Names;
pub use order::Order;
pub use pending::{Pending, PendingKind, pending_of};
pub use piece::{Piece, RECORD_LINES};
pub use pieces::Pieces;
pub use points::Points;
pub use reading::{Next, Reading};
pub use record::{Record, record_of};
pub use summary::{Counts, Summary, TraceClock, TraceEnd};
pub use tally::{EventCounts, Tally};
pub use task::{TASK_BYTES, TaskName};
pub use timelines::TimelineTallies;
pub use tracker::{TrackedEvent, Tracker};
pub use waits::{LONGEST_WAITS, Wait, WaitKey, WaitSum, Waits};
pub use window::{Span, Stage};
