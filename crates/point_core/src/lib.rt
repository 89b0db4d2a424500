//! Points of timelines, usages, reaches, and listings: the pending fences of a set, one for each context, which are its
//! normal form above a reach.
//!
//! All crates above share these types: a `Point` of a `Context`, an `Entry` of a reservation, the `Reach` of all
//! timelines, a `Listing` of pending points, and `Refusal`, the one list of errors. `laws` has the theorems about them.
#![tactic(auto)]

mod clocks;
mod context;
mod context_values;
mod entry;
mod floor;
mod items;
mod latest_points;
pub mod laws;
mod limits;
mod listing;
mod merging;
mod name;
mod reach;
mod refusal;
mod status;
mod timeline_row;

pub use clocks::{Clock, Clocks};
pub use context::{CONTEXTS, Context};
pub use entry::{Entry, Point, Usage, covers};
pub use floor::Floor;
pub use items::Items;
pub use latest_points::LatestPoints;
pub use limits::BUFFERS;
pub use listing::{Listing, TopRow, canon};
pub use merging::{merge_into, merged};
pub use name::{NAME_BYTES, Name};
pub use reach::{Reach, is_signalled};
pub use refusal::{LimitKind, Refusal};
pub use status::Status;
pub use timeline_row::TimelineRow;
