//! Named timelines, after libsync's sw_sync.
//!
//! A timeline has a name, a context by order of making, and a value that begins at 0 and only rises, until it is closed.
//! `laws` says that a value is the sum of the accepted increments, and that a closed timeline stays as it is.
#![tactic(auto)]

pub mod laws;
mod timelines;

pub use point_core::TimelineRow;
pub use timelines::Timelines;
