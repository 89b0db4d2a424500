//! A trace as a script: its fences are made, signalled and closed as they were in the kernel, within a window of time.
//!
//! The files that are pending at the script's end are the fences that are pending at the end of the window; this is tested, not
//! proved. `fencectl trace --script` calls it.
#![tactic(auto)]

mod acts;
pub mod laws;
mod line;
mod safe_names;
mod text;
mod timelines;

pub use text::{Scripted, script_of_trace};
pub use timelines::ScriptFences;
