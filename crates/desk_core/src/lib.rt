//! The desk: one command in, one answer out, and a run over a list of commands.
//!
//! The accepted commands make a world (`specs/theorem/World.antt`), and nothing in its put sets is ever dropped, replaced or
//! compacted. The desk keeps less than its world, and answers as the world does.
#![tactic(auto)]

mod desk;
mod info;
pub mod laws;
mod report;
mod runs;

// The types in the signatures of `Desk`.
pub use command_core::{
    Answer, BufferRows, Command, FenceRow, FileRow, Info, Maker, Report, ShowRow,
};
pub use desk::Desk;
pub use runs::run;
