//! `Command` and `Answer`: the vocabulary shared by the parser, the desk and the printers. `desk_core` defines the
//! semantics.
#![tactic(auto)]

mod answer;
mod command;

pub use answer::{Answer, BufferRows, FenceRow, FileRow, Info, Maker, Report, ShowRow};
pub use command::{Command, Space};
