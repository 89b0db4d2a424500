//! Runs a script: `line_core` parses its lines, `desk_core` answers them, and `report_core` prints the answers.
//!
//! `specs/Output.antt` defines the output of a script.
#![tactic(auto)]

mod answers;
mod reading;
mod totals;

pub use answers::{Answers, answer_line};
pub use line_core::{Body, Line, LineCutter, read_script};
pub use reading::engine;
pub use report_core::{done_line, print, refusal_line, value_line, write_many, write_out};
pub use totals::Totals;
