//! Parses the lines of a script into commands, from a slice, byte by byte, or from a reader.
//!
//! `specs/` defines lines, words, names and numbers as functions of the bytes.
#![tactic(auto)]

mod command;
mod cutter;
mod handler;
pub mod laws;
mod line;
mod number;
mod prefix;
mod raw_line;
mod script;
mod script_lines;
mod table;
mod usages;
mod words;

pub use cutter::LineCutter;
pub use handler::{LineHandler, for_each_line};
pub use line::{Body, LINE_BYTES, Line, body_of};
pub use number::{DIGITS, is_number};
pub use prefix::{strip_prefix, without_spaces};
pub use raw_line::RawLine;
pub use script::{Ending, SCRIPT_BYTES, first_line, last_body, read_script};
pub use script_lines::ScriptLines;
pub use table::{CommandForm, Operand, command_form, commands};
pub use usages::{is_flags, is_usage};
