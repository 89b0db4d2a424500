//! Files and standard input for `fencectl`: opens scripts, lists folders, and replaces files atomically.
#![tactic(auto)]

mod file_bytes;
mod input;
mod listing;
mod prompt;

pub use file_bytes::{put_file, read_file, replace_file};
pub use input::{Input, STANDARD_INPUT, Source, reported};
pub use listing::script_files;
pub use prompt::Prompted;
