//! Explains why lines of a script were refused: the word at fault and a sentence, found by the line, the desk that refused
//! it, and the `Book` of lines that made each name. `explain` runs a script and explains it.
//!
//! Proved are its faults, that it begins with its line's number, and that it follows the answers of all lines up to its
//! own. No contract says more of an explanation: its texts are tested.
#![tactic(auto)]

mod book;
mod explainer;
mod look;
mod names;
mod operands;
mod reading;
mod refused;
mod syntax;

pub use book::Book;
pub use look::{NoteLook, NotePlace};
pub use reading::explain;
pub use refused::explain_command;
pub use syntax::explain_bad_line;
