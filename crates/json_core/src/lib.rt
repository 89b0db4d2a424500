//! Answers as JSON: one object on a line for each answer.
#![tactic(auto)]

mod array;
mod members;
mod objects;
mod part;
mod reading;

pub use members::push_line;
pub use reading::run_json;
