//! Scripts that carry what they expect: the answers of a script's lines, beside its notes on them.
//!
//! What a note expects, and when an answer is as expected, is defined by functions of the bytes (`specs/`).
#![tactic(auto)]

mod asked;
mod checker;
mod expected;
mod finding;
mod form;
mod items;
mod kept;
mod outcome;
mod parts;
mod reading;
mod reporting;
mod rewriter;
mod script_checker;
mod script_text;
mod scripts;
mod sink;
mod slip;
mod stage;
mod summary;
mod tally;
mod tap;
mod update;
mod updates;

pub use form::{CheckForm, CheckPlace};
pub use outcome::{CheckOutcome, Verdict};
pub use reading::check;
pub use scripts::{CheckOptions, check_scripts};
pub use tally::CheckTally;
pub use update::updated;
pub use updates::update_scripts;
