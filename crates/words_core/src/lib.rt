//! Words that threads share, each under one rule, and seats, the thread tokens with which threads step on them.
//!
//! A thread steps with its own `Seat`, a fractional permission that keeps a ghost trace of its steps. The rule
//! (`plays.rt`) is an invariant of the words and all traces, which each step keeps whatever the schedule; from it a
//! seat infers what others can have done. No call waits.
#![tactic(auto)]

mod board;
mod clocks;
mod driver;
mod flags;
mod laws;
mod marks;
mod places;
mod plays;
mod seat;
mod trace;
mod values;
mod whole;
mod words;

pub use driver::Driver;
pub use flags::{Once, Won};
pub use laws::{
    an_entry_is_the_greatest_raise, each_word_has_a_kind, entries_lie_apart, no_word_is_won_twice,
    only_its_driver_changes_a_context, what_is_known_stays_known, what_is_settled_stays_so,
};
pub use seat::{PARTS, Seat};
pub use whole::Whole;
pub use words::{FLAGS, LINE_WORDS, USAGES, Words, WordsId};
