//! What `fencectl` does: its command line, and each of its subcommands, with its exit status.
//!
//! A library, so that `script_runner` and tests call parts of it. A trial build compiles only the functions that a program
//! calls, so `script_runner` starts fast.
#![tactic(auto)]

mod action;
mod arguments;
mod asked;
mod clients;
mod color;
mod drawing;
mod exploring;
mod fault;
mod meant;
mod no_plan;
mod paint;
mod progress;
mod prompt;
mod reasons;
mod run;
mod scripts;
mod start;
mod status;
mod subcommands;
mod traces;
mod unread_word;
mod usage;

pub use action::{Clients, Table};
pub use clients::{clients_report, report_clients};
pub use fault::{FAULT, tell_fault};
pub use run::run_script;
pub use start::perform;
pub use unread_word::report_unread_word;
