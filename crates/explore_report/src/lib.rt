//! Reads plans for `explore_core`, and reports what is found of them: as text, as JSON, and as scripts of schedules.
//!
//! A plan is a script whose notes mark the clients. `specs/Plan.antt` defines the plan that a script's lines make.
//! `fencectl explore` calls this crate.
#![tactic(auto)]

mod accesses;
mod case;
mod cause;
mod context;
mod expected;
mod filling;
mod finding;
pub mod laws;
mod line;
mod mark;
mod mistake;
mod need;
mod news;
mod objects;
mod plan_script;
mod purpose;
mod races;
mod report;
mod row;
mod schedule;
mod sections;
mod shortening;
mod text;
mod turn;
mod unrolling;
mod verb;
mod way;
mod why;
mod witness;
mod words;

pub use cause::{Cause, PLAN_CLIENTS, PLAN_LINES, PLAN_ROUNDS, REPEATED_LINES};
pub use context::{Above, Atomic, Context, Section};
pub use mark::Mark;
pub use mistake::Mistake;
pub use news::News;
pub use plan_script::{PlanScript, Reading};
pub use purpose::Purpose;
pub use report::{Outcome, Report, Wanted};
pub use row::Row;
pub use verb::Verb;
