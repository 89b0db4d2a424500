//! Every schedule of a plan: which answers its lines can get, and whether it can get stuck.
//!
//! A plan is a list of lines for each client. A schedule says which client goes, one after another; each line is one
//! command of a desk. `specs/Schedule.antt` defines the schedules, and `specs/Alike.antt` the worlds that need not be told
//! apart.
#![tactic(auto)]

mod access;
mod best;
mod block;
mod choice;
mod chooser;
mod expects;
mod explorer;
mod flow;
mod found;
mod independence;
pub mod laws;
mod level;
mod list;
mod listing;
mod look;
mod nearing;
mod parts;
mod persistence;
mod plan;
mod position;
mod progress;
mod races;
mod rerun;
mod right_answer;
mod room;
mod search;
mod setup;
mod shortening;
mod shown;
mod state;
mod stretch;
mod table;
mod tour;
mod trial;
mod turns;
mod visit;

pub use access::Access;
pub use chooser::Orders;
pub use expects::Expects;
pub use explorer::{STATES, explore};
pub use found::{Found, Given, Race};
pub use list::SCHEDULED_CLIENTS;
pub use nearing::bring_stuck_near;
pub use plan::{Branch, Milestone, Plan, Step};
pub use position::{line_at, make};
pub use progress::{clear_made, count_to, place_of};
pub use right_answer::{RightAnswer, RightAnswers};
pub use search::Search;
