//! Records a script's run for its picture: its history column by column, and the graph of waiters at its end.
//!
//! A drawing depends only on the desk and its answers. The explanations of refused lines are the caller's (`Explain`), so that
//! this crate does not depend on `reason_core`.
#![tactic(auto)]

mod asking;
mod drawing;
mod fitting;
mod graph;
mod hearing;
mod margin;
mod note;
mod remark;
mod run;
mod tasks;
mod texts;
mod waiting;
mod window;

pub use drawing::Drawing;
pub use note::{Explain, RefusedLine};
pub use run::{COLUMNS, Run, count_lines};
pub use window::Window;
