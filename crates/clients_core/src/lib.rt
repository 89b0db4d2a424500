//! Clients on threads against shared buffers.
//!
//! A locked buffer has an invariant, which is known each time that its lock is taken: its entries agree above its floor
//! with all that was ever put.
#![tactic(auto)]

mod board;
mod client;
mod clients;
mod gate;
mod gathered_values;
mod locked_buffer;
mod locked_table;
mod own_puts;
mod planned_entries;
mod planned_tops;
mod plans;
mod raised_tops;
mod rounds;
mod workers;

pub use board::Board;
pub use clients::run_clients;
pub use gate::{Gate, OpenGate};
pub use locked_buffer::LockedBuffer;
pub use locked_table::LockedTable;
pub use plans::{ACTS, CLIENTS};
pub use rounds::{ROUND_ACTS, ROUND_BUFFERS, ROUNDS, plans_of_rounds};
