//! The tests, and what they share: `seats`, `plans`, `table_plans` and `gates`.
mod closed_tables;
mod closing;
mod files;
mod gates;
mod plans;
mod runs;
mod seats;
mod settled;
mod shared_fences;
mod table_plans;
mod tables;
mod threads;
mod words;
mod wrapping;
