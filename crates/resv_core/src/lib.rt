//! Reservations: the table of fences of one buffer, as Linux's `dma_resv`.
//!
//! A table may drop and replace entries freely, as long as it agrees above the reach with all that was added.
#![tactic(auto)]

mod kept_tops;
mod laws;
mod plan;
mod resv;
mod shared_table;
mod top_table;
mod tops;

pub use laws::{
    a_table_agrees_with_all_that_was_added, a_trimmed_table_has_one_entry_of_each_usage,
    tables_that_agree_show_the_same,
};
pub use plan::{Act, Plan, Round, Settled};
pub use resv::{PLACES, PLACES_PER_CONTEXT, Resv};
pub use shared_table::SharedTable;
pub use top_table::TopTable;
pub use tops::Tops;
