//! Buffers by name, as Linux's DMA buffers: each has a reservation, from which sync files are exported, and into which
//! they are imported.
//!
//! An export and an import take the kernel's sync flags. Each call changes only the buffer that it names.
#![tactic(auto)]

mod buffers;
mod flags;
mod laws;

pub use buffers::Buffers;
pub use flags::SyncFlags;
pub use laws::{
    an_export_lists_what_was_put_in, an_import_puts_in_what_a_file_stands_for,
    buffers_keep_what_is_put_in,
};
