//! Sync files by name, as Linux's `struct sync_file` and its merge.
//!
//! A file lists points by rising context, the normal form of all points that were ever put into it: both agree above
//! its floor.
#![tactic(auto)]

mod draft;
mod file_slots;
mod files;
mod merge;
mod running;
mod status;
mod sync_file;

pub use files::{FILES, Files};
pub use point_core::Status;
pub use status::{FenceInfo, FileInfo};
pub use sync_file::SyncFile;
