//! Fences by number, with the kernel's lifetimes: timelines, sync files and buffers have numbers that rise and are never
//! reused, and memory follows what is alive. `bimphlai-run` and the C library serve their calls with it.
#![tactic(auto)]

mod buffer;
mod buffer_fence;
pub mod buffer_laws;
mod device;
mod errno;
mod fence;
mod file;
mod info;
pub mod laws;
mod merging;
mod naming;
mod request;
pub mod room;
mod runs;
mod serving;
mod signalling;
mod sync_flags;
mod text;
mod timelines;
mod waiting_files;
mod woken;

pub use buffer::Buffer;
pub use device::{Device, TableSizes};
pub use errno::Errno;
pub use fence::{Fence, Signal, Timeline, unwrapped};
pub use file::File;
pub use info::{FenceDriver, FenceInfo, FileInfo};
pub use request::{Reply, Request};
pub use runs::run;
pub use text::{TEXT_BYTES, Text};
