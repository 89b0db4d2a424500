//! Fences, arrays of fences, watches on them, and fences that threads share, as Linux's `dma_fence`,
//! `dma_fence_array` and `dma_fence_add_callback`.
//!
//! A watch is called once, by the first rise of the timelines after which all of its fence is signalled. Of the threads
//! that find a shared fence reached, one takes its callbacks.
#![tactic(auto)]

mod callback_list;
mod fence;
mod laws;
mod shared_fence;
mod watches;

pub use callback_list::{CALLBACKS, CallbackList};
pub use fence::{Fence, FenceArray};
pub use laws::a_watch_fires_once;
pub use shared_fence::{SharedFence, Signal};
pub use watches::{WATCHES, WATCHES_EVER, Watches};
