//! Text made of parts: numbers, times and names that are escaped. And pages, on which reports are put together as text or JSON.
//!
//! A text is a list of parts, so its contract is the list of their bytes; what the parts say is the caller's. The crates that write
//! traces, scripts and pictures call it. After a failure the beginning of a list may have been added.
#![tactic(auto)]

mod escape;
mod json_page;
pub mod laws;
mod number;
mod page;
mod part;

pub use escape::push_inert_byte;
pub use json_page::JsonPage;
pub use page::Page;
pub use part::{Part, push_parts};
