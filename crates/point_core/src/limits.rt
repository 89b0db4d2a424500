//! Limits that several crates share.

/// The most buffers. A buffer is never removed.
pub const BUFFERS: usize = 64;

const _: () = prove!(BUFFERS == 64);
