//! Tests without threads: lists of points, refusals, fences, callbacks, reservations, buffers, and a device.
#![tactic(auto)]

#[cfg(test)]
mod tests;
