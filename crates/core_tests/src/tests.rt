//! The tests, and what they share (`values`).
mod buffers;
mod callbacks;
mod device;
mod fences;
mod listings;
mod refusals;
mod reservations;
mod values;
