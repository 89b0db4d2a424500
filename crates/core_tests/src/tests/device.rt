//! Tests of a device's requests, with answers derived from Linux's sources.
mod answers;
mod buffers;
mod requests;
mod room;
