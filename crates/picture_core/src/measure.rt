//! The width of texts, which are drawn with characters of equal width.

use crate::graph::Waiting;
use itoa::Buffer;
use point_core::Name;

/// The width of a character.
const CHARACTER: u64 = 7;

/// Microseconds of a second.
pub(crate) const SECOND: u64 = 1_000_000;

/// The number of characters of a number.
pub(crate) fn digits(number: u64) -> u64 {
    Buffer::new().format(number).len() as u64
}

pub(crate) fn name_length(name: &Name) -> u64 {
    name.as_bytes().len() as u64
}

/// The length of a text as `gpu 5: 3 to go`.
pub(crate) fn waiting_length(waiting: &Waiting) -> u64 {
    name_length(&waiting.timeline)
        .saturating_add(digits(waiting.point))
        .saturating_add(digits(waiting.to_go))
        .saturating_add(9)
}

/// The length of a time in seconds with three decimals.
pub(crate) fn time_length(time: u64) -> u64 {
    digits(time / SECOND).saturating_add(4)
}

/// The width of this many characters.
pub(crate) fn text_width(length: u64) -> u64 {
    length.saturating_mul(CHARACTER)
}
