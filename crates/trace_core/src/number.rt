//! Numbers of a line: decimal, of 32 or 64 bits, and times with decimals. A number that is too great gives None.
ghost use Rattle.std.specs.Prelude.{◌≡◌, ◌≤◌, ◌^◌, length, option_map};
ghost use Rattle.trace_core.specs.Number.{filled, fraction, microseconds, numeral, number_at, number_at_end, time_at, time_of, time_spelled};

use crate::runs::{Class, before_run, split_run};
use crate::steps::{after, before, part_at};

/// The decimals of a second that are read.
const DECIMALS: usize = 6;

/// A second in microseconds.
const SECOND: u64 = 1_000_000;

/// The number that the word spells: one decimal digit or more, leading zeros allowed, of at most 64 bits.
fn numeral(word: &[u8]) -> Option<u64>
    ensures value { result ≡ numeral (2 ^ 64) word.now }
{
    if word.is_empty() {
        return None;
    }
    let mut value: u64 = 0;
    for byte in word {
        if !byte.is_ascii_digit() {
            return None;
        }
        value = value.checked_mul(10)?.checked_add(u64::from(*byte - b'0'))?;
    }
    Some(value)
}

/// Reads a number of at most 32 bits.
#[tactic(auto, unfolding(crate::specs::Number::numeral))]
fn small_numeral(word: &[u8]) -> Option<u32>
    ensures value { result ≡ numeral (2 ^ 32) word.now }
{
    match u32::try_from(numeral(word)?) {
        Ok(value) => Some(value),
        Err(_) => None,
    }
}

/// The number of at most 32 bits that the bytes begin with, and the rest. None if there is none.
#[tactic(auto, unfolding(crate::specs::Number::number_at))]
pub(crate) fn number_at(bytes: &[u8]) -> Option<(u32, &[u8])>
    ensures value { option_map (λ n. (n.0, n.1.now)) result ≡ number_at (2 ^ 32) bytes.now }
{
    let (digits, rest) = split_run(bytes, Class::Digit);
    Some((small_numeral(digits)?, rest))
}

/// As `number_at`, of at most 64 bits.
#[tactic(auto, unfolding(crate::specs::Number::number_at))]
pub(crate) fn wide_number_at(bytes: &[u8]) -> Option<(u64, &[u8])>
    ensures value { option_map (λ n. (n.0, n.1.now)) result ≡ number_at (2 ^ 64) bytes.now }
{
    let (digits, rest) = split_run(bytes, Class::Digit);
    Some((numeral(digits)?, rest))
}

/// The bytes before the text and a number, if they end with these, and that number.
#[tactic(auto, unfolding(crate::specs::Number::number_at_end))]
pub(crate) fn number_at_end<'a>(bytes: &'a [u8], text: &[u8]) -> Option<(&'a [u8], u32)>
    ensures value { option_map (λ n. (n.0.now, n.1)) result ≡ number_at_end text.now bytes.now }
{
    let (front, digits) = bytes.split_at(before_run(bytes, Class::Digit));
    let front = before(front, text)?;
    Some((front, small_numeral(digits)?))
}

/// The time that the bytes begin with, in microseconds, and the rest: seconds with six decimals or more (a clock in nanoseconds
/// has nine). Decimals past the sixth are cut, and the rest begins after them. None for fewer, or if the time is too great.
#[tactic(auto, unfolding(crate::specs::Number::time_at))]
pub(crate) fn time_at(bytes: &[u8]) -> Option<(u64, &[u8])>
    ensures value { option_map (λ t. (t.0, t.1.now)) result ≡ time_at bytes.now }
{
    let (seconds, rest) = wide_number_at(bytes)?;
    let (decimals, rest) = split_run(after(rest, b".")?, Class::Digit);
    Some((time_of(seconds, decimals)?, rest))
}

#[tactic(auto, unfolding(crate::specs::Number::time_of))]
fn time_of(seconds: u64, decimals: &[u8]) -> Option<u64>
    ensures value { result ≡ time_of seconds decimals.now }
{
    if decimals.len() < DECIMALS {
        return None;
    }
    let part = numeral(&decimals[..DECIMALS])?;
    microseconds(seconds, part)
}

fn microseconds(seconds: u64, part: u64) -> Option<u64>
    ensures value { result ≡ microseconds seconds part }
{
    seconds.checked_mul(SECOND)?.checked_add(part)
}

/// The time in microseconds that the word spells: seconds, with up to six decimals after a point. None for any other word.
#[tactic(auto, unfolding(crate::specs::Number::time_spelled))]
pub(crate) fn time_spelled(word: &[u8]) -> Option<u64>
    ensures value { result ≡ time_spelled word.now }
{
    match part_at(word, b".") {
        Some((seconds, decimals)) => microseconds(numeral(seconds)?, fraction(decimals)?),
        None => microseconds(numeral(word)?, 0),
    }
}

/// One to six decimals of a second, in microseconds.
#[tactic(auto, unfolding(crate::specs::Number::fraction))]
fn fraction(decimals: &[u8]) -> Option<u64>
    ensures value { result ≡ fraction decimals.now }
{
    if decimals.is_empty() || decimals.len() > DECIMALS {
        return None;
    }
    numeral(&filled(decimals))
}

/// Six decimals, with zeros for those that are missing.
fn filled(decimals: &[u8]) -> [u8; DECIMALS]
    requires few { length decimals.now ≤ DECIMALS }
    ensures value { result ≡ filled decimals.now }
{
    let mut six = *b"000000";
    six[..decimals.len()].copy_from_slice(decimals);
    six
}
