//! Numbers and times as text. `Part` calls these.
ghost use Rattle.std.specs.Prelude.{◌≡◌, ◌++◌, OnOk, drop, decimal};
ghost use Rattle.text_core.specs.Number.{seconds};

use itoa::Buffer;
use std::alloc::AllocError;

/// Microseconds of a second.
const SECOND: u64 = 1_000_000;

/// Adds a number in decimal.
///
/// Fails if memory is refused; then the text is unchanged.
pub(crate) fn push_number(text: &mut Vec<u8>, number: u64) -> Result<(), AllocError>
    ensures added { OnOk result (text.new.items ≡ text.old.items ++ decimal number) }
{
    let mut digits = Buffer::new();
    text.extend_from_slice(digits.format(number).as_bytes())
}

/// Adds a time in microseconds, in seconds with six decimals.
pub(crate) fn push_seconds(text: &mut Vec<u8>, time: u64) -> Result<(), AllocError>
    ensures added { OnOk result (text.new.items ≡ text.old.items ++ seconds time) }
{
    push_number(text, time / SECOND)?;
    text.push(b'.')?;
    push_decimals(text, SECOND + time % SECOND)
}

/// Adds the digits but the first.
fn push_decimals(text: &mut Vec<u8>, number: u64) -> Result<(), AllocError>
    ensures added { OnOk result (text.new.items ≡ text.old.items ++ drop 1 (decimal number)) }
{
    let mut digits = Buffer::new();
    match digits.format(number).as_bytes().split_first() {
        Some((_, decimals)) => text.extend_from_slice(decimals),
        None => Ok(()),
    }
}
