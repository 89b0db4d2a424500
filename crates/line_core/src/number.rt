//! Decimal numbers: 1 to `DIGITS` digits, of at most 64 bits.
ghost use Rattle.std.specs.Prelude.{◌≡◌, is_some};
ghost use Rattle.line_core.specs.Number.{number_of};

/// The most digits of a number.
pub const DIGITS: usize = 20;

const _: () = prove!(DIGITS == 20);

/// The number that a word of 1 to `DIGITS` decimal digits spells, if it has at most 64 bits. Leading zeros are allowed.
pub(crate) fn number(word: &[u8]) -> Option<u64>
    ensures value { result ≡ number_of word.now }
{
    if word.is_empty() || word.len() > DIGITS {
        return None;
    }
    let mut value: u64 = 0;
    for byte in word {
        if !byte.is_ascii_digit() {
            return None;
        }
        value = value.checked_mul(10)?.checked_add(u64::from(*byte - b'0'))?;
    }
    Some(value)
}

/// Whether the word spells a number.
pub fn is_number(word: &[u8]) -> bool
    ensures { result ≡ is_some (number_of word.now) }
{
    number(word).is_some()
}
