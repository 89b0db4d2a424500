//! The words of a line, which are runs of bytes other than the space.
ghost use Rattle.std.specs.Prelude.{◌≡◌, ◌∷◌, [], option_map, position, MatchOption};
ghost use Rattle.std.specs.Str.{bytes_eq};
ghost use Rattle.line_core.specs.Words.{is_space, words_of, one_of, two_of, three_of, four_of};

use crate::prefix::first_other_than_space;

/// The first word, and the bytes after it.
pub(crate) fn first_word(bytes: &[u8]) -> Option<(&[u8], &[u8])>
    ensures words { MatchOption result (words_of bytes.now ≡ []) (λ w. words_of bytes.now ≡ w.0.now ∷ words_of w.1.now) }
{
    let start = first_other_than_space(bytes)?;
    let from_word = &bytes[start..];
    let end = first_space(from_word).unwrap_or(from_word.len());
    Some(from_word.split_at(end))
}

/// The place of the first space.
fn first_space(bytes: &[u8]) -> Option<usize>
    ensures place { result ≡ position is_space bytes.now }
{
    bytes.iter().position(|byte| *byte == b' ')
}

/// The word, if there is exactly one.
pub(crate) fn one(bytes: &[u8]) -> Option<&[u8]>
    ensures words { option_map (λ w. w.now) result ≡ one_of (words_of bytes.now) }
{
    let (word, rest) = first_word(bytes)?;
    match first_word(rest) {
        None => Some(word),
        Some(_) => None,
    }
}

/// The words, if there are exactly two.
pub(crate) fn two(bytes: &[u8]) -> Option<(&[u8], &[u8])>
    ensures words { option_map (λ w. (w.0.now, w.1.now)) result ≡ two_of (words_of bytes.now) }
{
    let (first, rest) = first_word(bytes)?;
    let second = one(rest)?;
    Some((first, second))
}

/// The words, if there are exactly three.
pub(crate) fn three(bytes: &[u8]) -> Option<(&[u8], &[u8], &[u8])>
    ensures words { option_map (λ w. (w.0.now, w.1.now, w.2.now)) result ≡ three_of (words_of bytes.now) }
{
    let (first, rest) = first_word(bytes)?;
    let (second, third) = two(rest)?;
    Some((first, second, third))
}

/// The words, if there are exactly four.
pub(crate) fn four(bytes: &[u8]) -> Option<(&[u8], &[u8], &[u8], &[u8])>
    ensures words { option_map (λ w. (w.0.now, w.1.now, w.2.now, w.3.now)) result ≡ four_of (words_of bytes.now) }
{
    let (first, rest) = first_word(bytes)?;
    let (second, third, fourth) = three(rest)?;
    Some((first, second, third, fourth))
}

/// Whether the word is `text`.
pub(crate) fn is(word: &[u8], text: &str) -> bool
    ensures same { result ≡ bytes_eq word.now text.now }
{
    word == text.as_bytes()
}
