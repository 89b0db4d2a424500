//! Steps of reading: each answers the bytes after what it read, or none. The readers of headers, events and fields are made of
//! these, so that their contracts are the same steps over lists.
ghost use Rattle.std.specs.Prelude.{◌≡◌, ◌≤◌, true, length, take, option_map};
ghost use Rattle.std.specs.Str.{bytes_eq};
ghost use Rattle.trace_core.specs.Steps.{after, before, without_blanks, after_blanks, part_at};

use crate::runs::{Class, without_run};

/// Whether the bytes begin with the text. The loop is unrolled where the text is a literal.
fn begins_with(bytes: &[u8], text: &[u8]) -> bool
    ensures begins { result ≡ bytes_eq (take (length text.now) bytes.now) text.now }
    ensures fits { result ≡ true → length text.now ≤ length bytes.now }
{
    if bytes.len() < text.len() {
        return false;
    }
    for (place, byte) in text.iter().enumerate() {
        if bytes[place] != *byte {
            return false;
        }
    }
    true
}

/// The bytes after the text, if the bytes begin with the text.
#[tactic(auto, unfolding(crate::specs::Steps::after))]
pub(crate) fn after<'a>(bytes: &'a [u8], text: &[u8]) -> Option<&'a [u8]>
    ensures rest { option_map (λ r. r.now) result ≡ after bytes.now text.now }
{
    if begins_with(bytes, text) {
        Some(&bytes[text.len()..])
    } else {
        None
    }
}

/// The bytes before the text, if they end with it.
pub(crate) fn before<'a>(bytes: &'a [u8], text: &[u8]) -> Option<&'a [u8]>
    ensures front { option_map (λ r. r.now) result ≡ before bytes.now text.now }
{
    if bytes.len() < text.len() {
        return None;
    }
    let (front, end) = bytes.split_at(bytes.len() - text.len());
    if begins_with(end, text) {
        Some(front)
    } else {
        None
    }
}

/// The bytes without the blanks that they begin with.
#[tactic(auto, unfolding(crate::specs::Steps::without_blanks))]
pub(crate) fn without_blanks(bytes: &[u8]) -> &[u8]
    ensures rest { result.now ≡ without_blanks bytes.now }
{
    without_run(bytes, Class::Blank)
}

/// The bytes after one blank or more, if the bytes begin with a blank.
#[tactic(auto, unfolding(crate::specs::Steps::after_blanks))]
pub(crate) fn after_blanks(bytes: &[u8]) -> Option<&[u8]>
    ensures rest { option_map (λ r. r.now) result ≡ after_blanks bytes.now }
{
    Some(without_blanks(after(bytes, b" ")?))
}

/// The bytes before the first occurrence of the text, and the bytes after it.
pub(crate) fn part_at<'a>(bytes: &'a [u8], text: &[u8]) -> Option<(&'a [u8], &'a [u8])>
    ensures parts { option_map (λ p. (p.0.now, p.1.now)) result ≡ part_at text.now bytes.now }
{
    for place in 0..bytes.len() {
        if let Some(rest) = after(&bytes[place..], text) {
            return Some((&bytes[..place], rest));
        }
    }
    None
}

/// Whether the word is the text.
pub(crate) fn is(word: &[u8], text: &str) -> bool
    ensures same { result ≡ bytes_eq word.now text.now }
{
    word.len() == text.len() && begins_with(word, text.as_bytes())
}
