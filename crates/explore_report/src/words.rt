//! The words of a note: its first one, and what follows it. `mark.rt` calls these.
ghost use Rattle.std.specs.Prelude.{◌≡◌, position};
ghost use Rattle.line_core.specs.Words.{is_space};
ghost use Rattle.explore_report.specs.Words.{first_word, words_after};

use line_core::without_spaces;

fn first_space(bytes: &[u8]) -> Option<usize>
    ensures place { result ≡ position is_space bytes.now }
{
    bytes.iter().position(|byte| *byte == b' ')
}

/// The bytes up to the first space.
pub(crate) fn first_word(note: &[u8]) -> &[u8]
    ensures word { result.now ≡ first_word note.now }
{
    let end = first_space(note).unwrap_or(note.len());
    &note[..end]
}

/// What follows the first word, without the spaces between.
pub(crate) fn words_after(note: &[u8]) -> &[u8]
    ensures rest { result.now ≡ words_after note.now }
{
    let end = first_space(note).unwrap_or(note.len());
    without_spaces(&note[end..])
}

/// The bytes without the spaces that they end with.
pub(crate) fn without_last_spaces(bytes: &[u8]) -> &[u8] {
    match bytes.iter().rposition(|byte| *byte != b' ') {
        Some(last) => &bytes[..=last],
        None => &[],
    }
}
