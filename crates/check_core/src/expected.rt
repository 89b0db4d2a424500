//! Parses the notes of a script that expect a line of an answer, `#= TEXT`. The checker, the rewriter and what compares a
//! rewritten script call it.
ghost use Rattle.std.specs.Prelude.{◌≡◌, option_map};
ghost use Rattle.check_core.specs.Expected.{expected_text};
ghost use Rattle.check_core.specs.Kept.{is_expectation};

use line_core::{body_of, strip_prefix, without_spaces};

/// A note that begins with this mark expects a line.
const MARK: &[u8] = b"#=";

/// The text that a note expects: the bytes after `#=` and one space, or after `#=` if no space follows. `None` if the
/// line's first word does not begin with `#=`.
pub(crate) fn expected_text(line: &[u8]) -> Option<&[u8]>
    ensures text { option_map (λ t. t.now) result ≡ expected_text line.now }
{
    let text = strip_prefix(without_spaces(line), MARK)?;
    match strip_prefix(text, b" ") {
        Some(rest) => Some(rest),
        None => Some(text),
    }
}

/// Whether the line is a note that expects a line of an answer. A line that is too long is no note, whatever it begins with.
pub(crate) fn is_expectation(line: &[u8]) -> bool
    ensures { result ≡ is_expectation line.now }
{
    expected_text(line).is_some() && body_of(line).is_none()
}
