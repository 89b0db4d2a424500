//! Finds notes that are nearly `#= TEXT`, as `# = TEXT` and `##= TEXT`: they look as if they expected an answer, and expect
//! none. `Checker` reports each.
ghost use Rattle.std.specs.Prelude.{◌≡◌, codes};
ghost use Rattle.check_core.specs.Slips.{drop_marks, is_mark, is_single, is_slip};
ghost use Rattle.line_core.specs.Fronts.{strip_prefix};

use crate::expected::expected_text;
use line_core::{body_of, strip_prefix};

/// Whether the line is a note that expects nothing, though one `=` is behind its `#`s and blanks. More than one `=` is an
/// underline.
pub(crate) fn is_slip(line: &[u8]) -> bool
    ensures { result ≡ is_slip line.now }
{
    body_of(line).is_none() && expected_text(line).is_none() && begins_single(without_marks(line))
}

/// Whether the text begins with one `=`.
fn begins_single(text: &[u8]) -> bool
    ensures { result ≡ is_single (strip_prefix text.now (codes "=")) }
{
    match strip_prefix(text, b"=") {
        Some(rest) => strip_prefix(rest, b"=").is_none(),
        None => false,
    }
}

/// The line without the `#`s and blanks that it begins with.
fn without_marks(line: &[u8]) -> &[u8]
    ensures { result.now ≡ drop_marks line.now }
{
    let mut rest = line;
    while let Some((byte, more)) = rest.split_first() {
        if !is_mark(*byte) {
            return rest;
        }
        rest = more;
    }
    rest
}

fn is_mark(byte: u8) -> bool
    ensures { result ≡ is_mark byte }
{
    byte == b'#' || byte == b' ' || byte == b'\t'
}
