//! `MatchStage`: how much of an answer the expected lines have matched so far. `IsAt` ties a stage to the lines.
ghost use Rattle.std.specs.Prelude.{◌≡◌, ◌≢◌, ◌≤◌, ◌++◌, ◌∷◌, [], List, ℕ, length, option_map, MatchOption};
ghost use Rattle.check_core.specs.Finding.{is_asked_finding, is_difference};
ghost use Rattle.check_core.specs.Expected.{differs, ended, is_asked};
ghost use Rattle.check_core.specs.Tally.{one_if};

use crate::finding::CheckFinding;
use line_core::strip_prefix;

/// How much of an answer the lines that are expected of it so far have matched.
#[derive(Clone, Copy)]
pub(crate) enum MatchStage {
    /// No line is expected.
    Unasked,
    /// The answer begins with them, up to this place.
    Came(usize),
    /// The answer differs, whatever else is expected.
    Differs,
}

impl MatchStage {
    ghost use Rattle.check_core.specs.Stage.{place_of, left_of, is_different, IsAt};

    /// The part of the text that the next expected line is compared with; `None` if that can't matter.
    pub(crate) fn left(self, text: &[u8]) -> Option<&[u8]>
        requires within { place_of self ≤ length text.now }
        ensures left { option_map (λ l. l.now) result ≡ left_of self text.now }
    {
        match self {
            MatchStage::Unasked => Some(text),
            MatchStage::Came(place) => Some(&text[place..]),
            MatchStage::Differs => None,
        }
    }

    /// The stage after one more expected line.
    pub(crate) fn with(self, text: &[u8], line: &[u8]) -> MatchStage
        requires within { place_of self ≤ length text.now }
        ensures within { place_of result ≤ length text.now }
        ensures next { (expected : List (List ℕ)) → IsAt self expected text.now
            → IsAt result (expected ++ line.now ∷ []) text.now }
        ensures kept { one_if (is_different self) ≤ one_if (is_different result) }
    {
        let Some(left) = self.left(text) else {
            return MatchStage::Differs;
        };
        match strip_line(left, line) {
            Some(rest) => MatchStage::Came(text.len() - rest.len()),
            None => MatchStage::Differs,
        }
    }

    /// The result once no more is expected.
    pub(crate) fn finding(self, text: &[u8]) -> CheckFinding
        ensures asked { (expected : List (List ℕ)) → IsAt self expected text.now
            → is_asked_finding result ≡ is_asked expected }
        ensures difference { (expected : List (List ℕ)) → IsAt self expected text.now
            → is_difference result ≡ differs expected text.now }
        ensures counted { one_if (is_different self) ≤ one_if (is_difference result) }
    {
        match self {
            MatchStage::Unasked => CheckFinding::Unasked,
            MatchStage::Came(place) => {
                if place < text.len() {
                    CheckFinding::Differs
                } else {
                    CheckFinding::AsExpected
                }
            }
            MatchStage::Differs => CheckFinding::Differs,
        }
    }
}

/// The text after `line` and its line feed, if it begins with these.
fn strip_line<'a>(text: &'a [u8], line: &[u8]) -> Option<&'a [u8]>
    ensures cases { MatchOption result
        ((more : List ℕ) → text.now ≢ ended line.now ++ more)
        (λ rest. text.now ≡ ended line.now ++ rest.now) }
{
    let rest = strip_prefix(text, line)?;
    strip_prefix(rest, b"\n")
}
