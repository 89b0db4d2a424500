//! Fronts of lines: a prefix, with the contract that `slice::strip_prefix` lacks (both outcomes, for every continuation), and
//! leading spaces. Crates that read notes call these.
ghost use Rattle.std.specs.Prelude.{◌≡◌, ◌≢◌, ◌++◌, List, ℕ, not, option_map, position, MatchOption};
ghost use Rattle.line_core.specs.Fronts.{drop_spaces, strip_prefix};
ghost use Rattle.line_core.specs.Words.{is_space};

/// The bytes after `prefix`, if they begin with it.
pub fn strip_prefix<'a>(bytes: &'a [u8], prefix: &[u8]) -> Option<&'a [u8]>
    ensures rest { option_map (λ r. r.now) result ≡ strip_prefix bytes.now prefix.now }
    ensures cases { MatchOption result
        ((more : List ℕ) → bytes.now ≢ prefix.now ++ more)
        (λ rest. bytes.now ≡ prefix.now ++ rest.now) }
{
    bytes.strip_prefix(prefix)
}

/// The line without its leading spaces.
pub fn without_spaces(line: &[u8]) -> &[u8]
    ensures rest { result.now ≡ drop_spaces line.now }
{
    match first_other_than_space(line) {
        Some(start) => &line[start..],
        None => &[],
    }
}

/// The place of the first byte of a word.
pub(crate) fn first_other_than_space(line: &[u8]) -> Option<usize>
    ensures place { result ≡ position (λ b. not (is_space b)) line.now }
{
    line.iter().position(|byte| *byte != b' ')
}
