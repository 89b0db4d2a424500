//! The theorem about inert texts. Nothing calls a law when the program runs.
ghost use Rattle.std.specs.Prelude.{◌≡◌, ℕ, List, true};
ghost use Rattle.std.specs.List.{list_all};
ghost use Rattle.text_core.specs.Escape.{are_bytes, inert, is_inert, unescaped};

/// An inert text has no `<`, `>`, quote, backslash or byte that doesn't print, and reading its references gives the text back.
pub fn an_escaped_text_is_inert()
    ensures safe { (text : List ℕ) → are_bytes text ≡ true → list_all is_inert (inert text) ≡ true }
    ensures back { (text : List ℕ) → are_bytes text ≡ true → unescaped (inert text) ≡ text }
{}
