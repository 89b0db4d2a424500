//! `Window`: the range of lines that are drawn.
ghost use Rattle.std.specs.Prelude.{◌≡◌, ℕ, ◌+◌, ◌-◌, ◌++◌, ◌^◌, min, List, codes, IfSome, MatchOption, Some};
ghost use Rattle.draw_core.specs.declared.window.Window.{Window as WindowModel};
ghost use Rattle.draw_core.specs.Spelling.{HasLines, Spells, SpellsLines, SpellsNumber, is_in_window};

/// The lines from `first` to `last`, both included.
#[derive(Clone, Copy)]
pub struct Window {
    pub first: u32,
    pub last: u32,
}

impl Window {
    /// Every line.
    pub fn whole() -> Window
        ensures first { result.first ≡ 1 }
        ensures last { result.last ≡ 2 ^ 32 - 1 }
    {
        Window {
            first: 1,
            last: u32::MAX,
        }
    }

    /// No line after this one.
    pub fn after(line: u32) -> Window
        ensures first { result.first ≡ min (line + 1) (2 ^ 32 - 1) }
        ensures last { result.last ≡ line }
    {
        Window {
            first: line.saturating_add(1),
            last: line,
        }
    }

    /// Reads `A..B`, two line numbers, the first not above the second.
    pub fn read(text: &str) -> Option<Window>
        ensures lines { IfSome result HasLines }
        ensures spelled { IfSome result (Spells text.now) }
        ensures read { (window : WindowModel) → HasLines window → Spells text.now window → result ≡ Some window }
    {
        match parts_of(text) {
            Some(parts) => read_lines(parts.0, parts.1),
            None => None,
        }
    }

    /// Whether it contains the line with this number.
    pub fn has(&self, line: u32) -> bool
        ensures { result ≡ is_in_window self.now line }
    {
        self.first <= line && line <= self.last
    }
}

/// The texts before and after `..`.
fn parts_of(text: &str) -> Option<(&str, &str)>
    ensures parts { MatchOption result
        ((first last : List ℕ) → text.now ≡ first ++ (codes ".." ++ last) → ⊥)
        (λ parts. text.now ≡ parts.0.now ++ (codes ".." ++ parts.1.now)) }
{
    text.split_once("..")
}

/// The window between two line numbers.
fn read_lines(first: &str, last: &str) -> Option<Window>
    ensures lines { IfSome result HasLines }
    ensures spelled { IfSome result (SpellsLines first.now last.now) }
    ensures read { (window : WindowModel) → HasLines window → SpellsLines first.now last.now window → result ≡ Some window }
{
    match number_of(first) {
        Some(number) => read_last(number, last),
        None => None,
    }
}

/// The window from that line to a line number.
fn read_last(first: u32, last: &str) -> Option<Window>
    ensures lines { IfSome result HasLines }
    ensures first { IfSome result (λ window. window.first ≡ first) }
    ensures last { IfSome result (λ window. SpellsNumber last.now window.last) }
    ensures read { (window : WindowModel) → HasLines window → window.first ≡ first → SpellsNumber last.now window.last →
        result ≡ Some window }
{
    match number_of(last) {
        Some(number) => window_between(first, number),
        None => None,
    }
}

/// The window between two lines; none if it would have no line.
fn window_between(first: u32, last: u32) -> Option<Window>
    ensures lines { IfSome result HasLines }
    ensures first { IfSome result (λ window. window.first ≡ first) }
    ensures last { IfSome result (λ window. window.last ≡ last) }
    ensures read { (window : WindowModel) → HasLines window → window.first ≡ first → window.last ≡ last →
        result ≡ Some window }
{
    if first == 0 {
        return None;
    }
    if first > last {
        return None;
    }
    Some(Window { first, last })
}

/// The number that decimal digits spell, after a plus or not.
fn number_of(text: &str) -> Option<u32>
    ensures number { MatchOption result ((number : ℕ) → SpellsNumber text.now number → ⊥) (SpellsNumber text.now) }
{
    match text.parse::<u32>() {
        Ok(number) => Some(number),
        Err(_) => None,
    }
}
