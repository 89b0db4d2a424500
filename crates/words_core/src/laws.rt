//! Theorems about all words and seats: each law is the contract of a function with an empty body.
ghost use Rattle.std.specs.Prelude.{◌≡◌, ◌≢◌, ◌↔◌, ℕ, ◌+◌, ◌/◌, ◌<◌, ◌≤◌, ◌⊎◌, List, Some, slice_get, slice_index};
ghost use Rattle.point_core.specs.Clocks.{common_status};
ghost use Rattle.point_core.specs.declared.entry.Point.{Point};
ghost use Rattle.point_core.specs.declared.entry.Usage.{Usage};
ghost use Rattle.point_core.specs.declared.status.Status.TheVariants.{Active};
ghost use Rattle.words_core.specs.declared.trace.Step.{Step};
ghost use Rattle.words_core.specs.declared.trace.View.{View};
ghost use Rattle.words_core.specs.declared.words.TheConstants.{LINE_WORDS};
ghost use Rattle.words_core.specs.declared.words.Sizes.{Sizes};
ghost use Rattle.words_core.specs.Rule.{IsKept};
ghost use Rattle.words_core.specs.theorem.Layout.{board_word, claim_word, value_word, word_count, IsValueOf, IsMarkOf, IsClaimOrFlag, IsBoardWord, IsUnused};
ghost use Rattle.words_core.specs.theorem.Loads.{clocks_seen, HasLoadedAll};
ghost use Rattle.words_core.specs.theorem.Seat.{SeatModel, seen, tests_of, with_step, parted, both_of};
ghost use Rattle.words_core.specs.theorem.Trace.{wins_of};
ghost use Rattle.words_core.specs.theorem.Views.{HasOneWinner, HasNotDriven, IsDrivenBy, IsGreatestRaise};
ghost use Rattle.words_core.specs.theorem.Words.{WordsModel};

/// No two entries of the board are one word, and entries of two buffers or two contexts are on two lines. An entry is
/// on the line of a context's value exactly if it belongs to the first buffer and that context.
pub fn entries_lie_apart()
    ensures words { (words : WordsModel) (buffer ctx other other_ctx : ℕ) (usage other_usage : Usage) →
        1 ≤ ctx → ctx ≤ words.contexts → 1 ≤ other_ctx → other_ctx ≤ words.contexts →
        board_word words buffer ctx usage ≡ board_word words other other_ctx other_usage →
        (buffer ≡ other) × (ctx ≡ other_ctx) × (usage ≡ other_usage) }
    ensures lines { (words : WordsModel) (buffer ctx other other_ctx : ℕ) (usage other_usage : Usage) →
        1 ≤ ctx → ctx ≤ words.contexts → 1 ≤ other_ctx → other_ctx ≤ words.contexts →
        board_word words buffer ctx usage / LINE_WORDS ≡ board_word words other other_ctx other_usage / LINE_WORDS →
        (buffer ≡ other) × (ctx ≡ other_ctx) }
    ensures values { (words : WordsModel) (buffer ctx other_ctx : ℕ) (usage : Usage) →
        1 ≤ ctx → ctx ≤ words.contexts → 1 ≤ other_ctx → other_ctx ≤ words.contexts →
        (board_word words buffer ctx usage / LINE_WORDS ≡ value_word other_ctx / LINE_WORDS) ↔
        ((buffer ≡ 0) × (ctx ≡ other_ctx)) }
{}

/// Each word is the value of a context or its mark, a claim or a flag, an entry of the board, or unused. So the rule
/// covers every word.
pub fn each_word_has_a_kind()
    ensures { (sizes : Sizes) (k : ℕ) →
        k < word_count sizes →
        IsValueOf sizes k (k / LINE_WORDS) ⊎ IsMarkOf sizes k (k / LINE_WORDS) ⊎ IsClaimOrFlag sizes k ⊎
        IsBoardWord sizes k ⊎ IsUnused sizes k }
{}

/// What a seat has seen, and what it knows to have been won or lost, is never lost: a seat that is parted from it
/// starts with it, and joining two seats keeps what both know.
pub fn what_is_known_stays_known()
    ensures seen_later { (seat : SeatModel) (s : Step) (w : ℕ) → seen seat w ≤ seen (with_step seat s) w }
    ensures later { (seat : SeatModel) (s : Step) (w : ℕ) → tests_of seat w ≤ tests_of (with_step seat s) w }
    ensures parted { (seat : SeatModel) (n w : ℕ) → tests_of (parted seat n) w ≡ tests_of seat w }
    ensures joined { (seat other : SeatModel) (w : ℕ) → tests_of (both_of seat other) w ≡ tests_of seat w + tests_of other w }
{}

/// Points that were signalled by the values that a seat had seen are signalled by each later load of all clocks, and no
/// load cancels one; a set of points with a cancelled one stays cancelled.
pub fn what_is_settled_stays_so()
    ensures { (before after : SeatModel) (reach : List ℕ) (points : List Point) →
        HasLoadedAll before after reach → common_status (clocks_seen before) points ≢ Active →
        common_status (clocks_seen after) points ≡ common_status (clocks_seen before) points }
{}

/// Whenever the rule holds, no word was won twice, by all seats together, lost ones among them: a flag has one winner,
/// and the claim of a context one driver.
pub fn no_word_is_won_twice()
    ensures { (sizes : Sizes) (words : List ℕ) (views : List View) (w : ℕ) →
        IsKept sizes words views → HasOneWinner w views }
{}

/// Whenever the rule holds, only the seat that has won a context's claim has changed its value and its mark. The value
/// is the sum of this seat's additions, and the mark is set if it has closed the context, once, at that value.
pub fn only_its_driver_changes_a_context()
    ensures driver { (sizes : Sizes) (words : List ℕ) (views : List View) (ctx i : ℕ) (v : View) →
        IsKept sizes words views → 1 ≤ ctx → ctx ≤ sizes.contexts → slice_get views i ≡ Some v →
        0 < wins_of (claim_word ctx) v.trace → IsDrivenBy ctx words v }
    ensures others { (sizes : Sizes) (words : List ℕ) (views : List View) (ctx i : ℕ) (v : View) →
        IsKept sizes words views → 1 ≤ ctx → ctx ≤ sizes.contexts → slice_get views i ≡ Some v →
        wins_of (claim_word ctx) v.trace ≡ 0 → HasNotDriven ctx v }
{}

/// Whenever the rule holds, an entry of the board is the greatest point to which any seat has raised it, or 0.
pub fn an_entry_is_the_greatest_raise()
    ensures { (sizes : Sizes) (words : List ℕ) (views : List View) (w : ℕ) →
        IsKept sizes words views → IsBoardWord sizes w → IsGreatestRaise w (slice_index words w) views }
{}
