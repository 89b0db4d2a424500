//! Theorems about all entries, points and reaches: each law is the contract of a function with an empty body.
ghost use Rattle.std.specs.Prelude.{◌≡◌, ℕ, ◌+◌, ◌≤◌, ◌↔◌, List, [], ◌∷◌, ◌++◌, length, sum, Some, None, Contains, IsPermutation};
ghost use Rattle.point_core.specs.declared.entry.Point.{Point};
ghost use Rattle.point_core.specs.declared.entry.Entry.{Entry};
ghost use Rattle.point_core.specs.Agreement.{top, IsPut, NoneIsLater, NoneApplies, AgreesAbove, as_entries, listing, merged, Covers, HasContexts, HasRisingContexts, AllAbove, IsReached};
ghost use Rattle.point_core.specs.Reach.{value_at, with_value, later_values, IsAtLeast};

/// A top is the point of an entry of that context, at that usage or a stronger one, and no such entry is later.
pub fn top_is_the_latest_put()
    ensures put { (es : List Entry) (usage ctx p : ℕ) → top es usage ctx ≡ Some p → IsPut es usage ctx p }
    ensures none_later { (es : List Entry) (usage ctx p : ℕ) → top es usage ctx ≡ Some p → NoneIsLater es usage ctx p }
    ensures only { (es : List Entry) (usage ctx p : ℕ) →
        IsPut es usage ctx p → NoneIsLater es usage ctx p → top es usage ctx ≡ Some p }
    ensures none { (es : List Entry) (usage ctx : ℕ) → ((top es usage ctx ≡ None) ↔ NoneApplies es usage ctx) }
{}

/// The order of puts doesn't matter, and neither does repetition: equal sets of entries have equal tops.
pub fn order_and_repetition_of_puts_do_not_matter()
    ensures order { (es fs : List Entry) (usage ctx : ℕ) →
        IsPermutation es fs → top es usage ctx ≡ top fs usage ctx }
    ensures repetition { (es : List Entry) (e : Entry) (usage ctx : ℕ) →
        Contains es e → top (es ++ e ∷ []) usage ctx ≡ top es usage ctx }
    ensures same_entries { (es fs : List Entry) (usage ctx : ℕ) →
        ((e : Entry) → (Contains es e ↔ Contains fs e)) → top es usage ctx ≡ top fs usage ctx }
{}

/// A sum doesn't depend on the order of its increments, so neither does the value of a timeline.
pub fn order_of_increments_does_not_matter()
    ensures { (increments others : List ℕ) → IsPermutation increments others → sum increments ≡ sum others }
{}

/// A reach rises by an increment, and by joining another, which gives the lowest reach that is at least both.
pub fn reaches_rise()
    ensures same { (reach : List ℕ) → IsAtLeast reach reach }
    ensures twice { (first second third : List ℕ) →
        IsAtLeast second first → IsAtLeast third second → IsAtLeast third first }
    ensures by_increment { (reach : List ℕ) (ctx n : ℕ) →
        IsAtLeast (with_value reach ctx (value_at reach ctx + n)) reach }
    ensures joined { (reach other : List ℕ) →
        length reach ≡ length other →
        (IsAtLeast (later_values reach other) reach × IsAtLeast (later_values reach other) other) }
    ensures lowest { (reach other higher : List ℕ) →
        length reach ≡ length other → IsAtLeast higher reach → IsAtLeast higher other →
        IsAtLeast higher (later_values reach other) }
{}

/// Agreement above a reach is an equivalence.
pub fn agreement_is_an_equivalence()
    ensures reflexive { (reach : List ℕ) (es : List Entry) → AgreesAbove reach es es }
    ensures symmetric { (reach : List ℕ) (es fs : List Entry) → AgreesAbove reach es fs → AgreesAbove reach fs es }
    ensures transitive { (reach : List ℕ) (es fs gs : List Entry) →
        AgreesAbove reach es fs → AgreesAbove reach fs gs → AgreesAbove reach es gs }
{}

/// Entries that agree may be put beside entries that agree, in either order, and twice.
pub fn union_keeps_agreement()
    ensures kept { (reach : List ℕ) (es fs gs hs : List Entry) →
        AgreesAbove reach es fs → AgreesAbove reach gs hs → AgreesAbove reach (es ++ gs) (fs ++ hs) }
    ensures commutative { (reach : List ℕ) (es fs : List Entry) → AgreesAbove reach (es ++ fs) (fs ++ es) }
    ensures idempotent { (reach : List ℕ) (es : List Entry) → AgreesAbove reach (es ++ es) es }
{}

/// An entry that is signalled, or that another one covers, may be dropped.
pub fn signalled_and_covered_entries_may_be_dropped()
    ensures signalled { (reach : List ℕ) (e : Entry) (es : List Entry) →
        e.point.value ≤ value_at reach e.point.ctx → AgreesAbove reach (e ∷ es) es }
    ensures covered { (reach : List ℕ) (by other : Entry) (es : List Entry) →
        Contains es by → Covers by other → AgreesAbove reach (other ∷ es) es }
{}

/// Entries that agree above a reach agree above every later reach.
pub fn agreement_lasts_as_the_reach_rises()
    ensures { (reach later : List ℕ) (es fs : List Entry) →
        IsAtLeast later reach → AgreesAbove reach es fs → AgreesAbove later es fs }
{}

/// The points of a listing are pending, and their contexts rise. A listing is empty exactly when each entry at that
/// usage or a stronger one is reached. A list in normal form is its own listing.
pub fn a_listing_is_what_is_pending()
    ensures rising { (es : List Entry) (usage : ℕ) (reach : List ℕ) → HasRisingContexts (listing es usage reach) }
    ensures contexts { (es : List Entry) (usage : ℕ) (reach : List ℕ) →
        HasContexts (as_entries (listing es usage reach)) }
    ensures above { (es : List Entry) (usage : ℕ) (reach : List ℕ) → AllAbove reach (listing es usage reach) }
    ensures empty { (es : List Entry) (usage : ℕ) (reach : List ℕ) →
        HasContexts es → ((listing es usage reach ≡ []) ↔ IsReached es usage reach) }
    ensures itself { (ps : List Point) (reach : List ℕ) →
        HasRisingContexts ps → HasContexts (as_entries ps) → AllAbove reach ps →
        listing (as_entries ps) 0 reach ≡ ps }
{}

/// Two sets of entries agree above a reach exactly when their listings are equal at every usage.
pub fn listings_show_agreement()
    ensures same { (reach : List ℕ) (es fs : List Entry) (usage : ℕ) →
        AgreesAbove reach es fs → listing es usage reach ≡ listing fs usage reach }
    ensures only { (reach : List ℕ) (es fs : List Entry) →
        HasContexts es → HasContexts fs →
        ((usage : ℕ) → listing es usage reach ≡ listing fs usage reach) → AgreesAbove reach es fs }
    ensures points { (reach : List ℕ) (ps : List Point) →
        HasContexts (as_entries ps) →
        AgreesAbove reach (as_entries (listing (as_entries ps) 0 reach)) (as_entries ps) }
{}

/// A listing replaces the entries that it was made of: listing it together with more entries, at a later reach, equals
/// listing all entries.
pub fn a_listing_absorbs_a_listing()
    ensures { (reach later : List ℕ) (es fs : List Entry) (usage : ℕ) →
        IsAtLeast later reach →
        listing (as_entries (listing es usage reach) ++ fs) usage later ≡ listing (es ++ fs) usage later }
{}

/// So a merge depends neither on the order of the files nor on how they are grouped. A file merged with itself agrees
/// with itself, and lists the same points if its own are in normal form. A merge agrees with both files together.
pub fn merge_is_a_union()
    ensures commutative { (reach : List ℕ) (ps qs : List Point) → merged reach ps qs ≡ merged reach qs ps }
    ensures associative { (reach : List ℕ) (ps qs rs : List Point) →
        merged reach (merged reach ps qs) rs ≡ merged reach ps (merged reach qs rs) }
    ensures idempotent { (reach : List ℕ) (ps : List Point) →
        HasContexts (as_entries ps) →
        AgreesAbove reach (as_entries (merged reach ps ps)) (as_entries ps) }
    ensures same { (reach : List ℕ) (ps : List Point) →
        HasRisingContexts ps → HasContexts (as_entries ps) → AllAbove reach ps →
        merged reach ps ps ≡ ps }
    ensures union { (reach : List ℕ) (ps qs : List Point) →
        HasContexts (as_entries ps) → HasContexts (as_entries qs) →
        AgreesAbove reach (as_entries (merged reach ps qs)) (as_entries ps ++ as_entries qs) }
{}
