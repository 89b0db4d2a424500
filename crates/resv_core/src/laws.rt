//! Theorems about every table, whatever calls were made on it: each law is the contract of a function with an empty
//! body.
ghost use Rattle.std.specs.Prelude.{◌≡◌, ℕ, ◌+◌, ◌≤◌, ◌↔◌, List, [], ◌++◌, length, count_by, Contains};
ghost use Rattle.point_core.specs.declared.context.TheConstants.{CONTEXTS};
ghost use Rattle.point_core.specs.declared.entry.Entry.{Entry};
ghost use Rattle.point_core.specs.declared.entry.Usage.{Usage};
ghost use Rattle.point_core.specs.Agreement.{AgreesAbove, HasContexts, IsReached};
ghost use Rattle.resv_core.specs.declared.resv.TheConstants.{PLACES, PLACES_PER_CONTEXT};
ghost use Rattle.resv_core.specs.Resv.{IsTrimmed, is_at, is_of, rows_of};
ghost use Rattle.resv_core.specs.Run.{IsRun, Step, all_added, last_entries, last_reach};

/// After any calls, at reaches that don't fall, a table agrees above the last reach with everything that was added. So
/// two tables with equal sets of entries, added in whatever order and however often, agree there. And a table that
/// agreed with some entries before still agrees with them and all that was added since.
pub fn a_table_agrees_with_all_that_was_added()
    ensures agrees { (reach : List ℕ) (steps : List Step) →
        IsRun reach [] steps →
        AgreesAbove (last_reach reach steps) (last_entries [] steps) (all_added steps) }
    ensures same { (reach : List ℕ) (steps others : List Step) →
        IsRun reach [] steps → IsRun reach [] others →
        last_reach reach steps ≡ last_reach reach others →
        ((e : Entry) → (Contains (all_added steps) e ↔ Contains (all_added others) e)) →
        AgreesAbove (last_reach reach steps) (last_entries [] steps) (last_entries [] others) }
    ensures since { (reach : List ℕ) (es put : List Entry) (steps : List Step) →
        AgreesAbove reach es put → IsRun reach es steps →
        AgreesAbove (last_reach reach steps) (last_entries es steps) (put ++ all_added steps) }
{}

/// `table` and `test` depend only on the set that a table agrees with. For `collect`, `listings_show_agreement` of
/// `point_core` says so.
pub fn tables_that_agree_show_the_same()
    ensures table { (reach : List ℕ) (es fs : List Entry) →
        AgreesAbove reach es fs → rows_of es reach ≡ rows_of fs reach }
    ensures test { (reach : List ℕ) (es fs : List Entry) (usage : ℕ) →
        AgreesAbove reach es fs → (IsReached es usage reach ↔ IsReached fs usage reach) }
{}

/// A trimmed table has at most one entry of each usage for a context. So it has a free place for each context.
pub fn a_trimmed_table_has_one_entry_of_each_usage()
    ensures usage { (reach : List ℕ) (es : List Entry) (usage : Usage) (ctx : ℕ) →
        IsTrimmed reach es → count_by (is_of usage ctx) es ≤ 1 }
    ensures context { (reach : List ℕ) (es : List Entry) (ctx : ℕ) →
        IsTrimmed reach es → count_by (is_at ctx) es + 1 ≤ PLACES_PER_CONTEXT }
    ensures all { (reach : List ℕ) (es : List Entry) →
        IsTrimmed reach es → HasContexts es → length es + CONTEXTS ≤ PLACES }
{}
