//! The law of a script's names. Nothing calls a law when the program runs.
ghost use Rattle.std.specs.Prelude.{List, ℕ};
ghost use Rattle.trace_core.specs.declared.fence_event.TimelineKey.{TimelineKey};
ghost use Rattle.trace_script.specs.Names.{AreLanesApart, AreNames};

/// No two timelines of a script have the same name: the name shows the timeline of the trace, and the context if it has several.
pub fn timelines_have_names_of_their_own()
    ensures apart { (names : List (TimelineKey × List ℕ)) → (taken : List (List ℕ)) → AreNames names taken → AreLanesApart names }
{}
