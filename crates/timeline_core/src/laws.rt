//! Theorems about all timelines that `create`, `inc`, `shut`, `raise_to` and `close` leave: each law is the contract of
//! a function with an empty body, which no caller runs.
ghost use Rattle.std.specs.Prelude.{◌≡◌, ℕ, List, [], ◌++◌, IsTrue, IsPermutation};
ghost use Rattle.timeline_core.specs.Timeline.{Timeline, has_timeline, timeline_at, value_of, is_closed, AreTimelines};
ghost use Rattle.timeline_core.specs.Run.{IsRun, Step, all_increments, last_timelines};
ghost use Rattle.timeline_core.specs.Sums.{AreSums, Increment, incremented};

/// After any calls of `create`, `inc`, `shut`, `raise_to` and `close`, accepted or refused, each value is the sum of the
/// accepted increments of its timeline; `raise_to` adds the difference to the point. So two runs with the same accepted
/// increments, in whatever order, give a name the same value.
pub fn a_value_is_the_sum_of_the_accepted_increments()
    ensures kept { (steps : List Step) →
        IsRun [] steps → AreSums (last_timelines [] steps) (all_increments [] steps) }
    ensures value { (steps : List Step) (name : List ℕ) →
        IsRun [] steps → IsTrue (has_timeline (last_timelines [] steps) name) →
        value_of (last_timelines [] steps) name ≡ incremented (all_increments [] steps) name }
    ensures order { (increments others : List Increment) (name : List ℕ) →
        IsPermutation increments others → incremented increments name ≡ incremented others name }
{}

/// After any calls of `create`, `inc`, `shut`, `raise_to` and `close`, accepted or refused, a timeline that was closed before
/// them is still closed, with the value that it had.
pub fn a_closed_timeline_stays_as_it_is()
    ensures same { (old : List Timeline) (steps : List Step) (name : List ℕ) →
        AreTimelines old → IsRun old steps → IsTrue (is_closed old name) →
        timeline_at (last_timelines old steps) name ≡ timeline_at old name }
    ensures closed { (old : List Timeline) (steps : List Step) (name : List ℕ) →
        AreTimelines old → IsRun old steps → IsTrue (is_closed old name) →
        IsTrue (is_closed (last_timelines old steps) name) }
    ensures value { (old : List Timeline) (steps : List Step) (name : List ℕ) →
        AreTimelines old → IsRun old steps → IsTrue (is_closed old name) →
        value_of (last_timelines old steps) name ≡ value_of old name }
{}
