//! Theorems about histories, and about every desk that refines one: each law is the contract of a function with an
//! empty body, which no caller runs.
ghost use Rattle.std.specs.Prelude.{◌≡◌, ◌≢◌, ℕ, ◌≤◌, nat_eq, count_by, false, IfSome, List, [], ◌∷◌, ◌++◌, Contains};
ghost use Rattle.command_core.specs.declared.command.Command.{Command};
ghost use Rattle.command_core.specs.declared.command.Command.TheVariants.{Unwatch};
ghost use Rattle.command_core.specs.declared.answer.Answer.{Answer};
ghost use Rattle.timeline_core.specs.Sums.{AreSums};
ghost use Rattle.desk_core.specs.theorem.Answer.{causes, first_of};
ghost use Rattle.desk_core.specs.theorem.History.{world_of, IsHistory, increments_in, history_of, AreAnswers};
ghost use Rattle.desk_core.specs.Sound.{IsSound};
ghost use Rattle.desk_core.specs.theorem.Desk.{DeskState, HasHistory};
ghost use Rattle.desk_core.specs.Keeping.{cause_of};
ghost use Rattle.desk_core.specs.theorem.World.{MadeWatch, is_due, reach_by, watch_made};
ghost use Rattle.desk_core.specs.theorem.Fired.{fired_along, pending_after};
ghost use Rattle.desk_core.specs.theorem.Headline.{ReportsSums, ReportsWhatWasPut, ReportsWhatIsInBuffers, ReportsWhatFires, ReportsEachWatch, put_into_file};

/// What was put into files and buffers is of timelines that were made, and no value has fallen since; there are no more
/// timelines than contexts.
pub fn a_history_makes_a_sound_world()
    ensures { (history : List Command) → IsHistory history → IsSound (world_of history) }
{}

/// A timeline's value is the sum of the accepted increments of its name.
pub fn a_value_is_the_sum_of_its_increments()
    ensures { (history : List Command) → IsHistory history → AreSums (world_of history).timelines (increments_in history) }
{}

/// A watch fires at most once: along a history no registration fires a second time, whatever becomes of its cookie.
pub fn a_watch_fires_once()
    ensures { (history : List Command) (number : ℕ) → count_by (nat_eq number) (fired_along history) ≤ 1 }
{}

/// A watch is registered with all that was put into its file so far. It keeps that put set, whatever becomes of the file and
/// its name, until the watch is removed or an increment reaches the whole set.
pub fn a_watch_keeps_what_was_put()
    ensures registered { (history : List Command) (file : List ℕ) (cookie : ℕ) →
        pending_after (history ++ Command.Watch file cookie ∷ [])
        ≡ pending_after history ++ watch_made cookie (put_into_file history file) ((world_of history).watches_made) ∷ [] }
    ensures kept { (history : List Command) (c : Command) (x : MadeWatch) →
        Contains (pending_after history) x → c ≢ Unwatch x.cookie →
        IfSome (reach_by (world_of history).timelines c) (λ reach. is_due reach x ≡ false) →
        Contains (pending_after (history ++ c ∷ [])) x }
{}

/// A desk that stands for a history has the sums of its increments, what was put into its files and buffers, and which
/// watches an increment fires.
pub fn a_desk_shows_its_history()
    ensures sums { (desk : DeskState) (history : List Command) → HasHistory desk history → ReportsSums desk history }
    ensures files { (desk : DeskState) (history : List Command) → HasHistory desk history → ReportsWhatWasPut desk history }
    ensures buffers { (desk : DeskState) (history : List Command) →
        HasHistory desk history → ReportsWhatIsInBuffers desk history }
    ensures watches { (desk : DeskState) (history : List Command) → HasHistory desk history → ReportsWhatFires desk history }
{}

/// By the answers of a run, from its first command on, each watch that was registered has fired, was removed, or is
/// pending at the end.
pub fn each_watch_fires_or_is_removed_or_pending()
    ensures { (desk : DeskState) (commands : List Command) (given : List Answer) →
        AreAnswers [] commands given → HasHistory desk (history_of [] commands given) →
        ReportsEachWatch desk commands given }
{}

/// A desk, which keeps less than all that was put into it, refuses each command for the first cause that holds in the world
/// of its history.
pub fn a_desk_refuses_for_the_first_cause()
    ensures { (desk : DeskState) (history : List Command) (c : Command) →
        HasHistory desk history → cause_of desk c ≡ first_of (causes (world_of history) c) }
{}
