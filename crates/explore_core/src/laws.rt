//! Theorems about alike worlds, desks that look alike, and lines that may be made before others. Each is the contract of a function
//! with an empty body, which no caller runs.
ghost use Rattle.std.specs.Prelude.{◌≡◌, ℕ, Bool, true, false, List, Some, All};
ghost use Rattle.command_core.specs.declared.command.Command.{Command};
ghost use Rattle.desk_core.specs.theorem.World.{World};
ghost use Rattle.desk_core.specs.theorem.Answer.{answer_to};
ghost use Rattle.desk_core.specs.Sound.{IsSound};
ghost use Rattle.desk_core.specs.theorem.Desk.{DeskState, HasHistory};
ghost use Rattle.desk_core.specs.theorem.History.{world_of};
ghost use Rattle.explore_core.specs.Looks.{LooksAlike};
ghost use Rattle.explore_core.specs.declared.plan.Step.{Step};
ghost use Rattle.explore_core.specs.Moving.{IsPatient, AllGoBeside, MayGoFirst};
ghost use Rattle.explore_core.specs.Found.{CanBeExplored};
ghost use Rattle.explore_core.specs.Persistent.{Choice, ChosenStandStill, IsCalm, KeepsWithin, StopsOthers};
ghost use Rattle.explore_core.specs.Room.{HasRoom, LeadsForward};
ghost use Rattle.explore_core.specs.Schedule.{Lines, Standing, Schedule, Leads, beginning, can_be_made, made_by, next_line};
ghost use Rattle.explore_core.specs.Covering.{MayAsk};
ghost use Rattle.explore_core.specs.Alike.{AsksOnly, AreAlike, after_answer, answers_along};
ghost use Rattle.explore_core.specs.Independence.{AreIndependent, Bounds, Commute, IsRoomy, IsWithin, Passes};

/// No command distinguishes alike worlds, and after it they are alike again: so they answer alike forever.
pub fn alike_worlds_answer_alike()
    ensures now { (asked : List ℕ → Bool) (w v : World) (c : Command) →
        IsSound w → AreAlike asked w v → AsksOnly asked c → answer_to w c ≡ answer_to v c }
    ensures then { (asked : List ℕ → Bool) (w v : World) (c : Command) →
        IsSound w → AreAlike asked w v → AsksOnly asked c →
        AreAlike asked (after_answer w c) (after_answer v c) }
    ensures ever { (asked : List ℕ → Bool) (w v : World) (cs : List Command) →
        IsSound w → AreAlike asked w v → All (AsksOnly asked) cs → answers_along w cs ≡ answers_along v cs }
{}

/// Desks that look alike answer alike forever, whatever their histories are: one may take the other's place.
pub fn desks_that_look_alike_answer_alike()
    ensures alike { (asked : List ℕ → Bool) (d e : DeskState) (history other : List Command) →
        HasHistory d history → HasHistory e other → LooksAlike asked d e →
        AreAlike asked (world_of history) (world_of other) }
    ensures ever { (asked : List ℕ → Bool) (d e : DeskState) (history other cs : List Command) →
        HasHistory d history → HasHistory e other → LooksAlike asked d e → All (AsksOnly asked) cs →
        answers_along (world_of history) cs ≡ answers_along (world_of other) cs }
{}

/// Independent commands commute: whichever is made first, both are answered alike, and the worlds after both are alike. So two
/// schedules that differ only in the order of two such lines give the same answers forever.
pub fn independent_commands_commute()
    ensures { (asked : List ℕ → Bool) (bounds : Bounds) (w : World) (c d : Command) →
        IsRoomy w → IsWithin bounds w → AreIndependent asked bounds c d → Passes w c → Passes w d → Commute asked w c d }
{}

/// A line that can be made, and is independent of the lines that other clients make along a schedule, may be made before them, if no
/// client goes back by one of these lines: each line is answered as it was, and the standings at the end are alike.
pub fn an_independent_line_may_go_first()
    ensures { (asked : List ℕ → Bool) (bounds : Bounds) (plan : Lines) (client : ℕ) (step : Step) (others : Schedule)
        (now later : Standing) →
        MayAsk asked plan → IsSound (world_of now.history) → IsPatient step.command step.waits →
        next_line plan now client ≡ Some step → can_be_made now step ≡ true → LeadsForward (made_by now client) step →
        AllGoBeside asked bounds plan client step.command now others → Leads plan now others later →
        MayGoFirst asked plan client step now others later }
{}

/// Some clients are chosen, and no other passes its limit before one of them goes. Along a schedule of the others, each chosen
/// client that is free may go first, and no held one can go. Lines may be tested for independence by bounds that hold only while the
/// chosen clients stand still.
pub fn chosen_clients_may_go_first()
    ensures { (asked : List ℕ → Bool) (bounds : Bounds) (plan : Lines) (now later : Standing) (choice : Choice) (others : Schedule) →
        MayAsk asked plan → IsCalm plan now → KeepsWithin bounds plan now choice → StopsOthers plan now choice →
        All (λ client. choice.chosen client ≡ false) others → Leads plan now others later →
        ChosenStandStill asked bounds plan now choice others later }
{}

/// There is room for two more files along every schedule of a plan, if there is once each of its lines was made.
pub fn plans_with_room_are_calm()
    ensures { (plan : Lines) → CanBeExplored plan → HasRoom plan → IsCalm plan (beginning plan) }
{}
