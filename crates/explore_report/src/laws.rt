//! What the commands of a schedule are answered, one after another: the law is the contract of a function with an empty body.
ghost use Rattle.std.specs.Prelude.{◌≡◌, ℕ, ◌++◌, ◌∷◌, [], Some, slice_get, take};
ghost use Rattle.command_core.specs.declared.answer.Answer.{Answer};
ghost use Rattle.command_core.specs.declared.command.Command.{Command};
ghost use Rattle.desk_core.specs.theorem.World.{empty_world};
ghost use Rattle.explore_core.specs.Alike.{answers_along};
ghost use Rattle.explore_core.specs.Schedule.{IsAnswered, IsEndAnswered, Lines, Schedule};
ghost use Rattle.explore_report.specs.Making.{commands_to, commands_with};

/// A fresh desk that runs the commands of a schedule, and then the line, gives that line's answer last.
pub fn a_replayed_schedule_gives_its_answers()
    ensures line { (plan : Lines) (schedule : Schedule) (client place : ℕ) (given : Answer) →
        IsAnswered plan schedule client place given →
        answers_along empty_world (commands_with plan schedule client)
        ≡ answers_along empty_world (commands_to plan schedule) ++ given ∷ [] }
    ensures end { (plan : Lines) (schedule : Schedule) (place : ℕ) (given : Answer) (command : Command) →
        IsEndAnswered plan schedule place given → slice_get plan.last place ≡ Some command →
        answers_along empty_world ((commands_to plan schedule ++ take place plan.last) ++ command ∷ [])
        ≡ answers_along empty_world (commands_to plan schedule ++ take place plan.last) ++ given ∷ [] }
{}
