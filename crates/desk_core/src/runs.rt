//! `run`: a list of commands on a new desk. Its contract is this crate's main theorem; `specs/theorem/` has the
//! statement.
ghost use Rattle.std.specs.Prelude.{◌≡◌, [], IfOk, IfErr, length, vec_len, vec_capacity};
ghost use Rattle.desk_core.specs.theorem.History.{history_of, AreAnswers};
ghost use Rattle.desk_core.specs.theorem.Desk.{HasHistory};
ghost use Rattle.desk_core.specs.theorem.Headline.{ReportsSums, ReportsWhatWasPut, ReportsWhatIsInBuffers, ReportsWhatFires, ReportsEachWatch};

use crate::desk::Desk;
use command_core::{Answer, Command};
use point_core::Refusal;
use std::alloc::Global;

/// Runs the commands one after another over a fresh desk. Gives the desk and one answer a command.
///
/// Fails only with `Memory`, when there is none for the desk or for the list of answers.
///
/// Users of the library call it; no program here does.
pub fn run(alloc: Global, commands: &[Command]) -> Result<(Desk, Vec<Answer>), Refusal>
    ensures answers { IfOk result (λ r. AreAnswers [] commands.now r.1.items) }
    ensures stands { IfOk result (λ r. HasHistory r.0 (history_of [] commands.now r.1.items)) }
    ensures sums { IfOk result (λ r. ReportsSums r.0 (history_of [] commands.now r.1.items)) }
    ensures files { IfOk result (λ r. ReportsWhatWasPut r.0 (history_of [] commands.now r.1.items)) }
    ensures buffers { IfOk result (λ r. ReportsWhatIsInBuffers r.0 (history_of [] commands.now r.1.items)) }
    ensures watches { IfOk result (λ r. ReportsWhatFires r.0 (history_of [] commands.now r.1.items)) }
    ensures each_watch { IfOk result (λ r. ReportsEachWatch r.0 commands.now r.1.items) }
    ensures memory { IfErr result (λ e. e ≡ Refusal.Memory) }
{
    let mut answers = Vec::with_capacity(alloc, commands.len())?;
    let mut desk = Desk::new(alloc).unwrap();
    answer_each(&mut desk, commands, &mut answers);
    Ok((desk, answers))
}

/// Runs the commands over a desk that no command has changed yet, and lists their answers, for which there is room.
fn answer_each(desk: &mut Desk, commands: &[Command], answers: &mut Vec<Answer>)
    requires empty { HasHistory desk.old [] }
    requires none { answers.old.items ≡ [] }
    requires room { (vec_len answers.old ≡ 0) × (vec_capacity answers.old ≡ length commands.now) }
    ensures answers { AreAnswers [] commands.now answers.new.items }
    ensures stands { HasHistory desk.new (history_of [] commands.now answers.new.items) }
{
    for command in commands {
        answers.push_reserved(desk.step(*command));
    }
}
