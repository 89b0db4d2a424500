//! `Position`: a desk along a schedule, and how many lines each client has made or skipped on it.
ghost use Rattle.std.specs.Prelude.{◌≡◌, ◌&&◌, true, List, Some, IsTrue, IfOk, OnOk, set, slice_get, option_copied};
ghost use Rattle.command_core.specs.declared.command.Command.{Command};
ghost use Rattle.desk_core.specs.theorem.Answer.{is_refused};
ghost use Rattle.desk_core.specs.theorem.Desk.{HasHistory};
ghost use Rattle.explore_core.specs.Schedule.{Lines, Standing, ComesTo, Leads, after_one, answer_now, history_along, history_with, lines_of, made_by, next_line, place_after};
ghost use Rattle.explore_core.specs.Search.{IsMade, IsAt, IsTurn, keeps_world, standing_of};

use crate::plan::{Plan, Step, next_place};
use crate::progress::{clear_made, count_to, place_of};
use command_core::{Answer, Command};
use desk_core::Desk;
use point_core::Refusal;
use std::alloc::{AllocError, Global};

#[derive(Drop)]
pub(crate) struct Position {
    pub(crate) desk: Desk,
    pub(crate) made: Vec<usize>,
}

impl Position {
    /// A fresh desk, before the first commands of a plan.
    pub(crate) fn new(alloc: Global) -> Position {
        Position {
            desk: Desk::new(alloc).unwrap(),
            made: Vec::new(alloc),
        }
    }

    /// Empties the desk, and moves to the position after this schedule. A new desk would take kilobytes and two allocations for
    /// each file; on the emptied desk the next files reuse the memory of these.
    pub(crate) fn restart(&mut self, plan: &Plan, schedule: &[u16]) -> Result<(), AllocError>
        requires comes { ComesTo plan.now schedule.now (standing_of plan.now schedule.now) }
        ensures at { OnOk result (IsAt self.new (standing_of plan.now schedule.now)) }
    {
        clear_made(&mut self.made, plan.clients.len())?;
        self.desk.clear();
        make_all(&mut self.desk, plan.first.as_slice())?;
        self.go_along(plan, schedule)?;
        Ok(())
    }

    /// The clients make their lines in the order of the schedule, if the schedule leads on from here.
    fn go_along(&mut self, plan: &Plan, schedule: &[u16]) -> Result<(), AllocError>
        ensures along { OnOk result ((from to : Standing) →
            IsAt self.old from → Leads plan.now from schedule.now to → IsAt self.new to) }
    {
        for client in schedule {
            self.go_again(plan, usize::from(*client))?;
        }
        Ok(())
    }

    /// The client makes its next line, which can be made here.
    fn go_again(&mut self, plan: &Plan, client: usize) -> Result<(), AllocError>
        ensures after { OnOk result ((now next : Standing) →
            IsAt self.old now → after_one plan.now now client ≡ Some next → IsAt self.new next) }
    {
        let place = place_of(self.made.as_slice(), client);
        let Some(step) = line_at(plan, client, place) else {
            return Ok(());
        };
        let next = pass(&mut self.desk, step, place)?;
        self.count_to(client, next);
        Ok(())
    }

    /// The client makes its line at this place, and gets this answer, unless it has to wait with the line. A line that is not due is not
    /// tried on the desk.
    pub(crate) fn go(
        &mut self,
        client: usize,
        place: usize,
        step: &Step,
    ) -> Result<Option<Answer>, AllocError>
        ensures made { IfOk result (λ made. (plan : Lines) (now : Standing) → IsAt self.old now →
            made_by now client ≡ place → next_line plan now client ≡ Some step.now → IsTurn plan now client place made self.new) }
    {
        if !step.is_due(self.made.as_slice()) {
            return Ok(None);
        }
        let answer = make(&mut self.desk, step.command)?;
        if is_held(step, &answer) {
            drop(answer);
            return Ok(None);
        }
        let Ok(next) = step.place_after(place, &answer) else {
            drop(answer);
            return Err(AllocError);
        };
        self.count_to(client, next);
        Ok(Some(answer))
    }

    /// Counts the client's lines as made up to this place.
    pub(crate) fn count_to(&mut self, client: usize, place: usize)
        ensures desk { self.new.desk ≡ self.old.desk }
        ensures made { self.new.made.items ≡ set self.old.made.items client place }
    {
        count_to(&mut self.made, client, place);
    }
}

/// The client's line at this place, unless the client has fewer lines. A script of a schedule takes its lines from here.
pub fn line_at(plan: &Plan, client: usize, place: usize) -> Option<&Step>
    ensures { option_copied result ≡ slice_get (lines_of plan.now client) place }
{
    let lines = plan.clients.get(client)?;
    lines.get(place)
}

/// Whether the command only asks, or drops what no answer shows.
pub(crate) fn keeps_world(command: &Command) -> bool
    ensures { result ≡ keeps_world command.now }
{
    match command {
        Command::Value(_) => true,
        Command::Wait(_) => true,
        Command::Info(_) => true,
        Command::Test(_, _) => true,
        Command::Trim(_) => true,
        Command::Show(_) => true,
        Command::Report => true,
        _ => false,
    }
}

/// Makes the commands one after another, but for those that only ask.
fn make_all(desk: &mut Desk, commands: &[Command]) -> Result<(), AllocError>
    ensures along { OnOk result ((history : List Command) →
        HasHistory desk.old history → HasHistory desk.new (history_along history commands.now)) }
{
    for command in commands {
        make_again(desk, *command)?;
    }
    Ok(())
}

/// Makes the line, whose answer is known, and gives the place of the client's next line. Only a branch depends on the answer.
fn pass(desk: &mut Desk, step: &Step, place: usize) -> Result<usize, AllocError>
    ensures along { OnOk result ((history : List Command) →
        HasHistory desk.old history → HasHistory desk.new (history_with history step.now.command)) }
    ensures next { IfOk result (λ next. (history : List Command) →
        HasHistory desk.old history → next ≡ place_after step.now place (answer_now history step.now.command)) }
{
    if step.branch.is_none() {
        make_again(desk, step.command)?;
        return next_place(place);
    }
    let answer = make(desk, step.command)?;
    let next = step.place_after(place, &answer);
    drop(answer);
    next
}

/// Makes the command, unless it only asks: the desk answers alike without it.
fn make_again(desk: &mut Desk, command: Command) -> Result<(), AllocError>
    ensures along { OnOk result ((history : List Command) →
        HasHistory desk.old history → HasHistory desk.new (history_with history command)) }
{
    if keeps_world(&command) {
        return Ok(());
    }
    drop(make(desk, command)?);
    Ok(())
}

/// Makes the command, and fails if the desk finds no memory for it.
pub fn make(desk: &mut Desk, command: Command) -> Result<Answer, AllocError>
    ensures made { IfOk result (λ given. IsMade desk.old command given desk.new) }
{
    let answer = desk.step(command);
    if is_memory(&answer) {
        drop(answer);
        return Err(AllocError);
    }
    Ok(answer)
}

fn is_memory(answer: &Answer) -> bool
    ensures { answer.now ≡ Answer.Refused Refusal.Memory → IsTrue result }
{
    match answer {
        Answer::Refused(refusal) => *refusal == Refusal::Memory,
        _ => false,
    }
}

/// Whether a client waits with a line that would get this answer.
fn is_held(step: &Step, answer: &Answer) -> bool
    ensures { result ≡ (step.now.waits && is_refused answer.now) }
{
    step.waits && is_refused(answer)
}

pub(crate) fn is_refused(answer: &Answer) -> bool
    ensures { result ≡ is_refused answer.now }
{
    match answer {
        Answer::Refused(_) => true,
        _ => false,
    }
}
