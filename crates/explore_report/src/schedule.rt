//! `Making`: a desk on which the rows of a plan are made in the order of a schedule. Reports and scripts of schedules go by it.
ghost use Rattle.std.specs.Prelude.{◌≡◌, ◌++◌, ◌∷◌, [], IfOk, List, OnOk, set};
ghost use Rattle.command_core.specs.declared.command.Command.{Command as Made};
ghost use Rattle.explore_core.specs.Schedule.{Standing, answer_now, place_after};
ghost use Rattle.explore_report.specs.Making.{HasFollowed, HasMade, command_at, commands_along, fresh, own_command, own_standing, standing_along, standing_past, standing_with};

use crate::context::Section;
use crate::plan_script::PlanScript;
use crate::row::push_commands;
use command_core::{Answer, Command};
use desk_core::Desk;
use explore_core::{Milestone, Step, clear_made, count_to, line_at, make, place_of};
use std::alloc::{AllocError, Global};

/// The rows of a plan in the order in which a schedule makes them, and the desk that answers them.
#[derive(Drop)]
pub(crate) struct Making {
    /// The indices of the rows.
    pub rows: Vec<usize>,
    /// The answers to their commands.
    pub answers: Vec<Answer>,
    pub desk: Desk,
    /// How many lines each client has made or skipped.
    pub made: Vec<usize>,
}

impl Making {
    /// A fresh desk, which has made nothing.
    pub(crate) fn new(alloc: Global) -> Making {
        Making {
            rows: Vec::new(alloc),
            answers: Vec::new(alloc),
            desk: Desk::new(alloc).unwrap(),
            made: Vec::new(alloc),
        }
    }

    /// Makes the commands of the first section, and then the schedule's lines, on the emptied desk.
    ///
    /// Fails also if a command is refused memory, since no schedule of the plan answers so.
    pub(crate) fn follow(
        &mut self,
        plan: &PlanScript<'_>,
        schedule: &[usize],
    ) -> Result<(), AllocError>
        ensures follows { OnOk result (HasFollowed plan.now.plan schedule.now self.new) }
    {
        self.clear(plan.client_count())?;
        self.push_first(plan)?;
        self.push_lines(plan, schedule)?;
        Ok(())
    }

    fn clear(&mut self, clients: usize) -> Result<(), AllocError>
        ensures cleared { OnOk result (HasMade [] (fresh clients) self.new) }
    {
        clear_made(&mut self.made, clients)?;
        self.rows.clear();
        self.answers.clear();
        self.desk.clear();
        Ok(())
    }

    /// Makes the commands of the first section.
    fn push_first(&mut self, plan: &PlanScript<'_>) -> Result<(), AllocError>
        ensures first { OnOk result ((commands : List Made) (now : Standing) → HasMade commands now self.old →
            HasMade (commands ++ plan.now.plan.first) (standing_past now plan.now.plan.first) self.new) }
    {
        self.push_section(plan, Section::First, plan.plan.first.as_slice())
    }

    /// Makes the commands of the last section.
    pub(crate) fn push_last(&mut self, plan: &PlanScript<'_>) -> Result<(), AllocError>
        ensures last { OnOk result ((commands : List Made) (now : Standing) → HasMade commands now self.old →
            HasMade (commands ++ plan.now.plan.last) (standing_past now plan.now.plan.last) self.new) }
    {
        self.push_section(plan, Section::Last, plan.plan.last.as_slice())
    }

    /// Makes the commands of the first or the last section, which are `own`.
    fn push_section(
        &mut self,
        plan: &PlanScript<'_>,
        section: Section,
        own: &[Command],
    ) -> Result<(), AllocError>
        ensures own { OnOk result ((commands : List Made) (now : Standing) → HasMade commands now self.old →
            HasMade (commands ++ own.now) (standing_past now own.now) self.new) }
    {
        push_commands(plan.rows.as_slice(), section, &mut self.rows)?;
        self.make_all(own)?;
        Ok(())
    }

    fn make_all(&mut self, own: &[Command]) -> Result<(), AllocError>
        ensures made { OnOk result ((commands : List Made) (now : Standing) → HasMade commands now self.old →
            HasMade (commands ++ own.now) (standing_past now own.now) self.new) }
    {
        for command in own {
            self.make(*command)?;
        }
        Ok(())
    }

    fn make(&mut self, command: Command) -> Result<(), AllocError>
        ensures made { OnOk result ((commands : List Made) (now : Standing) → HasMade commands now self.old →
            HasMade (commands ++ command ∷ []) (standing_past now (command ∷ [])) self.new) }
    {
        let answer = make(&mut self.desk, command)?;
        self.answers.push(answer)?;
        Ok(())
    }

    /// Makes the lines of a schedule, in order.
    fn push_lines(&mut self, plan: &PlanScript<'_>, schedule: &[usize]) -> Result<(), AllocError>
        ensures lines { OnOk result ((commands : List Made) (now : Standing) → HasMade commands now self.old →
            HasMade (commands ++ commands_along plan.now.plan now schedule.now) (standing_along plan.now.plan now schedule.now) self.new) }
    {
        for client in schedule {
            self.push_line(plan, *client)?;
        }
        Ok(())
    }

    /// Makes the next line of a client, if it is not done.
    fn push_line(&mut self, plan: &PlanScript<'_>, client: usize) -> Result<(), AllocError>
        ensures line { OnOk result ((commands : List Made) (now : Standing) → HasMade commands now self.old →
            HasMade (commands ++ command_at plan.now.plan now client) (standing_with plan.now.plan now client) self.new) }
    {
        let place = place_of(self.made.as_slice(), client);
        let Some(step) = line_at(&plan.plan, client, place) else {
            return Ok(());
        };
        push_row(plan, client, place, &mut self.rows)?;
        let next = self.make_line(step, place)?;
        self.count_to(client, next);
        Ok(())
    }

    /// Makes a client's line, which is at this place, and returns the place of the client's next line.
    fn make_line(&mut self, step: &Step, place: usize) -> Result<usize, AllocError>
        ensures made { OnOk result ((commands : List Made) (now : Standing) → HasMade commands now self.old →
            HasMade (commands ++ step.now.command ∷ []) (standing_past now (step.now.command ∷ [])) self.new) }
        ensures next { IfOk result (λ next. (commands : List Made) (now : Standing) → HasMade commands now self.old →
            next ≡ place_after step.now place (answer_now now.history step.now.command)) }
    {
        let answer = make(&mut self.desk, step.command)?;
        let Ok(next) = step.place_after(place, &answer) else {
            drop(answer);
            return Err(AllocError);
        };
        self.answers.push(answer)?;
        Ok(next)
    }

    /// Counts the client's lines as made or skipped up to this place.
    fn count_to(&mut self, client: usize, place: usize)
        ensures desk { self.new.desk ≡ self.old.desk }
        ensures answers { self.new.answers ≡ self.old.answers }
        ensures made { self.new.made.items ≡ set self.old.made.items client place }
    {
        count_to(&mut self.made, client, place);
    }

    /// Makes the next line of the section's client, if the section is a client's.
    pub(crate) fn push_own(
        &mut self,
        plan: &PlanScript<'_>,
        section: Section,
    ) -> Result<(), AllocError>
        ensures own { OnOk result ((commands : List Made) (now : Standing) → HasMade commands now self.old →
            HasMade (commands ++ own_command plan.now.plan now section) (own_standing plan.now.plan now section) self.new) }
    {
        match section {
            Section::First => Ok(()),
            Section::Client(client) => self.push_line(plan, client),
            Section::Last => Ok(()),
        }
    }

    /// The index of the row with the client's next line. None if the client is done.
    pub(crate) fn next_of(&self, plan: &PlanScript<'_>, client: usize) -> Option<usize> {
        plan.row_at(
            Section::Client(client),
            place_of(self.made.as_slice(), client),
        )
    }

    /// The marked line behind which the client's next line comes, while it is not passed.
    pub(crate) fn hold_of(&self, plan: &PlanScript<'_>, client: usize) -> Option<Milestone> {
        let made = self.made.as_slice();
        let step = line_at(&plan.plan, client, place_of(made, client))?;
        let marked = step.after?;
        if place_of(made, marked.client) > marked.place {
            return None;
        }
        Some(marked)
    }

    /// Appends the index of the row of each client's next line.
    pub(crate) fn push_waiting(
        &self,
        plan: &PlanScript<'_>,
        waiting: &mut Vec<usize>,
    ) -> Result<(), AllocError> {
        for client in 0..plan.client_count() {
            if let Some(index) = self.next_of(plan, client) {
                waiting.push(index)?;
            }
        }
        Ok(())
    }

    /// Makes each client's next line.
    pub(crate) fn push_next(&mut self, plan: &PlanScript<'_>) -> Result<(), AllocError> {
        for client in 0..plan.client_count() {
            self.push_line(plan, client)?;
        }
        Ok(())
    }
}

/// Appends the index of the row of the client's line at this place.
fn push_row(
    plan: &PlanScript<'_>,
    client: usize,
    place: usize,
    rows: &mut Vec<usize>,
) -> Result<(), AllocError> {
    if let Some(index) = plan.row_at(Section::Client(client), place) {
        rows.push(index)?;
    }
    Ok(())
}
