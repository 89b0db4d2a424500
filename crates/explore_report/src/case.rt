//! `Case`: an answer that a line of a plan gives in some schedule, with its text and what is wrong with it. `Report` lists all.
ghost use Rattle.std.specs.Prelude.{◌≡◌, ◌++◌, ◌∷◌, [], IfOk, OnOk, map, slice_get};
ghost use Rattle.explore_report.specs.Cases.{by_place, case_at, cases_of, client_cases, first_case, first_cases, is_of, judged, judged_of, line_cases, section_cases};
ghost use Rattle.explore_core.specs.Alike.{answers_along};
ghost use Rattle.explore_report.specs.Making.{HasMade, case_commands, case_standing, section_at};
ghost use Rattle.desk_core.specs.theorem.World.{empty_world};
ghost use Rattle.report_core.specs.Answer.{text_of};

use crate::context::Section;
use crate::finding::{Finding, finding_of};
use crate::plan_script::PlanScript;
use crate::row::push_commands;
use crate::schedule::Making;
use command_core::Answer;
use explore_core::{Found, Given};
use report_core::print;
use std::alloc::{AllocError, Global};

/// An answer that a line gives in some schedule.
#[derive(Drop)]
pub(crate) struct Case {
    /// The index of the line's row.
    pub row: usize,
    /// Its text, each line of it with a line feed.
    pub text: Vec<u8>,
    pub finding: Option<Finding>,
    /// The clients that go before the line is made.
    pub schedule: Vec<usize>,
}

impl Case {
    /// Makes the rows up to this answer, and its own if it is a client's line.
    pub(crate) fn make(&self, plan: &PlanScript<'_>, making: &mut Making) -> Result<(), AllocError>
        ensures made { OnOk result (HasMade
            (case_commands plan.now.plan (section_at plan.now self.now.row) self.now.schedule.items)
            (case_standing plan.now.plan (section_at plan.now self.now.row) self.now.schedule.items)
            making.new) }
    {
        making.follow(plan, self.schedule.as_slice())?;
        making.push_own(plan, plan.section_of(self.row))?;
        Ok(())
    }
}

/// The answers of all lines, in order of rows.
pub(crate) fn cases_of(
    alloc: Global,
    plan: &PlanScript<'_>,
    found: &Found,
    making: &mut Making,
) -> Result<Vec<Case>, AllocError>
    ensures cases { IfOk result (λ cases. map judged_of cases.items ≡ cases_of plan.now found.now) }
{
    // The commands of the first section, whose answers no schedule changes.
    making.follow(plan, &[])?;
    let mut cases = Vec::new(alloc);
    push_cases(alloc, plan, making.answers.as_slice(), found, &mut cases)?;
    Ok(cases)
}

fn push_cases(
    alloc: Global,
    plan: &PlanScript<'_>,
    first: &[Answer],
    found: &Found,
    cases: &mut Vec<Case>,
) -> Result<(), AllocError>
    requires first { first.now ≡ answers_along empty_world plan.now.plan.first }
    ensures pushed { OnOk result (map judged_of cases.new.items ≡ map judged_of cases.old.items ++ cases_of plan.now found.now) }
{
    let clients = plan.client_count();
    push_first(alloc, plan, first, cases)?;
    push_clients(alloc, plan, found.given.as_slice(), clients, cases)?;
    let ended = found.ended.as_slice();
    push_section(alloc, plan, ended, clients, Section::Last, cases)?;
    Ok(())
}

/// The answers of the first section, one for each of its commands.
fn push_first(
    alloc: Global,
    plan: &PlanScript<'_>,
    answers: &[Answer],
    cases: &mut Vec<Case>,
) -> Result<(), AllocError>
    ensures pushed { OnOk result (map judged_of cases.new.items ≡ map judged_of cases.old.items ++ first_cases plan.now answers.now) }
{
    let mut rows = Vec::new(alloc);
    push_commands(plan.rows.as_slice(), Section::First, &mut rows)?;
    push_answers(alloc, plan, rows.as_slice(), answers, cases)?;
    Ok(())
}

/// The answers of the commands of these rows, one for each.
fn push_answers(
    alloc: Global,
    plan: &PlanScript<'_>,
    rows: &[usize],
    answers: &[Answer],
    cases: &mut Vec<Case>,
) -> Result<(), AllocError>
    ensures pushed { OnOk result (map judged_of cases.new.items
        ≡ map judged_of cases.old.items ++ by_place (first_case plan.now rows.now) 0 answers.now) }
{
    for (place, answer) in answers.iter().enumerate() {
        push_answer(alloc, plan, rows, place, answer, cases)?;
    }
    Ok(())
}

fn push_answer(
    alloc: Global,
    plan: &PlanScript<'_>,
    rows: &[usize],
    place: usize,
    answer: &Answer,
    cases: &mut Vec<Case>,
) -> Result<(), AllocError>
    ensures pushed { OnOk result (map judged_of cases.new.items
        ≡ map judged_of cases.old.items ++ first_case plan.now rows.now place answer.now) }
{
    if let Some(index) = row_at(rows, place) {
        push_case(alloc, plan, index, answer, &[], cases)?;
    }
    Ok(())
}

fn row_at(rows: &[usize], place: usize) -> Option<usize>
    ensures { result ≡ slice_get rows.now place }
{
    rows.get(place).copied()
}

/// The answers of each client's lines.
fn push_clients(
    alloc: Global,
    plan: &PlanScript<'_>,
    given: &[Given],
    clients: usize,
    cases: &mut Vec<Case>,
) -> Result<(), AllocError>
    ensures pushed { OnOk result (map judged_of cases.new.items
        ≡ map judged_of cases.old.items ++ client_cases plan.now given.now clients) }
{
    for client in 0..clients {
        push_section(alloc, plan, given, client, Section::Client(client), cases)?;
    }
    Ok(())
}

/// The answers of a section's commands, which `given` lists as the lines of this client. The number of clients means the last
/// section.
fn push_section(
    alloc: Global,
    plan: &PlanScript<'_>,
    given: &[Given],
    client: usize,
    section: Section,
    cases: &mut Vec<Case>,
) -> Result<(), AllocError>
    ensures pushed { OnOk result (map judged_of cases.new.items
        ≡ map judged_of cases.old.items ++ section_cases plan.now given.now client section) }
{
    let mut rows = Vec::new(alloc);
    push_commands(plan.rows.as_slice(), section, &mut rows)?;
    push_lines(alloc, plan, given, client, rows.as_slice(), cases)?;
    Ok(())
}

/// The answers of the client's lines, which are these rows.
fn push_lines(
    alloc: Global,
    plan: &PlanScript<'_>,
    given: &[Given],
    client: usize,
    rows: &[usize],
    cases: &mut Vec<Case>,
) -> Result<(), AllocError>
    ensures pushed { OnOk result (map judged_of cases.new.items
        ≡ map judged_of cases.old.items ++ by_place (line_cases plan.now given.now client) 0 rows.now) }
{
    for (place, index) in rows.iter().enumerate() {
        push_given(alloc, plan, given, client, place, *index, cases)?;
    }
    Ok(())
}

/// Appends the answers of the client's line at `place`, whose row is at `index`.
fn push_given(
    alloc: Global,
    plan: &PlanScript<'_>,
    given: &[Given],
    client: usize,
    place: usize,
    index: usize,
    cases: &mut Vec<Case>,
) -> Result<(), AllocError>
    ensures pushed { OnOk result (map judged_of cases.new.items
        ≡ map judged_of cases.old.items ++ line_cases plan.now given.now client place index) }
{
    for one in given {
        push_if(alloc, plan, one, client, place, index, cases)?;
    }
    Ok(())
}

fn push_if(
    alloc: Global,
    plan: &PlanScript<'_>,
    one: &Given,
    client: usize,
    place: usize,
    index: usize,
    cases: &mut Vec<Case>,
) -> Result<(), AllocError>
    ensures pushed { OnOk result (map judged_of cases.new.items
        ≡ map judged_of cases.old.items ++ case_at plan.now client place index one.now) }
{
    if is_of(one, client, place) {
        let schedule = one.schedule.as_slice();
        push_case(alloc, plan, index, &one.answer, schedule, cases)?;
    }
    Ok(())
}

/// Whether it is an answer of the client's line in this place.
fn is_of(given: &Given, client: usize, place: usize) -> bool
    ensures { result ≡ is_of client place given.now }
{
    given.client == client && given.place == place
}

fn push_case(
    alloc: Global,
    plan: &PlanScript<'_>,
    index: usize,
    answer: &Answer,
    schedule: &[usize],
    cases: &mut Vec<Case>,
) -> Result<(), AllocError>
    ensures pushed { OnOk result (map judged_of cases.new.items
        ≡ map judged_of cases.old.items ++ judged plan.now index answer.now schedule.now ∷ []) }
{
    cases.reserve(1)?;
    let case = case_of(alloc, plan, index, answer, schedule)?;
    cases.push_reserved(case);
    Ok(())
}

pub(crate) fn case_of(
    alloc: Global,
    plan: &PlanScript<'_>,
    index: usize,
    answer: &Answer,
    schedule: &[usize],
) -> Result<Case, AllocError>
    ensures judged { IfOk result (λ one. judged_of one ≡ judged plan.now index answer.now schedule.now) }
{
    let text = answer_text(alloc, answer)?;
    let finding = finding_of(plan, index, answer, text.as_slice());
    let mut clients = Vec::new(alloc);
    clients.extend_from_slice(schedule)?;
    Ok(Case {
        row: index,
        text,
        finding,
        schedule: clients,
    })
}

/// The text of an answer to a command.
pub(crate) fn answer_text(alloc: Global, answer: &Answer) -> Result<Vec<u8>, AllocError>
    ensures text { IfOk result (λ text. text.items ≡ text_of 0 answer.now) }
{
    let mut text = Vec::new(alloc);
    // The number is printed of lines that are no command.
    let Ok(()) = print(0, answer, &mut text) else {
        return Err(AllocError);
    };
    Ok(text)
}
