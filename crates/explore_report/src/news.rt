//! `News`: what is wrong of what a search has found since the last look. `fencectl explore` tells it while the search goes on, and
//! ends the search at the first finding with `--first`.
ghost use Rattle.std.specs.Prelude.{◌≡◌, IfErr};
ghost use Rattle.point_core.specs.declared.refusal.Refusal.TheVariants.{Memory};

use crate::case::{Case, case_of};
use crate::context::Section;
use crate::plan_script::PlanScript;
use crate::schedule::Making;
use crate::text::{add_case, add_number, add_race, add_schedule, add_steps, add_wrong};
use command_core::Answer;
use explore_core::{Found, Given};
use point_core::Refusal;
use std::alloc::{AllocError, Global};
use text_core::Page;

/// How much of what a search finds was looked at, and how much of that is wrong.
#[derive(Drop)]
pub struct News<'a> {
    alloc: Global,
    plan: &'a PlanScript<'a>,
    // whether the answers of the first section were looked at, and whether the schedule that gets stuck was
    has_begun: bool,
    is_stuck: bool,
    // how many races and answers were
    races: usize,
    given: usize,
    ended: usize,
    findings: usize,
}

impl<'a> News<'a> {
    /// Nothing was looked at.
    pub fn new(alloc: Global, plan: &'a PlanScript<'a>) -> News<'a> {
        News {
            alloc,
            plan,
            has_begun: false,
            is_stuck: false,
            races: 0,
            given: 0,
            ended: 0,
            findings: 0,
        }
    }

    /// How many findings there were up to the last look.
    pub fn findings(&self) -> usize {
        self.findings
    }

    /// The findings since the last look as text, each with the lines that are made before it; `name` is the plan's file.
    ///
    /// Fails with `Memory` only.
    pub fn look(&mut self, name: &str, found: &Found) -> Result<Vec<u8>, Refusal>
        ensures memory { IfErr result (λ e. e ≡ Memory) }
    {
        let mut making = Making::new(self.alloc);
        let text = self.text(name, found, &mut making);
        drop(making);
        Ok(text?)
    }

    fn text(
        &mut self,
        name: &str,
        found: &Found,
        making: &mut Making,
    ) -> Result<Vec<u8>, AllocError> {
        let mut page = Page::new(self.alloc);
        self.add_stuck(name, found, making, &mut page);
        self.add_races(name, found, making, &mut page);
        self.add_answers(name, found, making, &mut page);
        page.finish()
    }

    fn add_stuck(&mut self, name: &str, found: &Found, making: &mut Making, page: &mut Page) {
        if self.is_stuck {
            return;
        }
        if let Some(schedule) = &found.stuck {
            add_steps(self.plan, name, schedule.len(), page);
            add_number(None, page);
            add_schedule(self.plan, schedule.as_slice(), making, page);
            self.is_stuck = true;
            self.count();
        }
    }

    fn add_races(&mut self, name: &str, found: &Found, making: &mut Making, page: &mut Page) {
        let races = found.races.as_slice();
        for race in races.get(self.races..).unwrap_or(&[]) {
            add_race(self.plan, name, race, None, making, page);
            self.count();
        }
        self.races = races.len();
    }

    fn add_answers(&mut self, name: &str, found: &Found, making: &mut Making, page: &mut Page) {
        let mut cases = Vec::new(self.alloc);
        if self.push_cases(found, making, &mut cases).is_err() {
            page.fail();
        }
        for case in cases.as_slice() {
            self.add_answer(name, case, making, page);
        }
    }

    /// Adds an answer, if it is wrong.
    fn add_answer(&mut self, name: &str, case: &Case, making: &mut Making, page: &mut Page) {
        if let Some(finding) = case.finding {
            add_wrong(self.plan, name, case, finding, page);
            add_number(None, page);
            add_case(self.plan, case, making, page);
            self.count();
        }
    }

    /// Counts a finding.
    fn count(&mut self) {
        self.findings = self.findings.saturating_add(1);
    }

    /// The answers since the last look.
    fn push_cases(
        &mut self,
        found: &Found,
        making: &mut Making,
        cases: &mut Vec<Case>,
    ) -> Result<(), AllocError> {
        if !self.has_begun {
            making.follow(self.plan, &[])?;
            self.push_first(making.answers.as_slice(), cases)?;
            self.has_begun = true;
        }
        let given = found.given.as_slice();
        self.push_given(given.get(self.given..).unwrap_or(&[]), cases)?;
        self.given = given.len();
        let ended = found.ended.as_slice();
        self.push_given(ended.get(self.ended..).unwrap_or(&[]), cases)?;
        self.ended = ended.len();
        Ok(())
    }

    /// The answers of the first section, which no schedule changes.
    fn push_first(&self, answers: &[Answer], cases: &mut Vec<Case>) -> Result<(), AllocError> {
        for (place, answer) in answers.iter().enumerate() {
            self.push(Section::First, place, answer, &[], cases)?;
        }
        Ok(())
    }

    /// Answers of clients' lines, and of commands at the end.
    fn push_given(&self, given: &[Given], cases: &mut Vec<Case>) -> Result<(), AllocError> {
        for one in given {
            let section = self.section_of(one.client);
            self.push(
                section,
                one.place,
                &one.answer,
                one.schedule.as_slice(),
                cases,
            )?;
        }
        Ok(())
    }

    /// The section of a client. The number of clients means the last section.
    fn section_of(&self, client: usize) -> Section {
        if client < self.plan.client_count() {
            Section::Client(client)
        } else {
            Section::Last
        }
    }

    /// The answer of the section's command in this place, with the clients that go before.
    fn push(
        &self,
        section: Section,
        place: usize,
        answer: &Answer,
        schedule: &[usize],
        cases: &mut Vec<Case>,
    ) -> Result<(), AllocError> {
        let Some(row) = self.plan.row_at(section, place) else {
            return Ok(());
        };
        cases.reserve(1)?;
        let case = case_of(self.alloc, self.plan, row, answer, schedule)?;
        cases.push_reserved(case);
        Ok(())
    }
}
