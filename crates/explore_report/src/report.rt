//! `Report`: what is found of a plan, by its lines, to be written as text, as JSON, or as scripts of schedules. `fencectl explore`
//! makes one.
ghost use Rattle.std.specs.Prelude.{◌≡◌, IfErr, IfOk, count_by};
ghost use Rattle.point_core.specs.declared.refusal.Refusal.TheVariants.{Memory};
ghost use Rattle.explore_report.specs.Report.{IsReport, findings_in, has_findings, is_wrong, outcome_by, outcome_of, races_in, stuck_in};

use crate::case::{Case, cases_of};
use crate::plan_script::PlanScript;
use crate::schedule::Making;
use crate::{objects, text, witness};
use explore_core::Found;
use point_core::Refusal;
use std::alloc::Global;

/// Which findings an exploration is to find.
#[derive(Clone, Copy)]
pub enum Wanted {
    All,
    /// The first: then the search may end.
    First,
}

/// The outcome of an exploration.
#[derive(Clone, Copy)]
pub enum Outcome {
    /// Every schedule was covered, and nothing was found.
    Clean,
    /// Every schedule was covered, or only the first finding was wanted, and something was found.
    Findings,
    /// Schedules are left.
    NotCovered,
}

/// Why the search has ended.
#[derive(Clone, Copy)]
pub(crate) enum Ended {
    Covered,
    Bound,
    Memory,
    First,
}

/// What is found of a plan, by its lines.
#[derive(Drop)]
pub struct Report<'a> {
    pub(crate) alloc: Global,
    pub(crate) plan: &'a PlanScript<'a>,
    pub(crate) found: &'a Found,
    pub(crate) wanted: Wanted,
    pub(crate) cases: Vec<Case>,
}

impl<'a> Report<'a> {
    /// Judges what was found of the plan.
    ///
    /// Fails with `Memory` only.
    pub fn of(
        alloc: Global,
        plan: &'a PlanScript<'a>,
        found: &'a Found,
        wanted: Wanted,
    ) -> Result<Report<'a>, Refusal>
        ensures memory { IfErr result (λ e. e ≡ Memory) }
        ensures report { IfOk result (IsReport plan.now found.now wanted) }
    {
        let mut making = Making::new(alloc);
        let cases = cases_of(alloc, plan, found, &mut making);
        drop(making);
        Ok(Report {
            alloc,
            plan,
            found,
            wanted,
            cases: cases?,
        })
    }

    /// The report as text; `name` is the plan's file. With `everything` it has the answers of all lines.
    ///
    /// Fails with `Memory` only.
    pub fn text(&self, name: &str, everything: bool) -> Result<Vec<u8>, Refusal>
        ensures memory { IfErr result (λ e. e ≡ Memory) }
    {
        let mut making = Making::new(self.alloc);
        let text = text::text_of(self, name, everything, &mut making);
        drop(making);
        Ok(text?)
    }

    /// The report as JSON, an object on each line.
    ///
    /// Fails with `Memory` only.
    pub fn json(&self) -> Result<Vec<u8>, Refusal>
        ensures memory { IfErr result (λ e. e ≡ Memory) }
    {
        let mut making = Making::new(self.alloc);
        let json = objects::json_of(self, &mut making);
        drop(making);
        Ok(json?)
    }

    /// Schedule `number`, from 1, as a script that expects its answers. None if the report shows fewer.
    ///
    /// Fails with `Memory` only.
    pub fn script(&self, number: usize) -> Result<Option<Vec<u8>>, Refusal>
        ensures memory { IfErr result (λ e. e ≡ Memory) }
    {
        let mut making = Making::new(self.alloc);
        let script = witness::script_of(self, number, &mut making);
        drop(making);
        Ok(script?)
    }

    /// How many answers are wrong.
    pub fn findings(&self) -> usize
        ensures findings { result ≡ findings_in self.now }
    {
        count_wrong(self.cases.as_slice())
    }

    /// How many schedules that get stuck are shown.
    pub fn stuck(&self) -> usize
        ensures stuck { result ≡ stuck_in self.now }
    {
        match &self.found.stuck {
            Some(_) => 1,
            None => 0,
        }
    }

    /// How many races of two accesses are shown.
    pub fn races(&self) -> usize
        ensures races { result ≡ races_in self.now }
    {
        self.found.races.len()
    }

    /// The verdict, from which the exit status follows.
    pub fn outcome(&self) -> Outcome
        ensures outcome { result ≡ outcome_of self.now }
    {
        outcome_by(self.found.covered, self.wanted, self.has_findings())
    }

    /// Whether something is found.
    fn has_findings(&self) -> bool
        ensures findings { result ≡ has_findings self.now }
    {
        if self.stuck() > 0 {
            return true;
        }
        if self.races() > 0 {
            return true;
        }
        self.findings() > 0
    }

    /// Whether every schedule was covered, and to its end.
    pub(crate) fn is_all(&self) -> bool {
        self.found.covered && !self.plan.purpose.is_predict()
    }

    /// Why the search has ended.
    pub(crate) fn ended(&self) -> Ended {
        match self.outcome() {
            _ if self.found.covered => Ended::Covered,
            Outcome::Findings => Ended::First,
            _ if self.found.out_of_memory => Ended::Memory,
            _ => Ended::Bound,
        }
    }

    /// The answers of a row.
    pub(crate) fn cases_of(&self, row: usize) -> &[Case] {
        let cases = self.cases.as_slice();
        let below = cases.get(front(cases, row, false)..).unwrap_or(&[]);
        below.get(..front(below, row, true)).unwrap_or(below)
    }
}

/// The outcome, by whether every schedule was covered, and whether something is found (`any`).
fn outcome_by(covered: bool, wanted: Wanted, any: bool) -> Outcome
    ensures { result ≡ outcome_by covered wanted any }
{
    match wanted {
        Wanted::First if any => Outcome::Findings,
        _ if !covered => Outcome::NotCovered,
        _ if any => Outcome::Findings,
        _ => Outcome::Clean,
    }
}

/// The length of the longest front of cases that are all of the row, or none of it.
fn front(cases: &[Case], row: usize, is_of: bool) -> usize {
    for (place, case) in cases.iter().enumerate() {
        if (case.row == row) != is_of {
            return place;
        }
    }
    cases.len()
}

fn count_wrong(cases: &[Case]) -> usize
    ensures count { result ≡ count_by is_wrong cases.now }
{
    cases.iter().filter(|case| case.finding.is_some()).count()
}
