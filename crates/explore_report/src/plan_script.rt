//! `PlanScript`: a script that is a plan, with its rows and the plan that they make. Its plan can be explored.
//! `Report` and `fencectl` read it.
ghost use Rattle.std.specs.Prelude.{◌≡◌, ◌+◌, IfErr, IfOk, drop, length, map, not, option_map, position, slice_get, true, unwrap_or, ◌-◌};
ghost use Rattle.line_core.specs.Script.{lines_of};
ghost use Rattle.explore_core.specs.Found.{CanBeExplored, HasVisited, IsAll, IsShortest, IsTrue, ListsOnce};
ghost use Rattle.explore_core.specs.Shortening.{IsShortened};
ghost use Rattle.explore_report.specs.Expected.{expectations, expected, expecting, expects};
ghost use Rattle.explore_report.specs.Making.{section_at};
ghost use Rattle.explore_report.specs.Plan.{after_notes};
ghost use Rattle.explore_report.specs.Reading.{IsReading};
ghost use Rattle.explore_report.specs.Shown.{IsBroughtNear};
ghost use Rattle.explore_report.specs.declared.turn.Turn.{Turn};

use crate::cause::Cause;
use crate::context::Section;
use crate::expected::expects_in;
use crate::line::{Line, plan_lines, texts_of};
use crate::mark::{Mark, expected_text};
use crate::mistake::{Mistake, mistake_of};
use crate::purpose::Purpose;
use crate::row::{Row, rows_of};
use crate::sections::plan_of;
use crate::shortening::{bring_near, shorten};
use crate::turn::Turn;
use crate::unrolling::turns_of;
use crate::words::without_last_spaces;
use command_core::Command;
use explore_core::{Expects, Found, Orders, Plan, Search, explore};
use line_core::{SCRIPT_BYTES, first_line, without_spaces};
use point_core::Refusal;
use std::alloc::{AllocError, Global};

/// A script that is a plan.
#[derive(Drop)]
pub struct PlanScript<'a> {
    pub(crate) lines: Vec<Line<'a>>,
    pub(crate) rows: Vec<Row>,
    /// What the notes below each row expect of its answer.
    pub(crate) expects: Vec<Expects>,
    pub(crate) purpose: Purpose,
    pub plan: Plan,
}

/// What a script is found to be.
#[derive(Drop)]
pub enum Reading<'a> {
    Plan(PlanScript<'a>),
    NoPlan(Mistake),
}

impl<'a> PlanScript<'a> {
    /// Reads a plan, or finds why the script is none: the first cause of `mistake_of` that holds, and its first line.
    ///
    /// Fails with `Memory` only.
    pub fn read(alloc: Global, script: &'a [u8], purpose: Purpose) -> Result<Reading<'a>, Refusal>
        ensures reading { IfOk result (IsReading purpose script.now) }
        ensures memory { IfErr result (λ refusal. refusal ≡ Refusal.Memory) }
    {
        let lines = lines_of(alloc, script)?;
        let last = lines.len();
        if script.len() > SCRIPT_BYTES {
            return Ok(Reading::NoPlan(Mistake {
                line: last,
                cause: Cause::Bytes(SCRIPT_BYTES),
            }));
        }
        let turns = turns_of(alloc, lines.as_slice())?;
        let made = plan_lines(alloc, lines.as_slice(), turns.as_slice())?;
        let texts = texts_of(alloc, made.as_slice())?;
        let rows = rows_of(alloc, texts.as_slice())?;
        if let Some(mistake) = mistake_of(rows.as_slice(), texts.len()) {
            return Ok(Reading::NoPlan(Mistake {
                line: line_number(turns.as_slice(), mistake.line, last),
                cause: mistake.cause,
            }));
        }
        let plan = plan_of(alloc, purpose, texts.as_slice(), rows.as_slice())?;
        let expects = expects_in(alloc, texts.as_slice(), rows.as_slice())?;
        drop(texts);
        Ok(Reading::Plan(PlanScript {
            lines: made,
            rows,
            expects,
            purpose,
            plan,
        }))
    }

    /// Explores the plan by these orders of the clients, unless more than `bound` states would be visited, and shortens the schedules
    /// of wrong answers and of races.
    ///
    /// Fails with `Memory` only.
    pub fn explore(&self, alloc: Global, orders: Orders, bound: usize) -> Result<Found, Refusal>
        requires explorable { CanBeExplored self.now.plan }
        ensures shown { IfOk result (λ found. IsTrue self.now.plan found) }
        ensures once { IfOk result (λ found. ListsOnce found) }
        ensures all { IfOk result (λ found. found.covered ≡ true → IsAll self.now.plan found) }
        ensures shortest { IfOk result (λ found. IsShortest self.now.plan found) }
        ensures visited { IfOk result (λ found. HasVisited self.now.plan bound found) }
        ensures memory { IfErr result (λ refusal. refusal ≡ Refusal.Memory) }
    {
        let mut found = explore(alloc, &self.plan, orders, bound)?;
        self.shorten(alloc, &mut found);
        Ok(found)
    }

    /// Leaves out of the schedules of wrong answers and of races what these don't need, once a search has ended. `explore` does so
    /// itself. Without memory, schedules stay as they are.
    pub fn shorten(&self, alloc: Global, found: &mut Found)
        ensures shortened { IsShortened self.now.plan found.old found.new }
    {
        shorten(alloc, self, found);
    }

    /// Brings the schedules of wrong answers, of races, and the one that gets stuck near to the order of the plan's lines, once a search
    /// has ended. Without memory, schedules stay as they are.
    pub fn bring_near(&self, alloc: Global, found: &mut Found)
        ensures near { IsBroughtNear self.now.plan found.old found.new }
    {
        bring_near(alloc, self, found);
    }

    /// A search of the plan, level by level, for a caller that reports what is found meanwhile, or ends it early.
    ///
    /// Fails with `Memory` only.
    pub fn search(&self, alloc: Global, orders: Orders, bound: usize) -> Result<Search<'_>, Refusal>
        requires explorable { CanBeExplored self.now.plan }
        ensures plan { IfOk result (λ search. search.plan ≡ self.now.plan) }
        ensures bound { IfOk result (λ search. search.bound ≡ bound) }
        ensures memory { IfErr result (λ refusal. refusal ≡ Refusal.Memory) }
    {
        Search::new(alloc, &self.plan, orders, bound)
    }

    /// The text of a row, without the spaces around it.
    pub(crate) fn text(&self, row: &Row) -> &[u8] {
        match self.lines.get(row.number.saturating_sub(1)) {
            Some(line) => without_last_spaces(without_spaces(line.text())),
            None => b"",
        }
    }

    /// The text that a note expects.
    pub(crate) fn expected(&self, row: &Row) -> &[u8]
        ensures text { result.now ≡ expected self.now row.now }
    {
        match self.lines.get(row.number.saturating_sub(1)) {
            Some(line) => expected_text(line.text()),
            None => b"",
        }
    }

    /// The number of the script's line that makes a row.
    pub(crate) fn line_of(&self, row: &Row) -> usize {
        match self.lines.get(row.number.saturating_sub(1)) {
            Some(line) => line.number,
            None => 0,
        }
    }

    /// The number of the script's line that makes the row at `index`.
    pub(crate) fn number_of(&self, index: usize) -> usize {
        match self.rows.get(index) {
            Some(row) => self.line_of(row),
            None => 0,
        }
    }

    pub(crate) fn section_of(&self, index: usize) -> Section
        ensures { result ≡ section_at self.now index }
    {
        match self.rows.get(index) {
            Some(row) => row.context.section,
            None => Section::Last,
        }
    }

    /// The client whose line the row is.
    pub(crate) fn client_at(&self, index: usize) -> Option<usize> {
        match self.section_of(index) {
            Section::Client(client) => Some(client),
            Section::First | Section::Last => None,
        }
    }

    pub(crate) fn command_of(&self, index: usize) -> Option<Command> {
        self.rows.get(index)?.command()
    }

    /// The name of the client whose line the row is; the section's word, if it is no client's.
    pub(crate) fn client_of(&self, row: &Row) -> &[u8] {
        match row.context.section {
            Section::First => b"first",
            Section::Client(client) => self.client_name(client),
            Section::Last => b"finally",
        }
    }

    pub(crate) fn client_name(&self, client: usize) -> &[u8] {
        let mut left = client;
        for row in self.rows.as_slice() {
            if let Mark::Client(name) = &row.mark {
                if left == 0 {
                    return name.as_bytes();
                }
                left -= 1;
            }
        }
        b""
    }

    /// The notes below a row that expect its answer.
    pub(crate) fn expectations(&self, index: usize) -> &[Row]
        ensures notes { result.now ≡ expectations self.now.rows.items index }
    {
        expecting(below(self.rows.as_slice(), index))
    }

    pub(crate) fn client_count(&self) -> usize
        ensures count { result ≡ length self.now.plan.clients }
    {
        let plan = &self.plan;
        plan.clients.len()
    }

    /// Whether notes say what clients access.
    pub(crate) fn has_accesses(&self) -> bool {
        let plan = &self.plan;
        !plan.accesses.is_empty()
    }

    /// How many lines the clients have together.
    pub(crate) fn line_count(&self) -> usize {
        let mut count: usize = 0;
        for row in self.rows.as_slice() {
            if row.is_line() {
                count = count.saturating_add(1);
            }
        }
        count
    }

    /// The index of the first command's row below the row at `index`.
    pub(crate) fn command_below(&self, index: usize) -> Option<usize> {
        let rows = below(self.rows.as_slice(), index);
        let place = rows.iter().position(|row| row.is_command())?;
        Some(place.saturating_add(index).saturating_add(1))
    }

    /// The index of the row with the section's command at `place`, counted from 0.
    pub(crate) fn row_at(&self, section: Section, place: usize) -> Option<usize> {
        let mut left = place;
        for (index, row) in self.rows.as_slice().iter().enumerate() {
            if row.command_in(section).is_none() {
                continue;
            }
            if left == 0 {
                return Some(index);
            }
            left -= 1;
        }
        None
    }
}

/// The number of the script's line that makes line `number` of the plan; `last` if the plan has no such line.
fn line_number(turns: &[Turn], number: usize, last: usize) -> usize
    ensures { result ≡ unwrap_or (option_map (λ (t : Turn). t.number) (slice_get turns.now (number - 1))) last }
{
    match turns.get(number.saturating_sub(1)) {
        Some(turn) => turn.number,
        None => last,
    }
}

/// The rows below the row at `index`.
pub(crate) fn below(rows: &[Row], index: usize) -> &[Row]
    ensures below { result.now ≡ drop (index + 1) rows.now }
{
    if index < rows.len() {
        &rows[index + 1..]
    } else {
        &[]
    }
}

/// The notes that the rows begin with and that expect an answer.
pub(crate) fn expecting(rows: &[Row]) -> &[Row]
    ensures notes { result.now ≡ expecting rows.now }
{
    let count = first_other(rows).unwrap_or(rows.len());
    &rows[..count]
}

/// The rows from the first on that expects no answer.
pub(crate) fn after_notes(rows: &[Row]) -> &[Row]
    ensures rows { result.now ≡ after_notes rows.now }
{
    let count = first_other(rows).unwrap_or(rows.len());
    &rows[count..]
}

/// The first row that expects no answer.
fn first_other(rows: &[Row]) -> Option<usize>
    ensures place { result ≡ position (λ row. not (expects row)) rows.now }
{
    rows.iter().position(|row| !row.expects())
}

/// The lines of a script.
fn lines_of<'a>(alloc: Global, script: &'a [u8]) -> Result<Vec<&'a [u8]>, AllocError>
    ensures lines { IfOk result (λ lines. map (λ l. l.now) lines.items ≡ lines_of script.now) }
{
    let mut lines = Vec::new(alloc);
    let mut rest = script;
    while let Some((line, more)) = first_line(rest) {
        lines.push(line)?;
        rest = more;
    }
    lines.push(rest)?;
    Ok(lines)
}
