//! A report as text: a line for each finding, as editors read them, and the totals last.
use crate::case::Case;
use crate::finding::Finding;
use crate::plan_script::PlanScript;
use crate::races::Racing;
use crate::report::{Ended, Report};
use crate::row::Row;
use crate::schedule::Making;
use crate::why::{Form, Waiting, add_stuck_lines};
use explore_core::Race;
use std::alloc::AllocError;
use text_core::Page;

/// The most answers that are listed of a line.
const LISTED: usize = 6;

/// The end of a report that doesn't cover every schedule.
const SOME: &str = "; what is above was found in some of the schedules\n";

/// The most answers that are named beside one that is wrong.
const NAMED: usize = 2;

pub(crate) fn text_of(
    report: &Report<'_>,
    name: &str,
    everything: bool,
    making: &mut Making,
) -> Result<Vec<u8>, AllocError> {
    let mut page = Page::new(report.alloc);
    let mut waiting = Vec::new(report.alloc);
    add_stuck(report, name, making, &mut waiting, &mut page);
    add_races(report, name, making, &mut page);
    add_findings(report, name, making, &mut page);
    add_answers(report, name, everything, &mut page);
    if report.found.covered {
        add_unreached(report, name, everything, waiting.as_slice(), &mut page);
    }
    add_end(report, &mut page);
    page.finish()
}

/// The schedule that gets stuck, and why each client waits. The indices of the rows at which they wait go into `waiting`.
fn add_stuck(
    report: &Report<'_>,
    name: &str,
    making: &mut Making,
    waiting: &mut Vec<usize>,
    page: &mut Page,
) {
    let Some(schedule) = &report.found.stuck else {
        return;
    };
    add_stuck_head(report, name, schedule.len(), page);
    if making.follow(report.plan, schedule.as_slice()).is_err() {
        page.fail();
    }
    add_stuck_lines(report, making, Form::Text(name), page);
    add_making(report.plan, making.rows.as_slice(), page);
    if making.push_waiting(report.plan, waiting).is_err() {
        page.fail();
    }
}

fn add_stuck_head(report: &Report<'_>, name: &str, steps: usize, page: &mut Page) {
    add_steps(report.plan, name, steps, page);
    if report.is_all() {
        page.text("; no schedule gets stuck sooner");
    }
    add_number(Some(1), page);
}

/// `FILE: stuck after N of M steps`.
pub(crate) fn add_steps(plan: &PlanScript<'_>, name: &str, steps: usize, page: &mut Page) {
    page.text(name);
    page.counted(": stuck after ", steps);
    let lines = plan.line_count();
    page.counted(" of ", lines);
    page.text(word_for(lines, " step", " steps"));
}

/// The word behind a number.
fn word_for(count: usize, one: &'static str, many: &'static str) -> &'static str {
    if count == 1 { one } else { many }
}

/// The number of the schedule, if it is shown with one, and the end of the line.
pub(crate) fn add_number(number: Option<usize>, page: &mut Page) {
    add_numbered(number, "", page);
}

/// The number of the schedule and what is said of it, if it is shown with one, and the end of the line.
fn add_numbered(number: Option<usize>, what: &str, page: &mut Page) {
    if let Some(number) = number {
        page.counted(" (schedule ", number);
        page.text(what);
        page.text(")");
    }
    page.text("\n");
}

/// A line at which a client waits, and why.
pub(crate) fn add_waiting(
    report: &Report<'_>,
    name: &str,
    waiting: &Waiting,
    making: &mut Making,
    page: &mut Page,
) {
    add_head(report.plan, name, waiting.row, page);
    waiting.add_why(report.plan, making, page);
    page.text("\n");
}

/// Each race, with the number of its schedule.
fn add_races(report: &Report<'_>, name: &str, making: &mut Making, page: &mut Page) {
    let mut number = report.stuck();
    for race in report.found.races.as_slice() {
        number = number.saturating_add(1);
        add_race(report.plan, name, race, Some(number), making, page);
    }
}

/// A race, with the number of its schedule, and the lines that are made before it.
pub(crate) fn add_race(
    plan: &PlanScript<'_>,
    name: &str,
    race: &Race,
    number: Option<usize>,
    making: &mut Making,
    page: &mut Page,
) {
    if let Some(racing) = Racing::of(plan, race) {
        page.text(name);
        page.counted(":", plan.number_of(racing.one));
        page.text(": ");
        racing.add(plan, page);
        add_numbered(number, what_of(plan), page);
    }
    add_schedule(plan, race.schedule.as_slice(), making, page);
}

/// What is said of the schedule of a race.
fn what_of(plan: &PlanScript<'_>) -> &'static str {
    if plan.purpose.is_predict() {
        ", near the plan's order"
    } else {
        ", a short one"
    }
}

/// The lines that a schedule makes.
pub(crate) fn add_schedule(
    plan: &PlanScript<'_>,
    schedule: &[usize],
    making: &mut Making,
    page: &mut Page,
) {
    if making.follow(plan, schedule).is_err() {
        page.fail();
    }
    add_making(plan, making.rows.as_slice(), page);
}

/// `FILE:LINE: CLIENT: COMMAND: `.
fn add_head(plan: &PlanScript<'_>, name: &str, index: usize, page: &mut Page) {
    let Some(row) = plan.rows.get(index) else {
        return;
    };
    page.text(name);
    page.counted(":", plan.line_of(row));
    page.text(": ");
    page.bytes(plan.client_of(row));
    page.text(": ");
    page.bytes(plan.text(row));
    page.text(": ");
}

/// `    by CLIENT LINE..LINE, ..`: the lines of clients, in the order of making; `    at the beginning` without any. A range has no
/// lines that a client skipped.
fn add_making(plan: &PlanScript<'_>, rows: &[usize], page: &mut Page) {
    if !add_runs(plan, "    by ", rows, page) {
        page.text("    at the beginning");
    }
    page.text("\n");
}

/// The lines of clients behind this front, in their order; whether there are any.
fn add_runs(plan: &PlanScript<'_>, front: &str, rows: &[usize], page: &mut Page) -> bool {
    let mut front = front;
    let mut run: Option<Run> = None;
    for index in rows {
        let Some(line) = Run::of(plan, *index) else {
            continue;
        };
        run = match run {
            Some(run) if run.leads_to(plan, &line) => Some(Run {
                last: line.last,
                ..run
            }),
            Some(run) => {
                run.add(plan, front, page);
                front = ", ";
                Some(line)
            }
            None => Some(line),
        };
    }
    if let Some(run) = &run {
        run.add(plan, front, page);
    }
    run.is_some()
}

/// Lines of one client that follow each other in the plan and are made one after another, by the rows of the first and the last.
#[derive(Clone, Copy)]
struct Run {
    client: usize,
    first: usize,
    last: usize,
}

impl Run {
    /// The line of that row, if it is a client's.
    fn of(plan: &PlanScript<'_>, index: usize) -> Option<Run> {
        let client = plan.client_at(index)?;
        Some(Run {
            client,
            first: index,
            last: index,
        })
    }

    /// Whether the line is the client's next one in the plan, and further down in the script: a round of a `#repeat` begins a run.
    fn leads_to(&self, plan: &PlanScript<'_>, line: &Run) -> bool {
        self.client == line.client
            && plan.command_below(self.last) == Some(line.first)
            && plan.number_of(self.last) < plan.number_of(line.first)
    }

    fn add(&self, plan: &PlanScript<'_>, front: &str, page: &mut Page) {
        page.text(front);
        page.bytes(plan.client_name(self.client));
        page.counted(" ", plan.number_of(self.first));
        if self.last != self.first {
            page.counted("..", plan.number_of(self.last));
        }
    }
}

/// Each answer that is wrong, with the number of its schedule.
fn add_findings(report: &Report<'_>, name: &str, making: &mut Making, page: &mut Page) {
    let mut number = report.stuck().saturating_add(report.races());
    for case in report.cases.as_slice() {
        if let Some(finding) = case.finding {
            number = number.saturating_add(1);
            add_finding(report, name, case, finding, number, page);
            add_case(report.plan, case, making, page);
        }
    }
}

/// The lines that are made up to an answer.
pub(crate) fn add_case(plan: &PlanScript<'_>, case: &Case, making: &mut Making, page: &mut Page) {
    if case.make(plan, making).is_err() {
        page.fail();
    }
    add_making(plan, making.rows.as_slice(), page);
}

fn add_finding(
    report: &Report<'_>,
    name: &str,
    case: &Case,
    finding: Finding,
    number: usize,
    page: &mut Page,
) {
    add_wrong(report.plan, name, case, finding, page);
    add_others(report, case, page);
    add_number(Some(number), page);
}

/// What is wrong with an answer.
pub(crate) fn add_wrong(
    plan: &PlanScript<'_>,
    name: &str,
    case: &Case,
    finding: Finding,
    page: &mut Page,
) {
    add_head(plan, name, case.row, page);
    match finding {
        Finding::Unexpected => {
            page.text("expected ");
            add_expected(plan, case.row, page);
            page.text(", came ");
            page.quoted(case.text.as_slice());
        }
        Finding::Refused => {
            page.text("can be refused: ");
            page.quoted(case.text.as_slice());
        }
    }
}

/// The answers that are expected of a row.
fn add_expected(plan: &PlanScript<'_>, index: usize, page: &mut Page) {
    let mut is_front = false;
    page.text("\"");
    for (place, note) in plan.expectations(index).iter().enumerate() {
        let is_new = place == 0 || note.begins_answer();
        if place > 0 {
            page.text(if is_new { end_of(is_front) } else { "\"" });
            page.text(if is_new { " or \"" } else { " \"" });
        }
        if is_new {
            is_front = note.expects_front();
        }
        page.escaped(plan.expected(note));
    }
    page.text(end_of(is_front));
}

/// The end of an answer; dots, if more lines may follow.
fn end_of(is_front: bool) -> &'static str {
    if is_front { "\" .." } else { "\"" }
}

/// The answers of other schedules that are not wrong.
fn add_others(report: &Report<'_>, case: &Case, page: &mut Page) {
    let mut named: usize = 0;
    for other in report.cases_of(case.row) {
        if other.finding.is_none() && named < NAMED {
            let front = if named == 0 {
                ", though another schedule answers "
            } else {
                ", "
            };
            page.text(front);
            page.quoted(other.text.as_slice());
            named += 1;
        }
    }
    if named == 0 && report.is_all() {
        page.text(no_other(case.finding));
    }
}

/// What is said if every schedule was covered to its end, and none gives a line an answer that is right.
fn no_other(finding: Option<Finding>) -> &'static str {
    match finding {
        Some(Finding::Refused) => ", and no schedule accepts it",
        _ => ", and no schedule answers as expected",
    }
}

/// The lines that have several answers, none of them wrong; with `everything`, all lines.
fn add_answers(report: &Report<'_>, name: &str, everything: bool, page: &mut Page) {
    for (index, row) in report.plan.rows.as_slice().iter().enumerate() {
        let cases = report.cases_of(index);
        if row.is_command() && (everything || depends(cases)) && !cases.is_empty() {
            add_head(report.plan, name, index, page);
            add_listed(report, cases, page);
        }
    }
}

fn depends(cases: &[Case]) -> bool {
    for case in cases {
        if case.finding.is_some() {
            return false;
        }
    }
    cases.len() > 1
}

/// The answers of a line.
fn add_listed(report: &Report<'_>, cases: &[Case], page: &mut Page) {
    page.text(front_of(report, cases.len()));
    for (place, case) in cases.iter().enumerate() {
        if place < LISTED {
            page.text(if place > 0 { " or " } else { "" });
            page.quoted(case.text.as_slice());
        }
    }
    if cases.len() > LISTED {
        page.counted(" or ", cases.len() - LISTED);
        page.text(" more");
    }
    page.text("\n");
}

/// How the answers of a line are introduced. While schedules are left, a single answer is only the one seen so far.
fn front_of(report: &Report<'_>, answers: usize) -> &'static str {
    if answers > 1 {
        "depends on the schedule: "
    } else if report.is_all() {
        "always "
    } else if report.found.covered {
        "before a wrong answer always "
    } else {
        "so far "
    }
}

/// The lines of clients that no schedule makes, but for those at which clients are shown to wait: with `everything` each of them, else
/// several as one row.
fn add_unreached(
    report: &Report<'_>,
    name: &str,
    everything: bool,
    waiting: &[usize],
    page: &mut Page,
) {
    let mut lines = Vec::new(report.alloc);
    if push_unreached(report, waiting, &mut lines).is_err() {
        page.fail();
    }
    if everything || lines.len() == 1 {
        add_each_unreached(report, name, lines.as_slice(), page);
    } else {
        add_unreached_row(report, name, lines.as_slice(), page);
    }
}

fn push_unreached(
    report: &Report<'_>,
    waiting: &[usize],
    lines: &mut Vec<usize>,
) -> Result<(), AllocError> {
    for (index, row) in report.plan.rows.as_slice().iter().enumerate() {
        if row.is_line() && report.cases_of(index).is_empty() && !waiting.contains(&index) {
            lines.push(index)?;
        }
    }
    Ok(())
}

fn add_each_unreached(report: &Report<'_>, name: &str, lines: &[usize], page: &mut Page) {
    for index in lines {
        add_head(report.plan, name, *index, page);
        page.text("is never made");
        page.text(until(report));
        page.text("\n");
    }
}

fn add_unreached_row(report: &Report<'_>, name: &str, lines: &[usize], page: &mut Page) {
    let Some(first) = lines.first() else {
        return;
    };
    page.text(name);
    page.counted(":", report.plan.number_of(*first));
    page.counted(": ", lines.len());
    page.text(" lines are never made");
    page.text(until(report));
    add_runs(report.plan, ": ", lines, page);
    page.text("\n");
}

/// What is said of lines that no schedule makes, if schedules end at their first wrong answers.
fn until(report: &Report<'_>) -> &'static str {
    if report.is_all() {
        ""
    } else {
        " before a wrong answer"
    }
}

fn add_totals(report: &Report<'_>, page: &mut Page) {
    page.text("covered: every schedule");
    if report.plan.purpose.is_predict() {
        page.text(" up to its first wrong answer");
    }
    page.counted("; clients: ", report.plan.client_count());
    page.counted(", lines: ", report.plan.line_count());
    page.counted(", states: ", report.found.states);
    page.counted(", stuck: ", report.stuck());
    if report.plan.has_accesses() {
        page.counted(", races: ", report.races());
    }
    page.counted(", findings: ", report.findings());
    page.text("\n");
}

/// The totals, or why schedules are left.
fn add_end(report: &Report<'_>, page: &mut Page) {
    let states = report.found.states;
    match report.ended() {
        Ended::Covered => add_totals(report, page),
        Ended::Bound => {
            page.counted("not covered: stopped after ", states);
            page.text(word_for(states, " state", " states"));
            page.text("; a greater --states goes on");
            page.text(SOME);
        }
        Ended::Memory => {
            page.counted("not covered: memory was refused (states: ", states);
            page.text(")");
            page.text(SOME);
        }
        Ended::First => {
            page.counted(
                "not covered: stopped at the first finding (states: ",
                states,
            );
            page.text("); without --first the search goes on");
            page.text(SOME);
        }
    }
}
