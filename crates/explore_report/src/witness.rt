//! The schedules of a report as scripts, which expect their answers: `fencectl check` passes them.
use crate::case::{Case, answer_text};
use crate::context::Section;
use crate::plan_script::PlanScript;
use crate::races::{Racing, race_of};
use crate::report::Report;
use crate::schedule::Making;
use command_core::Answer;
use explore_core::Race;
use std::alloc::{AllocError, Global};
use text_core::Page;

pub(crate) fn script_of(
    report: &Report<'_>,
    number: usize,
    making: &mut Making,
) -> Result<Option<Vec<u8>>, AllocError> {
    let mut page = Page::new(report.alloc);
    if !add_script(report, number, making, &mut page) {
        return Ok(None);
    }
    let script = page.finish()?;
    Ok(Some(script))
}

/// Adds schedule `number` as a script. Returns whether the report shows a schedule with this number.
fn add_script(report: &Report<'_>, number: usize, making: &mut Making, page: &mut Page) -> bool {
    match &report.found.stuck {
        Some(schedule) if number == 1 => {
            add_stuck(report, schedule.as_slice(), making, page);
            true
        }
        _ => add_wrong(report, number, making, page),
    }
}

/// The schedule of a race, or else of an answer that is wrong.
fn add_wrong(report: &Report<'_>, number: usize, making: &mut Making, page: &mut Page) -> bool {
    match race_of(report, number) {
        Some(race) => {
            add_race(report, race, making, page);
            true
        }
        None => add_finding(report, number, making, page),
    }
}

/// A schedule after which two clients race.
fn add_race(report: &Report<'_>, race: &Race, making: &mut Making, page: &mut Page) {
    page.text(if report.plan.purpose.is_predict() {
        "# a schedule near the plan's order after which two clients race\n"
    } else {
        "# a short schedule after which two clients race\n"
    });
    if making
        .follow(report.plan, race.schedule.as_slice())
        .is_err()
    {
        page.fail();
    }
    let going = making.rows.len();
    add_steps(report, making, going, page);
    if let Some(racing) = Racing::of(report.plan, race) {
        page.text("# ");
        racing.add(report.plan, page);
        page.text("\n");
    }
}

/// A schedule that gets stuck, with the lines at which the clients wait.
fn add_stuck(report: &Report<'_>, schedule: &[usize], making: &mut Making, page: &mut Page) {
    page.text(if report.plan.purpose.is_predict() {
        "# a schedule that gets stuck\n"
    } else {
        "# a shortest schedule that gets stuck\n"
    });
    if making.follow(report.plan, schedule).is_err() {
        page.fail();
    }
    let going = making.rows.len();
    if making.push_next(report.plan).is_err() {
        page.fail();
    }
    add_steps(report, making, going, page);
}

/// The schedule of an answer that is wrong.
fn add_finding(report: &Report<'_>, number: usize, making: &mut Making, page: &mut Page) -> bool {
    let mut reached = report.stuck().saturating_add(report.races());
    for case in report.cases.as_slice() {
        if case.finding.is_none() {
            continue;
        }
        reached = reached.saturating_add(1);
        if reached == number {
            add_case(report, case, making, page);
            return true;
        }
    }
    false
}

fn add_case(report: &Report<'_>, case: &Case, making: &mut Making, page: &mut Page) {
    page.counted(
        "# a schedule that gives line ",
        report.plan.number_of(case.row),
    );
    page.text(" a wrong answer\n");
    if case.make(report.plan, making).is_err() {
        page.fail();
    }
    let is_last = report.plan.section_of(case.row).is_same(Section::Last);
    if is_last && making.push_last(report.plan).is_err() {
        page.fail();
    }
    let going = making.rows.len();
    add_steps(report, making, going, page);
}

/// Each command with its answer; the commands from `going` on are refused.
fn add_steps(report: &Report<'_>, making: &Making, going: usize, page: &mut Page) {
    for (place, answer) in making.answers.as_slice().iter().enumerate() {
        if let Some(index) = making.rows.get(place) {
            add_step(report.plan, *index, place >= going, page);
            add_answer(report.alloc, answer, page);
        }
    }
}

fn add_step(plan: &PlanScript<'_>, index: usize, is_stuck: bool, page: &mut Page) {
    let Some(row) = plan.rows.get(index) else {
        return;
    };
    page.text("# ");
    page.bytes(plan.client_of(row));
    page.counted(", line ", plan.line_of(row));
    page.text(if is_stuck { ", waits\n" } else { "\n" });
    page.bytes(plan.text(row));
    page.text("\n");
}

fn add_answer(alloc: Global, answer: &Answer, page: &mut Page) {
    match answer_text(alloc, answer) {
        Ok(text) => add_notes(text.as_slice(), page),
        Err(_) => page.fail(),
    }
}

/// The lines of an answer as notes that expect them.
fn add_notes(text: &[u8], page: &mut Page) {
    page.text("#= ");
    for byte in text.strip_suffix(b"\n").unwrap_or(text) {
        page.bytes(&[*byte]);
        if *byte == b'\n' {
            page.text("#= ");
        }
    }
    page.text("\n");
}
