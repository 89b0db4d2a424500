//! A report as JSON: an object for each line with its answers, one for a schedule that gets stuck, and the totals last.
//! Commands, answers and names are printable ASCII.
use crate::case::Case;
use crate::finding::Finding;
use crate::plan_script::PlanScript;
use crate::races::Racing;
use crate::report::{Ended, Report};
use crate::schedule::Making;
use crate::why::{Form, Waiting, add_stuck_lines};
use explore_core::Race;
use std::alloc::AllocError;
use text_core::Page;

pub(crate) fn json_of(report: &Report<'_>, making: &mut Making) -> Result<Vec<u8>, AllocError> {
    let mut page = Page::new(report.alloc);
    if let Some(schedule) = &report.found.stuck {
        add_stuck(report, schedule.as_slice(), making, &mut page);
    }
    add_races(report, &mut page);
    add_rows(report, &mut page);
    add_totals(report, &mut page);
    page.finish()
}

fn add_rows(report: &Report<'_>, page: &mut Page) {
    for (index, row) in report.plan.rows.as_slice().iter().enumerate() {
        if row.is_command() {
            add_row(report, index, page);
        }
    }
}

/// The object of a schedule that gets stuck.
fn add_stuck(report: &Report<'_>, schedule: &[usize], making: &mut Making, page: &mut Page) {
    page.counted("{\"stuck\":{\"steps\":", schedule.len());
    add_schedule(report.plan, schedule, None, page);
    page.text(",\"waiting\":[");
    if making.follow(report.plan, schedule).is_err() {
        page.fail();
    }
    add_stuck_lines(report, making, Form::Json, page);
    page.text("]}}\n");
}

fn add_races(report: &Report<'_>, page: &mut Page) {
    for race in report.found.races.as_slice() {
        if let Some(racing) = Racing::of(report.plan, race) {
            add_race(report, race, &racing, page);
        }
    }
}

/// The object of a race.
fn add_race(report: &Report<'_>, race: &Race, racing: &Racing, page: &mut Page) {
    page.text("{\"race\":{\"buffer\":\"");
    racing.add_buffer(report.plan, page);
    page.text("\",\"accesses\":[{");
    add_line(report.plan, racing.one, page);
    page.text("},{");
    add_line(report.plan, racing.other, page);
    page.text("}]");
    add_schedule(report.plan, race.schedule.as_slice(), None, page);
    page.text("}}\n");
}

/// A line at which a client waits, and why.
pub(crate) fn add_waiting(
    report: &Report<'_>,
    waiting: &Waiting,
    making: &mut Making,
    page: &mut Page,
) {
    page.text("{");
    add_line(report.plan, waiting.row, page);
    page.text(",\"why\":\"");
    waiting.add_why(report.plan, making, page);
    page.text("\"}");
}

/// The object of a line.
fn add_row(report: &Report<'_>, index: usize, page: &mut Page) {
    page.text("{");
    add_line(report.plan, index, page);
    page.text(",\"answers\":[");
    for (place, case) in report.cases_of(index).iter().enumerate() {
        page.comma(place > 0);
        add_case(report.plan, case, page);
    }
    page.text("]}\n");
}

/// The members that name a line.
fn add_line(plan: &PlanScript<'_>, index: usize, page: &mut Page) {
    let Some(row) = plan.rows.get(index) else {
        return;
    };
    page.counted("\"line\":", plan.line_of(row));
    page.text(",\"client\":");
    page.strings(plan.client_of(row));
    page.text(",\"command\":");
    page.strings(plan.text(row));
}

/// The object of an answer.
fn add_case(plan: &PlanScript<'_>, case: &Case, page: &mut Page) {
    page.text("{\"answer\":[");
    page.strings(case.text.as_slice());
    page.text("],\"finding\":");
    page.text(finding_text(case.finding));
    let last = plan.client_at(case.row);
    add_schedule(plan, case.schedule.as_slice(), last, page);
    page.text("}");
}

fn finding_text(finding: Option<Finding>) -> &'static str {
    match finding {
        Some(Finding::Unexpected) => "\"unexpected\"",
        Some(Finding::Refused) => "\"refused\"",
        None => "null",
    }
}

/// The names of the clients, one for each line that is made, and of the client that goes last.
fn add_schedule(plan: &PlanScript<'_>, schedule: &[usize], last: Option<usize>, page: &mut Page) {
    page.text(",\"schedule\":[");
    for (place, client) in schedule.iter().enumerate() {
        page.comma(place > 0);
        page.strings(plan.client_name(*client));
    }
    if let Some(client) = last {
        page.comma(!schedule.is_empty());
        page.strings(plan.client_name(client));
    }
    page.text("]");
}

/// The totals, which end the report.
fn add_totals(report: &Report<'_>, page: &mut Page) {
    page.text(match report.ended() {
        Ended::Covered => "{\"covered\":true",
        Ended::Bound => "{\"covered\":false,\"stopped\":\"states\"",
        Ended::Memory => "{\"covered\":false,\"stopped\":\"memory\"",
        Ended::First => "{\"covered\":false,\"stopped\":\"first\"",
    });
    if report.plan.purpose.is_predict() {
        page.text(",\"mode\":\"predict\"");
    }
    page.counted(",\"clients\":", report.plan.client_count());
    page.counted(",\"lines\":", report.plan.line_count());
    page.counted(",\"states\":", report.found.states);
    page.counted(",\"stuck\":", report.stuck());
    if report.plan.has_accesses() {
        page.counted(",\"races\":", report.races());
    }
    page.counted(",\"findings\":", report.findings());
    page.text("}\n");
}
