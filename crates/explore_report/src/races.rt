//! `Racing`: the rows of a race, in which two clients access a buffer at once and one of them writes. The text, the JSON and the scripts
//! of a report show races behind the schedule that gets stuck.
use crate::mark::Mark;
use crate::plan_script::PlanScript;
use crate::report::Report;
use crate::row::Row;
use crate::verb::Verb;
use explore_core::Race;
use text_core::Page;

/// The indices of the rows that begin the two accesses of a race.
#[derive(Clone, Copy)]
pub(crate) struct Racing {
    pub one: usize,
    pub other: usize,
}

impl Racing {
    pub(crate) fn of(plan: &PlanScript<'_>, race: &Race) -> Option<Racing> {
        let one = beginning(plan, race.one)?;
        let other = beginning(plan, race.other)?;
        Some(Racing { one, other })
    }

    /// `CLIENT: #writes B: races with CLIENT, which reads it from line N on`.
    pub(crate) fn add(&self, plan: &PlanScript<'_>, page: &mut Page) {
        let Some(one) = plan.rows.get(self.one) else {
            return;
        };
        let Some(other) = plan.rows.get(self.other) else {
            return;
        };
        page.bytes(plan.client_of(one));
        page.text(": ");
        page.bytes(plan.text(one));
        page.text(": races with ");
        page.bytes(plan.client_of(other));
        page.text(", which ");
        page.text(verb_of(other));
        page.counted(" it from line ", plan.line_of(other));
        page.text(" on");
    }

    /// Adds the name of the buffer.
    pub(crate) fn add_buffer(&self, plan: &PlanScript<'_>, page: &mut Page) {
        if let Some(row) = plan.rows.get(self.one) {
            add_buffer(row, page);
        }
    }
}

fn add_buffer(row: &Row, page: &mut Page) {
    if let Mark::Access(_, buffer) = &row.mark {
        page.bytes(buffer.as_bytes());
    }
}

fn verb_of(row: &Row) -> &'static str {
    match &row.mark {
        Mark::Access(Verb::Writes, _) => "writes",
        _ => "reads",
    }
}

/// The index of the row that begins access number `access`, from 0.
fn beginning(plan: &PlanScript<'_>, access: usize) -> Option<usize> {
    let mut left = access;
    for (index, row) in plan.rows.as_slice().iter().enumerate() {
        if !row.begins_access() {
            continue;
        }
        if left == 0 {
            return Some(index);
        }
        left -= 1;
    }
    None
}

/// The race whose schedule has that number.
pub(crate) fn race_of<'a>(report: &'a Report<'_>, number: usize) -> Option<&'a Race> {
    let place = number.checked_sub(report.stuck())?.checked_sub(1)?;
    report.found.races.get(place)
}
