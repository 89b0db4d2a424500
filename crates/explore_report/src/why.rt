//! Why a client waits: what the desk refuses. The text of a report and its JSON say why for each client of a schedule that
//! gets stuck.
use crate::need::{Need, add_hold};
use crate::plan_script::PlanScript;
use crate::report::Report;
use crate::schedule::Making;
use crate::{objects, text};
use command_core::{Answer, Command};
use desk_core::Desk;
use point_core::{Name, Point};
use text_core::Page;

/// A form of a report.
#[derive(Clone, Copy)]
pub(crate) enum Form<'a> {
    /// The text, on a plan in the file of that name.
    Text(&'a str),
    Json,
}

/// A line at which a client waits.
#[derive(Clone, Copy)]
pub(crate) struct Waiting {
    pub client: usize,
    /// The index of the line's row.
    pub row: usize,
}

/// The lines at which the clients wait once the schedule is made.
pub(crate) fn add_stuck_lines(
    report: &Report<'_>,
    making: &mut Making,
    form: Form<'_>,
    page: &mut Page,
) {
    let mut follows = false;
    for client in 0..report.plan.client_count() {
        if let Some(row) = making.next_of(report.plan, client) {
            add_waiting(
                report,
                &Waiting { client, row },
                form,
                follows,
                making,
                page,
            );
            follows = true;
        }
    }
}

fn add_waiting(
    report: &Report<'_>,
    waiting: &Waiting,
    form: Form<'_>,
    follows: bool,
    making: &mut Making,
    page: &mut Page,
) {
    match form {
        Form::Text(name) => text::add_waiting(report, name, waiting, making, page),
        Form::Json => {
            page.comma(follows);
            objects::add_waiting(report, waiting, making, page);
        }
    }
}

impl Waiting {
    /// Adds which marked line the client waits for; else why the desk refuses the line, and which line would end that.
    pub(crate) fn add_why(&self, plan: &PlanScript<'_>, making: &mut Making, page: &mut Page) {
        if let Some(marked) = making.hold_of(plan, self.client) {
            add_hold(plan, &marked, page);
            return;
        }
        if let Some(command) = plan.command_of(self.row) {
            self.add_why_of(plan, &command, making, page);
        }
    }

    /// Adds why the desk refuses the command. The refusal leaves the desk as it is.
    fn add_why_of(
        &self,
        plan: &PlanScript<'_>,
        command: &Command,
        making: &mut Making,
        page: &mut Page,
    ) {
        match command {
            Command::Wait(file) => self.add_wait(plan, making, file, page),
            _ => {
                let answer = making.desk.step(*command);
                add_refusal(&answer, page);
                drop(answer);
            }
        }
    }

    fn add_wait(&self, plan: &PlanScript<'_>, making: &Making, file: &Name, page: &mut Page) {
        match making.desk.file_points(file) {
            Some(points) => {
                page.text("file ");
                page.bytes(file.as_bytes());
                add_points(&making.desk, points, page);
                self.add_sources(plan, making, points, page);
            }
            None => {
                page.text("there is no file named ");
                page.bytes(file.as_bytes());
                Need::File(*file).add_source(plan, making, self.client, page);
            }
        }
    }

    /// Which lines would raise the timelines of the points that are not reached.
    fn add_sources(
        &self,
        plan: &PlanScript<'_>,
        making: &Making,
        points: &[Point],
        page: &mut Page,
    ) {
        for point in points {
            if let Some(timeline) = timeline_of(&making.desk, point) {
                Need::Timeline(timeline).add_source(plan, making, self.client, page);
            }
        }
    }
}

/// The timeline of a point that is not reached.
fn timeline_of(desk: &Desk, point: &Point) -> Option<Name> {
    if desk.point_status(*point).is_signalled() {
        return None;
    }
    desk.timeline_name(point.ctx)
}

fn add_refusal(answer: &Answer, page: &mut Page) {
    if let Answer::Refused(refusal) = answer {
        page.text("is refused: ");
        page.text(refusal.name());
    }
}

fn add_points(desk: &Desk, points: &[Point], page: &mut Page) {
    let mut front = " waits for ";
    for point in points {
        if desk.point_status(*point).is_signalled() {
            continue;
        }
        add_point(desk, point, front, page);
        front = " and for ";
    }
}

fn add_point(desk: &Desk, point: &Point, front: &str, page: &mut Page) {
    let Some(timeline) = desk.timeline_name(point.ctx) else {
        return;
    };
    let value = desk.timeline_value(&timeline).unwrap_or(0);
    page.text(front);
    page.text("point ");
    page.number(point.value);
    page.text(" of ");
    page.bytes(timeline.as_bytes());
    page.text(", which is at ");
    page.number(value);
}
