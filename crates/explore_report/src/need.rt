//! `Need`: what a client waits for once a schedule gets stuck, and the line that would bring it. `why.rt` adds it to the reason, and
//! which marked line the client waits for (`add_hold`).
use crate::context::Section;
use crate::plan_script::PlanScript;
use crate::schedule::Making;
use command_core::{Command, Space};
use explore_core::{Milestone, line_at, place_of};
use point_core::Name;
use text_core::Page;

/// What a client waits for.
#[derive(Clone, Copy)]
pub(crate) enum Need {
    /// A file of that name.
    File(Name),
    /// A higher value of a timeline, or its end.
    Timeline(Name),
}

/// A line that brings what a client waits for.
#[derive(Clone, Copy)]
struct Source {
    /// The client whose line it is.
    client: usize,
    /// The index of the line's row.
    row: usize,
    command: Command,
}

impl Need {
    fn is_met_by(&self, command: &Command) -> bool {
        match (self, command) {
            (Need::File(name), _) => makes_file(command, name),
            (Need::Timeline(name), Command::Inc(timeline, _)) => timeline == name,
            (Need::Timeline(name), Command::Shut(timeline)) => timeline == name,
            _ => false,
        }
    }

    /// The first line that is not made yet and brings it.
    fn source(&self, plan: &PlanScript<'_>, making: &Making) -> Option<Source> {
        for client in 0..plan.client_count() {
            let place = place_of(making.made.as_slice(), client);
            if let Some(source) = self.source_in(plan, client, place) {
                return Some(source);
            }
        }
        None
    }

    /// The client's first line from this place on that brings it.
    fn source_in(&self, plan: &PlanScript<'_>, client: usize, start: usize) -> Option<Source> {
        for place in start..usize::MAX {
            let step = line_at(&plan.plan, client, place)?;
            if self.is_met_by(&step.command) {
                let row = plan.row_at(Section::Client(client), place)?;
                return Some(Source {
                    client,
                    row,
                    command: step.command,
                });
            }
        }
        None
    }

    /// Adds which line would bring it, and why its client doesn't make that line. The client is the one that waits.
    pub(crate) fn add_source(
        &self,
        plan: &PlanScript<'_>,
        making: &Making,
        client: usize,
        page: &mut Page,
    ) {
        match self.source(plan, making) {
            Some(source) => source.add(plan, making, client, page),
            None => self.add_none(page),
        }
    }

    fn add_none(&self, page: &mut Page) {
        match self {
            Need::File(_) => {
                page.text("; no line left makes it");
            }
            Need::Timeline(name) => {
                page.text("; no line left raises ");
                page.bytes(name.as_bytes());
            }
        }
    }
}

impl Source {
    fn add(&self, plan: &PlanScript<'_>, making: &Making, client: usize, page: &mut Page) {
        page.text("; ");
        page.bytes(plan.client_name(self.client));
        self.add_effect(page);
        page.counted(" on line ", plan.number_of(self.row));
        if self.client == client {
            page.text(", behind this wait");
        } else {
            add_wait(plan, making, self.client, page);
        }
    }

    fn add_effect(&self, page: &mut Page) {
        match &self.command {
            Command::Inc(timeline, _) => {
                page.text(" raises ");
                page.bytes(timeline.as_bytes());
            }
            Command::Shut(timeline) => {
                page.text(" closes ");
                page.bytes(timeline.as_bytes());
            }
            _ => {
                page.text(" makes it");
            }
        }
    }
}

/// Adds what the client's next line waits for.
fn add_wait(plan: &PlanScript<'_>, making: &Making, client: usize, page: &mut Page) {
    if let Some(marked) = making.hold_of(plan, client) {
        page.text(", and ");
        add_hold(plan, &marked, page);
        return;
    }
    let Some(index) = making.next_of(plan, client) else {
        return;
    };
    if let Some(command) = plan.command_of(index) {
        add_awaited(&command, plan.number_of(index), page);
    }
}

/// Which marked line has to be passed.
pub(crate) fn add_hold(plan: &PlanScript<'_>, marked: &Milestone, page: &mut Page) {
    page.text("waits until ");
    page.bytes(plan.client_name(marked.client));
    if let Some(row) = plan.row_at(Section::Client(marked.client), marked.place) {
        page.counted(" is past line ", plan.number_of(row));
    }
}

/// Adds what the command of line `number` waits for.
fn add_awaited(command: &Command, number: usize, page: &mut Page) {
    match command {
        Command::Wait(file) => {
            page.text(", and waits for ");
            page.bytes(file.as_bytes());
        }
        _ => {
            page.counted(", and waits on line ", number);
        }
    }
}

fn makes_file(command: &Command, name: &Name) -> bool {
    match command.made() {
        Some((Space::File, made)) => made == *name,
        _ => false,
    }
}
