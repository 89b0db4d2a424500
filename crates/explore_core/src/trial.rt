//! Proposes which clients go at a state: few of them, and so that the choice is persistent (`persistence.rt`). A trial begins with one
//! client that can go, and adds each client that may disturb a chosen one before that goes, or whose race with the first would be
//! missed, until there is none. No proof depends on what is proposed, since the search tests each choice before it follows it.
use crate::access::Access;
use crate::choice::Choice;
use crate::flow::Flow;
use crate::look::has_name;
use crate::persistence::{Matter, can_go, client_leaves, is_held, is_held_by_place, is_reached};
use crate::plan::{Plan, Step};
use crate::position::{Position, line_at};
use crate::progress::place_of;
use command_core::Command;
use desk_core::Desk;
use point_core::{Name, Point};
use std::alloc::{AllocError, Global};
use std::mem::swap;

/// A choice on trial, the commands ahead of it, and what they may change that a `wait` depends on.
#[derive(Drop)]
struct Trial {
    choice: Choice,
    // what is pending at the state
    pending: Flow,
    ahead: Vec<Command>,
    files: Vec<Name>,
    timelines: Vec<Name>,
}

/// Makes a trial with each client that can go, and takes the choice of which the fewest can go. Chooses no client where none can go.
pub(crate) fn choose(
    alloc: Global,
    plan: &Plan,
    asked: &[Name],
    position: &Position,
    choice: &mut Choice,
) -> Result<(), AllocError> {
    choice.clear();
    let mut trial = Trial::new(alloc);
    trial.pending.add_pending(&position.desk)?;
    let mut fewest = usize::MAX;
    for first in 0..plan.clients.len() {
        if !can_client_go(plan, position, first) {
            continue;
        }
        let going = trial.begin_with(plan, asked, position, first)?;
        if going < fewest {
            swap(choice, &mut trial.choice);
            fewest = going;
        }
        if fewest == 1 {
            return Ok(());
        }
    }
    Ok(())
}

impl Trial {
    fn new(alloc: Global) -> Trial {
        Trial {
            choice: Choice::new(alloc),
            pending: Flow::new(alloc),
            ahead: Vec::new(alloc),
            files: Vec::new(alloc),
            timelines: Vec::new(alloc),
        }
    }

    /// Chooses this client, all that may disturb a chosen one, and all whose races with this one would be missed. Returns how many of
    /// them can go.
    fn begin_with(
        &mut self,
        plan: &Plan,
        asked: &[Name],
        position: &Position,
        first: usize,
    ) -> Result<usize, AllocError> {
        self.choice.begin(position.made.as_slice())?;
        self.choice.choose(first);
        for _ in 0..plan.clients.len() {
            self.move_limits(plan, position)?;
            self.fill_flow()?;
            let has_disturbing = self.add_disturbing(plan, asked, position);
            let has_racing = self.add_racing(plan, position, first);
            if !has_disturbing && !has_racing {
                break;
            }
        }
        Ok(self.going(plan, position))
    }

    /// Moves the limit of each client that is not chosen to where it stops while the chosen ones stand still.
    fn move_limits(&mut self, plan: &Plan, position: &Position) -> Result<(), AllocError> {
        self.ahead.clear();
        self.files.clear();
        self.timelines.clear();
        self.choice.stop_all(position.made.as_slice())?;
        for _ in 0..usize::MAX {
            if !self.move_each(plan, position)? {
                return Ok(());
            }
        }
        Ok(())
    }

    /// Moves each limit on, as far as what others may change allows so far. Returns whether one has moved.
    fn move_each(&mut self, plan: &Plan, position: &Position) -> Result<bool, AllocError> {
        let mut has_moved = false;
        for client in 0..plan.clients.len() {
            if !self.choice.is_chosen(client) && self.move_limit(plan, position, client)? {
                has_moved = true;
            }
        }
        Ok(has_moved)
    }

    fn move_limit(
        &mut self,
        plan: &Plan,
        position: &Position,
        client: usize,
    ) -> Result<bool, AllocError> {
        let from = self.choice.limit(client);
        let mut limit = from;
        let Some(lines) = plan.clients.get(client) else {
            return Ok(false);
        };
        for place in from..lines.len() {
            let line = &lines[place];
            // A client may skip a branch, and a `wait` in it.
            if place >= limit && self.stops(position, line) {
                break;
            }
            self.pass(&line.command)?;
            limit = limit.max(furthest(line, place));
        }
        self.choice.stop(client, limit);
        Ok(limit > from)
    }

    /// Whether a client waits with the line for as long as the chosen ones stand still.
    fn stops(&self, position: &Position, line: &Step) -> bool {
        is_held_by_place(position.made.as_slice(), &self.choice, line)
            || self.stops_for_file(&position.desk, line)
    }

    fn stops_for_file(&self, desk: &Desk, line: &Step) -> bool {
        let Command::Wait(file) = &line.command else {
            return false;
        };
        line.waits && !has_name(self.files.as_slice(), file) && self.is_unsignalled(desk, file)
    }

    fn is_unsignalled(&self, desk: &Desk, file: &Name) -> bool {
        let Some(points) = desk.file_points(file) else {
            return true;
        };
        for point in points {
            if self.stays_pending(desk, point) {
                return true;
            }
        }
        false
    }

    fn stays_pending(&self, desk: &Desk, point: &Point) -> bool {
        let Some(timeline) = awaited(desk, point) else {
            return false;
        };
        !has_name(self.timelines.as_slice(), &timeline)
    }

    /// Fills the flow with what is pending, and what the commands ahead put.
    fn fill_flow(&mut self) -> Result<(), AllocError> {
        self.choice.flow.begin_as(&self.pending)?;
        self.choice.flow.fill(self.ahead.as_slice())
    }

    /// Notes the command, and what it may change that a `wait` depends on.
    fn pass(&mut self, command: &Command) -> Result<(), AllocError> {
        self.ahead.push(*command)?;
        match command {
            Command::Inc(timeline, _) => self.timelines.push(*timeline)?,
            Command::Shut(timeline) => self.timelines.push(*timeline)?,
            Command::Fence(file, _, _) => self.files.push(*file)?,
            Command::Merge(file, _, _) => self.files.push(*file)?,
            Command::Export(file, _, _) => self.files.push(*file)?,
            Command::Close(file) => self.files.push(*file)?,
            _ => {}
        }
        Ok(())
    }

    /// Chooses the clients that may disturb a chosen one. Returns whether there are any.
    fn add_disturbing(&mut self, plan: &Plan, asked: &[Name], position: &Position) -> bool {
        let mut has_added = false;
        for client in 0..plan.clients.len() {
            if self.choice.is_chosen(client)
                && self.add_disturbing_of(plan, asked, position, client)
            {
                has_added = true;
            }
        }
        has_added
    }

    /// Chooses the clients that may disturb this one: change what its line does, or let it go where it waits.
    fn add_disturbing_of(
        &mut self,
        plan: &Plan,
        asked: &[Name],
        position: &Position,
        client: usize,
    ) -> bool {
        let Some(line) = next_line(plan, position, client) else {
            return false;
        };
        if is_held(plan, asked, position, &self.choice, line) {
            return false;
        }
        if !line.is_due(position.made.as_slice()) {
            return self.add_awaited(line);
        }
        let Command::Wait(file) = &line.command else {
            return self.add_all(plan, asked, position, &Matter::Line(line.command));
        };
        if can_go(position, line) {
            return self.add_all(plan, asked, position, &Matter::Line(line.command));
        }
        let has_added = self.add_all(plan, asked, position, &Matter::File(*file));
        let Some(timeline) = self.quietest(plan, asked, position, file) else {
            return has_added;
        };
        self.add_all(plan, asked, position, &Matter::Timeline(timeline)) || has_added
    }

    /// Chooses the client that may pass the milestone for which the line waits.
    fn add_awaited(&mut self, line: &Step) -> bool {
        let Some(milestone) = &line.after else {
            return false;
        };
        self.choice.choose(milestone.client);
        true
    }

    /// Chooses the clients whose races are missed if this one ends an access before they go. Returns whether there are any.
    fn add_racing(&mut self, plan: &Plan, position: &Position, client: usize) -> bool {
        let Some(line) = next_line(plan, position, client) else {
            return false;
        };
        let made = position.made.as_slice();
        let mut has_added = false;
        for access in plan.accesses.as_slice() {
            if access.may_end(client, made, line) && self.add_racing_with(plan, made, access) {
                has_added = true;
            }
        }
        has_added
    }

    fn add_racing_with(&mut self, plan: &Plan, made: &[usize], access: &Access) -> bool {
        let mut has_added = false;
        for other in plan.accesses.as_slice() {
            if !access.misses_none(&self.choice, made, other) {
                self.choice.choose(other.client);
                has_added = true;
            }
        }
        has_added
    }

    /// The timeline of a pending point of the file that the fewest clients may change.
    fn quietest(
        &self,
        plan: &Plan,
        asked: &[Name],
        position: &Position,
        file: &Name,
    ) -> Option<Name> {
        let points = position.desk.file_points(file)?;
        let mut quietest = None;
        let mut fewest = usize::MAX;
        for point in points {
            let Some(timeline) = awaited(&position.desk, point) else {
                continue;
            };
            let changing = self.changing(plan, asked, position, &Matter::Timeline(timeline));
            if changing < fewest {
                quietest = Some(timeline);
                fewest = changing;
            }
        }
        quietest
    }

    /// How many clients may change it.
    fn changing(&self, plan: &Plan, asked: &[Name], position: &Position, what: &Matter) -> usize {
        let made = position.made.as_slice();
        let mut changing = 0;
        for client in 0..plan.clients.len() {
            if !client_leaves(plan, asked, made, &self.choice, client, what) {
                changing += 1;
            }
        }
        changing
    }

    /// Chooses each client that may change it. Returns whether there are any.
    fn add_all(&mut self, plan: &Plan, asked: &[Name], position: &Position, what: &Matter) -> bool {
        let made = position.made.as_slice();
        let mut has_added = false;
        for client in 0..plan.clients.len() {
            if !client_leaves(plan, asked, made, &self.choice, client, what) {
                self.choice.choose(client);
                has_added = true;
            }
        }
        has_added
    }

    /// How many of the chosen clients can go.
    fn going(&self, plan: &Plan, position: &Position) -> usize {
        let mut going = 0;
        for client in 0..plan.clients.len() {
            if self.choice.is_chosen(client) && can_client_go(plan, position, client) {
                going += 1;
            }
        }
        going
    }
}

fn next_line<'a>(plan: &'a Plan, position: &Position, client: usize) -> Option<&'a Step> {
    line_at(plan, client, place_of(position.made.as_slice(), client))
}

fn can_client_go(plan: &Plan, position: &Position, client: usize) -> bool {
    let Some(line) = next_line(plan, position, client) else {
        return false;
    };
    can_go(position, line)
}

/// The timeline of the point, if the point is pending.
fn awaited(desk: &Desk, point: &Point) -> Option<Name> {
    if is_reached(desk, point) {
        return None;
    }
    desk.timeline_name(point.ctx)
}

/// The furthest place that the client may come to by the line at this place.
fn furthest(line: &Step, place: usize) -> usize {
    let next = place.saturating_add(1);
    match &line.branch {
        Some(branch) => next.max(branch.otherwise),
        None => next,
    }
}
