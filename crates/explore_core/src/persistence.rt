//! Whether a choice of clients is persistent at a standing: whatever the other clients do before a chosen one goes, each chosen client
//! that is free to go might have gone first. The search lets only chosen clients go where this says so, and all clients elsewhere.
ghost use Rattle.std.specs.Prelude.{◌≡◌, ◌⊎◌, ◌&&◌, ◌<◌, ◌≤◌, ℕ, true, false, not, List, Contains, Some, IfSome, slice_get};
ghost use Rattle.std.specs.List.{list_all};
ghost use Rattle.std.specs.Option.{IsSomeAnd};
ghost use Rattle.point_core.specs.declared.entry.Point.{Point as Seen};
ghost use Rattle.point_core.specs.Reach.{is_reached};
ghost use Rattle.timeline_core.specs.Timeline.{reach_of};
ghost use Rattle.command_core.specs.declared.command.Command.{Command as Made};
ghost use Rattle.desk_core.specs.theorem.Answer.{is_refused};
ghost use Rattle.desk_core.specs.theorem.Desk.{HasHistory};
ghost use Rattle.desk_core.specs.theorem.History.{world_of};
ghost use Rattle.desk_core.specs.theorem.World.{has_file};
ghost use Rattle.explore_core.specs.declared.plan.Step.{Step as Line};
ghost use Rattle.explore_core.specs.Choice.{choice_of, AllLeave, ClientLeaves, IsFreeOrHeld, IsOrderly, IsOrderlyAt, IsSettled, IsStopped, Leaves, LeavesAt, OneGoes, StaysPending};
ghost use Rattle.explore_core.specs.Flow.{bounds_of};
ghost use Rattle.explore_core.specs.Moving.{IsPatient};
ghost use Rattle.explore_core.specs.Persistent.{IsAhead, IsFree, IsHeld, IsHeldByFile, IsPendingFor, IsPersistent, StaysAhead, changes_file, changes_timeline};
ghost use Rattle.explore_core.specs.Schedule.{Standing, answer_now, can_be_made, lines_of};
ghost use Rattle.explore_core.specs.Search.{AreAsked, IsAt, has_name, is_asked};

use crate::access::leaves_no_race;
use crate::choice::Choice;
use crate::flow::Flow;
use crate::independence::{are_independent, is_narrow};
use crate::look::is_name;
use crate::plan::{Milestone, Plan, Step};
use crate::position::{Position, line_at};
use crate::progress::place_of;
use crate::room::leads_forward;
use command_core::Command;
use desk_core::Desk;
use point_core::{Name, Point};

/// What lines that may be made before a chosen client goes have to leave as it is.
#[derive(Clone, Copy)]
pub(crate) enum Matter {
    File(Name),
    Timeline(Name),
    /// The answer of a line, and all that the line changes.
    Line(Command),
}

/// Whether the choice is persistent at the position.
pub(crate) fn is_persistent(
    plan: &Plan,
    asked: &[Name],
    position: &Position,
    choice: &Choice,
) -> bool
    requires asked { AreAsked plan.now asked.now }
    ensures { result ≡ true → (now : Standing) → IsAt position.now now →
        IsPersistent (is_asked plan.now) (bounds_of choice.now.flow) plan.now now (choice_of choice.now) }
{
    if !choice.flow.has_pending(&position.desk) {
        return false;
    }
    are_settled(plan, asked, position, choice) && one_goes(plan, asked, position, choice)
}

fn are_settled(plan: &Plan, asked: &[Name], position: &Position, choice: &Choice) -> bool
    ensures { result ≡ true → (now : Standing) → IsAt position.now now → (client : ℕ) →
        IsSettled (has_name asked.now) (bounds_of choice.now.flow) plan.now now (choice_of choice.now) client }
{
    if position.made.len() > plan.clients.len() {
        return false;
    }
    for client in 0..plan.clients.len() {
        if !is_settled(plan, asked, position, choice, client) {
            return false;
        }
    }
    true
}

/// Whether the client is free to go, held or done if it is chosen, and stopped by its limit if it isn't.
fn is_settled(
    plan: &Plan,
    asked: &[Name],
    position: &Position,
    choice: &Choice,
    client: usize,
) -> bool
    ensures { result ≡ true → (now : Standing) → IsAt position.now now →
        IsSettled (has_name asked.now) (bounds_of choice.now.flow) plan.now now (choice_of choice.now) client }
{
    if choice.is_chosen(client) {
        return is_free_or_held(plan, asked, position, choice, client);
    }
    is_stopped(plan, asked, position, choice, client)
}

fn is_free_or_held(
    plan: &Plan,
    asked: &[Name],
    position: &Position,
    choice: &Choice,
    client: usize,
) -> bool
    ensures { result ≡ true → (now : Standing) → IsAt position.now now →
        IsFreeOrHeld (has_name asked.now) (bounds_of choice.now.flow) plan.now now (choice_of choice.now) client }
{
    let place = place_of(position.made.as_slice(), client);
    let Some(line) = line_at(plan, client, place) else {
        return true;
    };
    is_held(plan, asked, position, choice, line)
        || is_free(plan, asked, position, choice, client, line)
}

/// Whether one of the chosen clients is free to go, and leaves no race.
fn one_goes(plan: &Plan, asked: &[Name], position: &Position, choice: &Choice) -> bool
    ensures { result ≡ true → (now : Standing) → IsAt position.now now →
        OneGoes (has_name asked.now) (bounds_of choice.now.flow) plan.now now (choice_of choice.now) }
{
    for client in 0..plan.clients.len() {
        if goes(plan, asked, position, choice, client) {
            return true;
        }
    }
    false
}

fn goes(plan: &Plan, asked: &[Name], position: &Position, choice: &Choice, client: usize) -> bool
    ensures { result ≡ true → (now : Standing) → IsAt position.now now →
        OneGoes (has_name asked.now) (bounds_of choice.now.flow) plan.now now (choice_of choice.now) }
{
    if !choice.is_chosen(client) {
        return false;
    }
    let place = place_of(position.made.as_slice(), client);
    let Some(line) = line_at(plan, client, place) else {
        return false;
    };
    is_free(plan, asked, position, choice, client, line)
        && leaves_no_race(
            plan.accesses.as_slice(),
            choice,
            client,
            position.made.as_slice(),
            line,
        )
}

/// Whether the client's line can be made, leads forward, and is independent of all lines that may be made before it.
fn is_free(
    plan: &Plan,
    asked: &[Name],
    position: &Position,
    choice: &Choice,
    client: usize,
    line: &Step,
) -> bool
    ensures { result ≡ true → (now : Standing) → IsAt position.now now →
        IsFree (has_name asked.now) (bounds_of choice.now.flow) plan.now now (choice_of choice.now) client line.now }
{
    if !can_go(position, line) {
        return false;
    }
    let made = position.made.as_slice();
    leads_forward(line, place_of(made, client))
        && all_leave(plan, asked, made, choice, &Matter::Line(line.command))
}

/// Whether the line can be made. Says no where `passes` does.
pub(crate) fn can_go(position: &Position, line: &Step) -> bool
    ensures can { result ≡ true → (now : Standing) → IsAt position.now now → can_be_made now line.now ≡ true }
    ensures patient { result ≡ true → IsPatient line.now.command line.now.waits }
{
    line.is_due(position.made.as_slice()) && passes(&position.desk, line)
}

/// Whether the line is made at once, or would be accepted. Says no where a client waits with another command than `wait`, since only
/// the command itself tells.
fn passes(desk: &Desk, line: &Step) -> bool
    ensures can { result ≡ true → (history : List Made) → HasHistory desk.now history →
        not (line.now.waits && is_refused (answer_now history line.now.command)) ≡ true }
    ensures patient { result ≡ true → IsPatient line.now.command line.now.waits }
{
    match &line.command {
        Command::Wait(file) => line.waits && is_signalled(desk, file),
        _ => !line.waits,
    }
}

/// Whether the line can't be made before a chosen client goes.
pub(crate) fn is_held(
    plan: &Plan,
    asked: &[Name],
    position: &Position,
    choice: &Choice,
    line: &Step,
) -> bool
    ensures { result ≡ true → (now : Standing) → IsAt position.now now →
        IsHeld plan.now now (choice_of choice.now) line.now }
{
    is_held_by_place(position.made.as_slice(), choice, line)
        || is_held_by_file(plan, asked, position, choice, line)
}

/// Whether the line comes after a milestone that is not passed before a chosen client goes.
pub(crate) fn is_held_by_place(made: &[usize], choice: &Choice, line: &Step) -> bool
    ensures { result ≡ true → (now : Standing) → made.now ≡ now.made →
        IsSomeAnd line.now.after (StaysAhead now (choice_of choice.now)) }
{
    match &line.after {
        Some(milestone) => stays_ahead(made, choice, milestone),
        None => false,
    }
}

/// Whether the milestone is not passed before a chosen client goes: its client is chosen, or stops above it or at it.
fn stays_ahead(made: &[usize], choice: &Choice, milestone: &Milestone) -> bool
    ensures { result ≡ true → (now : Standing) → made.now ≡ now.made →
        StaysAhead now (choice_of choice.now) milestone.now }
{
    if milestone.is_past(made) {
        return false;
    }
    choice.is_chosen(milestone.client) || choice.limit(milestone.client) <= milestone.place
}

/// Whether the line is a `wait` that waits for a file that is missing or pending, and stays so before a chosen client goes.
fn is_held_by_file(
    plan: &Plan,
    asked: &[Name],
    position: &Position,
    choice: &Choice,
    line: &Step,
) -> bool
    ensures { result ≡ true → (now : Standing) → IsAt position.now now →
        IsHeldByFile plan.now now (choice_of choice.now) line.now }
{
    let Command::Wait(file) = line.command else {
        return false;
    };
    line.waits
        && all_leave(
            plan,
            asked,
            position.made.as_slice(),
            choice,
            &Matter::File(file),
        )
        && is_unsignalled(plan, asked, position, choice, &file)
}

/// Whether the file is missing, or a point of it is pending and stays so.
fn is_unsignalled(
    plan: &Plan,
    asked: &[Name],
    position: &Position,
    choice: &Choice,
    file: &Name,
) -> bool
    ensures { result ≡ true → (now : Standing) → IsAt position.now now →
        (has_file (world_of now.history).files file.now ≡ false) ⊎ IsPendingFor plan.now now (choice_of choice.now) file.now }
{
    let Some(points) = position.desk.file_points(file) else {
        return true;
    };
    has_pending(plan, asked, position, choice, points)
}

fn has_pending(
    plan: &Plan,
    asked: &[Name],
    position: &Position,
    choice: &Choice,
    points: &[Point],
) -> bool
    ensures { result ≡ true → (now : Standing) → IsAt position.now now → (point : Seen)
        × Contains points.now point × StaysPending plan.now now (choice_of choice.now) point }
{
    for point in points {
        if stays_pending(plan, asked, position, choice, point) {
            return true;
        }
    }
    false
}

/// Whether the point is pending, and no line that may be made before a chosen client goes changes its timeline.
fn stays_pending(
    plan: &Plan,
    asked: &[Name],
    position: &Position,
    choice: &Choice,
    point: &Point,
) -> bool
    ensures { result ≡ true → (now : Standing) → IsAt position.now now →
        StaysPending plan.now now (choice_of choice.now) point.now }
{
    if is_reached(&position.desk, point) {
        return false;
    }
    let Some(timeline) = position.desk.timeline_name(point.ctx) else {
        return false;
    };
    all_leave(
        plan,
        asked,
        position.made.as_slice(),
        choice,
        &Matter::Timeline(timeline),
    )
}

/// Whether the file is there, and each of its points is reached.
fn is_signalled(desk: &Desk, file: &Name) -> bool
    ensures { result ≡ true → (history : List Made) → HasHistory desk.now history →
        is_refused (answer_now history (Command.Wait file.now)) ≡ false }
{
    let Some(points) = desk.file_points(file) else {
        return false;
    };
    are_reached(desk, points)
}

fn are_reached(desk: &Desk, points: &[Point]) -> bool
    ensures { result ≡ list_all (is_reached (reach_of desk.now.timelines)) points.now }
{
    points.iter().all(|point| is_reached(desk, point))
}

pub(crate) fn is_reached(desk: &Desk, point: &Point) -> bool
    ensures { result ≡ is_reached (reach_of desk.now.timelines) point.now }
{
    desk.point_status(*point).is_signalled()
}

/// Whether the client, which is not chosen, is stopped by its limit before a chosen one goes: there it is held, or is done.
fn is_stopped(
    plan: &Plan,
    asked: &[Name],
    position: &Position,
    choice: &Choice,
    client: usize,
) -> bool
    ensures { result ≡ true → (now : Standing) → IsAt position.now now →
        IsStopped (bounds_of choice.now.flow) plan.now now (choice_of choice.now) client }
{
    let place = place_of(position.made.as_slice(), client);
    let limit = choice.limit(client);
    if place > limit {
        return false;
    }
    are_orderly(plan, &choice.flow, client, place, limit)
        && waits_at(plan, asked, position, choice, client, limit)
}

/// Whether the client is done at this place, or held there.
fn waits_at(
    plan: &Plan,
    asked: &[Name],
    position: &Position,
    choice: &Choice,
    client: usize,
    place: usize,
) -> bool
    ensures { result ≡ true → (now : Standing) → IsAt position.now now → (line : Line) →
        slice_get (lines_of plan.now client) place ≡ Some line → IsHeld plan.now now (choice_of choice.now) line }
{
    let Some(line) = line_at(plan, client, place) else {
        return true;
    };
    is_held(plan, asked, position, choice, line)
}

/// Whether the client's lines from one place to another lead no further, and put nothing that the flow has not.
fn are_orderly(plan: &Plan, flow: &Flow, client: usize, from: usize, limit: usize) -> bool
    ensures { result ≡ true → (place : ℕ) → from ≤ place → place < limit → IsOrderlyAt (bounds_of flow.now) plan.now client limit place }
{
    for place in from..limit {
        if !is_orderly_at(plan, flow, client, place, limit) {
            return false;
        }
    }
    true
}

fn is_orderly_at(plan: &Plan, flow: &Flow, client: usize, place: usize, limit: usize) -> bool
    ensures { result ≡ true → IsOrderlyAt (bounds_of flow.now) plan.now client limit place }
{
    let Some(line) = line_at(plan, client, place) else {
        return true;
    };
    is_orderly(flow, line, place, limit)
}

fn is_orderly(flow: &Flow, line: &Step, place: usize, limit: usize) -> bool
    ensures { result ≡ true → IsOrderly (bounds_of flow.now) limit place line.now }
{
    is_narrow(&line.command)
        && is_patient(line)
        && leads_on(line, place, limit)
        && flow.bounds(&line.command)
}

/// Whether a client waits with the line, if it is a `wait`.
fn is_patient(line: &Step) -> bool
    ensures { result ≡ true → IsPatient line.now.command line.now.waits }
{
    match &line.command {
        Command::Wait(_) => line.waits,
        _ => true,
    }
}

/// Whether a client that skips the line's branch comes further, and no further than the limit.
fn leads_on(line: &Step, place: usize, limit: usize) -> bool
    ensures { result ≡ true → IfSome line.now.branch (λ b. (place < b.otherwise) × (b.otherwise ≤ limit)) }
{
    let Some(branch) = &line.branch else {
        return true;
    };
    place < branch.otherwise && branch.otherwise <= limit
}

/// Whether all lines that may be made before a chosen client goes leave it as it is.
fn all_leave(plan: &Plan, asked: &[Name], made: &[usize], choice: &Choice, what: &Matter) -> bool
    ensures { result ≡ true → (now : Standing) → made.now ≡ now.made →
        AllLeave (has_name asked.now) (bounds_of choice.now.flow) plan.now now (choice_of choice.now) what.now }
{
    for client in 0..plan.clients.len() {
        if !client_leaves(plan, asked, made, choice, client, what) {
            return false;
        }
    }
    true
}

pub(crate) fn client_leaves(
    plan: &Plan,
    asked: &[Name],
    made: &[usize],
    choice: &Choice,
    client: usize,
    what: &Matter,
) -> bool
    ensures { result ≡ true → (now : Standing) → made.now ≡ now.made →
        ClientLeaves (has_name asked.now) (bounds_of choice.now.flow) plan.now now (choice_of choice.now) what.now client }
{
    if choice.is_chosen(client) {
        return true;
    }
    let from = place_of(made, client);
    let limit = choice.limit(client);
    lines_leave(plan, asked, &choice.flow, client, from, limit, what)
}

/// Whether the client's lines from one place to another leave it as it is.
fn lines_leave(
    plan: &Plan,
    asked: &[Name],
    flow: &Flow,
    client: usize,
    from: usize,
    limit: usize,
    what: &Matter,
) -> bool
    ensures { result ≡ true → (place : ℕ) → from ≤ place → place < limit →
        LeavesAt (has_name asked.now) (bounds_of flow.now) plan.now client what.now place }
{
    for place in from..limit {
        if !line_leaves(plan, asked, flow, client, place, what) {
            return false;
        }
    }
    true
}

fn line_leaves(
    plan: &Plan,
    asked: &[Name],
    flow: &Flow,
    client: usize,
    place: usize,
    what: &Matter,
) -> bool
    ensures { result ≡ true → LeavesAt (has_name asked.now) (bounds_of flow.now) plan.now client what.now place }
{
    let Some(line) = line_at(plan, client, place) else {
        return true;
    };
    leaves(asked, flow, &line.command, what)
}

fn leaves(asked: &[Name], flow: &Flow, command: &Command, what: &Matter) -> bool
    ensures { result ≡ true → Leaves (has_name asked.now) (bounds_of flow.now) what.now command.now }
{
    match what {
        Matter::File(file) => !changes_file(command, file),
        Matter::Timeline(timeline) => !changes_timeline(command, timeline),
        Matter::Line(line) => are_independent(asked, flow, line, command),
    }
}

/// Whether the command makes or closes the file.
fn changes_file(command: &Command, file: &Name) -> bool
    ensures { result ≡ changes_file command.now file.now }
{
    match command {
        Command::Fence(made, _, _) => is_name(made, file),
        Command::Merge(made, _, _) => is_name(made, file),
        Command::Export(made, _, _) => is_name(made, file),
        Command::Close(closed) => is_name(closed, file),
        _ => false,
    }
}

/// Whether the command raises or closes the timeline.
fn changes_timeline(command: &Command, timeline: &Name) -> bool
    ensures { result ≡ changes_timeline command.now timeline.now }
{
    match command {
        Command::Inc(raised, _) => is_name(raised, timeline),
        Command::Shut(shut) => is_name(shut, timeline),
        _ => false,
    }
}
