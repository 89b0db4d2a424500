//! The plan that rows make: the commands of its first section, the lines of each client, and the commands of its last section.
//! `plan_script.rt` calls it.
ghost use Rattle.std.specs.Prelude.{◌≡◌, ◌+◌, ◌++◌, IfOk, OnOk, Vec, length, map};
ghost use Rattle.std.specs.Global.{Global};
ghost use Rattle.explore_core.specs.declared.plan.Step.{Step};
ghost use Rattle.explore_report.specs.Plan.{branch_at, branch_below, branch_line, branch_of, clients_at, clients_in, commands_at, commands_in, expects_for, jump, line_before, line_below, mark_at, marked_at, marked_line, plan_of, steps_at, steps_in, waits};
ghost use Rattle.explore_report.specs.Lines.{text_at, texts_of};

use crate::accesses::{accesses_of, lines_in};
use crate::context::{Above, Section};
use crate::expected::expects_below;
use crate::mark::{Mark, branch_text};
use crate::plan_script::{after_notes, below};
use crate::purpose::Purpose;
use crate::row::Row;
use crate::way::{Way, left_out, more};
use command_core::Command;
use explore_core::{Branch, Expects, Milestone, Plan, Step};
use point_core::Name;
use std::alloc::{AllocError, Global};

/// The plan of the rows, which are of these lines.
pub(crate) fn plan_of(
    alloc: Global,
    purpose: Purpose,
    lines: &[&[u8]],
    rows: &[Row],
) -> Result<Plan, AllocError>
    ensures plan { IfOk result (λ plan. plan ≡ plan_of purpose (texts_of lines.now) rows.now) }
{
    let first = commands_in(alloc, rows, Section::First)?;
    let clients = clients_of(alloc, purpose, lines, rows)?;
    let last = commands_in(alloc, rows, Section::Last)?;
    let accesses = accesses_of(alloc, rows)?;
    Ok(Plan {
        first,
        clients,
        last,
        accesses,
    })
}

/// The commands of a section.
fn commands_in(alloc: Global, rows: &[Row], section: Section) -> Result<Vec<Command>, AllocError>
    ensures commands { IfOk result (λ commands. commands.items ≡ commands_in section rows.now) }
{
    let mut commands = Vec::new(alloc);
    for row in rows {
        push_command(row, section, &mut commands)?;
    }
    Ok(commands)
}

fn push_command(row: &Row, section: Section, commands: &mut Vec<Command>) -> Result<(), AllocError>
    ensures pushed { OnOk result (commands.new.items ≡ commands.old.items ++ commands_at section row.now) }
{
    if let Some(command) = row.command_in(section) {
        commands.push(command)?;
    }
    Ok(())
}

/// The lines of each client, which are in the section that the client's row begins.
fn clients_of(
    alloc: Global,
    purpose: Purpose,
    lines: &[&[u8]],
    rows: &[Row],
) -> Result<Vec<Vec<Step>>, AllocError>
    ensures clients { IfOk result (λ clients. map (λ (steps : Vec Step Global). steps.items) clients.items
        ≡ clients_in purpose (texts_of lines.now) rows.now) }
{
    let mut clients = Vec::new(alloc);
    for row in rows {
        push_client(alloc, purpose, lines, rows, row, &mut clients)?;
    }
    Ok(clients)
}

fn push_client(
    alloc: Global,
    purpose: Purpose,
    lines: &[&[u8]],
    rows: &[Row],
    row: &Row,
    clients: &mut Vec<Vec<Step>>,
) -> Result<(), AllocError>
    ensures pushed { OnOk result (map (λ (steps : Vec Step Global). steps.items) clients.new.items
        ≡ map (λ (steps : Vec Step Global). steps.items) clients.old.items ++ clients_at purpose (texts_of lines.now) rows.now row.now) }
{
    if let Mark::Client(_) = row.mark {
        let section = row.context.section.next_client();
        clients.push(steps_in(alloc, purpose, lines, rows, section)?)?;
    }
    Ok(())
}

/// The lines of a section.
fn steps_in(
    alloc: Global,
    purpose: Purpose,
    lines: &[&[u8]],
    rows: &[Row],
    section: Section,
) -> Result<Vec<Step>, AllocError>
    ensures steps { IfOk result (λ steps. steps.items ≡ steps_in purpose (texts_of lines.now) section rows.now) }
{
    let mut steps = Vec::new(alloc);
    for (index, row) in rows.iter().enumerate() {
        let below = below(rows, index);
        push_step(alloc, purpose, lines, rows, row, below, section, &mut steps)?;
    }
    Ok(steps)
}

/// Appends the line of a row that has these rows below it, if the row is in the section. All rows have the marks.
fn push_step(
    alloc: Global,
    purpose: Purpose,
    lines: &[&[u8]],
    rows: &[Row],
    row: &Row,
    below: &[Row],
    section: Section,
    steps: &mut Vec<Step>,
) -> Result<(), AllocError>
    ensures pushed { OnOk result (steps.new.items
        ≡ steps.old.items ++ steps_at purpose (texts_of lines.now) rows.now section (length steps.old.items) row.now below.now) }
{
    if let Some(command) = row.command_in(section) {
        let waits = waits(row.context.above, &command);
        let expects = expects_for(alloc, purpose, lines, below)?;
        let branch = branch_below(alloc, lines, steps.len() + 1, below)?;
        steps.push(Step {
            command,
            waits,
            branch,
            after: line_before(rows, row),
            joined: row.context.atomic.is_continued(),
            expects,
            turn: row.context.turn.unwrap_or(row.number),
        })?;
    }
    Ok(())
}

/// Whether a line waits until it would be accepted: the line below `#await`, and a `wait` that is not below `#once`.
fn waits(above: Above, command: &Command) -> bool
    ensures { result ≡ waits above command.now }
{
    match (above, command) {
        (Above::Await, _) => true,
        (Above::Once, _) => false,
        (_, Command::Wait(_)) => true,
        _ => false,
    }
}

/// The marked line behind which the line of a row comes.
fn line_before(rows: &[Row], row: &Row) -> Option<Milestone>
    ensures { result ≡ line_before rows.now row.now }
{
    match &row.context.follows {
        Some(name) => marked_line(rows, name),
        None => None,
    }
}

/// The line that the rows mark by that name.
fn marked_line(rows: &[Row], name: &Name) -> Option<Milestone>
    ensures line { result ≡ marked_line rows.now name.now }
{
    let index = mark_at(name, rows)?;
    marked_at(rows, index)
}

/// Which row is the mark of that name.
fn mark_at(name: &Name, rows: &[Row]) -> Option<usize>
    ensures index { result ≡ mark_at name.now rows.now }
{
    rows.iter().position(|row| row.marks(name))
}

fn marked_at(rows: &[Row], index: usize) -> Option<Milestone>
    ensures line { result ≡ marked_at rows.now index }
{
    let row = rows.get(index)?;
    line_below(rows, index, row)
}

/// The line below a row, which is of the row's client.
fn line_below(rows: &[Row], index: usize, row: &Row) -> Option<Milestone>
    ensures line { result ≡ line_below rows.now index row.now }
{
    let section = row.context.section;
    let Section::Client(client) = section else {
        return None;
    };
    let place = lines_in(section, rows.get(..index).unwrap_or(rows));
    Some(Milestone { client, place })
}

/// What is expected of a line with these rows below it, so that a schedule goes on.
fn expects_for(
    alloc: Global,
    purpose: Purpose,
    lines: &[&[u8]],
    below: &[Row],
) -> Result<Expects, AllocError>
    ensures expects { IfOk result (λ expects. expects ≡ expects_for purpose (texts_of lines.now) below.now) }
{
    match purpose {
        Purpose::Decide => Ok(Expects::Any),
        Purpose::Predict => expects_below(alloc, lines, below),
    }
}

/// The branch that begins directly below a line with these rows below it. `above` lines of the client are above the branch.
fn branch_below(
    alloc: Global,
    lines: &[&[u8]],
    above: usize,
    rows: &[Row],
) -> Result<Option<Branch>, AllocError>
    ensures branch { IfOk result (λ branch. branch ≡ branch_below (texts_of lines.now) above rows.now) }
{
    branch_at(alloc, lines, above, after_notes(rows))
}

fn branch_at(
    alloc: Global,
    lines: &[&[u8]],
    above: usize,
    rows: &[Row],
) -> Result<Option<Branch>, AllocError>
    ensures branch { IfOk result (λ branch. branch ≡ branch_at (texts_of lines.now) above rows.now) }
{
    let Some((row, below)) = rows.split_first() else {
        return Ok(None);
    };
    if row.is_if() {
        branch_of(alloc, lines, above, row, below)
    } else {
        jump(alloc, above, left_out(Way::Comes, rows)?)
    }
}

/// The branch of an `#if` with these rows below it.
fn branch_of(
    alloc: Global,
    lines: &[&[u8]],
    above: usize,
    row: &Row,
    below: &[Row],
) -> Result<Option<Branch>, AllocError>
    ensures branch { IfOk result (λ branch. branch ≡ branch_of (texts_of lines.now) above row.now below.now) }
{
    let passed = left_out(Way::Comes, below)?;
    if passed > 0 {
        return jump(alloc, above, passed);
    }
    let otherwise = more(above, left_out(Way::Passes(row.depth_below()), below)?)?;
    let text = branch_line(alloc, lines, row)?;
    Ok(Some(Branch { text, otherwise }))
}

/// A jump over `passed` lines, whatever the answer: a branch for an answer with an empty first line, which no answer has.
fn jump(alloc: Global, above: usize, passed: usize) -> Result<Option<Branch>, AllocError>
    ensures branch { IfOk result (λ branch. branch ≡ jump above passed) }
{
    if passed == 0 {
        return Ok(None);
    }
    let otherwise = more(above, passed)?;
    let text = Vec::new(alloc);
    Ok(Some(Branch { text, otherwise }))
}

/// The first line of an answer that an `#if` names, with its line feed.
fn branch_line(alloc: Global, lines: &[&[u8]], row: &Row) -> Result<Vec<u8>, AllocError>
    ensures line { IfOk result (λ line. line.items ≡ branch_line (texts_of lines.now) row.now) }
{
    let mut line = Vec::new(alloc);
    line.extend_from_slice(branch_text(text_at(lines, row.number)))?;
    line.push(b'\n')?;
    Ok(line)
}

/// The text of line `number`, from 1; empty if there is none.
pub(crate) fn text_at<'a>(lines: &[&'a [u8]], number: usize) -> &'a [u8]
    ensures text { result.now ≡ text_at (texts_of lines.now) number }
{
    match lines.get(number.saturating_sub(1)) {
        Some(line) => line,
        None => b"",
    }
}
