//! `Row`: a line of a plan that says something, with its context. `plan_script.rt` keeps the rows of a plan.
ghost use Rattle.std.specs.Prelude.{◌≡◌, ◌+◌, ◌++◌, OnOk, IfOk, Some, map};
ghost use Rattle.explore_report.specs.Cases.{command_rows, index_at};
ghost use Rattle.explore_report.specs.Context.{after};
ghost use Rattle.explore_report.specs.Expected.{begins_answer, expects, expects_front};
ghost use Rattle.explore_report.specs.Accesses.{begins_section, ends_access, is_access, stops_access};
ghost use Rattle.explore_report.specs.Mistake.{begins_part, depth_below, is_client_row, is_unended, marks};
ghost use Rattle.explore_report.specs.Rows.{command_in, command_said, context_below, ends_branch, ends_part, is_else, is_end, is_if, is_line, row_if, rows_at, rows_of};

use crate::context::{Context, Section};
use crate::mark::{Mark, mark_of};
use command_core::Command;
use point_core::Name;
use std::alloc::{AllocError, Global};

/// A line of a plan that says something.
#[derive(Clone, Copy)]
pub struct Row {
    /// Its number among the lines of the plan, from 1; `PlanScript::line_of` has the number of the script's line.
    pub number: usize,
    pub context: Context,
    pub mark: Mark,
}

impl Row {
    /// The command, if it is a line of the section.
    pub(crate) fn command_in(&self, section: Section) -> Option<Command>
        ensures { result ≡ command_in section self.now }
    {
        if self.context.section.is_same(section) {
            self.command()
        } else {
            None
        }
    }

    pub(crate) fn command(&self) -> Option<Command>
        ensures { result ≡ command_said self.now.mark }
    {
        self.mark.command()
    }

    /// Whether it is a line of a client.
    pub(crate) fn is_line(&self) -> bool
        ensures { result ≡ is_line self.now }
    {
        matches!(
            (self.mark, self.context.section),
            (Mark::Command(_), Section::Client(_))
        )
    }

    pub(crate) fn is_command(&self) -> bool {
        matches!(self.mark, Mark::Command(_))
    }

    pub(crate) fn is_client(&self) -> bool
        ensures { result ≡ is_client_row self.now }
    {
        matches!(self.mark, Mark::Client(_))
    }

    /// Whether it marks a line by that name.
    pub(crate) fn marks(&self, name: &Name) -> bool
        ensures { result ≡ marks name.now self.now }
    {
        self.mark.is_marked(name)
    }

    /// How many `#if` are open below it.
    pub(crate) fn depth_below(&self) -> usize
        ensures { result ≡ depth_below self.now }
    {
        self.context.after(&self.mark).depth
    }

    /// Whether an `#if` or an `#atomic` is open below it.
    pub(crate) fn is_unended(&self) -> bool
        ensures { result ≡ is_unended self.now }
    {
        self.context.after(&self.mark).is_enclosed()
    }

    pub(crate) fn is_if(&self) -> bool
        ensures { result ≡ is_if self.now.mark }
    {
        self.mark.is_if()
    }

    pub(crate) fn is_else(&self) -> bool
        ensures { result ≡ is_else self.now.mark }
    {
        self.mark.is_else()
    }

    pub(crate) fn is_end(&self) -> bool
        ensures { result ≡ is_end self.now.mark }
    {
        self.mark.is_end()
    }

    /// Whether it begins a part of a branch in which this many `#if` are open.
    pub(crate) fn begins_part(&self, depth: usize) -> bool
        ensures { result ≡ begins_part depth self.now }
    {
        (self.is_if() || self.is_else()) && self.depth_below() == depth
    }

    /// Whether it is the `#end` of a branch, and not of an `#atomic`.
    fn ends_branch(&self) -> bool
        ensures { result ≡ ends_branch self.now }
    {
        let context = &self.context;
        self.is_end() && !context.atomic.is_innermost(context.depth)
    }

    /// Whether it ends a part of a branch in which this many `#if` are open.
    pub(crate) fn ends_part(&self, depth: usize) -> bool
        ensures { result ≡ ends_part depth self.now }
    {
        (self.is_else() || self.ends_branch()) && self.context.depth == depth
    }

    /// Whether it is a note on an access to the buffer of that name.
    pub(crate) fn is_access(&self, name: &Name) -> bool
        ensures { result ≡ is_access name.now self.now.mark }
    {
        match &self.mark {
            Mark::Access(_, buffer) => buffer == name,
            _ => false,
        }
    }

    /// Whether it ends an access.
    pub(crate) fn ends_access(&self) -> bool
        ensures { result ≡ ends_access self.now.mark }
    {
        match &self.mark {
            Mark::Access(verb, _) => verb.is_done(),
            _ => false,
        }
    }

    /// Whether it begins an access.
    pub(crate) fn begins_access(&self) -> bool {
        match &self.mark {
            Mark::Access(verb, _) => !verb.is_done(),
            _ => false,
        }
    }

    pub(crate) fn begins_section(&self) -> bool
        ensures { result ≡ begins_section self.now.mark }
    {
        matches!(self.mark, Mark::Client(_) | Mark::Finally)
    }

    /// Whether below it there is no more of an access to that buffer, which begins where this many `#if` are open.
    pub(crate) fn stops_access(&self, name: &Name, depth: usize) -> bool
        ensures { result ≡ stops_access name.now depth self.now }
    {
        self.is_access(name) || self.ends_part(depth) || self.begins_section()
    }

    /// Whether it expects a line of an answer.
    pub(crate) fn expects(&self) -> bool
        ensures { result ≡ expects self.now }
    {
        match self.mark {
            Mark::Expected => true,
            Mark::OrExpected => true,
            Mark::OrBegins => true,
            _ => false,
        }
    }

    /// Whether it begins another answer than the row above.
    pub(crate) fn begins_answer(&self) -> bool
        ensures { result ≡ begins_answer self.now }
    {
        match self.mark {
            Mark::OrExpected => true,
            Mark::OrBegins => true,
            _ => false,
        }
    }

    /// Whether it expects only the front of an answer, which may have more lines.
    pub(crate) fn expects_front(&self) -> bool
        ensures { result ≡ expects_front self.now }
    {
        matches!(self.mark, Mark::OrBegins)
    }
}

/// The rows of a plan with these lines.
pub(crate) fn rows_of(alloc: Global, lines: &[&[u8]]) -> Result<Vec<Row>, AllocError>
    ensures rows { IfOk result (λ rows. rows.items ≡ rows_of (map (λ l. l.now) lines.now)) }
{
    let mut rows = Vec::new(alloc);
    let mut context = Context::start();
    for (index, line) in lines.iter().enumerate() {
        take_line(index + 1, line, &mut context, &mut rows)?;
    }
    Ok(rows)
}

/// Appends the row of a line, if it says something.
fn take_line(
    number: usize,
    line: &[u8],
    context: &mut Context,
    rows: &mut Vec<Row>,
) -> Result<(), AllocError>
    ensures rows { OnOk result (rows.new.items ≡ rows.old.items ++ rows_at context.old number line.now) }
    ensures context { OnOk result (context.new ≡ context_below context.old line.now) }
{
    match &mark_of(line) {
        Some(mark) => push_row(number, mark, context, rows),
        None => Ok(()),
    }
}

/// Appends the row of a mark, and moves the context below it.
fn push_row(
    number: usize,
    mark: &Mark,
    context: &mut Context,
    rows: &mut Vec<Row>,
) -> Result<(), AllocError>
    ensures rows { OnOk result (rows.new.items ≡ rows.old.items ++ row_if context.old number (Some mark.now)) }
    ensures context { OnOk result (context.new ≡ after context.old mark.now) }
{
    rows.push(Row {
        number,
        context: *context,
        mark: *mark,
    })?;
    *context = context.after(mark);
    // The check of `push` has to see the types of a command and of a name.
    let _command = mark.command();
    let _name = context.follows;
    Ok(())
}

/// Appends the indices of the rows with a section's commands.
pub(crate) fn push_commands(
    rows: &[Row],
    section: Section,
    indices: &mut Vec<usize>,
) -> Result<(), AllocError>
    ensures pushed { OnOk result (indices.new.items ≡ indices.old.items ++ command_rows section rows.now) }
{
    for (index, row) in rows.iter().enumerate() {
        push_index(index, row, section, indices)?;
    }
    Ok(())
}

fn push_index(
    index: usize,
    row: &Row,
    section: Section,
    indices: &mut Vec<usize>,
) -> Result<(), AllocError>
    ensures pushed { OnOk result (indices.new.items ≡ indices.old.items ++ index_at section index row.now) }
{
    if row.command_in(section).is_some() {
        indices.push(index)?;
    }
    Ok(())
}
