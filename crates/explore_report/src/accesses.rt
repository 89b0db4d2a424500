//! The accesses of a plan's clients, by the notes `#reads`, `#writes` and `#done`. `mistake.rt` asks whether a note fits the other rows,
//! and `sections.rt` for the plan's accesses.
ghost use Rattle.std.specs.Prelude.{◌≡◌, ◌++◌, false, IfOk, OnOk, count_by};
ghost use Rattle.std.specs.Option.{option_to_list};
ghost use Rattle.explore_report.specs.Accesses.{accessed, accesses_by, is_closed, is_open, lines_in, open_after, stop_of};
ghost use Rattle.explore_report.specs.Plan.{accesses_of};
ghost use Rattle.explore_report.specs.Rows.{is_line};

use crate::context::Section;
use crate::mark::Mark;
use crate::plan_script::below;
use crate::row::Row;
use crate::way::more;
use explore_core::Access;
use point_core::Name;
use std::alloc::{AllocError, Global};

/// The first row below which there is no more of an access to that buffer, which begins where this many `#if` are open.
fn stop_of(name: &Name, depth: usize, rows: &[Row]) -> Option<usize>
    ensures stop { result ≡ stop_of name.now depth rows.now }
{
    rows.iter().position(|row| row.stops_access(name, depth))
}

/// Whether an access that begins above these rows ends with a `#done`.
pub(crate) fn is_closed(name: &Name, depth: usize, rows: &[Row]) -> bool
    ensures closed { result ≡ is_closed name.now depth rows.now }
{
    let Some(index) = stop_of(name, depth, rows) else {
        return false;
    };
    match rows.get(index) {
        Some(row) => row.ends_access(),
        None => false,
    }
}

/// How many lines an access has that begins above these rows.
pub(crate) fn lines_accessed(name: &Name, depth: usize, rows: &[Row]) -> usize
    ensures count { result ≡ count_by is_line (accessed name.now depth rows.now) }
{
    let end = stop_of(name, depth, rows).unwrap_or(rows.len());
    count_lines(&rows[..end])
}

fn count_lines(rows: &[Row]) -> usize
    ensures count { result ≡ count_by is_line rows.now }
{
    rows.iter().filter(|row| row.is_line()).count()
}

/// Whether a client accesses the buffer below these rows.
pub(crate) fn is_open(name: &Name, rows: &[Row]) -> bool
    ensures lasts { result ≡ is_open name.now false rows.now }
{
    let mut lasts = false;
    for row in rows {
        lasts = open_after(name, lasts, row);
    }
    lasts
}

fn open_after(name: &Name, lasts: bool, row: &Row) -> bool
    ensures { result ≡ open_after name.now lasts row.now }
{
    if row.is_access(name) {
        return !row.ends_access();
    }
    if row.begins_section() {
        return false;
    }
    lasts
}

/// What the clients of a plan access.
pub(crate) fn accesses_of(alloc: Global, rows: &[Row]) -> Result<Vec<Access>, AllocError>
    ensures accesses { IfOk result (λ accesses. accesses.items ≡ accesses_of rows.now) }
{
    let mut accesses = Vec::new(alloc);
    for (index, row) in rows.iter().enumerate() {
        push_access(&rows[..index], row, below(rows, index), &mut accesses)?;
    }
    Ok(accesses)
}

/// Appends the access that a row begins, which has these rows above and below it.
fn push_access(
    above: &[Row],
    row: &Row,
    below: &[Row],
    accesses: &mut Vec<Access>,
) -> Result<(), AllocError>
    ensures pushed { OnOk result (accesses.new.items ≡ accesses.old.items
        ++ accesses_by row.now.context.section row.now.context.depth above.now below.now row.now.mark) }
{
    if let Some(access) = access_by(above, row, below)? {
        accesses.push(access)?;
    }
    Ok(())
}

/// The access that a row begins, which has these rows above and below it.
fn access_by(above: &[Row], row: &Row, below: &[Row]) -> Result<Option<Access>, AllocError>
    ensures access { IfOk result (λ access. option_to_list access
        ≡ accesses_by row.now.context.section row.now.context.depth above.now below.now row.now.mark) }
{
    let Section::Client(client) = row.context.section else {
        return Ok(None);
    };
    let Mark::Access(verb, buffer) = &row.mark else {
        return Ok(None);
    };
    if verb.is_done() {
        return Ok(None);
    }
    let first = lines_in(row.context.section, above);
    let end = more(first, lines_accessed(buffer, row.context.depth, below))?;
    Ok(Some(Access {
        client,
        buffer: *buffer,
        writes: verb.is_write(),
        first,
        last: end.saturating_sub(1),
    }))
}

/// How many lines the section has among the rows.
pub(crate) fn lines_in(section: Section, rows: &[Row]) -> usize
    ensures count { result ≡ lines_in section rows.now }
{
    rows.iter()
        .filter(|row| row.command_in(section).is_some())
        .count()
}
