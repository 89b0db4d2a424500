//! `Way`: where a client continues among rows: at an `#else` it passes the lines of the other part. `sections.rt` asks how many lines
//! the client leaves out.
ghost use Rattle.std.specs.Prelude.{◌≡◌, ◌+◌, IfOk};
ghost use Rattle.explore_report.specs.Plan.{is_settled, left_out, lines_at, passed_at, way_below, way_past};

use crate::row::Row;
use std::alloc::AllocError;

/// Where a client continues among rows.
#[derive(Clone, Copy)]
pub(crate) enum Way {
    /// With the next row.
    Comes,
    /// Below the lines of a part of a branch in which this many `#if` are open.
    Passes(usize),
    /// With a line that it has reached.
    Stays,
}

impl Way {
    /// The way below a row.
    fn below(self, row: &Row) -> Way
        ensures { result ≡ way_below self row.now }
    {
        match self {
            Way::Comes => past(row),
            Way::Passes(depth) => {
                if row.ends_part(depth) {
                    Way::Comes
                } else {
                    Way::Passes(depth)
                }
            }
            Way::Stays => Way::Stays,
        }
    }

    /// How many lines the client leaves out at a row.
    fn passed_at(self, row: &Row) -> usize
        ensures { result ≡ passed_at self row.now }
    {
        match self {
            Way::Passes(_) => lines_at(row),
            _ => 0,
        }
    }

    /// Whether the client has reached its line.
    fn is_settled(self) -> bool
        ensures { result ≡ is_settled self }
    {
        matches!(self, Way::Stays)
    }
}

fn lines_at(row: &Row) -> usize
    ensures { result ≡ lines_at row.now }
{
    if row.is_line() { 1 } else { 0 }
}

/// The way below a row that the client comes to. An `#else` ends the lines of its `#if`.
fn past(row: &Row) -> Way
    ensures { result ≡ way_past row.now }
{
    if row.is_else() {
        return Way::Passes(row.context.depth);
    }
    if row.is_end() {
        return Way::Comes;
    }
    Way::Stays
}

/// How many lines the client leaves out among the rows before it makes one.
pub(crate) fn left_out(start: Way, rows: &[Row]) -> Result<usize, AllocError>
    ensures count { IfOk result (λ count. count ≡ left_out start rows.now) }
{
    let mut count = 0;
    let mut way = start;
    for row in rows {
        if way.is_settled() {
            return Ok(count);
        }
        count = more(count, way.passed_at(row))?;
        way = way.below(row);
    }
    Ok(count)
}

/// The sum of two counts of lines.
pub(crate) fn more(count: usize, lines: usize) -> Result<usize, AllocError>
    ensures sum { IfOk result (λ sum. sum ≡ count + lines) }
{
    let Some(sum) = count.checked_add(lines) else {
        // This can't happen: there are fewer lines than a usize counts.
        return Err(AllocError);
    };
    Ok(sum)
}
