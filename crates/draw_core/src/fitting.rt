//! Which lines of a script fit into a picture: the last ones, since a trace ends with what hangs.
ghost use Rattle.std.specs.Prelude.{◌≡◌, IfErr};
ghost use Rattle.point_core.specs.declared.refusal.Refusal.TheVariants.{Memory};

use crate::note::{Explain, RefusedLine};
use crate::run::Run;
use crate::window::Window;
use command_core::Command;
use desk_core::Desk;
use line_core::{Line, read_script};
use picture_core::{Column, History, columns_past};
use point_core::Refusal;
use std::alloc::Global;

/// The least width of a column in pixels, by which no more lines are tried than could fit.
const NARROWEST: u64 = 30;

/// The last lines that fit into a picture of that width.
pub(crate) fn last_lines(alloc: Global, script: &[u8], width: u64) -> Result<Window, Refusal>
    ensures memory { IfErr result (λ e. e ≡ Memory) }
{
    let tried = lines_to_try(alloc, script, width)?;
    let mut silence = Silence;
    let run = Run::of(alloc, script, &tried, &mut silence)?;
    lines_that_fit(alloc, run.history(), &tried, width)
}

/// As many of the last lines as columns of the least width would fit.
fn lines_to_try(alloc: Global, script: &[u8], width: u64) -> Result<Window, Refusal>
    ensures memory { IfErr result (λ e. e ≡ Memory) }
{
    let lines = read_script(alloc, script)?;
    let most = usize::try_from(width / NARROWEST).unwrap_or(usize::MAX);
    Ok(window_from(lines.as_slice(), lines.len().saturating_sub(most)))
}

/// The lines of the tried ones whose columns fit.
fn lines_that_fit(
    alloc: Global,
    history: &History,
    tried: &Window,
    width: u64,
) -> Result<Window, Refusal>
    ensures memory { IfErr result (λ e. e ≡ Memory) }
{
    let past = columns_past(alloc, history, width)?;
    if past == 0 {
        return Ok(*tried);
    }
    Ok(Window {
        first: first_line_from(history.columns.as_slice(), past),
        last: tried.last,
    })
}

/// All lines, or those from the one at that place on, if it isn't the first.
fn window_from(lines: &[Line], place: usize) -> Window {
    let mut window = Window::whole();
    if place > 0 {
        if let Some(line) = lines.get(place) {
            window.first = line.number;
        }
    }
    window
}

/// The line of the column at that place, or the one after the last.
fn first_line_from(columns: &[Column], place: usize) -> u32 {
    match columns.get(place) {
        Some(column) => column.line,
        None => columns
            .last()
            .map_or(1, |column| column.line.saturating_add(1)),
    }
}

/// Explains nothing.
#[derive(Drop)]
struct Silence;

impl Explain for Silence {
    fn accept(&mut self, _line: u32, _command: &Command, _desk: &Desk) -> Result<(), Refusal> {
        Ok(())
    }

    fn explain(
        &self,
        _desk: &Desk,
        _refused: &RefusedLine<'_>,
        _note: &mut Vec<u8>,
    ) -> Result<(), Refusal> {
        Ok(())
    }
}
