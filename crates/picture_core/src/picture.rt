//! Draws a history: lays out its sheet, and puts the shapes of each lane, link and mark on a canvas.
ghost use Rattle.std.specs.Prelude.{◌≡◌, IfErr};
ghost use Rattle.point_core.specs.declared.refusal.Refusal.TheVariants.{Memory};

use crate::history::{Column, ColumnHead, History, Lane};
use crate::lanes::{
    push_bars, push_buffers, push_clients, push_tasks, push_timelines, push_watches,
};
use crate::legend::{LEGEND_WIDTH, push_legend};
use crate::links::{push_link_ends, push_link_lines};
use crate::operands::operand_count;
use crate::shapes::{Canvas, ColumnArea, Drawn, Face, Fill, Heading, Label, Mark, Picture, Spot};
use crate::sheet::{HEADING, LINE, PAD, Sheet};
use point_core::Refusal;
use std::alloc::{AllocError, Global};

/// The baselines of the lines' numbers and words, and the marks of refused lines.
const NUMBERS: u64 = 16;

const WORDS: u64 = 32;

const REFUSALS: u64 = 43;

/// Draws a history: a column for each line, and a lane for each timeline, file, buffer and watch.
pub fn picture_of(alloc: Global, history: &History) -> Result<Picture, Refusal>
    ensures memory { IfErr result (λ e. e ≡ Memory) }
{
    let sheet = Sheet::of(alloc, history)?;
    picture_on(alloc, history, &sheet)
}

fn picture_on(alloc: Global, history: &History, sheet: &Sheet) -> Result<Picture, Refusal>
    ensures memory { IfErr result (λ e. e ≡ Memory) }
{
    let width = sheet.width.max(LEGEND_WIDTH);
    let mut canvas = Canvas::new(alloc);
    push_all(history, sheet, width, &mut canvas)?;
    let bottom = push_legend(sheet.bottom, width, &mut canvas)?;
    let height = push_left_out(history.left_out, bottom, &mut canvas)?;
    let columns = column_areas(alloc, history, sheet)?;
    Ok(Picture {
        width,
        height,
        shapes: canvas.shapes,
        texts: canvas.texts,
        columns,
    })
}

fn push_all(history: &History, sheet: &Sheet, width: u64, canvas: &mut Canvas) -> Drawn {
    push_stripes(history, sheet, width, canvas)?;
    push_headings(history, sheet, canvas)?;
    push_heads(history, sheet, canvas)?;
    push_clients(history, sheet, canvas)?;
    push_link_lines(history.lanes.links.as_slice(), sheet, canvas)?;
    push_timelines(history, sheet, canvas)?;
    push_bars(history, sheet, canvas)?;
    push_link_ends(history.lanes.links.as_slice(), sheet, canvas)?;
    push_buffers(history, sheet, canvas)?;
    push_watches(history.lanes.watches.as_slice(), sheet, canvas)?;
    push_tasks(history, sheet, canvas)
}

/// Says what is left out, below the legend. Gives the bottom.
fn push_left_out(count: usize, top: u64, canvas: &mut Canvas) -> Result<u64, AllocError> {
    if count == 0 {
        return Ok(top);
    }
    canvas.text(
        Face::Heading,
        PAD,
        top.saturating_add(LINE),
        &Label::LeftOut(count),
    )?;
    let below = top.saturating_add(LINE * 2);
    canvas.text(Face::Heading, PAD, below, &Label::Choosing)?;
    Ok(below.saturating_add(LINE))
}

/// The kinds of lanes from top to bottom, and the number of each.
fn kinds_of(history: &History) -> [(Heading, usize); 6] {
    [
        (Heading::Clients, history.clients.len()),
        (Heading::Timelines, history.lanes.timelines.len()),
        (Heading::Files, history.bars.len()),
        (Heading::Buffers, history.lanes.buffers.len()),
        (Heading::Watches, history.lanes.watches.len()),
        (Heading::Tasks, history.lanes.tasks.len()),
    ]
}

fn lane_of(kind: Heading, place: usize) -> Lane {
    match kind {
        Heading::Clients => Lane::Client(place),
        Heading::Timelines => Lane::Timeline(place),
        Heading::Files => Lane::Bar(place),
        Heading::Buffers => Lane::Buffer(place),
        Heading::Watches => Lane::Watch(place),
        Heading::Tasks => Lane::Task(place),
    }
}

/// A stripe for every other lane, counted from the first of its kind.
fn push_stripes(history: &History, sheet: &Sheet, width: u64, canvas: &mut Canvas) -> Drawn {
    for (kind, count) in kinds_of(history) {
        push_stripes_of(sheet, width, kind, count, canvas)?;
    }
    Ok(())
}

fn push_stripes_of(
    sheet: &Sheet,
    width: u64,
    kind: Heading,
    count: usize,
    canvas: &mut Canvas,
) -> Drawn {
    for place in 0..count {
        if place % 2 == 0 {
            push_stripe(sheet, width, lane_of(kind, place), canvas)?;
        }
    }
    Ok(())
}

fn push_stripe(sheet: &Sheet, width: u64, lane: Lane, canvas: &mut Canvas) -> Drawn {
    let at = Spot {
        x: 0,
        y: sheet.top(lane),
    };
    canvas.area(Fill::Stripe, &at, width, sheet.lane_height(lane))
}

fn push_headings(history: &History, sheet: &Sheet, canvas: &mut Canvas) -> Drawn {
    for (kind, count) in kinds_of(history) {
        if count > 0 {
            push_heading(sheet, kind, canvas)?;
        }
    }
    Ok(())
}

fn push_heading(sheet: &Sheet, kind: Heading, canvas: &mut Canvas) -> Drawn {
    let y = sheet.top(lane_of(kind, 0)).saturating_sub(HEADING / 3);
    canvas.text(Face::Heading, PAD, y, &Label::Heading(kind))
}

/// The head of each column: its number and words, and a mark if it was refused.
fn push_heads(history: &History, sheet: &Sheet, canvas: &mut Canvas) -> Drawn {
    if history.columns.is_empty() {
        canvas.text(Face::Heading, PAD, WORDS, &Label::NoCommands)?;
    }
    for (place, column) in history.columns.iter().enumerate() {
        push_head(sheet, place, column, canvas)?;
    }
    Ok(())
}

fn push_head(sheet: &Sheet, place: usize, column: &Column, canvas: &mut Canvas) -> Drawn {
    let number = place.saturating_add(1);
    let x = sheet.middle(number);
    if column.refused {
        push_refusal(sheet, number, canvas)?;
    }
    push_number(column, x, canvas)?;
    push_words(sheet, place, column, canvas)
}

fn push_number(column: &Column, x: u64, canvas: &mut Canvas) -> Drawn {
    let label = match column.head {
        ColumnHead::Line => Label::Number(u64::from(column.line)),
        ColumnHead::Time(time) => Label::Time(time),
        ColumnHead::Blank => return Ok(()),
    };
    canvas.text(Face::Number, x, NUMBERS, &label)
}

/// The word of a column's command, and below it the words of its line for which there is room.
fn push_words(sheet: &Sheet, place: usize, column: &Column, canvas: &mut Canvas) -> Drawn {
    let x = sheet.middle(place.saturating_add(1));
    let face = if column.refused {
        Face::RefusedWord
    } else {
        Face::Word
    };
    canvas.text(face, x, WORDS, &Label::Command(place))?;
    for operand in 0..operand_count(column).min(sheet.operands) {
        let label = Label::Operand {
            column: place,
            place: operand,
        };
        let down = (operand as u64).saturating_add(1).saturating_mul(LINE);
        canvas.text(Face::Word, x, WORDS.saturating_add(down), &label)?;
    }
    Ok(())
}

fn push_refusal(sheet: &Sheet, number: usize, canvas: &mut Canvas) -> Drawn {
    let left = sheet.left(number);
    let width = sheet.right(number).saturating_sub(left);
    canvas.area(Fill::Refused, &Spot { x: left, y: 0 }, width, sheet.bottom)?;
    let down = (sheet.operands as u64).saturating_mul(LINE);
    canvas.mark(
        Mark::Refused,
        sheet.middle(number),
        REFUSALS.saturating_add(down),
    )
}

fn column_areas(
    alloc: Global,
    history: &History,
    sheet: &Sheet,
) -> Result<Vec<ColumnArea>, AllocError> {
    let mut areas = Vec::with_capacity(alloc, history.columns.len())?;
    for (place, _) in history.columns.iter().enumerate() {
        areas.push(area_of_column(sheet, place))?;
    }
    Ok(areas)
}

fn area_of_column(sheet: &Sheet, column: usize) -> ColumnArea {
    let number = column.saturating_add(1);
    let x = sheet.left(number);
    ColumnArea {
        column,
        x,
        width: sheet.right(number).saturating_sub(x),
    }
}
