//! Draws the lanes: the steps of timelines, the bars of files, the marks of buffers and watches.

use crate::bar::Bar;
use crate::history::{
    Access, BarWait, BufferLane, BufferMark, Column, History, Lane, TaskWait, TimelineLane,
    ValueStep, WatchEnd, WatchLane,
};
use crate::shapes::{Canvas, Drawn, Face, Fill, Label, Mark, Spot, Stroke};
use crate::sheet::{LINE, PAD, Sheet};
use point_core::Status;

/// The rise of a timeline's value, and its base in its lane. Above it is room for the mark of a closing, below it for
/// the numbers.
const RISE: u64 = 16;

const FLOOR: u64 = 40;
/// The baseline of a timeline's numbers in its lane.
const VALUES: u64 = 15;
/// Half the height of a bar.
pub(crate) const HALF_BAR: u64 = 7;
/// From the middle of a lane to the baseline of a text there.
const FOOT: u64 = 4;

/// The gap between a client's sign and the edges of its column, and half its height.
const GAP: u64 = 2;

const HALF_CLIENT: u64 = 7;

/// A line to the right.
fn push_level(stroke: Stroke, left: u64, right: u64, y: u64, canvas: &mut Canvas) -> Drawn {
    canvas.line(stroke, &Spot { x: left, y }, &Spot { x: right, y })
}

/// The name of a lane, vertically centred.
fn push_name(sheet: &Sheet, lane: Lane, label: &Label, canvas: &mut Canvas) -> Drawn {
    let y = sheet.middle_of(lane).saturating_add(FOOT);
    canvas.text(Face::Name, PAD, y, label)
}

pub(crate) fn push_clients(history: &History, sheet: &Sheet, canvas: &mut Canvas) -> Drawn {
    for (place, name) in history.clients.iter().enumerate() {
        push_name(sheet, Lane::Client(place), &Label::Name(*name), canvas)?;
    }
    push_turns(history.columns.as_slice(), sheet, canvas)
}

/// A sign in the lane of its client for each column.
fn push_turns(columns: &[Column], sheet: &Sheet, canvas: &mut Canvas) -> Drawn {
    for (place, column) in columns.iter().enumerate() {
        if let Some(client) = column.client {
            push_turn(sheet, place.saturating_add(1), client, canvas)?;
        }
    }
    Ok(())
}

fn push_turn(sheet: &Sheet, column: usize, client: usize, canvas: &mut Canvas) -> Drawn {
    let left = sheet.left(column).saturating_add(GAP);
    let width = sheet.right(column).saturating_sub(left).saturating_sub(GAP);
    let middle = sheet.height_of(Lane::Client(client));
    let at = Spot {
        x: left,
        y: middle.saturating_sub(HALF_CLIENT),
    };
    canvas.area(Fill::Client, &at, width, HALF_CLIENT * 2)
}

pub(crate) fn push_timelines(history: &History, sheet: &Sheet, canvas: &mut Canvas) -> Drawn {
    for (place, lane) in history.lanes.timelines.iter().enumerate() {
        let here = Lane::Timeline(place);
        push_name(sheet, here, &Label::Name(lane.name), canvas)?;
        push_axis(sheet, sheet.height_of(here), lane, canvas)?;
        push_values(sheet, sheet.top(here), lane, canvas)?;
    }
    Ok(())
}

/// The axis at which links begin.
fn push_axis(sheet: &Sheet, y: u64, lane: &TimelineLane, canvas: &mut Canvas) -> Drawn {
    match lane.steps.first() {
        Some(first) => push_level(
            Stroke::Lane,
            sheet.middle(first.column),
            sheet.end,
            y,
            canvas,
        ),
        None => Ok(()),
    }
}

/// The steps of a timeline's value, and its numbers.
fn push_values(sheet: &Sheet, top: u64, lane: &TimelineLane, canvas: &mut Canvas) -> Drawn {
    let greatest = lane.steps.last().map_or(0, |step| step.value);
    let mut last: Option<Spot> = None;
    for step in &lane.steps {
        let next = Spot {
            x: sheet.middle(step.column),
            y: top
                .saturating_add(FLOOR)
                .saturating_sub(rise(step.value, greatest)),
        };
        if let Some(before) = last {
            push_step(&before, &next, canvas)?;
        }
        push_value(sheet, top, step, canvas)?;
        last = Some(next);
    }
    match last {
        Some(last) => push_end(sheet, lane, &last, canvas),
        None => Ok(()),
    }
}

/// The height of a value, in proportion to the greatest.
fn rise(value: u64, greatest: u64) -> u64 {
    let scaled = u128::from(value) * u128::from(RISE) / u128::from(greatest.max(1));
    u64::try_from(scaled).unwrap_or(RISE)
}

fn push_step(before: &Spot, next: &Spot, canvas: &mut Canvas) -> Drawn {
    push_level(Stroke::Value, before.x, next.x, before.y, canvas)?;
    let corner = Spot {
        x: next.x,
        y: before.y,
    };
    canvas.line(Stroke::Value, &corner, next)
}

fn push_value(sheet: &Sheet, top: u64, step: &ValueStep, canvas: &mut Canvas) -> Drawn {
    let x = sheet.text_middle(step.column);
    let y = top.saturating_add(VALUES);
    canvas.text(Face::Number, x, y, &Label::Number(step.value))
}

/// The line from its last value on.
fn push_end(sheet: &Sheet, lane: &TimelineLane, last: &Spot, canvas: &mut Canvas) -> Drawn {
    let Some(closed) = lane.closed else {
        return push_level(Stroke::Value, last.x, sheet.end, last.y, canvas);
    };
    let x = sheet.middle(closed);
    push_level(Stroke::Value, last.x, x, last.y, canvas)?;
    push_level(Stroke::Closed, x, sheet.end, last.y, canvas)?;
    canvas.mark(Mark::Shut, x, last.y)
}

pub(crate) fn push_bars(history: &History, sheet: &Sheet, canvas: &mut Canvas) -> Drawn {
    push_lanes(history.bars.as_slice(), sheet, canvas)?;
    push_waits(history.waits.as_slice(), sheet, canvas)
}

fn push_lanes(bars: &[Bar], sheet: &Sheet, canvas: &mut Canvas) -> Drawn {
    for (place, bar) in bars.iter().enumerate() {
        push_lane(sheet, place, bar, canvas)?;
    }
    Ok(())
}

/// The name of a file, and its bar.
fn push_lane(sheet: &Sheet, place: usize, bar: &Bar, canvas: &mut Canvas) -> Drawn {
    push_name(sheet, Lane::Bar(place), &Label::Name(bar.name), canvas)?;
    push_bar(sheet, sheet.height_of_bar(place), bar, canvas)
}

fn push_bar(sheet: &Sheet, middle: u64, bar: &Bar, canvas: &mut Canvas) -> Drawn {
    let left = sheet.middle(bar.made);
    let right = end_of(sheet, bar.closed);
    let y = middle.saturating_sub(HALF_BAR);
    push_parts(sheet, bar, left, right, y, canvas)?;
    let width = right.saturating_sub(left);
    canvas.edge(&Spot { x: left, y }, width, HALF_BAR * 2, bar.goes_on())?;
    push_bar_end(bar, right, middle, canvas)
}

/// The right end of a bar.
fn end_of(sheet: &Sheet, closed: Option<usize>) -> u64 {
    match closed {
        Some(column) => sheet.middle(column),
        None => sheet.end,
    }
}

/// A bar's parts: pending, and, from the column where it is settled, with the fill of its status.
fn push_parts(
    sheet: &Sheet,
    bar: &Bar,
    left: u64,
    right: u64,
    y: u64,
    canvas: &mut Canvas,
) -> Drawn {
    let Some(settled) = bar.settled else {
        return push_part(unsettled_fill(bar), left, right, y, canvas);
    };
    let turn = sheet.middle(settled.column).max(left).min(right);
    push_part(Fill::Pending, left, turn, y, canvas)?;
    push_part(fill_of(settled.status), turn, right, y, canvas)
}

/// The fill of a file that was never signalled.
fn unsettled_fill(bar: &Bar) -> Fill {
    if bar.goes_on() {
        Fill::Hanging
    } else {
        Fill::Pending
    }
}

fn push_part(fill: Fill, left: u64, right: u64, y: u64, canvas: &mut Canvas) -> Drawn {
    if left >= right {
        return Ok(());
    }
    let width = right.saturating_sub(left);
    canvas.area(fill, &Spot { x: left, y }, width, HALF_BAR * 2)
}

fn fill_of(status: Status) -> Fill {
    match status {
        Status::Active => Fill::Pending,
        Status::Signalled => Fill::Signalled,
        Status::Cancelled => Fill::Cancelled,
    }
}

fn push_bar_end(bar: &Bar, right: u64, middle: u64, canvas: &mut Canvas) -> Drawn {
    if bar.goes_on() {
        return canvas.mark(Mark::GoesOn, right, middle);
    }
    if bar.closed.is_some() {
        return canvas.mark(Mark::Closed, right, middle);
    }
    Ok(())
}

/// What bars wait for, one line of text each, right of the columns.
fn push_waits(waits: &[BarWait], sheet: &Sheet, canvas: &mut Canvas) -> Drawn {
    let x = sheet.end.saturating_add(PAD * 2);
    let mut bar = usize::MAX;
    let mut y: u64 = 0;
    for wait in waits {
        y = if wait.bar == bar {
            y.saturating_add(LINE)
        } else {
            sheet.height_of(Lane::Bar(wait.bar)).saturating_add(FOOT)
        };
        bar = wait.bar;
        canvas.text(Face::Name, x, y, &label_of_wait(wait))?;
    }
    Ok(())
}

fn label_of_wait(wait: &BarWait) -> Label {
    match wait.waiting {
        Some(waiting) => Label::Waiting(waiting),
        None => Label::NotSignalled,
    }
}

pub(crate) fn push_buffers(history: &History, sheet: &Sheet, canvas: &mut Canvas) -> Drawn {
    push_buffer_lanes(history.lanes.buffers.as_slice(), sheet, canvas)?;
    push_accesses(history.lanes.marks.as_slice(), sheet, canvas)
}

fn push_buffer_lanes(lanes: &[BufferLane], sheet: &Sheet, canvas: &mut Canvas) -> Drawn {
    for (place, lane) in lanes.iter().enumerate() {
        push_buffer(sheet, Lane::Buffer(place), lane, canvas)?;
    }
    Ok(())
}

fn push_accesses(marks: &[BufferMark], sheet: &Sheet, canvas: &mut Canvas) -> Drawn {
    for mark in marks {
        push_access(sheet, mark, canvas)?;
    }
    Ok(())
}

fn push_buffer(sheet: &Sheet, here: Lane, lane: &BufferLane, canvas: &mut Canvas) -> Drawn {
    push_name(sheet, here, &Label::Name(lane.name), canvas)?;
    let left = sheet.middle(lane.made);
    let y = sheet.height_of(here);
    push_level(Stroke::Lane, left, sheet.end, y, canvas)
}

fn push_access(sheet: &Sheet, access: &BufferMark, canvas: &mut Canvas) -> Drawn {
    let x = sheet.middle(access.column);
    let y = sheet.height_of(Lane::Buffer(access.buffer));
    canvas.mark(mark_of(access.access), x, y)?;
    let letter = Label::Access(access.access);
    canvas.text(Face::Letter, x, y.saturating_add(FOOT), &letter)
}

fn mark_of(access: Access) -> Mark {
    match access {
        Access::Add(_) => Mark::Add,
        Access::Import(_) => Mark::Import,
        Access::Export(_) => Mark::Export,
        Access::Trim => Mark::Trim,
    }
}

pub(crate) fn push_watches(lanes: &[WatchLane], sheet: &Sheet, canvas: &mut Canvas) -> Drawn {
    for (place, lane) in lanes.iter().enumerate() {
        push_watch(sheet, place, lane, canvas)?;
    }
    Ok(())
}

fn push_watch(sheet: &Sheet, place: usize, lane: &WatchLane, canvas: &mut Canvas) -> Drawn {
    let here = Lane::Watch(place);
    push_name(sheet, here, &Label::Watch(lane.cookie), canvas)?;
    let left = sheet.middle(lane.made);
    let y = sheet.height_of(here);
    push_level(
        Stroke::Watch,
        left,
        end_of_watch(sheet, lane.end),
        y,
        canvas,
    )?;
    push_registered(lane.made, left, y, canvas)?;
    push_watch_end(sheet, lane.end, y, canvas)
}

/// The right end of a watch's line.
fn end_of_watch(sheet: &Sheet, end: WatchEnd) -> u64 {
    match end {
        WatchEnd::Pending => sheet.end,
        WatchEnd::Fired(column) | WatchEnd::Removed(column) => sheet.middle(column),
    }
}

/// The mark of a registration; none for a watch that was there before the first column.
fn push_registered(made: usize, x: u64, y: u64, canvas: &mut Canvas) -> Drawn {
    if made == 0 {
        return Ok(());
    }
    canvas.mark(Mark::Registered, x, y)
}

/// The mark of a watch's end.
fn push_watch_end(sheet: &Sheet, end: WatchEnd, y: u64, canvas: &mut Canvas) -> Drawn {
    match end {
        WatchEnd::Pending => canvas.mark(Mark::GoesOn, sheet.end, y),
        WatchEnd::Fired(column) => canvas.mark(Mark::Fired, sheet.middle(column), y),
        WatchEnd::Removed(column) => canvas.mark(Mark::Removed, sheet.middle(column), y),
    }
}

pub(crate) fn push_tasks(history: &History, sheet: &Sheet, canvas: &mut Canvas) -> Drawn {
    for (place, _) in history.lanes.tasks.iter().enumerate() {
        push_name(sheet, Lane::Task(place), &Label::Task(place), canvas)?;
    }
    for wait in &history.lanes.task_waits {
        push_wait(sheet, wait, history.bars.get(wait.bar), canvas)?;
    }
    Ok(())
}

/// A wait, from its beginning to its end.
fn push_wait(sheet: &Sheet, wait: &TaskWait, bar: Option<&Bar>, canvas: &mut Canvas) -> Drawn {
    let y = sheet.height_of(Lane::Task(wait.task));
    let left = sheet.middle(wait.column);
    let end = wait.end_with(bar);
    push_level(Stroke::Wait, left, end_of(sheet, end), y, canvas)?;
    push_begin_of_wait(wait, left, y, canvas)?;
    match end {
        Some(column) => canvas.mark(Mark::Woken, sheet.middle(column), y),
        None => canvas.mark(Mark::GoesOn, sheet.end, y),
    }
}

/// The mark of a wait's beginning; none for a wait that was there before the first column.
fn push_begin_of_wait(wait: &TaskWait, x: u64, y: u64, canvas: &mut Canvas) -> Drawn {
    if wait.column == 0 {
        return Ok(());
    }
    canvas.mark(Mark::Waits, x, y)
}
