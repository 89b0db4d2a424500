//! `Sheet`: the layout of a picture: the edges of its columns and the tops of its lanes, in pixels. Columns don't
//! overlap, and neither do lanes.

ghost use Rattle.std.specs.Prelude.{◌≡◌, IfErr};
ghost use Rattle.point_core.specs.declared.refusal.Refusal.TheVariants.{Memory};

use crate::history::{BarWait, Column, ColumnHead, History, Lane, ValueStep, WatchLane};
use crate::measure::{digits, name_length, text_width, time_length, waiting_length};
use crate::operands::{operand_count, operand_length};
use crate::word::NOT_SIGNALLED;
use point_core::Refusal;
use std::alloc::{AllocError, Global};

/// The height of the columns' numbers and words.
const HEAD: u64 = 50;
/// The most pixels of a picture that has all words of its lines.
const ROOMY: u64 = 1_600;
/// The height of a heading over lanes.
pub(crate) const HEADING: u64 = 24;
/// The heights of lanes.
const TIMELINE: u64 = 50;

const BAR: u64 = 24;

const BUFFER: u64 = 30;

const WATCH: u64 = 24;

const CLIENT: u64 = 22;

const TASK: u64 = 24;
/// The axis of a timeline in its lane.
pub(crate) const AXIS: u64 = 44;
/// The height of a line of text.
pub(crate) const LINE: u64 = 16;
/// The gap left of a text.
pub(crate) const PAD: u64 = 10;
/// The least width of a column, and the gap beside its text.
const NARROW: u64 = 30;

const BESIDE: u64 = 14;
/// The pause that makes no gap before a column, in microseconds, and the gap for ten times that, for a hundred times twice that gap, and
/// so on.
const PAUSE: u64 = 1_000;

const GAP: u64 = 30;
/// The length of the heading `sync files`, and of `waiting tasks`.
const HEADING_LENGTH: u64 = 10;

const TASKS_LENGTH: u64 = 13;
/// The gap between two kinds of lanes.
const APART: u64 = 10;

/// The layout of columns and lanes, in pixels.
#[derive(Drop)]
pub(crate) struct Sheet {
    /// The left edge of each column, from column 0 on, and the right edge of the last.
    edges: Vec<u64>,
    /// The gap at the left of each column, which shows that time passed before it.
    gaps: Vec<u64>,
    /// The right edge of the last column.
    pub(crate) end: u64,
    /// The width of the lanes and the texts beside them.
    pub(crate) width: u64,
    /// How many words of a line are shown below the first.
    pub(crate) operands: usize,
    pub(crate) clients: u64,
    pub(crate) timelines: u64,
    /// The top of each bar's lane, and the bottom of the last.
    bars: Vec<u64>,
    pub(crate) buffers: u64,
    pub(crate) watches: u64,
    pub(crate) tasks: u64,
    pub(crate) bottom: u64,
}

impl Sheet {
    /// The sheet with all words of each line, if there is room for them, or else with the first.
    pub(crate) fn of(alloc: Global, history: &History) -> Result<Sheet, AllocError> {
        let operands = operands_of(history.columns.as_slice());
        let sheet = Sheet::with(alloc, history, operands)?;
        if sheet.width <= ROOMY {
            return Ok(sheet);
        }
        Sheet::with(alloc, history, 0)
    }

    /// The sheet with up to `operands` words below the first.
    fn with(alloc: Global, history: &History, operands: usize) -> Result<Sheet, AllocError> {
        let (edges, end) = edges_of(alloc, history, operands)?;
        let gaps = gaps_of(alloc, history.columns.as_slice())?;
        let head = below(HEAD, operands, LINE);
        let (clients, next) = lanes(head, history.clients.len(), CLIENT);
        let (timelines, next) = lanes(next, history.lanes.timelines.len(), TIMELINE);
        let (bars, next) = bars_of(alloc, history, next)?;
        let (buffers, next) = lanes(next, history.lanes.buffers.len(), BUFFER);
        let (watches, next) = lanes(next, history.lanes.watches.len(), WATCH);
        let (tasks, bottom) = lanes(next, history.lanes.tasks.len(), TASK);
        Ok(Sheet {
            edges,
            gaps,
            end,
            width: end.saturating_add(beside(history)),
            operands,
            clients,
            timelines,
            bars,
            buffers,
            watches,
            tasks,
            bottom,
        })
    }

    /// The left edge of a column.
    pub(crate) fn left(&self, column: usize) -> u64 {
        self.edges.get(column).copied().unwrap_or(self.end)
    }

    /// The right edge of a column.
    pub(crate) fn right(&self, column: usize) -> u64 {
        self.left(column.saturating_add(1))
    }

    /// The middle of a column. Column 0, before the first, begins at the left edge.
    pub(crate) fn middle(&self, column: usize) -> u64 {
        if column == 0 {
            return self.left(0);
        }
        self.text_middle(column)
    }

    /// The middle of the texts in a column, right of its gap; column 0 has room for the state before the first line.
    pub(crate) fn text_middle(&self, column: usize) -> u64 {
        let gap = self.gaps.get(column).copied().unwrap_or(0);
        let left = self.left(column).saturating_add(gap);
        left.saturating_add(self.right(column).saturating_sub(left) / 2)
    }

    /// The top of a lane.
    pub(crate) fn top(&self, lane: Lane) -> u64 {
        match lane {
            Lane::Client(place) => below(self.clients, place, CLIENT),
            Lane::Timeline(place) => below(self.timelines, place, TIMELINE),
            Lane::Bar(place) => self.top_of_bar(place),
            Lane::Buffer(place) => below(self.buffers, place, BUFFER),
            Lane::Watch(place) => below(self.watches, place, WATCH),
            Lane::Task(place) => below(self.tasks, place, TASK),
        }
    }

    /// The height of a lane.
    pub(crate) fn lane_height(&self, lane: Lane) -> u64 {
        match lane {
            Lane::Client(_) => CLIENT,
            Lane::Timeline(_) => TIMELINE,
            Lane::Bar(place) => {
                let next = self.top_of_bar(place.saturating_add(1));
                next.saturating_sub(self.top_of_bar(place))
            }
            Lane::Buffer(_) => BUFFER,
            Lane::Watch(_) => WATCH,
            Lane::Task(_) => TASK,
        }
    }

    /// The vertical middle of a lane's name.
    pub(crate) fn middle_of(&self, lane: Lane) -> u64 {
        match lane {
            Lane::Timeline(_) => self.top(lane).saturating_add(TIMELINE / 2 + 5),
            _ => self.height_of(lane),
        }
    }

    /// The y at which links meet a lane.
    pub(crate) fn height_of(&self, lane: Lane) -> u64 {
        match lane {
            Lane::Client(_) => self.top(lane).saturating_add(CLIENT / 2),
            Lane::Timeline(_) => self.top(lane).saturating_add(AXIS),
            Lane::Bar(place) => self.height_of_bar(place),
            Lane::Buffer(_) => self.top(lane).saturating_add(BUFFER / 2),
            Lane::Watch(_) => self.top(lane).saturating_add(WATCH / 2),
            Lane::Task(_) => self.top(lane).saturating_add(TASK / 2),
        }
    }

    /// The y of the middle of a bar.
    pub(crate) fn height_of_bar(&self, place: usize) -> u64 {
        self.top_of_bar(place).saturating_add(BAR / 2)
    }

    fn top_of_bar(&self, place: usize) -> u64 {
        self.bars.get(place).copied().unwrap_or(self.bottom)
    }
}

fn below(top: u64, place: usize, height: u64) -> u64 {
    top.saturating_add((place as u64).saturating_mul(height))
}

/// The top of the first of `count` lanes, and the bottom of the last.
fn lanes(top: u64, count: usize, height: u64) -> (u64, u64) {
    if count == 0 {
        return (top, top);
    }
    let first = top.saturating_add(HEADING);
    (first, below(first, count, height).saturating_add(APART))
}

/// The lane of each bar, as high as the texts of its waits, and the bottom of the last.
fn bars_of(alloc: Global, history: &History, top: u64) -> Result<(Vec<u64>, u64), AllocError> {
    let heights = heights_of(alloc, history)?;
    if heights.is_empty() {
        return Ok((Vec::new(alloc), top));
    }
    let (tops, end) = places_of(alloc, top.saturating_add(HEADING), heights.as_slice())?;
    Ok((tops, end.saturating_add(APART)))
}

/// The height of each bar's lane.
fn heights_of(alloc: Global, history: &History) -> Result<Vec<u64>, AllocError> {
    let mut heights = vec![in alloc; BAR.saturating_sub(LINE); history.bars.len()]?;
    add_lines(heights.as_mut_slice(), history.waits.as_slice());
    raise_all(heights.as_mut_slice());
    Ok(heights)
}

/// Adds a line of text for each point for which a bar waits.
fn add_lines(heights: &mut [u64], waits: &[BarWait]) {
    for wait in waits {
        if let Some(height) = heights.get_mut(wait.bar) {
            *height = height.saturating_add(LINE);
        }
    }
}

fn raise_all(heights: &mut [u64]) {
    for height in heights.iter_mut() {
        *height = (*height).max(BAR);
    }
}

/// The left edge of each column, then the right edge of the last, which is also returned by itself.
fn edges_of(
    alloc: Global,
    history: &History,
    operands: usize,
) -> Result<(Vec<u64>, u64), AllocError> {
    let widths = widths_of(alloc, history, operands)?;
    places_of(alloc, names_width(history), widths.as_slice())
}

/// The width of each column, from column 0 on.
fn widths_of(alloc: Global, history: &History, operands: usize) -> Result<Vec<u64>, AllocError> {
    let mut widths = word_widths(alloc, history.columns.as_slice(), operands)?;
    for lane in &history.lanes.timelines {
        widen(widths.as_mut_slice(), lane.steps.as_slice());
    }
    let gaps = gaps_of(alloc, history.columns.as_slice())?;
    add_gaps(widths.as_mut_slice(), gaps.as_slice());
    Ok(widths)
}

fn add_gaps(widths: &mut [u64], gaps: &[u64]) {
    for (width, gap) in widths.iter_mut().zip(gaps) {
        *width = width.saturating_add(*gap);
    }
}

/// The gap before each column, from column 0 on, by the time since the column before.
fn gaps_of(alloc: Global, columns: &[Column]) -> Result<Vec<u64>, AllocError> {
    let mut gaps = Vec::with_capacity(alloc, columns.len().saturating_add(1))?;
    gaps.push(0)?;
    let mut before = None;
    for column in columns {
        let time = time_of(column);
        gaps.push(gap_between(before, time))?;
        before = time.or(before);
    }
    Ok(gaps)
}

fn time_of(column: &Column) -> Option<u64> {
    match column.head {
        ColumnHead::Time(time) => Some(time),
        ColumnHead::Line | ColumnHead::Blank => None,
    }
}

fn gap_between(before: Option<u64>, time: Option<u64>) -> u64 {
    match (before, time) {
        (Some(before), Some(time)) => {
            let pauses = time.saturating_sub(before) / PAUSE;
            digits(pauses).saturating_sub(1).saturating_mul(GAP)
        }
        _ => 0,
    }
}

fn word_widths(alloc: Global, columns: &[Column], operands: usize) -> Result<Vec<u64>, AllocError> {
    let mut widths = Vec::with_capacity(alloc, columns.len().saturating_add(1))?;
    widths.push(PAD)?;
    for column in columns {
        widths.push(width_of(column, operands))?;
    }
    Ok(widths)
}

/// Where parts of these lengths begin, one after another from `first`, and then the end of the last, which is also returned
/// by itself.
///
/// Fails if memory is refused, and if a place is too great a number.
fn places_of(alloc: Global, first: u64, lengths: &[u64]) -> Result<(Vec<u64>, u64), AllocError> {
    let mut places = Vec::new(alloc);
    let mut next = first;
    for length in lengths {
        places.push(next)?;
        next = next.checked_add(*length).ok_or(AllocError)?;
    }
    places.push(next)?;
    Ok((places, next))
}

/// The width of a column that fits its number and words.
fn width_of(column: &Column, operands: usize) -> u64 {
    let mut length = head_length(column).max(column.word.len() as u64);
    for place in 0..operands {
        length = length.max(operand_length(column, place));
    }
    NARROW.max(text_width(length).saturating_add(BESIDE))
}

fn head_length(column: &Column) -> u64 {
    match column.head {
        ColumnHead::Line => digits(u64::from(column.line)),
        ColumnHead::Time(time) => time_length(time),
        ColumnHead::Blank => 0,
    }
}

/// The most words that a line has behind its first.
fn operands_of(columns: &[Column]) -> usize {
    let mut most = 0;
    for column in columns {
        most = operand_count(column).max(most);
    }
    most
}

/// Widens the columns until the values of a timeline fit.
fn widen(widths: &mut [u64], steps: &[ValueStep]) {
    for step in steps {
        let width = text_width(digits(step.value)).saturating_add(BESIDE);
        widen_one(widths, step.column, width);
    }
}

/// Widens a column to at least this width.
fn widen_one(widths: &mut [u64], column: usize, width: u64) {
    if let Some(narrow) = widths.get_mut(column) {
        *narrow = (*narrow).max(width);
    }
}

/// The width of the names of lanes.
fn names_width(history: &History) -> u64 {
    let mut length = HEADING_LENGTH;
    for lane in &history.lanes.timelines {
        length = name_length(&lane.name).max(length);
    }
    for bar in &history.bars {
        length = name_length(&bar.name).max(length);
    }
    for lane in &history.lanes.buffers {
        length = name_length(&lane.name).max(length);
    }
    for lane in &history.lanes.watches {
        length = watch_length(lane).max(length);
    }
    length = actors_length(history).max(length);
    text_width(length).saturating_add(PAD * 2)
}

/// The greatest length of a client's or a task's name.
fn actors_length(history: &History) -> u64 {
    let mut length = 0;
    for client in &history.clients {
        length = name_length(client).max(length);
    }
    for lane in &history.lanes.tasks {
        length = (lane.name.len() as u64).max(length).max(TASKS_LENGTH);
    }
    length
}

fn watch_length(lane: &WatchLane) -> u64 {
    digits(lane.cookie).saturating_add(6)
}

fn wait_length(wait: &BarWait) -> u64 {
    match &wait.waiting {
        Some(waiting) => waiting_length(waiting),
        None => NOT_SIGNALLED.len() as u64,
    }
}

/// The width of the texts of waits, right of the columns.
fn beside(history: &History) -> u64 {
    let mut length = 0;
    for wait in &history.waits {
        length = wait_length(wait).max(length);
    }
    text_width(length).saturating_add(PAD * 3)
}

/// How many of the first columns a picture of at most that width has to leave out.
///
/// Fails only with `Memory`.
pub fn columns_past(alloc: Global, history: &History, width: u64) -> Result<usize, Refusal>
    ensures memory { IfErr result (λ e. e ≡ Memory) }
{
    let widths = widths_of(alloc, history, 0)?;
    let fixed = names_width(history)
        .saturating_add(beside(history))
        .saturating_add(values_width(history))
        .saturating_add(time_width(history));
    Ok(first_past(widths.as_slice(), width.saturating_sub(fixed)))
}

/// The most that the values before the first column can take.
fn values_width(history: &History) -> u64 {
    let mut value = 0;
    for lane in &history.lanes.timelines {
        value = lane.steps.last().map_or(0, |step| step.value).max(value);
    }
    text_width(digits(value)).saturating_add(BESIDE)
}

/// The most that a time takes which the first column shows once the one before it is left out.
fn time_width(history: &History) -> u64 {
    let mut length = 0;
    for column in &history.columns {
        length = time_of(column).map_or(0, time_length).max(length);
    }
    text_width(length)
}

/// How many of the first columns have to go so that the others fit in that room. `widths` begins with column 0.
fn first_past(widths: &[u64], room: u64) -> usize {
    let mut before = sum_of(widths);
    let mut count = 0;
    for (place, width) in widths.iter().enumerate() {
        if before <= room {
            break;
        }
        before = before.saturating_sub(*width);
        count = place;
    }
    count
}

fn sum_of(widths: &[u64]) -> u64 {
    let mut sum: u64 = 0;
    for width in widths {
        sum = sum.saturating_add(*width);
    }
    sum
}
