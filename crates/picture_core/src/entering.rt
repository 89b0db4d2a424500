//! Enters an accepted command into the history: the bars, steps, marks, links and watches that it adds or changes.
ghost use Rattle.std.specs.Prelude.{◌≡◌};

use crate::bar::{Bar, open_place};
use crate::history::{
    Access, BufferLane, BufferMark, History, Lane, Lanes, Link, TimelineLane, ValueStep, WatchEnd,
    WatchLane,
};
use command_core::{Answer, Command};
use point_core::{Name, Point};
use std::alloc::{AllocError, Global};

impl History {
    /// Enters an accepted command in its column, which is 0 if it is not drawn. For a watch, `points` are its file's.
    pub fn enter(
        &mut self,
        alloc: Global,
        column: usize,
        command: &Command,
        answer: &Answer,
        points: &[Point],
    ) -> Result<(), AllocError>
        ensures refused { self.new.refused ≡ self.old.refused }
    {
        enter_file(&mut self.bars, column, command)?;
        self.lanes.enter(alloc, column, command, answer, points)?;
        if column == 0 {
            return Ok(());
        }
        self.lanes.link_all(column, command, self.bars.as_slice())
    }
}

/// The bars after a command, which makes a file, closes one, or neither.
fn enter_file(bars: &mut Vec<Bar>, column: usize, command: &Command) -> Result<(), AllocError> {
    match command {
        Command::Fence(name, _, _) => push_bar(bars, column, name),
        Command::Merge(name, _, _) => push_bar(bars, column, name),
        Command::Export(name, _, _) => push_bar(bars, column, name),
        Command::Close(name) => {
            close_bar(bars, column, name);
            Ok(())
        }
        _ => Ok(()),
    }
}

fn push_bar(bars: &mut Vec<Bar>, column: usize, name: &Name) -> Result<(), AllocError> {
    bars.push(Bar::of(name, column))?;
    Ok(())
}

/// A file that was closed before the first column is not drawn.
fn close_bar(bars: &mut Vec<Bar>, column: usize, name: &Name) {
    if column == 0 {
        bars.retain(|bar| !bar.is_open_of(name));
        return;
    }
    for bar in bars.iter_mut() {
        if bar.is_open_of(name) {
            bar.closed = Some(column);
        }
    }
}

impl Lanes {
    fn enter(
        &mut self,
        alloc: Global,
        column: usize,
        command: &Command,
        answer: &Answer,
        points: &[Point],
    ) -> Result<(), AllocError> {
        match command {
            Command::Timeline(name) => push_timeline(&mut self.timelines, alloc, column, name),
            Command::Inc(name, _) => self.raise(column, name, answer),
            Command::Shut(name) => self.shut(column, name, answer),
            Command::Buffer(name) => push_buffer(&mut self.buffers, column, name),
            Command::Add(name, _, _, usage) => self.access(column, name, Access::Add(*usage)),
            Command::Import(name, _, flags) => self.access(column, name, Access::Import(*flags)),
            Command::Export(_, name, flags) => self.access(column, name, Access::Export(*flags)),
            Command::Trim(name) => self.access(column, name, Access::Trim),
            Command::Watch(_, cookie) => {
                push_watch(&mut self.watches, alloc, column, *cookie, points)
            }
            Command::Unwatch(cookie) => {
                end_watch(
                    &mut self.watches,
                    column,
                    *cookie,
                    WatchEnd::Removed(column),
                );
                Ok(())
            }
            _ => Ok(()),
        }
    }

    /// The new value of a timeline, and the watches that fired.
    fn raise(&mut self, column: usize, name: &Name, answer: &Answer) -> Result<(), AllocError> {
        let Answer::Raised(value, fired) = answer else {
            return Ok(());
        };
        end_watches(&mut self.watches, fired.as_slice(), column);
        let step = ValueStep {
            column,
            value: *value,
        };
        push_step(self.timelines.as_mut_slice(), name, &step)
    }

    fn shut(&mut self, column: usize, name: &Name, answer: &Answer) -> Result<(), AllocError> {
        self.raise(column, name, answer)?;
        close_timeline(self.timelines.as_mut_slice(), column, name);
        Ok(())
    }

    fn access(&mut self, column: usize, name: &Name, access: Access) -> Result<(), AllocError> {
        if column == 0 {
            return Ok(());
        }
        let Some(buffer) = self.buffer_place(name) else {
            return Ok(());
        };
        self.marks.push(BufferMark {
            buffer,
            column,
            access,
        })?;
        Ok(())
    }

    /// A link from each lane that the command reads to the lane that it makes or changes.
    fn link_all(
        &mut self,
        column: usize,
        command: &Command,
        bars: &[Bar],
    ) -> Result<(), AllocError> {
        match command {
            Command::Fence(name, timeline, _) => {
                self.link(column, self.timeline_lane(timeline), bar_lane(bars, name))
            }
            Command::Merge(name, first, second) => {
                self.link(column, bar_lane(bars, first), bar_lane(bars, name))?;
                self.link(column, bar_lane(bars, second), bar_lane(bars, name))
            }
            Command::Export(name, buffer, _) => {
                self.link(column, self.buffer_lane(buffer), bar_lane(bars, name))
            }
            Command::Add(name, timeline, _, _) => {
                self.link(column, self.timeline_lane(timeline), self.buffer_lane(name))
            }
            Command::Import(name, file, _) => {
                self.link(column, bar_lane(bars, file), self.buffer_lane(name))
            }
            Command::Watch(name, _) => {
                self.link(column, bar_lane(bars, name), self.last_watch())
            }
            _ => Ok(()),
        }
    }

    fn link(
        &mut self,
        column: usize,
        from: Option<Lane>,
        to: Option<Lane>,
    ) -> Result<(), AllocError> {
        let Some(from) = from else {
            return Ok(());
        };
        let Some(to) = to else {
            return Ok(());
        };
        self.links.push(Link { column, from, to })?;
        Ok(())
    }

    fn timeline_lane(&self, name: &Name) -> Option<Lane> {
        for (place, lane) in self.timelines.iter().enumerate() {
            if lane.name == *name {
                return Some(Lane::Timeline(place));
            }
        }
        None
    }

    fn buffer_place(&self, name: &Name) -> Option<usize> {
        for (place, lane) in self.buffers.iter().enumerate() {
            if lane.name == *name {
                return Some(place);
            }
        }
        None
    }

    fn buffer_lane(&self, name: &Name) -> Option<Lane> {
        Some(Lane::Buffer(self.buffer_place(name)?))
    }

    fn last_watch(&self) -> Option<Lane> {
        Some(Lane::Watch(self.watches.len().checked_sub(1)?))
    }
}

fn bar_lane(bars: &[Bar], name: &Name) -> Option<Lane> {
    Some(Lane::Bar(open_place(bars, name)?))
}

fn push_timeline(
    timelines: &mut Vec<TimelineLane>,
    alloc: Global,
    column: usize,
    name: &Name,
) -> Result<(), AllocError> {
    let mut steps = Vec::new(alloc);
    steps.push(ValueStep { column, value: 0 })?;
    timelines.push(TimelineLane {
        name: *name,
        steps,
        closed: None,
    })?;
    Ok(())
}

fn push_step(lanes: &mut [TimelineLane], name: &Name, step: &ValueStep) -> Result<(), AllocError> {
    for lane in lanes.iter_mut() {
        if lane.name == *name {
            add_step(&mut lane.steps, step)?;
        }
    }
    Ok(())
}

/// Adds a step. Before the first column only the last value counts.
fn add_step(steps: &mut Vec<ValueStep>, step: &ValueStep) -> Result<(), AllocError> {
    if step.column == 0 {
        steps.clear();
    }
    steps.push(*step)?;
    Ok(())
}

fn close_timeline(lanes: &mut [TimelineLane], column: usize, name: &Name) {
    for lane in lanes.iter_mut() {
        if lane.name == *name {
            lane.closed = Some(column);
        }
    }
}

fn push_buffer(
    buffers: &mut Vec<BufferLane>,
    column: usize,
    name: &Name,
) -> Result<(), AllocError> {
    buffers.push(BufferLane {
        name: *name,
        made: column,
    })?;
    Ok(())
}

fn push_watch(
    watches: &mut Vec<WatchLane>,
    alloc: Global,
    column: usize,
    cookie: u64,
    points: &[Point],
) -> Result<(), AllocError> {
    let points = Vec::from_slice(alloc, points)?;
    watches.push(WatchLane {
        cookie,
        made: column,
        end: WatchEnd::Pending,
        points,
    })?;
    Ok(())
}

/// Ends the watches that fired in this column.
fn end_watches(watches: &mut Vec<WatchLane>, cookies: &[u64], column: usize) {
    for cookie in cookies {
        end_watch(watches, column, *cookie, WatchEnd::Fired(column));
    }
}

/// A watch that ended before the first column is not drawn.
fn end_watch(watches: &mut Vec<WatchLane>, column: usize, cookie: u64, end: WatchEnd) {
    if column == 0 {
        watches.retain(|watch| watch.cookie != cookie);
        return;
    }
    for watch in watches.iter_mut() {
        if watch.cookie == cookie && watch.end.is_pending() {
            watch.end = end;
        }
    }
}
