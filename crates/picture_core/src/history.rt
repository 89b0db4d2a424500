//! `History`: the columns and lanes of a run, as `draw_core` records them. The picture shows exactly this.
ghost use Rattle.std.specs.Prelude.{◌≡◌, false};

use crate::bar::Bar;
use crate::graph::Waiting;
use point_core::{Name, Point, Usage};
use std::alloc::{AllocError, Global};

/// The number over a column.
#[derive(Clone, Copy)]
pub enum ColumnHead {
    /// The number of its line.
    Line,
    /// When it happened, in microseconds.
    Time(u64),
    /// Nothing: it happened in the millisecond of the column before, or at a time that isn't known.
    Blank,
}

/// A line of the script that has an answer, or a note that says what happened then. Columns are numbered from 1; 0 is before
/// the first.
#[derive(Drop)]
pub struct Column {
    /// The line's number.
    pub line: u32,
    pub head: ColumnHead,
    /// The word of its command, or `?` if it is none.
    pub word: &'static str,
    pub refused: bool,
    /// The client whose line it is, by its index.
    pub client: Option<usize>,
    /// The line, its answer, and the reason if it was refused.
    pub note: Vec<u8>,
}

/// The value of a timeline from a column on.
#[derive(Clone, Copy)]
pub struct ValueStep {
    pub column: usize,
    pub value: u64,
}

/// A timeline, with the values that it had.
#[derive(Drop)]
pub struct TimelineLane {
    pub name: Name,
    pub steps: Vec<ValueStep>,
    /// The column of the command that closed it.
    pub closed: Option<usize>,
}

/// A buffer.
#[derive(Clone, Copy)]
pub struct BufferLane {
    pub name: Name,
    /// The column of the command that made it.
    pub made: usize,
}

/// The action of a command on a buffer.
#[derive(Clone, Copy)]
pub enum Access {
    /// A fence was added with this usage.
    Add(Usage),
    /// The fences of a file were added for an access with these flags.
    Import(u32),
    /// The fences for which an access with these flags waits became a file.
    Export(u32),
    Trim,
}

/// A mark on the lane of a buffer.
#[derive(Clone, Copy)]
pub struct BufferMark {
    pub buffer: usize,
    pub column: usize,
    pub access: Access,
}

/// The end of a watch.
#[derive(Clone, Copy)]
pub enum WatchEnd {
    Pending,
    /// It fired in this column.
    Fired(usize),
    /// It was removed in this column.
    Removed(usize),
}

impl WatchEnd {
    pub(crate) fn is_pending(self) -> bool {
        matches!(self, WatchEnd::Pending)
    }
}

/// A watch.
#[derive(Drop)]
pub struct WatchLane {
    pub cookie: u64,
    /// The column of the command that registered it.
    pub made: usize,
    pub end: WatchEnd,
    /// The points that its file listed then.
    pub points: Vec<Point>,
}

/// A task that waits for files.
#[derive(Drop)]
pub struct TaskLane {
    /// Its name and number, as a note gives them.
    pub name: Vec<u8>,
}

/// The wait of a task for a file, which ends when the file is signalled or closed.
#[derive(Clone, Copy)]
pub struct TaskWait {
    pub task: usize,
    /// The column in which it began.
    pub column: usize,
    pub bar: usize,
    /// The column in which a note ends it.
    pub end: Option<usize>,
}

impl TaskWait {
    /// The column in which it ends: a note says so, or its file is signalled or closed.
    pub(crate) fn end_with(&self, bar: Option<&Bar>) -> Option<usize> {
        if self.end.is_some() {
            return self.end;
        }
        match bar?.settled {
            Some(settled) => Some(settled.column.max(self.column)),
            None => bar?.closed,
        }
    }
}

/// A lane, by its index among the lanes of its kind.
#[derive(Clone, Copy)]
pub enum Lane {
    Client(usize),
    Timeline(usize),
    Bar(usize),
    Buffer(usize),
    Watch(usize),
    Task(usize),
}

/// A link from a lane that a command reads to one that it makes or changes.
#[derive(Clone, Copy)]
pub struct Link {
    pub column: usize,
    pub from: Lane,
    pub to: Lane,
}

/// What the file of a bar waits for at the end.
#[derive(Clone, Copy)]
pub struct BarWait {
    pub bar: usize,
    /// A point; none if its number means nothing, as a note says: then the file is only not signalled.
    pub waiting: Option<Waiting>,
}

/// The timelines, buffers and watches of the drawn commands, and those that were there before them.
#[derive(Drop)]
pub struct Lanes {
    pub timelines: Vec<TimelineLane>,
    pub buffers: Vec<BufferLane>,
    pub marks: Vec<BufferMark>,
    pub watches: Vec<WatchLane>,
    pub tasks: Vec<TaskLane>,
    pub task_waits: Vec<TaskWait>,
    pub links: Vec<Link>,
}

impl Lanes {
    fn new(alloc: Global) -> Lanes {
        Lanes {
            timelines: Vec::new(alloc),
            buffers: Vec::new(alloc),
            marks: Vec::new(alloc),
            watches: Vec::new(alloc),
            tasks: Vec::new(alloc),
            task_waits: Vec::new(alloc),
            links: Vec::new(alloc),
        }
    }
}

/// The drawn commands, and the state before them.
#[derive(Drop)]
pub struct History {
    pub columns: Vec<Column>,
    /// How many commands are left out before the first column.
    pub left_out: usize,
    /// The clients whose lines are drawn, in order of their first lines.
    pub clients: Vec<Name>,
    /// The files that are or were open, in order of making.
    pub bars: Vec<Bar>,
    pub lanes: Lanes,
    /// By bar, what its file waits for at the end.
    pub waits: Vec<BarWait>,
    /// Whether a line was refused, including lines that are not drawn.
    pub refused: bool,
}

impl History {
    /// An empty history.
    pub fn new(alloc: Global) -> History
        ensures refused { result.refused ≡ false }
    {
        History {
            columns: Vec::new(alloc),
            left_out: 0,
            clients: Vec::new(alloc),
            bars: Vec::new(alloc),
            lanes: Lanes::new(alloc),
            waits: Vec::new(alloc),
            refused: false,
        }
    }

    /// Adds a column.
    pub fn add_column(&mut self, column: Column) -> Result<(), AllocError>
        ensures refused { self.new.refused ≡ self.old.refused }
    {
        self.columns.push(column)?;
        Ok(())
    }
}
