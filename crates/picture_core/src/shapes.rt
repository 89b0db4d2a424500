//! `Shape` and `Caption`: the elements of a picture, in pixels, independent of SVG.

use crate::graph::Waiting;
use crate::history::Access;
use point_core::Name;
use std::alloc::{AllocError, Global};

/// A place, in pixels from the left and from the top.
#[derive(Clone, Copy)]
pub struct Spot {
    pub x: u64,
    pub y: u64,
}

/// The fill of an area.
#[derive(Clone, Copy, PartialEq, Eq)]
pub enum Fill {
    /// Every other lane.
    Stripe,
    /// The column of a refused line.
    Refused,
    /// A client's line.
    Client,
    Pending,
    /// Pending at the end.
    Hanging,
    Signalled,
    Cancelled,
}

/// The style of a line.
#[derive(Clone, Copy)]
pub enum Stroke {
    /// The lane of a buffer.
    Lane,
    /// The value of a timeline.
    Value,
    /// The value of a timeline that is closed.
    Closed,
    Link,
    Watch,
    /// The wait of a task.
    Wait,
}

/// A sign of fixed size.
#[derive(Clone, Copy, PartialEq, Eq)]
pub enum Mark {
    Add,
    Import,
    Export,
    Trim,
    Registered,
    Fired,
    Removed,
    /// A task begins to wait.
    Waits,
    /// Its wait ends.
    Woken,
    Refused,
    /// A timeline is closed.
    Shut,
    /// A file is closed.
    Closed,
    /// Nothing closed it: it continues.
    GoesOn,
    /// Where a link begins.
    From,
    /// Where a link ends, from above.
    Down,
    /// Where a link ends, from below.
    Up,
}

/// The alignment and style of a text.
#[derive(Clone, Copy)]
pub enum Face {
    /// It starts there.
    Name,
    Heading,
    Meaning,
    /// It is centred there.
    Number,
    Word,
    RefusedWord,
    /// A letter or two within a mark.
    Letter,
}

/// The heading over the lanes of a kind.
#[derive(Clone, Copy)]
pub enum Heading {
    Clients,
    Timelines,
    Files,
    Buffers,
    Watches,
    Tasks,
}

/// The meaning of a sample in the legend.
#[derive(Clone, Copy)]
pub enum Meaning {
    Client,
    Pending,
    Hanging,
    Signalled,
    Cancelled,
    Closed,
    Shut,
    Refused,
    Add,
    Letters,
    Import,
    Export,
    Trim,
    Registered,
    Fired,
    Removed,
    Waits,
    Woken,
}

/// What stands for a meaning in a picture.
#[derive(Clone, Copy)]
pub(crate) enum Sample {
    Fill(Fill),
    Mark(Mark),
}

/// A text.
#[derive(Clone, Copy)]
pub enum Label {
    /// The word of the command of a column, by its index in the history.
    Command(usize),
    /// Another word of the line of a column.
    Operand { column: usize, place: usize },
    Heading(Heading),
    Access(Access),
    Meaning(Meaning),
    Name(Name),
    Number(u64),
    /// A time in microseconds, in seconds with three decimals.
    Time(u64),
    /// A watch, by its cookie.
    Watch(u64),
    /// A task that waits, by its index.
    Task(usize),
    /// A point and how far it is to go, as `gpu 5: 3 to go`.
    Waiting(Waiting),
    /// A file isn't signalled.
    NotSignalled,
    /// There is no column.
    NoCommands,
    /// How many commands are left out before the first column.
    LeftOut(usize),
    /// How to see them.
    Choosing,
}

/// A text at its place.
#[derive(Clone, Copy)]
pub struct Caption {
    pub face: Face,
    pub at: Spot,
    pub label: Label,
}

/// The result of drawing, which fails only for memory.
pub(crate) type Drawn = Result<(), AllocError>;

/// A shape. Later shapes cover earlier ones.
#[derive(Clone, Copy)]
pub enum Shape {
    Area {
        fill: Fill,
        at: Spot,
        width: u64,
        height: u64,
    },
    /// The edge of a bar. An open one has no right side.
    Edge {
        at: Spot,
        width: u64,
        height: u64,
        open: bool,
    },
    Line {
        stroke: Stroke,
        from: Spot,
        to: Spot,
    },
    Mark {
        mark: Mark,
        at: Spot,
    },
}

impl Shape {
    fn is(&self, sample: Sample) -> bool {
        match (self, sample) {
            (Shape::Area { fill, .. }, Sample::Fill(wanted)) => *fill == wanted,
            (Shape::Mark { mark, .. }, Sample::Mark(wanted)) => *mark == wanted,
            _ => false,
        }
    }
}

/// Shapes, drawn in order, and texts above them. Each call fails only if memory is refused.
#[derive(Drop)]
pub(crate) struct Canvas {
    pub(crate) shapes: Vec<Shape>,
    pub(crate) texts: Vec<Caption>,
}

impl Canvas {
    pub(crate) fn new(alloc: Global) -> Canvas {
        Canvas {
            shapes: Vec::new(alloc),
            texts: Vec::new(alloc),
        }
    }

    /// Whether a shape is this sample.
    pub(crate) fn has(&self, sample: Sample) -> bool {
        for shape in &self.shapes {
            if shape.is(sample) {
                return true;
            }
        }
        false
    }

    pub(crate) fn area(
        &mut self,
        fill: Fill,
        at: &Spot,
        width: u64,
        height: u64,
    ) -> Result<(), AllocError> {
        self.shapes.push(Shape::Area {
            fill,
            at: *at,
            width,
            height,
        })?;
        Ok(())
    }

    pub(crate) fn edge(
        &mut self,
        at: &Spot,
        width: u64,
        height: u64,
        is_open: bool,
    ) -> Result<(), AllocError> {
        self.shapes.push(Shape::Edge {
            at: *at,
            width,
            height,
            open: is_open,
        })?;
        Ok(())
    }

    pub(crate) fn line(
        &mut self,
        stroke: Stroke,
        from: &Spot,
        to: &Spot,
    ) -> Result<(), AllocError> {
        self.shapes.push(Shape::Line {
            stroke,
            from: *from,
            to: *to,
        })?;
        Ok(())
    }

    pub(crate) fn mark(&mut self, mark: Mark, x: u64, y: u64) -> Result<(), AllocError> {
        self.shapes.push(Shape::Mark {
            mark,
            at: Spot { x, y },
        })?;
        Ok(())
    }

    pub(crate) fn text(
        &mut self,
        face: Face,
        x: u64,
        y: u64,
        label: &Label,
    ) -> Result<(), AllocError> {
        self.texts.push(Caption {
            face,
            at: Spot { x, y },
            label: *label,
        })?;
        Ok(())
    }
}

/// The area of a column, over which its note shows.
#[derive(Clone, Copy)]
pub struct ColumnArea {
    /// The index of the column in the history.
    pub column: usize,
    pub x: u64,
    pub width: u64,
}

/// A picture of a history.
#[derive(Drop)]
pub struct Picture {
    pub width: u64,
    pub height: u64,
    pub shapes: Vec<Shape>,
    /// They are drawn above the shapes.
    pub texts: Vec<Caption>,
    pub columns: Vec<ColumnArea>,
}
