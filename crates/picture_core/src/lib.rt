//! Pictures and graphs of a script's run: its history by columns and lanes, the shapes of a picture of it, the graph of
//! its waiters, and writers of SVG and DOT.
#![tactic(auto)]

mod bar;
mod dot;
mod entering;
mod graph;
mod history;
mod lanes;
mod legend;
mod links;
mod measure;
mod operands;
mod picture;
mod shapes;
mod sheet;
mod style;
mod svg;
mod word;

pub use bar::{Bar, BarSettled};
pub use dot::dot_text;
pub use graph::{Edge, Graph, Node, Waiter, Waiting};
pub use history::{
    Access, BarWait, BufferLane, BufferMark, Column, ColumnHead, History, Lane, Lanes, Link,
    TaskLane, TaskWait, TimelineLane, ValueStep, WatchEnd, WatchLane,
};
pub use picture::picture_of;
pub use shapes::{
    Caption, ColumnArea, Face, Fill, Heading, Label, Mark, Meaning, Picture, Shape, Spot, Stroke,
};
pub use sheet::columns_past;
pub use svg::svg_text;
