//! `Graph`: the waiters at the end of a run, and the points for which they wait. Each point on an edge is a node.

use command_core::FileRow;
use point_core::{Name, TimelineRow, Usage};
use std::alloc::{AllocError, Global};
use std::collections::HashSet;

/// A point that is not reached, and how far its timeline has to go.
#[derive(Clone, Copy)]
pub struct Waiting {
    pub timeline: Name,
    pub point: u64,
    /// How much the timeline's value has to grow.
    pub to_go: u64,
}

/// A node of a graph.
#[derive(Clone, Copy)]
pub enum Node {
    Timeline(TimelineRow),
    /// A point that is not reached.
    Point(Waiting),
    File(FileRow),
    Buffer(Name),
    /// A pending watch, by its cookie.
    Watch(u64),
}

/// The source of an edge.
#[derive(Clone, Copy)]
pub enum Waiter {
    File(Name),
    /// A buffer, at this usage.
    Buffer(Name, Usage),
    Watch(u64),
}

/// An edge: a waiter, and a point for which it waits.
#[derive(Clone, Copy)]
pub struct Edge {
    pub waiter: Waiter,
    pub timeline: Name,
    pub point: u64,
}

/// A point by its timeline's name.
#[derive(Clone, Copy, PartialEq, Eq, Hash)]
struct NamedPoint {
    timeline: Name,
    value: u64,
}

/// Waiters and the points for which they wait. A point has a node only if something waits for it; it waits for its
/// timeline.
#[derive(Drop)]
pub struct Graph {
    pub nodes: Vec<Node>,
    pub edges: Vec<Edge>,
    // the points among the nodes
    points: HashSet<NamedPoint>,
}

impl Graph {
    /// An empty graph.
    pub fn new(alloc: Global) -> Graph {
        Graph {
            nodes: Vec::new(alloc),
            edges: Vec::new(alloc),
            points: HashSet::new(alloc),
        }
    }

    /// Adds a node.
    pub fn add_node(&mut self, node: Node) -> Result<(), AllocError> {
        self.nodes.push(node)?;
        Ok(())
    }

    /// Adds an edge to a point, which becomes a node if it is none yet.
    pub fn add_wait(&mut self, waiter: &Waiter, waiting: &Waiting) -> Result<(), AllocError> {
        let point = NamedPoint {
            timeline: waiting.timeline,
            value: waiting.point,
        };
        let new = self.points.insert(point).map_err(|_| AllocError)?;
        if new {
            self.add_node(Node::Point(*waiting))?;
        }
        let edge = Edge {
            waiter: *waiter,
            timeline: waiting.timeline,
            point: waiting.point,
        };
        self.edges.push(edge)?;
        Ok(())
    }
}
