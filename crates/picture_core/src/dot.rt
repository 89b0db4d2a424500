//! Writes a graph in DOT, the language of Graphviz.
ghost use Rattle.std.specs.Prelude.{◌≡◌, IfErr};
ghost use Rattle.point_core.specs.declared.refusal.Refusal.TheVariants.{Memory};

use crate::graph::{Edge, Graph, Node, Waiter, Waiting};
use command_core::FileRow;
use point_core::{Name, Refusal, Status, TimelineRow, Usage};
use std::alloc::{AllocError, Global};
use text_core::{Part, push_parts};

const START: &str = "digraph waits {\n\
    rankdir=LR;\n\
    node [fontname=\"monospace\", fontsize=11];\n\
    edge [fontname=\"monospace\", fontsize=9];\n";

/// A graph as a DOT document, with an arrow from each waiter to the point for which it waits.
///
/// Fails only with `Memory`.
pub fn dot_text(alloc: Global, graph: &Graph) -> Result<Vec<u8>, Refusal>
    ensures memory { IfErr result (λ e. e ≡ Memory) }
{
    let mut out = Vec::new(alloc);
    push_document(graph, &mut out)?;
    Ok(out)
}

fn push_document(graph: &Graph, out: &mut Vec<u8>) -> Result<(), AllocError> {
    push_parts(out, &[Part::Text(START)])?;
    for node in &graph.nodes {
        push_node(node, out)?;
    }
    for edge in &graph.edges {
        push_edge(edge, out)?;
    }
    push_parts(out, &[Part::Text("}\n")])
}

fn push_node(node: &Node, out: &mut Vec<u8>) -> Result<(), AllocError> {
    match node {
        Node::Timeline(timeline) => push_timeline(timeline, out),
        Node::Point(waiting) => push_point(waiting, out),
        Node::File(file) => push_file(file, out),
        Node::Buffer(name) => push_buffer(name, out),
        Node::Watch(cookie) => push_watch(*cookie, out),
    }
}

fn push_timeline(timeline: &TimelineRow, out: &mut Vec<u8>) -> Result<(), AllocError> {
    let name = Part::Inert(timeline.name.as_bytes());
    let closed = if timeline.closed { "\\nclosed" } else { "" };
    let parts = [
        Part::Text("\"timeline "),
        name,
        Part::Text("\" [shape=box, style=bold, label=\""),
        name,
        Part::Text("\\nvalue "),
        Part::Number(timeline.value),
        Part::Text(closed),
        Part::Text("\"];\n"),
    ];
    push_parts(out, &parts)
}

/// A point, and the arrow to its timeline.
fn push_point(waiting: &Waiting, out: &mut Vec<u8>) -> Result<(), AllocError> {
    let timeline = Part::Inert(waiting.timeline.as_bytes());
    let point = Part::Number(waiting.point);
    let node = [
        Part::Text("\"point "),
        timeline,
        Part::Text(" "),
        point,
        Part::Text("\" [shape=ellipse, label=\""),
        timeline,
        Part::Text(" "),
        point,
        Part::Text("\\n"),
        Part::Number(waiting.to_go),
        Part::Text(" to go\"];\n"),
    ];
    push_parts(out, &node)?;
    let edge = [
        Part::Text("\"point "),
        timeline,
        Part::Text(" "),
        point,
        Part::Text("\" -> \"timeline "),
        timeline,
        Part::Text("\";\n"),
    ];
    push_parts(out, &edge)
}

fn push_file(file: &FileRow, out: &mut Vec<u8>) -> Result<(), AllocError> {
    let name = Part::Inert(file.name.as_bytes());
    let parts = [
        Part::Text("\"file "),
        name,
        Part::Text("\" [shape=note, label=\""),
        name,
        Part::Text("\\n"),
        Part::Text(status_words(file.status)),
        Part::Text("];\n"),
    ];
    push_parts(out, &parts)
}

/// The end of a label, and its style.
fn status_words(status: Status) -> &'static str {
    match status {
        Status::Active => "pending\", style=filled, fillcolor=\"#e69f00\"",
        Status::Signalled => "signalled\", style=filled, fillcolor=\"#56b4e9\"",
        Status::Cancelled => "cancelled\", style=\"filled,dashed\", fillcolor=\"#d9d9d9\"",
    }
}

fn push_buffer(name: &Name, out: &mut Vec<u8>) -> Result<(), AllocError> {
    let name = Part::Inert(name.as_bytes());
    let parts = [
        Part::Text("\"buffer "),
        name,
        Part::Text("\" [shape=cylinder, label=\""),
        name,
        Part::Text("\"];\n"),
    ];
    push_parts(out, &parts)
}

fn push_watch(cookie: u64, out: &mut Vec<u8>) -> Result<(), AllocError> {
    let parts = [
        Part::Text("\"watch "),
        Part::Number(cookie),
        Part::Text("\" [shape=diamond, label=\"watch "),
        Part::Number(cookie),
        Part::Text("\"];\n"),
    ];
    push_parts(out, &parts)
}

fn push_edge(edge: &Edge, out: &mut Vec<u8>) -> Result<(), AllocError> {
    push_waiter(&edge.waiter, out)?;
    let parts = [
        Part::Text(" -> \"point "),
        Part::Inert(edge.timeline.as_bytes()),
        Part::Text(" "),
        Part::Number(edge.point),
        Part::Text("\""),
        Part::Text(edge_words(&edge.waiter)),
        Part::Text(";\n"),
    ];
    push_parts(out, &parts)
}

fn push_waiter(waiter: &Waiter, out: &mut Vec<u8>) -> Result<(), AllocError> {
    match waiter {
        Waiter::File(name) => push_named("\"file ", name, out),
        Waiter::Buffer(name, _) => push_named("\"buffer ", name, out),
        Waiter::Watch(cookie) => {
            let parts = [
                Part::Text("\"watch "),
                Part::Number(*cookie),
                Part::Text("\""),
            ];
            push_parts(out, &parts)
        }
    }
}

fn push_named(kind: &'static str, name: &Name, out: &mut Vec<u8>) -> Result<(), AllocError> {
    let parts = [
        Part::Text(kind),
        Part::Inert(name.as_bytes()),
        Part::Text("\""),
    ];
    push_parts(out, &parts)
}

/// The label of an edge: a buffer waits at a usage.
fn edge_words(waiter: &Waiter) -> &'static str {
    match waiter {
        Waiter::Buffer(_, Usage::Kernel) => " [label=\"kernel\"]",
        Waiter::Buffer(_, Usage::Write) => " [label=\"write\"]",
        Waiter::Buffer(_, Usage::Read) => " [label=\"read\"]",
        Waiter::Buffer(_, Usage::Bookkeep) => " [label=\"bookkeep\"]",
        Waiter::File(_) | Waiter::Watch(_) => "",
    }
}
