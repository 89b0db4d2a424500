//! Writes a picture as an SVG document. Every text is escaped.
ghost use Rattle.std.specs.Prelude.{◌≡◌, IfErr};
ghost use Rattle.point_core.specs.declared.refusal.Refusal.TheVariants.{Memory};

use crate::graph::Waiting;
use crate::history::{Column, History};
use crate::measure::{SECOND, digits, name_length, text_width, time_length, waiting_length};
use crate::operands::{operand, operand_length};
use crate::shapes::{Caption, ColumnArea, Face, Fill, Label, Mark, Picture, Shape, Spot, Stroke};
use crate::style::style;
use crate::word::{
    CHOOSING, LEFT_OUT, NO_COMMANDS, NOT_SIGNALLED, letter_of, word_of_heading, words_of,
};
use point_core::{Name, Refusal};
use std::alloc::{AllocError, Global};
use text_core::{Part, push_inert_byte, push_parts};

/// The picture of a history as a complete SVG document.
///
/// Fails only with `Memory`.
pub fn svg_text(alloc: Global, picture: &Picture, history: &History) -> Result<Vec<u8>, Refusal>
    ensures memory { IfErr result (λ e. e ≡ Memory) }
{
    let mut out = Vec::new(alloc);
    push_document(picture, history, &mut out)?;
    Ok(out)
}

fn push_document(
    picture: &Picture,
    history: &History,
    out: &mut Vec<u8>,
) -> Result<(), AllocError> {
    push_start(picture, out)?;
    for shape in &picture.shapes {
        push_shape(shape, out)?;
    }
    for text in &picture.texts {
        push_text(history, text, out)?;
    }
    for area in &picture.columns {
        if let Some(column) = history.columns.get(area.column) {
            push_note(picture, area, column, out)?;
        }
    }
    push_parts(out, &[Part::Text("</svg>\n")])
}

fn push_start(picture: &Picture, out: &mut Vec<u8>) -> Result<(), AllocError> {
    let parts = [
        Part::Text("<svg xmlns=\"http://www.w3.org/2000/svg\" width=\""),
        Part::Number(picture.width),
        Part::Text("\" height=\""),
        Part::Number(picture.height),
        Part::Text("\" viewBox=\"0 0 "),
        Part::Number(picture.width),
        Part::Text(" "),
        Part::Number(picture.height),
        Part::Text("\">\n"),
    ];
    push_parts(out, &parts)?;
    push_parts(out, &[Part::Text(style())])?;
    push_page(picture, out)
}

/// The page itself, below all shapes.
fn push_page(picture: &Picture, out: &mut Vec<u8>) -> Result<(), AllocError> {
    let parts = [
        Part::Text("<rect class=\"page\" x=\"0\" y=\"0\" width=\""),
        Part::Number(picture.width),
        Part::Text("\" height=\""),
        Part::Number(picture.height),
        Part::Text("\"/>\n"),
    ];
    push_parts(out, &parts)
}

/// The area of a column, over which its note shows. The note is escaped, but for its line feeds.
fn push_note(
    picture: &Picture,
    area: &ColumnArea,
    column: &Column,
    out: &mut Vec<u8>,
) -> Result<(), AllocError> {
    let parts = [
        Part::Text("<rect class=\"over\" x=\""),
        Part::Number(area.x),
        Part::Text("\" y=\"0\" width=\""),
        Part::Number(area.width),
        Part::Text("\" height=\""),
        Part::Number(picture.height),
        Part::Text("\"><title>"),
    ];
    push_parts(out, &parts)?;
    push_lines(column.note.as_slice(), out)?;
    push_parts(out, &[Part::Text("</title></rect>\n")])
}

/// A text with one line for each line feed.
fn push_lines(text: &[u8], out: &mut Vec<u8>) -> Result<(), AllocError> {
    for byte in text {
        match *byte {
            b'\n' => out.push(b'\n')?,
            other => push_inert_byte(out, other)?,
        }
    }
    Ok(())
}

fn push_shape(shape: &Shape, out: &mut Vec<u8>) -> Result<(), AllocError> {
    match shape {
        Shape::Area {
            fill,
            at,
            width,
            height,
        } => push_area(*fill, at, *width, *height, out),
        Shape::Edge {
            at,
            width,
            height,
            open,
        } => push_edge(at, *width, *height, *open, out),
        Shape::Line { stroke, from, to } => push_line(*stroke, from, to, out),
        Shape::Mark { mark, at } => push_mark(*mark, at, out),
    }
}

fn push_area(
    fill: Fill,
    at: &Spot,
    width: u64,
    height: u64,
    out: &mut Vec<u8>,
) -> Result<(), AllocError> {
    let parts = [
        Part::Text("<rect "),
        Part::Text(fill_words(fill)),
        Part::Text(" x=\""),
        Part::Number(at.x),
        Part::Text("\" y=\""),
        Part::Number(at.y),
        Part::Text("\" width=\""),
        Part::Number(width),
        Part::Text("\" height=\""),
        Part::Number(height),
        Part::Text("\"/>\n"),
    ];
    push_parts(out, &parts)
}

fn fill_words(fill: Fill) -> &'static str {
    match fill {
        Fill::Stripe => "class=\"stripe\"",
        Fill::Refused => "class=\"refused\"",
        Fill::Client => "class=\"client\"",
        Fill::Pending => "fill=\"url(#pending)\"",
        Fill::Hanging => "fill=\"url(#hanging)\"",
        Fill::Signalled => "class=\"sa\"",
        Fill::Cancelled => "fill=\"url(#cancelled)\"",
    }
}

/// The edge of a bar: from the right end round the left one, and back unless the bar is open.
fn push_edge(
    at: &Spot,
    width: u64,
    height: u64,
    open: bool,
    out: &mut Vec<u8>,
) -> Result<(), AllocError> {
    let parts = [
        Part::Text("<path class=\"edge\" d=\"M"),
        Part::Number(at.x.saturating_add(width)),
        Part::Text(" "),
        Part::Number(at.y),
        Part::Text("h-"),
        Part::Number(width),
        Part::Text("v"),
        Part::Number(height),
        Part::Text("h"),
        Part::Number(width),
        Part::Text(if open { "\"/>\n" } else { "z\"/>\n" }),
    ];
    push_parts(out, &parts)
}

fn push_line(stroke: Stroke, from: &Spot, to: &Spot, out: &mut Vec<u8>) -> Result<(), AllocError> {
    let parts = [
        Part::Text("<path class=\""),
        Part::Text(stroke_word(stroke)),
        Part::Text("\" d=\"M"),
        Part::Number(from.x),
        Part::Text(" "),
        Part::Number(from.y),
        Part::Text("L"),
        Part::Number(to.x),
        Part::Text(" "),
        Part::Number(to.y),
        Part::Text("\"/>\n"),
    ];
    push_parts(out, &parts)
}

fn stroke_word(stroke: Stroke) -> &'static str {
    match stroke {
        Stroke::Lane => "lane",
        Stroke::Value => "value",
        Stroke::Closed => "gone",
        Stroke::Link => "link",
        Stroke::Watch => "watch",
        Stroke::Wait => "wait",
    }
}

fn push_mark(mark: Mark, at: &Spot, out: &mut Vec<u8>) -> Result<(), AllocError> {
    let (class, path) = path_of(mark);
    let parts = [
        Part::Text("<path class=\""),
        Part::Text(class),
        Part::Text("\" d=\"M"),
        Part::Number(at.x),
        Part::Text(" "),
        Part::Number(at.y),
        Part::Text(path),
        Part::Text("\"/>\n"),
    ];
    push_parts(out, &parts)
}

/// The class of a mark, and its path relative to its middle.
fn path_of(mark: Mark) -> (&'static str, &'static str) {
    match mark {
        Mark::Add => ("sign", "m-9 0a9 9 0 1 0 18 0a9 9 0 1 0-18 0z"),
        Mark::Import => ("sign", "m-11-9h22v18h-22z"),
        Mark::Export => ("sign", "m0-12l15 12l-15 12l-15-12z"),
        Mark::Trim => ("sign", "m-5-9h10l5 9l-5 9h-10l-5-9z"),
        Mark::Registered => ("sign", "m0-6l6 6l-6 6l-6-6z"),
        Mark::Fired => ("solid", "m0-8l2 6l6 2l-6 2l-2 6l-2-6l-6-2l6-2z"),
        Mark::Removed => ("open", "m-5-5l10 10m0-10l-10 10"),
        Mark::Waits => ("sign", "m-5-6l10 6l-10 6z"),
        Mark::Woken => ("open", "m0-6v12"),
        Mark::Refused => ("cross", "m-5-5l10 10m0-10l-10 10"),
        Mark::Shut => ("solid", "m-5-5h10v10h-10z"),
        Mark::Closed => ("open", "m0-9v18"),
        Mark::GoesOn => ("open", "m-1-7l6 7l-6 7"),
        Mark::From => ("solid", "m-3 0a3 3 0 1 0 6 0a3 3 0 1 0-6 0z"),
        Mark::Down => ("solid", "l-4-7h8z"),
        Mark::Up => ("solid", "l-4 7h8z"),
    }
}

fn push_text(history: &History, text: &Caption, out: &mut Vec<u8>) -> Result<(), AllocError> {
    let parts = [
        Part::Text("<text "),
        Part::Text(face_words(text.face)),
        Part::Text(" x=\""),
        Part::Number(text.at.x),
        Part::Text("\" y=\""),
        Part::Number(text.at.y),
        Part::Text("\" textLength=\""),
        Part::Number(text_width(length_of(history, &text.label))),
        Part::Text("\" lengthAdjust=\"spacingAndGlyphs\">"),
    ];
    push_parts(out, &parts)?;
    push_label(history, &text.label, out)?;
    push_parts(out, &[Part::Text("</text>\n")])
}

fn face_words(face: Face) -> &'static str {
    match face {
        Face::Name => "",
        Face::Heading => "class=\"h\"",
        Face::Meaning => "class=\"m\"",
        Face::Number => "class=\"n\"",
        Face::Word => "class=\"w\"",
        Face::RefusedWord => "class=\"rw\"",
        Face::Letter => "class=\"l\"",
    }
}

/// The number of characters of a label.
fn length_of(history: &History, label: &Label) -> u64 {
    match label {
        Label::Command(place) => command_word(history, *place).len() as u64,
        Label::Heading(heading) => word_of_heading(*heading).len() as u64,
        Label::Access(access) => letter_of(*access).len() as u64,
        Label::Meaning(meaning) => words_of(*meaning).len() as u64,
        Label::Name(name) => name_length(name),
        Label::Operand { column, place } => word_length(history, *column, *place),
        Label::Number(number) => digits(*number),
        Label::Time(time) => time_length(*time),
        Label::Watch(cookie) => digits(*cookie).saturating_add(6),
        Label::Task(place) => task_name(history, *place).len() as u64,
        Label::Waiting(waiting) => waiting_length(waiting),
        Label::NotSignalled => NOT_SIGNALLED.len() as u64,
        Label::NoCommands => NO_COMMANDS.len() as u64,
        Label::Choosing => CHOOSING.len() as u64,
        Label::LeftOut(count) => digits(*count as u64).saturating_add(LEFT_OUT.len() as u64),
    }
}

fn word_length(history: &History, column: usize, place: usize) -> u64 {
    match history.columns.get(column) {
        Some(column) => operand_length(column, place),
        None => 0,
    }
}

fn task_name(history: &History, place: usize) -> &[u8] {
    match history.lanes.tasks.get(place) {
        Some(lane) => lane.name.as_slice(),
        None => &[],
    }
}

fn push_label(history: &History, label: &Label, out: &mut Vec<u8>) -> Result<(), AllocError> {
    match label {
        Label::Command(place) => push_word(command_word(history, *place), out),
        Label::Heading(heading) => push_word(word_of_heading(*heading), out),
        Label::Access(access) => push_word(letter_of(*access), out),
        Label::Meaning(meaning) => push_word(words_of(*meaning), out),
        Label::Name(name) => push_name(name, out),
        Label::Operand { column, place } => match history.columns.get(*column) {
            Some(column) => push_parts(out, &[Part::Inert(operand(column, *place))]),
            None => Ok(()),
        },
        Label::Number(number) => push_parts(out, &[Part::Number(*number)]),
        Label::Time(time) => push_time(*time, out),
        Label::Task(place) => push_parts(out, &[Part::Inert(task_name(history, *place))]),
        Label::NotSignalled => push_word(NOT_SIGNALLED, out),
        Label::NoCommands => push_word(NO_COMMANDS, out),
        Label::Choosing => push_word(CHOOSING, out),
        Label::LeftOut(count) => {
            push_parts(out, &[Part::Number(*count as u64), Part::Text(LEFT_OUT)])
        }
        Label::Watch(cookie) => push_parts(out, &[Part::Text("watch "), Part::Number(*cookie)]),
        Label::Waiting(waiting) => push_waiting(waiting, out),
    }
}

fn command_word(history: &History, place: usize) -> &'static str {
    match history.columns.get(place) {
        Some(column) => column.word,
        None => "",
    }
}

fn push_word(word: &'static str, out: &mut Vec<u8>) -> Result<(), AllocError> {
    push_parts(out, &[Part::Text(word)])
}

fn push_name(name: &Name, out: &mut Vec<u8>) -> Result<(), AllocError> {
    push_parts(out, &[Part::Inert(name.as_bytes())])
}

/// A time in seconds, with three decimals.
fn push_time(time: u64, out: &mut Vec<u8>) -> Result<(), AllocError> {
    let parts = [
        Part::Number(time / SECOND),
        Part::Text("."),
        Part::Number(time / 100_000 % 10),
        Part::Number(time / 10_000 % 10),
        Part::Number(time / 1_000 % 10),
    ];
    push_parts(out, &parts)
}

/// A text as `gpu 5: 3 to go`.
fn push_waiting(waiting: &Waiting, out: &mut Vec<u8>) -> Result<(), AllocError> {
    let parts = [
        Part::Inert(waiting.timeline.as_bytes()),
        Part::Text(" "),
        Part::Number(waiting.point),
        Part::Text(": "),
        Part::Number(waiting.to_go),
        Part::Text(" to go"),
    ];
    push_parts(out, &parts)
}
