//! `AnswerPart`: a part of the JSON of an answer, so that an object is a list of parts.
//! `members.rt` and `array.rt` write objects by `put_all`.

use json::Writer;
use point_core::{Name, Status};
use std::alloc::AllocError;

/// A part of the JSON of an answer.
#[derive(Clone, Copy)]
pub(crate) enum AnswerPart<'a> {
    BeginObject,
    EndObject,
    Key(&'a str),
    Text(&'a str),
    Name(&'a Name),
    Number(u64),
    Status(Status),
    Bool(bool),
}

/// Writes the parts, one after another.
pub(crate) fn put_all(writer: &mut Writer, parts: &[AnswerPart<'_>]) -> Result<(), AllocError> {
    for part in parts {
        put(writer, part)?;
    }
    Ok(())
}

fn put(writer: &mut Writer, part: &AnswerPart<'_>) -> Result<(), AllocError> {
    match part {
        AnswerPart::BeginObject => writer.begin_object(),
        AnswerPart::EndObject => writer.end_object(),
        AnswerPart::Key(name) => writer.key(name),
        AnswerPart::Text(text) => writer.string(text),
        AnswerPart::Name(name) => put_name(writer, name),
        AnswerPart::Number(number) => writer.u64(*number),
        AnswerPart::Status(status) => writer.i64(i64::from(status.number())),
        AnswerPart::Bool(value) => writer.boolean(*value),
    }
}

/// A name is ASCII.
fn put_name(writer: &mut Writer, name: &Name) -> Result<(), AllocError> {
    match str::from_utf8(name.as_bytes()) {
        Ok(text) => writer.string(text),
        Err(_) => Err(AllocError),
    }
}
