//! `Part`: a part of a text, so that writers escape every text that isn't theirs.
ghost use Rattle.std.specs.Prelude.{◌≡◌, ◌++◌, OnOk};
ghost use Rattle.text_core.specs.Part.{bytes_of, text_of};

use crate::escape::{push_inert, push_literal, push_noted};
use crate::number::{push_number, push_seconds};
use std::alloc::AllocError;

/// A part of a text.
#[derive(Clone, Copy)]
pub enum Part<'a> {
    /// The writer's own text.
    Text(&'static str),
    /// Bytes as they are.
    Bytes(&'a [u8]),
    /// A number, in decimal.
    Number(u64),
    /// Microseconds, in seconds with six decimals.
    Seconds(u64),
    /// Bytes other than printable ASCII, and the backslash, as `\xNN`.
    Literal(&'a [u8]),
    /// `?` for each byte that is no printable ASCII.
    Noted(&'a [u8]),
    /// A text that is inert in SVG and DOT.
    Inert(&'a [u8]),
}

/// Adds the parts, one after another.
pub fn push_parts(text: &mut Vec<u8>, parts: &[Part<'_>]) -> Result<(), AllocError>
    ensures added { OnOk result (text.new.items ≡ text.old.items ++ text_of parts.now) }
{
    for part in parts {
        push_part(text, part)?;
    }
    Ok(())
}

fn push_part(text: &mut Vec<u8>, part: &Part<'_>) -> Result<(), AllocError>
    ensures added { OnOk result (text.new.items ≡ text.old.items ++ bytes_of part.now) }
{
    match part {
        Part::Text(part) => text.extend_from_slice(part.as_bytes()),
        Part::Bytes(bytes) => text.extend_from_slice(bytes),
        Part::Number(number) => push_number(text, *number),
        Part::Seconds(time) => push_seconds(text, *time),
        Part::Literal(bytes) => push_literal(text, bytes),
        Part::Noted(bytes) => push_noted(text, bytes),
        Part::Inert(bytes) => push_inert(text, bytes),
    }
}
