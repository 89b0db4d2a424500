//! `ReportPart`: a piece of a report. A report is written from a list of parts, by one write, so that lines of checks that
//! run side by side don't mix.
ghost use Rattle.std.specs.Prelude.{◌≡◌, ◌⊎◌, ◌++◌, List, ℕ, OnOk, IfErr};
ghost use Rattle.std.specs.Io.KnownBytes.{Appends};
ghost use Rattle.point_core.specs.declared.refusal.Refusal.TheVariants.{Write as WriteFault, Memory};

use itoa::Buffer;
use point_core::Refusal;
use report_core::write_whole;
use std::alloc::{AllocError, Global};
use std::ascii::escape_default;
use std::io::Write;
use std::slice;

/// A part of a report.
#[derive(Clone, Copy)]
pub(crate) enum ReportPart<'a> {
    Text(&'a str),
    Number(u64),
    /// Bytes other than printable ASCII are written as in a Rust literal.
    Escaped(&'a [u8]),
    /// As `Escaped`, between quotes.
    Quoted(&'a [u8]),
    /// The description of a test: `#` and `\` follow a `\`, and a line feed is a space.
    Description(&'a str),
    /// Bytes as they are.
    Bytes(&'a [u8]),
}

/// Writes `front` and then the parts, by one write.
pub(crate) fn write_parts<W: Write>(
    alloc: Global,
    front: &str,
    parts: &[ReportPart<'_>],
    writer: &mut W,
) -> Result<(), Refusal>
    ensures begins { OnOk result ((rest : List ℕ) × Appends (W.contents writer.old) (W.contents writer.new)
        (front.now ++ rest)) }
    ensures refusals { IfErr result (λ refusal. (refusal ≡ WriteFault) ⊎ (refusal ≡ Memory)) }
{
    let mut rest = Vec::new(alloc);
    push_parts(parts, &mut rest)?;
    let mut text = Vec::new(alloc);
    text.extend_from_slice(front.as_bytes())?;
    text.extend_from_slice(rest.as_slice())?;
    write_whole(writer, text.as_slice())
}

fn push_parts(parts: &[ReportPart<'_>], text: &mut Vec<u8>) -> Result<(), AllocError> {
    for part in parts {
        push_part(part, text)?;
    }
    Ok(())
}

fn push_part(part: &ReportPart<'_>, text: &mut Vec<u8>) -> Result<(), AllocError> {
    match part {
        ReportPart::Text(part) => text.extend_from_slice(part.as_bytes()),
        ReportPart::Number(number) => push_number(*number, text),
        ReportPart::Escaped(bytes) => push_escaped(bytes, text),
        ReportPart::Quoted(bytes) => push_quoted(bytes, text),
        ReportPart::Description(name) => push_description(name.as_bytes(), text),
        ReportPart::Bytes(bytes) => text.extend_from_slice(bytes),
    }
}

fn push_number(number: u64, text: &mut Vec<u8>) -> Result<(), AllocError> {
    let mut digits = Buffer::new();
    text.extend_from_slice(digits.format(number).as_bytes())
}

fn push_quoted(bytes: &[u8], text: &mut Vec<u8>) -> Result<(), AllocError> {
    text.extend_from_slice(b"\"")?;
    push_escaped(bytes, text)?;
    text.extend_from_slice(b"\"")
}

fn push_escaped(bytes: &[u8], text: &mut Vec<u8>) -> Result<(), AllocError> {
    for byte in bytes {
        push_byte(*byte, text)?;
    }
    Ok(())
}

/// A single quote needs no escape between double ones.
fn push_byte(byte: u8, text: &mut Vec<u8>) -> Result<(), AllocError> {
    if byte == b'\'' {
        return text.extend_from_slice(b"'");
    }
    for escaped in escape_default(byte) {
        text.extend_from_slice(&[escaped])?;
    }
    Ok(())
}

fn push_description(name: &[u8], text: &mut Vec<u8>) -> Result<(), AllocError> {
    for byte in name {
        text.extend_from_slice(described(byte))?;
    }
    Ok(())
}

fn described(byte: &u8) -> &[u8] {
    match *byte {
        b'#' => b"\\#",
        b'\\' => b"\\\\",
        b'\n' => b" ",
        _ => slice::from_ref(byte),
    }
}
