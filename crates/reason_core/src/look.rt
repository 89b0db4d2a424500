//! `NoteLook` and `NotePlace`, the style and the line of an explanation, and `NotePart`, a part of it. `refused.rt` and
//! `syntax.rt` write an explanation as a list of parts, by `note`.
ghost use Rattle.std.specs.Prelude.{◌≡◌, IfErr, OnErr, OnOk};
ghost use Rattle.std.specs.Io.KnownBytes.{Appends};
ghost use Rattle.point_core.specs.declared.refusal.Refusal.TheVariants.{Write as WriteFault};
ghost use Rattle.report_core.specs.Bytes.{AppendsFront};
ghost use Rattle.script_core.specs.Output.{Grows};
ghost use Rattle.reason_core.specs.Notes.{Notes, after_number, before_number, mark_of};

use itoa::Buffer;
use point_core::Refusal;
use report_core::write_whole;
use std::ascii::escape_default;
use std::io::Write;

/// The style of the line's number.
#[derive(Clone, Copy)]
pub enum NoteLook {
    Plain,
    /// In bold, by the codes of a terminal.
    Bold,
}

/// The line that is explained.
#[derive(Clone, Copy)]
pub struct NotePlace {
    pub line: u32,
    pub look: NoteLook,
}

/// A part of an explanation.
#[derive(Clone, Copy)]
pub(crate) enum NotePart<'a> {
    Text(&'a str),
    Number(u64),
    /// Bytes that do not print are written as in a Rust literal.
    Bytes(&'a [u8]),
    /// As `Bytes`, between quotes.
    Quoted(&'a [u8]),
}

/// Writes `line N: ` and the parts, and ends the line.
pub(crate) fn note<N: Write>(
    place: &NotePlace,
    parts: &[NotePart<'_>],
    notes: &mut N,
) -> Result<(), Refusal>
    ensures noted { Notes result place.now.line (N.contents notes.old) (N.contents notes.new) }
    ensures refusals { IfErr result (λ refusal. refusal ≡ WriteFault) }
{
    begin(place, notes)?;
    write_parts(parts, notes)?;
    write_part(&NotePart::Text("\n"), notes)
}

/// Writes `line N: `.
fn begin<N: Write>(place: &NotePlace, notes: &mut N) -> Result<(), Refusal>
    ensures ok { OnOk result
        (Appends (N.contents notes.old) (N.contents notes.new) (mark_of place.now.look place.now.line)) }
    ensures err { OnErr result
        (AppendsFront (N.contents notes.old) (N.contents notes.new) (mark_of place.now.look place.now.line)) }
    ensures refusals { IfErr result (λ refusal. refusal ≡ WriteFault) }
{
    let mut number = Buffer::new();
    write_whole(notes, before_number(place.look))?;
    write_whole(notes, number.format(place.line).as_bytes())?;
    write_whole(notes, after_number(place.look))?;
    Ok(())
}

fn before_number(look: NoteLook) -> &'static [u8]
    ensures bytes { result.now ≡ before_number look }
{
    match look {
        NoteLook::Plain => b"line ",
        NoteLook::Bold => b"\x1b[1mline ",
    }
}

fn after_number(look: NoteLook) -> &'static [u8]
    ensures bytes { result.now ≡ after_number look }
{
    match look {
        NoteLook::Plain => b": ",
        NoteLook::Bold => b":\x1b[0m ",
    }
}

fn write_parts<N: Write>(parts: &[NotePart<'_>], notes: &mut N) -> Result<(), Refusal>
    ensures grows { Grows (N.contents notes.old) (N.contents notes.new) }
    ensures refusals { IfErr result (λ refusal. refusal ≡ WriteFault) }
{
    for part in parts {
        write_part(part, notes)?;
    }
    Ok(())
}

fn write_part<N: Write>(part: &NotePart<'_>, notes: &mut N) -> Result<(), Refusal>
    ensures grows { Grows (N.contents notes.old) (N.contents notes.new) }
    ensures refusals { IfErr result (λ refusal. refusal ≡ WriteFault) }
{
    match part {
        NotePart::Text(text) => write_bytes(text.as_bytes(), notes),
        NotePart::Number(number) => write_number(*number, notes),
        NotePart::Bytes(bytes) => write_escaped(bytes, notes),
        NotePart::Quoted(bytes) => write_quoted(bytes, notes),
    }
}

fn write_number<N: Write>(number: u64, notes: &mut N) -> Result<(), Refusal>
    ensures grows { Grows (N.contents notes.old) (N.contents notes.new) }
    ensures refusals { IfErr result (λ refusal. refusal ≡ WriteFault) }
{
    let mut digits = Buffer::new();
    write_bytes(digits.format(number).as_bytes(), notes)
}

fn write_quoted<N: Write>(bytes: &[u8], notes: &mut N) -> Result<(), Refusal>
    ensures grows { Grows (N.contents notes.old) (N.contents notes.new) }
    ensures refusals { IfErr result (λ refusal. refusal ≡ WriteFault) }
{
    write_bytes(b"\"", notes)?;
    write_escaped(bytes, notes)?;
    write_bytes(b"\"", notes)
}

fn write_escaped<N: Write>(bytes: &[u8], notes: &mut N) -> Result<(), Refusal>
    ensures grows { Grows (N.contents notes.old) (N.contents notes.new) }
    ensures refusals { IfErr result (λ refusal. refusal ≡ WriteFault) }
{
    for byte in bytes {
        write_byte(*byte, notes)?;
    }
    Ok(())
}

fn write_byte<N: Write>(byte: u8, notes: &mut N) -> Result<(), Refusal>
    ensures grows { Grows (N.contents notes.old) (N.contents notes.new) }
    ensures refusals { IfErr result (λ refusal. refusal ≡ WriteFault) }
{
    for escaped in escape_default(byte) {
        write_bytes(&[escaped], notes)?;
    }
    Ok(())
}

/// Fails after a prefix of the bytes was written.
fn write_bytes<N: Write>(bytes: &[u8], notes: &mut N) -> Result<(), Refusal>
    ensures grows { Grows (N.contents notes.old) (N.contents notes.new) }
    ensures refusals { IfErr result (λ refusal. refusal ≡ WriteFault) }
{
    write_whole(notes, bytes)
}
