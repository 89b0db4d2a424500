//! Reports an answer that differs, and a note that is a slip: as a line `FILE:LINE: ..`, or as an item of a TAP test. `Checker`
//! calls it.
ghost use Rattle.std.specs.Prelude.{◌≡◌, ◌⊎◌, IfErr};
ghost use Rattle.point_core.specs.declared.refusal.Refusal.TheVariants.{Write as WriteFault, Memory};

use crate::finding::Difference;
use crate::form::{CheckForm, CheckPlace};
use crate::parts::{ReportPart, write_parts};
use line_core::{RawLine, first_line};
use point_core::Refusal;
use std::alloc::Global;
use std::io::Write;

/// Writes the first line of an answer that differs, by one write.
pub(crate) fn report_difference<'a, W: Write>(
    alloc: Global,
    place: &CheckPlace<'a>,
    difference: &Difference<'a>,
    writer: &mut W,
) -> Result<(), Refusal>
    ensures refusals { IfErr result (λ refusal. (refusal ≡ WriteFault) ⊎ (refusal ≡ Memory)) }
{
    match place.form {
        CheckForm::Lines { bold } => report_line(alloc, place.name, bold, difference, writer),
        CheckForm::Counts => Ok(()),
        CheckForm::Tap(_) => report_item(alloc, difference, writer),
    }
}

/// Writes a note that is a slip, by one write.
pub(crate) fn report_slip<'a, W: Write>(
    alloc: Global,
    place: &CheckPlace<'a>,
    line: &RawLine<'a>,
    writer: &mut W,
) -> Result<(), Refusal>
    ensures refusals { IfErr result (λ refusal. (refusal ≡ WriteFault) ⊎ (refusal ≡ Memory)) }
{
    match place.form {
        CheckForm::Lines { bold } => report_slip_line(alloc, place.name, bold, line, writer),
        CheckForm::Counts => Ok(()),
        CheckForm::Tap(_) => report_slip_item(alloc, line, writer),
    }
}

/// Why a slip is one. A line has it behind the note.
pub(crate) const SLIP: &str = ": expects nothing, as an expectation begins with #=";

/// `FILE:LINE: NOTE: expects nothing, ..`.
fn report_slip_line<'a, W: Write>(
    alloc: Global,
    name: &'a str,
    bold: bool,
    line: &RawLine<'a>,
    writer: &mut W,
) -> Result<(), Refusal>
    ensures refusals { IfErr result (λ refusal. (refusal ≡ WriteFault) ⊎ (refusal ≡ Memory)) }
{
    let [begin, end] = around(bold);
    let parts = [
        ReportPart::Text(name),
        ReportPart::Text(":"),
        ReportPart::Number(u64::from(line.number)),
        ReportPart::Text(end),
        ReportPart::Escaped(line.bytes),
        ReportPart::Text(SLIP),
        ReportPart::Text("\n"),
    ];
    write_parts(alloc, begin, &parts, writer)
}

/// An item of the list of differences, in YAML.
fn report_slip_item<W: Write>(
    alloc: Global,
    line: &RawLine<'_>,
    writer: &mut W,
) -> Result<(), Refusal>
    ensures refusals { IfErr result (λ refusal. (refusal ≡ WriteFault) ⊎ (refusal ≡ Memory)) }
{
    let parts = [
        ReportPart::Number(u64::from(line.number)),
        ReportPart::Text("\n      slip: "),
        ReportPart::Quoted(line.bytes),
        ReportPart::Text("\n"),
    ];
    write_parts(alloc, "    - line: ", &parts, writer)
}

/// `FILE:LINE: COMMAND: expected .., came ..`. A difference before the first command is reported at line 1.
fn report_line<'a, W: Write>(
    alloc: Global,
    name: &'a str,
    bold: bool,
    difference: &Difference<'a>,
    writer: &mut W,
) -> Result<(), Refusal>
    ensures refusals { IfErr result (λ refusal. (refusal ≡ WriteFault) ⊎ (refusal ≡ Memory)) }
{
    let [begin, end] = around(bold);
    let number = u64::from(difference.number.max(1));
    let command = match difference.number {
        0 => ReportPart::Text("before the first command"),
        _ => ReportPart::Escaped(difference.command),
    };
    let expected = quoted_or(difference.expected, "nothing more");
    let came = quoted_or(first_of(difference.came), "nothing");
    let parts = [
        ReportPart::Text(name),
        ReportPart::Text(":"),
        ReportPart::Number(number),
        ReportPart::Text(end),
        command,
        ReportPart::Text(": expected "),
        expected,
        ReportPart::Text(", came "),
        came,
        ReportPart::Text("\n"),
    ];
    write_parts(alloc, begin, &parts, writer)
}

/// The texts before and after `FILE:LINE`.
fn around(bold: bool) -> [&'static str; 2] {
    if bold {
        ["\x1b[1m", ":\x1b[0m "]
    } else {
        ["", ": "]
    }
}

/// An item of the list of differences, in YAML. A difference before the first command is reported at line 0.
fn report_item<W: Write>(
    alloc: Global,
    difference: &Difference<'_>,
    writer: &mut W,
) -> Result<(), Refusal>
    ensures refusals { IfErr result (λ refusal. (refusal ≡ WriteFault) ⊎ (refusal ≡ Memory)) }
{
    let parts = [
        ReportPart::Number(u64::from(difference.number)),
        ReportPart::Text("\n      command: "),
        ReportPart::Quoted(difference.command),
        ReportPart::Text("\n      expected: "),
        quoted_or(difference.expected, "null"),
        ReportPart::Text("\n      came: "),
        quoted_or(first_of(difference.came), "null"),
        ReportPart::Text("\n"),
    ];
    write_parts(alloc, "    - line: ", &parts, writer)
}

fn quoted_or<'a>(line: Option<&'a [u8]>, other: &'static str) -> ReportPart<'a> {
    match line {
        Some(line) => ReportPart::Quoted(line),
        None => ReportPart::Text(other),
    }
}

/// The first line of the text.
fn first_of(came: &[u8]) -> Option<&[u8]> {
    match first_line(came) {
        Some((line, _)) => Some(line),
        None => None,
    }
}
