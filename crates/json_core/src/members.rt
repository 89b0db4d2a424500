//! The JSON object of an answer: the line, its text, and the members that its kind of answer has.

use crate::array::put_array;
use crate::part::{AnswerPart, put_all};
use command_core::{Answer, Info, Report, ShowRow};
use json::Writer;
use point_core::Refusal;
use std::alloc::{AllocError, Global};

/// Writes the object of line `number` after the text, and a line feed. Bytes of the line that are not UTF-8 are written
/// as U+FFFD.
///
/// After a failure the text is lost.
pub fn push_line(
    alloc: Global,
    number: u32,
    line: &[u8],
    answer: &Answer,
    text: Vec<u8>,
) -> Result<Vec<u8>, AllocError> {
    match str::from_utf8(line) {
        Ok(line) => push_object(number, line, answer, text),
        Err(_) => {
            let line = String::from_utf8_lossy(alloc, line)?;
            push_object(number, line.as_str(), answer, text)
        }
    }
}

fn push_object(
    number: u32,
    line: &str,
    answer: &Answer,
    text: Vec<u8>,
) -> Result<Vec<u8>, AllocError> {
    let mut writer = Writer::new(text);
    put_line(&mut writer, number, line, answer)?;
    let mut text = writer.into_inner();
    text.extend_from_slice(b"\n")?;
    Ok(text)
}

fn put_line(
    writer: &mut Writer,
    number: u32,
    line: &str,
    answer: &Answer,
) -> Result<(), AllocError> {
    put_said(writer, number, line)?;
    put_answer(writer, answer)?;
    writer.end_object()
}

fn put_said(writer: &mut Writer, number: u32, line: &str) -> Result<(), AllocError> {
    let parts = [
        AnswerPart::BeginObject,
        AnswerPart::Key("line"),
        AnswerPart::Number(u64::from(number)),
        AnswerPart::Key("command"),
        AnswerPart::Text(line),
    ];
    put_all(writer, &parts)
}

fn put_answer(writer: &mut Writer, answer: &Answer) -> Result<(), AllocError> {
    match answer {
        Answer::Done => put_accepted(writer),
        Answer::Value(value) => put_value(writer, *value),
        Answer::Raised(value, fired) => put_raised(writer, *value, fired.as_slice()),
        Answer::Info(info) => put_info(writer, info),
        Answer::Show(rows) => put_show(writer, rows.as_slice()),
        Answer::Report(report) => put_report(writer, report),
        Answer::Refused(refusal) => put_refusal(writer, *refusal),
    }
}

/// Writes the member of every answer that is no refusal.
fn put_accepted(writer: &mut Writer) -> Result<(), AllocError> {
    writer.key("ok")?;
    writer.boolean(true)
}

fn put_value(writer: &mut Writer, value: u64) -> Result<(), AllocError> {
    put_accepted(writer)?;
    writer.key("value")?;
    writer.u64(value)
}

fn put_raised(writer: &mut Writer, value: u64, fired: &[u64]) -> Result<(), AllocError> {
    put_value(writer, value)?;
    put_array(writer, "fired", fired)
}

fn put_info(writer: &mut Writer, info: &Info) -> Result<(), AllocError> {
    put_accepted(writer)?;
    let file = [
        AnswerPart::Key("file"),
        AnswerPart::Name(&info.name),
        AnswerPart::Key("status"),
        AnswerPart::Status(info.status),
    ];
    put_all(writer, &file)?;
    put_array(writer, "fences", info.fences.as_slice())
}

fn put_show(writer: &mut Writer, rows: &[ShowRow]) -> Result<(), AllocError> {
    put_accepted(writer)?;
    put_array(writer, "rows", rows)
}

fn put_report(writer: &mut Writer, report: &Report) -> Result<(), AllocError> {
    put_accepted(writer)?;
    put_array(writer, "timelines", report.timelines.as_slice())?;
    put_array(writer, "files", report.files.as_slice())?;
    put_array(writer, "buffers", report.buffers.as_slice())
}

fn put_refusal(writer: &mut Writer, refusal: Refusal) -> Result<(), AllocError> {
    let error = [
        AnswerPart::Key("ok"),
        AnswerPart::Bool(false),
        AnswerPart::Key("error"),
        AnswerPart::BeginObject,
        AnswerPart::Key("number"),
        AnswerPart::Number(u64::from(refusal.number())),
        AnswerPart::Key("name"),
        AnswerPart::Text(refusal.name()),
    ];
    put_all(writer, &error)?;
    if let Refusal::Limit(kind) = refusal {
        writer.key("limit")?;
        writer.string(kind.word())?;
    }
    writer.end_object()
}
