//! The text of each answer, as `specs/Answer.antt` defines it.
ghost use Rattle.std.specs.Prelude.{◌≡◌, ◌+◌, ◌≤◌, ◌∷◌, ◌++◌, [], OnOk, OnErr, Err, codes, decimal, length};
ghost use Rattle.std.specs.Io.{StartsWith};
ghost use Rattle.point_core.specs.declared.refusal.Refusal.TheVariants.{Memory};
ghost use Rattle.std.specs.List.{flat_map};
ghost use Rattle.report_core.specs.Answer.{line_text, fired_text, driver_of, fence_text, info_line};
ghost use Rattle.report_core.specs.Answer.{refusal_text, details, value_line, text_of, first_line_of, rows_of};
ghost use Rattle.report_core.specs.LineEnd.{line_end};

use crate::line::{TEXT_LINE_BYTES, TextLine};
use crate::report::{report_text, show_text};
use crate::rows::{KIND_WIDTH, status_text};
use crate::table_item::push_each;
use command_core::{Answer, FenceRow, Info, Maker};
use itoa::Buffer;
use point_core::Refusal;

/// The most bytes of a driver's name, `sw_sync`.
const DRIVER_BYTES: usize = 7;

/// The most bytes of a refusal's details with their spaces and the line feed: a short word and a number.
const DETAILS_BYTES: usize = 32;

/// Appends the text of the answer of line `line` to `out`. Only a refusal shows the line's number, which counts from 1.
///
/// Fails only with Memory, and then leaves `out` as it was.
pub fn print(line: u32, answer: &Answer, out: &mut Vec<u8>) -> Result<(), Refusal>
    ensures ok { OnOk result (out.new.items ≡ out.old.items ++ text_of line answer.now) }
    ensures err { OnErr result ((result ≡ Err Memory) × (out.new.items ≡ out.old.items)) }
{
    let start = out.len();
    let pushed = push_answer(line, answer, out);
    if pushed.is_err() {
        out.truncate(start);
    }
    pushed
}

/// Appends the text of an answer to `out`.
///
/// Fails only with Memory. `out` then begins with its old bytes.
pub(crate) fn push_answer(line: u32, answer: &Answer, out: &mut Vec<u8>) -> Result<(), Refusal>
    ensures ok { OnOk result (out.new.items ≡ out.old.items ++ text_of line answer.now) }
    ensures err { OnErr result ((result ≡ Err Memory) × StartsWith out.new.items out.old.items) }
{
    let mut text = TextLine::new();
    put_first_line(&mut text, line, answer);
    text.push_to(out)?;
    push_rows(answer, out)?;
    Ok(())
}

/// Appends the lines of an answer that follow its first line.
fn push_rows(answer: &Answer, out: &mut Vec<u8>) -> Result<(), Refusal>
    ensures ok { OnOk result (out.new.items ≡ out.old.items ++ rows_of answer.now) }
    ensures err { OnErr result ((result ≡ Err Memory) × StartsWith out.new.items out.old.items) }
{
    match answer {
        Answer::Raised(_, fired) => push_fired(fired.as_slice(), out),
        Answer::Info(info) => push_each(info.fences.as_slice(), out),
        Answer::Show(rows) => show_text(rows.as_slice(), out),
        Answer::Report(report) => report_text(report, out),
        Answer::Done | Answer::Value(_) | Answer::Refused(_) => Ok(()),
    }
}

/// The first line of the text of an answer of line `line`, with its line feed.
///
/// Does not allocate.
pub fn first_line(line: u32, answer: &Answer) -> TextLine
    ensures line { result ≡ first_line_of line answer.now }
    ensures begins { StartsWith (text_of line answer.now) result }
{
    let mut text = TextLine::new();
    put_first_line(&mut text, line, answer);
    text
}

fn put_first_line(text: &mut TextLine, line: u32, answer: &Answer)
    requires empty { text.old ≡ [] }
    ensures { text.new ≡ first_line_of line answer.now }
{
    match answer {
        Answer::Done => text.put(b"ok\n"),
        Answer::Value(value) | Answer::Raised(value, _) => put_numbered(text, b"ok", *value),
        Answer::Info(info) => put_info(text, info),
        Answer::Show(rows) => put_numbered(text, b"ok", rows.as_slice().len() as u64),
        Answer::Report(report) => put_count(text, report.row_count()),
        Answer::Refused(refusal) => put_refusal(text, line, *refusal),
    }
}

/// The text of an answer that reports nothing but success.
///
/// Does not allocate.
pub fn done_line() -> TextLine
    ensures { result ≡ line_text (codes "ok" ∷ []) }
{
    let mut line = TextLine::new();
    line.put(b"ok\n");
    line
}

/// The text of an answer that is a number.
///
/// Does not allocate.
pub fn value_line(value: u64) -> TextLine
    ensures { result ≡ value_line value }
{
    let mut line = TextLine::new();
    put_numbered(&mut line, b"ok", value);
    line
}

/// The text of a refusal of line `line`.
///
/// Does not allocate.
pub fn refusal_line(line: u32, refusal: Refusal) -> TextLine
    ensures { result ≡ refusal_text line refusal }
{
    let mut text = TextLine::new();
    put_refusal(&mut text, line, refusal);
    text
}

fn put_refusal(text: &mut TextLine, line: u32, refusal: Refusal)
    requires empty { text.old ≡ [] }
    ensures { text.new ≡ refusal_text line refusal }
{
    text.put(b"err");
    text.put_number(u64::from(refusal.number()));
    text.put_word(refusal.name().as_bytes());
    put_details(text, line, refusal);
}

/// Puts the details of a refusal, which follow its name, and the line feed.
fn put_details(text: &mut TextLine, line: u32, refusal: Refusal)
    requires room { length text.old + DETAILS_BYTES ≤ TEXT_LINE_BYTES }
    ensures { text.new ≡ text.old ++ line_end (details line refusal) }
{
    match refusal {
        Refusal::Syntax | Refusal::LongLine => {
            text.put_word(b"line");
            text.put_number(u64::from(line));
        }
        Refusal::Limit(kind) => text.put_word(kind.word().as_bytes()),
        _ => {}
    }
    text.put(b"\n");
}

/// Puts a short word and a number, as a line.
fn put_numbered(line: &mut TextLine, word: &[u8], number: u64)
    requires empty { line.old ≡ [] }
    requires short { length word.now ≤ KIND_WIDTH }
    ensures { line.new ≡ line_text (word.now ∷ decimal number ∷ []) }
{
    line.put(word);
    line.put_number(number);
    line.put(b"\n");
}

/// Appends a line for each callback that fired.
fn push_fired(fired: &[u64], out: &mut Vec<u8>) -> Result<(), Refusal>
    ensures ok { OnOk result (out.new.items ≡ out.old.items ++ flat_map fired_text fired.now) }
    ensures err { OnErr result ((result ≡ Err Memory) × StartsWith out.new.items out.old.items) }
{
    for cookie in fired {
        push_callback(*cookie, out)?;
    }
    Ok(())
}

fn push_callback(cookie: u64, out: &mut Vec<u8>) -> Result<(), Refusal>
    ensures ok { OnOk result (out.new.items ≡ out.old.items ++ fired_text cookie) }
    ensures err { OnErr result ((result ≡ Err Memory) × StartsWith out.new.items out.old.items) }
{
    let mut line = TextLine::new();
    put_numbered(&mut line, b"fired", cookie);
    line.push_to(out)
}

/// Puts the line of the file: its name, its status and the number of its fences.
fn put_info(line: &mut TextLine, info: &Info)
    requires empty { line.old ≡ [] }
    ensures { line.new ≡ info_line info.now.name info.now.status (length info.now.fences) }
{
    line.put(b"ok");
    line.put_word(info.name.as_bytes());
    line.put_word(status_text(info.status));
    line.put_number(info.fences.as_slice().len() as u64);
    line.put(b"\n");
}

/// Appends the line of a fence to `out`: its timeline, driver, point and status.
///
/// Fails only with Memory. `out` then begins with its old bytes.
pub(crate) fn push_fence(fence: &FenceRow, out: &mut Vec<u8>) -> Result<(), Refusal>
    ensures ok { OnOk result (out.new.items ≡ out.old.items ++ fence_text fence.now) }
    ensures err { OnErr result ((result ≡ Err Memory) × StartsWith out.new.items out.old.items) }
{
    let mut line = TextLine::new();
    line.put(b"fence");
    line.put_word(fence.timeline.as_bytes());
    put_driver(&mut line, fence.driver);
    line.put_number(fence.point);
    line.put_word(status_text(fence.status));
    line.put(b"\n");
    line.push_to(out)
}

/// Puts a space and the driver's name.
fn put_driver(line: &mut TextLine, driver: Maker)
    requires room { length line.old + DRIVER_BYTES + 1 ≤ TEXT_LINE_BYTES }
    ensures text { line.new ≡ line.old ++ 32 ∷ driver_of driver }
    ensures len { length line.new ≤ length line.old + DRIVER_BYTES + 1 }
{
    match driver {
        Maker::SwSync => line.put_word(b"sw_sync"),
        Maker::Stub => line.put_word(b"stub"),
    }
}

/// Puts the line with the number of a report's rows, as `put_numbered` does.
fn put_count(line: &mut TextLine, count: u128)
    requires empty { line.old ≡ [] }
    ensures { line.new ≡ value_line count }
{
    line.put(b"ok");
    line.put_word(Buffer::new().format(count).as_bytes());
    line.put(b"\n");
}
