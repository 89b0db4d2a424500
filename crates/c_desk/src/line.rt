//! Runs one line of a script for a C program, and stores its answer's text.
ghost use Rattle.std.specs.Prelude.{◌≡◌, ◌≤◌, true, false, length, MatchOption};
ghost use Rattle.c_desk.specs.Handle.{is_open};
ghost use Rattle.c_desk.specs.Line.{body_of_bytes, command_of, has_rows, answer_text, IsReporting, IsLineCall, StoresText};

use crate::answers::{number, refused};
use crate::handle::DeskHandle;
use command_core::{Answer, Command};
use line_core::{Body, body_of, first_line};
use point_core::Refusal;
use report_core::{TEXT_LINE_BYTES, TextLine, done_line, print, refusal_line, value_line};
use std::alloc::Global;

/// The line number in the text of a refusal: in a script of only this line it is line 1.
pub const LINE: u32 = 1;

/// The least room of an answer: the text of every answer without rows fits, with its NUL.
pub const ANSWER_ROOM: usize = 96;

const _: () = prove!(TEXT_LINE_BYTES < ANSWER_ROOM);

/// The body of the bytes, which are one line, with or without its line feed.
pub fn body_of_bytes(bytes: &[u8]) -> Option<Body>
    ensures { result ≡ body_of_bytes bytes.now }
{
    match first_line(bytes) {
        None => body_of(bytes),
        Some((line, rest)) => {
            if rest.is_empty() {
                body_of(line)
            } else {
                Some(Body::Bad(Refusal::Syntax))
            }
        }
    }
}

/// Answers a line, and stores the answer.
pub fn answer_line(
    alloc: Global,
    desk: &mut DeskHandle,
    body: Body,
    out: &mut [u8],
    count: &mut usize,
) -> i32
    requires opened { is_open desk.old ≡ true }
    requires room { ANSWER_ROOM ≤ length out.old }
    ensures { IsLineCall desk.old desk.new body out.old out.new count.new result }
{
    let answer = desk.ask(command_of(body));
    report(alloc, &answer, out, count)
}

fn command_of(body: Body) -> Result<Command, Refusal>
    ensures { result ≡ command_of body }
{
    match body {
        Body::Cmd(command) => Ok(command),
        Body::Bad(refusal) => Err(refusal),
    }
}

/// Stores the text of the answer, and returns its number. If the answer has rows and their text can't be allocated,
/// `Memory` is stored in its place.
fn report(alloc: Global, answer: &Answer, out: &mut [u8], count: &mut usize) -> i32
    requires room { ANSWER_ROOM ≤ length out.old }
    ensures { IsReporting answer.now out.old out.new count.new result }
{
    match one_line(answer) {
        Some(text) => {
            store_text(text.as_bytes(), out, count);
            number(answer)
        }
        None => report_rows(alloc, answer, out, count),
    }
}

/// The text of an answer that has no rows.
fn one_line(answer: &Answer) -> Option<TextLine>
    ensures { MatchOption result (has_rows answer.now ≡ true) (λ text.
        (has_rows answer.now ≡ false) × (text ≡ answer_text answer.now)) }
{
    match answer {
        Answer::Done => Some(done_line()),
        Answer::Value(value) => Some(value_line(*value)),
        Answer::Raised(value, _) => Some(value_line(*value)),
        Answer::Refused(refusal) => Some(refusal_line(LINE, *refusal)),
        Answer::Info(_) => None,
        Answer::Show(_) => None,
        Answer::Report(_) => None,
    }
}

fn report_rows(alloc: Global, answer: &Answer, out: &mut [u8], count: &mut usize) -> i32
    requires room { ANSWER_ROOM ≤ length out.old }
    requires rows { has_rows answer.now ≡ true }
    ensures { IsReporting answer.now out.old out.new count.new result }
{
    let mut text = Vec::new(alloc);
    match print(LINE, answer, &mut text) {
        Ok(()) => {
            store_text(&text, out, count);
            number(answer)
        }
        Err(refusal) => {
            store_text(refusal_line(LINE, refusal).as_bytes(), out, count);
            refused(refusal)
        }
    }
}

/// Stores a text, as much as there is room for with a NUL after it, and its whole length.
pub fn store_text(text: &[u8], out: &mut [u8], count: &mut usize)
    requires room { 1 ≤ length out.old }
    ensures { StoresText text.now out.old out.new count.new }
{
    let fits = text.len().min(out.len() - 1);
    out[..fits].copy_from_slice(&text[..fits]);
    out[fits] = 0;
    *count = text.len();
}
