//! Reports a script that is no plan: the line, and why. `exploring.rt` calls `report_no_plan`.
ghost use Rattle.std.specs.Prelude.{◌≡◌, IfOk};

use crate::fault::FAULT;
use crate::meant::meant_among;
use explore_report::{Cause, Mistake};
use line_core::{Body, RawLine, body_of, first_line, strip_prefix, without_spaces};
use point_core::Refusal;
use reason_core::{NoteLook, NotePlace, explain_bad_line};
use std::alloc::Global;

/// What an explanation of the first line begins with.
const FIRST_LINE: &[u8] = b"line 1: ";

/// Reports why a script is no plan. A line that is no command gets the reason that `explain` gives, and one that is no directive the
/// directive that it may stand for.
pub(crate) fn report_no_plan(
    rt: &HostRuntime,
    name: &str,
    script: &[u8],
    mistake: &Mistake,
) -> Result<u8, Refusal>
    ensures status { IfOk result (λ status. status ≡ 2) }
{
    let number = mistake.line;
    let reason = reason_of(rt.alloc(), line_at(script, number), mistake.cause)?;
    eprintln!(rt; "{name}:{number}: {reason}").map_err(|_| Refusal::Write)?;
    Ok(FAULT)
}

/// The line of that number, from 1.
fn line_at(script: &[u8], number: usize) -> &[u8] {
    let mut rest = script;
    for _ in 1..number {
        if let Some((_, more)) = first_line(rest) {
            rest = more;
        }
    }
    match first_line(rest) {
        Some((line, _)) => line,
        None => rest,
    }
}

fn reason_of(alloc: Global, line: &[u8], cause: Cause) -> Result<String, Refusal> {
    match cause {
        Cause::NoCommand => no_command(alloc, line),
        Cause::NoDirective => no_directive(alloc, line, cause),
        _ => Ok(format!(in alloc; "{cause}")?),
    }
}

/// Why a line is no command.
fn no_command(alloc: Global, line: &[u8]) -> Result<String, Refusal> {
    let refusal = match body_of(line) {
        Some(Body::Bad(refusal)) => refusal,
        _ => Refusal::Syntax,
    };
    let place = NotePlace {
        line: 1,
        look: NoteLook::Plain,
    };
    let mut note = Vec::new(alloc);
    explain_bad_line(
        alloc,
        &place,
        &RawLine::new(1, line, line.len()),
        refusal,
        &mut note,
    )?;
    let reason = match note.as_slice() {
        [text @ .., b'\n'] => strip_prefix(text, FIRST_LINE).unwrap_or(text),
        text => text,
    };
    Ok(String::from_utf8_lossy(alloc, reason)?)
}

/// The directive that a line may stand for, of those that the cause lists, or else the cause.
fn no_directive(alloc: Global, line: &[u8], cause: Cause) -> Result<String, Refusal> {
    let listed = format!(in alloc; "{cause}")?;
    let reason = match meant_among(alloc, first_word(line), listed.as_str())? {
        Some(directive) => {
            format!(in alloc; "there is no such directive; did you mean {directive}?")?
        }
        None => format!(in alloc; "{listed}")?,
    };
    Ok(reason)
}

/// The first word of a line, if it is text.
fn first_word(line: &[u8]) -> &str {
    match str::from_utf8(without_spaces(line)) {
        Ok(text) => text.split(' ').next().unwrap_or(text),
        Err(_) => "",
    }
}
