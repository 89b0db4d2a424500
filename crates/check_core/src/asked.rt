//! Which answers a script expects. `update.rt` checks that a rewritten script expects the answers that an update has to.
ghost use Rattle.std.specs.Prelude.{◌≡◌, ◌||◌, ◌++◌, ◌⊎◌, IfOk, IfErr, OnOk};
ghost use Rattle.point_core.specs.declared.refusal.Refusal.TheVariants.{Torn, Memory};
ghost use Rattle.line_core.specs.Script.{lines_of};
ghost use Rattle.check_core.specs.Asked.{asked, asked_at, asked_in};
ghost use Rattle.check_core.specs.Expected.{expected_after, is_asked};

use crate::expected::is_expectation;
use line_core::{body_of, first_line};
use point_core::Refusal;
use std::alloc::{AllocError, Global};

/// Checks that a rewritten script expects the answers that the script expects, or each if `all` are to be expected.
///
/// Fails with `Torn` if it expects others, and with `Memory`.
pub(crate) fn compare_asked(
    alloc: Global,
    script: &[u8],
    all: bool,
    text: &[u8],
) -> Result<(), Refusal>
    ensures same { OnOk result (asked text.now ≡ asked_in all (lines_of script.now)) }
    ensures refusals { IfErr result (λ refusal. (refusal ≡ Torn) ⊎ (refusal ≡ Memory)) }
{
    let wanted = asked(alloc, script, all)?;
    let found = asked(alloc, text, false)?;
    if found.as_slice() == wanted.as_slice() {
        Ok(())
    } else {
        Err(Refusal::Torn)
    }
}

/// For each line that has an answer, in order, whether the answer is expected.
fn asked(alloc: Global, script: &[u8], all: bool) -> Result<Vec<bool>, AllocError>
    ensures asked { IfOk result (λ asked. asked.items ≡ asked_in all (lines_of script.now)) }
{
    let mut asked = Vec::new(alloc);
    push_asked(script, all, &mut asked)?;
    Ok(asked)
}

fn push_asked(script: &[u8], all: bool, asked: &mut Vec<bool>) -> Result<(), AllocError>
    ensures asked { OnOk result (asked.new.items ≡ asked.old.items ++ asked_in all (lines_of script.now)) }
{
    let mut rest = script;
    while let Some((line, more)) = first_line(rest) {
        push_answer(line, more, all, asked)?;
        rest = more;
    }
    push_answer(rest, b"", all, asked)?;
    Ok(())
}

/// Adds whether the answer of a line is expected, if the line has one.
fn push_answer(
    line: &[u8],
    below: &[u8],
    all: bool,
    asked: &mut Vec<bool>,
) -> Result<(), AllocError>
    ensures asked { OnOk result (asked.new.items ≡ asked.old.items ++ asked_at all line.now (lines_of below.now)) }
{
    if body_of(line).is_none() {
        return Ok(());
    }
    let asks = asks_any(all, below);
    asked.push(asks)?;
    Ok(())
}

fn asks_any(all: bool, below: &[u8]) -> bool
    ensures { result ≡ (all || is_asked (expected_after (lines_of below.now))) }
{
    all || asks(below)
}

/// Whether a note before the next line that has an answer expects a line.
fn asks(below: &[u8]) -> bool
    ensures { result ≡ is_asked (expected_after (lines_of below.now)) }
{
    let mut rest = below;
    while let Some((line, more)) = first_line(rest) {
        if is_expectation(line) {
            return true;
        }
        if body_of(line).is_some() {
            return false;
        }
        rest = more;
    }
    is_expectation(rest)
}
