//! Rewrites a script so that it expects its answers, and checks the result before it is returned: so a returned script
//! passes, expects the answers that it should, and keeps the other lines of the script, whatever `Rewriter` does. A text that
//! is too long is checked too, so that Limit is answered only for an update that no script has room for.
ghost use Rattle.std.specs.Prelude.{◌≡◌, ◌⊎◌, ◌<◌, ◌≤◌, true, false, length, IfOk, OnOk, IfErr};
ghost use Rattle.point_core.specs.declared.refusal.Refusal.TheVariants.{Limit, Torn, Memory};
ghost use Rattle.point_core.specs.declared.refusal.LimitKind.TheVariants.{Script};
ghost use Rattle.line_core.specs.declared.script.TheConstants.{SCRIPT_BYTES};
ghost use Rattle.check_core.specs.Asked.{asked, asked_by_update, expects};
ghost use Rattle.check_core.specs.Check.{AnswersAsExpected};
ghost use Rattle.check_core.specs.Kept.{kept};
ghost use Rattle.check_core.specs.Update.{IsTooLongToUpdate, Passes, Updates};

use crate::asked::compare_asked;
use crate::checker::Checker;
use crate::expected::is_expectation;
use crate::form::{CheckForm, CheckPlace};
use crate::kept::compare_kept;
use crate::rewriter::Rewriter;
use crate::script_text::ScriptText;
use line_core::{SCRIPT_BYTES, first_line};
use point_core::{LimitKind, Refusal};
use std::alloc::{AllocError, Global};

/// Rewrites the expected lines of a script to its answers. All other lines are unchanged. A command without an expectation gets
/// none, unless the script expects nothing at all: then each answer is expected. Line numbers in answers are the new script's.
/// The new script is checked before it is returned.
///
/// Fails with `Limit` if the script or the new one has more than `SCRIPT_BYTES` bytes, with `Memory` if memory was refused,
/// also to a command of the script, and with `Torn` if the new script was not shown to be an update: memory was refused to a
/// command of the new script, it has more lines than 32 bits can number, or `Rewriter` has an error.
pub fn updated(alloc: Global, script: &[u8]) -> Result<Vec<u8>, Refusal>
    ensures updates { IfOk result (λ text. Updates script.now text.items) }
    ensures limit { IfErr result (λ refusal. refusal ≡ Limit Script → IsTooLongToUpdate script.now) }
    ensures refusals { IfErr result (λ refusal.
        (refusal ≡ Limit Script) ⊎ (refusal ≡ Torn) ⊎ (refusal ≡ Memory)) }
{
    if is_too_long(script) {
        return Err(Refusal::Limit(LimitKind::Script));
    }
    let mut text = ScriptText::new(alloc);
    rewrite(alloc, script, &mut text)?;
    check_text(alloc, text.bytes.as_slice())?;
    Ok(text.bytes)
}

/// Whether a text is longer than a script may be.
fn is_too_long(text: &[u8]) -> bool
    ensures long { result ≡ true → SCRIPT_BYTES < length text.now }
    ensures fits { result ≡ false → length text.now ≤ SCRIPT_BYTES }
{
    text.len() > SCRIPT_BYTES
}

fn rewrite(alloc: Global, script: &[u8], text: &mut ScriptText) -> Result<(), Refusal>
    ensures asked { OnOk result (asked text.new.bytes.items ≡ asked_by_update script.now) }
    ensures kept { OnOk result (kept text.new.bytes.items ≡ kept script.now) }
    ensures refusals { IfErr result (λ refusal. (refusal ≡ Torn) ⊎ (refusal ≡ Memory)) }
{
    let fills = !expects(script);
    let mut rewriter = Rewriter::new(alloc, fills);
    let rewritten = rewrite_lines(&mut rewriter, script, text);
    // For the proof: what a call drops is taken apart once, and not here.
    drop(rewriter);
    rewritten?;
    compare_asked(alloc, script, fills, text.bytes.as_slice())?;
    compare_kept(alloc, script, text.bytes.as_slice())
}

/// Writes the new script to an empty text. Its last line lacks its line feed if the script's last line does.
fn rewrite_lines(
    rewriter: &mut Rewriter,
    script: &[u8],
    text: &mut ScriptText,
) -> Result<(), Refusal>
    ensures memory { IfErr result (λ refusal. refusal ≡ Memory) }
{
    let mut rest = script;
    for _ in 0..script.len() {
        let Some((line, more)) = first_line(rest) else {
            break;
        };
        rewriter.take(line, text)?;
        rest = more;
    }
    if rest.is_empty() {
        return Ok(rewriter.end(text)?);
    }
    rewriter.take(rest, text)?;
    rewriter.end(text)?;
    text.bytes.pop();
    Ok(())
}

/// Whether a note of the script expects a line.
fn expects(script: &[u8]) -> bool
    ensures { result ≡ expects script.now }
{
    let mut rest = script;
    while let Some((line, more)) = first_line(rest) {
        if is_expectation(line) {
            return true;
        }
        rest = more;
    }
    is_expectation(rest)
}

/// Checks that the answers of the new script are as its notes expect, and that it is no longer than a script may be.
fn check_text(alloc: Global, text: &[u8]) -> Result<(), Refusal>
    ensures passes { OnOk result (Passes text.now) }
    ensures limit { IfErr result (λ refusal.
        refusal ≡ Limit Script → AnswersAsExpected text.now × (SCRIPT_BYTES < length text.now)) }
    ensures refusals { IfErr result (λ refusal.
        (refusal ≡ Limit Script) ⊎ (refusal ≡ Torn) ⊎ (refusal ≡ Memory)) }
{
    let differing = differences(alloc, text)?;
    if differing > 0 {
        return Err(Refusal::Torn);
    }
    if is_too_long(text) {
        return Err(Refusal::Limit(LimitKind::Script));
    }
    Ok(())
}

/// How many answers of a text differ from what its notes expect. The text may be longer than a script.
fn differences(alloc: Global, text: &[u8]) -> Result<u64, Refusal>
    ensures answers { IfOk result (λ differences. differences ≡ 0 → AnswersAsExpected text.now) }
    ensures refusals { IfErr result (λ refusal. (refusal ≡ Torn) ⊎ (refusal ≡ Memory)) }
{
    let place = CheckPlace {
        name: "",
        form: CheckForm::Counts,
    };
    let mut checker = Checker::new(alloc, &place);
    let checked = checker.take_text(text, &mut Vec::new(alloc));
    let tally = checker.tally;
    // For the proof: what a call drops is taken apart once, and not in each arm.
    drop(checker);
    match checked {
        Ok(()) => Ok(tally.differing),
        Err(Refusal::Torn) => Err(Refusal::Torn),
        // Nothing is written in this form, so memory was refused.
        Err(_) => Err(Refusal::Memory),
    }
}
