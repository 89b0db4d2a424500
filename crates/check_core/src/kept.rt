//! The lines of a script that an update keeps: all but notes that expect a line of an answer. `update.rt` checks that a
//! rewritten script has them.
ghost use Rattle.std.specs.Prelude.{◌≡◌, ◌∷◌, ◌++◌, ◌⊎◌, flat_map, drop, IfOk, IfErr, OnOk};
ghost use Rattle.point_core.specs.declared.refusal.Refusal.TheVariants.{Torn, Memory};
ghost use Rattle.line_core.specs.Script.{lines_of};
ghost use Rattle.check_core.specs.Kept.{kept, kept_line};

use crate::expected::is_expectation;
use line_core::first_line;
use point_core::Refusal;
use std::alloc::{AllocError, Global};

/// Checks that a rewritten script has the lines that an update of the script keeps.
///
/// Fails with `Torn` if one was lost, added or changed, and with `Memory`.
pub(crate) fn compare_kept(alloc: Global, script: &[u8], text: &[u8]) -> Result<(), Refusal>
    ensures same { OnOk result (kept text.now ≡ kept script.now) }
    ensures refusals { IfErr result (λ refusal. (refusal ≡ Torn) ⊎ (refusal ≡ Memory)) }
{
    let before = kept(alloc, script)?;
    let after = kept(alloc, text)?;
    if without_first(after.as_slice()) == without_first(before.as_slice()) {
        Ok(())
    } else {
        Err(Refusal::Torn)
    }
}

/// The lines that are kept, each behind a line feed.
fn kept(alloc: Global, script: &[u8]) -> Result<Vec<u8>, AllocError>
    ensures kept { IfOk result (λ text. text.items ≡ flat_map kept_line (lines_of script.now)) }
{
    let mut text = Vec::new(alloc);
    push_kept(script, &mut text)?;
    Ok(text)
}

fn push_kept(script: &[u8], text: &mut Vec<u8>) -> Result<(), AllocError>
    ensures kept { OnOk result (text.new.items ≡ text.old.items ++ flat_map kept_line (lines_of script.now)) }
{
    let mut rest = script;
    while let Some((line, more)) = first_line(rest) {
        push_line(line, text)?;
        rest = more;
    }
    push_line(rest, text)?;
    Ok(())
}

fn push_line(line: &[u8], text: &mut Vec<u8>) -> Result<(), AllocError>
    ensures kept { OnOk result (text.new.items ≡ text.old.items ++ kept_line line.now) }
{
    if is_expectation(line) {
        return Ok(());
    }
    push_begun(line, text)?;
    Ok(())
}

fn push_begun(line: &[u8], text: &mut Vec<u8>) -> Result<(), AllocError>
    ensures begun { OnOk result (text.new.items ≡ text.old.items ++ 10 ∷ line.now) }
{
    text.extend_from_slice(b"\n")?;
    text.extend_from_slice(line)?;
    Ok(())
}

/// The text without its first byte: no line feed is before the first line of a script.
fn without_first(text: &[u8]) -> &[u8]
    ensures { result.now ≡ drop 1 text.now }
{
    match text.split_first() {
        Some((_, rest)) => rest,
        None => text,
    }
}
