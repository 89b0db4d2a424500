//! Updates files: reads each, rewrites its script, and replaces the file. `fencectl check --update` calls it.
ghost use Rattle.std.specs.Prelude.{◌≡◌, ◌⊎◌, ◌+◌, ◌<◌, ◌≤◌, ◌^◌, [], IfOk, OnOk, IfErr, All, length, string_bytes};
ghost use Rattle.std.specs.Io.KnownBytes.{Appends};
ghost use Rattle.std.specs.List.{list_any};
ghost use Rattle.line_core.specs.declared.script.TheConstants.{SCRIPT_BYTES};
ghost use Rattle.point_core.specs.declared.refusal.Refusal.TheVariants.{Write as WriteFault, Memory};
ghost use Rattle.source_core.specs.FileBytes.{HasFront, WasGiven};
ghost use Rattle.check_core.specs.Update.{HasReported, IsUpdate, Updates, failure_text, is_failed, one_if_written, update_text, updates_text, update_totals, verdict_of_updates, written_count};

use crate::outcome::Verdict;
use crate::update::updated;
use itoa::Buffer;
use line_core::SCRIPT_BYTES;
use point_core::Refusal;
use report_core::write_whole;
use source_core::{read_file, replace_file, reported};
use std::alloc::{AllocError, Global};
use std::io::Write;
use std::rt::Files;

/// The result of updating a file.
#[derive(Clone, Copy)]
pub enum Update {
    /// The file is unchanged.
    Same,
    Written,
    Failed(Refusal),
}

/// Replaces the script of each of these files by `updated`. On `errors` it reports the files that changed, the files that could
/// not be updated, and the counts of both; why one can't be read or written is reported on standard error.
///
/// Fails with `Write` if a write to `errors` failed, and with `Memory` if memory was refused, also to a command of a script:
/// then the files before that one are updated, and it and those after it are as they were.
pub fn update_scripts<R: Files + Eprint + AllocGlobal, W: Write>(
    rt: &R,
    names: &[String],
    errors: &mut W,
) -> Result<Verdict, Refusal>
    ensures reported { IfOk result (HasReported (HasFront R.File.remaining (SCRIPT_BYTES + 1)) (WasGiven R.File.contents)
        (λ name. string_bytes name) names.now (W.contents errors.old) (W.contents errors.new)) }
    ensures refusals { IfErr result (λ refusal. (refusal ≡ WriteFault) ⊎ (refusal ≡ Memory)) }
{
    let mut updates = Vec::new(rt.alloc());
    update_each(rt, names, &mut updates, errors)?;
    let updates = updates.as_slice();
    report_updates(rt.alloc(), names.len(), written_count(updates), errors)?;
    Ok(verdict_of_updates(updates))
}

/// Updates each file, reports it, and appends the result.
fn update_each<R: Files + Eprint + AllocGlobal, W: Write>(
    rt: &R,
    names: &[String],
    updates: &mut Vec<Update>,
    errors: &mut W,
) -> Result<(), Refusal>
    requires none { updates.old.items ≡ [] }
    ensures count { OnOk result (length updates.new.items ≡ length names.now) }
    ensures each { OnOk result (All
        (IsUpdate (HasFront R.File.remaining (SCRIPT_BYTES + 1)) (WasGiven R.File.contents)) updates.new.items) }
    ensures reported { OnOk result (Appends (W.contents errors.old) (W.contents errors.new)
        (updates_text (λ name. string_bytes name) names.now updates.new.items)) }
    ensures refusals { IfErr result (λ refusal. (refusal ≡ WriteFault) ⊎ (refusal ≡ Memory)) }
{
    for name in names {
        let update = update_script(rt, name.as_str())?;
        report_update(rt.alloc(), name.as_str(), update, errors)?;
        updates.push(update).map_err(|_| Refusal::Memory)?;
    }
    Ok(())
}

fn update_script<R: Files + Eprint + AllocGlobal>(rt: &R, name: &str) -> Result<Update, Refusal>
    ensures update { IfOk result
        (IsUpdate (HasFront R.File.remaining (SCRIPT_BYTES + 1)) (WasGiven R.File.contents)) }
    ensures memory { IfErr result (λ refusal. refusal ≡ Memory) }
{
    match reported(rt, name, read_file(rt, name, SCRIPT_BYTES as u64)) {
        Ok(script) => rewrite_file(rt, name, script.as_slice()),
        Err(_) => Ok(Update::Failed(Refusal::Read)),
    }
}

fn rewrite_file<R: Files + Eprint + AllocGlobal>(
    rt: &R,
    name: &str,
    script: &[u8],
) -> Result<Update, Refusal>
    requires front { HasFront R.File.remaining (SCRIPT_BYTES + 1) script.now }
    ensures update { IfOk result
        (IsUpdate (HasFront R.File.remaining (SCRIPT_BYTES + 1)) (WasGiven R.File.contents)) }
    ensures memory { IfErr result (λ refusal. refusal ≡ Memory) }
{
    match updated(rt.alloc(), script) {
        Ok(text) => Ok(put_text(rt, name, script, text.as_slice())),
        Err(Refusal::Memory) => Err(Refusal::Memory),
        Err(refusal) => Ok(Update::Failed(refusal)),
    }
}

/// Replaces the script by its update.
fn put_text<R: Files + Eprint + AllocGlobal>(
    rt: &R,
    name: &str,
    script: &[u8],
    text: &[u8],
) -> Update
    requires front { HasFront R.File.remaining (SCRIPT_BYTES + 1) script.now }
    requires updates { Updates script.now text.now }
    ensures update { IsUpdate (HasFront R.File.remaining (SCRIPT_BYTES + 1)) (WasGiven R.File.contents) result }
{
    if text == script {
        return Update::Same;
    }
    match reported(rt, name, replace_file(rt, name, text)) {
        Ok(()) => Update::Written,
        Err(_) => Update::Failed(Refusal::Write),
    }
}

/// How many of the files were written.
fn written_count(updates: &[Update]) -> u64
    ensures { result ≡ written_count updates.now }
{
    let mut written = 0;
    for update in updates {
        written += update.one_if_written();
    }
    written
}

fn verdict_of_updates(updates: &[Update]) -> Verdict
    ensures { result ≡ verdict_of_updates updates.now }
{
    if some_failed(updates) {
        Verdict::Failed
    } else {
        Verdict::Passed
    }
}

fn some_failed(updates: &[Update]) -> bool
    ensures { result ≡ list_any is_failed updates.now }
{
    updates.iter().any(|update| update.is_failed())
}

impl Update {
    /// 1 if the file was written, else 0.
    fn one_if_written(self) -> u64
        ensures one { result ≡ one_if_written self }
        ensures few { result ≤ 1 }
    {
        match self {
            Update::Written => 1,
            Update::Same | Update::Failed(_) => 0,
        }
    }

    fn is_failed(self) -> bool
        ensures { result ≡ is_failed self }
    {
        match self {
            Update::Same | Update::Written => false,
            Update::Failed(_) => true,
        }
    }
}

/// Writes the line that reports the update of a file, by one write. An unchanged file has no line.
fn report_update<W: Write>(
    alloc: Global,
    name: &str,
    update: Update,
    errors: &mut W,
) -> Result<(), Refusal>
    ensures ok { OnOk result (Appends (W.contents errors.old) (W.contents errors.new) (update_text name.now update)) }
    ensures refusals { IfErr result (λ refusal. (refusal ≡ WriteFault) ⊎ (refusal ≡ Memory)) }
{
    let mut text = Vec::new(alloc);
    push_update(name, update, &mut text)?;
    write_whole(errors, text.as_slice())
}

fn push_update(name: &str, update: Update, text: &mut Vec<u8>) -> Result<(), AllocError>
    requires none { text.old.items ≡ [] }
    ensures text { OnOk result (text.new.items ≡ update_text name.now update) }
{
    match update {
        Update::Same => Ok(()),
        Update::Written => {
            text.extend_from_slice(name.as_bytes())?;
            text.extend_from_slice(b": updated\n")
        }
        Update::Failed(refusal) => push_failure(name, refusal, text),
    }
}

fn push_failure(name: &str, refusal: Refusal, text: &mut Vec<u8>) -> Result<(), AllocError>
    requires none { text.old.items ≡ [] }
    ensures text { OnOk result (text.new.items ≡ failure_text name.now refusal) }
{
    let mut number = Buffer::new();
    text.extend_from_slice(name.as_bytes())?;
    text.extend_from_slice(b": not updated: ")?;
    text.extend_from_slice(number.format(refusal.number()).as_bytes())?;
    text.extend_from_slice(b" ")?;
    text.extend_from_slice(refusal.name().as_bytes())?;
    text.extend_from_slice(b"\n")?;
    Ok(())
}

/// Writes the line of counts, by one write.
fn report_updates<W: Write>(
    alloc: Global,
    files: usize,
    written: u64,
    errors: &mut W,
) -> Result<(), Refusal>
    requires files { files < 2 ^ 64 }
    ensures ok { OnOk result (Appends (W.contents errors.old) (W.contents errors.new) (update_totals files written)) }
    ensures refusals { IfErr result (λ refusal. (refusal ≡ WriteFault) ⊎ (refusal ≡ Memory)) }
{
    let mut text = Vec::new(alloc);
    push_totals(files as u64, written, &mut text)?;
    write_whole(errors, text.as_slice())
}

fn push_totals(files: u64, written: u64, text: &mut Vec<u8>) -> Result<(), AllocError>
    requires none { text.old.items ≡ [] }
    ensures text { OnOk result (text.new.items ≡ update_totals files written) }
{
    let mut digits = Buffer::new();
    text.extend_from_slice(b"files: ")?;
    text.extend_from_slice(digits.format(files).as_bytes())?;
    text.extend_from_slice(b", updated: ")?;
    text.extend_from_slice(digits.format(written).as_bytes())?;
    text.extend_from_slice(b"\n")?;
    Ok(())
}
