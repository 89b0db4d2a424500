//! Parses the words of the command line into an `Action`; prints help, the version or a usage error if there is none.
ghost use Rattle.std.specs.Prelude.{◌≡◌, ◌⊎◌, Err, IfErr, IfOk, IfSome, Some, [], ◌∷◌, map, string_bytes, true};
ghost use Rattle.clap.specs.Words.{fault_of, kind_of, subcommand_of, takes};
ghost use Rattle.point_core.specs.declared.refusal.Refusal.TheVariants.{Memory, Write as WriteFault};
ghost use Rattle.fencectl_core.specs.Asked.{EndsBy, IsAsked, IsFileOf, IsRunAlone, IsUsageFault, asked_by, asked_of, kind_status};
ghost use Rattle.fencectl_core.specs.Words.{fencectl};

use crate::action::Action;
use crate::arguments::matches_of;
use crate::asked::action_by;
use crate::color::Colors;
use crate::fault::FAULT;
use crate::meant::{advised, meant_by};
use crate::paint::painted;
use crate::status::ACCEPTED;
use crate::subcommands::RUN;
use clap::Error;
use clap::error::ErrorKind;
use point_core::Refusal;
use source_core::Input;
use std::alloc::Global;
use std::fs;
use std::rt::Files;

/// The last line of a report of wrong usage.
const MORE: &str = "For more information, try '--help'.";

/// The action that the words of the command line ask for; the first is the program's name. A lone word that is no subcommand
/// runs the script of that file, if there is one. Help and the version are printed here, and wrong usage is reported.
///
/// Fails with `Write` if that could not be printed, with `Memory` if memory was refused, and with `Limit` as `clients_of`.
pub(crate) fn action_of<'a>(
    rt: &(impl Print + Eprint + Files),
    alloc: Global,
    colors: Colors,
    words: &'a [String],
) -> Result<Action<'a>, Refusal>
    ensures asked { IfOk result (λ action. IfSome (asked_of action) (IsAsked (map string_bytes words.entry.now))) }
    // Words that the command line takes are no help, no wrong usage and no file.
    ensures taken { takes fencectl (map string_bytes words.entry.now) ≡ true
        → IfOk result (λ action. asked_of action
        ≡ Some (asked_by (subcommand_of fencectl (map string_bytes words.entry.now)))) }
    // The program ends with 2 after wrong usage, and with 0 after help and the version.
    ensures status { IfOk result (EndsBy (fault_of fencectl (map string_bytes words.entry.now))) }
    ensures refusals { IfErr result (IsUsageFault (map string_bytes words.entry.now)) }
{
    if is_run_alone(words) {
        return Ok(Action::Run(Input::StandardInput));
    }
    match matches_of(alloc, words) {
        Ok(matches) => action_by(alloc, &matches),
        Err(error) => action_instead(rt, alloc, colors, words, &error),
    }
}

/// Whether the one word after the program's own is `run`, which asks for the script of standard input: no table of options is
/// built for it.
fn is_run_alone(words: &[String]) -> bool
    ensures alone { result ≡ true → IsRunAlone (map string_bytes words.now) }
{
    match words {
        [_, word] => word.as_str() == RUN,
        _ => false,
    }
}

/// The action of words that the command line does not take.
fn action_instead<'a>(
    rt: &(impl Print + Eprint + Files),
    alloc: Global,
    colors: Colors,
    words: &'a [String],
    error: &Error,
) -> Result<Action<'a>, Refusal>
    ensures asked { IfOk result (λ action. IfSome (asked_of action) (λ asked.
        IsFileOf (map string_bytes words.entry.now) asked × (kind_of error.now ≡ ErrorKind.InvalidSubcommand))) }
    ensures memory { kind_of error.now ≡ ErrorKind.OutOfMemory → result ≡ Err Memory }
    ensures status { IfOk result (EndsBy (kind_of error.now ∷ [])) }
    ensures refusals { IfErr result (λ refusal. (refusal ≡ WriteFault) ⊎ (refusal ≡ Memory)) }
{
    if error.kind() == ErrorKind::InvalidSubcommand {
        if let [_, name] = words {
            if names_file(rt, name.as_str()) {
                return Ok(Action::Run(Input::File(name.as_str())));
            }
        }
    }
    Ok(Action::End(report_error(rt, alloc, colors, words, error)?))
}

/// Whether a word that is no subcommand is meant as a file: it has a dot or a slash, or there is a file or a folder of that name.
fn names_file(rt: &impl Files, word: &str) -> bool {
    word.contains('.') || word.contains('/') || fs::metadata(rt, word).is_ok()
}

/// Reports why words are not taken, or prints help or the version, and gives the status: 0 for help and version, 2 for wrong
/// usage.
///
/// Fails with `Write` if that could not be printed, and with `Memory` if memory was refused.
fn report_error(
    rt: &(impl Print + Eprint + Files),
    alloc: Global,
    colors: Colors,
    words: &[String],
    error: &Error,
) -> Result<u8, Refusal>
    ensures memory { kind_of error.now ≡ ErrorKind.OutOfMemory → result ≡ Err Memory }
    ensures status { IfOk result (λ status. status ≡ kind_status (kind_of error.now)) }
    ensures refusals { IfErr result (λ refusal. (refusal ≡ WriteFault) ⊎ (refusal ≡ Memory)) }
{
    if error.kind() == ErrorKind::OutOfMemory {
        return Err(Refusal::Memory);
    }
    match error.kind() {
        ErrorKind::InvalidSubcommand => report_word(rt, alloc, colors, words, error)?,
        _ => print_error(rt, alloc, colors, words, error)?,
    }
    Ok(status_of_kind(error.kind()))
}

/// Reports a first word that is no subcommand: what follows a file, or what the word may stand for.
fn report_word(
    rt: &(impl Print + Eprint + Files),
    alloc: Global,
    colors: Colors,
    words: &[String],
    error: &Error,
) -> Result<(), Refusal>
    ensures refusals { IfErr result (λ refusal. (refusal ≡ WriteFault) ⊎ (refusal ≡ Memory)) }
{
    if let [_, name, extra, ..] = words {
        if names_file(rt, name.as_str()) {
            return report_extra(rt, name.as_str(), extra.as_str());
        }
    }
    print_error(rt, alloc, colors, words, error)?;
    eprintln!(rt; "To run the script of a file, use 'fencectl run FILE'.").map_err(
        |_| Refusal::Write,
    )
}

/// Reports a word behind a file that is to be run.
fn report_extra(rt: &impl Eprint, file: &str, extra: &str) -> Result<(), Refusal>
    ensures refusals { IfErr result (λ refusal. refusal ≡ WriteFault) }
{
    let printed = if extra.starts_with('-') {
        eprintln!(rt;
            "error: an option needs its subcommand, as in 'fencectl run {extra} {file}'\n\n{MORE}"
        )
    } else {
        eprintln!(rt; "error: run takes one FILE, but '{extra}' follows\n\n{MORE}")
    };
    printed.map_err(|_| Refusal::Write)
}

fn status_of_kind(kind: ErrorKind) -> u8
    ensures { result ≡ kind_status kind }
{
    match kind {
        ErrorKind::DisplayHelp => ACCEPTED,
        ErrorKind::DisplayVersion => ACCEPTED,
        _ => FAULT,
    }
}

/// Prints what clap says to the stream that it belongs to, coloured if that stream is. A mistyped word gets a tip.
fn print_error(
    rt: &(impl Print + Eprint),
    alloc: Global,
    colors: Colors,
    words: &[String],
    error: &Error,
) -> Result<(), Refusal>
    ensures refusals { IfErr result (λ refusal. (refusal ≡ WriteFault) ⊎ (refusal ≡ Memory)) }
{
    let text = format!(in alloc; "{error}")?;
    let text = match meant_by(alloc, words, error.kind())? {
        Some(word) => advised(alloc, text.as_str(), word)?,
        None => text,
    };
    let printed = match (error.use_stderr(), colors.output, colors.errors) {
        (true, _, true) => {
            let text = painted(alloc, text.as_str())?;
            eprint!(rt; "{text}")
        }
        (true, _, false) => eprint!(rt; "{text}"),
        (false, true, _) => {
            let text = painted(alloc, text.as_str())?;
            print!(rt; "{text}")
        }
        (false, false, _) => print!(rt; "{text}"),
    };
    printed.map_err(|_| Refusal::Write)
}
