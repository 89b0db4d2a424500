//! Finds the subcommand, the option or the directive that a mistyped word may stand for. `usage.rt` adds it to what clap says, and
//! `no_plan.rt` names the directive.

use crate::subcommands::{Argument, ArgumentForm, Subcommand, subcommands};
use clap::error::ErrorKind;
use std::alloc::{AllocError, Global};
use strsim::osa_distance;

/// A word that differs in one letter is meant by words of at least this length, in two by words of twice that, and so on.
const LETTERS: usize = 3;

const DASHES: &str = "--";

/// What a mistyped word may stand for.
#[derive(Clone, Copy)]
pub(crate) enum Meant {
    Subcommand(&'static str),
    Option(&'static str),
}

/// The subcommand that the first word after the program's own may stand for, or the option that one of the others may, by the
/// kind of mistake.
pub(crate) fn meant_by(
    alloc: Global,
    words: &[String],
    kind: ErrorKind,
) -> Result<Option<Meant>, AllocError> {
    let [_, word, rest @ ..] = words else {
        return Ok(None);
    };
    match kind {
        ErrorKind::InvalidSubcommand => meant_subcommand(alloc, word.as_str()),
        ErrorKind::UnknownArgument => match subcommand_named(word.as_str()) {
            Some(subcommand) => meant_option(alloc, subcommand, rest),
            None => Ok(None),
        },
        _ => Ok(None),
    }
}

fn subcommand_named(word: &str) -> Option<&'static Subcommand> {
    for subcommand in subcommands() {
        if subcommand.word == word {
            return Some(subcommand);
        }
    }
    None
}

fn meant_subcommand(alloc: Global, word: &str) -> Result<Option<Meant>, AllocError> {
    let mut least = least_of(word);
    let mut found = None;
    for subcommand in subcommands() {
        let letters = osa_distance(alloc, word, subcommand.word)?;
        if letters < least {
            least = letters;
            found = Some(Meant::Subcommand(subcommand.word));
        }
    }
    Ok(found)
}

/// The option that the first long one that is not the subcommand's may stand for.
fn meant_option(
    alloc: Global,
    subcommand: &Subcommand,
    words: &[String],
) -> Result<Option<Meant>, AllocError> {
    for word in words {
        if let Some(name) = name_of(word.as_str()) {
            if !has_option(subcommand, name) {
                return nearest_option(alloc, subcommand, name);
            }
        }
    }
    Ok(None)
}

/// The name in `--NAME` or `--NAME=VALUE`.
fn name_of(word: &str) -> Option<&str> {
    let text = word.strip_prefix(DASHES)?;
    text.split('=').next()
}

fn has_option(subcommand: &Subcommand, name: &str) -> bool {
    for argument in subcommand.arguments {
        if is_option(argument) && argument.name == name {
            return true;
        }
    }
    name.is_empty() || name == "help"
}

fn is_option(argument: &Argument) -> bool {
    match argument.form {
        ArgumentForm::Flag | ArgumentForm::Option(_) | ArgumentForm::Output(_) => true,
        ArgumentForm::File | ArgumentForm::Paths | ArgumentForm::Number(_) => false,
    }
}

fn nearest_option(
    alloc: Global,
    subcommand: &Subcommand,
    name: &str,
) -> Result<Option<Meant>, AllocError> {
    let mut least = least_of(name);
    let mut found = None;
    for argument in subcommand.arguments {
        let letters = osa_distance(alloc, name, argument.name)?;
        if is_option(argument) && letters < least {
            least = letters;
            found = Some(Meant::Option(argument.name));
        }
    }
    Ok(found)
}

/// The directive of a plan that a mistyped one may stand for, among those that a text names.
pub(crate) fn meant_among<'a>(
    alloc: Global,
    word: &str,
    text: &'a str,
) -> Result<Option<&'a str>, AllocError> {
    let mut least = least_of(word);
    let mut found = None;
    for named in text.split(' ') {
        let named = without_comma(named);
        let letters = osa_distance(alloc, word, named)?;
        if is_directive(named) && letters < least {
            least = letters;
            found = Some(named);
        }
    }
    Ok(found)
}

/// The word without the comma or semicolon behind it.
fn without_comma(word: &str) -> &str {
    let word = word.strip_suffix(',').unwrap_or(word);
    word.strip_suffix(';').unwrap_or(word)
}

fn is_directive(word: &str) -> bool {
    word.len() > 1 && word.starts_with('#')
}

/// The least distance at which another word is no longer taken for the meant one.
fn least_of(word: &str) -> usize {
    word.len() / LETTERS + 1
}

/// What clap says of a mistyped word, with what it may stand for in the place of clap's tip.
pub(crate) fn advised(alloc: Global, text: &str, meant: Meant) -> Result<String, AllocError> {
    let mut advised = String::new(alloc);
    let mut is_blank = false;
    for (index, line) in text.lines().enumerate() {
        if line.starts_with("  tip: ") || (is_blank && line.is_empty()) {
            continue;
        }
        advised.push_str(line)?;
        advised.push_str("\n")?;
        if index == 0 {
            push_tip(meant, &mut advised)?;
        }
        is_blank = line.is_empty();
    }
    Ok(advised)
}

fn push_tip(meant: Meant, text: &mut String) -> Result<(), AllocError> {
    let (before, word) = match meant {
        Meant::Subcommand(word) => ("\n  tip: did you mean '", word),
        Meant::Option(word) => ("\n  tip: did you mean '--", word),
    };
    text.push_str(before)?;
    text.push_str(word)?;
    text.push_str("'?\n")
}
