//! Explains a line that is no command: finds the word at fault. A note begins with the line's number; no contract says what
//! follows, and tests compare it.
ghost use Rattle.std.specs.Prelude.{◌≡◌, ◌⊎◌, IfErr};
ghost use Rattle.point_core.specs.declared.refusal.Refusal.TheVariants.{Write as WriteFault, Memory};
ghost use Rattle.reason_core.specs.Notes.{Notes};

use crate::look::{NotePart, NotePlace, note};
use crate::operands::{absence, form_of, mismatch};
use line_core::{LINE_BYTES, Operand, RawLine, SCRIPT_BYTES, command_form, commands};
use point_core::{LimitKind, Refusal};
use std::alloc::Global;
use std::io::Write;
use strsim::osa_distance;

/// A command that differs from a word in one letter is suggested for words of at least this length.
const LETTERS: usize = 3;

/// Words that other programs have for a command.
static OTHER_WORDS: &[(&str, &str)] = &[("advance", "inc"), ("signal", "inc")];

/// Writes to `notes` why a line is no command, by the refusal that it was answered with: LongLine, the limit of scripts, or else
/// Syntax, for which any other is taken. Every line gets a note.
///
/// Fails with `Write` or `Memory`.
pub fn explain_bad_line<N: Write>(
    alloc: Global,
    place: &NotePlace,
    line: &RawLine<'_>,
    refusal: Refusal,
    notes: &mut N,
) -> Result<(), Refusal>
    ensures noted { Notes result place.now.line (N.contents notes.old) (N.contents notes.new) }
    ensures refusals { IfErr result (λ refusal. (refusal ≡ WriteFault) ⊎ (refusal ≡ Memory)) }
{
    let fault = fault_of(alloc, line, refusal)?;
    explain_fault(place, &fault, notes)
}

/// What is wrong with a line that is no command.
#[derive(Clone, Copy)]
enum Fault<'a> {
    /// Its number of bytes.
    LongLine(usize),
    LongScript,
    /// A word, and the sentence on it.
    Word(&'a [u8], &'static str),
    /// A command that lacks a word, and the sentence on it.
    Missing(&'a [u8], &'static str),
    /// A first word that is no command, nor nearly one.
    Unknown(&'a [u8]),
    /// A first word that is no command, and the command that it may stand for.
    Misspelled(&'a [u8], &'static str),
    /// A command with a capital letter, and the command.
    Capital(&'a [u8], &'static str),
}

/// What is wrong, by the refusal that the line was answered with.
fn fault_of<'a>(alloc: Global, line: &RawLine<'a>, refusal: Refusal) -> Result<Fault<'a>, Refusal>
    ensures refusals { IfErr result (λ refusal. refusal ≡ Memory) }
{
    match refusal {
        Refusal::LongLine => Ok(Fault::LongLine(line.length)),
        Refusal::Limit(LimitKind::Script) => Ok(Fault::LongScript),
        _ => word_fault(alloc, line.bytes),
    }
}

/// The word of a line that is at fault: the first that has a byte no word of a command has; else the first word, if it is no
/// command; else the first that does not match its operand, or that the number of words is wrong.
fn word_fault<'a>(alloc: Global, line: &'a [u8]) -> Result<Fault<'a>, Refusal>
    ensures refusals { IfErr result (λ refusal. refusal ≡ Memory) }
{
    if let Some((word, reason)) = strange_word(line) {
        return Ok(Fault::Word(word, reason));
    }
    let (word, rest) = first_word(line);
    match command_form(word) {
        Some(form) => Ok(wrong_word(word, form.operands, rest)),
        None => command_fault(alloc, word),
    }
}

fn command_fault<'a>(alloc: Global, word: &'a [u8]) -> Result<Fault<'a>, Refusal>
    ensures refusals { IfErr result (λ refusal. refusal ≡ Memory) }
{
    if let Some(command) = in_lower_case(word) {
        return Ok(Fault::Capital(word, command));
    }
    match meant(alloc, word)? {
        Some(command) => Ok(Fault::Misspelled(word, command)),
        None => Ok(Fault::Unknown(word)),
    }
}

fn explain_fault<N: Write>(
    place: &NotePlace,
    fault: &Fault<'_>,
    notes: &mut N,
) -> Result<(), Refusal>
    ensures noted { Notes result place.now.line (N.contents notes.old) (N.contents notes.new) }
    ensures refusals { IfErr result (λ refusal. refusal ≡ WriteFault) }
{
    match fault {
        Fault::LongLine(length) => note(place, &parts_of_long_line(*length), notes),
        Fault::LongScript => note(place, &parts_of_long_script(), notes),
        Fault::Word(word, reason) => note(place, &parts_of_word(word, *reason), notes),
        Fault::Missing(command, reason) => note(place, &parts_of_missing(command, *reason), notes),
        Fault::Unknown(word) => note(place, &parts_of_unknown(word), notes),
        Fault::Misspelled(word, command) => {
            note(place, &parts_of_misspelled(word, *command), notes)
        }
        Fault::Capital(word, command) => note(place, &parts_of_capital(word, *command), notes),
    }
}

fn parts_of_long_line(length: usize) -> [NotePart<'static>; 4] {
    [
        NotePart::Text("the line is "),
        NotePart::Number(length as u64),
        NotePart::Text(" bytes long; the limit is "),
        NotePart::Number(LINE_BYTES as u64),
    ]
}

fn parts_of_long_script() -> [NotePart<'static>; 3] {
    [
        NotePart::Text("the script is longer than the limit of "),
        NotePart::Number(SCRIPT_BYTES as u64),
        NotePart::Text(" bytes"),
    ]
}

fn parts_of_word<'a>(word: &'a [u8], reason: &'static str) -> [NotePart<'a>; 3] {
    [
        NotePart::Quoted(word),
        NotePart::Text(": "),
        NotePart::Text(reason),
    ]
}

fn parts_of_missing<'a>(command: &'a [u8], reason: &'static str) -> [NotePart<'a>; 5] {
    [
        NotePart::Quoted(command),
        NotePart::Text(": "),
        NotePart::Text(reason),
        NotePart::Text("; the form is "),
        NotePart::Text(form_of(command)),
    ]
}

fn parts_of_unknown(word: &[u8]) -> [NotePart<'_>; 2] {
    [NotePart::Quoted(word), NotePart::Text(": unknown command")]
}

fn parts_of_misspelled<'a>(word: &'a [u8], command: &'static str) -> [NotePart<'a>; 4] {
    [
        NotePart::Quoted(word),
        NotePart::Text(": unknown command; did you mean \""),
        NotePart::Text(command),
        NotePart::Text("\"?"),
    ]
}

fn parts_of_capital<'a>(word: &'a [u8], command: &'static str) -> [NotePart<'a>; 4] {
    [
        NotePart::Quoted(word),
        NotePart::Text(": commands are in lower case: \""),
        NotePart::Text(command),
        NotePart::Text("\""),
    ]
}

/// The first word with a byte that no word may have, and the sentence on it.
fn strange_word(line: &[u8]) -> Option<(&[u8], &'static str)> {
    for word in line.split(|byte| *byte == b' ') {
        if let Some(reason) = strange_byte(word) {
            return Some((word, reason));
        }
    }
    None
}

/// The sentence for a word with a byte that no word may have.
fn strange_byte(word: &[u8]) -> Option<&'static str> {
    if word.starts_with(b"\xef\xbb\xbf") {
        Some("starts with a byte order mark")
    } else if word.contains(&b'\t') {
        Some("contains a tab; only spaces separate words")
    } else if word.ends_with(b"\r") {
        Some("ends with a carriage return; a line must end with a line feed only")
    } else if word.iter().any(|byte| !byte.is_ascii_graphic()) {
        Some("contains a byte that is not printable ASCII")
    } else {
        None
    }
}

/// The first word, and the rest of the line.
fn first_word(line: &[u8]) -> (&[u8], &[u8]) {
    let start = line
        .iter()
        .position(|byte| *byte != b' ')
        .unwrap_or(line.len());
    let bytes = &line[start..];
    let end = bytes
        .iter()
        .position(|byte| *byte == b' ')
        .unwrap_or(bytes.len());
    bytes.split_at(end)
}

/// The command that the word is but for the case of its letters.
fn in_lower_case(word: &[u8]) -> Option<&'static str> {
    for form in commands() {
        if word.eq_ignore_ascii_case(form.word.as_bytes()) {
            return Some(form.word);
        }
    }
    None
}

/// The command that the word may stand for: another program's word for it, or a word that is nearly the command.
fn meant(alloc: Global, word: &[u8]) -> Result<Option<&'static str>, Refusal>
    ensures refusals { IfErr result (λ refusal. refusal ≡ Memory) }
{
    for (other, command) in OTHER_WORDS {
        if word == other.as_bytes() {
            return Ok(Some(command));
        }
    }
    nearest(alloc, word)
}

/// The command that differs in the fewest letters, if these are few; two letters that are swapped count as one.
fn nearest(alloc: Global, word: &[u8]) -> Result<Option<&'static str>, Refusal>
    ensures refusals { IfErr result (λ refusal. refusal ≡ Memory) }
{
    let Ok(text) = str::from_utf8(word) else {
        return Ok(None);
    };
    let mut least = word.len() / LETTERS + 1;
    let mut found = None;
    for form in commands() {
        let letters = osa_distance(alloc, text, form.word)?;
        if letters < least {
            least = letters;
            found = Some(form.word);
        }
    }
    Ok(found)
}

/// The first word that does not match its operand, or the command if a word is missing, and the sentence on it.
fn wrong_word<'a>(command: &'a [u8], operands: &[Operand], rest: &'a [u8]) -> Fault<'a> {
    let mut operands = operands.iter();
    for word in rest.split(|byte| *byte == b' ') {
        if word.is_empty() {
            continue;
        }
        if let Some(reason) = wrong_for(word, operands.next()) {
            return Fault::Word(word, reason);
        }
    }
    Fault::Missing(command, missing(operands.next()))
}

/// The sentence for the operand that is missing at the end of a line.
fn missing(operand: Option<&Operand>) -> &'static str {
    match operand {
        Some(operand) => absence(*operand),
        None => "a word is missing",
    }
}

/// The sentence for a word that does not match the operand at its place, or that follows the last operand. None if it matches.
fn wrong_for(word: &[u8], operand: Option<&Operand>) -> Option<&'static str> {
    if word.starts_with(b"#") {
        return Some("a note needs a line of its own");
    }
    match operand {
        Some(operand) if operand.matches(word) => None,
        Some(operand) => Some(mismatch(*operand, word)),
        None => Some("unexpected extra word"),
    }
}
