//! `Typed`: the reader of the lines that are typed at the prompt. It answers `help` and `quit` itself, which are no commands of a
//! script. `start.rt` makes one for a session at a terminal.
ghost use Rattle.std.specs.Prelude.{None};

use crate::arguments::help;
use line_core::{strip_prefix, without_spaces};
use std::io;
use std::io::{Read, Write};

/// The line of the help above the list of commands, which ends at an empty line.
const COMMANDS: &str = "Script commands:";

const NO_COMMAND: &str = "there is no such command; 'help' lists them\n";

const HOW_TO_LEAVE: &str = "'help COMMAND' explains one command, and 'quit' or Ctrl-D leaves\n";

const HELP: &[u8] = b"help";

const QUIT: &[u8] = b"quit";

/// A reader of lines that are typed, of which each read gives one or a part of one. It answers `help` and `help COMMAND` on `notes`,
/// and ends at `quit`. The script gets a note in the place of `help`, so that its lines keep their numbers.
#[derive(Drop)]
pub(crate) struct Typed<R, W> {
    reader: R,
    notes: W,
    // whether the next byte begins a line
    begins: bool,
}

/// What a typed line asks for.
#[derive(Clone, Copy)]
enum Request<'a> {
    /// The help on all commands, or on the one of this name.
    Help(Option<&'a [u8]>),
    Quit,
    /// It is a line of the script.
    Line,
}

impl<R: Read + Drop, W: Write + Drop> Typed<R, W> {
    /// Wraps a reader from which nothing was read yet.
    pub(crate) fn new(reader: R, notes: W) -> Typed<R, W> {
        Typed {
            reader,
            notes,
            begins: true,
        }
    }
}

impl<R: Read + Drop, W: Write + Drop> Read for Typed<R, W> {
    // What is read is not what is typed.
    ghost remaining = { λ typed. None };

    fn read(&mut self, buf: &mut [u8]) -> io::Result<usize> {
        let begins = self.begins;
        let count = self.reader.read(buf)?;
        let Some(line) = buf.get(..count) else {
            return Ok(count);
        };
        self.begins = line.ends_with(b"\n");
        match request_of(line, begins) {
            Request::Help(command) => show_help(command, &mut self.notes),
            Request::Quit => return Ok(0),
            Request::Line => return Ok(count),
        }
        if let Some(first) = buf.first_mut() {
            *first = b'#';
        }
        Ok(count)
    }
}

/// What is asked for by what was read, which may begin a line.
fn request_of(line: &[u8], begins: bool) -> Request<'_> {
    let (word, rest) = first_word(without_line_feed(line));
    let (command, rest) = first_word(rest);
    if !begins || !without_spaces(rest).is_empty() {
        Request::Line
    } else if word == HELP {
        Request::Help(non_empty(command))
    } else if word == QUIT && command.is_empty() {
        Request::Quit
    } else {
        Request::Line
    }
}

fn without_line_feed(line: &[u8]) -> &[u8] {
    match line {
        [text @ .., b'\n'] => text,
        _ => line,
    }
}

fn non_empty(word: &[u8]) -> Option<&[u8]> {
    if word.is_empty() { None } else { Some(word) }
}

/// The first word, and what follows it.
fn first_word(line: &[u8]) -> (&[u8], &[u8]) {
    let bytes = without_spaces(line);
    let end = bytes
        .iter()
        .position(|byte| *byte == b' ')
        .unwrap_or(bytes.len());
    bytes.split_at(end)
}

/// Shows the help on a command, or on all. A failed write doesn't affect the session.
fn show_help<W: Write>(command: Option<&[u8]>, notes: &mut W) {
    let mut is_listed = false;
    let mut is_found = false;
    for line in help().lines() {
        if is_listed && line.is_empty() {
            break;
        }
        if is_listed && is_about(line.as_bytes(), command) {
            is_found = true;
            show(line, notes);
            show("\n", notes);
        }
        is_listed = is_listed || line == COMMANDS;
    }
    match (is_found, command) {
        (true, Some(_)) => {}
        (true, None) => show(HOW_TO_LEAVE, notes),
        (false, _) => show(NO_COMMAND, notes),
    }
}

/// Whether a line of the list of commands begins with that one.
fn is_about(line: &[u8], command: Option<&[u8]>) -> bool {
    let Some(command) = command else {
        return true;
    };
    match strip_prefix(without_spaces(line), command) {
        Some(rest) => rest.starts_with(b" "),
        None => false,
    }
}

fn show<W: Write>(text: &str, notes: &mut W) {
    let _ = notes.write_all(text.as_bytes());
    let _ = notes.flush();
}
