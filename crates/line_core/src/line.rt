//! `Line` and `Body`: a parsed line of a script, which is a command or an error.
ghost use Rattle.std.specs.Prelude.{◌≡◌};
ghost use Rattle.line_core.specs.Line.{body_of};

use crate::command::command;
use crate::words::first_word;
use command_core::Command;
use point_core::Refusal;

/// The most bytes of a line, without its line feed.
pub const LINE_BYTES: usize = 256;

const _: () = prove!(LINE_BYTES == 256);

/// A line of a script that has an answer.
#[derive(Clone, Copy, Debug)]
pub struct Line {
    /// Lines are numbered from 1, including those without an answer.
    pub number: u32,
    pub body: Body,
}

/// The content of a line.
#[derive(Clone, Copy, Debug)]
pub enum Body {
    /// A command.
    Cmd(Command),
    /// The line itself is in error.
    Bad(Refusal),
}

/// The body of a line, in this order: LongLine; none for a line without words or whose first word begins with `#`;
/// Syntax if the words fit no row of the table; else the command.
pub fn body_of(line: &[u8]) -> Option<Body>
    ensures body { result ≡ body_of line.now }
{
    if line.len() > LINE_BYTES {
        return Some(Body::Bad(Refusal::LongLine));
    }
    let (word, rest) = first_word(line)?;
    if word.starts_with(b"#") {
        return None;
    }
    match command(word, rest) {
        Some(command) => Some(Body::Cmd(command)),
        None => Some(Body::Bad(Refusal::Syntax)),
    }
}
