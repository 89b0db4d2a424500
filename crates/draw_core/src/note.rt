//! The note of a column, which shows on hovering: the line, its answer, and the reason if it was refused. The reason comes
//! from the caller, by `Explain`.
ghost use Rattle.std.specs.Prelude.{◌≡◌, IfErr};
ghost use Rattle.point_core.specs.declared.refusal.Refusal.TheVariants.{Memory};

use command_core::{Answer, Command};
use desk_core::Desk;
use line_core::{Body, RawLine};
use point_core::Refusal;
use report_core::print;

/// The most bytes of a line and its answer in a note. A longer text is cut there, and ends with `...`.
const NOTE_BYTES: usize = 2048;

/// Explains refused lines in the notes of a picture. It sees every line of the run in order, so it may remember which line
/// made a name.
pub trait Explain {
    /// Sees a command that `desk` has just accepted, of line `line`.
    ///
    /// Fails only with `Memory`.
    fn accept(&mut self, line: u32, command: &Command, desk: &Desk) -> Result<(), Refusal>
        ensures memory { IfErr result (λ e. e ≡ Memory) };

    /// Appends to `note` why a line was refused, which `desk` has just done.
    ///
    /// Fails only with `Memory`.
    fn explain(
        &self,
        desk: &Desk,
        refused: &RefusedLine<'_>,
        note: &mut Vec<u8>,
    ) -> Result<(), Refusal>
        ensures memory { IfErr result (λ e. e ≡ Memory) };
}

/// A line that the desk has refused: its bytes, the command that they say or why they say none, and the error.
#[derive(Clone, Copy)]
pub struct RefusedLine<'a> {
    pub line: &'a RawLine<'a>,
    pub body: &'a Body,
    pub refusal: Refusal,
}

/// Writes a line and its answer, which ends with a line feed.
///
/// Fails only with `Memory`.
pub(crate) fn push_answer(
    line: &RawLine<'_>,
    answer: &Answer,
    note: &mut Vec<u8>,
) -> Result<(), Refusal>
    ensures memory { IfErr result (λ e. e ≡ Memory) }
{
    note.extend_from_slice(line.bytes)?;
    note.extend_from_slice(b"\n")?;
    print(line.number, answer, note)?;
    if note.len() > NOTE_BYTES {
        note.truncate(NOTE_BYTES);
        note.extend_from_slice(b"...\n")?;
    }
    Ok(())
}
