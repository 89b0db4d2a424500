//! `Rewriter`: rewrites a script line by line so that its notes expect the answers. `update.rt` checks the result, so
//! nothing is promised here but that only memory can be refused.
ghost use Rattle.std.specs.Prelude.{◌≡◌, IfErr};
ghost use Rattle.point_core.specs.declared.refusal.Refusal.TheVariants.{Memory};

use crate::expected::expected_text;
use crate::script_text::ScriptText;
use command_core::Answer;
use desk_core::Desk;
use line_core::{Body, body_of, first_line};
use point_core::Refusal;
use report_core::print;
use script_core::answer_line;
use std::alloc::{AllocError, Global};

/// A new note of an expected line begins with this.
const FRONT: &[u8] = b"#= ";

/// The state of a rewriting between lines: a desk, the last answer, and the notes after its expected lines.
#[derive(Drop)]
pub(crate) struct Rewriter {
    desk: Desk,
    /// Whether commands without expected lines get some.
    fills: bool,
    /// The last answer, how many of its bytes are expected so far, and whether any should be.
    answer: Vec<u8>,
    expected: usize,
    is_asked: bool,
    /// The notes since the last command or expected line.
    notes: ScriptText,
}

impl Rewriter {
    pub(crate) fn new(alloc: Global, fills: bool) -> Rewriter {
        Rewriter {
            desk: Desk::new(alloc).unwrap(),
            fills,
            answer: Vec::new(alloc),
            expected: 0,
            is_asked: false,
            notes: ScriptText::new(alloc),
        }
    }

    /// Takes the next line, and writes the lines that no later line can change.
    ///
    /// Fails with `Memory` if memory was refused, also to a command.
    pub(crate) fn take(&mut self, line: &[u8], text: &mut ScriptText) -> Result<(), Refusal>
        ensures memory { IfErr result (λ refusal. refusal ≡ Memory) }
    {
        match body_of(line) {
            Some(body) => self.answer(line, body, text),
            None => Ok(self.note(line, text)?),
        }
    }

    /// The last answer's notes have ended: writes the rest of the answer as expected lines, and then the other notes.
    pub(crate) fn end(&mut self, text: &mut ScriptText) -> Result<(), AllocError> {
        if self.is_asked {
            self.expect_rest(text)?;
        }
        text.append(&mut self.notes)
    }

    /// A line that has an answer, by its number in what is written.
    fn answer(&mut self, line: &[u8], body: Body, text: &mut ScriptText) -> Result<(), Refusal>
        ensures memory { IfErr result (λ refusal. refusal ≡ Memory) }
    {
        self.end(text)?;
        text.push(b"", line)?;
        self.is_asked = self.fills;
        self.expected = 0;
        self.answer.clear();
        let answer = answer_line(&mut self.desk, body);
        print_known(text.lines, &answer, &mut self.answer)
    }

    fn note(&mut self, line: &[u8], text: &mut ScriptText) -> Result<(), AllocError> {
        match expected_text(line) {
            Some(expected) => {
                text.append(&mut self.notes)?;
                self.is_asked = true;
                self.expect(line.strip_suffix(expected).unwrap_or(FRONT), text)
            }
            None => self.notes.push(b"", line),
        }
    }

    /// Writes `start` and the next line of the last answer, if it has one more.
    fn expect(&mut self, start: &[u8], text: &mut ScriptText) -> Result<(), AllocError> {
        let Some(line) = next_line(&self.answer, self.expected) else {
            return Ok(());
        };
        text.push(start, line)?;
        self.expected = self.expected.saturating_add(line.len()).saturating_add(1);
        Ok(())
    }

    fn expect_rest(&mut self, text: &mut ScriptText) -> Result<(), AllocError> {
        for _ in 0..self.answer.len() {
            self.expect(FRONT, text)?;
        }
        Ok(())
    }
}

/// Writes an answer to `text`, unless memory was refused to its command.
fn print_known(number: u32, answer: &Answer, text: &mut Vec<u8>) -> Result<(), Refusal>
    ensures memory { IfErr result (λ refusal. refusal ≡ Memory) }
{
    match answer {
        Answer::Refused(Refusal::Memory) => Err(Refusal::Memory),
        _ => print(number, answer, text),
    }
}

/// The line that begins at `start`. Each line of the text ends in a line feed.
fn next_line(text: &[u8], start: usize) -> Option<&[u8]> {
    let (line, _) = first_line(text.get(start..)?)?;
    Some(line)
}
