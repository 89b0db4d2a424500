//! `Answers`: a desk with the output that is pending. It is the handler of a script's lines: it answers each, and writes all pending
//! output before each read. Its memory follows the desk and one block of output, not the script. `reading.rt` gives it to the loop
//! over lines, and `reason_core` answers by it.
ghost use Rattle.std.specs.Prelude.{◌≡◌, ◌+◌, ◌<◌, ◌≤◌, ◌⊎◌, [], List, ℕ, Option, None, MatchOption, IfOk, OnOk, OnErr, IfErr};
ghost use Rattle.std.specs.Io.KnownBytes.{Keeps};
ghost use Rattle.point_core.specs.declared.refusal.Refusal.TheVariants.{Write as WriteFault, Memory};
ghost use Rattle.command_core.specs.declared.command.Command.{Command};
ghost use Rattle.desk_core.specs.theorem.Desk.{HasHistory};
ghost use Rattle.line_core.specs.declared.line.Line.{Line as LineModel};
ghost use Rattle.line_core.specs.Script.{answered};
ghost use Rattle.script_core.specs.Handled.{HasHandled, HasStopped};
ghost use Rattle.script_core.specs.Output.{Grows, IsLineAnswer, history_after_line, refusal_of, WritesPrefix};

use crate::totals::Totals;
use command_core::Answer;
use desk_core::Desk;
use line_core::{Body, Ending, LineHandler, RawLine, body_of, last_body};
use point_core::Refusal;
use report_core::{pass_answer, write_out};
use std::alloc::Global;
use std::io::Write;
use std::marker::Model;

/// A desk, and the text of its answers up to the next write. Nothing else is kept of the script.
#[derive(Drop)]
pub struct Answers {
    desk: Desk,
    // the text that is not yet written
    out: Vec<u8>,
    totals: Totals,
}

impl Model for Answers {
    ghost use Rattle.script_core.specs.Answering.{AnswersState};

    ghost Value = { AnswersState };

    ghost view = { λ a. record { desk = a.desk; out = a.out.items; totals = a.totals } };
}

impl Answers {
    ghost use Rattle.script_core.specs.Answering.{HasAnswered, AnswersFront, AnswersLine, AnswersLines, AnswersMore};

    /// No line has been answered.
    ///
    /// Fails only with Memory.
    pub fn new(alloc: Global) -> Result<Answers, Refusal>
        ensures none { IfOk result (λ answers. (contents : Option (List ℕ)) → HasAnswered [] answers contents contents) }
        ensures refusals { IfErr result (λ refusal. refusal ≡ Memory) }
    {
        Ok(Answers {
            desk: Desk::new(alloc)?,
            out: Vec::new(alloc),
            totals: Totals::new(),
        })
    }

    /// The desk, as the answered lines have left it.
    pub fn desk(&self) -> &Desk
        ensures { result.now ≡ self.now.desk }
    {
        &self.desk
    }

    /// Answers line `number` if it has an answer, and returns the refusal if the answer is one. Output is written once
    /// enough is pending.
    ///
    /// Fails with Write if a write failed or took no byte, and with Memory if an allocation failed: then a prefix of
    /// the answers is written.
    pub fn answer<W: Write>(
        &mut self,
        number: u32,
        body: Option<Body>,
        writer: &mut W,
    ) -> Result<Option<Refusal>, Refusal>
        requires few { self.old.totals.lines < number }
        ensures ok { OnOk result (AnswersMore (answered number body [])
            self.old self.new (W.contents writer.old) (W.contents writer.new)) }

        // `Some(refusal)` if the answer was a refusal.
        ensures refused { IfOk result (λ refused. MatchOption body (refused ≡ None) (λ said.
            AnswersLine (record { number = number; body = said }) refused self.old self.new
            (W.contents writer.old) (W.contents writer.new))) }
        ensures lines { self.new.totals.lines ≤ self.old.totals.lines + 1 }
        ensures grows { Grows (W.contents writer.old) (W.contents writer.new) }
        ensures err { OnErr result (AnswersFront (answered number body [])
            self.old (W.contents writer.old) (W.contents writer.new)) }
        ensures refusals { IfErr result (λ refusal. (refusal ≡ WriteFault) ⊎ (refusal ≡ Memory)) }
    {
        let Some(body) = body else {
            return Ok(None);
        };
        let answer = answer_line(&mut self.desk, body);
        let refused = refusal_of(&answer);
        self.totals = self.totals.with(&answer);
        pass_answer(number, answer, &mut self.out, writer)?;
        Ok(refused)
    }

    /// Writes the pending output.
    ///
    /// Fails with Write if a write failed or took no byte: then a prefix of the answers is written.
    pub fn write<W: Write>(&mut self, writer: &mut W) -> Result<(), Refusal>
        ensures ok { OnOk result ((done : List LineModel) → (start : Option (List ℕ)) →
            HasAnswered done self.old start (W.contents writer.old)
            → HasAnswered done self.new start (W.contents writer.new)) }
        ensures none { OnOk result (self.new.out ≡ []) }
        ensures lines { self.new.totals ≡ self.old.totals }
        ensures grows { Grows (W.contents writer.old) (W.contents writer.new) }
        ensures err { OnErr result ((done : List LineModel) → (start : Option (List ℕ)) →
            HasAnswered done self.old start (W.contents writer.old)
            → WritesPrefix done start (W.contents writer.new)) }
        ensures refusals { IfErr result (λ refusal. refusal ≡ WriteFault) }
    {
        write_out(writer, &mut self.out)?;
        Ok(())
    }

    /// Writes the pending output, flushes, and reports how many lines were answered.
    ///
    /// Fails with Write if a write failed or took no byte, or the flush failed: then a prefix of the answers is
    /// written.
    pub fn finish<W: Write>(&mut self, writer: &mut W) -> Result<Totals, Refusal>
        ensures ok { IfOk result (λ totals. (done : List LineModel) → (start : Option (List ℕ)) →
            HasAnswered done self.old start (W.contents writer.old)
            → AnswersLines done totals start (W.contents writer.new)) }
        ensures grows { Grows (W.contents writer.old) (W.contents writer.new) }
        ensures err { OnErr result ((done : List LineModel) → (start : Option (List ℕ)) →
            HasAnswered done self.old start (W.contents writer.old)
            → WritesPrefix done start (W.contents writer.new)) }
        ensures refusals { IfErr result (λ refusal. refusal ≡ WriteFault) }
    {
        self.write(writer)?;
        flush(writer)?;
        Ok(self.totals)
    }
}

impl<W: Write> LineHandler<W, ()> for Answers {
    ghost handled = { λ start lines said now. HasHandled lines said now.0 (W.contents start.1) (W.contents now.1) };

    ghost ended = { λ end start lines said now. HasHandled lines said now.0 (W.contents start.1) (W.contents now.1) };

    ghost failed = { λ refusal start lines said now. HasStopped refusal said (W.contents start.1) (W.contents now.1) };

    fn handle(
        &mut self,
        line: &RawLine<'_>,
        writer: &mut W,
        _notes: &mut (),
    ) -> Result<(), Refusal> {
        self.answer(line.number, body_of(line.bytes), writer)?;
        Ok(())
    }

    fn pause(&mut self, writer: &mut W, _notes: &mut ()) -> Result<(), Refusal> {
        self.write(writer)
    }

    fn handle_last(
        &mut self,
        line: &RawLine<'_>,
        ending: Ending,
        writer: &mut W,
        _notes: &mut (),
    ) -> Result<(), Refusal> {
        self.answer(line.number, last_body(ending, line.bytes), writer)?;
        Ok(())
    }
}

/// Runs one line on the desk. A line that does not parse is answered with its own refusal.
#[inline(always)]
pub fn answer_line(desk: &mut Desk, body: Body) -> Answer
    ensures answer { (history : List Command) → HasHistory desk.old history
        → IsLineAnswer history body result }
    ensures stands { (history : List Command) → HasHistory desk.old history
        → HasHistory desk.new (history_after_line history body result) }
{
    match body {
        Body::Cmd(command) => desk.step(command),
        Body::Bad(refusal) => Answer::Refused(refusal),
    }
}

/// The refusal, if the answer is one.
#[inline(always)]
fn refusal_of(answer: &Answer) -> Option<Refusal>
    ensures { result ≡ refusal_of answer.now }
{
    match answer {
        Answer::Refused(refusal) => Some(*refusal),
        _ => None,
    }
}

fn flush<W: Write>(writer: &mut W) -> Result<(), Refusal>
    ensures bytes { Keeps (W.contents writer.old) (W.contents writer.new) }
    ensures err { IfErr result (λ refusal. refusal ≡ WriteFault) }
{
    writer.flush().map_err(|_| Refusal::Write)
}
