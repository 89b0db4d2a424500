//! `Objects`: a desk with the JSON output that is pending, as `script_core::Answers` is for text. It is the handler of a
//! script's lines.
ghost use Rattle.std.specs.Prelude.{◌≡◌, ◌<◌, ◌⊎◌, ◌∷◌, ◌++◌, [], List, ℕ, Option, IfErr, IfOk};
ghost use Rattle.point_core.specs.declared.refusal.Refusal.TheVariants.{Write as WriteFault, Memory};
ghost use Rattle.line_core.specs.declared.line.Line.{Line as LineModel};
ghost use Rattle.line_core.specs.Script.{answered};
ghost use Rattle.script_core.specs.Output.{Grows};
ghost use Rattle.json_core.specs.Answering.{AnswersLine, HasAnswered, HasStopped};

use crate::members::push_line;
use command_core::Answer;
use desk_core::Desk;
use line_core::{Body, Ending, LineHandler, RawLine, body_of, last_body};
use point_core::Refusal;
use report_core::{write_many, write_out};
use script_core::{Totals, answer_line};
use std::alloc::Global;
use std::io::Write;
use std::mem;

/// A desk, and the objects of its answers up to the next write.
#[derive(Drop)]
pub(crate) struct Objects {
    alloc: Global,
    desk: Desk,
    // the text that is not yet written
    out: Vec<u8>,
    totals: Totals,
}

impl Objects {
    /// No line has been answered.
    pub(crate) fn new(alloc: Global) -> Result<Objects, Refusal>
        ensures none { IfOk result (λ objects. (contents : Option (List ℕ)) →
            HasAnswered [] [] objects.desk objects.totals contents contents) }
        ensures refusals { IfErr result (λ refusal. refusal ≡ Memory) }
    {
        Ok(Objects {
            alloc,
            desk: Desk::new(alloc)?,
            out: Vec::new(alloc),
            totals: Totals::new(),
        })
    }

    /// Answers a line that has an answer. Output is written once enough is pending.
    ///
    /// Fails with `Write` if a write failed or took no byte, and with `Memory` if an allocation failed.
    fn answer<W: Write>(
        &mut self,
        number: u32,
        line: &[u8],
        body: Option<Body>,
        writer: &mut W,
    ) -> Result<(), Refusal>
        requires few { self.old.totals.lines < number }
        ensures answered { (lines : List (List ℕ)) → (text : List ℕ) → (said : List LineModel) → (start : Option (List ℕ))
            → HasAnswered lines said self.old.desk self.old.totals start (W.contents writer.old)
            → HasAnswered (lines ++ text ∷ []) (said ++ answered number body [])
            self.new.desk self.new.totals start (W.contents writer.new) }
        ensures refusals { IfErr result (λ refusal. (refusal ≡ WriteFault) ⊎ (refusal ≡ Memory)) }
    {
        match body {
            Some(body) => self.answer_body(number, line, body, writer),
            None => Ok(()),
        }
    }

    fn answer_body<W: Write>(
        &mut self,
        number: u32,
        line: &[u8],
        body: Body,
        writer: &mut W,
    ) -> Result<(), Refusal>
        requires few { self.old.totals.lines < number }
        ensures answered { AnswersLine body self.old.desk self.new.desk self.old.totals self.new.totals }
        ensures grows { Grows (W.contents writer.old) (W.contents writer.new) }
        ensures refusals { IfErr result (λ refusal. (refusal ≡ WriteFault) ⊎ (refusal ≡ Memory)) }
    {
        let answer = answer_line(&mut self.desk, body);
        self.totals = self.totals.with(&answer);
        pass_line(self.alloc, number, line, &answer, &mut self.out, writer)
    }

    /// Writes the pending output.
    ///
    /// Fails with `Write` if a write failed or took no byte.
    fn write<W: Write>(&mut self, writer: &mut W) -> Result<(), Refusal>
        ensures grows { Grows (W.contents writer.old) (W.contents writer.new) }
        ensures desk { self.new.desk ≡ self.old.desk }
        ensures totals { self.new.totals ≡ self.old.totals }
        ensures refusals { IfErr result (λ refusal. refusal ≡ WriteFault) }
    {
        write_out(writer, &mut self.out)
    }

    /// Writes the pending output, flushes, and reports how many lines were answered.
    ///
    /// Fails with `Write` if a write failed or took no byte, or the flush failed.
    pub(crate) fn finish<W: Write>(&mut self, writer: &mut W) -> Result<Totals, Refusal>
        ensures totals { IfOk result (λ totals. totals ≡ self.old.totals) }
        ensures grows { Grows (W.contents writer.old) (W.contents writer.new) }
        ensures refusals { IfErr result (λ refusal. refusal ≡ WriteFault) }
    {
        self.write(writer)?;
        writer.flush().map_err(|_| Refusal::Write)?;
        Ok(self.totals)
    }
}

impl<W: Write> LineHandler<W, ()> for Objects {
    ghost handled = { λ start lines said now. HasAnswered lines said now.0.desk now.0.totals
        (W.contents start.1) (W.contents now.1) };

    ghost ended = { λ end start lines said now. HasAnswered lines said now.0.desk now.0.totals
        (W.contents start.1) (W.contents now.1) };

    ghost failed = { λ refusal start lines said now. HasStopped refusal (W.contents start.1) (W.contents now.1) };

    fn handle(
        &mut self,
        line: &RawLine<'_>,
        writer: &mut W,
        _notes: &mut (),
    ) -> Result<(), Refusal> {
        self.answer(line.number, line.bytes, body_of(line.bytes), writer)
    }

    fn pause(&mut self, writer: &mut W, _notes: &mut ()) -> Result<(), Refusal> {
        self.write(writer)
    }

    fn handle_last(
        &mut self,
        line: &RawLine<'_>,
        ending: Ending,
        writer: &mut W,
        _notes: &mut (),
    ) -> Result<(), Refusal> {
        let body = last_body(ending, line.bytes);
        self.answer(line.number, line.bytes, body, writer)
    }
}

/// Appends the object of an answer to `out`, and writes `out` if enough is pending.
///
/// Fails with `Write` if a write failed or took no byte, and with `Memory` if an allocation failed.
fn pass_line<W: Write>(
    alloc: Global,
    number: u32,
    line: &[u8],
    answer: &Answer,
    out: &mut Vec<u8>,
    writer: &mut W,
) -> Result<(), Refusal>
    ensures grows { Grows (W.contents writer.old) (W.contents writer.new) }
    ensures refusals { IfErr result (λ refusal. (refusal ≡ WriteFault) ⊎ (refusal ≡ Memory)) }
{
    let waiting = mem::replace(out, Vec::new(alloc));
    *out = push_line(alloc, number, line, answer, waiting)?;
    write_many(writer, out)
}
