//! `Explainer`: the handler of lines that answers a line and, if it was refused, writes why. The note follows its answer, so
//! nothing is noted while output is pending. `reading.rt` gives it to the loop over lines.
ghost use Rattle.std.specs.Prelude.{◌≡◌, ◌+◌, ◌<◌, ◌≤◌, ◌⊎◌, [], List, ℕ, Option, Some, OnOk, OnErr, IfOk, IfErr};
ghost use Rattle.point_core.specs.declared.refusal.Refusal.TheVariants.{Write as WriteFault, Memory};
ghost use Rattle.script_core.specs.Answering.{AnswersFront, AnswersMore, HasAnswered};
ghost use Rattle.script_core.specs.Output.{Grows};
ghost use Rattle.reason_core.specs.Notes.{HasExplained, Notes, NotesLine, StopsExplaining};
ghost use Rattle.line_core.specs.Script.{answered};

use crate::book::Book;
use crate::look::{NoteLook, NotePlace};
use crate::refused::explain_command;
use crate::syntax::explain_bad_line;
use line_core::{Body, Ending, LineHandler, RawLine, body_of, last_body};
use point_core::Refusal;
use script_core::Answers;
use std::alloc::Global;
use std::io::Write;

/// Answers the lines of a script and explains refused ones. It keeps the lines that made each name and cookie, and asks the
/// desk of the answers for everything else.
#[derive(Drop)]
pub(crate) struct Explainer {
    alloc: Global,
    look: NoteLook,
    book: Book,
    pub(crate) answers: Answers,
}

impl Explainer {
    /// No line was answered yet.
    ///
    /// Fails only with `Memory`.
    pub(crate) fn new(alloc: Global, look: NoteLook) -> Result<Explainer, Refusal>
        ensures none { IfOk result (λ explainer. (contents : Option (List ℕ)) →
            HasAnswered [] explainer.answers contents contents) }
        ensures refusals { IfErr result (λ refusal. refusal ≡ Memory) }
    {
        let answers = Answers::new(alloc)?;
        Ok(Explainer {
            alloc,
            look,
            book: Book::new(alloc),
            answers,
        })
    }

    /// Answers a line, if it has an answer, and explains it if it is refused.
    fn explain_line<W: Write, N: Write>(
        &mut self,
        line: &RawLine<'_>,
        body: Option<Body>,
        writer: &mut W,
        notes: &mut N,
    ) -> Result<(), Refusal>
        requires few { self.old.answers.totals.lines < line.now.number }
        ensures ok { OnOk result (AnswersMore (answered line.now.number body [])
            self.old.answers self.new.answers (W.contents writer.old) (W.contents writer.new)) }
        ensures lines { self.new.answers.totals.lines ≤ self.old.answers.totals.lines + 1 }
        ensures grows { Grows (W.contents writer.old) (W.contents writer.new) }

        // Whatever the result, a note on the line follows all answers up to it.
        ensures follows { NotesLine N.contents line.now.number body self.old.answers
            (W.contents writer.old) (W.contents writer.new) notes.old notes.new }
        ensures err { OnErr result (AnswersFront (answered line.now.number body [])
            self.old.answers (W.contents writer.old) (W.contents writer.new)) }
        ensures refusals { IfErr result (λ refusal. (refusal ≡ WriteFault) ⊎ (refusal ≡ Memory)) }
    {
        match body {
            Some(body) => self.explain_body(line, body, writer, notes),
            None => Ok(()),
        }
    }

    fn explain_body<W: Write, N: Write>(
        &mut self,
        line: &RawLine<'_>,
        body: Body,
        writer: &mut W,
        notes: &mut N,
    ) -> Result<(), Refusal>
        requires few { self.old.answers.totals.lines < line.now.number }
        ensures ok { OnOk result (AnswersMore (answered line.now.number (Some body) [])
            self.old.answers self.new.answers (W.contents writer.old) (W.contents writer.new)) }
        ensures lines { self.new.answers.totals.lines ≤ self.old.answers.totals.lines + 1 }
        ensures grows { Grows (W.contents writer.old) (W.contents writer.new) }
        ensures follows { NotesLine N.contents line.now.number (Some body) self.old.answers
            (W.contents writer.old) (W.contents writer.new) notes.old notes.new }
        ensures err { OnErr result (AnswersFront (answered line.now.number (Some body) [])
            self.old.answers (W.contents writer.old) (W.contents writer.new)) }
        ensures refusals { IfErr result (λ refusal. (refusal ≡ WriteFault) ⊎ (refusal ≡ Memory)) }
    {
        let refused = self.answers.answer(line.number, Some(body), writer)?;
        let Some(refusal) = refused else {
            self.enter(line.number, &body)?;
            return Ok(());
        };
        self.answers.write(writer)?;
        self.report(line, &body, refusal, notes)?;
        Ok(())
    }

    /// Enters an accepted line, the last that was answered, in the book.
    fn enter(&mut self, number: u32, body: &Body) -> Result<(), Refusal>
        ensures answers { self.new.answers ≡ self.old.answers }
        ensures refusals { IfErr result (λ refusal. refusal ≡ Memory) }
    {
        match body {
            Body::Cmd(command) => self.book.enter(number, command, self.answers.desk()),
            Body::Bad(_) => Ok(()),
        }
    }

    /// Writes why a line was refused, the last that was answered, once its answer is written.
    ///
    /// Fails with `Write` if a write failed, and with `Memory`.
    fn report<N: Write>(
        &self,
        line: &RawLine<'_>,
        body: &Body,
        refusal: Refusal,
        notes: &mut N,
    ) -> Result<(), Refusal>
        requires written { self.now.answers.out ≡ [] }
        ensures noted { Notes result line.now.number (N.contents notes.old) (N.contents notes.new) }
        ensures refusals { IfErr result (λ refusal. (refusal ≡ WriteFault) ⊎ (refusal ≡ Memory)) }
    {
        let place = NotePlace {
            line: line.number,
            look: self.look,
        };
        match body {
            Body::Cmd(command) => {
                let desk = self.answers.desk();
                explain_command(desk, &self.book, &place, command, refusal, notes)
            }
            Body::Bad(fault) => explain_bad_line(self.alloc, &place, line, *fault, notes),
        }
    }
}

impl<W: Write, N: Write> LineHandler<W, N> for Explainer {
    ghost handled = { λ start lines said now. HasExplained N.contents lines said now.0.answers
        (W.contents start.1) (W.contents now.1) start.2 now.2 };

    ghost ended = { λ end start lines said now. HasExplained N.contents lines said now.0.answers
        (W.contents start.1) (W.contents now.1) start.2 now.2 };

    ghost failed = { λ refusal start lines said now. StopsExplaining N.contents refusal said
        (W.contents start.1) (W.contents now.1) start.2 now.2 };

    fn handle(&mut self, line: &RawLine<'_>, writer: &mut W, notes: &mut N) -> Result<(), Refusal> {
        self.explain_line(line, body_of(line.bytes), writer, notes)
    }

    fn pause(&mut self, writer: &mut W, _notes: &mut N) -> Result<(), Refusal> {
        self.answers.write(writer)
    }

    fn handle_last(
        &mut self,
        line: &RawLine<'_>,
        ending: Ending,
        writer: &mut W,
        notes: &mut N,
    ) -> Result<(), Refusal> {
        self.explain_line(line, last_body(ending, line.bytes), writer, notes)
    }
}
