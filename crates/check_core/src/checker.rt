//! `Checker`: the state of a check between lines: a desk, the counts, and the last answer with its stage. Its invariant
//! keeps the stage within the answer's text. `ScriptChecker` gives it the lines of a script, and `update.rt` all lines of a text.
ghost use Rattle.std.specs.Prelude.{◌≡◌, ◌+◌, ◌<◌, ◌≤◌, ◌⊎◌, ◌∷◌, [], length, option_to_list, IfOk, OnOk, IfErr};
ghost use Rattle.point_core.specs.declared.refusal.Refusal.TheVariants.{Write as WriteFault, Torn, Memory};
ghost use Rattle.line_core.specs.Line.{body_of};
ghost use Rattle.check_core.specs.Expected.{expected_text};
ghost use Rattle.check_core.specs.Stage.{place_of};
ghost use Rattle.check_core.specs.Answering.{AnswersInto};
ghost use Rattle.check_core.specs.Tally.{HasRoom, IsBelow, CountsOne};

use crate::expected::expected_text;
use crate::finding::{CheckFinding, Difference};
use crate::form::CheckPlace;
use crate::reporting::{report_difference, report_slip};
use crate::slip::is_slip;
use crate::stage::MatchStage;
use crate::tally::CheckTally;
use desk_core::Desk;
use line_core::{Body, RawLine, body_of, first_line};
use point_core::Refusal;
use report_core::print;
use script_core::answer_line;
use std::alloc::Global;
use std::io::Write;

/// The most lines of a text. The number after the last one has 32 bits too: the loop over the lines ends there.
const TEXT_LINES: u32 = u32::MAX - 1;

/// The state of a check between lines: a desk, the counts, and the last line that has an answer.
#[derive(Drop)]
pub(crate) struct Checker<'a> {
    alloc: Global,
    place: CheckPlace<'a>,
    desk: Desk,
    pub(crate) tally: CheckTally,
    // the number of the last line that has an answer, and its bytes; 0 is before the first
    number: u32,
    bytes: Vec<u8>,
    // its answer, and how much of it the expected lines have matched
    text: Vec<u8>,
    stage: MatchStage,
    ghost within: { place_of stage ≤ length text.items },
}

impl<'a> Checker<'a> {
    ghost use Rattle.check_core.specs.Check.{AnswersAsExpected, IsFresh, differences_of, IsQuiet};
    ghost use Rattle.check_core.specs.Check.{Expects, IsAnswered, IsTaken, IsOpened, IsJudgedAt, IsEnded};
    ghost use Rattle.check_core.specs.Slips.{is_slip};
    ghost use Rattle.check_core.specs.Tally.{one_if};
    ghost use Rattle.std.specs.Io.KnownBytes.{Keeps};

    pub(crate) fn new(alloc: Global, place: &CheckPlace<'a>) -> Checker<'a>
        ensures fresh { IsFresh result }
    {
        Checker {
            alloc,
            place: *place,
            desk: Desk::new(alloc).unwrap(),
            tally: CheckTally::new(),
            number: 0,
            bytes: Vec::new(alloc),
            text: Vec::new(alloc),
            stage: MatchStage::Unasked,
        }
    }

    /// Takes the next line: answers a command, and compares an expected line with the last answer. An over-long line may be
    /// cut to its first 257 bytes.
    pub(crate) fn take<W: Write>(
        &mut self,
        number: u32,
        bytes: &[u8],
        writer: &mut W,
    ) -> Result<(), Refusal>
        requires few { IsBelow self.old.tally number }
        ensures ok { OnOk result (IsTaken self.old self.new number (body_of bytes.now) (expected_text bytes.now)) }
        ensures few { OnOk result (IsBelow self.new.tally (number + 1)) }
        ensures quiet { OnOk result (IsQuiet self.old (differences_of self.new)
            (W.contents writer.old) (W.contents writer.new)) }
        ensures refusals { IfErr result (λ refusal. (refusal ≡ WriteFault) ⊎ (refusal ≡ Memory)) }
    {
        match body_of(bytes) {
            Some(body) => self.answer(number, bytes, body, writer),
            None => self.note(bytes, writer),
        }
    }

    /// Takes the last line, which may lack its line feed.
    pub(crate) fn take_last<W: Write>(
        &mut self,
        number: u32,
        bytes: &[u8],
        writer: &mut W,
    ) -> Result<(), Refusal>
        requires few { IsBelow self.old.tally number }
        ensures ok { OnOk result (IsEnded self.old self.new number (body_of bytes.now) (expected_text bytes.now)) }
        ensures quiet { OnOk result (IsQuiet self.old self.new.tally.differing
            (W.contents writer.old) (W.contents writer.new)) }
        ensures refusals { IfErr result (λ refusal. (refusal ≡ WriteFault) ⊎ (refusal ≡ Memory)) }
    {
        self.take(number, bytes, writer)?;
        self.judge(writer)?;
        Ok(())
    }

    /// Takes all lines of a text, which may be longer than a script.
    ///
    /// Fails with Torn if the text has more than `TEXT_LINES` lines: the lines after these have no number.
    pub(crate) fn take_text<W: Write>(&mut self, text: &[u8], writer: &mut W) -> Result<(), Refusal>
        requires fresh { IsFresh self.old }
        ensures answers { OnOk result (self.new.tally.differing ≡ 0 → AnswersAsExpected text.now) }
        ensures refusals { IfErr result (λ refusal. (refusal ≡ WriteFault) ⊎ (refusal ≡ Torn) ⊎ (refusal ≡ Memory)) }
    {
        let mut rest = text;
        for number in 1..TEXT_LINES + 1 {
            let Some((line, more)) = first_line(rest) else {
                return self.take_last(number, rest, writer);
            };
            self.take(number, line, writer)?;
            rest = more;
        }
        Err(Refusal::Torn)
    }

    /// Answers a command: no more is expected of the answer before it.
    fn answer<W: Write>(
        &mut self,
        number: u32,
        bytes: &[u8],
        body: Body,
        writer: &mut W,
    ) -> Result<(), Refusal>
        requires few { IsBelow self.old.tally number }
        ensures ok { OnOk result (IsAnswered self.old self.new number body) }
        ensures few { OnOk result (IsBelow self.new.tally (number + 1)) }
        ensures quiet { OnOk result (IsQuiet self.old (differences_of self.new)
            (W.contents writer.old) (W.contents writer.new)) }
        ensures refusals { IfErr result (λ refusal. (refusal ≡ WriteFault) ⊎ (refusal ≡ Memory)) }
    {
        self.judge(writer)?;
        self.open(number, bytes, body)?;
        Ok(())
    }

    /// Answers a line. No line of its answer is expected yet.
    fn open(&mut self, number: u32, bytes: &[u8], body: Body) -> Result<(), Refusal>
        requires few { self.old.tally.lines < number }
        ensures ok { OnOk result (IsOpened self.old self.new number body) }
        ensures refusals { IfErr result (λ refusal. refusal ≡ Memory) }
    {
        self.number = number;
        self.bytes.clear();
        self.bytes.extend_from_slice(bytes)?;
        self.stage = MatchStage::Unasked;
        answer_into(&mut self.desk, number, body, &mut self.text)?;
        self.tally.lines += 1;
        Ok(())
    }

    /// Takes a note, which may expect a line of the last answer.
    fn note<W: Write>(&mut self, bytes: &[u8], writer: &mut W) -> Result<(), Refusal>
        ensures expects { Expects self.old self.new (option_to_list (expected_text bytes.now)) }
        ensures quiet { OnOk result (IsQuiet self.old (differences_of self.new)
            (W.contents writer.old) (W.contents writer.new)) }
        ensures refusals { IfErr result (λ refusal. (refusal ≡ WriteFault) ⊎ (refusal ≡ Memory)) }
    {
        match expected_text(bytes) {
            Some(line) => self.expect(line, writer),
            None => Ok(()),
        }
    }

    /// One more line is expected of the last answer. It is reported if it is the first that differs.
    fn expect<W: Write>(&mut self, line: &[u8], writer: &mut W) -> Result<(), Refusal>
        ensures expects { Expects self.old self.new (line.now ∷ []) }
        ensures quiet { OnOk result (IsQuiet self.old (differences_of self.new)
            (W.contents writer.old) (W.contents writer.new)) }
        ensures refusals { IfErr result (λ refusal. (refusal ≡ WriteFault) ⊎ (refusal ≡ Memory)) }
    {
        let before = self.stage;
        self.stage = before.with(&self.text, line);
        match self.stage {
            MatchStage::Differs => self.report(before, Some(line), writer),
            MatchStage::Unasked | MatchStage::Came(_) => Ok(()),
        }
    }

    /// No more is expected of the last answer: counts it, and reports a line that came after all that was expected.
    fn judge<W: Write>(&mut self, writer: &mut W) -> Result<(), Refusal>
        requires room { HasRoom self.old.tally }
        ensures judged { IsJudgedAt self.old self.new }
        ensures counts { CountsOne self.old.tally self.new.tally }
        ensures quiet { OnOk result (IsQuiet self.old self.new.tally.differing
            (W.contents writer.old) (W.contents writer.new)) }
        ensures refusals { IfErr result (λ refusal. (refusal ≡ WriteFault) ⊎ (refusal ≡ Memory)) }
    {
        let finding = self.stage.finding(&self.text);
        self.tally.count(finding);
        match finding {
            CheckFinding::Differs => self.report(self.stage, None, writer),
            CheckFinding::Unasked | CheckFinding::AsExpected => Ok(()),
        }
    }

    /// Reports a line that is a slip. Gives the number of slips, 0 or 1.
    pub(crate) fn report_slip<W: Write>(
        &self,
        line: &RawLine<'_>,
        writer: &mut W,
    ) -> Result<u64, Refusal>
        ensures slips { IfOk result (λ slips. slips ≡ one_if (is_slip line.now.bytes.now)) }
        ensures quiet { IfOk result (λ slips. slips ≡ 0 → Keeps (W.contents writer.old) (W.contents writer.new)) }
        ensures refusals { IfErr result (λ refusal. (refusal ≡ WriteFault) ⊎ (refusal ≡ Memory)) }
    {
        if !is_slip(line.bytes) {
            return Ok(0);
        }
        report_slip(self.alloc, &self.place, line, writer)?;
        Ok(1)
    }

    /// Reports the answer's first line that differs from the expected one, unless `stage` says that one was reported.
    fn report<W: Write>(
        &self,
        stage: MatchStage,
        expected: Option<&[u8]>,
        writer: &mut W,
    ) -> Result<(), Refusal>
        requires within { place_of stage ≤ length self.now.text.items }
        ensures refusals { IfErr result (λ refusal. (refusal ≡ WriteFault) ⊎ (refusal ≡ Memory)) }
    {
        match stage.left(&self.text) {
            Some(came) => {
                let difference = Difference {
                    number: self.number,
                    command: &self.bytes,
                    expected,
                    came,
                };
                report_difference(self.alloc, &self.place, &difference, writer)
            }
            None => Ok(()),
        }
    }
}

/// Answers a line, and replaces `text` by the text of its answer.
fn answer_into(desk: &mut Desk, number: u32, body: Body, text: &mut Vec<u8>) -> Result<(), Refusal>
    ensures ok { OnOk result (AnswersInto desk.old desk.new number body text.new.items) }
    ensures refusals { IfErr result (λ refusal. refusal ≡ Memory) }
{
    text.clear();
    let answer = answer_line(desk, body);
    print(number, &answer, text)
}
