//! Appends an answer's text to the output, and writes the output once enough is pending.
ghost use Rattle.std.specs.Prelude.{◌≡◌, ◌⊎◌, ◌++◌, ◌<◌, OnOk, OnErr, IfErr, length};
ghost use Rattle.point_core.specs.declared.refusal.Refusal.TheVariants.{Write as WriteFault, Memory};
ghost use Rattle.report_core.specs.declared.writing.TheConstants.{WRITE_BYTES};
ghost use Rattle.report_core.specs.Bytes.{AppendsFront, PassesOn};
ghost use Rattle.report_core.specs.Answer.{text_of};

use crate::answer::push_answer;
use crate::writing::write_many;
use command_core::Answer;
use point_core::Refusal;
use std::io::Write;

/// Appends the text of the answer of line `line` to `out`, and writes `out` if enough is pending.
///
/// Fails with Write if a write failed or took no byte, and with Memory if an allocation failed: then a prefix of the
/// pending output and of the text is written, and `out` is unspecified.
pub fn pass_answer<W: Write>(
    line: u32,
    answer: Answer,
    out: &mut Vec<u8>,
    writer: &mut W,
) -> Result<(), Refusal>
    ensures ok { OnOk result (PassesOn out.old.items out.new.items (text_of line answer)
        (W.contents writer.old) (W.contents writer.new)) }
    ensures few { OnOk result (length out.new.items < WRITE_BYTES) }
    ensures err { OnErr result (AppendsFront (W.contents writer.old) (W.contents writer.new)
        (out.old.items ++ text_of line answer)) }
    ensures refusals { IfErr result (λ refusal. (refusal ≡ WriteFault) ⊎ (refusal ≡ Memory)) }
{
    push_answer(line, &answer, out)?;
    write_many(writer, out)?;
    Ok(())
}
