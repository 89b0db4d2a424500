//! Reports the scripts that do not pass, and the counts, at the end of a check.
ghost use Rattle.std.specs.Prelude.{◌≡◌, ◌⊎◌, ◌<◌, ◌^◌, IsTrue, length, OnOk, IfErr};
ghost use Rattle.std.specs.Io.KnownBytes.{Appends, Keeps};
ghost use Rattle.point_core.specs.declared.refusal.Refusal.TheVariants.{Write as WriteFault, Memory};
ghost use Rattle.check_core.specs.Outcome.{EndsInCounts, has_counts, totals_of};
ghost use Rattle.check_core.specs.Tally.{count_text, slips_text, totals_text};

use crate::form::CheckForm;
use crate::outcome::CheckOutcome;
use crate::parts::{ReportPart, write_parts};
use crate::scripts::CheckOptions;
use crate::tally::CheckTally;
use itoa::Buffer;
use point_core::Refusal;
use report_core::write_whole;
use std::alloc::Global;
use std::io::Write;

/// Writes the end of a report in its form, and flushes: a line for each script that does not pass, the counts, or nothing.
pub(crate) fn report_summary<W: Write>(
    alloc: Global,
    options: &CheckOptions,
    names: &[String],
    outcomes: &[CheckOutcome],
    writer: &mut W,
) -> Result<(), Refusal>

    // The counts come last, and are the sums of the counts of all scripts.
    ensures counts { OnOk result (IsTrue (has_counts options.now.form) → EndsInCounts
        (length outcomes.now) (totals_of outcomes.now) (W.contents writer.new)) }
    ensures refusals { IfErr result (λ refusal. (refusal ≡ WriteFault) ⊎ (refusal ≡ Memory)) }
{
    match options.form {
        CheckForm::Lines { .. } => {
            report_none(alloc, names, options.allows_empty, writer)?;
            report_scripts(alloc, names, outcomes, options.allows_empty, writer)?;
            report_totals(outcomes.len(), &totals_of(outcomes), writer)
        }
        CheckForm::Counts => report_totals(outcomes.len(), &totals_of(outcomes), writer),
        CheckForm::Tap(_) => flush(writer),
    }
}

/// Says that there is no script, if there should be one.
fn report_none<W: Write>(
    alloc: Global,
    names: &[String],
    allows_empty: bool,
    writer: &mut W,
) -> Result<(), Refusal>
    ensures refusals { IfErr result (λ refusal. (refusal ≡ WriteFault) ⊎ (refusal ≡ Memory)) }
{
    if allows_empty || !names.is_empty() {
        return Ok(());
    }
    write_parts(
        alloc,
        "fencectl: no script was found: no file *.fence is there\n",
        &[],
        writer,
    )
}

/// Writes a line for each script that does not pass.
fn report_scripts<W: Write>(
    alloc: Global,
    names: &[String],
    outcomes: &[CheckOutcome],
    allows_empty: bool,
    writer: &mut W,
) -> Result<(), Refusal>
    ensures refusals { IfErr result (λ refusal. (refusal ≡ WriteFault) ⊎ (refusal ≡ Memory)) }
{
    for (name, outcome) in names.iter().zip(outcomes.iter()) {
        report_script(alloc, name.as_str(), *outcome, allows_empty, writer)?;
    }
    Ok(())
}

fn report_script<W: Write>(
    alloc: Global,
    name: &str,
    outcome: CheckOutcome,
    allows_empty: bool,
    writer: &mut W,
) -> Result<(), Refusal>
    ensures refusals { IfErr result (λ refusal. (refusal ≡ WriteFault) ⊎ (refusal ≡ Memory)) }
{
    if outcome.passes(allows_empty) {
        return Ok(());
    }
    let [what, count, of, all, end] = parts_of_outcome(outcome);
    let [having, slips, noun] = parts_of_slips(outcome);
    let parts = [
        ReportPart::Text(": "),
        what,
        count,
        of,
        all,
        end,
        having,
        slips,
        noun,
        ReportPart::Text("\n"),
    ];
    write_parts(alloc, name, &parts, writer)
}

/// The reason why a script does not pass, but for its slips.
pub(crate) fn parts_of_outcome(outcome: CheckOutcome) -> [ReportPart<'static>; 5] {
    let none = ReportPart::Text("");
    match outcome {
        CheckOutcome::Checked(tally) if tally.checked == 0 => {
            [ReportPart::Text("expects nothing"), none, none, none, none]
        }
        CheckOutcome::Checked(tally) if tally.differing == 0 => [none, none, none, none, none],
        CheckOutcome::Checked(tally) => [
            ReportPart::Text("differs in "),
            ReportPart::Number(tally.differing),
            ReportPart::Text(" of "),
            ReportPart::Number(tally.checked),
            ReportPart::Text(" answers"),
        ],
        CheckOutcome::Failed(refusal) => [
            ReportPart::Text("not checked: "),
            ReportPart::Number(u64::from(refusal.number())),
            ReportPart::Text(" "),
            ReportPart::Text(refusal.name()),
            none,
        ],
    }
}

/// The number of a script's slips, if it has any, behind the reason if there is one.
pub(crate) fn parts_of_slips(outcome: CheckOutcome) -> [ReportPart<'static>; 3] {
    let none = ReportPart::Text("");
    let tally = outcome.tally();
    let having = match (tally.checked, tally.differing) {
        (1.., 0) => "has ",
        _ => ", has ",
    };
    match tally.slips {
        0 => [none, none, none],
        1 => [
            ReportPart::Text(having),
            ReportPart::Number(1),
            ReportPart::Text(" slip"),
        ],
        slips => [
            ReportPart::Text(having),
            ReportPart::Number(slips),
            ReportPart::Text(" slips"),
        ],
    }
}

/// The counts of all of them together.
fn totals_of(outcomes: &[CheckOutcome]) -> CheckTally
    ensures { result ≡ totals_of outcomes.now }
{
    let mut totals = CheckTally::new();
    for outcome in outcomes {
        totals = totals.with(&outcome.tally());
    }
    totals
}

/// Writes the line of counts, and flushes.
fn report_totals<W: Write>(files: usize, tally: &CheckTally, writer: &mut W) -> Result<(), Refusal>
    requires files { files < 2 ^ 64 }
    ensures ok { OnOk result (Appends (W.contents writer.old) (W.contents writer.new) (totals_text files tally.now)) }
    ensures refusals { IfErr result (λ refusal. refusal ≡ WriteFault) }
{
    report_count(writer, "files: ", files as u64)?;
    report_count(writer, ", answers: ", tally.lines)?;
    report_count(writer, ", expectations: ", tally.checked)?;
    report_count(writer, ", differences: ", tally.differing)?;
    report_slips(writer, tally.slips)?;
    write_whole(writer, b"\n")?;
    flush(writer)?;
    Ok(())
}

fn report_count<W: Write>(writer: &mut W, words: &str, count: u64) -> Result<(), Refusal>
    ensures ok { OnOk result (Appends (W.contents writer.old) (W.contents writer.new) (count_text words.now count)) }
    ensures refusals { IfErr result (λ refusal. refusal ≡ WriteFault) }
{
    let mut digits = Buffer::new();
    write_whole(writer, words.as_bytes())?;
    write_whole(writer, digits.format(count).as_bytes())?;
    Ok(())
}

fn report_slips<W: Write>(writer: &mut W, slips: u64) -> Result<(), Refusal>
    ensures ok { OnOk result (Appends (W.contents writer.old) (W.contents writer.new) (slips_text slips)) }
    ensures refusals { IfErr result (λ refusal. refusal ≡ WriteFault) }
{
    if slips == 0 {
        Ok(())
    } else {
        report_count(writer, ", slips: ", slips)
    }
}

fn flush<W: Write>(writer: &mut W) -> Result<(), Refusal>
    ensures bytes { Keeps (W.contents writer.old) (W.contents writer.new) }
    ensures refusals { IfErr result (λ refusal. refusal ≡ WriteFault) }
{
    writer.flush().map_err(|_| Refusal::Write)
}
