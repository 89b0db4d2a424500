//! Checks files and standard input one after another, and reports each and the counts. `fencectl check` calls it.
ghost use Rattle.std.specs.Prelude.{◌≡◌, ◌⊎◌, [], Ok, Some, IfOk, OnOk, IfErr, length, string_bytes};
ghost use Rattle.point_core.specs.declared.refusal.Refusal.TheVariants.{Write as WriteFault, Memory};
ghost use Rattle.source_core.specs.Input.{file_named};
ghost use Rattle.source_core.specs.Source.{HasUnread};
ghost use Rattle.check_core.specs.Outcome.{CameOf, CameOfEach, ComesOf, IsOutcome, is_passed};
ghost use Rattle.check_core.specs.Tap.{TellsTest};

use crate::form::{CheckForm, CheckPlace};
use crate::items::report_items;
use crate::outcome::{CheckOutcome, Verdict, verdict_of};
use crate::reading::check;
use crate::sink::Sink;
use crate::summary::report_summary;
use crate::tap::{Test, write_plan};
use point_core::Refusal;
use source_core::{Input, Source};
use std::alloc::Global;
use std::io::{Read, Write};
use std::rt::Files;

/// The options of a check.
#[derive(Clone, Copy)]
pub struct CheckOptions {
    pub form: CheckForm,
    /// Whether a script may expect nothing.
    pub allows_empty: bool,
}

/// Checks the scripts of these names, one after another; `-` is standard input. Results are written in the form of the
/// options: tests to `output`, all else to `errors`, also what differs in a test. The cause of a failed open or read is reported on
/// standard error.
///
/// Fails with `Write` if a write failed, and with `Memory`.
pub fn check_scripts<R: Files + Eprint + AllocGlobal, S: Read + Copy + Drop, O: Write, W: Write>(
    rt: &R,
    options: &CheckOptions,
    names: &[String],
    standard_input: S,
    output: &mut O,
    errors: &mut W,
) -> Result<Verdict, Refusal>
    ensures verdict { IfOk result (λ verdict. ComesOf (λ name. HasUnread R.File.remaining S.remaining
        (file_named (Some (string_bytes name))) standard_input) names.now options.now verdict (W.contents errors.new)) }
    ensures refusals { IfErr result (λ refusal. (refusal ≡ WriteFault) ⊎ (refusal ≡ Memory)) }
{
    write_plan(rt.alloc(), options, names.len(), output)?;
    let mut outcomes = Vec::new(rt.alloc());
    check_each(
        rt,
        options,
        names,
        standard_input,
        &mut outcomes,
        output,
        errors,
    )?;
    let outcomes = outcomes.as_slice();
    report_summary(rt.alloc(), options, names, outcomes, errors)?;
    Ok(verdict_of(outcomes, options.allows_empty))
}

/// Checks each script, and appends its outcome.
fn check_each<R: Files + Eprint + AllocGlobal, S: Read + Copy + Drop, O: Write, W: Write>(
    rt: &R,
    options: &CheckOptions,
    names: &[String],
    standard_input: S,
    outcomes: &mut Vec<CheckOutcome>,
    output: &mut O,
    errors: &mut W,
) -> Result<(), Refusal>
    requires none { outcomes.old.items ≡ [] }
    ensures count { OnOk result (length outcomes.new.items ≡ length names.now) }
    ensures each { OnOk result (CameOfEach (λ name. HasUnread R.File.remaining S.remaining
        (file_named (Some (string_bytes name))) standard_input) names.now outcomes.new.items) }
    ensures refusals { IfErr result (λ refusal. (refusal ≡ WriteFault) ⊎ (refusal ≡ Memory)) }
{
    for (index, name) in names.iter().enumerate() {
        let outcome = check_script(
            rt,
            options,
            index,
            name.as_str(),
            standard_input,
            output,
            errors,
        )?;
        outcomes.push(outcome).map_err(|_| Refusal::Memory)?;
    }
    Ok(())
}

/// Checks a script, which `before` others precede, and reports the result.
fn check_script<R: Files + Eprint + AllocGlobal, S: Read + Drop, O: Write, W: Write>(
    rt: &R,
    options: &CheckOptions,
    before: usize,
    name: &str,
    standard_input: S,
    output: &mut O,
    errors: &mut W,
) -> Result<CheckOutcome, Refusal>
    ensures outcome { IfOk result (CameOf (HasUnread R.File.remaining S.remaining
        (file_named (Some name.now)) standard_input)) }
    ensures refusals { IfErr result (λ refusal. (refusal ≡ WriteFault) ⊎ (refusal ≡ Memory)) }
{
    let form = options.form;
    let place = CheckPlace { name, form };
    match form {
        CheckForm::Tap(_) => {
            let mut differences = Vec::new(rt.alloc());
            let mut sink: Sink<'_, W> = Sink::Kept(&mut differences);
            let outcome = outcome_of(rt, &place, standard_input, &mut sink);
            let differences = differences.as_slice();
            let outcome = report_test(
                rt.alloc(),
                options,
                before,
                name,
                outcome,
                differences,
                output,
            )?;
            report_items(rt.alloc(), name, differences, errors)?;
            Ok(outcome)
        }
        CheckForm::Lines { .. } | CheckForm::Counts => {
            outcome_of(rt, &place, standard_input, &mut Sink::Through(errors))
        }
    }
}

/// Reports the test of a script. Its differences were kept in memory, so a write of one failed only for want of it.
fn report_test<'a, O: Write>(
    alloc: Global,
    options: &CheckOptions,
    before: usize,
    name: &'a str,
    outcome: Result<CheckOutcome, Refusal>,
    differences: &'a [u8],
    output: &mut O,
) -> Result<CheckOutcome, Refusal>
    ensures outcome { IfOk result (λ reported. outcome ≡ Ok reported) }
    ensures told { IfOk result (λ reported. TellsTest (is_passed options.now.allows_empty reported)
        (O.contents output.old) (O.contents output.new)) }
    ensures refusals { IfErr result (λ refusal. (refusal ≡ WriteFault) ⊎ (refusal ≡ Memory)) }
{
    let Ok(outcome) = outcome else {
        return Err(Refusal::Memory);
    };
    let test = Test {
        before,
        name,
        outcome,
        differences,
    };
    test.write(alloc, outcome.passes(options.allows_empty), output)?;
    Ok(outcome)
}

/// The outcome of a script. Its differences go to the sink.
///
/// Fails with `Write` and with `Memory`.
fn outcome_of<R: Files + Eprint + AllocGlobal, S: Read + Drop, W: Write>(
    rt: &R,
    place: &CheckPlace<'_>,
    standard_input: S,
    sink: &mut Sink<'_, W>,
) -> Result<CheckOutcome, Refusal>
    ensures outcome { IfOk result (CameOf (HasUnread R.File.remaining S.remaining
        (file_named (Some place.now.name.now)) standard_input)) }
    ensures refusals { IfErr result (λ refusal. (refusal ≡ WriteFault) ⊎ (refusal ≡ Memory)) }
{
    match Source::open(rt, Input::named(place.name), standard_input) {
        Ok(mut source) => outcome_of_reader(rt.alloc(), place, &mut source, sink),
        Err(refusal) => Ok(CheckOutcome::Failed(refusal)),
    }
}

/// The outcome of the script of a reader.
///
/// Fails with `Write` and with `Memory`.
fn outcome_of_reader<R: Read, W: Write>(
    alloc: Global,
    place: &CheckPlace<'_>,
    reader: &mut R,
    sink: &mut Sink<'_, W>,
) -> Result<CheckOutcome, Refusal>
    ensures outcome { IfOk result (IsOutcome (R.remaining reader.old)) }
    ensures refusals { IfErr result (λ refusal. (refusal ≡ WriteFault) ⊎ (refusal ≡ Memory)) }
{
    match check(alloc, place, reader, sink) {
        Ok(tally) => Ok(CheckOutcome::Checked(tally)),
        Err(Refusal::Write) => Err(Refusal::Write),
        Err(Refusal::Memory) => Err(Refusal::Memory),
        Err(refusal) => Ok(CheckOutcome::Failed(refusal)),
    }
}
