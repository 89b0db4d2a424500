//! What the notes of a plan expect. `plan_script.rt` asks of each row once, when a plan is read, and so do the plan's lines.
ghost use Rattle.std.specs.Prelude.{◌≡◌, ◌++◌, ◌∷◌, [], IfOk, OnOk};
ghost use Rattle.explore_report.specs.Expected.{begun_answers, begun_at, expects_below, expects_in, expects_of, line_expected, more_lines, right_answers, right_from};
ghost use Rattle.explore_report.specs.Lines.{texts_of};

use crate::mark::expected_text;
use crate::plan_script::{below, expecting};
use crate::row::Row;
use crate::sections::text_at;
use explore_core::{Expects, RightAnswer, RightAnswers};
use std::alloc::{AllocError, Global};

/// What is expected of each row.
pub(crate) fn expects_in(
    alloc: Global,
    lines: &[&[u8]],
    rows: &[Row],
) -> Result<Vec<Expects>, AllocError>
    ensures all { IfOk result (λ all. all.items ≡ expects_in (texts_of lines.now) rows.now) }
{
    let mut all = Vec::new(alloc);
    for (index, _) in rows.iter().enumerate() {
        push_expects(alloc, lines, below(rows, index), &mut all)?;
    }
    Ok(all)
}

fn push_expects(
    alloc: Global,
    lines: &[&[u8]],
    below: &[Row],
    all: &mut Vec<Expects>,
) -> Result<(), AllocError>
    ensures pushed { OnOk result (all.new.items ≡ all.old.items ++ expects_below (texts_of lines.now) below.now ∷ []) }
{
    all.push(expects_below(alloc, lines, below)?)?;
    Ok(())
}

/// What is expected of a line that has these rows below it.
pub(crate) fn expects_below(
    alloc: Global,
    lines: &[&[u8]],
    rows: &[Row],
) -> Result<Expects, AllocError>
    ensures expects { IfOk result (λ expects. expects ≡ expects_below (texts_of lines.now) rows.now) }
{
    expects_of(alloc, lines, expecting(rows))
}

fn expects_of(alloc: Global, lines: &[&[u8]], notes: &[Row]) -> Result<Expects, AllocError>
    ensures expects { IfOk result (λ expects. expects ≡ expects_of (texts_of lines.now) notes.now) }
{
    let Some((first, more)) = notes.split_first() else {
        return Ok(Expects::Accepted);
    };
    let answers = right_answers(alloc, lines, first, more)?;
    Ok(Expects::Texts(RightAnswers { answers }))
}

/// The answers that notes expect, of which this is the first.
fn right_answers(
    alloc: Global,
    lines: &[&[u8]],
    first: &Row,
    more: &[Row],
) -> Result<Vec<RightAnswer>, AllocError>
    ensures answers { IfOk result (λ answers. answers.items ≡ right_answers (texts_of lines.now) first.now more.now) }
{
    let mut answers = Vec::new(alloc);
    push_right(alloc, lines, first, more, &mut answers)?;
    push_begun(alloc, lines, more, &mut answers)?;
    Ok(answers)
}

/// The answers that begin among the notes.
fn push_begun(
    alloc: Global,
    lines: &[&[u8]],
    notes: &[Row],
    answers: &mut Vec<RightAnswer>,
) -> Result<(), AllocError>
    ensures pushed { OnOk result (answers.new.items ≡ answers.old.items ++ begun_answers (texts_of lines.now) notes.now) }
{
    for (index, note) in notes.iter().enumerate() {
        push_if(alloc, lines, note, below(notes, index), answers)?;
    }
    Ok(())
}

fn push_if(
    alloc: Global,
    lines: &[&[u8]],
    note: &Row,
    below: &[Row],
    answers: &mut Vec<RightAnswer>,
) -> Result<(), AllocError>
    ensures pushed { OnOk result (answers.new.items ≡ answers.old.items ++ begun_at (texts_of lines.now) note.now below.now) }
{
    if note.begins_answer() {
        push_right(alloc, lines, note, below, answers)?;
    }
    Ok(())
}

fn push_right(
    alloc: Global,
    lines: &[&[u8]],
    note: &Row,
    below: &[Row],
    answers: &mut Vec<RightAnswer>,
) -> Result<(), AllocError>
    ensures pushed { OnOk result (answers.new.items
        ≡ answers.old.items ++ right_from (texts_of lines.now) note.now below.now ∷ []) }
{
    answers.push(right_from(alloc, lines, note, below)?)?;
    Ok(())
}

/// The answer whose first line the note expects.
fn right_from(
    alloc: Global,
    lines: &[&[u8]],
    note: &Row,
    below: &[Row],
) -> Result<RightAnswer, AllocError>
    ensures right { IfOk result (λ right. right ≡ right_from (texts_of lines.now) note.now below.now) }
{
    let mut text = Vec::new(alloc);
    push_line(lines, note, &mut text)?;
    push_more(lines, below, &mut text)?;
    Ok(RightAnswer {
        text,
        begins: note.expects_front(),
    })
}

/// The further lines of an answer, up to the note that begins another.
fn push_more(lines: &[&[u8]], notes: &[Row], text: &mut Vec<u8>) -> Result<(), AllocError>
    ensures pushed { OnOk result (text.new.items ≡ text.old.items ++ more_lines (texts_of lines.now) notes.now) }
{
    for note in notes {
        if note.begins_answer() {
            return Ok(());
        }
        push_line(lines, note, text)?;
    }
    Ok(())
}

fn push_line(lines: &[&[u8]], note: &Row, text: &mut Vec<u8>) -> Result<(), AllocError>
    ensures pushed { OnOk result (text.new.items ≡ text.old.items ++ line_expected (texts_of lines.now) note.now) }
{
    text.extend_from_slice(expected_text(text_at(lines, note.number)))?;
    text.push(b'\n')?;
    Ok(())
}
