//! `Line`: a line of a plan, of which each `#repeat` is written out. `PlanScript` keeps the lines.
ghost use Rattle.std.specs.Prelude.{◌≡◌, ◌++◌, ◌∷◌, [], IfOk, OnOk, map};
ghost use Rattle.explore_report.specs.Lines.{line_text, text_read, texts_of};
ghost use Rattle.explore_report.specs.Turns.{text_in, turn_text};

use crate::filling::filled;
use crate::sections::text_at;
use crate::turn::Turn;
use std::alloc::{AllocError, Global};

/// A line of a plan, of which each `#repeat` is written out.
#[derive(Drop)]
pub(crate) struct Line<'a> {
    /// The number of the script's line, from 1.
    pub number: usize,
    pub text: Text<'a>,
}

/// The text of a line.
#[derive(Drop)]
pub(crate) enum Text<'a> {
    /// The line of the script as it is.
    Read(&'a [u8]),
    /// The line in rounds of `#repeat`.
    Filled(Vec<u8>),
}

impl<'a> Line<'a> {
    pub(crate) fn text(&self) -> &[u8]
        ensures text { result.now ≡ line_text self.now }
    {
        match &self.text {
            Text::Read(text) => text,
            Text::Filled(text) => text.as_slice(),
        }
    }
}

/// The lines of a plan that has these turns of a script's lines.
pub(crate) fn plan_lines<'a>(
    alloc: Global,
    lines: &[&'a [u8]],
    turns: &[Turn],
) -> Result<Vec<Line<'a>>, AllocError>
    ensures texts { IfOk result (λ made. map line_text made.items ≡ map (turn_text (texts_of lines.now)) turns.now) }
{
    let mut made = Vec::new(alloc);
    for turn in turns {
        push_line(alloc, lines, turn, &mut made)?;
    }
    Ok(made)
}

fn push_line<'a>(
    alloc: Global,
    lines: &[&'a [u8]],
    turn: &Turn,
    made: &mut Vec<Line<'a>>,
) -> Result<(), AllocError>
    ensures pushed { OnOk result (map line_text made.new.items
        ≡ map line_text made.old.items ++ turn_text (texts_of lines.now) turn.now ∷ []) }
{
    let text = text_in(alloc, turn, text_at(lines, turn.number))?;
    made.push(Line {
        number: turn.number,
        text,
    })?;
    Ok(())
}

/// The text of a line in the rounds of a turn.
fn text_in<'a>(alloc: Global, turn: &Turn, line: &'a [u8]) -> Result<Text<'a>, AllocError>
    ensures text { IfOk result (λ text. text_read text ≡ text_in turn.now line.now) }
{
    if turn.outer == 0 {
        return Ok(Text::Read(line));
    }
    let outer = filled(alloc, turn.outer, line)?;
    if turn.inner == 0 {
        return Ok(Text::Filled(outer));
    }
    let inner = filled(alloc, turn.inner, outer.as_slice())?;
    Ok(Text::Filled(inner))
}

/// The texts of lines.
pub(crate) fn texts_of<'a>(
    alloc: Global,
    lines: &'a [Line<'_>],
) -> Result<Vec<&'a [u8]>, AllocError>
    ensures texts { IfOk result (λ texts. texts_of texts.items ≡ map line_text lines.now) }
{
    let mut texts = Vec::new(alloc);
    for line in lines {
        texts.push(line.text())?;
    }
    Ok(texts)
}
