//! Takes what the notes of a script say into the record of its run. A note of a wait, or of the end, has a column of its own.
ghost use Rattle.std.specs.Prelude.{◌≡◌};

use crate::asking::ask_all;
use crate::margin::Margin;
use crate::remark::{Remark, Waiting};
use crate::texts::Texts;
use crate::window::Window;
use desk_core::Desk;
use picture_core::{Bar, Column, History};
use point_core::Name;
use std::alloc::{AllocError, Global};

/// The words over the columns of notes.
const WAITS: &str = "waits";

const GIVES_UP: &str = "gives up";

const END: &str = "end";

/// The place in a run at which a note is heard.
#[derive(Clone, Copy)]
pub(crate) struct Scene<'a> {
    pub(crate) alloc: Global,
    pub(crate) window: &'a Window,
    pub(crate) desk: &'a Desk,
}

/// Hears the notes before the line with that number.
pub(crate) fn hear_notes(
    scene: &Scene<'_>,
    texts: &mut Texts<'_>,
    line: u32,
    history: &mut History,
    margin: &mut Margin,
) -> Result<(), AllocError>
    ensures refused { history.new.refused ≡ history.old.refused }
{
    for number in texts.number()..line {
        let Some(text) = texts.next_line() else {
            break;
        };
        hear(scene, &Note { number, text }, history, margin)?;
    }
    Ok(())
}

/// A line without an answer.
#[derive(Clone, Copy)]
struct Note<'a> {
    number: u32,
    text: &'a [u8],
}

fn hear(
    scene: &Scene<'_>,
    note: &Note<'_>,
    history: &mut History,
    margin: &mut Margin,
) -> Result<(), AllocError>
    ensures refused { history.new.refused ≡ history.old.refused }
{
    if note.number > scene.window.last {
        return Ok(());
    }
    match Remark::read(note.text) {
        Some(Remark::Waits(wait)) => hear_wait(scene, note, &wait, history, margin),
        Some(Remark::Waited(wait)) => hear_end_of_wait(scene, note, &wait, history, margin),
        Some(Remark::End(time)) => {
            margin.time = Some(time);
            add_column(scene, note, END, history, margin)
        }
        Some(remark) => margin.hear(&remark),
        None => Ok(()),
    }
}

fn hear_wait(
    scene: &Scene<'_>,
    note: &Note<'_>,
    wait: &Waiting<'_>,
    history: &mut History,
    margin: &mut Margin,
) -> Result<(), AllocError>
    ensures refused { history.new.refused ≡ history.old.refused }
{
    margin.time = Some(wait.time);
    add_column(scene, note, WAITS, history, margin)?;
    margin.begin_wait(scene.alloc, wait, history.columns.len())
}

/// The wait for a file that is signalled or closed ends there.
fn hear_end_of_wait(
    scene: &Scene<'_>,
    note: &Note<'_>,
    wait: &Waiting<'_>,
    history: &mut History,
    margin: &mut Margin,
) -> Result<(), AllocError>
    ensures refused { history.new.refused ≡ history.old.refused }
{
    if !is_pending(history.bars.as_slice(), &wait.file) {
        return Ok(());
    }
    margin.time = Some(wait.time);
    add_column(scene, note, GIVES_UP, history, margin)?;
    margin.end_wait(wait, history.columns.len());
    Ok(())
}

fn is_pending(bars: &[Bar], file: &Name) -> bool {
    for bar in bars {
        if bar.goes_on() && bar.name == *file {
            return true;
        }
    }
    false
}

/// Adds a column for a note in the window.
fn add_column(
    scene: &Scene<'_>,
    note: &Note<'_>,
    word: &'static str,
    history: &mut History,
    margin: &mut Margin,
) -> Result<(), AllocError>
    ensures refused { history.new.refused ≡ history.old.refused }
{
    if !scene.window.has(note.number) {
        return Ok(());
    }
    if history.columns.is_empty() {
        ask_all(history.bars.as_mut_slice(), scene.desk, 0);
    }
    let note_text = Vec::from_slice(scene.alloc, note.text)?;
    history.add_column(Column {
        line: note.number,
        head: margin.next_head(),
        word,
        refused: false,
        client: None,
        note: note_text,
    })
}
