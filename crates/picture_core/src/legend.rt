//! The legend of a picture: a sample of each sign that the picture has, with its meaning.

use crate::history::Access;
use crate::measure::text_width;
use crate::shapes::{Canvas, Drawn, Face, Fill, Label, Mark, Meaning, Sample, Spot};
use crate::sheet::PAD;
use crate::word::words_of;
use point_core::Usage;
use std::alloc::AllocError;

/// The least width of a picture, in which the longest meaning fits.
pub(crate) const LEGEND_WIDTH: u64 = 320;
/// From the top to the middle of the first line, and from line to line.
const FIRST: u64 = 20;

const NEXT: u64 = 26;
/// Half the height of a sample of a bar.
const HALF_SAMPLE: u64 = 7;
/// The width of a sign, and the gap between a text and the next sign.
const SIGN: u64 = 30;

const MIDDLE: u64 = SIGN / 2 - 4;

const BESIDE: u64 = 22;

/// All meanings, in their order in a legend.
const MEANINGS: [Meaning; 18] = [
    Meaning::Client,
    Meaning::Pending,
    Meaning::Hanging,
    Meaning::Signalled,
    Meaning::Cancelled,
    Meaning::Closed,
    Meaning::Shut,
    Meaning::Refused,
    Meaning::Add,
    Meaning::Letters,
    Meaning::Import,
    Meaning::Export,
    Meaning::Trim,
    Meaning::Registered,
    Meaning::Fired,
    Meaning::Removed,
    Meaning::Waits,
    Meaning::Woken,
];

/// Places the legend of what is on the canvas under the drawing, in lines of at most that width. Gives its bottom.
pub(crate) fn push_legend(top: u64, width: u64, canvas: &mut Canvas) -> Result<u64, AllocError> {
    let mut at = Spot {
        x: PAD,
        y: top.saturating_add(FIRST),
    };
    for meaning in MEANINGS {
        if canvas.has(sample_of(meaning)) {
            at = place_of(meaning, &at, width);
            push_meaning(meaning, &at, canvas)?;
            at.x = at.x.saturating_add(width_of(meaning));
        }
    }
    Ok(at.y.saturating_add(FIRST))
}

/// The place of a meaning: there, or at the beginning of the next line, where it doesn't fit.
fn place_of(meaning: Meaning, at: &Spot, width: u64) -> Spot {
    let end = at.x.saturating_add(width_of(meaning));
    if at.x == PAD || end.saturating_sub(BESIDE) <= width {
        return *at;
    }
    Spot {
        x: PAD,
        y: at.y.saturating_add(NEXT),
    }
}

fn width_of(meaning: Meaning) -> u64 {
    text_width(words_of(meaning).len() as u64).saturating_add(SIGN + BESIDE)
}

fn push_meaning(meaning: Meaning, at: &Spot, canvas: &mut Canvas) -> Drawn {
    push_sample(meaning, at, canvas)?;
    let x = at.x.saturating_add(SIGN);
    let y = at.y.saturating_add(4);
    canvas.text(Face::Meaning, x, y, &Label::Meaning(meaning))
}

/// What a meaning is seen by. Letters are in the marks of adds.
fn sample_of(meaning: Meaning) -> Sample {
    match meaning {
        Meaning::Client => Sample::Fill(Fill::Client),
        Meaning::Pending => Sample::Fill(Fill::Pending),
        Meaning::Hanging => Sample::Fill(Fill::Hanging),
        Meaning::Signalled => Sample::Fill(Fill::Signalled),
        Meaning::Cancelled => Sample::Fill(Fill::Cancelled),
        Meaning::Closed => Sample::Mark(Mark::Closed),
        Meaning::Shut => Sample::Mark(Mark::Shut),
        Meaning::Refused => Sample::Mark(Mark::Refused),
        Meaning::Add | Meaning::Letters => Sample::Mark(Mark::Add),
        Meaning::Import => Sample::Mark(Mark::Import),
        Meaning::Export => Sample::Mark(Mark::Export),
        Meaning::Trim => Sample::Mark(Mark::Trim),
        Meaning::Registered => Sample::Mark(Mark::Registered),
        Meaning::Fired => Sample::Mark(Mark::Fired),
        Meaning::Removed => Sample::Mark(Mark::Removed),
        Meaning::Waits => Sample::Mark(Mark::Waits),
        Meaning::Woken => Sample::Mark(Mark::Woken),
    }
}

fn push_sample(meaning: Meaning, at: &Spot, canvas: &mut Canvas) -> Drawn {
    match sample_of(meaning) {
        Sample::Fill(fill) => push_fill(fill, at, canvas),
        Sample::Mark(mark) => {
            let x = at.x.saturating_add(MIDDLE);
            canvas.mark(mark, x, at.y)?;
            push_letter(meaning, x, at.y, canvas)
        }
    }
}

/// The letter in the sample of a mark.
fn push_letter(meaning: Meaning, x: u64, y: u64, canvas: &mut Canvas) -> Drawn {
    let access = match meaning {
        Meaning::Letters => Access::Add(Usage::Kernel),
        Meaning::Trim => Access::Trim,
        _ => return Ok(()),
    };
    canvas.text(Face::Letter, x, y.saturating_add(4), &Label::Access(access))
}

fn push_fill(fill: Fill, at: &Spot, canvas: &mut Canvas) -> Drawn {
    let at = Spot {
        x: at.x,
        y: at.y.saturating_sub(HALF_SAMPLE),
    };
    canvas.area(fill, &at, SIGN - 8, HALF_SAMPLE * 2)?;
    if fill == Fill::Client {
        return Ok(());
    }
    canvas.edge(&at, SIGN - 8, HALF_SAMPLE * 2, false)
}
