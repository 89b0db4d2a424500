//! Draws links: arrows from the lanes that a command reads to the one that it makes or changes.

use crate::history::{Lane, Link};
use crate::lanes::HALF_BAR;
use crate::shapes::{Canvas, Drawn, Mark, Spot, Stroke};
use crate::sheet::Sheet;

/// Half the height of a mark on a buffer's lane, and of a mark on a watch's or a task's.
const HALF_SIGN: u64 = 10;

const HALF_WATCH: u64 = 6;

/// The lines of the links, which come before the lanes, so that they pass behind the bars that they have nothing to do with.
pub(crate) fn push_link_lines(links: &[Link], sheet: &Sheet, canvas: &mut Canvas) -> Drawn {
    for link in links {
        let arrow = Arrow::of(sheet, link);
        let from = Spot {
            x: arrow.x,
            y: arrow.from,
        };
        let to = Spot {
            x: arrow.x,
            y: arrow.end,
        };
        canvas.line(Stroke::Link, &from, &to)?;
    }
    Ok(())
}

/// Where the links begin and end, above the lanes.
pub(crate) fn push_link_ends(links: &[Link], sheet: &Sheet, canvas: &mut Canvas) -> Drawn {
    for link in links {
        let arrow = Arrow::of(sheet, link);
        canvas.mark(Mark::From, arrow.x, arrow.from)?;
        canvas.mark(arrow.head, arrow.x, arrow.end)?;
    }
    Ok(())
}

/// An arrow from the middle of one lane to the edge of the mark on another.
#[derive(Clone, Copy)]
struct Arrow {
    x: u64,
    from: u64,
    end: u64,
    head: Mark,
}

impl Arrow {
    fn of(sheet: &Sheet, link: &Link) -> Arrow {
        let x = sheet.middle(link.column);
        let from = sheet.height_of(link.from);
        let to = sheet.height_of(link.to);
        let room = room_at(link.to);
        if from <= to {
            let end = to.saturating_sub(room);
            return Arrow {
                x,
                from,
                end,
                head: Mark::Down,
            };
        }
        let end = to.saturating_add(room);
        Arrow {
            x,
            from,
            end,
            head: Mark::Up,
        }
    }
}

/// Half the height of the mark on a lane.
fn room_at(lane: Lane) -> u64 {
    match lane {
        Lane::Client(_) | Lane::Timeline(_) => 0,
        Lane::Bar(_) => HALF_BAR,
        Lane::Buffer(_) => HALF_SIGN,
        Lane::Watch(_) | Lane::Task(_) => HALF_WATCH,
    }
}
