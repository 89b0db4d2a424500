//! `Reasons`: the explanations in a picture's notes, by `reason_core`. `drawing.rt` gives one to each run.

use command_core::Command;
use desk_core::Desk;
use draw_core::{Explain, RefusedLine};
use line_core::Body;
use point_core::Refusal;
use reason_core::{Book, NoteLook, NotePlace, explain_bad_line, explain_command};
use std::alloc::Global;

/// The lines that made each name and cookie of a run.
#[derive(Drop)]
pub(crate) struct Reasons {
    alloc: Global,
    book: Book,
}

impl Reasons {
    /// No line was run.
    pub(crate) fn new(alloc: Global) -> Reasons {
        Reasons {
            alloc,
            book: Book::new(alloc),
        }
    }
}

impl Explain for Reasons {
    fn accept(&mut self, line: u32, command: &Command, desk: &Desk) -> Result<(), Refusal> {
        self.book.enter(line, command, desk)
    }

    fn explain(
        &self,
        desk: &Desk,
        refused: &RefusedLine<'_>,
        note: &mut Vec<u8>,
    ) -> Result<(), Refusal> {
        let refusal = refused.refusal;
        let place = NotePlace {
            line: refused.line.number,
            look: NoteLook::Plain,
        };
        match refused.body {
            Body::Cmd(command) => explain_command(desk, &self.book, &place, command, refusal, note),
            Body::Bad(_) => explain_bad_line(self.alloc, &place, refused.line, refusal, note),
        }
        .map_err(|_| Refusal::Memory)
    }
}
