//! The words and letters in a picture.

use crate::history::Access;
use crate::shapes::{Heading, Meaning};
use point_core::Usage;

/// What is said of a pending file whose point means nothing.
pub(crate) const NOT_SIGNALLED: &str = "not signalled";

/// What is said of a picture without columns.
pub(crate) const NO_COMMANDS: &str = "no commands";

/// What is said behind a number of commands that are left out, and below it.
pub(crate) const LEFT_OUT: &str = " earlier commands are not shown";

pub(crate) const CHOOSING: &str = "(see --lines; of a trace --from and --hangs)";

/// The letter for a command's action on a buffer.
pub(crate) fn letter_of(access: Access) -> &'static str {
    match access {
        Access::Add(usage) => letter_of_usage(usage),
        Access::Import(flags) | Access::Export(flags) => letter_of_flags(flags),
        Access::Trim => "T",
    }
}

fn letter_of_usage(usage: Usage) -> &'static str {
    match usage {
        Usage::Kernel => "K",
        Usage::Write => "W",
        Usage::Read => "R",
        Usage::Bookkeep => "B",
    }
}

/// Linux's `DMA_BUF_SYNC_READ`, `DMA_BUF_SYNC_WRITE` and `DMA_BUF_SYNC_RW`.
fn letter_of_flags(flags: u32) -> &'static str {
    match flags {
        1 => "R",
        2 => "W",
        _ => "RW",
    }
}

pub(crate) fn word_of_heading(heading: Heading) -> &'static str {
    match heading {
        Heading::Clients => "clients",
        Heading::Timelines => "timelines",
        Heading::Files => "sync files",
        Heading::Buffers => "buffers",
        Heading::Watches => "watches",
        Heading::Tasks => "waiting tasks",
    }
}

pub(crate) fn words_of(meaning: Meaning) -> &'static str {
    match meaning {
        Meaning::Client => "line of a client",
        Meaning::Pending => "pending file",
        Meaning::Hanging => "file pending at the end",
        Meaning::Signalled => "signalled file",
        Meaning::Cancelled => "cancelled file",
        Meaning::Closed => "closed file",
        Meaning::Shut => "closed timeline",
        Meaning::Refused => "refused line",
        Meaning::Add => "add",
        Meaning::Letters => "Kernel, Write, Read, Bookkeep",
        Meaning::Import => "import",
        Meaning::Export => "export",
        Meaning::Trim => "trim",
        Meaning::Registered => "watch",
        Meaning::Fired => "fired",
        Meaning::Removed => "removed",
        Meaning::Waits => "task waits",
        Meaning::Woken => "task continues",
    }
}
