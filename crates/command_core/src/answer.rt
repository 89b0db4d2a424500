//! `Answer`: the result of a command. The desk makes it, and each printer (text, JSON, C rows) shows it.
ghost use Rattle.std.specs.Prelude.{◌≡◌, ◌≤◌, ◌^◌};
ghost use Rattle.command_core.specs.Tables.{row_count, rows_beside};

use point_core::{Items, Name, Refusal, Status, TimelineRow, Usage};
use std::marker::Model;

/// The answer of one command.
#[derive(Debug, Drop, PartialEq, Eq)]
pub enum Answer {
    /// The command took effect, and has nothing to report.
    Done,
    /// The number that was asked for: a context, a timeline's value, or 1 for yes and 0 for no.
    Value(u64),
    /// The timeline's value after an increment or its closing, and the cookies of the callbacks that fired, in order of
    /// registration.
    Raised(u64, Items<u64>),
    /// File information.
    Info(Info),
    /// The table of a buffer: for each usage from the strongest and each rising context, the pending top of all fences
    /// that were ever added.
    Show(Items<ShowRow>),
    /// Everything that the desk holds.
    Report(Report),
    /// The command changed nothing.
    Refused(Refusal),
}

/// File information, as Linux's `SYNC_IOC_FILE_INFO` reports it.
#[derive(Debug, Drop, PartialEq, Eq)]
pub struct Info {
    pub name: Name,
    pub status: Status,
    /// One row for each fence, by rising context. A file without points has one row, the stub.
    pub fences: Items<FenceRow>,
}

/// A fence of a file. The names of its timeline and driver don't change once it is signalled.
#[derive(Clone, Copy, Debug, PartialEq, Eq)]
pub struct FenceRow {
    pub timeline: Name,
    pub driver: Maker,
    pub point: u64,
    pub status: Status,
}

/// The driver that made a fence.
#[derive(Clone, Copy, Debug, PartialEq, Eq)]
pub enum Maker {
    /// A timeline of the service, as the kernel's sw_sync.
    SwSync,
    /// The kernel's stub fence, which is always signalled.
    Stub,
}

/// All timelines, files and buffers, as Linux's debugfs lists its own.
#[derive(Debug, Drop, PartialEq, Eq)]
pub struct Report {
    /// Each timeline with its value, by rising context.
    pub timelines: Items<TimelineRow>,
    /// The files in order of making. A name made again after a close counts as new.
    pub files: Items<FileRow>,
    /// The buffers in order of making, `BUFFERS` at most.
    pub buffers: Items<BufferRows>,
}

impl Model for Report {
    ghost use Rattle.std.specs.Prelude.{◌≤◌, length};
    ghost use Rattle.point_core.specs.declared.limits.TheConstants.{BUFFERS};
    ghost use Rattle.command_core.specs.Tables.{Tables};

    ghost Value = { Tables };

    ghost view = { λ r. record { timelines = r.timelines; files = r.files; buffers = r.buffers } };

    ghost inverse = { λ t. record { timelines = t.timelines; files = t.files; buffers = t.buffers } };

    ghost invariant = { λ r. length r.buffers ≤ BUFFERS };
}

impl Report {
    /// The number of rows: one for each timeline, file and buffer, and the rows of each buffer's table. Lengths of 64 bits
    /// add up to more, so it has 128.
    pub fn row_count(&self) -> u128
        ensures { result ≡ row_count self.now }
    {
        let timelines = self.timelines.as_slice().len() as u128;
        let files = self.files.as_slice().len() as u128;
        let mut count = timelines + files;
        for buffer in self.buffers.as_slice() {
            count += rows_beside(buffer);
        }
        count
    }
}

/// The buffer's row, and the rows of its table.
fn rows_beside(buffer: &BufferRows) -> u128
    ensures rows { result ≡ rows_beside buffer.now }
    ensures within { result ≤ 2 ^ 64 }
{
    buffer.rows.as_slice().len() as u128 + 1
}

/// A sync file: how many fences file information shows, and whether they are signalled.
#[derive(Clone, Copy, Debug, PartialEq, Eq)]
pub struct FileRow {
    pub name: Name,
    pub status: Status,
    /// 1 for a file without points, which is shown as the stub.
    pub count: u64,
}

/// A buffer, and the rows of its reservation.
#[derive(Debug, Drop, PartialEq, Eq)]
pub struct BufferRows {
    pub name: Name,
    pub rows: Items<ShowRow>,
}

/// The latest pending point of a timeline at a usage or a stronger one.
#[derive(Clone, Copy, Debug, PartialEq, Eq)]
pub struct ShowRow {
    pub usage: Usage,
    pub timeline: Name,
    pub point: u64,
}
