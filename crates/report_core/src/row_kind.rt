//! `RowKind`: the kind of a row, which is its first column.
ghost use Rattle.std.specs.Prelude.{◌≡◌, ◌≤◌, length};
ghost use Rattle.report_core.specs.RowKind.{kind_word};

use crate::rows::KIND_WIDTH;
use point_core::Usage;

/// The kind of a row: its first column.
#[derive(Clone, Copy, Debug, PartialEq, Eq, Hash)]
pub enum RowKind {
    Timeline,
    /// A timeline that is closed.
    Closed,
    File,
    Buffer,
    /// The pending points of a buffer at a usage or a stronger one.
    Level(Usage),
}

impl RowKind {
    /// The word of the first column.
    pub fn word(self) -> &'static str
        ensures text { result.now ≡ kind_word self }
        ensures len { length result.now ≤ KIND_WIDTH }
    {
        match self {
            RowKind::Timeline => "timeline",
            RowKind::Closed => "closed",
            RowKind::File => "file",
            RowKind::Buffer => "buffer",
            RowKind::Level(Usage::Kernel) => "kernel",
            RowKind::Level(Usage::Write) => "write",
            RowKind::Level(Usage::Read) => "read",
            RowKind::Level(Usage::Bookkeep) => "bookkeep",
        }
    }
}
