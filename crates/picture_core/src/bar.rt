//! `Bar`: a sync file in the picture, from the column that makes it to the one that closes it.

use point_core::{Name, Status};

/// The column from which the file is signalled, and how.
#[derive(Clone, Copy)]
pub struct BarSettled {
    pub column: usize,
    /// Signalled, or cancelled.
    pub status: Status,
}

/// The bar of a sync file. Columns are numbered from 1; 0 is before the first.
#[derive(Clone, Copy)]
pub struct Bar {
    pub name: Name,
    /// The column of the command that made it.
    pub made: usize,
    /// None while it is pending.
    pub settled: Option<BarSettled>,
    /// The column of the command that closed it.
    pub closed: Option<usize>,
}

impl Bar {
    /// A bar for a file that the command of column `made` creates.
    pub(crate) fn of(name: &Name, made: usize) -> Bar {
        Bar {
            name: *name,
            made,
            settled: None,
            closed: None,
        }
    }

    /// Whether it is the bar of an open file with this name.
    pub(crate) fn is_open_of(&self, name: &Name) -> bool {
        self.closed.is_none() && self.name == *name
    }

    /// Whether it is neither settled nor closed.
    pub fn goes_on(&self) -> bool {
        self.settled.is_none() && self.closed.is_none()
    }
}

/// The index of the open bar with this name.
pub(crate) fn open_place(bars: &[Bar], name: &Name) -> Option<usize> {
    for (place, bar) in bars.iter().enumerate() {
        if bar.is_open_of(name) {
            return Some(place);
        }
    }
    None
}
