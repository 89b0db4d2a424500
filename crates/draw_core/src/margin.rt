//! `Margin`: what the notes of a script say so far of the lines below them. A run asks it for the head and the client of a column.

use crate::remark::{Remark, Waiting};
use picture_core::ColumnHead;
use point_core::Name;
use std::alloc::{AllocError, Global};

/// Microseconds of a millisecond.
const MILLISECOND: u64 = 1_000;

/// A wait that a note begins, in that column, and the column in which a note ends it.
#[derive(Drop)]
pub(crate) struct NotedWait {
    pub(crate) task: Vec<u8>,
    pub(crate) file: Name,
    pub(crate) column: usize,
    pub(crate) end: Option<usize>,
}

/// What the notes say so far.
#[derive(Drop)]
pub(crate) struct Margin {
    /// When the lines below happened, in microseconds.
    pub(crate) time: Option<u64>,
    /// Whose the lines below are, and whose only the next line is.
    pub(crate) section: Option<Name>,
    pub(crate) client: Option<Name>,
    /// The files whose points are not known.
    pub(crate) not_signalled: Vec<Name>,
    pub(crate) waits: Vec<NotedWait>,
    // the time over the last column that has one
    shown: Option<u64>,
}

impl Margin {
    /// Nothing is said. Does not allocate.
    pub(crate) fn new(alloc: Global) -> Margin {
        Margin {
            time: None,
            section: None,
            client: None,
            not_signalled: Vec::new(alloc),
            waits: Vec::new(alloc),
            shown: None,
        }
    }

    /// Hears what concerns the lines below.
    pub(crate) fn hear(&mut self, remark: &Remark<'_>) -> Result<(), AllocError> {
        match remark {
            Remark::Time(time) => self.time = Some(*time),
            Remark::Line(client) => self.client = Some(*client),
            Remark::Section(client) => self.section = Some(*client),
            Remark::NotSignalled(file) => self.not_signalled.push(*file)?,
            _ => {}
        }
        Ok(())
    }

    /// The number over the next column, which is the time if one is known, unless the column before has it.
    pub(crate) fn next_head(&mut self) -> ColumnHead {
        let Some(time) = self.time else {
            return ColumnHead::Line;
        };
        let shown = Some(time / MILLISECOND);
        if self.shown == shown {
            return ColumnHead::Blank;
        }
        self.shown = shown;
        ColumnHead::Time(time)
    }

    /// Whose the next line is.
    pub(crate) fn next_client(&mut self) -> Option<Name> {
        match self.client {
            Some(client) => {
                self.client = None;
                Some(client)
            }
            None => self.section,
        }
    }

    pub(crate) fn begin_wait(
        &mut self,
        alloc: Global,
        wait: &Waiting<'_>,
        column: usize,
    ) -> Result<(), AllocError> {
        self.waits.push(NotedWait {
            task: Vec::from_slice(alloc, wait.task.as_bytes())?,
            file: wait.file,
            column,
            end: None,
        })?;
        Ok(())
    }

    /// Ends the waits of a task for a file, in that column.
    pub(crate) fn end_wait(&mut self, wait: &Waiting<'_>, column: usize) {
        for noted in self.waits.iter_mut() {
            if noted.end.is_none() && noted.is_of(wait) {
                noted.end = Some(column);
            }
        }
    }
}

impl NotedWait {
    fn is_of(&self, wait: &Waiting<'_>) -> bool {
        self.file == wait.file && self.task.as_slice() == wait.task.as_bytes()
    }
}
