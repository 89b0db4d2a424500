//! `Rows`: rows on which no two slices overlap, as Perfetto needs. A row keeps the end of its last slice; a slice gets a row that
//! ended before it begins.

use indexmap::IndexSet;
use std::alloc::{AllocError, Global};
use std::collections::BTreeSet;
use trace_core::{ContextKey, TimelineKey};

/// The numbers that Linux gives to threads are less than this one, its `PID_MAX_LIMIT`. Processes that show drivers have
/// greater numbers.
const PIDS: u64 = 4_194_304;

/// Rows that show no thread of the kernel have this number or a greater one.
const ROWS: u64 = 8_388_608;

/// A row: a thread of a process, by their numbers.
#[derive(Clone, Copy)]
pub(crate) struct TrackRow {
    pub(crate) process: u64,
    pub(crate) thread: u64,
}

/// The owner of rows.
#[derive(Clone, Copy, PartialEq, Eq, Hash)]
pub(crate) enum Track {
    /// A timeline: the fences of its first context, and of its contexts that have one point.
    Timeline(TimelineKey),
    /// Another context.
    Context(ContextKey),
    /// The waits of a thread.
    Task(u32),
}

impl Track {
    /// Pseudo-pid under which Perfetto groups this driver or task.
    pub(crate) fn process(&self) -> u64 {
        match self {
            Track::Timeline(key) => process_of_driver(key.driver),
            Track::Context(key) => process_of_driver(key.driver),
            Track::Task(pid) => u64::from(*pid).min(PIDS),
        }
    }
}

/// The number of the process that shows a driver.
pub(crate) fn process_of_driver(driver: u32) -> u64 {
    u64::from(driver) + (PIDS + 1)
}

/// A row, by its track and then by the end of its last slice.
#[derive(Clone, Copy, PartialEq, Eq, PartialOrd, Ord)]
struct Used {
    track: u64,
    end: u64,
    thread: u64,
}

/// The row of a slice, and whether the row is new.
#[derive(Clone, Copy)]
pub(crate) struct RowPlace {
    pub(crate) row: TrackRow,
    /// Whether it is the first slice of the row.
    pub(crate) is_new: bool,
    /// The place of its track among all, by first use.
    pub(crate) track: u64,
}

/// The rows of each track.
#[derive(Drop)]
pub(crate) struct Rows {
    tracks: IndexSet<Track>,
    used: BTreeSet<Used>,
}

impl Rows {
    /// No rows. Does not allocate.
    pub(crate) fn new(alloc: Global) -> Rows {
        Rows {
            tracks: IndexSet::new(alloc),
            used: BTreeSet::new(alloc),
        }
    }

    /// A row of the track on which each slice ended before `begin`: the one that was left last, or a new one if there is none. That no
    /// slices of a row overlap is tested.
    pub(crate) fn place(
        &mut self,
        track: Track,
        begin: u64,
        end: u64,
    ) -> Result<RowPlace, AllocError> {
        let Ok((number, is_first)) = self.tracks.insert_full(track) else {
            return Err(AllocError);
        };
        let number = number as u64;
        let free = self.take_free(number, begin);
        let thread = match free {
            Some(thread) => thread,
            None => self.next_thread(track, is_first),
        };
        self.keep(Used {
            track: number,
            end,
            thread,
        })?;
        Ok(RowPlace {
            row: TrackRow {
                process: track.process(),
                thread,
            },
            is_new: free.is_none(),
            track: number,
        })
    }

    /// Removes the row of the track that was left last before `begin`; returns its number.
    fn take_free(&mut self, track: u64, begin: u64) -> Option<u64> {
        let row = self.free(track, begin)?;
        self.used.remove(&row);
        Some(row.thread)
    }

    fn free(&self, track: u64, begin: u64) -> Option<Used> {
        let limit = Used {
            track,
            end: begin,
            thread: 0,
        };
        let row = *self.used.range(..limit).next_back()?;
        if row.track == track { Some(row) } else { None }
    }

    fn keep(&mut self, row: Used) -> Result<(), AllocError> {
        match self.used.insert(row) {
            Ok(_) => Ok(()),
            Err(_) => Err(AllocError),
        }
    }

    /// The number of the next row. The first row of a thread has the number of the thread.
    fn next_thread(&self, track: Track, is_first: bool) -> u64 {
        if let Track::Task(pid) = track {
            if u64::from(pid) < PIDS && is_first {
                return u64::from(pid);
            }
        }
        ROWS.saturating_add(self.used.len() as u64)
    }
}
