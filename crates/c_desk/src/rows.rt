//! The rows of answers as C structs. `CFileRow` is made from a `FileRow`, and the others likewise.
ghost use Rattle.std.specs.Prelude.{◌≡◌, map};
ghost use Rattle.c_handle.specs.Rows.{over};
ghost use Rattle.c_desk.specs.Reported.{filled, driver_text, c_fence_row, c_show_row, c_timeline_row, c_file_row, c_buffer_row};

use command_core::{BufferRows, FenceRow, FileRow, Maker, ShowRow};
use point_core::{Name, TimelineRow};

/// A name, NUL-terminated and NUL-padded.
pub const NAME_ROOM: usize = 32;

/// The bytes of a driver's name, NUL-terminated and NUL-padded.
pub const DRIVER_ROOM: usize = 8;

/// A C row that is made from a row of an answer.
pub trait RowOf<T>: Copy + Drop {
    ghost made_of: { T → Self };

    fn of(row: &T) -> Self
        ensures { result ≡ made_of row.now };
}

/// A fence of a file: `struct bim_fence_info`.
#[repr(C)]
#[derive(Clone, Copy, Drop)]
pub struct CFenceRow {
    pub timeline: [u8; NAME_ROOM],
    pub point: u64,
    pub driver: [u8; DRIVER_ROOM],
    pub status: i32,
}

/// A pending fence of a buffer: `struct bim_row`.
#[repr(C)]
#[derive(Clone, Copy, Drop)]
pub struct CShowRow {
    pub usage: i32,
    pub timeline: [u8; NAME_ROOM],
    pub point: u64,
}

/// A timeline of a report: `struct bim_timeline_row`.
#[repr(C)]
#[derive(Clone, Copy, Drop)]
pub struct CTimelineRow {
    pub timeline: [u8; NAME_ROOM],
    pub value: u64,
    pub is_closed: i32,
}

/// A file of a report: `struct bim_file_row`.
#[repr(C)]
#[derive(Clone, Copy, Drop)]
pub struct CFileRow {
    pub file: [u8; NAME_ROOM],
    pub fences: u64,
    pub status: i32,
}

/// A buffer of a report: `struct bim_buffer_row`.
#[repr(C)]
#[derive(Clone, Copy, Drop)]
pub struct CBufferRow {
    pub buffer: [u8; NAME_ROOM],
    pub rows: u64,
}

/// The number of rows of each kind in a report: `struct bim_counts`.
#[repr(C)]
#[derive(Clone, Copy, Drop)]
pub struct RowCounts {
    pub timelines: usize,
    pub files: usize,
    pub buffers: usize,
}

impl RowOf<FenceRow> for CFenceRow {
    ghost made_of = { c_fence_row };

    fn of(row: &FenceRow) -> CFenceRow {
        CFenceRow {
            timeline: filled(&row.timeline),
            point: row.point,
            driver: driver_text(row.driver),
            status: row.status.number(),
        }
    }
}

impl RowOf<ShowRow> for CShowRow {
    ghost made_of = { c_show_row };

    fn of(row: &ShowRow) -> CShowRow {
        CShowRow {
            usage: i32::from(row.usage.number()),
            timeline: filled(&row.timeline),
            point: row.point,
        }
    }
}

impl RowOf<TimelineRow> for CTimelineRow {
    ghost made_of = { c_timeline_row };

    fn of(row: &TimelineRow) -> CTimelineRow {
        CTimelineRow {
            timeline: filled(&row.name),
            value: row.value,
            is_closed: i32::from(row.closed),
        }
    }
}

impl RowOf<FileRow> for CFileRow {
    ghost made_of = { c_file_row };

    fn of(row: &FileRow) -> CFileRow {
        CFileRow {
            file: filled(&row.name),
            fences: row.count,
            status: row.status.number(),
        }
    }
}

impl RowOf<BufferRows> for CBufferRow {
    ghost made_of = { c_buffer_row };

    fn of(row: &BufferRows) -> CBufferRow {
        CBufferRow {
            buffer: filled(&row.name),
            rows: row.rows.as_slice().len() as u64,
        }
    }
}

/// Stores rows, as many as there is room for.
pub fn put<T, R: RowOf<T>>(given: &[T], rows: &mut [R])
    ensures { rows.new ≡ over (map R.made_of given.now) rows.old }
{
    for index in 0..given.len().min(rows.len()) {
        rows[index] = R::of(&given[index]);
    }
}

fn driver_text(driver: Maker) -> [u8; DRIVER_ROOM]
    ensures { result ≡ driver_text driver }
{
    match driver {
        Maker::SwSync => *b"sw_sync\0",
        Maker::Stub => *b"stub\0\0\0\0",
    }
}

fn filled(name: &Name) -> [u8; NAME_ROOM]
    ensures { result ≡ filled name.now }
{
    let mut bytes = [0; NAME_ROOM];
    let name = name.as_bytes();
    bytes[..name.len()].copy_from_slice(name);
    bytes
}
