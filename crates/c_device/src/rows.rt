//! Information on files and fences as C structs.
ghost use Rattle.std.specs.Prelude.{◌≡◌, map};
ghost use Rattle.c_handle.specs.Rows.{over};
ghost use Rattle.c_device.specs.Queries.{c_point};
ghost use Rattle.c_device.specs.Reported.{driver_text, c_fence_info};

use device_core::{Fence, FenceDriver, FenceInfo, TEXT_BYTES};

/// A driver name, NUL-terminated and NUL-padded.
pub const DRIVER_TEXT_BYTES: usize = 8;

/// Information on a fence: `struct bim_device_fence_info`.
#[repr(C)]
#[derive(Clone, Copy, Drop)]
pub struct CFenceInfo {
    pub timeline: [u8; TEXT_BYTES],
    pub at: u64,
    pub driver: [u8; DRIVER_TEXT_BYTES],
    pub status: i32,
}

/// Information on a file: `struct bim_device_file_info`.
#[repr(C)]
#[derive(Clone, Copy, Drop)]
pub struct CFileInfo {
    pub name: [u8; TEXT_BYTES],
    pub fences: u64,
    pub status: i32,
}

/// A fence by its point: `struct bim_device_point`.
#[repr(C)]
#[derive(Clone, Copy, Drop)]
pub struct CPoint {
    pub timeline: u64,
    pub value: u64,
    pub is_pending: i32,
}

/// What an increment did: `struct bim_device_raised`.
#[repr(C)]
#[derive(Clone, Copy, Drop)]
pub struct CRaised {
    pub pending: u64,
    pub woken: u64,
}

/// Stores rows, as many as there is room for. Rows past the last fence keep what they had.
pub fn put(fences: &[FenceInfo], rows: &mut [CFenceInfo])
    ensures { rows.new ≡ over (map c_fence_info fences.now) rows.old }
{
    for index in 0..fences.len().min(rows.len()) {
        rows[index] = row_of(&fences[index]);
    }
}

/// The fence's timeline, its point of 64 bits, and 1 while it is pending, else 0.
#[inline(always)]
pub fn c_point(fence: &Fence) -> CPoint
    ensures { result ≡ c_point fence.now }
{
    CPoint {
        timeline: fence.timeline,
        value: fence.value,
        is_pending: i32::from(fence.signal.is_none()),
    }
}

fn row_of(fence: &FenceInfo) -> CFenceInfo
    ensures { result ≡ c_fence_info fence.now }
{
    CFenceInfo {
        timeline: fence.timeline.bytes,
        at: fence.at,
        driver: driver_text(fence.driver),
        status: fence.status.number(),
    }
}

fn driver_text(driver: FenceDriver) -> [u8; DRIVER_TEXT_BYTES]
    ensures { result ≡ driver_text driver }
{
    match driver {
        FenceDriver::SwSync => *b"sw_sync\0",
        FenceDriver::Stub => *b"stub\0\0\0\0",
    }
}
