//! `Request` and `Reply`: the calls of a device as data, so that theorems can speak of whole runs.
use crate::info::FileInfo;
use crate::text::Text;
use point_core::{Status, Usage};

/// A request, with its time in nanoseconds if the kernel would read its clock.
#[derive(Clone, Copy)]
pub enum Request {
    /// Opening `sync/sw_sync`; the name is the task's.
    Open(Text),
    /// `SW_SYNC_IOC_CREATE_FENCE`: a timeline, a point, a time.
    Fence(u64, u32, u64),
    /// `SW_SYNC_IOC_INC`: a timeline, by how much, a time.
    Inc(u64, u32, u64),
    /// `SYNC_IOC_MERGE`: two files, and a name.
    Merge(u64, u64, Text),
    /// The status that `SYNC_IOC_FILE_INFO` reports on a file.
    Status(u64),
    /// A poll of a file.
    IsSignalled(u64),
    /// `SYNC_IOC_FILE_INFO` on a file.
    Info(u64),
    /// The last close of an object, and a time.
    Close(u64, u64),
    /// A new buffer, and a time.
    Buffer(u64),
    /// `DMA_BUF_IOCTL_EXPORT_SYNC_FILE`: a buffer, and flags.
    Export(u64, u32),
    /// `DMA_BUF_IOCTL_IMPORT_SYNC_FILE`: a buffer, a file, and flags.
    Import(u64, u64, u32),
    /// A poll of a buffer, at a usage and the stronger ones.
    Test(u64, Usage),
}

/// The reply to an accepted request; a refused request has an `Errno`.
#[derive(Drop)]
pub enum Reply {
    /// The number of the new object.
    Number(u64),
    /// The files that the request signals, by rising number.
    Woken(Vec<u64>),
    /// The status of a file.
    Status(Status),
    /// Whether a file is signalled, or the fences of a buffer.
    Signalled(bool),
    /// The information on a file and its fences.
    Info(FileInfo),
    /// An import was done.
    Done,
}
