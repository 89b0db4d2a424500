//! The types and functions of the public surface, each imported from the crate that promises it, so a build fails if
//! one is gone or has moved. `tests/lib/public-names` lists them with their members.
pub use clients_core::{Board, Gate, LockedBuffer, LockedTable, OpenGate, run_clients};
pub use desk_core::{
    Answer, BufferRows, Command, Desk, FenceRow, FileRow, Info, Maker, Report, ShowRow, run,
};
pub use dmabuf_core::Buffers;
pub use fence_core::{CallbackList, Fence, FenceArray, SharedFence, Signal, Watches};
pub use point_core::{
    CONTEXTS, Clocks, Context, Entry, LimitKind, Listing, Name, Point, Reach, Refusal, Status,
    TopRow, Usage, canon, covers, is_signalled, laws,
};
pub use report_core::{file_row, report_text, row, settled_text, show_text};
pub use resv_core::{Act, Plan, Resv, Settled, SharedTable};
pub use script_core::{Body, Line, LineCutter, Totals, engine, print, read_script};
pub use syncfile_core::{FenceInfo, FileInfo, Files, Status as FileStatus, SyncFile};
pub use timeline_core::{TimelineRow, Timelines};
pub use words_core::{Driver, Once, Seat, Whole, Won, Words};
