//! Requests about buffers, each with its answer.
use crate::tests::device::answers::{Row, Wanted, check_table_sizes, run_checked};
use device_core::{Errno, FenceDriver, Request, Text};
use point_core::{Status, Usage};
use std::test::Fail;

/// The fence of an export while it is pending, and the stub of an export of an idle buffer.
const PENDING: &[Row] = &[(b"", FenceDriver::SwSync, Status::Active, 0)];

const STUB: &[Row] = &[(b"stub", FenceDriver::Stub, Status::Signalled, 9)];

static ASKED: [(Request, Wanted); 48] = [
    (Request::Open(Text::EMPTY), Wanted::Number(1)),
    (Request::Open(Text::EMPTY), Wanted::Number(2)),
    (Request::Fence(1, 1, 1), Wanted::Number(3)),
    (Request::Fence(2, 1, 1), Wanted::Number(4)),
    (Request::Buffer(9), Wanted::Number(5)),
    (Request::Test(5, Usage::Bookkeep), Wanted::Signalled(true)),
    // A reader waits for writers, and a writer for readers too.
    (Request::Import(5, 3, 1), Wanted::Done),
    (Request::Test(5, Usage::Write), Wanted::Signalled(true)),
    (Request::Import(5, 4, 2), Wanted::Done),
    (Request::Export(5, 1), Wanted::Number(6)),
    (Request::Export(5, 2), Wanted::Number(7)),
    (
        Request::Info(6),
        Wanted::Info(b"sw_sync-2-1", Status::Active, PENDING),
    ),
    (Request::Inc(2, 1, 20), Wanted::Woken(&[4, 6])),
    (Request::Test(5, Usage::Write), Wanted::Signalled(true)),
    (Request::Test(5, Usage::Read), Wanted::Signalled(false)),
    // An export of an idle buffer is a stub with the time at which the buffer was made.
    (Request::Export(5, 1), Wanted::Number(8)),
    (
        Request::Info(8),
        Wanted::Info(b"stub-stub0-0", Status::Signalled, STUB),
    ),
    (Request::Inc(1, 1, 30), Wanted::Woken(&[3, 7])),
    (Request::Test(5, Usage::Read), Wanted::Signalled(true)),
    // The buffer is checked first, then the flags, then the file. A refusal takes no number.
    (Request::Import(3, 3, 0), Wanted::Refused(Errno::WrongKind)),
    (Request::Export(99, 0), Wanted::Refused(Errno::NoEntry)),
    (Request::Export(5, 4), Wanted::Refused(Errno::Invalid)),
    (Request::Import(5, 3, 0), Wanted::Refused(Errno::Invalid)),
    (Request::Import(5, 99, 1), Wanted::Refused(Errno::Invalid)),
    // A fence that a closed timeline has cancelled is no longer waited for.
    (Request::Fence(2, 5, 50), Wanted::Number(9)),
    (Request::Import(5, 9, 3), Wanted::Done),
    (Request::Test(5, Usage::Write), Wanted::Signalled(false)),
    (Request::Close(2, 60), Wanted::Woken(&[9])),
    (Request::Test(5, Usage::Write), Wanted::Signalled(true)),
    // A buffer has no status, and its number is gone once it is closed.
    (Request::Info(5), Wanted::Refused(Errno::WrongKind)),
    (Request::Inc(5, 1, 70), Wanted::Refused(Errno::WrongKind)),
    (Request::Close(5, 80), Wanted::Woken(&[])),
    (
        Request::Test(5, Usage::Read),
        Wanted::Refused(Errno::NoEntry),
    ),
    (Request::Buffer(90), Wanted::Number(10)),
    // An exported fence is waited for even if each file that had it is closed.
    (Request::Open(Text::EMPTY), Wanted::Number(11)),
    (Request::Fence(11, 9, 100), Wanted::Number(12)),
    (Request::Import(10, 12, 2), Wanted::Done),
    (Request::Close(12, 101), Wanted::Woken(&[])),
    (Request::Inc(11, 7, 102), Wanted::Woken(&[])),
    (Request::Export(10, 1), Wanted::Number(13)),
    (Request::Inc(11, 1, 103), Wanted::Woken(&[])),
    (Request::Inc(11, 1, 104), Wanted::Woken(&[13])),
    // So is a fence that is made later at a lower point.
    (Request::Fence(11, 13, 105), Wanted::Number(14)),
    (Request::Fence(11, 11, 105), Wanted::Number(15)),
    (Request::Inc(11, 1, 106), Wanted::Woken(&[])),
    (Request::Inc(11, 1, 107), Wanted::Woken(&[15])),
    (Request::Inc(11, 1, 108), Wanted::Woken(&[])),
    (Request::Test(10, Usage::Read), Wanted::Signalled(true)),
];

fn asked() -> &'static [(Request, Wanted)] {
    &ASKED
}

#[test]
fn buffers_are_waited_for_by_usage(rt: HostRuntime) -> Result<(), Fail> {
    let device = run_checked(&rt, rt.alloc(), asked())?;
    check_table_sizes(&rt, &device.table_sizes(), [2, 9, 1, 1]);
    Ok(())
}
