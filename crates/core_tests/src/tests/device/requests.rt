//! Requests about timelines and files, each with its answer.
use crate::tests::device::answers::{Wanted, run_checked};
use device_core::{Errno, FenceDriver, Request, Text};
use point_core::Status;
use std::test::Fail;

static ASKED: [(Request, Wanted); 50] = [
    // A fence signals once its point is reached.
    (Request::Open(Text::EMPTY), Wanted::Number(1)),
    (Request::Fence(1, 5, 10), Wanted::Number(2)),
    (Request::Status(2), Wanted::Status(Status::Active)),
    (Request::Inc(1, 4, 20), Wanted::Woken(&[])),
    (Request::Inc(1, 1, 30), Wanted::Woken(&[2])),
    (Request::Status(2), Wanted::Status(Status::Signalled)),
    // Points of 32 bits wrap.
    (Request::Open(Text::EMPTY), Wanted::Number(3)),
    (Request::Fence(3, 0x8000_0000, 1), Wanted::Number(4)),
    (Request::Fence(3, 0x7fff_ffff, 1), Wanted::Number(5)),
    (Request::Fence(3, 0xffff_ffff, 1), Wanted::Number(6)),
    (Request::IsSignalled(4), Wanted::Signalled(true)),
    (Request::IsSignalled(5), Wanted::Signalled(false)),
    (Request::IsSignalled(6), Wanted::Signalled(true)),
    (Request::Inc(3, 0xffff_ffff, 2), Wanted::Woken(&[5])),
    (Request::Fence(3, 3, 3), Wanted::Number(7)),
    (Request::IsSignalled(7), Wanted::Signalled(false)),
    (Request::Inc(3, 4, 4), Wanted::Woken(&[7])),
    // A closing cancels the pending points, and keeps the reached ones signalled.
    (Request::Open(Text::EMPTY), Wanted::Number(8)),
    (Request::Fence(8, 1, 1), Wanted::Number(9)),
    (Request::Fence(8, 2, 1), Wanted::Number(10)),
    (Request::Inc(8, 1, 2), Wanted::Woken(&[9])),
    (Request::Close(8, 3), Wanted::Woken(&[10])),
    (Request::Status(9), Wanted::Status(Status::Signalled)),
    (Request::Status(10), Wanted::Status(Status::Cancelled)),
    (Request::Inc(8, 1, 4), Wanted::Refused(Errno::NoEntry)),
    (Request::Fence(8, 9, 4), Wanted::Refused(Errno::NoEntry)),
    // The first fence that is pending or has an error gives the status; a merge drops fences that have signalled.
    (Request::Open(Text::EMPTY), Wanted::Number(11)),
    (Request::Open(Text::EMPTY), Wanted::Number(12)),
    (Request::Fence(11, 1, 1), Wanted::Number(13)),
    (Request::Fence(12, 1, 1), Wanted::Number(14)),
    (Request::Merge(14, 13, Text::EMPTY), Wanted::Number(15)),
    (Request::Merge(15, 13, Text::EMPTY), Wanted::Number(16)),
    (Request::Close(11, 2), Wanted::Woken(&[13])),
    (Request::Status(15), Wanted::Status(Status::Cancelled)),
    (Request::IsSignalled(15), Wanted::Signalled(false)),
    (
        Request::Merge(15, 11, Text::EMPTY),
        Wanted::Refused(Errno::NoEntry),
    ),
    (Request::Inc(13, 1, 2), Wanted::Refused(Errno::WrongKind)),
    (Request::Merge(15, 14, Text::EMPTY), Wanted::Number(17)),
    (Request::Inc(12, 1, 3), Wanted::Woken(&[14, 15, 16, 17])),
    (Request::Status(16), Wanted::Status(Status::Cancelled)),
    (Request::Status(17), Wanted::Status(Status::Signalled)),
    // A number is gone once it is closed, and a merge of signalled files is a stub.
    (Request::Close(15, 4), Wanted::Woken(&[])),
    (Request::Status(15), Wanted::Refused(Errno::NoEntry)),
    (Request::Merge(13, 16, Text::EMPTY), Wanted::Number(18)),
    (Request::Status(18), Wanted::Status(Status::Signalled)),
    (Request::Status(12), Wanted::Refused(Errno::WrongKind)),
    (Request::Close(99, 5), Wanted::Refused(Errno::NoEntry)),
    // A file has the name of its fence, and a row for each fence with the time of its signal.
    (
        Request::Info(2),
        Wanted::Info(
            b"sw_sync-1-5",
            Status::Signalled,
            &[(b"", FenceDriver::SwSync, Status::Signalled, 30)],
        ),
    ),
    (
        Request::Info(16),
        Wanted::Info(
            b"dma_fence_array-unbound16-1",
            Status::Cancelled,
            &[
                (b"", FenceDriver::SwSync, Status::Cancelled, 2),
                (b"", FenceDriver::SwSync, Status::Signalled, 3),
            ],
        ),
    ),
    (
        Request::Info(18),
        Wanted::Info(
            b"stub-stub0-0",
            Status::Signalled,
            &[(b"stub", FenceDriver::Stub, Status::Signalled, 3)],
        ),
    ),
];

fn asked() -> &'static [(Request, Wanted)] {
    &ASKED
}

#[test]
fn requests_are_answered_as_linux_answers(rt: HostRuntime) -> Result<(), Fail> {
    run_checked(&rt, rt.alloc(), asked())?;
    Ok(())
}
