//! Runs requests on a device, and compares its answers with the wanted ones.
use crate::tests::values::holds;
use device_core::{
    Device, Errno, FenceDriver, FenceInfo, FileInfo, Reply, Request, TableSizes, run,
};
use point_core::Status;
use std::alloc::Global;
use std::process::Abort;
use std::test::Fail;

/// An answer, or a refusal.
#[derive(Clone, Copy, PartialEq, Eq)]
pub(crate) enum Wanted {
    Number(u64),
    Woken(&'static [u64]),
    Status(Status),
    Signalled(bool),
    Info(&'static [u8], Status, &'static [Row]),
    Done,
    Refused(Errno),
}

/// Information on a fence: the name of its timeline, its driver and status, and when it signalled.
pub(crate) type Row = (&'static [u8], FenceDriver, Status, u64);

/// Has a new device serve the requests, and checks its answers.
pub(crate) fn run_checked(
    rt: &impl Abort,
    alloc: Global,
    asked: &[(Request, Wanted)],
) -> Result<Device, Fail> {
    let mut requests = Vec::new(alloc);
    for (request, _wanted) in asked {
        requests.push(*request)?;
    }
    let (device, answers) = run(alloc, requests.as_slice())?;
    check(rt, answers.as_slice(), asked);
    Ok(device)
}

/// Checks that each answer is the one beside its request.
fn check(rt: &impl Abort, answers: &[Result<Reply, Errno>], asked: &[(Request, Wanted)]) {
    let mut left = asked;
    for answer in answers {
        let Some((first, rest)) = left.split_first() else {
            break;
        };
        holds(rt, is_wanted(answer, &first.1));
        left = rest;
    }
    holds(rt, left.is_empty() && answers.len() == asked.len());
}

/// Checks the numbers of timelines, files and buffers, and the number of points for which files wait.
pub(crate) fn check_table_sizes(rt: &impl Abort, sizes: &TableSizes, wanted: [usize; 4]) {
    let counts = [sizes.timelines, sizes.files, sizes.buffers, sizes.waiting];
    holds(rt, counts == wanted);
}

fn is_wanted(given: &Result<Reply, Errno>, wanted: &Wanted) -> bool {
    match given {
        Ok(answer) => is_answer(answer, wanted),
        Err(refusal) => *wanted == Wanted::Refused(*refusal),
    }
}

fn is_answer(answer: &Reply, wanted: &Wanted) -> bool {
    match answer {
        Reply::Number(number) => *wanted == Wanted::Number(*number),
        Reply::Woken(woken) => is_woken(woken.as_slice(), wanted),
        Reply::Status(status) => *wanted == Wanted::Status(*status),
        Reply::Signalled(signalled) => *wanted == Wanted::Signalled(*signalled),
        Reply::Info(info) => is_info(info, wanted),
        Reply::Done => *wanted == Wanted::Done,
    }
}

fn is_woken(woken: &[u64], wanted: &Wanted) -> bool {
    match wanted {
        Wanted::Woken(files) => woken == *files,
        _ => false,
    }
}

fn is_info(info: &FileInfo, wanted: &Wanted) -> bool {
    match wanted {
        Wanted::Info(name, status, rows) => {
            info.name.as_bytes() == *name
                && info.status == *status
                && are_rows(info.fences.as_slice(), rows)
        }
        _ => false,
    }
}

fn are_rows(fences: &[FenceInfo], rows: &[Row]) -> bool {
    let mut are = fences.len() == rows.len();
    for (place, fence) in fences.iter().enumerate() {
        are = are && is_at(rows, place, fence);
    }
    are
}

fn is_at(rows: &[Row], place: usize, fence: &FenceInfo) -> bool {
    match rows.get(place) {
        Some(row) => is_row(fence, row),
        None => false,
    }
}

fn is_row(fence: &FenceInfo, row: &Row) -> bool {
    fence.timeline.as_bytes() == row.0
        && fence.driver == row.1
        && fence.status == row.2
        && fence.at == row.3
}
