//! Calls of `syncfile_core`: merges of many files and of two, and a file from a listing.
ghost use Rattle.std.specs.Prelude.{IfOk};
ghost use Rattle.point_core.specs.Agreement.{HasRisingContexts};

use crate::calls::{Calls, name, point, reach_at};
use point_core::{Clocks, Items, Listing, Name, Point, Reach, Refusal};
use std::alloc::Global;
use syncfile_core::Files;

pub(crate) fn make_calls_on_merges(rt: &HostRuntime, calls: &mut Calls) {
    if let Ok(mut files) = Files::new(rt.alloc()) {
        create_and_merge(rt, calls, &mut files);
        drop(files);
    }
}

pub(crate) fn make_calls_on_one(rt: &HostRuntime, calls: &mut Calls) {
    if let Ok(mut files) = Files::new(rt.alloc()) {
        adopt_and_close(rt, calls, &mut files);
        drop(files);
    }
}

/// Merges no files, files of two contexts, a file that is missing, and into a name that is taken.
fn create_and_merge(rt: &HostRuntime, calls: &mut Calls, files: &mut Files) {
    let (f, g, h) = (name(b'f'), name(b'g'), name(b'h'));
    let (m, n, p, q) = (name(b'm'), name(b'n'), name(b'p'), name(b'q'));
    create(rt, calls, files, f, point(0, 5));
    create(rt, calls, files, g, point(1, 2));
    create(rt, calls, files, h, point(0, 7));
    create(rt, calls, files, f, point(0, 1));
    merge_many(rt, calls, files, m, &[]);
    merge_many(rt, calls, files, n, &[f, g, h]);
    merge_many(rt, calls, files, p, &[f, p]);
    merge_many(rt, calls, files, m, &[f]);
    if calls.allows(rt, "merge") {
        let merged = files.merge(q, &f, &g, &Reach::zero());
        calls.tell(rt, "merge", &merged);
    }
    for file in [f, g, h, m, n, p, q] {
        show_points(rt, calls, files, &file);
    }
    info(rt, calls, files, &m);
}

fn create(rt: &HostRuntime, calls: &mut Calls, files: &mut Files, file: Name, point: Point) {
    if calls.allows(rt, "create") {
        let created = files.create(file, point);
        calls.tell(rt, "create", &created);
    }
}

/// Merges the files at a reach of 0, which drops no point.
fn merge_many(rt: &HostRuntime, calls: &mut Calls, files: &mut Files, made: Name, inputs: &[Name]) {
    if calls.allows(rt, "merge_many") {
        let merged = files.merge_many(made, inputs, &Reach::zero());
        calls.tell(rt, "merge_many", &merged);
    }
}

fn show_points(rt: &HostRuntime, calls: &mut Calls, files: &Files, file: &Name) {
    match files.get(file) {
        Some(file) => calls.tell(rt, "get", &file.points.as_slice()),
        None => calls.tell(rt, "get", &Refusal::NoEntry),
    }
}

fn show_floor(rt: &HostRuntime, calls: &mut Calls, files: &Files, file: &Name) {
    match files.get(file) {
        Some(file) => calls.tell(rt, "floor", &file.floor),
        None => calls.tell(rt, "floor", &Refusal::NoEntry),
    }
}

/// The file's name, status and fences at the value 4 of the first context. A file without points has one fence.
fn info(rt: &HostRuntime, calls: &mut Calls, files: &Files, file: &Name) {
    if calls.allows(rt, "info") {
        let info = files.info(file, &Clocks::open(&reach_at(4)));
        calls.tell(rt, "info", &info);
    }
}

/// Makes a file of a listing, and closes it.
fn adopt_and_close(rt: &HostRuntime, calls: &mut Calls, files: &mut Files) {
    let m = name(b'm');
    adopt(rt, calls, files, m);
    show_points(rt, calls, files, &m);
    show_floor(rt, calls, files, &m);
    if calls.allows(rt, "names") {
        calls.tell(rt, "names", &files.names());
    }
    info(rt, calls, files, &m);
    show_state(rt, calls, files, &m);
    calls.tell(rt, "close", &files.close(&m));
    show_state(rt, calls, files, &m);
}

/// Makes a file of a pending point, above a floor.
fn adopt(rt: &HostRuntime, calls: &mut Calls, files: &mut Files, file: Name) {
    if calls.allows(rt, "adopt") {
        let adopted = match listing(rt.alloc()) {
            Ok(listing) => files.adopt(file, listing),
            Err(refusal) => Err(refusal),
        };
        calls.tell(rt, "adopt", &adopted);
    }
}

fn listing(alloc: Global) -> Result<Listing, Refusal>
    ensures rising { IfOk result (λ listing. HasRisingContexts listing.points) }
{
    let points = Vec::from_slice(alloc, &[point(0, 5)])?;
    Ok(Listing {
        points: Items::of(points),
        floor: reach_at(4),
    })
}

/// Whether the name is free, and the file's status at its floor and once its point is reached.
fn show_state(rt: &HostRuntime, calls: &mut Calls, files: &Files, file: &Name) {
    calls.tell(rt, "free", &files.free(file));
    for value in [4, 5] {
        let clocks = Clocks::open(&reach_at(value));
        calls.tell(rt, "status", &files.status(file, &clocks));
    }
}
