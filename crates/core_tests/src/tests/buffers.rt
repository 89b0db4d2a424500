//! Tests of a full buffer: a fence of every context at every usage.
use crate::tests::values::{EVERY_USAGE, are_full_rows, holds, name, numbered, value_of};
use dmabuf_core::Buffers;
use point_core::{CONTEXTS, Context, Name, Point, Reach};
use std::alloc::Global;
use std::process::Abort;
use syncfile_core::Files;

/// The flags of an access that writes.
const WRITE: u32 = 2;

/// Makes a file of point 1 of each context.
fn create_of_each_context(rt: &impl Abort, files: &mut Files) {
    for index in 0..CONTEXTS {
        let ctx = Context::at(index);
        let made = files.create(numbered(rt, index), Point { ctx, value: 1 });
        made.expect(rt, "a new file");
    }
}

/// Merges the files of all contexts into the file `all`. At a reach of 0 it keeps every point. A refusal aborts.
fn merge_all(rt: &impl Abort, alloc: Global, files: &mut Files) {
    let mut names = Vec::new(alloc);
    for index in 0..CONTEXTS {
        names.push(numbered(rt, index)).expect(rt, "memory");
    }
    let merged = files.merge_many(name(rt, b"all"), names.as_slice(), &Reach::zero());
    merged.expect(rt, "a merge");
}

/// Adds every context at every usage, each at the value of its usage.
fn fill(rt: &impl Abort, buffers: &mut Buffers, to: &Name) {
    for index in 0..CONTEXTS {
        let ctx = Context::at(index);
        for usage in EVERY_USAGE {
            let value = value_of(usage);
            let added = buffers.add(to, Point { ctx, value }, usage, &Reach::zero());
            added.expect(rt, "an added fence");
        }
    }
}

/// Imports the file of every context, three times.
fn import_thrice(rt: &impl Abort, buffers: &mut Buffers, to: &Name, files: &Files) {
    let file = files.get(&name(rt, b"all")).expect(rt, "a file");
    holds(rt, file.points.as_slice().len() == CONTEXTS);
    for _ in 0..3 {
        let imported = buffers.import(to, file, WRITE, &Reach::zero());
        imported.expect(rt, "an import");
    }
}

fn has_full_rows(rt: &impl Abort, buffers: &Buffers, name: &Name) -> bool {
    let table = buffers.table(name, &Reach::zero()).expect(rt, "memory");
    are_full_rows(table.as_slice())
}

fn fills_and_imports(rt: &impl Abort, buffers: &mut Buffers, files: &Files) {
    let b = name(rt, b"full");
    buffers.create(b).expect(rt, "a new buffer");
    fill(rt, buffers, &b);
    import_thrice(rt, buffers, &b, files);
    holds(rt, has_full_rows(rt, buffers, &b));
}

// Four usages of every context, and then three imports of a file of every context.
#[test]
fn imports_into_a_full_table(rt: HostRuntime) {
    let mut buffers = Buffers::new(rt.alloc()).expect(&rt, "buffers");
    let mut files = Files::new(rt.alloc()).expect(&rt, "files");
    create_of_each_context(&rt, &mut files);
    merge_all(&rt, rt.alloc(), &mut files);
    fills_and_imports(&rt, &mut buffers, &files);
}
