//! Calls of `dmabuf_core`: imports into a buffer, and exports from it.
use crate::calls::{Calls, name, plain, point};
use dmabuf_core::Buffers;
use point_core::{Listing, Name, Reach, Refusal};
use syncfile_core::SyncFile;

pub(crate) fn make_calls(rt: &HostRuntime, calls: &mut Calls) {
    if let Ok(mut buffers) = Buffers::new(rt.alloc()) {
        create_and_import(rt, calls, &mut buffers);
        drop(buffers);
    }
}

fn create_and_import(rt: &HostRuntime, calls: &mut Calls, buffers: &mut Buffers) {
    let (b, x) = (name(b'B'), name(b'X'));
    create(rt, calls, buffers, b);
    create(rt, calls, buffers, b);
    import_plain(rt, calls, buffers, b, x);
    // For reading, above no value.
    if calls.allows(rt, "export") {
        show_listing(rt, calls, &buffers.export(&b, 1, &Reach::zero()));
    }
    if calls.allows(rt, "table") {
        calls.tell(rt, "table", &buffers.table(&b, &Reach::zero()));
    }
}

fn create(rt: &HostRuntime, calls: &mut Calls, buffers: &mut Buffers, buffer: Name) {
    if calls.allows(rt, "create") {
        let created = buffers.create(buffer);
        calls.tell(rt, "create", &created);
    }
}

/// Imports a file into one buffer with each of these flags, and into another, which doesn't exist.
fn import_plain(
    rt: &HostRuntime,
    calls: &mut Calls,
    buffers: &mut Buffers,
    there: Name,
    missing: Name,
) {
    if let Ok(file) = plain(rt, calls, point(0, 3)) {
        for flags in [0, 4, 7, 3u32] {
            import(rt, calls, buffers, &there, &file, flags);
        }
        import(rt, calls, buffers, &missing, &file, 0);
        drop(file);
    }
}

fn import(
    rt: &HostRuntime,
    calls: &mut Calls,
    buffers: &mut Buffers,
    to: &Name,
    file: &SyncFile,
    flags: u32,
) {
    if calls.allows(rt, "import") {
        let imported = buffers.import(to, file, flags, &Reach::zero());
        calls.tell(rt, "import", &imported);
    }
}

pub(crate) fn show_listing(
    rt: &HostRuntime,
    calls: &mut Calls,
    listing: &Result<Listing, Refusal>,
) {
    match listing {
        Ok(exported) => calls.tell(rt, "export", &exported.points.as_slice()),
        Err(_) => calls.tell_made(rt, "export", listing),
    }
}
