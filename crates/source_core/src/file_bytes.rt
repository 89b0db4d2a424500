//! Reads a file as a whole, and replaces one atomically. `check --update` and `draw` use it.
ghost use Rattle.std.specs.Prelude.{◌+◌, ◌-◌, ◌^◌, min, IfOk, OnOk};
ghost use Rattle.source_core.specs.FileBytes.{HasFront, WasGiven};

use std::fs::{File, OpenFile};
use std::io::{Read, Write};
use std::rt::Files;
use std::{fs, io};

/// The bytes of a file; reads at most `most` and one.
pub fn read_file<R: Files + AllocGlobal>(rt: &R, name: &str, most: u64) -> io::Result<Vec<u8>>
    ensures front { IfOk result (λ bytes. HasFront R.File.remaining (min (most + 1) (2 ^ 64 - 1)) bytes.items) }
{
    let mut bytes = Vec::new(rt.alloc());
    let file = fs::open(rt, name)?;
    file.take(most.saturating_add(1)).read_to_end(&mut bytes)?;
    Ok(bytes)
}

/// Replaces the contents of a file, following links: a file beside it is written, with the same permissions, and
/// renamed once it is complete and on disk. So the name always leads to a complete file.
///
/// If that fails, the file stays as it was, and the one beside it is removed. If there was one beside it before, it is
/// left alone, and the call fails.
pub fn replace_file<R: Files + AllocGlobal>(rt: &R, name: &str, bytes: &[u8]) -> io::Result<()>
    ensures written { OnOk result (WasGiven R.File.contents bytes.now) }
{
    let path = fs::canonicalize(rt, name)?;
    write_beside(rt, path.as_str(), Some(path.as_str()), bytes)
}

/// Replaces the contents of a file as `replace_file` does, or makes the file if the name is new.
pub fn put_file<R: Files + AllocGlobal>(rt: &R, name: &str, bytes: &[u8]) -> io::Result<()>
    ensures written { OnOk result (WasGiven R.File.contents bytes.now) }
{
    match fs::metadata(rt, name) {
        Ok(_) => replace_file(rt, name, bytes),
        Err(error) if error.kind() == io::ErrorKind::NotFound => {
            write_beside(rt, name, None, bytes)
        }
        Err(error) => Err(error),
    }
}

/// Writes a file beside that name, with the permissions of the old file if there is one, and renames it.
fn write_beside<R: Files + AllocGlobal>(
    rt: &R,
    name: &str,
    old: Option<&str>,
    bytes: &[u8],
) -> io::Result<()>
    ensures written { OnOk result (WasGiven R.File.contents bytes.now) }
{
    let mut beside = String::from_str(rt.alloc(), name)?;
    beside.push_str(".new")?;
    let file = File::create_new(rt, beside.as_str())?;
    let written = complete(rt, name, beside.as_str(), file, old, bytes);
    if written.is_err() {
        // The first error is reported, whether or not this succeeds.
        let _ = fs::remove_file(rt, beside.as_str());
    }
    written
}

/// Writes the whole file to the disk, and gives it its name.
fn complete<R: Files>(
    rt: &R,
    name: &str,
    beside: &str,
    mut file: R::File,
    old: Option<&str>,
    bytes: &[u8],
) -> io::Result<()>
    ensures written { OnOk result (WasGiven R.File.contents bytes.now) }
{
    keep_permissions(rt, old, &mut file)?;
    file.write_all(bytes)?;
    file.sync_all()?;
    fs::rename(rt, beside, name)
}

fn keep_permissions<R: Files>(rt: &R, old: Option<&str>, file: &mut R::File) -> io::Result<()> {
    let Some(old) = old else {
        return Ok(());
    };
    let permissions = fs::metadata(rt, old)?.permissions();
    file.set_permissions(permissions)
}
