//! Expands paths to scripts: a folder is expanded to the scripts below it. Names lose the `NAME/..` that build systems put in.
use crate::input::{STANDARD_INPUT, reported};
use std::alloc::{AllocError, Global};
use std::fs::{DirEntry, ReadDir};
use std::rt::Files;
use std::{fs, io};

/// The ending of a script's file name.
const SUFFIX: &str = ".fence";

/// The step out of a folder, in the middle of a path.
const UP: &str = "/../";

/// The scripts at the given paths, in order: for a folder the files below it whose names end with `.fence`, sorted by
/// their bytes, and for any other path the path itself. A link to a folder is followed if it is one of the paths, but
/// not below one. A folder that can't be listed is returned as a path, so that reading it fails and reports why. A path with
/// `NAME/..` in it is shortened where that leads to the same file.
///
/// Fails if memory was refused.
pub fn script_files<R: Files + Eprint + AllocGlobal + Clone + Drop>(
    rt: &R,
    paths: &[&str],
) -> Result<Vec<String>, AllocError> {
    let mut files = Vec::new(rt.alloc());
    for path in paths {
        if *path == STANDARD_INPUT {
            push_name(rt, STANDARD_INPUT, &mut files)?;
        } else {
            let short = short_path(rt, path)?;
            add_path(rt, short.as_str(), &mut files)?;
        }
    }
    Ok(files)
}

/// The path without `NAME/..`, or as it is if that would lead to another file, as it does where NAME is a link.
fn short_path<R: Files + AllocGlobal>(rt: &R, path: &str) -> Result<String, AllocError> {
    if path.contains(UP) {
        let short = without_detours(rt.alloc(), path)?;
        if is_same_file(rt, short.as_str(), path) {
            return Ok(short);
        }
    }
    String::from_str(rt.alloc(), path)
}

/// The path without each `NAME/..`.
fn without_detours(alloc: Global, path: &str) -> Result<String, AllocError> {
    let mut parts = Vec::new(alloc);
    for part in path.split('/') {
        if part == ".." && is_name(parts.last()) {
            parts.pop();
        } else {
            parts.push(part)?;
        }
    }
    join(alloc, parts.as_slice())
}

/// Whether a part of a path is the name of a folder in the one before it.
fn is_name(part: Option<&&str>) -> bool {
    match part {
        Some(name) => !name.is_empty() && *name != "." && *name != "..",
        None => false,
    }
}

fn join(alloc: Global, parts: &[&str]) -> Result<String, AllocError> {
    let mut path = String::new(alloc);
    for (index, part) in parts.iter().enumerate() {
        if index > 0 {
            path.push_str("/")?;
        }
        path.push_str(part)?;
    }
    Ok(path)
}

fn is_same_file<R: Files + AllocGlobal>(rt: &R, one: &str, other: &str) -> bool {
    match (fs::canonicalize(rt, one), fs::canonicalize(rt, other)) {
        (Ok(one), Ok(other)) => one.as_str() == other.as_str(),
        _ => false,
    }
}

fn push_name<R: AllocGlobal>(
    rt: &R,
    name: &str,
    names: &mut Vec<String>,
) -> Result<(), AllocError> {
    let name = String::from_str(rt.alloc(), name)?;
    names.push(name)?;
    Ok(())
}

fn add_path<R: Files + Eprint + AllocGlobal + Clone + Drop>(
    rt: &R,
    path: &str,
    files: &mut Vec<String>,
) -> Result<(), AllocError> {
    match fs::read_dir(rt, path) {
        Ok(entries) => {
            let mut below = files_below(rt, path, entries)?;
            files.append(&mut below)?;
            Ok(())
        }
        Err(error) => push_unlisted(rt, path, &error, files),
    }
}

/// A path that can't be listed is a file, or can't be read either.
fn push_unlisted<R: AllocGlobal>(
    rt: &R,
    path: &str,
    error: &io::Error,
    files: &mut Vec<String>,
) -> Result<(), AllocError> {
    if error.kind() == io::ErrorKind::OutOfMemory {
        return Err(AllocError);
    }
    push_name(rt, path, files)
}

/// The files below a folder, and the folders that can't be listed.
fn files_below<R: Files + Eprint + AllocGlobal + Clone + Drop>(
    rt: &R,
    folder: &str,
    entries: ReadDir<R, Global>,
) -> Result<Vec<String>, AllocError> {
    let mut files = Vec::new(rt.alloc());
    let mut folders = Vec::new(rt.alloc());
    add_entries(rt, folder, entries, &mut folders, &mut files)?;
    for _ in 0..u64::MAX {
        let Some(folder) = folders.pop() else {
            break;
        };
        add_folder(rt, folder.as_str(), &mut folders, &mut files)?;
    }
    files.sort()?;
    Ok(files)
}

fn add_folder<R: Files + Eprint + AllocGlobal + Clone + Drop>(
    rt: &R,
    folder: &str,
    folders: &mut Vec<String>,
    files: &mut Vec<String>,
) -> Result<(), AllocError> {
    match fs::read_dir(rt, folder) {
        Ok(entries) => add_entries(rt, folder, entries, folders, files),
        Err(error) => push_unlisted(rt, folder, &error, files),
    }
}

fn add_entries<R: Files + Eprint + AllocGlobal + Clone + Drop>(
    rt: &R,
    folder: &str,
    entries: ReadDir<R, Global>,
    folders: &mut Vec<String>,
    files: &mut Vec<String>,
) -> Result<(), AllocError> {
    for entry in entries {
        match reported(rt, folder, entry) {
            Ok(entry) => add_entry(rt, &entry, folders, files)?,
            Err(_) => push_name(rt, folder, files)?,
        }
    }
    Ok(())
}

fn add_entry<R: Files + AllocGlobal>(
    rt: &R,
    entry: &DirEntry<R, Global>,
    folders: &mut Vec<String>,
    files: &mut Vec<String>,
) -> Result<(), AllocError> {
    let path = entry.path().as_str();
    if is_folder(entry) {
        push_name(rt, path, folders)
    } else if path.ends_with(SUFFIX) {
        push_name(rt, path, files)
    } else {
        Ok(())
    }
}

fn is_folder<R: Files>(entry: &DirEntry<R, Global>) -> bool {
    match entry.file_type() {
        Ok(kind) => kind.is_dir(),
        Err(_) => false,
    }
}
