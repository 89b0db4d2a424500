//! `Parts`: the parts of a level's looks, each part once. `Places`: a look by the places of its parts. A look takes kilobytes, its
//! places take some hundred bytes, and two looks are compared by their places. `Level` keeps both.
ghost use Rattle.std.specs.Prelude.{◌≡◌, ◌++◌, ◌∷◌, ℕ, ◌<◌, true, [], Some, slice_get, length, map, All, Contains, IfOk, OnOk};
ghost use Rattle.timeline_core.specs.Timeline.{rows_of as timeline_rows};
ghost use Rattle.syncfile_core.specs.Files.{HasDistinctNames, names_of as file_names};
ghost use Rattle.dmabuf_core.specs.Buffers.{names_of as buffer_names};
ghost use Rattle.explore_core.specs.Search.{Begins, IsGrown, Fits, Shows, AreSamePlaces, has_name, file_look, buffer_look, no_parts, look_of, file_at};

use crate::look::{BufferLook, FileLook, SEED, buffer_looks, file_look, mix};
use crate::table::Table;
use desk_core::Desk;
use point_core::{Items, Name, TimelineRow};
use std::alloc::{AllocError, Global};

/// The timelines of looks, their files one by one, and their buffers.
#[derive(Drop)]
pub(crate) struct Parts {
    timelines: Table<Items<TimelineRow>>,
    files: Table<FileLook>,
    buffers: Table<Items<BufferLook>>,
}

/// A look by the places of its parts.
#[derive(Drop)]
pub(crate) struct Places {
    timelines: usize,
    files: Vec<usize>,
    buffers: usize,
}

impl Parts {
    pub(crate) fn new(alloc: Global) -> Parts
        ensures { result ≡ no_parts }
    {
        Parts {
            timelines: Table::new(alloc),
            files: Table::new(alloc),
            buffers: Table::new(alloc),
        }
    }

    /// The places of the parts of what the desk shows, with all points of the files that are asked what they list. A part that has
    /// no place yet is put last.
    pub(crate) fn look_at(
        &mut self,
        alloc: Global,
        asked: &[Name],
        desk: &Desk,
    ) -> Result<Places, AllocError>
        ensures shows { IfOk result (λ places. Shows (has_name asked.now) (look_of self.new places) desk.now) }
        ensures fits { IfOk result (Fits self.new) }
        ensures grown { IsGrown self.old self.new }
    {
        let timelines = timelines_place(&mut self.timelines, desk)?;
        let buffers = buffers_place(alloc, &mut self.buffers, desk)?;
        let files = file_places(alloc, asked, &mut self.files, desk)?;
        Ok(Places {
            timelines,
            files,
            buffers,
        })
    }
}

fn timelines_place(table: &mut Table<Items<TimelineRow>>, desk: &Desk) -> Result<usize, AllocError>
    ensures there { IfOk result (λ place. slice_get table.new place ≡ Some (timeline_rows desk.now.timelines)) }
    ensures begins { Begins table.old table.new }
{
    let Ok(rows) = desk.timeline_rows() else {
        return Err(AllocError);
    };
    table.intern(Items::of(rows))
}

fn buffers_place(
    alloc: Global,
    table: &mut Table<Items<BufferLook>>,
    desk: &Desk,
) -> Result<usize, AllocError>
    ensures there { IfOk result (λ place. slice_get table.new place
        ≡ Some (map (buffer_look desk.now) (buffer_names desk.now.buffers))) }
    ensures begins { Begins table.old table.new }
{
    let Ok(names) = desk.buffer_names() else {
        return Err(AllocError);
    };
    let Ok(looks) = buffer_looks(alloc, desk, names.as_slice()) else {
        drop(names);
        return Err(AllocError);
    };
    drop(names);
    table.intern(Items::of(looks))
}

fn file_places(
    alloc: Global,
    asked: &[Name],
    table: &mut Table<FileLook>,
    desk: &Desk,
) -> Result<Vec<usize>, AllocError>
    ensures files { IfOk result (λ places. map (file_at table.new) places.items
        ≡ map (file_look (has_name asked.now) desk.now) (file_names desk.now.files)) }
    ensures distinct { HasDistinctNames desk.now.files }
    ensures fit { IfOk result (λ places. All (λ (i : ℕ). i < length table.new) places.items) }
    ensures begins { Begins table.old table.new }
{
    let Ok(names) = desk.file_names() else {
        return Err(AllocError);
    };
    let places = places_of(alloc, asked, table, desk, names.as_slice());
    drop(names);
    places
}

/// The places of the files of these names.
fn places_of(
    alloc: Global,
    asked: &[Name],
    table: &mut Table<FileLook>,
    desk: &Desk,
    names: &[Name],
) -> Result<Vec<usize>, AllocError>
    ensures files { IfOk result (λ places. map (file_at table.new) places.items
        ≡ map (file_look (has_name asked.now) desk.now) names.now) }
    ensures fit { IfOk result (λ places. All (λ (i : ℕ). i < length table.new) places.items) }
    ensures begins { Begins table.old table.new }
{
    let mut places = Vec::with_capacity(alloc, names.len())?;
    for name in names {
        put_place(alloc, asked, table, desk, name, &mut places)?;
    }
    Ok(places)
}

fn put_place(
    alloc: Global,
    asked: &[Name],
    table: &mut Table<FileLook>,
    desk: &Desk,
    name: &Name,
    places: &mut Vec<usize>,
) -> Result<(), AllocError>
    ensures put { OnOk result ((place : ℕ) × (slice_get table.new place ≡ Some (file_look (has_name asked.now) desk.now name.now))
        × (places.new.items ≡ places.old.items ++ place ∷ [])) }
    ensures begins { Begins table.old table.new }
{
    let look = file_look(alloc, asked, desk, name)?;
    let place = table.intern(look)?;
    places.push(place)?;
    Ok(())
}

impl Places {
    /// Whether both looks have the same parts, with the files in whatever order.
    pub(crate) fn is_same(&self, other: &Places) -> bool
        ensures { result ≡ true → AreSamePlaces self.now other.now }
    {
        if self.timelines != other.timelines {
            return false;
        }
        if self.buffers != other.buffers {
            return false;
        }
        are_same_files(self.files.as_slice(), other.files.as_slice())
    }

    /// A number by which the look may be found again: looks that are the same have the same number.
    pub(crate) fn hash(&self) -> u64 {
        let hash = mix(mix(SEED, self.timelines as u64), self.buffers as u64);
        mix(hash, hash_of_files(self.files.as_slice()))
    }
}

/// A sum, which does not depend on the order of the files.
fn hash_of_files(files: &[usize]) -> u64 {
    let mut sum: u64 = 0;
    for file in files {
        let place = *file as u64;
        sum = sum.wrapping_add(mix(mix(SEED, place), place));
    }
    sum
}

/// Whether both have the same files, in whatever order.
fn are_same_files(files: &[usize], others: &[usize]) -> bool
    ensures count { result ≡ true → length files.now ≡ length others.now }
    ensures there { result ≡ true → All (Contains others.now) files.now }
    ensures here { result ≡ true → All (Contains files.now) others.now }
{
    files.len() == others.len() && are_among(files, others) && are_among(others, files)
}

/// Whether each file is one of the others.
fn are_among(files: &[usize], others: &[usize]) -> bool
    ensures { result ≡ true → All (Contains others.now) files.now }
{
    for (place, file) in files.iter().enumerate() {
        if !is_among(*file, place, others) {
            return false;
        }
    }
    true
}

/// Whether the file is one of the others. Most are at the same place in both, where it is looked for first.
fn is_among(file: usize, place: usize, others: &[usize]) -> bool
    ensures { result ≡ true → Contains others.now file }
{
    if is_at(file, place, others) {
        return true;
    }
    for other in others {
        if *other == file {
            return true;
        }
    }
    false
}

/// Whether the file is at this place of the others.
fn is_at(file: usize, place: usize, others: &[usize]) -> bool
    ensures { result ≡ true → Contains others.now file }
{
    let Some(other) = others.get(place) else {
        return false;
    };
    if *other == file {
        return true;
    }
    false
}
