//! Parts of a look: what the lines of a plan can see of a desk without watches. Two desks whose looks are the same answer the lines
//! alike forever (`laws.rt`), so the search compares looks and keeps no desk. `Parts` keeps them.
ghost use Rattle.std.specs.Prelude.{◌≡◌, true, ◌++◌, ◌∷◌, [], map, filter, IfOk, OnOk};
ghost use Rattle.explore_core.specs.Search.{is_name, has_name, is_to_come, seen_points, file_look, buffer_look};

use crate::table::Part;
use desk_core::Desk;
use point_core::{Items, Name, Point, TimelineRow, TopRow};
use std::alloc::{AllocError, Global};

/// A file, with its points: all of them if the plan asks what the file lists, or else the points to come.
#[derive(Drop, PartialEq, Eq)]
pub(crate) struct FileLook {
    pub(crate) name: Name,
    pub(crate) points: Items<Point>,
}

/// A buffer, with its pending tops.
#[derive(Drop, PartialEq, Eq)]
pub(crate) struct BufferLook {
    pub(crate) name: Name,
    pub(crate) tops: Items<TopRow>,
}

// An odd number whose bits look random: 2^64 divided by the golden ratio.
const HASH_FACTOR: u64 = 0x9E37_79B9_7F4A_7C15;

/// The number with which a hash begins. Without one a list that begins with zeros would have the hash of an empty list.
pub(crate) const SEED: u64 = 0x5851_F42D_4C95_7F2D;

impl Part for Items<TimelineRow> {
    fn hash(&self) -> u64 {
        let mut hash = SEED;
        for row in self.as_slice() {
            hash = mix(mix(hash, row.value), u64::from(row.closed));
        }
        hash
    }

    fn is_same(&self, other: &Self) -> bool {
        are_same_rows(self, other)
    }
}

impl Part for FileLook {
    fn hash(&self) -> u64 {
        let mut hash = hash_of_name(&self.name);
        for point in self.points.as_slice() {
            hash = mix(mix(hash, u64::from(point.ctx.number())), point.value);
        }
        hash
    }

    fn is_same(&self, other: &Self) -> bool {
        is_same_file(self, other)
    }
}

impl Part for Items<BufferLook> {
    fn hash(&self) -> u64 {
        let mut hash = SEED;
        for buffer in self.as_slice() {
            hash = hash_of_tops(hash, buffer.tops.as_slice());
        }
        hash
    }

    fn is_same(&self, other: &Self) -> bool {
        are_same_buffers(self, other)
    }
}

fn are_same_rows(rows: &Items<TimelineRow>, others: &Items<TimelineRow>) -> bool
    ensures { result ≡ true → rows.now ≡ others.now }
{
    *rows == *others
}

fn is_same_file(file: &FileLook, other: &FileLook) -> bool
    ensures { result ≡ true → file.now ≡ other.now }
{
    *file == *other
}

fn are_same_buffers(buffers: &Items<BufferLook>, others: &Items<BufferLook>) -> bool
    ensures { result ≡ true → buffers.now ≡ others.now }
{
    *buffers == *others
}

/// What is seen of the file of that name, with all its points if one of the names asked is its name.
pub(crate) fn file_look(
    alloc: Global,
    asked: &[Name],
    desk: &Desk,
    name: &Name,
) -> Result<FileLook, AllocError>
    ensures look { IfOk result (λ look. look ≡ file_look (has_name asked.now) desk.now name.now) }
{
    let points = seen_points(alloc, asked, desk, name)?;
    Ok(FileLook {
        name: *name,
        points: Items::of(points),
    })
}

fn seen_points(
    alloc: Global,
    asked: &[Name],
    desk: &Desk,
    file: &Name,
) -> Result<Vec<Point>, AllocError>
    ensures points { IfOk result (λ points. points.items ≡ seen_points (has_name asked.now) desk.now file.now) }
{
    let Some(listed) = desk.file_points(file) else {
        return Ok(Vec::new(alloc));
    };
    if !has_name(asked, file) {
        return points_to_come(alloc, desk, listed);
    }
    let mut points = Vec::new(alloc);
    points.extend_from_slice(listed)?;
    Ok(points)
}

/// Whether one of the names is the file's name.
pub(crate) fn has_name(names: &[Name], file: &Name) -> bool
    ensures { result ≡ has_name names.now file.now }
{
    for name in names {
        if is_name(name, file) {
            return true;
        }
    }
    false
}

pub(crate) fn is_name(name: &Name, file: &Name) -> bool
    ensures { result ≡ is_name file.now name.now }
{
    *name == *file
}

/// The points that their timelines have not reached.
fn points_to_come(alloc: Global, desk: &Desk, listed: &[Point]) -> Result<Vec<Point>, AllocError>
    ensures points { IfOk result (λ points. points.items ≡ filter (is_to_come desk.now.timelines) listed.now) }
{
    let mut points = Vec::new(alloc);
    for point in listed {
        put_to_come(&mut points, desk, point)?;
    }
    Ok(points)
}

/// Adds the point, if its timeline has not reached it.
fn put_to_come(points: &mut Vec<Point>, desk: &Desk, point: &Point) -> Result<(), AllocError>
    ensures put { OnOk result (points.new.items ≡ points.old.items ++ filter (is_to_come desk.now.timelines) (point.now ∷ [])) }
{
    if desk.point_status(*point).is_signalled() {
        return Ok(());
    }
    points.push(*point)?;
    Ok(())
}

/// What is seen of the buffers. Fails also if there is no buffer of one of the names.
pub(crate) fn buffer_looks(
    alloc: Global,
    desk: &Desk,
    names: &[Name],
) -> Result<Vec<BufferLook>, AllocError>
    ensures looks { IfOk result (λ looks. looks.items ≡ map (buffer_look desk.now) names.now) }
{
    let mut looks = Vec::with_capacity(alloc, names.len())?;
    for name in names {
        let Ok(rows) = desk.buffer_rows(name) else {
            return Err(AllocError);
        };
        looks.push(BufferLook {
            name: *name,
            tops: Items::of(rows),
        })?;
    }
    Ok(looks)
}

fn hash_of_tops(start: u64, tops: &[TopRow]) -> u64 {
    let mut hash = start;
    for top in tops {
        hash = mix(mix(hash, u64::from(top.ctx.number())), top.point);
    }
    mix(hash, tops.len() as u64)
}

fn hash_of_name(name: &Name) -> u64 {
    let mut hash = 0;
    for byte in name.as_bytes() {
        hash = mix(hash, u64::from(*byte));
    }
    hash
}

/// Mixes two numbers into one hash.
pub(crate) fn mix(hash: u64, number: u64) -> u64 {
    let mixed = (hash ^ number).wrapping_mul(HASH_FACTOR);
    mixed ^ (mixed >> 29)
}
