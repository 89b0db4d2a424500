//! `Table`: parts of looks by their places, each part once. The looks of a level have most parts in common. `Parts` has a table
//! for each kind of part.
ghost use Rattle.std.specs.Prelude.{◌≡◌, true, [], Some, slice_get, IfOk, IfSome};
ghost use Rattle.explore_core.specs.Search.{Begins};

use indexmap::IndexMap;
use std::alloc::{AllocError, Global};
use std::marker::Model;

/// A part of a look.
pub(crate) trait Part: Drop {
    /// A number by which the part may be found again.
    fn hash(&self) -> u64;

    fn is_same(&self, other: &Self) -> bool
        ensures { result ≡ true → self.now ≡ other.now };
}

/// The parts, and a table by their hashes. The table is a hint: a part that it suggests is compared, and a part that it misses is
/// put twice.
#[derive(Drop)]
pub(crate) struct Table<T> {
    parts: Vec<T>,
    by_hash: IndexMap<u64, usize>,
}

impl<T> Model for Table<T> {
    ghost use Rattle.std.specs.Prelude.{List};

    ghost Value = { List T };

    ghost view = { λ t. t.parts.items };
}

impl<T: Part> Table<T> {
    pub(crate) fn new(alloc: Global) -> Self
        ensures { result ≡ [] }
    {
        Table {
            parts: Vec::new(alloc),
            by_hash: IndexMap::new(alloc),
        }
    }

    /// Returns the place of the part. A part that has no place yet is put last.
    pub(crate) fn intern(&mut self, part: T) -> Result<usize, AllocError>
        ensures there { IfOk result (λ place. slice_get self.new place ≡ Some part) }
        ensures begins { Begins self.old self.new }
    {
        let hash = part.hash();
        if let Some(place) = self.find(hash, &part) {
            drop(part);
            return Ok(place);
        }
        let place = self.parts.len();
        let Ok(_old) = self.by_hash.insert(hash, place) else {
            drop(part);
            return Err(AllocError);
        };
        self.parts.push(part)?;
        Ok(place)
    }

    /// The place that the table suggests, if the part there is the same.
    fn find(&self, hash: u64, part: &T) -> Option<usize>
        ensures { IfSome result (λ place. slice_get self.now place ≡ Some part.now) }
    {
        let Some(place) = self.by_hash.get(&hash) else {
            return None;
        };
        let Some(there) = self.parts.get(*place) else {
            return None;
        };
        if !there.is_same(part) {
            return None;
        }
        Some(*place)
    }
}
