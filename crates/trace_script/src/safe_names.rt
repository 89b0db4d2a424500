//! `SafeNames`: a name for each timeline of the trace, with which the names of the script begin. No two timelines have the same
//! name (`AreApart`). A name has no `.`, so a context and a seqno can follow it behind points.
ghost use Rattle.std.specs.Prelude.{◌≡◌, [], ◌++◌, List, ℕ, Some, false, take, decimal, codes, IfOk, IfSome};
ghost use Rattle.std.specs.List.{list_any};
ghost use Rattle.point_core.specs.Named.{same_name};
ghost use Rattle.trace_core.specs.declared.fence_event.TimelineKey.{TimelineKey};
ghost use Rattle.trace_script.specs.Names.{AreApart, HasNoPoint, name_at, safe_byte, safe_name};

use indexmap::{IndexMap, IndexSet};
use point_core::Name;
use std::alloc::{AllocError, Global};
use std::marker::Model;
use text_core::{Part, push_parts};
use trace_core::TimelineKey;

/// The bytes that a timeline's name has at most, so that a file's name has room for a context and a seqno after it.
pub(crate) const SAFE_BYTES: usize = 9;

const _: () = prove!(SAFE_BYTES == 9);

/// The names of timelines.
#[derive(Drop)]
pub(crate) struct SafeNames {
    by_key: IndexMap<TimelineKey, Name>,
    taken: IndexSet<Name>,
}

impl Model for SafeNames {
    ghost use Rattle.std.specs.Prelude.{List, ℕ};
    ghost use Rattle.trace_core.specs.declared.fence_event.TimelineKey.{TimelineKey};
    ghost use Rattle.trace_script.specs.Names.{AreNames};

    ghost Value = { List (TimelineKey × List ℕ) };

    ghost view = { λ names. names.by_key.entries };

    ghost invariant = { λ names. AreNames names.by_key.entries names.taken.keys };
}

impl SafeNames {
    /// No names. Does not allocate.
    pub(crate) fn new(alloc: Global) -> SafeNames
        ensures none { result ≡ [] }
    {
        SafeNames {
            by_key: IndexMap::new(alloc),
            taken: IndexSet::new(alloc),
        }
    }

    /// The name of the timeline, which gets one if it has none.
    pub(crate) fn name(
        &mut self,
        alloc: Global,
        key: TimelineKey,
        raw: &[u8],
    ) -> Result<Name, AllocError>
        ensures named { IfOk result (λ name. name_at self.new key ≡ Some name) }
        ensures kept { (other : TimelineKey) → (name : List ℕ) →
            name_at self.old other ≡ Some name → name_at self.new other ≡ Some name }
        ensures apart { AreApart self.new }
        ensures plain { IfOk result HasNoPoint }
    {
        if let Some(name) = self.by_key.get(&key) {
            return Ok(*name);
        }
        let name = free_name(alloc, &self.taken, raw)?;
        let Ok(_new) = self.taken.insert(name) else {
            return Err(AllocError);
        };
        let Ok(_none) = self.by_key.insert(key, name) else {
            return Err(AllocError);
        };
        Ok(name)
    }
}

/// The first bytes of the name, or `t` and a number if another timeline has them.
fn free_name(alloc: Global, taken: &IndexSet<Name>, raw: &[u8]) -> Result<Name, AllocError>
    ensures free { IfOk result (λ name. list_any (same_name name) taken.now.keys ≡ false) }
    ensures plain { IfOk result HasNoPoint }
{
    if let Some(name) = free(taken, safe(alloc, raw)?) {
        return Ok(name);
    }
    for number in 0..u32::MAX {
        if let Some(name) = free(taken, numbered(alloc, number)?) {
            return Ok(name);
        }
    }
    Err(AllocError)
}

/// The name, if it is one that no timeline has.
fn free(taken: &IndexSet<Name>, name: Option<Name>) -> Option<Name>
    ensures free { IfSome result (λ name. list_any (same_name name) taken.now.keys ≡ false) }
    ensures same { IfSome result (λ free. name ≡ Some free) }
{
    let name = name?;
    if taken.contains(&name) {
        None
    } else {
        Some(name)
    }
}

/// The first bytes of a name, with `_` for each byte that these names may not hold, or none of an empty one.
fn safe(alloc: Global, raw: &[u8]) -> Result<Option<Name>, AllocError>
    ensures name { IfOk result (λ name. IfSome name (λ n. n ≡ safe_name raw.now)) }
{
    let mut name = Vec::new(alloc);
    for byte in front(raw, SAFE_BYTES) {
        name.push(safe_byte(*byte))?;
    }
    Ok(Name::read(name.as_slice()))
}

fn numbered(alloc: Global, number: u32) -> Result<Option<Name>, AllocError>
    ensures name { IfOk result (λ name. IfSome name (λ n. n ≡ codes "t" ++ decimal number)) }
    ensures plain { IfOk result (λ name. IfSome name HasNoPoint) }
{
    let mut name = Vec::new(alloc);
    push_parts(
        &mut name,
        &[Part::Text("t"), Part::Number(u64::from(number))],
    )?;
    Ok(Name::read(name.as_slice()))
}

/// The byte, or `_` if it is none that these names may hold.
fn safe_byte(byte: u8) -> u8
    ensures { result ≡ safe_byte byte }
{
    if byte.is_ascii_alphanumeric() || byte == b'_' || byte == b'-' {
        byte
    } else {
        b'_'
    }
}

/// The first bytes of a name.
pub(crate) fn front(name: &[u8], most: usize) -> &[u8]
    ensures front { result.now ≡ take most name.now }
{
    if name.len() > most {
        &name[..most]
    } else {
        name
    }
}
