//! `FileSlots`: files by name, in order of making, each found, made and closed in constant time. `Files` keeps its files
//! in one.
ghost use Rattle.std.specs.Prelude.{◌≡◌, ℕ, ◌+◌, ◌^◌, ◌<◌, ◌≤◌, true, false, [], ◌∷◌, ◌++◌, length, take, map, option_copied, position, None, Some, Ok, Err, MatchOption, IsOk, IsErr, OnOk, OnErr, IfOk, IfErr};
ghost use Rattle.point_core.specs.declared.refusal.Refusal.TheVariants.{Memory, NoEntry};
ghost use Rattle.std.specs.List.{IsDistinct};
ghost use Rattle.std.specs.List.Sorted.{IsPermutation, IsNonDecreasingBy};
ghost use Rattle.point_core.specs.Agreement.{HasRisingContexts};
ghost use Rattle.point_core.specs.Named.{same_name};
ghost use Rattle.point_core.specs.Refusal.{IsRefusedFor};
ghost use Rattle.syncfile_core.specs.Drafts.{drafted};
ghost use Rattle.syncfile_core.specs.Files.{has_file, without_file, names_of, numbered_name_of, entries_of, files_made, files_in, AreKept, AreInPlace, HasDistinctNames, cause_to_refuse};
ghost use Rattle.syncfile_core.specs.SyncFile.{file_at};
ghost use Rattle.syncfile_core.specs.Renumbered.{numbered_from, IsNumberedAnew};

use crate::draft::Draft;
use crate::files::FILES;
use crate::sync_file::SyncFile;
use indexmap::IndexSet;
use point_core::{LimitKind, Name, Refusal};
use std::alloc::{AllocError, Global};
use std::marker::Model;

/// A file, and its serial number. The file is in a box, so that little is moved when a file is closed.
#[derive(Drop)]
pub(crate) struct NumberedFile {
    file: Box<SyncFile>,
    number: u64,
}

/// A name, and the serial number of its file.
#[derive(Clone, Copy, Drop)]
struct NumberedName {
    name: Name,
    number: u64,
}

/// Files in order of making. A file is found, made and closed in constant time, however many there are: files are
/// stored in any order with a serial number each, and sorted by it when they are listed.
#[derive(Drop)]
pub(crate) struct FileSlots {
    // the names of the open files, at the indexes that these have in `made`
    names: IndexSet<Name>,
    // the open files, and after them closed ones, whose memory the next files reuse
    made: Vec<NumberedFile>,
    // greater than each open file's number
    next: u64,
}

impl Model for FileSlots {
    ghost use Rattle.std.specs.Prelude.{List};
    ghost use Rattle.syncfile_core.specs.SyncFile.{File};
    ghost use Rattle.syncfile_core.specs.Files.{files_in, AreInPlace};

    ghost Value = { List File };

    ghost view = { λ m. files_in m.names.keys m.made.items };

    ghost invariant = { λ m. AreInPlace m.names.keys m.made.items m.next };
}

impl FileSlots {
    /// No files. Does not allocate.
    pub(crate) fn new(alloc: Global) -> FileSlots
        ensures empty { result ≡ [] }
    {
        FileSlots {
            names: IndexSet::new(alloc),
            made: Vec::new(alloc),
            next: 0,
        }
    }

    /// Closes all files. The next ones reuse their memory.
    pub(crate) fn clear(&mut self)
        ensures { self.new ≡ [] }
    {
        self.names.clear();
        self.next = 0;
    }

    /// The file with that name.
    pub(crate) fn get(&self, name: &Name) -> Option<&SyncFile>
        ensures found { option_copied result ≡ file_at self.now name.now }
    {
        match self.names.get_index_of(name) {
            Some(index) => Some(&self.made[index].file),
            None => None,
        }
    }

    /// The file with that name.
    ///
    /// Fails with `NoEntry`.
    pub(crate) fn known(&self, name: &Name) -> Result<&SyncFile, Refusal>
        ensures found { IfOk result (λ file. file_at self.now name.now ≡ Some file.now) }
        ensures unknown { IfErr result (λ e. e ≡ NoEntry) }
        ensures absent { OnErr result (file_at self.now name.now ≡ None) }
    {
        self.get(name).ok_or(Refusal::NoEntry)
    }

    /// The number of open files.
    pub(crate) fn count(&self) -> usize
        ensures { result ≡ length self.now }
    {
        self.names.len()
    }

    /// The names, in order of making.
    pub(crate) fn names(&self, alloc: Global) -> Result<Vec<Name>, Refusal>
        ensures names { IfOk result (λ names. names.items ≡ names_of self.now) }
        ensures distinct { HasDistinctNames self.now }
        ensures memory { IfErr result (λ e. e ≡ Memory) }
    {
        let places = in_order(alloc, &self.made[..self.names.len()])?;
        Ok(names_of(alloc, places.as_slice())?)
    }

    /// Whether a file of that name may be made: `Exists` if there is one, `Limit` if there are `FILES` files.
    ///
    /// Does not allocate.
    pub(crate) fn free(&self, name: &Name) -> Result<(), Refusal>
        ensures free { MatchOption (cause_to_refuse self.now name.now) (IsOk result) (λ cause. result ≡ Err cause) }
    {
        if self.get(name).is_some() {
            return Err(Refusal::Exists);
        }
        if self.count() >= FILES {
            return Err(Refusal::Limit(LimitKind::Files));
        }
        Ok(())
    }

    /// Makes a file of a draft, as the last one, if drawing the draft succeeded. The name is looked up once.
    ///
    /// Fails as `free` does, then with `Memory`; nothing is made then.
    #[inline(always)]
    pub(crate) fn make(
        &mut self,
        alloc: Global,
        name: Name,
        draft: &mut Draft,
        drawn: Result<(), Refusal>,
    ) -> Result<(), Refusal>
        requires rising { OnOk drawn (HasRisingContexts draft.old.points.items) }
        ensures refused { IsRefusedFor (cause_to_refuse self.old name) result }
        ensures drawn { OnOk result (IsOk drawn) }
        ensures last { OnOk result (self.new ≡ self.old ++ drafted name draft.old ∷ []) }
        ensures unchanged { OnErr result (self.new ≡ self.old) }
    {
        if drawn.is_err() || self.count() >= FILES {
            return self.refused(&name);
        }
        if self.put(alloc, name, draft) {
            return Ok(());
        }
        self.refused(&name)
    }

    // The error for a file that was not made.
    fn refused(&self, name: &Name) -> Result<(), Refusal>
        ensures refused { IsRefusedFor (cause_to_refuse self.now name.now) result }
        ensures always { IsErr result }
    {
        self.free(name)?;
        Err(Refusal::Memory)
    }

    // Adds the draft's file as the last one. False if a file has that name, or if memory is refused: nothing has
    // changed then. Its result is in a register, while the one of `make`, which is inlined, would be in memory.
    fn put(&mut self, alloc: Global, name: Name, draft: &mut Draft) -> bool
        requires rising { HasRisingContexts draft.old.points.items }
        ensures new { result ≡ true → has_file self.old name ≡ false }
        ensures last { result ≡ true → self.new ≡ self.old ++ drafted name draft.old ∷ [] }
        ensures unchanged { result ≡ false → self.new ≡ self.old }
    {
        let count = self.names.len();
        let Ok(()) = add_place(alloc, &mut self.made, count, name) else {
            return false;
        };
        let Ok(number) = next_number(alloc, &mut self.names, &mut self.made, self.next) else {
            return false;
        };
        self.next = number;
        match self.names.insert(name) {
            Ok(true) => {
                self.made[count].take_up(name, draft, number);
                self.next = number + 1;
                true
            }
            Ok(false) => false,
            Err(_) => false,
        }
    }

    /// Removes the file with that name, and says whether there was one. The others keep their order.
    #[inline(never)]
    pub(crate) fn remove(&mut self, name: &Name) -> bool
        ensures known { result ≡ has_file self.old name.now }
        ensures without { self.new ≡ without_file self.old name.now }
    {
        let Some(index) = self.names.get_index_of(name) else {
            return false;
        };
        self.names.swap_remove_index(index);
        let last = self.names.len();
        self.made.swap(index, last);
        true
    }
}

impl NumberedFile {
    // A new slot, for when none is left to reuse: empty, at number 0, until `take_up` fills it. It is a function of its own,
    // so that a slot that is reused does not pay for it.
    #[inline(never)]
    fn blank(alloc: Global, name: Name) -> Result<NumberedFile, AllocError> {
        let file = Box::new(alloc, SyncFile::blank(alloc, name))?;
        Ok(NumberedFile { file, number: 0 })
    }

    // Turns the slot into the draft's file.
    fn take_up(&mut self, name: Name, draft: &mut Draft, number: u64)
        requires rising { HasRisingContexts draft.old.points.items }
        ensures file { self.new.file.value ≡ drafted name draft.old }
        ensures number { self.new.number ≡ number }
    {
        self.file.take_up(name, draft);
        self.number = number;
    }
}

/// Makes sure that there is a slot after this many files.
///
/// Nothing has changed if memory for it is refused.
fn add_place(
    alloc: Global,
    made: &mut Vec<NumberedFile>,
    count: usize,
    name: Name,
) -> Result<(), AllocError>
    requires within { count ≤ length made.old.items }
    ensures place { OnOk result (count < length made.new.items) }
    ensures within { count ≤ length made.new.items }
    ensures same { take count made.new.items ≡ take count made.old.items }
{
    if count < made.len() {
        return Ok(());
    }
    made.push(NumberedFile::blank(alloc, name)?)?;
    Ok(())
}

/// The serial number of the next file. If `next` is the greatest number, the files are first renumbered, in order of
/// making.
///
/// Nothing has changed if memory for that is refused.
fn next_number(
    alloc: Global,
    names: &mut IndexSet<Name>,
    made: &mut [NumberedFile],
    next: u64,
) -> Result<u64, AllocError>
    requires { AreInPlace names.old.keys made.old next }
    ensures above { IfOk result (λ number. AreInPlace names.new.keys made.new number) }
    ensures room { IfOk result (λ number. number + 1 < 2 ^ 64) }
    ensures same { files_in names.new.keys made.new ≡ files_in names.old.keys made.old }
    ensures count { length names.new.keys ≡ length names.old.keys }
    ensures places { length made.new ≡ length made.old }
    ensures unchanged { OnErr result ((names.new.keys ≡ names.old.keys) × (made.new ≡ made.old)) }
{
    if next < u64::MAX {
        return Ok(next);
    }
    let count = names.len();
    put_names_in_order(alloc, names, &made[..count])?;
    number_anew(&mut made[..count]);
    Ok(count as u64)
}

/// Sorts the files in order of making, and numbers them from 0.
fn number_anew(made: &mut [NumberedFile])
    ensures numbered { IsNumberedAnew made.old made.new }
{
    put_in_order(made);
    number_from_0(made);
}

/// Sorts the files in order of making.
fn put_in_order(made: &mut [NumberedFile])
    ensures same { IsPermutation made.old made.new }
    ensures rising { IsNonDecreasingBy (λ m. m.number) made.new }
{
    made.sort_unstable_by_key(|made| made.number);
}

/// Numbers the files from 0, in their present order.
fn number_from_0(made: &mut [NumberedFile])
    ensures numbered { made.new ≡ numbered_from 0 made.old }
{
    for index in 0..made.len() {
        made[index].number = index as u64;
    }
}

/// Puts the names of the files into the set, in order of making. It is not inlined: the memory of its sets would be cleared for each
/// file that is made.
#[inline(never)]
fn put_names_in_order(
    alloc: Global,
    names: &mut IndexSet<Name>,
    made: &[NumberedFile],
) -> Result<(), AllocError>
    requires kept { (next : ℕ) × AreKept (entries_of made.now) next }
    ensures names { OnOk result (names.new.keys ≡ names_of (files_made (entries_of made.now))) }
    ensures unchanged { OnErr result (names.new.keys ≡ names.old.keys) }
{
    let places = in_order(alloc, made)?;
    let ordered = names_of(alloc, places.as_slice())?;
    *names = set_of(alloc, ordered.as_slice())?;
    Ok(())
}

/// The set of the names, in this order.
fn set_of(alloc: Global, names: &[Name]) -> Result<IndexSet<Name>, AllocError>
    requires distinct { IsDistinct same_name names.now }
    ensures names { IfOk result (λ set. set.keys ≡ names.now) }
{
    let mut set = IndexSet::with_capacity(alloc, names.len())?;
    for name in names {
        let Ok(_) = set.insert(*name) else {
            return Err(AllocError);
        };
    }
    Ok(set)
}

/// Names and serial numbers, in order of making.
fn in_order(alloc: Global, made: &[NumberedFile]) -> Result<Vec<NumberedName>, AllocError>
    ensures same { IfOk result (λ places. IsPermutation (map numbered_name_of made.now) places.items) }
    ensures rising { IfOk result (λ places. IsNonDecreasingBy (λ place. place.number) places.items) }
{
    let mut places = places(alloc, made)?;
    places.sort_unstable_by_key(|place| place.number);
    Ok(places)
}

fn places(alloc: Global, made: &[NumberedFile]) -> Result<Vec<NumberedName>, AllocError>
    ensures { IfOk result (λ places. places.items ≡ map numbered_name_of made.now) }
{
    made.iter()
        .map(|made| NumberedName {
            name: made.file.name,
            number: made.number,
        })
        .collect(alloc)
}

fn names_of(alloc: Global, places: &[NumberedName]) -> Result<Vec<Name>, AllocError>
    ensures { IfOk result (λ names. names.items ≡ map (λ place. place.name) places.now) }
{
    places.iter().map(|place| place.name).collect(alloc)
}
