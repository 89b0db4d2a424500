//! `Device`: timelines, sync files and buffers by number, with the kernel's requests as calls. Each call finds its
//! causes of refusal first, and changes nothing if one holds.
ghost use Rattle.std.specs.Prelude.{[], ◌≡◌, ℕ, ◌+◌, ◌≤◌, nat_eq, if◌then◌else◌, Some, None, is_some, ◌||◌, IsSome, IfSome, IfNone, OnOk, OnErr, IfOk, IfErr, MatchOption, Ok, Err, true, false, ◌<◌, ◌↔◌, Contains, length, ok_or, slice_get};
ghost use Rattle.std.specs.List.Sorted.{IsStrictlyIncreasing};
ghost use Rattle.device_core.specs.declared.errno.Errno.TheVariants.{Invalid, NoEntry, NoMemory, NoNumber, Overflow};
ghost use Rattle.device_core.specs.declared.text.Text.{Text as Name};
ghost use Rattle.point_core.specs.Reach.{GREATEST};
ghost use Rattle.device_core.specs.Due.{IsDueAnswer};
ghost use Rattle.device_core.specs.theorem.Fences.{are_signalled, signal_at, status_of};
ghost use Rattle.device_core.specs.theorem.Info.{IsInfo};
ghost use Rattle.device_core.specs.theorem.Memory.{KeepsWhatIsAlive, table_sizes_of};
ghost use Rattle.device_core.specs.Woken.{file_wakes};
ghost use Rattle.device_core.specs.theorem.State.{nothing, at, timeline_at, file_at, file_of, new_timeline, merged_files, one_fence_file, missing_timeline, missing_file, buffer_at, objects_of, AreSignalled};
ghost use Rattle.device_core.specs.declared.request.Request.TheVariants as request;
ghost use Rattle.device_core.specs.theorem.History.{HasHistory};
ghost use Rattle.device_core.specs.theorem.Request.{AreWoken, IsCause, cause_of, closed, risen, takes_memory};

mod buffers;

use crate::buffer::Buffer;
use crate::errno::Errno;
use crate::fence::{Fence, Signal, Timeline, list_of_one};
use crate::file::File;
use crate::info::{FileInfo, info as info_of};
use crate::merging::{merged, merged_time};
use crate::room::give_room_back;
use crate::text::Text;
use crate::timelines::OpenTimelines;
use crate::woken::{wakes_some, woken_by};
use point_core::Status;
use std::alloc::Global;
use std::collections::HashMap;
use std::marker::Model;

/// The sizes of a device's tables: their entries, and the points for which files wait. Tests and laws say by them that
/// memory follows what is alive.
#[derive(Clone, Copy)]
pub struct TableSizes {
    pub timelines: usize,
    pub files: usize,
    pub buffers: usize,
    pub waiting: usize,
}

/// Timelines, sync files and buffers by number. Numbers rise from 1, and none is given twice.
#[derive(Drop)]
pub struct Device {
    alloc: Global,
    next: u64,
    timelines: OpenTimelines,
    files: HashMap<u64, File>,
    buffers: HashMap<u64, Buffer>,
}

impl Model for Device {
    ghost use Rattle.device_core.specs.theorem.State.{DeviceState, IsKept};

    ghost Value = { DeviceState };

    ghost view = { λ d. record {
      next = d.next;
      timelines = d.timelines.entries;
      files = d.files.entries;
      buffers = d.buffers.entries;
      index = d.timelines.index;
    } };

    ghost invariant = { λ d.
        IsKept d.next d.timelines.entries d.files.entries d.buffers.entries d.timelines.index };
}

impl Device {
    /// Nothing is open. Does not allocate.
    pub fn new(alloc: Global) -> Device
        ensures nothing { result ≡ nothing }
        ensures empty { HasHistory result [] }
    {
        Device {
            alloc,
            next: 1,
            timelines: OpenTimelines::new(alloc),
            files: HashMap::new(alloc),
            buffers: HashMap::new(alloc),
        }
    }

    /// Opens a timeline at 0, as opening `sync/sw_sync` does; the name is the task's.
    ///
    /// Fails with `NoNumber`, then with `NoMemory`; nothing is opened then.
    pub fn open(&mut self, name: Text) -> Result<u64, Errno>
        ensures number { IfOk result (λ n. (n ≡ self.old.next) × (self.new.next ≡ n + 1)) }
        ensures opened { IfOk result (λ n. (q : ℕ) →
            timeline_at self.new q ≡ (if nat_eq n q then Some (new_timeline name) else timeline_at self.old q)) }
        ensures files { self.new.files ≡ self.old.files }
        ensures buffers { self.new.buffers ≡ self.old.buffers }
        ensures known { OnOk result (cause_of (objects_of self.old) (request.Open name) ≡ None) }
        ensures refused { IfErr result (λ e.
            IsCause (cause_of (objects_of self.old) (request.Open name)) true e) }
        ensures unchanged { OnErr result (self.new ≡ self.old) }
    {
        let number = self.next_number()?;
        let timeline = Timeline { name, value: 0 };
        match self.timelines.insert(number, timeline) {
            Ok(_) => {
                self.next = number + 1;
                Ok(number)
            }
            Err(_) => Err(Errno::NoMemory),
        }
    }

    /// Makes a file of one fence, as `SW_SYNC_IOC_CREATE_FENCE` does. A point that the timeline has reached is signalled
    /// now.
    ///
    /// Fails with `NoNumber`, then with `NoEntry`, or with `WrongKind` at a file or a buffer, then with `Overflow`, then
    /// with `NoMemory`; nothing is made then.
    pub fn fence(&mut self, timeline: u64, point: u32, now: u64) -> Result<u64, Errno>
        ensures known { OnOk result
            (cause_of (objects_of self.old) (request.Fence timeline point now) ≡ None) }
        ensures number { IfOk result (λ n. (n ≡ self.old.next) × (self.new.next ≡ n + 1)) }
        ensures made { IfOk result (λ n. IfSome (timeline_at self.old timeline) (λ t. (q : ℕ) →
            file_at self.new q
            ≡ (if nat_eq n q then Some (one_fence_file timeline t point now) else file_at self.old q))) }
        ensures timelines { self.new.timelines ≡ self.old.timelines }
        ensures buffers { self.new.buffers ≡ self.old.buffers }
        ensures refused { IfErr result (λ e.
            IsCause (cause_of (objects_of self.old) (request.Fence timeline point now)) true e) }
        ensures unchanged { OnErr result (self.new ≡ self.old) }
    {
        let _number = self.next_number()?;
        let known = self.timeline(timeline)?;
        let fence = Fence::at(timeline, &known, point, now)?;
        let fences = list_of_one(self.alloc, fence)?;
        self.add_file(Text::EMPTY, fences, 0)
    }

    /// Raises a timeline, as `SW_SYNC_IOC_INC` does: pending points at or below the new value are signalled now.
    /// Returns the files that this signals, by rising number. A rise that reaches no point for which a file waits looks
    /// at no file, and mostly compares once.
    ///
    /// Fails with `NoEntry`, or with `WrongKind` at a file or a buffer, then with `Overflow`, then, if it wakes a file,
    /// with `NoMemory`; nothing has changed then.
    pub fn inc(&mut self, timeline: u64, n: u32, now: u64) -> Result<Vec<u64>, Errno>
        ensures woken { IfOk result (λ found. AreWoken (objects_of self.old) (objects_of self.new) found.items) }
        ensures risen { OnOk result (objects_of self.new ≡ risen (objects_of self.old) timeline n now) }
        ensures known { OnOk result (cause_of (objects_of self.old) (request.Inc timeline n now) ≡ None) }
        ensures refused { IfErr result (λ e. IsCause (cause_of (objects_of self.old) (request.Inc timeline n now))
            (takes_memory (objects_of self.old) (request.Inc timeline n now)) e) }
        ensures unchanged { OnErr result (self.new ≡ self.old) }
    {
        if self.timelines.rise_quietly(timeline, n) {
            return Ok(Vec::new(self.alloc));
        }
        let known = self.timeline(timeline)?;
        let Some(value) = known.value.checked_add(u64::from(n)) else {
            return Err(Errno::Overflow);
        };
        let points = self.timelines.points();
        let Ok(woken) = woken_by(self.alloc, points, &self.files, timeline, value) else {
            return Err(Errno::NoMemory);
        };
        let signal = Signal {
            at: now,
            is_cancelled: false,
        };
        self.timelines
            .raise_to(&mut self.files, timeline, value, signal);
        Ok(woken)
    }

    /// Closes a timeline, a file or a buffer; its number is never used again.
    ///
    /// Pending points of a timeline are cancelled now, as the release of `sync/sw_sync` does. Returns the files that
    /// this signals, by rising number. Nothing waits for a closed file any more. Closing a buffer wakes nothing.
    ///
    /// Fails with `NoEntry`, then, if it wakes a file, with `NoMemory`; nothing has changed then.
    pub fn close(&mut self, number: u64, now: u64) -> Result<Vec<u64>, Errno>
        ensures woken { IfOk result (λ found. AreWoken (objects_of self.old) (objects_of self.new) found.items) }
        ensures closed { OnOk result (objects_of self.new ≡ closed (objects_of self.old) number now) }
        ensures known { OnOk result (cause_of (objects_of self.old) (request.Close number now) ≡ None) }
        ensures refused { IfErr result (λ e. IsCause (cause_of (objects_of self.old) (request.Close number now))
            (takes_memory (objects_of self.old) (request.Close number now)) e) }
        ensures unchanged { OnErr result (self.new ≡ self.old) }
    {
        if self.timelines.contains_key(&number) {
            return self.close_timeline(number, now);
        }
        match self.drop_number(number) {
            Ok(_done) => Ok(Vec::new(self.alloc)),
            Err(refusal) => Err(refusal),
        }
    }

    // Fails with `NoEntry`, or with `WrongKind` at a file or a buffer, then with `NoMemory`; nothing has changed then.
    fn close_timeline(&mut self, timeline: u64, now: u64) -> Result<Vec<u64>, Errno>
        ensures woken { IfOk result (λ found. (f : ℕ) →
            (Contains found.items f ↔ (file_wakes timeline GREATEST (file_at self.old f) ≡ true))) }
        ensures rising { IfOk result (λ found. IsStrictlyIncreasing found.items) }
        ensures closed { OnOk result ((q : ℕ) →
            timeline_at self.new q ≡ (if nat_eq timeline q then None else timeline_at self.old q)) }
        ensures signalled { OnOk result
            (AreSignalled timeline GREATEST (signal_at now true) self.old.files self.new.files) }
        ensures buffers { self.new.buffers ≡ self.old.buffers }
        ensures next { self.new.next ≡ self.old.next }
        ensures known { OnOk result (IsSome (timeline_at self.old timeline)) }
        ensures refused { IfNone (timeline_at self.old timeline)
            (result ≡ Err (missing_timeline (objects_of self.old) timeline)) }
        ensures last { IfSome (timeline_at self.old timeline) (λ _. IfErr result (λ e.
            (e ≡ NoMemory) × (takes_memory (objects_of self.old) (request.Close timeline now) ≡ true))) }
        ensures unchanged { OnErr result (self.new ≡ self.old) }
    {
        let _known = self.timeline(timeline)?;
        let points = self.timelines.points();
        let Ok(woken) = woken_by(self.alloc, points, &self.files, timeline, u64::MAX) else {
            return Err(Errno::NoMemory);
        };
        let signal = Signal {
            at: now,
            is_cancelled: true,
        };
        self.timelines.close(&mut self.files, timeline, signal);
        Ok(woken)
    }

    // Removes the file or buffer with this number. Fails with `NoEntry`; nothing has changed then. Does not allocate.
    fn drop_number(&mut self, number: u64) -> Result<(), Errno>
        ensures files { OnOk result ((q : ℕ) →
            file_at self.new q ≡ (if nat_eq number q then None else file_at self.old q)) }
        ensures buffers { OnOk result ((q : ℕ) →
            buffer_at self.new q ≡ (if nat_eq number q then None else buffer_at self.old q)) }
        ensures timelines { self.new.timelines ≡ self.old.timelines }
        ensures next { self.new.next ≡ self.old.next }
        ensures known { OnOk result
            ((is_some (file_at self.old number) || is_some (buffer_at self.old number)) ≡ true) }
        ensures refused { IfErr result (λ e. (e ≡ NoEntry)
            × (file_at self.old number ≡ None) × (buffer_at self.old number ≡ None)) }
        ensures unchanged { OnErr result (self.new ≡ self.old) }
    {
        if let Some(closed) = self.files.remove(&number) {
            self.timelines.take_all(number, closed.fences.as_slice());
            give_room_back(&mut self.files);
            return Ok(());
        }
        let Some(_closed) = self.buffers.remove(&number) else {
            return Err(Errno::NoEntry);
        };
        give_room_back(&mut self.buffers);
        Ok(())
    }

    /// Merges two files, which both stay, as `SYNC_IOC_MERGE` does: the latest pending fence of each timeline. If
    /// nothing is pending, the file is a stub, with the latest time at which any of them signalled.
    ///
    /// Fails with `NoNumber`, then with `NoEntry`, or with `WrongKind` at a timeline or a buffer in place of the first,
    /// then with `NoEntry` if the second is no file, then with `NoMemory`; nothing is made then.
    pub fn merge(&mut self, a: u64, b: u64, name: Text) -> Result<u64, Errno>
        ensures number { IfOk result (λ n. (n ≡ self.old.next) × (self.new.next ≡ n + 1)) }
        ensures made { IfOk result (λ n. (q : ℕ) → file_at self.new q ≡
            (if nat_eq n q then merged_files name (file_at self.old a) (file_at self.old b) else file_at self.old q)) }
        ensures known { OnOk result (cause_of (objects_of self.old) (request.Merge a b name) ≡ None) }
        ensures timelines { self.new.timelines ≡ self.old.timelines }
        ensures buffers { self.new.buffers ≡ self.old.buffers }
        ensures refused { IfErr result (λ e.
            IsCause (cause_of (objects_of self.old) (request.Merge a b name)) true e) }
        ensures unchanged { OnErr result (self.new ≡ self.old) }
    {
        let _number = self.next_number()?;
        let (fences, stub_at) = self.merge_of(a, b)?;
        self.add_file(name, fences, stub_at)
    }

    fn merge_of(&self, a: u64, b: u64) -> Result<(Vec<Fence>, u64), Errno>
        ensures merged { IfOk result (λ r. (name : Name) →
            Some (file_of name r.0.items r.1) ≡ merged_files name (file_at self.now a) (file_at self.now b)) }
        ensures known { OnOk result (IsSome (file_at self.now a) × IsSome (file_at self.now b)) }
        ensures first { IfNone (file_at self.now a) (result ≡ Err (missing_file (objects_of self.now) a)) }
        ensures second { IfSome (file_at self.now a) (λ _. IfNone (file_at self.now b) (result ≡ Err NoEntry)) }
        ensures memory { IfSome (file_at self.now a) (λ _. IfSome (file_at self.now b) (λ _.
            IfErr result (λ e. e ≡ NoMemory))) }
    {
        let Some(left) = self.files.get(&a) else {
            return Err(self.unknown_file(a));
        };
        let Some(right) = self.files.get(&b) else {
            return Err(Errno::NoEntry);
        };
        let fences = merged(self.alloc, left.fences.as_slice(), right.fences.as_slice())?;
        let stub_at = if fences.is_empty() {
            merged_time(left, right)
        } else {
            0
        };
        Ok((fences, stub_at))
    }

    /// Whether each fence of a file has signalled.
    ///
    /// Fails with `NoEntry`, or with `WrongKind` at a timeline or a buffer. Does not allocate.
    pub fn is_signalled(&self, file: u64) -> Result<bool, Errno>
        ensures known { MatchOption (file_at self.now file)
            (result ≡ Err (missing_file (objects_of self.now) file))
            (λ f. result ≡ Ok (are_signalled f.fences)) }
    {
        match self.files.get(&file) {
            Some(known) => Ok(known.is_signalled()),
            None => Err(self.unknown_file(file)),
        }
    }

    /// The status of a file, in the kernel's order.
    ///
    /// Fails with `NoEntry`, or with `WrongKind` at a timeline or a buffer. Does not allocate.
    pub fn status(&self, file: u64) -> Result<Status, Errno>
        ensures known { MatchOption (file_at self.now file)
            (result ≡ Err (missing_file (objects_of self.now) file))
            (λ f. result ≡ Ok (status_of f.fences)) }
    {
        match self.files.get(&file) {
            Some(known) => Ok(known.status()),
            None => Err(self.unknown_file(file)),
        }
    }

    /// The information that `SYNC_IOC_FILE_INFO` reports on a file: its name, its status, and each of its fences.
    ///
    /// Fails with `NoEntry`, or with `WrongKind` at a timeline or a buffer, then with `NoMemory`.
    pub fn info(&self, file: u64) -> Result<FileInfo, Errno>
        ensures reported { IfOk result (λ info. IfSome (file_at self.now file) (λ f. IsInfo file f info)) }
        ensures known { OnOk result (IsSome (file_at self.now file)) }
        ensures refused { IfNone (file_at self.now file) (result ≡ Err (missing_file (objects_of self.now) file)) }
        ensures memory { IfSome (file_at self.now file) (λ _. IfErr result (λ e. e ≡ NoMemory)) }
    {
        match self.files.get(&file) {
            Some(known) => info_of(self.alloc, file, known),
            None => Err(self.unknown_file(file)),
        }
    }

    /// The fence of a file at an index, by rising timeline.
    ///
    /// Fails with `NoEntry`, or with `WrongKind` at a timeline or a buffer, then with `Invalid` past the last fence. Takes
    /// no memory.
    pub fn fence_of(&self, file: u64, index: usize) -> Result<Fence, Errno>
        ensures known { MatchOption (file_at self.now file)
            (result ≡ Err (missing_file (objects_of self.now) file))
            (λ f. result ≡ ok_or (slice_get f.fences index) Invalid) }
    {
        match self.files.get(&file) {
            Some(known) => known.fence(index).ok_or(Errno::Invalid),
            None => Err(self.unknown_file(file)),
        }
    }

    /// The number of open files.
    pub fn open_files(&self) -> usize
        ensures { result ≡ length self.now.files }
    {
        self.files.len()
    }

    /// Whether an open file has that number.
    pub fn is_file(&self, number: u64) -> bool
        ensures { result ≡ is_some (file_at self.now number) }
    {
        self.files.contains_key(&number)
    }

    /// Whether an open timeline has that number.
    pub fn is_timeline(&self, number: u64) -> bool
        ensures { result ≡ is_some (timeline_at self.now number) }
    {
        self.timelines.contains_key(&number)
    }

    /// The value of an open timeline.
    ///
    /// Fails with `NoEntry`, or with `WrongKind` at a file or a buffer. Does not allocate.
    pub fn value(&self, timeline: u64) -> Result<u64, Errno>
        ensures known { MatchOption (timeline_at self.now timeline)
            (result ≡ Err (missing_timeline (objects_of self.now) timeline))
            (λ t. result ≡ Ok t.value) }
    {
        match self.timelines.get(&timeline) {
            Some(known) => Ok(known.value),
            None => Err(self.unknown_timeline(timeline)),
        }
    }

    /// The least point at which an increment by n would signal a fence of a file, if there is one. A caller that reads a
    /// clock only for signals asks this before. By the greatest n it is the least point of the timeline that is pending.
    ///
    /// Fails with `NoEntry`, or with `WrongKind` at a file or a buffer. Does not allocate.
    pub fn first_due(&self, timeline: u64, n: u64) -> Result<Option<u64>, Errno>
        ensures { IsDueAnswer (objects_of self.now) timeline n result }
    {
        let known = self.timeline(timeline)?;
        let value = known.value.saturating_add(n);
        Ok(self.timelines.first_due(timeline, value))
    }

    /// Whether an increment needs no memory to report the files that it wakes. Does not allocate.
    ///
    /// Fails with the increment's own error: `NoMemory` if it wakes a file, unless another cause holds.
    pub fn inc_without_memory(&self, timeline: u64, n: u32) -> Result<(), Errno>
        ensures none { OnOk result ((now : ℕ) →
            takes_memory (objects_of self.now) (request.Inc timeline n now) ≡ false) }
        ensures refused { IfErr result (λ e. (now : ℕ) →
            IsCause (cause_of (objects_of self.now) (request.Inc timeline n now))
            (takes_memory (objects_of self.now) (request.Inc timeline n now)) e) }
    {
        let known = self.timeline(timeline)?;
        let Some(value) = known.value.checked_add(u64::from(n)) else {
            return Err(Errno::Overflow);
        };
        // for the proof: no file has a number past the next one
        let _next = self.next;
        if wakes_some(self.timelines.points(), &self.files, timeline, value) {
            return Err(Errno::NoMemory);
        }
        Ok(())
    }

    /// Whether a closing needs no memory to report the files that it wakes. Does not allocate.
    ///
    /// Fails with `NoMemory` if it closes a timeline and wakes a file.
    pub fn close_without_memory(&self, number: u64) -> Result<(), Errno>
        ensures none { OnOk result ((now : ℕ) →
            takes_memory (objects_of self.now) (request.Close number now) ≡ false) }
        ensures refused { IfErr result (λ e. (now : ℕ) →
            IsCause (cause_of (objects_of self.now) (request.Close number now))
            (takes_memory (objects_of self.now) (request.Close number now)) e) }
    {
        if !self.timelines.contains_key(&number) {
            return Ok(());
        }
        // for the proof: no file has a number past the next one
        let _next = self.next;
        if wakes_some(self.timelines.points(), &self.files, number, u64::MAX) {
            return Err(Errno::NoMemory);
        }
        Ok(())
    }

    /// The sizes of its tables, which follow what is alive. Does not allocate.
    pub fn table_sizes(&self) -> TableSizes
        ensures counts { result ≡ table_sizes_of self.now }
        ensures alive { KeepsWhatIsAlive self.now }
    {
        TableSizes {
            timelines: self.timelines.len(),
            files: self.files.len(),
            buffers: self.buffers.len(),
            waiting: self.timelines.waiting(),
        }
    }

    // The timeline with this number.
    fn timeline(&self, number: u64) -> Result<Timeline, Errno>
        ensures found { IfOk result (λ t. timeline_at self.now number ≡ Some t) }
        ensures refused { IfErr result (λ e.
            (timeline_at self.now number ≡ None) × (e ≡ missing_timeline (objects_of self.now) number)) }
    {
        match self.timelines.get(&number) {
            Some(known) => Ok(*known),
            None => Err(self.unknown_timeline(number)),
        }
    }

    // The error for a number without a timeline.
    fn unknown_timeline(&self, number: u64) -> Errno
        ensures { result ≡ missing_timeline (objects_of self.now) number }
    {
        if self.files.contains_key(&number) || self.buffers.contains_key(&number) {
            Errno::WrongKind
        } else {
            Errno::NoEntry
        }
    }

    // The number of the next object. Fails only with `NoNumber`, once each number has been given.
    fn next_number(&self) -> Result<u64, Errno>
        ensures next { IfOk result (λ n. (n ≡ self.now.next) × (n < GREATEST)) }
        ensures none { IfErr result (λ e. (e ≡ NoNumber) × (GREATEST ≤ self.now.next)) }
    {
        if self.next == u64::MAX {
            return Err(Errno::NoNumber);
        }
        Ok(self.next)
    }

    // Makes a file of fences that rise by timeline.
    fn add_file(&mut self, name: Text, fences: Vec<Fence>, stub_at: u64) -> Result<u64, Errno>
        requires left { self.old.next < GREATEST }
        ensures number { IfOk result (λ n. (n ≡ self.old.next) × (self.new.next ≡ n + 1)) }
        ensures made { IfOk result (λ n. (q : ℕ) →
            file_at self.new q
            ≡ (if nat_eq n q then Some (file_of name fences.items stub_at) else file_at self.old q)) }
        ensures timelines { self.new.timelines ≡ self.old.timelines }
        ensures buffers { self.new.buffers ≡ self.old.buffers }
        ensures memory { IfErr result (λ e. e ≡ NoMemory) }
        ensures unchanged { OnErr result (self.new ≡ self.old) }
    {
        let number = self.next;
        self.timelines.put_all(number, fences.as_slice())?;
        let file = File {
            name,
            fences,
            stub_at,
        };
        match self.files.insert(number, file) {
            Ok(_) => {
                self.next = number + 1;
                Ok(number)
            }
            Err(failed) => {
                self.timelines
                    .take_all(number, failed.value.1.fences.as_slice());
                Err(Errno::NoMemory)
            }
        }
    }

    // The error for a number without a file.
    fn unknown_file(&self, number: u64) -> Errno
        ensures { result ≡ missing_file (objects_of self.now) number }
    {
        if self.timelines.contains_key(&number) || self.buffers.contains_key(&number) {
            Errno::WrongKind
        } else {
            Errno::NoEntry
        }
    }
}
