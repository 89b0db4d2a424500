//! The requests about buffers. As in `device.rt`, each finds its causes of refusal first.
ghost use Rattle.std.specs.Prelude.{◌≡◌, ℕ, ◌+◌, nat_eq, if◌then◌else◌, Some, None, option_map, OnOk, OnErr, IfOk, IfErr, MatchOption, Ok, Err, true};
ghost use Rattle.device_core.specs.declared.errno.Errno.TheVariants.{NoMemory};
ghost use Rattle.device_core.specs.theorem.Buffers.{empty_buffer, export_usage as export_usage_of, import_usage as import_usage_of, import_into as imported_into, none_waits};
ghost use Rattle.device_core.specs.theorem.State.{at, timeline_at, file_at, buffer_at, file_of, empty_text, missing_buffer, export_of, import_of, objects_of};
ghost use Rattle.device_core.specs.declared.request.Request.TheVariants as request;
ghost use Rattle.device_core.specs.theorem.Request.{IsCause, cause_after, cause_at_buffer, cause_of};

use super::Device;
use crate::buffer::Buffer;
use crate::errno::Errno;
use crate::fence::Fence;
use crate::sync_flags::{export_usage, import_usage};
use crate::text::Text;
use crate::timelines::OpenTimelines;
use point_core::Usage;
use std::collections::HashMap;

impl Device {
    /// Makes a buffer without fences, whose exports are stubs of that time.
    ///
    /// Fails with `NoNumber`, then with `NoMemory`; nothing is made then.
    pub fn buffer(&mut self, now: u64) -> Result<u64, Errno>
        ensures number { IfOk result (λ n. (n ≡ self.old.next) × (self.new.next ≡ n + 1)) }
        ensures made { IfOk result (λ n. (q : ℕ) →
            buffer_at self.new q ≡ (if nat_eq n q then Some (empty_buffer now) else buffer_at self.old q)) }
        ensures timelines { self.new.timelines ≡ self.old.timelines }
        ensures files { self.new.files ≡ self.old.files }
        ensures known { OnOk result (cause_of (objects_of self.old) (request.Buffer now) ≡ None) }
        ensures refused { IfErr result (λ e.
            IsCause (cause_of (objects_of self.old) (request.Buffer now)) true e) }
        ensures unchanged { OnErr result (self.new ≡ self.old) }
    {
        let number = self.next_number()?;
        match self.buffers.insert(number, Buffer::new(self.alloc, now)) {
            Ok(_) => {
                self.next = number + 1;
                Ok(number)
            }
            Err(_) => Err(Errno::NoMemory),
        }
    }

    /// Makes a file of the fences for which an access with these flags waits in a buffer, as
    /// `DMA_BUF_IOCTL_EXPORT_SYNC_FILE` does: the latest pending fence of each timeline. If nothing is pending, the
    /// file is a stub, with the time at which the buffer was made.
    ///
    /// Fails with `NoNumber`, then with `NoEntry`, or with `WrongKind` at a timeline or a file, then with `Invalid` for
    /// flags that are none, then with `NoMemory`; nothing is made then.
    pub fn export(&mut self, buffer: u64, flags: u32) -> Result<u64, Errno>
        ensures number { IfOk result (λ n. (n ≡ self.old.next) × (self.new.next ≡ n + 1)) }
        ensures made { IfOk result (λ n. (q : ℕ) → file_at self.new q ≡
            (if nat_eq n q
            then export_of (timeline_at self.old) (export_usage_of flags) (buffer_at self.old buffer)
            else file_at self.old q)) }
        ensures timelines { self.new.timelines ≡ self.old.timelines }
        ensures buffers { self.new.buffers ≡ self.old.buffers }
        ensures known { OnOk result (cause_of (objects_of self.old) (request.Export buffer flags) ≡ None) }
        ensures refused { IfErr result (λ e.
            IsCause (cause_of (objects_of self.old) (request.Export buffer flags)) true e) }
        ensures unchanged { OnErr result (self.new ≡ self.old) }
    {
        let _number = self.next_number()?;
        let (fences, stub_at) = self.export_of(buffer, flags)?;
        self.add_file(Text::EMPTY, fences, stub_at)
    }

    fn export_of(&self, buffer: u64, flags: u32) -> Result<(Vec<Fence>, u64), Errno>
        ensures exported { IfOk result (λ r. Some (file_of empty_text r.0.items r.1)
            ≡ export_of (timeline_at self.now) (export_usage_of flags) (buffer_at self.now buffer)) }
        ensures known { OnOk result
            (cause_at_buffer (objects_of self.now) buffer (cause_after (export_usage_of flags) None) ≡ None) }
        ensures refused { IfErr result (λ e.
            IsCause (cause_at_buffer (objects_of self.now) buffer (cause_after (export_usage_of flags) None)) true e) }
    {
        let Some(known) = self.buffers.get(&buffer) else {
            return Err(self.unknown_buffer(buffer));
        };
        let usage = export_usage(flags)?;
        let fences = known.export(self.alloc, &self.timelines, usage)?;
        let stub_at = if fences.is_empty() {
            known.stub_at()
        } else {
            0
        };
        Ok((fences, stub_at))
    }

    /// Puts the pending fences of a file into a buffer for an access with these flags, as
    /// `DMA_BUF_IOCTL_IMPORT_SYNC_FILE` does. The file stays.
    ///
    /// Fails with `NoEntry`, or with `WrongKind` at a timeline or a file in place of the buffer, then with `Invalid` for
    /// flags that are none or if there is no such file, then with `NoMemory`; nothing has changed then.
    pub fn import(&mut self, buffer: u64, file: u64, flags: u32) -> Result<(), Errno>
        ensures imported { OnOk result ((q : ℕ) → buffer_at self.new q ≡
            (if nat_eq buffer q
            then import_of (timeline_at self.old) (import_usage_of flags) (file_at self.old file)
            (buffer_at self.old buffer)
            else buffer_at self.old q)) }
        ensures timelines { self.new.timelines ≡ self.old.timelines }
        ensures files { self.new.files ≡ self.old.files }
        ensures next { self.new.next ≡ self.old.next }
        ensures known { OnOk result (cause_of (objects_of self.old) (request.Import buffer file flags) ≡ None) }
        ensures refused { IfErr result (λ e.
            IsCause (cause_of (objects_of self.old) (request.Import buffer file flags)) true e) }
        ensures unchanged { OnErr result (self.new ≡ self.old) }
    {
        if !self.buffers.contains_key(&buffer) {
            return Err(self.unknown_buffer(buffer));
        }
        let usage = import_usage(flags)?;
        let Some(known) = self.files.get(&file) else {
            return Err(Errno::Invalid);
        };
        let fences = known.fences.as_slice();
        import_into(&mut self.buffers, buffer, &self.timelines, fences, usage)
    }

    /// Whether each fence of a buffer at that usage or a stronger one has signalled, as poll asks: the writers before a
    /// read, and the readers too before a write.
    ///
    /// Fails with `NoEntry`, or with `WrongKind` at a timeline or a file. Does not allocate.
    pub fn test(&self, buffer: u64, usage: Usage) -> Result<bool, Errno>
        ensures known { MatchOption (buffer_at self.now buffer)
            (result ≡ Err (missing_buffer (objects_of self.now) buffer))
            (λ b. result ≡ Ok (none_waits (timeline_at self.now) usage b.fences)) }
    {
        match self.buffers.get(&buffer) {
            Some(known) => Ok(known.test(&self.timelines, usage)),
            None => Err(self.unknown_buffer(buffer)),
        }
    }

    // The error for a number without a buffer.
    fn unknown_buffer(&self, number: u64) -> Errno
        ensures { result ≡ missing_buffer (objects_of self.now) number }
    {
        if self.timelines.contains_key(&number) || self.files.contains_key(&number) {
            Errno::WrongKind
        } else {
            Errno::NoEntry
        }
    }
}

fn import_into(
    buffers: &mut HashMap<u64, Buffer>,
    number: u64,
    timelines: &OpenTimelines,
    fences: &[Fence],
    usage: Usage,
) -> Result<(), Errno>
    ensures imported { OnOk result ((q : ℕ) → at buffers.new.entries q ≡
        (if nat_eq number q
        then option_map (imported_into (at timelines.now.entries) usage fences.now) (at buffers.old.entries number)
        else at buffers.old.entries q)) }
    ensures memory { IfErr result (λ e. e ≡ NoMemory) }
    ensures unchanged { OnErr result (buffers.new.entries ≡ buffers.old.entries) }
{
    match buffers.get_mut(&number) {
        Some(buffer) => buffer.import(timelines, fences, usage),
        None => Ok(()),
    }
}
