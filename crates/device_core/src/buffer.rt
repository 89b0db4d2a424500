//! `Buffer`: a buffer of the device, whose fences outlive their timelines. Its table is trimmed as it grows, so its
//! memory follows what is pending.
ghost use Rattle.std.specs.Prelude.{◌≡◌, ◌+◌, ◌≤◌, ◌<◌, ◌∷◌, [], filter, fold, if◌then◌else◌, length, option_to_list, vec_len, IfErr, IfOk, OnErr, OnOk};
ghost use Rattle.std.specs.List.{filter_map};
ghost use Rattle.std.specs.Vec.{vec_capacity};
ghost use Rattle.device_core.specs.declared.errno.Errno.TheVariants.{NoMemory};
ghost use Rattle.device_core.specs.theorem.Fences.{with_fence};
ghost use Rattle.device_core.specs.theorem.Buffers.{empty_buffer, exported, has_grown, import_into, imported, is_waiting, none_waits as none_waits_of, waiting_fence, with_buffer_fence};
ghost use Rattle.device_core.specs.theorem.State.{at};

use crate::buffer_fence::BufferFence;
use crate::errno::Errno;
use crate::fence::Fence;
use crate::file::all_signalled;
use crate::merging::put as put_later;
use crate::timelines::OpenTimelines;
use point_core::Usage;
use std::alloc::Global;
use std::marker::Model;

/// A table is trimmed before it has more than this many times the fences that it had after the last import that trimmed
/// it. Those were all pending, so it never has more than this many times the fences that were ever pending at once.
const GROWTH: usize = 2;

/// A table of at most `GROWTH` times this many fences isn't trimmed.
const UNTRIMMED: usize = 8;

const _: () = prove!(GROWTH == 2);

const _: () = prove!(UNTRIMMED == 8);

/// The fences of a buffer, each with its usage, as Linux's `struct dma_resv`. Each call asks what the timelines have
/// reached, so their rises and closings leave the buffer as it is.
#[derive(Drop)]
pub struct Buffer {
    fences: Vec<BufferFence>,
    left: usize,
    stub_at: u64,
}

impl Model for Buffer {
    ghost use Rattle.device_core.specs.theorem.Buffers.{BufferState, state_of};

    ghost Value = { BufferState };

    ghost view = { λ b. state_of b.fences.items b.left b.stub_at };
}

impl Buffer {
    /// No fences. Does not allocate.
    pub(crate) fn new(alloc: Global, now: u64) -> Buffer
        ensures { result ≡ empty_buffer now }
    {
        Buffer {
            fences: Vec::new(alloc),
            left: 0,
            stub_at: now,
        }
    }

    /// Puts the pending fences of a file with that usage, as Linux's `DMA_BUF_IOCTL_IMPORT_SYNC_FILE`. Each takes the
    /// place of the first fence that it covers, as in `dma_resv_add_fence`; the kernel's also takes the place of one
    /// that has signalled, which stays here until the next trim.
    ///
    /// Fails only with `NoMemory`, and then leaves the buffer as it was.
    pub(crate) fn import(
        &mut self,
        timelines: &OpenTimelines,
        fences: &[Fence],
        usage: Usage,
    ) -> Result<(), Errno>
        ensures imported { OnOk result (self.new ≡ import_into (at timelines.now.entries) usage fences.now self.old) }
        ensures memory { IfErr result (λ e. e ≡ NoMemory) }
        ensures unchanged { OnErr result (self.new ≡ self.old) }
    {
        if all_signalled(fences) {
            return Ok(());
        }
        let Ok(_room) = self.fences.reserve(fences.len()) else {
            return Err(Errno::NoMemory);
        };
        let trimmed = trim_grown(&mut self.fences, self.left, fences.len(), timelines);
        put_pending(&mut self.fences, fences, usage);
        self.left = left_after(trimmed, self.left, self.fences.len());
        let most = GROWTH.saturating_mul(self.fences.len().max(UNTRIMMED));
        self.fences.shrink_to(most);
        Ok(())
    }

    /// The fences that wait at the usage or a stronger one, the latest of each timeline, by rising timeline. Linux's
    /// `DMA_BUF_IOCTL_EXPORT_SYNC_FILE` gives each of them, by the table's order.
    ///
    /// Fails only with `NoMemory`.
    pub(crate) fn export(
        &self,
        alloc: Global,
        timelines: &OpenTimelines,
        usage: Usage,
    ) -> Result<Vec<Fence>, Errno>
        ensures exported { IfOk result (λ fs. fs.items ≡ exported (at timelines.now.entries) usage self.now.fences) }
        ensures memory { IfErr result (λ e. e ≡ NoMemory) }
    {
        let mut listed = Vec::new(alloc);
        list_waiting(&mut listed, self.fences.as_slice(), timelines, usage)?;
        Ok(listed)
    }

    /// Whether every fence of the usage or a stronger one has signalled, as Linux's `dma_resv_test_signaled`. Does not
    /// allocate.
    pub(crate) fn test(&self, timelines: &OpenTimelines, usage: Usage) -> bool
        ensures { result ≡ none_waits_of (at timelines.now.entries) usage self.now.fences }
    {
        none_waits(self.fences.as_slice(), timelines, usage)
    }

    /// The time of the stub that an export of an idle buffer gives: when the buffer was made. The kernel's is the time
    /// of the stub's first use since boot.
    pub(crate) fn stub_at(&self) -> u64
        ensures { result ≡ self.now.stub_at }
    {
        self.stub_at
    }
}

fn none_waits(fences: &[BufferFence], timelines: &OpenTimelines, usage: Usage) -> bool
    ensures { result ≡ none_waits_of (at timelines.now.entries) usage fences.now }
{
    for fence in fences {
        if fence.usage.number() <= usage.number() && fence.is_waiting(timelines) {
            return false;
        }
    }
    true
}

fn list_waiting(
    listed: &mut Vec<Fence>,
    fences: &[BufferFence],
    timelines: &OpenTimelines,
    usage: Usage,
) -> Result<(), Errno>
    ensures listed { OnOk result (listed.new.items ≡
        fold with_fence listed.old.items (filter_map (waiting_fence (at timelines.now.entries) usage) fences.now)) }
    ensures memory { IfErr result (λ e. e ≡ NoMemory) }
{
    for fence in fences {
        put_option(listed, fence.waiting(timelines, usage))?;
    }
    Ok(())
}

fn put_option(listed: &mut Vec<Fence>, fence: Option<Fence>) -> Result<(), Errno>
    ensures put { OnOk result (listed.new.items ≡ fold with_fence listed.old.items (option_to_list fence)) }
    ensures memory { IfErr result (λ e. e ≡ NoMemory) }
{
    match fence {
        Some(fence) => put_later(listed, fence),
        None => Ok(()),
    }
}

/// Drops the fences that have signalled, if `more` fences would let the table grow too much since its last trim.
/// Returns whether it was trimmed.
fn trim_grown(
    fences: &mut Vec<BufferFence>,
    left: usize,
    more: usize,
    timelines: &OpenTimelines,
) -> bool
    requires room { vec_len fences.old + more ≤ vec_capacity fences.old }
    ensures grown { result ≡ has_grown left more fences.old.items }
    ensures kept { fences.new.items ≡ (if result
        then filter (is_waiting (at timelines.now.entries)) fences.old.items
        else fences.old.items) }
    ensures fewer { vec_len fences.new ≤ vec_len fences.old }
    ensures places { vec_capacity fences.new ≡ vec_capacity fences.old }
{
    let most = GROWTH.saturating_mul(left.max(UNTRIMMED));
    if fences.len() + more <= most {
        return false;
    }
    fences.retain(|fence| fence.is_waiting(timelines));
    true
}

/// How many fences the last trim left, now that the table has `count`.
fn left_after(trimmed: bool, left: usize, count: usize) -> usize
    ensures { result ≡ (if trimmed then count else left) }
{
    if trimmed { count } else { left }
}

fn put_pending(fences: &mut Vec<BufferFence>, put: &[Fence], usage: Usage)
    requires room { vec_len fences.old + length put.now ≤ vec_capacity fences.old }
    ensures put { fences.new.items ≡ fold with_buffer_fence fences.old.items (imported usage put.now) }
{
    for fence in put {
        put_if_pending(fences, fence, usage);
    }
}

fn put_if_pending(fences: &mut Vec<BufferFence>, fence: &Fence, usage: Usage)
    requires room { vec_len fences.old < vec_capacity fences.old }
    ensures put { fences.new.items ≡ fold with_buffer_fence fences.old.items (imported usage (fence.now ∷ [])) }
    ensures few { vec_len fences.new ≤ vec_len fences.old + 1 }
    ensures places { vec_capacity fences.new ≡ vec_capacity fences.old }
{
    if fence.signal.is_none() {
        put(fences, BufferFence::of(fence, usage));
    }
}

/// Puts a fence in the place of the first fence that it covers, or after the others.
fn put(fences: &mut Vec<BufferFence>, new: BufferFence)
    requires room { vec_len fences.old < vec_capacity fences.old }
    ensures put { fences.new.items ≡ with_buffer_fence fences.old.items new }
    ensures few { vec_len fences.new ≤ vec_len fences.old + 1 }
    ensures places { vec_capacity fences.new ≡ vec_capacity fences.old }
{
    match fences.iter().position(|old| new.covers(old)) {
        Some(place) => fences[place] = new,
        None => fences.push_reserved(new),
    }
}
