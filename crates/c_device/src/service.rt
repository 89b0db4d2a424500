//! `Service`: a device with a queue of the files that it woke. The queue has room for every open file before a request
//! that may wake one, and shrinks with their number.
ghost use Rattle.std.specs.Prelude.{◌≡◌, ◌≤◌, ◌-◌, ℕ, [], ◌++◌, true, length, drop, min, option_to_list, IfErr, IfNone, OnOk, Option, Result, Err};
ghost use Rattle.std.specs.VecDeque.{deque_len, deque_capacity};
ghost use Rattle.device_core.specs.declared.request.Request.TheVariants as request;
ghost use Rattle.device_core.specs.theorem.Request.{IsAnswer, takes_memory};
ghost use Rattle.device_core.specs.theorem.State.{nothing, objects_of};
ghost use Rattle.c_handle.specs.Rows.{over};
ghost use Rattle.c_device.specs.Queries.{AnswersDue, AnswersFence, AnswersValue};
ghost use Rattle.point_core.specs.Reach.{GREATEST};
ghost use Rattle.device_core.specs.declared.errno.Errno.{Errno as Refusal};
ghost use Rattle.device_core.specs.theorem.Times.{woken_in};
ghost use Rattle.c_device.specs.Raising.{IsRaise, due_point};
ghost use Rattle.c_device.specs.Service.{IsStep, AreGiven, may_wake, open_among, woken_of};

use crate::rows::CRaised;
use device_core::{Device, Errno, Fence, Reply, Request};
use std::alloc::Global;
use std::collections::VecDeque;
use std::marker::Model;

/// With fewer open files than this, the queue has the room of this many.
const LEAST_FILES: usize = 16;

/// A device, and the files that it woke, until they are taken or closed.
#[derive(Drop)]
pub struct Service {
    device: Device,
    woken: VecDeque<u64>,
}

impl Model for Service {
    ghost use Rattle.c_device.specs.Service.{ServiceState, IsKept, open_among};

    ghost Value = { ServiceState };

    ghost view = { λ s. record { device = s.device; woken = open_among s.device s.woken.items } };

    ghost invariant = { λ s. IsKept s.device s.woken.items };
}

impl Service {
    /// An empty device. Does not allocate.
    pub fn new(alloc: Global) -> Service
        ensures device { result.device ≡ nothing }
        ensures woken { result.woken ≡ [] }
    {
        Service {
            device: Device::new(alloc),
            woken: VecDeque::new(alloc),
        }
    }

    /// The answer to one request, as `Device::serve`. The files that it wakes are queued. `NoMemory` may also come from the
    /// queue; nothing has changed then.
    #[inline(always)]
    pub fn step(&mut self, request: Request) -> Result<Reply, Errno>
        ensures { IsStep self.old self.new request result }
    {
        if let Err(refusal) = make_room(&mut self.woken, &self.device, &request) {
            return Err(refusal);
        }
        let given = self.device.serve(request);
        keep(&mut self.woken, &given);
        given
    }

    /// An increment, as `step`: how many files it wakes, and the timeline's first point that is pending after it.
    #[inline(always)]
    pub fn inc(&mut self, timeline: u64, n: u32, now: u64) -> Result<CRaised, Errno>
        ensures { IsRaise self.old self.new timeline n now result }
    {
        let reply = self.step(Request::Inc(timeline, n, now))?;
        Ok(CRaised {
            pending: first_pending(&self.device, timeline),
            woken: count_woken(&reply) as u64,
        })
    }

    /// The value of a timeline, as `Device::value`.
    #[inline(always)]
    pub fn value(&self, timeline: u64) -> Result<u64, Errno>
        ensures { AnswersValue timeline self.now.device result }
    {
        self.device.value(timeline)
    }

    /// The least point at which an increment would signal a fence of a file, as `Device::first_due`.
    #[inline(always)]
    pub fn first_due(&self, timeline: u64, n: u64) -> Result<Option<u64>, Errno>
        ensures { AnswersDue timeline n self.now.device result }
    {
        self.device.first_due(timeline, n)
    }

    /// The fence of a file at an index, as `Device::fence_of`.
    #[inline(always)]
    pub fn fence_of(&self, file: u64, index: usize) -> Result<Fence, Errno>
        ensures { AnswersFence file index self.now.device result }
    {
        self.device.fence_of(file, index)
    }

    /// Takes files that were woken and are still open, in the order of waking (by rising number in one request), as many as
    /// there is room for, and returns how many.
    pub fn take(&mut self, files: &mut [u64]) -> usize
        ensures count { result ≡ min (length files.old) (length self.old.woken) }
        ensures taken { files.new ≡ over self.old.woken files.old }
        ensures left { self.new.woken ≡ drop result self.old.woken }
        ensures device { self.new.device ≡ self.old.device }
    {
        take(&mut self.woken, &self.device, files)
    }
}

/// The first point of a timeline that is pending, or 0.
fn first_pending(device: &Device, timeline: u64) -> u64
    ensures { (due : Result (Option ℕ) Refusal) × AnswersDue timeline GREATEST device.now due × (result ≡ due_point due) }
{
    match device.first_due(timeline, u64::MAX) {
        Ok(first) => first.unwrap_or(0),
        Err(_) => 0,
    }
}

/// The number of files that the reply wakes.
fn count_woken(reply: &Reply) -> usize
    ensures { result ≡ length (woken_in reply.now) }
{
    match reply {
        Reply::Woken(files) => files.len(),
        _ => 0,
    }
}

/// Makes room in the queue for the files that the request may wake.
///
/// Fails with the device's own cause to refuse the request, and without one with `NoMemory`.
#[inline(always)]
fn make_room(woken: &mut VecDeque<u64>, device: &Device, request: &Request) -> Result<(), Errno>
    ensures kept { open_among device.now woken.new.items ≡ open_among device.now woken.old.items }
    ensures given { (next : ℕ) → AreGiven next woken.old.items → AreGiven next woken.new.items }
    ensures ready { OnOk result (may_wake device.now request.now ≡ true →
        length device.now.files ≤ deque_capacity woken.new - deque_len woken.new) }
    ensures refused { IfErr result (λ e. IsAnswer (objects_of device.now) request.now (Err e)) }
{
    match request {
        Request::Inc(timeline, n, _) => room_for_inc(woken, device, *timeline, *n),
        Request::Close(number, _) => room_for_close(woken, device, *number),
        _ => Ok(()),
    }
}

#[inline(always)]
fn room_for_inc(
    woken: &mut VecDeque<u64>,
    device: &Device,
    timeline: u64,
    n: u32,
) -> Result<(), Errno>
    ensures kept { open_among device.now woken.new.items ≡ open_among device.now woken.old.items }
    ensures given { (next : ℕ) → AreGiven next woken.old.items → AreGiven next woken.new.items }
    ensures ready { OnOk result ((now : ℕ) →
        takes_memory (objects_of device.now) (request.Inc timeline n now) ≡ true →
        length device.now.files ≤ deque_capacity woken.new - deque_len woken.new) }
    ensures refused { IfErr result (λ e. (now : ℕ) →
        IsAnswer (objects_of device.now) (request.Inc timeline n now) (Err e)) }
{
    if has_room(woken, device) || grow(woken, device) {
        return Ok(());
    }
    device.inc_without_memory(timeline, n)
}

// Closing a file or a buffer wakes nothing, so no room is made for it. It may leave the queue with too much room.
#[inline(always)]
fn room_for_close(woken: &mut VecDeque<u64>, device: &Device, number: u64) -> Result<(), Errno>
    ensures kept { open_among device.now woken.new.items ≡ open_among device.now woken.old.items }
    ensures given { (next : ℕ) → AreGiven next woken.old.items → AreGiven next woken.new.items }
    ensures ready { OnOk result ((now : ℕ) →
        takes_memory (objects_of device.now) (request.Close number now) ≡ true →
        length device.now.files ≤ deque_capacity woken.new - deque_len woken.new) }
    ensures refused { IfErr result (λ e. (now : ℕ) →
        IsAnswer (objects_of device.now) (request.Close number now) (Err e)) }
{
    if has_too_much(woken, device) {
        give_room_back(woken, device);
    }
    if !device.is_timeline(number) {
        return Ok(());
    }
    if has_room(woken, device) || grow(woken, device) {
        return Ok(());
    }
    device.close_without_memory(number)
}

/// Whether the queue has room for every open file.
#[inline(always)]
fn has_room(woken: &VecDeque<u64>, device: &Device) -> bool
    ensures { result ≡ true → length device.now.files ≤ deque_capacity woken.now - deque_len woken.now }
{
    device.open_files() <= woken.capacity() - woken.len()
}

/// Drops closed files from the queue, and makes room. Returns whether there is room for every open file.
#[cold]
fn grow(woken: &mut VecDeque<u64>, device: &Device) -> bool
    ensures kept { open_among device.now woken.new.items ≡ open_among device.now woken.old.items }
    ensures given { (next : ℕ) → AreGiven next woken.old.items → AreGiven next woken.new.items }
    ensures ready { result ≡ true → length device.now.files ≤ deque_capacity woken.new - deque_len woken.new }
{
    drop_released(woken, device);
    woken.reserve(usual_room(device)).is_ok()
}

/// Whether the queue has much more room than the open files need.
#[inline(always)]
fn has_too_much(woken: &VecDeque<u64>, device: &Device) -> bool {
    woken.capacity() / 2 > usual_room(device)
}

/// Drops closed files from the queue, and gives room back.
#[cold]
fn give_room_back(woken: &mut VecDeque<u64>, device: &Device)
    ensures kept { open_among device.now woken.new.items ≡ open_among device.now woken.old.items }
    ensures given { (next : ℕ) → AreGiven next woken.old.items → AreGiven next woken.new.items }
{
    drop_released(woken, device);
    woken.shrink_to(usual_room(device));
}

/// Room for twice the open files: the queue is cleaned only after their number has doubled or halved, or after as many
/// were woken.
#[inline(always)]
fn usual_room(device: &Device) -> usize
    ensures { length device.now.files ≤ result }
{
    device.open_files().max(LEAST_FILES).saturating_mul(2)
}

fn drop_released(woken: &mut VecDeque<u64>, device: &Device)
    ensures { woken.new.items ≡ open_among device.now woken.old.items }
{
    woken.retain(|file| device.is_file(*file));
}

/// Queues the files that the answer wakes.
#[inline(always)]
fn keep(woken: &mut VecDeque<u64>, given: &Result<Reply, Errno>)
    requires room { length (woken_of given.now) ≤ deque_capacity woken.old - deque_len woken.old }
    ensures items { woken.new.items ≡ woken.old.items ++ woken_of given.now }
{
    if let Ok(Reply::Woken(files)) = given {
        push_all(woken, files.as_slice());
    }
}

#[inline(always)]
fn push_all(woken: &mut VecDeque<u64>, files: &[u64])
    requires room { length files.now ≤ deque_capacity woken.old - deque_len woken.old }
    ensures items { woken.new.items ≡ woken.old.items ++ files.now }
{
    for file in files {
        woken.push_back_reserved(*file);
    }
}

fn take(woken: &mut VecDeque<u64>, device: &Device, files: &mut [u64]) -> usize
    ensures count { result ≡ min (length files.old) (length (open_among device.now woken.old.items)) }
    ensures taken { files.new ≡ over (open_among device.now woken.old.items) files.old }
    ensures left { open_among device.now woken.new.items ≡ drop result (open_among device.now woken.old.items) }
    ensures given { (next : ℕ) → AreGiven next woken.old.items → AreGiven next woken.new.items }
{
    for count in 0..files.len() {
        let Some(file) = next_open(woken, device) else {
            return count;
        };
        files[count] = file;
    }
    files.len()
}

/// Takes the first file that is still open off the queue, and drops the closed ones before it.
fn next_open(woken: &mut VecDeque<u64>, device: &Device) -> Option<u64>
    ensures first { open_among device.now woken.old.items
        ≡ option_to_list result ++ open_among device.now woken.new.items }
    ensures none { IfNone result (open_among device.now woken.new.items ≡ []) }
    ensures given { (next : ℕ) → AreGiven next woken.old.items → AreGiven next woken.new.items }
{
    while let Some(file) = woken.pop_front() {
        if device.is_file(file) {
            return Some(file);
        }
    }
    None
}
