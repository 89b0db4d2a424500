//! `DeviceHandle`: the C struct that owns a device. It owns a service exactly while its pointer isn't null.
ghost use Rattle.std.specs.Prelude.{◌≡◌, true, false};
ghost use Rattle.c_handle.specs.Owning.{handle_owns};
ghost use Rattle.c_device.specs.Held.{service_coded, service_row};
ghost use Rattle.c_device.specs.Service.{ServiceState};

use crate::rows::CRaised;
use crate::service::Service;
use c_handle::Handle;
use device_core::{Errno, Fence, Reply, Request};
use std::alloc::Global;
use std::marker::Model;

/// The result of a call, or none if its handle is closed.
pub type CallResult<T> = Option<Result<T, Errno>>;

/// The result of a call that is a request.
pub type CallReply = CallResult<Reply>;

/// A device that C programs use: `struct bim_device { void *at; }`. It is closed while the pointer is null.
#[repr(C)]
#[derive(Drop)]
pub struct DeviceHandle {
    at: *mut u8,
    alloc: Global,
    pub ghost service: { ServiceState } by { service_coded },
}

impl Model for DeviceHandle {
    ghost also_owns = { λ h. handle_owns service_row h.alloc h.at h.service };
}

unsafe impl Send for DeviceHandle {}

impl DeviceHandle {
    ghost use Rattle.std.specs.Borrow.{sem};
    ghost use Rattle.c_device.specs.Handle.{is_open};
    ghost use Rattle.c_device.specs.Lending.{as_handle, LendsHandle, LendsService};
    ghost use Rattle.c_device.specs.Call.{IsAsked};
    ghost use Rattle.c_device.specs.Queries.{AnswersDue, AnswersFence, AnswersValue, IsQuery};
    ghost use Rattle.c_device.specs.Raising.{IsRaiseAt};

    /// Whether the handle is open.
    pub fn is_open(&mut self) -> bool
        ensures { (result ≡ is_open self.old) × (self.new ≡ self.old) }
    {
        self.handle().is_open()
    }

    /// Opens a closed handle.
    pub fn open(&mut self, service: Box<Service>)
        requires { is_open self.old ≡ false }
        ensures { (is_open self.new ≡ true) × (self.new.service ≡ service.value) }
    {
        self.handle().open(service);
    }

    /// Drops the device, if there is one.
    pub fn close(&mut self, alloc: Global)
        ensures { is_open self.new ≡ false }
    {
        self.handle().close(alloc);
    }

    /// The device itself, with the files that it woke.
    pub fn get_mut(&mut self) -> &mut Service
        requires { is_open self.old ≡ true }
        ensures* writes_back { sem 𝓛 (LendsService self.entry result) }
        ensures value { result.now ≡ self.old.service }
    {
        self.handle().get_mut()
    }

    /// The answer of a call: none if the handle is closed, else the error of its arguments, else the answer to the
    /// request.
    #[inline(always)]
    pub fn ask(&mut self, asked: Result<Request, Errno>) -> CallReply
        ensures { IsAsked self.old self.new asked result }
    {
        if !self.is_open() {
            return None;
        }
        match asked {
            Ok(request) => Some(self.get_mut().step(request)),
            Err(refusal) => Some(Err(refusal)),
        }
    }

    /// An increment: how many files it wakes, and the timeline's first point that is pending after it.
    #[inline(always)]
    pub fn inc(&mut self, timeline: u64, n: u32, now: u64) -> CallResult<CRaised>
        ensures { IsRaiseAt self.old self.new timeline n now result }
    {
        if self.is_open() {
            Some(self.get_mut().inc(timeline, n, now))
        } else {
            None
        }
    }

    /// The value of a timeline.
    #[inline(always)]
    pub fn value(&mut self, timeline: u64) -> CallResult<u64>
        ensures { IsQuery self.old self.new (AnswersValue timeline) result }
    {
        if self.is_open() {
            Some(self.get_mut().value(timeline))
        } else {
            None
        }
    }

    /// The least point at which an increment would signal a fence of a file.
    #[inline(always)]
    pub fn first_due(&mut self, timeline: u64, n: u64) -> CallResult<Option<u64>>
        ensures { IsQuery self.old self.new (AnswersDue timeline n) result }
    {
        if self.is_open() {
            Some(self.get_mut().first_due(timeline, n))
        } else {
            None
        }
    }

    /// The fence of a file at an index.
    #[inline(always)]
    pub fn fence_of(&mut self, file: u64, index: usize) -> CallResult<Fence>
        ensures { IsQuery self.old self.new (AnswersFence file index) result }
    {
        if self.is_open() {
            Some(self.get_mut().fence_of(file, index))
        } else {
            None
        }
    }

    // Casts the C struct to a `Handle<Service>`, which has the same fields.
    fn handle(&mut self) -> &mut Handle<Service>
        ensures* writes_back { sem 𝓛 (LendsHandle self.entry result) }
        ensures value { result.now ≡ as_handle self.old }
    {
        unsafe { &mut *(self as *mut DeviceHandle).cast::<Handle<Service>>() }
    }
}
