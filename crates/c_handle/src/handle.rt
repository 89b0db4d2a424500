//! `Handle`: a pointer that C programs own. It owns a boxed value exactly while it isn't null; the handles of `c_desk` and
//! `c_device` are cast to it.
ghost use Rattle.std.specs.Prelude.{◌≡◌, true, false};
ghost use Rattle.c_handle.specs.Owning.{handle_owns};

use crate::parts::Parts;
use std::alloc::Global;
use std::marker::Model;
use std::ptr::null_mut;

/// A pointer to a value on the heap, or null while the handle is closed. Dropping a handle frees nothing: C owns its
/// handles, and only a closed one is overwritten.
#[repr(C)]
#[derive(Drop)]
pub struct Handle<T> {
    at: *mut T,
    alloc: Global,
    pub ghost held: { T } by { T.code },
}

impl<T> Model for Handle<T> {
    ghost also_owns = { λ h. handle_owns T.row h.alloc h.at h.held };
}

impl<T> Handle<T> {
    ghost use Rattle.std.specs.Borrow.{sem};
    ghost use Rattle.c_handle.specs.Lending.{is_open, LendsHeld};

    /// Whether there is a value.
    pub fn is_open(&mut self) -> bool
        ensures { (result ≡ is_open self.old) × (self.new ≡ self.old) }
    {
        !self.at.is_null()
    }

    /// The value.
    pub fn get_mut(&mut self) -> &mut T
        requires { is_open self.old ≡ true }
        ensures* writes_back { sem 𝓛 (LendsHeld T.row self.entry result) }
        ensures value { result.now ≡ self.old.held }
    {
        unsafe { &mut *self.at }
    }

    /// Opens a closed handle.
    pub fn open(&mut self, value: Box<T>)
    where
        T: Drop,
        requires { is_open self.old ≡ false }
        ensures { (is_open self.new ≡ true) × (self.new.held ≡ value.value) }
    {
        *self = Handle::of_parts(Parts::of(value));
    }

    /// Drops the value, if there is one.
    pub fn close(&mut self, alloc: Global)
    where
        T: Drop,
        ensures { is_open self.new ≡ false }
    {
        if self.is_open() {
            drop(self.take(alloc).into_box());
        }
    }

    fn of_parts(parts: Parts<T, Global>) -> Handle<T>
        ensures { (is_open result ≡ true) × (result.held ≡ parts.value) }
    {
        let Parts { ptr, alloc } = parts;
        Handle { at: ptr, alloc }
    }

    // Closes an open handle, and returns the parts of its box.
    fn take(&mut self, alloc: Global) -> Parts<T, Global>
        requires { is_open self.old ≡ true }
        ensures { (is_open self.new ≡ false) × (result.value ≡ self.old.held) }
    {
        let ptr = self.at;
        self.at = null_mut();
        Parts { ptr, alloc }
    }
}
