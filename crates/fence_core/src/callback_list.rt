//! `CallbackList`: the callbacks of one fence, by registration, without repeats and at most `CALLBACKS`. Once they have
//! been handed out, the list stays empty and accepts nothing more. `SharedFence` keeps its list under a lock.
ghost use Rattle.std.specs.Prelude.{◌≡◌, ◌≤◌, nat_eq, vec_len, [], Ok, OnOk, OnErr};
ghost use Rattle.std.specs.List.{IsDistinct, list_any};
ghost use Rattle.point_core.specs.Refusal.{IsRefusedFor};
ghost use Rattle.fence_core.specs.declared.callback_list.TheConstants.{CALLBACKS};
ghost use Rattle.fence_core.specs.Callbacks.{cause_to_refuse_callback, with_callback, cookies_in};
ghost use Rattle.fence_core.specs.Callbacks.Callbacks.{Held, Taken};

use point_core::{LimitKind, Refusal};
use std::alloc::Global;
use std::marker::Model;
use std::mem;

/// How many callbacks a fence that threads share can have.
pub const CALLBACKS: usize = 4096;

const _: () = prove!(CALLBACKS == 4096);

/// The callbacks of one fence, as the list `cb_list` of Linux's `struct dma_fence`, in the order of registration. Once
/// the list has been handed out it accepts nothing more.
#[derive(Drop)]
pub struct CallbackList {
    cookies: Vec<u64>,
    taken: bool,
}

impl Model for CallbackList {
    ghost use Rattle.fence_core.specs.Callbacks.{Callbacks, callbacks_of, AreCallbacks};

    ghost Value = { Callbacks };

    ghost view = { λ l. callbacks_of l.taken l.cookies.items };

    ghost invariant = { λ l. AreCallbacks l.taken l.cookies.items };
}

impl CallbackList {
    /// Held, with no callbacks. It does not allocate, so it is never refused.
    pub fn new(alloc: Global) -> Result<CallbackList, Refusal>
        ensures { result ≡ Ok (Held []) }
    {
        Ok(CallbackList {
            cookies: Vec::new(alloc),
            taken: false,
        })
    }

    /// Adds a callback, the last, as Linux's `dma_fence_add_callback` does.
    ///
    /// Fails with `Signalled` if the list was taken; else with `Exists` if the cookie is there, with `Limit` if
    /// there are `CALLBACKS`, and with `Memory`. Nothing has changed then.
    pub fn add(&mut self, cookie: u64) -> Result<(), Refusal>
        ensures refused { IsRefusedFor (cause_to_refuse_callback self.old cookie) result }
        ensures last { OnOk result (self.new ≡ with_callback self.old cookie) }
        ensures unchanged { OnErr result (self.new ≡ self.old) }
    {
        if self.taken {
            return Err(Refusal::Signalled);
        }
        if has_cookie(self.cookies.as_slice(), cookie) {
            return Err(Refusal::Exists);
        }
        if self.cookies.len() >= CALLBACKS {
            return Err(Refusal::Limit(LimitKind::Watches));
        }
        self.cookies.push(cookie).map_err(|_| Refusal::Memory)?;
        Ok(())
    }

    /// Takes the list, and returns its cookies in order of registration; from then on it is taken. A list that was taken
    /// before has none.
    pub fn take(&mut self) -> Vec<u64>
        ensures given { result.items ≡ cookies_in self.old }
        ensures distinct { IsDistinct nat_eq result.items }
        ensures few { vec_len result ≤ CALLBACKS }
        ensures taken { self.new ≡ Taken }
    {
        let none = Vec::new(*self.cookies.allocator());
        self.taken = true;
        mem::replace(&mut self.cookies, none)
    }
}

fn has_cookie(cookies: &[u64], cookie: u64) -> bool
    ensures { result ≡ list_any (nat_eq cookie) cookies.now }
{
    cookies.iter().any(|held| cookie == *held)
}
