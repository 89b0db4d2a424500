//! `Registration`: the number of a registration and the cookie that was registered, as one number. `Watches` orders the
//! cookies that fire by it, and `PendingWatches` finds a watch by it.
ghost use Rattle.std.specs.Prelude.{◌≡◌};
ghost use Rattle.fence_core.specs.Registration.{numbered, cookie_of};

use std::marker::Model;

/// How many cookies there are.
const COOKIES: u128 = 18_446_744_073_709_551_616;

const _: () = prove!(COOKIES == 18_446_744_073_709_551_616);

/// The number of a registration, counted from 0, times `COOKIES`, plus its cookie. It is never used again, while a
/// cookie may be.
#[derive(Clone, Copy, PartialEq, Eq, PartialOrd, Ord)]
pub(super) struct Registration(pub(super) u128);

impl Model for Registration {
    ghost use Rattle.std.specs.Prelude.{ℕ};

    ghost Value = { ℕ };

    ghost view = { λ r. r.0 };

    ghost inverse = { λ n. record { 0 = n } };
}

impl Registration {
    /// The registration of a cookie, after this many others.
    pub(super) fn of(made: u64, cookie: u64) -> Registration
        ensures { result ≡ numbered made cookie }
    {
        Registration(made as u128 * COOKIES + cookie as u128)
    }

    /// The cookie that was registered.
    pub(super) fn cookie(&self) -> u64
        ensures { result ≡ cookie_of self.now }
    {
        (self.0 % COOKIES) as u64
    }
}
