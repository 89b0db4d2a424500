//! `Context`: a timeline's number. It is always from 1 to `CONTEXTS`, so an index by context needs no check.
ghost use Rattle.std.specs.Prelude.{◌≡◌, ℕ, ◌+◌, ◌<◌, ◌≤◌, ◌↔◌, IsSome, IfSome};
ghost use Rattle.point_core.specs.declared.context.TheConstants.{CONTEXTS};

use std::marker::Model;

/// How many timelines there can be. Every table by context has this length.
pub const CONTEXTS: usize = 256;

const _: () = prove!(CONTEXTS == 256);

/// The number of a timeline, from 1 to `CONTEXTS`, in order of making.
///
/// The kernel's fence contexts are 64-bit numbers that are never used again; here there are few, so a table by context
/// is an array.
#[derive(Clone, Copy, Debug, PartialEq, Eq, Hash, PartialOrd, Ord)]
pub struct Context {
    number: u16,
}

impl Model for Context {
    ghost Value = { ℕ };

    ghost view = { λ c. c.number };

    ghost invariant = { λ c. (1 ≤ c.number) × (c.number ≤ CONTEXTS) };

    ghost inverse = { λ n. record { number = n } };
}

impl Context {
    /// The context with this number, if it is from 1 to `CONTEXTS`.
    pub fn new(number: u16) -> Option<Self>
        ensures valid { IsSome result ↔ ((1 ≤ number) × (number ≤ CONTEXTS)) }
        ensures value { IfSome result (λ c. c ≡ number) }
    {
        if number >= 1 && usize::from(number) <= CONTEXTS {
            Some(Context { number })
        } else {
            None
        }
    }

    /// The context at an index of a table by context.
    pub fn at(index: usize) -> Context
        requires { index < CONTEXTS }
        ensures { result ≡ index + 1 }
    {
        Context {
            number: index as u16 + 1,
        }
    }

    /// Its number, from 1.
    pub fn number(self) -> u16
        ensures value { result ≡ self }
        ensures within { (1 ≤ result) × (result ≤ CONTEXTS) }
    {
        self.number
    }

    /// Its index in a table by context, from 0.
    pub fn index(self) -> usize
        ensures value { result + 1 ≡ self }
        ensures within { result < CONTEXTS }
    {
        usize::from(self.number) - 1
    }
}
