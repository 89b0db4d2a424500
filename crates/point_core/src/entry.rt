//! `Point` and `Entry`: a fence by its timeline and value, and a fence in a reservation, with its usage.
ghost use Rattle.std.specs.Prelude.{◌≡◌, ◌↔◌, IsTrue};
ghost use Rattle.point_core.specs.Agreement.{Covers};
ghost use Rattle.point_core.specs.Usage.{usage_number};

use crate::context::Context;

/// A fence by its context and sequence number, as the kernel's `dma_fence` has them: it is signalled once the context's
/// value has reached its own.
#[derive(Clone, Copy, Debug, PartialEq, Eq, Hash)]
pub struct Point {
    pub ctx: Context,
    pub value: u64,
}

/// What a fence in a reservation is for, as Linux's `enum dma_resv_usage`: a lower number is the stronger usage, and
/// asking for a usage gives all stronger ones too.
#[derive(Clone, Copy, Debug, PartialEq, Eq, Hash)]
pub enum Usage {
    Kernel,
    Write,
    Read,
    Bookkeep,
}

/// A fence in a reservation. A file's point is read as an entry of usage `Kernel`.
#[derive(Clone, Copy, Debug, PartialEq, Eq, Hash)]
pub struct Entry {
    pub point: Point,
    pub usage: Usage,
}

impl Usage {
    /// The number of the kernel's enum, from 0.
    pub fn number(self) -> u8
        ensures { result ≡ usage_number self }
    {
        match self {
            Usage::Kernel => 0,
            Usage::Write => 1,
            Usage::Read => 2,
            Usage::Bookkeep => 3,
        }
    }
}

/// Whether `by` supersedes `other`: the same context, a usage at least as strong, and a point at least as late.
pub fn covers(by: Entry, other: Entry) -> bool
    ensures { IsTrue result ↔ Covers by other }
{
    by.point.ctx == other.point.ctx
        && by.usage.number() <= other.usage.number()
        && by.point.value >= other.point.value
}
