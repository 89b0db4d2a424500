//! The common part of the static libraries for C programs: handles, boxes by their fields, and the numbers of usages.
//! `specs/` defines a caller's array after rows were stored into it.
#![tactic(auto)]

ghost use Rattle.std.specs.Prelude.{◌≡◌, pos, IfSome, IfNone};
ghost use Rattle.point_core.specs.Usage.{usage_number};
ghost use Rattle.c_handle.specs.Usages.{IsUsage, usage_of};

mod handle;
mod parts;

pub use handle::Handle;
pub use parts::Parts;
use point_core::Usage;

/// The usage with this number of Linux's `enum dma_resv_usage`, if there is one.
#[inline(always)]
pub fn usage_of(number: i32) -> Option<Usage>
    ensures is { result ≡ usage_of number }
    ensures value { IfSome result (λ usage. number ≡ pos (usage_number usage)) }
    ensures none { IfNone result (¬ IsUsage number) }
{
    match number {
        0 => Some(Usage::Kernel),
        1 => Some(Usage::Write),
        2 => Some(Usage::Read),
        3 => Some(Usage::Bookkeep),
        _ => None,
    }
}
