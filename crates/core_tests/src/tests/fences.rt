//! Tests of fences of two contexts' points, and of a watch.
ghost use Rattle.std.specs.Prelude.{◌≡◌, replicate};
ghost use Rattle.point_core.specs.declared.context.TheConstants.{CONTEXTS};

use crate::tests::values::holds;
use fence_core::{Fence, Watches};
use point_core::{Context, Point, Reach, Refusal};
use std::alloc::Global;
use std::process::Abort;

/// A point of the first context.
fn first_point(value: u64) -> Point
    ensures context { result.ctx ≡ 1 }
{
    Point {
        ctx: Context::at(0),
        value,
    }
}

/// A point of the second context.
fn second_point(value: u64) -> Point
    ensures context { result.ctx ≡ 2 }
{
    Point {
        ctx: Context::at(1),
        value,
    }
}

/// The values of the first two contexts.
fn reach_of(first: u64, second: u64) -> Reach {
    let mut reach = Reach::zero();
    reach.raise_to(first_point(first));
    reach.raise_to(second_point(second));
    reach
}

/// The fence of a point of the first context and one of the second; 0 means none.
fn fence_of(alloc: Global, first: u64, second: u64) -> Result<Fence, Refusal> {
    match (first, second) {
        (0, 0) => Fence::of(alloc, &[]),
        (_, 0) => Fence::of(alloc, &[first_point(first)]),
        (0, _) => Fence::of(alloc, &[second_point(second)]),
        _ => Fence::of(alloc, &[first_point(first), second_point(second)]),
    }
}

/// Checks whether a fence is signalled at these values of the first two contexts.
fn check_signalled(rt: &impl Abort, fence: &Fence, first: u64, second: u64, wanted: bool) {
    holds(rt, fence.is_signalled(&reach_of(first, second)) == wanted);
}

/// The number of a fence's members by its kind: none, one, or 2 for several.
fn kind_of(fence: &Fence) -> usize {
    match fence {
        Fence::Stub => 0,
        Fence::Plain(_) => 1,
        Fence::Array(_) => 2,
    }
}

/// Checks the kind of a fence, and its points.
fn check_members(rt: &impl Abort, fence: &Fence, members: &[Point]) {
    holds(
        rt,
        kind_of(fence) == members.len() && fence.members() == members,
    );
}

/// Checks when a fence of these points is signalled.
fn check_reached(rt: &impl Abort, fence: &Fence, first: u64, second: u64) {
    check_signalled(rt, fence, 0, 0, first == 0 && second == 0);
    check_signalled(rt, fence, 5, 0, first <= 5 && second == 0);
    check_signalled(rt, fence, 0, 2, first == 0 && second <= 2);
    check_signalled(rt, fence, 5, 2, first <= 5 && second <= 2);
}

/// Checks a fence of these points.
fn check_fence(rt: &impl Abort, alloc: Global, first: u64, second: u64, members: &[Point]) {
    let fence = fence_of(alloc, first, second).expect(rt, "a fence");
    check_members(rt, &fence, members);
    check_reached(rt, &fence, first, second);
}

#[test]
fn fence_rows(rt: HostRuntime) {
    check_fence(&rt, rt.alloc(), 0, 0, &[]);
    check_fence(&rt, rt.alloc(), 5, 0, &[first_point(5)]);
    check_fence(&rt, rt.alloc(), 0, 2, &[second_point(2)]);
    check_fence(&rt, rt.alloc(), 5, 2, &[first_point(5), second_point(2)]);
}

/// Registers a watch on a fence of point 5 of the first context, which fires once that point is reached.
fn fires(rt: &impl Abort, watches: &mut Watches, fence: &Fence)
    requires new { watches.old.reach ≡ replicate CONTEXTS 0 }
{
    let (none, five) = (Reach::zero(), reach_of(5, 0));
    assert!(rt;
        none.at_least(&none) && five.at_least(&none),
        "a reach falls"
    );
    watches.add(7, fence, &none).expect(rt, "a watch");
    let fired = watches.after_rise(&five).expect(rt, "memory");
    holds(rt, fired.as_slice() == [7].as_slice());
}

#[test]
fn a_watch_fires(rt: HostRuntime) {
    let mut watches = Watches::new(rt.alloc()).expect(&rt, "no watches");
    let fence = fence_of(rt.alloc(), 5, 0).expect(&rt, "a fence");
    fires(&rt, &mut watches, &fence);
}
