//! `Fence`: the stub, one point, or an array of at least two points by rising context. `Fence::of` makes every fence,
//! so the contexts always rise. `Watches` and `SharedFence` keep one for each watch, or for each shared fence.
ghost use Rattle.std.specs.Prelude.{◌≡◌, ◌<◌, ◌≤◌, ◌↔◌, true, false, length, IfOk, IfErr, IsOk, IfSome, IfNone, IsTrue};
ghost use Rattle.point_core.specs.declared.refusal.Refusal.TheVariants.{Memory};
ghost use Rattle.point_core.specs.Agreement.{HasRisingContexts};
ghost use Rattle.point_core.specs.Reach.{value_at, reaching};
ghost use Rattle.fence_core.specs.Fence.{members_of, fence_of, are_reached};
ghost use Rattle.fence_core.specs.PointIndex.{IsOneAbove};

use point_core::{Context, Point, Reach, Refusal, is_signalled};
use std::alloc::Global;
use std::marker::Model;
use std::slice;

/// Several fences as one, signalled once all of them are, as Linux's `struct dma_fence_array` without
/// `signal_on_any`: at least two points, by rising context.
#[derive(Debug, Drop)]
pub struct FenceArray {
    points: Vec<Point>,
}

impl Model for FenceArray {
    ghost use Rattle.std.specs.Prelude.{List, ◌≤◌, length};
    ghost use Rattle.point_core.specs.declared.entry.Point.{Point};
    ghost use Rattle.point_core.specs.Agreement.{HasRisingContexts};

    ghost Value = { List Point };

    ghost view = { λ a. a.points.items };

    ghost invariant = { λ a. (2 ≤ length a.points.items) × HasRisingContexts a.points.items };
}

/// A fence, as Linux's `struct dma_fence`, which a sync file has and a watch waits for: the stub, which is signalled from
/// the start, one point, or an array.
#[derive(Debug, Drop)]
pub enum Fence {
    Stub,
    Plain(Point),
    Array(FenceArray),
}

impl Fence {
    /// The fence of these points: the stub of none, a plain fence of one, else an array, as Linux's `sync_file_merge`
    /// makes them.
    ///
    /// Fails only with `Memory`, and only when it makes an array.
    pub fn of(alloc: Global, points: &[Point]) -> Result<Fence, Refusal>
        requires rising { HasRisingContexts points.now }
        ensures fence { IfOk result (λ f. f ≡ fence_of points.now) }
        ensures memory { IfErr result (λ e. e ≡ Memory) }
        ensures few { length points.now < 2 → IsOk result }
    {
        match points {
            [] => Ok(Fence::Stub),
            [point] => Ok(Fence::Plain(*point)),
            _ => Ok(Fence::Array(FenceArray {
                points: Vec::from_slice(alloc, points)?,
            })),
        }
    }

    /// The points that it waits for, by rising context, as Linux's `dma_fence_unwrap_for_each` goes over them. A plain
    /// fence has its own point, and the stub none.
    pub fn members(&self) -> &[Point]
        ensures value { result.now ≡ members_of self.now }
        ensures rising { HasRisingContexts result.now }
    {
        match self {
            Fence::Stub => &[],
            Fence::Plain(point) => slice::from_ref(point),
            Fence::Array(array) => array.points.as_slice(),
        }
    }

    /// Whether each of its points is signalled. The stub is.
    pub fn is_signalled(&self, reach: &Reach) -> bool
        ensures { result ≡ are_reached reach.now (members_of self.now) }
    {
        self.members()
            .iter()
            .all(|point| is_signalled(*point, reach))
    }

    /// Whether each of its points is signalled once this one is reached too.
    pub(crate) fn is_signalled_with(&self, reach: &Reach, point: &Point) -> bool
        ensures { result ≡ are_reached (reaching reach.now point.now) (members_of self.now) }
    {
        self.members()
            .iter()
            .all(|member| is_reached_with(member, reach, point))
    }
}

/// The first of the points that is above the reach. There is none if all are signalled.
pub(crate) fn first_above(points: &[Point], reach: &Reach) -> Option<Point>
    ensures above { IfSome result (λ p. IsOneAbove reach.now points.now p) }
    ensures pending { IfSome result (λ _. are_reached reach.now points.now ≡ false) }
    ensures signalled { IfNone result (are_reached reach.now points.now ≡ true) }
{
    for point in points {
        if !is_signalled(*point, reach) {
            return Some(*point);
        }
    }
    None
}

/// Whether the point is signalled once another is reached too.
fn is_reached_with(member: &Point, reach: &Reach, point: &Point) -> bool
    ensures { IsTrue result ↔ (member.now.value ≤ value_at (reaching reach.now point.now) member.now.ctx) }
{
    member.value <= value_with(reach, point, member.ctx)
}

/// The value of the context once the point is reached too.
pub(crate) fn value_with(reach: &Reach, point: &Point, ctx: Context) -> u64
    ensures value { result ≡ value_at (reaching reach.now point.now) ctx }
{
    let value = reach.get(ctx);
    let own = reach.get(point.ctx);
    if ctx.number() == point.ctx.number() {
        return own.max(point.value);
    }
    value
}
