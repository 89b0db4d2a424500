//! `Listing` and `canon`: the pending points of a set of fences, one for each context, by rising context. This is the
//! normal form that a sync file keeps.
ghost use Rattle.std.specs.Prelude.{◌≡◌, IfOk, IfErr};
ghost use Rattle.point_core.specs.Agreement.{as_entries, listing, HasContexts};

use crate::context::Context;
use crate::entry::{Point, Usage};
use crate::items::Items;
use crate::latest_points::LatestPoints;
use crate::reach::Reach;
use crate::refusal::Refusal;
use std::alloc::Global;

/// The pending points that a reservation or a merge hands to a new file, by rising context, and the reach above which
/// they were listed.
#[derive(Debug, PartialEq, Eq, Drop)]
pub struct Listing {
    pub points: Items<Point>,
    pub floor: Reach,
}

impl Listing {
    ghost use Rattle.std.specs.Prelude.{[], replicate};
    ghost use Rattle.point_core.specs.declared.context.TheConstants.{CONTEXTS};

    /// An empty listing with floor 0, to be filled and reused by later exports.
    pub fn empty(alloc: Global) -> Listing
        ensures empty { result ≡ record { points = []; floor = replicate CONTEXTS 0 } }
    {
        Listing {
            points: Items::of(Vec::new(alloc)),
            floor: Reach::zero(),
        }
    }
}

/// A row of a reservation's table: the latest pending point of a context at a usage or a stronger one.
#[derive(Clone, Copy, Debug, PartialEq, Eq, Hash)]
pub struct TopRow {
    pub usage: Usage,
    pub ctx: Context,
    pub point: u64,
}

/// The pending points by rising context: the greatest of each context, if it is above the reach. Linux's
/// `sync_file_merge` drops the same points, and keeps the latest of each context.
///
/// For users of the library; no program here calls it.
pub fn canon(alloc: Global, points: &[Point], reach: &Reach) -> Result<Vec<Point>, Refusal>
    ensures listing { IfOk result (λ ps. ps.items ≡ listing (as_entries points.now) 0 reach.now) }
    ensures memory { IfErr result (λ e. e ≡ Refusal.Memory) }

    // The type of a context implies it for each point.
    ensures contexts { HasContexts (as_entries points.now) }
{
    let mut latest = LatestPoints::above(reach);
    latest.put_all(points);
    latest.points(alloc, reach)
}
