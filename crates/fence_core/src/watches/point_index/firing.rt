//! Finds the watches of a queue that a rise fires, as registrations in rising order. `PointIndex` calls it; the index is
//! not changed before all are found, so a refusal has nothing to undo.
ghost use Rattle.std.specs.Prelude.{◌≡◌, ◌≤◌, ◌<◌, ◌+◌, ℕ, true, length, [], Some, if◌then◌else◌};
ghost use Rattle.std.specs.Prelude.{OnOk, OnErr};
ghost use Rattle.std.specs.BTreeMap.{is_at};
ghost use Rattle.std.specs.List.Sorted.{IsStrictlySortedBy};
ghost use Rattle.std.specs.Ordering.{nat_cmp};
ghost use Rattle.point_core.specs.Reach.{value_at, reaching};
ghost use Rattle.fence_core.specs.declared.watches.point_index.WaitingPoint.{WaitingPoint as Waiting};
ghost use Rattle.fence_core.specs.declared.watches.point_index.point_queue.Standing.{Standing as Stands};
ghost use Rattle.fence_core.specs.PointIndex.{has, is_low, holds, is_due};
ghost use Rattle.fence_core.specs.Registration.{cookie_of};
ghost use Rattle.fence_core.specs.Reported.{at, with_cookies, IsReported, AreGathered, HasGathered, Fires};

use super::point_queue::PointQueue;
use crate::watches::pending::{PendingWatches, find};
use crate::watches::registration::Registration;
use point_core::{Point, Reach};
use std::alloc::AllocError;

/// `report_due` for the watches of a queue at or below the value.
#[inline(never)]
pub(super) fn report_low(
    queue: &PointQueue,
    pending: &PendingWatches,
    value: u64,
    point: &Point,
    reach: &Reach,
    fired: &mut Vec<Registration>,
) -> Result<(), AllocError>
    requires gathered { AreGathered pending.now.entries (reaching reach.now point.now) fired.old.items }
    ensures added { HasGathered pending.now.entries (reaching reach.now point.now) fired.old.items fired.new.items }
    ensures all { OnOk result ((s : Stands) → is_low value s ≡ true → has queue.now s ≡ true →
        IsReported pending.now.entries (reaching reach.now point.now) fired.new.items s.registration) }
    ensures some_fires { OnErr result (Fires pending.now.entries (reaching reach.now point.now)) }
{
    for watch in queue.watches().iter() {
        if watch.value > value {
            return Ok(());
        }
        report(watch.registration, pending, point, reach, fired)?;
    }
    Ok(())
}

/// Adds the watch if it fires once the point is reached too.
fn report(
    registration: Registration,
    pending: &PendingWatches,
    point: &Point,
    reach: &Reach,
    fired: &mut Vec<Registration>,
) -> Result<(), AllocError>
    requires gathered { AreGathered pending.now.entries (reaching reach.now point.now) fired.old.items }
    ensures added { HasGathered pending.now.entries (reaching reach.now point.now) fired.old.items fired.new.items }
    ensures reported { OnOk result (IsReported pending.now.entries (reaching reach.now point.now) fired.new.items registration) }
    ensures some_fires { OnErr result (Fires pending.now.entries (reaching reach.now point.now)) }
{
    let Some(watch) = find(pending, &registration) else {
        return Ok(());
    };
    if !watch.fence.is_signalled_with(reach, point) {
        return Ok(());
    }
    put(fired, registration)?;
    Ok(())
}

/// Puts the registration in, in its place: mostly at the end.
fn put(fired: &mut Vec<Registration>, registration: Registration) -> Result<(), AllocError>
    requires rising { IsStrictlySortedBy nat_cmp fired.old.items }
    ensures put { OnOk result ((r : ℕ) → at (with_cookies fired.new.items) r ≡ (if is_at (nat_cmp registration) r
        then Some (cookie_of registration) else at (with_cookies fired.old.items) r)) }
    ensures rising { IsStrictlySortedBy nat_cmp fired.new.items }
    ensures unchanged { OnErr result (fired.new.items ≡ fired.old.items) }
{
    let Err(place) = fired.as_slice().binary_search(&registration) else {
        return Ok(());
    };
    if place == fired.len() {
        fired.push(registration)?;
        return Ok(());
    }
    fired.insert(place, registration)?;
    Ok(())
}
