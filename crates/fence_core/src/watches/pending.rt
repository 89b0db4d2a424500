//! `PendingWatch`, and the hash map that has all of them by cookie: the registration of each has the cookie that it is
//! kept under. `Watches` and `PointIndex` change the map together with the index, so both have the same watches.
ghost use Rattle.std.specs.Prelude.{◌≡◌, ℕ, nat_eq, Some, if◌then◌else◌, option_copied};
ghost use Rattle.std.specs.Map.{keys_of, lookup, set_value};
ghost use Rattle.fence_core.specs.Registration.{cookie_of};
ghost use Rattle.fence_core.specs.Pending.{pending_at, watch_in};

use super::point_index::WaitingPoint;
use super::registration::Registration;
use crate::fence::Fence;
use std::collections::HashMap;

/// A registered callback, as Linux's `struct dma_fence_cb`: its point in the index, with its registration, and its
/// fence.
#[derive(Drop)]
pub(super) struct PendingWatch {
    pub(super) place: WaitingPoint,
    pub(super) fence: Fence,
}

/// The pending watches, by cookie. They are only looked up, so they are kept in no order.
pub(super) type PendingWatches = HashMap<u64, PendingWatch>;

impl PendingWatch {
    /// The cookie that it is known by.
    pub(super) fn cookie(&self) -> u64
        ensures { result ≡ (watch_in self.now).cookie }
    {
        self.place.registration.cookie()
    }
}

/// The pending watch of that registration.
pub(super) fn find<'a>(
    pending: &'a PendingWatches,
    registration: &Registration,
) -> Option<&'a PendingWatch>
    ensures { option_copied result ≡ pending_at pending.now.entries registration.now }
{
    let Some(watch) = pending.get(&registration.cookie()) else {
        return None;
    };
    if watch.place.registration == *registration {
        return Some(watch);
    }
    None
}

/// Moves the watch of the place's cookie to the place.
pub(super) fn replace(pending: &mut PendingWatches, place: &WaitingPoint)
    ensures moved { (w : PendingWatch) → lookup (nat_eq (cookie_of place.now.registration)) pending.old.entries ≡ Some w →
        pending.new.entries ≡ set_value (nat_eq (cookie_of place.now.registration)) pending.old.entries
        (record { place = place.now; fence = w.fence }) }
{
    let Some(watch) = pending.get_mut(&place.registration.cookie()) else {
        return;
    };
    watch.place = *place;
}
