//! The members on fences that are pending, and on the tasks that wait for them.

use crate::by_timeline::ByTimeline;
use crate::document::add_fence;
use crate::document::waits::add_task;
use text_core::JsonPage;
use trace_core::{FenceKey, Pending, Tracker};

/// The member of that name, with the fences.
pub(crate) fn add_pending(
    page: &mut JsonPage,
    name: &str,
    tracker: &Tracker,
    pending: &ByTimeline,
) {
    page.array(name);
    for (_, fences) in pending.fences().iter() {
        add_each(page, tracker, fences.as_slice());
    }
    page.end_array();
}

fn add_each(page: &mut JsonPage, tracker: &Tracker, fences: &[Pending]) {
    for fence in fences {
        page.begin_object();
        add_fence(page, tracker, &fence.key);
        page.numbers("since_us", &[fence.since]);
        add_waiters(page, tracker, &fence.key);
        page.end_object();
    }
}

/// The tasks that wait for the fence.
fn add_waiters(page: &mut JsonPage, tracker: &Tracker, key: &FenceKey) {
    page.array("waiters");
    for (_, wait) in tracker.waits.open().iter() {
        if wait.key == *key {
            page.begin_object();
            add_task(page, wait);
        }
    }
    page.end_array();
}
