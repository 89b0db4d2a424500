//! The members on waits: the longest, the unfinished, and sums by timeline.

use crate::content::Content;
use crate::document::add_fence;
use text_core::JsonPage;
use trace_core::{TimelineKey, Tracker, Wait, WaitSum};

/// The member on waits.
pub(crate) fn add_waits(page: &mut JsonPage, content: Content<'_>) {
    let tracker = content.tracker;
    let waits = &tracker.waits;
    let events = tracker.ledger.total().events;
    page.object("waits");
    page.numbers("started ended", &[events.wait_start, events.wait_end]);
    page.numbers(
        "matched total_us longest_us unsignalled_ends ends_without_start",
        &[
            waits.ended().count,
            waits.ended().total,
            waits.ended().longest,
            waits.unsignalled(),
            waits.without_start(),
        ],
    );
    add_longest(page, tracker);
    add_open(page, content);
    add_sums(page, tracker);
    page.end_object();
}

/// The longest waits that ended.
fn add_longest(page: &mut JsonPage, tracker: &Tracker) {
    page.array("longest");
    for wait in tracker.waits.longest() {
        add_wait(page, tracker, wait, wait.length);
    }
    page.end_array();
}

/// The waits that have not ended, as long as they are at the end.
fn add_open(page: &mut JsonPage, content: Content<'_>) {
    page.array("unfinished");
    for (_, wait) in content.tracker.waits.open().iter() {
        add_wait(page, content.tracker, wait, content.length(wait.start));
    }
    page.end_array();
}

fn add_wait(page: &mut JsonPage, tracker: &Tracker, wait: &Wait, length: u64) {
    page.begin_object();
    add_fence(page, tracker, &wait.key);
    page.numbers("us", &[length]);
    add_task(page, wait);
}

/// The members on the task of a wait, which end its object.
pub(crate) fn add_task(page: &mut JsonPage, wait: &Wait) {
    page.numbers("pid start_us", &[u64::from(wait.pid), wait.start]);
    page.bytes("task", wait.task.as_bytes());
    page.end_object();
}

/// The sums of each timeline.
fn add_sums(page: &mut JsonPage, tracker: &Tracker) {
    page.object("by_timeline");
    for (key, sum) in tracker.waits.by_timeline().iter() {
        add_sum(page, tracker, key, sum);
    }
    page.end_object();
}

fn add_sum(page: &mut JsonPage, tracker: &Tracker, key: &TimelineKey, sum: &WaitSum) {
    let (driver, timeline) = tracker.names(key);
    page.key_of_two(driver, timeline);
    page.begin_object();
    page.numbers(
        "count total_us longest_us",
        &[sum.count, sum.total, sum.longest],
    );
    page.end_object();
}
