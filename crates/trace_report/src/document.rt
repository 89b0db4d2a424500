//! The report as one JSON document, which is tested (`tests/traces`). `report` calls `document_of`.

mod counts;
mod pending;
mod timelines;
mod waits;

use crate::content::Content;
use counts::{add_events, add_summary, add_totals};
use pending::add_pending;
use std::alloc::{AllocError, Global};
use text_core::JsonPage;
use timelines::{add_contexts, add_timelines};
use trace_core::{FenceKey, TimelineKey, Tracker};
use waits::add_waits;

/// The document, and a line feed.
pub(crate) fn document_of(alloc: Global, content: Content<'_>) -> Result<Vec<u8>, AllocError> {
    let mut page = JsonPage::after(alloc, Vec::new(alloc));
    add_members(&mut page, content);
    page.finish(b"\n")
}

fn add_members(page: &mut JsonPage, content: Content<'_>) {
    let tracker = content.tracker;
    page.begin_object();
    add_summary(page, content);
    add_events(page, tracker);
    add_waits(page, content);
    add_totals(page, &tracker.ledger.total(), content.found);
    add_timelines(page, content);
    add_contexts(page, tracker);
    add_pending(page, "hangs", tracker, content.hangs);
    add_pending(page, "not_known", tracker, content.unknown);
    page.end_object();
}

/// The members that name a fence.
fn add_fence(page: &mut JsonPage, tracker: &Tracker, key: &FenceKey) {
    add_names(page, tracker, &key.timeline_key());
    page.numbers(
        "context seqno",
        &[u64::from(key.context), u64::from(key.seqno)],
    );
}

/// The members that name a timeline.
fn add_names(page: &mut JsonPage, tracker: &Tracker, key: &TimelineKey) {
    let (driver, timeline) = tracker.names(key);
    page.bytes("driver", driver);
    page.bytes("timeline", timeline);
}
