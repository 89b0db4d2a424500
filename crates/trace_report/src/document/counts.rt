//! The members on what was read, and on what all fences did.

use crate::content::Content;
use crate::found::PendingFences;
use text_core::JsonPage;
use trace_core::{Summary, Tally, Tracker};

/// Totals read and lost.
pub(crate) fn add_summary(page: &mut JsonPage, content: Content<'_>) {
    let summary = &content.tracker.summary;
    page.numbers(
        "bytes lines unread_lines records_over_two_lines other_records late_buffers",
        &[
            summary.bytes,
            summary.lines,
            summary.unread,
            summary.over_lines,
            summary.others,
            summary.late_buffers.len() as u64,
        ],
    );
    if let Some(clock) = summary.clock {
        page.numbers(
            "first_event_us last_event_us times_going_back",
            &[clock.first, clock.latest, clock.steps_back],
        );
    }
    page.numbers("until_us", &[content.end]);
    if summary.end.is_marked {
        page.numbers("end_us", &[content.end]);
    }
    add_losses(page, summary);
}

/// What was lost, by lines of the text, and by its header where that counts the events that were overwritten.
fn add_losses(page: &mut JsonPage, summary: &Summary) {
    page.object("lost");
    page.numbers(
        "markers events",
        &[summary.loss_markers, summary.lost_events],
    );
    if let Some(counts) = summary.counts {
        let lost = counts.written.saturating_sub(counts.in_buffer);
        page.numbers("by_header", &[lost]);
    }
    page.numbers("unnumbered", &[summary.unnumbered_losses]);
    page.end_object();
}

/// How many events of each kind there were.
pub(crate) fn add_events(page: &mut JsonPage, tracker: &Tracker) {
    let events = tracker.ledger.total().events;
    page.object("events");
    page.numbers(
        "init emit enable_signal signaled wait_start wait_end destroy all",
        &[
            events.init,
            events.emit,
            events.enable_signal,
            events.signaled,
            events.wait_start,
            events.wait_end,
            events.destroy,
            tracker.ledger.events(),
        ],
    );
    page.end_object();
}

/// What all fences did.
pub(crate) fn add_totals(page: &mut JsonPage, total: &Tally, found: &PendingFences) {
    let unknown = found.unknown.len() as u64;
    let hangs = found.hangs.len() as u64;
    let fences = hangs.saturating_add(unknown);
    page.object("totals");
    page.numbers(
        "inits signalled never_signalled_pending not_known",
        &[
            total.events.init,
            total.events.signaled,
            fences.saturating_add(found.unnumbered),
            unknown,
        ],
    );
    add_faults(page, total);
}

/// What fences did beside their signals, which ends the object.
pub(crate) fn add_faults(page: &mut JsonPage, tally: &Tally) {
    page.numbers(
        "destroyed_unsignalled out_of_order_plain out_of_order_wrap repeats",
        &[
            tally.destroyed_pending,
            tally.out_of_order,
            tally.out_of_order_wrapped,
            tally.repeats,
        ],
    );
    page.numbers(
        "init_of_pending_key signalled_unseen destroyed_unseen signalled_twice overtaken",
        &[
            tally.made_again,
            tally.signalled_unseen,
            tally.destroyed_unseen,
            tally.signalled_twice,
            tally.overtaken,
        ],
    );
    page.end_object();
}
