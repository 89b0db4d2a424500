//! The members on what each timeline and each context did.

use crate::content::Content;
use crate::document::add_names;
use crate::document::counts::add_faults;
use text_core::JsonPage;
use trace_core::{ContextKey, ContextState, Tally, TimelineKey, Tracker};

/// The member on timelines.
pub(crate) fn add_timelines(page: &mut JsonPage, content: Content<'_>) {
    let timelines = content.tracker.ledger.timelines();
    page.object("per_timeline_name");
    for (key, tally) in timelines.by_key().iter() {
        add_timeline(page, content, key, tally);
    }
    page.end_object();
}

/// A timeline, with the times from making or emitting to signalling, where there are any.
fn add_timeline(page: &mut JsonPage, content: Content<'_>, key: &TimelineKey, tally: &Tally) {
    let (driver, timeline) = content.tracker.names(key);
    page.key_of_two(driver, timeline);
    page.begin_object();
    page.numbers(
        "contexts inits signalled pending",
        &[
            tally.contexts,
            tally.events.init,
            tally.events.signaled,
            content.pending(key),
        ],
    );
    let delay = content.tracker.delays.delay(key);
    if delay.count > 0 {
        page.numbers(
            "median_us percentile_95_us longest_us",
            &[delay.median, delay.percentile_95, delay.longest],
        );
    }
    add_faults(page, tally);
}

/// The member on contexts.
pub(crate) fn add_contexts(page: &mut JsonPage, tracker: &Tracker) {
    let contexts = tracker.ledger.contexts();
    page.array("contexts");
    for (key, context) in contexts.by_key().iter() {
        add_context(page, tracker, key, context);
    }
    page.end_array();
}

fn add_context(page: &mut JsonPage, tracker: &Tracker, key: &ContextKey, context: &ContextState) {
    let events = context.tally.events;
    page.begin_object();
    add_names(page, tracker, &key.timeline_key());
    page.numbers(
        "context inits emits enable_signal signalled destroyed",
        &[
            u64::from(key.context),
            events.init,
            events.emit,
            events.enable_signal,
            events.signaled,
            events.destroy,
        ],
    );
    add_faults(page, &context.tally);
}
