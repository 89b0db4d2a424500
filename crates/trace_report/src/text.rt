//! The report as text, for a terminal. Its bytes are tested (`tests/traces`). `report` calls `text_of`.

use crate::by_timeline::ByTimeline;
use crate::content::Content;
use std::alloc::{AllocError, Global};
use text_core::{Page, Part};
use trace_core::{Delay, FenceKey, Pending, Summary, Tally, TimelineKey, Tracker, Wait};

/// The counts of what was read, the fences that hang, the waits, the broken rules, and what each timeline did.
pub(crate) fn text_of(alloc: Global, content: Content<'_>) -> Result<Vec<u8>, AllocError> {
    let mut page = Page::new(alloc);
    add_parts(&mut page, content);
    page.finish()
}

fn add_parts(page: &mut Page, content: Content<'_>) {
    let tracker = content.tracker;
    add_read(page, tracker);
    add_losses(page, &tracker.summary);
    add_hangs(page, content);
    add_unknown(page, content);
    add_waits(page, content);
    add_broken(page, &tracker.ledger.total());
    add_timelines(page, content);
    add_drawing(page, content);
}

fn add_read(page: &mut Page, tracker: &Tracker) {
    let summary = &tracker.summary;
    page.add(
        "read: # lines, # bytes: # events of fences, # other records, # lines that are no records\n",
        &[
            Part::Number(summary.lines),
            Part::Number(summary.bytes),
            Part::Number(tracker.ledger.events()),
            Part::Number(summary.others),
            Part::Number(summary.unread),
        ],
    );
    let events = tracker.ledger.total().events;
    page.add(
        "  # init, # emit, # enable_signal, # signaled, # wait_start, # wait_end, # destroy\n",
        &[
            Part::Number(events.init),
            Part::Number(events.emit),
            Part::Number(events.enable_signal),
            Part::Number(events.signaled),
            Part::Number(events.wait_start),
            Part::Number(events.wait_end),
            Part::Number(events.destroy),
        ],
    );
}

fn add_losses(page: &mut Page, summary: &Summary) {
    if let Some(clock) = summary.clock {
        let length = clock.latest.saturating_sub(clock.first);
        page.add(
            "  # s, from # on\n",
            &[Part::Seconds(length), Part::Seconds(clock.first)],
        );
        add_count(page, "  # times the time steps back\n", clock.steps_back);
    }
    if let Some(counts) = summary.counts {
        let lost = counts.written.saturating_sub(counts.in_buffer);
        add_count(
            page,
            "  # events were overwritten before the text was saved\n",
            lost,
        );
    }
    add_count(
        page,
        "  # events were lost, as lines of the text say\n",
        summary.lost_events,
    );
    add_count(
        page,
        "  # lines say that events were lost, and not how many\n",
        summary.unnumbered_losses,
    );
    add_count(
        page,
        "  # lines say that the events of a processor begin there\n",
        summary.late_buffers.len() as u64,
    );
}

/// A line, where there are any.
fn add_count(page: &mut Page, text: &'static str, count: u64) {
    if count > 0 {
        page.add(text, &[Part::Number(count)]);
    }
}

/// The fences that hang, and which of several is the first.
fn add_hangs(page: &mut Page, content: Content<'_>) {
    let hangs = content.found.hangs.as_slice();
    let Some(first) = hangs.first() else {
        page.add("\nwhat hangs: nothing\n", &[]);
        return;
    };
    page.add(
        "\nwhat hangs: # made or emitted, and never signalled\n",
        &[Part::Number(hangs.len() as u64)],
    );
    add_pending(page, content, content.hangs);
    if hangs.len() > 1 {
        page.add("  The first is ", &[]);
        add_fence(page, content.tracker, &first.key);
        page.add(
            "; the others were made after it, and may wait for it.\n",
            &[],
        );
    }
}

fn add_unknown(page: &mut Page, content: Content<'_>) {
    add_count(
        page,
        "\nnot known: # made or emitted before events were lost; their signals may be among those\n",
        content.found.unknown.len() as u64,
    );
    add_pending(page, content, content.unknown);
}

/// The fences of each timeline.
fn add_pending(page: &mut Page, content: Content<'_>, pending: &ByTimeline) {
    for (_, fences) in pending.fences().iter() {
        add_each(page, content, fences.as_slice());
    }
}

/// The fences, each with the tasks that wait for it.
fn add_each(page: &mut Page, content: Content<'_>, fences: &[Pending]) {
    for fence in fences {
        add_one(page, content, fence);
    }
}

/// A fence, and a line for each task that waits for it.
fn add_one(page: &mut Page, content: Content<'_>, fence: &Pending) {
    page.add("  ", &[]);
    add_fence(page, content.tracker, &fence.key);
    page.add(
        " since # for ## s\n",
        &[
            Part::Seconds(fence.since),
            Part::Text(content.bound()),
            Part::Seconds(content.length(fence.since)),
        ],
    );
    for (_, wait) in content.tracker.waits.open().iter() {
        if wait.key == fence.key {
            add_waiter(page, wait);
        }
    }
}

fn add_waiter(page: &mut Page, wait: &Wait) {
    page.add(
        "    #-# waits for it since #\n",
        &[
            Part::Literal(wait.task.as_bytes()),
            Part::Number(u64::from(wait.pid)),
            Part::Seconds(wait.start),
        ],
    );
}

fn add_fence(page: &mut Page, tracker: &Tracker, key: &FenceKey) {
    let (driver, timeline) = tracker.names(&key.timeline_key());
    page.add(
        "#/# context # seqno #",
        &[
            Part::Literal(driver),
            Part::Literal(timeline),
            Part::Number(u64::from(key.context)),
            Part::Number(u64::from(key.seqno)),
        ],
    );
}

fn add_waits(page: &mut Page, content: Content<'_>) {
    page.add(
        "\nwho waits: # not ended\n",
        &[Part::Number(content.tracker.waits.open().len() as u64)],
    );
    add_open(page, content);
    if content.tracker.waits.ended().count > 0 {
        add_ended(page, content.tracker);
        add_longest(page, content.tracker);
    }
}

/// The waits that have not ended, as long as they are at the end.
fn add_open(page: &mut Page, content: Content<'_>) {
    for (_, wait) in content.tracker.waits.open().iter() {
        page.add("  #", &[Part::Text(content.bound())]);
        add_wait(page, content.tracker, wait, content.length(wait.start));
    }
}

fn add_ended(page: &mut Page, tracker: &Tracker) {
    let ended = tracker.waits.ended();
    page.add(
        "  # ended after # s together, # of them before a signal; the longest:\n",
        &[
            Part::Number(ended.count),
            Part::Seconds(ended.total),
            Part::Number(tracker.waits.unsignalled()),
        ],
    );
}

/// The longest waits that ended.
fn add_longest(page: &mut Page, tracker: &Tracker) {
    for wait in tracker.waits.longest() {
        page.add("  ", &[]);
        add_wait(page, tracker, wait, wait.length);
    }
}

fn add_wait(page: &mut Page, tracker: &Tracker, wait: &Wait, length: u64) {
    page.add(
        "# s #-# for ",
        &[
            Part::Seconds(length),
            Part::Literal(wait.task.as_bytes()),
            Part::Number(u64::from(wait.pid)),
        ],
    );
    add_fence(page, tracker, &wait.key);
    add_since(page, wait.start);
}

fn add_since(page: &mut Page, time: u64) {
    page.add(" since #\n", &[Part::Seconds(time)]);
}

fn add_broken(page: &mut Page, total: &Tally) {
    let count = total.overtaken.saturating_add(total.signalled_twice);
    page.add("\nrules broken: #\n", &[Part::Number(count)]);
    add_count(
        page,
        "  # signalled after a later one of their context, which was made after them\n",
        total.overtaken,
    );
    add_count(page, "  # signalled twice\n", total.signalled_twice);
    add_count(
        page,
        "  # made behind a point that was signalled, which is ordinary\n",
        total.out_of_order_wrapped.saturating_sub(total.overtaken),
    );
    add_count(
        page,
        "  # destroyed and never signalled, which is ordinary\n",
        total.destroyed_pending,
    );
}

fn add_timelines(page: &mut Page, content: Content<'_>) {
    page.add(
        "\ntimelines, with the seconds from making or emitting to signalling:\n",
        &[],
    );
    for (key, tally) in content.tracker.ledger.timelines().by_key().iter() {
        add_timeline(page, content, key, tally);
    }
}

/// What a timeline did, and the seconds from making or emitting to signalling.
fn add_timeline(page: &mut Page, content: Content<'_>, key: &TimelineKey, tally: &Tally) {
    let (driver, timeline) = content.tracker.names(key);
    let delay = content.tracker.delays.delay(key);
    page.add(
        "  #/#: # #, # made, # signalled, # pending; median #, 95 % #, longest #\n",
        &[
            Part::Literal(driver),
            Part::Literal(timeline),
            Part::Number(tally.contexts),
            Part::Text(contexts(tally.contexts)),
            Part::Number(tally.events.init),
            Part::Number(tally.events.signaled),
            Part::Number(content.pending(key)),
            seconds(&delay, delay.median),
            seconds(&delay, delay.percentile_95),
            seconds(&delay, delay.longest),
        ],
    );
}

fn contexts(count: u64) -> &'static str {
    if count == 1 { "context" } else { "contexts" }
}

/// A time of signalling, or `-` if no fence of the timeline was signalled.
fn seconds<'a>(delay: &Delay, time: u64) -> Part<'a> {
    if delay.count > 0 {
        Part::Seconds(time)
    } else {
        Part::Text("-")
    }
}

/// How to see what hangs.
fn add_drawing(page: &mut Page, content: Content<'_>) {
    if !content.found.hangs.is_empty() {
        page.text("\nto draw what hangs: fencectl trace --draw --hangs FILE");
        page.text("; bimphlai-run --trace FILE writes one\n");
    }
}
