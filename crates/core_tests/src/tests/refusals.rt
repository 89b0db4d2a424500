//! Tests of the table of refusals, and of the words of limits.
use crate::tests::values::holds;
use point_core::{LimitKind, Refusal};
use std::alloc::Global;
use std::fmt::Display;
use std::process::Abort;

fn is_written(rt: &impl Abort, alloc: Global, it: &impl Display, text: &str) -> bool {
    format!(in alloc; "{it}").expect(rt, "memory").as_str() == text
}

/// A row of the table: the number, the name and the text of a refusal.
fn has(rt: &impl Abort, alloc: Global, refusal: Refusal, number: u8, name: &str, text: &str) {
    holds(rt, refusal.number() == number && refusal.name() == name);
    holds(rt, is_written(rt, alloc, &refusal, text));
}

type Row = (Refusal, u8, &'static str, &'static str);

/// The refusals, each with its number, its name and its text.
static REFUSALS: [Row; 16] = [
    (Refusal::Syntax, 1, "Syntax", "the line is no command"),
    (
        Refusal::NoEntry,
        2,
        "NoEntry",
        "there is no such name, buffer or context",
    ),
    (
        Refusal::Exists,
        3,
        "Exists",
        "there is such a name, cookie or driver already",
    ),
    (
        Refusal::Overflow,
        4,
        "Overflow",
        "an increment past the greatest value",
    ),
    (Refusal::Flags, 5, "Flags", "these are no sync flags"),
    (
        Refusal::Limit(LimitKind::Files),
        6,
        "Limit",
        "the limit of files is met",
    ),
    (
        Refusal::Signalled,
        7,
        "Signalled",
        "it is signalled already",
    ),
    (Refusal::TimedOut, 8, "TimedOut", "it is still active"),
    (
        Refusal::Foreign,
        9,
        "Foreign",
        "these words do not bear the file or point out",
    ),
    (
        Refusal::Torn,
        10,
        "Torn",
        "the table or value disagrees with the plans or the words",
    ),
    (Refusal::NotAll, 11, "NotAll", "parts of seats are missing"),
    (Refusal::LongLine, 12, "LongLine", "the line is too long"),
    (Refusal::Read, 13, "Read", "the reader failed"),
    (Refusal::Write, 14, "Write", "the writer failed"),
    (
        Refusal::Cancelled,
        15,
        "Cancelled",
        "the timeline is closed",
    ),
    (Refusal::Memory, 16, "Memory", "out of memory"),
];

fn refusals() -> &'static [Row] {
    &REFUSALS
}

#[test]
fn the_table_of_refusals(rt: HostRuntime) {
    for (refusal, number, name, text) in refusals() {
        has(&rt, rt.alloc(), *refusal, *number, name, text);
    }
}

fn is_called(rt: &impl Abort, alloc: Global, kind: LimitKind, word: &str) {
    holds(
        rt,
        kind.word() == word && is_written(rt, alloc, &kind, word),
    );
}

static LIMITS: [(LimitKind, &'static str); 8] = [
    (LimitKind::Timelines, "timelines"),
    (LimitKind::Buffers, "buffers"),
    (LimitKind::Files, "files"),
    (LimitKind::Watches, "watches"),
    (LimitKind::Flags, "flags"),
    (LimitKind::Clients, "clients"),
    (LimitKind::Plan, "plan"),
    (LimitKind::Script, "script"),
];

fn limits() -> &'static [(LimitKind, &'static str)] {
    &LIMITS
}

#[test]
fn the_words_of_limits(rt: HostRuntime) {
    for (kind, word) in limits() {
        is_called(&rt, rt.alloc(), *kind, word);
    }
}
