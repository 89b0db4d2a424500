//! Tests of `explain`.
use crate::answering::assert_totals;
use crate::pipes::{sink_of, source_of};
use command_core::Command;
use desk_core::Desk;
use point_core::Refusal;
use reason_core::{Book, NoteLook, NotePlace, explain, explain_command};
use std::alloc::Global;
use std::process::Abort;

// A script of refused lines, with the answer and the note of each.
const REFUSED: &[u8] = b"value a\nvalue b\nvalue c\n";

const ANSWERS: &[u8] = b"err 2 NoEntry\nerr 2 NoEntry\nerr 2 NoEntry\n";

const NOTES: &[u8] = b"line 1: there is no timeline named a
line 2: there is no timeline named b
line 3: there is no timeline named c
";

const NOTES_IN_BOLD: &[u8] = b"\x1b[1mline 1:\x1b[0m there is no timeline named a
\x1b[1mline 2:\x1b[0m there is no timeline named b
\x1b[1mline 3:\x1b[0m there is no timeline named c
";

// All answers and notes are written, and the answers are flushed once.
fn assert_explained(rt: &impl Abort, alloc: Global, look: NoteLook, wanted: &[u8]) {
    let mut answers = sink_of(ANSWERS, 7, usize::MAX);
    let mut notes = sink_of(wanted, 7, usize::MAX);
    let mut reader = source_of(REFUSED, 7);
    let totals = explain(alloc, look, &mut reader, &mut answers, &mut notes).expect(rt, "answers");
    assert_totals(rt, totals, (3, 0, 3));
    answers.assert_whole(rt);
    notes.assert_whole(rt);
    assert!(rt; answers.flushes == 1 && answers.unflushed == 0);
}

#[test]
fn numbers_in_bold(rt: HostRuntime) {
    assert_explained(&rt, rt.alloc(), NoteLook::Plain, NOTES);
    assert_explained(&rt, rt.alloc(), NoteLook::Bold, NOTES_IN_BOLD);
}

// The text for a command with this refusal.
fn assert_reason(rt: &impl Abort, alloc: Global, desk: &Desk, refusal: Refusal, wanted: &[u8]) {
    let book = Book::new(alloc);
    let place = NotePlace {
        line: 3,
        look: NoteLook::Plain,
    };
    let mut notes = sink_of(wanted, 7, usize::MAX);
    let command = Command::Report;
    let result = explain_command(desk, &book, &place, &command, refusal, &mut notes);
    result.expect(rt, "notes");
    notes.assert_whole(rt);
}

// Refusals that no line of a script produces: a lack of memory, or invalid flags.
#[test]
fn refusals_beside_scripts(rt: HostRuntime) {
    let desk = Desk::new(rt.alloc()).expect(&rt, "a desk");
    let memory = b"line 3: out of memory\n";
    assert_reason(&rt, rt.alloc(), &desk, Refusal::Memory, memory);
    assert_reason(&rt, rt.alloc(), &desk, Refusal::Flags, b"line 3: Flags\n");
}

// The answer of a last line without a line feed is flushed too.
#[test]
fn flushed_at_the_end(rt: HostRuntime) {
    let mut reader = source_of(b"timeline a", 4096);
    let mut answers = sink_of(b"ok 1\n", 4096, usize::MAX);
    let mut notes = sink_of(b"", 4096, 0);
    let result = explain(
        rt.alloc(),
        NoteLook::Plain,
        &mut reader,
        &mut answers,
        &mut notes,
    );
    assert_totals(&rt, result.expect(&rt, "answers"), (1, 1, 0));
    assert!(rt; answers.flushes == 1 && answers.unflushed == 0);
}
