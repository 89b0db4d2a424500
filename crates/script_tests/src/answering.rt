//! Tests of scripts from readers in pieces, and of answers to writers in pieces.
use crate::pipes::{PIECES, Sink, Source, assert_refusal, failing_source_of, sink_of, source_of};
use line_core::SCRIPT_BYTES;
use point_core::Refusal;
use script_core::{Totals, engine};
use std::alloc::Global;
use std::process::Abort;

const BOTH_ORDERS: &[u8] = b"timeline a
fence f a 5
fence g a 3
merge m f g
merge n g f
info m
info n
";

const BOTH_ORDERS_ANSWERS: &[u8] = b"ok 1
ok
ok
ok
ok
ok m 0 1
fence a sw_sync 5 0
ok n 0 1
fence a sw_sync 5 0
";

// The answers of the first `lines` lines.
fn first_answers(lines: usize) -> &'static [u8] {
    match lines {
        0 => b"",
        1 => b"ok 1\n",
        2 => b"ok 1\nok\n",
        3 => b"ok 1\nok\nok\n",
        4 => b"ok 1\nok\nok\nok\n",
        5 => b"ok 1\nok\nok\nok\nok\n",
        6 => b"ok 1\nok\nok\nok\nok\nok m 0 1\nfence a sw_sync 5 0\n",
        _ => BOTH_ORDERS_ANSWERS,
    }
}

// Lines that are no commands, and a last one without its line feed.
const BAD_LINES: &[u8] = b"\
    buffer B\n\
    import B x read\n\
    timeline tttttttttttttttttttttttttttttttt\n\
    zzzzzzzzzzzzzzzzzzzzzzzzzzzzzzzzzzzzzzzzzzzzzzzzzzzzzzzzzzzzzzzzzzzzzzzzzzzzzzzzzzzzzzzzzzzzzzzzzzzz\
    zzzzzzzzzzzzzzzzzzzzzzzzzzzzzzzzzzzzzzzzzzzzzzzzzzzzzzzzzzzzzzzzzzzzzzzzzzzzzzzzzzzzzzzzzzzzzzzzzzzz\
    zzzzzzzzzzzzzzzzzzzzzzzzzzzzzzzzzzzzzzzzzzzzzzzzzzzzzzzzz\n\
    \n\
    import B x none\n\
    timeline a\n\
    value a\
    ";

const BAD_LINES_ANSWERS: &[u8] =
    b"ok\nerr 2 NoEntry\nerr 1 Syntax line 3\nerr 12 LongLine line 4\nerr 1 Syntax line 6\nok 1\nok 0\n";

// A line of 256 bytes, and two of 257.
const LONG_LINES: &[u8] = b"\
    timeline a\n\
    value a\
    \x20                                                                                                   \
    \x20                                                                                                   \
    \x20                                                \n\
    value a\
    \x20                                                                                                   \
    \x20                                                                                                   \
    \x20                                                 \n\
    #\
    xxxxxxxxxxxxxxxxxxxxxxxxxxxxxxxxxxxxxxxxxxxxxxxxxxxxxxxxxxxxxxxxxxxxxxxxxxxxxxxxxxxxxxxxxxxxxxxxxxxx\
    xxxxxxxxxxxxxxxxxxxxxxxxxxxxxxxxxxxxxxxxxxxxxxxxxxxxxxxxxxxxxxxxxxxxxxxxxxxxxxxxxxxxxxxxxxxxxxxxxxxx\
    xxxxxxxxxxxxxxxxxxxxxxxxxxxxxxxxxxxxxxxxxxxxxxxxxxxxxxxx\
    ";

const LONG_LINES_ANSWERS: &[u8] = b"ok 1\nok 0\nerr 12 LongLine line 3\nerr 12 LongLine line 4\n";

// Lines of 61 to 66 bytes, short ones, and the last at once after an empty one.
const SCANNED_LINES: &[u8] = b"\
    timeline a\n\
    \n\
    inc                                                       a 1\n\
    inc                                                        a 1\n\
    inc                                                         a 1\n\
    inc                                                          a 1\n\
    inc                                                           a 1\n\
    inc                                                            a 1\n\
    inc a 1\n\
    \n\
    inc a 1\r\n\
    # note\n\
    \x20 value  a \n\
    zzzzzzzzzzzzzzzzzzzzzzzzzzzzzzzzzzzzzzzzzzzzzzzzzzzzzzzzzzzzzzz\n\
    \n\
    value a\
    ";

const SCANNED_LINES_ANSWERS: &[u8] =
    b"ok 1\nok 1\nok 2\nok 3\nok 4\nok 5\nok 6\nok 7\nerr 1 Syntax line 11\nok 7\nerr 1 Syntax line 14\nok 7\n";

// A timeline that is closed below a pending point.
const CLOSED: &[u8] = b"\
    timeline a\n\
    fence f a 2\n\
    fence g a 5\n\
    inc a 3\n\
    watch g 8\n\
    shut a\n\
    info f\n\
    info g\n\
    wait g\n\
    merge m f g\n\
    info m\n\
    value a\n\
    inc a 1\n\
    fence h a 9\n\
    shut a\n\
    report\n\
    ";

const CLOSED_ANSWERS: &[u8] = b"\
    ok 1\n\
    ok\n\
    ok\n\
    ok 3\n\
    ok\n\
    ok 3\n\
    fired 8\n\
    ok f 1 1\n\
    fence a sw_sync 2 1\n\
    ok g -2 1\n\
    fence a sw_sync 5 -2\n\
    ok\n\
    ok\n\
    ok m 1 1\n\
    fence stub stub 0 1\n\
    ok 3\n\
    err 15 Cancelled\n\
    err 15 Cancelled\n\
    err 15 Cancelled\n\
    ok 4\n\
    closed   a                                                  3\n\
    file     f                                                  1   1\n\
    file     g                                                 -2   1\n\
    file     m                                                  1   1\n\
    ";

pub(crate) fn assert_totals(rt: &impl Abort, totals: Totals, wanted: (u64, u64, u64)) {
    let (lines, accepted, refused) = wanted;
    assert!(rt; totals.lines == lines);
    assert!(rt; totals.accepted == accepted);
    assert!(rt; totals.refused == refused);
}

fn assert_refused(
    rt: &impl Abort,
    alloc: Global,
    reader: &mut Source<'_>,
    writer: &mut Sink<'_>,
    refusal: Refusal,
) {
    let result = engine(alloc, reader, writer);
    assert_refusal(rt, result.err(), refusal);
}

// The script's answers are the wanted ones, in whatever pieces the reader and the writer work. They are flushed once,
// after the last byte.
fn assert_answers(
    rt: &impl Abort,
    alloc: Global,
    script: &[u8],
    wanted: &[u8],
    totals: (u64, u64, u64),
) {
    for piece in PIECES {
        let mut reader = source_of(script, piece);
        let mut writer = sink_of(wanted, piece, usize::MAX);
        let answered = engine(alloc, &mut reader, &mut writer).expect(rt, "answers");
        writer.assert_whole(rt);
        assert!(rt; writer.flushes == 1 && writer.unflushed == 0);
        assert_totals(rt, answered, totals);
    }
}

#[test]
fn answers_in_pieces(rt: HostRuntime) {
    let cases: [(&[u8], &[u8], (u64, u64, u64)); 11] = [
        (b"", b"", (0, 0, 0)),
        (b"\n# note", b"", (0, 0, 0)),
        (BOTH_ORDERS, BOTH_ORDERS_ANSWERS, (7, 7, 0)),
        (
            b"value a\ntimeline a\nfence f a 1\n\nwatch f 3\nxx\ninc a 1\nvalue a",
            b"err 2 NoEntry\nok 1\nok\nok\nerr 1 Syntax line 6\nok 1\nfired 3\nok 1\n",
            (7, 5, 2),
        ),
        (
            b"timeline a\nfence f a 5\ninc a 4\nwait f\ninc a 1\nwait f\n",
            b"ok 1\nok\nok 4\nerr 8 TimedOut\nok 5\nok\n",
            (6, 5, 1),
        ),
        (BAD_LINES, BAD_LINES_ANSWERS, (7, 3, 4)),
        (
            b"timeline a\nfence f a 1\nclose f\nwait f\nfence f a 9\ninfo f\n",
            b"ok 1\nok\nok\nerr 2 NoEntry\nok\nok f 0 1\nfence a sw_sync 9 0\n",
            (6, 5, 1),
        ),
        (
            b"timeline a\ninc a 18446744073709551616\ninc a 00000000000000000005\ninc a 000000000000000000005\n\
              inc a -1\ntimeline \tb\n# note\nvalue a",
            b"ok 1\nerr 1 Syntax line 2\nok 5\nerr 1 Syntax line 4\nerr 1 Syntax line 5\nerr 1 Syntax line 6\nok 5\n",
            (7, 3, 4),
        ),
        (LONG_LINES, LONG_LINES_ANSWERS, (4, 2, 2)),
        (SCANNED_LINES, SCANNED_LINES_ANSWERS, (12, 10, 2)),
        (CLOSED, CLOSED_ANSWERS, (16, 13, 3)),
    ];
    for (script, wanted, totals) in cases {
        assert_answers(&rt, rt.alloc(), script, wanted, totals);
    }
}

// The first bytes, followed by `count` copies of a text.
pub(crate) fn repeated(
    rt: &impl Abort,
    alloc: Global,
    first: &[u8],
    text: &[u8],
    count: usize,
) -> Vec<u8> {
    let mut copies = Vec::from_slice(alloc, first).expect(rt, "memory");
    for _ in 0..count {
        copies.extend_from_slice(text).expect(rt, "memory");
    }
    copies
}

// More lines than one block, one of which ends at the block's end, and more answers than one write.
#[test]
fn many_answers(rt: HostRuntime) {
    let first = b"timeline a\n\n\n\n\n\n";
    let script = repeated(&rt, rt.alloc(), first, b"value b\n", 2100);
    let wanted = repeated(&rt, rt.alloc(), b"ok 1\n", b"err 2 NoEntry\n", 2100);
    assert_answers(
        &rt,
        rt.alloc(),
        script.as_slice(),
        wanted.as_slice(),
        (2101, 1, 2100),
    );
}

// A byte more than a script may have.
#[test]
fn a_script_that_is_too_long(rt: HostRuntime) {
    let script = repeated(&rt, rt.alloc(), b"timeline a\n", b"\n", SCRIPT_BYTES - 10);
    assert_answers(
        &rt,
        rt.alloc(),
        script.as_slice(),
        b"ok 1\nerr 6 Limit script\n",
        (2, 1, 1),
    );
}

// The lines whose line feed was read are answered.
#[test]
fn failing_reader(rt: HostRuntime) {
    for cut in 0..=BOTH_ORDERS.len() {
        let script = &BOTH_ORDERS[..cut];
        let ended = script.iter().filter(|byte| **byte == b'\n').count();
        let mut reader = failing_source_of(script, 7);
        let mut writer = sink_of(first_answers(ended), 4096, usize::MAX);
        assert_refused(&rt, rt.alloc(), &mut reader, &mut writer, Refusal::Read);
        writer.assert_whole(&rt);
        assert!(rt; writer.flushes == 1);
    }
}

#[test]
fn failing_writer(rt: HostRuntime) {
    for room in 0..BOTH_ORDERS_ANSWERS.len() {
        for piece in [1, 4096] {
            let mut reader = source_of(BOTH_ORDERS, 4096);
            let mut writer = sink_of(&BOTH_ORDERS_ANSWERS[..room], piece, room);
            assert_refused(&rt, rt.alloc(), &mut reader, &mut writer, Refusal::Write);
            writer.assert_whole(&rt);
            assert!(rt; writer.flushes == 0);
        }
    }
}

#[test]
fn failing_flush(rt: HostRuntime) {
    let mut reader = source_of(BOTH_ORDERS, 4096);
    let mut writer = sink_of(BOTH_ORDERS_ANSWERS, 4096, usize::MAX);
    writer.flush_fails = true;
    assert_refused(&rt, rt.alloc(), &mut reader, &mut writer, Refusal::Write);
    writer.assert_whole(&rt);
}
