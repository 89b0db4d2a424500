//! Tests that count reads and writes: an answer is written before the next read, nothing is read past a script's limit, and text is
//! collected before it is written.
use crate::answering::repeated;
use crate::pipes::{Source, assert_refusal, sink_of, source_of};
use json_core::run_json;
use line_core::SCRIPT_BYTES;
use point_core::Refusal;
use report_core::WRITE_BYTES;
use script_core::engine;
use std::process::Abort;

// The first of `LINES`.
const FIRST: &[u8] = b"timeline a\n";

const LINES: &[u8] = b"timeline a\nvalue a\n";

const OBJECTS: &[u8] = b"{\"line\":1,\"command\":\"timeline a\",\"ok\":true,\"value\":1}
{\"line\":2,\"command\":\"value a\",\"ok\":true,\"value\":0}
";

// The table that is shown again and again.
const SHOWN: &[u8] = b"ok 4
kernel   a                                                  5
write    a                                                  5
read     a                                                  5
bookkeep a                                                  5
";

// How often the buffer is shown. All of the script's lines fit into one read.
const SHOWS: usize = 2000;

// A read for each byte of a script of the greatest length, and one more that finds its end.
#[test]
fn reads_up_to_the_limit(rt: HostRuntime) {
    let script = repeated(&rt, rt.alloc(), FIRST, b"\n", SCRIPT_BYTES - FIRST.len());
    let mut reader = source_of(script.as_slice(), 1);
    let mut writer = sink_of(b"ok 1\n", 4096, usize::MAX);
    let answered = engine(rt.alloc(), &mut reader, &mut writer);
    assert!(rt; answered.is_ok() && reader.reads == SCRIPT_BYTES + 1);
    writer.assert_whole(&rt);
}

// The first line's answer fails to be written, and no byte of the next line is read.
#[test]
fn no_read_after_a_failed_write(rt: HostRuntime) {
    let mut reader = source_of(LINES, 1);
    let answered = engine(rt.alloc(), &mut reader, &mut sink_of(b"", 4096, 0));
    assert_stopped(&rt, &reader, answered.err());
    let mut reader = source_of(LINES, 1);
    let answered = run_json(rt.alloc(), &mut reader, &mut sink_of(b"", 4096, 0));
    assert_stopped(&rt, &reader, answered.err());
}

fn assert_stopped(rt: &impl Abort, reader: &Source<'_>, refused: Option<Refusal>) {
    assert_refusal(rt, refused, Refusal::Write);
    assert!(rt; reader.reads == FIRST.len());
}

#[test]
fn failing_flush_of_objects(rt: HostRuntime) {
    let mut writer = sink_of(OBJECTS, 4096, usize::MAX);
    writer.flush_fails = true;
    let answered = run_json(rt.alloc(), &mut source_of(LINES, 4096), &mut writer);
    assert_refusal(&rt, answered.err(), Refusal::Write);
    writer.assert_whole(&rt);
}

// Many tables that are shown in one read are written by few writes, and none of them waits for the next read.
#[test]
fn tables_are_collected_up_to_a_write(rt: HostRuntime) {
    let made = b"timeline a\nbuffer B\nadd B a 5 kernel\n";
    let script = repeated(&rt, rt.alloc(), made, b"show B\n", SHOWS);
    let wanted = repeated(&rt, rt.alloc(), b"ok 1\nok\nok\n", SHOWN, SHOWS);
    let mut reader = source_of(script.as_slice(), usize::MAX);
    let mut writer = sink_of(wanted.as_slice(), usize::MAX, usize::MAX);
    let answered = engine(rt.alloc(), &mut reader, &mut writer);
    assert!(rt; answered.is_ok() && reader.reads == 2);
    writer.assert_whole(&rt);
    assert!(rt; writer.longest < WRITE_BYTES + SHOWN.len());
    assert!(rt; writer.writes <= wanted.len() / WRITE_BYTES + 1);
}
