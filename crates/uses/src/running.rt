//! Calls on files beside running timelines, and with words that are not consistent with them.
ghost use Rattle.std.specs.Prelude.{◌≡◌, ◌<◌, ◌≤◌};

use crate::calls::{Calls, plain, point};
use crate::seats::{drive, inc, words_of};
use point_core::Refusal;
use syncfile_core::SyncFile;
use words_core::{Seat, Words};

pub(crate) fn make_calls(rt: &HostRuntime, calls: &mut Calls) {
    if let Ok((words, mut seat)) = words_of(rt, calls, 2, 0, 0) {
        merge_and_look(rt, calls, &words, &mut seat);
        drop(words);
    }
}

/// Merges a file of the first context with one of the second, and polls the result with other words.
fn merge_and_look(rt: &HostRuntime, calls: &mut Calls, words: &Words, seat: &mut Seat)
    requires own { (seat.old.words ≡ words.now) × (1 < seat.old.parts) }
    requires context { 1 ≤ words.now.contexts }
{
    let files = (plain(rt, calls, point(0, 5)), plain(rt, calls, point(1, 2)));
    if let (Ok(f), Ok(g)) = &files {
        merge_once_driven(rt, calls, words, seat, f, g);
    }
    drop(files);
}

/// Drives the first context to 5, which signals the first file, and merges both.
fn merge_once_driven(
    rt: &HostRuntime,
    calls: &mut Calls,
    words: &Words,
    seat: &mut Seat,
    f: &SyncFile,
    g: &SyncFile,
)
    requires own { (seat.old.words ≡ words.now) × (1 < seat.old.parts) }
    requires context { 1 ≤ words.now.contexts }
{
    drop(drive(rt, calls, words, seat, 5));
    poll(rt, calls, words, seat, f);
    wait(rt, calls, words, seat, f, 0);
    wait(rt, calls, words, seat, f, 1);
    if let Ok(m) = merge(rt, calls, words, seat, f, g) {
        poll(rt, calls, words, seat, &m);
        wait(rt, calls, words, seat, &m, 3);
        look_elsewhere(rt, calls, &m, g);
        drop(m);
    }
}

fn poll(rt: &HostRuntime, calls: &mut Calls, words: &Words, seat: &mut Seat, file: &SyncFile)
    requires own { seat.old.words ≡ words.now }
    ensures same { (seat.new.words ≡ seat.old.words) × (seat.new.parts ≡ seat.old.parts) }
{
    let status = file.poll(words, seat);
    calls.tell(rt, "poll", &status);
}

fn wait(
    rt: &HostRuntime,
    calls: &mut Calls,
    words: &Words,
    seat: &mut Seat,
    file: &SyncFile,
    tries: u32,
)
    requires own { seat.old.words ≡ words.now }
    ensures same { (seat.new.words ≡ seat.old.words) × (seat.new.parts ≡ seat.old.parts) }
{
    let waited = file.wait_for(words, seat, tries);
    calls.tell(rt, "wait_for", &waited);
}

/// Merges two files, and prints the points and the floor of the new one.
fn merge(
    rt: &HostRuntime,
    calls: &mut Calls,
    words: &Words,
    seat: &mut Seat,
    a: &SyncFile,
    b: &SyncFile,
) -> Result<SyncFile, Refusal>
    requires own { seat.old.words ≡ words.now }
    ensures same { (seat.new.words ≡ seat.old.words) × (seat.new.parts ≡ seat.old.parts) }
{
    let merged = match calls.allow() {
        Ok(()) => SyncFile::merge_with(rt.alloc(), a.name, a, b, words, seat),
        Err(refusal) => Err(refusal),
    };
    show_merged(rt, calls, &merged);
    merged
}

fn show_merged(rt: &HostRuntime, calls: &mut Calls, merged: &Result<SyncFile, Refusal>) {
    match merged {
        Ok(file) => calls.tell(rt, "merge_with", &(file.points.as_slice(), &file.floor)),
        Err(refusal) => calls.tell(rt, "merge_with", refusal),
    }
}

/// Polls a merged file with words of their own.
fn look_elsewhere(rt: &HostRuntime, calls: &mut Calls, m: &SyncFile, g: &SyncFile) {
    if let Ok((words, mut seat)) = words_of(rt, calls, 2, 0, 0) {
        look_at_unknown(rt, calls, &words, &mut seat);
        look_while_driven(rt, calls, &words, &mut seat, m, g);
        drop(words);
    }
}

/// Polls a file of a context that the words do not have.
fn look_at_unknown(rt: &HostRuntime, calls: &mut Calls, words: &Words, seat: &mut Seat)
    requires own { seat.old.words ≡ words.now }
    ensures same { (seat.new.words ≡ seat.old.words) × (seat.new.parts ≡ seat.old.parts) }
{
    if let Ok(unknown) = plain(rt, calls, point(2, 1)) {
        poll(rt, calls, words, seat, &unknown);
        drop(unknown);
    }
}

/// Polls it below its floor, one increment before its point, and at its point.
fn look_while_driven(
    rt: &HostRuntime,
    calls: &mut Calls,
    words: &Words,
    seat: &mut Seat,
    m: &SyncFile,
    g: &SyncFile,
)
    requires own { (seat.old.words ≡ words.now) × (1 < seat.old.parts) }
    requires context { 1 ≤ words.now.contexts }
{
    poll(rt, calls, words, seat, m);
    if let Some(mut driver) = drive(rt, calls, words, seat, 4) {
        look(rt, calls, words, seat, m, g);
        inc(rt, calls, words, &mut driver, 1);
        look(rt, calls, words, seat, m, g);
    }
}

/// Polls a file, and merges it with another.
fn look(
    rt: &HostRuntime,
    calls: &mut Calls,
    words: &Words,
    seat: &mut Seat,
    m: &SyncFile,
    g: &SyncFile,
)
    requires own { seat.old.words ≡ words.now }
    ensures own { seat.new.words ≡ words.now }
{
    poll(rt, calls, words, seat, m);
    drop(merge(rt, calls, words, seat, m, g));
}
