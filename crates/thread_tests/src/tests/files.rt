//! Tests of sync files beside running timelines.
ghost use Rattle.std.specs.Prelude.{◌≡◌, ◌<◌, ◌≤◌};

use crate::tests::seats::{drive_on, driver_of, holds, words_of};
use point_core::{Context, Name, Point, Refusal, Status};
use std::alloc::Global;
use std::process::Abort;
use std::thread::{Threads, join};
use syncfile_core::SyncFile;
use words_core::{Seat, Words};

/// A file of one point of the context at an index.
pub(crate) fn plain(rt: &impl Abort, alloc: Global, place: usize, value: u64) -> SyncFile
    requires few { place < 3 }
{
    let name = Name::read(b"f").expect(rt, "a name");
    let ctx = Context::at(place);
    SyncFile::plain(alloc, name, Point { ctx, value }).expect(rt, "a file")
}

/// Polls a file, and checks the answer.
pub(crate) fn check_poll(
    rt: &impl Abort,
    file: &SyncFile,
    words: &Words,
    seat: &mut Seat,
    wanted: Result<Status, Refusal>,
)
    requires own { seat.old.words ≡ words.now }
    ensures same { (seat.new.words ≡ words.now) × (seat.new.parts ≡ seat.old.parts) }
{
    holds(rt, file.poll(words, seat) == wanted);
}

/// Drives the first context to 1,000.
fn drive(rt: &impl Abort, words: &Words, driving: Seat)
    requires own { driving.words ≡ words.now }
    requires context { 1 ≤ words.now.contexts }
{
    let mut driver = driver_of(rt, words, driving, Context::at(0));
    drive_on(rt, words, &mut driver, 1_000);
    holds(rt, driver.value() == 1_000);
}

/// Waits for a file, for seconds at most.
fn wait_long(file: &SyncFile, words: &Words, mut waiting: Seat) -> Result<(), Refusal>
    requires own { waiting.words ≡ words.now }
{
    file.wait_for(words, &mut waiting, u32::MAX)
}

/// Waits for a file by one thread while another drives its timeline.
fn wait_beside_a_driver<R: Threads + Abort + Sync>(
    rt: &R,
    file: &SyncFile,
    words: &Words,
    driving: Seat,
    waiting: Seat,
) -> Result<(), Refusal>
    requires own { (driving.words ≡ words.now) × (waiting.words ≡ words.now) }
    requires context { 1 ≤ words.now.contexts }
{
    let ((), waited) = join(
        rt,
        move || -> ()
            requires { (driving.words ≡ words.now) × (1 ≤ words.now.contexts) }
        { drive(rt, words, driving) },
        move || -> Result<(), Refusal>
            requires { waiting.words ≡ words.now }
        { wait_long(file, words, waiting) },
    );
    waited
}

/// Waits for a file whose timeline another thread drives.
fn wait_until_driven<R: Threads + Abort + Sync>(
    rt: &R,
    file: &SyncFile,
    words: &Words,
    mut seat: Seat,
)
    requires own { (seat.words ≡ words.now) × (1 < seat.parts) }
    requires context { 1 ≤ words.now.contexts }
{
    let driving = words.part(&mut seat, 1);
    holds(
        rt,
        wait_beside_a_driver(rt, file, words, driving, seat) == Ok(()),
    );
}

#[test]
fn a_wait_ends_once_another_thread_has_driven(rt: HostRuntime) {
    let (words, seat) = words_of(&rt, rt.alloc(), 1, 0, 0);
    wait_until_driven(&rt, &plain(&rt, rt.alloc(), 0, 1_000), &words, seat);
}
