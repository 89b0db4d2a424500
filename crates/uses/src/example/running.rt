//! Sync files beside a running timeline, on two threads.
ghost use Rattle.std.specs.Prelude.{◌≡◌, ◌<◌, ◌≤◌, List, ◌++◌, IfOk};
ghost use Rattle.point_core.specs.declared.entry.Entry.{Entry};
ghost use Rattle.syncfile_core.specs.SyncFile.{StandsFor};

use point_core::{Context, Name, Point, Refusal};
use std::alloc::Global;
use std::thread::{Threads, join};
use syncfile_core::SyncFile;
use words_core::{Seat, Words};

/// The renderer's timeline: its index among the words' contexts.
const RENDERER: usize = 0;

/// The display's timeline.
const DISPLAY: usize = 1;

/// The number of timelines.
const TIMELINES: usize = 2;

/// How far the renderer's timeline is driven, one step at a time.
const STEPS: u64 = 1_000;

/// The renderer's point at which the frame is drawn. Its timeline runs on after it.
const DRAWN: u64 = 500;

/// How often a file is polled before it counts as late.
const TRIES: u32 = 100_000_000;

/// Drives the renderer's timeline on one thread. On another, waits until a frame is drawn, and merges its file with one
/// of the display, whose timeline doesn't move. Returns the number of pending points in the merged file: only the
/// display's, whatever the schedule.
///
/// Fails with `TimedOut` if the frame was late, and with `Memory` if an allocation failed.
pub fn merge_beside_a_driver(rt: &impl Threads, alloc: Global) -> Result<usize, Refusal> {
    let (drawn, shown) = files(alloc)?;
    let (words, mut seat) = Words::new(alloc, TIMELINES, 0, 0)?;
    // Each thread steps with a seat of its own.
    let driving = words.part(&mut seat, 1);
    beside(rt, alloc, &words, (driving, seat), (&drawn, &shown))
}

/// The files of the two frames. They are made before the words, since each `?` also drops all that its function owns by then,
/// and its proof follows each drop.
fn files(alloc: Global) -> Result<(SyncFile, SyncFile), Refusal> {
    let name = Name::read(b"frame").ok_or(Refusal::Syntax)?;
    let drawn = SyncFile::plain(alloc, name, point(RENDERER, DRAWN))?;
    let shown = SyncFile::plain(alloc, name, point(DISPLAY, 1))?;
    Ok((drawn, shown))
}

fn point(index: usize, value: u64) -> Point
    requires { index < TIMELINES }
{
    Point {
        ctx: Context::at(index),
        value,
    }
}

/// Drives on one thread, and merges on another. Returns the number of pending points in the merged file. Each closure states
/// the requirements of its call.
fn beside(
    rt: &impl Threads,
    alloc: Global,
    words: &Words,
    seats: (Seat, Seat),
    files: (&SyncFile, &SyncFile),
) -> Result<usize, Refusal>
    requires own { (seats.0.words ≡ words.now) × (seats.1.words ≡ words.now) }
    requires renderer { RENDERER < words.now.contexts }
{
    let (driving, mut merging) = seats;
    let (drawn, shown) = files;
    let (driven, merged) = join(
        rt,
        move || -> Result<u64, Refusal>
            requires { (driving.words ≡ words.now) × (RENDERER < words.now.contexts) }
        { drive(words, driving, Context::at(RENDERER)) },
        move || -> Result<usize, Refusal>
            requires { merging.words ≡ words.now }
        {
            let merged = merge_once_drawn(alloc, drawn, shown, words, &mut merging)?;
            Ok(merged.points.as_slice().len())
        },
    );
    driven?;
    merged
}

/// Advances a timeline that had no driver by `STEPS`, one at a time, and returns its value.
///
/// Fails with `Exists` if it had a driver.
fn drive(words: &Words, seat: Seat, ctx: Context) -> Result<u64, Refusal>
    requires own { seat.words ≡ words.now }
    requires context { ctx ≤ words.now.contexts }
    ensures { IfOk result (λ value. value ≡ STEPS) }
{
    let mut driver = words.driver(seat, ctx).map_err(|(refusal, _)| refusal)?;
    for _ in 0..STEPS {
        driver.inc(words, 1)?;
    }
    Ok(driver.value())
}

/// Waits for a file by polling it, and merges it with another.
///
/// Fails with `TimedOut` if the file was not signalled after `TRIES` polls, with `Foreign` if a file belongs to other
/// words, and with `Memory`.
fn merge_once_drawn(
    alloc: Global,
    drawn: &SyncFile,
    shown: &SyncFile,
    words: &Words,
    seat: &mut Seat,
) -> Result<SyncFile, Refusal>
    requires own { seat.old.words ≡ words.now }
    ensures union { IfOk result (λ merged. (one other : List Entry) →
        StandsFor drawn.now one → StandsFor shown.now other → StandsFor merged (one ++ other)) }
{
    drawn.wait_for(words, seat, TRIES)?;
    SyncFile::merge_with(alloc, drawn.name, drawn, shown, words, seat)
}
