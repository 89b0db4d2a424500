//! Calls on a fence that threads share, and on its callbacks.
ghost use Rattle.std.specs.Prelude.{◌≡◌, ◌<◌, ◌≤◌, IfOk, IfSome};
ghost use Rattle.fence_core.specs.SharedFence.{token_of};

use crate::calls::{Calls, point};
use crate::seats::{drive, words_of};
use fence_core::{SharedFence, Signal};
use point_core::{Point, Refusal};
use std::sync::Wait;
use words_core::{Seat, Won, Words};

/// The number of callbacks that are added before a signal, and the number after it. Some of the latter allocate.
const BEFORE: u64 = 4;

const ALL: u64 = 9;

pub(crate) fn make_calls<T: Wait>(rt: &HostRuntime, threads: &T, calls: &mut Calls) {
    if let Ok((words, mut seat)) = words_of(rt, calls, 1, 0, 2) {
        drop(fence_of(rt, calls, &words, 0, point(1, 1)));
        share(rt, threads, calls, &words, &mut seat);
        share_at_once(rt, threads, calls, &words, &mut seat);
        drop(words);
    }
}

fn fence_of(
    rt: &HostRuntime,
    calls: &mut Calls,
    words: &Words,
    flag: usize,
    point: Point,
) -> Result<SharedFence, Refusal>
    requires flag { flag < words.now.flags }
    ensures own { IfOk result (λ fence. fence.words ≡ words.now) }
{
    let made = match calls.allow() {
        Ok(()) => SharedFence::new(rt.alloc(), words, flag, &[point]),
        Err(refusal) => Err(refusal),
    };
    calls.tell_made(rt, "SharedFence::new", &made);
    made
}

/// Shares a fence of point 2 of the first context.
fn share<T: Wait>(rt: &HostRuntime, threads: &T, calls: &mut Calls, words: &Words, seat: &mut Seat)
    requires own { (seat.old.words ≡ words.now) × (1 < seat.old.parts) }
    requires sizes { (1 ≤ words.now.contexts) × (words.now.flags ≡ 2) }
    ensures own { seat.new.words ≡ words.now }
{
    if let Ok(fence) = fence_of(rt, calls, words, 0, point(0, 2)) {
        signal_once_driven(rt, threads, calls, &fence, words, seat);
        drop(fence);
    }
}

/// Shares a fence that is reached, and adds callbacks before and after its signal.
fn share_at_once<T: Wait>(
    rt: &HostRuntime,
    threads: &T,
    calls: &mut Calls,
    words: &Words,
    seat: &mut Seat,
)
    requires own { seat.old.words ≡ words.now }
    requires sizes { words.now.flags ≡ 2 }
{
    if let Ok(fence) = fence_of(rt, calls, words, 1, point(0, 0)) {
        add_beside_signal(rt, threads, calls, &fence, words, seat);
        drop(fence);
    }
}

fn add_beside_signal<T: Wait>(
    rt: &HostRuntime,
    threads: &T,
    calls: &mut Calls,
    fence: &SharedFence,
    words: &Words,
    seat: &mut Seat,
)
    requires own { (words.now ≡ fence.now.words) × (seat.old.words ≡ words.now) }
{
    for cookie in 1..=BEFORE {
        add(rt, threads, calls, fence, cookie);
    }
    if let Some(token) = signal(rt, calls, fence, words, seat) {
        for cookie in BEFORE + 1..=ALL {
            add(rt, threads, calls, fence, cookie);
        }
        hand_out(rt, threads, calls, fence, token);
    }
}

/// Adds callbacks to a fence, and signals it before and after its point is reached.
fn signal_once_driven<T: Wait>(
    rt: &HostRuntime,
    threads: &T,
    calls: &mut Calls,
    fence: &SharedFence,
    words: &Words,
    seat: &mut Seat,
)
    requires own { (words.now ≡ fence.now.words) × (seat.old.words ≡ words.now) }
    requires parts { 1 < seat.old.parts }
    requires context { 1 ≤ words.now.contexts }
    ensures own { seat.new.words ≡ words.now }
{
    add(rt, threads, calls, fence, 7);
    add(rt, threads, calls, fence, 7);
    drop(signal(rt, calls, fence, words, seat));
    drop(drive(rt, calls, words, seat, 2));
    if let Some(token) = signal(rt, calls, fence, words, seat) {
        add(rt, threads, calls, fence, 8);
        drop(signal(rt, calls, fence, words, seat));
        hand_out(rt, threads, calls, fence, token);
    }
    add(rt, threads, calls, fence, 9);
}

fn add<T: Wait>(
    rt: &HostRuntime,
    threads: &T,
    calls: &mut Calls,
    fence: &SharedFence,
    cookie: u64,
) {
    if calls.allows(rt, "add_callback") {
        let added = fence.add_callback(threads, cookie);
        calls.tell(rt, "add_callback", &added);
    }
}

/// Signals the fence, and returns its token the first time.
fn signal(
    rt: &HostRuntime,
    calls: &mut Calls,
    fence: &SharedFence,
    words: &Words,
    seat: &mut Seat,
) -> Option<Won>
    requires own { (words.now ≡ fence.now.words) × (seat.old.words ≡ words.now) }
    ensures token { IfSome result (λ token. token ≡ token_of fence.now) }
    ensures same { (seat.new.words ≡ seat.old.words) × (seat.new.parts ≡ seat.old.parts) }
{
    match fence.signal(words, seat) {
        Signal::First(token) => {
            calls.tell(rt, "signal", &"first");
            Some(token)
        }
        Signal::Already => {
            calls.tell(rt, "signal", &"already");
            None
        }
        Signal::NotYet { ctx, value } => {
            calls.tell(rt, "signal", &(ctx.number(), value));
            None
        }
    }
}

fn hand_out<T: Wait>(
    rt: &HostRuntime,
    threads: &T,
    calls: &mut Calls,
    fence: &SharedFence,
    token: Won,
)
    requires own { token ≡ token_of fence.now }
{
    let cookies = fence.hand_out(threads, token);
    calls.tell(rt, "hand_out", &cookies);
}
