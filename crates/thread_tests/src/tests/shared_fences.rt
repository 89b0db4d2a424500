//! Tests of a fence that up to four threads signal.
ghost use Rattle.std.specs.Prelude.{◌≡◌, ◌+◌, ◌<◌, ◌≤◌};

use crate::tests::seats::{holds, words_of};
use fence_core::{SharedFence, Signal};
use point_core::{Context, Point};
use std::alloc::Global;
use std::process::Abort;
use std::sync::Wait;
use std::thread::{Threads, join};
use words_core::{Seat, Words};

/// The result of a thread that signals a fence: the callbacks, or that it was not the first.
type Answer = Result<Vec<u64>, Signal>;

/// Signals a fence by a seat of its own, and returns the callbacks if no other call had set the flag.
fn signal_by<R: Wait>(rt: &R, fence: &SharedFence, words: &Words, mut seat: Seat) -> Answer
    requires own { (words.now ≡ fence.now.words) × (seat.words ≡ words.now) }
{
    match fence.signal(words, &mut seat) {
        Signal::First(token) => Ok(fence.hand_out(rt, token)),
        other => Err(other),
    }
}

/// Signals a fence on two threads.
fn signal_twice<R: Threads + Wait + Sync>(
    rt: &R,
    fence: &SharedFence,
    words: &Words,
    one: Seat,
    other: Seat,
) -> (Answer, Answer)
    requires own { (words.now ≡ fence.now.words) × (one.words ≡ words.now) × (other.words ≡ words.now) }
{
    join(
        rt,
        move || -> Answer
            requires { (words.now ≡ fence.now.words) × (one.words ≡ words.now) }
        { signal_by(rt, fence, words, one) },
        move || -> Answer
            requires { (words.now ≡ fence.now.words) × (other.words ≡ words.now) }
        { signal_by(rt, fence, words, other) },
    )
}

/// Signals a fence on four threads.
fn signal_four_times<R: Threads + Wait + Sync>(
    rt: &R,
    fence: &SharedFence,
    words: &Words,
    seat: &mut Seat,
) -> [Answer; 4]
    requires own { (words.now ≡ fence.now.words) × (seat.old.words ≡ words.now) }
    requires parts { 4 < seat.old.parts }
    ensures own { (seat.new.words ≡ words.now) × (seat.old.parts ≤ seat.new.parts + 4) }
{
    let (one, two) = (words.part(seat, 1), words.part(seat, 1));
    let (three, four) = (words.part(seat, 1), words.part(seat, 1));
    let ((one, two), (three, four)) = join(
        rt,
        move || -> (Answer, Answer)
            requires { (words.now ≡ fence.now.words) × (one.words ≡ words.now) × (two.words ≡ words.now) }
        { signal_twice(rt, fence, words, one, two) },
        move || -> (Answer, Answer)
            requires { (words.now ≡ fence.now.words) × (three.words ≡ words.now) × (four.words ≡ words.now) }
        { signal_twice(rt, fence, words, three, four) },
    );
    [one, two, three, four]
}

/// Whether an answer has these callbacks.
fn has(answer: &Answer, cookies: &[u64]) -> bool {
    matches!(answer, Ok(given) if given.as_slice() == cookies)
}

fn is_already(answer: &Answer) -> bool {
    matches!(answer, Err(Signal::Already))
}

/// Whether exactly one of the answers has these callbacks, and each other found the flag set.
fn is_handed_out_once(answers: &[Answer], cookies: &[u64]) -> bool {
    let mut first = 0usize;
    let mut already = 1usize;
    for answer in answers {
        first = first.saturating_add(usize::from(has(answer, cookies)));
        already = already.saturating_add(usize::from(is_already(answer)));
    }
    first == 1 && already == answers.len()
}

/// A fence of point 0 of the first context, with two callbacks.
fn fence_with_callbacks<R: Abort + Wait>(rt: &R, alloc: Global, words: &Words) -> SharedFence
    requires flag { 0 < words.now.flags }
    ensures own { result.words ≡ words.now }
{
    let ctx = Context::at(0);
    let fence = SharedFence::new(alloc, words, 0, &[Point { ctx, value: 0 }]).expect(rt, "a fence");
    fence.add_callback(rt, 12).expect(rt, "a callback");
    fence.add_callback(rt, 7).expect(rt, "a callback");
    fence
}

#[test]
fn fences_are_signalled_once(rt: HostRuntime) {
    let (words, mut seat) = words_of(&rt, rt.alloc(), 1, 0, 1);
    let fence = fence_with_callbacks(&rt, rt.alloc(), &words);
    let answers = signal_four_times(&rt, &fence, &words, &mut seat);
    holds(&rt, is_handed_out_once(&answers, &[12, 7]));
}
