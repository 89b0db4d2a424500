//! `SharedFence`: a fence that threads signal concurrently. Its points and its flag are among the words that it was
//! made for; the token `Won` of that flag lets one call hand out the callbacks. Users of the library call it.
ghost use Rattle.std.specs.Prelude.{◌≡◌, ◌<◌, ◌≤◌, true, false, nat_eq, vec_len, IfOk, IfErr};
ghost use Rattle.fence_core.specs.declared.callback_list.TheConstants.{CALLBACKS};
ghost use Rattle.std.specs.List.{IsDistinct};
ghost use Rattle.point_core.specs.Agreement.{HasRisingContexts};
ghost use Rattle.point_core.specs.Clocks.{open_clock, reached_by};
ghost use Rattle.point_core.specs.Refusal.{IsRefusedFor};
ghost use Rattle.fence_core.specs.SharedFence.{shared_fence_of, token_of, are_within, cause_to_refuse_shared, IsCallbackRefusal};
ghost use Rattle.fence_core.specs.Signal.{IfNotYet, IfFirst, IfAlready, IsPendingAt, SetsFlag};
ghost use Rattle.words_core.specs.theorem.Layout.{flag_word};
ghost use Rattle.words_core.specs.theorem.Trace.{won, lost, wins_of};

use crate::callback_list::CallbackList;
use crate::fence::Fence;
use point_core::{Clock, Context, Point, Refusal};
use std::alloc::Global;
use std::marker::Model;
use std::sync::{Mutex, Wait};
use words_core::{Once, Seat, Won, Words, WordsId};

/// A fence that threads share, with a flag of its own, after Linux's `dma_fence_signal`: the one call that sets the
/// flag takes the callbacks.
///
/// The caller must give the flag to no other fence, and must let only this fence's `signal` set it.
///
/// Users of the library call it; no program here does.
#[derive(Drop)]
pub struct SharedFence {
    fence: Fence,
    flag: usize,
    words: WordsId,
    callbacks: Mutex<CallbackList>,
}

impl Model for SharedFence {
    ghost use Rattle.fence_core.specs.Fence.{members_of};
    ghost use Rattle.fence_core.specs.SharedFence.{SharedFenceModel, shared_fence_of, AreWithin};
    ghost use Rattle.point_core.specs.Agreement.{HasRisingContexts};
    ghost use Rattle.std.specs.Prelude.{◌<◌};

    ghost Value = { SharedFenceModel };

    ghost view = { λ f. shared_fence_of f.words f.flag (members_of f.fence) };

    ghost invariant = { λ f.
        AreWithin f.words.contexts (members_of f.fence) × (f.flag < f.words.flags) × HasRisingContexts (members_of f.fence) };
}

/// What a call of `signal` found: the first context whose point is pending, with the value that was loaded; or that it
/// has set the flag; or that another call had.
#[derive(Drop)]
pub enum Signal {
    NotYet { ctx: Context, value: u64 },
    First(Won),
    Already,
}

impl SharedFence {
    /// A fence of these points, with a list that holds no callbacks. It reads none of the words.
    ///
    /// Fails with `Foreign` if the words lack a context, and with `Memory`.
    pub fn new(
        alloc: Global,
        words: &Words,
        flag: usize,
        points: &[Point],
    ) -> Result<SharedFence, Refusal>
        requires rising { HasRisingContexts points.now }
        requires flag { flag < words.now.flags }
        ensures refused { IsRefusedFor (cause_to_refuse_shared words.now points.now) result }
        ensures fence { IfOk result (λ f. f ≡ shared_fence_of words.now flag points.now) }
    {
        if !are_within(points, words.contexts()) {
            return Err(Refusal::Foreign);
        }
        Ok(SharedFence {
            fence: Fence::of(alloc, points)?,
            flag,
            words: words.id(),
            callbacks: Mutex::new(CallbackList::new(alloc)?),
        })
    }

    /// Loads the clocks of its contexts by rising number, up to the first whose point is pending; no point of a closed
    /// context is. If none is, it sets the flag by one test-and-set, as Linux's `dma_fence_signal` does.
    ///
    /// Neither allocates nor locks.
    pub fn signal(&self, words: &Words, seat: &mut Seat) -> Signal
        requires own { words.now ≡ self.now.words }
        requires seat { seat.old.words ≡ words.now }
        ensures not_yet { IfNotYet result (λ ctx value. IsPendingAt self.now.points seat.old seat.new ctx value) }
        ensures first { IfFirst result (λ token. (token ≡ token_of self.now) × SetsFlag self.now seat.old seat.new won) }
        ensures once { IfFirst result (λ _. wins_of (flag_word self.now.words self.now.flag) seat.new.trace ≡ 1) }
        ensures same { (seat.new.words ≡ seat.old.words) × (seat.new.parts ≡ seat.old.parts) }
        ensures rising { HasRisingContexts self.now.points }
        ensures already { IfAlready result (SetsFlag self.now seat.old seat.new lost) }
    {
        for point in self.fence.members() {
            let clock = words.clock(seat, point.ctx);
            if is_pending(clock, *point) {
                return Signal::NotYet {
                    ctx: point.ctx,
                    value: clock.value,
                };
            }
        }
        match words.set_once(seat, self.flag) {
            Once::First(token) => Signal::First(token),
            Once::Already => Signal::Already,
        }
    }

    /// Adds a callback, under the lock of the list, as `CallbackList::add` does.
    ///
    /// Fails as that does: with `Signalled` once the list was handed out; else with `Exists`, `Limit` or `Memory`.
    pub fn add_callback(&self, rt: &impl Wait, cookie: u64) -> Result<(), Refusal>
        ensures { IfErr result IsCallbackRefusal }
    {
        self.callbacks.lock(rt).add(cookie)
    }

    /// Hands the callbacks out by registration, under the lock of the list, as `CallbackList::take` does. It takes the
    /// token of the one call of `signal` that set the flag, so there is one such call at most, ever. What was added
    /// between the two calls is handed out with the rest.
    pub fn hand_out(&self, rt: &impl Wait, token: Won) -> Vec<u64>
        requires own { token ≡ token_of self.now }
        ensures distinct { IsDistinct nat_eq result.items }
        ensures few { vec_len result ≤ CALLBACKS }
    {
        drop(token);
        self.callbacks.lock(rt).take()
    }
}

/// Whether the clock has not reached the point.
fn is_pending(clock: Clock, point: Point) -> bool
    ensures pending { result ≡ true → (clock ≡ open_clock clock.value) × (clock.value < point.value) }
    ensures reached { result ≡ false → point.value ≤ reached_by clock }
{
    !clock.closed && clock.value < point.value
}

fn are_within(points: &[Point], contexts: usize) -> bool
    ensures { result ≡ are_within contexts points.now }
{
    points
        .iter()
        .all(|point| usize::from(point.ctx.number()) <= contexts)
}
