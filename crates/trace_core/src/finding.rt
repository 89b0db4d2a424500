//! `Finding`: the class of an event, given the state before it. Every counter of a tally is a function of it.
ghost use Rattle.std.specs.Prelude.{◌≡◌};
ghost use Rattle.trace_core.specs.Finding.{finding_of, is_overtaken, is_plain, is_signalled_only};

use crate::event::Event;
use crate::life::Life;
use crate::order::Order;
use crate::points::Points;

/// The class of an event, given the states of its key and of its context before it. [`Tally`](crate::Tally) explains each.
#[derive(Clone, Copy)]
pub struct Finding {
    pub event: Event,
    pub new_context: bool,
    pub made_again: bool,
    pub destroyed_pending: bool,
    pub signalled_unseen: bool,
    pub destroyed_unseen: bool,
    pub out_of_order: bool,
    pub out_of_order_wrapped: bool,
    pub repeats: bool,
    pub overtaken: bool,
    pub signalled_twice: bool,
}

impl Finding {
    /// Classifies an event of a fence with `seqno`. `sure` says that no events were lost since the fence was made.
    #[inline(always)]
    #[tactic(auto, unfolding(crate::specs::Finding::finding_of))]
    pub fn of(
        event: Event,
        seqno: u32,
        life: Life,
        points: Points,
        order: Order,
        sure: bool,
    ) -> Finding
        ensures { result ≡ finding_of event seqno life points order sure }
    {
        let is_init = matches!(event, Event::Init);
        let is_signal = matches!(event, Event::Signaled);
        let is_destroy = matches!(event, Event::Destroy) && life.signalled == 0;
        let pending = life.pending > 0;
        Finding {
            event,
            new_context: points.are_none(),
            made_again: is_init && pending,
            destroyed_pending: is_destroy && pending,
            signalled_unseen: is_signal && !pending,
            destroyed_unseen: is_destroy && !pending,
            out_of_order: is_signal && order.is_late(seqno),
            out_of_order_wrapped: is_signal && order.is_late_wrapped(seqno),
            repeats: is_signal && order.is_repeat(seqno),
            overtaken: is_signal && sure && is_overtaken(life, order, seqno),
            signalled_twice: is_signal && sure && is_signalled_only(life),
        }
    }

    /// Whether the event only counts by its kind: nothing else was found of it.
    #[inline(always)]
    #[tactic(auto, unfolding(crate::specs::Finding::is_plain))]
    pub fn is_plain(&self) -> bool
        ensures { result ≡ is_plain self.now }
    {
        !(self.new_context
            || self.made_again
            || self.destroyed_pending
            || self.signalled_unseen
            || self.destroyed_unseen
            || self.out_of_order
            || self.out_of_order_wrapped
            || self.repeats
            || self.overtaken
            || self.signalled_twice)
    }
}

/// Whether a fence that is pending was made before a later one was signalled.
fn is_overtaken(life: Life, order: Order, seqno: u32) -> bool
    ensures { result ≡ is_overtaken life order seqno }
{
    life.pending > 0 && order.is_late_wrapped(seqno) && life.born < order.at
}

/// Whether fences of the key were signalled, and none is pending.
fn is_signalled_only(life: Life) -> bool
    ensures { result ≡ is_signalled_only life }
{
    life.pending == 0 && life.signalled > 0
}
