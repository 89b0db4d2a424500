//! `Tally`: the number of events by finding. Each counter is a function of the `Finding`, so it is proved once.
ghost use Rattle.std.specs.Prelude.{◌≡◌};
ghost use Rattle.trace_core.specs.Tally.{counts_after, tally_after, count_if};

use crate::event::Event;
use crate::finding::Finding;

/// How many events there were of each kind. A count stops at the greatest u64.
#[derive(Clone, Copy)]
pub struct EventCounts {
    pub init: u64,
    pub emit: u64,
    pub enable_signal: u64,
    pub signaled: u64,
    pub wait_start: u64,
    pub wait_end: u64,
    pub destroy: u64,
}

impl EventCounts {
    const NONE: EventCounts = EventCounts {
        init: 0,
        emit: 0,
        enable_signal: 0,
        signaled: 0,
        wait_start: 0,
        wait_end: 0,
        destroy: 0,
    };

    /// One more event.
    #[inline(always)]
    #[tactic(auto, unfolding(crate::specs::Tally::counts_after))]
    fn count(&mut self, event: Event)
        ensures { self.new ≡ counts_after event self.old }
    {
        match event {
            Event::Init => self.init = self.init.saturating_add(1),
            Event::Emit => self.emit = self.emit.saturating_add(1),
            Event::EnableSignal => self.enable_signal = self.enable_signal.saturating_add(1),
            Event::Signaled => self.signaled = self.signaled.saturating_add(1),
            Event::WaitStart => self.wait_start = self.wait_start.saturating_add(1),
            Event::WaitEnd => self.wait_end = self.wait_end.saturating_add(1),
            Event::Destroy => self.destroy = self.destroy.saturating_add(1),
        }
    }
}

/// Counts of the events of some fences, and of what they did. A count stops at the greatest u64.
#[derive(Clone, Copy)]
pub struct Tally {
    pub events: EventCounts,
    /// Contexts that were seen, each once but for those that were forgotten and seen again.
    pub contexts: u64,
    /// Fences that were made while one of their key was pending.
    pub made_again: u64,
    /// Fences that were destroyed and not signalled, which is ordinary.
    pub destroyed_pending: u64,
    /// Signals of fences that were not seen to be made.
    pub signalled_unseen: u64,
    /// Ends of fences that were neither seen to be made nor to be signalled.
    pub destroyed_unseen: u64,
    /// Signals of fences after a greater seqno of their context was signalled.
    pub out_of_order: u64,
    /// As `out_of_order`, compared on the circle of 32 bits.
    pub out_of_order_wrapped: u64,
    /// Signals of the seqno that was signalled last in its context.
    pub repeats: u64,
    /// Signals of fences that were made before a later one of their context was signalled, as far as that is known: a driver
    /// has to signal them in order.
    pub overtaken: u64,
    /// Signals of fences that had been signalled and are not destroyed, as far as that is known.
    pub signalled_twice: u64,
}

impl Tally {
    /// Nothing was counted.
    pub const NONE: Tally = Tally {
        events: EventCounts::NONE,
        contexts: 0,
        made_again: 0,
        destroyed_pending: 0,
        signalled_unseen: 0,
        destroyed_unseen: 0,
        out_of_order: 0,
        out_of_order_wrapped: 0,
        repeats: 0,
        overtaken: 0,
        signalled_twice: 0,
    };

    /// Adds one event, classified as `found`.
    #[tactic(auto, unfolding(crate::specs::Tally::tally_after))]
    pub fn count(&mut self, found: &Finding)
        ensures { self.new ≡ tally_after found.now self.old }
    {
        self.events.count(found.event);
        if found.is_plain() {
            return;
        }
        self.contexts = count_if(self.contexts, found.new_context);
        self.made_again = count_if(self.made_again, found.made_again);
        self.destroyed_pending = count_if(self.destroyed_pending, found.destroyed_pending);
        self.signalled_unseen = count_if(self.signalled_unseen, found.signalled_unseen);
        self.destroyed_unseen = count_if(self.destroyed_unseen, found.destroyed_unseen);
        self.out_of_order = count_if(self.out_of_order, found.out_of_order);
        self.out_of_order_wrapped = count_if(self.out_of_order_wrapped, found.out_of_order_wrapped);
        self.repeats = count_if(self.repeats, found.repeats);
        self.overtaken = count_if(self.overtaken, found.overtaken);
        self.signalled_twice = count_if(self.signalled_twice, found.signalled_twice);
    }
}

#[inline(always)]
fn count_if(count: u64, one_more: bool) -> u64
    ensures { result ≡ count_if count one_more }
{
    if one_more {
        count.saturating_add(1)
    } else {
        count
    }
}
