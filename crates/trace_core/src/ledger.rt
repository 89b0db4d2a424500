//! `Ledger`: what the events of a trace say of its fences.
//!
//! After any calls of `see`, `lose` and `forget`, which are its steps, the ledger equals the folds of `specs/History.antt` over
//! them (`IsLedgerOf`). The tracker makes the calls in the order of the text.
ghost use Rattle.std.specs.Prelude.{◌≡◌, List, [], ◌∷◌, true, false, OnOk, IfOk, IfErr};
ghost use Rattle.point_core.specs.declared.refusal.Refusal.TheVariants.{Memory};
ghost use Rattle.trace_core.specs.Contexts.{context_at};
ghost use Rattle.trace_core.specs.Keys.{context_of};
ghost use Rattle.trace_core.specs.History.{Step, Seen, Lost, Forgot, IsLedgerOf, events_in, every, found_in, hangs, is_of_timeline, is_past, is_unnumbered, life_in, tally_in};
ghost use Rattle.trace_core.specs.Lives.{life_at};

use crate::contexts::Contexts;
use crate::event::Event;
use crate::fence_event::{FenceEvent, FenceKey, TimelineKey};
use crate::finding::Finding;
use crate::life::Life;
use crate::lives::Lives;
use crate::tally::Tally;
use crate::timelines::TimelineTallies;
use point_core::Refusal;
use std::alloc::Global;

/// The key's state before an event, and the event's class.
#[derive(Clone, Copy)]
pub struct Classified {
    /// The state of its key before it.
    pub life: Life,
    /// Its class.
    pub found: Finding,
}

/// What the events of a trace say of its fences, context by context and timeline by timeline.
#[derive(Drop)]
pub struct Ledger {
    events: u64,
    // how many events came before the last loss: a fence that was made earlier may have been signalled unseen
    loss: u64,
    lives: Lives,
    contexts: Contexts,
    timelines: TimelineTallies,
    total: Tally,
}

impl Ledger {
    /// A ledger before the first event. Does not allocate.
    pub fn new(alloc: Global) -> Ledger
        ensures { IsLedgerOf result [] }
    {
        Ledger {
            events: 0,
            loss: 0,
            lives: Lives::new(alloc),
            contexts: Contexts::new(alloc),
            timelines: TimelineTallies::new(alloc),
            total: Tally::NONE,
        }
    }

    /// Records an event; returns the key's prior state and the event's class.
    ///
    /// Fails only with `Memory`; then the ledger is not to be used further.
    pub fn see(&mut self, event: &FenceEvent) -> Result<Classified, Refusal>
        ensures known { IfOk result (λ classified. (steps : List Step) →
            IsLedgerOf self.old steps → classified.life ≡ life_in steps event.now.key) }
        ensures found { IfOk result (λ classified. (steps : List Step) →
            IsLedgerOf self.old steps → classified.found ≡ found_in steps event.now) }
        ensures seen { OnOk result ((steps : List Step) →
            IsLedgerOf self.old steps → IsLedgerOf self.new (Seen event.now ∷ steps)) }
        ensures memory { IfErr result (λ e. e ≡ Memory) }
    {
        let life = self.lives.see(event, self.events)?;
        let sure = self.loss <= life.born;
        let found = self.contexts.see(event, self.events, life, sure)?;
        self.timelines.count(event.key.timeline_key(), &found)?;
        self.total.count(&found);
        self.events = self.events.saturating_add(1);
        Ok(Classified { life, found })
    }

    /// Drops a context from the cache when the cache is over its limit, the context has seen only this key, and no
    /// fence of the key is alive.
    pub fn forget(&mut self, event: &FenceEvent, life: Life) -> bool
        ensures forgot { result ≡ true → (steps : List Step) →
            IsLedgerOf self.old steps → IsLedgerOf self.new (Forgot event.now.key ∷ steps) }
        ensures kept { result ≡ false → self.new ≡ self.old }
    {
        if may_end(event.kind, life) {
            return self.forget_past(&event.key);
        }
        false
    }

    fn forget_past(&mut self, key: &FenceKey) -> bool
        ensures forgot { result ≡ true → (steps : List Step) →
            IsLedgerOf self.old steps → IsLedgerOf self.new (Forgot key.now ∷ steps) }
        ensures kept { result ≡ false → self.new ≡ self.old }
    {
        if self.contexts.are_crowded() && self.is_past(key) {
            self.contexts.forget(&key.context_key());
            return true;
        }
        false
    }

    /// Whether no fence of the key is alive, and it is the only one of its context.
    fn is_past(&self, key: &FenceKey) -> bool
        ensures past { result ≡ is_past (life_at self.now.lives key.now)
            (context_at self.now.contexts (context_of key.now)) key.now }
    {
        self.lives.life(key).is_over()
            && self
                .contexts
                .context(&key.context_key())
                .points
                .is_only(key.seqno)
    }

    /// What is known of the key: `Life::UNBORN` if no fence of it is alive.
    pub fn life(&self, key: &FenceKey) -> Life
        ensures known { (steps : List Step) → IsLedgerOf self.now steps → result ≡ life_in steps key.now }
    {
        self.lives.life(key)
    }

    /// Whether a fence of the key hangs: one was made or emitted, none was signalled, and no events were lost since.
    pub fn hangs(&self, key: &FenceKey) -> bool
        ensures hangs { (steps : List Step) → IsLedgerOf self.now steps → result ≡ hangs steps key.now }
    {
        let life = self.lives.life(key);
        life.is_pending() && self.loss <= life.born
    }

    /// Whether fences of the key get their number only when their driver emits them, and have none yet.
    pub fn is_unnumbered(&self, key: &FenceKey) -> bool
        ensures unnumbered { (steps : List Step) → IsLedgerOf self.now steps → result ≡ is_unnumbered steps key.now }
    {
        key.seqno == 0 && self.timeline(&key.timeline_key()).events.emit > 0
    }

    /// What the timeline did; each count is 0 if no event of it was seen.
    pub fn timeline(&self, key: &TimelineKey) -> Tally
        ensures counted { (steps : List Step) → IsLedgerOf self.now steps →
            result ≡ tally_in (is_of_timeline key.now) steps }
    {
        self.timelines.tally(key)
    }

    /// What all fences did, forgotten contexts included.
    pub fn total(&self) -> Tally
        ensures counted { (steps : List Step) → IsLedgerOf self.now steps → result ≡ tally_in every steps }
    {
        self.total
    }

    /// How many events were seen.
    pub fn events(&self) -> u64
        ensures counted { (steps : List Step) → IsLedgerOf self.now steps → result ≡ events_in steps }
    {
        self.events
    }

    /// The `Life` of each key that has fences alive. A key whose fences are all gone is not in it.
    pub fn lives(&self) -> &Lives
        ensures { result.now ≡ self.now.lives }
    {
        &self.lives
    }

    /// The contexts that are kept.
    pub fn contexts(&self) -> &Contexts
        ensures { result.now ≡ self.now.contexts }
    {
        &self.contexts
    }

    /// The timelines, by first sight.
    pub fn timelines(&self) -> &TimelineTallies
        ensures { result.now ≡ self.now.timelines }
    {
        &self.timelines
    }

    /// Records that events were lost here.
    pub fn lose(&mut self)
        ensures lost { (steps : List Step) → IsLedgerOf self.old steps → IsLedgerOf self.new (Lost ∷ steps) }
    {
        self.loss = self.events;
    }
}

/// Whether the event may leave no fence of its key alive. `life` is what was known of the key before it.
fn may_end(event: Event, life: Life) -> bool {
    match event {
        Event::Destroy => true,
        Event::Init | Event::Emit | Event::Signaled => false,
        Event::EnableSignal | Event::WaitStart | Event::WaitEnd => life.is_over(),
    }
}
