//! `Contexts`: for each context the order of its signals, its points and its tally. It is a cache: the ledger forgets contexts
//! without fences when there are more than `KEPT_CONTEXTS`, so that a trace of any length fits in memory.
ghost use Rattle.std.specs.Prelude.{◌≡◌, if◌then◌else◌, IfOk, IfErr, nat_lt, length};
ghost use Rattle.point_core.specs.declared.refusal.Refusal.TheVariants.{Memory};
ghost use Rattle.trace_core.specs.declared.fence_event.ContextKey.{ContextKey};
ghost use Rattle.trace_core.specs.declared.contexts.TheConstants.{KEPT_CONTEXTS};
ghost use Rattle.trace_core.specs.Contexts.{context_at, context_after, found_of, no_context};
ghost use Rattle.trace_core.specs.Keys.{same_context, context_of};

use crate::fence_event::{ContextKey, FenceEvent, FenceKey};
use crate::finding::Finding;
use crate::life::Life;
use crate::order::Order;
use crate::points::Points;
use crate::tally::Tally;
use indexmap::IndexMap;
use point_core::Refusal;
use std::alloc::Global;

/// How many contexts are kept, whether their fences are alive or not.
pub const KEPT_CONTEXTS: usize = 4096;

/// What the fences of a context did.
#[derive(Clone, Copy)]
pub struct ContextState {
    pub order: Order,
    pub points: Points,
    pub tally: Tally,
}

impl ContextState {
    /// A context without an event.
    pub const NONE: ContextState = ContextState {
        order: Order::NONE,
        points: Points::None,
        tally: Tally::NONE,
    };

    /// Classifies an event, given what is known of its key (certain or only likely).
    #[inline(always)]
    fn found(&self, event: &FenceEvent, life: Life, sure: bool) -> Finding
        ensures { result ≡ found_of event.now life sure self.now }
    {
        Finding::of(
            event.kind,
            event.key.seqno,
            life,
            self.points,
            self.order,
            sure,
        )
    }

    /// Records event number `at`, of one of its fences, of the class `found`.
    #[inline(always)]
    fn see(&mut self, event: &FenceEvent, at: u64, found: &Finding)
        ensures { self.new ≡ context_after event.now at found.now self.old }
    {
        let seqno = event.key.seqno;
        self.order = self.order.after(event.kind, seqno, at);
        self.points = self.points.after(seqno);
        self.tally.count(found);
    }
}

/// The contexts that are kept, each with what it did.
#[derive(Drop)]
pub struct Contexts {
    by_key: IndexMap<ContextKey, ContextState>,
}

impl Contexts {
    /// No contexts. Does not allocate.
    pub fn new(alloc: Global) -> Contexts
        ensures { (key : ContextKey) → context_at result key ≡ no_context }
    {
        Contexts {
            by_key: IndexMap::new(alloc),
        }
    }

    /// What the context did, or `ContextState::NONE` if it was never seen or is forgotten.
    pub fn context(&self, key: &ContextKey) -> ContextState
        ensures { result ≡ context_at self.now key.now }
    {
        match self.by_key.get(key) {
            Some(context) => *context,
            None => ContextState::NONE,
        }
    }

    /// Whether the fence's context has several points.
    pub fn has_several(&self, key: &FenceKey) -> bool {
        self.context(&key.context_key()).points.has_other(key.seqno)
    }

    /// The contexts with what they did, by first sight, except that the last one takes the place of one that is forgotten.
    pub fn by_key(&self) -> &IndexMap<ContextKey, ContextState>
        ensures { result.now ≡ self.now.by_key }
    {
        &self.by_key
    }

    /// Records event number `at`; returns its class. `life` is the state of its key before it, and `sure` says that no events were
    /// lost since.
    ///
    /// Fails only with `Memory`, and then nothing has changed.
    pub fn see(
        &mut self,
        event: &FenceEvent,
        at: u64,
        life: Life,
        sure: bool,
    ) -> Result<Finding, Refusal>
        ensures found { IfOk result (λ f.
            f ≡ found_of event.now life sure (context_at self.old (context_of event.now.key))) }
        ensures seen { IfOk result (λ f. (key : ContextKey) → context_at self.new key ≡
            (if same_context (context_of event.now.key) key
            then context_after event.now at f (context_at self.old (context_of event.now.key))
            else context_at self.old key)) }
        ensures memory { IfErr result (λ e. e ≡ Memory) }
    {
        let key = event.key.context_key();
        if let Some(context) = self.by_key.get_mut(&key) {
            let found = context.found(event, life, sure);
            context.see(event, at, &found);
            return Ok(found);
        }
        let mut context = ContextState::NONE;
        let found = context.found(event, life, sure);
        context.see(event, at, &found);
        let Ok(_old) = self.by_key.insert(key, context) else {
            return Err(Refusal::Memory);
        };
        Ok(found)
    }

    /// Whether there are more than are kept.
    pub fn are_crowded(&self) -> bool
        ensures { result ≡ nat_lt KEPT_CONTEXTS (length self.now.by_key.entries) }
    {
        self.by_key.len() > KEPT_CONTEXTS
    }

    /// Forgets what the context did.
    pub fn forget(&mut self, key: &ContextKey)
        ensures forgot { (k : ContextKey) →
            context_at self.new k ≡ (if same_context key.now k then no_context else context_at self.old k) }
    {
        self.by_key.swap_remove(key);
    }
}
