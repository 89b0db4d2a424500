//! `Lives`: the `Life` of each key that has fences alive. A key whose fences are all gone is dropped, so memory is bounded by what is
//! alive at once.
ghost use Rattle.std.specs.Prelude.{◌≡◌, ◌&&◌, nat_eq, if◌then◌else◌, OnOk, IfOk, IfErr};
ghost use Rattle.point_core.specs.declared.refusal.Refusal.TheVariants.{Memory};
ghost use Rattle.trace_core.specs.declared.fence_event.FenceKey.{FenceKey};
ghost use Rattle.trace_core.specs.Keys.{same_key};
ghost use Rattle.trace_core.specs.Life.{unborn, settled};
ghost use Rattle.trace_core.specs.Lives.{life_at, life_step, without_number};
ghost use Rattle.trace_core.specs.Finding.{is_emit};

use crate::event::Event;
use crate::fence_event::{FenceEvent, FenceKey};
use crate::life::Life;
use indexmap::IndexMap;
use point_core::Refusal;
use std::alloc::Global;

/// What is known of the keys of fences that are alive.
#[derive(Drop)]
pub struct Lives {
    by_key: IndexMap<FenceKey, Life>,
}

impl Lives {
    /// No key has a fence. Does not allocate.
    pub fn new(alloc: Global) -> Lives
        ensures { (key : FenceKey) → life_at result key ≡ unborn }
    {
        Lives {
            by_key: IndexMap::new(alloc),
        }
    }

    /// What is known of the key: `Life::UNBORN` if no fence of it is alive.
    pub fn life(&self, key: &FenceKey) -> Life
        ensures { result ≡ life_at self.now key.now }
    {
        match self.by_key.get(key) {
            Some(life) => *life,
            None => Life::UNBORN,
        }
    }

    /// The keys of fences that are alive, each with what is known of it, in no order.
    pub fn by_key(&self) -> &IndexMap<FenceKey, Life>
        ensures { result.now ≡ self.now.by_key }
    {
        &self.by_key
    }

    /// Records event `born`; returns its key's prior state.
    ///
    /// Fails only with `Memory`; then no more events are to be taken in.
    #[tactic(auto, unfolding(crate::specs::Lives::life_step))]
    pub fn see(&mut self, event: &FenceEvent, born: u64) -> Result<Life, Refusal>
        ensures known { IfOk result (λ own. own ≡ life_at self.old event.now.key) }
        ensures seen { OnOk result ((key : FenceKey) → life_at self.new key ≡
            life_step event.now born (life_at self.old event.now.key) key (life_at self.old key)) }
        ensures memory { IfErr result (λ e. e ≡ Memory) }
    {
        let own = self.life(&event.key);
        self.number(event, own)?;
        self.put(event.key, own.after(event.kind, born, event.time))?;
        Ok(own)
    }

    /// Takes one away from the context's fences without a number, where the event gives it one.
    fn number(&mut self, event: &FenceEvent, own: Life) -> Result<(), Refusal>
        ensures numbered { OnOk result ((key : FenceKey) → life_at self.new key ≡
            without_number event.now own key (life_at self.old key)) }
        ensures memory { IfErr result (λ e. e ≡ Memory) }
    {
        if !gives_number(event.kind, own) {
            return Ok(());
        }
        let unnumbered = event.key.unnumbered();
        let life = self.life(&unnumbered);
        self.put(unnumbered, life.without_one())?;
        Ok(())
    }

    fn put(&mut self, key: FenceKey, life: Life) -> Result<(), Refusal>
        ensures put { OnOk result ((k : FenceKey) →
            life_at self.new k ≡ (if same_key key k then settled life else life_at self.old k)) }
        ensures memory { IfErr result (λ e. e ≡ Memory) }
    {
        if life.is_over() {
            self.by_key.swap_remove(&key);
            return Ok(());
        }
        let Ok(_old) = self.by_key.insert(key, life) else {
            return Err(Refusal::Memory);
        };
        Ok(())
    }
}

/// Whether the event gives a number to a fence that was made without one.
fn gives_number(event: Event, own: Life) -> bool
    ensures { result ≡ (is_emit event && nat_eq own.pending 0) }
{
    matches!(event, Event::Emit) && own.pending == 0
}
