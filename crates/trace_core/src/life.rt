//! `Life`: the state of one key's fences, a fold over the key's events (`specs/Life.antt`). A driver may use a key again, so it
//! counts fences instead of naming one.
ghost use Rattle.std.specs.Prelude.{◌≡◌};
ghost use Rattle.trace_core.specs.Life.{made, emitted, signalled, destroyed, without_one, life_after, is_over, is_pending};

use crate::event::Event;

/// What the events so far say of the fences of one key that are alive.
#[derive(Clone, Copy)]
pub struct Life {
    /// How many were made and neither signalled nor destroyed.
    pub pending: u32,
    /// How many were signalled and not destroyed.
    pub signalled: u32,
    /// Whether one was signalled since the first of them was seen.
    pub has_signalled: bool,
    /// How many events came before the last one was made or emitted.
    pub born: u64,
    /// When the last one was made or emitted, in microseconds.
    pub since: u64,
}

impl Life {
    /// The state of a key without live fences.
    pub const UNBORN: Life = Life {
        pending: 0,
        signalled: 0,
        has_signalled: false,
        born: 0,
        since: 0,
    };

    /// Whether a fence was made or emitted, and none was signalled since the first was seen.
    pub fn is_pending(&self) -> bool
        ensures { result ≡ is_pending self.now }
    {
        self.pending > 0 && !self.has_signalled
    }

    /// Whether no fence of the key is alive.
    pub fn is_over(&self) -> bool
        ensures { result ≡ is_over self.now }
    {
        self.pending == 0 && self.signalled == 0
    }

    /// State after the event, which is the trace's event number `born`.
    #[tactic(auto, unfolding(crate::specs::Life::life_after))]
    pub fn after(self, event: Event, born: u64, time: u64) -> Life
        ensures { result ≡ life_after event born time self }
    {
        match event {
            Event::Init => self.made(born, time),
            Event::Emit => self.emitted(born, time),
            Event::Signaled => self.signalled(),
            Event::Destroy => self.destroyed(),
            Event::EnableSignal | Event::WaitStart | Event::WaitEnd => self,
        }
    }

    fn made(self, born: u64, time: u64) -> Life
        ensures { result ≡ made born time self }
    {
        Life {
            pending: self.pending.saturating_add(1),
            born,
            since: time,
            ..self
        }
    }

    fn emitted(self, born: u64, time: u64) -> Life
        ensures { result ≡ emitted born time self }
    {
        if self.pending == 0 {
            self.made(born, time)
        } else {
            self
        }
    }

    fn signalled(self) -> Life
        ensures { result ≡ signalled self }
    {
        Life {
            pending: self.pending.saturating_sub(1),
            signalled: self.signalled.saturating_add(1),
            has_signalled: true,
            ..self
        }
    }

    fn destroyed(self) -> Life
        ensures { result ≡ destroyed self }
    {
        if self.signalled == 0 {
            return self.without_one();
        }
        Life {
            signalled: self.signalled - 1,
            ..self
        }
    }

    /// The state after one pending fence is gone.
    pub fn without_one(self) -> Life
        ensures { result ≡ without_one self }
    {
        Life {
            pending: self.pending.saturating_sub(1),
            ..self
        }
    }
}
