//! `Driver`: the exclusive writer token of a context. Only one is ever made for each context, so an increment can't
//! race.
ghost use Rattle.std.specs.Prelude.{◌≡◌, ◌+◌, ◌^◌, ◌<◌, ◌≤◌, ◌↔◌, IfOk, IfErr, IsErr, OnErr};
ghost use Rattle.point_core.specs.Reach.{GREATEST};
ghost use Rattle.point_core.specs.declared.refusal.Refusal.TheVariants as refusal;
ghost use Rattle.words_core.specs.theorem.Layout.{value_word, claim_word, mark_word};
ghost use Rattle.words_core.specs.theorem.Seat.{seen, added_to, with_step};
ghost use Rattle.words_core.specs.theorem.Trace.{add, shut, wins_of, shuts_of};

use crate::seat::Seat;
use crate::words::Words;
use point_core::{Context, Refusal};
use std::marker::Model;

/// The right to advance one context, with its value. `Words::driver` makes at most one for each context.
#[derive(Drop)]
pub struct Driver {
    pub(crate) seat: Seat,
    pub(crate) ctx: Context,
    pub(crate) value: u64,
}

impl Model for Driver {
    ghost use Rattle.std.specs.Prelude.{◌≡◌, ◌<◌, ◌≤◌};
    ghost use Rattle.words_core.specs.theorem.Driver.{DriverModel};
    ghost use Rattle.words_core.specs.theorem.Layout.{claim_word, mark_word};
    ghost use Rattle.words_core.specs.theorem.Seat.{added_to};
    ghost use Rattle.words_core.specs.theorem.Trace.{wins_of, shuts_of};

    ghost Value = { DriverModel };

    ghost view = { λ d. record { seat = d.seat; ctx = d.ctx; value = d.value } };

    ghost invariant = { λ d.
        (0 < wins_of (claim_word d.ctx) d.seat.trace) × (d.value ≡ added_to d.seat d.ctx) ×
        (d.ctx ≤ d.seat.words.contexts) × (shuts_of (mark_word d.ctx) d.seat.trace ≡ 0) };
}

impl Driver {
    /// Adds n to the context by one fetch_add, and returns its new value, as sw_sync's increment does; ours does not
    /// wrap.
    ///
    /// Fails only with `Overflow`, if the value would pass the greatest u64. No step is made then.
    pub fn inc(&mut self, words: &Words, n: u64) -> Result<u64, Refusal>
        requires own { self.old.seat.words ≡ words.now }
        ensures value { IfOk result (λ value. value ≡ self.old.value + n) }
        ensures added { IfOk result (λ value.
            self.new ≡ record {
              seat = with_step self.old.seat (add (value_word self.old.ctx) n value);
              ctx = self.old.ctx;
              value = value;
            }) }
        ensures overflow { IsErr result ↔ (2 ^ 64 ≤ self.old.value + n) }
        ensures refusal { IfErr result (λ e. e ≡ refusal.Overflow) }
        ensures unchanged { OnErr result (self.new ≡ self.old) }
    {
        if n > u64::MAX - self.value {
            return Err(Refusal::Overflow);
        }
        self.value = words.add(&mut self.seat, self.ctx, n);
        Ok(self.value)
    }

    /// The value of its context: the sum of its seat's additions.
    pub fn value(&self) -> u64
        ensures value { result ≡ self.now.value }
        ensures sum { result ≡ added_to self.now.seat self.now.ctx }
    {
        self.value
    }

    /// Closes the context at its value, by one fetch_or on its mark, and returns its seat. Its pending points are
    /// cancelled, as Linux's `sw_sync_debugfs_release` does, and no one advances it or closes it again.
    ///
    /// Fails only with `Overflow`, at the greatest value, if no point is left to cancel, and returns the driver. No
    /// step is made then.
    pub fn close(self, words: &Words) -> Result<Seat, (Refusal, Driver)>
        requires own { self.seat.words ≡ words.now }
        ensures shut { IfOk result (λ seat. seat ≡ with_step self.seat (shut (mark_word self.ctx) (self.value + 1))) }
        ensures unseen { IfOk result (λ _. seen self.seat (mark_word self.ctx) ≡ 0) }
        ensures first { IfOk result (λ seat. shuts_of (mark_word self.ctx) seat.trace ≡ 1) }
        ensures overflow { IsErr result ↔ (self.value ≡ GREATEST) }
        ensures refusal { IfErr result (λ e. (e.0 ≡ refusal.Overflow) × (e.1 ≡ self)) }
    {
        if self.value == u64::MAX {
            return Err((Refusal::Overflow, self));
        }
        let (ctx, mark) = (self.ctx, self.value + 1);
        let mut seat = self.finish();
        words.shut(&mut seat, ctx, mark);
        Ok(seat)
    }

    /// Returns its seat, which has won the context's claim. No one advances the context afterwards.
    pub fn finish(self) -> Seat
        ensures seat { result ≡ self.seat }
        ensures won { 0 < wins_of (claim_word self.ctx) result.trace }
        ensures sum { added_to result self.ctx ≡ self.value }
    {
        let Driver {
            seat,
            ctx: _,
            value: _,
        } = self;
        seat
    }
}
