//! The fences that are pending: `pending_of` lists them for reports, scripts and trace events alike, and says of each whether it
//! hangs, may have lost its signal, or has no number yet.
ghost use Rattle.std.specs.Prelude.{◌≡◌, List, IfOk, IfErr};
ghost use Rattle.std.specs.List.{IsDistinct};
ghost use Rattle.std.specs.Map.{keys_of};
ghost use Rattle.point_core.specs.declared.refusal.Refusal.TheVariants.{Memory};
ghost use Rattle.trace_core.specs.History.{Step, IsLedgerOf};
ghost use Rattle.trace_core.specs.Keys.{same_key};
ghost use Rattle.trace_core.specs.Pending.{kind_of, pending_among};

use crate::fence_event::FenceKey;
use crate::ledger::Ledger;
use point_core::Refusal;
use std::alloc::Global;

/// What is known of a fence that is pending.
#[derive(Clone, Copy, PartialEq, Eq, PartialOrd, Ord)]
pub enum PendingKind {
    /// It hangs: no events were lost since it was made or emitted.
    Hang,
    /// Its signal may be among events that were lost.
    Unknown,
    /// Its driver has not numbered it: it is no fence yet.
    Unnumbered,
}

/// A fence that is pending: it was made or emitted, and not signalled. Its order is the order of making.
#[derive(Clone, Copy, PartialEq, Eq, PartialOrd, Ord)]
pub struct Pending {
    /// How many events came before it was made or emitted.
    pub born: u64,
    pub key: FenceKey,
    pub kind: PendingKind,
    /// When it was made or emitted, in microseconds.
    pub since: u64,
}

/// The fences that are pending, in no order, as `Lives::by_key` has them.
pub fn pending_of(alloc: Global, ledger: &Ledger) -> Result<Vec<Pending>, Refusal>
    ensures pending { IfOk result (λ pending. (steps : List Step) → IsLedgerOf ledger.now steps →
        pending.items ≡ pending_among steps (keys_of ledger.now.lives.by_key.entries)) }
    ensures distinct { IsDistinct same_key (keys_of ledger.now.lives.by_key.entries) }
    ensures memory { IfErr result (λ e. e ≡ Memory) }
{
    let mut pending = Vec::new(alloc);
    for (key, _) in ledger.lives().by_key().iter() {
        let life = ledger.life(key);
        if life.is_pending() {
            let fence = Pending {
                born: life.born,
                key: *key,
                kind: kind_of(ledger, key),
                since: life.since,
            };
            let Ok(()) = pending.push(fence) else {
                return Err(Refusal::Memory);
            };
        }
    }
    Ok(pending)
}

fn kind_of(ledger: &Ledger, key: &FenceKey) -> PendingKind
    ensures kind { (steps : List Step) → IsLedgerOf ledger.now steps → result ≡ kind_of steps key.now }
{
    if ledger.is_unnumbered(key) {
        PendingKind::Unnumbered
    } else if ledger.hangs(key) {
        PendingKind::Hang
    } else {
        PendingKind::Unknown
    }
}
