//! `PendingFences`: the fences that are pending at the end of a trace. It is proved that `hangs` has exactly the fences that hang
//! (`AreHangs`), and `unknown` those whose signals may have been lost (`AreUnknown`); the order and `unnumbered` are tested
//! (`tests/traces`). `report_trace` makes it.
ghost use Rattle.std.specs.Prelude.{◌≡◌, ◌++◌, [], ◌∷◌, List, IfOk, IfErr, OnOk};
ghost use Rattle.std.specs.List.{filter};
ghost use Rattle.point_core.specs.declared.refusal.Refusal.TheVariants.{Memory};
ghost use Rattle.trace_core.specs.History.{Step, IsLedgerOf};
ghost use Rattle.trace_report.specs.Found.{AreHangs, AreUnknown, hanging, is_hang, is_unknown, not_known};

use point_core::Refusal;
use std::alloc::{AllocError, Global};
use trace_core::{Ledger, Pending, PendingKind, pending_of};

/// The fences that are pending, in the order in which they were made.
#[derive(Drop)]
pub(crate) struct PendingFences {
    /// The fences that hang.
    pub(crate) hangs: Vec<Pending>,
    /// The fences whose signals may have been lost.
    pub(crate) unknown: Vec<Pending>,
    /// How many keys wait for a number of their driver, and are no fences yet.
    pub(crate) unnumbered: u64,
}

impl PendingFences {
    /// The pending fences of the ledger.
    pub(crate) fn new(alloc: Global, ledger: &Ledger) -> Result<PendingFences, Refusal>
        ensures hangs { IfOk result (λ f. (steps : List Step) →
            IsLedgerOf ledger.now steps → AreHangs steps f.hangs.items) }
        ensures unknown { IfOk result (λ f. (steps : List Step) →
            IsLedgerOf ledger.now steps → AreUnknown steps f.unknown.items) }
        ensures memory { IfErr result (λ e. e ≡ Memory) }
    {
        let pending = pending_of(alloc, ledger)?;
        let mut hangs = Vec::new(alloc);
        let mut unknown = Vec::new(alloc);
        let unnumbered = split(pending.as_slice(), &mut hangs, &mut unknown)?;
        hangs.sort()?;
        unknown.sort()?;
        Ok(PendingFences {
            hangs,
            unknown,
            unnumbered,
        })
    }
}

/// Adds each fence to the list that its kind belongs to. Answers how many fences have no number yet.
fn split(
    pending: &[Pending],
    hangs: &mut Vec<Pending>,
    unknown: &mut Vec<Pending>,
) -> Result<u64, AllocError>
    ensures hangs { OnOk result (hangs.new.items ≡ hangs.old.items ++ filter is_hang pending.now) }
    ensures unknown { OnOk result (unknown.new.items ≡ unknown.old.items ++ filter is_unknown pending.now) }
{
    let mut unnumbered: u64 = 0;
    for fence in pending {
        if !put(fence, hangs, unknown)? {
            unnumbered = unnumbered.saturating_add(1);
        }
    }
    Ok(unnumbered)
}

/// Adds the fence to the list of its kind, and returns true. A fence without a number has no list: then it returns false.
fn put(
    fence: &Pending,
    hangs: &mut Vec<Pending>,
    unknown: &mut Vec<Pending>,
) -> Result<bool, AllocError>
    ensures hangs { OnOk result (hangs.new.items ≡ hangs.old.items ++ hanging fence.now) }
    ensures unknown { OnOk result (unknown.new.items ≡ unknown.old.items ++ not_known fence.now) }
{
    match fence.kind {
        PendingKind::Hang => push(hangs, fence),
        PendingKind::Unknown => push(unknown, fence),
        PendingKind::Unnumbered => Ok(false),
    }
}

fn push(list: &mut Vec<Pending>, fence: &Pending) -> Result<bool, AllocError>
    ensures added { OnOk result (list.new.items ≡ list.old.items ++ fence.now ∷ []) }
{
    list.push(*fence)?;
    Ok(true)
}
