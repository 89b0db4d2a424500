//! The entries that all plans put into a buffer, as a list. `LockedTable::settle` compares them with a buffer's
//! journal.
ghost use Rattle.std.specs.Prelude.{◌≡◌, ◌++◌, All, IfErr, IfOk, OnOk};
ghost use Rattle.point_core.specs.declared.refusal.Refusal.TheVariants as refusal;
ghost use Rattle.resv_core.specs.Rounds.{IsInRange, round_of};
ghost use Rattle.resv_core.specs.Settled.{all_puts, put_by, puts_of};

use point_core::{Entry, Refusal};
use resv_core::{Act, Plan};
use std::alloc::Global;

/// What all plans put into a buffer, plan by plan.
pub(crate) fn planned_entries(
    alloc: Global,
    buffer: usize,
    plans: &[Plan],
) -> Result<Vec<Entry>, Refusal>
    ensures puts { IfOk result (λ entries. entries.items ≡ all_puts buffer plans.now) }
    ensures memory { IfErr result (λ e. e ≡ refusal.Memory) }
{
    let mut entries = Vec::new(alloc);
    for plan in plans {
        push_plan(&mut entries, buffer, plan)?;
    }
    Ok(entries)
}

/// Appends what a plan puts into a buffer.
fn push_plan(entries: &mut Vec<Entry>, buffer: usize, plan: &Plan) -> Result<(), Refusal>
    ensures puts { OnOk result (entries.new.items ≡ entries.old.items ++ puts_of buffer plan.now) }
    ensures memory { IfErr result (λ e. e ≡ refusal.Memory) }
{
    let round = plan.round();
    for index in 0..round.times {
        push_round(entries, buffer, round.acts, index + 1)?;
    }
    Ok(())
}

/// Appends what the acts put into a buffer in the round of that number.
fn push_round(
    entries: &mut Vec<Entry>,
    buffer: usize,
    acts: &[Act],
    number: u32,
) -> Result<(), Refusal>
    requires in_range { All (IsInRange number) acts.now }
    ensures puts { OnOk result (entries.new.items ≡ entries.old.items ++ puts_of buffer (round_of acts.now number)) }
    ensures memory { IfErr result (λ e. e ≡ refusal.Memory) }
{
    for act in acts {
        push_put(entries, buffer, &act.in_round(number))?;
    }
    Ok(())
}

fn push_put(entries: &mut Vec<Entry>, buffer: usize, act: &Act) -> Result<(), Refusal>
    ensures put { OnOk result (entries.new.items ≡ entries.old.items ++ put_by buffer act.now) }
    ensures memory { IfErr result (λ e. e ≡ refusal.Memory) }
{
    match *act {
        Act::Put(into, point, usage) if into == buffer => {
            entries.reserve(1)?;
            entries.push_reserved(Entry { point, usage });
        }
        _ => {}
    }
    Ok(())
}
