//! The values that a seat with all parts knows exactly. Both tables settle with them, and `run_clients` compares them
//! with the plans' increments.
ghost use Rattle.std.specs.Prelude.{◌≡◌, ℕ, ◌<◌, ◌≤◌, ◌↔◌, map, IfErr, IfOk, IsTrue, OnErr};
ghost use Rattle.std.specs.List.{range_with_len};
ghost use Rattle.point_core.specs.declared.context.TheConstants.{CONTEXTS};
ghost use Rattle.point_core.specs.declared.refusal.Refusal.TheVariants as refusal;
ghost use Rattle.point_core.specs.Reach.{value_at};
ghost use Rattle.words_core.specs.theorem.Seat.{added_to, raised_to};
ghost use Rattle.resv_core.specs.Shared.{HasClosedNone, HasStepped};

use point_core::{Context, Point, Reach, Refusal};
use std::alloc::Global;
use words_core::{Whole, Words};

/// The value of each context, by one load each; 0 past the last context.
pub(crate) fn gathered(words: &Words, all: &mut Whole) -> Reach
    requires own { all.old.words ≡ words.now }
    ensures stepped { HasStepped all.old all.new }
    ensures same { (ctx : ℕ) → added_to all.new ctx ≡ added_to all.old ctx }
    ensures raises { (w : ℕ) → raised_to all.new w ≡ raised_to all.old w }
    ensures values { (ctx : ℕ) → 1 ≤ ctx → ctx ≤ words.now.contexts → value_at result ctx ≡ added_to all.old ctx }
    ensures past { (ctx : ℕ) → words.now.contexts < ctx → value_at result ctx ≡ 0 }
{
    let mut reach = Reach::zero();
    for index in 0..words.contexts() {
        let ctx = Context::at(index);
        let value = all.value(words, ctx);
        reach.raise_to(Point { ctx, value });
    }
    reach
}

/// Like `gathered`, if no context is closed.
///
/// Fails with `Torn` if a context is closed: a floor that was loaded then is the greatest value, above the gathered one.
pub(crate) fn gathered_open(words: &Words, all: &mut Whole) -> Result<Reach, Refusal>
    requires own { all.old.words ≡ words.now }
    ensures stepped { HasStepped all.old all.new }
    ensures raises { (w : ℕ) → raised_to all.new w ≡ raised_to all.old w }
    ensures values { IfOk result (λ reach.
        (ctx : ℕ) → 1 ≤ ctx → ctx ≤ words.now.contexts → value_at reach ctx ≡ added_to all.old ctx) }
    ensures past { IfOk result (λ reach. (ctx : ℕ) → words.now.contexts < ctx → value_at reach ctx ≡ 0) }
    ensures none_closed { IfOk result (λ reach. HasClosedNone words.now.contexts all.old) }
    ensures closed { OnErr result (¬ HasClosedNone words.now.contexts all.old) }
    ensures refusal { IfErr result (λ e. e ≡ refusal.Torn) }
{
    if !are_open(words, all) {
        return Err(Refusal::Torn);
    }
    Ok(gathered(words, all))
}

/// Whether no context is closed, by one load of each mark up to the first that says so.
fn are_open(words: &Words, all: &mut Whole) -> bool
    requires own { all.old.words ≡ words.now }
    ensures stepped { HasStepped all.old all.new }
    ensures same { (ctx : ℕ) → added_to all.new ctx ≡ added_to all.old ctx }
    ensures raises { (w : ℕ) → raised_to all.new w ≡ raised_to all.old w }
    ensures none_closed { IsTrue result ↔ HasClosedNone words.now.contexts all.old }
{
    for index in 0..words.contexts() {
        if all.closed(words, Context::at(index)) {
            return false;
        }
    }
    true
}

/// The values of the first contexts.
pub(crate) fn listed(alloc: Global, reach: &Reach, count: usize) -> Result<Vec<u64>, Refusal>
    requires count { count ≤ CONTEXTS }
    ensures values { IfOk result (λ values. values.items ≡ map (value_at reach.now) (range_with_len 1 count)) }
    ensures memory { IfErr result (λ e. e ≡ refusal.Memory) }
{
    let mut values = Vec::with_capacity(alloc, count)?;
    for index in 0..count {
        values.push_reserved(reach.get(Context::at(index)));
    }
    Ok(values)
}
