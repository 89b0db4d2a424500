//! The latest points that were raised on a board, as a seat with all parts knows them. `Board::settle` compares them
//! with the plans' puts and makes its tables from them.
ghost use Rattle.std.specs.Prelude.{◌≡◌, ◌<◌, ◌≤◌, ◌↔◌, ℕ, ◌∷◌, [], IfErr, IfOk, IsTrue, map};
ghost use Rattle.std.specs.List.{range_with_len};
ghost use Rattle.point_core.specs.declared.refusal.Refusal.TheVariants as refusal;
ghost use Rattle.point_core.specs.Agreement.{AgreesAbove, HasContexts};
ghost use Rattle.point_core.specs.declared.entry.Usage.TheVariants.{Bookkeep};
ghost use Rattle.words_core.specs.theorem.Seat.{raised_to};
ghost use Rattle.resv_core.specs.Resv.{rows_of};
ghost use Rattle.resv_core.specs.Settled.{all_puts};
ghost use Rattle.resv_core.specs.Shared.{HasStepped};
ghost use Rattle.resv_core.specs.Tops.{AreTops};
ghost use Rattle.clients_core.specs.Board.{AreAsPlanned, TakesIn, places_at, raised_entry, raised_in};

use crate::planned_tops::planned_tops;
use point_core::{Context, Entry, Items, Point, Reach, Refusal, TopRow, Usage};
use resv_core::{Plan, Tops};
use std::alloc::Global;
use words_core::{Whole, Words};

/// Whether each buffer's raises say the same above the reach as what the plans put into it.
pub(crate) fn are_as_planned(words: &Words, all: &mut Whole, plans: &[Plan], reach: &Reach) -> bool
    requires own { all.old.words ≡ words.now }
    ensures stepped { HasStepped all.old all.new }
    ensures same { (w : ℕ) → raised_to all.new w ≡ raised_to all.old w }
    ensures planned { IsTrue result ↔ AreAsPlanned words.now all.old plans.now reach.now }
{
    for buffer in 0..words.buffers() {
        if !is_as_planned(words, all, buffer, plans, reach) {
            return false;
        }
    }
    true
}

/// The rows of each buffer above the reach, of what was raised in it.
pub(crate) fn raised_tables(
    alloc: Global,
    words: &Words,
    all: &mut Whole,
    reach: &Reach,
) -> Result<Vec<Items<TopRow>>, Refusal>
    requires own { all.old.words ≡ words.now }
    ensures stepped { HasStepped all.old all.new }
    ensures tables { IfOk result (λ tables.
        tables.items ≡ map (λ b. rows_of (raised_in words.now all.old b) reach.now) (range_with_len 0 words.now.buffers)) }
    ensures memory { IfErr result (λ e. e ≡ refusal.Memory) }
{
    let mut tables = Vec::with_capacity(alloc, words.buffers())?;
    for buffer in 0..words.buffers() {
        let rows = raised_tops(words, all, buffer, reach).rows(alloc, reach)?;
        tables.push_reserved(Items::of(rows));
    }
    Ok(tables)
}

fn is_as_planned(
    words: &Words,
    all: &mut Whole,
    buffer: usize,
    plans: &[Plan],
    reach: &Reach,
) -> bool
    requires own { all.old.words ≡ words.now }
    requires buffer { buffer < words.now.buffers }
    ensures stepped { HasStepped all.old all.new }
    ensures same { (w : ℕ) → raised_to all.new w ≡ raised_to all.old w }
    ensures planned { IsTrue result ↔ AgreesAbove reach.now (raised_in words.now all.old buffer) (all_puts buffer plans.now) }
{
    raised_tops(words, all, buffer, reach).is_same(&planned_tops(buffer, plans, reach))
}

/// The tables of all that was raised in a buffer, by one look at each place.
fn raised_tops(words: &Words, all: &mut Whole, buffer: usize, reach: &Reach) -> Tops
    requires own { all.old.words ≡ words.now }
    requires buffer { buffer < words.now.buffers }
    ensures stepped { HasStepped all.old all.new }
    ensures same { (w : ℕ) → raised_to all.new w ≡ raised_to all.old w }
    ensures tops { AreTops result reach.now (raised_in words.now all.old buffer) }
    ensures contexts { HasContexts (raised_in words.now all.old buffer) }
{
    let mut tops = Tops::above(reach);
    for index in 0..words.contexts() {
        put_context(&mut tops, words, all, buffer, Context::at(index));
    }
    tops
}

/// Puts what was raised at the places of a context into the tables.
fn put_context(tops: &mut Tops, words: &Words, all: &mut Whole, buffer: usize, ctx: Context)
    requires own { all.old.words ≡ words.now }
    requires within { (buffer < words.now.buffers) × (ctx ≤ words.now.contexts) }
    ensures stepped { HasStepped all.old all.new }
    ensures same { (w : ℕ) → raised_to all.new w ≡ raised_to all.old w }
    ensures tops { TakesIn (map (raised_entry words.now all.old buffer) (places_at Bookkeep ctx)) tops.old tops.new }
{
    put_place(tops, words, all, buffer, ctx, Usage::Kernel);
    put_place(tops, words, all, buffer, ctx, Usage::Write);
    put_place(tops, words, all, buffer, ctx, Usage::Read);
    put_place(tops, words, all, buffer, ctx, Usage::Bookkeep);
}

/// Puts what was raised at a place into the tables, as an entry.
fn put_place(
    tops: &mut Tops,
    words: &Words,
    all: &mut Whole,
    buffer: usize,
    ctx: Context,
    usage: Usage,
)
    requires own { all.old.words ≡ words.now }
    requires within { (buffer < words.now.buffers) × (ctx ≤ words.now.contexts) }
    ensures stepped { HasStepped all.old all.new }
    ensures same { (w : ℕ) → raised_to all.new w ≡ raised_to all.old w }
    ensures tops { TakesIn (raised_entry words.now all.old buffer (ctx, usage) ∷ []) tops.old tops.new }
{
    let value = all.top(words, buffer, ctx, usage);
    let point = Point { ctx, value };
    tops.put(&Entry { point, usage });
}
