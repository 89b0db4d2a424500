//! The latest points that all plans put into a buffer, as `Tops`. `Board::settle` compares them with what was raised.
ghost use Rattle.std.specs.Prelude.{All};
ghost use Rattle.point_core.specs.Agreement.{HasContexts};
ghost use Rattle.resv_core.specs.Rounds.{IsInRange, round_of};
ghost use Rattle.resv_core.specs.Settled.{all_puts, put_by, puts_of};
ghost use Rattle.resv_core.specs.Tops.{AreTops};
ghost use Rattle.clients_core.specs.Board.{TakesIn};

use point_core::{Entry, Reach};
use resv_core::{Act, Plan, Tops};

/// The tables of what all plans put into a buffer.
pub(crate) fn planned_tops(buffer: usize, plans: &[Plan], reach: &Reach) -> Tops
    ensures tops { AreTops result reach.now (all_puts buffer plans.now) }
    ensures contexts { HasContexts (all_puts buffer plans.now) }
{
    let mut tops = Tops::above(reach);
    for plan in plans {
        put_plan(&mut tops, buffer, plan);
    }
    tops
}

/// Puts the entries of the last round: no point of an earlier round is later.
fn put_plan(tops: &mut Tops, buffer: usize, plan: &Plan)
    ensures tops { TakesIn (puts_of buffer plan.now) tops.old tops.new }
{
    let round = plan.round();
    if round.times > 0 {
        put_round(tops, buffer, round.acts, round.times);
    }
}

fn put_round(tops: &mut Tops, buffer: usize, acts: &[Act], number: u32)
    requires in_range { All (IsInRange number) acts.now }
    ensures tops { TakesIn (puts_of buffer (round_of acts.now number)) tops.old tops.new }
{
    for act in acts {
        put_act(tops, buffer, &act.in_round(number));
    }
}

fn put_act(tops: &mut Tops, buffer: usize, act: &Act)
    ensures tops { TakesIn (put_by buffer act.now) tops.old tops.new }
{
    match *act {
        Act::Put(into, point, usage) if into == buffer => tops.put(&Entry { point, usage }),
        _ => {}
    }
}
