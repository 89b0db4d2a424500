//! Plans for tests of one table, whose buffers and contexts are known.
ghost use Rattle.std.specs.Prelude.{◌≡◌, ◌∷◌, [], vec_len};
ghost use Rattle.resv_core.specs.Settled.{ArePlansWithin};

use point_core::{Context, Point, Usage};
use resv_core::{Act, Plan};
use std::alloc::Global;
use std::process::Abort;

/// A point of the second context.
pub(crate) fn second_point(value: u64) -> Point
    ensures context { result.ctx ≡ 2 }
{
    Point {
        ctx: Context::at(1),
        value,
    }
}

/// The plans of two clients: the first puts a point into the second buffer of two, and the other does nothing.
pub(crate) fn plans_of_a_put(rt: &impl Abort, alloc: Global) -> Vec<Plan>
    ensures within { ArePlansWithin 2 2 result.items }
    ensures count { vec_len result ≡ 2 }
{
    let ctx = Context::at(0);
    let put = Act::Put(1, Point { ctx, value: 1 }, Usage::Write);
    let acts = Vec::from_elem(alloc, put, 1).expect(rt, "acts");
    let mut plans = Vec::with_capacity(alloc, 2).expect(rt, "plans");
    plans.push_reserved(Plan::of(acts));
    plans.push_reserved(Plan::of(Vec::new(alloc)));
    plans
}

/// The plan of one client, which advances its timeline by 4.
pub(crate) fn plan_of_an_increment(rt: &impl Abort, alloc: Global) -> Vec<Plan>
    ensures within { ArePlansWithin 1 0 result.items }
    ensures count { vec_len result ≡ 1 }
{
    plan_of(rt, alloc, Act::Inc(4))
}

/// The plan of one act.
fn plan_of(rt: &impl Abort, alloc: Global, act: Act) -> Vec<Plan>
    ensures plan { result.items ≡ (act ∷ []) ∷ [] }
    ensures count { vec_len result ≡ 1 }
{
    let acts = Vec::from_elem(alloc, act, 1).expect(rt, "acts");
    let mut plans = Vec::with_capacity(alloc, 1).expect(rt, "plans");
    plans.push_reserved(Plan::of(acts));
    plans
}
