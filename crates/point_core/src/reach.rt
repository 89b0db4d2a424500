//! `Reach`: the signalled value of each timeline, a vector of sequence numbers. A point is pending if it is above the
//! reach.
ghost use Rattle.std.specs.Prelude.{◌≡◌, ℕ, ◌+◌, ◌^◌, ◌<◌, ◌≤◌, ◌↔◌, length, slice_index, IsTrue, IsSome, IfSome};
ghost use Rattle.point_core.specs.declared.context.TheConstants.{CONTEXTS};
ghost use Rattle.point_core.specs.Reach.{value_at};

use crate::context::Context;
use crate::context_values::ContextValues;
use crate::entry::Point;
use crate::floor::Floor;
use std::marker::Model;

/// The value of each context, which is a vector of signalled sequence numbers: a point is signalled once its context's
/// value has reached it. A context without a timeline has the value 0.
#[derive(Clone, Copy, Debug, PartialEq, Eq)]
pub struct Reach {
    values: ContextValues,
}

impl Model for Reach {
    ghost use Rattle.std.specs.Prelude.{◌≡◌, List, ℕ, length};
    ghost use Rattle.point_core.specs.declared.context.TheConstants.{CONTEXTS};

    ghost Value = { List ℕ };

    ghost view = { λ r. r.values };

    ghost invariant = { λ r. length r.values ≡ CONTEXTS };

    ghost inverse = { λ values. record { values = values } };
}

impl Reach {
    ghost use Rattle.std.specs.Prelude.{replicate, slice_set, ◌-◌};
    ghost use Rattle.point_core.specs.Reach.{with_value, shut_value, reaching, later_values, IsAtLeast};
    ghost use Rattle.point_core.specs.Used.{used_of};

    /// Every value is 0.
    pub fn zero() -> Reach
        ensures { result ≡ replicate CONTEXTS 0 }
    {
        Reach {
            values: ContextValues::zero(),
        }
    }

    /// Makes every value 0 again. The cost grows with the contexts in use, as with `copy_from`.
    pub fn clear(&mut self)
        ensures zero { self.new ≡ replicate CONTEXTS 0 }
    {
        self.values.clear();
    }

    /// Replaces its values by the other's.
    pub fn copy_from(&mut self, other: &Reach)
        ensures values { self.new ≡ other.now }
    {
        self.values.copy_from(other.values.in_use());
    }

    /// The value of a context.
    pub fn get(&self, ctx: Context) -> u64
        ensures value { result ≡ value_at self.now ctx }
        ensures full { length self.now ≡ CONTEXTS }
        ensures context { (1 ≤ ctx) × (ctx ≤ CONTEXTS) }
    {
        self.values.get(ctx.index())
    }

    /// The value of the context at an index, from 0.
    pub fn at(&self, index: usize) -> u64
        requires within { index < CONTEXTS }
        ensures value { result ≡ value_at self.now (index + 1) }
        ensures full { length self.now ≡ CONTEXTS }
    {
        self.values.get(index)
    }

    /// The reach after the context advances by n, or none if its value would pass the greatest u64. For users of the
    /// library; no program here calls it.
    pub fn raised(&self, ctx: Context, n: u64) -> Option<Reach>
        ensures fits { IsSome result ↔ (value_at self.now ctx + n < 2 ^ 64) }
        ensures value { IfSome result (λ r. r ≡ with_value self.now ctx (value_at self.now ctx + n)) }
    {
        let value = self.get(ctx).checked_add(n)?;
        let mut raised = *self;
        raised.raise_to(Point { ctx, value });
        Some(raised)
    }

    /// Raises the context's value to the point, if it is lower.
    pub fn raise_to(&mut self, point: Point)
        ensures value { self.new ≡ reaching self.old point }
        ensures full { length self.old ≡ CONTEXTS }
        ensures context { (1 ≤ point.ctx) × (point.ctx ≤ CONTEXTS) }
    {
        self.values.raise(point.ctx.index(), point.value);
    }

    /// Closes a context: every point of it is reached.
    pub fn close(&mut self, ctx: Context)
        ensures value { self.new ≡ shut_value self.old ctx }
        ensures full { length self.old ≡ CONTEXTS }
        ensures context { (1 ≤ ctx) × (ctx ≤ CONTEXTS) }
    {
        self.values.raise(ctx.index(), u64::MAX);
    }

    /// The reach after a context closes: every point of it is reached. For users of the library; no program here calls
    /// it.
    pub fn shut(&self, ctx: Context) -> Reach
        ensures value { result ≡ shut_value self.now ctx }
        ensures full { length self.now ≡ CONTEXTS }
        ensures context { (1 ≤ ctx) × (ctx ≤ CONTEXTS) }
    {
        let mut shut = *self;
        shut.close(ctx);
        shut
    }

    /// The number of contexts up to the last whose value is not 0. A loop over reached contexts can end there.
    pub fn used(&self) -> usize
        ensures last { result ≡ used_of self.now }
        ensures within { result ≤ CONTEXTS }
        ensures past { (ctx : ℕ) → result < ctx → value_at self.now ctx ≡ 0 }
        ensures full { length self.now ≡ CONTEXTS }
    {
        self.values.used()
    }

    /// The values, by context.
    pub(crate) fn values(&self) -> &ContextValues
        ensures value { result.now ≡ self.now }
        ensures full { length self.now ≡ CONTEXTS }
    {
        &self.values
    }

    /// Whether no value is below the other's.
    pub fn at_least(&self, other: &Reach) -> bool
        ensures { IsTrue result ↔ IsAtLeast self.now other.now }
    {
        self.values.at_least(other.values.in_use())
    }

    /// The pointwise greatest of two reaches: for each context the greater value. For users of the library; no program
    /// here calls it.
    pub fn joined(&self, other: &Reach) -> Reach
        ensures values { result ≡ later_values self.now other.now }
        ensures full { (length self.now ≡ CONTEXTS) × (length other.now ≡ CONTEXTS) }
    {
        let mut joined = *self;
        joined.values.join(other.values.in_use());
        joined
    }

    /// Raises each value to the floor's, if that is greater.
    pub fn join_floor(&mut self, floor: &Floor)
        ensures values { self.new ≡ later_values self.old floor.now }
        ensures full { (length self.old ≡ CONTEXTS) × (length floor.now ≡ CONTEXTS) }
    {
        self.values.join(floor.in_use());
    }

    /// Whether no value is below the floor's.
    pub fn at_least_floor(&self, floor: &Floor) -> bool
        ensures least { IsTrue result ↔ IsAtLeast self.now floor.now }
        ensures full { (length self.now ≡ CONTEXTS) × (length floor.now ≡ CONTEXTS) }
    {
        self.values.at_least(floor.in_use())
    }
}

/// Whether the context's value has reached the point.
pub fn is_signalled(point: Point, reach: &Reach) -> bool
    ensures { IsTrue result ↔ (point.value ≤ value_at reach.now point.ctx) }
{
    point.value <= reach.get(point.ctx)
}
