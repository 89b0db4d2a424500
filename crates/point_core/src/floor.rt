//! `Floor`: a compact, long-lived copy of a `Reach`. A sync file keeps one, the reach above which its points were
//! listed.
ghost use Rattle.std.specs.Prelude.{◌≡◌, ℕ, ◌<◌, ◌≤◌, length, OnOk, IfOk, IfErr};
ghost use Rattle.point_core.specs.declared.context.TheConstants.{CONTEXTS};
ghost use Rattle.point_core.specs.Reach.{value_at};
ghost use Rattle.point_core.specs.Used.{padded, used_of, AreInUse};

use crate::context::Context;
use crate::reach::Reach;
use crate::refusal::Refusal;
use std::alloc::Global;
use std::marker::Model;

/// A copy of a reach whose memory grows with the contexts in use, not with `CONTEXTS`.
#[derive(Debug, Drop)]
pub struct Floor {
    // the values up to the last that is not 0
    values: Vec<u64>,
}

impl Model for Floor {
    ghost use Rattle.std.specs.Prelude.{List, ℕ};
    ghost use Rattle.point_core.specs.Used.{padded, AreInUse};

    ghost Value = { List ℕ };

    ghost view = { λ f. padded f.values.items };

    ghost invariant = { λ f. AreInUse f.values.items };
}

impl Floor {
    ghost use Rattle.std.specs.Prelude.{replicate};

    /// Every value is 0. Does not allocate.
    pub fn zero(alloc: Global) -> Floor
        ensures { result ≡ replicate CONTEXTS 0 }
    {
        Floor {
            values: Vec::new(alloc),
        }
    }

    /// The values of a reach.
    pub fn of(alloc: Global, reach: &Reach) -> Result<Floor, Refusal>
        ensures floor { IfOk result (λ f. f ≡ reach.now) }
        ensures memory { IfErr result (λ e. e ≡ Refusal.Memory) }
    {
        Ok(Floor {
            values: reach.values().in_use().to_vec(alloc)?,
        })
    }

    /// Makes every value 0, and keeps the memory.
    pub fn clear(&mut self)
        ensures zero { self.new ≡ replicate CONTEXTS 0 }
    {
        self.values.clear();
    }

    /// Replaces its values by those of a reach; allocates only to grow.
    pub fn copy_from(&mut self, reach: &Reach) -> Result<(), Refusal>
        ensures floor { OnOk result (self.new ≡ reach.now) }
        ensures memory { IfErr result (λ e. e ≡ Refusal.Memory) }
    {
        let values = reach.values().in_use();
        self.values.clear();
        self.values.reserve_exact(values.len())?;
        self.values.extend_from_slice(values)?;
        Ok(())
    }

    /// The value of a context.
    pub fn get(&self, ctx: Context) -> u64
        ensures value { result ≡ value_at self.now ctx }
        ensures context { (1 ≤ ctx) × (ctx ≤ CONTEXTS) }
    {
        let index = ctx.index();
        if index < self.values.len() {
            self.values[index]
        } else {
            0
        }
    }

    /// The number of contexts up to the last whose value is not 0.
    pub fn used(&self) -> usize
        ensures last { result ≡ used_of self.now }
        ensures past { (ctx : ℕ) → result < ctx → value_at self.now ctx ≡ 0 }
        ensures full { length self.now ≡ CONTEXTS }
    {
        self.values.len()
    }

    /// The values up to the last that is not 0.
    pub(crate) fn in_use(&self) -> &[u64]
        ensures values { padded result.now ≡ self.now }
        ensures in_use { AreInUse result.now }
        ensures full { length self.now ≡ CONTEXTS }
    {
        self.values.as_slice()
    }
}
