//! `ContextValues`: a value for each context, and how many of them are in use. `Reach` and `LatestPoints` are made of
//! it.
ghost use Rattle.std.specs.Prelude.{◌≡◌, ℕ, ◌<◌, ◌≤◌, ◌↔◌, length, max, slice_index, IsTrue};
ghost use Rattle.point_core.specs.declared.context.TheConstants.{CONTEXTS};

use crate::context::CONTEXTS;
use std::marker::Model;

/// A value for each context, by index. A loop over the values costs as much as there are contexts in use, not
/// `CONTEXTS`.
#[derive(Clone, Copy, Debug, PartialEq, Eq)]
pub(crate) struct ContextValues {
    values: [u64; CONTEXTS],
    // the number of values up to the last that is not 0
    used: usize,
}

impl Model for ContextValues {
    ghost use Rattle.std.specs.Prelude.{List, ℕ};
    ghost use Rattle.point_core.specs.Used.{AreValues, inside_of, inside_of_values};

    ghost Value = { List ℕ };

    ghost view = { λ v. v.values };

    ghost invariant = { λ v. AreValues v.values v.used };

    ghost inverse = { inside_of };

    ghost inverse_ok = { inside_of_values };
}

impl ContextValues {
    ghost use Rattle.std.specs.Prelude.{replicate, slice_set};
    ghost use Rattle.point_core.specs.Reach.{later_values, IsAtLeast};
    ghost use Rattle.point_core.specs.Used.{padded, used_of, AreInUse};

    /// Every value is 0.
    pub(crate) fn zero() -> ContextValues
        ensures { result ≡ replicate CONTEXTS 0 }
    {
        ContextValues {
            values: [0; CONTEXTS],
            used: 0,
        }
    }

    /// The value at an index.
    pub(crate) fn get(&self, index: usize) -> u64
        requires within { index < CONTEXTS }
        ensures value { result ≡ slice_index self.now index }
        ensures full { length self.now ≡ CONTEXTS }
    {
        self.values[index]
    }

    /// The number of values up to the last that is not 0.
    pub(crate) fn used(&self) -> usize
        ensures last { result ≡ used_of self.now }
        ensures within { result ≤ CONTEXTS }
        ensures past { (index : ℕ) → result ≤ index → slice_index self.now index ≡ 0 }
    {
        self.used
    }

    /// Raises the value at an index, if it is lower.
    pub(crate) fn raise(&mut self, index: usize, value: u64)
        requires within { index < CONTEXTS }
        ensures value { self.new ≡ slice_set self.old index (max (slice_index self.old index) value) }
        ensures full { length self.old ≡ CONTEXTS }
    {
        if self.values[index] < value {
            self.values[index] = value;
            // A branch, since a `max` would be written and read back at each value.
            if self.used <= index {
                self.used = index + 1;
            }
        }
    }

    /// The values up to the last that is not 0.
    pub(crate) fn in_use(&self) -> &[u64]
        ensures values { padded result.now ≡ self.now }
        ensures in_use { AreInUse result.now }
        ensures full { length self.now ≡ CONTEXTS }
    {
        &self.values[..self.used]
    }

    /// Makes every value 0 again.
    pub(crate) fn clear(&mut self)
        ensures zero { self.new ≡ replicate CONTEXTS 0 }
    {
        for index in 0..self.used {
            self.values[index] = 0;
        }
        self.used = 0;
    }

    /// Replaces its values by the other's.
    pub(crate) fn copy_from(&mut self, other: &[u64])
        requires in_use { AreInUse other.now }
        ensures values { self.new ≡ padded other.now }
    {
        self.clear();
        self.join(other);
    }

    /// Raises each value to the other's, if that is greater.
    pub(crate) fn join(&mut self, other: &[u64])
        requires in_use { AreInUse other.now }
        ensures values { self.new ≡ later_values self.old (padded other.now) }
        ensures full { (length self.old ≡ CONTEXTS) × (length self.new ≡ CONTEXTS) }
    {
        for index in 0..other.len() {
            self.values[index] = self.values[index].max(other[index]);
        }
        self.used = self.used.max(other.len());
    }

    /// Whether no value is below the other's.
    pub(crate) fn at_least(&self, other: &[u64]) -> bool
        requires in_use { AreInUse other.now }
        ensures { IsTrue result ↔ IsAtLeast self.now (padded other.now) }
    {
        // The loop has no early exit, so that it compares several values at once.
        let mut all = true;
        for index in 0..other.len() {
            all &= self.values[index] >= other[index];
        }
        all
    }
}
