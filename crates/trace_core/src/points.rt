//! `Points`: whether a context has no seqno, one or several. The ledger needs no more to know when a context may be forgotten.
ghost use Rattle.std.specs.Prelude.{◌≡◌};
ghost use Rattle.trace_core.specs.Points.{are_none, is_only, points_after};

/// Which seqnos were seen in a context.
#[derive(Clone, Copy)]
pub enum Points {
    None,
    /// Only this seqno.
    One(u32),
    Several,
}

impl Points {
    /// Whether none was seen.
    #[inline(always)]
    #[tactic(auto, unfolding(crate::specs::Points::are_none))]
    pub fn are_none(&self) -> bool
        ensures { result ≡ are_none self.now }
    {
        matches!(self, Points::None)
    }

    /// Whether `seqno` was seen, and no other.
    #[tactic(auto, unfolding(crate::specs::Points::is_only))]
    pub fn is_only(&self, seqno: u32) -> bool
        ensures { result ≡ is_only seqno self.now }
    {
        match self {
            Points::One(one) => *one == seqno,
            Points::None => false,
            Points::Several => false,
        }
    }

    /// Whether another seqno than that was seen.
    pub fn has_other(&self, seqno: u32) -> bool {
        match self {
            Points::None => false,
            Points::One(one) => *one != seqno,
            Points::Several => true,
        }
    }

    /// The set after seeing `seqno`.
    #[inline(always)]
    #[tactic(auto, unfolding(crate::specs::Points::points_after))]
    pub fn after(self, seqno: u32) -> Points
        ensures { result ≡ points_after seqno self }
    {
        match self {
            Points::None => Points::One(seqno),
            Points::One(one) => { if one == seqno { self } else { Points::Several } }
            Points::Several => Points::Several,
        }
    }
}
