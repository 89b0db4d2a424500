//! `Turn`: a line of a script in one round of each `#repeat` around it. `unrolling.rt` makes the turns of a plan.
ghost use Rattle.std.specs.Prelude.{◌≡◌};
ghost use Rattle.explore_report.specs.Turns.{in_round};

/// A line of a script in one round of each `#repeat` around it.
#[derive(Clone, Copy)]
pub(crate) struct Turn {
    /// The line's number, from 1.
    pub number: usize,
    /// The round of the outer `#repeat`, from 1; 0 for a line in none.
    pub outer: u32,
    /// The round of the inner `#repeat`, from 1; 0 for a line in none.
    pub inner: u32,
}

impl Turn {
    /// The turn in that round of one more `#repeat`, which is inside the others.
    pub(crate) fn in_round(&self, round: u32) -> Turn
        ensures { result ≡ in_round round self.now }
    {
        if self.outer == 0 {
            Turn {
                number: self.number,
                outer: round,
                inner: 0,
            }
        } else {
            Turn {
                number: self.number,
                outer: self.outer,
                inner: round,
            }
        }
    }
}
