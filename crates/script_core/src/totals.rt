//! `Totals`: how many lines of a script were answered, and how many of these were refused.
ghost use Rattle.std.specs.Prelude.{◌≡◌, ◌+◌, ◌^◌, ◌<◌, [], if◌then◌else◌};
ghost use Rattle.desk_core.specs.theorem.Answer.{is_refused};

use command_core::Answer;

/// The number of answers of a script.
#[derive(Clone, Copy, Debug)]
pub struct Totals {
    /// The lines that have an answer. The rows of an answer aren't counted.
    pub lines: u64,
    pub accepted: u64,
    pub refused: u64,
    ghost counted: { lines ≡ accepted + refused },
}

impl Totals {
    ghost use Rattle.script_core.specs.Output.{Counts};

    /// No answers.
    pub fn new() -> Self
        ensures counts { Counts result [] }
    {
        Totals {
            lines: 0,
            accepted: 0,
            refused: 0,
        }
    }

    /// The totals with another answer.
    pub fn with(self, answer: &Answer) -> Self
        requires { self.lines + 1 < 2 ^ 64 }
        ensures lines { result.lines ≡ self.lines + 1 }
        ensures refused { result.refused ≡ self.refused + (if is_refused answer.now then 1 else 0) }
    {
        let lines = self.lines + 1;
        match answer {
            Answer::Refused(_) => Totals {
                lines,
                accepted: self.accepted,
                refused: self.refused + 1,
            },
            _ => Totals {
                lines,
                accepted: self.accepted + 1,
                refused: self.refused,
            },
        }
    }
}
