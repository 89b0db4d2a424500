//! `Expects`: which answers are expected of a line. A schedule ends at any other. `explore_report` fills it from the notes of a plan, and
//! judges answers by it.
ghost use Rattle.std.specs.Prelude.{◌≡◌, IfOk};
ghost use Rattle.report_core.specs.Answer.{text_of};
ghost use Rattle.explore_core.specs.Expects.{is_expected};

use crate::position::is_refused;
use crate::right_answer::RightAnswers;
use command_core::Answer;
use std::alloc::{AllocError, Global};

/// Which answers are expected of a line.
#[derive(Drop)]
pub enum Expects {
    /// Any answer.
    Any,
    /// Any but a refusal.
    Accepted,
    /// One of these.
    Texts(RightAnswers),
}

impl Expects {
    /// Whether the answer is expected.
    pub(crate) fn include(&self, alloc: Global, answer: &Answer) -> Result<bool, AllocError>
        ensures expected { IfOk result (λ yes. yes ≡ is_expected answer.now self.now) }
    {
        match self {
            Expects::Any => Ok(true),
            Expects::Accepted => Ok(!is_refused(answer)),
            Expects::Texts(right) => right.include(alloc, answer),
        }
    }

    /// Whether an answer with that text is expected.
    pub fn takes(&self, answer: &Answer, text: &[u8]) -> bool
        requires text { text.now ≡ text_of 0 answer.now }
        ensures expected { result ≡ is_expected answer.now self.now }
    {
        match self {
            Expects::Any => true,
            Expects::Accepted => !is_refused(answer),
            Expects::Texts(right) => right.have(text),
        }
    }
}
