//! `RightAnswers`: the answers that are expected of a line, by their texts. `Expects` has them.
ghost use Rattle.std.specs.Prelude.{◌≡◌, IfOk};
ghost use Rattle.std.specs.List.{list_any};
ghost use Rattle.report_core.specs.Answer.{text_of};
ghost use Rattle.explore_core.specs.Right.{is_right};

use command_core::Answer;
use report_core::print;
use std::alloc::{AllocError, Global};
use std::marker::Model;

/// The answers that are expected of a line.
#[derive(Drop)]
pub struct RightAnswers {
    pub answers: Vec<RightAnswer>,
}

/// An answer that is expected of a line.
#[derive(Drop)]
pub struct RightAnswer {
    /// Its lines, each with its line feed.
    pub text: Vec<u8>,
    /// Whether more lines may follow.
    pub begins: bool,
}

impl Model for RightAnswers {
    ghost use Rattle.std.specs.Prelude.{List};
    ghost use Rattle.explore_core.specs.Right.{Right};

    ghost Value = { List Right };

    ghost view = { λ a. a.answers.items };
}

impl Model for RightAnswer {
    ghost use Rattle.explore_core.specs.Right.{Right};

    ghost Value = { Right };

    ghost view = { λ a. record { text = a.text.items; begins = a.begins } };
}

impl RightAnswers {
    /// Whether the answer is one of these.
    pub(crate) fn include(&self, alloc: Global, answer: &Answer) -> Result<bool, AllocError>
        ensures include { IfOk result (λ yes. yes ≡ list_any (is_right (text_of 0 answer.now)) self.now) }
    {
        let mut text = Vec::new(alloc);
        let Ok(()) = print(0, answer, &mut text) else {
            return Err(AllocError);
        };
        Ok(self.have(text.as_slice()))
    }

    /// Whether that is the text of one of the answers.
    pub(crate) fn have(&self, text: &[u8]) -> bool
        ensures have { result ≡ list_any (is_right text.now) self.now }
    {
        self.answers.as_slice().iter().any(|right| right.has(text))
    }
}

impl RightAnswer {
    /// Whether that is the answer's text, or begins with it if more lines may follow.
    fn has(&self, text: &[u8]) -> bool
        ensures has { result ≡ is_right text.now self.now }
    {
        if self.begins {
            text.starts_with(self.text.as_slice())
        } else {
            text == self.text.as_slice()
        }
    }
}
