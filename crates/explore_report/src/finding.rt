//! `Finding`: what is wrong with an answer to a line of a plan. `case.rt` asks of each answer of each line.
ghost use Rattle.std.specs.Prelude.{◌≡◌};
ghost use Rattle.report_core.specs.Answer.{text_of};
ghost use Rattle.explore_report.specs.Finding.{finding_of, finding_where};

use crate::plan_script::PlanScript;
use command_core::Answer;
use explore_core::Expects;

/// What is wrong with an answer.
#[derive(Clone, Copy)]
pub(crate) enum Finding {
    /// It is none of the answers that are expected.
    Unexpected,
    /// It is a refusal, and nothing is expected.
    Refused,
}

/// What is wrong with an answer of that text to the command of a row.
pub(crate) fn finding_of(
    plan: &PlanScript<'_>,
    index: usize,
    answer: &Answer,
    text: &[u8],
) -> Option<Finding>
    requires text { text.now ≡ text_of 0 answer.now }
    ensures finding { result ≡ finding_of plan.now index answer.now }
{
    let expects = plan.expects.get(index)?;
    if expects.takes(answer, text) {
        return None;
    }
    Some(finding_where(expects))
}

/// What is wrong with an answer that is not expected.
fn finding_where(expects: &Expects) -> Finding
    ensures { result ≡ finding_where expects.now }
{
    match expects {
        Expects::Texts(_) => Finding::Unexpected,
        _ => Finding::Refused,
    }
}
