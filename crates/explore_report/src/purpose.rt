//! `Purpose`: what a plan is explored for. `PlanScript::read` makes the plan for it, and a report says what was covered by it.

/// What a plan is explored for.
#[derive(Clone, Copy)]
pub enum Purpose {
    /// To decide the plan: a schedule goes on after any answer, and short schedules are shown.
    Decide,
    /// To predict what a recorded program can do: a schedule ends at its first wrong answer, and schedules near to the order of the plan's
    /// lines are shown, since a program can be made to follow these.
    Predict,
}

impl Purpose {
    pub(crate) fn is_predict(self) -> bool {
        matches!(self, Purpose::Predict)
    }
}
