//! `Rerun`: the clients of a schedule go again from the beginning of the plan, in another order or not all of them. What can't be made
//! then is left out, and the clients that go are listed: what happens where they come to is shown after this list.
//!
//! Each function that lets clients go keeps `HasRun`. `Best` takes the schedule of a run if it is better.
ghost use Rattle.std.specs.Prelude.{◌≡◌, ◌+◌, true, false, not, IfOk, OnOk};
ghost use Rattle.explore_core.specs.declared.rerun.Turn.TheVariants.{Goes, Stays};
ghost use Rattle.explore_core.specs.Schedule.{Standing, next_line};
ghost use Rattle.explore_core.specs.Search.{IsAt};
ghost use Rattle.explore_core.specs.Shortening.{GoesTo, HasRun, IsShownAfter, StaysAt, cost_of, overtaken, overtaken_by_line, through};

use crate::best::{Aim, Purpose};
use crate::block::may_go;
use crate::plan::Plan;
use crate::position::{Position, line_at};
use crate::progress::place_of;
use crate::shown::{Shown, happens};
use crate::turns::{overtaken_by, sum};
use std::alloc::{AllocError, Global};

#[derive(Drop)]
pub(crate) struct Rerun {
    pub(crate) position: Position,
    /// The clients that have gone, one after another.
    pub(crate) gone: Vec<usize>,
    /// How many lines theirs have overtaken.
    overtaken: usize,
    /// Whether a client has made a line after which no schedule goes on. It isn't listed.
    has_ended: bool,
}

/// What a client does whose turn it is.
#[derive(Clone, Copy)]
pub(crate) enum Turn {
    /// It makes its next line.
    Goes,
    /// It makes none.
    Stays,
    /// It makes a line after which no schedule goes on.
    Ends,
}

impl Rerun {
    pub(crate) fn new(alloc: Global) -> Rerun {
        Rerun {
            position: Position::new(alloc),
            gone: Vec::new(alloc),
            overtaken: 0,
            has_ended: false,
        }
    }

    /// Goes back to the beginning of the plan.
    pub(crate) fn restart(&mut self, plan: &Plan) -> Result<(), AllocError>
        ensures run { OnOk result (HasRun plan.now self.new) }
    {
        self.gone.clear();
        self.overtaken = 0;
        self.has_ended = false;
        self.position.restart(plan, &[])?;
        Ok(())
    }

    /// The clients go one after another, but for those that can't.
    pub(crate) fn follow(&mut self, plan: &Plan, schedule: &[usize]) -> Result<(), AllocError>
        ensures run { OnOk result (HasRun plan.now self.old → HasRun plan.now self.new) }
    {
        for client in schedule {
            self.go(plan, *client)?;
        }
        Ok(())
    }

    /// The clients go one after another, but for those that can't, and for one from this place on.
    pub(crate) fn follow_but(
        &mut self,
        plan: &Plan,
        schedule: &[usize],
        stopped: usize,
        place: usize,
    ) -> Result<(), AllocError>
        ensures run { OnOk result (HasRun plan.now self.old → HasRun plan.now self.new) }
    {
        for client in schedule {
            if *client == stopped && place_of(self.position.made.as_slice(), *client) >= place {
                continue;
            }
            self.go(plan, *client)?;
        }
        Ok(())
    }

    /// The client makes its next line, if it can; whether it does.
    pub(crate) fn go(&mut self, plan: &Plan, client: usize) -> Result<bool, AllocError>
        ensures run { OnOk result (HasRun plan.now self.old → HasRun plan.now self.new) }
    {
        if self.has_ended {
            return Ok(false);
        }
        let overtaken = self.overtaken_with(plan, client)?;
        match make_next(plan, &mut self.position, client)? {
            Turn::Stays => return Ok(false),
            Turn::Ends => {
                self.has_ended = true;
                return Ok(false);
            }
            Turn::Goes => {}
        }
        self.gone.push(client)?;
        self.overtaken = overtaken;
        Ok(true)
    }

    /// Whether the clients have come where a schedule goes on from.
    pub(crate) fn goes_on(&self) -> bool
        ensures { result ≡ not self.now.has_ended }
    {
        !self.has_ended
    }

    /// How many lines have been overtaken once the client makes its next line too.
    fn overtaken_with(&self, plan: &Plan, client: usize) -> Result<usize, AllocError>
        ensures with { IfOk result (λ overtaken. (now : Standing) → IsAt self.now.position now →
            overtaken ≡ self.now.overtaken + overtaken_by_line plan.now now (next_line plan.now now client)) }
    {
        let made = self.position.made.as_slice();
        let Some(step) = line_at(plan, client, place_of(made, client)) else {
            return Ok(self.overtaken);
        };
        let more = overtaken_by(plan, made, step.turn)?;
        sum(self.overtaken, more)
    }

    /// What the schedule costs by which the clients have come here.
    pub(crate) fn cost(&self, plan: &Plan, purpose: &Purpose<'_>) -> Result<usize, AllocError>
        ensures cost { IfOk result (λ cost. HasRun plan.now self.now → self.now.has_ended ≡ false →
            cost ≡ cost_of plan.now purpose.now self.now.gone.items) }
    {
        match purpose.aim {
            Aim::Few => Ok(self.gone.len()),
            Aim::Near => self.overtaken_through(plan, &purpose.shown),
        }
    }

    /// How many lines are overtaken, also by the line whose answer is shown.
    fn overtaken_through(&self, plan: &Plan, shown: &Shown<'_>) -> Result<usize, AllocError>
        ensures through { IfOk result (λ n. HasRun plan.now self.now → self.now.has_ended ≡ false →
            n ≡ overtaken plan.now (through shown.now self.now.gone.items)) }
    {
        match shown {
            Shown::Answer(client, _, _) => self.overtaken_with(plan, *client),
            Shown::Race(_, _) => Ok(self.overtaken),
            Shown::Stuck => Ok(self.overtaken),
        }
    }

    /// Whether it happens where the clients have come to. A line whose answer it is, is made.
    pub(crate) fn shows(&mut self, plan: &Plan, shown: &Shown<'_>) -> Result<bool, AllocError>
        ensures shows { IfOk result (λ yes. yes ≡ true → HasRun plan.now self.old → self.old.has_ended ≡ false →
            IsShownAfter plan.now shown.now self.old.gone.items) }
        ensures gone { self.new.gone ≡ self.old.gone }
    {
        happens(plan, shown, &mut self.position)
    }
}

/// The client makes its next line, if it may and can.
pub(crate) fn make_next(
    plan: &Plan,
    position: &mut Position,
    client: usize,
) -> Result<Turn, AllocError>
    ensures goes { IfOk result (λ turn. turn ≡ Goes → (now : Standing) →
        IsAt position.old now → GoesTo plan.now now client position.new) }
    ensures stays { IfOk result (λ turn. turn ≡ Stays → (now : Standing) →
        IsAt position.old now → StaysAt plan.now now client position.new) }
{
    let made = position.made.as_slice();
    if !may_go(plan, made, client) {
        return Ok(Turn::Stays);
    }
    let place = place_of(made, client);
    let Some(step) = line_at(plan, client, place) else {
        return Ok(Turn::Stays);
    };
    let Some(answer) = position.go(client, place, step)? else {
        return Ok(Turn::Stays);
    };
    let is_expected = step.expects.include(*position.made.allocator(), &answer);
    drop(answer);
    if is_expected? {
        return Ok(Turn::Goes);
    }
    Ok(Turn::Ends)
}
