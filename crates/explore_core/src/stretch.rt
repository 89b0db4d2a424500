//! `Stretch`: a part of a schedule in which the clients go in the order of their lines' turns. It goes through the schedule from the first
//! line on. Some of the lines in it weren't in the schedule. Where a line can't go ahead of the rest, its client is held, and the next in
//! turn may go. `nearing.rt` has one for each schedule.
//!
//! What it holds depends on nothing but which tries were better, and no contract depends on it.
ghost use Rattle.std.specs.Prelude.{OnOk};
ghost use Rattle.explore_core.specs.Shortening.{HasRun, IsBetter};

use crate::best::{Best, Purpose};
use crate::plan::Plan;
use crate::progress::{clear_made, count_to, place_of};
use crate::rerun::Rerun;
use crate::turns::first_in_turn;
use std::alloc::{AllocError, Global};

#[derive(Drop)]
pub(crate) struct Stretch {
    /// How many clients go before it, as in the schedule.
    kept: usize,
    /// How many lines go in turn.
    count: usize,
    /// The clients that let others go first.
    held: Vec<usize>,
    /// How many lines of the rest of the schedule each client has made in turn.
    ahead: Vec<usize>,
}

impl Stretch {
    pub(crate) fn new(alloc: Global) -> Stretch {
        Stretch {
            kept: 0,
            count: 1,
            held: Vec::new(alloc),
            ahead: Vec::new(alloc),
        }
    }

    /// Tries the stretch, and moves on to the next: a longer one behind it, or a shorter one here if it wasn't better. Whether there is
    /// a next.
    pub(crate) fn advance(
        &mut self,
        plan: &Plan,
        purpose: &Purpose<'_>,
        rerun: &mut Rerun,
        best: &mut Best,
    ) -> Result<bool, AllocError>
        ensures better { IsBetter plan.now purpose.now best.old best.new }
    {
        let went = self.run(plan, rerun, best.schedule.as_slice())?;
        if went == 0 {
            return Ok(self.pass_one(best.schedule.len()));
        }
        let first = rerun.gone.get(self.kept).copied();
        if best.take(plan, purpose, rerun)? {
            self.pass(went);
        } else {
            self.narrow(first)?;
        }
        Ok(true)
    }

    /// The clients go in turn, but for one from this place on; whether that many lines are made.
    pub(crate) fn go_but(
        &mut self,
        plan: &Plan,
        rerun: &mut Rerun,
        client: usize,
        place: usize,
        lines: usize,
    ) -> Result<bool, AllocError>
        ensures run { OnOk result (HasRun plan.now rerun.new) }
    {
        rerun.restart(plan)?;
        for _ in 0..lines {
            self.held.clear();
            if place_of(rerun.position.made.as_slice(), client) >= place {
                self.held.push(client)?;
            }
            if !self.next_goes(plan, rerun)? {
                return Ok(false);
            }
        }
        self.held.clear();
        Ok(true)
    }

    /// The clients go as the schedule says, but for the stretch; how many have gone in turn there.
    fn run(
        &mut self,
        plan: &Plan,
        rerun: &mut Rerun,
        schedule: &[usize],
    ) -> Result<usize, AllocError>
        ensures run { OnOk result (HasRun plan.now rerun.new) }
    {
        clear_made(&mut self.ahead, plan.clients.len())?;
        let kept = self.kept.min(schedule.len());
        rerun.restart(plan)?;
        rerun.follow(plan, &schedule[..kept])?;
        let before = rerun.gone.len();
        self.go_ahead(plan, rerun)?;
        let went = rerun.gone.len().saturating_sub(before);
        self.follow_rest(plan, rerun, &schedule[kept..])?;
        Ok(went)
    }

    fn go_ahead(&mut self, plan: &Plan, rerun: &mut Rerun) -> Result<(), AllocError>
        ensures run { OnOk result (HasRun plan.now rerun.old → HasRun plan.now rerun.new) }
    {
        let held = self.held.len();
        for _ in 0..self.count {
            if !self.next_goes(plan, rerun)? {
                break;
            }
            self.held.truncate(held);
        }
        self.held.truncate(held);
        Ok(())
    }

    /// The first in turn goes that can; whether one does. Those that can't are held.
    fn next_goes(&mut self, plan: &Plan, rerun: &mut Rerun) -> Result<bool, AllocError>
        ensures run { OnOk result (HasRun plan.now rerun.old → HasRun plan.now rerun.new) }
    {
        for _ in 0..plan.clients.len() {
            let made = rerun.position.made.as_slice();
            let Some(client) = first_in_turn(plan, made, self.held.as_slice()) else {
                return Ok(false);
            };
            if rerun.go(plan, client)? {
                self.count_ahead(client);
                return Ok(true);
            }
            self.held.push(client)?;
        }
        Ok(false)
    }

    /// The clients go, but for the lines that they have made ahead.
    fn follow_rest(
        &mut self,
        plan: &Plan,
        rerun: &mut Rerun,
        schedule: &[usize],
    ) -> Result<(), AllocError>
        ensures run { OnOk result (HasRun plan.now rerun.old → HasRun plan.now rerun.new) }
    {
        for client in schedule {
            if self.is_ahead(*client) {
                self.count_back(*client);
                continue;
            }
            rerun.go(plan, *client)?;
        }
        Ok(())
    }

    fn is_ahead(&self, client: usize) -> bool {
        place_of(self.ahead.as_slice(), client) > 0
    }

    fn count_ahead(&mut self, client: usize) {
        let lines = place_of(self.ahead.as_slice(), client);
        count_to(&mut self.ahead, client, lines.saturating_add(1));
    }

    fn count_back(&mut self, client: usize) {
        let lines = place_of(self.ahead.as_slice(), client);
        count_to(&mut self.ahead, client, lines.saturating_sub(1));
    }

    /// The stretch was better: the next one is behind it, and twice as long.
    fn pass(&mut self, went: usize) {
        self.kept = self.kept.saturating_add(went);
        self.count = self.count.saturating_mul(2);
        self.held.clear();
    }

    /// Nobody can go here but as the schedule says; whether the schedule goes on.
    fn pass_one(&mut self, schedule: usize) -> bool {
        if self.kept >= schedule {
            return false;
        }
        self.kept += 1;
        self.count = 1;
        self.held.clear();
        true
    }

    /// The stretch was no better: the next one is shorter, or holds the client that went first.
    fn narrow(&mut self, first: Option<usize>) -> Result<(), AllocError> {
        if self.count > 1 {
            self.count /= 2;
            return Ok(());
        }
        if let Some(client) = first {
            self.held.push(client)?;
        }
        Ok(())
    }
}
