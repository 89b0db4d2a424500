//! `Tour`: the visits of one level's states, one after another. At each state it lists what happens there, and keeps the states that
//! the next lines of clients lead to. If the `Chooser` finds clients that are enough at a state, only these go there, and otherwise
//! all that may go. A schedule ends at an answer that isn't expected, so no state behind it is kept. A `Search` has one tour, whose memory
//! each level uses again.
ghost use Rattle.std.specs.Prelude.{◌≡◌, ◌+◌, ◌≤◌, ℕ, true, false, List, All, length, None, Some, IfOk, OnOk};
ghost use Rattle.command_core.specs.declared.command.Command.{Command};
ghost use Rattle.desk_core.specs.theorem.Desk.{HasHistory};
ghost use Rattle.explore_core.specs.Found.{Lists, stuck_of};
ghost use Rattle.explore_core.specs.Choice.{choice_of};
ghost use Rattle.explore_core.specs.Expects.{is_expected};
ghost use Rattle.explore_core.specs.Levels.{IsLeft, IsVisited};
ghost use Rattle.explore_core.specs.Schedule.{GoesOn, IsStuck, MayGo, after_one, next_line};
ghost use Rattle.explore_core.specs.Search.{Grows, Extends, HasLike, IsState, IsSeen, IsAt, IsOnward, IsVisitOf, IsFollowed, IsTried, AreTried, HasEnds, EndsAre, AreEndsListed, Answers, standing_after, standing_at, states_of, IsEmptyFound, counted, is_alone, together};
ghost use Rattle.explore_core.specs.Tour.{Advances, IsSetup};

use crate::block::{is_in_block, may_go};
use crate::choice::Choice;
use crate::found::{Found, Given};
use crate::level::{Level, Stop};
use crate::list::shown;
use crate::listing::record;
use crate::plan::{Plan, Step};
use crate::position::{Position, line_at, make};
use crate::progress::place_of;
use crate::races::list_races;
use crate::setup::Setup;
use crate::state::State;
use crate::visit::Visit;
use command_core::Answer;
use std::alloc::{AllocError, Global};
use std::mem::replace;

/// What is found so far, the desk that goes from state to state, and the next level.
#[derive(Drop)]
pub(crate) struct Tour {
    pub(crate) found: Found,
    choice: Choice,
    visit: Visit,
    next: Level,
}

/// The combined outcome of letting some clients try their next lines.
#[derive(Clone, Copy)]
enum Move {
    /// All are done.
    Done,
    /// No client can make its next line, and one of them waits.
    Waits,
    /// One of them makes its line.
    Goes,
    /// The client makes its line, and no other goes after it: the client is inside a block then, or the schedule ends there.
    Alone,
}

impl Tour {
    /// Before the first level: nothing is found.
    pub(crate) fn new(alloc: Global) -> Tour
        ensures empty { IsEmptyFound result.found }
        ensures unfinished { result.found.covered ≡ false }
    {
        Tour {
            found: Found::none(alloc),
            choice: Choice::new(alloc),
            visit: Visit::new(alloc),
            next: Level::new(alloc, 0),
        }
    }

    pub(crate) fn into_found(self) -> Found
        ensures found { result ≡ self.found }
    {
        let Tour { found, .. } = self;
        found
    }

    /// Visits the states of a level, and gives the states that they lead to.
    pub(crate) fn visit_level(
        &mut self,
        setup: &Setup<'_>,
        states: &[State],
        bound: usize,
    ) -> Result<Vec<State>, Stop>
        requires setup { IsSetup setup.now }
        requires states { All (IsState setup.now.plan.now setup.now.depth) states.now }
        requires within { self.old.found.states + length states.now ≤ bound }
        ensures grows { Grows setup.now.plan.now setup.now.depth (counted self.old.found (length states.now)) self.new.found }
        ensures next { IfOk result (λ next. All (IsState setup.now.plan.now (setup.now.depth + 1)) next.items) }
        ensures visited { IfOk result (λ next. All (IsVisited setup.now.plan.now self.new.found next.items) states.now) }
        ensures within { IfOk result (λ next. self.new.found.states + length next.items ≤ bound) }
    {
        let room = count(&mut self.found, states.len(), bound);
        self.next = Level::new(setup.alloc, room);
        self.visit_all(setup, states)?;
        let next = replace(&mut self.next, Level::new(setup.alloc, 0));
        Ok(next.into_states())
    }

    /// Visits each state of a level, and keeps the states of the next.
    fn visit_all(&mut self, setup: &Setup<'_>, states: &[State]) -> Result<(), Stop>
        requires setup { IsSetup setup.now }
        requires states { All (IsState setup.now.plan.now setup.now.depth) states.now }
        requires next { All (IsSeen setup.now.plan.now (setup.now.depth + 1)) self.old.next.seen }
        ensures advances { Advances setup.now.plan.now setup.now.depth self.old self.new }
        ensures visited { OnOk result (All (IsVisited setup.now.plan.now self.new.found (states_of self.new.next.seen)) states.now) }
    {
        for state in states {
            self.visit_state(setup, state)?;
        }
        Ok(())
    }

    /// Lists the races at the state, and what the next lines of clients give there, and keeps the states after them.
    fn visit_state(&mut self, setup: &Setup<'_>, state: &State) -> Result<(), Stop>
        requires setup { IsSetup setup.now }
        requires state { IsState setup.now.plan.now setup.now.depth state.now }
        requires next { All (IsSeen setup.now.plan.now (setup.now.depth + 1)) self.old.next.seen }
        ensures advances { Advances setup.now.plan.now setup.now.depth self.old self.new }
        ensures visited { OnOk result (IsVisited setup.now.plan.now self.new.found (states_of self.new.next.seen) state.now) }
    {
        list_races(setup.plan, setup.depth, state, &mut self.found)?;
        self.follow_enough(setup, state)?;
        Ok(())
    }

    /// Enough clients make their next lines at the state: those that the chooser chooses, or all.
    fn follow_enough(&mut self, setup: &Setup<'_>, state: &State) -> Result<(), Stop>
        requires setup { IsSetup setup.now }
        requires state { IsState setup.now.plan.now setup.now.depth state.now }
        requires next { All (IsSeen setup.now.plan.now (setup.now.depth + 1)) self.old.next.seen }
        ensures advances { Advances setup.now.plan.now setup.now.depth self.old self.new }
        ensures left { OnOk result (IsLeft setup.now.plan.now self.new.found (states_of self.new.next.seen) state.now) }
    {
        self.visit.leave();
        self.visit.come_back(setup.plan, state.schedule.as_slice())?;
        let is_enough = setup.chooser.choose(
            setup.alloc,
            setup.plan,
            setup.asked.as_slice(),
            &self.visit.position,
            &mut self.choice,
        )?;
        if !is_enough {
            return self.follow_all(setup, state);
        }
        if self.follow_chosen(setup, state)? {
            return Ok(());
        }
        self.follow_all(setup, state)
    }

    /// The chosen clients make their next lines at the state, if they can. Whether others may go after each of them: if not, the choice
    /// isn't enough.
    fn follow_chosen(&mut self, setup: &Setup<'_>, state: &State) -> Result<bool, Stop>
        requires setup { IsSetup setup.now }
        requires state { IsState setup.now.plan.now setup.now.depth state.now }
        requires at { IsVisitOf self.old.visit (standing_at setup.now.plan.now state.now) }
        requires next { All (IsSeen setup.now.plan.now (setup.now.depth + 1)) self.old.next.seen }
        ensures advances { Advances setup.now.plan.now setup.now.depth self.old self.new }
        ensures followed { IfOk result (λ enough. enough ≡ true → (client : ℕ) → (choice_of self.old.choice).chosen client ≡ true →
            IsFollowed setup.now.plan.now self.new.found (states_of self.new.next.seen) (standing_at setup.now.plan.now state.now) client) }
        ensures onward { IfOk result (λ enough. enough ≡ true → (client : ℕ) → (choice_of self.old.choice).chosen client ≡ true →
            IsOnward setup.now.plan.now (standing_at setup.now.plan.now state.now) client) }
        ensures at { OnOk result (IsVisitOf self.new.visit (standing_at setup.now.plan.now state.now)) }
    {
        let plan = setup.plan;
        for client in 0..plan.clients.len() {
            if self.choice.is_chosen(client) {
                let turn = self.try_client(setup, state, client)?;
                if is_alone(turn) {
                    return Ok(false);
                }
            }
        }
        Ok(true)
    }

    /// Each client that may go makes its next line at the state. If none can, the state is stuck, or the commands at the end are made.
    fn follow_all(&mut self, setup: &Setup<'_>, state: &State) -> Result<(), Stop>
        requires setup { IsSetup setup.now }
        requires state { IsState setup.now.plan.now setup.now.depth state.now }
        requires at { IsVisitOf self.old.visit (standing_at setup.now.plan.now state.now) }
        requires next { All (IsSeen setup.now.plan.now (setup.now.depth + 1)) self.old.next.seen }
        ensures advances { Advances setup.now.plan.now setup.now.depth self.old self.new }
        ensures left { OnOk result (IsLeft setup.now.plan.now self.new.found (states_of self.new.next.seen) state.now) }
    {
        match self.try_each(setup, state)? {
            Move::Goes => Ok(()),
            Move::Alone => Ok(()),
            Move::Waits => {
                self.show_stuck(setup, state)?;
                Ok(())
            }
            Move::Done => {
                self.make_last(setup, state)?;
                Ok(())
            }
        }
    }

    /// Each client makes its next line on a visit of the state, if it may go and can.
    fn try_each(&mut self, setup: &Setup<'_>, state: &State) -> Result<Move, Stop>
        requires setup { IsSetup setup.now }
        requires state { IsState setup.now.plan.now setup.now.depth state.now }
        requires at { IsVisitOf self.old.visit (standing_at setup.now.plan.now state.now) }
        requires next { All (IsSeen setup.now.plan.now (setup.now.depth + 1)) self.old.next.seen }
        ensures advances { Advances setup.now.plan.now setup.now.depth self.old self.new }
        ensures tried { IfOk result (λ moves. AreTried setup.now.plan.now self.new.found
            (states_of self.new.next.seen) state.now (length setup.now.plan.now.clients) moves) }
    {
        let plan = setup.plan;
        let mut moves = Move::Done;
        for client in 0..plan.clients.len() {
            let one = self.try_client(setup, state, client)?;
            moves = together(moves, one);
        }
        Ok(moves)
    }

    /// The client makes its next line at the state, if it may go and can. The answer is listed, and the state after the line is kept.
    fn try_client(&mut self, setup: &Setup<'_>, state: &State, client: usize) -> Result<Move, Stop>
        requires setup { IsSetup setup.now }
        requires state { IsState setup.now.plan.now setup.now.depth state.now }
        requires at { IsVisitOf self.old.visit (standing_at setup.now.plan.now state.now) }
        requires next { All (IsSeen setup.now.plan.now (setup.now.depth + 1)) self.old.next.seen }
        ensures advances { Advances setup.now.plan.now setup.now.depth self.old self.new }
        ensures tried { IfOk result
            (λ move. IsTried setup.now.plan.now self.new.found (states_of self.new.next.seen) state.now client move) }
        ensures at { OnOk result (IsVisitOf self.new.visit (standing_at setup.now.plan.now state.now)) }
        ensures choice { self.new.choice ≡ self.old.choice }
    {
        let place = place_of(state.made.as_slice(), client);
        let Some(step) = line_at(setup.plan, client, place) else {
            return Ok(Move::Done);
        };
        if !may_go(setup.plan, state.made.as_slice(), client) {
            return Ok(Move::Waits);
        }
        self.visit.come_back(setup.plan, state.schedule.as_slice())?;
        let made = self.visit.position.go(client, place, step)?;
        let Some(answer) = made else {
            return Ok(Move::Waits);
        };
        self.visit.note(&step.command, &answer);
        let goes = self.follow_line(setup, state, client, place, step, answer)?;
        // If the line has changed nothing, the desk is at the state again.
        self.visit.position.count_to(client, place);
        Ok(goes)
    }

    /// The client has made its line at the state, and got this answer, which is listed. The state after the line, where the desk is, is
    /// kept if a schedule goes on there.
    fn follow_line(
        &mut self,
        setup: &Setup<'_>,
        state: &State,
        client: usize,
        place: usize,
        step: &Step,
        answer: Answer,
    ) -> Result<Move, Stop>
        requires setup { IsSetup setup.now }
        requires state { IsState setup.now.plan.now setup.now.depth state.now }
        requires next { All (IsSeen setup.now.plan.now (setup.now.depth + 1)) self.old.next.seen }
        requires may { MayGo setup.now.plan.now (standing_at setup.now.plan.now state.now).made client }
        requires line { next_line setup.now.plan.now (standing_at setup.now.plan.now state.now) client ≡ Some step.now }
        requires answers { Answers setup.now.plan.now (standing_at setup.now.plan.now state.now) client place answer }
        requires at { IsAt self.old.visit.position
            (standing_after setup.now.plan.now (standing_at setup.now.plan.now state.now) client) }
        ensures advances { Advances setup.now.plan.now setup.now.depth self.old self.new }
        ensures tried { IfOk result
            (λ move. IsTried setup.now.plan.now self.new.found (states_of self.new.next.seen) state.now client move) }
        ensures visit { self.new.visit ≡ self.old.visit }
        ensures choice { self.new.choice ≡ self.old.choice }
    {
        if !self.list_answer(setup, state, client, place, step, answer)? {
            return Ok(Move::Alone);
        }
        self.keep_after(setup, state, client)?;
        if is_in_block(setup.plan, self.visit.position.made.as_slice(), client) {
            return Ok(Move::Alone);
        }
        Ok(Move::Goes)
    }

    /// Lists the answer that the client's line got at the state. Whether it is expected.
    fn list_answer(
        &mut self,
        setup: &Setup<'_>,
        state: &State,
        client: usize,
        place: usize,
        step: &Step,
        answer: Answer,
    ) -> Result<bool, AllocError>
        requires state { IsState setup.now.plan.now setup.now.depth state.now }
        requires may { MayGo setup.now.plan.now (standing_at setup.now.plan.now state.now).made client }
        requires answers { Answers setup.now.plan.now (standing_at setup.now.plan.now state.now) client place answer }
        ensures grows { Grows setup.now.plan.now setup.now.depth self.old.found self.new.found }
        ensures lists { OnOk result (Lists self.new.found.given.items client place answer) }
        ensures expected { IfOk result (λ yes. yes ≡ is_expected answer step.now.expects) }
        ensures next { self.new.next ≡ self.old.next }
        ensures visit { self.new.visit ≡ self.old.visit }
        ensures choice { self.new.choice ≡ self.old.choice }
    {
        let Ok(is_expected) = step.expects.include(setup.alloc, &answer) else {
            drop(answer);
            return Err(AllocError);
        };
        let schedule = state.schedule.as_slice();
        record(&mut self.found.given, client, place, answer, schedule)?;
        Ok(is_expected)
    }

    /// Keeps the state after the client's line, where the desk is.
    fn keep_after(&mut self, setup: &Setup<'_>, state: &State, client: usize) -> Result<(), Stop>
        requires setup { IsSetup setup.now }
        requires state { IsState setup.now.plan.now setup.now.depth state.now }
        requires next { All (IsSeen setup.now.plan.now (setup.now.depth + 1)) self.old.next.seen }
        requires on { GoesOn setup.now.plan.now (standing_at setup.now.plan.now state.now) client }
        requires goes { after_one setup.now.plan.now (standing_at setup.now.plan.now state.now) client
            ≡ Some (standing_after setup.now.plan.now (standing_at setup.now.plan.now state.now) client) }
        requires at { IsAt self.old.visit.position
            (standing_after setup.now.plan.now (standing_at setup.now.plan.now state.now) client) }
        ensures found { self.new.found ≡ self.old.found }
        ensures extends { Extends setup.now.plan.now (setup.now.depth + 1) self.old.next self.new.next }
        ensures kept { OnOk result (HasLike setup.now.plan.now (states_of self.new.next.seen)
            (standing_after setup.now.plan.now (standing_at setup.now.plan.now state.now) client)) }
        ensures visit { self.new.visit ≡ self.old.visit }
        ensures choice { self.new.choice ≡ self.old.choice }
    {
        let schedule = state.schedule.as_slice();
        let position = &self.visit.position;
        let later = State::after(setup.alloc, schedule, client, position.made.as_slice())?;
        let asked = setup.asked.as_slice();
        self.next.keep(setup.alloc, asked, later, &position.desk)?;
        Ok(())
    }

    /// Shows the schedule, which gets stuck, unless a schedule is shown already.
    fn show_stuck(&mut self, setup: &Setup<'_>, state: &State) -> Result<(), AllocError>
        requires state { IsState setup.now.plan.now setup.now.depth state.now }
        requires stuck { IsStuck setup.now.plan.now (standing_at setup.now.plan.now state.now) }
        ensures advances { Advances setup.now.plan.now setup.now.depth self.old self.new }
        ensures shown { OnOk result ((shown : List ℕ) × (stuck_of self.new.found ≡ Some shown)) }
    {
        if self.found.stuck.is_some() {
            return Ok(());
        }
        let schedule = shown(setup.alloc, state.schedule.as_slice())?;
        self.found.stuck = Some(schedule);
        Ok(())
    }

    /// Makes the commands at the end, and lists their answers.
    fn make_last(&mut self, setup: &Setup<'_>, state: &State) -> Result<(), AllocError>
        requires state { IsState setup.now.plan.now setup.now.depth state.now }
        requires done { (client : ℕ) → next_line setup.now.plan.now (standing_at setup.now.plan.now state.now) client ≡ None }
        ensures advances { Advances setup.now.plan.now setup.now.depth self.old self.new }
        ensures ended { OnOk result (HasEnds setup.now.plan.now self.new.found (standing_at setup.now.plan.now state.now)) }
    {
        let schedule = state.schedule.as_slice();
        let position = &mut self.visit.position;
        position.restart(setup.plan, schedule)?;
        answer_last(setup.plan, schedule, position, &mut self.found.ended)?;
        Ok(())
    }
}

/// Counts the states as visited, and returns how many more there may be.
fn count(found: &mut Found, states: usize, bound: usize) -> usize
    requires within { found.old.states + states ≤ bound }
    ensures counted { found.new ≡ counted found.old states }
    ensures room { found.new.states + result ≡ bound }
{
    found.states += states;
    bound - found.states
}

fn together(some: Move, one: Move) -> Move
    ensures { result ≡ together some one }
{
    match some {
        Move::Goes => Move::Goes,
        Move::Alone => Move::Goes,
        Move::Waits => match one {
            Move::Goes => Move::Goes,
            Move::Alone => Move::Goes,
            _ => Move::Waits,
        },
        Move::Done => one,
    }
}

/// Whether no other client goes after the client.
fn is_alone(one: Move) -> bool
    ensures { result ≡ is_alone one }
{
    match one {
        Move::Alone => true,
        _ => false,
    }
}

fn answer_last(
    plan: &Plan,
    schedule: &[u16],
    position: &mut Position,
    ended: &mut Vec<Given>,
) -> Result<(), AllocError>
    ensures records { (history : List Command) → HasHistory position.old.desk history →
        EndsAre plan.now history schedule.now ended.old.items ended.new.items }
    ensures lists { OnOk result ((history : List Command) → HasHistory position.old.desk history →
        AreEndsListed plan.now history ended.new.items (length plan.now.last)) }
{
    let commands = plan.last.as_slice();
    for (place, command) in commands.iter().enumerate() {
        let answer = make(&mut position.desk, *command)?;
        record(ended, plan.clients.len(), place, answer, schedule)?;
    }
    Ok(())
}
