//! `Service`: a desk with a queue of fired cookies, which always has room for every pending watch.
ghost use Rattle.std.specs.Prelude.{◌≡◌, ◌≤◌, ◌+◌, [], ◌++◌, length, drop, min, IsOk, IfOk, IfErr, OnOk};
ghost use Rattle.std.specs.VecDeque.{deque_len, deque_capacity};
ghost use Rattle.command_core.specs.declared.command.Command.{Command};
ghost use Rattle.command_core.specs.declared.answer.Answer.TheVariants as answer;
ghost use Rattle.desk_core.specs.theorem.Desk.{Answers, HasHistory};
ghost use Rattle.fence_core.specs.declared.watches.TheConstants.{WATCHES};
ghost use Rattle.c_handle.specs.Rows.{over};
ghost use Rattle.c_desk.specs.Service.{IsStep, cookies_of, IsReadyFor};

use command_core::{Answer, Command};
use desk_core::Desk;
use fence_core::WATCHES;
use point_core::Refusal;
use std::alloc::Global;
use std::collections::VecDeque;
use std::marker::Model;

/// A desk, and the cookies of its fired watches until they are taken. The queue has room for each pending watch, so a
/// watch that fires does not allocate.
#[derive(Drop)]
pub struct Service {
    desk: Desk,
    fired: VecDeque<u64>,
}

impl Model for Service {
    ghost use Rattle.std.specs.VecDeque.{deque_len, deque_capacity};
    ghost use Rattle.c_desk.specs.Service.{ServiceState, HasRoom};

    ghost Value = { ServiceState };

    ghost view = { λ s. record { desk = s.desk; fired = s.fired.items } };

    ghost invariant = { λ s. HasRoom s.desk (deque_len s.fired) (deque_capacity s.fired) };
}

impl Service {
    /// An empty desk. Never refused, since it does not allocate.
    pub fn new(alloc: Global) -> Result<Service, Refusal>
        ensures taken { IsOk result }
        ensures empty { IfOk result (λ service. HasHistory service.desk [] × (service.fired ≡ [])) }
    {
        Ok(Service {
            desk: Desk::new(alloc)?,
            fired: VecDeque::new(alloc),
        })
    }

    /// The answer of one command, as `Desk::step`. The cookies that it fires are queued.
    #[inline(always)]
    pub fn step(&mut self, command: Command) -> Answer
        ensures { IsStep self.old self.new command result }
    {
        if let Err(refusal) = reserve(&mut self.fired, &self.desk, &command) {
            return Answer::Refused(refusal);
        }
        let answer = self.desk.step(command);
        keep(&mut self.fired, &answer);
        answer
    }

    /// Takes cookies that fired, in order, as many as there is room for, and returns how many.
    pub fn take(&mut self, cookies: &mut [u64]) -> usize
        ensures count { result ≡ min (length cookies.old) (length self.old.fired) }
        ensures taken { cookies.new ≡ over self.old.fired cookies.old }
        ensures left { self.new.fired ≡ drop result self.old.fired }
        ensures desk { self.new.desk ≡ self.old.desk }
    {
        take(&mut self.fired, cookies)
    }
}

/// Makes room for all watches that can be pending, if the command registers one.
///
/// Fails with the desk's own cause to refuse the watch, and without one with `Memory`.
#[inline(always)]
fn reserve(fired: &mut VecDeque<u64>, desk: &Desk, command: &Command) -> Result<(), Refusal>
    ensures items { fired.new.items ≡ fired.old.items }
    ensures len { deque_len fired.new ≡ deque_len fired.old }
    ensures capacity { deque_capacity fired.old ≤ deque_capacity fired.new }
    ensures ready { OnOk result (IsReadyFor command.now (deque_len fired.new) (deque_capacity fired.new)) }
    ensures refused { IfErr result (λ e. Answers desk.now command.now (answer.Refused e)) }
{
    if let Command::Watch(file, cookie) = command
        && fired.reserve(WATCHES).is_err()
    {
        return Err(desk.watch_refusal(file, *cookie));
    }
    Ok(())
}

/// Queues the cookies that the answer fired.
#[inline(always)]
fn keep(fired: &mut VecDeque<u64>, answer: &Answer)
    requires room { deque_len fired.old + length (cookies_of answer.now) ≤ deque_capacity fired.old }
    ensures items { fired.new.items ≡ fired.old.items ++ cookies_of answer.now }
    ensures len { deque_len fired.new ≡ deque_len fired.old + length (cookies_of answer.now) }
    ensures capacity { deque_capacity fired.new ≡ deque_capacity fired.old }
{
    if let Answer::Raised(_, cookies) = answer {
        push_all(fired, cookies.as_slice());
    }
}

fn push_all(fired: &mut VecDeque<u64>, cookies: &[u64])
    requires room { deque_len fired.old + length cookies.now ≤ deque_capacity fired.old }
    ensures items { fired.new.items ≡ fired.old.items ++ cookies.now }
    ensures len { deque_len fired.new ≡ deque_len fired.old + length cookies.now }
    ensures capacity { deque_capacity fired.new ≡ deque_capacity fired.old }
{
    for cookie in cookies {
        fired.push_back_reserved(*cookie);
    }
}

fn take(fired: &mut VecDeque<u64>, cookies: &mut [u64]) -> usize
    ensures count { result ≡ min (length cookies.old) (length fired.old.items) }
    ensures taken { cookies.new ≡ over fired.old.items cookies.old }
    ensures left { fired.new.items ≡ drop result fired.old.items }
    ensures len { deque_len fired.new ≤ deque_len fired.old }
    ensures capacity { deque_capacity fired.new ≡ deque_capacity fired.old }
{
    let count = cookies.len().min(fired.len());
    for index in 0..count {
        cookies[index] = fired.pop_front().unwrap();
    }
    count
}
