//! `Plan`: the lines of each client, and the commands before and after them. Some lines are in a branch, which the client makes only
//! after one answer to the line above it, and some come after a line of another client. `explore_report` makes a plan from a script, and
//! `explore` decides it.
ghost use Rattle.std.specs.Prelude.{◌≡◌, ◌+◌, Vec, IfOk, OnOk, slice_get};
ghost use Rattle.std.specs.Global.{Global};
ghost use Rattle.std.specs.List.{list_any};
ghost use Rattle.explore_core.specs.declared.plan.Step.{Step as Line};
ghost use Rattle.explore_core.specs.Schedule.{is_due, is_past, is_taken, place_after};
ghost use Rattle.explore_core.specs.Search.{asked_file, asks_for, client_asks, AreAsked, Adds};

use crate::access::Access;
use crate::expects::Expects;
use crate::progress::place_of;
use command_core::{Answer, Command};
use point_core::Name;
use report_core::first_line;
use std::alloc::{AllocError, Global};
use std::marker::Model;

/// A line of a client.
#[derive(Drop)]
pub struct Step {
    pub command: Command,
    /// Whether the client waits with the line until it would be accepted. Any other line is made whatever its answer is.
    pub waits: bool,
    /// The branch that begins directly below the line.
    pub branch: Option<Branch>,
    /// The client doesn't make the line before this is passed.
    pub after: Option<Milestone>,
    /// Whether the line is one step with the client's line above it: no other client goes between them. Such lines are a block. A plan
    /// in which a client waits inside a block is explored without a choice of clients.
    pub joined: bool,
    /// Which answers are expected of the line: a schedule ends at any other, which is listed still.
    pub expects: Expects,
    /// The line's place in the order that shown schedules keep near to, such as that of a recorded run.
    pub turn: usize,
}

/// A line of a client. It is passed once the client has made it, or has skipped it with the branch that it is in.
#[derive(Clone, Copy)]
pub struct Milestone {
    pub client: usize,
    /// The place of the line among the client's lines.
    pub place: usize,
}

/// Lines below a line, which the client makes only if that line got one answer, and else skips.
#[derive(Drop)]
pub struct Branch {
    /// The first line of that answer, with its line feed.
    pub text: Vec<u8>,
    /// The place, among the client's lines, of the first line behind the branch.
    pub otherwise: usize,
}

impl Model for Branch {
    ghost use Rattle.explore_core.specs.Branch.{Branching};

    ghost Value = { Branching };

    ghost view = { λ b. record { text = b.text.items; otherwise = b.otherwise } };
}

/// The commands that come first, the lines of each client, the commands once all clients are done, and what clients access at their
/// lines.
#[derive(Drop)]
pub struct Plan {
    pub first: Vec<Command>,
    pub clients: Vec<Vec<Step>>,
    pub last: Vec<Command>,
    pub accesses: Vec<Access>,
}

impl Model for Plan {
    ghost use Rattle.std.specs.Prelude.{map, Vec};
    ghost use Rattle.std.specs.Global.{Global};
    ghost use Rattle.explore_core.specs.declared.plan.Step.{Step};
    ghost use Rattle.explore_core.specs.Schedule.{Lines};

    ghost Value = { Lines };

    ghost view = { λ p. record {
      first = p.first.items;
      clients = map (λ (steps : Vec Step Global). steps.items) p.clients.items;
      last = p.last.items;
      accesses = p.accesses.items;
    } };
}

impl Step {
    /// Whether the line comes after no milestone, or after a passed one, where each client has made or skipped that many lines.
    pub(crate) fn is_due(&self, made: &[usize]) -> bool
        ensures { result ≡ is_due made.now self.now.after }
    {
        match &self.after {
            Some(milestone) => milestone.is_past(made),
            None => true,
        }
    }

    /// The place of the client's next line, once this line, at that place, has got that answer.
    ///
    /// Fails only at the greatest place, which no line has.
    pub fn place_after(&self, place: usize, answer: &Answer) -> Result<usize, AllocError>
        ensures next { IfOk result (λ next. next ≡ place_after self.now place answer.now) }
    {
        let Some(branch) = &self.branch else {
            return next_place(place);
        };
        if !branch.is_taken(answer) {
            return Ok(branch.otherwise);
        }
        next_place(place)
    }
}

impl Milestone {
    /// Whether it is passed where each client has made or skipped that many lines.
    pub(crate) fn is_past(&self, made: &[usize]) -> bool
        ensures { result ≡ is_past made.now self.now }
    {
        self.place < place_of(made, self.client)
    }
}

impl Branch {
    /// Whether the client makes the lines of the branch after this answer.
    fn is_taken(&self, answer: &Answer) -> bool
        ensures { result ≡ is_taken self.now answer.now }
    {
        first_line(0, answer).as_bytes() == self.text.as_slice()
    }
}

impl Plan {
    /// The access of that index.
    pub(crate) fn access(&self, index: usize) -> Option<Access>
        ensures { result ≡ slice_get self.now.accesses index }
    {
        self.accesses.get(index).copied()
    }

    /// The names of the files for which a line of a client, or a command at the end, asks what they list.
    pub(crate) fn asked_files(&self, alloc: Global) -> Result<Vec<Name>, AllocError>
        ensures asked { IfOk result (λ asked. AreAsked self.now asked.items) }
    {
        let mut asked = Vec::new(alloc);
        add_of_clients(&mut asked, self.clients.as_slice())?;
        add_of_commands(&mut asked, self.last.as_slice())?;
        Ok(asked)
    }
}

/// The place after this one.
pub(crate) fn next_place(place: usize) -> Result<usize, AllocError>
    ensures next { IfOk result (λ next. next ≡ place + 1) }
{
    let Some(next) = place.checked_add(1) else {
        // This can't happen: there are fewer lines than a usize counts.
        return Err(AllocError);
    };
    Ok(next)
}

fn add_of_clients(asked: &mut Vec<Name>, clients: &[Vec<Step>]) -> Result<(), AllocError>
    ensures adds { OnOk result (Adds (λ name. list_any (λ (lines : Vec Line Global). client_asks name lines.items) clients.now)
        asked.old.items asked.new.items) }
{
    for lines in clients {
        add_of_lines(asked, lines.as_slice())?;
    }
    Ok(())
}

fn add_of_lines(asked: &mut Vec<Name>, lines: &[Step]) -> Result<(), AllocError>
    ensures adds { OnOk result (Adds (λ name. client_asks name lines.now) asked.old.items asked.new.items) }
{
    for line in lines {
        add_of(asked, &line.command)?;
    }
    Ok(())
}

fn add_of_commands(asked: &mut Vec<Name>, commands: &[Command]) -> Result<(), AllocError>
    ensures adds { OnOk result (Adds (λ name. list_any (asks_for name) commands.now) asked.old.items asked.new.items) }
{
    for command in commands {
        add_of(asked, command)?;
    }
    Ok(())
}

/// If the command asks what a file lists, adds the name of the file.
fn add_of(asked: &mut Vec<Name>, command: &Command) -> Result<(), AllocError>
    ensures adds { OnOk result (Adds (λ name. asks_for name command.now) asked.old.items asked.new.items) }
{
    let Some(name) = asked_file(command) else {
        return Ok(());
    };
    asked.push(name)?;
    Ok(())
}

fn asked_file(command: &Command) -> Option<Name>
    ensures { result ≡ asked_file command.now }
{
    match command {
        Command::Info(name) => Some(*name),
        _ => None,
    }
}
