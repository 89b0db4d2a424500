//! `Found`: what an exploration of a plan finds. `explore_report` reads it.
ghost use Rattle.std.specs.Prelude.{◌≡◌, false};
ghost use Rattle.explore_core.specs.Search.{IsEmptyFound};

use command_core::Answer;
use std::alloc::Global;

/// An answer that a line gives in some schedule.
#[derive(Drop)]
pub struct Given {
    /// The client whose line it is, or the number of clients for a command at the end.
    pub client: usize,
    /// The index of the line among the client's lines, or of the command among the commands at the end.
    pub place: usize,
    pub answer: Answer,
    /// The clients that go before the line is made, one after another.
    pub schedule: Vec<usize>,
}

/// Two accesses of a plan that are a race after a schedule.
#[derive(Drop)]
pub struct Race {
    /// The index of the access among the plan's accesses.
    pub one: usize,
    /// The index of the other, which is later in the list.
    pub other: usize,
    /// The clients that go before both access the buffer, one after another.
    pub schedule: Vec<usize>,
}

/// What is found of a plan.
#[derive(Drop)]
pub struct Found {
    /// The answers of the clients' lines, each answer of a line once.
    pub given: Vec<Given>,
    /// The answers of the commands at the end, each answer of a command once.
    pub ended: Vec<Given>,
    /// The races of accesses, each two accesses once.
    pub races: Vec<Race>,
    /// A schedule that gets stuck; none gets stuck sooner.
    pub stuck: Option<Vec<usize>>,
    /// How many states were visited: all states of each level that the search has begun.
    pub states: usize,
    /// Whether every schedule was covered.
    pub covered: bool,
    /// Whether the search has stopped since memory was refused, or a plan has more than `SCHEDULED_CLIENTS` clients.
    pub out_of_memory: bool,
}

impl Found {
    pub(crate) fn none(alloc: Global) -> Found
        ensures empty { IsEmptyFound result }
        ensures unfinished { result.covered ≡ false }
    {
        Found {
            given: Vec::new(alloc),
            ended: Vec::new(alloc),
            races: Vec::new(alloc),
            stuck: None,
            states: 0,
            covered: false,
            out_of_memory: false,
        }
    }
}
