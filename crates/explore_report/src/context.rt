//! `Context`: the section of a plan's line, what is directly above the line, in how many branches and in which `#atomic` the line is,
//! and what notes say of it. `row.rt` carries it from line to line, `mistake.rt` judges lines by it, and `sections.rt` makes the plan's
//! lines of it.
ghost use Rattle.std.specs.Prelude.{◌≡◌};
ghost use Rattle.explore_report.specs.Context.{with_note, after, begun, below, branched, continued, enclosed, ended, is_continued, is_enclosed, is_innermost, is_inside, is_same, next_client, noted, one_more, start};

use crate::cause::{PLAN_CLIENTS, PLAN_LINES};
use crate::mark::Mark;
use point_core::Name;

/// A part of a plan.
#[derive(Clone, Copy)]
pub enum Section {
    /// What is done first.
    First,
    /// The lines of a client, by its number from 0.
    Client(usize),
    /// What is done once all clients are done.
    Last,
}

/// What is directly above a line in its section. Notes to the reader do not count, and of the notes on the line `#await` and `#once`
/// count first.
#[derive(Clone, Copy)]
pub enum Above {
    Nothing,
    /// A command, or a note that expects its answer.
    Command,
    /// `#await`.
    Await,
    /// `#once`.
    Once,
    /// `#mark`, `#after` or `#turn`.
    Note,
    /// `#if`.
    If,
}

/// Where a line is in an `#atomic`, which has this many open `#if` around it.
#[derive(Clone, Copy)]
pub enum Atomic {
    /// In none.
    Outside,
    /// No line of it is above.
    Begins(usize),
    /// It is one step with the lines of it above.
    Continues(usize),
}

/// The section of a line, what is directly above it, in how many branches and in which `#atomic` it is, and what notes directly above
/// say of it.
#[derive(Clone, Copy)]
pub struct Context {
    pub section: Section,
    pub above: Above,
    /// How many `#if` of its section are above the line whose `#end` is not.
    pub depth: usize,
    /// The mark that an `#after` names.
    pub follows: Option<Name>,
    /// The number of a `#turn`.
    pub turn: Option<usize>,
    pub atomic: Atomic,
}

impl Context {
    /// The beginning of a plan.
    pub(crate) fn start() -> Context
        ensures { result ≡ start }
    {
        Context::begun(Section::First)
    }

    /// The beginning of a section.
    fn begun(section: Section) -> Context
        ensures { result ≡ begun section }
    {
        Context {
            section,
            above: Above::Nothing,
            depth: 0,
            follows: None,
            turn: None,
            atomic: Atomic::Outside,
        }
    }

    /// The context of the line below.
    pub(crate) fn after(&self, mark: &Mark) -> Context
        ensures { result ≡ after self.now mark.now }
    {
        match mark {
            Mark::Client(_) => Context::begun(self.section.next_client()),
            Mark::Finally => Context::begun(Section::Last),
            Mark::Await => self.noted(Above::Await, self.follows, self.turn),
            Mark::Once => self.noted(Above::Once, self.follows, self.turn),
            Mark::Named(_) => self.noted(self.above.with_note(), self.follows, self.turn),
            Mark::After(name) => self.noted(self.above.with_note(), Some(*name), self.turn),
            Mark::Turn(number) => self.noted(self.above.with_note(), self.follows, Some(*number)),
            Mark::If => self.branched(Above::If, one_more(self.depth)),
            Mark::Else | Mark::Access(_, _) => self.below(Above::Nothing),
            Mark::Atomic => self.enclosed(Above::Nothing, self.depth, Atomic::Begins(self.depth)),
            Mark::End => self.ended(),
            Mark::Command(_) => self.enclosed(Above::Command, self.depth, self.atomic.continued()),
            Mark::Expected | Mark::OrExpected | Mark::OrBegins => self.below(Above::Command),
            Mark::Wrong(_) => self.below(Above::Command),
        }
    }

    /// Whether the line is in a branch, or in an `#atomic`.
    pub(crate) fn is_enclosed(&self) -> bool
        ensures { result ≡ is_enclosed self.now }
    {
        self.depth > 0 || self.atomic.is_inside()
    }

    /// The context below an `#end`, which ends the `#atomic` or the innermost branch.
    fn ended(&self) -> Context
        ensures { result ≡ ended self.now }
    {
        if self.atomic.is_innermost(self.depth) {
            self.enclosed(Above::Nothing, self.depth, Atomic::Outside)
        } else {
            self.branched(Above::Nothing, self.depth.saturating_sub(1))
        }
    }

    /// The context of a line of which no note says more.
    fn below(&self, above: Above) -> Context
        ensures { result ≡ below self.now above }
    {
        self.branched(above, self.depth)
    }

    /// The context of a line in that many branches, of which no note says more.
    fn branched(&self, above: Above, depth: usize) -> Context
        ensures { result ≡ branched self.now above depth }
    {
        self.enclosed(above, depth, self.atomic)
    }

    /// The context of a line in that many branches and that `#atomic`, of which no note says more.
    fn enclosed(&self, above: Above, depth: usize, atomic: Atomic) -> Context
        ensures { result ≡ enclosed self.now above depth atomic }
    {
        Context {
            section: self.section,
            above,
            depth,
            follows: None,
            turn: None,
            atomic,
        }
    }

    /// The context of a line of which the notes above say this.
    fn noted(&self, above: Above, follows: Option<Name>, turn: Option<usize>) -> Context
        ensures { result ≡ noted self.now above follows turn }
    {
        Context {
            section: self.section,
            above,
            depth: self.depth,
            follows,
            turn,
            atomic: self.atomic,
        }
    }
}

impl Above {
    /// What is directly above the line below a note on it.
    fn with_note(self) -> Above
        ensures { result ≡ with_note self }
    {
        match self {
            Above::Await => Above::Await,
            Above::Once => Above::Once,
            _ => Above::Note,
        }
    }
}

impl Atomic {
    /// With one more line above.
    fn continued(self) -> Atomic
        ensures { result ≡ continued self }
    {
        match self {
            Atomic::Begins(depth) => Atomic::Continues(depth),
            other => other,
        }
    }

    fn is_inside(self) -> bool
        ensures { result ≡ is_inside self }
    {
        !matches!(self, Atomic::Outside)
    }

    /// Whether a line of it is above.
    pub(crate) fn is_continued(self) -> bool
        ensures { result ≡ is_continued self }
    {
        matches!(self, Atomic::Continues(_))
    }

    /// Whether the line is in none of the branches in it: this many are open.
    pub(crate) fn is_innermost(self, depth: usize) -> bool
        ensures { result ≡ is_innermost depth self }
    {
        match self {
            Atomic::Outside => false,
            Atomic::Begins(around) | Atomic::Continues(around) => around == depth,
        }
    }
}

impl Section {
    /// The section that a client begins below this one. Clients past the limit are all of one number.
    pub(crate) fn next_client(self) -> Section
        ensures { result ≡ next_client self }
    {
        match self {
            Section::First => Section::Client(0),
            Section::Client(number) if number < PLAN_CLIENTS => Section::Client(number + 1),
            Section::Client(number) => Section::Client(number),
            Section::Last => Section::Last,
        }
    }

    pub(crate) fn is_same(self, other: Section) -> bool
        ensures { result ≡ is_same self other }
    {
        match (self, other) {
            (Section::First, Section::First) => true,
            (Section::Client(number), Section::Client(client)) => number == client,
            (Section::Last, Section::Last) => true,
            _ => false,
        }
    }
}

/// One more open branch. Each has a line of its own above its `#if`, so a plan has no more of them than lines.
pub(crate) fn one_more(depth: usize) -> usize
    ensures { result ≡ one_more depth }
{
    if depth < PLAN_LINES { depth + 1 } else { depth }
}
