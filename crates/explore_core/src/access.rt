//! `Access`: a buffer that a client reads or writes while it is at some of its lines. `explore_report` makes a plan's accesses from a
//! script. A search lists the races of two (`races.rt`), and lets no client end an access early whose races would be missed then.
ghost use Rattle.std.specs.Prelude.{◌≡◌};
ghost use Rattle.std.specs.List.{list_all};
ghost use Rattle.explore_core.specs.Access.{holds, is_inside, conflict, is_race};
ghost use Rattle.explore_core.specs.Choice.{choice_of};
ghost use Rattle.explore_core.specs.Persistent.{continues, may_end, is_far, misses_none, ends_in_time, leaves_no_race};

use crate::choice::Choice;
use crate::look::is_name;
use crate::plan::Step;
use crate::progress::place_of;
use point_core::Name;

/// A client reads or writes a buffer while the place of its next line is one of `first..=last`.
#[derive(Clone, Copy)]
pub struct Access {
    pub client: usize,
    /// Need not be the name of a buffer that the plan makes.
    pub buffer: Name,
    pub writes: bool,
    pub first: usize,
    pub last: usize,
}

impl Access {
    /// Whether the two are a race where each client has made that many lines: of different clients, to one buffer, at once, and one of
    /// them writes.
    pub(crate) fn is_race(&self, other: &Access, made: &[usize]) -> bool
        ensures { result ≡ is_race self.now other.now made.now }
    {
        self.conflicts(other) && self.is_inside(made) && other.is_inside(made)
    }

    fn conflicts(&self, other: &Access) -> bool
        ensures { result ≡ conflict self.now other.now }
    {
        self.client != other.client
            && is_name(&self.buffer, &other.buffer)
            && (self.writes || other.writes)
    }

    /// Whether the client accesses the buffer where each client has made that many lines.
    fn is_inside(&self, made: &[usize]) -> bool
        ensures { result ≡ is_inside self.now made.now }
    {
        self.holds(place_of(made, self.client))
    }

    /// Whether the place is one of the access's.
    fn holds(&self, place: usize) -> bool
        ensures { result ≡ holds self.now place }
    {
        self.first <= place && place <= self.last
    }

    /// Whether no race with another access is missed if the client makes the line before others make theirs.
    fn ends_in_time(
        &self,
        accesses: &[Access],
        choice: &Choice,
        client: usize,
        made: &[usize],
        line: &Step,
    ) -> bool
        ensures { result ≡ ends_in_time accesses.now (choice_of choice.now) client made.now line.now self.now }
    {
        !self.may_end(client, made, line) || self.misses_none_of(accesses, choice, made)
    }

    fn misses_none_of(&self, accesses: &[Access], choice: &Choice, made: &[usize]) -> bool
        ensures { result ≡ list_all (misses_none (choice_of choice.now) made.now self.now) accesses.now }
    {
        accesses
            .iter()
            .all(|other| self.misses_none(choice, made, other))
    }

    /// Whether the client makes the access, and may end it by its next line.
    pub(crate) fn may_end(&self, client: usize, made: &[usize], line: &Step) -> bool
        ensures { result ≡ may_end client made.now line.now self.now }
    {
        self.client == client
            && self.is_inside(made)
            && !self.continues(place_of(made, client), line)
    }

    /// Whether the client makes the access still after the line at this place, whatever the line's answer is.
    fn continues(&self, place: usize, line: &Step) -> bool
        ensures { result ≡ continues self.now place line.now.branch }
    {
        let Some(branch) = &line.branch else {
            return place < self.last;
        };
        place < self.last && self.holds(branch.otherwise)
    }

    /// Whether no race with the other access is missed if this one ends now: the two are at once now, or not before a chosen client
    /// goes.
    pub(crate) fn misses_none(&self, choice: &Choice, made: &[usize], other: &Access) -> bool
        ensures { result ≡ misses_none (choice_of choice.now) made.now self.now other.now }
    {
        !self.conflicts(other)
            || choice.is_chosen(other.client)
            || other.is_inside(made)
            || other.is_far(choice, made)
    }

    /// Whether the client doesn't come to the access before a chosen client goes.
    fn is_far(&self, choice: &Choice, made: &[usize]) -> bool
        ensures { result ≡ is_far (choice_of choice.now) made.now self.now }
    {
        choice.limit(self.client) < self.first || self.last < place_of(made, self.client)
    }
}

/// Whether the client's line may be made before the lines of clients that are not chosen, and no race of two of the accesses is missed.
pub(crate) fn leaves_no_race(
    accesses: &[Access],
    choice: &Choice,
    client: usize,
    made: &[usize],
    line: &Step,
) -> bool
    ensures { result ≡ leaves_no_race accesses.now (choice_of choice.now) client made.now line.now }
{
    accesses.iter().all(|access| access.ends_in_time(accesses, choice, client, made, line))
}
