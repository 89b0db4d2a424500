//! `Level`: the states after schedules of one length, equal states once. Once a level is complete, the search keeps its states and
//! drops their looks.
ghost use Rattle.std.specs.Prelude.{◌≡◌, ◌+◌, ◌≤◌, true, [], length, OnOk, OnErr, vec_len};
ghost use Rattle.std.specs.Vec.{vec_capacity};
ghost use Rattle.explore_core.specs.Search.{KeepsAt, HasSame, has_name, states_of};

use crate::look::mix;
use crate::parts::{Parts, Places};
use crate::state::State;
use desk_core::Desk;
use indexmap::IndexMap;
use point_core::Name;
use std::alloc::{AllocError, Global};
use std::marker::Model;

/// Why a level is not visited to its end.
#[derive(Clone, Copy)]
pub(crate) enum Stop {
    Memory,
    /// There are more states than the bound.
    Bound,
}

impl From<AllocError> for Stop {
    ghost use Rattle.std.specs.Prelude.{◌≡◌};
    ghost use Rattle.explore_core.specs.declared.level.Stop.TheVariants.{Memory};

    ghost from_gives = { λ _ r. r ≡ Memory };

    fn from(_error: AllocError) -> Self {
        Stop::Memory
    }
}

impl Stop {
    pub(crate) fn is_memory(self) -> bool {
        match self {
            Stop::Memory => true,
            Stop::Bound => false,
        }
    }
}

/// The states, the places of their looks among the parts, and a table by hashes. The table is a hint: a state that it suggests is
/// compared as a whole, and a state that it misses is kept twice.
#[derive(Drop)]
pub(crate) struct Level {
    states: Vec<State>,
    // of the states' looks, in the order of the states
    places: Vec<Places>,
    parts: Parts,
    by_hash: IndexMap<u64, usize>,
    // how many states there may be
    room: usize,
}

impl Model for Level {
    ghost use Rattle.std.specs.Prelude.{◌≡◌, ◌≤◌, All, length};
    ghost use Rattle.explore_core.specs.Search.{Fits, LevelState, seen_in};

    ghost Value = { LevelState };

    ghost view = { λ l. record { seen = seen_in l.parts l.states.items l.places.items; room = l.room } };

    ghost invariant = { λ l. (length l.places.items ≡ length l.states.items)
        × All (Fits l.parts) l.places.items
        × (length l.states.items ≤ l.room) };
}

impl Level {
    pub(crate) fn new(alloc: Global, room: usize) -> Level
        ensures empty { result.seen ≡ [] }
        ensures room { result.room ≡ room }
    {
        Level {
            states: Vec::new(alloc),
            places: Vec::new(alloc),
            parts: Parts::new(alloc),
            by_hash: IndexMap::new(alloc),
            room,
        }
    }

    /// The states, once all are found.
    pub(crate) fn into_states(self) -> Vec<State>
        ensures states { result.items ≡ states_of self.seen }
        ensures room { length result.items ≤ self.room }
    {
        let Level { states, .. } = self;
        states
    }

    /// Keeps the state with what its desk shows, unless an equal one is kept already. The plan asks what the files of the names list.
    ///
    /// Fails if there is no room or no memory for the state, and then keeps the states that it kept.
    pub(crate) fn keep(
        &mut self,
        alloc: Global,
        asked: &[Name],
        state: State,
        desk: &Desk,
    ) -> Result<(), Stop>
        ensures keeps { OnOk result (KeepsAt (has_name asked.now) self.old.seen state desk.now self.new.seen) }
        ensures room { OnOk result (self.new.room ≡ self.old.room) }
        ensures unchanged { OnErr result (self.new ≡ self.old) }
    {
        let Ok(places) = self.parts.look_at(alloc, asked, desk) else {
            drop(state);
            return Err(Stop::Memory);
        };
        let hash = hash_of(&state, &places);
        let states = self.states.as_slice();
        let all = self.places.as_slice();
        if has(&self.by_hash, states, all, hash, &state, &places) {
            drop(places);
            drop(state);
            return Ok(());
        }
        if self.states.len() >= self.room {
            drop(places);
            drop(state);
            return Err(Stop::Bound);
        }
        let Ok(()) = reserve(&mut self.by_hash, &mut self.states, &mut self.places, hash) else {
            drop(places);
            drop(state);
            return Err(Stop::Memory);
        };
        self.states.push_reserved(state);
        self.places.push_reserved(places);
        Ok(())
    }
}

/// Makes room for one more state, which the table suggests for this hash from now on.
fn reserve(
    by_hash: &mut IndexMap<u64, usize>,
    states: &mut Vec<State>,
    places: &mut Vec<Places>,
    hash: u64,
) -> Result<(), AllocError>
    ensures states { states.new.items ≡ states.old.items }
    ensures places { places.new.items ≡ places.old.items }
    ensures room_for_state { OnOk result (vec_len states.new + 1 ≤ vec_capacity states.new) }
    ensures room_for_places { OnOk result (vec_len places.new + 1 ≤ vec_capacity places.new) }
{
    states.reserve(1)?;
    places.reserve(1)?;
    let Ok(_old) = by_hash.insert(hash, states.len()) else {
        return Err(AllocError);
    };
    Ok(())
}

/// A number by which the state may be found again.
fn hash_of(state: &State, places: &Places) -> u64 {
    let mut hash = places.hash();
    for made in state.made.as_slice() {
        hash = mix(hash, *made as u64);
    }
    hash
}

/// Whether the state that the table suggests is the same: each client is at the same line in both, and the looks have the same parts.
fn has(
    by_hash: &IndexMap<u64, usize>,
    states: &[State],
    all: &[Places],
    hash: u64,
    state: &State,
    places: &Places,
) -> bool
    ensures { result ≡ true → HasSame states.now all.now state.now places.now }
{
    let Some(place) = by_hash.get(&hash) else {
        return false;
    };
    let Some(other) = states.get(*place) else {
        return false;
    };
    let Some(others) = all.get(*place) else {
        return false;
    };
    are_same(state.made.as_slice(), other.made.as_slice()) && places.is_same(others)
}

pub(crate) fn are_same(made: &[usize], others: &[usize]) -> bool
    ensures { result ≡ true → made.now ≡ others.now }
{
    made == others
}
