//! Shrinks a map that has become much too large for its entries, so that a device's memory follows what is alive.
ghost use Rattle.std.specs.Prelude.{◌≡◌, ℕ};
ghost use Rattle.device_core.specs.theorem.State.{at};

use std::collections::HashMap;

/// A map with at least this many places for each entry gives some back.
const MOST_PLACES: usize = 4;

/// How many places for each entry it then keeps.
const KEPT_PLACES: usize = 2;

/// A map with at most this many places keeps them all.
const FEW_PLACES: usize = 64;

const _: () = prove!(KEPT_PLACES < MOST_PLACES);

/// Gives back memory that a map doesn't need, and keeps its entries. The entries move once their number has halved
/// since they last did, so a removal takes constant time on average.
pub fn give_room_back<T>(map: &mut HashMap<u64, T>)
    ensures { (q : ℕ) → at map.new.entries q ≡ at map.old.entries q }
{
    let places = map.capacity();
    if places <= FEW_PLACES || map.len() > places / MOST_PLACES {
        return;
    }
    let kept = map.len() * KEPT_PLACES;
    map.shrink_to(kept);
}
