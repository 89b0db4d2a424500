//! Theorems about every run of calls on watches: each law is the contract of a function with an empty body, which no
//! caller runs.
ghost use Rattle.std.specs.Prelude.{◌≡◌, ℕ, nat_eq, true, false, List, Contains};
ghost use Rattle.std.specs.List.{IsDistinct};
ghost use Rattle.point_core.specs.declared.entry.Point.{Point};
ghost use Rattle.fence_core.specs.Fence.{are_reached};
ghost use Rattle.fence_core.specs.Watch.{Registry, watch_of, ArePending};
ghost use Rattle.fence_core.specs.Watches.{has_watch, fired_by, after_rise_to};
ghost use Rattle.fence_core.specs.Run.{Call, after_calls, fired_along, AreAccepted, IsLeftByAll, AreNoAddsOf};

/// A watch fires once, by the first rise that reaches all of its points. Whatever calls are made, it is pending and not
/// fired while none removes it and no rise reaches all of its points. The first rise that does fires it, once, and takes
/// it out. From then on its cookie is not fired again, unless it is registered anew.
pub fn a_watch_fires_once()
    ensures pending { (ws : Registry) (cookie : ℕ) (points : List Point) (calls : List Call) →
        Contains ws.pending (watch_of cookie points) → IsLeftByAll cookie points calls →
        Contains (after_calls ws calls).pending (watch_of cookie points) }
    ensures not_before { (ws : Registry) (cookie : ℕ) (points : List Point) (calls : List Call) →
        ArePending ws.pending → Contains ws.pending (watch_of cookie points) → AreAccepted ws calls →
        IsLeftByAll cookie points calls → ¬ Contains (fired_along ws calls) cookie }
    ensures fired { (ws : Registry) (cookie : ℕ) (points : List Point) (reach : List ℕ) →
        Contains ws.pending (watch_of cookie points) → are_reached reach points ≡ true →
        Contains (fired_by ws reach) cookie }
    ensures once { (ws : Registry) (reach : List ℕ) → ArePending ws.pending → IsDistinct nat_eq (fired_by ws reach) }
    ensures taken_out { (ws : Registry) (cookie : ℕ) (points : List Point) (reach : List ℕ) →
        ArePending ws.pending → Contains ws.pending (watch_of cookie points) → are_reached reach points ≡ true →
        has_watch (after_rise_to ws reach) cookie ≡ false }
    ensures not_again { (ws : Registry) (cookie : ℕ) (calls : List Call) →
        has_watch ws cookie ≡ false → AreNoAddsOf cookie calls → ¬ Contains (fired_along ws calls) cookie }
{}
