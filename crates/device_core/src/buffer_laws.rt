//! Theorems about all buffers: each law is the contract of a function with an empty body.
ghost use Rattle.std.specs.Prelude.{◌≡◌, ℕ, ◌%◌, ◌^◌, ◌<◌, ◌↔◌, ◌++◌, true, List, Option};
ghost use Rattle.point_core.specs.declared.entry.Entry.{Entry};
ghost use Rattle.point_core.specs.declared.entry.Usage.{Usage};
ghost use Rattle.point_core.specs.Agreement.{AgreesAbove, IsReached};
ghost use Rattle.point_core.specs.Usage.{usage_number};
ghost use Rattle.device_core.specs.declared.buffer_fence.BufferFence.{BufferFence};
ghost use Rattle.device_core.specs.declared.fence.Fence.{Fence};
ghost use Rattle.device_core.specs.declared.fence.Timeline.{Timeline};
ghost use Rattle.device_core.specs.theorem.Buffers.{AreWaiting, BufferState, IsReachOf, at_usage, entries_of, exported, import_into, imported, none_waits};
ghost use Rattle.device_core.specs.theorem.BufferWorld.{AreBufferFences, HasGivenTimelines, put_with};
ghost use Rattle.device_core.specs.theorem.Fences.{HasRisingTimelines, entries_in};
ghost use Rattle.device_core.specs.theorem.History.{reach_of};
ghost use Rattle.device_core.specs.Sound.{AreFences};
ghost use Rattle.device_core.specs.theorem.State.{Objects};
ghost use Rattle.device_core.specs.theorem.Wrapping.{unwrapped};

/// At each usage a buffer agrees, above what its timelines have reached, with its old fences and the pending fences of
/// the imported file.
pub fn an_import_is_a_union()
    ensures { (timelines : ℕ → Option Timeline) (usage : Usage) (fs : List Fence) (b : BufferState) (reach : List ℕ) →
        IsReachOf timelines b.fences reach →
        AgreesAbove reach (entries_of (import_into timelines usage fs b).fences)
        (entries_of (b.fences ++ imported usage fs)) }
{}

/// An export has one fence for each timeline, by rising number, each of them pending, and agrees with the fences that
/// were put into the buffer at its usage or a stronger one.
pub fn an_export_is_what_waits()
    ensures agrees { (timelines : ℕ → Option Timeline) (usage : Usage) (hs : List BufferFence) (reach : List ℕ) →
        IsReachOf timelines hs reach →
        AgreesAbove reach (entries_in (exported timelines usage hs)) (at_usage usage (entries_of hs)) }
    ensures waiting { (timelines : ℕ → Option Timeline) (usage : Usage) (hs : List BufferFence) →
        AreWaiting timelines (exported timelines usage hs) }
    ensures rising { (timelines : ℕ → Option Timeline) (usage : Usage) (hs : List BufferFence) →
        HasRisingTimelines (exported timelines usage hs) }
{}

/// Nothing waits exactly if all fences that were put at the usage or a stronger one are reached.
pub fn a_test_finds_what_is_reached()
    ensures { (timelines : ℕ → Option Timeline) (usage : Usage) (hs : List BufferFence) (reach : List ℕ) →
        IsReachOf timelines hs reach →
        ((none_waits timelines usage hs ≡ true) ↔ IsReached (entries_of hs) (usage_number usage) reach) }
{}

/// A buffer of a device agrees with all that was put into it, and so do the files that are exported from it.
pub fn a_buffer_keeps_what_was_put()
    ensures imports { (d : Objects) (usage : Usage) (fs : List Fence) (b : BufferState) (put more : List Entry) →
        HasGivenTimelines d → AreBufferFences d b.fences → AreFences d fs →
        AgreesAbove (reach_of d) (entries_of b.fences) put → AgreesAbove (reach_of d) (entries_in fs) more →
        AgreesAbove (reach_of d) (entries_of (import_into d.timelines usage fs b).fences) (put ++ put_with usage more) }
    ensures kept { (d : Objects) (usage : Usage) (fs : List Fence) (b : BufferState) →
        AreBufferFences d b.fences → AreFences d fs →
        AreBufferFences d (import_into d.timelines usage fs b).fences }
    ensures exports { (d : Objects) (usage : Usage) (hs : List BufferFence) (put : List Entry) →
        HasGivenTimelines d → AreBufferFences d hs → AgreesAbove (reach_of d) (entries_of hs) put →
        AgreesAbove (reach_of d) (entries_in (exported d.timelines usage hs)) (at_usage usage put) }
    ensures fences { (d : Objects) (usage : Usage) (hs : List BufferFence) →
        AreBufferFences d hs → AreFences d (exported d.timelines usage hs) }
    ensures tests { (d : Objects) (usage : Usage) (hs : List BufferFence) (put : List Entry) →
        HasGivenTimelines d → AreBufferFences d hs → AgreesAbove (reach_of d) (entries_of hs) put →
        ((none_waits d.timelines usage hs ≡ true) ↔ IsReached put (usage_number usage) (reach_of d)) }
{}

/// Buffers that agree above a reach export the same fences.
pub fn exports_show_agreement()
    ensures { (reach : List ℕ) (usage : Usage) (es fs : List Entry) →
        AgreesAbove reach es fs → AgreesAbove reach (at_usage usage es) (at_usage usage fs) }
{}

/// A pending point of 32 bits is the low half of the 64-bit point that it represents, so an exported fence has the
/// point that was asked for.
pub fn a_pending_point_is_the_low_half()
    ensures { (value point : ℕ) →
        point < 2 ^ 32 → value < unwrapped value point → unwrapped value point % 2 ^ 32 ≡ point }
{}
