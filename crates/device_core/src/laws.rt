//! Theorems about all points, fences and values: each law is the contract of a function with an empty body.
ghost use Rattle.std.specs.Prelude.{◌≡◌, ℕ, ◌+◌, ◌^◌, ◌<◌, ◌≤◌, ◌++◌, List, [], nat_lt, All, ◌↔◌, ◌∷◌, Some, true, length, map, Contains, Result};
ghost use Rattle.std.specs.List.{range_with_len};
ghost use Rattle.point_core.specs.declared.entry.Entry.{Entry};
ghost use Rattle.point_core.specs.Reach.{IsAtLeast};
ghost use Rattle.point_core.specs.Agreement.{AgreesAbove, IsReached, as_entry, point_of};
ghost use Rattle.device_core.specs.declared.fence.Fence.{Fence};
ghost use Rattle.device_core.specs.declared.fence.Signal.{Signal};
ghost use Rattle.device_core.specs.theorem.Fences.{all_signalled_by, are_signalled, entries_in, merged, HasRisingTimelines, IsReachedUnlessPending};
ghost use Rattle.device_core.specs.declared.errno.Errno.{Errno};
ghost use Rattle.device_core.specs.declared.request.Reply.{Reply};
ghost use Rattle.device_core.specs.declared.request.Request.{Request};
ghost use Rattle.device_core.specs.declared.request.Request.TheVariants.{Fence as MakesFence};
ghost use Rattle.device_core.specs.theorem.History.{AreAccepted, AreAnswers, HasHistory, empty_world, history_of, sum_of, world_of, reach_of};
ghost use Rattle.device_core.specs.Sound.{IsSound};
ghost use Rattle.device_core.specs.Accepted.{history_with, kind_of};
ghost use Rattle.device_core.specs.theorem.State.{DeviceState, FileState, objects_of};
ghost use Rattle.device_core.specs.theorem.Headline.{ReportsSums, ReportsWhatWasPut, ReportsBuffers, ReportsFences, ReportsNumbers, ReportsEachWaking};
ghost use Rattle.device_core.specs.theorem.Memory.{AreTrimmed};
ghost use Rattle.device_core.specs.theorem.Request.{IsAnswer};
ghost use Rattle.device_core.specs.theorem.Requests.{Have32Bits, kinds};
ghost use Rattle.device_core.specs.theorem.Put.{put_into, timeline_reach};
ghost use Rattle.device_core.specs.theorem.Answered.{IsAnswered};
ghost use Rattle.device_core.specs.theorem.Wrapping.{is_later, unwrapped};

/// The kernel's comparison of 32 bits finds a point later than the value exactly if the 64-bit point that it represents
/// is later.
pub fn points_wrap_as_the_kernel_compares()
    ensures { (value point : ℕ) → is_later value point ≡ nat_lt value (unwrapped value point) }
{}

/// Signalling keeps the points of a file, so a set that agreed with it still does above every reach that is at least as
/// high, however many timelines there are.
pub fn signalling_keeps_agreement()
    ensures points { (timeline value : ℕ) (s : Signal) (fs : List Fence) →
        entries_in (all_signalled_by timeline value s fs) ≡ entries_in fs }
    ensures kept { (timeline value : ℕ) (s : Signal) (reach later : List ℕ) (fs : List Fence) (put : List Entry) →
        IsAtLeast later reach → AgreesAbove reach (entries_in fs) put →
        AgreesAbove later (entries_in (all_signalled_by timeline value s fs)) put }
{}

/// A merge agrees with both files together above every reach that all signalled fences have reached, and its fences
/// rise by timeline.
pub fn merge_is_a_union()
    ensures agrees { (reach : List ℕ) (fs gs : List Fence) →
        All (IsReachedUnlessPending reach) fs → All (IsReachedUnlessPending reach) gs →
        AgreesAbove reach (entries_in (merged fs gs)) (entries_in fs ++ entries_in gs) }
    ensures rising { (fs gs : List Fence) → HasRisingTimelines fs → HasRisingTimelines (merged fs gs) }
{}

/// The world of every history is well-formed: no object has a number that was not given, each fence is pending exactly
/// if its timeline is open and its point above the value, and each file and buffer agrees with what was put into it.
pub fn a_history_makes_a_sound_world()
    ensures { (history : List Request) → AreAccepted empty_world history → IsSound (world_of history) }
{}

/// After every history an open file has signalled exactly if each point that was put into it is reached, or its
/// timeline closed.
pub fn a_file_has_signalled_once_all_is_reached()
    ensures { (history : List Request) → AreAccepted empty_world history →
        (n : ℕ) (f : FileState) → (world_of history).objects.files n ≡ Some f →
        ((are_signalled f.fences ≡ true)
        ↔ IsReached ((world_of history).put n) 0 (reach_of (world_of history).objects)) }
{}

/// The increments of a history, and which timelines are open after it, determine what each timeline has reached.
pub fn the_reach_is_of_the_increments()
    ensures { (history : List Request) → AreAccepted empty_world history →
        reach_of (world_of history).objects ≡ map (timeline_reach history) (range_with_len 1 (length (kinds history))) }
{}

/// The requests of a history determine what was put into each file and buffer, by the increments, and by the order in
/// which objects were made.
pub fn the_put_points_are_of_the_requests()
    ensures { (history : List Request) (number : ℕ) → AreAccepted empty_world history →
        (world_of history).put number ≡ put_into history number }
{}

/// For each kind of request some history has one. So only a lack of memory can make a device refuse all requests of a
/// kind.
pub fn each_kind_of_request_is_accepted()
    ensures accepted { (request : Request) → AreAccepted empty_world (history_with request) }
    ensures has { (request : Request) → Contains (map kind_of (history_with request)) (kind_of request) }
{}

/// A new fence puts one point into its file: the 64-bit point nearest to the sum of its timeline's increments so far that
/// has the 32 bits which were asked for.
pub fn a_new_fence_is_at_a_point_by_the_increments()
    ensures { (history : List Request) (timeline point now : ℕ) →
        AreAccepted empty_world (history ++ MakesFence timeline point now ∷ []) →
        put_into (history ++ MakesFence timeline point now ∷ []) (length (kinds history) + 1)
        ≡ as_entry (point_of timeline (unwrapped (sum_of timeline history) point)) ∷ [] }
{}

/// A device that stands for a history has the sums of its increments, what was put into its files and buffers, and the
/// status, time and name of each fence; and what `serve` answers is said by the history. Programs call `Device::serve`,
/// which keeps `HasHistory`, so this is their form of the main theorem.
pub fn a_device_shows_its_history()
    ensures sums { (d : DeviceState) (history : List Request) → HasHistory d history → ReportsSums d history }
    ensures files { (d : DeviceState) (history : List Request) → HasHistory d history → ReportsWhatWasPut d history }
    ensures buffers { (d : DeviceState) (history : List Request) → HasHistory d history → ReportsBuffers d history }
    ensures fences { (d : DeviceState) (history : List Request) → HasHistory d history → ReportsFences d history }
    ensures trimmed { (d : DeviceState) (history : List Request) → HasHistory d history → AreTrimmed d history }
    ensures answers { (d : DeviceState) (history : List Request) (request : Request) (given : Result Reply Errno) →
        HasHistory d history → Have32Bits history → IsAnswer (objects_of d) request given →
        IsAnswered history request given }
{}

/// By the answers of a device, from its first request on, no number is given twice, and each file that waits when it is
/// made is woken once, or is closed while it waits, or still waits.
pub fn each_waiting_file_is_woken_or_closed_or_waits()
    ensures numbers { (d : DeviceState) (requests : List Request) (given : List (Result Reply Errno)) →
        AreAnswers [] requests given → HasHistory d (history_of [] requests given) → ReportsNumbers d given }
    ensures wakings { (d : DeviceState) (requests : List Request) (given : List (Result Reply Errno)) →
        AreAnswers [] requests given → HasHistory d (history_of [] requests given) →
        ReportsEachWaking d (history_of [] requests given) given }
{}
