//! `Status`: active, signalled or cancelled, for a point, a sync file or a fence.
ghost use Rattle.std.specs.Prelude.{◌≡◌};
ghost use Rattle.point_core.specs.Status.{status_number, status_with, is_signalled};

/// The status of a point or a sync file, as Linux's `dma_fence_get_status` gives it. A timeline that is closed before a
/// point is reached leaves the point with the error `-ENOENT`, as Linux's `sw_sync_debugfs_release` does.
#[derive(Clone, Copy, Debug, PartialEq, Eq, Hash)]
pub enum Status {
    /// Some point is not reached.
    Active,
    /// Every point is reached.
    Signalled,
    /// No point is pending, and the timeline of at least one was closed before it was reached.
    Cancelled,
}

impl Status {
    /// Whether nothing is pending, as Linux's `dma_fence_is_signaled`: signalled or cancelled.
    pub fn is_signalled(self) -> bool
        ensures { result ≡ is_signalled self }
    {
        match self {
            Status::Active => false,
            Status::Signalled | Status::Cancelled => true,
        }
    }

    /// The status of two fences together: active while one is, else cancelled if one is.
    pub fn with(self, other: Status) -> Status
        ensures { result ≡ status_with self other }
    {
        match (self, other) {
            (Status::Active, _) | (_, Status::Active) => Status::Active,
            (Status::Cancelled, _) | (_, Status::Cancelled) => Status::Cancelled,
            (Status::Signalled, Status::Signalled) => Status::Signalled,
        }
    }

    /// The number in file information: 0 while active, 1 once signalled, and -2, the kernel's `-ENOENT`, if it is
    /// cancelled.
    pub fn number(self) -> i32
        ensures { result ≡ status_number self }
    {
        match self {
            Status::Active => 0,
            Status::Signalled => 1,
            Status::Cancelled => -2,
        }
    }
}
