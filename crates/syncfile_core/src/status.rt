//! The rows of file information: the status of a file and of each of its fences.
ghost use Rattle.std.specs.Prelude.{◌≡◌, IfOk};
ghost use Rattle.syncfile_core.specs.Status.{fence_of, fences_of, stub};

use point_core::{Clocks, Context, Items, Name, Point, Status};
use std::alloc::{AllocError, Global};

/// Information on a file, as Linux's `struct sync_file_info`.
#[derive(Debug, Drop)]
pub struct FileInfo {
    pub name: Name,
    pub status: Status,
    pub fences: Items<FenceInfo>,
}

/// Information on a fence, as Linux's `struct sync_fence_info`. The stub, which represents a file without points, has
/// no context and the point 0.
#[derive(Clone, Copy, Debug, PartialEq, Eq, Hash)]
pub struct FenceInfo {
    pub ctx: Option<Context>,
    pub point: u64,
    pub status: Status,
}

impl FenceInfo {
    fn of(point: &Point, clocks: &Clocks) -> FenceInfo
        ensures fence { result ≡ fence_of clocks.now point.now }
    {
        FenceInfo {
            ctx: Some(point.ctx),
            point: point.value,
            status: clocks.status(*point),
        }
    }

    fn stub() -> FenceInfo
        ensures stub { result ≡ stub }
    {
        FenceInfo {
            ctx: None,
            point: 0,
            status: Status::Signalled,
        }
    }
}

/// A fence for each of the points, or the stub.
pub(crate) fn fences_of(
    alloc: Global,
    points: &[Point],
    clocks: &Clocks,
) -> Result<Vec<FenceInfo>, AllocError>
    ensures fences { IfOk result (λ fences. fences.items ≡ fences_of points.now clocks.now) }
{
    if points.is_empty() {
        return Vec::from_slice(alloc, &[FenceInfo::stub()]);
    }
    points
        .iter()
        .map(|point| FenceInfo::of(point, clocks))
        .collect(alloc)
}
