//! The rows of `info`: a row for each point that a file lists, with the name of its timeline. `Desk` calls `fence_rows` with points
//! of timelines that were made, so each row has a name.
ghost use Rattle.std.specs.Prelude.{◌≡◌, ◌≤◌, ◌∷◌, [], length, map, IfOk, IfErr};
ghost use Rattle.desk_core.specs.theorem.Answer.{fence_row, stub_row, or_stub};
ghost use Rattle.desk_core.specs.Keeping.{AreMade};

use command_core::{FenceRow, Maker};
use point_core::{Name, Point, Refusal, Status};
use std::alloc::Global;
use timeline_core::Timelines;

/// The fences of a file that lists those points, as Linux's `SYNC_IOC_FILE_INFO` lists them. A file without points is shown as the
/// stub.
pub fn fence_rows(
    alloc: Global,
    points: &[Point],
    timelines: &Timelines,
) -> Result<Vec<FenceRow>, Refusal>
    requires made { AreMade (length timelines.now) points.now }
    ensures rows { IfOk result (λ rows. rows.items ≡ or_stub (map (fence_row timelines.now) points.now)) }
    ensures memory { IfErr result (λ e. e ≡ Refusal.Memory) }
{
    if points.is_empty() {
        return stub_rows(alloc);
    }
    let mut rows = Vec::with_capacity(alloc, points.len())?;
    for point in points {
        rows.push_reserved(fence_row(*point, timelines));
    }
    Ok(rows)
}

/// The kernel's stub fence.
fn stub_rows(alloc: Global) -> Result<Vec<FenceRow>, Refusal>
    ensures rows { IfOk result (λ rows. rows.items ≡ stub_row ∷ []) }
    ensures memory { IfErr result (λ e. e ≡ Refusal.Memory) }
{
    let mut rows = Vec::with_capacity(alloc, 1)?;
    rows.push_reserved(stub_row());
    Ok(rows)
}

fn fence_row(point: Point, timelines: &Timelines) -> FenceRow
    requires made { point.ctx ≤ length timelines.now }
    ensures { result ≡ fence_row timelines.now point }
{
    let Point { ctx, value } = point;
    FenceRow {
        timeline: timelines.name(ctx).unwrap(),
        driver: Maker::SwSync,
        point: value,
        status: timelines.as_clocks().status(point),
    }
}

fn stub_row() -> FenceRow
    ensures { result ≡ stub_row }
{
    FenceRow {
        timeline: Name::read(b"stub").unwrap(),
        driver: Maker::Stub,
        point: 0,
        status: Status::Signalled,
    }
}
