//! The tables of `show` and `report`. `Desk` calls them with entries of timelines that were made, so each row has a name.
ghost use Rattle.std.specs.Prelude.{◌≡◌, ◌≤◌, List, ℕ, length, map, IfOk, IfErr};
ghost use Rattle.point_core.specs.declared.limits.TheConstants.{BUFFERS};
ghost use Rattle.timeline_core.specs.Timeline.{reach_of};
ghost use Rattle.dmabuf_core.specs.Buffers.{entries_of, names_of};
ghost use Rattle.desk_core.specs.theorem.Answer.{show_row};
ghost use Rattle.desk_core.specs.Keeping.{AreRowsMade, HasNoneBehind, buffer_rows_at, file_row_at};

use command_core::{BufferRows, FileRow, ShowRow};
use dmabuf_core::Buffers;
use point_core::{Clocks, Items, Refusal, TopRow};
use std::alloc::Global;
use syncfile_core::{Files, SyncFile};
use timeline_core::Timelines;

/// The rows of a table, each with the name of its timeline.
pub fn show_rows(
    alloc: Global,
    tops: &[TopRow],
    timelines: &Timelines,
) -> Result<Vec<ShowRow>, Refusal>
    requires made { AreRowsMade (length timelines.now) tops.now }
    ensures rows { IfOk result (λ rows. rows.items ≡ map (show_row timelines.now) tops.now) }
    ensures memory { IfErr result (λ e. e ≡ Refusal.Memory) }
{
    let mut rows = Vec::with_capacity(alloc, tops.len())?;
    for top in tops {
        rows.push_reserved(show_row(*top, timelines));
    }
    Ok(rows)
}

fn show_row(top: TopRow, timelines: &Timelines) -> ShowRow
    requires made { top.ctx ≤ length timelines.now }
    ensures { result ≡ show_row timelines.now top }
{
    let TopRow { usage, ctx, point } = top;
    ShowRow {
        usage,
        timeline: timelines.name(ctx).unwrap(),
        point,
    }
}

/// The files in order of making, each with its status and the number of its fences.
pub fn file_rows(alloc: Global, files: &Files, clocks: &Clocks) -> Result<Vec<FileRow>, Refusal>
    ensures rows { IfOk result (λ rows.
        rows.items ≡ map (file_row_at clocks.now) files.now) }
    ensures memory { IfErr result (λ e. e ≡ Refusal.Memory) }
{
    let names = files.names()?;
    let mut rows = Vec::with_capacity(alloc, names.len())?;
    for name in &names {
        rows.push_reserved(file_row(files.get(name).unwrap(), clocks));
    }
    Ok(rows)
}

/// A file without points is shown as one fence, the stub.
fn file_row(file: &SyncFile, clocks: &Clocks) -> FileRow
    ensures { result ≡ file_row_at clocks.now file.now }
{
    let points = file.points.as_slice();
    FileRow {
        name: file.name,
        status: clocks.common_status(points),
        count: points.len().max(1) as u64,
    }
}

/// The buffers in order of making, each with the rows of its pending tops.
pub fn buffer_rows(
    alloc: Global,
    buffers: &Buffers,
    timelines: &Timelines,
) -> Result<Vec<BufferRows>, Refusal>
    requires made { (name : List ℕ) →
        HasNoneBehind (length timelines.now) (reach_of timelines.now) (entries_of buffers.now name) }
    ensures rows { IfOk result (λ rows.
        rows.items ≡ map (buffer_rows_at timelines.now buffers.now) (names_of buffers.now)) }
    ensures within { IfOk result (λ rows. length rows.items ≤ BUFFERS) }
    ensures memory { IfErr result (λ e. e ≡ Refusal.Memory) }
{
    let names = buffers.names()?;
    let mut listed = Vec::with_capacity(alloc, names.len())?;
    for name in &names {
        let tops = buffers.table(name, timelines.as_reach())?;
        let rows = show_rows(alloc, &tops, timelines)?;
        listed.push_reserved(BufferRows {
            name: *name,
            rows: Items::of(rows),
        });
    }
    Ok(listed)
}
