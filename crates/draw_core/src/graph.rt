//! Builds the graph of waiters from a desk's report.

use crate::waiting::{points_listed, waiting_for, waiting_on};
use command_core::{BufferRows, FileRow, Report, ShowRow};
use desk_core::Desk;
use picture_core::{Graph, Node, Waiter, WatchEnd, WatchLane};
use point_core::{Name, Point, TimelineRow};
use std::alloc::AllocError;

/// Adds the nodes of a desk, given its report, and its pending watches.
pub(crate) fn enter_all(
    graph: &mut Graph,
    desk: &Desk,
    report: &Report,
    watches: &[WatchLane],
) -> Result<(), AllocError> {
    enter_timelines(graph, report.timelines.as_slice())?;
    enter_files(graph, desk, report.files.as_slice())?;
    enter_buffers(graph, desk, report.buffers.as_slice())?;
    enter_watches(graph, desk, watches)
}

fn enter_timelines(graph: &mut Graph, timelines: &[TimelineRow]) -> Result<(), AllocError> {
    for timeline in timelines {
        graph.add_node(Node::Timeline(*timeline))?;
    }
    Ok(())
}

fn enter_files(graph: &mut Graph, desk: &Desk, files: &[FileRow]) -> Result<(), AllocError> {
    for file in files {
        enter_file(graph, desk, file)?;
    }
    Ok(())
}

fn enter_buffers(graph: &mut Graph, desk: &Desk, buffers: &[BufferRows]) -> Result<(), AllocError> {
    for buffer in buffers {
        enter_buffer(graph, desk, buffer)?;
    }
    Ok(())
}

fn enter_watches(graph: &mut Graph, desk: &Desk, watches: &[WatchLane]) -> Result<(), AllocError> {
    for watch in watches {
        enter_watch(graph, desk, watch)?;
    }
    Ok(())
}

fn enter_file(graph: &mut Graph, desk: &Desk, file: &FileRow) -> Result<(), AllocError> {
    graph.add_node(Node::File(*file))?;
    let points = points_listed(desk, &file.name);
    enter_waits(graph, desk, &Waiter::File(file.name), points)
}

fn enter_buffer(graph: &mut Graph, desk: &Desk, buffer: &BufferRows) -> Result<(), AllocError> {
    graph.add_node(Node::Buffer(buffer.name))?;
    enter_rows(graph, desk, buffer.name, buffer.rows.as_slice())
}

fn enter_rows(
    graph: &mut Graph,
    desk: &Desk,
    buffer: Name,
    rows: &[ShowRow],
) -> Result<(), AllocError> {
    for row in rows {
        if !is_strongest(rows, row) {
            continue;
        }
        if let Some(waiting) = waiting_on(desk, &row.timeline, row.point) {
            graph.add_wait(&Waiter::Buffer(buffer, row.usage), &waiting)?;
        }
    }
    Ok(())
}

/// Whether a row has the strongest usage of its point. Rows are in order of usage, from the strongest.
fn is_strongest(rows: &[ShowRow], row: &ShowRow) -> bool {
    for other in rows {
        if other.timeline == row.timeline && other.point == row.point {
            return other.usage == row.usage;
        }
    }
    true
}

fn enter_watch(graph: &mut Graph, desk: &Desk, watch: &WatchLane) -> Result<(), AllocError> {
    let WatchEnd::Pending = watch.end else {
        return Ok(());
    };
    graph.add_node(Node::Watch(watch.cookie))?;
    enter_waits(
        graph,
        desk,
        &Waiter::Watch(watch.cookie),
        watch.points.as_slice(),
    )
}

fn enter_waits(
    graph: &mut Graph,
    desk: &Desk,
    waiter: &Waiter,
    points: &[Point],
) -> Result<(), AllocError> {
    for point in points {
        if let Some(waiting) = waiting_for(desk, point) {
            graph.add_wait(waiter, &waiting)?;
        }
    }
    Ok(())
}
