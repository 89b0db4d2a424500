//! Settles bars: finds the column in which each file becomes signalled, by asking the desk after every command.

use desk_core::Desk;
use picture_core::{Bar, BarSettled};
use point_core::{Point, Status};

/// Settles a bar if it is pending and its file is signalled, after the command of that column.
fn ask(bar: &mut Bar, desk: &Desk, column: usize) {
    if !bar.goes_on() {
        return;
    }
    if let Some(points) = desk.file_points(&bar.name) {
        let status = status_of(desk, points);
        if status.is_signalled() {
            bar.settled = Some(BarSettled { column, status });
        }
    }
}

/// The common status of points, as of a file that lists them.
fn status_of(desk: &Desk, points: &[Point]) -> Status {
    let mut status = Status::Signalled;
    for point in points {
        status = status.with(desk.point_status(*point));
    }
    status
}

/// Settles every bar whose file is signalled, after the command of that column.
pub(crate) fn ask_all(bars: &mut [Bar], desk: &Desk, column: usize) {
    for bar in bars.iter_mut() {
        ask(bar, desk, column);
    }
}
