//! How far the points for which something waits are from being reached.
use desk_core::Desk;
use picture_core::{Bar, BarWait, Waiting};
use point_core::{Name, Point};
use std::alloc::{AllocError, Global};

/// What the files of bars wait for, from bar to bar. The points of `unknown` files mean nothing.
pub(crate) fn waits_of(
    alloc: Global,
    desk: &Desk,
    bars: &[Bar],
    unknown: &[Name],
) -> Result<Vec<BarWait>, AllocError> {
    let mut waits = Vec::new(alloc);
    for (place, bar) in bars.iter().enumerate() {
        if bar.goes_on() && unknown.contains(&bar.name) {
            waits.push(BarWait {
                bar: place,
                waiting: None,
            })?;
        } else if bar.goes_on() {
            push_waits(desk, place, points_listed(desk, &bar.name), &mut waits)?;
        }
    }
    Ok(waits)
}

fn push_waits(
    desk: &Desk,
    bar: usize,
    points: &[Point],
    waits: &mut Vec<BarWait>,
) -> Result<(), AllocError> {
    for point in points {
        if let Some(waiting) = waiting_for(desk, point) {
            waits.push(BarWait {
                bar,
                waiting: Some(waiting),
            })?;
        }
    }
    Ok(())
}

/// The points that a file lists; none if there is no such file.
pub(crate) fn points_listed<'a>(desk: &'a Desk, file: &Name) -> &'a [Point] {
    match desk.file_points(file) {
        Some(points) => points,
        None => &[],
    }
}

/// How far a point is from being reached. None for a point that is reached or cancelled.
pub(crate) fn waiting_for(desk: &Desk, point: &Point) -> Option<Waiting> {
    let timeline = desk.timeline_name(point.ctx)?;
    if desk.point_status(*point).is_signalled() {
        return None;
    }
    waiting_on(desk, &timeline, point.value)
}

/// How far a timeline is from a value. None if the timeline has reached it.
pub(crate) fn waiting_on(desk: &Desk, timeline: &Name, point: u64) -> Option<Waiting> {
    let value = desk.timeline_value(timeline)?;
    let to_go = point.saturating_sub(value);
    if to_go == 0 {
        return None;
    }
    Some(Waiting {
        timeline: *timeline,
        point,
        to_go,
    })
}
