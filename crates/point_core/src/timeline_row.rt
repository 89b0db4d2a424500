//! `TimelineRow`: a timeline's row in a report. `timeline_core` fills it, and every printer shows it.

use crate::name::Name;

/// A timeline, its value, and whether it is closed.
#[derive(Clone, Copy, Debug, PartialEq, Eq, Hash)]
pub struct TimelineRow {
    pub name: Name,
    pub value: u64,
    pub closed: bool,
}
