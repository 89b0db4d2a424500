//! Looks up a name on the desk by its kind, and names the kinds.

use command_core::Space;
use desk_core::Desk;
use point_core::Name;

pub(crate) fn word_of(space: Space) -> &'static str {
    match space {
        Space::Timeline => "timeline",
        Space::File => "file",
        Space::Buffer => "buffer",
    }
}

/// Whether there is an object of that kind and name.
pub(crate) fn is_there(desk: &Desk, space: Space, name: &Name) -> bool {
    match space {
        Space::Timeline => desk.timeline_value(name).is_some(),
        Space::File => desk.file_points(name).is_some(),
        Space::Buffer => desk.has_buffer(name),
    }
}
