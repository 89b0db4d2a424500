//! `Setup`: what all visits of one level go by: the plan, what is worked out of it once, and how long the level's schedules are. A
//! `Search` makes it, and changes only the depth.
use crate::chooser::Chooser;
use crate::plan::Plan;
use point_core::Name;
use std::alloc::Global;

#[derive(Drop)]
pub(crate) struct Setup<'a> {
    pub(crate) alloc: Global,
    pub(crate) plan: &'a Plan,
    /// The files that a line of the plan asks what they list.
    pub(crate) asked: Vec<Name>,
    pub(crate) chooser: Chooser,
    /// How many lines are made before each state of the level.
    pub(crate) depth: usize,
}
