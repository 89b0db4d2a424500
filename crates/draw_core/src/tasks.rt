//! The lanes of tasks that wait, once all bars are known.
ghost use Rattle.std.specs.Prelude.{◌≡◌};

use crate::margin::NotedWait;
use picture_core::{Bar, History, Lane, Lanes, Link, TaskLane, TaskWait};
use std::alloc::{AllocError, Global};

/// Adds the waits for files that have a bar, and the lanes of their tasks.
pub(crate) fn enter_tasks(
    alloc: Global,
    waits: &[NotedWait],
    history: &mut History,
) -> Result<(), AllocError>
    ensures refused { history.new.refused ≡ history.old.refused }
{
    for wait in waits {
        enter_task(alloc, wait, history)?;
    }
    Ok(())
}

fn enter_task(alloc: Global, wait: &NotedWait, history: &mut History) -> Result<(), AllocError>
    ensures refused { history.new.refused ≡ history.old.refused }
{
    match place_of_bar(history.bars.as_slice(), wait) {
        Some(bar) => enter_wait(alloc, wait, bar, &mut history.lanes),
        None => Ok(()),
    }
}

fn enter_wait(
    alloc: Global,
    wait: &NotedWait,
    bar: usize,
    lanes: &mut Lanes,
) -> Result<(), AllocError> {
    let task = place_of_task(alloc, &mut lanes.tasks, wait.task.as_slice())?;
    lanes.task_waits.push(TaskWait {
        task,
        column: wait.column,
        bar,
        end: wait.end,
    })?;
    if wait.column == 0 {
        return Ok(());
    }
    lanes.links.push(Link {
        column: wait.column,
        from: Lane::Bar(bar),
        to: Lane::Task(task),
    })?;
    Ok(())
}

/// The last bar of the file that was made before the wait, unless the wait was over before the first column.
fn place_of_bar(bars: &[Bar], wait: &NotedWait) -> Option<usize> {
    if wait.end == Some(0) {
        return None;
    }
    let mut found = None;
    for (place, bar) in bars.iter().enumerate() {
        if bar.name == wait.file && bar.made <= wait.column && !was_settled(bar) {
            found = Some(place);
        }
    }
    found
}

/// Whether the file was signalled before the first column.
fn was_settled(bar: &Bar) -> bool {
    match bar.settled {
        Some(settled) => settled.column == 0,
        None => false,
    }
}

/// The lane of a task, which gets one if it has none.
fn place_of_task(
    alloc: Global,
    tasks: &mut Vec<TaskLane>,
    name: &[u8],
) -> Result<usize, AllocError> {
    for (place, lane) in tasks.iter().enumerate() {
        if lane.name.as_slice() == name {
            return Ok(place);
        }
    }
    let place = tasks.len();
    let name = Vec::from_slice(alloc, name)?;
    tasks.push(TaskLane { name })?;
    Ok(place)
}
