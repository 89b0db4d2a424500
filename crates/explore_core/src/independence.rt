//! Whether two commands are independent: whichever is made first, both get the same answers, and later ones too. Each command says
//! once what it depends on, and once what it changes; the reduced search asks for two lines of different clients.
ghost use Rattle.std.specs.Prelude.{◌≡◌, true};
ghost use Rattle.explore_core.specs.Flow.{bounds_of};
ghost use Rattle.explore_core.specs.Independence.{AreIndependent, IsNarrow, LeavesAlone, reads_buffer, reads_file, reads_open, reads_reach, reads_value};
ghost use Rattle.explore_core.specs.Search.{has_name};

use crate::flow::Flow;
use crate::look::{has_name, is_name};
use command_core::Command;
use point_core::Name;

/// Whether the commands are independent, if the plan asks only these files what they list.
pub(crate) fn are_independent(
    asked: &[Name],
    flow: &Flow,
    command: &Command,
    other: &Command,
) -> bool
    ensures { result ≡ true → AreIndependent (has_name asked.now) (bounds_of flow.now) command.now other.now }
{
    is_narrow(command)
        && is_narrow(other)
        && leaves_alone(asked, flow, command, other)
        && leaves_alone(asked, flow, other, command)
}

/// Whether the command changes less than everything.
pub(crate) fn is_narrow(command: &Command) -> bool
    ensures { result ≡ true → IsNarrow command.now }
{
    match command {
        Command::Timeline(_) => false,
        Command::Buffer(_) => false,
        Command::Watch(_, _) => false,
        Command::Unwatch(_) => false,
        Command::Report => false,
        _ => true,
    }
}

/// Whether the command changes nothing that the other depends on.
fn leaves_alone(asked: &[Name], flow: &Flow, command: &Command, other: &Command) -> bool
    ensures { result ≡ true → LeavesAlone (has_name asked.now) (bounds_of flow.now) command.now other.now }
{
    match command {
        Command::Inc(timeline, _) => {
            !reads_value(other, timeline) && !reads_reach(asked, flow, other, timeline)
        }
        Command::Shut(timeline) => {
            !reads_open(other, timeline) && !reads_reach(asked, flow, other, timeline)
        }
        Command::Fence(file, _, _) => !reads_file(other, file),
        Command::Merge(file, _, _) => !reads_file(other, file),
        Command::Export(file, _, _) => !reads_file(other, file),
        Command::Close(file) => !reads_file(other, file),
        Command::Add(buffer, _, _, _) => !reads_buffer(other, buffer),
        Command::Import(buffer, _, _) => !reads_buffer(other, buffer),
        _ => true,
    }
}

/// Whether the command depends on the timeline's value.
fn reads_value(command: &Command, timeline: &Name) -> bool
    ensures { result ≡ reads_value command.now timeline.now }
{
    match command {
        Command::Inc(raised, _) => is_name(raised, timeline),
        Command::Value(asked) => is_name(asked, timeline),
        Command::Shut(shut) => is_name(shut, timeline),
        _ => false,
    }
}

/// Whether the command depends on the timeline being open.
fn reads_open(command: &Command, timeline: &Name) -> bool
    ensures { result ≡ reads_open command.now timeline.now }
{
    match command {
        Command::Inc(raised, _) => is_name(raised, timeline),
        Command::Shut(shut) => is_name(shut, timeline),
        Command::Fence(_, of, _) => is_name(of, timeline),
        _ => false,
    }
}

/// Whether the command depends on which points of the timeline are reached.
fn reads_reach(asked: &[Name], flow: &Flow, command: &Command, timeline: &Name) -> bool
    ensures { result ≡ reads_reach (has_name asked.now) (bounds_of flow.now) command.now timeline.now }
{
    match command {
        Command::Merge(file, one, two) => {
            has_name(asked, file)
                && (flow.may_reach_file(one, timeline) || flow.may_reach_file(two, timeline))
        }
        Command::Export(file, buffer, _) => {
            has_name(asked, file) && flow.may_reach_buffer(buffer, timeline)
        }
        Command::Info(file) => flow.may_reach_file(file, timeline),
        Command::Test(buffer, _) => flow.may_reach_buffer(buffer, timeline),
        Command::Show(buffer) => flow.may_reach_buffer(buffer, timeline),
        _ => false,
    }
}

/// Whether the command depends on the file, or on whether there is one of that name.
fn reads_file(command: &Command, file: &Name) -> bool
    ensures { result ≡ reads_file command.now file.now }
{
    match command {
        Command::Fence(made, _, _) => is_name(made, file),
        Command::Merge(made, one, two) => {
            is_name(made, file) || (is_name(one, file) || is_name(two, file))
        }
        Command::Close(closed) => is_name(closed, file),
        Command::Wait(waited) => is_name(waited, file),
        Command::Info(asked) => is_name(asked, file),
        Command::Import(_, from, _) => is_name(from, file),
        Command::Export(made, _, _) => is_name(made, file),
        _ => false,
    }
}

/// Whether the command depends on what was put into the buffer.
fn reads_buffer(command: &Command, buffer: &Name) -> bool
    ensures { result ≡ reads_buffer command.now buffer.now }
{
    match command {
        Command::Export(_, from, _) => is_name(from, buffer),
        Command::Test(tested, _) => is_name(tested, buffer),
        Command::Show(shown) => is_name(shown, buffer),
        _ => false,
    }
}
