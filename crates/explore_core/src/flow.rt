//! `Flow`: for each file and each buffer, the timelines whose points may be pending there while the chosen clients of a choice stand
//! still. A `test` of a buffer is independent of an increment of any other timeline, so a search follows fewer orders. The flow has what
//! is pending at the state, and what the lines ahead put. `has_pending` and `bounds` test this, so no proof depends on how a trial
//! (`trial.rt`) fills the flow.
ghost use Rattle.std.specs.Prelude.{◌≡◌, true, All, List};
ghost use Rattle.std.specs.List.{list_all};
ghost use Rattle.syncfile_core.specs.Files.{names_of as file_names};
ghost use Rattle.dmabuf_core.specs.Buffers.{names_of as buffer_names};
ghost use Rattle.command_core.specs.declared.command.Command.{Command as Made};
ghost use Rattle.desk_core.specs.theorem.Desk.{HasHistory};
ghost use Rattle.desk_core.specs.theorem.History.{world_of};
ghost use Rattle.explore_core.specs.Flow.{bounds_of, has_put, is_put, allows_buffer, allows_context, allows_file, allows_point, allows_row, AllowsAll, RespectsBounds};
ghost use Rattle.explore_core.specs.Independence.{IsWithin};

use crate::persistence::is_reached;
use command_core::Command;
use desk_core::Desk;
use point_core::{Context, Name, Point, TopRow};
use std::alloc::{AllocError, Global};

/// For each file and each buffer, the timelines whose points may be pending in it.
#[derive(Drop)]
pub(crate) struct Flow {
    files: Vec<Put>,
    buffers: Vec<Put>,
}

/// Points of the timeline may be pending in the file or buffer.
#[derive(Clone, Copy)]
struct Put {
    into: Name,
    timeline: Name,
}

impl Flow {
    pub(crate) fn new(alloc: Global) -> Flow {
        Flow {
            files: Vec::new(alloc),
            buffers: Vec::new(alloc),
        }
    }

    /// Takes over what another flow has.
    pub(crate) fn begin_as(&mut self, other: &Flow) -> Result<(), AllocError> {
        self.files.clear();
        self.buffers.clear();
        self.files.extend_from_slice(other.files.as_slice())?;
        self.buffers.extend_from_slice(other.buffers.as_slice())?;
        Ok(())
    }

    /// Adds what is pending at the desk.
    pub(crate) fn add_pending(&mut self, desk: &Desk) -> Result<(), AllocError> {
        self.add_pending_in_files(desk)?;
        self.add_pending_in_buffers(desk)
    }

    fn add_pending_in_files(&mut self, desk: &Desk) -> Result<(), AllocError> {
        let Ok(files) = desk.file_names() else {
            return Err(AllocError);
        };
        for file in files.as_slice() {
            self.add_pending_in_file(desk, file)?;
        }
        Ok(())
    }

    fn add_pending_in_buffers(&mut self, desk: &Desk) -> Result<(), AllocError> {
        let Ok(buffers) = desk.buffer_names() else {
            return Err(AllocError);
        };
        for buffer in buffers.as_slice() {
            self.add_pending_in_buffer(desk, buffer)?;
        }
        Ok(())
    }

    fn add_pending_in_file(&mut self, desk: &Desk, file: &Name) -> Result<(), AllocError> {
        let Some(points) = desk.file_points(file) else {
            return Ok(());
        };
        for point in points {
            if !is_reached(desk, point) {
                add_context(&mut self.files, desk, file, point.ctx)?;
            }
        }
        Ok(())
    }

    fn add_pending_in_buffer(&mut self, desk: &Desk, buffer: &Name) -> Result<(), AllocError> {
        let Ok(rows) = desk.buffer_rows(buffer) else {
            return Err(AllocError);
        };
        for row in rows.as_slice() {
            add_context(&mut self.buffers, desk, buffer, row.ctx)?;
        }
        Ok(())
    }

    /// Follows the commands until nothing more gets anywhere.
    pub(crate) fn fill(&mut self, commands: &[Command]) -> Result<(), AllocError> {
        // Each round but the last gets a timeline one command further.
        for _ in 0..commands.len() {
            if !self.follow_all(commands)? {
                return Ok(());
            }
        }
        Ok(())
    }

    /// Whether points of the timeline may be pending in the file.
    pub(crate) fn may_reach_file(&self, file: &Name, timeline: &Name) -> bool
        ensures { result ≡ (bounds_of self.now).file file.now timeline.now }
    {
        has_put(self.files.as_slice(), file, timeline)
    }

    /// Whether points of the timeline may be pending in the buffer.
    pub(crate) fn may_reach_buffer(&self, buffer: &Name, timeline: &Name) -> bool
        ensures { result ≡ (bounds_of self.now).buffer buffer.now timeline.now }
    {
        has_put(self.buffers.as_slice(), buffer, timeline)
    }

    /// Whether the flow has each timeline of which a point is pending at the desk. Says no if memory is short.
    pub(crate) fn has_pending(&self, desk: &Desk) -> bool
        ensures { result ≡ true → (history : List Made) → HasHistory desk.now history → IsWithin (bounds_of self.now) (world_of history) }
    {
        self.has_pending_in_files(desk) && self.has_pending_in_buffers(desk)
    }

    fn has_pending_in_files(&self, desk: &Desk) -> bool
        ensures { result ≡ true → list_all (allows_file (bounds_of self.now) desk.now) (file_names desk.now.files) ≡ true }
    {
        let Ok(names) = desk.file_names() else {
            return false;
        };
        self.allows_files(desk, names.as_slice())
    }

    fn has_pending_in_buffers(&self, desk: &Desk) -> bool
        ensures { result ≡ true → All (λ name. allows_buffer (bounds_of self.now) desk.now name ≡ true) (buffer_names desk.now.buffers) }
    {
        let Ok(names) = desk.buffer_names() else {
            return false;
        };
        self.allows_buffers(desk, names.as_slice())
    }

    fn allows_files(&self, desk: &Desk, names: &[Name]) -> bool
        ensures { result ≡ list_all (allows_file (bounds_of self.now) desk.now) names.now }
    {
        names.iter().all(|name| self.allows_file(desk, name))
    }

    fn allows_file(&self, desk: &Desk, name: &Name) -> bool
        ensures { result ≡ allows_file (bounds_of self.now) desk.now name.now }
    {
        let Some(points) = desk.file_points(name) else {
            return true;
        };
        allow_points(self.files.as_slice(), name, desk, points)
    }

    fn allows_buffers(&self, desk: &Desk, names: &[Name]) -> bool
        ensures { result ≡ true → All (λ name. allows_buffer (bounds_of self.now) desk.now name ≡ true) names.now }
    {
        for name in names {
            if !self.allows_buffer(desk, name) {
                return false;
            }
        }
        true
    }

    fn allows_buffer(&self, desk: &Desk, name: &Name) -> bool
        ensures { result ≡ true → allows_buffer (bounds_of self.now) desk.now name.now ≡ true }
    {
        let Ok(rows) = desk.buffer_rows(name) else {
            return false;
        };
        allow_rows(self.buffers.as_slice(), name, desk, rows.as_slice())
    }

    /// Whether the flow has what the command puts into a file or a buffer.
    pub(crate) fn bounds(&self, command: &Command) -> bool
        ensures { result ≡ true → RespectsBounds (bounds_of self.now) command.now }
    {
        let files = self.files.as_slice();
        let buffers = self.buffers.as_slice();
        match command {
            Command::Fence(file, timeline, _) => has_put(files, file, timeline),
            Command::Merge(file, first, second) => {
                allows_all(files, first, files, file) && allows_all(files, second, files, file)
            }
            Command::Add(buffer, timeline, _, _) => has_put(buffers, buffer, timeline),
            Command::Import(buffer, file, _) => allows_all(files, file, buffers, buffer),
            Command::Export(file, buffer, _) => allows_all(buffers, buffer, files, file),
            _ => true,
        }
    }

    /// Follows each command once. Whether something more got somewhere.
    fn follow_all(&mut self, commands: &[Command]) -> Result<bool, AllocError> {
        let files = self.files.len();
        let buffers = self.buffers.len();
        for command in commands {
            self.follow(command)?;
        }
        Ok(self.files.len() != files || self.buffers.len() != buffers)
    }

    fn follow(&mut self, command: &Command) -> Result<(), AllocError> {
        match command {
            Command::Fence(file, timeline, _) => add_put(&mut self.files, file, timeline),
            Command::Merge(file, first, second) => {
                add_all_within(&mut self.files, first, file)?;
                add_all_within(&mut self.files, second, file)
            }
            Command::Add(buffer, timeline, _, _) => add_put(&mut self.buffers, buffer, timeline),
            Command::Import(buffer, file, _) => {
                add_all(self.files.as_slice(), file, &mut self.buffers, buffer)
            }
            Command::Export(file, buffer, _) => {
                add_all(self.buffers.as_slice(), buffer, &mut self.files, file)
            }
            _ => Ok(()),
        }
    }
}

/// Whether each of the points is reached, or its timeline may be pending in the file.
fn allow_points(puts: &[Put], file: &Name, desk: &Desk, points: &[Point]) -> bool
    ensures { result ≡ list_all (allows_point desk.now.timelines (has_put puts.now file.now)) points.now }
{
    points
        .iter()
        .all(|point| allows_point(puts, file, desk, point))
}

fn allows_point(puts: &[Put], file: &Name, desk: &Desk, point: &Point) -> bool
    ensures { result ≡ allows_point desk.now.timelines (has_put puts.now file.now) point.now }
{
    is_reached(desk, point) || allows_context(puts, file, desk, point.ctx)
}

/// Whether the timeline of each of the rows may be pending in the buffer.
fn allow_rows(puts: &[Put], buffer: &Name, desk: &Desk, rows: &[TopRow]) -> bool
    ensures { result ≡ list_all (allows_row desk.now.timelines (has_put puts.now buffer.now)) rows.now }
{
    rows.iter().all(|row| allows_row(puts, buffer, desk, row))
}

fn allows_row(puts: &[Put], buffer: &Name, desk: &Desk, row: &TopRow) -> bool
    ensures { result ≡ allows_row desk.now.timelines (has_put puts.now buffer.now) row.now }
{
    allows_context(puts, buffer, desk, row.ctx)
}

/// Whether the timeline of that context may be pending in the file or buffer.
fn allows_context(puts: &[Put], into: &Name, desk: &Desk, ctx: Context) -> bool
    ensures { result ≡ allows_context desk.now.timelines (has_put puts.now into.now) ctx }
{
    let Some(timeline) = desk.timeline_name(ctx) else {
        return false;
    };
    has_put(puts, into, &timeline)
}

fn has_put(puts: &[Put], into: &Name, timeline: &Name) -> bool
    ensures { result ≡ has_put puts.now into.now timeline.now }
{
    for put in puts {
        if is_put(put, into, timeline) {
            return true;
        }
    }
    false
}

fn is_put(put: &Put, into: &Name, timeline: &Name) -> bool
    ensures { result ≡ is_put into.now timeline.now put.now }
{
    put.into == *into && put.timeline == *timeline
}

/// Whether each timeline whose points may get into the one may get into the other too.
fn allows_all(puts: &[Put], from: &Name, others: &[Put], into: &Name) -> bool
    ensures { result ≡ true → AllowsAll (has_put puts.now from.now) (has_put others.now into.now) }
{
    for put in puts {
        if !is_allowed(put, from, others, into) {
            return false;
        }
    }
    true
}

/// Whether points that get into the one by this put may get into the other too.
fn is_allowed(put: &Put, from: &Name, others: &[Put], into: &Name) -> bool
    ensures { result ≡ true → AllowsAll (λ timeline. is_put from.now timeline put.now) (has_put others.now into.now) }
{
    if put.into == *from {
        return has_put(others, into, &put.timeline);
    }
    true
}

/// Adds the put, unless it is there.
fn add_put(puts: &mut Vec<Put>, into: &Name, timeline: &Name) -> Result<(), AllocError> {
    if has_put(puts.as_slice(), into, timeline) {
        return Ok(());
    }
    puts.push(Put {
        into: *into,
        timeline: *timeline,
    })?;
    Ok(())
}

fn add_context(
    puts: &mut Vec<Put>,
    desk: &Desk,
    into: &Name,
    ctx: Context,
) -> Result<(), AllocError> {
    let Some(timeline) = desk.timeline_name(ctx) else {
        return Ok(());
    };
    add_put(puts, into, &timeline)
}

/// What may be pending in the one may be pending in the other too.
fn add_all(
    puts: &[Put],
    from: &Name,
    others: &mut Vec<Put>,
    into: &Name,
) -> Result<(), AllocError> {
    for put in puts {
        if put.into == *from {
            add_put(others, into, &put.timeline)?;
        }
    }
    Ok(())
}

/// `add_all` of two files.
fn add_all_within(puts: &mut Vec<Put>, from: &Name, into: &Name) -> Result<(), AllocError> {
    for place in 0..puts.len() {
        let Some(put) = puts.get(place).copied() else {
            return Ok(());
        };
        if put.into == *from {
            add_put(puts, into, &put.timeline)?;
        }
    }
    Ok(())
}
