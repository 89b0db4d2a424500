//! The command of each call, from its arguments, or the refusal for the first bad one: Syntax for a name, Flags for a
//! usage's number. `lib.rt` calls one function for each export. Each is inlined, as `reserve` and `keep` are, so that no
//! command is stored as a whole (`NOTES.md`).
ghost use Rattle.std.specs.Prelude.{◌≡◌, ok_or};
ghost use Rattle.c_desk.specs.Commands.{name_of, usage_of, timeline_command, inc_command, shut_command, value_command, fence_command, merge_command, close_command, wait_command, info_command, buffer_command, add_command, import_command, export_command, test_command, trim_command, show_command, watch_command};

use c_handle::usage_of;
use command_core::Command;
use point_core::{Name, Refusal, Usage};

// A name is never part of a `Result` with a refusal: the compiler would take it apart into bytes.

/// The name with these bytes, if it is valid.
#[inline(always)]
fn name(bytes: &[u8]) -> Option<Name>
    ensures { ok_or result Refusal.Syntax ≡ name_of bytes.now }
{
    Name::read(bytes)
}

/// The usage with this number, as Linux's `enum dma_resv_usage` counts.
#[inline(always)]
fn usage(number: i32) -> Result<Usage, Refusal>
    ensures { result ≡ usage_of number }
{
    usage_of(number).ok_or(Refusal::Flags)
}

#[inline(always)]
pub fn timeline(timeline: &[u8]) -> Result<Command, Refusal>
    ensures { result ≡ timeline_command timeline.now }
{
    let Some(timeline) = name(timeline) else {
        return Err(Refusal::Syntax);
    };
    Ok(Command::Timeline(timeline))
}

#[inline(always)]
pub fn inc(timeline: &[u8], n: u64) -> Result<Command, Refusal>
    ensures { result ≡ inc_command timeline.now n }
{
    let Some(timeline) = name(timeline) else {
        return Err(Refusal::Syntax);
    };
    Ok(Command::Inc(timeline, n))
}

#[inline(always)]
pub fn shut(timeline: &[u8]) -> Result<Command, Refusal>
    ensures { result ≡ shut_command timeline.now }
{
    let Some(timeline) = name(timeline) else {
        return Err(Refusal::Syntax);
    };
    Ok(Command::Shut(timeline))
}

#[inline(always)]
pub fn value(timeline: &[u8]) -> Result<Command, Refusal>
    ensures { result ≡ value_command timeline.now }
{
    let Some(timeline) = name(timeline) else {
        return Err(Refusal::Syntax);
    };
    Ok(Command::Value(timeline))
}

#[inline(always)]
pub fn fence(file: &[u8], timeline: &[u8], point: u64) -> Result<Command, Refusal>
    ensures { result ≡ fence_command file.now timeline.now point }
{
    let Some(file) = name(file) else {
        return Err(Refusal::Syntax);
    };
    let Some(timeline) = name(timeline) else {
        return Err(Refusal::Syntax);
    };
    Ok(Command::Fence(file, timeline, point))
}

#[inline(always)]
pub fn merge(file: &[u8], first: &[u8], second: &[u8]) -> Result<Command, Refusal>
    ensures { result ≡ merge_command file.now first.now second.now }
{
    let Some(file) = name(file) else {
        return Err(Refusal::Syntax);
    };
    let Some(first) = name(first) else {
        return Err(Refusal::Syntax);
    };
    let Some(second) = name(second) else {
        return Err(Refusal::Syntax);
    };
    Ok(Command::Merge(file, first, second))
}

#[inline(always)]
pub fn close(file: &[u8]) -> Result<Command, Refusal>
    ensures { result ≡ close_command file.now }
{
    let Some(file) = name(file) else {
        return Err(Refusal::Syntax);
    };
    Ok(Command::Close(file))
}

#[inline(always)]
pub fn wait(file: &[u8]) -> Result<Command, Refusal>
    ensures { result ≡ wait_command file.now }
{
    let Some(file) = name(file) else {
        return Err(Refusal::Syntax);
    };
    Ok(Command::Wait(file))
}

#[inline(always)]
pub fn info(file: &[u8]) -> Result<Command, Refusal>
    ensures { result ≡ info_command file.now }
{
    let Some(file) = name(file) else {
        return Err(Refusal::Syntax);
    };
    Ok(Command::Info(file))
}

#[inline(always)]
pub fn buffer(buffer: &[u8]) -> Result<Command, Refusal>
    ensures { result ≡ buffer_command buffer.now }
{
    let Some(buffer) = name(buffer) else {
        return Err(Refusal::Syntax);
    };
    Ok(Command::Buffer(buffer))
}

#[inline(always)]
pub fn add(buffer: &[u8], timeline: &[u8], point: u64, number: i32) -> Result<Command, Refusal>
    ensures { result ≡ add_command buffer.now timeline.now point number }
{
    let Some(buffer) = name(buffer) else {
        return Err(Refusal::Syntax);
    };
    let Some(timeline) = name(timeline) else {
        return Err(Refusal::Syntax);
    };
    Ok(Command::Add(buffer, timeline, point, usage(number)?))
}

#[inline(always)]
pub fn import(buffer: &[u8], file: &[u8], flags: u32) -> Result<Command, Refusal>
    ensures { result ≡ import_command buffer.now file.now flags }
{
    let Some(buffer) = name(buffer) else {
        return Err(Refusal::Syntax);
    };
    let Some(file) = name(file) else {
        return Err(Refusal::Syntax);
    };
    Ok(Command::Import(buffer, file, flags))
}

#[inline(always)]
pub fn export(file: &[u8], buffer: &[u8], flags: u32) -> Result<Command, Refusal>
    ensures { result ≡ export_command file.now buffer.now flags }
{
    let Some(file) = name(file) else {
        return Err(Refusal::Syntax);
    };
    let Some(buffer) = name(buffer) else {
        return Err(Refusal::Syntax);
    };
    Ok(Command::Export(file, buffer, flags))
}

#[inline(always)]
pub fn test(buffer: &[u8], number: i32) -> Result<Command, Refusal>
    ensures { result ≡ test_command buffer.now number }
{
    let Some(buffer) = name(buffer) else {
        return Err(Refusal::Syntax);
    };
    Ok(Command::Test(buffer, usage(number)?))
}

#[inline(always)]
pub fn trim(buffer: &[u8]) -> Result<Command, Refusal>
    ensures { result ≡ trim_command buffer.now }
{
    let Some(buffer) = name(buffer) else {
        return Err(Refusal::Syntax);
    };
    Ok(Command::Trim(buffer))
}

#[inline(always)]
pub fn show(buffer: &[u8]) -> Result<Command, Refusal>
    ensures { result ≡ show_command buffer.now }
{
    let Some(buffer) = name(buffer) else {
        return Err(Refusal::Syntax);
    };
    Ok(Command::Show(buffer))
}

#[inline(always)]
pub fn watch(file: &[u8], cookie: u64) -> Result<Command, Refusal>
    ensures { result ≡ watch_command file.now cookie }
{
    let Some(file) = name(file) else {
        return Err(Refusal::Syntax);
    };
    Ok(Command::Watch(file, cookie))
}
