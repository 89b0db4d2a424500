//! The desk for C programs: one export for each command, and one that takes the cookies of fired watches.
//!
//! `include/bimphlai.h` has the signatures. A name is a pointer and a length.
#![tactic(auto)]

ghost use Rattle.std.specs.Prelude.{◌≡◌, ◌<◌, ◌≤◌, pos, [], true, false, length, None, IfSome, IfErr, OnOk, OnErr, ⊤};
ghost use Rattle.c_desk.specs.Commands.{timeline_command, inc_command, shut_command, value_command, fence_command, merge_command, close_command, wait_command, info_command, buffer_command, add_command, import_command, export_command, test_command, trim_command, show_command, watch_command, unwatch_command, report_command};
ghost use Rattle.c_desk.specs.Call.{IsCall, reported_or, yes_or, number_of, IsNew, IsOpening, IsTaking};
ghost use Rattle.c_desk.specs.Line.{body_of_bytes, IsKept, IsLineCall, StoresText};
ghost use Rattle.c_desk.specs.Reported.{StoresInfo, StoresReport, StoresTable};
ghost use Rattle.c_desk.specs.Handle.{is_open};

mod answers;
mod commands;
mod handle;
mod line;
mod rows;
mod service;

use crate::answers::{number, refused, store, store_if, store_info, store_report, store_table};
use crate::handle::DeskHandle;
use crate::line::{ANSWER_ROOM, answer_line, body_of_bytes, store_text};
use crate::rows::{CBufferRow, CFenceRow, CFileRow, CShowRow, CTimelineRow, RowCounts};
use crate::service::Service;
use command_core::Command;
use point_core::{LimitKind, Refusal};
use std::alloc::Global;

/// Opens an empty desk at a closed handle.
///
/// Fails with `Exists` if the handle is open, then with `Memory`; the handle stays as it was then.
#[unsafe(no_mangle)]
pub extern "C" fn bim_desk_open(alloc: Global, desk: &mut DeskHandle) -> i32
    ensures { IsOpening desk.old desk.new result }
{
    if desk.is_open() {
        return refused(Refusal::Exists);
    }
    match open(alloc, desk) {
        Ok(()) => 0,
        Err(refusal) => refused(refusal),
    }
}

fn open(alloc: Global, desk: &mut DeskHandle) -> Result<(), Refusal>
    requires { is_open desk.old ≡ false }
    ensures done { OnOk result (IsNew desk.new) }
    ensures memory { IfErr result (λ e. e ≡ Refusal.Memory) }
    ensures unchanged { OnErr result (desk.new ≡ desk.old) }
{
    let service = Service::new(alloc)?;
    match Box::new(alloc, service) {
        Ok(service) => {
            desk.open(service);
            Ok(())
        }
        Err(_) => Err(Refusal::Memory),
    }
}

/// Closes a desk, and frees its memory. A closed handle stays closed.
#[unsafe(no_mangle)]
pub extern "C" fn bim_desk_close(alloc: Global, desk: &mut DeskHandle)
    ensures { is_open desk.new ≡ false }
{
    desk.close(alloc);
}

/// `timeline T`, as libsync's `sw_sync_timeline_create`: stores the timeline's context.
#[unsafe(no_mangle)]
pub extern "C" fn bim_timeline_n(desk: &mut DeskHandle, timeline: &[u8], context: &mut u64) -> i32
    ensures { IsCall desk.old desk.new (timeline_command timeline.now) result (λ given.
        context.new ≡ reported_or given context.old) }
{
    let answer = desk.ask(commands::timeline(timeline));
    store(&answer, context);
    number(&answer)
}

/// `inc T N`, as libsync's `sw_sync_timeline_inc`: stores the timeline's new value.
#[unsafe(no_mangle)]
pub extern "C" fn bim_inc_n(desk: &mut DeskHandle, timeline: &[u8], n: u64, value: &mut u64) -> i32
    ensures { IsCall desk.old desk.new (inc_command timeline.now n) result (λ given.
        value.new ≡ reported_or given value.old) }
{
    let answer = desk.ask(commands::inc(timeline, n));
    store(&answer, value);
    number(&answer)
}

/// `value T`: stores the timeline's value.
#[unsafe(no_mangle)]
pub extern "C" fn bim_value_n(desk: &mut DeskHandle, timeline: &[u8], value: &mut u64) -> i32
    ensures { IsCall desk.old desk.new (value_command timeline.now) result (λ given.
        value.new ≡ reported_or given value.old) }
{
    let answer = desk.ask(commands::value(timeline));
    store(&answer, value);
    number(&answer)
}

/// `shut T`, as the close of a sw_sync timeline's descriptor: stores the timeline's value.
#[unsafe(no_mangle)]
pub extern "C" fn bim_shut_n(desk: &mut DeskHandle, timeline: &[u8], value: &mut u64) -> i32
    ensures { IsCall desk.old desk.new (shut_command timeline.now) result (λ given.
        value.new ≡ reported_or given value.old) }
{
    let answer = desk.ask(commands::shut(timeline));
    store(&answer, value);
    number(&answer)
}

/// `fence F T P`, as libsync's `sw_sync_fence_create`.
#[unsafe(no_mangle)]
pub extern "C" fn bim_fence_n(
    desk: &mut DeskHandle,
    file: &[u8],
    timeline: &[u8],
    point: u64,
) -> i32
    ensures { IsCall desk.old desk.new (fence_command file.now timeline.now point) result (λ _. ⊤) }
{
    number(&desk.ask(commands::fence(file, timeline, point)))
}

/// `merge F A B`, as libsync's `sync_merge`.
#[unsafe(no_mangle)]
pub extern "C" fn bim_merge_n(
    desk: &mut DeskHandle,
    file: &[u8],
    first: &[u8],
    second: &[u8],
) -> i32
    ensures { IsCall desk.old desk.new (merge_command file.now first.now second.now) result (λ _. ⊤) }
{
    number(&desk.ask(commands::merge(file, first, second)))
}

/// `close F`, as the close of a sync file's last descriptor.
#[unsafe(no_mangle)]
pub extern "C" fn bim_close_n(desk: &mut DeskHandle, file: &[u8]) -> i32
    ensures { IsCall desk.old desk.new (close_command file.now) result (λ _. ⊤) }
{
    number(&desk.ask(commands::close(file)))
}

/// `wait F`, as libsync's `sync_wait` with a timeout of 0.
#[unsafe(no_mangle)]
pub extern "C" fn bim_wait_n(desk: &mut DeskHandle, file: &[u8]) -> i32
    ensures { IsCall desk.old desk.new (wait_command file.now) result (λ _. ⊤) }
{
    number(&desk.ask(commands::wait(file)))
}

/// `info F`, as libsync's `sync_file_info`: stores the file's status, the number of its fences, and as many of them as
/// there is room for.
#[unsafe(no_mangle)]
pub extern "C" fn bim_info_n(
    desk: &mut DeskHandle,
    file: &[u8],
    status: &mut i32,
    rows: &mut [CFenceRow],
    count: &mut usize,
) -> i32
    ensures { IsCall desk.old desk.new (info_command file.now) result (λ given.
        StoresInfo given status.old status.new rows.old rows.new count.old count.new) }
{
    let answer = desk.ask(commands::info(file));
    store_info(&answer, status, rows, count);
    number(&answer)
}

/// `buffer B`, as Linux's `dma_resv_init`.
#[unsafe(no_mangle)]
pub extern "C" fn bim_buffer_n(desk: &mut DeskHandle, buffer: &[u8]) -> i32
    ensures { IsCall desk.old desk.new (buffer_command buffer.now) result (λ _. ⊤) }
{
    number(&desk.ask(commands::buffer(buffer)))
}

/// `add B T P U`, as Linux's `dma_resv_add_fence`. The usage is a number of Linux's `enum dma_resv_usage`.
#[unsafe(no_mangle)]
pub extern "C" fn bim_add_n(
    desk: &mut DeskHandle,
    buffer: &[u8],
    timeline: &[u8],
    point: u64,
    usage: i32,
) -> i32
    ensures { IsCall desk.old desk.new (add_command buffer.now timeline.now point usage) result (λ _. ⊤) }
{
    number(&desk.ask(commands::add(buffer, timeline, point, usage)))
}

/// `import B F FLAGS`, as Linux's `DMA_BUF_IOCTL_IMPORT_SYNC_FILE`.
#[unsafe(no_mangle)]
pub extern "C" fn bim_import_n(desk: &mut DeskHandle, buffer: &[u8], file: &[u8], flags: u32) -> i32
    ensures { IsCall desk.old desk.new (import_command buffer.now file.now flags) result (λ _. ⊤) }
{
    number(&desk.ask(commands::import(buffer, file, flags)))
}

/// `export F B FLAGS`, as Linux's `DMA_BUF_IOCTL_EXPORT_SYNC_FILE`.
#[unsafe(no_mangle)]
pub extern "C" fn bim_export_n(desk: &mut DeskHandle, file: &[u8], buffer: &[u8], flags: u32) -> i32
    ensures { IsCall desk.old desk.new (export_command file.now buffer.now flags) result (λ _. ⊤) }
{
    number(&desk.ask(commands::export(file, buffer, flags)))
}

/// `test B U`, as Linux's `dma_resv_test_signaled`: stores 1 for yes and 0 for no.
#[unsafe(no_mangle)]
pub extern "C" fn bim_test_n(
    desk: &mut DeskHandle,
    buffer: &[u8],
    usage: i32,
    signalled: &mut i32,
) -> i32
    ensures { IsCall desk.old desk.new (test_command buffer.now usage) result (λ given.
        signalled.new ≡ yes_or given signalled.old) }
{
    let answer = desk.ask(commands::test(buffer, usage));
    store_if(&answer, signalled);
    number(&answer)
}

/// `trim B`. The kernel has no such call.
#[unsafe(no_mangle)]
pub extern "C" fn bim_trim_n(desk: &mut DeskHandle, buffer: &[u8]) -> i32
    ensures { IsCall desk.old desk.new (trim_command buffer.now) result (λ _. ⊤) }
{
    number(&desk.ask(commands::trim(buffer)))
}

/// `show B`, as Linux's debugfs lists a buffer's reservation: stores the number of rows in its table, and as many of
/// them as there is room for.
#[unsafe(no_mangle)]
pub extern "C" fn bim_show_n(
    desk: &mut DeskHandle,
    buffer: &[u8],
    rows: &mut [CShowRow],
    count: &mut usize,
) -> i32
    ensures { IsCall desk.old desk.new (show_command buffer.now) result (λ given.
        StoresTable given rows.old rows.new count.old count.new) }
{
    let answer = desk.ask(commands::show(buffer));
    store_table(&answer, rows, count);
    number(&answer)
}

/// `report`, as Linux's debugfs lists its objects: stores the numbers of timelines, files and buffers, and as many of
/// each as there is room for.
#[unsafe(no_mangle)]
pub extern "C" fn bim_report_n(
    desk: &mut DeskHandle,
    timelines: &mut [CTimelineRow],
    files: &mut [CFileRow],
    buffers: &mut [CBufferRow],
    counts: &mut RowCounts,
) -> i32
    ensures { IsCall desk.old desk.new report_command result (λ given.
        StoresReport given timelines.old timelines.new files.old files.new
        buffers.old buffers.new counts.old counts.new) }
{
    let answer = desk.ask(Ok(Command::Report));
    store_report(&answer, timelines, files, buffers, counts);
    number(&answer)
}

/// `watch F COOKIE`, as Linux's `dma_fence_add_callback`.
#[unsafe(no_mangle)]
pub extern "C" fn bim_watch_n(desk: &mut DeskHandle, file: &[u8], cookie: u64) -> i32
    ensures { IsCall desk.old desk.new (watch_command file.now cookie) result (λ _. ⊤) }
{
    number(&desk.ask(commands::watch(file, cookie)))
}

/// `unwatch COOKIE`, as Linux's `dma_fence_remove_callback`: stores 1 if there was such a watch, else 0.
#[unsafe(no_mangle)]
pub extern "C" fn bim_unwatch(desk: &mut DeskHandle, cookie: u64, was_there: &mut i32) -> i32
    ensures { IsCall desk.old desk.new (unwatch_command cookie) result (λ given.
        was_there.new ≡ yes_or given was_there.old) }
{
    let answer = desk.ask(Ok(Command::Unwatch(cookie)));
    store_if(&answer, was_there);
    number(&answer)
}

/// Takes cookies that fired, in order, as many as there is room for, and returns how many. A closed handle has none.
#[unsafe(no_mangle)]
pub extern "C" fn bim_take_fired(desk: &mut DeskHandle, cookies: &mut [u64]) -> usize
    ensures { IsTaking desk.old desk.new cookies.old cookies.new result }
{
    if desk.is_open() {
        desk.get_mut().take(cookies)
    } else {
        0
    }
}

/// Runs a line of a script, with or without its line feed, as a script's first line: stores the length of its answer's
/// text, and as much of the text as there is room for, with a NUL after it. A line without an answer has the empty
/// text. The cookies that the line fires are queued, and are not in the text.
///
/// Fails with `NoEntry` if the handle is closed, and then with `Limit` if the room is less than `ANSWER_ROOM`; nothing
/// is done or stored then. A refused line has a text like any other.
#[unsafe(no_mangle)]
pub extern "C" fn bim_line(
    alloc: Global,
    desk: &mut DeskHandle,
    line: &[u8],
    out: &mut [u8],
    count: &mut usize,
) -> i32
    ensures closed { is_open desk.old ≡ false →
        (result ≡ number_of Refusal.NoEntry) × IsKept desk.old desk.new out.old out.new count.old count.new }
    ensures narrow { is_open desk.old ≡ true → length out.old < ANSWER_ROOM →
        (result ≡ pos 6) × IsKept desk.old desk.new out.old out.new count.old count.new }
    ensures silent { is_open desk.old ≡ true → ANSWER_ROOM ≤ length out.old → body_of_bytes line.now ≡ None →
        (result ≡ pos 0) × (desk.new ≡ desk.old) × StoresText [] out.old out.new count.new }
    ensures answered { is_open desk.old ≡ true → ANSWER_ROOM ≤ length out.old → IfSome (body_of_bytes line.now) (λ body.
        IsLineCall desk.old desk.new body out.old out.new count.new result) }
{
    if !desk.is_open() {
        return refused(Refusal::NoEntry);
    }
    if out.len() < ANSWER_ROOM {
        return refused(Refusal::Limit(LimitKind::Script));
    }
    match body_of_bytes(line) {
        None => {
            store_text(b"", out, count);
            0
        }
        Some(body) => answer_line(alloc, desk, body, out, count),
    }
}
