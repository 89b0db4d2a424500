//! The device for C programs: one export for each request, one that takes the files that were woken, and queries
//! that change nothing. `bimphlai-run` serves its processes with it.
//!
//! `include/bimphlai.h` has the signatures. A name is a pointer and a length. A request or a query returns 0 or Linux's errno:
//! EBADF for a closed handle, EINVAL for a number of no usage, and then `device_core`'s. A refused one stores nothing.
#![tactic(auto)]

ghost use Rattle.std.specs.Prelude.{◌≡◌, false, IfErr, OnOk, OnErr, Ok, ⊤};
ghost use Rattle.device_core.specs.declared.errno.Errno.TheVariants.{NoMemory};
ghost use Rattle.device_core.specs.declared.request.Request.TheVariants as request;
ghost use Rattle.device_core.specs.theorem.Names.{as_text};
ghost use Rattle.c_device.specs.Requests.{test_request, usage_of};
ghost use Rattle.c_device.specs.Call.{IsCall, IsNew, IsOpening, IsTaking};
ghost use Rattle.c_device.specs.Handle.{is_open};
ghost use Rattle.c_device.specs.Queries.{AnswersDue, AnswersFence, AnswersValue, IsQueryCall, c_point_or, due_or, found_or};
ghost use Rattle.c_device.specs.Raising.{IsRaiseCall};
ghost use Rattle.c_device.specs.Reported.{StoresInfo, number_or, status_or, yes_or};

mod answers;
mod handle;
mod rows;
mod service;

use crate::answers::{
    EEXIST, errno, number, store, store_due, store_found, store_if, store_info, store_point,
    store_status,
};
use crate::handle::DeviceHandle;
use crate::rows::{CFenceInfo, CFileInfo, CPoint, CRaised};
use crate::service::Service;
use c_handle::usage_of;
use device_core::{Errno, Request, Text};
use point_core::Usage;
use std::alloc::Global;

/// Opens an empty device at a closed handle.
///
/// Fails with EEXIST if the handle is open, then with ENOMEM; the handle stays as it was then.
#[unsafe(no_mangle)]
pub extern "C" fn bim_device_open(alloc: Global, device: &mut DeviceHandle) -> i32
    ensures { IsOpening device.old device.new result }
{
    if device.is_open() {
        return EEXIST;
    }
    match open(alloc, device) {
        Ok(()) => 0,
        Err(refusal) => errno(refusal),
    }
}

fn open(alloc: Global, device: &mut DeviceHandle) -> Result<(), Errno>
    requires { is_open device.old ≡ false }
    ensures done { OnOk result (IsNew device.new) }
    ensures memory { IfErr result (λ e. e ≡ NoMemory) }
    ensures unchanged { OnErr result (device.new ≡ device.old) }
{
    match Box::new(alloc, Service::new(alloc)) {
        Ok(service) => {
            device.open(service);
            Ok(())
        }
        Err(_) => Err(Errno::NoMemory),
    }
}

/// Closes a device, and frees its memory. A closed handle stays closed.
#[unsafe(no_mangle)]
pub extern "C" fn bim_device_close(alloc: Global, device: &mut DeviceHandle)
    ensures { is_open device.new ≡ false }
{
    device.close(alloc);
}

/// Opens a timeline at 0, as opening `sync/sw_sync` does, and stores its number. The name of the task is cut as the
/// kernel cuts it.
#[unsafe(no_mangle)]
pub extern "C" fn bim_device_timeline_n(
    device: &mut DeviceHandle,
    task: &[u8],
    timeline: &mut u64,
) -> i32
    ensures { IsCall device.old device.new (Ok (request.Open (as_text task.now))) result (λ given.
        timeline.new ≡ number_or given timeline.old) }
{
    let given = device.ask(Ok(Request::Open(Text::of(task))));
    store(&given, timeline);
    number(&given)
}

/// `SW_SYNC_IOC_CREATE_FENCE`: makes a file of one point, and stores its number.
#[unsafe(no_mangle)]
pub extern "C" fn bim_device_fence(
    device: &mut DeviceHandle,
    timeline: u64,
    point: u32,
    now: u64,
    file: &mut u64,
) -> i32
    ensures { IsCall device.old device.new (Ok (request.Fence timeline point now)) result (λ given.
        file.new ≡ number_or given file.old) }
{
    let given = device.ask(Ok(Request::Fence(timeline, point, now)));
    store(&given, file);
    number(&given)
}

/// `SW_SYNC_IOC_INC`. The files that it signals are queued. Stores their number, and the timeline's first point that is
/// pending after it, or 0.
#[unsafe(no_mangle)]
pub extern "C" fn bim_device_inc(
    device: &mut DeviceHandle,
    timeline: u64,
    n: u32,
    now: u64,
    raised: &mut CRaised,
) -> i32
    ensures { IsRaiseCall device.old device.new timeline n now result raised.old raised.new }
{
    let given = device.inc(timeline, n, now);
    store_found(&given, raised);
    number(&given)
}

/// `SYNC_IOC_MERGE`: makes a file of the pending fences of two files, and stores its number. The name is cut as the
/// kernel cuts it.
#[unsafe(no_mangle)]
pub extern "C" fn bim_device_merge_n(
    device: &mut DeviceHandle,
    a: u64,
    b: u64,
    name: &[u8],
    file: &mut u64,
) -> i32
    ensures { IsCall device.old device.new (Ok (request.Merge a b (as_text name.now))) result (λ given.
        file.new ≡ number_or given file.old) }
{
    let given = device.ask(Ok(Request::Merge(a, b, Text::of(name))));
    store(&given, file);
    number(&given)
}

/// The status that `SYNC_IOC_FILE_INFO` reports on a file.
#[unsafe(no_mangle)]
pub extern "C" fn bim_device_status(device: &mut DeviceHandle, file: u64, status: &mut i32) -> i32
    ensures { IsCall device.old device.new (Ok (request.Status file)) result (λ given.
        status.new ≡ status_or given status.old) }
{
    let given = device.ask(Ok(Request::Status(file)));
    store_status(&given, status);
    number(&given)
}

/// A poll of a file: stores 1 if it is signalled, and 0 if not.
#[unsafe(no_mangle)]
pub extern "C" fn bim_device_is_signalled(
    device: &mut DeviceHandle,
    file: u64,
    signalled: &mut i32,
) -> i32
    ensures { IsCall device.old device.new (Ok (request.IsSignalled file)) result (λ given.
        signalled.new ≡ yes_or given signalled.old) }
{
    let given = device.ask(Ok(Request::IsSignalled(file)));
    store_if(&given, signalled);
    number(&given)
}

/// `SYNC_IOC_FILE_INFO`: stores the information on a file with the number of its fences, and as many of these as there
/// is room for.
#[unsafe(no_mangle)]
pub extern "C" fn bim_device_info_n(
    device: &mut DeviceHandle,
    file: u64,
    info: &mut CFileInfo,
    rows: &mut [CFenceInfo],
) -> i32
    ensures { IsCall device.old device.new (Ok (request.Info file)) result (λ given.
        StoresInfo given info.old info.new rows.old rows.new) }
{
    let given = device.ask(Ok(Request::Info(file)));
    store_info(&given, info, rows);
    number(&given)
}

/// The last close of a timeline, a file or a buffer. The files that it signals are queued.
#[unsafe(no_mangle)]
pub extern "C" fn bim_device_release(device: &mut DeviceHandle, object: u64, now: u64) -> i32
    ensures { IsCall device.old device.new (Ok (request.Close object now)) result (λ _. ⊤) }
{
    number(&device.ask(Ok(Request::Close(object, now))))
}

/// Makes a buffer, and stores its number.
#[unsafe(no_mangle)]
pub extern "C" fn bim_device_buffer(device: &mut DeviceHandle, now: u64, buffer: &mut u64) -> i32
    ensures { IsCall device.old device.new (Ok (request.Buffer now)) result (λ given.
        buffer.new ≡ number_or given buffer.old) }
{
    let given = device.ask(Ok(Request::Buffer(now)));
    store(&given, buffer);
    number(&given)
}

/// `DMA_BUF_IOCTL_EXPORT_SYNC_FILE`: makes a file of the fences for which an access with these flags waits, and stores
/// its number.
#[unsafe(no_mangle)]
pub extern "C" fn bim_device_export(
    device: &mut DeviceHandle,
    buffer: u64,
    flags: u32,
    file: &mut u64,
) -> i32
    ensures { IsCall device.old device.new (Ok (request.Export buffer flags)) result (λ given.
        file.new ≡ number_or given file.old) }
{
    let given = device.ask(Ok(Request::Export(buffer, flags)));
    store(&given, file);
    number(&given)
}

/// `DMA_BUF_IOCTL_IMPORT_SYNC_FILE`: puts the pending fences of a file into a buffer. The file stays open.
#[unsafe(no_mangle)]
pub extern "C" fn bim_device_import(
    device: &mut DeviceHandle,
    buffer: u64,
    file: u64,
    flags: u32,
) -> i32
    ensures { IsCall device.old device.new (Ok (request.Import buffer file flags)) result (λ _. ⊤) }
{
    number(&device.ask(Ok(Request::Import(buffer, file, flags))))
}

/// A poll of a buffer: stores 1 if its fences are signalled, and 0 if not. The usage is a number of Linux's `enum
/// dma_resv_usage`.
#[unsafe(no_mangle)]
pub extern "C" fn bim_device_test(
    device: &mut DeviceHandle,
    buffer: u64,
    usage: i32,
    signalled: &mut i32,
) -> i32
    ensures { IsCall device.old device.new (test_request buffer usage) result (λ given.
        signalled.new ≡ yes_or given signalled.old) }
{
    let given = device.ask(test_request(buffer, usage));
    store_if(&given, signalled);
    number(&given)
}

#[inline(always)]
fn test_request(buffer: u64, number: i32) -> Result<Request, Errno>
    ensures { result ≡ test_request buffer number }
{
    Ok(Request::Test(buffer, usage(number)?))
}

/// The usage with this number, as Linux's `enum dma_resv_usage` counts.
#[inline(always)]
fn usage(number: i32) -> Result<Usage, Errno>
    ensures { result ≡ usage_of number }
{
    usage_of(number).ok_or(Errno::Invalid)
}

/// Stores the value of a timeline.
#[unsafe(no_mangle)]
pub extern "C" fn bim_device_value(device: &mut DeviceHandle, timeline: u64, value: &mut u64) -> i32
    ensures { IsQueryCall device.old device.new (AnswersValue timeline) result (λ found.
        value.new ≡ found_or found value.old) }
{
    let found = device.value(timeline);
    store_found(&found, value);
    number(&found)
}

/// Stores the least point at which an increment by n would signal a fence of a file, and 0 if it would signal none.
#[unsafe(no_mangle)]
pub extern "C" fn bim_device_first_due(
    device: &mut DeviceHandle,
    timeline: u64,
    n: u64,
    point: &mut u64,
) -> i32
    ensures { IsQueryCall device.old device.new (AnswersDue timeline n) result (λ found.
        point.new ≡ due_or found point.old) }
{
    let found = device.first_due(timeline, n);
    store_due(&found, point);
    number(&found)
}

/// Stores the point of the fence of a file at an index, and whether it is pending.
#[unsafe(no_mangle)]
pub extern "C" fn bim_device_fence_of(
    device: &mut DeviceHandle,
    file: u64,
    index: usize,
    point: &mut CPoint,
) -> i32
    ensures { IsQueryCall device.old device.new (AnswersFence file index) result (λ found.
        point.new ≡ c_point_or found point.old) }
{
    let found = device.fence_of(file, index);
    store_point(&found, point);
    number(&found)
}

/// Takes files that were woken and are still open, in the order of waking (by rising number in one request), as many as
/// there is room for, and returns how many. A closed handle has none.
#[unsafe(no_mangle)]
pub extern "C" fn bim_device_take_woken(device: &mut DeviceHandle, files: &mut [u64]) -> usize
    ensures { IsTaking device.old device.new files.old files.new result }
{
    if device.is_open() {
        device.get_mut().take(files)
    } else {
        0
    }
}
