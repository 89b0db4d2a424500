//! Stores an answer into the out-parameters of a C call, and returns Linux's errno. Parameters for which an answer has
//! no value keep their old ones.
ghost use Rattle.std.specs.Prelude.{◌≡◌};
ghost use Rattle.c_device.specs.Call.{errno_of, number_of};
ghost use Rattle.c_device.specs.Queries.{c_point_or, due_or, found_or};
ghost use Rattle.c_device.specs.Reported.{StoresInfo, number_or, status_or, yes_or};

use crate::handle::{CallReply, CallResult};
use crate::rows::{CFenceInfo, CFileInfo, CPoint, c_point, put};
use device_core::{Errno, Fence, Reply};

/// The errno for a closed handle, as for a bad descriptor.
const EBADF: i32 = 9;

/// The errno for opening a handle that is open.
pub const EEXIST: i32 = 17;

/// 0, or the errno of the refusal.
#[inline(always)]
pub fn number<T>(given: &CallResult<T>) -> i32
    ensures { result ≡ number_of given.now }
{
    match given {
        None => EBADF,
        Some(Ok(_)) => 0,
        Some(Err(refusal)) => errno(*refusal),
    }
}

/// The errno that Linux gives.
#[inline(always)]
pub fn errno(refusal: Errno) -> i32
    ensures { result ≡ errno_of refusal }
{
    refusal as i32
}

/// Stores the number of the new object, if the answer has one.
#[inline(always)]
pub fn store(given: &CallReply, number: &mut u64)
    ensures { number.new ≡ number_or given.now number.old }
{
    if let Some(Ok(Reply::Number(made))) = given {
        *number = *made;
    }
}

/// Stores a status, if the answer is one.
#[inline(always)]
pub fn store_status(given: &CallReply, status: &mut i32)
    ensures { status.new ≡ status_or given.now status.old }
{
    if let Some(Ok(Reply::Status(told))) = given {
        *status = told.number();
    }
}

/// Stores 1 for yes and 0 for no, if the answer is one of these.
#[inline(always)]
pub fn store_if(given: &CallReply, yes: &mut i32)
    ensures { yes.new ≡ yes_or given.now yes.old }
{
    if let Some(Ok(Reply::Signalled(signalled))) = given {
        *yes = i32::from(*signalled);
    }
}

/// Stores what was found, and nothing if the call was refused.
#[inline(always)]
pub fn store_found<T: Copy>(found: &CallResult<T>, stored: &mut T)
    ensures { stored.new ≡ found_or found.now stored.old }
{
    if let Some(Ok(known)) = found {
        *stored = *known;
    }
}

/// Stores the point, or 0 if there is none, and nothing if the query failed.
#[inline(always)]
pub fn store_due(found: &CallResult<Option<u64>>, point: &mut u64)
    ensures { point.new ≡ due_or found.now point.old }
{
    if let Some(Ok(first)) = found {
        *point = first.unwrap_or(0);
    }
}

/// Stores the fence's point, and nothing if the query failed.
#[inline(always)]
pub fn store_point(found: &CallResult<Fence>, row: &mut CPoint)
    ensures { row.new ≡ c_point_or found.now row.old }
{
    if let Some(Ok(fence)) = found {
        *row = c_point(fence);
    }
}

/// Stores information on a file, with as many fences as there is room for, if the answer is one.
pub fn store_info(given: &CallReply, info: &mut CFileInfo, rows: &mut [CFenceInfo])
    ensures { StoresInfo given.now info.old info.new rows.old rows.new }
{
    if let Some(Ok(Reply::Info(report))) = given {
        let fences = report.fences.as_slice();
        *info = CFileInfo {
            name: report.name.bytes,
            fences: fences.len() as u64,
            status: report.status.number(),
        };
        put(fences, rows);
    }
}
