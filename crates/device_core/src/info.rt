//! Information on a file and its fences, as `SYNC_IOC_FILE_INFO` reports it.
ghost use Rattle.std.specs.Prelude.{◌≡◌, map, IfErr, IfOk};
ghost use Rattle.device_core.specs.declared.errno.Errno.TheVariants.{NoMemory};
ghost use Rattle.device_core.specs.theorem.Fences.{status_of};
ghost use Rattle.device_core.specs.theorem.Info.{driver_name, fence_info as fence_info_of, fence_infos as fence_infos_of, stub_info as stub_info_of};
ghost use Rattle.device_core.specs.theorem.Names.{as_text, file_name};

use crate::errno::Errno;
use crate::fence::{Fence, list_of_one};
use crate::file::File;
use crate::naming::name_of;
use crate::text::Text;
use point_core::Status;
use std::alloc::Global;

/// The driver of a fence.
#[derive(Clone, Copy, Debug, PartialEq, Eq)]
pub enum FenceDriver {
    SwSync,
    Stub,
}

impl FenceDriver {
    /// Its name, as the kernel reports it.
    pub fn name(self) -> &'static [u8]
        ensures { result.now ≡ driver_name self }
    {
        match self {
            FenceDriver::SwSync => b"sw_sync",
            FenceDriver::Stub => b"stub",
        }
    }
}

/// Information on a fence, as Linux's `struct sync_fence_info`: the name of its timeline, its driver and its status,
/// and the time in nanoseconds at which it signalled, or 0.
#[derive(Clone, Copy, Debug)]
pub struct FenceInfo {
    pub timeline: Text,
    pub driver: FenceDriver,
    pub status: Status,
    pub at: u64,
}

/// Information on a file, as Linux's `struct sync_file_info`: its name, its status, and each of its fences. A file
/// without fences has one that has signalled, a stub.
#[derive(Drop)]
pub struct FileInfo {
    pub name: Text,
    pub status: Status,
    pub fences: Vec<FenceInfo>,
}

/// The information that `SYNC_IOC_FILE_INFO` reports on the file with this number.
///
/// Fails only with `NoMemory`.
pub(crate) fn info(alloc: Global, number: u64, file: &File) -> Result<FileInfo, Errno>
    ensures name { IfOk result (λ info. info.name ≡ as_text (file_name number file.now)) }
    ensures status { IfOk result (λ info. info.status ≡ status_of file.now.fences) }
    ensures fences { IfOk result (λ info. info.fences.items ≡ fence_infos_of file.now) }
    ensures memory { IfErr result (λ e. e ≡ NoMemory) }
{
    let fences = fence_infos(alloc, file)?;
    Ok(FileInfo {
        name: name_of(number, file),
        status: file.status(),
        fences,
    })
}

fn fence_infos(alloc: Global, file: &File) -> Result<Vec<FenceInfo>, Errno>
    ensures fences { IfOk result (λ infos. infos.items ≡ fence_infos_of file.now) }
    ensures memory { IfErr result (λ e. e ≡ NoMemory) }
{
    if file.fences.is_empty() {
        return list_of_one(alloc, stub_info(file.stub_at));
    }
    each(alloc, file.fences.as_slice())
}

fn each(alloc: Global, fences: &[Fence]) -> Result<Vec<FenceInfo>, Errno>
    ensures each { IfOk result (λ infos. infos.items ≡ map fence_info_of fences.now) }
    ensures memory { IfErr result (λ e. e ≡ NoMemory) }
{
    let Ok(infos) = fences.iter().map(|fence| fence_info(fence)).collect(alloc) else {
        return Err(Errno::NoMemory);
    };
    Ok(infos)
}

fn fence_info(fence: &Fence) -> FenceInfo
    ensures { result ≡ fence_info_of fence.now }
{
    let (status, at) = match fence.signal {
        None => (Status::Active, 0),
        Some(signal) if signal.is_cancelled => (Status::Cancelled, signal.at),
        Some(signal) => (Status::Signalled, signal.at),
    };
    FenceInfo {
        timeline: fence.name,
        driver: FenceDriver::SwSync,
        status,
        at,
    }
}

fn stub_info(at: u64) -> FenceInfo
    ensures { result ≡ stub_info_of at }
{
    FenceInfo {
        timeline: Text::of(b"stub"),
        driver: FenceDriver::Stub,
        status: Status::Signalled,
        at,
    }
}
