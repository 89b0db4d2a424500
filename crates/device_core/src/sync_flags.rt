//! The usages of an export and an import, by Linux's sync flags.
ghost use Rattle.std.specs.Prelude.{◌≡◌};
ghost use Rattle.device_core.specs.theorem.Buffers.{export_usage as export_usage_of, import_usage as import_usage_of};

use crate::errno::Errno;
use point_core::Usage;

/// Linux's `DMA_BUF_SYNC_READ`.
const READ: u32 = 1;

/// Linux's `DMA_BUF_SYNC_WRITE`.
const WRITE: u32 = 2;

/// Linux's `DMA_BUF_SYNC_RW`.
const READ_WRITE: u32 = READ | WRITE;

const _: () = prove!(READ_WRITE == 3);

/// The weakest usage for which an access with these flags waits: a reader waits for writers, and a writer for readers
/// too.
///
/// Fails with `Invalid` for every other number, as Linux's `DMA_BUF_IOCTL_EXPORT_SYNC_FILE`.
pub(crate) fn export_usage(flags: u32) -> Result<Usage, Errno>
    ensures { result ≡ export_usage_of flags }
{
    match flags {
        READ => Ok(Usage::Write),
        WRITE | READ_WRITE => Ok(Usage::Read),
        _ => Err(Errno::Invalid),
    }
}

/// The usage of such an access's fences: a reader's if it only reads, else a writer's.
///
/// Fails with `Invalid` for every other number, as Linux's `DMA_BUF_IOCTL_IMPORT_SYNC_FILE`.
pub(crate) fn import_usage(flags: u32) -> Result<Usage, Errno>
    ensures { result ≡ import_usage_of flags }
{
    match flags {
        READ => Ok(Usage::Read),
        WRITE | READ_WRITE => Ok(Usage::Write),
        _ => Err(Errno::Invalid),
    }
}
