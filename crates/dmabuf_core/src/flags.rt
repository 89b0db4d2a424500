//! `SyncFlags`: the access for which a sync file is exported or imported, and the usages that follow from it.
ghost use Rattle.std.specs.Prelude.{◌≡◌, ◌≤◌, ◌↔◌, IsOk, IfOk, IfErr};
ghost use Rattle.point_core.specs.declared.refusal.Refusal.TheVariants.{Flags};
ghost use Rattle.dmabuf_core.specs.Flags.{flags_number, export_usage, import_usage};

use point_core::{Refusal, Usage};

/// An access for which a sync file is exported or imported: Linux's `DMA_BUF_SYNC_READ` (1), `DMA_BUF_SYNC_WRITE` (2)
/// and `DMA_BUF_SYNC_RW` (3).
#[derive(Clone, Copy, Debug, PartialEq, Eq, Hash)]
pub enum SyncFlags {
    Read,
    Write,
    ReadWrite,
}

impl SyncFlags {
    /// The flags with this number.
    ///
    /// Fails with `Flags` for every number but 1, 2 and 3, as Linux's `DMA_BUF_IOCTL_EXPORT_SYNC_FILE` and
    /// `DMA_BUF_IOCTL_IMPORT_SYNC_FILE` answer EINVAL: other bits, or neither of these. Does not allocate.
    pub fn of(number: u32) -> Result<SyncFlags, Refusal>
        ensures valid { IsOk result ↔ ((1 ≤ number) × (number ≤ 3)) }
        ensures number { IfOk result (λ flags. flags_number flags ≡ number) }
        ensures refused { IfErr result (λ e. e ≡ Flags) }
    {
        match number {
            1 => Ok(SyncFlags::Read),
            2 => Ok(SyncFlags::Write),
            3 => Ok(SyncFlags::ReadWrite),
            _ => Err(Refusal::Flags),
        }
    }

    /// The weakest usage for which such an access waits: a reader waits for writers, and a writer for readers too.
    pub fn export_usage(self) -> Usage
        ensures { result ≡ export_usage (flags_number self) }
    {
        match self {
            SyncFlags::Read => Usage::Write,
            SyncFlags::Write | SyncFlags::ReadWrite => Usage::Read,
        }
    }

    /// The usage of such an access's fences: a reader's if it only reads, else a writer's.
    pub fn import_usage(self) -> Usage
        ensures { result ≡ import_usage (flags_number self) }
    {
        match self {
            SyncFlags::Read => Usage::Read,
            SyncFlags::Write | SyncFlags::ReadWrite => Usage::Write,
        }
    }
}
