//! `Refusal`: every error of the service, with the number, name and word that answers print for it.
ghost use Rattle.std.specs.Prelude.{◌≡◌};
ghost use Rattle.point_core.specs.Refusal.{refusal_number, refusal_name, limit_word};

use std::alloc::AllocError;
use std::fmt;
use thiserror::Error;

/// The limit that was met.
#[derive(Clone, Copy, Debug, PartialEq, Eq, Hash)]
pub enum LimitKind {
    Timelines,
    Buffers,
    Files,
    Watches,
    Flags,
    Clients,
    Plan,
    Script,
}

/// Every error of the service. A refused command changes nothing.
///
/// `NoEntry` is the kernel's `ENOENT`, `Flags` its `EINVAL` from `DMA_BUF_IOCTL_EXPORT_SYNC_FILE`, `Signalled` the
/// `ENOENT` of its `dma_fence_add_callback`, and `TimedOut` its `ETIME`. `Memory` is answered only if an allocation
/// really failed.
#[derive(Clone, Copy, Debug, PartialEq, Eq, Hash, Error)]
pub enum Refusal {
    #[error("the line is no command")]
    Syntax,
    #[error("there is no such name, buffer or context")]
    NoEntry,
    #[error("there is such a name, cookie or driver already")]
    Exists,
    #[error("an increment past the greatest value")]
    Overflow,
    #[error("these are no sync flags")]
    Flags,
    #[error("the limit of {0} is met")]
    Limit(LimitKind),
    #[error("it is signalled already")]
    Signalled,
    #[error("it is still active")]
    TimedOut,
    #[error("these words do not bear the file or point out")]
    Foreign,
    #[error("the table or value disagrees with the plans or the words")]
    Torn,
    #[error("parts of seats are missing")]
    NotAll,
    #[error("the line is too long")]
    LongLine,
    #[error("the reader failed")]
    Read,
    #[error("the writer failed")]
    Write,
    #[error("the timeline is closed")]
    Cancelled,
    #[error("out of memory")]
    Memory,
}

impl From<AllocError> for Refusal {
    ghost use Rattle.std.specs.Prelude.{◌≡◌};
    ghost use Rattle.point_core.specs.declared.refusal.Refusal.TheVariants.{Memory};

    ghost from_gives = { λ _ r. r ≡ Memory };

    fn from(_error: AllocError) -> Self {
        Refusal::Memory
    }
}

impl fmt::Display for LimitKind {
    fn fmt<W: fmt::Write>(&self, f: &mut fmt::Formatter<W>) -> fmt::Result {
        f.write_str(self.word())
    }
}

impl LimitKind {
    /// The word that answers print.
    pub fn word(self) -> &'static str
        ensures { result.now ≡ limit_word self }
    {
        match self {
            LimitKind::Timelines => "timelines",
            LimitKind::Buffers => "buffers",
            LimitKind::Files => "files",
            LimitKind::Watches => "watches",
            LimitKind::Flags => "flags",
            LimitKind::Clients => "clients",
            LimitKind::Plan => "plan",
            LimitKind::Script => "script",
        }
    }
}

impl Refusal {
    /// The number that answers print, from 1 to 16.
    pub fn number(self) -> u8
        ensures { result ≡ refusal_number self }
    {
        match self {
            Refusal::Syntax => 1,
            Refusal::NoEntry => 2,
            Refusal::Exists => 3,
            Refusal::Overflow => 4,
            Refusal::Flags => 5,
            Refusal::Limit(_) => 6,
            Refusal::Signalled => 7,
            Refusal::TimedOut => 8,
            Refusal::Foreign => 9,
            Refusal::Torn => 10,
            Refusal::NotAll => 11,
            Refusal::LongLine => 12,
            Refusal::Read => 13,
            Refusal::Write => 14,
            Refusal::Cancelled => 15,
            Refusal::Memory => 16,
        }
    }

    /// The name that answers print. The kind of a limit is given by `LimitKind::word`.
    pub fn name(self) -> &'static str
        ensures { result.now ≡ refusal_name self }
    {
        match self {
            Refusal::Syntax => "Syntax",
            Refusal::NoEntry => "NoEntry",
            Refusal::Exists => "Exists",
            Refusal::Overflow => "Overflow",
            Refusal::Flags => "Flags",
            Refusal::Limit(_) => "Limit",
            Refusal::Signalled => "Signalled",
            Refusal::TimedOut => "TimedOut",
            Refusal::Foreign => "Foreign",
            Refusal::Torn => "Torn",
            Refusal::NotAll => "NotAll",
            Refusal::LongLine => "LongLine",
            Refusal::Read => "Read",
            Refusal::Write => "Write",
            Refusal::Cancelled => "Cancelled",
            Refusal::Memory => "Memory",
        }
    }
}
