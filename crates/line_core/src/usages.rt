//! Words that name usages and sync flags, with Linux's numbers.
ghost use Rattle.std.specs.Prelude.{◌≡◌, is_some};
ghost use Rattle.line_core.specs.Usages.{usage_of, flags_of};

use crate::words::is;
use point_core::Usage;

/// Linux's `DMA_BUF_SYNC_READ`.
const SYNC_READ: u32 = 1;
/// Linux's `DMA_BUF_SYNC_WRITE`.
const SYNC_WRITE: u32 = 2;
/// Linux's `DMA_BUF_SYNC_RW`.
const SYNC_READ_WRITE: u32 = SYNC_READ | SYNC_WRITE;

/// The usage that the word names.
pub(crate) fn usage(word: &[u8]) -> Option<Usage>
    ensures usage { result ≡ usage_of word.now }
{
    match word {
        _ if is(word, "kernel") => Some(Usage::Kernel),
        _ if is(word, "write") => Some(Usage::Write),
        _ if is(word, "read") => Some(Usage::Read),
        _ if is(word, "bookkeep") => Some(Usage::Bookkeep),
        _ => None,
    }
}

/// The sync flags that the word names.
pub(crate) fn flags(word: &[u8]) -> Option<u32>
    ensures flags { result ≡ flags_of word.now }
{
    match word {
        _ if is(word, "read") => Some(SYNC_READ),
        _ if is(word, "write") => Some(SYNC_WRITE),
        _ if is(word, "rw") => Some(SYNC_READ_WRITE),
        _ => None,
    }
}

/// Whether the word names a usage.
pub fn is_usage(word: &[u8]) -> bool
    ensures { result ≡ is_some (usage_of word.now) }
{
    usage(word).is_some()
}

/// Whether the word names sync flags.
pub fn is_flags(word: &[u8]) -> bool
    ensures { result ≡ is_some (flags_of word.now) }
{
    flags(word).is_some()
}
