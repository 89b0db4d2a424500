//! Lines that report lost events (Linux's `CPU:n [LOST m EVENTS]`), and notes, which begin with `#`.
ghost use Rattle.std.specs.Prelude.{◌≡◌};
ghost use Rattle.trace_core.specs.Item.{meaning_of};
ghost use Rattle.trace_core.specs.Loss.{lost, losses, counted, buffer_started, counts, note};

use crate::item::TraceItem;
use crate::number::{number_at, wide_number_at};
use crate::steps::{after, after_blanks, is};

/// `CPU:n [LOST m EVENTS]` or `CPU:n [LOST EVENTS]`, or in a report of `trace-cmd` `CPU:n [m EVENTS DROPPED]` or
/// `CPU:n [EVENTS DROPPED]`.
/// Answers the processor, and m where the line has it. None for any other line.
#[tactic(auto, unfolding(crate::specs::Loss::lost))]
pub(crate) fn lost(line: &[u8]) -> Option<(u32, Option<u64>)>
    ensures lost { result ≡ lost line.now }
{
    let (cpu, rest) = number_at(after(line, b"CPU:")?)?;
    Some((cpu, losses(after(rest, b" [")?)?))
}

#[tactic(auto, unfolding(crate::specs::Loss::losses))]
fn losses(bytes: &[u8]) -> Option<Option<u64>>
    ensures losses { result ≡ losses bytes.now }
{
    if is(bytes, "LOST EVENTS]") || is(bytes, "EVENTS DROPPED]") {
        return Some(None);
    }
    match after(bytes, b"LOST ") {
        Some(rest) => counted(rest, " EVENTS]"),
        None => counted(bytes, " EVENTS DROPPED]"),
    }
}

/// The number, if only the text follows it.
#[tactic(auto, unfolding(crate::specs::Loss::counted))]
fn counted(bytes: &[u8], text: &str) -> Option<Option<u64>>
    ensures counted { result ≡ counted bytes.now text.now }
{
    let (events, rest) = wide_number_at(bytes)?;
    if is(rest, text) {
        Some(Some(events))
    } else {
        None
    }
}

/// The item of a line that begins with `#`.
#[inline(never)]
#[tactic(auto, unfolding(crate::specs::Loss::note))]
pub(crate) fn note(line: &[u8]) -> TraceItem<'_>
    ensures note { meaning_of result ≡ note line.now }
{
    if let Some(cpu) = buffer_started(line) {
        return TraceItem::BufferStarted { cpu };
    }
    match counts(line) {
        Some((in_buffer, written, processors)) => TraceItem::Counts {
            in_buffer,
            written,
            processors,
        },
        None => TraceItem::Note,
    }
}

/// `##### CPU n buffer started ####`.
#[tactic(auto, unfolding(crate::specs::Loss::buffer_started))]
fn buffer_started(line: &[u8]) -> Option<u32>
    ensures started { result ≡ buffer_started line.now }
{
    let (cpu, rest) = number_at(after(line, b"##### CPU ")?)?;
    match after(rest, b" buffer started ####") {
        Some(_) => Some(cpu),
        None => None,
    }
}

/// `# entries-in-buffer/entries-written: a/b   #P:n`.
#[tactic(auto, unfolding(crate::specs::Loss::counts))]
fn counts(line: &[u8]) -> Option<(u64, u64, u32)>
    ensures counts { result ≡ counts line.now }
{
    let (in_buffer, rest) = wide_number_at(after(line, b"# entries-in-buffer/entries-written: ")?)?;
    let (written, rest) = wide_number_at(after(rest, b"/")?)?;
    let (processors, _) = number_at(after(after_blanks(rest)?, b"#P:")?)?;
    Some((in_buffer, written, processors))
}
