//! The head of a record, before its event: task, thread, processor and time, as ftrace's default format, `trace-cmd report`
//! and `perf script` print them. Each function reads one column, and answers none where the bytes have another form.
ghost use Rattle.std.specs.Prelude.{◌≡◌, option_map};
ghost use Rattle.trace_core.specs.Header.{header_of, thread, processor, after_dash, after_group, after_flags, trimmed, header_from};

use crate::number::{number_at, time_at};
use crate::runs::{Class, before_run, run, without_run};
use crate::steps::{after, after_blanks, without_blanks};

/// The bytes of a record that its task's name takes, blanks before it.
const TASK_BYTES: usize = 16;

/// The fewest and the most bytes of the flags between the processor and the time.
const FLAGS_FEWEST: usize = 4;

const FLAGS_MOST: usize = 6;

const _: () = prove!(FLAGS_FEWEST == 4 && FLAGS_MOST == 6);

/// The head of a record, and the event's text after it.
#[derive(Clone, Copy)]
pub(crate) struct Header<'a> {
    pub(crate) task: &'a [u8],
    pub(crate) pid: u32,
    pub(crate) cpu: u32,
    pub(crate) time: u64,
    pub(crate) text: &'a [u8],
}

/// The header that the piece begins with: 16 bytes of the task, `-` or a blank, the thread's number, its group in parentheses
/// where it is printed, the processor in brackets, flags where they are printed, and the time.
#[tactic(auto, unfolding(crate::specs::Header::header_of))]
pub(crate) fn header_of(piece: &[u8]) -> Option<Header<'_>>
    ensures header { option_map header_from result ≡ header_of piece.now }
{
    if piece.len() < TASK_BYTES {
        return None;
    }
    let (task, rest) = piece.split_at(TASK_BYTES);
    let (pid, rest) = thread(rest)?;
    let (cpu, rest) = processor(rest)?;
    let (time, rest) = time_at(after_flags(rest)?)?;
    let text = after(rest, b": ")?;
    Some(Header {
        task: trimmed(task),
        pid,
        cpu,
        time,
        text,
    })
}

/// `-` or blanks, the thread's number and blanks.
#[tactic(auto, unfolding(crate::specs::Header::thread))]
fn thread(bytes: &[u8]) -> Option<(u32, &[u8])>
    ensures thread { option_map (λ n. (n.0, n.1.now)) result ≡ thread bytes.now }
{
    let (pid, rest) = number_at(after_dash(bytes)?)?;
    Some((pid, after_blanks(rest)?))
}

#[tactic(auto, unfolding(crate::specs::Header::after_dash))]
fn after_dash(bytes: &[u8]) -> Option<&[u8]>
    ensures rest { option_map (λ r. r.now) result ≡ after_dash bytes.now }
{
    match after(bytes, b"-") {
        Some(rest) => Some(rest),
        None => after_blanks(bytes),
    }
}

/// The group, where it is printed, and `[`, the processor's number, `]` and blanks.
#[tactic(auto, unfolding(crate::specs::Header::processor))]
fn processor(bytes: &[u8]) -> Option<(u32, &[u8])>
    ensures processor { option_map (λ n. (n.0, n.1.now)) result ≡ processor bytes.now }
{
    let (cpu, rest) = number_at(after(after_group(bytes)?, b"[")?)?;
    Some((cpu, after_blanks(after(rest, b"]")?)?))
}

/// The bytes after `(`, blanks, digits or dashes, and `) `, if the bytes begin with `(`.
#[tactic(auto, unfolding(crate::specs::Header::after_group))]
fn after_group(bytes: &[u8]) -> Option<&[u8]>
    ensures rest { option_map (λ r. r.now) result ≡ after_group bytes.now }
{
    match after(bytes, b"(") {
        None => Some(bytes),
        Some(group) => after(without_run(group, Class::Group), b") "),
    }
}

/// The bytes after the flags and blanks, if the bytes begin with flags.
#[tactic(auto, unfolding(crate::specs::Header::after_flags))]
fn after_flags(bytes: &[u8]) -> Option<&[u8]>
    ensures rest { option_map (λ r. r.now) result ≡ after_flags bytes.now }
{
    let count = run(bytes, Class::Dark);
    if FLAGS_FEWEST <= count && count <= FLAGS_MOST {
        after_blanks(&bytes[count..])
    } else {
        Some(bytes)
    }
}

/// The name without the blanks around it.
#[tactic(auto, unfolding(crate::specs::Header::trimmed))]
fn trimmed(name: &[u8]) -> &[u8]
    ensures name { result.now ≡ trimmed name.now }
{
    let name = without_blanks(name);
    &name[..before_run(name, Class::Blank)]
}
