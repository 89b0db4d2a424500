//! `Event`: the seven kinds of `dma_fence` events, and how a record names them.
ghost use Rattle.std.specs.Prelude.{◌≡◌, option_map, drop};
ghost use Rattle.trace_core.specs.Event.{event_at, without_system, kind_of, kind_at, kinds};

use crate::runs::{Class, split_run};
use crate::steps::{after, after_blanks, is, without_blanks};

/// The kinds of `dma_fence` trace events.
#[derive(Clone, Copy)]
pub enum Event {
    /// A fence was made.
    Init,
    /// A fence was given to the hardware. Drivers that number fences then print the number here first.
    Emit,
    /// Signalling was asked for, as by a poll or a wait.
    EnableSignal,
    Signaled,
    WaitStart,
    /// A wait ended, by a signal, a timeout or a signal to the task.
    WaitEnd,
    Destroy,
}

/// The event that an event's text begins with, and the fields after its name. Blanks and `dma_fence:` may precede the name.
/// None for any other text.
#[tactic(auto, unfolding(crate::specs::Event::event_at))]
pub(crate) fn event_at(text: &[u8]) -> Option<(Event, &[u8])>
    ensures event { option_map (λ e. (e.0, e.1.now)) result ≡ event_at text.now }
{
    let name = without_system(after(without_blanks(text), b"dma_fence")?);
    let (kind, rest) = split_run(after(name, b"_")?, Class::Word);
    let event = kind_of(kind)?;
    Some((event, after_blanks(after(rest, b":")?)?))
}

/// The text after the name of the events' system, or all of it if it has no such name.
#[tactic(auto, unfolding(crate::specs::Event::without_system))]
fn without_system(text: &[u8]) -> &[u8]
    ensures rest { result.now ≡ without_system text.now }
{
    match after(text, b":dma_fence") {
        Some(rest) => rest,
        None => text,
    }
}

#[tactic(auto, unfolding(crate::specs::Event::kind_of))]
fn kind_of(word: &[u8]) -> Option<Event>
    ensures kind { result ≡ kind_of word.now }
{
    if is(word, "init") {
        Some(Event::Init)
    } else if is(word, "emit") {
        Some(Event::Emit)
    } else if is(word, "signaled") {
        Some(Event::Signaled)
    } else {
        other_kind_of(word)
    }
}

fn other_kind_of(word: &[u8]) -> Option<Event>
    ensures kind { result ≡ kind_at (drop 3 kinds) word.now }
{
    if is(word, "destroy") {
        Some(Event::Destroy)
    } else if is(word, "enable_signal") {
        Some(Event::EnableSignal)
    } else if is(word, "wait_start") {
        Some(Event::WaitStart)
    } else if is(word, "wait_end") {
        Some(Event::WaitEnd)
    } else {
        None
    }
}
