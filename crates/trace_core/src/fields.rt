//! The fields of a `dma_fence` event, as its trace format prints them. `record` calls it for the text after an event's name.
ghost use Rattle.std.specs.Prelude.{◌≡◌, option_map};
ghost use Rattle.trace_core.specs.Fields.{fields_of, fields_from, names_of};

use crate::number::number_at_end;
use crate::steps::{after, part_at};

/// The fields of a `dma_fence` event.
#[derive(Clone, Copy)]
pub(crate) struct Fields<'a> {
    pub(crate) driver: &'a [u8],
    pub(crate) timeline: &'a [u8],
    pub(crate) context: u32,
    pub(crate) seqno: u32,
}

/// `driver=D timeline=T context=N seqno=N`: the driver's name goes up to the first ` timeline=`, and the timeline's up to the
/// last ` context=`. None for any other text, and if a number has more than 32 bits.
#[tactic(auto, unfolding(crate::specs::Fields::fields_of))]
pub(crate) fn fields_of(text: &[u8]) -> Option<Fields<'_>>
    ensures fields { option_map fields_from result ≡ fields_of text.now }
{
    let (front, seqno) = number_at_end(text, b" seqno=")?;
    let (front, context) = number_at_end(front, b" context=")?;
    let (driver, timeline) = names_of(front)?;
    Some(Fields {
        driver,
        timeline,
        context,
        seqno,
    })
}

#[tactic(auto, unfolding(crate::specs::Fields::names_of))]
fn names_of(text: &[u8]) -> Option<(&[u8], &[u8])>
    ensures names { option_map (λ n. (n.0.now, n.1.now)) result ≡ names_of text.now }
{
    part_at(after(text, b"driver=")?, b" timeline=")
}
