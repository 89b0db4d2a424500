//! `EventPage`: trace events on their way to a writer. Text is held until it is a block, and then written whole, so that a long
//! trace needs little memory. An event that finds no memory is remembered, and fails the next write.
ghost use Rattle.std.specs.Prelude.{◌≡◌, ◌⊎◌, IfErr};
ghost use Rattle.point_core.specs.declared.refusal.Refusal.TheVariants.{Memory, Write as WriteFault};

use crate::events::event::TraceEvent;
use point_core::Refusal;
use report_core::write_whole;
use std::alloc::Global;
use std::io::Write;
use std::mem;
use text_core::JsonPage;

/// Text is held up to this many bytes before it is written.
const BLOCK_BYTES: usize = 16384;

/// Trace events on their way to a writer.
#[derive(Drop)]
pub(crate) struct EventPage {
    alloc: Global,
    held: Vec<u8>,
    // whether memory was refused for an event
    is_short: bool,
}

impl EventPage {
    /// The head of the document, and no event.
    pub(crate) fn new(alloc: Global) -> EventPage {
        let mut held = Vec::new(alloc);
        let is_short = held.extend_from_slice(b"{\"traceEvents\":[\n").is_err();
        EventPage {
            alloc,
            held,
            is_short,
        }
    }

    /// Adds an event.
    pub(crate) fn push(&mut self, event: &TraceEvent<'_>) {
        self.add(event, b",\n");
    }

    /// Adds the event of the trace's end, and what ends the document.
    pub(crate) fn end(&mut self, time: u64) {
        self.add(&TraceEvent::End(time), b"\n]}\n");
    }

    fn add(&mut self, event: &TraceEvent<'_>, end: &[u8]) {
        let held = mem::replace(&mut self.held, Vec::new(self.alloc));
        let mut page = JsonPage::after(self.alloc, held);
        event.put(&mut page);
        match page.finish(end) {
            Ok(text) => self.held = text,
            Err(_) => self.is_short = true,
        }
    }

    /// Writes what is held where it is a block.
    ///
    /// After a failure a prefix was written.
    pub(crate) fn write_block<W: Write>(&mut self, writer: &mut W) -> Result<(), Refusal>
        ensures refusals { IfErr result (λ e. (e ≡ WriteFault) ⊎ (e ≡ Memory)) }
    {
        if self.held.len() < BLOCK_BYTES && !self.is_short {
            return Ok(());
        }
        self.write(writer)
    }

    /// Writes what is held.
    ///
    /// Fails as `write_block`, and with `Memory` if memory was refused for an event.
    pub(crate) fn write<W: Write>(&mut self, writer: &mut W) -> Result<(), Refusal>
        ensures refusals { IfErr result (λ e. (e ≡ WriteFault) ⊎ (e ≡ Memory)) }
    {
        if self.is_short {
            return Err(Refusal::Memory);
        }
        write_whole(writer, self.held.as_slice())?;
        self.held.clear();
        Ok(())
    }
}
