//! `ScriptText`: the rewritten script's bytes, with the number of their lines. `Rewriter` fills it.
use std::alloc::{AllocError, Global};

/// The lines of a script so far, and their number.
#[derive(Drop)]
pub(crate) struct ScriptText {
    pub(crate) bytes: Vec<u8>,
    pub(crate) lines: u32,
}

impl ScriptText {
    pub(crate) fn new(alloc: Global) -> ScriptText {
        ScriptText {
            bytes: Vec::new(alloc),
            lines: 0,
        }
    }

    /// Adds a line: `start` and `line` joined.
    pub(crate) fn push(&mut self, start: &[u8], line: &[u8]) -> Result<(), AllocError> {
        self.bytes.extend_from_slice(start)?;
        self.bytes.extend_from_slice(line)?;
        self.bytes.extend_from_slice(b"\n")?;
        self.lines = self.lines.saturating_add(1);
        Ok(())
    }

    /// Moves the other's lines to the end of this one.
    pub(crate) fn append(&mut self, other: &mut ScriptText) -> Result<(), AllocError> {
        self.bytes.append(&mut other.bytes)?;
        self.lines = self.lines.saturating_add(other.lines);
        other.lines = 0;
        Ok(())
    }
}
