//! `CheckFinding`, the result for one answer, and `Difference`, an answer's first line that differs, for the report.

/// The result of comparing an answer with all lines that are expected of it.
#[derive(Clone, Copy)]
pub(crate) enum CheckFinding {
    /// Nothing was expected, so anything may come.
    Unasked,
    /// The expected lines came, and nothing else.
    AsExpected,
    Differs,
}

/// The first line of an answer that differs.
#[derive(Clone, Copy)]
pub(crate) struct Difference<'a> {
    /// The command's line, counted from 1; 0 is for the notes before the first command.
    pub(crate) number: u32,
    pub(crate) command: &'a [u8],
    /// None if more came than was expected.
    pub(crate) expected: Option<&'a [u8]>,
    /// The answer's text from that line on.
    pub(crate) came: &'a [u8],
}
