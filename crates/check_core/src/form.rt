//! `CheckForm`, the output format of a check, and `CheckPlace`, the script that is checked. `check` gets a place
//! from its caller.

/// The output format of a check.
#[derive(Clone, Copy)]
pub enum CheckForm {
    /// A line for each answer that differs and for each script that does not pass, and the counts. File names and line numbers
    /// may be in bold.
    Lines { bold: bool },
    /// Only the counts.
    Counts,
    /// The Test Anything Protocol, in that version: a test for each script, with the answers that differ.
    Tap(u64),
}

/// A script that is checked, and the form of its report.
#[derive(Clone, Copy)]
pub struct CheckPlace<'a> {
    pub name: &'a str,
    pub form: CheckForm,
}
