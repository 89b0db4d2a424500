//! An iterator over the texts of a script's lines, by number.
use line_core::first_line;

/// The lines of a script, by rising number.
#[derive(Drop)]
pub(crate) struct Texts<'a> {
    rest: &'a [u8],
    // the number of the first line of `rest`
    number: u32,
}

impl<'a> Texts<'a> {
    pub(crate) fn of(script: &'a [u8]) -> Texts<'a> {
        Texts {
            rest: script,
            number: 1,
        }
    }

    /// The number of the next line.
    pub(crate) fn number(&self) -> u32 {
        self.number
    }

    /// The next line, unless it has no line feed.
    pub(crate) fn next_line(&mut self) -> Option<&'a [u8]> {
        let (line, rest) = first_line(self.rest)?;
        self.rest = rest;
        self.number = self.number.saturating_add(1);
        Some(line)
    }

    /// The line with this number. Numbers must not fall from call to call.
    pub(crate) fn line(&mut self, number: u32) -> &'a [u8] {
        for _ in self.number..number {
            if let Some((_, rest)) = first_line(self.rest) {
                self.rest = rest;
            }
        }
        self.number = number;
        match first_line(self.rest) {
            Some((line, _)) => line,
            None => self.rest,
        }
    }
}
