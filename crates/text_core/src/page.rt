//! `Page`: a text that is put together piece by piece. A piece that finds no memory is remembered, and fails the end, so the
//! functions that add pieces have no exits. Reports of traces and plans are written on pages.
use crate::part::{Part, push_parts};
use std::alloc::{AllocError, Global};
use std::ascii::escape_default;

/// A text so far.
#[derive(Drop)]
pub struct Page {
    text: Vec<u8>,
    // whether memory was refused for a piece
    is_short: bool,
}

impl Page {
    /// No text. Does not allocate.
    pub fn new(alloc: Global) -> Page {
        Page {
            text: Vec::new(alloc),
            is_short: false,
        }
    }

    /// Adds the text, with the parts in place of each `#`, in order.
    pub fn add(&mut self, text: &'static str, parts: &[Part<'_>]) {
        let mut parts = parts.iter();
        for piece in text.split('#') {
            self.part(&Part::Text(piece));
            if let Some(part) = parts.next() {
                self.part(part);
            }
        }
    }

    fn part(&mut self, part: &Part<'_>) {
        if push_parts(&mut self.text, &[*part]).is_err() {
            self.fail();
        }
    }

    /// Adds the text as it is.
    pub fn text(&mut self, text: &str) {
        self.bytes(text.as_bytes());
    }

    /// Adds the bytes as they are.
    pub fn bytes(&mut self, bytes: &[u8]) {
        if self.text.extend_from_slice(bytes).is_err() {
            self.fail();
        }
    }

    /// Adds a number, in decimal.
    pub fn number(&mut self, number: u64) {
        self.part(&Part::Number(number));
    }

    /// Adds a text, and a count behind it.
    pub fn counted(&mut self, text: &str, count: usize) {
        self.text(text);
        self.number(count as u64);
    }

    /// Adds lines, as they are between quotes: each line has quotes of its own, and bytes other than printable ASCII are as in a
    /// Rust literal. A single quote needs no escape between double ones.
    pub fn escaped(&mut self, lines: &[u8]) {
        let lines = lines.strip_suffix(b"\n").unwrap_or(lines);
        for byte in lines {
            self.escaped_byte(*byte);
        }
    }

    fn escaped_byte(&mut self, byte: u8) {
        match byte {
            b'\'' => self.text("'"),
            b'\n' => self.text("\" \""),
            _ => self.escape(byte),
        }
    }

    fn escape(&mut self, byte: u8) {
        for escaped in escape_default(byte) {
            self.bytes(&[escaped]);
        }
    }

    /// As `escaped`, between quotes.
    pub fn quoted(&mut self, lines: &[u8]) {
        self.text("\"");
        self.escaped(lines);
        self.text("\"");
    }

    /// Adds the lines as strings of JSON, with commas between them. The lines are printable ASCII.
    pub fn strings(&mut self, lines: &[u8]) {
        let lines = lines.strip_suffix(b"\n").unwrap_or(lines);
        self.text("\"");
        for byte in lines {
            self.string_byte(*byte);
        }
        self.text("\"");
    }

    fn string_byte(&mut self, byte: u8) {
        match byte {
            b'"' => self.text("\\\""),
            b'\\' => self.text("\\\\"),
            b'\n' => self.text("\",\""),
            _ => self.bytes(&[byte]),
        }
    }

    /// Adds a comma, if something is before it.
    pub fn comma(&mut self, follows: bool) {
        if follows {
            self.text(",");
        }
    }

    /// Remembers that memory was refused.
    pub fn fail(&mut self) {
        self.is_short = true;
    }

    /// The text.
    ///
    /// Fails if memory was refused for a piece.
    pub fn finish(self) -> Result<Vec<u8>, AllocError> {
        let Page { text, is_short } = self;
        if is_short {
            return Err(AllocError);
        }
        Ok(text)
    }
}
