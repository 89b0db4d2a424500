//! `JsonPage`: a JSON text that is put together token by token. A token that finds no memory is remembered, and fails the end, so
//! the functions that add tokens have no exits. Reports of traces, and trace events, are written on JSON pages.

use json::Writer;
use std::alloc::{AllocError, Global};

/// A JSON text so far. The writer puts commas and colons where they have to be; the caller nests objects and arrays.
#[derive(Drop)]
pub struct JsonPage {
    alloc: Global,
    text: Writer,
    // whether memory was refused for a token
    is_short: bool,
}

impl JsonPage {
    /// The beginning of a JSON text that follows `text`. Does not allocate.
    pub fn after(alloc: Global, text: Vec<u8>) -> JsonPage {
        JsonPage {
            alloc,
            text: Writer::new(text),
            is_short: false,
        }
    }

    pub fn begin_object(&mut self) {
        self.is_short |= self.text.begin_object().is_err();
    }

    pub fn end_object(&mut self) {
        self.is_short |= self.text.end_object().is_err();
    }

    pub fn begin_array(&mut self) {
        self.is_short |= self.text.begin_array().is_err();
    }

    pub fn end_array(&mut self) {
        self.is_short |= self.text.end_array().is_err();
    }

    /// Adds the name of a member.
    pub fn key(&mut self, name: &str) {
        self.is_short |= self.text.key(name).is_err();
    }

    /// Begins a member that is an object.
    pub fn object(&mut self, name: &str) {
        self.key(name);
        self.begin_object();
    }

    /// Begins a member that is an array.
    pub fn array(&mut self, name: &str) {
        self.key(name);
        self.begin_array();
    }

    pub fn number(&mut self, number: u64) {
        self.is_short |= self.text.u64(number).is_err();
    }

    /// Adds members that are numbers. Their names are parted by blanks.
    pub fn numbers(&mut self, names: &str, numbers: &[u64]) {
        for (name, number) in names.split(' ').zip(numbers.iter()) {
            self.key(name);
            self.number(*number);
        }
    }

    /// Adds members that are strings. Their names are parted by blanks.
    pub fn strings(&mut self, names: &str, texts: &[&str]) {
        for (name, text) in names.split(' ').zip(texts.iter()) {
            self.key(name);
            self.string(text);
        }
    }

    /// Adds a member that is a string of several texts.
    pub fn joined(&mut self, name: &str, texts: &[&str]) {
        let mut joined = String::new(self.alloc);
        for text in texts {
            self.is_short |= joined.push_str(text).is_err();
        }
        self.key(name);
        self.string(joined.as_str());
    }

    /// Adds a member that is a string, with a character for each byte.
    pub fn bytes(&mut self, name: &str, bytes: &[u8]) {
        let mut text = String::new(self.alloc);
        self.is_short |= push_bytes(&mut text, bytes).is_err();
        self.key(name);
        self.string(text.as_str());
    }

    /// Adds a member that is a string, with U+FFFD for bytes that are no UTF-8.
    pub fn lossy(&mut self, name: &str, bytes: &[u8]) {
        self.key(name);
        match String::from_utf8_lossy(self.alloc, bytes) {
            Ok(text) => self.string(text.as_str()),
            Err(_) => self.is_short = true,
        }
    }

    /// Adds two names with `/` between, with a character for each byte, as the name of a member.
    pub fn key_of_two(&mut self, first: &[u8], second: &[u8]) {
        let mut text = String::new(self.alloc);
        self.is_short |= push_two(&mut text, first, second).is_err();
        self.key(text.as_str());
    }

    fn string(&mut self, text: &str) {
        self.is_short |= self.text.string(text).is_err();
    }

    /// The text, and `end` after it.
    ///
    /// Fails if memory was refused for a token or for the end.
    pub fn finish(self, end: &[u8]) -> Result<Vec<u8>, AllocError> {
        let JsonPage {
            alloc: _,
            text,
            is_short,
        } = self;
        if is_short {
            return Err(AllocError);
        }
        let mut bytes = text.into_inner();
        bytes.extend_from_slice(end)?;
        Ok(bytes)
    }
}

/// Adds a character for each byte.
fn push_bytes(text: &mut String, bytes: &[u8]) -> Result<(), AllocError> {
    for byte in bytes {
        text.push(char::from(*byte))?;
    }
    Ok(())
}

fn push_two(text: &mut String, first: &[u8], second: &[u8]) -> Result<(), AllocError> {
    push_bytes(text, first)?;
    text.push_str("/")?;
    push_bytes(text, second)
}
