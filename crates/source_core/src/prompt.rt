//! `Prompted`: a reader that writes a prompt before each line, for `fencectl` at a terminal.
ghost use Rattle.std.specs.Prelude.{◌≡◌, true};

use std::io;
use std::io::{Read, Write};

const PROMPT: &[u8] = b"fencectl> ";

/// A reader at a terminal: it writes a prompt to another writer before each line, and a line feed at the end. A failed
/// write of a prompt doesn't affect what is read.
#[derive(Drop)]
pub struct Prompted<R, W> {
    reader: R,
    prompts: W,
    // whether the next byte begins a line
    begins: bool,
}

impl<R: Read + Drop, W: Write + Drop> Prompted<R, W> {
    /// Wraps a reader from which nothing was read yet.
    pub fn new(reader: R, prompts: W) -> Prompted<R, W>
        ensures reader { result.reader ≡ reader }
        ensures prompts { result.prompts ≡ prompts }
        ensures begins { result.begins ≡ true }
    {
        Prompted {
            reader,
            prompts,
            begins: true,
        }
    }
}

impl<R: Read + Drop, W: Write + Drop> Read for Prompted<R, W> {
    ghost remaining = { λ prompted. R.remaining prompted.reader };

    fn read(&mut self, buf: &mut [u8]) -> io::Result<usize> {
        if self.begins {
            show(&mut self.prompts, PROMPT);
        }
        let given = self.reader.read(buf);
        if let Ok(count) = &given {
            self.begins = ends_line(buf, *count);
            if *count == 0 {
                show(&mut self.prompts, b"\n");
            }
        }
        given
    }
}

fn ends_line(buf: &[u8], count: usize) -> bool {
    match buf.get(..count) {
        Some(bytes) => bytes.ends_with(b"\n"),
        None => false,
    }
}

fn show<W: Write>(writer: &mut W, text: &[u8]) {
    let _ = writer.write_all(text);
    let _ = writer.flush();
}
