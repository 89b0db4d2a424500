//! `Sink`: the writer of differences, which either passes them on or keeps them until the test of their script is written.
use std::io;
use std::io::Write;

/// A writer of differences: it passes them on at once, or keeps them in memory until a test is reported.
#[derive(Drop)]
pub(crate) enum Sink<'w, W> {
    Through(&'w mut W),
    Kept(&'w mut Vec<u8>),
}

impl<'w, W: Write> Write for Sink<'w, W> {
    fn write(&mut self, buf: &[u8]) -> io::Result<usize> {
        match self {
            Sink::Through(writer) => writer.write(buf),
            Sink::Kept(bytes) => bytes.write(buf),
        }
    }

    fn flush(&mut self) -> io::Result<()> {
        match self {
            Sink::Through(writer) => writer.flush(),
            Sink::Kept(_) => Ok(()),
        }
    }
}
