//! Readers and writers that work piece by piece, and fail.
use point_core::Refusal;
use std::io;
use std::io::{Read, Write};
use std::process::Abort;

/// The most bytes of a read or a write, in turn.
pub(crate) const PIECES: [usize; 4] = [1, 2, 7, 16384];

/// Returns a script, at most `piece` bytes for each read, and counts the reads. Fails at its end if it is to fail.
#[derive(Drop)]
pub(crate) struct Source<'a> {
    pub(crate) script: &'a [u8],
    pub(crate) piece: usize,
    pub(crate) fails: bool,
    pub(crate) reads: usize,
}

pub(crate) fn source_of(script: &[u8], piece: usize) -> Source<'_> {
    Source {
        script,
        piece,
        fails: false,
        reads: 0,
    }
}

pub(crate) fn failing_source_of(script: &[u8], piece: usize) -> Source<'_> {
    Source {
        script,
        piece,
        fails: true,
        reads: 0,
    }
}

impl<'a> Read for Source<'a> {
    fn read(&mut self, buf: &mut [u8]) -> io::Result<usize> {
        self.reads = self.reads.saturating_add(1);
        let count = self.piece.min(buf.len()).min(self.script.len());
        if count == 0 && self.fails {
            return Err(io::Error::from(io::ErrorKind::Interrupted));
        }
        let (first, rest) = self.script.split_at(count);
        buf[..count].copy_from_slice(first);
        self.script = rest;
        Ok(count)
    }
}

/// Compares the written bytes with a text, and accepts at most `piece` bytes for each write. Fails once it has accepted
/// `room` bytes. Counts the writes.
#[derive(Drop)]
pub(crate) struct Sink<'a> {
    // the part of the text that is still to be written
    pub(crate) rest: &'a [u8],
    // whether other bytes were written
    pub(crate) strange: bool,
    pub(crate) piece: usize,
    pub(crate) room: usize,
    pub(crate) writes: usize,
    // the most bytes that a write was given
    pub(crate) longest: usize,
    pub(crate) flush_fails: bool,
    pub(crate) flushes: usize,
    // the number of bytes still to be written at the last flush
    pub(crate) unflushed: usize,
}

pub(crate) fn sink_of(text: &[u8], piece: usize, room: usize) -> Sink<'_> {
    Sink {
        rest: text,
        strange: false,
        piece,
        room,
        writes: 0,
        longest: 0,
        flush_fails: false,
        flushes: 0,
        unflushed: text.len(),
    }
}

impl<'a> Sink<'a> {
    /// The whole text was written, and nothing else.
    pub(crate) fn assert_whole(&self, rt: &impl Abort) {
        assert!(rt; self.rest.is_empty());
        assert!(rt; !self.strange);
    }
}

impl<'a> Write for Sink<'a> {
    fn write(&mut self, buf: &[u8]) -> io::Result<usize> {
        self.writes = self.writes.saturating_add(1);
        self.longest = self.longest.max(buf.len());
        let count = self.piece.min(buf.len()).min(self.room);
        if count == 0 {
            return Err(io::Error::from(io::ErrorKind::Interrupted));
        }
        match self.rest.strip_prefix(&buf[..count]) {
            Some(rest) => self.rest = rest,
            None => self.strange = true,
        }
        self.room -= count;
        Ok(count)
    }

    fn flush(&mut self) -> io::Result<()> {
        self.flushes = self.flushes.saturating_add(1);
        self.unflushed = self.rest.len();
        if self.flush_fails {
            return Err(io::Error::from(io::ErrorKind::BrokenPipe));
        }
        Ok(())
    }
}

pub(crate) fn assert_refusal(rt: &impl Abort, refused: Option<Refusal>, wanted: Refusal) {
    assert!(rt; refused == Some(wanted));
}
