//! `RawLine`: a line of a script before it is parsed.
ghost use Rattle.std.specs.Prelude.{◌≡◌};

/// A line of a script as bytes.
#[derive(Clone, Copy, Debug)]
pub struct RawLine<'a> {
    /// Lines are numbered from 1.
    pub number: u32,
    /// An over-long line keeps its first 257 bytes.
    pub bytes: &'a [u8],
    /// The number of bytes of the line, without its line feed.
    pub length: usize,
}

impl<'a> RawLine<'a> {
    /// The line with this number and length; `bytes` are the ones that are kept of it.
    pub fn new(number: u32, bytes: &'a [u8], length: usize) -> RawLine<'a>
        ensures number { result.number ≡ number }
        ensures bytes { result.bytes.now ≡ bytes.now }
        ensures length { result.length ≡ length }
    {
        RawLine {
            number,
            bytes,
            length,
        }
    }
}
