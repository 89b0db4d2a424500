//! `TextLine`: one line of output, on the stack. All text of this crate is written by it: its parts are put one after
//! another, and the whole line is appended to the output, so a failure for memory leaves no part of a line.
ghost use Rattle.std.specs.Prelude.{◌≡◌, ◌++◌, ◌+◌, ◌≤◌, ◌∷◌, [], OnOk, OnErr, Err, decimal, length};
ghost use Rattle.point_core.specs.declared.refusal.Refusal.TheVariants.{Memory};
ghost use Rattle.report_core.specs.Columns.{spaces, column, right};

use crate::rows::{KIND_WIDTH, NUMBER_WIDTH, SUBJECT_WIDTH};
use itoa::write_digits;
use point_core::Refusal;
use std::marker::Model;

/// The most bytes of a line of output with its line feed: two short words, a name and two numbers, each with one byte
/// after it.
pub const TEXT_LINE_BYTES: usize = 2 * (KIND_WIDTH + 1)
    + (SUBJECT_WIDTH + 1)
    + 2 * (NUMBER_WIDTH + 1);

const _: () = prove!(TEXT_LINE_BYTES == 92);

/// A line of output, as far as it is written.
#[derive(Drop)]
pub struct TextLine {
    bytes: [u8; TEXT_LINE_BYTES],
    len: usize,
}

impl Model for TextLine {
    ghost use Rattle.std.specs.Prelude.{◌≡◌, ◌≤◌, ◌-◌, List, ℕ, drop, take};
    ghost use Rattle.report_core.specs.declared.line.TheConstants.{TEXT_LINE_BYTES};
    ghost use Rattle.report_core.specs.Columns.{spaces};

    ghost Value = { List ℕ };

    ghost view = { λ l. take l.len l.bytes };

    // there are spaces behind the line
    ghost invariant = { λ l. (l.len ≤ TEXT_LINE_BYTES) × (drop l.len l.bytes ≡ spaces (TEXT_LINE_BYTES - l.len)) };
}

impl TextLine {
    /// An empty line.
    pub(crate) fn new() -> Self
        ensures { result ≡ [] }
    {
        TextLine {
            bytes: [b' '; TEXT_LINE_BYTES],
            len: 0,
        }
    }

    /// Its bytes.
    pub fn as_bytes(&self) -> &[u8]
        ensures value { result.now ≡ self.now }
        ensures few { length self.now ≤ TEXT_LINE_BYTES }
    {
        &self.bytes[..self.len]
    }

    /// Puts the text behind the line.
    pub(crate) fn put(&mut self, text: &[u8])
        requires room { length self.old + length text.now ≤ TEXT_LINE_BYTES }
        ensures text { self.new ≡ self.old ++ text.now }
        ensures len { length self.new ≡ length self.old + length text.now }
    {
        let end = self.len + text.len();
        self.bytes[self.len..end].copy_from_slice(text);
        self.len = end;
    }

    /// Puts that many spaces behind the line.
    pub(crate) fn pad(&mut self, count: usize)
        requires room { length self.old + count ≤ TEXT_LINE_BYTES }
        ensures text { self.new ≡ self.old ++ spaces count }
        ensures len { length self.new ≡ length self.old + count }
    {
        self.len += count;
    }

    /// Puts the number, in decimal, behind the line.
    pub(crate) fn put_digits(&mut self, number: u64)
        requires room { length self.old + NUMBER_WIDTH ≤ TEXT_LINE_BYTES }
        ensures text { self.new ≡ self.old ++ decimal number }
        ensures len { length self.new ≡ length self.old + length (decimal number) }
        ensures few { length (decimal number) ≤ NUMBER_WIDTH }
    {
        self.put_counted(number, digit_count(number));
    }

    /// Puts the number, which has `count` digits, behind the line.
    #[inline(always)]
    fn put_counted(&mut self, number: u64, count: usize)
        requires count { count ≡ length (decimal number) }
        requires few { count ≤ NUMBER_WIDTH }
        requires room { length self.old + count ≤ TEXT_LINE_BYTES }
        ensures text { self.new ≡ self.old ++ decimal number }
        ensures len { length self.new ≡ length self.old + count }
    {
        let end = self.len + count;
        write_digits(number, &mut self.bytes, end);
        self.len = end;
    }

    /// Puts a space and the word behind the line.
    pub(crate) fn put_word(&mut self, word: &[u8])
        requires room { length self.old + length word.now + 1 ≤ TEXT_LINE_BYTES }
        ensures text { self.new ≡ self.old ++ 32 ∷ word.now }
        ensures len { length self.new ≡ length self.old + length word.now + 1 }
    {
        self.pad(1);
        self.put(word);
    }

    /// Puts a space and the number behind the line.
    pub(crate) fn put_number(&mut self, number: u64)
        requires room { length self.old + NUMBER_WIDTH + 1 ≤ TEXT_LINE_BYTES }
        ensures text { self.new ≡ self.old ++ 32 ∷ decimal number }
        ensures len { length self.new ≤ length self.old + NUMBER_WIDTH + 1 }
    {
        self.pad(1);
        self.put_digits(number);
    }

    /// Puts the text, left-aligned in a column, and the space after the column.
    pub(crate) fn put_column(&mut self, text: &[u8], width: usize)
        requires fits { length text.now ≤ width }
        requires room { length self.old + width + 1 ≤ TEXT_LINE_BYTES }
        ensures text { self.new ≡ self.old ++ column width text.now }
        ensures len { length self.new ≡ length self.old + width + 1 }
    {
        self.put(text);
        self.pad(width - text.len());
        self.pad(1);
    }

    /// Puts the text, right-aligned in a column. A text that is wider than the column is put whole.
    pub(crate) fn put_right(&mut self, text: &[u8], width: usize)
        requires text { length self.old + length text.now ≤ TEXT_LINE_BYTES }
        requires column { length self.old + width ≤ TEXT_LINE_BYTES }
        ensures text { self.new ≡ self.old ++ right width text.now }
        ensures len { length text.now ≤ width → length self.new ≡ length self.old + width }
    {
        self.pad(width.saturating_sub(text.len()));
        self.put(text);
    }

    /// Puts the number, right-aligned in a column. A number that is wider than the column is put whole.
    pub(crate) fn put_number_right(&mut self, number: u64, width: usize)
        requires room { length self.old + width + NUMBER_WIDTH ≤ TEXT_LINE_BYTES }
        ensures text { self.new ≡ self.old ++ right width (decimal number) }
        ensures len { length (decimal number) ≤ width → length self.new ≡ length self.old + width }
        ensures few { length (decimal number) ≤ NUMBER_WIDTH }
    {
        let count = digit_count(number);
        self.pad(width.saturating_sub(count));
        self.put_counted(number, count);
    }

    /// Appends the line to `out`.
    ///
    /// Fails only with Memory, and then leaves `out` as it was.
    pub(crate) fn push_to(&self, out: &mut Vec<u8>) -> Result<(), Refusal>
        ensures ok { OnOk result (out.new.items ≡ out.old.items ++ self.now) }
        ensures err { OnErr result ((result ≡ Err Memory) × (out.new.items ≡ out.old.items)) }
    {
        out.extend_from_slice(self.as_bytes())?;
        Ok(())
    }
}

/// How many digits the number has.
fn digit_count(number: u64) -> usize
    ensures count { result ≡ length (decimal number) }
    ensures few { result ≤ NUMBER_WIDTH }
{
    if number == 0 {
        return 1;
    }
    let power = number.ilog10();
    power as usize + 1
}
