//! `Pieces`: the pieces of a text, from a reader, with one block of the text in memory.
//!
//! The unpassed bytes are those between `start` and `end` (`AreWithin`); `HasPassed` says which items of the text were passed.
//! `Reading` calls `next`, then `pass` or `read`.
ghost use Rattle.std.specs.Prelude.{◌≡◌, ◌≤◌, ◌++◌, ◌∷◌, ◌||◌, [], List, ℕ, Option, true, false, nat_lt, length, IfSome, IfNone, IfOk, IfErr, OnOk, if◌then◌else◌};
ghost use Rattle.point_core.specs.declared.refusal.Refusal.TheVariants.{Read as ReadFault};
ghost use Rattle.trace_core.specs.Item.{Meaning, meaning_of};

use crate::item::PIECE_BYTES;
use crate::piece::{Piece, first_piece, rest_of_line};
use point_core::Refusal;
use std::io::Read;
use std::marker::Model;

/// The most bytes of one read.
const BLOCK_BYTES: usize = 65536;

/// The bytes that are held: the beginning of a piece, and the bytes of a block after it.
const HELD_BYTES: usize = PIECE_BYTES + BLOCK_BYTES;

/// The pieces of a text, one after another. It holds one block of the text and the beginning of a piece that began before it.
///
/// `next` answers the next piece, and `pass` drops it; when `next` answers none, `read` reads more, or the text is at its end
/// if it `is_whole`.
#[derive(Drop)]
pub struct Pieces {
    held: [u8; HELD_BYTES],
    // bytes from start to end were read and not passed
    start: usize,
    end: usize,
    // whether the reader was at its end
    whole: bool,
    // whether the beginning of the line was dropped, since the line is too long
    long: bool,
}

impl Model for Pieces {
    ghost use Rattle.std.specs.Prelude.{◌-◌, take, drop};
    ghost use Rattle.trace_core.specs.Pieces.{Unpassed, AreWithin};

    ghost Value = { Unpassed };

    ghost view = { λ p. record {
      bytes = take (p.end - p.start) (drop p.start p.held);
      whole = p.whole;
      long = p.long;
    } };

    ghost invariant = { λ p. AreWithin p.start p.end p.held };
}

impl Pieces {
    ghost use Rattle.trace_core.specs.Pieces.{HasPassed, HasReadAll, HasReadOn, IsNext, IsWaiting, passed};

    /// Nothing was read.
    pub fn new() -> Pieces
        ensures none { (known : Option (List ℕ)) → HasPassed known known result [] }
        ensures waiting { IsWaiting result }
    {
        Pieces {
            held: [0; HELD_BYTES],
            start: 0,
            end: 0,
            whole: false,
            long: false,
        }
    }

    /// The next piece, or none where more has to be read first or the text is at its end.
    pub fn next(&self) -> Option<Piece<'_>>
        ensures next { IfSome result (λ p. IsNext self.now (meaning_of p.item) p.length) }
        ensures waiting { IfNone result (IsWaiting self.now) }

        // Then each piece of the text was passed.
        ensures all { IfNone result (self.now.whole ≡ true → (before now : Option (List ℕ)) → (items : List Meaning) →
            HasPassed before now self.now items → HasReadAll before now items) }
    {
        if self.long {
            rest_of_line(self.unread(), self.whole)
        } else {
            first_piece(self.unread(), self.whole)
        }
    }

    /// Drops a piece of `count` bytes.
    pub fn pass(&mut self, count: usize)
        requires within { count ≤ length self.old.bytes }
        ensures passed { self.new ≡ passed self.old count }
        ensures more { (before now : Option (List ℕ)) → (items : List Meaning) → (item : Meaning) →
            HasPassed before now self.old items → IsNext self.old item count
            → HasPassed before now self.new (items ++ item ∷ []) }
    {
        self.start += count;
        self.long = false;
    }

    /// Whether the whole text was read.
    pub fn is_whole(&self) -> bool
        ensures whole { result ≡ self.now.whole }
    {
        self.whole
    }

    /// Reads once, up to a block's bytes, after `next` gave none and before the text is whole. Of a line that is too long, the bytes
    /// read so far are dropped first; the result says how many these are.
    ///
    /// Fails if the read fails. An interrupted read counts as failed.
    pub fn read<R: Read>(&mut self, reader: &mut R) -> Result<usize, Refusal>
        requires waiting { IsWaiting self.old }
        requires unfinished { self.old.whole ≡ false }
        ensures more { (before : Option (List ℕ)) → (items : List Meaning) →
            HasPassed before (R.remaining reader.old) self.old items
            → HasPassed before (R.remaining reader.new) self.new items }
        ensures dropped { IfOk result (λ dropped. dropped ≡ (if self.new.long then length self.old.bytes else 0)) }
        ensures ahead { OnOk result (HasReadOn self.old self.new (R.remaining reader.old) (R.remaining reader.new)) }
        ensures refusals { IfErr result (λ e. e ≡ ReadFault) }
    {
        let unread = self.end - self.start;
        self.long = is_long(self.long, unread);
        let kept = kept(self.long, unread);
        let dropped = unread - kept;
        self.held.copy_within(self.end - kept..self.end, 0);
        self.start = 0;
        self.end = kept;
        match reader.read(&mut self.held[kept..]) {
            Ok(0) => {
                self.whole = true;
                Ok(dropped)
            }
            Ok(count) => {
                self.end = kept + count;
                Ok(dropped)
            }
            Err(_) => Err(Refusal::Read),
        }
    }

    fn unread(&self) -> &[u8]
        ensures bytes { result.now ≡ self.now.bytes }
    {
        &self.held[self.start..self.end]
    }
}

/// Whether a line exceeds the limit: it did before, or does by its `unread` bytes.
fn is_long(long: bool, unread: usize) -> bool
    ensures { result ≡ (long || nat_lt PIECE_BYTES unread) }
{
    long || unread > PIECE_BYTES
}

/// How many of the bytes are kept: of a line that is too long none.
fn kept(long: bool, unread: usize) -> usize
    ensures { result ≡ (if long then 0 else unread) }
{
    if long { 0 } else { unread }
}
