//! The first piece of a text: a line, or the lines of one record. A name may hold line feeds, so lines that begin as a record but
//! are none are joined with the next ones, up to `RECORD_LINES` lines and `PIECE_BYTES` bytes.
ghost use Rattle.std.specs.Prelude.{◌≡◌, ◌+◌, ◌-◌, ◌≤◌, List, ℕ, true, false, [], length, IfSome, IfNone, position};
ghost use Rattle.trace_core.specs.declared.item.TheConstants.{PIECE_BYTES};
ghost use Rattle.trace_core.specs.Item.{meaning_of, Unread};
ghost use Rattle.trace_core.specs.Piece.{is_line_feed, is_unread, begins_record};
ghost use Rattle.trace_core.specs.Cutting.{IsLine, AreLines, IsJoining, IsJoined, IsFirstPiece, NeedsMore, Takes, IsRestOfLine, HasNoLineFeed};

use crate::header::header_of;
use crate::item::{PIECE_BYTES, TraceItem, item_of};
use crate::record::{Record, record_of};
use memchr::memchr;

/// The most lines of a record.
pub const RECORD_LINES: usize = 4;

const _: () = prove!(RECORD_LINES == 4);

/// A piece of the text.
#[derive(Clone, Copy)]
pub struct Piece<'a> {
    /// What it is.
    pub item: TraceItem<'a>,
    /// How many lines it has.
    pub lines: usize,
    /// How many of the bytes it takes, with the line feed at its end. Of a line that is too long, these are the last bytes, since
    /// the others were dropped.
    pub length: usize,
}

/// The first piece of the bytes, or none if more bytes must be read first. `whole` says that no more will come.
pub(crate) fn first_piece(bytes: &[u8], whole: bool) -> Option<Piece<'_>>
    ensures piece { IfSome result (IsFirstPiece bytes.now whole) }
    ensures takes { IfSome result (Takes bytes.now) }
    ensures none { IfNone result (NeedsMore bytes.now whole) }
{
    let (line, length) = first_line(bytes, whole)?;
    let item = item_of(line);
    if is_unread(&item) && begins_record(line) {
        return joined(bytes, line, length, whole);
    }
    Some(Piece {
        item,
        lines: 1,
        length,
    })
}

fn is_unread(item: &TraceItem<'_>) -> bool
    ensures unread { result ≡ is_unread (meaning_of item.now) }
{
    match item {
        TraceItem::Unread => true,
        _ => false,
    }
}

#[tactic(auto, unfolding(crate::specs::Piece::begins_record))]
fn begins_record(line: &[u8]) -> bool
    ensures begins { result ≡ begins_record line.now }
{
    header_of(line).is_some()
}

/// The rest of a line that is too long, or none if its line feed must be read first.
pub(crate) fn rest_of_line(bytes: &[u8], whole: bool) -> Option<Piece<'_>>
    ensures unread { IfSome result (λ p. meaning_of p.item ≡ Unread) }
    ensures rest { IfSome result (λ p. IsRestOfLine bytes.now whole p.length) }
    ensures none { IfNone result ((whole ≡ false) × HasNoLineFeed bytes.now) }
{
    let length = match line_feed(bytes) {
        Some(end) => end + 1,
        None if whole => bytes.len(),
        None => return None,
    };
    Some(unread_line(length))
}

fn line_feed(bytes: &[u8]) -> Option<usize>
    ensures place { result ≡ position is_line_feed bytes.now }
{
    memchr(b'\n', bytes)
}

/// The first line, and its length with the line feed, or none if the bytes do not have the line's end.
fn first_line(bytes: &[u8], whole: bool) -> Option<(&[u8], usize)>
    ensures line { IfSome result (λ l. IsLine bytes.now whole l.0.now l.1) }
    ensures all { IfNone result (whole ≡ true → bytes.now ≡ []) }
    ensures none { IfNone result (HasNoLineFeed bytes.now) }
{
    match line_feed(bytes) {
        Some(end) => Some((&bytes[..end], end + 1)),
        None if whole && !bytes.is_empty() => Some((bytes, bytes.len())),
        None => None,
    }
}

/// How a run of lines reads once the next line is added.
#[derive(Clone, Copy)]
enum Joining<'a> {
    /// More has to be read first.
    Waits,
    /// No record, whatever the next bytes are.
    Alone,
    /// A record, and where it ends.
    Whole(Record<'a>, usize),
    /// Not a record yet; the following line may complete it. The next line ends there.
    Longer(usize),
}

/// The record that the bytes begin with, of the fewest lines. The first line, of `first` bytes, is no record; it is unread if
/// no record begins with it.
fn joined<'a>(bytes: &'a [u8], line: &[u8], first: usize, whole: bool) -> Option<Piece<'a>>
    requires lines { AreLines bytes.now whole line.now first }
    ensures piece { IfSome result (IsJoined bytes.now whole line.now first) }
    ensures takes { IfSome result (Takes bytes.now) }
    ensures none { IfNone result ((whole ≡ false) × (length bytes.now ≤ PIECE_BYTES)) }
{
    let mut end = first;
    for lines in 2..RECORD_LINES + 1 {
        match join(bytes, end, whole) {
            Joining::Waits => return None,
            Joining::Alone => return Some(unread_line(first)),
            Joining::Whole(record, length) => {
                return Some(Piece {
                    item: TraceItem::Event(record),
                    lines,
                    length,
                });
            }
            Joining::Longer(next) => end = next,
        }
    }
    Some(unread_line(first))
}

/// An unread line of `length` bytes.
fn unread_line<'a>(length: usize) -> Piece<'a>
    ensures unread { meaning_of result.item ≡ Unread }
    ensures length { result.length ≡ length }
{
    Piece {
        item: TraceItem::Unread,
        lines: 1,
        length,
    }
}

/// Joins the lines up to `end` with the next one.
fn join(bytes: &[u8], end: usize, whole: bool) -> Joining<'_>
    requires within { end ≤ length bytes.now }
    ensures joining { (lines : List ℕ) → AreLines bytes.now whole lines end → IsJoining bytes.now whole lines end result }
{
    let Some((line, length)) = first_line(&bytes[end..], whole) else {
        if whole || bytes.len() > PIECE_BYTES {
            return Joining::Alone;
        }
        return Joining::Waits;
    };
    if end + line.len() > PIECE_BYTES || begins_record(line) {
        return Joining::Alone;
    }
    match record_of(&bytes[..end + line.len()]) {
        Some(record) => Joining::Whole(record, end + length),
        None => Joining::Longer(end + length),
    }
}
