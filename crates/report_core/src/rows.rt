//! The text of one row and of a status, and the widths of a row's columns.
ghost use Rattle.std.specs.Prelude.{◌≡◌, ◌++◌, ◌+◌, ◌<◌, ◌≤◌, ◌^◌, [], OnOk, OnErr, Err, length};
ghost use Rattle.std.specs.Io.{StartsWith};
ghost use Rattle.point_core.specs.declared.refusal.Refusal.TheVariants.{Memory};
ghost use Rattle.report_core.specs.Columns.{column};
ghost use Rattle.report_core.specs.Row.{row_text, file_row_text};
ghost use Rattle.report_core.specs.RowKind.{kind_word};
ghost use Rattle.report_core.specs.Status.{status_text};

use crate::line::TextLine;
use crate::row_kind::RowKind;
use command_core::FileRow;
use point_core::{NAME_BYTES, Name, Refusal, Status};

/// The width of a row's first column: the longest words, `timeline` and `bookkeep`, fill it.
pub const KIND_WIDTH: usize = 8;

/// The width of the second column: the longest name fills it.
pub const SUBJECT_WIDTH: usize = NAME_BYTES;

/// The width of the third column: the greatest number fills it.
pub const NUMBER_WIDTH: usize = 20;

/// The width of a file row's last column.
pub const COUNT_WIDTH: usize = 3;

/// The bytes of a row, with its line feed.
pub const ROW_BYTES: usize = KIND_WIDTH + 1 + SUBJECT_WIDTH + 1 + NUMBER_WIDTH + 1;

/// The bytes of a file's row, with its line feed, if its count fits the column.
pub const FILE_ROW_BYTES: usize = ROW_BYTES + 1 + COUNT_WIDTH;

/// The most bytes of a status.
pub const STATUS_BYTES: usize = 2;

const _: () = prove!(KIND_WIDTH == 8);

const _: () = prove!(SUBJECT_WIDTH == 31);

const _: () = prove!(NUMBER_WIDTH == 20);

const _: () = prove!(COUNT_WIDTH == 3);

const _: () = prove!(ROW_BYTES == 62);

const _: () = prove!(FILE_ROW_BYTES == 66);

const _: () = prove!(STATUS_BYTES == 2);

/// Appends a row to `out`: the kind's word, left-aligned, a space, the name, left-aligned, a space, the number in
/// decimal, right-aligned, and a line feed.
///
/// Fails only with Memory. `out` then begins with its old bytes.
pub fn row(kind: RowKind, name: &Name, number: u64, out: &mut Vec<u8>) -> Result<(), Refusal>
    ensures ok { OnOk result (out.new.items ≡ out.old.items ++ row_text kind name.now number) }
    ensures width { OnOk result (length out.new.items ≡ length out.old.items + ROW_BYTES) }
    ensures err { OnErr result ((result ≡ Err Memory) × StartsWith out.new.items out.old.items) }
{
    push_row(kind, name.as_bytes(), number, out)
}

/// Appends a row to `out`, as `row` does, of any subject that fits the second column.
pub(crate) fn push_row(
    kind: RowKind,
    subject: &[u8],
    number: u64,
    out: &mut Vec<u8>,
) -> Result<(), Refusal>
    requires fits { length subject.now ≤ SUBJECT_WIDTH }
    ensures ok { OnOk result (out.new.items ≡ out.old.items ++ row_text kind subject.now number) }
    ensures width { OnOk result (length out.new.items ≡ length out.old.items + ROW_BYTES) }
    ensures err { OnErr result ((result ≡ Err Memory) × StartsWith out.new.items out.old.items) }
{
    let mut line = TextLine::new();
    put_names(&mut line, kind, subject);
    line.put_number_right(number, NUMBER_WIDTH);
    line.put(b"\n");
    line.push_to(out)
}

/// Appends a file's row to `out`: as `row`, with its status for the number, and before the line feed a space and the
/// count, right-aligned in a column of its own.
///
/// Fails only with Memory. `out` then begins with its old bytes.
pub fn file_row(file: &FileRow, out: &mut Vec<u8>) -> Result<(), Refusal>
    ensures ok { OnOk result (out.new.items ≡ out.old.items ++ file_row_text file.now) }
    ensures width { OnOk result (file.now.count < 10 ^ COUNT_WIDTH →
        length out.new.items ≡ length out.old.items + FILE_ROW_BYTES) }
    ensures err { OnErr result ((result ≡ Err Memory) × StartsWith out.new.items out.old.items) }
{
    let mut line = TextLine::new();
    put_names(&mut line, RowKind::File, file.name.as_bytes());
    line.put_right(status_text(file.status), NUMBER_WIDTH);
    line.pad(1);
    line.put_number_right(file.count, COUNT_WIDTH);
    line.put(b"\n");
    line.push_to(out)?;
    Ok(())
}

/// Puts the first two columns of a row.
fn put_names(line: &mut TextLine, kind: RowKind, subject: &[u8])
    requires empty { line.old ≡ [] }
    requires fits { length subject.now ≤ SUBJECT_WIDTH }
    ensures text { line.new ≡ column KIND_WIDTH (kind_word kind) ++ column SUBJECT_WIDTH subject.now }
    ensures len { length line.new ≡ KIND_WIDTH + 1 + SUBJECT_WIDTH + 1 }
{
    line.put_column(kind.word().as_bytes(), KIND_WIDTH);
    line.put_column(subject, SUBJECT_WIDTH);
}

/// A status in decimal, as file information and rows show it: 0, 1 or -2.
pub fn status_text(status: Status) -> &'static [u8]
    ensures text { result.now ≡ status_text status }
    ensures len { length result.now ≤ STATUS_BYTES }
{
    match status {
        Status::Active => b"0",
        Status::Signalled => b"1",
        Status::Cancelled => b"-2",
    }
}
