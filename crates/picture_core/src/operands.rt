//! The words of a line behind its first, which a picture with room for them shows below it. A note begins with its line.

use crate::history::{Column, ColumnHead};

/// How many words follow the first; none if the line doesn't begin with the column's word. A column with a time has none, since
/// its script is made of a trace, and numbers points as no user knows them.
pub(crate) fn operand_count(column: &Column) -> usize {
    let ColumnHead::Line = column.head else {
        return 0;
    };
    let mut count: usize = 0;
    for word in operands_of(column).split(|byte| *byte == b' ') {
        if !word.is_empty() {
            count = count.saturating_add(1);
        }
    }
    count
}

/// The length of the word at that place behind the first, or 0.
pub(crate) fn operand_length(column: &Column, place: usize) -> u64 {
    operand(column, place).len() as u64
}

/// The word at that place behind the first, or an empty one.
pub(crate) fn operand(column: &Column, place: usize) -> &[u8] {
    let mut ahead = place;
    for word in operands_of(column).split(|byte| *byte == b' ') {
        if word.is_empty() {
            continue;
        }
        if ahead == 0 {
            return word;
        }
        ahead -= 1;
    }
    &[]
}

/// The line behind its first word.
fn operands_of(column: &Column) -> &[u8] {
    let line = line_of(column.note.as_slice()).trim_ascii_start();
    match line.strip_prefix(column.word.as_bytes()) {
        Some(rest) => rest,
        None => &[],
    }
}

fn line_of(note: &[u8]) -> &[u8] {
    match note.split(|byte| *byte == b'\n').next() {
        Some(line) => line,
        None => &[],
    }
}
