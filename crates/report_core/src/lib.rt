//! The text of answers: single lines, and tables of rows with fixed columns. `print` appends a whole answer to a buffer;
//! `pass_answer` also writes the buffer once enough is pending.
//!
//! `specs/Answer.antt` defines the text of each answer, and `specs/Row.antt` a row by its columns.
#![tactic(auto)]

mod answer;
mod line;
mod passing;
mod report;
mod row_kind;
mod rows;
mod settled;
mod table_item;
mod writing;

pub use answer::{done_line, first_line, print, refusal_line, value_line};
pub use line::{TEXT_LINE_BYTES, TextLine};
pub use passing::pass_answer;
pub use report::{report_text, show_text};
pub use row_kind::RowKind;
pub use rows::{
    COUNT_WIDTH, FILE_ROW_BYTES, KIND_WIDTH, NUMBER_WIDTH, ROW_BYTES, STATUS_BYTES, SUBJECT_WIDTH,
    file_row, row, status_text,
};
pub use settled::settled_text;
pub use writing::{WRITE_BYTES, write_many, write_out, write_whole};
