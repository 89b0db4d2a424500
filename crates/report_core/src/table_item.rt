//! `TableItem`: what is appended as a line or as rows. `push_each` appends a list of any of them.
ghost use Rattle.std.specs.Prelude.{◌≡◌, ◌++◌, OnOk, OnErr, Err};
ghost use Rattle.std.specs.List.{flat_map};
ghost use Rattle.std.specs.Io.{StartsWith};
ghost use Rattle.point_core.specs.declared.refusal.Refusal.TheVariants.{Memory};
ghost use Rattle.report_core.specs.Answer.{fence_text};
ghost use Rattle.report_core.specs.Row.{file_row_text};
ghost use Rattle.report_core.specs.Settled.{top_text};
ghost use Rattle.report_core.specs.Tables.{buffer_text, show_row_text, timeline_text};

use crate::answer::push_fence;
use crate::report::show_text;
use crate::row_kind::RowKind;
use crate::rows::{file_row, push_row, row};
use crate::settled::numbered;
use command_core::{BufferRows, FenceRow, FileRow, ShowRow};
use point_core::{Refusal, TimelineRow, TopRow};

/// An item of a table, or of a list of lines.
pub(crate) trait TableItem {
    ghost use Rattle.std.specs.Prelude.{◌≡◌, ◌++◌, ℕ, List, OnOk, OnErr, Err};
    ghost use Rattle.std.specs.Io.{StartsWith};
    ghost use Rattle.point_core.specs.declared.refusal.Refusal.TheVariants.{Memory};

    /// The text of an item.
    ghost text: { Self → List ℕ };

    /// Appends the item to `out`.
    ///
    /// Fails only with Memory. `out` then begins with its old bytes.
    fn push(&self, out: &mut Vec<u8>) -> Result<(), Refusal>
        ensures ok { OnOk result (out.new.items ≡ out.old.items ++ text self.now) }
        ensures err { OnErr result ((result ≡ Err Memory) × StartsWith out.new.items out.old.items) };
}

/// Appends these items to `out`, in order.
///
/// Fails only with Memory. `out` then begins with its old bytes.
pub(crate) fn push_each<T: TableItem>(items: &[T], out: &mut Vec<u8>) -> Result<(), Refusal>
    ensures ok { OnOk result (out.new.items ≡ out.old.items ++ flat_map T.text items.now) }
    ensures err { OnErr result ((result ≡ Err Memory) × StartsWith out.new.items out.old.items) }
{
    for item in items {
        item.push(out)?;
    }
    Ok(())
}

impl TableItem for FenceRow {
    ghost text = { fence_text };

    fn push(&self, out: &mut Vec<u8>) -> Result<(), Refusal> {
        push_fence(self, out)
    }
}

impl TableItem for ShowRow {
    ghost text = { show_row_text };

    fn push(&self, out: &mut Vec<u8>) -> Result<(), Refusal> {
        row(RowKind::Level(self.usage), &self.timeline, self.point, out)
    }
}

impl TableItem for TimelineRow {
    ghost text = { timeline_text };

    fn push(&self, out: &mut Vec<u8>) -> Result<(), Refusal> {
        let kind = if self.closed {
            RowKind::Closed
        } else {
            RowKind::Timeline
        };
        row(kind, &self.name, self.value, out)
    }
}

impl TableItem for FileRow {
    ghost text = { file_row_text };

    fn push(&self, out: &mut Vec<u8>) -> Result<(), Refusal> {
        file_row(self, out)
    }
}

impl TableItem for BufferRows {
    ghost text = { buffer_text };

    fn push(&self, out: &mut Vec<u8>) -> Result<(), Refusal> {
        let rows = self.rows.as_slice();
        row(RowKind::Buffer, &self.name, rows.len() as u64, out)?;
        show_text(rows, out)?;
        Ok(())
    }
}

/// A settled table's row, as `settled_text` names its client.
impl TableItem for TopRow {
    ghost text = { top_text };

    fn push(&self, out: &mut Vec<u8>) -> Result<(), Refusal> {
        let client = numbered(b'c', u64::from(self.ctx.number()));
        push_row(
            RowKind::Level(self.usage),
            client.as_bytes(),
            self.point,
            out,
        )
    }
}
