//! The text of tables: a buffer's rows, and a report of all timelines, files and buffers.
ghost use Rattle.std.specs.Prelude.{◌≡◌, ◌++◌, OnOk, OnErr, Err};
ghost use Rattle.std.specs.Io.{StartsWith};
ghost use Rattle.point_core.specs.declared.refusal.Refusal.TheVariants.{Memory};
ghost use Rattle.report_core.specs.Tables.{show_text, report_text};

use crate::table_item::push_each;
use command_core::{Report, ShowRow};
use point_core::Refusal;

/// Appends the table of one buffer to `out`, a row for each of `rows`.
///
/// Fails only with Memory. `out` then begins with its old bytes.
pub fn show_text(rows: &[ShowRow], out: &mut Vec<u8>) -> Result<(), Refusal>
    ensures ok { OnOk result (out.new.items ≡ out.old.items ++ show_text rows.now) }
    ensures err { OnErr result ((result ≡ Err Memory) × StartsWith out.new.items out.old.items) }
{
    push_each(rows, out)?;
    Ok(())
}

/// Appends a report to `out`: a row for each timeline with its value, one for each file, and for each buffer a row with
/// the number of its rows, followed by these.
///
/// Fails only with Memory. `out` then begins with its old bytes.
pub fn report_text(report: &Report, out: &mut Vec<u8>) -> Result<(), Refusal>
    ensures ok { OnOk result (out.new.items ≡ out.old.items ++ report_text report.now) }
    ensures err { OnErr result ((result ≡ Err Memory) × StartsWith out.new.items out.old.items) }
{
    push_each(report.timelines.as_slice(), out)?;
    push_each(report.files.as_slice(), out)?;
    push_each(report.buffers.as_slice(), out)?;
    Ok(())
}
