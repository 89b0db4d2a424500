//! The text of `clients`: the end that all clients' plans come to.
ghost use Rattle.std.specs.Prelude.{◌≡◌, ◌++◌, ◌∷◌, ◌+◌, ◌≤◌, OnOk, OnErr, Err, decimal, length};
ghost use Rattle.std.specs.List.{flat_map, enumerate_from};
ghost use Rattle.std.specs.Io.{StartsWith};
ghost use Rattle.point_core.specs.declared.refusal.Refusal.TheVariants.{Memory};
ghost use Rattle.report_core.specs.Settled.{client_text, table_text, settled_text};

use crate::line::TextLine;
use crate::row_kind::RowKind;
use crate::rows::{NUMBER_WIDTH, push_row};
use crate::table_item::push_each;
use point_core::{Items, Refusal, TopRow};
use resv_core::Settled;

/// Appends the settled tables to `out`: a row for each client's timeline with its value, and for each buffer a row with
/// the number of its rows, followed by these. Clients are named `c1`, `c2` and so on, buffers `b0`, `b1` and so on.
///
/// Fails only with Memory. `out` then begins with its old bytes.
pub fn settled_text(settled: &Settled, out: &mut Vec<u8>) -> Result<(), Refusal>
    ensures ok { OnOk result (out.new.items ≡ out.old.items ++ settled_text settled.now) }
    ensures err { OnErr result ((result ≡ Err Memory) × StartsWith out.new.items out.old.items) }
{
    push_clients(out, settled.values.as_slice())?;
    push_tables(out, settled.tables.as_slice())?;
    Ok(())
}

/// Appends the rows of the clients' timelines, as `settled_text` names them.
fn push_clients(out: &mut Vec<u8>, values: &[u64]) -> Result<(), Refusal>
    ensures ok { OnOk result (out.new.items ≡ out.old.items ++ flat_map client_text (enumerate_from 1 values.now)) }
    ensures err { OnErr result ((result ≡ Err Memory) × StartsWith out.new.items out.old.items) }
{
    for (place, value) in values.iter().enumerate() {
        let client = numbered(b'c', place as u64 + 1);
        push_row(RowKind::Timeline, client.as_bytes(), *value, out)?;
    }
    Ok(())
}

fn push_tables(out: &mut Vec<u8>, tables: &[Items<TopRow>]) -> Result<(), Refusal>
    ensures ok { OnOk result (out.new.items ≡ out.old.items ++ flat_map table_text (enumerate_from 0 tables.now)) }
    ensures err { OnErr result ((result ≡ Err Memory) × StartsWith out.new.items out.old.items) }
{
    for (buffer, rows) in tables.iter().enumerate() {
        push_table(out, buffer as u64, rows.as_slice())?;
    }
    Ok(())
}

fn push_table(out: &mut Vec<u8>, buffer: u64, rows: &[TopRow]) -> Result<(), Refusal>
    ensures ok { OnOk result (out.new.items ≡ out.old.items ++ table_text (buffer, rows.now)) }
    ensures err { OnErr result ((result ≡ Err Memory) × StartsWith out.new.items out.old.items) }
{
    let name = numbered(b'b', buffer);
    push_row(RowKind::Buffer, name.as_bytes(), rows.len() as u64, out)?;
    push_each(rows, out)?;
    Ok(())
}

/// The letter and the number, as clients and buffers are named.
pub(crate) fn numbered(letter: u8, number: u64) -> TextLine
    ensures text { result ≡ letter ∷ decimal number }
    ensures len { length result ≤ NUMBER_WIDTH + 1 }
{
    let mut name = TextLine::new();
    name.put(&[letter]);
    name.put_digits(number);
    name
}
