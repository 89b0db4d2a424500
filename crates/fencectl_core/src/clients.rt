//! `fencectl clients`: runs clients on threads, and writes the table that they settle.
ghost use Rattle.std.specs.Prelude.{◌≡◌, ◌⊎◌, ◌≤◌, IfErr, IfOk, OnErr, OnOk};
ghost use Rattle.std.specs.Io.KnownBytes.{Appends, Keeps};
ghost use Rattle.point_core.specs.declared.refusal.Refusal.TheVariants as refusal;
ghost use Rattle.clients_core.specs.Clients.{IsClientRefusal};
ghost use Rattle.clients_core.specs.declared.plans.TheConstants.{CLIENTS};
ghost use Rattle.clients_core.specs.declared.rounds.TheConstants.{ROUNDS};
ghost use Rattle.report_core.specs.Bytes.{AppendsFront};
ghost use Rattle.fencectl_core.specs.Clients.{clients_text};

use crate::action::{Clients, Table};
use clients_core::{CLIENTS, OpenGate, ROUND_BUFFERS, ROUNDS, plans_of_rounds, run_clients};
use point_core::Refusal;
use report_core::{settled_text, write_whole};
use resv_core::SharedTable;
use std::alloc::Global;
use std::io::Write;
use std::sync::Wait;
use std::thread::Threads;

/// Runs `n` clients of `rounds` rounds each over a table `T`, the first on the calling thread and each other on a thread of
/// its own, and writes the text of the table that they settle. No schedule changes the text.
///
/// Fails as `run_clients`, which refuses none of these plans before its threads start, and with Write if a write
/// failed or took no byte, or the flush failed. Then a prefix of the text is written.
pub fn clients_report<R: Threads + Wait + Sync, T: SharedTable, W: Write>(
    rt: &R,
    alloc: Global,
    n: usize,
    rounds: u64,
    writer: &mut W,
) -> Result<(), Refusal>
    requires clients { (1 ≤ n) × (n ≤ CLIENTS) }
    requires rounds { (1 ≤ rounds) × (rounds ≤ ROUNDS) }
    ensures ok { OnOk result (Appends (W.contents writer.old) (W.contents writer.new) (clients_text n rounds)) }
    ensures err { OnErr result
        (AppendsFront (W.contents writer.old) (W.contents writer.new) (clients_text n rounds)) }
    ensures refusals { IfErr result (λ e. (e ≡ refusal.Write) ⊎ IsClientRefusal e) }
{
    let text = text_of_run::<R, T>(rt, alloc, n, rounds)?;
    write_whole(writer, text.as_slice())?;
    flush(writer)
}

/// Reports the run of clients that is asked for, over `B` as the board, or over `L` under locks.
///
/// Fails as `clients_report`.
pub fn report_clients<R: Threads + Wait + Sync, B: SharedTable, L: SharedTable, W: Write>(
    rt: &R,
    alloc: Global,
    clients: &Clients,
    writer: &mut W,
) -> Result<(), Refusal>
    ensures ok { OnOk result
        (Appends (W.contents writer.old) (W.contents writer.new) (clients_text clients.now.count clients.now.rounds)) }
    ensures err { OnErr result
        (AppendsFront (W.contents writer.old) (W.contents writer.new) (clients_text clients.now.count clients.now.rounds)) }
    ensures refusals { IfErr result (λ e. (e ≡ refusal.Write) ⊎ IsClientRefusal e) }
{
    let Clients {
        count,
        rounds,
        table,
    } = *clients;
    match table {
        Table::Board => clients_report::<R, B, W>(rt, alloc, count, rounds, writer),
        Table::Locks => clients_report::<R, L, W>(rt, alloc, count, rounds, writer),
    }
}

/// The text of what the clients settle.
///
/// Fails as `run_clients` once its threads were started, and with Memory.
fn text_of_run<R: Threads + Wait + Sync, T: SharedTable>(
    rt: &R,
    alloc: Global,
    clients: usize,
    rounds: u64,
) -> Result<Vec<u8>, Refusal>
    requires clients { (1 ≤ clients) × (clients ≤ CLIENTS) }
    requires rounds { rounds ≤ ROUNDS }
    ensures text { IfOk result (λ text. text.items ≡ clients_text clients rounds) }
    ensures refusals { IfErr result IsClientRefusal }
{
    let plans = plans_of_rounds(alloc, clients, rounds)?;
    let (settled, _) = run_clients::<R, T, OpenGate>(
        rt,
        alloc,
        ROUND_BUFFERS,
        plans.as_slice(),
        &OpenGate,
    )?;
    let mut text = Vec::new(alloc);
    settled_text(&settled, &mut text)?;
    Ok(text)
}

fn flush<W: Write>(writer: &mut W) -> Result<(), Refusal>
    ensures bytes { Keeps (W.contents writer.old) (W.contents writer.new) }
    ensures err { IfErr result (λ e. e ≡ refusal.Write) }
{
    writer.flush().map_err(|_| Refusal::Write)
}
