//! Tests of `clients`: the settled tables that the program prints, and a writer that fails.
use crate::tests::seats::holds;
use crate::tests::wrapping::OddTable;
use clients_core::{Board, LockedTable};
use fencectl_core::{Clients, Table, clients_report, report_clients};
use point_core::Refusal;
use resv_core::SharedTable;
use std::alloc::Global;
use std::io;
use std::io::Write;
use std::process::Abort;
use std::sync::Wait;
use std::thread::Threads;

const TWO_CLIENTS: &str = "\
timeline c1                                               100\n\
timeline c2                                               100\n\
buffer   b0                                                 6\n\
write    c1                                               200\n\
write    c2                                               200\n\
read     c1                                               200\n\
read     c2                                               200\n\
bookkeep c1                                               200\n\
bookkeep c2                                               200\n\
buffer   b1                                                 4\n\
read     c1                                               300\n\
read     c2                                               300\n\
bookkeep c1                                               300\n\
bookkeep c2                                               300\n\
";

/// The report of two clients of a hundred rounds over the board.
fn report_two<R: Threads + Wait + Sync, W: Write>(
    rt: &R,
    alloc: Global,
    writer: &mut W,
) -> Result<(), Refusal> {
    clients_report::<R, Board, W>(rt, alloc, 2, 100, writer)
}

/// Two clients of a hundred rounds, over buffers under locks.
fn two_clients_under_locks() -> Clients {
    Clients {
        count: 2,
        rounds: 100,
        table: Table::Locks,
    }
}

#[test]
fn two_clients_settle(rt: HostRuntime) {
    let mut printed = Vec::new(rt.alloc());
    let ended = report_two(&rt, rt.alloc(), &mut printed);
    holds(&rt, are_settled(&ended, &printed));
}

#[test]
fn two_clients_settle_under_locks(rt: HostRuntime) {
    let mut printed = Vec::new(rt.alloc());
    let ended = report_locked(&rt, rt.alloc(), &mut printed);
    holds(&rt, are_settled(&ended, &printed));
}

/// The report of two clients over buffers under locks. The table that is given as the board would refuse a run of one client.
fn report_locked<R: Threads + Wait + Sync, W: Write>(
    rt: &R,
    alloc: Global,
    writer: &mut W,
) -> Result<(), Refusal> {
    report_clients::<R, OddTable, LockedTable, W>(rt, alloc, &two_clients_under_locks(), writer)
}

/// One client of one round, over that table.
fn one_client(table: Table) -> Clients {
    Clients {
        count: 1,
        rounds: 1,
        table,
    }
}

/// Checks that one client is refused over a table that never settles, and that nothing is printed: so clients ran over it.
fn check_torn<R: Threads + Wait + Abort + Sync, B: SharedTable, L: SharedTable>(
    rt: &R,
    alloc: Global,
    table: Table,
) {
    let mut printed = Vec::new(alloc);
    let clients = one_client(table);
    let ended = report_clients::<R, B, L, Vec<u8>>(rt, alloc, &clients, &mut printed);
    holds(rt, ended == Err(Refusal::Torn) && printed.is_empty());
}

#[test]
fn clients_run_over_the_table_that_is_asked_for(rt: HostRuntime) {
    check_torn::<HostRuntime, OddTable, LockedTable>(&rt, rt.alloc(), Table::Board);
    check_torn::<HostRuntime, Board, OddTable>(&rt, rt.alloc(), Table::Locks);
}

/// Whether two clients ended well, and their whole table was printed.
fn are_settled(ended: &Result<(), Refusal>, printed: &[u8]) -> bool {
    ended.is_ok() && printed == TWO_CLIENTS.as_bytes()
}

/// Accepts every write, and fails at a flush.
#[derive(Drop)]
struct Stuck {
    taken: usize,
}

impl Write for Stuck {
    fn write(&mut self, bytes: &[u8]) -> io::Result<usize> {
        self.taken = bytes.len();
        Ok(bytes.len())
    }

    fn flush(&mut self) -> io::Result<()> {
        Err(io::Error::from(io::ErrorKind::BrokenPipe))
    }
}

#[test]
fn a_failed_flush_is_refused(rt: HostRuntime) {
    let mut stuck = Stuck { taken: 0 };
    let ended = report_two(&rt, rt.alloc(), &mut stuck);
    holds(&rt, ended == Err(Refusal::Write));
    holds(&rt, stuck.taken == TWO_CLIENTS.len());
}
