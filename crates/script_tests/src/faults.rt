//! Tests of the line and the exit status of a fault.
use fencectl_core::{FAULT, tell_fault};
use point_core::Refusal;
use std::io;
use std::io::Write;

const FAULTS: &str = "\
fencectl: 13 Read\n\
fencectl: 14 Write\n\
fencectl: 16 Memory\n\
";

#[test]
fn faults_print_their_numbers_and_names(rt: HostRuntime) {
    let mut printed = Vec::new(rt.alloc());
    assert!(rt; are_printed_faults(&mut printed));
}

/// Whether each fault prints its line.
fn are_printed_faults(printed: &mut Vec<u8>) -> bool {
    let refusals = [Refusal::Read, Refusal::Write, Refusal::Memory];
    are_faults(&refusals, printed) && printed.as_slice() == FAULTS.as_bytes()
}

#[test]
fn a_closed_writer_changes_no_status(rt: HostRuntime) {
    assert!(rt; are_faults(&[Refusal::Read], &mut Closed));
}

/// Whether each refusal has the exit status of a fault.
fn are_faults<W: Write>(refusals: &[Refusal], writer: &mut W) -> bool {
    let mut are = true;
    for refusal in refusals {
        are &= tell_fault(refusal, writer) == FAULT;
    }
    are
}

/// A writer that accepts nothing.
#[derive(Drop)]
struct Closed;

impl Write for Closed {
    fn write(&mut self, _bytes: &[u8]) -> io::Result<usize> {
        Ok(0)
    }

    fn flush(&mut self) -> io::Result<()> {
        Ok(())
    }
}
