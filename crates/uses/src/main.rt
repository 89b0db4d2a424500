//! Calls of the libraries, as users make them, each with its answer on a line. The callers below `example` are to be
//! read and copied.
//!
//! Standard input has a byte for each call, in order: a call whose byte is an `x` is left out, and answered Memory. So
//! a run in which some calls fail for lack of memory prints the same as a run that leaves these calls out, provided
//! that they change nothing.
#![tactic(auto)]

mod boards;
mod buffers;
mod calls;
mod clients;
mod example;
mod fences;
mod files;
mod reservations;
mod running;
mod scripts;
mod seats;
mod surface;
mod timelines;

use calls::Calls;
use clients_core::{Board, LockedTable};
use std::process::ExitCode;

fn main(rt: HostRuntime) -> ExitCode {
    let mut calls = Calls::read(&mut rt.stdin());
    example::make_calls(&rt, &rt, &mut calls);
    timelines::make_calls(&rt, &mut calls);
    files::make_calls_on_merges(&rt, &mut calls);
    files::make_calls_on_one(&rt, &mut calls);
    reservations::make_calls(&rt, &mut calls);
    buffers::make_calls(&rt, &mut calls);
    scripts::make_calls(&rt, &mut calls);
    seats::make_calls(&rt, &mut calls);
    running::make_calls(&rt, &mut calls);
    fences::make_calls(&rt, &rt, &mut calls);
    boards::make_calls(&rt, &mut calls);
    clients::make_calls::<HostRuntime, LockedTable>(&rt, &rt, &mut calls);
    clients::make_calls::<HostRuntime, Board>(&rt, &rt, &mut calls);
    ExitCode::from(u8::from(calls.failed))
}
