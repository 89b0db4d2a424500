//! `fencectl`: the program. It passes its words to `fencectl_core`, which has the subcommands: run, check, explain, trace,
//! draw, clients and explore.
#![tactic(auto)]

use fencectl_core::perform;
use std::process::ExitCode;

fn main(rt: HostRuntime) -> ExitCode {
    ExitCode::from(perform(&rt, &rt))
}
