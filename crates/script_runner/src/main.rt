//! `script_runner`: runs the script of a file, or of standard input, as `fencectl run` does. The launcher runs its trial build
//! until `fencectl` is built, since it compiles in less than half the time.
#![tactic(auto)]

use fencectl_core::{FAULT, report_unread_word, run_script, tell_fault};
use point_core::Refusal;
use source_core::{Input, Source};
use std::env;
use std::process::ExitCode;

fn main(rt: HostRuntime) -> ExitCode {
    let status = start(&rt).unwrap_or_else(|refusal| tell_fault(&refusal, &mut rt.stderr()));
    ExitCode::from(status)
}

/// Reads the words of the command line, and runs the script. Gives the exit status.
fn start(rt: &HostRuntime) -> Result<u8, Refusal> {
    match env::args(rt) {
        Ok(words) => {
            let words: Vec<String> = words.collect(rt.alloc())?;
            match script_of(words.as_slice()) {
                Some(script) => run(rt, script),
                None => report_usage(rt),
            }
        }
        Err(error) => report_unread_word(rt, error),
    }
}

/// The script that the words of the command line ask for: the file that the word after the program's own names, or standard input
/// if there is no such word.
fn script_of(words: &[String]) -> Option<Input<'_>> {
    match words {
        [_] => Some(Input::StandardInput),
        [_, name] => Some(Input::named(name.as_str())),
        _ => None,
    }
}

fn run(rt: &HostRuntime, script: Input<'_>) -> Result<u8, Refusal> {
    let mut source = Source::open(rt, script, rt.stdin())?;
    Ok(run_script(rt.alloc(), &mut source, &mut rt.stdout(), &mut rt.stderr()))
}

fn report_usage(rt: &HostRuntime) -> Result<u8, Refusal> {
    eprintln!(rt; "usage: script_runner [FILE]").map_err(|_| Refusal::Write)?;
    Ok(FAULT)
}
