//! Reads the command line, and performs the action that it asks for. `perform` is the whole program.
use crate::action::{Action, Check, CheckReport, Clients};
use crate::clients::report_clients;
use crate::color::{ColorChoice, Colors, take_color};
use crate::drawing::draw;
use crate::exploring::explore;
use crate::fault::{FAULT, tell_fault};
use crate::prompt::Typed;
use crate::run::run_script;
use crate::scripts::{explain_script, json_script};
use crate::status::{ACCEPTED, status_of_check, status_of_verdict};
use crate::traces::trace;
use crate::unread_word::report_unread_word;
use crate::usage::action_of;
use check_core::{CheckForm, CheckOptions, check_scripts, update_scripts};
use clients_core::{Board, LockedTable};
use point_core::Refusal;
use reason_core::NoteLook;
use source_core::{Input, Prompted, Source, script_files};
use std::alloc::Global;
use std::env;
use std::io::{IsTerminal, Read, Write};
use std::sync::Wait;
use std::thread::Threads;

/// The first lines of a session at a terminal. No handle of an interrupt is there, so Ctrl-C ends the program.
const GREETING: &str = "\
fencectl: type one command a line; 'help' lists the commands, and 'quit' or Ctrl-D leaves
Ctrl-C leaves too, and ends what was made here; for a history of lines start it as 'rlwrap fencectl'";

/// Reads the command line, and does what it asks for. Gives the exit status, which is 2 after a fault. A fault is reported on
/// standard error.
pub fn perform<T: Threads + Wait + Sync>(rt: &HostRuntime, threads: &T) -> u8 {
    start(rt, threads).unwrap_or_else(|refusal| tell_fault(&refusal, &mut rt.stderr()))
}

fn start<T: Threads + Wait + Sync>(rt: &HostRuntime, threads: &T) -> Result<u8, Refusal> {
    match env::args(rt) {
        Ok(words) => {
            let mut words: Vec<String> = words.collect(rt.alloc())?;
            match take_color(rt, &mut words)? {
                Some(choice) => start_by(rt, threads, choice, words.as_slice()),
                None => Ok(FAULT),
            }
        }
        Err(error) => report_unread_word(rt, error),
    }
}

/// Parses the words that are left after `--color`, and performs their action.
fn start_by<T: Threads + Wait + Sync>(
    rt: &HostRuntime,
    threads: &T,
    choice: ColorChoice,
    words: &[String],
) -> Result<u8, Refusal> {
    let plain = is_plain(rt);
    let colors = Colors {
        output: choice.is_on(rt.stdout().is_terminal(), plain),
        errors: choice.is_on(rt.stderr().is_terminal(), plain),
    };
    act(
        rt,
        threads,
        colors,
        action_of(rt, rt.alloc(), colors, words)?,
    )
}

/// Whether the environment asks for output without colours: by `NO_COLOR`, or by a terminal that has none.
fn is_plain(rt: &HostRuntime) -> bool {
    let no_color = match env::var(rt, "NO_COLOR") {
        Ok(value) => !value.is_empty(),
        Err(_) => false,
    };
    let dumb = match env::var(rt, "TERM") {
        Ok(value) => value.as_str() == "dumb",
        Err(_) => false,
    };
    no_color || dumb
}

/// Performs the action. Returns the exit status.
fn act<T: Threads + Wait + Sync>(
    rt: &HostRuntime,
    threads: &T,
    colors: Colors,
    action: Action,
) -> Result<u8, Refusal> {
    match action {
        Action::Run(script) => untold(run(rt, colors, script), script, None),
        Action::Json(script) => untold(json(rt, script), script, None),
        Action::Check(asked) => check(rt, colors, &asked),
        Action::Update(paths) => update(rt, paths.as_slice()),
        Action::Explain(script) => untold(explain(rt, colors, script), script, None),
        Action::Trace(asked) => {
            announce(rt, asked.text, "a trace")?;
            untold(trace(rt, &asked), asked.text, asked.output)
        }
        Action::Draw(asked) => {
            announce(rt, asked.script, "a script")?;
            untold(draw(rt, &asked), asked.script, asked.output)
        }
        Action::Clients(clients) => {
            write_clients(threads, rt.alloc(), &clients, &mut rt.stdout())?;
            Ok(ACCEPTED)
        }
        Action::Explore(asked) => {
            announce(rt, asked.script, "a plan")?;
            untold(explore(rt, &asked), asked.script, None)
        }
        Action::End(status) => Ok(status),
    }
}

/// Turns a fault that was reported already into its status, so that it isn't reported again: a fault of a file is reported where it
/// happens, with its name and its reason.
fn untold(
    ended: Result<u8, Refusal>,
    input: Input<'_>,
    output: Option<&str>,
) -> Result<u8, Refusal> {
    match ended {
        Ok(status) => Ok(status),
        Err(refusal) if was_told(refusal, input, output) => Ok(FAULT),
        Err(refusal) => Err(refusal),
    }
}

fn was_told(refusal: Refusal, input: Input<'_>, output: Option<&str>) -> bool {
    match (refusal, input) {
        (Refusal::Read, Input::File(_)) => true,
        (Refusal::Write, _) => output.is_some(),
        _ => false,
    }
}

/// Says what is read, if it is typed at a terminal: nothing else would show that the program waits.
fn announce(rt: &HostRuntime, input: Input<'_>, what: &str) -> Result<(), Refusal> {
    if is_typed(rt, input) {
        eprintln!(rt; "fencectl: reading {what} from this terminal; Ctrl-D ends it").map_err(
            |_| Refusal::Write,
        )?;
    }
    Ok(())
}

/// Runs clients over the board, or over buffers under locks, and writes what they settle.
fn write_clients<T: Threads + Wait + Sync, W: Write>(
    threads: &T,
    alloc: Global,
    clients: &Clients,
    writer: &mut W,
) -> Result<(), Refusal> {
    report_clients::<T, Board, LockedTable, W>(threads, alloc, clients, writer)
}

/// Runs a script. One that is typed at a terminal is asked for line by line, and explained.
fn run(rt: &HostRuntime, colors: Colors, script: Input) -> Result<u8, Refusal> {
    if is_typed(rt, script) {
        return converse(rt, colors);
    }
    let mut source = Source::open(rt, script, rt.stdin())?;
    Ok(run_script(rt.alloc(), &mut source, &mut rt.stdout(), &mut rt.stderr()))
}

/// Whether the script is typed at a terminal, and errors are seen there.
fn is_typed(rt: &HostRuntime, script: Input) -> bool {
    match script {
        Input::StandardInput => rt.stdin().is_terminal() && rt.stderr().is_terminal(),
        Input::File(_) => false,
    }
}

/// Answers and explains what is typed, line by line.
fn converse(rt: &HostRuntime, colors: Colors) -> Result<u8, Refusal> {
    eprintln!(rt; "{GREETING}").map_err(|_| Refusal::Write)?;
    let mut reader = Typed::new(Prompted::new(rt.stdin(), rt.stderr()), rt.stderr());
    Ok(explain_from(rt, colors, &mut reader))
}

/// Answers what is read, and explains it on standard error.
fn explain_from<R: Read>(rt: &HostRuntime, colors: Colors, reader: &mut R) -> u8 {
    explain_script(
        rt.alloc(),
        look(colors),
        reader,
        &mut rt.stdout(),
        &mut rt.stderr(),
        &mut rt.stderr(),
    )
}

fn json(rt: &HostRuntime, script: Input) -> Result<u8, Refusal> {
    announce(rt, script, "a script")?;
    let mut source = Source::open(rt, script, rt.stdin())?;
    Ok(json_script(rt.alloc(), &mut source, &mut rt.stdout(), &mut rt.stderr()))
}

fn check(rt: &HostRuntime, colors: Colors, asked: &Check) -> Result<u8, Refusal> {
    for path in asked.paths.as_slice() {
        announce(rt, Input::named(*path), "a script")?;
    }
    let names = script_files(rt, asked.paths.as_slice())?;
    let options = CheckOptions {
        form: form_of(rt, colors, asked.report),
        allows_empty: asked.allows_empty,
    };
    let verdict = check_scripts(
        rt,
        &options,
        names.as_slice(),
        rt.stdin(),
        &mut rt.stdout(),
        &mut rt.stderr(),
    )?;
    Ok(status_of_check(asked.report, verdict))
}

fn update(rt: &HostRuntime, paths: &[&str]) -> Result<u8, Refusal> {
    let names = script_files(rt, paths)?;
    let verdict = update_scripts(rt, names.as_slice(), &mut rt.stderr())?;
    Ok(status_of_verdict(verdict))
}

fn form_of(rt: &HostRuntime, colors: Colors, report: CheckReport) -> CheckForm {
    match report {
        CheckReport::All => CheckForm::Lines {
            bold: colors.errors,
        },
        CheckReport::Counts => CheckForm::Counts,
        CheckReport::Tap => CheckForm::Tap(tap_version(rt)),
    }
}

/// Perl's harness, which names itself in the environment, knows no later version than 13. Both are written alike.
fn tap_version(rt: &HostRuntime) -> u64 {
    match env::var(rt, "HARNESS_VERSION") {
        Ok(_) => 13,
        Err(_) => 14,
    }
}

fn explain(rt: &HostRuntime, colors: Colors, script: Input) -> Result<u8, Refusal> {
    if is_typed(rt, script) {
        return converse(rt, colors);
    }
    let mut source = Source::open(rt, script, rt.stdin())?;
    Ok(explain_from(rt, colors, &mut source))
}

/// Bold if errors are coloured, else plain.
fn look(colors: Colors) -> NoteLook {
    if colors.errors {
        NoteLook::Bold
    } else {
        NoteLook::Plain
    }
}
