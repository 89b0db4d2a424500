//! Calls of `script_core`: lines of a script, at once and byte by byte, commands, and the text of an answer.
use crate::calls::{Calls, name};
use desk_core::{Answer, Command, run};
use point_core::Refusal;
use script_core::{Body, Line, LineCutter, print, read_script};
use std::alloc::Global;

pub(crate) fn make_calls(rt: &HostRuntime, calls: &mut Calls) {
    let lines = lines(rt.alloc(), calls);
    calls.tell(rt, "read_script", &lines);
    calls.tell(rt, "the first line's command", &first_command(&lines));
    cut(rt, calls);
    let a = name(b'a');
    run_commands(rt, calls, &[Command::Timeline(a), Command::Inc(a, 2)]);
    print_refusal(rt, calls);
}

/// The lines of a script that has a command, an empty line, which has no answer, and a wrong line without a line feed.
fn lines(alloc: Global, calls: &Calls) -> Result<Vec<Line>, Refusal> {
    calls.allow()?;
    read_script(alloc, b"value a\n\nxx")
}

fn first_command(lines: &Result<Vec<Line>, Refusal>) -> Option<Command> {
    let Ok(lines) = lines else {
        return None;
    };
    match lines.get(0)?.body {
        Body::Cmd(command) => Some(command),
        Body::Bad(_) => None,
    }
}

/// Cuts a script of three lines byte by byte. The second is empty, and the third doesn't end.
fn cut(rt: &HostRuntime, calls: &mut Calls) {
    let mut cutter = LineCutter::new();
    calls.tell(rt, "feed", &cutter.feed(b'x'));
    calls.tell(rt, "feed", &cutter.feed(b'\n'));
    calls.tell(rt, "feed", &cutter.feed(b'\n'));
    calls.tell(rt, "feed", &cutter.feed(b'y'));
    calls.tell(rt, "end", &cutter.end());
}

fn run_commands(rt: &HostRuntime, calls: &mut Calls, commands: &[Command]) {
    if calls.allows(rt, "run") {
        let answers = answers(rt.alloc(), commands);
        calls.tell(rt, "run", &answers);
    }
}

fn answers(alloc: Global, commands: &[Command]) -> Result<Vec<Answer>, Refusal> {
    let (desk, answers) = run(alloc, commands)?;
    drop(desk);
    Ok(answers)
}

/// Prints a refusal of line 3, twice, into one text.
fn print_refusal(rt: &HostRuntime, calls: &mut Calls) {
    let answer = Answer::Refused(Refusal::Syntax);
    let mut text = Vec::new(rt.alloc());
    print_one(rt, calls, &answer, &mut text);
    print_one(rt, calls, &answer, &mut text);
    calls.tell(rt, "the text", &text);
}

/// Appends the answer to the text, as line 3's.
fn print_one(rt: &HostRuntime, calls: &mut Calls, answer: &Answer, text: &mut Vec<u8>) {
    if calls.allows(rt, "print") {
        let printed = print(3, answer, text);
        calls.tell(rt, "print", &printed);
    }
}
