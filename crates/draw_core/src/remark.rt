//! `Remark`: what a note of a script says to its picture: when a line happened, whose it is, or that a task waits.
//!
//! A plan has `#client NAME`; the other notes are those of `fencectl trace --script` and of `explore --witness`.

use point_core::Name;

/// Microseconds of a second, and the number of their digits.
const SECOND: u64 = 1_000_000;

const DECIMALS: usize = 6;

/// What a note says. Times are in microseconds.
#[derive(Clone, Copy)]
pub(crate) enum Remark<'a> {
    /// `# SECONDS`: the lines below happened then.
    Time(u64),
    /// `# SECONDS TASK waits for FILE`.
    Waits(Waiting<'a>),
    /// `# SECONDS TASK waited for FILE`: the wait is over.
    Waited(Waiting<'a>),
    /// `# SECONDS end`: nothing is known of later.
    End(u64),
    /// `# FILE is not signalled`: its point is not known.
    NotSignalled(Name),
    /// `# NAME, line N`: the line below is this client's.
    Line(Name),
    /// `#client NAME` or `#finally`: all lines below are its.
    Section(Name),
}

/// A task, and the file for which it waits.
#[derive(Clone, Copy)]
pub(crate) struct Waiting<'a> {
    pub(crate) time: u64,
    pub(crate) task: &'a str,
    pub(crate) file: Name,
}

impl<'a> Remark<'a> {
    /// What a line says that is no command, if it says something to a picture.
    pub(crate) fn read(line: &'a [u8]) -> Option<Remark<'a>> {
        let text = str::from_utf8(line).ok()?;
        if let Some(client) = text.strip_prefix("#client ") {
            return Some(Remark::Section(named(client)?));
        }
        if text == "#finally" {
            return Some(Remark::Section(named("finally")?));
        }
        read_plain(text.strip_prefix("# ")?)
    }
}

fn read_plain(text: &str) -> Option<Remark<'_>> {
    if let Some(file) = text.strip_suffix(" is not signalled") {
        return Some(Remark::NotSignalled(named(file)?));
    }
    match text.split_once(", line ") {
        Some(parts) => read_line(parts.0, parts.1),
        None => read_timed(text),
    }
}

fn read_line<'a>(client: &'a str, line: &'a str) -> Option<Remark<'a>> {
    let number = line.strip_suffix(", waits").unwrap_or(line);
    number.parse::<u32>().ok()?;
    Some(Remark::Line(named(client)?))
}

fn read_timed(text: &str) -> Option<Remark<'_>> {
    let Some(parts) = text.split_once(" ") else {
        return Some(Remark::Time(time_of(text)?));
    };
    let time = time_of(parts.0)?;
    if parts.1 == "end" {
        return Some(Remark::End(time));
    }
    read_wait(time, parts.1)
}

fn read_wait(time: u64, text: &str) -> Option<Remark<'_>> {
    if let Some(parts) = text.split_once(" waits for ") {
        return begun(time, parts.0, parts.1);
    }
    let parts = text.split_once(" waited for ")?;
    ended(time, parts.0, parts.1)
}

fn begun<'a>(time: u64, task: &'a str, file: &'a str) -> Option<Remark<'a>> {
    let file = named(file)?;
    Some(Remark::Waits(Waiting { time, task, file }))
}

fn ended<'a>(time: u64, task: &'a str, file: &'a str) -> Option<Remark<'a>> {
    let file = named(file)?;
    Some(Remark::Waited(Waiting { time, task, file }))
}

fn named(text: &str) -> Option<Name> {
    Name::read(text.as_bytes())
}

/// The microseconds of a time in seconds with six decimals.
fn time_of(text: &str) -> Option<u64> {
    let parts = text.split_once(".")?;
    if parts.1.len() != DECIMALS {
        return None;
    }
    let seconds = parts.0.parse::<u64>().ok()?;
    let micros = parts.1.parse::<u64>().ok()?;
    seconds.checked_mul(SECOND)?.checked_add(micros)
}
