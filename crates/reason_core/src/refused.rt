//! Explains a command that the desk refused, by the desk and the book. A note begins with the line's number; no contract says
//! what follows, and tests compare it.
ghost use Rattle.std.specs.Prelude.{◌≡◌, IfErr};
ghost use Rattle.point_core.specs.declared.refusal.Refusal.TheVariants.{Write as WriteFault};
ghost use Rattle.reason_core.specs.Notes.{Notes};

use crate::book::Book;
use crate::look::{NotePart, NotePlace, note};
use crate::names::{is_there, word_of};
use command_core::{Command, Space};
use desk_core::Desk;
use fence_core::WATCHES;
use point_core::{BUFFERS, CONTEXTS, LimitKind, Name, Point, Refusal};
use std::io::Write;
use syncfile_core::FILES;

const UNSIGNALLED: NotePart<'static> = NotePart::Text("the file is not signalled");

/// Why a command was refused, with the line that matters.
#[derive(Clone, Copy)]
enum Reason {
    /// There is nothing of that name.
    Missing(Space, Name),
    /// A timeline has the name of the file that should be closed.
    Unclosable(Name),
    /// There is something of that name, which that line made.
    Taken(Space, Name, u32),
    /// That line registered a watch of the cookie.
    Watched(u64, u32),
    /// That line closed the timeline.
    Closed(Name, u32),
    /// The timeline's name, its value, and the increment that would overflow it.
    Overflow(Name, u64, u64),
    /// The file waits for the timeline's point, and the timeline is at that value.
    Waiting(Name, Name, u64, u64),
    /// The limit of that kind is reached.
    Limit(LimitKind),
    /// A fixed sentence.
    Text(&'static str),
}

/// Writes to `notes` why the desk refused a command, which it has just done.
///
/// Fails only with `Write`.
pub fn explain_command<N: Write>(
    desk: &Desk,
    book: &Book,
    place: &NotePlace,
    command: &Command,
    refusal: Refusal,
    notes: &mut N,
) -> Result<(), Refusal>
    ensures noted { Notes result place.now.line (N.contents notes.old) (N.contents notes.new) }
    ensures refusals { IfErr result (λ refusal. refusal ≡ WriteFault) }
{
    match refusal {
        Refusal::TimedOut => explain_pending(desk, place, command, notes),
        _ => {
            let reason = reason_of(desk, book, command, refusal);
            explain_reason(place, &reason, notes)
        }
    }
}

fn reason_of(desk: &Desk, book: &Book, command: &Command, refusal: Refusal) -> Reason {
    match refusal {
        Refusal::NoEntry => missing(desk, command),
        Refusal::Exists => taken(book, command),
        Refusal::Cancelled => closed(book, command),
        Refusal::Overflow => overflow(desk, command),
        Refusal::Limit(kind) => Reason::Limit(kind),
        Refusal::Signalled => {
            Reason::Text("the file is already signalled, so there is nothing to watch")
        }
        Refusal::Memory => Reason::Text("out of memory"),
        _ => Reason::Text(refusal.name()),
    }
}

/// The first name that the command looks up and does not find.
fn missing(desk: &Desk, command: &Command) -> Reason {
    if let Command::Close(name) = command {
        if is_there(desk, Space::Timeline, name) {
            return Reason::Unclosable(*name);
        }
    }
    for (space, name) in command.looked_up().into_iter().flatten() {
        if !is_there(desk, space, &name) {
            return Reason::Missing(space, name);
        }
    }
    Reason::Text("there is nothing of that name")
}

fn taken(book: &Book, command: &Command) -> Reason {
    if let Command::Watch(_, cookie) = command {
        let line = book.line_of_cookie(*cookie).unwrap_or(0);
        return Reason::Watched(*cookie, line);
    }
    match command.made() {
        Some((space, name)) => {
            let line = book.line_of(space, &name).unwrap_or(0);
            Reason::Taken(space, name, line)
        }
        None => Reason::Text("the name is taken"),
    }
}

fn closed(book: &Book, command: &Command) -> Reason {
    match command.needs_open() {
        Some(timeline) => {
            let line = book.line_of_closing(&timeline).unwrap_or(0);
            Reason::Closed(timeline, line)
        }
        None => Reason::Text("its timeline is closed"),
    }
}

fn overflow(desk: &Desk, command: &Command) -> Reason {
    match command {
        Command::Inc(timeline, count) => {
            let value = desk.timeline_value(timeline).unwrap_or(0);
            Reason::Overflow(*timeline, value, *count)
        }
        _ => Reason::Text("the value would exceed the greatest number"),
    }
}

fn explain_reason<N: Write>(
    place: &NotePlace,
    reason: &Reason,
    notes: &mut N,
) -> Result<(), Refusal>
    ensures noted { Notes result place.now.line (N.contents notes.old) (N.contents notes.new) }
    ensures refusals { IfErr result (λ refusal. refusal ≡ WriteFault) }
{
    match reason {
        Reason::Missing(space, name) => note(place, &parts_of_missing(*space, name), notes),
        Reason::Unclosable(name) => note(place, &parts_of_unclosable(name), notes),
        Reason::Taken(space, name, line) => note(
            place,
            &parts_of_taken(*space, name, *line),
            notes,
        ),
        Reason::Watched(cookie, line) => note(place, &parts_of_watched(*cookie, *line), notes),
        Reason::Closed(timeline, line) => note(place, &parts_of_closed(timeline, *line), notes),
        Reason::Overflow(timeline, value, count) => {
            note(place, &parts_of_overflow(timeline, *value, *count), notes)
        }
        Reason::Waiting(file, timeline, point, value) => note(
            place,
            &parts_of_waiting(file, timeline, *point, *value),
            notes,
        ),
        Reason::Limit(kind) => note(place, &parts_of_limit(*kind), notes),
        Reason::Text(text) => note(place, &[NotePart::Text(*text)], notes),
    }
}

fn parts_of_missing(space: Space, name: &Name) -> [NotePart<'_>; 4] {
    [
        NotePart::Text("there is no "),
        NotePart::Text(word_of(space)),
        NotePart::Text(" named "),
        NotePart::Bytes(name.as_bytes()),
    ]
}

fn parts_of_unclosable(name: &Name) -> [NotePart<'_>; 5] {
    [
        NotePart::Text("there is no file named "),
        NotePart::Bytes(name.as_bytes()),
        NotePart::Text("; "),
        NotePart::Bytes(name.as_bytes()),
        NotePart::Text(" is a timeline, which \"shut\" closes"),
    ]
}

fn parts_of_taken(space: Space, name: &Name, line: u32) -> [NotePart<'_>; 6] {
    [
        NotePart::Text("there is already a "),
        NotePart::Text(word_of(space)),
        NotePart::Text(" named "),
        NotePart::Bytes(name.as_bytes()),
        NotePart::Text(", made on line "),
        NotePart::Number(u64::from(line)),
    ]
}

fn parts_of_watched(cookie: u64, line: u32) -> [NotePart<'static>; 4] {
    [
        NotePart::Text("cookie "),
        NotePart::Number(cookie),
        NotePart::Text(" is in use by the watch made on line "),
        NotePart::Number(u64::from(line)),
    ]
}

fn parts_of_closed(timeline: &Name, line: u32) -> [NotePart<'_>; 4] {
    [
        NotePart::Text("timeline "),
        NotePart::Bytes(timeline.as_bytes()),
        NotePart::Text(" was closed on line "),
        NotePart::Number(u64::from(line)),
    ]
}

fn parts_of_overflow(timeline: &Name, value: u64, count: u64) -> [NotePart<'_>; 8] {
    [
        NotePart::Text("timeline "),
        NotePart::Bytes(timeline.as_bytes()),
        NotePart::Text(" is at "),
        NotePart::Number(value),
        NotePart::Text("; adding "),
        NotePart::Number(count),
        NotePart::Text(" would exceed "),
        NotePart::Number(u64::MAX),
    ]
}

fn parts_of_waiting<'a>(
    file: &'a Name,
    timeline: &'a Name,
    point: u64,
    value: u64,
) -> [NotePart<'a>; 11] {
    [
        NotePart::Text("file "),
        NotePart::Bytes(file.as_bytes()),
        NotePart::Text(" waits for point "),
        NotePart::Number(point),
        NotePart::Text(" of "),
        NotePart::Bytes(timeline.as_bytes()),
        NotePart::Text(", which is at "),
        NotePart::Number(value),
        NotePart::Text(": "),
        NotePart::Number(point.saturating_sub(value)),
        NotePart::Text(" to go"),
    ]
}

fn parts_of_limit(kind: LimitKind) -> [NotePart<'static>; 4] {
    [
        NotePart::Text("limit reached: "),
        NotePart::Number(most_of(kind)),
        NotePart::Text(" "),
        NotePart::Text(kind.word()),
    ]
}

/// The number that the limit allows.
fn most_of(kind: LimitKind) -> u64 {
    let most = match kind {
        LimitKind::Timelines => CONTEXTS,
        LimitKind::Files => FILES,
        LimitKind::Buffers => BUFFERS,
        LimitKind::Watches => WATCHES,
        _ => 0,
    };
    most as u64
}

/// Reports each point of the file that is not reached.
fn explain_pending<N: Write>(
    desk: &Desk,
    place: &NotePlace,
    command: &Command,
    notes: &mut N,
) -> Result<(), Refusal>
    ensures noted { Notes result place.now.line (N.contents notes.old) (N.contents notes.new) }
    ensures refusals { IfErr result (λ refusal. refusal ≡ WriteFault) }
{
    let Command::Wait(file) = command else {
        return note(place, &[UNSIGNALLED], notes);
    };
    match desk.file_points(file) {
        Some(points) => explain_points(desk, place, file, points, notes),
        None => note(place, &[UNSIGNALLED], notes),
    }
}

fn explain_points<N: Write>(
    desk: &Desk,
    place: &NotePlace,
    file: &Name,
    points: &[Point],
    notes: &mut N,
) -> Result<(), Refusal>
    ensures noted { Notes result place.now.line (N.contents notes.old) (N.contents notes.new) }
    ensures refusals { IfErr result (λ refusal. refusal ≡ WriteFault) }
{
    for point in points {
        let waiting = waiting_for(desk, file, point);
        explain_if(place, &waiting, notes)?;
    }
    Ok(())
}

/// How far a point is from being reached; None if it is reached or cancelled.
fn waiting_for(desk: &Desk, file: &Name, point: &Point) -> Option<Reason> {
    let timeline = desk.timeline_name(point.ctx)?;
    if desk.point_status(*point).is_signalled() {
        return None;
    }
    let value = desk.timeline_value(&timeline).unwrap_or(0);
    Some(Reason::Waiting(*file, timeline, point.value, value))
}

fn explain_if<N: Write>(
    place: &NotePlace,
    reason: &Option<Reason>,
    notes: &mut N,
) -> Result<(), Refusal>
    ensures noted { Notes result place.now.line (N.contents notes.old) (N.contents notes.new) }
    ensures refusals { IfErr result (λ refusal. refusal ≡ WriteFault) }
{
    match reason {
        Some(reason) => explain_reason(place, reason, notes),
        None => Ok(()),
    }
}
