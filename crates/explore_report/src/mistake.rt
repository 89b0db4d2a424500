//! `Mistake`: the first line that makes a script no plan, and why. `PlanScript::read` looks for one.
ghost use Rattle.std.specs.Prelude.{◌≡◌, All, MatchOption, false};
ghost use Rattle.explore_report.specs.Mistake.{AllFit, AreFew, EndsClosed, EndsWhole, IsMisfit, IsMisplaced, IsMissing, IsMistake, IsOpen, IsPastLimit, IsPlaced, IsPlan, IsUnfollowed, IsWhole, access_above, access_cause, access_in, after_cause, atomic_below, atomic_cause, await_cause, branch_in, cause_among, cause_of, client_below, client_cause, command_cause, done_below, else_after, else_below, else_cause, else_in, end_below, end_cause, expected_cause, finally_below, finally_cause, has_client, has_some_client, if_below, if_cause, in_else, is_wait, mark_cause, marked_in, once_cause, order_cause, plain_cause, section_cause, turn_cause, unless_awaited, unless_continued, unless_noted, unless_open, unless_twice, waiting_in};

use crate::accesses::{is_closed, is_open, lines_accessed};
use crate::cause::{Cause, LAST_CLIENT, PLAN_CLIENTS, PLAN_LINES};
use crate::context::{Above, Atomic, Context, Section};
use crate::mark::Mark;
use crate::plan_script::below;
use crate::row::Row;
use command_core::Command;
use point_core::Name;

/// The first line that makes a script no plan, and why.
#[derive(Clone, Copy)]
pub struct Mistake {
    /// The line's number, from 1.
    pub line: usize,
    pub cause: Cause,
}

/// The first mistake of the rows: a row that its context does not allow; else a row that the other rows do not allow; else a line
/// past the limit; else what is missing at the end, with the number of the last line.
pub(crate) fn mistake_of(rows: &[Row], last: usize) -> Option<Mistake>
    ensures found { MatchOption result (IsPlan rows.now) (IsMistake rows.now last) }
{
    if let Some(mistake) = misplaced(rows) {
        return Some(mistake);
    }
    if let Some(mistake) = misfit(rows) {
        return Some(mistake);
    }
    if let Some(mistake) = too_many(rows) {
        return Some(mistake);
    }
    missing(rows, last)
}

/// The first row that its context does not allow.
fn misplaced(rows: &[Row]) -> Option<Mistake>
    ensures found { MatchOption result (All IsPlaced rows.now) (IsMisplaced rows.now) }
{
    for row in rows {
        if let Some(cause) = cause_of(&row.context, &row.mark) {
            return Some(Mistake {
                line: row.number,
                cause,
            });
        }
    }
    None
}

/// Why the context does not allow what a line says.
fn cause_of(context: &Context, mark: &Mark) -> Option<Cause>
    ensures cause { result ≡ cause_of context.now mark.now }
{
    match mark {
        Mark::Client(_) => client_cause(context),
        Mark::Finally => finally_cause(context),
        Mark::Await => await_cause(context),
        Mark::Once => once_cause(context),
        Mark::Named(_) => mark_cause(context),
        Mark::After(_) => after_cause(context),
        Mark::Turn(_) => turn_cause(context),
        Mark::If => if_cause(context),
        Mark::Else => else_cause(context),
        Mark::Atomic => atomic_cause(context),
        Mark::End => end_cause(context),
        Mark::Access(_, _) => access_cause(context),
        Mark::Expected | Mark::OrExpected | Mark::OrBegins => expected_cause(context),
        Mark::Command(command) => command_cause(context, command),
        Mark::Wrong(cause) => Some(*cause),
    }
}

/// A command has to follow `#await` directly, and a `wait` has to follow `#once`; else that cause counts.
fn unless_awaited(above: Above, other: Option<Cause>) -> Option<Cause>
    ensures cause { result ≡ unless_awaited above other }
{
    match above {
        Above::Await => Some(Cause::AwaitsNothing),
        Above::Once => Some(Cause::ChecksNothing),
        _ => other,
    }
}

/// Others never end a wait in an `#atomic` below the first line, as they don't go meanwhile; else that cause counts.
fn unless_continued(atomic: Atomic, other: Option<Cause>) -> Option<Cause>
    ensures cause { result ≡ unless_continued atomic other }
{
    if atomic.is_continued() {
        Some(Cause::WaitsInside)
    } else {
        other
    }
}

/// No `#if` and no `#atomic` is open where a section ends; else that cause counts.
fn unless_open(context: &Context, other: Option<Cause>) -> Option<Cause>
    ensures cause { result ≡ unless_open context.now other }
{
    if context.is_enclosed() {
        Some(Cause::NotEnded)
    } else {
        other
    }
}

/// A command has to follow all notes on it; else that cause counts.
fn unless_noted(above: Above, other: Option<Cause>) -> Option<Cause>
    ensures cause { result ≡ unless_noted above other }
{
    match above {
        Above::Note => Some(Cause::NotesNothing),
        _ => unless_awaited(above, other),
    }
}

/// A line has one note of that kind; else that cause counts.
fn unless_twice(noted: bool, other: Option<Cause>) -> Option<Cause>
    ensures cause { result ≡ unless_twice noted other }
{
    if noted {
        Some(Cause::NotedTwice)
    } else {
        other
    }
}

fn client_cause(context: &Context) -> Option<Cause>
    ensures cause { result ≡ client_cause context.now }
{
    let cause = unless_open(context, client_below(context.section));
    unless_noted(context.above, cause)
}

/// Why no `#client` may follow in this section.
fn client_below(section: Section) -> Option<Cause>
    ensures cause { result ≡ client_below section }
{
    match section {
        Section::Last => Some(Cause::ClientBelowFinally),
        Section::Client(number) if number >= LAST_CLIENT => Some(Cause::Clients(PLAN_CLIENTS)),
        _ => None,
    }
}

fn finally_cause(context: &Context) -> Option<Cause>
    ensures cause { result ≡ finally_cause context.now }
{
    let cause = unless_open(context, finally_below(context.section));
    unless_noted(context.above, cause)
}

fn finally_below(section: Section) -> Option<Cause>
    ensures cause { result ≡ finally_below section }
{
    match section {
        Section::Last => Some(Cause::FinallyTwice),
        _ => None,
    }
}

fn await_cause(context: &Context) -> Option<Cause>
    ensures cause { result ≡ await_cause context.now }
{
    let cause = unless_continued(context.atomic, waiting_in(context.section));
    unless_awaited(context.above, cause)
}

fn once_cause(context: &Context) -> Option<Cause>
    ensures cause { result ≡ once_cause context.now }
{
    unless_awaited(context.above, waiting_in(context.section))
}

/// What says when a line may be made is about a client's line.
fn waiting_in(section: Section) -> Option<Cause>
    ensures cause { result ≡ waiting_in section }
{
    match section {
        Section::Client(_) => None,
        _ => Some(Cause::AwaitOutside),
    }
}

/// Of `#mark`.
fn mark_cause(context: &Context) -> Option<Cause>
    ensures cause { result ≡ mark_cause context.now }
{
    waiting_in(context.section)
}

fn after_cause(context: &Context) -> Option<Cause>
    ensures cause { result ≡ after_cause context.now }
{
    let cause = unless_continued(context.atomic, waiting_in(context.section));
    unless_twice(context.follows.is_some(), cause)
}

fn turn_cause(context: &Context) -> Option<Cause>
    ensures cause { result ≡ turn_cause context.now }
{
    unless_twice(context.turn.is_some(), waiting_in(context.section))
}

fn if_cause(context: &Context) -> Option<Cause>
    ensures cause { result ≡ if_cause context.now }
{
    let cause = if_below(context.above);
    unless_noted(context.above, branch_in(context.section, cause))
}

/// Why no `#if` may be below this: it needs a line whose answer it names.
fn if_below(above: Above) -> Option<Cause>
    ensures cause { result ≡ if_below above }
{
    match above {
        Above::Nothing | Above::If => Some(Cause::IfBelowNothing),
        _ => None,
    }
}

/// Branches are of clients only; else that cause counts.
fn branch_in(section: Section, other: Option<Cause>) -> Option<Cause>
    ensures cause { result ≡ branch_in section other }
{
    match section {
        Section::Client(_) => other,
        _ => Some(Cause::BranchOutside),
    }
}

fn else_cause(context: &Context) -> Option<Cause>
    ensures cause { result ≡ else_cause context.now }
{
    let cause = else_below(context.above, context.depth, context.atomic);
    unless_noted(context.above, branch_in(context.section, cause))
}

fn else_below(above: Above, depth: usize, atomic: Atomic) -> Option<Cause>
    ensures cause { result ≡ else_below above depth atomic }
{
    match above {
        Above::If => Some(Cause::ElseBelowIf),
        _ => else_in(depth, atomic),
    }
}

/// An `#atomic` in the `#if` has its `#end` above the `#else`.
fn else_in(depth: usize, atomic: Atomic) -> Option<Cause>
    ensures cause { result ≡ else_in depth atomic }
{
    if atomic.is_innermost(depth) {
        return Some(Cause::ElseOfNothing);
    }
    if depth > 0 {
        None
    } else {
        Some(Cause::ElseOfNothing)
    }
}

fn end_cause(context: &Context) -> Option<Cause>
    ensures cause { result ≡ end_cause context.now }
{
    let cause = end_below(context.depth, context.atomic);
    unless_noted(context.above, branch_in(context.section, cause))
}

fn end_below(depth: usize, atomic: Atomic) -> Option<Cause>
    ensures cause { result ≡ end_below depth atomic }
{
    match atomic {
        Atomic::Begins(_) => Some(Cause::JoinsNothing),
        Atomic::Outside if depth == 0 => Some(Cause::EndsNothing),
        _ => None,
    }
}

fn atomic_cause(context: &Context) -> Option<Cause>
    ensures cause { result ≡ atomic_cause context.now }
{
    let cause = atomic_below(context.atomic);
    unless_noted(context.above, branch_in(context.section, cause))
}

/// An `#atomic` is in no other.
fn atomic_below(atomic: Atomic) -> Option<Cause>
    ensures cause { result ≡ atomic_below atomic }
{
    match atomic {
        Atomic::Outside => None,
        _ => Some(Cause::AtomicInside),
    }
}

fn expected_cause(context: &Context) -> Option<Cause>
    ensures cause { result ≡ expected_cause context.now }
{
    let cause = match context.above {
        Above::Nothing | Above::If => Some(Cause::ExpectsNothing),
        _ => None,
    };
    unless_noted(context.above, cause)
}

fn access_cause(context: &Context) -> Option<Cause>
    ensures cause { result ≡ access_cause context.now }
{
    unless_noted(context.above, access_in(context.section))
}

/// Why a note on an access may not be in this section.
fn access_in(section: Section) -> Option<Cause>
    ensures cause { result ≡ access_in section }
{
    match section {
        Section::Client(_) => None,
        _ => Some(Cause::AccessOutside),
    }
}

/// Only a `wait` can be checked once.
fn command_cause(context: &Context, command: &Command) -> Option<Cause>
    ensures cause { result ≡ command_cause context.now.above context.now.atomic context.now.section command.now }
{
    match (context.above, command) {
        (Above::Once, Command::Wait(_)) => None,
        (Above::Once, _) => Some(Cause::ChecksNothing),
        _ => plain_cause(context.atomic, context.section, command),
    }
}

/// A line that waits is the first of its `#atomic`.
fn plain_cause(atomic: Atomic, section: Section, command: &Command) -> Option<Cause>
    ensures cause { result ≡ plain_cause atomic section command.now }
{
    if is_wait(command) && atomic.is_continued() {
        return Some(Cause::WaitsInside);
    }
    section_cause(section, command)
}

fn is_wait(command: &Command) -> bool
    ensures { result ≡ is_wait command.now }
{
    matches!(command, Command::Wait(_))
}

/// A report is only allowed in the first section, and a watch only in the last one.
fn section_cause(section: Section, command: &Command) -> Option<Cause>
    ensures cause { result ≡ section_cause section command.now }
{
    match (section, command) {
        (Section::First, Command::Report) => None,
        (_, Command::Report) => Some(Cause::Report),
        (Section::Last, Command::Watch(_, _)) => None,
        (_, Command::Watch(_, _)) => Some(Cause::Watch),
        _ => None,
    }
}

/// The first row that the other rows do not allow.
fn misfit(rows: &[Row]) -> Option<Mistake>
    ensures found { MatchOption result (AllFit rows.now) (IsMisfit rows.now) }
{
    for (index, row) in rows.iter().enumerate() {
        if let Some(cause) = cause_among(&rows[..index], row, below(rows, index)) {
            return Some(Mistake {
                line: row.number,
                cause,
            });
        }
    }
    None
}

/// Why the rows above and below do not allow a row that its context allows.
fn cause_among(above: &[Row], row: &Row, below: &[Row]) -> Option<Cause>
    ensures cause { result ≡ cause_among above.now row.now below.now }
{
    match &row.mark {
        Mark::Client(name) if has_client(above, name) => Some(Cause::NameTaken),
        Mark::Named(name) if marked_in(name, above).is_some() => Some(Cause::MarkTaken),
        Mark::After(name) => order_cause(
            row.context.section,
            marked_in(name, above).or(marked_in(name, below)),
        ),
        Mark::Else if is_in_else(above, row.context.depth) => Some(Cause::ElseTwice),
        Mark::Access(verb, name) if verb.is_done() => done_below(name, above),
        Mark::Access(_, name) => access_above(name, row.context.depth, below),
        _ => None,
    }
}

/// Why a line of that section can't come behind a line that has its mark in the other section.
fn order_cause(own: Section, marked: Option<Section>) -> Option<Cause>
    ensures cause { result ≡ order_cause own marked }
{
    match marked {
        None => Some(Cause::NoMark),
        Some(section) if own.is_same(section) => Some(Cause::OwnMark),
        Some(_) => None,
    }
}

/// The section in which the rows have the mark of that name.
fn marked_in(name: &Name, rows: &[Row]) -> Option<Section>
    ensures section { result ≡ marked_in name.now rows.now }
{
    let row = rows.iter().find(|row| row.marks(name))?;
    Some(row.context.section)
}

/// Why an access to the buffer can't end below these rows.
fn done_below(name: &Name, rows: &[Row]) -> Option<Cause>
    ensures cause { result ≡ done_below name.now rows.now }
{
    if is_open(name, rows) {
        None
    } else {
        Some(Cause::DoneNothing)
    }
}

/// Why an access to the buffer can't begin above these rows, where this many `#if` are open.
fn access_above(name: &Name, depth: usize, rows: &[Row]) -> Option<Cause>
    ensures cause { result ≡ access_above name.now depth rows.now }
{
    if !is_closed(name, depth, rows) {
        return Some(Cause::NotDone);
    }
    if lines_accessed(name, depth, rows) == 0 {
        return Some(Cause::AccessesNothing);
    }
    None
}

/// Whether the innermost of `depth` open branches is in its `#else` below these rows.
fn is_in_else(rows: &[Row], depth: usize) -> bool
    ensures inside { result ≡ in_else depth false rows.now }
{
    let mut inside = false;
    for row in rows {
        inside = else_after(depth, inside, row);
    }
    inside
}

fn else_after(depth: usize, inside: bool, row: &Row) -> bool
    ensures { result ≡ else_after depth inside row.now }
{
    if row.begins_part(depth) {
        row.is_else()
    } else {
        inside
    }
}

fn has_client(rows: &[Row], name: &Name) -> bool
    ensures { result ≡ has_client rows.now name.now }
{
    rows.iter().any(|row| row.mark.is_named(name))
}

/// The first line of a client past the limit.
fn too_many(rows: &[Row]) -> Option<Mistake>
    ensures found { MatchOption result (AreFew rows.now) (IsPastLimit rows.now) }
{
    let mut left = PLAN_LINES;
    for row in rows {
        if !row.is_line() {
            continue;
        }
        if left == 0 {
            return Some(Mistake {
                line: row.number,
                cause: Cause::Lines(PLAN_LINES),
            });
        }
        left -= 1;
    }
    None
}

/// A mistake that only the end of the plan shows, such as a branch without its `#end`. `last` is the last line's number.
fn missing(rows: &[Row], last: usize) -> Option<Mistake>
    ensures found { MatchOption result (IsWhole rows.now) (IsMissing rows.now last) }
{
    if let Some(mistake) = unfollowed(rows) {
        return Some(mistake);
    }
    if let Some(mistake) = unclosed(rows) {
        return Some(mistake);
    }
    if has_some_client(rows) {
        return None;
    }
    Some(Mistake {
        line: last,
        cause: Cause::NoClient,
    })
}

/// The last row, if it is about a line that has to follow.
fn unfollowed(rows: &[Row]) -> Option<Mistake>
    ensures found { MatchOption result (EndsWhole rows.now) (IsUnfollowed rows.now) }
{
    let row = rows.last()?;
    let cause = row.mark.unfollowed()?;
    Some(Mistake {
        line: row.number,
        cause,
    })
}

/// The last row, if an `#if` or an `#atomic` is open below it.
fn unclosed(rows: &[Row]) -> Option<Mistake>
    ensures found { MatchOption result (EndsClosed rows.now) (IsOpen rows.now) }
{
    let last = rows.last()?;
    if last.is_unended() {
        return Some(Mistake {
            line: last.number,
            cause: Cause::NotEnded,
        });
    }
    None
}

fn has_some_client(rows: &[Row]) -> bool
    ensures { result ≡ has_some_client rows.now }
{
    rows.iter().any(|row| row.is_client())
}
