//! `Mark`: what a line says to the reader of a plan. `row.rt` asks for it line by line.
ghost use Rattle.std.specs.Prelude.{◌≡◌};
ghost use Rattle.explore_report.specs.Mistake.{is_marked, is_named, unfollowed};
ghost use Rattle.explore_report.specs.Rounds.{number_said};
ghost use Rattle.explore_report.specs.Rows.{command_said, is_else, is_end, is_if};
ghost use Rattle.explore_report.specs.Mark.{access_named, after_mark, after_named, begins_directive, blank_note, branch_text, client_named, directive_of, expected_text, if_mark, is_directive, mark_named, mark_of, mark_of_body, name_said, note_of, repeat_mark, turn_numbered, without_words, after_other};

use crate::cause::{Cause, PLAN_ROUNDS, PLAN_TURNS, REPEATED_LINES};
use crate::unrolling::{number_said, rounds_said};
use crate::verb::Verb;
use crate::words::{first_word, words_after};
use command_core::Command;
use line_core::{Body, body_of, strip_prefix, without_spaces};
use point_core::{NAME_BYTES, Name};

/// What a line says to the reader of a plan.
#[derive(Clone, Copy)]
pub enum Mark {
    /// `#client NAME`: the lines below are this client's.
    Client(Name),
    /// `#finally`: the lines below are made once all clients are done.
    Finally,
    /// `#await`: the next line waits until it would be accepted.
    Await,
    /// `#once`: the `wait` on the next line doesn't wait, but checks the file once.
    Once,
    /// `#mark N`: a mark of that name is on the next line.
    Named(Name),
    /// `#after N`: the client makes the next line only once the marked line of that name is passed.
    After(Name),
    /// `#turn N`: the next line's place in the order that shown schedules keep near to.
    Turn(usize),
    /// `#if TEXT`: the client makes the lines below only if TEXT is the first line of the answer above.
    If,
    /// `#else`: the client makes the lines below after any other answer.
    Else,
    /// `#atomic`: the lines down to its `#end` are one step.
    Atomic,
    /// `#end`: ends the lines of an `#if`, of its `#else`, or of an `#atomic`.
    End,
    /// `#reads B`, `#writes B` or `#done B`.
    Access(Verb, Name),
    /// `#= TEXT`: a line of the answer that is expected of the line above.
    Expected,
    /// `#| TEXT`: the first line of another right answer.
    OrExpected,
    /// `#|.. TEXT`: the first line of another right answer, which may have more lines than the notes say.
    OrBegins,
    Command(Command),
    /// Nothing that a plan may have.
    Wrong(Cause),
}

impl Mark {
    pub(crate) fn command(&self) -> Option<Command>
        ensures { result ≡ command_said self.now }
    {
        match self {
            Mark::Command(command) => Some(*command),
            _ => None,
        }
    }

    /// Whether it begins the lines of a client with that name.
    pub(crate) fn is_named(&self, name: &Name) -> bool
        ensures { result ≡ is_named name.now self.now }
    {
        match self {
            Mark::Client(other) => other == name,
            _ => false,
        }
    }

    /// Whether it marks a line by that name.
    pub(crate) fn is_marked(&self, name: &Name) -> bool
        ensures { result ≡ is_marked name.now self.now }
    {
        match self {
            Mark::Named(other) => other == name,
            _ => false,
        }
    }

    /// Why nothing may end directly below it: it is about the line that follows.
    pub(crate) fn unfollowed(&self) -> Option<Cause>
        ensures { result ≡ unfollowed self.now }
    {
        match self {
            Mark::Await => Some(Cause::AwaitsNothing),
            Mark::Once => Some(Cause::ChecksNothing),
            Mark::Named(_) | Mark::After(_) | Mark::Turn(_) => Some(Cause::NotesNothing),
            _ => None,
        }
    }

    pub(crate) fn is_if(&self) -> bool
        ensures { result ≡ is_if self.now }
    {
        matches!(self, Mark::If)
    }

    pub(crate) fn is_else(&self) -> bool
        ensures { result ≡ is_else self.now }
    {
        matches!(self, Mark::Else)
    }

    pub(crate) fn is_end(&self) -> bool
        ensures { result ≡ is_end self.now }
    {
        matches!(self, Mark::End)
    }
}

const CLIENT: &[u8] = b"#client";

const FINALLY: &[u8] = b"#finally";

const AWAIT: &[u8] = b"#await";

const ONCE: &[u8] = b"#once";

const MARK: &[u8] = b"#mark";

const AFTER: &[u8] = b"#after";

const TURN: &[u8] = b"#turn";

pub(crate) const IF: &[u8] = b"#if";

const ELSE: &[u8] = b"#else";

pub(crate) const ATOMIC: &[u8] = b"#atomic";

pub(crate) const END: &[u8] = b"#end";

pub(crate) const REPEAT: &[u8] = b"#repeat";

const READS: &[u8] = b"#reads";

const WRITES: &[u8] = b"#writes";

const DONE: &[u8] = b"#done";

/// The first word of a note with a blank behind its `#`.
const BLANK: &[u8] = b"#";

const CLIENT_WORD: &[u8] = b"client";

const FINALLY_WORD: &[u8] = b"finally";

const AWAIT_WORD: &[u8] = b"await";

/// The front of a note that expects a line of an answer.
const EXPECTED: &[u8] = b"#=";

/// The front of a note that begins another answer.
const OR_EXPECTED: &[u8] = b"#|";

/// The front of a note that begins an answer of which more lines may follow.
const OR_BEGINS: &[u8] = b"#|..";

/// What a line says; none for a line without words, and for a note to the reader of the script.
pub(crate) fn mark_of(line: &[u8]) -> Option<Mark>
    ensures mark { result ≡ mark_of line.now }
{
    match body_of(line) {
        Some(body) => Some(mark_of_body(body)),
        None => note_of(without_spaces(line)),
    }
}

fn mark_of_body(body: Body) -> Mark
    ensures mark { result ≡ mark_of_body body }
{
    match body {
        Body::Cmd(command) => Mark::Command(command),
        Body::Bad(_) => Mark::Wrong(Cause::NoCommand),
    }
}

/// What a note says, which begins with its `#`.
fn note_of(note: &[u8]) -> Option<Mark>
    ensures mark { result ≡ note_of note.now }
{
    if strip_prefix(note, EXPECTED).is_some() {
        return Some(Mark::Expected);
    }
    if strip_prefix(note, OR_BEGINS).is_some() {
        return Some(Mark::OrBegins);
    }
    if strip_prefix(note, OR_EXPECTED).is_some() {
        return Some(Mark::OrExpected);
    }
    directive_of(first_word(note), words_after(note))
}

/// The mark of a note, by its first word and what follows it.
fn directive_of(word: &[u8], rest: &[u8]) -> Option<Mark>
    ensures mark { result ≡ directive_of word.now rest.now }
{
    if word == CLIENT {
        return Some(client_named(name_said(rest)));
    }
    if word == FINALLY {
        return Some(without_words(rest, Mark::Finally));
    }
    if word == AWAIT {
        return Some(without_words(rest, Mark::Await));
    }
    if word == ONCE {
        return Some(without_words(rest, Mark::Once));
    }
    if word == MARK {
        return Some(mark_named(name_said(rest)));
    }
    if word == AFTER {
        return Some(after_named(name_said(rest)));
    }
    if word == TURN {
        return Some(turn_numbered(number_said(PLAN_TURNS, rest)));
    }
    if word == IF {
        return Some(if_mark(rest));
    }
    if word == ELSE {
        return Some(without_words(rest, Mark::Else));
    }
    if word == ATOMIC {
        return Some(without_words(rest, Mark::Atomic));
    }
    if word == END {
        return Some(without_words(rest, Mark::End));
    }
    if word == REPEAT {
        return Some(repeat_mark(rest));
    }
    if word == READS {
        return Some(access_named(Verb::Reads, name_said(rest)));
    }
    if word == WRITES {
        return Some(access_named(Verb::Writes, name_said(rest)));
    }
    if word == DONE {
        return Some(access_named(Verb::Done, name_said(rest)));
    }
    if word == BLANK {
        return blank_note(rest);
    }
    if begins_directive(word) {
        return Some(Mark::Wrong(Cause::NoDirective));
    }
    None
}

/// The mark of a note with a blank behind its `#`: a comment without one, but a mistake if it reads as a directive.
fn blank_note(rest: &[u8]) -> Option<Mark>
    ensures mark { result ≡ blank_note rest.now }
{
    if is_directive(first_word(rest), words_after(rest)) {
        Some(Mark::Wrong(Cause::BlankFollows))
    } else {
        None
    }
}

/// Whether the words would be a directive directly behind a `#`.
fn is_directive(word: &[u8], rest: &[u8]) -> bool
    ensures directive { result ≡ is_directive word.now rest.now }
{
    if word == CLIENT_WORD {
        return words_after(rest).is_empty();
    }
    if word == FINALLY_WORD {
        return rest.is_empty();
    }
    if word == AWAIT_WORD {
        return rest.is_empty();
    }
    false
}

/// The name that the words are, if they are one.
fn name_said(words: &[u8]) -> Option<Name>
    ensures name { result ≡ name_said words.now }
{
    if words_after(words).is_empty() {
        Name::read(first_word(words))
    } else {
        None
    }
}

/// The mark of `#client`, which a name has to follow.
fn client_named(name: Option<Name>) -> Mark
    ensures mark { result ≡ client_named name }
{
    match name {
        Some(name) => Mark::Client(name),
        None => Mark::Wrong(Cause::NoName(NAME_BYTES)),
    }
}

/// The mark of `#mark`, which a name has to follow.
fn mark_named(name: Option<Name>) -> Mark
    ensures mark { result ≡ mark_named name }
{
    match name {
        Some(name) => Mark::Named(name),
        None => Mark::Wrong(Cause::NoName(NAME_BYTES)),
    }
}

/// The mark of `#after`, which a name has to follow.
fn after_named(name: Option<Name>) -> Mark
    ensures mark { result ≡ after_named name }
{
    match name {
        Some(name) => Mark::After(name),
        None => Mark::Wrong(Cause::NoName(NAME_BYTES)),
    }
}

/// The mark of a note on an access, which the name of a buffer has to follow.
fn access_named(verb: Verb, name: Option<Name>) -> Mark
    ensures mark { result ≡ access_named verb name }
{
    match name {
        Some(name) => Mark::Access(verb, name),
        None => Mark::Wrong(Cause::NoBuffer(NAME_BYTES)),
    }
}

/// The mark of `#turn`, which a number has to follow.
fn turn_numbered(number: Option<u32>) -> Mark
    ensures mark { result ≡ turn_numbered number }
{
    match number {
        Some(number) => Mark::Turn(number as usize),
        None => Mark::Wrong(Cause::NoTurn(PLAN_TURNS)),
    }
}

/// The mark of a directive that no word follows.
fn without_words(rest: &[u8], mark: Mark) -> Mark
    ensures mark { result ≡ without_words rest.now mark }
{
    if rest.is_empty() {
        mark
    } else {
        Mark::Wrong(Cause::WordFollows)
    }
}

/// The mark of `#if`, which the first line of an answer has to follow.
fn if_mark(rest: &[u8]) -> Mark
    ensures mark { result ≡ if_mark rest.now }
{
    if rest.is_empty() {
        Mark::Wrong(Cause::NoText)
    } else {
        Mark::If
    }
}

/// The mark of a `#repeat` that was not made.
fn repeat_mark(rest: &[u8]) -> Mark
    ensures mark { result ≡ repeat_mark rest.now }
{
    if rounds_said(rest).is_some() {
        Mark::Wrong(Cause::NotRepeated(REPEATED_LINES))
    } else {
        Mark::Wrong(Cause::NoRounds(PLAN_ROUNDS))
    }
}

/// Whether a letter follows the `#`.
fn begins_directive(word: &[u8]) -> bool
    ensures letter { result ≡ begins_directive word.now }
{
    match word {
        [_, second, ..] => second.is_ascii_alphabetic(),
        _ => false,
    }
}

/// The text that a note expects: what follows its mark, but for one space.
pub(crate) fn expected_text(line: &[u8]) -> &[u8]
    ensures text { result.now ≡ expected_text line.now }
{
    let text = after_mark(without_spaces(line));
    strip_prefix(text, b" ").unwrap_or(text)
}

fn after_mark(note: &[u8]) -> &[u8]
    ensures text { result.now ≡ after_mark note.now }
{
    match strip_prefix(note, EXPECTED) {
        Some(text) => text,
        None => after_other(note),
    }
}

/// What follows the mark of a note that begins another answer.
fn after_other(note: &[u8]) -> &[u8]
    ensures text { result.now ≡ after_other note.now }
{
    match strip_prefix(note, OR_BEGINS) {
        Some(text) => text,
        None => strip_prefix(note, OR_EXPECTED).unwrap_or(note),
    }
}

/// The first line of an answer that an `#if` names: what follows its mark, without the spaces between.
pub(crate) fn branch_text(line: &[u8]) -> &[u8]
    ensures text { result.now ≡ branch_text line.now }
{
    words_after(without_spaces(line))
}
