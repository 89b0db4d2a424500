//! `Run`: a script's run, recorded as a history. Lines before the window only change the desk.
ghost use Rattle.std.specs.Prelude.{◌≡◌, ◌∷◌, ◌++◌, ◌||◌, [], List, length, IfErr, IfOk, OnOk};
ghost use Rattle.point_core.specs.declared.refusal.Refusal.TheVariants.{Memory};
ghost use Rattle.desk_core.specs.theorem.Answer.{is_refused};
ghost use Rattle.line_core.specs.declared.line.Line.{Line as LineModel};
ghost use Rattle.line_core.specs.Script.{script_of};
ghost use Rattle.draw_core.specs.Progress.{Answers, HasRun};
ghost use Rattle.draw_core.specs.Refused.{HasRefused, run_refused};

use crate::asking::ask_all;
use crate::graph::enter_all;
use crate::hearing::{Scene, hear_notes};
use crate::margin::Margin;
use crate::note::{Explain, RefusedLine, push_answer};
use crate::tasks::enter_tasks;
use crate::texts::Texts;
use crate::waiting::{points_listed, waits_of};
use crate::window::Window;
use command_core::{Answer, Command};
use desk_core::Desk;
use line_core::{Body, LINE_BYTES, Line, RawLine, read_script};
use picture_core::{Column, ColumnHead, Graph, History};
use point_core::{Name, Point, Refusal};
use script_core::answer_line;
use std::alloc::{AllocError, Global};

/// The most columns of a picture if no lines were chosen.
pub const COLUMNS: usize = 500;

/// The number of lines of a script that have an answer.
///
/// Fails only with `Memory`.
pub fn count_lines(alloc: Global, script: &[u8]) -> Result<usize, Refusal>
    ensures memory { IfErr result (λ e. e ≡ Memory) }
    ensures count { IfOk result (λ count. count ≡ length (script_of script.now)) }
{
    let lines = read_script(alloc, script)?;
    Ok(lines.len())
}

/// A run of a script up to the last line that is drawn: the desk, and the recorded history.
#[derive(Drop)]
pub struct Run {
    alloc: Global,
    window: Window,
    desk: Desk,
    history: History,
    margin: Margin,
}

impl Run {
    /// Runs the lines of a script up to the window's last, and records those in the window, one column for each that
    /// has an answer. Refused lines are recorded too, with an explanation by `reasons`.
    ///
    /// Fails only with `Memory`.
    pub fn of<X: Explain>(
        alloc: Global,
        script: &[u8],
        window: &Window,
        reasons: &mut X,
    ) -> Result<Run, Refusal>
        ensures memory { IfErr result (λ e. e ≡ Memory) }
        ensures refused { IfOk result (λ run. HasRefused window.now (script_of script.now) (run_refused run)) }
    {
        let lines = read_script(alloc, script)?;
        let mut run = Run::new(alloc, window)?;
        let mut texts = Texts::of(script);
        run.take_all(lines.as_slice(), &mut texts, reasons)?;
        run.hear_before(&mut texts, u32::MAX)?;
        run.finish()?;
        Ok(run)
    }

    /// The recorded history.
    pub fn history(&self) -> &History
        ensures { result.now ≡ self.now.history }
    {
        &self.history
    }

    /// The graph of waiters after the last line that was run.
    ///
    /// Fails only with `Memory`.
    pub fn graph(&mut self) -> Result<Graph, Refusal>
        ensures memory { IfErr result (λ e. e ≡ Memory) }
    {
        let answer = self.desk.step(Command::Report);
        self.graph_of(&answer)
    }

    fn graph_of(&self, answer: &Answer) -> Result<Graph, Refusal>
        ensures memory { IfErr result (λ e. e ≡ Memory) }
    {
        let Answer::Report(report) = answer else {
            return Err(Refusal::Memory);
        };
        let mut graph = Graph::new(self.alloc);
        enter_all(
            &mut graph,
            &self.desk,
            report,
            self.history.lanes.watches.as_slice(),
        )?;
        Ok(graph)
    }

    fn new(alloc: Global, window: &Window) -> Result<Run, Refusal>
        ensures memory { IfErr result (λ e. e ≡ Memory) }
        ensures begun { IfOk result (λ run. HasRun window.now [] run.desk run.history.refused) }
        ensures window { IfOk result (λ run. run.window ≡ window.now) }
    {
        Ok(Run {
            alloc,
            window: *window,
            desk: Desk::new(alloc)?,
            history: History::new(alloc),
            margin: Margin::new(alloc),
        })
    }

    fn take_all<X: Explain>(
        &mut self,
        lines: &[Line],
        texts: &mut Texts<'_>,
        reasons: &mut X,
    ) -> Result<(), Refusal>
        requires begun { HasRun self.old.window [] self.old.desk self.old.history.refused }
        ensures memory { IfErr result (λ e. e ≡ Memory) }
        ensures run { OnOk result (HasRun self.old.window lines.now self.new.desk self.new.history.refused) }
    {
        for line in lines {
            self.hear_before(texts, line.number)?;
            let text = texts.line(line.number);
            self.take(&raw_line(line.number, text), &line.body, reasons)?;
        }
        Ok(())
    }

    /// Hears the notes before the line with that number.
    fn hear_before(&mut self, texts: &mut Texts<'_>, line: u32) -> Result<(), Refusal>
        ensures memory { IfErr result (λ e. e ≡ Memory) }
        ensures desk { self.new.desk ≡ self.old.desk }
        ensures window { self.new.window ≡ self.old.window }
        ensures refused { self.new.history.refused ≡ self.old.history.refused }
    {
        let scene = Scene {
            alloc: self.alloc,
            window: &self.window,
            desk: &self.desk,
        };
        hear_notes(&scene, texts, line, &mut self.history, &mut self.margin)?;
        Ok(())
    }

    /// Answers a line up to the window's last, with a column of its own if it is in the window.
    ///
    /// Fails only with `Memory`.
    fn take<X: Explain>(
        &mut self,
        line: &RawLine<'_>,
        body: &Body,
        reasons: &mut X,
    ) -> Result<(), Refusal>
        ensures memory { IfErr result (λ e. e ≡ Memory) }
        ensures run { (done : List LineModel) → HasRun self.old.window done self.old.desk self.old.history.refused →
            HasRun self.old.window (done ++ record { number = line.now.number; body = body.now } ∷ [])
            self.new.desk self.new.history.refused }
        ensures window { self.new.window ≡ self.old.window }
    {
        if line.number > self.window.last {
            return Ok(());
        }
        if self.window.has(line.number) {
            self.take_drawn(line, body, reasons)
        } else {
            self.take_undrawn(line.number, body, reasons)
        }
    }

    fn take_drawn<X: Explain>(
        &mut self,
        line: &RawLine<'_>,
        body: &Body,
        reasons: &mut X,
    ) -> Result<(), Refusal>
        ensures memory { IfErr result (λ e. e ≡ Memory) }
        ensures answered { Answers body.now self.old.desk self.new.desk self.old.history.refused self.new.history.refused }
        ensures window { self.new.window ≡ self.old.window }
    {
        self.ask_first();
        let answer = answer_line(&mut self.desk, *body);
        self.record(line, body, &answer, reasons)
    }

    fn take_undrawn<X: Explain>(
        &mut self,
        line: u32,
        body: &Body,
        reasons: &mut X,
    ) -> Result<(), Refusal>
        ensures memory { IfErr result (λ e. e ≡ Memory) }
        ensures answered { Answers body.now self.old.desk self.new.desk self.old.history.refused self.new.history.refused }
        ensures window { self.new.window ≡ self.old.window }
    {
        let answer = answer_line(&mut self.desk, *body);
        self.margin.client = None;
        self.history.left_out = self.history.left_out.saturating_add(1);
        self.enter(0, line, body, &answer, reasons)
    }

    /// Before the first column, settles the bars of open files that are signalled.
    fn ask_first(&mut self)
        ensures desk { self.new.desk ≡ self.old.desk }
        ensures window { self.new.window ≡ self.old.window }
        ensures refused { self.new.history.refused ≡ self.old.history.refused }
    {
        if self.history.columns.is_empty() {
            ask_all(self.history.bars.as_mut_slice(), &self.desk, 0);
        }
    }

    /// Adds a column for a line with its answer.
    fn record<X: Explain>(
        &mut self,
        line: &RawLine<'_>,
        body: &Body,
        answer: &Answer,
        reasons: &mut X,
    ) -> Result<(), Refusal>
        ensures memory { IfErr result (λ e. e ≡ Memory) }
        ensures desk { self.new.desk ≡ self.old.desk }
        ensures window { self.new.window ≡ self.old.window }
        ensures refused { self.new.history.refused ≡ (is_refused answer.now || self.old.history.refused) }
    {
        let column = self.history.columns.len() + 1;
        self.enter(column, line.number, body, answer, reasons)?;
        let note = self.note_of(line, body, answer, reasons)?;
        let client = place_of_client(&mut self.history.clients, self.margin.next_client())?;
        self.history.add_column(Column {
            line: line.number,
            head: self.margin.next_head(),
            word: word_of_line(body),
            refused: is_refused(answer),
            client,
            note,
        })?;
        ask_all(self.history.bars.as_mut_slice(), &self.desk, column);
        Ok(())
    }

    /// Enters a line with its answer in its column.
    fn enter<X: Explain>(
        &mut self,
        column: usize,
        line: u32,
        body: &Body,
        answer: &Answer,
        reasons: &mut X,
    ) -> Result<(), Refusal>
        ensures memory { IfErr result (λ e. e ≡ Memory) }
        ensures desk { self.new.desk ≡ self.old.desk }
        ensures window { self.new.window ≡ self.old.window }
        ensures refused { self.new.history.refused ≡ (is_refused answer.now || self.old.history.refused) }
    {
        if is_refused(answer) {
            self.history.refused = true;
            return Ok(());
        }
        let Body::Cmd(command) = body else {
            return Ok(());
        };
        reasons.accept(line, command, &self.desk)?;
        let points = points_of(&self.desk, command);
        self.history
            .enter(self.alloc, column, command, answer, points)?;
        Ok(())
    }

    /// The line, its answer, and the reason if it was refused.
    fn note_of<X: Explain>(
        &self,
        line: &RawLine<'_>,
        body: &Body,
        answer: &Answer,
        reasons: &X,
    ) -> Result<Vec<u8>, Refusal>
        ensures memory { IfErr result (λ e. e ≡ Memory) }
    {
        let mut note = Vec::new(self.alloc);
        push_answer(line, answer, &mut note)?;
        if let Answer::Refused(refusal) = answer {
            let refused = RefusedLine {
                line,
                body,
                refusal: *refusal,
            };
            reasons.explain(&self.desk, &refused, &mut note)?;
        }
        Ok(note)
    }

    /// Enters what the pending files wait for, and the tasks that wait for files.
    fn finish(&mut self) -> Result<(), Refusal>
        ensures memory { IfErr result (λ e. e ≡ Memory) }
        ensures refused { self.new.history.refused ≡ self.old.history.refused }
    {
        self.ask_first();
        self.history.waits = waits_of(
            self.alloc,
            &self.desk,
            self.history.bars.as_slice(),
            self.margin.not_signalled.as_slice(),
        )?;
        enter_tasks(self.alloc, self.margin.waits.as_slice(), &mut self.history)?;
        if self.margin.time.is_some() {
            hide_lines(self.history.columns.as_mut_slice());
        }
        Ok(())
    }
}

/// Where columns have times, the user knows no lines.
fn hide_lines(columns: &mut [Column]) {
    for column in columns.iter_mut() {
        if let ColumnHead::Line = column.head {
            column.head = ColumnHead::Blank;
        }
    }
}

/// The place of a client, which gets one if it has none.
fn place_of_client(
    clients: &mut Vec<Name>,
    client: Option<Name>,
) -> Result<Option<usize>, AllocError> {
    let Some(client) = client else {
        return Ok(None);
    };
    for (place, other) in clients.iter().enumerate() {
        if *other == client {
            return Ok(Some(place));
        }
    }
    let place = clients.len();
    clients.push(client)?;
    Ok(Some(place))
}

/// The points of the file on which a watch is registered; none for another command.
fn points_of<'a>(desk: &'a Desk, command: &Command) -> &'a [Point] {
    match command {
        Command::Watch(file, _) => points_listed(desk, file),
        _ => &[],
    }
}

fn is_refused(answer: &Answer) -> bool
    ensures { result ≡ is_refused answer.now }
{
    match answer {
        Answer::Refused(_) => true,
        _ => false,
    }
}

fn word_of_line(body: &Body) -> &'static str {
    match body {
        Body::Cmd(command) => command.word(),
        Body::Bad(_) => "?",
    }
}

/// The raw line; an over-long one is cut to `LINE_BYTES + 1` bytes, so that it still reads as too long.
fn raw_line(number: u32, text: &[u8]) -> RawLine<'_>
    ensures { result.number ≡ number }
{
    RawLine::new(number, &text[..text.len().min(LINE_BYTES + 1)], text.len())
}
