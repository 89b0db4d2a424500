//! `fencectl draw` and `trace --draw`: write a picture or a graph of a script's run.
ghost use Rattle.std.specs.Prelude.{◌≡◌, ◌⊎◌, IfOk, if◌then◌else◌};
ghost use Rattle.line_core.specs.Script.{script_of};
ghost use Rattle.draw_core.specs.Refused.{HasRefused, drawing_refused, run_refused};
ghost use Rattle.fencectl_core.specs.Drawing.{IsDrawStatus, IsRunStatus, is_too_long};

use crate::action::Draw;
use crate::fault::FAULT;
use crate::reasons::Reasons;
use crate::status::{ACCEPTED, REFUSED};
use draw_core::{COLUMNS, Drawing, Run, Window, count_lines};
use line_core::SCRIPT_BYTES;
use picture_core::{History, dot_text};
use point_core::Refusal;
use report_core::write_whole;
use source_core::{Input, Source, put_file, reported};
use std::io;
use std::io::{Read, Write};

/// Draws a script's run, and writes the picture or the graph to standard output or to a file, which is written as a whole or not
/// at all. Gives the status: 1 if a line was refused. Options that don't fit are reported, with the status of a fault.
pub(crate) fn draw(rt: &HostRuntime, asked: &Draw<'_>) -> Result<u8, Refusal> {
    match window_of(asked) {
        Some(window) => draw_lines(rt, asked, &window),
        None => report_mistake(rt, wrong_options(asked)),
    }
}

// A function that owns a text or a run lends it to the next: proofs about owned memory are expensive.

fn draw_lines(rt: &HostRuntime, asked: &Draw<'_>, window: &Window) -> Result<u8, Refusal> {
    let script = script_of(rt, asked.script)?;
    let lines = DrawnLines {
        script: script.as_slice(),
        window,
    };
    draw_script(rt, asked, &lines)
}

/// The lines of a script that are drawn.
#[derive(Clone, Copy)]
struct DrawnLines<'a> {
    script: &'a [u8],
    window: &'a Window,
}

fn draw_script(rt: &HostRuntime, asked: &Draw<'_>, lines: &DrawnLines<'_>) -> Result<u8, Refusal>
    ensures status { IfOk result (IsDrawStatus asked.now lines.now.window.now lines.now.script.now) }
{
    let long = is_too_long(rt, asked, lines.script)?;
    if long {
        return report_mistake(rt, TOO_LONG);
    }
    draw_run(rt, asked, lines)
}

fn draw_run(rt: &HostRuntime, asked: &Draw<'_>, lines: &DrawnLines<'_>) -> Result<u8, Refusal>
    ensures status { IfOk result (IsRunStatus lines.now.window.now lines.now.script.now) }
{
    if asked.graph {
        draw_graph(rt, asked.output, lines)
    } else {
        draw_picture(rt, asked.output, lines)
    }
}

fn draw_graph(rt: &HostRuntime, output: Option<&str>, lines: &DrawnLines<'_>) -> Result<u8, Refusal>
    ensures status { IfOk result (IsRunStatus lines.now.window.now lines.now.script.now) }
{
    let mut run = run_of(rt, lines)?;
    let status = status_of(run.history());
    write_graph(rt, output, &mut run, status)
}

/// A script's run, recorded and explained.
fn run_of(rt: &HostRuntime, lines: &DrawnLines<'_>) -> Result<Run, Refusal>
    ensures refused { IfOk result (λ run.
        HasRefused lines.now.window.now (script_of lines.now.script.now) (run_refused run)) }
{
    let mut reasons = Reasons::new(rt.alloc());
    Run::of(rt.alloc(), lines.script, lines.window, &mut reasons)
}

fn write_graph(
    rt: &HostRuntime,
    output: Option<&str>,
    run: &mut Run,
    status: u8,
) -> Result<u8, Refusal>
    ensures status { IfOk result (λ given. given ≡ status) }
{
    let document = graph_of(rt, run)?;
    write_document(rt, output, document.as_slice(), status)
}

fn graph_of(rt: &HostRuntime, run: &mut Run) -> Result<Vec<u8>, Refusal> {
    let graph = run.graph()?;
    dot_text(rt.alloc(), &graph)
}

fn draw_picture(
    rt: &HostRuntime,
    output: Option<&str>,
    lines: &DrawnLines<'_>,
) -> Result<u8, Refusal>
    ensures status { IfOk result (IsRunStatus lines.now.window.now lines.now.script.now) }
{
    let drawing = drawing_of(rt, lines)?;
    let status = status_of(drawing.history());
    write_picture(rt, output, &drawing, status)
}

/// The picture of a script's run, with its explanations.
fn drawing_of(rt: &HostRuntime, lines: &DrawnLines<'_>) -> Result<Drawing, Refusal>
    ensures refused { IfOk result (λ drawing.
        HasRefused lines.now.window.now (script_of lines.now.script.now) (drawing_refused drawing)) }
{
    let mut reasons = Reasons::new(rt.alloc());
    Drawing::of(rt.alloc(), lines.script, lines.window, &mut reasons)
}

fn write_picture(
    rt: &HostRuntime,
    output: Option<&str>,
    drawing: &Drawing,
    status: u8,
) -> Result<u8, Refusal>
    ensures status { IfOk result (λ given. given ≡ status) }
{
    let document = drawing.svg(rt.alloc())?;
    write_document(rt, output, document.as_slice(), status)
}

fn status_of(history: &History) -> u8
    ensures { result ≡ (if history.now.refused then 1 else 0) }
{
    if history.refused { REFUSED } else { ACCEPTED }
}

/// The most pixels of a trace's picture whose beginning nobody has chosen.
const TRACE_WIDTH: u64 = 2_000;

/// Draws the script of a trace's events, to standard output or to a file: all of it if its beginning was chosen, or else the last
/// events that fit.
pub(crate) fn draw_trace(
    rt: &HostRuntime,
    output: Option<&str>,
    script: &[u8],
    is_chosen: bool,
) -> Result<u8, Refusal>
    ensures status { IfOk result (λ status. (status ≡ 0) ⊎ (status ≡ 2)) }
{
    if is_chosen {
        draw_chosen(rt, output, script)
    } else {
        draw_last(rt, output, script)
    }
}

fn draw_chosen(rt: &HostRuntime, output: Option<&str>, script: &[u8]) -> Result<u8, Refusal>
    ensures status { IfOk result (λ status. (status ≡ 0) ⊎ (status ≡ 2)) }
{
    if count_lines(rt.alloc(), script)? > COLUMNS {
        return report_mistake(rt, TOO_LONG_A_WINDOW);
    }
    let window = Window::whole();
    let lines = DrawnLines {
        script,
        window: &window,
    };
    let drawing = drawing_of(rt, &lines)?;
    write_picture(rt, output, &drawing, ACCEPTED)
}

fn draw_last(rt: &HostRuntime, output: Option<&str>, script: &[u8]) -> Result<u8, Refusal>
    ensures status { IfOk result (λ status. (status ≡ 0) ⊎ (status ≡ 2)) }
{
    let mut reasons = Reasons::new(rt.alloc());
    let drawing = Drawing::of_last(rt.alloc(), script, TRACE_WIDTH, &mut reasons)?;
    write_picture(rt, output, &drawing, ACCEPTED)
}

/// The picture of a script that is no file, as SVG.
pub(crate) fn svg_of(rt: &HostRuntime, script: &[u8]) -> Result<Vec<u8>, Refusal> {
    let window = Window::whole();
    let lines = DrawnLines {
        script,
        window: &window,
    };
    let drawing = drawing_of(rt, &lines)?;
    drawing.svg(rt.alloc())
}

const TOO_LONG_A_WINDOW: &str =
    "fencectl: more than 500 commands happened; choose a window with --from and --to";

const TOO_LONG: &str =
    "fencectl: the script has more than 500 commands; choose the lines with --lines A..B";

/// The lines that are drawn, or none if the options name no such lines.
fn window_of(asked: &Draw<'_>) -> Option<Window> {
    if asked.graph {
        graph_window(asked)
    } else {
        picture_window(asked)
    }
}

fn picture_window(asked: &Draw<'_>) -> Option<Window> {
    if asked.line.is_some() {
        return None;
    }
    match asked.lines {
        Some(lines) => Window::read(lines),
        None => Some(Window::whole()),
    }
}

/// A graph has no columns.
fn graph_window(asked: &Draw<'_>) -> Option<Window> {
    if asked.lines.is_some() {
        return None;
    }
    match asked.line {
        Some(line) => Some(Window::after(line.parse().ok()?)),
        None => Some(Window::after(u32::MAX)),
    }
}

fn wrong_options(asked: &Draw<'_>) -> &'static str {
    if asked.graph && asked.lines.is_some() {
        "fencectl: a graph is drawn after one line, with --line N"
    } else if asked.graph {
        "fencectl: --line takes the number of a line"
    } else if asked.line.is_some() {
        "fencectl: --line goes with --graph; a picture has --lines A..B"
    } else {
        "fencectl: --lines takes A..B, the numbers of a first and a last line"
    }
}

pub(crate) fn report_mistake(rt: &HostRuntime, message: &str) -> Result<u8, Refusal>
    ensures status { IfOk result (λ status. status ≡ 2) }
{
    eprintln!(rt; "{message}").map_err(|_| Refusal::Write)?;
    Ok(FAULT)
}

pub(crate) fn script_of(rt: &HostRuntime, script: Input<'_>) -> Result<Vec<u8>, Refusal> {
    let mut source = Source::open(rt, script, rt.stdin())?;
    read_script(rt, &mut source)
}

/// The script, up to one byte past its limit.
fn read_script<S: Read>(rt: &HostRuntime, source: &mut S) -> Result<Vec<u8>, Refusal> {
    let mut script = Vec::new(rt.alloc());
    let most = SCRIPT_BYTES as u64;
    match source.take(most.saturating_add(1)).read_to_end(&mut script) {
        Ok(_) => Ok(script),
        Err(error) => Err(fault_of(&error)),
    }
}

/// The fault of a failed read, which may have been refused memory.
fn fault_of(error: &io::Error) -> Refusal {
    if error.kind() == io::ErrorKind::OutOfMemory {
        Refusal::Memory
    } else {
        Refusal::Read
    }
}

/// Whether a picture would have too many columns, if no lines were chosen.
fn is_too_long(rt: &HostRuntime, asked: &Draw<'_>, script: &[u8]) -> Result<bool, Refusal>
    ensures long { IfOk result (λ long. long ≡ is_too_long asked.now script.now) }
{
    if asked.graph {
        return Ok(false);
    }
    if asked.lines.is_some() {
        return Ok(false);
    }
    let count = count_lines(rt.alloc(), script)?;
    Ok(count > COLUMNS)
}

/// Gives that status once the document is written.
pub(crate) fn write_document(
    rt: &HostRuntime,
    output: Option<&str>,
    document: &[u8],
    status: u8,
) -> Result<u8, Refusal>
    ensures status { IfOk result (λ given. given ≡ status) }
{
    match output {
        Some(name) => match reported(rt, name, put_file(rt, name, document)) {
            Ok(()) => Ok(status),
            Err(_) => Err(Refusal::Write),
        },
        None => write_output(rt, document, status),
    }
}

pub(crate) fn write_output(rt: &HostRuntime, document: &[u8], status: u8) -> Result<u8, Refusal>
    ensures status { IfOk result (λ given. given ≡ status) }
{
    let mut output = rt.stdout();
    write_whole(&mut output, document)?;
    match output.flush() {
        Ok(()) => Ok(status),
        Err(_) => Err(Refusal::Write),
    }
}
