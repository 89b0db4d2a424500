//! `Action`: what the command line asks for. `usage.rt` makes it, and `start.rt` performs it.
ghost use Rattle.std.specs.Prelude.{◌≤◌};
ghost use Rattle.clients_core.specs.declared.plans.TheConstants.{CLIENTS};
ghost use Rattle.clients_core.specs.declared.rounds.TheConstants.{ROUNDS};

use source_core::Input;

/// A subcommand with its options.
#[derive(Drop)]
pub(crate) enum Action<'a> {
    /// Run a script, and print its answers.
    Run(Input<'a>),
    /// Run a script, and print its answers as JSON.
    Json(Input<'a>),
    /// Compare the answers of scripts with the answers that their notes expect.
    Check(Check<'a>),
    /// Rewrite files, and the scripts below folders, so that each expects its own answers.
    Update(Vec<&'a str>),
    /// Run a script, print its answers, and explain why lines were refused.
    Explain(Input<'a>),
    /// Read a trace, and report what hangs.
    Trace(Trace<'a>),
    /// Draw a picture of a script's run, or a graph of what it leaves.
    Draw(Draw<'a>),
    /// Run clients on threads, and print what they settle.
    Clients(Clients),
    /// Decide a plan over every schedule, and report what is found.
    Explore(Explore<'a>),
    /// End with this status: help or the version is printed, or wrong usage is reported.
    End(u8),
}

/// Which scripts are checked, and how.
#[derive(Drop)]
pub(crate) struct Check<'a> {
    /// Files, folders, and `-` for standard input.
    pub paths: Vec<&'a str>,
    pub report: CheckReport,
    /// Whether a script may expect nothing.
    pub allows_empty: bool,
}

/// The options of `draw`, as the command line has them.
#[derive(Clone, Copy)]
pub(crate) struct Draw<'a> {
    pub script: Input<'a>,
    /// A graph instead of a picture.
    pub graph: bool,
    /// The line after which a graph is drawn.
    pub line: Option<&'a str>,
    /// The lines that a picture has.
    pub lines: Option<&'a str>,
    /// The file that is written.
    pub output: Option<&'a str>,
}

/// The output format of `check`.
#[derive(Clone, Copy)]
pub(crate) enum CheckReport {
    /// Each answer that differs, each script that does not pass, and the counts.
    All,
    /// Only the counts.
    Counts,
    /// Tests of the Test Anything Protocol.
    Tap,
}

/// The options of `trace`.
#[derive(Clone, Copy)]
pub(crate) struct Trace<'a> {
    /// A file, or standard input.
    pub text: Input<'a>,
    /// Whether the report is a JSON document.
    pub is_json: bool,
    /// Whether the events are written as a script.
    pub is_script: bool,
    /// Whether the events are drawn.
    pub is_drawing: bool,
    /// Whether the events are written as Perfetto's trace events.
    pub is_perfetto: bool,
    /// Whether the script or the picture has only what hangs, and a little before.
    pub is_hanging: bool,
    /// The start of the window, in seconds.
    pub from: Option<&'a str>,
    /// The end of the window.
    pub to: Option<&'a str>,
    /// The file that is written.
    pub output: Option<&'a str>,
}

/// The options of `explore`. The texts are as the command line has them.
#[derive(Clone, Copy)]
pub(crate) struct Explore<'a> {
    pub script: Input<'a>,
    /// Whether the report is JSON.
    pub is_json: bool,
    /// The most states that are visited.
    pub states: Option<&'a str>,
    /// The front of the names of the files that get the schedules.
    pub witness: Option<&'a str>,
    /// The front of the names of the files that get the schedules' pictures.
    pub draw: Option<&'a str>,
    /// Whether the answers of all lines are listed.
    pub answers: bool,
    /// Whether every order of the clients is followed.
    pub all_orders: bool,
    /// Whether the search ends at the first finding.
    pub is_first: bool,
    /// Whether each schedule ends at its first wrong answer.
    pub predicts: bool,
}

/// The number of clients, the rounds that each makes, and the table that they share.
#[derive(Clone, Copy)]
pub struct Clients {
    pub count: usize,
    pub rounds: u64,
    pub table: Table,
    ghost counted: { (1 ≤ count) × (count ≤ CLIENTS) },
    ghost bounded: { (1 ≤ rounds) × (rounds ≤ ROUNDS) },
}

/// The table that clients share.
#[derive(Clone, Copy)]
pub enum Table {
    /// A board of words, without a lock.
    Board,
    /// Buffers under locks.
    Locks,
}
