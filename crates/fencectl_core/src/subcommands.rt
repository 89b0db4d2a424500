//! The table of subcommands: the word of each, its help and its arguments. A new subcommand is a row here, an `Action`,
//! and its case in `asked.rt`.
ghost use Rattle.std.specs.Prelude.{◌≡◌, map};
ghost use Rattle.fencectl_core.specs.Words.{app_by, apps};

use clients_core::{CLIENTS, ROUNDS};

/// A subcommand: its word, what the help says of it, and its arguments.
pub(crate) struct Subcommand {
    pub word: &'static str,
    pub about: &'static str,
    pub arguments: &'static [Argument],
}

/// An argument: the name by which it is read, its form, and what the help says of it.
pub(crate) struct Argument {
    pub name: &'static str,
    pub form: ArgumentForm,
    pub help: &'static str,
}

/// The form of an argument's value.
pub(crate) enum ArgumentForm {
    /// A file, or else standard input.
    File,
    /// Files and folders, or else standard input.
    Paths,
    /// An option without a value.
    Flag,
    /// An option with a value, which may be left out; the string is its metavariable.
    Option(&'static str),
    /// As `Option`, with the letter `o` too.
    Output(&'static str),
    /// A number from 1 to this one, without which the command line is wrong.
    Number(u16),
}

pub(crate) const FILE: &str = "FILE";

pub(crate) const PATH: &str = "PATH";

pub(crate) const RUN: &str = "run";

pub(crate) const CHECK: &str = "check";

/// Asks for JSON: answers, or a report of a trace.
pub(crate) const JSON: &str = "json";

/// The flags of a check.
pub(crate) const QUIET: &str = "quiet";

pub(crate) const TAP: &str = "tap";

pub(crate) const ALLOW_EMPTY: &str = "allow-empty";

pub(crate) const UPDATE: &str = "update";

pub(crate) const EXPLAIN: &str = "explain";

pub(crate) const TRACE: &str = "trace";

/// Asks for the events of a trace as a script.
pub(crate) const SCRIPT: &str = "script";

/// Asks for the events of a trace as Perfetto's trace events.
pub(crate) const PERFETTO: &str = "perfetto";

/// Asks for only what hangs, in a trace's script or picture.
pub(crate) const HANGS: &str = "hangs";

/// The window of a trace.
pub(crate) const FROM: &str = "from";

pub(crate) const TO: &str = "to";

/// The word for drawing a script, the flag for drawing what happened in a trace, and the option for drawing schedules.
pub(crate) const DRAW: &str = "draw";

/// The options of a drawing.
pub(crate) const GRAPH: &str = "graph";

pub(crate) const LINE: &str = "line";

pub(crate) const LINES: &str = "lines";

pub(crate) const OUTPUT: &str = "output";

/// The word for a run of clients, and the numbers that follow it.
pub(crate) const CLIENTS_WORD: &str = "clients";

pub(crate) const COUNT: &str = "N";

pub(crate) const ROUNDS_WORD: &str = "ROUNDS";

/// Asks for buffers under locks.
pub(crate) const LOCKS: &str = "locks";

/// The word for an exploration of a plan, and its options.
pub(crate) const EXPLORE: &str = "explore";

pub(crate) const STATES_OPTION: &str = "states";

pub(crate) const WITNESS: &str = "witness";

pub(crate) const ANSWERS: &str = "answers";

pub(crate) const ALL_ORDERS: &str = "all-orders";

pub(crate) const FIRST: &str = "first";

pub(crate) const PREDICT: &str = "predict";

/// The script that a subcommand runs.
const SCRIPT_FILE: Argument = Argument {
    name: FILE,
    form: ArgumentForm::File,
    help: "The script's file, or - for standard input",
};

static SUBCOMMANDS: &[Subcommand] = &[
    Subcommand {
        word: RUN,
        about: "Runs the script of a file or of standard input",
        arguments: &[
            SCRIPT_FILE,
            Argument {
                name: JSON,
                form: ArgumentForm::Flag,
                help: "Writes a JSON object for each answer, on a line of its own",
            },
        ],
    },
    Subcommand {
        word: CHECK,
        about: "Runs scripts, and checks their answers against their notes",
        arguments: &[
            Argument {
                name: PATH,
                form: ArgumentForm::Paths,
                help: "Scripts' files, folders with such files (*.fence), or - for standard input",
            },
            Argument {
                name: QUIET,
                form: ArgumentForm::Flag,
                help: "Reports only the counts, and files that can't be read",
            },
            Argument {
                name: TAP,
                form: ArgumentForm::Flag,
                help: "Writes TAP version 14 to standard output, a test for each file",
            },
            Argument {
                name: ALLOW_EMPTY,
                form: ArgumentForm::Flag,
                help: "Lets a file pass that expects nothing",
            },
            Argument {
                name: UPDATE,
                form: ArgumentForm::Flag,
                help: "Rewrites the notes, so that they expect the actual answers",
            },
        ],
    },
    Subcommand {
        word: EXPLAIN,
        about: "Runs a script, and explains on standard error why lines were refused",
        arguments: &[SCRIPT_FILE],
    },
    Subcommand {
        word: TRACE,
        about: "Reads a trace of the kernel's dma_fence events, and reports what hangs and who waits",
        arguments: &[
            Argument {
                name: FILE,
                form: ArgumentForm::File,
                help: "The trace's text, or - for standard input",
            },
            Argument {
                name: JSON,
                form: ArgumentForm::Flag,
                help: "Writes the report as one JSON document",
            },
            Argument {
                name: SCRIPT,
                form: ArgumentForm::Flag,
                help: "Writes what happened as a script instead",
            },
            Argument {
                name: DRAW,
                form: ArgumentForm::Flag,
                help: "Draws what happened as SVG instead",
            },
            Argument {
                name: PERFETTO,
                form: ArgumentForm::Flag,
                help: "Writes what happened as trace events, in JSON, for Perfetto instead",
            },
            Argument {
                name: HANGS,
                form: ArgumentForm::Flag,
                help: "Draws, or writes as a script, only what hangs, who waits for it, and a little before",
            },
            Argument {
                name: FROM,
                form: ArgumentForm::Option("SECONDS"),
                help: "Begins at this time",
            },
            Argument {
                name: TO,
                form: ArgumentForm::Option("SECONDS"),
                help: "Ends at this time",
            },
            Argument {
                name: OUTPUT,
                form: ArgumentForm::Output("FILE"),
                help: "Writes the script or the picture to this file instead of standard output",
            },
        ],
    },
    Subcommand {
        word: DRAW,
        about: "Draws a run of a script as SVG, or its end as a graph",
        arguments: &[
            SCRIPT_FILE,
            Argument {
                name: GRAPH,
                form: ArgumentForm::Flag,
                help: "Draws what waits for what at the end, as a graph in DOT",
            },
            Argument {
                name: LINE,
                form: ArgumentForm::Option("N"),
                help: "Draws the graph after line N",
            },
            Argument {
                name: LINES,
                form: ArgumentForm::Option("A..B"),
                help: "Draws only these lines",
            },
            Argument {
                name: OUTPUT,
                form: ArgumentForm::Output("PICTURE"),
                help: "Writes this file, as a whole or not at all",
            },
        ],
    },
    Subcommand {
        word: CLIENTS_WORD,
        about: "Runs clients on threads against shared buffers, and prints what they settle",
        arguments: &[
            Argument {
                name: COUNT,
                form: ArgumentForm::Number(CLIENTS as u16),
                help: "How many clients, 1 to 8",
            },
            Argument {
                name: ROUNDS_WORD,
                form: ArgumentForm::Number(ROUNDS as u16),
                help: "How many rounds each client makes, 1 to 10000",
            },
            Argument {
                name: LOCKS,
                form: ArgumentForm::Flag,
                help: "Shares buffers under locks instead of a lock-free board",
            },
        ],
    },
    Subcommand {
        word: EXPLORE,
        about: "Decides a plan of clients over every schedule, and reports what can go wrong",
        arguments: &[
            Argument {
                name: FILE,
                form: ArgumentForm::File,
                help: "The plan's file, or - for standard input",
            },
            Argument {
                name: JSON,
                form: ArgumentForm::Flag,
                help: "Writes the report as JSON, an object on each line",
            },
            Argument {
                name: STATES_OPTION,
                form: ArgumentForm::Option("N"),
                help: "Visits N states at most instead of 1,000,000",
            },
            Argument {
                name: WITNESS,
                form: ArgumentForm::Option("PREFIX"),
                help: "Writes the schedules that are shown as scripts PREFIX-1.fence, PREFIX-2.fence ..",
            },
            Argument {
                name: DRAW,
                form: ArgumentForm::Option("PREFIX"),
                help: "Draws the schedules that are shown: PREFIX-1.svg, PREFIX-2.svg ..",
            },
            Argument {
                name: ANSWERS,
                form: ArgumentForm::Flag,
                help: "Lists the answers of all lines",
            },
            Argument {
                name: ALL_ORDERS,
                form: ArgumentForm::Flag,
                help: "Follows every order of the clients, also where it makes no difference",
            },
            Argument {
                name: FIRST,
                form: ArgumentForm::Flag,
                help: "Ends at the first finding",
            },
            Argument {
                name: PREDICT,
                form: ArgumentForm::Flag,
                help: "Ends each schedule at its first wrong answer, as for plans of recorded runs",
            },
        ],
    },
];

/// The table, a row for each subcommand.
pub(crate) fn subcommands() -> &'static [Subcommand]
    ensures apps { map app_by result.now ≡ apps }
{
    SUBCOMMANDS
}
