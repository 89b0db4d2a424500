//! The command line as clap reads it, with the help text. `subcommands.rt` has its table.
ghost use Rattle.std.specs.Prelude.{◌≡◌, IfErr, IfOk, false, map, pos, string_bytes, true};
ghost use Rattle.clap.specs.declared.builder.value_parser.ValueParser.TheVariants as parser;
ghost use Rattle.clap.specs.Words.{FailsBy, fault_of, kind_of, rule_of, subcommand_of, subcommand_rows_of, takes};
ghost use Rattle.fencectl_core.specs.Words.{IsApp, app_by, fencectl, program_app, rule_by};

use crate::subcommands::{Argument, ArgumentForm, Subcommand, subcommands};
use clap::builder::ValueParser;
use clap::error::ErrorKind;
use clap::{Arg, ArgAction, ArgMatches, Command, Error, value_parser};
use source_core::STANDARD_INPUT;
use std::alloc::{AllocError, Global};

const PROGRAM: &str = "fencectl";

/// The letter of the option that names a file to write.
const OUTPUT_LETTER: char = 'o';

const ABOUT: &str = "Runs, checks, explains, draws and explores scripts of GPU fence commands";

/// The version, and the logic in which the program is proved: kits of one logic prove the same.
const VERSION: &str = "0.1.0 (proved in Rattle's logic dac8208d650f15bf)";

const HELP: &str = "\
A script is read from standard input or from FILE, one command a line; a line that begins with # is
a note. A single word that is no subcommand is a FILE to run. At a terminal each line is prompted
for, and a refused line is explained; `help` lists the commands there, and `quit` leaves.

Options of every command:
  --color <WHEN>  Colours help, checks and explanations: auto, always or never [default: auto]

Script commands:
  timeline T         makes timeline T at value 0             ok CONTEXT
  inc T N            adds N to the value of timeline T       ok VALUE, then fired COOKIE lines
  value T            reads the value of timeline T           ok VALUE
  shut T             closes timeline T for good              ok VALUE, then fired COOKIE lines
  fence F T P        makes file F of point P on timeline T   ok
  merge F A B        makes file F of files A and B           ok
  close F            closes file F; its name is free again   ok
  wait F             one check: is file F signalled?         ok
  info F             what file F waits for                   ok F STATUS COUNT, then COUNT fence lines
  buffer B           makes buffer B                          ok
  add B T P U        adds point P on T to B, for usage U     ok
  import B F FLAGS   adds the fences of file F to buffer B   ok
  export F B FLAGS   makes file F of what B waits for        ok
  test B U           are B's fences up to usage U reached?   ok 1 or ok 0
  trim B             drops needless fences from buffer B     ok
  watch F COOKIE     reports COOKIE once F is signalled      ok
  unwatch COOKIE     removes that watch                      ok 1 or ok 0
  show B             what is pending in buffer B             ok N, then N rows
  report             everything                              ok N, then N rows

U is kernel, write, read or bookkeep; FLAGS is read, write or rw.

A name has 1 to 31 letters, digits, _, . or -; a number has 1 to 20 digits. There can be 256
timelines, 64 buffers, 1,024 files and 4,096 watches, lines of 256 bytes, and scripts of 1,048,576
bytes.

A refused line is answered `err NUMBER NAME`, and changes nothing:
  1 Syntax    it is no command               7 Signalled  the file is signalled already
  2 NoEntry   no object has that name        8 TimedOut   the file is not signalled
  3 Exists    an object has that name       12 LongLine   it has more than 256 bytes
  4 Overflow  the value would be too great  15 Cancelled  its timeline is closed
  6 Limit     a limit is reached            16 Memory     memory was refused

The script language is documented in the manual page fencectl-script(5). The documents that are
named below are in share/doc/bimphlai.

After a command a note `#= TEXT` expects TEXT as a line of its answer. `fencectl check` compares
these in files and in the *.fence files below folders, and reports each answer that differs on
standard error; a note that is nearly `#=`, as `# = TEXT`, is a slip, and reported too. `fencectl
explain` reports there which word of a refused line is at fault, and why, and what a `wait` waits
for. `fencectl draw` writes a picture of a run as SVG, which SCRIPT.md explains, and with --graph
what waits for what as Graphviz DOT.

`fencectl trace` reads the text of ftrace's dma_fence events, as tracefs, trace-cmd or perf print
them, and reports which fences were never signalled, who waits for them, and what each timeline did;
RUN.md says how to record one. With --script it writes what happened as a script, with --draw it
draws that, with --hangs only what hangs, and with --perfetto it writes it as trace events, in JSON,
which Perfetto and chrome://tracing open; --from and --to, in seconds, choose a window.

Clients run on threads, each with a timeline of its own, and share two buffers; LIBRARY.md says what
they do. What they settle is the same in every run: a row for each timeline, and for each buffer the
points that are pending.

`fencectl run --json` writes a JSON object for each answer, on a line of its own.

`fencectl explore` reads a plan, a script whose notes `#client NAME` begin the lines of a client.
It decides the plan over every schedule of the clients: whether it can get stuck, what each line can
be answered, and whether clients race for a buffer.

Exit status:
  0  every line was accepted; of a check: every script passes; of clients: they settled;
     of a report of a trace: nothing hangs, and no rule is broken; of a plan: nothing is found
  1  a line was refused; of a check: an answer differs, a note is a slip, or a script expects
     nothing; of a report of a trace: a fence hangs, or a rule is broken; of a plan: something is
     found
  2  wrong usage, or a fault of reading, writing, memory or threads; of a check: a script can't be
     read or updated, or is too long; with --tap these are tests that fail, and the status is 0 once
     all tests are written; of a drawing: its options don't fit, or a long script lacks
     --lines; of a trace: no event, or too many; of a plan: it is none, it has too many states, or
     a schedule's file exists already

Examples, in share/doc/bimphlai:
  printf 'timeline gpu\\nfence frame gpu 5\\ninfo frame\\n' | fencectl
  fencectl examples/merge.fence
  fencectl check examples
  fencectl draw --output first.svg examples/first.fence
  fencectl clients 2 3
  fencectl explore examples/plans/compositor.plan
";

/// What every command takes besides its own options. `HELP` says it too.
const EVERY_COMMAND: &str = "\
Options of every command:
  --color <WHEN>  Colours help, checks and explanations: auto, always or never [default: auto]
";

/// Parses the words of the command line; the first is the program's name. A failed allocation is an error of its own kind.
pub(crate) fn matches_of<'a>(alloc: Global, words: &'a [String]) -> Result<ArgMatches<'a>, Error>
    ensures matches { IfOk result (λ matches. subcommand_rows_of matches
        ≡ subcommand_of fencectl (map string_bytes words.entry.now)) }
    ensures taken { IfErr result (λ error. takes fencectl (map string_bytes words.entry.now) ≡ true
        → kind_of error ≡ ErrorKind.OutOfMemory) }
    ensures kinds { FailsBy (fault_of fencectl (map string_bytes words.entry.now)) result }
{
    let command = command(alloc)?;
    command.try_get_matches_from(words)
}

/// The program's command line: nothing, to run the script of standard input, or one of the subcommands.
fn command<'a>(alloc: Global) -> Result<Command<'a>, AllocError>
    ensures { IfOk result (IsApp fencectl) }
{
    let mut command = program(alloc)?;
    for form in subcommands() {
        command = command.subcommand(subcommand(alloc, form)?)?;
    }
    Ok(command)
}

/// The program without its subcommands.
fn program<'a>(alloc: Global) -> Result<Command<'a>, AllocError>
    ensures { IfOk result (IsApp program_app) }
{
    let command = Command::new(alloc, PROGRAM)
        .version(VERSION)
        .about(ABOUT)
        .after_help(help())
        .subcommand_help_heading("Subcommands");
    command.bin_name(PROGRAM)
}

/// The help text after the options, which the prompt shows in parts.
pub(crate) fn help() -> &'static str {
    HELP
}

/// The help text after a subcommand's options.
fn subcommand_help() -> &'static str {
    EVERY_COMMAND
}

/// A subcommand with its arguments.
fn subcommand<'a>(alloc: Global, form: &Subcommand) -> Result<Command<'a>, AllocError>
    ensures { IfOk result (IsApp (app_by form.now)) }
{
    let mut command = Command::new(alloc, form.word)
        .about(form.about)
        .after_help(subcommand_help());
    for argument in form.arguments {
        command = command.arg(argument_of(alloc, argument))?;
    }
    Ok(command)
}

/// An argument as clap reads it.
fn argument_of<'a>(alloc: Global, argument: &Argument) -> Arg<'a>
    ensures rule { rule_of result ≡ rule_by argument.now }
    ensures local { result.global ≡ false }
{
    let arg = Arg::new(alloc, argument.name).help(argument.help);
    match argument.form {
        ArgumentForm::File => arg.default_value(STANDARD_INPUT),
        ArgumentForm::Paths => arg.action(ArgAction::Append).default_value(STANDARD_INPUT),
        ArgumentForm::Flag => arg.long(argument.name).action(ArgAction::SetTrue),
        ArgumentForm::Option(value) => arg
            .long(argument.name)
            .action(ArgAction::Set)
            .value_name(value),
        ArgumentForm::Output(value) => arg
            .long(argument.name)
            .short(OUTPUT_LETTER)
            .action(ArgAction::Set)
            .value_name(value),
        ArgumentForm::Number(most) => arg.required(true).value_parser(up_to(most)),
    }
}

/// Takes numbers from 1 to this one.
fn up_to<'a>(most: u16) -> ValueParser<'a>
    ensures { result ≡ parser.Signed (pos 1) (pos most) }
{
    value_parser!(u16).range(1..=i64::from(most))
}
