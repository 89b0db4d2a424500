//! Converts clap's matches to an `Action`. `specs/Asked.antt` defines the action of each command line.
ghost use Rattle.std.specs.Prelude.{◌≡◌, ◌≤◌, IfErr, IfOk, Some, codes, map, option_map, true};
ghost use Rattle.std.specs.Str.{bytes_eq};
ghost use Rattle.point_core.specs.declared.refusal.Refusal.TheVariants.{Memory};
ghost use Rattle.clap.specs.Words.{all_of, found_of, first_of, one_of, rows_of, subcommand_rows_of};
ghost use Rattle.source_core.specs.Input.{file_named, file_of};
ghost use Rattle.fencectl_core.specs.Asked.{
  IsAskedFault,
  IsRangeFault,
  asks_clients,
  asked_after,
  asked_by,
  asked_of,
  asked_of_check,
  asked_of_draw,
  asked_of_explore,
  asked_of_trace,
  asked_on,
  check_after,
  check_or_update,
  draw_after,
  explore_after,
  flag_named,
  number_named,
  paths_named,
  report_named,
  run_or_json,
  table_named,
  trace_after,
};

use crate::action::{Action, Check, CheckReport, Clients, Draw, Explore, Table, Trace};
use crate::subcommands::{
    ALL_ORDERS, ALLOW_EMPTY, ANSWERS, CHECK, CLIENTS_WORD, COUNT, DRAW, EXPLAIN, EXPLORE, FILE,
    FIRST, FROM, GRAPH, HANGS, JSON, LINE, LINES, LOCKS, OUTPUT, PATH, PERFETTO, PREDICT, QUIET,
    ROUNDS_WORD, SCRIPT, STATES_OPTION, TAP, TO, TRACE, UPDATE, WITNESS,
};
use clap::ArgMatches;
use clients_core::{CLIENTS, ROUNDS};
use point_core::{LimitKind, Refusal};
use source_core::Input;
use std::alloc::Global;

/// The action that clap's matches ask for.
///
/// Fails with `Limit` of the clients or of the plan if one of their numbers is not in its range, which the command line
/// refuses earlier.
pub(crate) fn action_by<'a>(alloc: Global, matches: &ArgMatches<'a>) -> Result<Action<'a>, Refusal>
    ensures asked { IfOk result (λ action. asked_of action ≡ Some (asked_by (subcommand_rows_of matches.now))) }
    ensures refusals { IfErr result (IsAskedFault (asks_clients (subcommand_rows_of matches.now))) }
{
    match matches.subcommand() {
        Some((word, matches)) => action_after(alloc, word, matches),
        None => Ok(Action::Run(Input::StandardInput)),
    }
}

/// The action of the subcommand `word` with these matches.
fn action_after<'a>(
    alloc: Global,
    word: &str,
    matches: &ArgMatches<'a>,
) -> Result<Action<'a>, Refusal>
    ensures asked { IfOk result (λ action. asked_of action
        ≡ Some (asked_after word.now (rows_of (found_of matches.now)))) }
    ensures refusals { IfErr result (IsAskedFault (bytes_eq word.now (codes "clients"))) }
{
    if word == CLIENTS_WORD {
        return Ok(Action::Clients(clients_of(matches)?));
    }
    if word == CHECK {
        return check_action(alloc, matches);
    }
    if word == TRACE {
        return Ok(Action::Trace(trace_of(matches)));
    }
    if word == DRAW {
        return Ok(Action::Draw(draw_of(matches)));
    }
    if word == EXPLORE {
        return Ok(Action::Explore(explore_of(matches)));
    }
    Ok(action_on(word, matches))
}

fn check_action<'a>(alloc: Global, matches: &ArgMatches<'a>) -> Result<Action<'a>, Refusal>
    ensures asked { IfOk result (λ action. asked_of action
        ≡ Some (check_or_update (rows_of (found_of matches.now)))) }
    ensures refusals { IfErr result (λ refusal. refusal ≡ Memory) }
{
    if has_flag(matches, UPDATE) {
        Ok(Action::Update(paths_of(alloc, matches)?))
    } else {
        Ok(Action::Check(check_of(alloc, matches)?))
    }
}

/// The action of `explain` or `run`.
fn action_on<'a>(word: &str, matches: &ArgMatches<'a>) -> Action<'a>
    ensures asked { asked_of result ≡ Some (asked_on word.now (rows_of (found_of matches.now))) }
{
    if word == EXPLAIN {
        Action::Explain(script_of(matches))
    } else {
        run_action(matches)
    }
}

fn run_action<'a>(matches: &ArgMatches<'a>) -> Action<'a>
    ensures asked { asked_of result ≡ Some (run_or_json (rows_of (found_of matches.now))) }
{
    if has_flag(matches, JSON) {
        Action::Json(script_of(matches))
    } else {
        Action::Run(script_of(matches))
    }
}

fn trace_of<'a>(matches: &ArgMatches<'a>) -> Trace<'a>
    ensures asked { asked_of_trace result ≡ trace_after (rows_of (found_of matches.now)) }
{
    Trace {
        text: script_of(matches),
        is_json: has_flag(matches, JSON),
        is_script: has_flag(matches, SCRIPT),
        is_drawing: has_flag(matches, DRAW),
        is_perfetto: has_flag(matches, PERFETTO),
        is_hanging: has_flag(matches, HANGS),
        from: text_of(matches, FROM),
        to: text_of(matches, TO),
        output: text_of(matches, OUTPUT),
    }
}

fn script_of<'a>(matches: &ArgMatches<'a>) -> Input<'a>
    ensures { file_of result ≡ file_named (first_of (codes "FILE") (rows_of (found_of matches.now))) }
{
    match matches.get_str(FILE) {
        Some(name) => Input::named(name),
        None => Input::StandardInput,
    }
}

fn draw_of<'a>(matches: &ArgMatches<'a>) -> Draw<'a>
    ensures asked { asked_of_draw result ≡ draw_after (rows_of (found_of matches.now)) }
{
    Draw {
        script: script_of(matches),
        graph: has_flag(matches, GRAPH),
        line: text_of(matches, LINE),
        lines: text_of(matches, LINES),
        output: text_of(matches, OUTPUT),
    }
}

fn explore_of<'a>(matches: &ArgMatches<'a>) -> Explore<'a>
    ensures asked { asked_of_explore result ≡ explore_after (rows_of (found_of matches.now)) }
{
    Explore {
        script: script_of(matches),
        is_json: has_flag(matches, JSON),
        states: text_of(matches, STATES_OPTION),
        witness: text_of(matches, WITNESS),
        draw: text_of(matches, DRAW),
        answers: has_flag(matches, ANSWERS),
        all_orders: has_flag(matches, ALL_ORDERS),
        is_first: has_flag(matches, FIRST),
        predicts: has_flag(matches, PREDICT),
    }
}

/// The text of the option or operand `name`.
fn text_of<'a>(matches: &ArgMatches<'a>, name: &str) -> Option<&'a str>
    ensures { option_map (λ t. t.now) result ≡ first_of name.now (rows_of (found_of matches.now)) }
{
    matches.get_str(name)
}

fn check_of<'a>(alloc: Global, matches: &ArgMatches<'a>) -> Result<Check<'a>, Refusal>
    ensures asked { IfOk result (λ check. asked_of_check check ≡ check_after (rows_of (found_of matches.now))) }
    ensures refusals { IfErr result (λ refusal. refusal ≡ Memory) }
{
    Ok(Check {
        paths: paths_of(alloc, matches)?,
        report: report_of(matches),
        allows_empty: has_flag(matches, ALLOW_EMPTY),
    })
}

fn paths_of<'a>(alloc: Global, matches: &ArgMatches<'a>) -> Result<Vec<&'a str>, Refusal>
    ensures paths { IfOk result (λ paths. map (λ p. p.now) paths.items
        ≡ paths_named (all_of (codes "PATH") (rows_of (found_of matches.now)))) }
    ensures refusals { IfErr result (λ refusal. refusal ≡ Memory) }
{
    match matches.get_strs(PATH) {
        Some(paths) => Ok(Vec::from_slice(alloc, paths)?),
        None => Ok(Vec::new(alloc)),
    }
}

fn report_of(matches: &ArgMatches<'_>) -> CheckReport
    ensures { result ≡ report_named (rows_of (found_of matches.now)) }
{
    if has_flag(matches, TAP) {
        CheckReport::Tap
    } else if has_flag(matches, QUIET) {
        CheckReport::Counts
    } else {
        CheckReport::All
    }
}

fn has_flag(matches: &ArgMatches<'_>, name: &str) -> bool
    ensures { result ≡ flag_named (one_of name.now (rows_of (found_of matches.now))) }
{
    matches.get_one(name).unwrap_or(false)
}

fn clients_of(matches: &ArgMatches<'_>) -> Result<Clients, Refusal>
    ensures count { IfOk result (λ clients. clients.count
        ≡ number_named (one_of (codes "N") (rows_of (found_of matches.now)))) }
    ensures rounds { IfOk result (λ clients. clients.rounds
        ≡ number_named (one_of (codes "ROUNDS") (rows_of (found_of matches.now)))) }
    ensures table { IfOk result (λ clients. clients.table ≡ table_named (rows_of (found_of matches.now))) }
    ensures refusals { IfErr result IsRangeFault }
{
    let count = usize::from(number_of(matches, COUNT));
    if !(1..=CLIENTS).contains(&count) {
        return Err(Refusal::Limit(LimitKind::Clients));
    }
    let rounds = u64::from(number_of(matches, ROUNDS_WORD));
    if !(1..=ROUNDS).contains(&rounds) {
        return Err(Refusal::Limit(LimitKind::Plan));
    }
    Ok(Clients {
        count,
        rounds,
        table: table_of(matches),
    })
}

/// The number of the option or operand `name`, or 0 if there is none.
fn number_of(matches: &ArgMatches<'_>, name: &str) -> u16
    ensures { 1 ≤ result → result ≡ number_named (one_of name.now (rows_of (found_of matches.now))) }
{
    matches.get_one(name).unwrap_or(0)
}

fn table_of(matches: &ArgMatches<'_>) -> Table
    ensures { result ≡ table_named (rows_of (found_of matches.now)) }
{
    if has_flag(matches, LOCKS) {
        Table::Locks
    } else {
        Table::Board
    }
}
