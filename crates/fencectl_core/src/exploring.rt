//! `fencectl explore`: decides a plan, and writes what is found, and the schedules that are shown.
ghost use Rattle.explore_core.specs.Found.{CanBeExplored};

use crate::action::Explore;
use crate::drawing::{report_mistake, script_of, svg_of, write_output};
use crate::fault::FAULT;
use crate::no_plan::report_no_plan;
use crate::progress::Progress;
use crate::status::{ACCEPTED, REFUSED};
use explore_core::{Found, Orders, STATES, Search};
use explore_report::{News, Outcome, PlanScript, Purpose, Reading, Report, Wanted};
use point_core::Refusal;
use source_core::{Input, STANDARD_INPUT, reported};
use std::fs::File;
use std::io;
use std::io::Write;

const WRONG_STATES: &str = "fencectl: --states takes a number from 1";

/// Decides a plan over every schedule, and writes what is found to standard output, and schedules to files if `--witness` asks
/// for them. Gives the status: 1 if something was found, and 2 if not every schedule was covered, unless the first finding was all that
/// was wanted. A script that is no plan, and options that don't fit, are reported, with the status of a fault.
pub(crate) fn explore(rt: &HostRuntime, asked: &Explore<'_>) -> Result<u8, Refusal> {
    let Some(bound) = bound_of(asked.states) else {
        return report_mistake(rt, WRONG_STATES);
    };
    let script = script_of(rt, asked.script)?;
    explore_script(rt, asked, bound, script.as_slice())
}

/// How many states are visited at most.
fn bound_of(states: Option<&str>) -> Option<usize> {
    let Some(states) = states else {
        return Some(STATES);
    };
    match states.parse() {
        Ok(0) => None,
        Ok(bound) => Some(bound),
        Err(_) => None,
    }
}

// `explore` owns the text, `explore_script` the plan, and `explore_plan` the search, and each lends it to the next: proofs about
// owned memory are expensive.

fn explore_script(
    rt: &HostRuntime,
    asked: &Explore<'_>,
    bound: usize,
    script: &[u8],
) -> Result<u8, Refusal> {
    match PlanScript::read(rt.alloc(), script, purpose_of(asked))? {
        Reading::Plan(plan) => explore_plan(rt, asked, bound, &plan),
        Reading::NoPlan(mistake) => report_no_plan(rt, name_of(asked), script, &mistake),
    }
}

fn explore_plan(
    rt: &HostRuntime,
    asked: &Explore<'_>,
    bound: usize,
    plan: &PlanScript<'_>,
) -> Result<u8, Refusal>
    requires explorable { CanBeExplored plan.now.plan }
{
    let mut search = plan.search(rt.alloc(), orders_of(asked), bound)?;
    follow(rt, asked, plan, &mut search)?;
    let mut found = search.into_found();
    match purpose_of(asked) {
        Purpose::Decide => plan.shorten(rt.alloc(), &mut found),
        Purpose::Predict => plan.bring_near(rt.alloc(), &mut found),
    }
    let report = Report::of(rt.alloc(), plan, &found, wanted_of(asked))?;
    write_report(rt, asked, &report)
}

/// Searches level by level, to the first finding if no more is asked for, and says at a terminal how far it has come.
fn follow(
    rt: &HostRuntime,
    asked: &Explore<'_>,
    plan: &PlanScript<'_>,
    search: &mut Search<'_>,
) -> Result<(), Refusal> {
    let mut news = News::new(rt.alloc(), plan);
    let mut progress = Progress::begin(rt);
    for _ in 0..usize::MAX {
        if !search.next_level() || has_ended(rt, asked, search.found(), &mut news, &mut progress)? {
            break;
        }
    }
    progress.end(rt);
    Ok(())
}

/// Whether what was found up to a level is enough. Also reports at a terminal what is new, if it is time.
fn has_ended(
    rt: &HostRuntime,
    asked: &Explore<'_>,
    found: &Found,
    news: &mut News<'_>,
    progress: &mut Progress,
) -> Result<bool, Refusal> {
    let due = progress.due(rt);
    if !asked.is_first && due.is_none() {
        return Ok(false);
    }
    let text = news.look(name_of(asked), found)?;
    if let Some(passed) = due {
        progress.tell(rt, passed, text.as_slice(), news.findings(), found);
    }
    Ok(asked.is_first && news.findings() > 0)
}

fn purpose_of(asked: &Explore<'_>) -> Purpose {
    if asked.predicts {
        Purpose::Predict
    } else {
        Purpose::Decide
    }
}

/// The orders of the clients that are followed.
fn orders_of(asked: &Explore<'_>) -> Orders {
    if asked.all_orders {
        Orders::All
    } else {
        Orders::Enough
    }
}

fn wanted_of(asked: &Explore<'_>) -> Wanted {
    if asked.is_first {
        Wanted::First
    } else {
        Wanted::All
    }
}

/// Writes the report, and then the schedules, so that a file in their place doesn't cost the report.
fn write_report(rt: &HostRuntime, asked: &Explore<'_>, report: &Report<'_>) -> Result<u8, Refusal> {
    let document = if asked.is_json {
        report.json()?
    } else {
        report.text(name_of(asked), asked.answers)?
    };
    let status = write_output(rt, document.as_slice(), status_of(report.outcome()))?;
    let are_written = write_schedules(rt, asked, report)?;
    Ok(if are_written { status } else { FAULT })
}

/// Writes each schedule to files of its own, as asked. Returns whether all are written: it stops at a file that exists, which is
/// reported and kept.
fn write_schedules(
    rt: &HostRuntime,
    asked: &Explore<'_>,
    report: &Report<'_>,
) -> Result<bool, Refusal> {
    if asked.witness.is_none() && asked.draw.is_none() {
        return Ok(true);
    }
    for number in 1..usize::MAX {
        let Some(script) = report.script(number)? else {
            break;
        };
        if !write_schedule(rt, asked, number, script.as_slice())? {
            return Ok(false);
        }
    }
    Ok(true)
}

/// Writes schedule `number` as a script, and as a picture, as asked. Returns whether the files are written.
fn write_schedule(
    rt: &HostRuntime,
    asked: &Explore<'_>,
    number: usize,
    script: &[u8],
) -> Result<bool, Refusal> {
    if let Some(prefix) = asked.witness {
        let name = format!(in rt.alloc(); "{prefix}-{number}.fence")?;
        if !write_new(rt, name.as_str(), script) {
            return Ok(false);
        }
    }
    let Some(prefix) = asked.draw else {
        return Ok(true);
    };
    let name = format!(in rt.alloc(); "{prefix}-{number}.svg")?;
    let picture = svg_of(rt, script)?;
    Ok(write_new(rt, name.as_str(), picture.as_slice()))
}

fn write_new(rt: &HostRuntime, name: &str, bytes: &[u8]) -> bool {
    reported(rt, name, make(rt, name, bytes)).is_ok()
}

fn make(rt: &HostRuntime, name: &str, bytes: &[u8]) -> io::Result<()> {
    let mut file = File::create_new(rt, name)?;
    file.write_all(bytes)
}

/// The name of the plan's file.
fn name_of<'a>(asked: &Explore<'a>) -> &'a str {
    match asked.script {
        Input::File(name) => name,
        Input::StandardInput => STANDARD_INPUT,
    }
}

fn status_of(outcome: Outcome) -> u8 {
    match outcome {
        Outcome::Clean => ACCEPTED,
        Outcome::Findings => REFUSED,
        Outcome::NotCovered => FAULT,
    }
}
