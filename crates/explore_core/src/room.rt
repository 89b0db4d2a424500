//! Whether a plan is calm: however its clients go, no desk comes near the limit of files, at which the order of two lines matters.
//! `is_calm` counts the lines that make a file. Each is made once at most, since no client goes back to a line above.
ghost use Rattle.std.specs.Prelude.{◌≡◌, ◌+◌, ◌≤◌, true, Vec, All, IfSome};
ghost use Rattle.std.specs.Global.{Global};
ghost use Rattle.std.specs.List.{sum_by};
ghost use Rattle.syncfile_core.specs.declared.files.TheConstants.{FILES};
ghost use Rattle.explore_core.specs.declared.plan.Step.{Step as Line};
ghost use Rattle.explore_core.specs.Found.{CanBeExplored};
ghost use Rattle.explore_core.specs.Persistent.{IsCalm};
ghost use Rattle.explore_core.specs.Room.{files_by, files_by_lines, files_by_plan, LeadForward, LeadsForward};
ghost use Rattle.explore_core.specs.Schedule.{beginning};

use crate::plan::{Plan, Step};
use command_core::Command;
use syncfile_core::FILES;

/// How many files there must be room for at each standing: two independent lines make two files at most.
const SPARE_FILES: usize = 2;

const _: () = prove!(SPARE_FILES == 2);

/// Whether each desk has room for `SPARE_FILES` more files along every schedule. A plan in which a client goes back to a line above
/// isn't calm.
pub(crate) fn is_calm(plan: &Plan) -> bool
    requires explorable { CanBeExplored plan.now }
    ensures calm { result ≡ true → IsCalm plan.now (beginning plan.now) }
{
    has_room(plan) && clients_lead_forward(plan.clients.as_slice())
}

fn clients_lead_forward(clients: &[Vec<Step>]) -> bool
    ensures { result ≡ true → All (λ (lines : Vec Line Global). LeadForward lines.items) clients.now }
{
    for lines in clients {
        if !lines_lead_forward(lines.as_slice()) {
            return false;
        }
    }
    true
}

fn lines_lead_forward(lines: &[Step]) -> bool
    ensures { result ≡ true → LeadForward lines.now }
{
    for (place, line) in lines.iter().enumerate() {
        if !leads_forward(line, place) {
            return false;
        }
    }
    true
}

/// Whether a client goes from the line at that place to a line below.
pub(crate) fn leads_forward(line: &Step, place: usize) -> bool
    ensures { result ≡ true → LeadsForward place line.now }
{
    match &line.branch {
        Some(branch) => place < branch.otherwise,
        None => true,
    }
}

/// Whether there is room for `SPARE_FILES` more files once all lines of the plan were made.
fn has_room(plan: &Plan) -> bool
    ensures { result ≡ true → files_by_plan plan.now + SPARE_FILES ≤ FILES }
{
    room_after(plan).is_some()
}

/// The room for files once all lines of the plan were made, besides the spare room.
fn room_after(plan: &Plan) -> Option<usize>
    ensures { IfSome result (λ room. room + files_by_plan plan.now + SPARE_FILES ≡ FILES) }
{
    let room = room_after_commands(FILES - SPARE_FILES, plan.first.as_slice())?;
    room_after_clients(room, plan.clients.as_slice())
}

fn room_after_clients(room: usize, clients: &[Vec<Step>]) -> Option<usize>
    ensures { IfSome result (λ left. left + sum_by (λ (lines : Vec Line Global). files_by_lines lines.items) clients.now ≡ room) }
{
    let mut left = room;
    for lines in clients {
        left = room_after_lines(left, lines.as_slice())?;
    }
    Some(left)
}

fn room_after_lines(room: usize, lines: &[Step]) -> Option<usize>
    ensures { IfSome result (λ left. left + files_by_lines lines.now ≡ room) }
{
    let mut left = room;
    for line in lines {
        left = left.checked_sub(files_by(&line.command))?;
    }
    Some(left)
}

fn room_after_commands(room: usize, commands: &[Command]) -> Option<usize>
    ensures { IfSome result (λ left. left + sum_by files_by commands.now ≡ room) }
{
    let mut left = room;
    for command in commands {
        left = left.checked_sub(files_by(command))?;
    }
    Some(left)
}

/// How many files the command makes if it is accepted.
fn files_by(command: &Command) -> usize
    ensures { result ≡ files_by command.now }
{
    match command {
        Command::Fence(_, _, _) => 1,
        Command::Merge(_, _, _) => 1,
        Command::Export(_, _, _) => 1,
        _ => 0,
    }
}
