//! Blocks: lines of a client that are one step. While a client is inside a block, no other goes. A search asks at each state who may go,
//! and follows a choice of clients only where nobody is inside a block.
ghost use Rattle.std.specs.Prelude.{◌≡◌, ℕ, true, false, Vec, All};
ghost use Rattle.std.specs.Global.{Global};
ghost use Rattle.std.specs.List.{list_all};
ghost use Rattle.explore_core.specs.declared.plan.Step.{Step as Line};
ghost use Rattle.explore_core.specs.Blocks.{ArePrompt, NeverWaits, is_prompt};
ghost use Rattle.explore_core.specs.Schedule.{MayGo, is_in_block};

use crate::plan::{Plan, Step};
use crate::position::line_at;
use crate::progress::place_of;

/// Whether the client is inside a block, where each client has made or skipped that many lines.
pub(crate) fn is_in_block(plan: &Plan, made: &[usize], client: usize) -> bool
    ensures { result ≡ is_in_block plan.now made.now client }
{
    let Some(step) = line_at(plan, client, place_of(made, client)) else {
        return false;
    };
    step.joined
}

/// Whether no other client is inside a block.
pub(crate) fn may_go(plan: &Plan, made: &[usize], client: usize) -> bool
    ensures may { result ≡ true → MayGo plan.now made.now client }
    ensures not { result ≡ false → MayGo plan.now made.now client → ⊥ }
{
    for other in 0..plan.clients.len() {
        if other != client && is_in_block(plan, made, other) {
            return false;
        }
    }
    true
}

/// Whether no client is inside a block.
pub(crate) fn are_outside(plan: &Plan, made: &[usize]) -> bool
    ensures outside { result ≡ true → (client : ℕ) → is_in_block plan.now made.now client ≡ false }
{
    for client in 0..plan.clients.len() {
        if is_in_block(plan, made, client) {
            return false;
        }
    }
    true
}

/// Whether no client waits inside a block.
pub(crate) fn never_waits(plan: &Plan) -> bool
    ensures { result ≡ true → NeverWaits plan.now }
{
    clients_are_prompt(plan.clients.as_slice())
}

fn clients_are_prompt(clients: &[Vec<Step>]) -> bool
    ensures { result ≡ true → All (λ (lines : Vec Line Global). ArePrompt lines.items) clients.now }
{
    for lines in clients {
        if !lines_are_prompt(lines.as_slice()) {
            return false;
        }
    }
    true
}

fn lines_are_prompt(lines: &[Step]) -> bool
    ensures { result ≡ list_all is_prompt lines.now }
{
    lines.iter().all(|line| is_prompt(line))
}

/// Whether the client never waits with the line, if it is inside a block.
fn is_prompt(line: &Step) -> bool
    ensures { result ≡ is_prompt line.now }
{
    !line.joined || (!line.waits && line.after.is_none())
}
