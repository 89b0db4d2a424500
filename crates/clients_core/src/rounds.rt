//! `plans_of_rounds`: the plans of clients that do the same acts in each of many rounds. `check_plans` accepts them.
//! `fencectl clients` runs them.
ghost use Rattle.std.specs.Prelude.{◌≡◌, ◌+◌, ◌<◌, ◌≤◌, None, IfErr, IfOk};
ghost use Rattle.point_core.specs.declared.refusal.Refusal.TheVariants as refusal;
ghost use Rattle.clients_core.specs.Plans.{cause_to_refuse_plans, settled_of};
ghost use Rattle.clients_core.specs.Rounds.{client_round, next_client, plans_of_rounds, settled_of_rounds};

use crate::plans::CLIENTS;
use point_core::{Context, Point, Refusal, Usage};
use resv_core::{Act, Plan};
use std::alloc::Global;

/// Limit of rounds of a run.
pub const ROUNDS: u64 = 10_000;

const _: () = prove!(ROUNDS == 10_000);

/// How many buffers the clients of rounds share.
pub const ROUND_BUFFERS: usize = 2;

const _: () = prove!(ROUND_BUFFERS == 2);

/// How many acts a round has.
pub const ROUND_ACTS: usize = 4;

const _: () = prove!(ROUND_ACTS == 4);

/// The buffer that all clients write to, and look at.
const WRITTEN: usize = 0;

/// The buffer in which each client reads what the next one makes.
const READ: usize = 1;

/// How far apart the points are that a client writes in two rounds.
const WRITTEN_APART: u64 = 2;

/// How far apart the points are that it reads.
const READ_APART: u64 = 3;

/// The plans of clients that do the same in every round. In round r, from 1, a client puts point 2 r of its own
/// timeline into buffer 0 for writing, advances its timeline by 1, puts point 3 r of the next client's timeline into
/// buffer 1 for reading, and looks at buffer 0 for reading. The first client comes next to the last.
///
/// Fails only with `Memory`. `run_clients` refuses none of these plans before its threads start.
pub fn plans_of_rounds(alloc: Global, clients: usize, rounds: u64) -> Result<Vec<Plan>, Refusal>
    requires clients { (1 ≤ clients) × (clients ≤ CLIENTS) }
    requires rounds { rounds ≤ ROUNDS }
    ensures plans { IfOk result (λ plans. plans.items ≡ plans_of_rounds clients rounds) }
    ensures accepted { IfOk result (λ plans. cause_to_refuse_plans ROUND_BUFFERS plans.items ≡ None) }
    ensures settled { IfOk result (λ plans.
        1 ≤ rounds → settled_of ROUND_BUFFERS plans.items ≡ settled_of_rounds clients rounds) }
    ensures memory { IfErr result (λ e. e ≡ refusal.Memory) }
{
    let mut plans = Vec::with_capacity(alloc, clients)?;
    for index in 0..clients {
        let next = place_after(index, clients);
        let acts = client_round(Context::at(index), Context::at(next));
        let acts = Vec::from_slice(alloc, &acts)?;
        plans.push_reserved(Plan::repeated(acts, rounds as u32)?);
    }
    Ok(plans)
}

/// A client's acts in each round.
fn client_round(client: Context, next: Context) -> [Act; ROUND_ACTS]
    ensures acts { result ≡ client_round client next }
{
    let written = Point {
        ctx: client,
        value: WRITTEN_APART,
    };
    let read = Point {
        ctx: next,
        value: READ_APART,
    };
    [
        Act::Put(WRITTEN, written, Usage::Write),
        Act::Inc(1),
        Act::Put(READ, read, Usage::Read),
        Act::Look(WRITTEN, Usage::Read),
    ]
}

/// The index of the client after the one at `place`; the first client follows the last.
fn place_after(place: usize, clients: usize) -> usize
    requires place { place < clients }
    ensures next { result + 1 ≡ next_client clients (place + 1) }
    ensures within { result < clients }
{
    if place + 1 == clients { 0 } else { place + 1 }
}
