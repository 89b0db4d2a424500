//! `work_all`: runs the first plan on the calling thread and each other plan on a thread of its own. Every worker gives
//! back both of its seats, as its `Loan` promises, so all parts are there again at the end. `run_clients` calls it.
ghost use Rattle.std.specs.Prelude.{◌≡◌, ◌+◌, ◌*◌, ◌^◌, ◌<◌, ◌≤◌, [], length, All, IfErr, IfOk, OnOk, vec_len, vec_capacity};
ghost use Rattle.point_core.specs.declared.refusal.Refusal.TheVariants as refusal;
ghost use Rattle.words_core.specs.theorem.Seat.{both_of};
ghost use Rattle.point_core.specs.declared.context.TheConstants.{CONTEXTS};
ghost use Rattle.clients_core.specs.Clients.{IsClientRefusal, IsSinglePart, IsGivenBack, IsPlan, ArePlans};
ghost use Rattle.clients_core.specs.Working.{AreWorkedOff, AreWorkers, HasEnded, HasRefused, HaveJoined, IsFreshPart, IsWorkerOf};
ghost use Rattle.resv_core.specs.Settled.{IsWithin, increments_of};

use crate::client::{Shared, act_all};
use crate::gate::Gate;
use point_core::{Context, Refusal};
use resv_core::{Plan, SharedTable};
use std::alloc::Global;
use std::sync::Wait;
use std::thread;
use std::thread::{Promise, PromisedHandle, Scope, Threads};
use words_core::{Seat, Words};

/// The result of a worker: its two seats, and how its acts ended.
#[derive(Drop)]
pub(crate) struct Ended {
    pub driving: Seat,
    pub looking: Seat,
    pub answer: Result<(), Refusal>,
}

/// A worker's promise: it gives both seats of these words back. If it answers Ok, it has worked this plan off on this table,
/// as the client of the plan at that place; else it was refused as that client.
#[derive(Drop)]
pub(crate) struct Loan<'a, T> {
    pub words: &'a Words,
    pub table: &'a T,
    pub index: usize,
    pub plan: &'a Plan,
}

impl<'a, T: SharedTable> Promise<Ended> for Loan<'a, T> {
    ghost use Rattle.std.specs.Prelude.{◌+◌};
    ghost use Rattle.clients_core.specs.Working.{HasEnded};

    ghost kept_by = { λ loan ended.
        HasEnded (T.puts loan.table.now) (T.exports loan.table.now) loan.words.now (loan.index + 1) loan.plan.now ended };
}

/// A client's acts, with two seats: its driver has one, and its puts and looks are made with the other. Wherever it
/// ends it gives both back.
fn work<R: Wait, T: SharedTable, G: Gate>(
    shared: &Shared<R, T, G>,
    index: usize,
    plan: &Plan,
    driving: Seat,
    mut looking: Seat,
) -> Ended
    requires own { T.made_for shared.now.table.now ≡ shared.now.words.now }
    requires seats { IsFreshPart shared.now.words.now driving × IsFreshPart shared.now.words.now looking }
    requires client { (index < shared.now.words.now.contexts) × (index < CONTEXTS) }
    requires plan { IsPlan shared.now.words.now plan.now }
    ensures { HasEnded (T.puts shared.now.table.now) (T.exports shared.now.table.now)
        shared.now.words.now (index + 1) plan.now result }
{
    let mut driver = match shared.words.driver(driving, Context::at(index)) {
        Ok(driver) => driver,
        Err((refusal, driving)) => {
            return Ended {
                driving,
                looking,
                answer: Err(refusal),
            };
        }
    };
    let answer = act_all(shared, index + 1, plan, &mut driver, &mut looking);
    Ended {
        driving: driver.finish(),
        looking,
        answer,
    }
}

/// Starts a worker in a thread of its own.
///
/// Fails with `Memory` if that thread cannot be started. Both seats are lost then.
fn start<'s, E, R: Wait + Sync, T: SharedTable, G: Gate>(
    scope: &Scope<'s, E>,
    shared: &Shared<'s, R, T, G>,
    index: usize,
    plan: &'s Plan,
    driving: Seat,
    looking: Seat,
) -> Result<PromisedHandle<Ended, Loan<'s, T>>, Refusal>
    requires own { T.made_for shared.now.table.now ≡ shared.now.words.now }
    requires seats { IsFreshPart shared.now.words.now driving × IsFreshPart shared.now.words.now looking }
    requires client { (index < shared.now.words.now.contexts) × (index < CONTEXTS) }
    requires plan { IsPlan shared.now.words.now plan.now }
    ensures promise { IfOk result (λ worker. worker.promise.words.now ≡ shared.now.words.now) }
    ensures table { IfOk result (λ worker. worker.promise.table.now ≡ shared.now.table.now) }
    ensures plan { IfOk result (λ worker. (worker.promise.index ≡ index) × (worker.promise.plan.now ≡ plan.now)) }
    ensures memory { IfErr result (λ e. e ≡ refusal.Memory) }
{
    let Shared {
        rt,
        alloc,
        words,
        table,
        gate,
    } = *shared;
    let started = scope.spawn_with(
        Loan {
            words,
            table,
            index,
            plan,
        },
        move || -> Ended
            requires own { T.made_for table.now ≡ words.now }
            requires seats { IsFreshPart words.now driving × IsFreshPart words.now looking }
            requires client { (index < words.now.contexts) × (index < CONTEXTS) }
            requires plan { IsPlan words.now plan.now }
            ensures { HasEnded (T.puts table.entry.now) (T.exports table.entry.now)
                words.entry.now (index + 1) plan.entry.now result }
        {
            let shared = Shared {
                rt,
                alloc,
                words,
                table,
                gate,
            };
            work(&shared, index, plan, driving, looking)
        },
    );
    match started {
        Ok(worker) => Ok(worker),
        Err(_) => Err(Refusal::Memory),
    }
}

/// Starts a worker for each plan but the first, in order, with two seats of one part.
///
/// Fails with `Memory` at the first that cannot be started. Those before it run, and are among the workers.
fn start_others<'s, E, R: Wait + Sync, T: SharedTable, G: Gate>(
    scope: &Scope<'s, E>,
    shared: &Shared<'s, R, T, G>,
    plans: &'s [Plan],
    all: &mut Seat,
    workers: &mut Vec<PromisedHandle<Ended, Loan<'s, T>>>,
) -> Result<(), Refusal>
    requires own { (T.made_for shared.now.table.now ≡ shared.now.words.now) × (all.old.words ≡ shared.now.words.now) }
    requires plans { ArePlans shared.now.words.now plans.now }
    requires some { 1 ≤ length plans.now }
    requires parts { 2 * CONTEXTS < all.old.parts + 2 }
    requires room { (vec_len workers.old ≡ 0) × (vec_capacity workers.old ≡ length plans.now) }
    ensures words { all.new.words ≡ all.old.words }
    ensures promises { All (IsWorkerOf shared.now.words.now) workers.new.items }
    ensures plans { AreWorkers shared.now.table.now plans.now 1 workers.new.items }
    ensures all { OnOk result (length workers.new.items + 1 ≡ length plans.now) }
    ensures parts { OnOk result (all.new.parts + 2 * vec_len workers.new ≡ all.old.parts) }
    ensures trace { all.new.trace ≡ all.old.trace }
    ensures memory { IfErr result (λ e. e ≡ refusal.Memory) }
{
    for index in 1..plans.len() {
        let driving = shared.words.part(all, 1);
        let looking = shared.words.part(all, 1);
        let plan = &plans[index];
        let worker = start(scope, shared, index, plan, driving, looking)?;
        workers.push_reserved(worker);
    }
    Ok(())
}

/// Joins the workers and takes their seats in. Fails with the refusal of the first worker that was refused.
fn join_all<R: Threads, T: SharedTable>(
    rt: &R,
    words: &Words,
    workers: Vec<PromisedHandle<Ended, Loan<'_, T>>>,
    all: &mut Seat,
) -> Result<(), Refusal>
    requires own { all.old.words ≡ words.now }
    requires promises { All (IsWorkerOf words.now) workers.items }
    ensures words { all.new.words ≡ all.old.words }
    ensures parts { all.new.parts ≡ all.old.parts + 2 * vec_len workers.entry }
    ensures joined { HaveJoined T.puts T.exports workers.entry.items all.old all.new result }
    ensures refusals { IfErr result IsClientRefusal }
{
    let mut answer = Ok(());
    for worker in workers {
        let ended = take_in(words, worker.join(rt), all);
        answer = answer.and(ended);
    }
    answer
}

/// Takes in both seats that a worker gave back.
fn take_in(words: &Words, ended: Ended, all: &mut Seat) -> Result<(), Refusal>
    requires own { (all.old.words ≡ words.now) × IsGivenBack words.now ended }
    ensures words { all.new.words ≡ all.old.words }
    ensures parts { all.new.parts ≡ all.old.parts + 2 }
    ensures both { all.new ≡ both_of (both_of all.old ended.driving) ended.looking }
    ensures answer { result ≡ ended.answer }
{
    let Ended {
        driving,
        looking,
        answer,
    } = ended;
    words.join(all, driving);
    words.join(all, looking);
    answer
}

/// Starts the workers, works the first plan off, joins them, and has all parts again.
fn work_in<'s, E, R: Threads + Wait + Sync, T: SharedTable, G: Gate>(
    scope: &Scope<'s, E>,
    shared: &Shared<'s, R, T, G>,
    plans: &'s [Plan],
    mut all: Seat,
) -> Result<Seat, Refusal>
    requires own { (T.made_for shared.now.table.now ≡ shared.now.words.now) × (all.words ≡ shared.now.words.now) }
    requires plans { ArePlans shared.now.words.now plans.now }
    requires some { 1 ≤ length plans.now }
    requires parts { 2 * CONTEXTS < all.parts }
    requires fresh { all.trace ≡ [] }
    ensures whole { IfOk result (λ seat. (seat.words ≡ all.words) × (seat.parts ≡ all.parts)) }
    ensures worked { IfOk result (AreWorkedOff (T.puts shared.now.table.now) (T.exports shared.now.table.now)
        shared.now.words.now plans.now) }
    ensures refused { IfErr result (HasRefused (T.puts shared.now.table.now) (T.exports shared.now.table.now)
        shared.now.words.now plans.now) }
    ensures refusals { IfErr result IsClientRefusal }
{
    let mut workers = Vec::with_capacity(shared.alloc, plans.len())?;
    let driving = shared.words.part(&mut all, 1);
    let looking = shared.words.part(&mut all, 1);
    let started = start_others(scope, shared, plans, &mut all, &mut workers);
    let plan = &plans[0];
    let own = work(shared, 0, plan, driving, looking);
    let first = take_in(shared.words, own, &mut all);
    let others = join_all(shared.rt, shared.words, workers, &mut all);
    let ended = first.and(others);
    ended.and(started)?;
    Ok(all)
}

/// A worker for each plan, the first on the calling thread and each other in a thread of its own. All of them have ended when
/// it returns. The seat comes back with all of its parts.
///
/// Fails as the client with the least number that was refused: with `Exists`, `TimedOut` and `Torn`, and with `Memory`.
pub(crate) fn work_all<R: Threads + Wait + Sync, T: SharedTable, G: Gate>(
    rt: &R,
    alloc: Global,
    words: &Words,
    table: &T,
    gate: &G,
    plans: &[Plan],
    all: Seat,
) -> Result<Seat, Refusal>
    requires own { (T.made_for table.now ≡ words.now) × (all.words ≡ words.now) }
    requires plans { ArePlans words.now plans.now }
    requires some { 1 ≤ length plans.now }
    requires parts { 2 * CONTEXTS < all.parts }
    requires fresh { all.trace ≡ [] }
    ensures whole { IfOk result (λ seat. (seat.words ≡ all.words) × (seat.parts ≡ all.parts)) }
    ensures worked { IfOk result (AreWorkedOff (T.puts table.now) (T.exports table.now) words.now plans.now) }
    ensures refused { IfErr result (HasRefused (T.puts table.now) (T.exports table.now) words.now plans.now) }
    ensures refusals { IfErr result IsClientRefusal }
{
    thread::scope(
        thread::scope_env(),
        rt,
        move |scope| -> Result<Seat, Refusal>
            requires own { (T.made_for table.now ≡ words.now) × (all.words ≡ words.now) }
            requires plans { ArePlans words.now plans.now }
            requires some { 1 ≤ length plans.now }
            requires parts { 2 * CONTEXTS < all.parts }
            requires fresh { all.trace ≡ [] }
            ensures whole { IfOk result (λ seat. (seat.words ≡ all.words) × (seat.parts ≡ all.parts)) }
            ensures worked { IfOk result (AreWorkedOff (T.puts table.entry.now) (T.exports table.entry.now)
                words.entry.now plans.entry.now) }
            ensures refused { IfErr result (HasRefused (T.puts table.entry.now) (T.exports table.entry.now)
                words.entry.now plans.entry.now) }
            ensures refusals { IfErr result IsClientRefusal }
        {
            let shared = Shared {
                rt,
                alloc,
                words,
                table,
                gate,
            };
            work_in(scope, &shared, plans, all)
        },
    )
}
