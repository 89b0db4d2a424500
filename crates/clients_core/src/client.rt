//! Runs the acts of one client, in order. Each look is compared with the client's own earlier puts (`OwnPuts`). A
//! worker calls `act_all` with the client's driver and a seat for its puts and looks.
ghost use Rattle.std.specs.Prelude.{◌≡◌, ◌+◌, ◌^◌, ◌<◌, ◌≤◌, ◌⊎◌, ◌++◌, ◌∷◌, [], length, All, IfErr, OnOk, List, Result};
ghost use Rattle.point_core.specs.declared.entry.Entry.{Entry};
ghost use Rattle.point_core.specs.declared.listing.Listing.{Listing};
ghost use Rattle.point_core.specs.declared.refusal.Refusal.{Refusal};
ghost use Rattle.point_core.specs.declared.refusal.Refusal.TheVariants as refusal;
ghost use Rattle.point_core.specs.Usage.{usage_number};
ghost use Rattle.resv_core.specs.declared.plan.Act.{Act};
ghost use Rattle.clients_core.specs.Acting.{KnowPuts, HasActed, HaveActed, HasStopped, client_of, judged};
ghost use Rattle.clients_core.specs.OwnPuts.{AreOwnPuts};
ghost use Rattle.clients_core.specs.Clients.{IsClientRefusal, IsSinglePart, IsDriving};
ghost use Rattle.resv_core.specs.Rounds.{IsRepeatable, acts_of, round_of};
ghost use Rattle.resv_core.specs.Settled.{IsWithin, increment_by, increments_of};

use crate::gate::Gate;
use crate::own_puts::{OwnPuts, no_puts};
use point_core::{Entry, Listing, Point, Refusal, Usage};
use resv_core::{Act, Plan, Round, SharedTable};
use std::alloc::Global;
use std::sync::Wait;
use words_core::{Driver, Seat, Words};

/// What all clients share.
#[derive(Drop)]
pub(crate) struct Shared<'a, R, T, G> {
    pub rt: &'a R,
    pub alloc: Global,
    pub words: &'a Words,
    pub table: &'a T,
    pub gate: &'a G,
}

/// The acts of a client's plan, in order, each between the gate's two calls. `client` is its number, from 1.
///
/// Ends at the first act that is refused: with `TimedOut` if the gate gave up, with `Torn` or with `Memory`.
pub(crate) fn act_all<R: Wait, T: SharedTable, G: Gate>(
    shared: &Shared<R, T, G>,
    client: usize,
    plan: &Plan,
    driver: &mut Driver,
    seat: &mut Seat,
) -> Result<(), Refusal>
    requires own { (T.made_for shared.now.table.now ≡ shared.now.words.now) × IsSinglePart shared.now.words.now seat.old }
    requires driver { IsDriving shared.now.words.now driver.old }
    requires within { All (IsWithin shared.now.words.now.contexts shared.now.words.now.buffers) plan.now }
    requires fits { driver.old.value + increments_of plan.now < 2 ^ 64 }
    ensures seats { IsSinglePart shared.now.words.now seat.new × IsDriving shared.now.words.now driver.new }
    ensures acted { OnOk result (HaveActed (T.puts shared.now.table.now) (T.exports shared.now.table.now) []
        plan.now (client_of driver.old seat.old) (client_of driver.new seat.new)) }
    ensures stopped { IfErr result (λ e.
        ((e ≡ refusal.Memory) × (client_of driver.new seat.new ≡ client_of driver.old seat.old))
        ⊎ HasStopped (T.puts shared.now.table.now) (T.exports shared.now.table.now) []
        plan.now (client_of driver.old seat.old) (client_of driver.new seat.new) e) }
    ensures refusals { IfErr result IsClientRefusal }
{
    let mut own = no_puts(
        shared.alloc,
        shared.words.buffers(),
        shared.words.contexts(),
    )?;
    let mut listing = Listing::empty(shared.alloc);
    act_rounds(
        shared,
        client,
        &plan.round(),
        own.as_mut_slice(),
        &mut listing,
        driver,
        seat,
    )
}

/// All rounds, one after another.
fn act_rounds<R: Wait, T: SharedTable, G: Gate>(
    shared: &Shared<R, T, G>,
    client: usize,
    round: &Round,
    own: &mut [OwnPuts],
    listing: &mut Listing,
    driver: &mut Driver,
    seat: &mut Seat,
) -> Result<(), Refusal>
    requires own { (T.made_for shared.now.table.now ≡ shared.now.words.now) × IsSinglePart shared.now.words.now seat.old }
    requires driver { IsDriving shared.now.words.now driver.old }
    requires rounds { IsRepeatable round.now.acts.now round.now.times }
    requires within { All (IsWithin shared.now.words.now.contexts shared.now.words.now.buffers) (acts_of round.now) }
    requires fits { driver.old.value + increments_of (acts_of round.now) < 2 ^ 64 }
    requires buffers { length own.old ≡ shared.now.words.now.buffers }
    requires none { KnowPuts shared.now.words.now.contexts own.old [] }
    ensures seats { IsSinglePart shared.now.words.now seat.new × IsDriving shared.now.words.now driver.new }
    ensures acted { OnOk result (HaveActed (T.puts shared.now.table.now) (T.exports shared.now.table.now) []
        (acts_of round.now) (client_of driver.old seat.old) (client_of driver.new seat.new)) }
    ensures stopped { IfErr result (λ e. HasStopped (T.puts shared.now.table.now) (T.exports shared.now.table.now) []
        (acts_of round.now) (client_of driver.old seat.old) (client_of driver.new seat.new) e) }
    ensures refusals { IfErr result IsClientRefusal }
{
    for index in 0..round.times {
        act_round(shared, client, round, index + 1, own, listing, driver, seat)?;
    }
    Ok(())
}

/// The acts of the round of that number, from 1.
fn act_round<R: Wait, T: SharedTable, G: Gate>(
    shared: &Shared<R, T, G>,
    client: usize,
    round: &Round,
    number: u32,
    own: &mut [OwnPuts],
    listing: &mut Listing,
    driver: &mut Driver,
    seat: &mut Seat,
) -> Result<(), Refusal>
    requires own { (T.made_for shared.now.table.now ≡ shared.now.words.now) × IsSinglePart shared.now.words.now seat.old }
    requires driver { IsDriving shared.now.words.now driver.old }
    requires rounds { IsRepeatable round.now.acts.now round.now.times }
    requires number { (1 ≤ number) × (number ≤ round.now.times) }
    requires within { All (IsWithin shared.now.words.now.contexts shared.now.words.now.buffers)
        (round_of round.now.acts.now number) }
    requires fits { driver.old.value + increments_of (round_of round.now.acts.now number) < 2 ^ 64 }
    requires buffers { length own.old ≡ shared.now.words.now.buffers }
    ensures seats { IsSinglePart shared.now.words.now seat.new × IsDriving shared.now.words.now driver.new }
    ensures acted { OnOk result ((done : List Act) → KnowPuts shared.now.words.now.contexts own.old done →
        All (IsWithin shared.now.words.now.contexts shared.now.words.now.buffers) done →
        HaveActed (T.puts shared.now.table.now) (T.exports shared.now.table.now) done
        (round_of round.now.acts.now number) (client_of driver.old seat.old) (client_of driver.new seat.new)) }
    ensures known { OnOk result ((done : List Act) → KnowPuts shared.now.words.now.contexts own.old done →
        KnowPuts shared.now.words.now.contexts own.new (done ++ round_of round.now.acts.now number)) }
    ensures stopped { IfErr result (λ e. (done : List Act) → KnowPuts shared.now.words.now.contexts own.old done →
        All (IsWithin shared.now.words.now.contexts shared.now.words.now.buffers) done →
        HasStopped (T.puts shared.now.table.now) (T.exports shared.now.table.now) done
        (round_of round.now.acts.now number) (client_of driver.old seat.old) (client_of driver.new seat.new) e) }
    ensures advanced { OnOk result
        (driver.new.value ≡ driver.old.value + increments_of (round_of round.now.acts.now number)) }
    ensures buffers { length own.new ≡ length own.old }
    ensures refusals { IfErr result IsClientRefusal }
{
    let acts = round.acts;
    let first = acts.len() * (number - 1) as usize;
    for (index, act) in acts.iter().enumerate() {
        let place = first + index;
        if !shared.gate.enter(client, place) {
            return Err(Refusal::TimedOut);
        }
        let act = act.in_round(number);
        let done = act_once(shared, &act, own, listing, driver, seat);
        shared.gate.leave(client, place);
        done?;
    }
    Ok(())
}

/// One act, after what its client has put before it.
fn act_once<R: Wait, T: SharedTable, G: Gate>(
    shared: &Shared<R, T, G>,
    act: &Act,
    own: &mut [OwnPuts],
    listing: &mut Listing,
    driver: &mut Driver,
    seat: &mut Seat,
) -> Result<(), Refusal>
    requires own { (T.made_for shared.now.table.now ≡ shared.now.words.now) × IsSinglePart shared.now.words.now seat.old }
    requires driver { IsDriving shared.now.words.now driver.old }
    requires within { IsWithin shared.now.words.now.contexts shared.now.words.now.buffers act.now }
    requires fits { driver.old.value + increment_by act.now < 2 ^ 64 }
    requires buffers { length own.old ≡ shared.now.words.now.buffers }
    ensures seats { IsSinglePart shared.now.words.now seat.new × IsDriving shared.now.words.now driver.new }
    ensures acted { (done : List Act) → KnowPuts shared.now.words.now.contexts own.old done →
        All (IsWithin shared.now.words.now.contexts shared.now.words.now.buffers) done →
        HasActed (T.puts shared.now.table.now) (T.exports shared.now.table.now) done
        act.now (client_of driver.old seat.old) (client_of driver.new seat.new) result }
    ensures known { OnOk result ((done : List Act) → KnowPuts shared.now.words.now.contexts own.old done →
        KnowPuts shared.now.words.now.contexts own.new (done ++ act.now ∷ [])) }
    ensures buffers { length own.new ≡ length own.old }
    ensures advanced { OnOk result (driver.new.value ≡ driver.old.value + increment_by act.now) }
    ensures refusals { IfErr result IsClientRefusal }
{
    match *act {
        Act::Inc(n) => {
            driver.inc(shared.words, n)?;
        }
        Act::Put(buffer, point, usage) => {
            let Point { ctx, value } = point;
            shared.table.put(
                shared.rt,
                shared.alloc,
                shared.words,
                seat,
                buffer,
                Point { ctx, value },
                usage,
            )?;
            let point = Point { ctx, value };
            own[buffer].put(&Entry { point, usage });
        }
        Act::Look(buffer, usage) => look(shared, buffer, usage, &own[buffer], listing, seat)?,
    }
    Ok(())
}

/// One look, which has to show what its client has put into the buffer before it.
fn look<R: Wait, T: SharedTable, G: Gate>(
    shared: &Shared<R, T, G>,
    buffer: usize,
    usage: Usage,
    own: &OwnPuts,
    listing: &mut Listing,
    seat: &mut Seat,
) -> Result<(), Refusal>
    requires own { (T.made_for shared.now.table.now ≡ shared.now.words.now) × IsSinglePart shared.now.words.now seat.old }
    requires buffer { buffer < shared.now.words.now.buffers }
    ensures seat { IsSinglePart shared.now.words.now seat.new }
    ensures judged { (es : List Entry) → AreOwnPuts shared.now.words.now.contexts own.now es →
        All (λ e. e.point.ctx ≤ shared.now.words.now.contexts) es →
        (listed : Result Listing Refusal) × T.exports shared.now.table.now buffer usage seat.old seat.new listed
        × (result ≡ judged (usage_number usage) es listed) }
    ensures refusals { IfErr result IsClientRefusal }
{
    let Shared {
        rt,
        alloc,
        words,
        table,
        gate: _,
    } = *shared;
    table.export_into(rt, alloc, words, seat, buffer, usage, listing)?;
    if own.are_shown(listing, usage, words.contexts()) {
        Ok(())
    } else {
        Err(Refusal::Torn)
    }
}
