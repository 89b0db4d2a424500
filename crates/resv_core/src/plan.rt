//! `Act` and `Plan`: the acts of one client, and `Settled`, the end that all plans come to in every schedule.
ghost use Rattle.std.specs.Prelude.{◌≡◌, ℕ, IfErr, IsTrue, OkIff, length};
ghost use Rattle.point_core.specs.declared.refusal.Refusal.TheVariants as refusal;
ghost use Rattle.resv_core.specs.Rounds.{IsInRange, IsRepeatable, acts_of, in_round, is_in_range, is_repeatable, rounds_of};

use point_core::{Items, Point, Refusal, TopRow, Usage};
use std::marker::Model;

/// One act of a client.
#[derive(Clone, Copy, Debug, PartialEq, Eq)]
pub enum Act {
    /// Advances the client's own timeline by this number.
    Inc(u64),
    /// Puts a fence into the buffer of this number.
    Put(usize, Point, Usage),
    /// Looks at the buffer's pending points, at the usage or a stronger one.
    Look(usize, Usage),
}

impl Act {
    /// The act in round `number`, from 1: a point that it puts is multiplied by the number.
    pub fn in_round(&self, number: u32) -> Act
        requires { IsInRange number self.now }
        ensures { result ≡ in_round number self.now }
    {
        if number == 1 {
            return *self;
        }
        match *self {
            Act::Inc(n) => Act::Inc(n),
            Act::Put(buffer, point, usage) => {
                let Point { ctx, value } = point;
                let value = value * u64::from(number);
                Act::Put(buffer, Point { ctx, value }, usage)
            }
            Act::Look(buffer, usage) => Act::Look(buffer, usage),
        }
    }

    /// Whether the point that it puts in round `number` is at most the greatest u64.
    fn is_in_range(&self, number: u32) -> bool
        ensures { result ≡ is_in_range number self.now }
    {
        match *self {
            Act::Put(_, point, _) => point.value.checked_mul(u64::from(number)).is_some(),
            Act::Inc(_) | Act::Look(_, _) => true,
        }
    }
}

/// A round of acts, and how often it is repeated. In round r, from 1, a point v that is put is the point v r.
#[derive(Clone, Copy, Debug)]
pub struct Round<'a> {
    pub acts: &'a [Act],
    pub times: u32,
}

/// The acts of a client, in order: a round of them, which is repeated.
#[derive(Debug, Drop)]
pub struct Plan {
    acts: Vec<Act>,
    times: u32,
}

impl Model for Plan {
    ghost use Rattle.std.specs.Prelude.{List};
    ghost use Rattle.resv_core.specs.declared.plan.Act.{Act};
    ghost use Rattle.resv_core.specs.Rounds.{IsRepeatable, rounds_of};

    ghost Value = { List Act };

    ghost view = { λ plan. rounds_of plan.acts.items plan.times };

    ghost invariant = { λ plan. IsRepeatable plan.acts.items plan.times };
}

impl Plan {
    /// The acts, each made once. Does not allocate.
    pub fn of(acts: Vec<Act>) -> Plan
        ensures acts { result ≡ acts.items }
    {
        Plan { acts, times: 1 }
    }

    /// Repeats the acts in `times` rounds. A point that is put is multiplied by the number of its round, from 1. Does
    /// not allocate.
    ///
    /// Fails only with `Overflow`, if one of these points or the number of all acts is past the greatest u64.
    pub fn repeated(acts: Vec<Act>, times: u32) -> Result<Plan, Refusal>
        ensures acts { OkIff result (IsTrue (is_repeatable acts.items times)) (rounds_of acts.items times) }
        ensures overflow { IfErr result (λ e. e ≡ refusal.Overflow) }
    {
        if !is_repeatable(acts.as_slice(), times) {
            return Err(Refusal::Overflow);
        }
        Ok(Plan { acts, times })
    }

    /// The round that is repeated. Does not allocate.
    pub fn round(&self) -> Round<'_>
        ensures acts { acts_of result ≡ self.now }
        ensures in_range { IsRepeatable result.acts.now result.times }
    {
        Round {
            acts: self.acts.as_slice(),
            times: self.times,
        }
    }

    /// The acts of one round, which make all acts when they are repeated. `of` keeps its acts as one round, which is
    /// tested. For users of the library; no program here calls it.
    pub fn as_slice(&self) -> &[Act]
        ensures round { (times : ℕ) × (rounds_of result.now times ≡ self.now) }
    {
        self.acts.as_slice()
    }

    /// The number of acts.
    pub fn len(&self) -> usize
        ensures count { result ≡ length self.now }
    {
        self.acts.len() * self.times as usize
    }
}

/// Whether the acts can be made in `times` rounds.
fn is_repeatable(acts: &[Act], times: u32) -> bool
    ensures { result ≡ is_repeatable acts.now times }
{
    acts.len().checked_mul(times as usize).is_some()
        && acts.iter().all(|act| act.is_in_range(times))
}

/// The end of all clients' plans: the value of each timeline, and the pending tops of each buffer above the values, as
/// `Resv::table` gives them.
#[derive(Debug, Drop)]
pub struct Settled {
    pub values: Items<u64>,
    pub tables: Items<Items<TopRow>>,
}
