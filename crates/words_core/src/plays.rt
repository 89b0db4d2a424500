//! The rule of the words, what each kind of step shows to its seat, and how views are split and joined. Each kind of
//! step keeps the rule (`proofs/`), and no other kind exists.
ghost use Rattle.std.specs.Prelude.{ℕ};
ghost use Rattle.words_core.specs.Rule.{IsKept, first_view};
ghost use Rattle.words_core.specs.Plays.{loads_value, claims_context, adds_to_value, loads_mark, shuts_mark, counts_parts, loads_total, loads_total_mark, sets_once, loads_flag, loads_entry, raises_entry, loads_top, parent_view, child_view, joined_view, joined_from};

use crate::trace::View;
use crate::words::Sizes;
use atomic_table::{Join, Play, Split, TableRule};
use std::marker::{Brand, PhantomData};

pub struct WordsRule;

impl TableRule<(), View, Sizes> for WordsRule {
    ghost holds = { λ sizes s. IsKept sizes s.words s.views };

    ghost first = { first_view };
}

pub struct LoadsValue;

impl Play<(), View> for LoadsValue {
    ghost then = { loads_value };
}

pub struct ClaimsContext;

impl Play<(), View> for ClaimsContext {
    ghost then = { claims_context };
}

pub struct AddsToValue;

impl Play<(), View> for AddsToValue {
    ghost then = { adds_to_value };
}

pub struct CountsParts;

impl Play<(), View> for CountsParts {
    ghost then = { counts_parts };
}

// by a seat with all parts
pub struct LoadsTotal;

impl Play<(), View> for LoadsTotal {
    ghost then = { loads_total };
}

pub struct LoadsMark;

impl Play<(), View> for LoadsMark {
    ghost then = { loads_mark };
}

pub struct ShutsMark;

impl Play<(), View> for ShutsMark {
    ghost then = { shuts_mark };
}

// by a seat with all parts
pub struct LoadsTotalMark;

impl Play<(), View> for LoadsTotalMark {
    ghost then = { loads_total_mark };
}

pub struct SetsOnce;

impl Play<(), View> for SetsOnce {
    ghost then = { sets_once };
}

// by a seat with all parts
pub struct LoadsFlag;

impl Play<(), View> for LoadsFlag {
    ghost then = { loads_flag };
}

pub struct LoadsEntry;

impl Play<(), View> for LoadsEntry {
    ghost then = { loads_entry };
}

pub struct RaisesEntry;

impl Play<(), View> for RaisesEntry {
    ghost then = { raises_entry };
}

// by a seat with all parts
pub struct LoadsTop;

impl Play<(), View> for LoadsTop {
    ghost then = { loads_top };
}

// The number of parts that go to a new seat; each call chooses it.
pub trait PartCount {
    ghost count: { ℕ };
}

impl PartCount for Brand {
    ghost count = { 0 };
}

pub struct SplitParts<N> {
    count: PhantomData<N>,
}

impl<N: PartCount> Split<View> for SplitParts<N> {
    ghost left = { parent_view N.count };

    ghost right = { child_view N.count };
}

pub struct JoinSeats;

impl Join<View> for JoinSeats {
    ghost both = { joined_view };

    ghost spent = { joined_from };
}
