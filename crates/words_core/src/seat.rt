//! `Seat`: a thread token with a fractional permission on a set of words.
ghost use Rattle.std.specs.Prelude.{◌≡◌, ◌≢◌, ◌+◌, ◌≤◌, IfOk, IfErr};
ghost use Rattle.words_core.specs.declared.seat.TheConstants.{PARTS};

use crate::trace::View;
use crate::whole::Whole;
use std::marker::Model;

/// The parts of a set of words, which its seats share (fractions of one permission). Dropping a seat loses its parts.
pub const PARTS: u32 = 65_536;

const _: () = prove!(PARTS == 65_536);

/// A thread's right to step on a set of words, with a trace of its steps and a start: the steps that its parent knew
/// when it was parted. Both are ghost state; at run time a seat is only its number of parts.
#[derive(Drop)]
pub struct Seat {
    pub(crate) token: atomic_table::Seat<(), View>,
    pub(crate) parts: u32,
}

impl Model for Seat {
    ghost use Rattle.std.specs.Prelude.{◌≡◌, ◌≤◌, []};
    ghost use Rattle.words_core.specs.declared.seat.TheConstants.{PARTS};
    ghost use Rattle.words_core.specs.theorem.Seat.{SeatModel};
    ghost use Rattle.words_core.specs.theorem.Words.{words_of};

    ghost Value = { SeatModel };

    ghost view = { λ s.
        record {
          words = words_of s.token.table_id s.token.me.0.sizes;
          parts = s.parts;
          start = s.token.me.0.start;
          trace = s.token.me.0.trace;
        } };

    ghost invariant = { λ s. (s.token.me.1 ≡ []) × (s.token.me.0.parts ≡ s.parts) × (1 ≤ s.parts) × (s.parts ≤ PARTS) };
}

impl Seat {
    /// The number of its parts.
    pub fn parts(&self) -> u32
        ensures value { result ≡ self.now.parts }
        ensures within { (1 ≤ result) × (result ≤ PARTS) }
    {
        self.parts
    }

    /// Turns a seat with all parts, which has made every step on the words, into a `Whole`. Otherwise returns the seat
    /// and the number of parts that are missing. If a seat was dropped, its parts are missing for good.
    pub fn gather(self) -> Result<Whole, (Seat, u32)>
        ensures all { IfOk result (λ whole. (whole ≡ self) × (self.parts ≡ PARTS)) }
        ensures missing { IfErr result (λ e. (e.0 ≡ self) × (self.parts ≢ PARTS) × (e.1 + self.parts ≡ PARTS)) }
    {
        if self.parts == PARTS {
            Ok(Whole { seat: self })
        } else {
            let missing = PARTS - self.parts;
            Err((self, missing))
        }
    }
}
