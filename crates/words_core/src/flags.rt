//! Flags: ownership bits that are set once, as the kernel's `DMA_FENCE_FLAG_SIGNALED_BIT`.
ghost use Rattle.std.specs.Prelude.{◌≡◌, ◌+◌, ◌<◌, ◌≤◌};
ghost use Rattle.words_core.specs.declared.seat.TheConstants.{PARTS};
ghost use Rattle.words_core.specs.theorem.Layout.{flag_word};
ghost use Rattle.words_core.specs.theorem.Once.{IfFirst, IfAlready};
ghost use Rattle.words_core.specs.theorem.Seat.{seen, tests_of, with_step};
ghost use Rattle.words_core.specs.theorem.Trace.{load, won, lost, wins_of, IsDecided, set_once_step};

use crate::plays::{LoadsFlag, SetsOnce};
use crate::seat::Seat;
use crate::words::{Words, WordsId};
use std::marker::Model;

/// Proof token: the holder is the one that set this flag.
#[derive(Drop)]
pub struct Won {
    pub(crate) flag: usize,
    pub(crate) words: WordsId,
}

impl Model for Won {
    ghost use Rattle.words_core.specs.theorem.Won.{WonModel};

    ghost Value = { WonModel };

    ghost view = { λ won. record { words = won.words; flag = won.flag } };
}

impl Won {
    /// The number of the flag. For users of the library; no program here calls it.
    pub fn flag(&self) -> usize
        ensures { result ≡ self.now.flag }
    {
        self.flag
    }
}

/// Whether this call set the flag.
#[derive(Drop)]
pub enum Once {
    First(Won),
    Already,
}

impl Words {
    /// Sets a flag, by one test-and-set, as the kernel's `dma_fence_signal` sets a fence's flag. It returns `First` to
    /// the call that found it 0, and `Already` to all others.
    ///
    /// A seat knows of each test-and-set that it made, and of the ones that its parent knew of when it was parted. If
    /// it knows of any, the result is `Already`.
    pub fn set_once(&self, seat: &mut Seat, flag: usize) -> Once
        requires own { seat.old.words ≡ self.now }
        requires flag { flag < self.now.flags }
        ensures first { IfFirst result (λ token.
            (token ≡ record { words = self.now; flag = flag }) × (seat.new ≡ with_step seat.old (won (flag_word self.now flag)))) }
        ensures free { IfFirst result (λ _.
            (tests_of seat.old (flag_word self.now flag) ≡ 0) × (wins_of (flag_word self.now flag) seat.old.trace ≡ 0)) }
        ensures once { IfFirst result (λ _. wins_of (flag_word self.now flag) seat.new.trace ≡ 1) }
        ensures already { IfAlready result (seat.new ≡ with_step seat.old (lost (flag_word self.now flag))) }
        ensures set { tests_of seat.new (flag_word self.now flag) ≡ tests_of seat.old (flag_word self.now flag) + 1 }
    {
        if self.set_flag(seat, flag) == 0 {
            Once::First(Won {
                flag,
                words: self.id(),
            })
        } else {
            Once::Already
        }
    }

    // The test-and-set of a flag; returns the number that it found.
    fn set_flag(&self, seat: &mut Seat, flag: usize) -> u64
        requires own { seat.old.words ≡ self.now }
        requires flag { flag < self.now.flags }
        ensures entered { seat.new ≡ with_step seat.old (set_once_step (flag_word self.now flag) result) }
        ensures first { result ≡ 0 →
            (tests_of seat.old (flag_word self.now flag) ≡ 0) × (wins_of (flag_word self.now flag) seat.old.trace ≡ 0) }
    {
        let place = self.flag_place(flag);
        self.table
            .shared
            .fetch_or::<SetsOnce>(&mut seat.token, place, 1)
    }

    // The load of a seat with all parts: how often its trace has won the flag.
    pub(crate) fn total_flag(&self, seat: &mut Seat, flag: usize) -> u64
        requires own { seat.old.words ≡ self.now }
        requires flag { flag < self.now.flags }
        requires all { seat.old.parts ≡ PARTS }
        ensures entered { seat.new ≡ with_step seat.old (load (flag_word self.now flag) result) }
        ensures later { seen seat.old (flag_word self.now flag) ≤ result }
        ensures state { result ≡ wins_of (flag_word self.now flag) seat.old.trace }
        ensures decided { IsDecided (flag_word self.now flag) seat.old.trace }
        ensures set { 0 < tests_of seat.old (flag_word self.now flag) → result ≡ 1 }
    {
        let place = self.flag_place(flag);
        self.table.shared.load::<LoadsFlag>(&mut seat.token, place)
    }
}
