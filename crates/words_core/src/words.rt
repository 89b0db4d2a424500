//! `Words`: a fixed table of atomic words that threads share by reference: contexts, the board and flags, each with its
//! own rule.
ghost use Rattle.std.specs.Prelude.{◌≡◌, ℕ, ◌+◌, ◌<◌, ◌≤◌, ◌⊎◌, [], IfOk, IfErr, max};
ghost use Rattle.point_core.specs.declared.context.TheConstants.{CONTEXTS};
ghost use Rattle.point_core.specs.declared.limits.TheConstants.{BUFFERS};
ghost use Rattle.point_core.specs.declared.refusal.LimitKind.TheVariants as limit;
ghost use Rattle.point_core.specs.declared.refusal.Refusal.TheVariants as refusal;
ghost use Rattle.words_core.specs.declared.seat.TheConstants.{PARTS};
ghost use Rattle.words_core.specs.declared.words.TheConstants.{FLAGS};
ghost use Rattle.words_core.specs.theorem.Seat.{seen, without_parts, parted, both_of};
ghost use Rattle.words_core.specs.theorem.Trace.{wins_of};

use crate::plays::{CountsParts, JoinSeats, PartCount, SplitParts, WordsRule};
use crate::seat::{PARTS, Seat};
use crate::trace::View;
use atomic_table::Table;
use point_core::{BUFFERS, CONTEXTS, LimitKind, Refusal};
use std::alloc::Global;
use std::marker::{Brand, Model};
use std::snapshot::Snapshot;

/// The most flags of a set of words.
pub const FLAGS: usize = 65_536;

const _: () = prove!(FLAGS == 65_536);

/// The number of words on a cache line of 64 bytes. Each buffer has a line for each context, so that no two timelines
/// share a line, and no two buffers do. The first buffer's line also has the context's value, claim and mark, so that
/// one cache line has all of them.
pub const LINE_WORDS: usize = 8;

const _: () = prove!(LINE_WORDS * 8 == 64);

/// The number of usages: a buffer has an entry for each usage, of each context.
pub const USAGES: usize = 4;

const _: () = prove!(USAGES == 4);

// The offset of a claim on its context's line: after the value and the first buffer's entries.
pub(crate) const CLAIM: usize = 1 + USAGES;

// The offset of a mark on its context's line: after the claim.
pub(crate) const MARK: usize = 2 + USAGES;

/// The number of contexts, buffers and flags of a set of words.
#[derive(Clone, Copy)]
pub struct Sizes {
    pub contexts: usize,
    pub buffers: usize,
    pub flags: usize,
}

/// Words that threads share by reference. Each thread steps with its own seat, and no step waits.
#[derive(Drop)]
pub struct Words {
    pub(crate) table: Table<(), View, Sizes, WordsRule, Global>,
    pub(crate) sizes: Sizes,
}

impl Model for Words {
    ghost use Rattle.std.specs.Prelude.{◌≡◌, ◌≤◌};
    ghost use Rattle.point_core.specs.declared.context.TheConstants.{CONTEXTS};
    ghost use Rattle.point_core.specs.declared.limits.TheConstants.{BUFFERS};
    ghost use Rattle.words_core.specs.declared.words.TheConstants.{FLAGS};
    ghost use Rattle.words_core.specs.theorem.Layout.{word_count};
    ghost use Rattle.words_core.specs.theorem.Words.{WordsModel, words_of};

    ghost Value = { WordsModel };

    ghost view = { λ w. words_of w.table.shared.table_id w.sizes };

    ghost invariant = { λ w.
        (w.table.shared.key ≡ w.sizes) × (w.table.shared.table_id.words ≡ word_count w.sizes) ×
        (1 ≤ w.sizes.contexts) × (w.sizes.contexts ≤ CONTEXTS) ×
        (w.sizes.buffers ≤ BUFFERS) × (w.sizes.flags ≤ FLAGS) };
}

impl Words {
    /// A set of words that are all 0, and its first seat, which has all parts. The words take 64 bytes for each context and buffer (as
    /// for one buffer if there is none), and 8 for each flag.
    ///
    /// Fails, in this order, with `Limit(Timelines)` if the contexts are not 1 to `CONTEXTS`, with `Limit(Buffers)` if
    /// there are more than `BUFFERS` buffers, with `Limit(Flags)` if there are more than `FLAGS` flags, and with
    /// `Memory`.
    pub fn new(
        alloc: Global,
        contexts: usize,
        buffers: usize,
        flags: usize,
    ) -> Result<(Words, Seat), Refusal>
        ensures words { IfOk result (λ r. (r.0.contexts ≡ contexts) × (r.0.buffers ≡ buffers) × (r.0.flags ≡ flags)) }
        ensures limits { IfOk result (λ r. (1 ≤ contexts) × (contexts ≤ CONTEXTS) × (buffers ≤ BUFFERS) × (flags ≤ FLAGS)) }
        ensures seat { IfOk result (λ r. r.1 ≡ record { words = r.0; parts = PARTS; start = []; trace = [] }) }
        ensures timelines { (contexts < 1) ⊎ (CONTEXTS < contexts) → IfErr result (λ e. e ≡ refusal.Limit limit.Timelines) }
        ensures buffers { 1 ≤ contexts → contexts ≤ CONTEXTS →
            BUFFERS < buffers → IfErr result (λ e. e ≡ refusal.Limit limit.Buffers) }
        ensures flags { 1 ≤ contexts → contexts ≤ CONTEXTS → buffers ≤ BUFFERS →
            FLAGS < flags → IfErr result (λ e. e ≡ refusal.Limit limit.Flags) }
        ensures memory { 1 ≤ contexts → contexts ≤ CONTEXTS → buffers ≤ BUFFERS → flags ≤ FLAGS →
            IfErr result (λ e. e ≡ refusal.Memory) }
    {
        if contexts < 1 || contexts > CONTEXTS {
            return Err(Refusal::Limit(LimitKind::Timelines));
        }
        if buffers > BUFFERS {
            return Err(Refusal::Limit(LimitKind::Buffers));
        }
        if flags > FLAGS {
            return Err(Refusal::Limit(LimitKind::Flags));
        }
        let sizes = Sizes {
            contexts,
            buffers,
            flags,
        };
        let count = LINE_WORDS * (buffers.max(1) * contexts) + flags;
        let zeros = Vec::from_elem(alloc, 0u64, count)?;
        let (table, token) = Table::of_words(alloc, zeros.as_slice(), &sizes)?;
        Ok((
            Words { table, sizes },
            Seat {
                token,
                parts: PARTS,
            },
        ))
    }

    /// The number of contexts.
    pub fn contexts(&self) -> usize
        ensures value { result ≡ self.now.contexts }
        ensures within { (1 ≤ result) × (result ≤ CONTEXTS) }
    {
        self.sizes.contexts
    }

    /// The number of buffers.
    pub fn buffers(&self) -> usize
        ensures value { result ≡ self.now.buffers }
        ensures within { result ≤ BUFFERS }
    {
        self.sizes.buffers
    }

    /// The number of flags.
    pub fn flags(&self) -> usize
        ensures value { result ≡ self.now.flags }
        ensures within { result ≤ FLAGS }
    {
        self.sizes.flags
    }

    /// A new seat with n of the parts, for another thread. It knows all that this one has seen.
    pub fn part(&self, seat: &mut Seat, n: u32) -> Seat
        requires own { seat.old.words ≡ self.now }
        requires parts { (1 ≤ n) × (n < seat.old.parts) }
        ensures parent { seat.new ≡ without_parts seat.old n }
        ensures child { result ≡ parted seat.old n }
        ensures seen { (w : ℕ) → seen result w ≡ seen seat.old w }
    {
        self.split::<Brand>(seat, n)
    }

    // A split has a ghost number of parts, since what it leaves is a function of only the view. `part` calls it with
    // `Brand`, and its proof picks that number.
    fn split<N: PartCount>(&self, seat: &mut Seat, n: u32) -> Seat
        requires own { seat.old.words ≡ self.now }
        requires parts { (1 ≤ n) × (n < seat.old.parts) }
        requires count { n ≡ N.count }
        ensures parent { seat.new ≡ without_parts seat.old n }
        ensures child { result ≡ parted seat.old n }
    {
        let token = self
            .table
            .shared
            .split_seat::<SplitParts<N>>(&mut seat.token);
        seat.parts -= n;
        Seat { token, parts: n }
    }

    /// Joins another seat of the same words: its parts, its start and its trace, which follow this one's. No claim and
    /// no flag was won by both, so two drivers of one context never meet.
    pub fn join(&self, seat: &mut Seat, other: Seat)
        requires own { (seat.old.words ≡ self.now) × (other.words ≡ self.now) }
        ensures both { seat.new ≡ both_of seat.old other }
        ensures once { (w : ℕ) → wins_of w seat.old.trace + wins_of w other.trace ≤ 1 }
        ensures seen { (w : ℕ) → seen seat.new w ≡ max (seen seat.old w) (seen other w) }
    {
        self.absorb(seat, other);
    }

    // The join, and a second load of word 0, which shows that the parts are no more than all and each word was won at
    // most once: a join by itself shows its caller nothing of the rule.
    fn absorb(&self, seat: &mut Seat, other: Seat)
        requires own { (seat.old.words ≡ self.now) × (other.words ≡ self.now) }
        ensures both { seat.new ≡ both_of seat.old other }
        ensures once { (w : ℕ) → wins_of w seat.new.trace ≤ 1 }
    {
        let Seat { token, parts } = other;
        self.table
            .shared
            .join_seat::<JoinSeats>(&mut seat.token, token);
        self.table.shared.load::<CountsParts>(&mut seat.token, 0);
        seat.parts += parts;
    }

    /// An identifier of these words. No word is read.
    pub fn id(&self) -> WordsId
        ensures { result ≡ self.now }
    {
        WordsId {
            words: Snapshot::of(self),
        }
    }
}

/// Identifies a set of words, for a value that belongs to them. It has no bytes, and takes no step.
#[derive(Drop)]
pub struct WordsId {
    words: Snapshot<Words>,
}

impl Model for WordsId {
    ghost use Rattle.words_core.specs.theorem.Words.{WordsModel};

    ghost Value = { WordsModel };

    ghost view = { λ id. id.words.value };
}
