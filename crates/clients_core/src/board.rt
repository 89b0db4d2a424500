//! `Board`: the lock-free `SharedTable`, one max-register per (buffer, context, usage). The words keep each register's
//! rule, so a board has only their identity. `run_clients` runs clients on it.
ghost use Rattle.std.specs.Prelude.{◌≡◌, ◌<◌, ◌≤◌, ◌⊎◌, ◌↔◌, [], true, All, Ok, Err, IfErr, IfOk, IsOk, List, OnOk, vec_capacity};
ghost use Rattle.point_core.specs.declared.context.TheConstants.{CONTEXTS};
ghost use Rattle.point_core.specs.declared.entry.Entry.{Entry};
ghost use Rattle.point_core.specs.Agreement.{HasContexts};
ghost use Rattle.point_core.specs.declared.refusal.Refusal.TheVariants as refusal;
ghost use Rattle.point_core.specs.Usage.{usage_number};
ghost use Rattle.resv_core.specs.Resv.{entry_of};
ghost use Rattle.resv_core.specs.Settled.{gathered_values, tables_of};
ghost use Rattle.resv_core.specs.Shared.{HasClosedNone, HasStepped};
ghost use Rattle.clients_core.specs.Board.{AreAsPlanned, HasListed, HasLooked, HasRaised, HasShown, IsRaisedBy, place_to, places_at};
ghost use Rattle.clients_core.specs.Looks.{shows_all};

use crate::gathered_values::{gathered_open, listed};
use crate::raised_tops::{are_as_planned, raised_tables};
use point_core::{Context, Items, Listing, Point, Reach, Refusal, Usage};
use resv_core::{Plan, Settled, SharedTable};
use std::alloc::Global;
use std::marker::Model;
use std::mem;
use std::sync::Wait;
use words_core::{Seat, Whole, Words, WordsId};

/// A table that is only words: a buffer's entry for a context and a usage is raised to each point that is put, by one step, and
/// shows the latest. No call takes a lock or waits.
#[derive(Drop)]
pub struct Board {
    words: WordsId,
}

impl Model for Board {
    ghost use Rattle.words_core.specs.theorem.Words.{WordsModel};

    ghost Value = { WordsModel };

    ghost view = { λ board. board.words };
}

impl Board {
    /// Puts a fence into a buffer, by one raise of its register. It does not allocate and is never refused.
    pub fn put(
        &self,
        words: &Words,
        seat: &mut Seat,
        buffer: usize,
        point: Point,
        usage: Usage,
    ) -> Result<(), Refusal>
        requires own { (seat.old.words ≡ words.now) × (self.now ≡ words.now) }
        requires within { (buffer < words.now.buffers) × (point.ctx ≤ words.now.contexts) }
        ensures done { IsOk result }
        ensures raised { HasRaised words.now buffer (entry_of point usage) seat.old seat.new }
    {
        let Point { ctx, value } = point;
        words.raise(seat, buffer, ctx, usage, value);
        Ok(())
    }

    /// The pending points of a buffer at the usage or a stronger one, by rising context, above the values, which are loaded
    /// first and are the listing's floor. Then each place is looked at once.
    pub fn export(
        &self,
        alloc: Global,
        words: &Words,
        seat: &mut Seat,
        buffer: usize,
        usage: Usage,
    ) -> Result<Listing, Refusal>
        requires own { (seat.old.words ≡ words.now) × (self.now ≡ words.now) }
        requires within { buffer < words.now.buffers }
        ensures stepped { HasStepped seat.old seat.new }
        ensures looked { IfOk result (λ listing. HasLooked words.now buffer usage seat.old seat.new listing) }
        ensures own { (es : List Entry) → HasContexts es → All (IsRaisedBy words.now buffer seat.old) es →
            IfOk result (λ listing. shows_all listing (usage_number usage) es ≡ true) }
        ensures memory { IfErr result (λ e. e ≡ refusal.Memory) }
    {
        let mut listing = Listing::empty(alloc);
        self.export_into(alloc, words, seat, buffer, usage, &mut listing)?;
        Ok(listing)
    }

    /// Like `export`, into a listing that the caller reuses. Its list grows only if it has no room for a point of each context
    /// of the words.
    ///
    /// Fails only with `Memory`, and then the listing is unspecified.
    pub fn export_into(
        &self,
        alloc: Global,
        words: &Words,
        seat: &mut Seat,
        buffer: usize,
        usage: Usage,
        listing: &mut Listing,
    ) -> Result<(), Refusal>
        requires own { (seat.old.words ≡ words.now) × (self.now ≡ words.now) }
        requires within { buffer < words.now.buffers }
        ensures stepped { HasStepped seat.old seat.new }
        ensures looked { OnOk result (HasLooked words.now buffer usage seat.old seat.new listing.new) }
        ensures own { (es : List Entry) → HasContexts es → All (IsRaisedBy words.now buffer seat.old) es →
            OnOk result (shows_all listing.new (usage_number usage) es ≡ true) }
        ensures memory { IfErr result (λ e. e ≡ refusal.Memory) }
    {
        listing.floor.clear();
        words.load_all_into(seat, &mut listing.floor);
        let points = take_points(alloc, &mut listing.points);
        let contexts = words.contexts();
        let mut points = with_room(points, contexts)?;
        let look = Look {
            words,
            contexts,
            buffer,
            level: usage,
        };
        look.latest_shown(seat, &listing.floor, &mut points);
        listing.points = Items::of(points);
        Ok(())
    }

    /// The values that the gathered seat knows, and the tables of the plans above them.
    ///
    /// Fails with `Torn` if a context is closed, or if some buffer's raises say something else above these values than
    /// the plans' puts, and then with `Memory`.
    pub fn settle(
        &self,
        alloc: Global,
        words: &Words,
        all: &mut Whole,
        plans: &[Plan],
    ) -> Result<Settled, Refusal>
        requires own { (all.old.words ≡ words.now) × (self.now ≡ words.now) }
        ensures stepped { HasStepped all.old all.new }
        ensures none_closed { IfOk result (λ settled. HasClosedNone words.now.contexts all.old) }
        ensures torn { (result ≡ Err refusal.Torn) ↔ (¬ (HasClosedNone words.now.contexts all.old ×
            AreAsPlanned words.now all.old plans.now (gathered_values words.now.contexts all.old))) }
        ensures values { IfOk result (λ settled. settled.values ≡ gathered_values words.now.contexts all.old) }
        ensures tables { IfOk result (λ settled. settled.tables ≡ tables_of words.now.buffers plans.now settled.values) }
        ensures refusals { IfErr result (λ e. (e ≡ refusal.Torn) ⊎ (e ≡ refusal.Memory)) }
    {
        let reach = gathered_open(words, all)?;
        if !are_as_planned(words, all, plans, &reach) {
            return Err(Refusal::Torn);
        }
        let values = listed(alloc, &reach, words.contexts())?;
        let tables = raised_tables(alloc, words, all, &reach)?;
        Ok(Settled {
            values: Items::of(values),
            tables: Items::of(tables),
        })
    }
}

impl SharedTable for Board {
    ghost made_for = { λ board. board };

    ghost puts = { λ board buffer e before after answer. HasRaised board buffer e before after × (answer ≡ Ok tt) };

    ghost exports = { λ board buffer usage before after answer.
        IfOk answer (λ listed. HasLooked board buffer usage before after listed) × IfErr answer (λ e. e ≡ refusal.Memory) };

    ghost settles = { λ board before plans answer. (answer ≡ Err refusal.Torn) ↔ (¬ (HasClosedNone board.contexts before ×
        AreAsPlanned board before plans (gathered_values board.contexts before))) };

    fn empty(_alloc: Global, words: &Words) -> Result<Board, Refusal> {
        Ok(Board { words: words.id() })
    }

    fn put<R: Wait>(
        &self,
        _rt: &R,
        _alloc: Global,
        words: &Words,
        seat: &mut Seat,
        buffer: usize,
        point: Point,
        usage: Usage,
    ) -> Result<(), Refusal> {
        self.put(words, seat, buffer, point, usage)
    }

    fn export<R: Wait>(
        &self,
        _rt: &R,
        alloc: Global,
        words: &Words,
        seat: &mut Seat,
        buffer: usize,
        usage: Usage,
    ) -> Result<Listing, Refusal> {
        self.export(alloc, words, seat, buffer, usage)
    }

    fn export_into<R: Wait>(
        &self,
        _rt: &R,
        alloc: Global,
        words: &Words,
        seat: &mut Seat,
        buffer: usize,
        usage: Usage,
        listing: &mut Listing,
    ) -> Result<(), Refusal> {
        self.export_into(alloc, words, seat, buffer, usage, listing)
    }

    fn settle<R: Wait>(
        &self,
        _rt: &R,
        alloc: Global,
        words: &Words,
        all: &mut Whole,
        plans: &[Plan],
    ) -> Result<Settled, Refusal> {
        self.settle(alloc, words, all, plans)
    }
}

/// One look of a client at a buffer: at each place whose usage is up to the level, by rising context. `Board::export_into`
/// makes it.
#[derive(Drop)]
struct Look<'a> {
    words: &'a Words,
    // the number of the words' contexts: read from the words, it would be loaded again for each place
    contexts: usize,
    buffer: usize,
    level: Usage,
    ghost counted: { contexts ≡ words.now.contexts },
    ghost few: { contexts ≤ CONTEXTS },
    ghost within: { buffer < words.now.buffers },
}

impl<'a> Look<'a> {
    /// Pushes the latest point that the buffer shows of each context, if it is above the reach, by one look at each place.
    fn latest_shown(&self, seat: &mut Seat, reach: &Reach, points: &mut Vec<Point>)
        requires own { seat.old.words ≡ self.now.words.now }
        requires empty { points.old.items ≡ [] }
        requires room { self.now.contexts ≤ vec_capacity points.old }
        ensures listed { HasListed self.now.words.now self.now.buffer self.now.level self.now.contexts
            seat.old seat.new reach.now points.new.items }
    {
        for index in 0..self.contexts {
            let ctx = Context::at(index);
            let reached = reach.get(ctx);
            let value = self.latest_at(seat, ctx, reached);
            if value > reached {
                points.push_reserved(Point { ctx, value });
            }
        }
    }

    /// The latest of a value and of what the places of a context show, by one look at each.
    #[inline(always)]
    fn latest_at(&self, seat: &mut Seat, ctx: Context, value: u64) -> u64
        requires own { seat.old.words ≡ self.now.words.now }
        requires context { ctx ≤ self.now.contexts }
        ensures shown { HasShown self.now.words.now self.now.buffer (usage_number self.now.level) ctx
            (places_at self.now.level ctx) seat.old seat.new value result }
    {
        let kernel = self.later_at(seat, ctx, Usage::Kernel, value);
        let write = self.later_at(seat, ctx, Usage::Write, kernel);
        let read = self.later_at(seat, ctx, Usage::Read, write);
        self.later_at(seat, ctx, Usage::Bookkeep, read)
    }

    /// The later of a value and of what a place shows. It looks if the place's usage is up to the level.
    #[inline(always)]
    fn later_at(&self, seat: &mut Seat, ctx: Context, usage: Usage, value: u64) -> u64
        requires own { seat.old.words ≡ self.now.words.now }
        requires context { ctx ≤ self.now.contexts }
        ensures shown { HasShown self.now.words.now self.now.buffer (usage_number self.now.level) ctx
            (place_to self.now.level ctx usage) seat.old seat.new value result }
    {
        if usage.number() <= self.level.number() {
            self.words
                .shown_of(seat, self.contexts, self.buffer, ctx, usage)
                .max(value)
        } else {
            value
        }
    }
}

/// Empties the list, and gives it room for that many points. The list goes by value: one that was lent to a call that may
/// allocate would be read and written in memory at each push.
fn with_room(mut points: Vec<Point>, count: usize) -> Result<Vec<Point>, Refusal>
    ensures empty { IfOk result (λ points. points.items ≡ []) }
    ensures room { IfOk result (λ points. count ≤ vec_capacity points) }
    ensures memory { IfErr result (λ e. e ≡ refusal.Memory) }
{
    points.clear();
    points.reserve(count)?;
    Ok(points)
}

/// Takes the memory of a listing's points, to fill it anew: a client fills one listing for all of its looks, on a board
/// or a `LockedTable`.
pub(crate) fn take_points(alloc: Global, points: &mut Items<Point>) -> Vec<Point>
    ensures left { points.new ≡ [] }
{
    let none = Items::of(Vec::new(alloc));
    mem::replace(points, none).into_vec()
}
