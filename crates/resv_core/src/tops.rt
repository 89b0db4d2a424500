//! `Tops`: the latest point of each context, in one table for each usage; the table of a usage has the stronger usages'
//! points too.
ghost use Rattle.std.specs.Prelude.{◌≡◌, ℕ, ◌+◌, ◌*◌, ◌<◌, ◌≤◌, ◌↔◌, ◌++◌, ◌∷◌, [], IfErr, IfOk, IsTrue, List, map, vec_len};
ghost use Rattle.std.specs.Vec.{vec_capacity};
ghost use Rattle.point_core.specs.declared.entry.Entry.{Entry};
ghost use Rattle.point_core.specs.declared.context.TheConstants.{CONTEXTS};
ghost use Rattle.point_core.specs.Agreement.{AgreesAbove, HasContexts, point_of};
ghost use Rattle.point_core.specs.Latest.{IsLatest, points_above};
ghost use Rattle.point_core.specs.Reach.{value_at, IsAtLeast};
ghost use Rattle.point_core.specs.Usage.{usage_number};
ghost use Rattle.point_core.specs.Used.{used_of};
ghost use Rattle.resv_core.specs.declared.tops.TheConstants.{USAGES};
ghost use Rattle.resv_core.specs.Resv.{IsTrimmed, row_of, rows_of};
ghost use Rattle.resv_core.specs.Tops.{AreSame, AreSameAt, AreTops, entries_at, entry_above};

use point_core::{CONTEXTS, Context, Entry, LatestPoints, Point, Reach, Refusal, TopRow, Usage};
use std::alloc::Global;

/// The number of usages.
pub(crate) const USAGES: usize = 4;

/// Tables of latest points, which start as a reach: for each usage one that has the stronger usages too. Above that
/// reach they determine every answer about a list of entries.
#[derive(Debug, Drop)]
pub struct Tops {
    pub kernel: LatestPoints,
    pub write: LatestPoints,
    pub read: LatestPoints,
    pub bookkeep: LatestPoints,
}

impl Tops {
    /// No entry: the tables are at the values of the reach.
    pub fn above(reach: &Reach) -> Tops
        ensures empty { AreTops result reach.now [] }
    {
        let none = LatestPoints::above(reach);
        Tops {
            kernel: none,
            write: none,
            read: none,
            bookkeep: none,
        }
    }

    /// The tables of these entries.
    pub(crate) fn of(entries: &[Entry], reach: &Reach) -> Tops
        ensures tops { AreTops result reach.now entries.now }
        ensures contexts { HasContexts entries.now }
    {
        let mut tops = Tops::above(reach);
        for entry in entries {
            tops.put(entry);
        }
        tops
    }

    /// Whether both have equal tables.
    pub fn is_same(&self, other: &Tops) -> bool
        ensures same { IsTrue result ↔ AreSame self.now other.now }
    {
        for index in 0..CONTEXTS {
            if !self.is_same_at(other, Context::at(index)) {
                return false;
            }
        }
        true
    }

    fn is_same_at(&self, other: &Tops, ctx: Context) -> bool
        ensures same { IsTrue result ↔ AreSameAt self.now other.now ctx }
    {
        self.kernel.get(ctx) == other.kernel.get(ctx)
            && self.write.get(ctx) == other.write.get(ctx)
            && self.read.get(ctx) == other.read.get(ctx)
            && self.bookkeep.get(ctx) == other.bookkeep.get(ctx)
    }

    /// Puts an entry into the tables of its usage and of the weaker ones.
    pub fn put(&mut self, entry: &Entry)
        ensures tops { (reach : List ℕ) (es : List Entry) →
            AreTops self.old reach es → AreTops self.new reach (es ++ entry.now ∷ []) }
        ensures context { HasContexts (entry.now ∷ []) }
    {
        put_at(&mut self.kernel, Usage::Kernel, entry);
        put_at(&mut self.write, Usage::Write, entry);
        put_at(&mut self.read, Usage::Read, entry);
        put_at(&mut self.bookkeep, Usage::Bookkeep, entry);
    }

    /// The points above the reach, from the strongest usage to the weakest, by rising context. Nothing is promised of tables that
    /// began at a higher reach, since they lack the points up to it. The room of all rows is allocated first, so no push can fail.
    pub fn rows(&self, alloc: Global, reach: &Reach) -> Result<Vec<TopRow>, Refusal>
        ensures rows { (es : List Entry) → AreTops self.now reach.now es →
            IfOk result (λ rows. rows.items ≡ rows_of es reach.now) }
        ensures risen { (lower : List ℕ) (es : List Entry) → AreTops self.now lower es → IsAtLeast reach.now lower →
            IfOk result (λ rows. rows.items ≡ rows_of es reach.now) }
        ensures memory { IfErr result (λ e. e ≡ Refusal.Memory) }
    {
        // One row for each context in use, at each usage. Room for all contexts would take 16 KiB.
        let room = self.kernel.used() + self.write.used() + self.read.used() + self.bookkeep.used();
        let mut rows = Vec::with_capacity(alloc, room)?;
        push_rows(&mut rows, Usage::Kernel, &self.kernel, reach);
        push_rows(&mut rows, Usage::Write, &self.write, reach);
        push_rows(&mut rows, Usage::Read, &self.read, reach);
        push_rows(&mut rows, Usage::Bookkeep, &self.bookkeep, reach);
        Ok(rows)
    }
}

/// Puts the entries into a table of a usage that has none yet.
pub(crate) fn put_each(latest: &mut LatestPoints, usage: Usage, entries: &[Entry])
    ensures latest { (reach : List ℕ) →
        IsLatest latest.old reach [] (usage_number usage) →
        IsLatest latest.new reach entries.now (usage_number usage) }
{
    for entry in entries {
        put_at(latest, usage, entry);
    }
}

/// Puts an entry into the table of a usage, if it is of that usage or a stronger one.
fn put_at(latest: &mut LatestPoints, usage: Usage, entry: &Entry)
    ensures latest { (reach : List ℕ) (es : List Entry) →
        IsLatest latest.old reach es (usage_number usage) →
        IsLatest latest.new reach (es ++ entry.now ∷ []) (usage_number usage) }
    ensures context { usage_number entry.now.usage ≤ usage_number usage → HasContexts (entry.now ∷ []) }
{
    if entry.usage.number() <= usage.number() {
        latest.put(entry.point);
    }
}

/// Drops the entries that are signalled or covered by another one. Does not allocate.
pub(crate) fn compact(entries: &mut Vec<Entry>, reach: &Reach)
    requires places { USAGES * CONTEXTS ≤ vec_capacity entries.old }
    ensures agrees { AgreesAbove reach.now entries.old.items entries.new.items }
    ensures trimmed { IsTrimmed reach.now entries.new.items }
    ensures contexts { HasContexts entries.new.items }
    ensures few { vec_len entries.new ≤ USAGES * CONTEXTS }
    ensures places { vec_capacity entries.new ≡ vec_capacity entries.old }
{
    let tops = Tops::of(entries.as_slice(), reach);
    entries.clear();
    // The weakest usage's table has every context of an entry.
    for index in 0..tops.bookkeep.used() {
        keep(entries, Context::at(index), &tops, reach);
    }
}

/// Puts back the entries of a context that its tops represent.
fn keep(entries: &mut Vec<Entry>, ctx: Context, tops: &Tops, reach: &Reach)
    requires places { vec_len entries.old + USAGES ≤ vec_capacity entries.old }
    ensures items { entries.new.items ≡ entries.old.items ++ entries_at tops.now reach.now ctx }
    ensures few { vec_len entries.new ≤ vec_len entries.old + USAGES }
    ensures places { vec_capacity entries.new ≡ vec_capacity entries.old }
{
    let kernel = tops.kernel.get(ctx);
    let write = tops.write.get(ctx);
    let read = tops.read.get(ctx);
    let bookkeep = tops.bookkeep.get(ctx);
    keep_above(entries, reach.get(ctx), ctx, kernel, Usage::Kernel);
    keep_above(entries, kernel, ctx, write, Usage::Write);
    keep_above(entries, write, ctx, read, Usage::Read);
    keep_above(entries, read, ctx, bookkeep, Usage::Bookkeep);
}

/// Puts back an entry of the point, if it is later than the stronger usages' points.
fn keep_above(entries: &mut Vec<Entry>, stronger: u64, ctx: Context, value: u64, usage: Usage)
    requires places { vec_len entries.old < vec_capacity entries.old }
    ensures items { entries.new.items ≡ entries.old.items ++ entry_above stronger (point_of ctx value) usage }
    ensures few { vec_len entries.new ≤ vec_len entries.old + 1 }
    ensures places { vec_capacity entries.new ≡ vec_capacity entries.old }
{
    if value > stronger {
        let point = Point { ctx, value };
        entries.push_reserved(Entry { point, usage });
    }
}

/// Appends a row for each point of the table of latest points that is above the reach, by rising context.
fn push_rows(rows: &mut Vec<TopRow>, usage: Usage, latest: &LatestPoints, reach: &Reach)
    requires places { vec_len rows.old + used_of latest.now ≤ vec_capacity rows.old }
    ensures rows { rows.new.items ≡ rows.old.items ++ map (row_of usage) (points_above latest.now reach.now) }
    ensures few { vec_len rows.new ≤ vec_len rows.old + used_of latest.now }
    ensures places { vec_capacity rows.new ≡ vec_capacity rows.old }
{
    for index in 0..latest.used() {
        let ctx = Context::at(index);
        let point = latest.get(ctx);
        if point > reach.get(ctx) {
            rows.push_reserved(TopRow { usage, ctx, point });
        }
    }
}
