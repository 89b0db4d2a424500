//! `Timelines`: the timelines of a service, by name and by context. Names are distinct, contexts are given out in order
//! of making, and the clocks of all other contexts are new. The desk keeps one.
ghost use Rattle.std.specs.Prelude.{◌≡◌, List, ℕ, ◌+◌, ◌<◌, ◌≤◌, ◌^◌, ◌↔◌, [], ◌∷◌, ◌++◌, true, false, length, map, is_ok, is_some, IsTrue, IsSome, IsOk, IfSome, IfOk, IfErr, OnOk, OnErr, MatchOption};
ghost use Rattle.point_core.specs.declared.context.TheConstants.{CONTEXTS};
ghost use Rattle.point_core.specs.Named.{same_name};

use indexmap::IndexSet;
use point_core::{
    CONTEXTS, Clock, Clocks, Context, LimitKind, Name, Point, Reach, Refusal, TimelineRow,
};
use std::alloc::Global;
use std::marker::Model;

/// Named timelines, as libsync's sw_sync has them: a timeline begins at 0, and an increment adds to its value.
///
/// There are at most `CONTEXTS`. Only `clear` removes timelines, closed ones too. A value does not wrap, while the kernel's 32-bit
/// one does.
#[derive(Debug, Drop)]
pub struct Timelines {
    names: IndexSet<Name>,
    clocks: Clocks,
}

impl Model for Timelines {
    ghost use Rattle.std.specs.Prelude.{List};
    ghost use Rattle.timeline_core.specs.Timeline.{Timeline};
    ghost use Rattle.timeline_core.specs.Stored.{timelines_of, AreStored};

    ghost Value = { List Timeline };

    ghost view = { λ a. timelines_of a.names.keys a.clocks };

    ghost invariant = { λ a. AreStored a.names.keys a.clocks };
}

impl Timelines {
    ghost use Rattle.timeline_core.specs.Timeline.{timeline_of, new_timeline, has_timeline, timeline_at, context_of};
    ghost use Rattle.timeline_core.specs.Timeline.{name_at, names_of, clocks_of, reach_of, value_of, is_closed, rows_of};
    ghost use Rattle.timeline_core.specs.Timeline.{raised, shut, cause_if_not_open, cause_to_refuse_inc, AreTimelines};
    ghost use Rattle.timeline_core.specs.Run.{Leaves, Create, Inc, Shut, RaiseTo, Close};
    ghost use Rattle.point_core.specs.Reach.{GREATEST, with_value, reaching, IsAtLeast};
    ghost use Rattle.point_core.specs.Clocks.{clock_of, clock_at};
    ghost use Rattle.point_core.specs.Agreement.{point_of};

    /// No timelines. It takes no memory yet, so it is never refused.
    pub fn new(alloc: Global) -> Result<Timelines, Refusal>
        ensures empty { result ≡ Ok [] }
    {
        Ok(Timelines {
            names: IndexSet::new(alloc),
            clocks: Clocks::zero(),
        })
    }

    /// Removes all timelines. The next ones reuse their memory.
    pub fn clear(&mut self)
        ensures { self.new ≡ [] }
    {
        self.names.clear();
        self.clocks = Clocks::zero();
    }

    /// Makes a timeline of that name, with the value 0, as libsync's `sw_sync_timeline_create` does.
    ///
    /// Fails with `Exists` if there is one, `Limit` if all contexts are given out, and `Memory`; then nothing
    /// has changed.
    pub fn create(&mut self, name: Name) -> Result<Context, Refusal>
        ensures number { IfOk result (λ ctx. ctx ≡ length self.old + 1) }
        ensures added { OnOk result (self.new ≡ self.old ++ new_timeline name ∷ []) }
        ensures leaves { Leaves (Create name) (is_ok result) self.old self.new }
        ensures found { IfOk result (λ ctx. context_of self.new name ≡ ctx) }
        ensures same_clocks { clocks_of self.new ≡ clocks_of self.old }
        ensures same_reach { reach_of self.new ≡ reach_of self.old }

        ensures exists { (result ≡ Err Refusal.Exists) ↔ IsTrue (has_timeline self.old name) }
        ensures limit { (result ≡ Err (Refusal.Limit LimitKind.Timelines)) ↔
            ((has_timeline self.old name ≡ false) × (length self.old ≡ CONTEXTS)) }
        ensures memory { IfErr result (λ e.
            has_timeline self.old name ≡ false → length self.old < CONTEXTS → e ≡ Refusal.Memory) }
        ensures err { OnErr result (self.new ≡ self.old) }
        ensures timelines { AreTimelines self.new }
    {
        if self.names.contains(&name) {
            return Err(Refusal::Exists);
        }
        let index = self.names.len();
        if index == CONTEXTS {
            return Err(Refusal::Limit(LimitKind::Timelines));
        }
        self.names.insert(name).map_err(|_| Refusal::Memory)?;
        Ok(Context::at(index))
    }

    /// The point that the open timeline of that name has reached.
    ///
    /// Fails with `NoEntry`, and with `Cancelled` if the timeline is closed.
    #[inline(always)]
    pub fn current(&self, name: &Name) -> Result<Point, Refusal>
        ensures point { IfOk result (λ p. p ≡ point_of (context_of self.now name.now) (value_of self.now name.now)) }
        ensures known { IfOk result (λ p. IsTrue (has_timeline self.now name.now) × (p.ctx ≤ length self.now)) }
        ensures not_closed { IfOk result (λ p. (clock_at (clocks_of self.now) p.ctx).closed ≡ false) }
        ensures refused { MatchOption (cause_if_not_open self.now name.now) (IsOk result) (λ cause. result ≡ Err cause) }
        ensures last { IfOk result (λ p. reaching (reach_of self.now) (point_of p.ctx GREATEST) ≡ reach_of (shut self.now name.now)) }
        ensures timelines { OnOk result (AreTimelines self.now) }
    {
        let ctx = self.context(name).ok_or(Refusal::NoEntry)?;
        let Clock { value, closed } = self.clocks.clock(ctx);
        if closed {
            return Err(Refusal::Cancelled);
        }
        Ok(Point { ctx, value })
    }

    /// The point that the timeline of that name reaches by an increment of n.
    ///
    /// Fails as `inc` does.
    #[inline(always)]
    pub fn next(&self, name: &Name, n: u64) -> Result<Point, Refusal>
        ensures point { IfOk result (λ p. p ≡ point_of (context_of self.now name.now) (value_of self.now name.now + n)) }
        ensures known { IfOk result (λ p. IsTrue (has_timeline self.now name.now) × (p.ctx ≤ length self.now)) }
        ensures not_closed { IfOk result (λ p. (clock_at (clocks_of self.now) p.ctx).closed ≡ false) }
        ensures refused { MatchOption (cause_to_refuse_inc self.now name.now n) (IsOk result) (λ cause. result ≡ Err cause) }
        ensures reach { IfOk result (λ p. reaching (reach_of self.now) p ≡ reach_of (raised self.now name.now n)) }
    {
        let Point { ctx, value } = self.current(name)?;
        let value = value.checked_add(n).ok_or(Refusal::Overflow)?;
        Ok(Point { ctx, value })
    }

    /// Adds n to the value of that timeline, as libsync's `sw_sync_timeline_inc` does, and answers the new value.
    ///
    /// Fails with `NoEntry`, with `Cancelled` if the timeline is closed, and with `Overflow` if the value would pass the
    /// greatest u64; then nothing has changed. Does not allocate.
    pub fn inc(&mut self, name: &Name, n: u64) -> Result<u64, Refusal>
        ensures value { IfOk result (λ v. v ≡ value_of self.old name.now + n) }
        ensures raised { OnOk result (self.new ≡ raised self.old name.now n) }
        ensures leaves { Leaves (Inc name.now n) (is_ok result) self.old self.new }
        ensures reach { OnOk result (reach_of self.new ≡
            with_value (reach_of self.old) (context_of self.old name.now) (value_of self.old name.now + n)) }
        ensures never_falls { IsAtLeast (reach_of self.new) (reach_of self.old) }

        ensures accepted { IsOk result ↔ (IsTrue (has_timeline self.old name.now)
            × (is_closed self.old name.now ≡ false) × (value_of self.old name.now + n < 2 ^ 64)) }
        ensures missing { (result ≡ Err Refusal.NoEntry) ↔ (has_timeline self.old name.now ≡ false) }
        ensures cancelled { (result ≡ Err Refusal.Cancelled) ↔ IsTrue (is_closed self.old name.now) }
        ensures overflow { (result ≡ Err Refusal.Overflow) ↔ (IsTrue (has_timeline self.old name.now)
            × (is_closed self.old name.now ≡ false) × (2 ^ 64 ≤ value_of self.old name.now + n)) }
        ensures err { OnErr result (self.new ≡ self.old) }
    {
        let Point { ctx, value } = self.next(name, n)?;
        self.raise_to(Point { ctx, value });
        Ok(value)
    }

    /// Closes that timeline, as the close of a sw_sync timeline's descriptor does, and answers its value, which stays. Its
    /// pending points are cancelled: each point of it is reached from now on.
    ///
    /// Fails with `NoEntry`, and with `Cancelled` if it is closed already; then nothing has changed. Does not allocate.
    ///
    /// For users of the library; no program here calls it: the desk calls `current` and `close`.
    pub fn shut(&mut self, name: &Name) -> Result<u64, Refusal>
        ensures value { IfOk result (λ v. v ≡ value_of self.old name.now) }
        ensures shut { OnOk result (self.new ≡ shut self.old name.now) }
        ensures leaves { Leaves (Shut name.now) (is_ok result) self.old self.new }
        ensures reach { OnOk result (reach_of self.new ≡
            reaching (reach_of self.old) (point_of (context_of self.old name.now) GREATEST)) }
        ensures never_falls { IsAtLeast (reach_of self.new) (reach_of self.old) }

        ensures accepted { IsOk result ↔ (IsTrue (has_timeline self.old name.now) × (is_closed self.old name.now ≡ false)) }
        ensures missing { (result ≡ Err Refusal.NoEntry) ↔ (has_timeline self.old name.now ≡ false) }
        ensures cancelled { (result ≡ Err Refusal.Cancelled) ↔ IsTrue (is_closed self.old name.now) }
        ensures err { OnErr result (self.new ≡ self.old) }
    {
        let Point { ctx, value } = self.current(name)?;
        self.close(ctx);
        Ok(value)
    }

    /// Raises the value of the open timeline of that context to the point's, unless it is there already. `inc` calls it with
    /// the point that `next` gives.
    pub fn raise_to(&mut self, point: Point)
        requires made { point.ctx ≤ length self.old }
        requires not_closed { (clock_at (clocks_of self.old) point.ctx).closed ≡ false }
        ensures leaves { Leaves (RaiseTo point.ctx point.value) true self.old self.new }
        ensures reach { reach_of self.new ≡ reaching (reach_of self.old) point }
        ensures names { names_of self.new ≡ names_of self.old }
        ensures raised { (name : List ℕ) (n : ℕ) →
            IsTrue (has_timeline self.old name) → context_of self.old name ≡ point.ctx →
            value_of self.old name + n ≡ point.value → self.new ≡ raised self.old name n }
    {
        self.clocks.raise_to(point);
    }

    /// Closes the open timeline of that context. `shut` calls it once `current` has found the name.
    pub fn close(&mut self, ctx: Context)
        requires made { ctx ≤ length self.old }
        requires not_closed { (clock_at (clocks_of self.old) ctx).closed ≡ false }
        ensures leaves { Leaves (Close ctx) true self.old self.new }
        ensures reach { reach_of self.new ≡ with_value (reach_of self.old) ctx GREATEST }
        ensures shut { (name : List ℕ) →
            IsTrue (has_timeline self.old name) → context_of self.old name ≡ ctx → self.new ≡ shut self.old name }
    {
        self.clocks.close(ctx);
    }

    /// The value of the timeline of that name. A closed timeline keeps its value.
    ///
    /// Fails with `NoEntry`. Does not allocate.
    pub fn value(&self, name: &Name) -> Result<u64, Refusal>
        ensures value { IfOk result (λ v. v ≡ value_of self.now name.now) }
        ensures timeline { IfOk result (λ v. timeline_at self.now name.now ≡
            Some (timeline_of name.now (clock_of v (is_closed self.now name.now)))) }
        ensures found { IsOk result ↔ IsTrue (has_timeline self.now name.now) }
        ensures missing { IfErr result (λ e. e ≡ Refusal.NoEntry) }
    {
        let ctx = self.context(name).ok_or(Refusal::NoEntry)?;
        Ok(self.clocks.value(ctx))
    }

    /// The context of the timeline of that name.
    pub fn context(&self, name: &Name) -> Option<Context>
        ensures found { IsSome result ↔ IsTrue (has_timeline self.now name.now) }
        ensures value { IfSome result (λ ctx. ctx ≡ context_of self.now name.now) }
        ensures made { IfSome result (λ ctx. (1 ≤ ctx) × (ctx ≤ length self.now)) }
    {
        let index = self.names.get_index_of(name)?;
        Some(Context::at(index))
    }

    /// The name of the timeline of that context, or none if it was not made.
    pub fn name(&self, ctx: Context) -> Option<Name>
        ensures { result ≡ name_at self.now ctx }
    {
        self.names.get_index(ctx.index()).copied()
    }

    /// The value of each context, and which are closed; 0 and open if no timeline was made.
    ///
    /// Users of the library call it; no program here does.
    pub fn clocks(&self) -> Clocks
        ensures value { result ≡ clocks_of self.now }
        ensures timelines { AreTimelines self.now }
    {
        *self.as_clocks()
    }

    /// Borrows the clocks instead of copying them.
    pub fn as_clocks(&self) -> &Clocks
        ensures value { result.now ≡ clocks_of self.now }
        ensures timelines { AreTimelines self.now }
    {
        &self.clocks
    }

    /// What each context has reached: its value, or the greatest one if its timeline is closed; 0 if no timeline was
    /// made.
    ///
    /// Users of the library call it; no program here does.
    pub fn reach(&self) -> Reach
        ensures value { result ≡ reach_of self.now }
        ensures timelines { AreTimelines self.now }
    {
        self.clocks.reach()
    }

    /// Borrows the reach instead of copying it.
    pub fn as_reach(&self) -> &Reach
        ensures value { result.now ≡ reach_of self.now }
        ensures timelines { AreTimelines self.now }
    {
        self.clocks.as_reach()
    }

    /// A row for each timeline, by context.
    pub fn rows(&self) -> Result<Vec<TimelineRow>, Refusal>
        ensures rows { IfOk result (λ rows. rows.items ≡ rows_of self.now) }
        ensures memory { IfErr result (λ e. e ≡ Refusal.Memory) }
    {
        let names = self.names.as_slice();
        let mut rows = Vec::with_capacity(*self.names.allocator(), names.len())?;
        for (index, name) in names.iter().enumerate() {
            let clock = self.clocks.clock(Context::at(index));
            rows.push_reserved(TimelineRow {
                name: *name,
                value: clock.value,
                closed: clock.closed,
            });
        }
        Ok(rows)
    }
}
