//! Merges, polls and waits while timelines run: each loads the clocks by a seat, and refuses a file that other words
//! must have made.
ghost use Rattle.std.specs.Prelude.{◌≡◌, ◌≢◌, ℕ, ◌+◌, ◌<◌, ◌≤◌, ◌↔◌, ◌⊎◌, true, List, [], ◌∷◌, ◌++◌, All, IsTrue, IfOk, IfErr, MatchOption, OnOk};
ghost use Rattle.point_core.specs.declared.entry.Entry.{Entry};
ghost use Rattle.point_core.specs.declared.refusal.Refusal.TheVariants as refusal;
ghost use Rattle.point_core.specs.declared.status.Status.TheVariants.{Active};
ghost use Rattle.point_core.specs.declared.clocks.Clock.{Clock};
ghost use Rattle.point_core.specs.declared.entry.Point.{Point};
ghost use Rattle.point_core.specs.Clocks.{clock_at, common_status, new_clock, reach_of_clocks};
ghost use Rattle.point_core.specs.Agreement.{merged, point_of, IsReached};
ghost use Rattle.point_core.specs.Reach.{value_at};
ghost use Rattle.point_core.specs.Used.{used_of};
ghost use Rattle.syncfile_core.specs.SyncFile.{file_of, StandsFor};
ghost use Rattle.words_core.specs.theorem.Loads.{clocks_seen, reach_seen, HasLoadedAll, HasLoadedClocks};
ghost use Rattle.syncfile_core.specs.Running.{IsBorneOutAt, IsBorneOut, HasFoundTo, HasPassedTo, HasPolled, HasRunOut};

use crate::sync_file::SyncFile;
use point_core::{Clock, Context, Floor, Items, Name, Point, Reach, Refusal, Status};
use std::alloc::Global;
use words_core::{Seat, Words};

impl SyncFile {
    /// Merges two files while timelines run: the latest point of each context in either, if it is above the loaded
    /// value: the value of an open context, or the greatest value of a closed one. Each clock is loaded once, so no
    /// single moment need have had all of these values; they are the new file's floor. Linux's `sync_file_merge` asks
    /// each fence once too.
    ///
    /// Fails with `Foreign` if a floor is above the loaded values, or a point's context or a floor above 0 is past the
    /// words' contexts: other words made such a file. Then with `Memory`. The seat's trace has the loads even if the
    /// merge fails.
    pub fn merge_with(
        alloc: Global,
        name: Name,
        a: &SyncFile,
        b: &SyncFile,
        words: &Words,
        seat: &mut Seat,
    ) -> Result<SyncFile, Refusal>
        requires own { seat.old.words ≡ words.now }
        ensures kept { (seat.new.words ≡ seat.old.words) × (seat.new.parts ≡ seat.old.parts) }
        ensures loaded { HasLoadedAll seat.old seat.new (reach_seen seat.new) }
        ensures file { IfOk result (λ f.
            f ≡ file_of name (merged (reach_seen seat.new) a.now.points b.now.points) (reach_seen seat.new)) }
        ensures borne_out { OnOk result (IsBorneOut seat.new a.now × IsBorneOut seat.new b.now) }
        ensures union { IfOk result (λ f. (one other : List Entry) →
            StandsFor a.now one → StandsFor b.now other → StandsFor f (one ++ other)) }
        ensures refused { IfErr result (λ e.
            ((e ≡ refusal.Foreign) × (¬ (IsBorneOut seat.new a.now × IsBorneOut seat.new b.now)))
            ⊎ ((e ≡ refusal.Memory) × (IsBorneOut seat.new a.now × IsBorneOut seat.new b.now))) }
    {
        let mut reach = Reach::zero();
        words.load_all_into(seat, &mut reach);
        bear_out(a, words.contexts(), &reach)?;
        bear_out(b, words.contexts(), &reach)?;
        let points = point_core::merged(alloc, a.points.as_slice(), b.points.as_slice(), &reach)?;
        Ok(SyncFile {
            name,
            points: Items::of(points),
            floor: Floor::of(alloc, &reach)?,
        })
    }

    /// The file's status, by one load of each clock: active while a point is, else cancelled if the timeline of one was
    /// closed before it was reached, else signalled. Once the seat has seen a file not Active, its status never
    /// changes: no signalled point is cancelled later, and a closed timeline keeps its value. A point that is Active
    /// was so at a load of this call. It is the status of Linux's `struct sync_file_info`.
    ///
    /// Fails with `Foreign`, as `merge_with` does. Does not allocate.
    pub fn poll(&self, words: &Words, seat: &mut Seat) -> Result<Status, Refusal>
        requires own { seat.old.words ≡ words.now }
        ensures kept { (seat.new.words ≡ seat.old.words) × (seat.new.parts ≡ seat.old.parts) }
        ensures loaded { HasLoadedClocks seat.old seat.new (clocks_seen seat.new) }
        ensures status { IfOk result (λ status. status ≡ common_status (clocks_seen seat.new) self.now.points) }
        ensures stays { IfOk result (λ status. common_status (clocks_seen seat.old) self.now.points ≢ Active →
            status ≡ common_status (clocks_seen seat.old) self.now.points) }
        ensures borne_out { OnOk result (IsBorneOut seat.new self.now) }
        ensures stands { IfOk result (λ status. (set : List Entry) →
            StandsFor self.now set → ((status ≢ Active) ↔ IsReached set 0 (reach_seen seat.new))) }
        ensures foreign { IfErr result (λ e. (e ≡ refusal.Foreign) × (¬ IsBorneOut seat.new self.now)) }
    {
        let contexts = words.contexts();
        let mut found = Found::none(self);
        for index in 0..contexts {
            let ctx = Context::at(index);
            let clock = words.clock(seat, ctx);
            found.take_in(self, ctx, clock);
        }
        found.status_of(self, contexts)
    }

    /// Polls until a poll is not Active, at most `tries` times: Ok once each point is signalled or cancelled, as
    /// Linux's `sync_wait` answers a fence that has an error. There is no time, and no one is woken.
    ///
    /// Fails with `TimedOut` after `tries` polls that were Active, so at once if `tries` is 0; and with `Foreign` at
    /// the first poll that fails so. Does not allocate.
    pub fn wait_for(&self, words: &Words, seat: &mut Seat, tries: u32) -> Result<(), Refusal>
        requires own { seat.old.words ≡ words.now }
        ensures kept { (seat.new.words ≡ seat.old.words) × (seat.new.parts ≡ seat.old.parts) }
        ensures polled { OnOk result (HasPolled self.now tries seat.old seat.new) }
        ensures signalled { OnOk result
            (IsBorneOut seat.new self.now × (common_status (clocks_seen seat.new) self.now.points ≢ Active)) }
        ensures stands { OnOk result ((set : List Entry) →
            StandsFor self.now set → IsReached set 0 (reach_seen seat.new)) }
        ensures refused { IfErr result (λ e.
            ((e ≡ refusal.TimedOut) × HasRunOut self.now tries seat.old seat.new)
            ⊎ ((e ≡ refusal.Foreign) × HasPolled self.now tries seat.old seat.new
            × (¬ IsBorneOut seat.new self.now))) }
    {
        for _ in 0..tries {
            if self.poll(words, seat)?.is_signalled() {
                return Ok(());
            }
        }
        Err(Refusal::TimedOut)
    }
}

/// The result of a poll so far, by the clocks of the first contexts.
#[derive(Drop)]
struct Found<'a> {
    // whether no value of the file's floor is above the loaded one
    borne_out: bool,
    // the status of the points of these contexts
    status: Status,
    // the points of later contexts
    rest: &'a [Point],
}

impl<'a> Found<'a> {
    /// The state before the first context is scanned.
    fn none(file: &'a SyncFile) -> Found<'a>
        ensures none { (clocks : List Clock) → HasFoundTo clocks file.now 0 result }
    {
        Found {
            borne_out: true,
            status: Status::Signalled,
            rest: file.points.as_slice(),
        }
    }

    /// Scans the next context.
    fn take_in(&mut self, file: &SyncFile, ctx: Context, clock: Clock)
        ensures more { (clocks : List Clock) (n : ℕ) → ctx ≡ n + 1 → clock_at clocks ctx ≡ clock →
            HasFoundTo clocks file.now n self.old → HasFoundTo clocks file.now (n + 1) self.new }
    {
        self.borne_out &= file.floor.get(ctx) <= clock.reached();
        self.pass(ctx, clock);
    }

    /// Adds the status of the context's point, if there is one, and drops the point from the rest.
    fn pass(&mut self, ctx: Context, clock: Clock)
        ensures passed { (clocks : List Clock) (points : List Point) (n : ℕ) → ctx ≡ n + 1 → clock_at clocks ctx ≡ clock →
            HasPassedTo clocks points n self.old.status self.old.rest.now →
            HasPassedTo clocks points (n + 1) self.new.status self.new.rest.now }
        ensures others { self.new.borne_out ≡ self.old.borne_out }
    {
        if let Some((value, later)) = first_at(self.rest, ctx) {
            self.status = self.status.with(clock.status(value));
            self.rest = later;
        }
    }

    /// The file's status, once all contexts of the words were loaded.
    ///
    /// Fails only with `Foreign`, if the file is not consistent with the words.
    fn status_of(&self, file: &SyncFile, contexts: usize) -> Result<Status, Refusal>
        ensures status { (clocks : List Clock) → HasFoundTo clocks file.now contexts self.now →
            IfOk result (λ status. status ≡ common_status clocks file.now.points) }
        ensures borne_out { (clocks : List Clock) → HasFoundTo clocks file.now contexts self.now →
            OnOk result (IsBorneOutAt (reach_of_clocks clocks) contexts file.now) }
        ensures foreign { (clocks : List Clock) → 1 ≤ contexts → HasFoundTo clocks file.now contexts self.now →
            ((ctx : ℕ) → contexts < ctx → clock_at clocks ctx ≡ new_clock) →
            IfErr result (λ e. (e ≡ refusal.Foreign) × (¬ IsBorneOutAt (reach_of_clocks clocks) contexts file.now)) }
    {
        if self.is_borne_out(file, contexts) {
            Ok(self.status)
        } else {
            Err(Refusal::Foreign)
        }
    }

    /// Whether each point's context exists in the words, and no value of the floor is above theirs.
    fn is_borne_out(&self, file: &SyncFile, contexts: usize) -> bool
        ensures { IsTrue result ↔
            ((self.now.borne_out ≡ true) × (self.now.rest.now ≡ []) × (used_of file.now.floor ≤ contexts)) }
    {
        self.borne_out && self.rest.is_empty() && file.floor.used() <= contexts
    }
}

/// The point of the context, if the list begins with one, and the rest.
fn first_at(points: &[Point], ctx: Context) -> Option<(u64, &[Point])>
    ensures first { MatchOption result
        ((p : Point) (ps : List Point) → points.now ≡ p ∷ ps → (1 ≤ p.ctx) × (p.ctx ≢ ctx))
        (λ (value, others). points.now ≡ point_of ctx value ∷ others.now) }
{
    let (first, others) = points.split_first()?;
    if first.ctx.number() == ctx.number() {
        Some((first.value, others))
    } else {
        None
    }
}

/// Returns `Foreign` unless the file is consistent with words of `made` contexts whose values are `reach`.
fn bear_out(file: &SyncFile, made: usize, reach: &Reach) -> Result<(), Refusal>
    ensures borne_out { OnOk result (IsBorneOutAt reach.now made file.now) }
    ensures foreign { IfErr result (λ e. (e ≡ refusal.Foreign) × (¬ IsBorneOutAt reach.now made file.now)) }
{
    if reach.at_least_floor(&file.floor) && has_contexts(made, file.points.as_slice()) {
        Ok(())
    } else {
        Err(Refusal::Foreign)
    }
}

/// Whether each point's context is at most `made`.
fn has_contexts(made: usize, points: &[Point]) -> bool
    ensures exact { IsTrue result ↔ All (λ p. p.ctx ≤ made) points.now }
{
    points
        .iter()
        .all(|point| usize::from(point.ctx.number()) <= made)
}
