//! Loads of clocks: one of a context's mark, and if it is open one of its value.
ghost use Rattle.std.specs.Prelude.{◌≡◌, ◌+◌, ◌<◌, ◌≤◌, true, replicate};
ghost use Rattle.point_core.specs.Clocks.{new_clock, clock_at, with_clock, reached_by};
ghost use Rattle.point_core.specs.declared.context.TheConstants.{CONTEXTS};
ghost use Rattle.words_core.specs.theorem.Layout.{value_word, mark_word};
ghost use Rattle.words_core.specs.theorem.Loads.{clock_seen, loads_at, HasLoadedAll, HasLoadedClocks};
ghost use Rattle.words_core.specs.theorem.Seat.{seen, with_step, with_steps};
ghost use Rattle.words_core.specs.theorem.Trace.{load};

use crate::seat::Seat;
use crate::words::Words;
use point_core::{Clock, Clocks, Context, Point, Reach};

impl Words {
    /// Whether a context is closed, by one load of its mark. A closed context stays closed, and its clock never
    /// changes. Its value, the mark less 1, is no less than any that the seat has seen. For users of the library; no
    /// program here calls it.
    pub fn closed(&self, seat: &mut Seat, ctx: Context) -> bool
        requires own { seat.old.words ≡ self.now }
        requires context { ctx ≤ self.now.contexts }
        ensures entered { seat.new ≡ with_step seat.old (load (mark_word ctx) (seen seat.new (mark_word ctx))) }
        ensures found { result ≡ (clock_seen seat.new ctx).closed }
        ensures last { result ≡ true → seen seat.old (value_word ctx) < seen seat.new (mark_word ctx) }
        ensures stays { (clock_seen seat.old ctx).closed ≡ true → clock_seen seat.new ctx ≡ clock_seen seat.old ctx }
    {
        self.mark(seat, ctx) > 0
    }

    /// The clock of a context, by one load of its mark, which has both facts if the context is closed, and one of its
    /// value if it is open. It reaches no less than the seat has seen. The clock of a closed context never changes, and
    /// its value is no less than any that the seat has seen.
    pub fn clock(&self, seat: &mut Seat, ctx: Context) -> Clock
        requires own { seat.old.words ≡ self.now }
        requires context { ctx ≤ self.now.contexts }
        ensures entered { seat.new ≡ with_steps seat.old (loads_at ctx result) }
        ensures found { result ≡ clock_seen seat.new ctx }
        ensures later { reached_by (clock_seen seat.old ctx) ≤ reached_by result }
        ensures last { result.closed ≡ true → seen seat.old (value_word ctx) ≤ result.value }
        ensures stays { (clock_seen seat.old ctx).closed ≡ true → result ≡ clock_seen seat.old ctx }
    {
        let mark = self.mark(seat, ctx);
        if mark > 0 {
            Clock {
                value: mark - 1,
                closed: true,
            }
        } else {
            let value = self.load(seat, ctx);
            Clock {
                value,
                closed: false,
            }
        }
    }

    /// The clocks of all contexts, by loads in rising order: no single moment need have had all of them. Each clock is
    /// loaded as by `clock`, so a point that was signalled or cancelled stays so. Past the last context each is open
    /// at 0. For users of the library; no program here calls it.
    pub fn load_clocks(&self, seat: &mut Seat) -> Clocks
        requires own { seat.old.words ≡ self.now }
        ensures loaded { HasLoadedClocks seat.old seat.new result }
    {
        let mut clocks = Clocks::zero();
        for index in 0..self.sizes.contexts {
            let ctx = Context::at(index);
            let clock = self.clock(seat, ctx);
            put(&mut clocks, ctx, clock);
        }
        clocks
    }

    /// The reach of the clocks of all contexts, by loads in rising order: no single moment need have had all of them.
    /// It has the value of an open context, and the greatest value of a closed one. Each clock is loaded as by `clock`,
    /// so a point that was signalled or cancelled stays so. Past the last context it is 0.
    ///
    /// For users of the library; no program here calls it.
    pub fn load_all(&self, seat: &mut Seat) -> Reach
        requires own { seat.old.words ≡ self.now }
        ensures loaded { HasLoadedAll seat.old seat.new result }
    {
        let mut reach = Reach::zero();
        self.load_all_into(seat, &mut reach);
        reach
    }

    /// Loads all values into a reach that is all 0, which saves the copies of a result.
    pub fn load_all_into(&self, seat: &mut Seat, reach: &mut Reach)
        requires own { seat.old.words ≡ self.now }
        requires zero { reach.old ≡ replicate CONTEXTS 0 }
        ensures loaded { HasLoadedAll seat.old seat.new reach.new }
    {
        for index in 0..self.sizes.contexts {
            let ctx = Context::at(index);
            let clock = self.clock(seat, ctx);
            reach.raise_to(Point {
                ctx,
                value: clock.reached(),
            });
        }
    }
}

// Gives a context that is new its clock.
fn put(clocks: &mut Clocks, ctx: Context, clock: Clock)
    requires new { clock_at clocks.old ctx ≡ new_clock }
    ensures put { clocks.new ≡ with_clock clocks.old ctx clock }
    ensures context { ctx ≤ CONTEXTS }
{
    let value = clock.value;
    clocks.raise_to(Point { ctx, value });
    if clock.closed {
        clocks.close(ctx);
    }
}
