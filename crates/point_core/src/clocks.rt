//! `Clocks`: the clock of each context, with their reach kept beside them. `timeline_core` advances and closes the
//! clocks; files and watches read them.
ghost use Rattle.std.specs.Prelude.{◌≡◌, ℕ, ◌<◌, ◌≤◌, length, false};
ghost use Rattle.point_core.specs.declared.context.TheConstants.{CONTEXTS};

use crate::context::{CONTEXTS, Context};
use crate::entry::Point;
use crate::reach::Reach;
use crate::status::Status;
use std::marker::Model;

/// A timeline's value, and whether it is closed. Closing keeps the value and cancels the pending points.
#[derive(Clone, Copy, Debug, PartialEq, Eq, Hash)]
pub struct Clock {
    pub value: u64,
    pub closed: bool,
}

impl Clock {
    ghost use Rattle.point_core.specs.Clocks.{reached_by, status_by};

    /// The last value that counts as reached: the timeline's value while it is open, and the greatest one once it is
    /// closed.
    pub fn reached(self) -> u64
        ensures { result ≡ reached_by self }
    {
        if self.closed { u64::MAX } else { self.value }
    }

    /// The status of this timeline's point at `value`: signalled if the value is reached, cancelled if the timeline
    /// closed before it, else active.
    pub fn status(self, value: u64) -> Status
        ensures { result ≡ status_by self value }
    {
        if value <= self.value {
            Status::Signalled
        } else if self.closed {
            Status::Cancelled
        } else {
            Status::Active
        }
    }
}

/// The clock of each context. A context without a timeline has the value 0, and is open.
///
/// Closing a timeline signals its pending points, as Linux's close of a sw_sync timeline does with `ENOENT`: the reach
/// of a closed context is the greatest value, and its points past the value are cancelled.
#[derive(Clone, Copy, Debug, PartialEq, Eq)]
pub struct Clocks {
    clocks: [Clock; CONTEXTS],
    // the reach of `clocks`
    reach: Reach,
}

impl Model for Clocks {
    ghost use Rattle.std.specs.Prelude.{List};
    ghost use Rattle.point_core.specs.declared.clocks.Clock.{Clock};
    ghost use Rattle.point_core.specs.Clocks.{AreClocks};
    ghost use Rattle.point_core.specs.StoredClocks.{inside_of, inside_of_clocks};

    ghost Value = { List Clock };

    ghost view = { λ c. c.clocks };

    ghost invariant = { λ c. AreClocks c.clocks c.reach };

    ghost inverse = { inside_of };

    ghost inverse_ok = { inside_of_clocks };
}

impl Clocks {
    ghost use Rattle.std.specs.Prelude.{replicate, map};
    ghost use Rattle.point_core.specs.Reach.{reaching, shut_value};
    ghost use Rattle.point_core.specs.Clocks.{open_clock, new_clock, clock_at, reach_of_clocks, raised_clock, closed_clock};
    ghost use Rattle.point_core.specs.Clocks.{with_clock, status_at, common_status};

    /// Every value is 0, and every context open.
    pub fn zero() -> Clocks
        ensures { result ≡ replicate CONTEXTS new_clock }
    {
        Clocks {
            clocks: [Clock {
                value: 0,
                closed: false,
            }; CONTEXTS],
            reach: Reach::zero(),
        }
    }

    /// The values of a reach, with every context open. For users of the library; no program here calls it.
    pub fn open(reach: &Reach) -> Clocks
        ensures clocks { result ≡ map open_clock reach.now }
    {
        let values = reach.values();
        let mut clocks = Clocks::zero().clocks;
        for index in 0..CONTEXTS {
            clocks[index] = Clock {
                value: values.get(index),
                closed: false,
            };
        }
        Clocks {
            clocks,
            reach: *reach,
        }
    }

    /// The reach of the clocks: the value of an open context, and the greatest value of a closed one.
    pub fn reach(&self) -> Reach
        ensures { result ≡ reach_of_clocks self.now }
    {
        self.reach
    }

    /// Borrows the reach instead of copying it.
    pub fn as_reach(&self) -> &Reach
        ensures { result.now ≡ reach_of_clocks self.now }
    {
        &self.reach
    }

    /// The clock of a context.
    pub fn clock(&self, ctx: Context) -> Clock
        ensures clock { result ≡ clock_at self.now ctx }
        ensures full { length self.now ≡ CONTEXTS }
        ensures context { (1 ≤ ctx) × (ctx ≤ CONTEXTS) }
    {
        self.clocks[ctx.index()]
    }

    /// The value of a context, open or closed.
    pub fn value(&self, ctx: Context) -> u64
        ensures { result ≡ (clock_at self.now ctx).value }
    {
        self.clock(ctx).value
    }

    /// Whether a context is closed.
    pub fn closed(&self, ctx: Context) -> bool
        ensures { result ≡ (clock_at self.now ctx).closed }
    {
        self.clock(ctx).closed
    }

    /// The status of a point: reached by the value, cancelled if its context closed before that, else active.
    pub fn status(&self, point: Point) -> Status
        ensures { result ≡ status_at self.now point }
    {
        self.clock(point.ctx).status(point.value)
    }

    /// The status of points together: active while one is, else cancelled if one is, else signalled. An empty list is
    /// signalled. Linux's `sync_file_ioctl_fence_info` gives the status of the first fence that is pending or has an
    /// error; that an error comes after every pending fence is our own rule.
    pub fn common_status(&self, points: &[Point]) -> Status
        ensures { result ≡ common_status self.now points.now }
    {
        let mut status = Status::Signalled;
        for point in points {
            status = status.with(self.status(*point));
            if let Status::Active = status {
                return Status::Active;
            }
        }
        status
    }

    /// Raises the value of an open context to the point, if it is not there yet.
    pub fn raise_to(&mut self, point: Point)
        requires open { (clock_at self.old point.ctx).closed ≡ false }
        ensures clocks { self.new ≡ with_clock self.old point.ctx (raised_clock (clock_at self.old point.ctx) point.value) }
        ensures reach { reach_of_clocks self.new ≡ reaching (reach_of_clocks self.old) point }
        ensures full { length self.old ≡ CONTEXTS }
        ensures context { (1 ≤ point.ctx) × (point.ctx ≤ CONTEXTS) }
    {
        let index = point.ctx.index();
        if self.clocks[index].value < point.value {
            self.clocks[index].value = point.value;
            self.reach.raise_to(point);
        }
    }

    /// Closes a context. Its value stays.
    pub fn close(&mut self, ctx: Context)
        ensures clocks { self.new ≡ with_clock self.old ctx (closed_clock (clock_at self.old ctx)) }
        ensures reach { reach_of_clocks self.new ≡ shut_value (reach_of_clocks self.old) ctx }
        ensures full { length self.old ≡ CONTEXTS }
        ensures context { (1 ≤ ctx) × (ctx ≤ CONTEXTS) }
    {
        self.clocks[ctx.index()].closed = true;
        self.reach.close(ctx);
    }

    /// The clocks after a context closes. Its value stays. For users of the library; no program here calls it.
    pub fn shut(&self, ctx: Context) -> Clocks
        ensures clocks { result ≡ with_clock self.now ctx (closed_clock (clock_at self.now ctx)) }
        ensures reach { reach_of_clocks result ≡ shut_value (reach_of_clocks self.now) ctx }
        ensures full { length self.now ≡ CONTEXTS }
        ensures context { (1 ≤ ctx) × (ctx ≤ CONTEXTS) }
    {
        let mut shut = *self;
        shut.close(ctx);
        shut
    }
}
