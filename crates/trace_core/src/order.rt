//! `Order`: how far the signals of a context have come. The kernel prints 32 bits of a seqno, so it is kept both as numbers and on
//! the circle of 32 bits (Linux's `__dma_fence_is_later`).
ghost use Rattle.std.specs.Prelude.{◌≡◌};
ghost use Rattle.trace_core.specs.Order.{is_late, is_late_wrapped, is_repeat, order_after, order_signalled, is_furthest, is_later};

use crate::event::Event;

/// Half of the numbers of 32 bits: a seqno that is less than this ahead of another is the later one, as in the kernel's
/// `__dma_fence_is_later`.
const HALF: u32 = 0x8000_0000;

/// How far the fences of a context were signalled.
#[derive(Clone, Copy)]
pub struct Order {
    /// Whether one was.
    pub some: bool,
    /// The greatest seqno that was signalled.
    pub furthest: u32,
    /// The furthest on the circle of 32 bits.
    pub furthest_wrapped: u32,
    /// How many events came before the signal of `furthest_wrapped`.
    pub at: u64,
    /// The last that was signalled.
    pub last: u32,
}

impl Order {
    /// None was signalled.
    pub const NONE: Order = Order {
        some: false,
        furthest: 0,
        furthest_wrapped: 0,
        at: 0,
        last: 0,
    };

    /// Whether a greater seqno was signalled before, as a driver of 64 bits compares.
    pub fn is_late(&self, seqno: u32) -> bool
        ensures { result ≡ is_late self.now seqno }
    {
        self.some && seqno < self.furthest
    }

    /// Whether a later seqno was signalled before, as a driver of 32 bits compares.
    pub fn is_late_wrapped(&self, seqno: u32) -> bool
        ensures { result ≡ is_late_wrapped self.now seqno }
    {
        self.some && is_later(self.furthest_wrapped, seqno)
    }

    /// Whether the last fence that was signalled has this seqno.
    pub fn is_repeat(&self, seqno: u32) -> bool
        ensures { result ≡ is_repeat self.now seqno }
    {
        self.some && self.last == seqno
    }

    /// The order after event number `at`, of the fence with `seqno`.
    #[tactic(auto, unfolding(crate::specs::Order::order_after))]
    pub fn after(self, event: Event, seqno: u32, at: u64) -> Order
        ensures { result ≡ order_after event seqno at self }
    {
        match event {
            Event::Signaled => self.signalled(seqno, at),
            Event::Init
            | Event::Emit
            | Event::EnableSignal
            | Event::WaitStart
            | Event::WaitEnd
            | Event::Destroy => self,
        }
    }

    fn signalled(self, seqno: u32, at: u64) -> Order
        ensures { result ≡ order_signalled seqno at self }
    {
        let is_furthest = self.is_furthest(seqno);
        Order {
            some: true,
            furthest: self.furthest.max(seqno),
            furthest_wrapped: if is_furthest {
                seqno
            } else {
                self.furthest_wrapped
            },
            at: if is_furthest { at } else { self.at },
            last: seqno,
        }
    }

    fn is_furthest(&self, seqno: u32) -> bool
        ensures { result ≡ is_furthest self.now seqno }
    {
        !self.some || is_later(seqno, self.furthest_wrapped)
    }
}

/// Whether `a` is ahead of `b` by less than half of the circle.
fn is_later(a: u32, b: u32) -> bool
    ensures { result ≡ is_later a b }
{
    let ahead = a.wrapping_sub(b);
    0 < ahead && ahead < HALF
}
