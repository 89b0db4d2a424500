//! `OwnPuts`: the latest points that a client has put into one buffer, by context and usage. `client.rt` enters each
//! put, and asks before each look returns whether the look shows them.
ghost use Rattle.std.specs.Prelude.{◌≡◌, ℕ, ◌+◌, ◌*◌, ◌<◌, ◌≤◌, ◌↔◌, ◌++◌, ◌∷◌, [], true, All, List, IsTrue, length, IfErr, IfOk, vec_len};
ghost use Rattle.std.specs.List.{list_any};
ghost use Rattle.point_core.specs.declared.context.TheConstants.{CONTEXTS};
ghost use Rattle.point_core.specs.declared.entry.Entry.{Entry};
ghost use Rattle.point_core.specs.declared.refusal.Refusal.TheVariants as refusal;
ghost use Rattle.point_core.specs.Agreement.{point_of};
ghost use Rattle.point_core.specs.Usage.{usage_number};
ghost use Rattle.words_core.specs.declared.words.TheConstants.{USAGES};
ghost use Rattle.clients_core.specs.Acting.{KnowPuts};
ghost use Rattle.clients_core.specs.Looks.{is_as_late, shows_all, shows_point};
ghost use Rattle.clients_core.specs.OwnPuts.{AreOwnPuts, point_to, point_up_to};

use point_core::{Context, Entry, Listing, Point, Refusal, Usage};
use std::alloc::Global;
use words_core::USAGES;

/// The latest points that a client has put into a buffer, for each context of the words, at each usage; 0 if there is
/// none. So a look costs the same, however many puts came before it.
#[derive(Drop)]
pub(crate) struct OwnPuts {
    // by context, and then by usage
    latest: Vec<u64>,
}

impl OwnPuts {
    /// Nothing was put.
    pub(crate) fn none(alloc: Global, contexts: usize) -> Result<OwnPuts, Refusal>
        requires contexts { contexts ≤ CONTEXTS }
        ensures puts { IfOk result (λ own. AreOwnPuts contexts own []) }
        ensures memory { IfErr result (λ e. e ≡ refusal.Memory) }
    {
        Ok(OwnPuts {
            latest: Vec::from_elem(alloc, 0, USAGES * contexts)?,
        })
    }

    /// One more put, of one of the contexts.
    pub(crate) fn put(&mut self, entry: &Entry)
        ensures puts { (contexts : ℕ) (es : List Entry) → entry.now.point.ctx ≤ contexts →
            AreOwnPuts contexts self.old es → AreOwnPuts contexts self.new (es ++ entry.now ∷ []) }
    {
        let Point { ctx, value } = entry.point;
        let place = USAGES * ctx.index() + usize::from(entry.usage.number());
        if place < self.latest.len() {
            self.latest[place] = self.latest[place].max(value);
        }
    }

    /// Whether the buffer's listing at a usage shows each of the puts at the usage or a stronger one: by a point of its
    /// context that is at least as late, or by its floor. No put is of a context past that number.
    pub(crate) fn are_shown(&self, listing: &Listing, usage: Usage, contexts: usize) -> bool
        requires contexts { contexts ≤ CONTEXTS }
        ensures shown { (es : List Entry) → AreOwnPuts contexts self.now es → All (λ e. e.point.ctx ≤ contexts) es →
            IsTrue result ↔ (shows_all listing.now (usage_number usage) es ≡ true) }
    {
        if self.latest.len() < USAGES * contexts {
            return false;
        }
        for index in 0..contexts {
            if !shows_point(listing, index, self.at(index, usage)) {
                return false;
            }
        }
        true
    }

    /// The latest point of the context at a place, at a usage or a stronger one.
    fn at(&self, index: usize, usage: Usage) -> u64
        requires context { (index < CONTEXTS) × (USAGES * index + USAGES ≤ vec_len self.now.latest) }
        ensures { result ≡ point_to self.now (usage_number usage) (index + 1) }
    {
        let kernel = self.up_to(usage, index, Usage::Kernel);
        let write = self.up_to(usage, index, Usage::Write);
        let read = self.up_to(usage, index, Usage::Read);
        let bookkeep = self.up_to(usage, index, Usage::Bookkeep);
        kernel.max(write).max(read).max(bookkeep)
    }

    /// The latest point of the context at a place, at a usage; 0 if the usage is weaker than the level.
    fn up_to(&self, level: Usage, index: usize, usage: Usage) -> u64
        requires context { (index < CONTEXTS) × (USAGES * index + USAGES ≤ vec_len self.now.latest) }
        ensures { result ≡ point_up_to self.now level (index + 1) usage }
    {
        if usage.number() <= level.number() {
            self.latest[USAGES * index + usize::from(usage.number())]
        } else {
            0
        }
    }
}

/// Whether the listing shows the point of the context at a place, by its floor or by a point of the context that is at least as
/// late.
fn shows_point(listing: &Listing, index: usize, value: u64) -> bool
    requires context { index < CONTEXTS }
    ensures { result ≡ shows_point listing.now (point_of (index + 1) value) }
{
    if value <= listing.floor.at(index) {
        return true;
    }
    let ctx = Context::at(index);
    is_listed(&Point { ctx, value }, listing.points.as_slice())
}

/// Whether a point of the list is of the same context and at least as late.
fn is_listed(point: &Point, points: &[Point]) -> bool
    ensures { result ≡ list_any (is_as_late point.now) points.now }
{
    points.iter().any(|listed| is_as_late(point, listed))
}

fn is_as_late(point: &Point, listed: &Point) -> bool
    ensures { result ≡ is_as_late point.now listed.now }
{
    listed.ctx == point.ctx && point.value <= listed.value
}

/// No puts, for each buffer.
pub(crate) fn no_puts(
    alloc: Global,
    buffers: usize,
    contexts: usize,
) -> Result<Vec<OwnPuts>, Refusal>
    requires contexts { contexts ≤ CONTEXTS }
    ensures buffers { IfOk result (λ own. length own.items ≡ buffers) }
    ensures none { IfOk result (λ own. KnowPuts contexts own.items []) }
    ensures memory { IfErr result (λ e. e ≡ refusal.Memory) }
{
    let mut own = Vec::with_capacity(alloc, buffers)?;
    for _ in 0..buffers {
        own.push_reserved(OwnPuts::none(alloc, contexts)?);
    }
    Ok(own)
}
