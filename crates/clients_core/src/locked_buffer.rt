//! `LockedBuffer`: a buffer as the data of its lock. Its entries agree above its floor with the journal of all puts;
//! each call raises the floor to the caller's reach first, and refuses a lower reach. `LockedTable` keeps one for each
//! buffer.
ghost use Rattle.std.specs.Prelude.{◌≡◌, ◌⊎◌, ◌++◌, ◌∷◌, [], Ok, Err, IfErr, IfOk, IsErr, OnErr, OnOk, ◌↔◌, replicate};
ghost use Rattle.point_core.specs.declared.context.TheConstants.{CONTEXTS};
ghost use Rattle.point_core.specs.declared.refusal.Refusal.TheVariants as refusal;
ghost use Rattle.point_core.specs.Agreement.{AgreesAbove, AllAbove, HasRisingContexts, listing};
ghost use Rattle.point_core.specs.Reach.{IsAtLeast};
ghost use Rattle.point_core.specs.Usage.{usage_number};
ghost use Rattle.resv_core.specs.Resv.{entry_of, rows_of};

use point_core::{Entry, Items, LatestPoints, Listing, Point, Reach, Refusal, TopRow, Usage};
use resv_core::Resv;
use std::alloc::Global;
use std::marker::Model;

/// A buffer that clients share: its reservation, the reach of its last call, its floor, and a journal of all puts.
///
/// A client loads its reach under the buffer's lock, and values only rise, so the floor is never above the reach that
/// comes next. If it is, words and buffer don't belong together, and the call fails with `Torn`.
#[derive(Debug, Drop)]
pub struct LockedBuffer {
    resv: Resv,
    floor: Reach,
    journal: Vec<Entry>,
}

impl Model for LockedBuffer {
    ghost use Rattle.point_core.specs.Agreement.{AgreesAbove};
    ghost use Rattle.clients_core.specs.LockedBuffer.{BufferModel};

    ghost Value = { BufferModel };

    ghost view = { λ b. record { journal = b.journal.items; floor = b.floor } };

    ghost invariant = { λ b. AgreesAbove b.floor b.resv.entries b.journal.items };
}

impl LockedBuffer {
    /// Nothing was put, and the floor is 0.
    ///
    /// Fails only with `Memory`.
    pub fn new(alloc: Global) -> Result<Self, Refusal>
        ensures empty { result ≡ Ok (record { journal = []; floor = replicate CONTEXTS 0 }) }
    {
        Ok(LockedBuffer {
            resv: Resv::new(alloc)?,
            floor: Reach::zero(),
            journal: Vec::new(alloc),
        })
    }

    /// Puts a fence in.
    ///
    /// Fails with `Torn` if the floor is above the reach in some context, which changes nothing, and then with `Memory`.
    /// Else the reach is the floor afterwards, even if it fails with `Memory`. A refusal leaves the journal as it was.
    pub fn put(&mut self, point: Point, usage: Usage, reach: &Reach) -> Result<(), Refusal>
        ensures torn { (result ≡ Err refusal.Torn) ↔ (¬ IsAtLeast reach.now self.old.floor) }
        ensures refusals { IfErr result (λ e. (e ≡ refusal.Torn) ⊎ (e ≡ refusal.Memory)) }
        ensures unchanged { ¬ IsAtLeast reach.now self.old.floor → self.new ≡ self.old }
        ensures floor { IsAtLeast reach.now self.old.floor → self.new.floor ≡ reach.now }
        ensures put { OnOk result (self.new.journal ≡ self.old.journal ++ entry_of point usage ∷ []) }
        ensures refused { OnErr result (self.new.journal ≡ self.old.journal) }
    {
        self.rise_to(reach)?;
        self.journal.reserve(1)?;
        self.resv.reserve(1, reach)?;
        let Point { ctx, value } = point;
        self.resv.add(Point { ctx, value }, usage, reach);
        let point = Point { ctx, value };
        self.journal.push_reserved(Entry { point, usage });
        Ok(())
    }

    /// The pending points of all puts at the usage or a stronger one, and the reach as their floor.
    ///
    /// Fails as `put` does.
    ///
    /// Users of the library call it; no program here does.
    pub fn export(&mut self, usage: Usage, reach: &Reach) -> Result<Listing, Refusal>
        ensures torn { (result ≡ Err refusal.Torn) ↔ (¬ IsAtLeast reach.now self.old.floor) }
        ensures refusals { IfErr result (λ e. (e ≡ refusal.Torn) ⊎ (e ≡ refusal.Memory)) }
        ensures unchanged { ¬ IsAtLeast reach.now self.old.floor → self.new ≡ self.old }
        ensures floor { IsAtLeast reach.now self.old.floor → self.new.floor ≡ reach.now }
        ensures journal { self.new.journal ≡ self.old.journal }
        ensures points { IfOk result (λ l. l.points ≡ listing self.old.journal (usage_number usage) reach.now) }
        ensures listed { IfOk result (λ l. l.floor ≡ reach.now) }
        ensures rising { IfOk result (λ l. HasRisingContexts l.points) }
        ensures above { IfOk result (λ l. AllAbove reach.now l.points) }
    {
        self.rise_to(reach)?;
        let points = self.resv.collect(usage, reach)?;
        Ok(Listing {
            points: Items::of(points),
            floor: *reach,
        })
    }

    /// Like `export`, into a list and by a table that the caller reuses. The reach is the points' floor.
    ///
    /// Fails as `put` does.
    pub(crate) fn export_into(
        &mut self,
        usage: Usage,
        reach: &Reach,
        latest: &mut LatestPoints,
        points: &mut Vec<Point>,
    ) -> Result<(), Refusal>
        ensures torn { (result ≡ Err refusal.Torn) ↔ (¬ IsAtLeast reach.now self.old.floor) }
        ensures refusals { IfErr result (λ e. (e ≡ refusal.Torn) ⊎ (e ≡ refusal.Memory)) }
        ensures unchanged { ¬ IsAtLeast reach.now self.old.floor → self.new ≡ self.old }
        ensures floor { IsAtLeast reach.now self.old.floor → self.new.floor ≡ reach.now }
        ensures journal { self.new.journal ≡ self.old.journal }
        ensures points { OnOk result (points.new.items ≡ listing self.old.journal (usage_number usage) reach.now) }
        ensures rising { OnOk result (HasRisingContexts points.new.items) }
        ensures above { OnOk result (AllAbove reach.now points.new.items) }
    {
        self.rise_to(reach)?;
        self.resv.collect_into(usage, reach, latest, points)
    }

    /// The pending tops of all puts, as `Resv::table` gives them, if the puts say the same above the reach as the
    /// entries that are expected.
    ///
    /// Fails as `put` does, and with `Torn`, which changes nothing, if they don't.
    pub fn settle(&mut self, expected: &[Entry], reach: &Reach) -> Result<Vec<TopRow>, Refusal>
        ensures torn { (result ≡ Err refusal.Torn) ↔
            (¬ (IsAtLeast reach.now self.old.floor × AgreesAbove reach.now self.old.journal expected.now)) }
        ensures refusals { IfErr result (λ e. (e ≡ refusal.Torn) ⊎ (e ≡ refusal.Memory)) }
        ensures unchanged { result ≡ Err refusal.Torn → self.new ≡ self.old }
        ensures floor { ¬ (result ≡ Err refusal.Torn) → self.new.floor ≡ reach.now }
        ensures journal { self.new.journal ≡ self.old.journal }
        ensures rows { IfOk result (λ rows. rows.items ≡ rows_of self.old.journal reach.now) }
        ensures expected { IfOk result (λ rows. rows.items ≡ rows_of expected.now reach.now) }
    {
        if !reach.at_least(&self.floor) || !self.resv.agrees(expected, reach) {
            return Err(Refusal::Torn);
        }
        self.rise_to(reach)?;
        self.resv.table(reach)
    }

    /// Takes the reach as the floor.
    fn rise_to(&mut self, reach: &Reach) -> Result<(), Refusal>
        ensures torn { IsErr result ↔ (¬ IsAtLeast reach.now self.old.floor) }
        ensures refusal { IfErr result (λ e. e ≡ refusal.Torn) }
        ensures risen { OnOk result (self.new ≡ record self.old { floor = reach.now }) }
        ensures unchanged { OnErr result (self.new ≡ self.old) }
    {
        if !reach.at_least(&self.floor) {
            return Err(Refusal::Torn);
        }
        self.floor.copy_from(reach);
        Ok(())
    }
}
