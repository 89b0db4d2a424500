//! `StepHandler` and `for_each_step`: the one loop over the steps of a reading. Reports, scripts and trace events run it.
ghost use Rattle.std.specs.Prelude.{◌≡◌, ◌⊎◌, [], IfErr, OnOk};
ghost use Rattle.point_core.specs.declared.refusal.Refusal.TheVariants.{Read as ReadFault, Memory};
ghost use Rattle.trace_core.specs.Reading.{HasTakenIn};
ghost use Rattle.trace_core.specs.Tracker.{Tracks};

use crate::reading::{Next, Reading};
use crate::tracker::Tracker;
use crate::window::Span;
use point_core::Refusal;
use std::io::Read;

/// Handles the steps of a reading, one after another. It may write to `O`.
pub trait StepHandler<O> {
    ghost use Rattle.std.specs.Prelude.{IfErr};
    ghost use Rattle.point_core.specs.declared.refusal.Refusal.{Refusal};

    /// The refusals with which it may fail.
    ghost refuses: { Refusal → Type 0 };

    /// Handles a step that the tracker has.
    fn handle(&mut self, tracker: &Tracker, next: Next, output: &mut O) -> Result<(), Refusal>
        ensures refusals { IfErr result (λ e. refuses e) };
}

/// Reads a trace up to the end of a window, and has each step handled once the tracker has it.
///
/// Fails with `Read` if the reader fails, with `Memory`, and as the handler does. A text of more pieces than 64 bits count is
/// refused with `Read`. After a refusal the tracker is not to be used further.
pub fn for_each_step<R: Read, O, H: StepHandler<O>>(
    span: Span,
    tracker: &mut Tracker,
    reader: &mut R,
    handler: &mut H,
    output: &mut O,
) -> Result<(), Refusal>
    requires fresh { Tracks tracker.old [] [] }
    ensures read { OnOk result (HasTakenIn span tracker.new (R.remaining reader.old) (R.remaining reader.new)) }
    ensures refusals { IfErr result (λ e. (e ≡ ReadFault) ⊎ (e ≡ Memory) ⊎ H.refuses e) }
{
    let mut reading = Reading::new(span);
    for _ in 0..u64::MAX {
        let next = reading.next(tracker, reader)?;
        if next.is_end() {
            return Ok(());
        }
        handler.handle(tracker, next, output)?;
    }
    Err(Refusal::Read)
}
