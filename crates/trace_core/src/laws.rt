//! What holds of all traces: each law is the contract of a function with an empty body.
ghost use Rattle.std.specs.Prelude.{◌≡◌, List, ℕ, Some};
ghost use Rattle.trace_core.specs.declared.item.TheConstants.{PIECE_BYTES};
ghost use Rattle.trace_core.specs.declared.piece.TheConstants.{RECORD_LINES};
ghost use Rattle.trace_core.specs.Item.{Meaning};
ghost use Rattle.trace_core.specs.Piece.{ReadsAs};
ghost use Rattle.trace_core.specs.Printing.{IsRecord};
ghost use Rattle.trace_core.specs.Record.{Printed, record_of};

/// A piece is read as a record exactly where it is one as the kernel prints it, and then as that record.
///
/// That the kernel prints so is trusted: `IsRecord` of `specs/Printing.antt` says how, and `tests/traces` has texts that kernels
/// printed.
pub fn records_as_printed()
    ensures read { (piece : List ℕ) → (r : Printed) → record_of piece ≡ Some r → IsRecord piece r }
    ensures printed { (piece : List ℕ) → (r : Printed) → IsRecord piece r → record_of piece ≡ Some r }
{}

/// A text has one reading.
pub fn one_reading()
    ensures { (text : List ℕ) → (items others : List Meaning) → ReadsAs text items → ReadsAs text others → items ≡ others }
{}

/// The limits of pieces, as numbers.
pub fn limits_of_a_piece()
    ensures bytes { PIECE_BYTES ≡ 8192 }
    ensures lines { RECORD_LINES ≡ 4 }
{}
