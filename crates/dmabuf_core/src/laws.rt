//! Theorems about buffers and all that was put into them: each law is the contract of a function with an empty body.
ghost use Rattle.std.specs.Prelude.{◌≡◌, ℕ, ◌+◌, ◌*◌, ◌≤◌, ◌↔◌, List, ◌++◌};
ghost use Rattle.point_core.specs.declared.entry.Point.{Point};
ghost use Rattle.point_core.specs.declared.entry.Entry.{Entry};
ghost use Rattle.point_core.specs.declared.entry.Usage.TheVariants.{Kernel};
ghost use Rattle.point_core.specs.Usage.{usage_number};
ghost use Rattle.point_core.specs.Reach.{IsAtLeast};
ghost use Rattle.point_core.specs.Agreement.{AgreesAbove, as_entries, HasContexts, IsReached, listing};
ghost use Rattle.dmabuf_core.specs.Flags.{export_usage, exported, imported};

/// If a table agrees above the reach with all that was put into its buffer, it still does after an `add` or an `import`
/// at a reach that is at least as high.
pub fn buffers_keep_what_is_put_in()
    ensures later { (reach later : List ℕ) (before after put added : List Entry) →
        IsAtLeast later reach → AgreesAbove reach before put → AgreesAbove later after (before ++ added) →
        AgreesAbove later after (put ++ added) }
{}

/// An export lists the entries that its definition names among all that were put into the buffer, and the file agrees
/// with them.
pub fn an_export_lists_what_was_put_in()
    ensures listed { (reach : List ℕ) (es put : List Entry) (flags : ℕ) →
        AgreesAbove reach es put →
        listing es (usage_number (export_usage flags)) reach ≡ listing (exported flags put) 0 reach }
    ensures stands { (reach : List ℕ) (es put : List Entry) (flags : ℕ) →
        HasContexts put → AgreesAbove reach es put →
        AgreesAbove reach (as_entries (listing es (usage_number (export_usage flags)) reach)) (exported flags put) }
    ensures reached { (reach : List ℕ) (put : List Entry) (flags : ℕ) →
        (IsReached (exported flags put) 0 reach ↔ IsReached put (usage_number (export_usage flags)) reach) }
{}

/// A file that agrees above its floor with the entries that were put into it may be imported in their place, at a reach
/// that is at least the floor.
pub fn an_import_puts_in_what_a_file_stands_for()
    ensures stands { (floor reach : List ℕ) (points : List Point) (put : List Entry) (flags : ℕ) →
        AgreesAbove floor (as_entries points) put → IsAtLeast reach floor →
        AgreesAbove reach (imported flags (as_entries points)) (imported flags put) }
    ensures same { (reach : List ℕ) (es fs : List Entry) (flags : ℕ) →
        AgreesAbove reach es fs → AgreesAbove reach (imported flags es) (imported flags fs) }
{}
