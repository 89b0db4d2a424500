//! Signals the fences that a timeline's rise or closing reaches. The index leads to the files that wait there, so no
//! other file is looked at.
ghost use Rattle.std.specs.Prelude.{◌≡◌, ℕ, nat_eq, if◌then◌else◌, option_map, true};
ghost use Rattle.device_core.specs.declared.waiting_files.Waiter.{Waiter as Key};
ghost use Rattle.device_core.specs.theorem.State.{AreInOrder, AreSignalled, IsIndexed, at, file_signalled, holds};

use crate::fence::Signal;
use crate::file::File;
use crate::waiting_files::WaitingFiles;
use std::collections::HashMap;

/// Signals the pending fences of a timeline up to the value, in each file. Only the files that wait there are looked
/// at: the index is searched by its order.
pub(crate) fn signal_due(
    waiting: &mut WaitingFiles,
    files: &mut HashMap<u64, File>,
    timeline: u64,
    value: u64,
    signal: Signal,
)
    requires indexed { IsIndexed waiting.old files.old.entries }
    requires ordered { AreInOrder waiting.old }
    ensures signalled { AreSignalled timeline value signal files.old.entries files.new.entries }
    ensures indexed { IsIndexed waiting.new files.new.entries }
    ensures ordered { AreInOrder waiting.new }
    ensures fewer { (k : Key) → holds waiting.new k ≡ true → holds waiting.old k ≡ true }
{
    while let Some(due) = waiting.first_due(timeline, value) {
        waiting.take(due);
        signal_file(files, due.file, timeline, value, signal);
    }
}

fn signal_file(
    files: &mut HashMap<u64, File>,
    number: u64,
    timeline: u64,
    value: u64,
    signal: Signal,
)
    ensures { (q : ℕ) → at files.new.entries q ≡
        (if nat_eq number q
        then option_map (file_signalled timeline value signal) (at files.old.entries q)
        else at files.old.entries q) }
{
    if let Some(file) = files.get_mut(&number) {
        file.signal(timeline, value, signal);
    }
}
