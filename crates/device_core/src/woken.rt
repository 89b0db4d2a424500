//! Collects the files that a request signals, by rising number.
ghost use Rattle.std.specs.Prelude.{◌≡◌, ℕ, ◌^◌, ◌≤◌, nat_eq, ◌&&◌, ◌||◌, ◌↔◌, true, false, None, OnOk, IfOk, IfErr, Contains};
ghost use Rattle.device_core.specs.declared.errno.Errno.TheVariants.{NoMemory};
ghost use Rattle.device_core.specs.theorem.State.{IsIndexed, at};
ghost use Rattle.device_core.specs.Woken.{WakesSome, file_wakes, has, is_settled_by, wakes as wakes_of};
ghost use Rattle.std.specs.List.{list_all};
ghost use Rattle.std.specs.List.Sorted.{IsStrictlyIncreasing};

use crate::errno::Errno;
use crate::fence::Fence;
use crate::file::{File, all_signalled};
use crate::waiting_files::Waiter;
use std::alloc::Global;
use std::collections::{BTreeSet, HashMap};

/// The files that signal once a timeline signals up to the value, by rising number. Only the files that wait there are
/// looked at.
///
/// Fails only with `NoMemory`, and only if there is such a file.
pub(crate) fn woken_by(
    alloc: Global,
    points: &BTreeSet<Waiter>,
    files: &HashMap<u64, File>,
    timeline: u64,
    value: u64,
) -> Result<Vec<u64>, Errno>
    requires indexed { IsIndexed points.now.keys files.now.entries }
    requires below { (n : ℕ) → 2 ^ 64 ≤ n → at files.now.entries n ≡ None }
    ensures woken { IfOk result (λ found. (n : ℕ) →
        (Contains found.items n ↔ (file_wakes timeline value (at files.now.entries n) ≡ true))) }
    ensures rising { IfOk result (λ found. IsStrictlyIncreasing found.items) }
    ensures memory { IfErr result (λ e. (e ≡ NoMemory) × WakesSome timeline value (at files.now.entries)) }
{
    let first = Waiter::first(timeline);
    let last = Waiter::last(timeline, value);
    let mut woken = Vec::new(alloc);
    for due in points.range(first..=last) {
        put_if_woken(&mut woken, files, due.file, timeline, value)?;
    }
    put_in_order(&mut woken);
    Ok(woken)
}

/// Whether a file signals once a timeline signals up to the value. Does not allocate.
pub(crate) fn wakes_some(
    points: &BTreeSet<Waiter>,
    files: &HashMap<u64, File>,
    timeline: u64,
    value: u64,
) -> bool
    requires indexed { IsIndexed points.now.keys files.now.entries }
    requires below { (n : ℕ) → 2 ^ 64 ≤ n → at files.now.entries n ≡ None }
    ensures some { result ≡ true → WakesSome timeline value (at files.now.entries) }
    ensures none { result ≡ false → (n : ℕ) → file_wakes timeline value (at files.now.entries n) ≡ false }
{
    let first = Waiter::first(timeline);
    let last = Waiter::last(timeline, value);
    for due in points.range(first..=last) {
        if file_wakes_at(files, due.file, timeline, value) {
            return true;
        }
    }
    false
}

// Sorts the numbers, and drops repeated ones.
fn put_in_order(numbers: &mut Vec<u64>)
    ensures rising { IsStrictlyIncreasing numbers.new.items }
    ensures kept { (n : ℕ) → (Contains numbers.new.items n ↔ Contains numbers.old.items n) }
{
    numbers.sort_unstable();
    numbers.dedup();
}

fn put_if_woken(
    woken: &mut Vec<u64>,
    files: &HashMap<u64, File>,
    number: u64,
    timeline: u64,
    value: u64,
) -> Result<(), Errno>
    ensures put { OnOk result ((n : ℕ) → has woken.new.items n ≡
        ((nat_eq number n && file_wakes timeline value (at files.now.entries number)) || has woken.old.items n)) }
    ensures memory { IfErr result (λ e.
        (e ≡ NoMemory) × (file_wakes timeline value (at files.now.entries number) ≡ true)) }
{
    if !file_wakes_at(files, number, timeline, value) {
        return Ok(());
    }
    put(woken, number)
}

fn put(woken: &mut Vec<u64>, number: u64) -> Result<(), Errno>
    ensures put { OnOk result ((n : ℕ) → has woken.new.items n ≡ (nat_eq number n || has woken.old.items n)) }
    ensures memory { IfErr result (λ e. e ≡ NoMemory) }
{
    let Ok(_done) = woken.push(number) else {
        return Err(Errno::NoMemory);
    };
    Ok(())
}

fn file_wakes_at(files: &HashMap<u64, File>, number: u64, timeline: u64, value: u64) -> bool
    ensures { result ≡ file_wakes timeline value (at files.now.entries number) }
{
    match files.get(&number) {
        Some(file) => wakes(file.fences.as_slice(), timeline, value),
        None => false,
    }
}

fn wakes(fences: &[Fence], timeline: u64, value: u64) -> bool
    ensures { result ≡ wakes_of timeline value fences.now }
{
    if all_signalled(fences) {
        return false;
    }
    all_settled_by(fences, timeline, value)
}

fn all_settled_by(fences: &[Fence], timeline: u64, value: u64) -> bool
    ensures { result ≡ list_all (is_settled_by timeline value) fences.now }
{
    for fence in fences {
        if !fence.is_settled_by(timeline, value) {
            return false;
        }
    }
    true
}
