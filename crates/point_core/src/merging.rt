//! Merges two listings in one pass, as Linux's `sync_file_merge` does. `syncfile_core` makes its merged files with it.
ghost use Rattle.std.specs.Prelude.{◌≡◌, ◌+◌, ◌≤◌, min, [], length, vec_capacity, OnOk, IfOk, IfErr, MatchOption};
ghost use Rattle.point_core.specs.declared.context.TheConstants.{CONTEXTS};
ghost use Rattle.point_core.specs.Agreement.{as_entries, merged as merge_of, HasContexts, HasRisingContexts};
ghost use Rattle.point_core.specs.TwoLists.{IsFirstOf, IsPartedAt};

use crate::context::CONTEXTS;
use crate::entry::Point;
use crate::reach::Reach;
use crate::refusal::Refusal;
use std::alloc::Global;

/// The pending points of two lists by rising context, as `canon` gives them for both together. The cost grows with the
/// points, not with `CONTEXTS`.
pub fn merged(
    alloc: Global,
    left: &[Point],
    right: &[Point],
    reach: &Reach,
) -> Result<Vec<Point>, Refusal>
    requires rising { HasRisingContexts left.now × HasRisingContexts right.now }
    ensures merged { IfOk result (λ ps. ps.items ≡ merge_of reach.now left.now right.now) }
    ensures memory { IfErr result (λ e. e ≡ Refusal.Memory) }

    // The type of a context implies it for each point.
    ensures contexts { IfOk result (λ ps. HasContexts (as_entries left.now) × HasContexts (as_entries right.now)) }
{
    let mut points = Vec::new(alloc);
    merge_into(&mut points, left, right, reach)?;
    Ok(points)
}

/// Like `merged`, but clears and reuses a list; allocates only if the points may need more room than the list has.
pub fn merge_into(
    points: &mut Vec<Point>,
    left: &[Point],
    right: &[Point],
    reach: &Reach,
) -> Result<(), Refusal>
    requires rising { HasRisingContexts left.now × HasRisingContexts right.now }
    ensures merged { OnOk result (points.new.items ≡ merge_of reach.now left.now right.now) }
    ensures memory { IfErr result (λ e. e ≡ Refusal.Memory) }

    // The type of a context implies it for each point.
    ensures contexts { OnOk result (HasContexts (as_entries left.now) × HasContexts (as_entries right.now)) }
{
    points.clear();
    points.reserve_exact(most_merged(left, right))?;
    push_pending(points, left, right, reach);
    Ok(())
}

/// An upper bound on the points of a merge.
fn most_merged(left: &[Point], right: &[Point]) -> usize
    ensures { result ≡ min (length left.now + length right.now) CONTEXTS }
{
    left.len().saturating_add(right.len()).min(CONTEXTS)
}

/// Pushes the pending points of two lists into an empty list that has room for them.
fn push_pending(points: &mut Vec<Point>, left: &[Point], right: &[Point], reach: &Reach)
    requires empty { points.old.items ≡ [] }
    requires room { min (length left.now + length right.now) CONTEXTS ≤ vec_capacity points.old }
    requires rising { HasRisingContexts left.now × HasRisingContexts right.now }
    ensures merged { points.new.items ≡ merge_of reach.now left.now right.now }
    ensures contexts { HasContexts (as_entries left.now) × HasContexts (as_entries right.now) }
{
    let mut lists = (left, right);
    while let Some((point, ps, qs)) = first_of(lists.0, lists.1) {
        if point.value > reach.get(point.ctx) {
            points.push_reserved(point);
        }
        lists = (ps, qs);
    }
}

/// The latest point of the lowest context in both lists, and the rest of each list.
fn first_of<'a>(left: &'a [Point], right: &'a [Point]) -> Option<(Point, &'a [Point], &'a [Point])>
    ensures first { MatchOption result
        ((left.now ≡ []) × (right.now ≡ []))
        (λ (p, ps, qs). IsFirstOf p ps.now qs.now left.now right.now) }
{
    let Some((p, ps)) = parted(left) else {
        return match parted(right) {
            Some((q, qs)) => Some((q, left, qs)),
            None => None,
        };
    };
    let Some((q, qs)) = parted(right) else {
        return Some((p, ps, right));
    };
    if p.ctx.number() < q.ctx.number() {
        Some((p, ps, right))
    } else if p.ctx.number() > q.ctx.number() {
        Some((q, left, qs))
    } else if p.value >= q.value {
        Some((p, ps, qs))
    } else {
        Some((q, ps, qs))
    }
}

/// The first point, and the rest.
fn parted(points: &[Point]) -> Option<(Point, &[Point])>
    ensures parts { MatchOption result (points.now ≡ []) (λ (p, ps). IsPartedAt p ps.now points.now) }
{
    let (first, others) = points.split_first()?;
    let number = usize::from(first.ctx.number());
    prove!(number >= 1);
    prove!(number <= CONTEXTS);
    Some((*first, others))
}
