//! Searches among versions that gallop: their steps double from where they begin, and halve once they went too far.
ghost use Rattle.std.specs.Prelude.{◌≡◌, ◌≤◌, ◌<◌, length, drop, take, true};
ghost use Rattle.std.specs.List.{AllByRecursion};
ghost use Rattle.lv_shelf.specs.Cuts.{Apart, IsCut};
ghost use Rattle.lv_viewrows.specs.Merged.{is_below};
ghost use Rattle.lv_viewrows.specs.Standing.{NoneBefore, Precedes, comes_before};

use crate::version::ComesBefore;
use crate::versions::Candidates;
use lv_schema::{Signed, SignedRow};
use lv_values::{Row, Test};

/// A search for where the changes begin stops when fewer versions than this are left: these are compared one by one, so
/// that a view of which each row changes costs no more than one comparison in sixteen on top.
pub(crate) const NEAR: usize = 16;

/// How far a search goes in one step: as far as the step, or half of the way, rounded up, if that is less.
fn stride(step: usize, way: usize) -> usize
    requires step { 0 < step }
    requires way { 0 < way }
    ensures forward { 0 < result }
    ensures within { result ≤ way }
{
    let half = way - way / 2;
    if step < half { step } else { half }
}

/// How many versions come before one of a row from a commit on, where those from `high` on do not. Cost: about one
/// comparison where the place is `step` before `high`, and two for each time that it is twice as far.
pub(crate) fn place_of(
    row: &Row,
    number: u64,
    high: usize,
    step: usize,
    versions: &Candidates<'_>,
) -> usize
    requires order { Apart Precedes versions.now }
    requires step { 0 < step }
    requires within { high ≤ length versions.now }
    requires above { NoneBefore row.now number high versions.now }
    ensures within { result ≤ high }
    ensures cut { IsCut (comes_before row.now number) result versions.now }
{
    let test = ComesBefore { row, number };
    let mut low = 0;
    let mut high = high;
    let mut step = step;
    while low < high {
        let at = high - stride(step, high - low);
        if test.passes(versions.get(at)) {
            low = at + 1;
        } else {
            high = at;
            step = step.saturating_mul(2);
        }
    }
    low
}

/// Whether a group's row is below those of the ascending changes from a place on.
fn is_below(group: &SignedRow, changes: &Signed, from: usize) -> bool
    ensures { result ≡ is_below (drop from changes.now) group.now }
{
    from >= changes.len() || changes.get(from).row.cmp(&group.row).is_gt()
}

/// A place up to `high` such that the versions from `from` up to it have rows below those of the changes from `next` on.
/// Cost: two comparisons for each time that it is twice as far, in steps of `NEAR`.
pub(crate) fn end_below(
    from: usize,
    high: usize,
    changes: &Signed,
    next: usize,
    versions: &Candidates<'_>,
) -> usize
    requires order { Apart Precedes versions.now }
    requires forward { from ≤ high }
    requires within { high ≤ length versions.now }
    ensures forward { from ≤ result }
    ensures within { result ≤ high }
    ensures below { AllByRecursion (λ v. is_below (drop next changes.now) v.group ≡ true) (drop from (take result versions.now)) }
{
    let mut end = from;
    let mut high = high;
    let mut step = NEAR;
    while high - end >= NEAR {
        let far = end + stride(step, high - end);
        if is_below(&versions.get(far - 1).group, changes, next) {
            end = far;
            step = step.saturating_mul(2);
        } else {
            high = far - 1;
        }
    }
    end
}
