//! What changes do to versions that nobody reads below them: each is replaced where it lies.
ghost use Rattle.std.specs.Prelude.{◌≡◌, ◌+◌, ◌-◌, ◌≤◌, ◌<◌, ◌++◌, ◌∷◌, [], Some, true, length, slice_get};
ghost use Rattle.std.specs.List.{AllByRecursion};
ghost use Rattle.lv_values.specs.Order.{row_cmp};
ghost use Rattle.lv_schema.specs.declared.signed.SignedRow.{SignedRow as ASignedRow};
ghost use Rattle.lv_schema.specs.Once.{Ascends};
ghost use Rattle.lv_shelf.specs.Cuts.{Apart, IsCut};
ghost use Rattle.lv_viewrows.specs.Standing.{AreLeft, AreOpen, IsBy, MeetAll, Precedes, changed, changed_all, comes_before, is_current, pruned};

use crate::changing::{count_before, is_current_before, put_change, take_ending};
use crate::numbers::{takes_all, with_group};
use crate::version::GroupVersion;
use crate::versions::Versions;
use lv_schema::{Signed, SignedRow};

/// Applies a change to the group of its row, which is the last of the first `at` versions: the group with the change takes its
/// place, or none if that has no tuple. Answers how many versions come before the row. Cost: constant, and for a group that goes
/// a move of small numbers.
fn change_at(change: SignedRow, number: u64, at: usize, versions: &mut Versions) -> usize
    requires order { Apart Precedes versions.old.list }
    requires open { AreOpen versions.old.list }
    requires meets { MeetAll number versions.old.list change }
    requires some { 0 < at }
    requires cut { IsCut (comes_before change.row number) at versions.old.list }
    requires current { (v : GroupVersion) → slice_get versions.old.list (at - 1) ≡ Some v → is_current change.row v ≡ true }
    ensures changed { versions.new.list ≡ pruned number (changed number change versions.old.list) }
    ensures cut { IsCut (comes_before change.row number) result versions.new.list }
    ensures room { versions.old.spare ≤ versions.new.spare }
{
    let at = at - 1;
    if takes_all(&versions.get(at).group, &change) {
        versions.remove(at);
        return at;
    }
    let group = with_group(&versions.get(at).group, change);
    versions.set(at, group, number);
    at
}

/// Applies a change, as that of a commit, before whose row `at` versions come, and answers how many come then. Cost: that of
/// `change_at`, or for a group that comes a move of small numbers in each order.
fn apply(change: SignedRow, number: u64, at: usize, versions: &mut Versions) -> usize
    requires order { Apart Precedes versions.old.list }
    requires open { AreOpen versions.old.list }
    requires meets { MeetAll number versions.old.list change }
    requires cut { IsCut (comes_before change.row number) at versions.old.list }
    requires room { 0 < versions.old.spare }
    ensures changed { versions.new.list ≡ pruned number (changed number change versions.old.list) }
    ensures cut { IsCut (comes_before change.row number) result versions.new.list }
    ensures room { versions.old.spare ≤ versions.new.spare + 1 }
{
    if is_current_before(&change.row, at, versions) {
        return change_at(change, number, at, versions);
    }
    put_change(change, number, at, at, versions);
    at
}

/// Applies a change, which is the last one, and with it the one before that if this ends the version that the new one comes
/// right behind: then one takes the place of the other. Answers how many versions come before the row of the last one applied.
/// Cost: a search from `high`, `left` changes with this one being sought below it, and that of `apply`.
fn apply_last(
    change: SignedRow,
    changes: &mut Signed,
    number: u64,
    high: usize,
    left: usize,
    versions: &mut Versions,
) -> usize
    requires left { AreLeft number (changes.old ++ change ∷ []) versions.old.list high high }
    requires open { AreOpen versions.old.list }
    requires room { length changes.old < versions.old.spare }
    ensures changed { pruned number (changed_all number changes.new versions.new.list) ≡ pruned number (changed_all number (changes.old ++ change ∷ []) versions.old.list) }
    ensures left { AreLeft number changes.new versions.new.list result result }
    ensures open { AreOpen versions.new.list }
    ensures fewer { length changes.new ≤ length changes.old }
    ensures room { versions.old.spare + length changes.new ≤ versions.new.spare + length changes.old + 1 }
{
    let at = count_before(&change.row, number, high, left, versions);
    match take_ending(&change, changes, at, versions) {
        Some(_ending) => {
            versions.set(at - 1, change, number);
            at - 1
        }
        None => apply(change, number, at, versions),
    }
}

/// Applies changes of different rows, as those of a commit, to versions of which none has ended: a version that goes is
/// dropped. It takes no memory. Cost: for each a search from the place of the one before it, which for changes that are spread
/// evenly takes about log (versions / changes) comparisons; and for a group that comes or goes a move of small numbers in each
/// order.
pub(crate) fn apply_in_place(mut changes: Signed, number: u64, versions: &mut Versions)
    requires order { Apart Precedes versions.old.list }
    requires each { AllByRecursion (IsBy number) versions.old.list }
    requires open { AreOpen versions.old.list }
    requires ascend { Ascends (λ (a b : ASignedRow). row_cmp a.row b.row) changes }
    requires meet { AllByRecursion (MeetAll number versions.old.list) changes }
    requires room { length changes ≤ versions.old.spare }
    ensures changed { versions.new.list ≡ pruned number (changed_all number changes versions.old.list) }
    ensures order { Apart Precedes versions.new.list }
    ensures each { AllByRecursion (IsBy number) versions.new.list }
    ensures room { versions.old.spare ≤ versions.new.spare + length changes }
{
    let mut high = versions.len();
    let mut left = changes.len();
    while let Some(change) = changes.pop() {
        high = apply_last(change, &mut changes, number, high, left, versions);
        left = changes.len();
    }
}
