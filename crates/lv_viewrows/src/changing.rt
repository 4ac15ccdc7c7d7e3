//! What changes do to the versions of a view's groups, in place.
ghost use Rattle.std.specs.Prelude.{◌≡◌, ◌+◌, ◌-◌, ◌≤◌, ◌<◌, ◌++◌, ◌∷◌, [], MatchOption, Some, true, filter, length, map, slice_get};
ghost use Rattle.std.specs.List.{AllByRecursion};
ghost use Rattle.lv_values.specs.Ascending.{placed};
ghost use Rattle.lv_values.specs.Order.{row_cmp};
ghost use Rattle.lv_schema.specs.declared.signed.SignedRow.{SignedRow as ASignedRow};
ghost use Rattle.lv_schema.specs.Once.{Ascends};
ghost use Rattle.lv_shelf.specs.Cuts.{Apart, IsCut};
ghost use Rattle.lv_shelf.specs.Shelves.{LacksItem};
ghost use Rattle.lv_group.specs.Gathered.{has_tuples};
ghost use Rattle.lv_viewrows.specs.Kept.{version_from};
ghost use Rattle.lv_viewrows.specs.Standing.{AreBoth, AreLeft, EndsBefore, IsBy, MeetAll, NoneBefore, Precedes, changed, changed_all, comes_before, is_current, not_ended, not_ended_before, put, version_cmp};

use crate::numbers::{has_tuples, takes_all, with_group};
use crate::searching::place_of;
use crate::version::GroupVersion;
use crate::versions::Versions;
use lv_schema::{Signed, SignedRow};
use lv_values::Row;

/// How many versions come before a row, and how many of those that have not ended do at most: those from there on do not.
#[derive(Clone, Copy)]
struct Front {
    all: usize,
    not_ended: usize,
}

/// The first step of a search for the next place below `high`, where `left` more are sought behind it: about as far as the
/// place is where all are spread evenly.
fn first_step(high: usize, left: usize) -> usize
    ensures { 0 < result }
{
    (high / left.max(1)).max(1)
}

/// How many of the first `at` versions have not ended, where these come before a row and no others, and none of those that
/// have not ended comes before it from `high` on. Cost: a search from `high`, none where no version has ended.
fn front_not_ended(
    row: &Row,
    number: u64,
    at: usize,
    high: usize,
    left: usize,
    versions: &Versions,
) -> usize
    requires order { Apart Precedes versions.now.list }
    requires cut { IsCut (comes_before row.now number) at versions.now.list }
    requires within { high ≤ length (not_ended versions.now.list) }
    requires above { NoneBefore row.now number high (not_ended versions.now.list) }
    ensures { result ≡ not_ended_before at versions.now.list }
{
    if versions.len_not_ended() == versions.len() {
        return at;
    }
    place_of(
        row,
        number,
        high,
        first_step(high, left),
        &versions.not_ended(),
    )
}

/// How many versions come before a row, where those from `high` on do not and `left` more places are sought behind it. Cost:
/// a search from there.
pub(crate) fn count_before(
    row: &Row,
    number: u64,
    high: usize,
    left: usize,
    versions: &Versions,
) -> usize
    requires order { Apart Precedes versions.now.list }
    requires within { high ≤ length versions.now.list }
    requires above { NoneBefore row.now number high versions.now.list }
    ensures { IsCut (comes_before row.now number) result versions.now.list }
{
    place_of(row, number, high, first_step(high, left), &versions.all())
}

/// Whether the last of the first so many versions has a row and has not ended.
pub(crate) fn is_current_before(row: &Row, at: usize, versions: &Versions) -> bool
    requires { at ≤ length versions.now.list }
    ensures some { result ≡ true → 0 < at }
    ensures last { (v : GroupVersion) → 0 < at → slice_get versions.now.list (at - 1) ≡ Some v → result ≡ is_current row.now v }
{
    if at == 0 {
        return false;
    }
    versions.get(at - 1).is_current(row)
}

/// Applies a change to the group of its row that is there, whose version is the last of those before `front`: that one ends,
/// and one of the group with the change takes its place if it has a tuple. Answers how many versions come before the row.
/// Cost: a move of small numbers, and for a group that goes a search among the versions that have not ended.
fn change_current(
    change: SignedRow,
    number: u64,
    front: Front,
    left: usize,
    versions: &mut Versions,
) -> Front
    requires order { Apart Precedes versions.old.list }
    requires meets { MeetAll number versions.old.list change }
    requires some { 0 < front.all }
    requires cut { IsCut (comes_before change.row number) front.all versions.old.list }
    requires within { front.not_ended ≤ length (not_ended versions.old.list) }
    requires above { NoneBefore change.row number front.not_ended (not_ended versions.old.list) }
    requires current { (v : GroupVersion) → slice_get versions.old.list (front.all - 1) ≡ Some v → is_current change.row v ≡ true }
    requires room { 0 < versions.old.spare }
    ensures changed { versions.new.list ≡ changed number change versions.old.list }
    ensures cut { IsCut (comes_before change.row number) result.all versions.new.list }
    ensures from { not_ended_before result.all versions.new.list ≤ result.not_ended }
    ensures upto { result.not_ended ≤ length (not_ended versions.new.list) }
    ensures room { versions.old.spare ≤ versions.new.spare + 1 }
{
    let Front { all, not_ended } = front;
    let at = all - 1;
    if takes_all(&versions.get(at).group, &change) {
        let not_ended = front_not_ended(&change.row, number, all, not_ended, left, versions) - 1;
        versions.end(at, not_ended, number);
        return Front { all, not_ended };
    }
    let group = with_group(&versions.get(at).group, change);
    versions.replace(at, group, number);
    front
}

/// Puts a group at its place, from a commit on: as many versions as `at` come before it. Cost: a move of small numbers.
fn put_group(group: SignedRow, number: u64, at: usize, not_ended: usize, versions: &mut Versions)
    requires cut { IsCut (comes_before group.row number) at versions.old.list }
    requires place { not_ended ≡ not_ended_before at versions.old.list }
    requires absent { LacksItem (version_from number group) versions.old.list }
    requires room { 0 < versions.old.spare }
    ensures put { versions.new.list ≡ placed version_cmp (version_from number group) versions.old.list }
    ensures cut { IsCut (comes_before group.row number) at versions.new.list }
    ensures place { not_ended ≡ not_ended_before at versions.new.list }
    ensures room { versions.new.spare + 1 ≡ versions.old.spare }
{
    versions.insert(at, not_ended, GroupVersion::from_commit(number, group));
}

/// Puts a group at its place if it has a tuple.
pub(crate) fn put_change(
    group: SignedRow,
    number: u64,
    at: usize,
    not_ended: usize,
    versions: &mut Versions,
)
    requires cut { IsCut (comes_before group.row number) at versions.old.list }
    requires place { not_ended ≡ not_ended_before at versions.old.list }
    requires absent { LacksItem (version_from number group) versions.old.list }
    requires room { 0 < versions.old.spare }
    ensures put { versions.new.list ≡ put number group versions.old.list }
    ensures cut { IsCut (comes_before group.row number) at versions.new.list }
    ensures place { not_ended ≡ not_ended_before at versions.new.list }
    ensures room { versions.old.spare ≤ versions.new.spare + 1 }
{
    if has_tuples(&group) {
        put_group(group, number, at, not_ended, versions);
    }
}

/// Applies one change, as that of a commit, before whose row the versions of `front` come, and answers how many come then.
/// Cost: a move of small numbers, or, for a group that comes or goes, one in each order and a search among the versions that
/// have not ended.
fn apply(
    change: SignedRow,
    number: u64,
    front: Front,
    left: usize,
    versions: &mut Versions,
) -> Front
    requires order { Apart Precedes versions.old.list }
    requires meets { MeetAll number versions.old.list change }
    requires cut { IsCut (comes_before change.row number) front.all versions.old.list }
    requires within { front.not_ended ≤ length (not_ended versions.old.list) }
    requires above { NoneBefore change.row number front.not_ended (not_ended versions.old.list) }
    requires room { 0 < versions.old.spare }
    ensures changed { versions.new.list ≡ changed number change versions.old.list }
    ensures cut { IsCut (comes_before change.row number) result.all versions.new.list }
    ensures from { not_ended_before result.all versions.new.list ≤ result.not_ended }
    ensures upto { result.not_ended ≤ length (not_ended versions.new.list) }
    ensures room { versions.old.spare ≤ versions.new.spare + 1 }
{
    let Front { all, not_ended } = front;
    if is_current_before(&change.row, all, versions) {
        return change_current(change, number, front, left, versions);
    }
    let not_ended = front_not_ended(&change.row, number, all, not_ended, left, versions);
    put_change(change, number, all, not_ended, versions);
    Front { all, not_ended }
}

/// Whether a change ends the last of the first so many versions, and leaves no group of its row. The numbers are looked at
/// first: the rows are compared only where the change takes all tuples of that version.
fn ends_before(change: &SignedRow, at: usize, versions: &Versions) -> bool
    requires { at ≤ length versions.now.list }
    ensures { result ≡ true → EndsBefore change.now at versions.now.list }
{
    if at == 0 {
        return false;
    }
    takes_all(&versions.get(at - 1).group, change) && is_current_before(&change.row, at, versions)
}

/// Takes the last change off if it ends the last of the first so many versions and leaves no group of its row, where a
/// change is given that brings one.
pub(crate) fn take_ending(
    change: &SignedRow,
    changes: &mut Signed,
    at: usize,
    versions: &Versions,
) -> Option<SignedRow>
    requires { at ≤ length versions.now.list }
    ensures { MatchOption result (changes.new ≡ changes.old) (λ ending. AreBoth ending change.now at changes.old changes.new versions.now.list) }
{
    let left = changes.len();
    if change.count <= 0 || left == 0 {
        return None;
    }
    if !ends_before(changes.get(left - 1), at, versions) {
        return None;
    }
    changes.pop()
}

/// Applies a change, which is the last one, and with it the one before that if this ends the version that the new one comes
/// right behind: then one takes the place of the other. Answers how many versions come before the row of the last one applied.
/// Cost: a search from `high`, `left` changes with this one being sought below it, and that of `apply`, or for both changes
/// one move of small numbers.
fn apply_last(
    change: SignedRow,
    changes: &mut Signed,
    number: u64,
    high: Front,
    left: usize,
    versions: &mut Versions,
) -> Front
    requires left { AreLeft number (changes.old ++ change ∷ []) versions.old.list high.all high.not_ended }
    requires room { length changes.old < versions.old.spare }
    ensures changed { changed_all number changes.new versions.new.list ≡ changed_all number (changes.old ++ change ∷ []) versions.old.list }
    ensures left { AreLeft number changes.new versions.new.list result.all result.not_ended }
    ensures fewer { length changes.new ≤ length changes.old }
    ensures room { versions.old.spare + length changes.new ≤ versions.new.spare + length changes.old + 1 }
{
    let front = Front {
        all: count_before(&change.row, number, high.all, left, versions),
        not_ended: high.not_ended,
    };
    match take_ending(&change, changes, front.all, versions) {
        Some(_ending) => {
            versions.replace(front.all - 1, change, number);
            front
        }
        None => apply(change, number, front, left, versions),
    }
}

/// Applies changes of different rows, from the last one on. Cost: for each a search from the place of the one before it and
/// that of `apply`; for a row that goes and the next one that comes right behind it, one search and one move of small numbers.
fn apply_each(mut changes: Signed, number: u64, versions: &mut Versions)
    requires order { Apart Precedes versions.old.list }
    requires each { AllByRecursion (IsBy number) versions.old.list }
    requires ascend { Ascends (λ (a b : ASignedRow). row_cmp a.row b.row) changes }
    requires meet { AllByRecursion (MeetAll number versions.old.list) changes }
    requires room { length changes ≤ versions.old.spare }
    ensures changed { versions.new.list ≡ changed_all number changes versions.old.list }
    ensures order { Apart Precedes versions.new.list }
    ensures each { AllByRecursion (IsBy number) versions.new.list }
    ensures room { versions.old.spare ≤ versions.new.spare + length changes }
{
    let mut high = Front {
        all: versions.len(),
        not_ended: versions.len_not_ended(),
    };
    let mut left = changes.len();
    while let Some(change) = changes.pop() {
        high = apply_last(change, &mut changes, number, high, left, versions);
        left = changes.len();
    }
}

/// Puts the groups that have a tuple where no version is yet, one behind the other. Cost: linear in the groups.
fn fill(groups: Signed, number: u64, versions: &mut Versions)
    requires none { versions.old.list ≡ [] }
    requires ascend { Ascends (λ (a b : ASignedRow). row_cmp a.row b.row) groups }
    requires room { length groups ≤ versions.old.spare }
    ensures filled { versions.new.list ≡ map (version_from number) (filter has_tuples groups) }
    ensures room { versions.old.spare ≤ versions.new.spare + length groups }
{
    for group in groups.into_vec() {
        if has_tuples(&group) {
            versions.push(GroupVersion::from_commit(number, group));
        }
    }
}

/// Applies changes of different rows, as those of a commit. It takes no memory. Cost: for each a search from the place of
/// the one before it, which for changes that are spread evenly takes about log (versions / changes) comparisons, and a move of
/// small numbers; for a group that comes or goes, where some version has ended, the same search and move among those that
/// have not; a row that goes and the next one that comes right behind it, as of an update, take one search and one move
/// together; where there is no version yet, linear in the changes.
pub(crate) fn apply_all(changes: Signed, number: u64, versions: &mut Versions)
    requires order { Apart Precedes versions.old.list }
    requires each { AllByRecursion (IsBy number) versions.old.list }
    requires ascend { Ascends (λ (a b : ASignedRow). row_cmp a.row b.row) changes }
    requires meet { AllByRecursion (MeetAll number versions.old.list) changes }
    requires room { length changes ≤ versions.old.spare }
    ensures changed { versions.new.list ≡ changed_all number changes versions.old.list }
    ensures order { Apart Precedes versions.new.list }
    ensures each { AllByRecursion (IsBy number) versions.new.list }
    ensures room { versions.old.spare ≤ versions.new.spare + length changes }
{
    if versions.len() == 0 {
        fill(changes, number, versions);
    } else {
        apply_each(changes, number, versions);
    }
}
