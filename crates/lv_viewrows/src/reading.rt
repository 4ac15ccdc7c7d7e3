//! Rows of versions.
ghost use Rattle.std.specs.Prelude.{◌≡◌, ◌+ℤ◌, ◌++◌, ◌∷◌, ◌≤◌, [], List, drop, take, length, filter, IfOk, OnOk};
ghost use Rattle.std.specs.List.{AllByRecursion};
ghost use Rattle.lv_schema.specs.declared.signed.SignedRow.{SignedRow as ASignedRow};
ghost use Rattle.lv_group.specs.Gathered.{has_tuples};
ghost use Rattle.lv_shelf.specs.Cuts.{Apart};
ghost use Rattle.lv_viewrows.specs.Beginning.{AllFrom, AllUpTo, NonePasses};
ghost use Rattle.lv_viewrows.specs.Changed.{group_with};
ghost use Rattle.lv_viewrows.specs.Kept.{groups_at, rows_listed};
ghost use Rattle.lv_viewrows.specs.Merged.{AllFitAt, FitsInto, if_some, left_by, merged, passing, up_to};
ghost use Rattle.lv_viewrows.specs.Standing.{IsCount, Precedes};

use crate::beginning::places_of;
use crate::numbers::{has_tuples, with_group};
use crate::searching::{NEAR, end_below};
use crate::seek::Seek;
use crate::version::GroupVersion;
use crate::versions::Candidates;
use lv_group::list_into;
use lv_schema::{Signed, SignedRow, ViewDef};
use lv_shelf::Run;
use lv_values::{Copying, NoMemory, Row, Rows, Test};
use std::alloc::Global;
use std::cmp::Ordering;

/// The most rows for which room is taken before one has passed.
const FEW_ROWS: usize = 256;

/// Rows that passed, and a row that the next group is listed in.
#[derive(Drop)]
struct Listing {
    rows: Rows,
    spare: Row,
}

/// An empty list of rows, with room for as many as there are places, where these are few.
fn room_for(alloc: Global, places: usize) -> Result<Rows, NoMemory>
    ensures { IfOk result (λ rows. rows ≡ []) }
{
    if places > FEW_ROWS {
        return Ok(Rows::new(alloc));
    }
    Ok(Rows::from_vec(Vec::with_capacity(alloc, places)?))
}

/// Appends the row that a view lists of a group, if it passes. The row of a group of a grouped view that does not pass is
/// used again for the next one, and a row of a join view that does not pass is not copied.
fn push_group<T: Test<Row>>(
    alloc: Global,
    view: &ViewDef,
    test: &T,
    group: &SignedRow,
    out: &mut Listing,
) -> Result<(), NoMemory>
    ensures { OnOk result (out.new.rows ≡ out.old.rows ++ passing view.now (T.passed test.now) (group.now ∷ [])) }
{
    if view.grouped {
        list_into(
            alloc,
            view.groups.as_slice(),
            view.items.as_slice(),
            group,
            &mut out.spare,
        )?;
        if test.passes(&out.spare) {
            let row = std::mem::replace(&mut out.spare, Row::new(alloc));
            out.rows.push(row)?;
        }
    } else if test.passes(&group.row) {
        out.rows.push(group.row.copy(alloc)?)?;
    }
    Ok(())
}

/// Appends the row of a group that has a tuple.
fn push_if_some<T: Test<Row>>(
    alloc: Global,
    view: &ViewDef,
    test: &T,
    group: &SignedRow,
    out: &mut Listing,
) -> Result<(), NoMemory>
    ensures { OnOk result (out.new.rows ≡ out.old.rows ++ passing view.now (T.passed test.now) (if_some group.now)) }
{
    if has_tuples(group) {
        push_group(alloc, view, test, group, out)?;
    }
    Ok(())
}

/// Appends the row of a group with a change, if a tuple is left. If none is, nothing is copied.
fn push_changed<T: Test<Row>>(
    alloc: Global,
    view: &ViewDef,
    test: &T,
    group: &SignedRow,
    change: &SignedRow,
    out: &mut Listing,
) -> Result<(), NoMemory>
    requires { IsCount (group.now.count +ℤ change.now.count) }
    ensures { OnOk result (out.new.rows ≡ out.old.rows ++ passing view.now (T.passed test.now) (if_some (group_with group.now change.now))) }
{
    if group.count + change.count != 0 {
        let group = with_group(group, change.copy(alloc)?);
        push_group(alloc, view, test, &group, out)?;
    }
    Ok(())
}

/// Appends the rows up to a group with the changes from a place on, and answers from where on changes are left. Cost: a
/// comparison for the group and one for each change that is passed, and a copy of the change of the group's row where a
/// tuple is left.
fn push_up_to<T: Test<Row>>(
    alloc: Global,
    view: &ViewDef,
    test: &T,
    group: &SignedRow,
    changes: &Signed,
    from: usize,
    out: &mut Listing,
) -> Result<usize, NoMemory>
    requires { AllByRecursion (FitsInto group.now) changes.now }
    ensures rows { OnOk result (out.new.rows ≡ out.old.rows ++ passing view.now (T.passed test.now) (up_to group.now (drop from changes.now))) }
    ensures left { IfOk result (λ next. drop next changes.now ≡ left_by group.now (drop from changes.now)) }
{
    for at in from..changes.len() {
        let change = changes.get(at);
        match change.row.cmp(&group.row) {
            Ordering::Less => push_if_some(alloc, view, test, change, out)?,
            Ordering::Equal => {
                push_changed(alloc, view, test, group, change, out)?;
                return Ok(at + 1);
            }
            Ordering::Greater => {
                push_group(alloc, view, test, group, out)?;
                return Ok(at);
            }
        }
    }
    push_group(alloc, view, test, group, out)?;
    Ok(changes.len())
}

/// Appends the rows up to a version's group, if the version is there at commit n.
fn push_version<T: Test<Row>>(
    alloc: Global,
    view: &ViewDef,
    test: &T,
    n: u64,
    version: &GroupVersion,
    changes: &Signed,
    from: usize,
    out: &mut Listing,
) -> Result<usize, NoMemory>
    requires { AllFitAt n changes.now version.now }
    ensures rows { IfOk result (λ next. (groups : List ASignedRow) → out.new.rows ++ passing view.now (T.passed test.now) (merged (drop next changes.now) groups) ≡ out.old.rows ++ passing view.now (T.passed test.now) (merged (drop from changes.now) (groups_at n (version.now ∷ []) ++ groups))) }
{
    if version.is_there(n) {
        push_up_to(alloc, view, test, &version.group, changes, from, out)
    } else {
        Ok(from)
    }
}

/// Appends the row of a version's group, if the version is there at commit n.
fn push_if_there<T: Test<Row>>(
    alloc: Global,
    view: &ViewDef,
    test: &T,
    n: u64,
    version: &GroupVersion,
    out: &mut Listing,
) -> Result<(), NoMemory>
    ensures { OnOk result (out.new.rows ≡ out.old.rows ++ passing view.now (T.passed test.now) (groups_at n (version.now ∷ []))) }
{
    if version.is_there(n) {
        push_group(alloc, view, test, &version.group, out)?;
    }
    Ok(())
}

/// Appends the rows of the groups that are there at commit n, of these versions. It is kept apart from its caller, whose
/// values would crowd out those of this loop.
#[inline(never)]
fn push_run<T: Test<Row>>(
    alloc: Global,
    view: &ViewDef,
    test: &T,
    n: u64,
    run: &Run<'_, GroupVersion>,
    out: &mut Listing,
) -> Result<(), NoMemory>
    ensures { OnOk result (out.new.rows ≡ out.old.rows ++ passing view.now (T.passed test.now) (groups_at n run.now)) }
{
    for i in 0..run.len() {
        push_if_there(alloc, view, test, n, run.get(i), out)?;
    }
    Ok(())
}

/// Appends the rows of the groups that are there at commit n, of the versions from one place up to another.
fn push_unchanged<T: Test<Row>>(
    alloc: Global,
    view: &ViewDef,
    test: &T,
    n: u64,
    versions: &Candidates<'_>,
    from: usize,
    end: usize,
    out: &mut Listing,
) -> Result<(), NoMemory>
    requires { end ≤ length versions.now }
    ensures { OnOk result (out.new.rows ≡ out.old.rows ++ passing view.now (T.passed test.now) (groups_at n (drop from (take end versions.now)))) }
{
    let mut at = from;
    while at < end {
        let run = versions.run(at, end);
        push_run(alloc, view, test, n, &run, out)?;
        at += run.len();
    }
    Ok(())
}

/// Appends the rows of the groups that are there at commit n, of the versions from one place up to another, with the
/// changes from a place on, and answers from where on changes are left. Cost: as that of `push_up_to` for each.
fn push_compared<T: Test<Row>>(
    alloc: Global,
    view: &ViewDef,
    test: &T,
    n: u64,
    versions: &Candidates<'_>,
    from: usize,
    end: usize,
    changes: &Signed,
    next: usize,
    out: &mut Listing,
) -> Result<usize, NoMemory>
    requires fit { AllByRecursion (AllFitAt n changes.now) versions.now }
    requires order { from ≤ end }
    requires within { end ≤ length versions.now }
    ensures { IfOk result (λ left. out.new.rows ++ passing view.now (T.passed test.now) (merged (drop left changes.now) (groups_at n (drop end versions.now))) ≡ out.old.rows ++ passing view.now (T.passed test.now) (merged (drop next changes.now) (groups_at n (drop from versions.now)))) }
{
    let mut left = next;
    for at in from..end {
        left = push_version(alloc, view, test, n, versions.get(at), changes, left, out)?;
    }
    Ok(left)
}

/// Appends the rows of the changes from a place on.
fn push_rest<T: Test<Row>>(
    alloc: Global,
    view: &ViewDef,
    test: &T,
    changes: &Signed,
    from: usize,
    out: &mut Listing,
) -> Result<(), NoMemory>
    ensures { OnOk result (out.new.rows ≡ out.old.rows ++ passing view.now (T.passed test.now) (filter has_tuples (drop from changes.now))) }
{
    for at in from..changes.len() {
        push_if_some(alloc, view, test, changes.get(at), out)?;
    }
    Ok(())
}

/// The rows of the groups that are there at commit n, with changes, that pass, in the order of the groups, where those of
/// the versions before one place and from another on do not. Rows up to near the next change are handed out as they are,
/// and those near it are compared with it.
fn rows_in_order<T: Test<Row>>(
    alloc: Global,
    view: &ViewDef,
    test: &T,
    n: u64,
    versions: &Candidates<'_>,
    from: usize,
    end: usize,
    changes: &Signed,
) -> Result<Rows, NoMemory>
    requires order { Apart Precedes versions.now }
    requires forward { from ≤ end }
    requires within { end ≤ length versions.now }
    requires before { NonePasses view.now (T.passed test.now) (take from versions.now) }
    requires behind { NonePasses view.now (T.passed test.now) (drop end versions.now) }
    requires fit { AllByRecursion (AllFitAt n changes.now) versions.now }
    ensures { IfOk result (λ rows. rows ≡ passing view.now (T.passed test.now) (merged changes.now (groups_at n versions.now))) }
{
    let mut out = Listing {
        rows: room_for(alloc, end - from)?,
        spare: Row::new(alloc),
    };
    let mut next = 0;
    let mut at = from;
    while at < end {
        let near = end_below(at, end, changes, next, versions);
        push_unchanged(alloc, view, test, n, versions, at, near, &mut out)?;
        at = near.saturating_add(NEAR).min(end);
        next = push_compared(
            alloc, view, test, n, versions, near, at, changes, next, &mut out,
        )?;
    }
    push_rest(alloc, view, test, changes, next, &mut out)?;
    Ok(out.rows)
}

/// The rows of the groups that are there at commit n, with changes, that pass, in ascending order. Cost: a binary search for
/// each of the lowest and the highest first value that the test names, and a pass over the versions that begin between
/// these; for each change a search from the one before it and at most 16 comparisons, in all no more than one for each
/// version, one for each 16 of them and one for each change; of a join view a copy of each row that passes; of a grouped
/// view the listed values of each group, one row for each that passes and one more for those that do not, a copy of each
/// change whose group stays, and n log n comparisons of the rows that pass.
pub(crate) fn rows_passing<T: Seek>(
    alloc: Global,
    view: &ViewDef,
    test: &T,
    n: u64,
    versions: &Candidates<'_>,
    changes: &Signed,
) -> Result<Rows, NoMemory>
    requires order { Apart Precedes versions.now }
    requires low { AllFrom view.now (T.passed test.now) (T.lowest test.now) }
    requires high { AllUpTo view.now (T.passed test.now) (T.highest test.now) }
    requires fit { AllByRecursion (AllFitAt n changes.now) versions.now }
    ensures { IfOk result (λ rows. rows ≡ filter (T.passed test.now) (rows_listed view.now (merged changes.now (groups_at n versions.now)))) }
{
    let (from, end) = places_of(test.lowest(), test.highest(), versions);
    let mut rows = rows_in_order(alloc, view, test, n, versions, from, end, changes)?;
    if view.grouped {
        rows.sort();
    }
    Ok(rows)
}
