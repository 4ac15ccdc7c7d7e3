//! Differences of views that are computed and not installed yet: what a view shows with them, and their install, which
//! takes no memory once there is room.
ghost use Rattle.std.specs.Prelude.{◌≡◌, ◌<◌, ◌≤◌, ℕ, ◌∷◌, ◌++◌, [], filter, length, replicate, IfOk, OnErr, OnOk};
ghost use Rattle.lv_viewrows.specs.Beginning.{AllFrom, AllUpTo};
ghost use Rattle.lv_viewrows.specs.Changed.{CanInstall};
ghost use Rattle.lv_viewrows.specs.Kept.{ViewKept, shown};
ghost use Rattle.lv_store.specs.Querying.{OnlyRoom, RowsInstall};
ghost use Rattle.lv_store.specs.Pending.{AllTake, AreUpTo, CanAllTake, CanTakeEach, HaveRoom, TakesEach, changed_rows, with_difference};

use lv_schema::Signed;
use lv_values::{Copying, Items, NoMemory, Room, Rows};
use lv_viewrows::{Seek, ViewRows};
use std::alloc::Global;

/// A difference of a view, and the commit that it leads to.
#[derive(Drop)]
pub(crate) struct Difference {
    pub hi: u64,
    pub changes: Signed,
}

/// For each view its differences that are not installed yet, in their order.
pub(crate) type Pending = Items<Items<Difference>>;

/// No view has a difference.
pub(crate) fn none_pending(alloc: Global, views: usize) -> Result<Pending, NoMemory>
    ensures { IfOk result (λ pending. pending ≡ replicate views []) }
{
    let mut pending = Pending::from_vec(Vec::with_capacity(alloc, views)?);
    for _ in 0..views {
        pending.push(Items::new(alloc))?;
    }
    Ok(pending)
}

/// Puts a difference behind the others of its view.
pub(crate) fn add_difference(
    alloc: Global,
    view: u32,
    difference: Difference,
    pending: &mut Pending,
) -> Result<(), NoMemory>
    requires { view < length pending.old }
    ensures { OnOk result (pending.new ≡ with_difference view difference pending.old) }
{
    let mut differences = pending.replace(view as usize, Items::new(alloc));
    differences.push(difference)?;
    pending.set(view as usize, differences);
    Ok(())
}

/// Installs a difference in what is kept of a view; reads below `floor` need not stay. Want of memory changes nothing but
/// the room.
pub(crate) fn install(
    hi: u64,
    changes: Signed,
    floor: u64,
    rows: &mut ViewRows,
) -> Result<(), NoMemory>
    requires { CanInstall rows.old hi changes }
    ensures done { OnOk result (RowsInstall floor hi changes rows.old rows.new) }
    ensures refused { OnErr result (rows.new ≡ record rows.old { spare = rows.new.spare }) }
{
    rows.reserve(changes.len() as u64)?;
    rows.install(hi, changes, floor);
    Ok(())
}

/// Installs copies of differences in what is kept of a view, one after another. Every read below them stays.
fn install_copies(
    alloc: Global,
    differences: &[Difference],
    rows: &mut ViewRows,
) -> Result<(), NoMemory>
    requires { CanTakeEach 0 differences.now rows.old }
    ensures { OnOk result (TakesEach 0 differences.now rows.old rows.new) }
{
    for difference in differences {
        install(difference.hi, difference.changes.copy(alloc)?, 0, rows)?;
    }
    Ok(())
}

/// A copy of what is kept of a view, in which these differences are installed.
fn copy_with(
    alloc: Global,
    rows: &ViewRows,
    differences: &[Difference],
) -> Result<ViewRows, NoMemory>
    requires { CanTakeEach 0 differences.now rows.now }
    ensures { IfOk result (λ copy. TakesEach 0 differences.now rows.now copy) }
{
    let mut copy = rows.copy(alloc)?;
    install_copies(alloc, differences, &mut copy)?;
    Ok(copy)
}

/// Of the rows that a view shows at a commit once these differences are installed, which end at or below it, those that
/// pass. Cost: where there is no difference, a pass over what is kept of the view, or over what begins between the first
/// values that the test names; with one, that of its preview; with several, of a copy and such a pass over it. A row of a
/// join view that does not pass is not copied for the answer.
pub(crate) fn rows_with<T: Seek>(
    alloc: Global,
    n: u64,
    rows: &ViewRows,
    differences: &[Difference],
    test: &T,
) -> Result<Rows, NoMemory>
    requires low { AllFrom rows.now.def (T.passed test.now) (T.lowest test.now) }
    requires high { AllUpTo rows.now.def (T.passed test.now) (T.highest test.now) }
    requires can { CanTakeEach 0 differences.now rows.now }
    requires upto { AreUpTo n differences.now }
    ensures { (floor : ℕ) (new : ViewKept) → TakesEach floor differences.now rows.now new → IfOk result (λ list. list ≡ filter (T.passed test.now) (shown n new)) }
{
    match differences {
        [] => rows.read_passing(alloc, n, test),
        [only] => rows.preview_passing(alloc, only.hi, &only.changes, test),
        _ => copy_with(alloc, rows, differences)?.read_passing(alloc, n, test),
    }
}

/// The number of rows of differences. More than a number of 64 bits is more than memory has.
fn changed_rows(differences: &[Difference]) -> Result<u64, NoMemory>
    ensures { IfOk result (λ rows. rows ≡ changed_rows differences.now) }
{
    let mut rows = 0u64;
    for difference in differences {
        rows = rows
            .checked_add(difference.changes.len() as u64)
            .ok_or(NoMemory)?;
    }
    Ok(rows)
}

/// Makes room for the differences of each view. What is kept stays as it was.
fn reserve_each(pending: &[Items<Difference>], views: &mut [ViewRows]) -> Result<(), NoMemory>
    requires { length pending.now ≡ length views.old }
    ensures same { OnlyRoom views.old views.new }
    ensures room { OnOk result (HaveRoom pending.now views.new) }
{
    for view in 0..views.len() {
        let rows = changed_rows(pending[view].as_slice())?;
        if rows > 0 {
            views[view].reserve(rows)?;
        }
    }
    Ok(())
}

/// Installs differences of a view, one after another; reads below `floor` need not stay. It takes no memory.
fn install_all(differences: Items<Difference>, floor: u64, rows: &mut ViewRows)
    requires can { CanTakeEach floor differences rows.old }
    requires room { changed_rows differences ≤ rows.old.spare }
    ensures { TakesEach floor differences rows.old rows.new }
{
    for difference in differences.into_vec() {
        rows.install(difference.hi, difference.changes, floor);
    }
}

/// Installs the differences of each view; reads below `floor` need not stay. It takes no memory.
fn install_each(mut pending: Pending, floor: u64, views: &mut [ViewRows])
    requires can { CanAllTake floor pending views.old }
    requires room { HaveRoom pending views.old }
    ensures { AllTake floor pending views.old views.new }
{
    while let Some(differences) = pending.pop() {
        install_all(differences, floor, &mut views[pending.len()]);
    }
}

/// Takes room for the differences of all views, and then installs them; reads below `floor` need not stay. Want of memory
/// changes nothing but the room.
fn take_each(pending: Pending, floor: u64, views: &mut [ViewRows]) -> Result<(), NoMemory>
    requires { CanAllTake floor pending views.old }
    ensures all { length views.new ≡ length views.old }
    ensures done { OnOk result (AllTake floor pending views.old views.new) }
    ensures refused { OnErr result (OnlyRoom views.old views.new) }
{
    reserve_each(pending.as_slice(), views)?;
    install_each(pending, floor, views);
    Ok(())
}

/// The same where the views are kept.
pub(crate) fn take_pending(
    alloc: Global,
    pending: Pending,
    floor: u64,
    rows: &mut Room<ViewRows>,
) -> Result<(), NoMemory>
    requires { CanAllTake floor pending rows.old.list }
    ensures done { OnOk result (AllTake floor pending rows.old.list rows.new.list) }
    ensures refused { OnErr result (OnlyRoom rows.old.list rows.new.list) }
{
    let mut views = std::mem::replace(rows, Room::new(alloc)).into_vec();
    let taken = take_each(pending, floor, &mut views);
    *rows = Room::from_vec(views);
    taken
}
