//! The rows of a view at several commits.
ghost use Rattle.std.specs.Prelude.{◌≡◌, ◌⊎◌, ℕ, true, false, ◌+◌, ◌≤◌, ◌<◌, ◌++◌, ◌∷◌, [], length, map, filter, IfOk, MatchOption, OnOk};
ghost use Rattle.std.specs.List.{AllByRecursion};
ghost use Rattle.lv_values.specs.Ascending.{ascending};
ghost use Rattle.lv_values.specs.Order.{row_cmp, row_eq};
ghost use Rattle.lv_schema.specs.Applicable.{AreNetted, with_changes};
ghost use Rattle.lv_schema.specs.Differences.{summed_columns};
ghost use Rattle.lv_schema.specs.Once.{Ascends, are_apart};
ghost use Rattle.lv_schema.specs.declared.signed.SignedRow.{SignedRow as ASignedRow};
ghost use Rattle.lv_schema.specs.Versions.{ends_after};
ghost use Rattle.lv_group.specs.Gathered.{IsOfView, has_tuples, rows_of};
ghost use Rattle.lv_viewrows.specs.Beginning.{AllFrom, AllUpTo, IsFirst, first_column};
ghost use Rattle.lv_viewrows.specs.Changed.{CanInstall, groups_with};
ghost use Rattle.lv_viewrows.specs.Kept.{groups_at, one_row, rows_listed, shown, version_from};
ghost use Rattle.lv_viewrows.specs.Standing.{AreOpen, read_at};

use crate::beginning::first_column;
use crate::changing::apply_all;
use crate::in_place::apply_in_place;
use crate::reading::rows_passing;
use crate::seek::Seek;
use crate::version::{EndsAfter, GroupVersion};
use crate::versions::{Candidates, Versions};
use lv_group::Groups;
use lv_schema::{Signed, SignedRow, Sums, ViewDef};
use lv_values::{Any, Copying, NoMemory, Row, Rows};
use std::alloc::Global;
use std::marker::Model;

/// The rows of a view at its point and at earlier commits.
///
/// Kept are its groups with their numbers, each with the commits that it is there at; a row of a join view is a group of
/// one tuple. A change brings the memory of the groups that it makes, so an install takes none; the rows of a grouped
/// view are listed when they are read.
#[derive(Drop)]
pub struct ViewRows {
    def: ViewDef,
    at: u64,
    versions: Versions,
}

impl Model for ViewRows {
    ghost use Rattle.std.specs.Coded.{codes};
    ghost use Rattle.lv_schema.specs.contracts.cond.Cond as cond;
    ghost use Rattle.lv_viewrows.specs.Kept.{ViewKept};
    ghost use Rattle.lv_viewrows.specs.Standing.{AreVersions};

    ghost Value = { ViewKept };

    ghost coded = { Prim.hlevel (codes, cond.the_row.coded) };

    ghost view = { λ v. record { def = v.def; at = v.at; versions = v.versions.list; spare = v.versions.spare } };

    ghost invariant = { λ v. AreVersions v.def v.at v.versions.list };
}

/// A row of a join view, as a group of one tuple.
fn one_row(alloc: Global, row: Row) -> SignedRow
    ensures { result ≡ one_row row }
{
    SignedRow {
        row,
        count: 1,
        sums: Sums::new(alloc),
    }
}

/// Versions of these groups, which are there from the start.
fn first_versions(alloc: Global, groups: Signed) -> Result<Versions, NoMemory>
    requires { Ascends (λ (a b : ASignedRow). row_cmp a.row b.row) groups }
    ensures { IfOk result (λ versions. versions.list ≡ map (version_from 0) groups) }
{
    let mut versions = Versions::new(alloc)?;
    for group in groups.into_vec() {
        versions.push_last(GroupVersion::from_commit(0, group))?;
    }
    Ok(versions)
}

/// These rows of a join view, as groups.
fn row_groups(alloc: Global, rows: Rows) -> Result<Signed, NoMemory>
    ensures { IfOk result (λ groups. groups ≡ map one_row rows) }
{
    let mut groups = Signed::new(alloc);
    for row in rows.into_vec() {
        groups.push(one_row(alloc, row))?;
    }
    Ok(groups)
}

impl ViewRows {
    /// The distinct rows of a join view at a commit, and at every one below it. Cost: a sort of the rows.
    pub fn new(
        alloc: Global,
        def: ViewDef,
        point: u64,
        mut rows: Rows,
    ) -> Result<ViewRows, NoMemory>
        requires join { def.grouped ≡ false }
        requires distinct { are_apart row_eq rows ≡ true }
        ensures def { IfOk result (λ v. v.def ≡ def) }
        ensures at { IfOk result (λ v. v.at ≡ point) }
        ensures versions { IfOk result (λ v. v.versions ≡ map (λ row. version_from 0 (one_row row)) (ascending row_cmp rows)) }
        ensures rows { IfOk result (λ v. (n : ℕ) → shown n v ≡ ascending row_cmp rows) }
    {
        rows.sort();
        let versions = first_versions(alloc, row_groups(alloc, rows)?)?;
        Ok(ViewRows {
            def,
            at: point,
            versions,
        })
    }

    /// The rows of a grouped view's groups at a commit, and at every one below it.
    pub fn grouped(
        alloc: Global,
        def: ViewDef,
        point: u64,
        groups: Groups,
    ) -> Result<ViewRows, NoMemory>
        requires grouped { def.grouped ≡ true }
        requires of_view { IsOfView def groups }
        requires netted { AreNetted (length (summed_columns def)) groups.groups }
        requires tuples { AllByRecursion (λ g. has_tuples g ≡ true) groups.groups }
        ensures def { IfOk result (λ v. v.def ≡ def) }
        ensures at { IfOk result (λ v. v.at ≡ point) }
        ensures versions { IfOk result (λ v. v.versions ≡ map (version_from 0) groups.groups) }
        ensures rows { IfOk result (λ v. (n : ℕ) → shown n v ≡ rows_of groups) }
    {
        let versions = first_versions(alloc, groups.into_groups())?;
        Ok(ViewRows {
            def,
            at: point,
            versions,
        })
    }

    /// An equal value, whatever room it has for more. Cost: linear in the versions.
    pub fn copy(&self, alloc: Global) -> Result<ViewRows, NoMemory>
        ensures { IfOk result (λ copy. copy ≡ record self.now { spare = copy.spare }) }
    {
        Ok(ViewRows {
            def: self.def.copy(alloc)?,
            at: self.at,
            versions: self.versions.copy(alloc)?,
        })
    }

    /// The commit to which the rows are maintained.
    pub fn point(&self) -> u64
        ensures { result ≡ self.now.at }
    {
        self.at
    }

    /// The versions that are looked at for those that are there at a commit: from the point on those that have not ended.
    fn versions_at(&self, n: u64) -> Candidates<'_>
        ensures { result ≡ read_at self.now.at n self.now.versions }
    {
        if self.at <= n {
            self.versions.not_ended()
        } else {
            self.versions.all()
        }
    }

    /// The rows after the last install at or below commit n, in ascending order; below the first install, those that were
    /// given at first. Cost: a pass over the versions, at or above the point over those that have not ended alone, and a copy
    /// of each row; of a grouped view of v rows, v log v
    /// comparisons too.
    pub fn read_at(&self, alloc: Global, n: u64) -> Result<Rows, NoMemory>
        ensures { IfOk result (λ rows. rows ≡ shown n self.now) }
    {
        self.read_passing(alloc, n, &Any)
    }

    /// The column of its rows by which they are searched, the first one of a join view or that of the first column of
    /// GROUP BY, if the view lists that: it is the first value of each group that is kept. Cost: a look at each item.
    pub fn first_column(&self) -> Option<u8>
        ensures exact { result ≡ first_column self.now.def }
        ensures first { MatchOption result (Unit {0}) (IsFirst self.now.def) }
    {
        first_column(&self.def)
    }

    /// Those rows of `read_at` that pass. Cost: that of `read_at`, but a row of a join view that does not pass is not copied,
    /// and of a grouped view one row is made for each that passes, and one more for those that do not; and where the test
    /// names a lowest or a highest first value a binary search for each, and a pass over the versions that begin between these
    /// alone.
    pub fn read_passing<T: Seek>(&self, alloc: Global, n: u64, test: &T) -> Result<Rows, NoMemory>
        requires low { AllFrom self.now.def (T.passed test.now) (T.lowest test.now) }
        requires high { AllUpTo self.now.def (T.passed test.now) (T.highest test.now) }
        ensures { IfOk result (λ rows. rows ≡ filter (T.passed test.now) (shown n self.now)) }
    {
        let changes = Signed::new(alloc);
        rows_passing(alloc, &self.def, test, n, &self.versions_at(n), &changes)
    }

    /// Makes room for the versions of `rows` rows. What is kept stays as it was, and the room never shrinks.
    pub fn reserve(&mut self, rows: u64) -> Result<(), NoMemory>
        ensures def { self.new.def ≡ self.old.def }
        ensures at { self.new.at ≡ self.old.at }
        ensures same { self.new.versions ≡ self.old.versions }
        ensures room { OnOk result (rows ≤ self.new.spare) }
        ensures kept { self.old.spare ≤ self.new.spare }
    {
        self.versions.reserve(rows)
    }

    /// The rows that `read_at` gives from commit `hi` on once this change is installed there. Nothing is installed. Cost:
    /// that of `read_at`, with a search and at most 16 comparisons of rows for each change, and never many more in all than
    /// one for each version and each change; of a grouped view a copy of each change too.
    pub fn preview(&self, alloc: Global, hi: u64, changes: &Signed) -> Result<Rows, NoMemory>
        requires { CanInstall self.now hi changes.now }
        ensures { IfOk result (λ rows. rows ≡ rows_listed self.now.def (groups_with changes.now (groups_at self.now.at self.now.versions))) }
    {
        self.preview_passing(alloc, hi, changes, &Any)
    }

    /// Those rows of `preview` that pass. Cost: that of `preview`, with what `read_passing` spares; the changes are all
    /// looked at.
    pub fn preview_passing<T: Seek>(
        &self,
        alloc: Global,
        hi: u64,
        changes: &Signed,
        test: &T,
    ) -> Result<Rows, NoMemory>
        requires change { CanInstall self.now hi changes.now }
        requires low { AllFrom self.now.def (T.passed test.now) (T.lowest test.now) }
        requires high { AllUpTo self.now.def (T.passed test.now) (T.highest test.now) }
        ensures { IfOk result (λ rows. rows ≡ filter (T.passed test.now) (rows_listed self.now.def (groups_with changes.now (groups_at self.now.at self.now.versions)))) }
    {
        rows_passing(
            alloc,
            &self.def,
            test,
            self.at,
            &self.versions_at(self.at),
            changes,
        )
    }

    /// Whether no version has ended. Where as many have as have not, or more, they are dropped first. Reads at the point and
    /// above stay. Cost: constant, and over many calls a pass over small numbers for each version that is dropped.
    fn opens(&mut self) -> bool
        ensures def { self.new.def ≡ self.old.def }
        ensures at { self.new.at ≡ self.old.at }
        ensures open { result ≡ true → AreOpen self.new.versions }
        ensures stays { (n : ℕ) → self.old.at ≤ n → groups_at n self.new.versions ≡ groups_at n self.old.versions }
        ensures room { self.old.spare ≤ self.new.spare }
    {
        let open = self.versions.len_not_ended();
        let ended = self.versions.len() - open;
        if ended == 0 {
            return true;
        }
        if ended < open {
            return false;
        }
        self.prune(self.at);
        true
    }

    /// Installs a change, whose commits end at `hi`: from there on the rows are those before with it. Below, reads from `floor` on
    /// stay: where that is not below `hi`, nobody reads what the change ends, and most such installs put each new group in the
    /// place of the old one. It takes no memory. Cost: for each changed row a search from the place of the one before it, of about
    /// log (versions / changed rows) comparisons where these are spread evenly and never more than twice log (versions); and
    /// for each that comes or goes, and where reads below `hi` stay for each that changes, a move of small numbers, as of
    /// `Shelf::insert`. A row that goes and the next one that comes right behind it, as of an update, take one search and one move
    /// together.
    pub fn install(&mut self, hi: u64, changes: Signed, floor: u64)
        requires change { CanInstall self.old hi changes }
        requires room { length changes ≤ self.old.spare }
        ensures def { self.new.def ≡ self.old.def }
        ensures at { self.new.at ≡ hi }
        ensures before { (n : ℕ) → floor ≤ n → n < hi → groups_at n self.new.versions ≡ groups_at n self.old.versions }
        ensures from { (n : ℕ) → hi ≤ n → groups_at n self.new.versions ≡ groups_with changes (groups_at self.old.at self.old.versions) }
        ensures shown { self.old.def.grouped ≡ false → (n : ℕ) → hi ≤ n → shown n self.new ≡ with_changes changes (shown self.old.at self.old) }
        ensures room { self.old.spare ≤ self.new.spare + length changes }
    {
        if floor < hi {
            self.install_beside(hi, changes);
        } else if self.opens() {
            self.install_in_place(hi, changes);
        } else {
            self.install_beside(hi, changes);
        }
    }

    /// The same where reads below the commit stay.
    fn install_beside(&mut self, hi: u64, changes: Signed)
        requires change { CanInstall self.old hi changes }
        requires room { length changes ≤ self.old.spare }
        ensures def { self.new.def ≡ self.old.def }
        ensures at { self.new.at ≡ hi }
        ensures before { (n : ℕ) → n < hi → groups_at n self.new.versions ≡ groups_at n self.old.versions }
        ensures from { (n : ℕ) → hi ≤ n → groups_at n self.new.versions ≡ groups_with changes (groups_at self.old.at self.old.versions) }
        ensures shown { self.old.def.grouped ≡ false → (n : ℕ) → hi ≤ n → shown n self.new ≡ with_changes changes (shown self.old.at self.old) }
        ensures room { self.old.spare ≤ self.new.spare + length changes }
    {
        apply_all(changes, hi, &mut self.versions);
        self.at = hi;
    }

    /// The same where no version has ended and nobody reads below the commit.
    fn install_in_place(&mut self, hi: u64, changes: Signed)
        requires change { CanInstall self.old hi changes }
        requires open { AreOpen self.old.versions }
        requires room { length changes ≤ self.old.spare }
        ensures def { self.new.def ≡ self.old.def }
        ensures at { self.new.at ≡ hi }
        ensures from { (n : ℕ) → hi ≤ n → groups_at n self.new.versions ≡ groups_with changes (groups_at self.old.at self.old.versions) }
        ensures shown { self.old.def.grouped ≡ false → (n : ℕ) → hi ≤ n → shown n self.new ≡ with_changes changes (shown self.old.at self.old) }
        ensures room { self.old.spare ≤ self.new.spare + length changes }
    {
        apply_in_place(changes, hi, &mut self.versions);
        self.at = hi;
    }

    /// Drops the versions that ended at or below a commit. Reads at or above it stay, and those at or above the point. It
    /// takes no memory. Cost: two passes over four-byte places, and one over those of the versions that have not ended.
    pub fn prune(&mut self, number: u64)
        ensures def { self.new.def ≡ self.old.def }
        ensures at { self.new.at ≡ self.old.at }
        ensures kept { self.new.versions ≡ filter (λ v. ends_after number v.until) self.old.versions }
        ensures stays { (n : ℕ) → (number ≤ n) ⊎ (self.old.at ≤ n) → groups_at n self.new.versions ≡ groups_at n self.old.versions }
        ensures room { self.old.spare ≤ self.new.spare }
    {
        self.versions.keep(&EndsAfter { number });
    }
}
