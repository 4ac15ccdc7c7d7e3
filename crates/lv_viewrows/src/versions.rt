//! Versions in the order of their rows, and which of them have not ended.
ghost use Rattle.std.specs.Prelude.{◌≡◌, ◌+◌, ◌++◌, ◌∷◌, ◌≤◌, ◌<◌, [], Some, true, drop, filter, length, nat_le, slice_get, slice_set, take, IfOk, OnOk};
ghost use Rattle.std.specs.List.{insert, remove};
ghost use Rattle.lv_shelf.specs.Cuts.{Apart, Falls, IsCut};
ghost use Rattle.lv_shelf.specs.Shelves.{LacksItem};
ghost use Rattle.lv_viewrows.specs.Kept.{version_from};
ghost use Rattle.lv_viewrows.specs.Standing.{AreOpen, Precedes, ended_at, has_no_end, not_ended, not_ended_before};

use crate::version::{EndOf, GroupVersion};
use lv_schema::SignedRow;
use lv_shelf::{Run, Shelf};
use lv_values::{Copying, NoMemory, Test};
use std::alloc::Global;
use std::marker::Model;

/// Versions in the order of their rows and then of their commits, with an order of those that have not ended beside it: a
/// read of what is there passes over no version that ended. Contracts see the list, and how many more go in without memory.
#[derive(Drop)]
pub struct Versions {
    shelf: Shelf<GroupVersion>,
}

impl Model for Versions {
    ghost use Rattle.std.specs.Prelude.{◌≡◌, ◌∷◌, []};
    ghost use Rattle.lv_viewrows.specs.Kept.{VersionsKept};
    ghost use Rattle.lv_viewrows.specs.Standing.{not_ended};

    ghost Value = { VersionsKept };

    ghost view = { λ v. record { list = v.shelf.list; spare = v.shelf.spare } };

    ghost invariant = { λ v. v.shelf.others ≡ not_ended v.shelf.list ∷ [] };
}

/// The versions that a read looks at, in their order: all, or those that have not ended. Contracts see them as a list.
#[derive(Drop)]
pub(crate) struct Candidates<'a> {
    versions: &'a Versions,
    all: bool,
}

impl<'a> Model for Candidates<'a> {
    ghost use Rattle.std.specs.Prelude.{List, if◌then◌else◌};
    ghost use Rattle.lv_viewrows.specs.declared.version.GroupVersion.{GroupVersion as AVersion};
    ghost use Rattle.lv_viewrows.specs.Standing.{not_ended};

    ghost Value = { List AVersion };

    ghost view = { λ l. if l.all then l.versions.now.list else not_ended l.versions.now.list };
}

impl<'a> Candidates<'a> {
    /// The number of these versions.
    pub(crate) fn len(&self) -> usize
        ensures { result ≡ length self.now }
    {
        if self.all {
            self.versions.len()
        } else {
            self.versions.len_not_ended()
        }
    }

    /// The version at a place, which is below the length. A read asks for each version by it.
    #[inline(always)]
    pub(crate) fn get(&self, at: usize) -> &GroupVersion
        requires { at < length self.now }
        ensures { slice_get self.now at ≡ Some result.now }
    {
        if self.all {
            self.versions.get(at)
        } else {
            self.versions.get_not_ended(at)
        }
    }

    /// Versions from a place on that are looked up together: at least the one there, and none from `end` on. Cost: constant.
    pub(crate) fn run(&self, at: usize, end: usize) -> Run<'a, GroupVersion>
        requires place { at < end }
        requires end { end ≤ length self.now }
        ensures some { 0 < length result }
        ensures within { at + length result ≤ end }
        ensures run { result ≡ take (length result) (drop at self.now) }
    {
        if self.all {
            self.versions.run(at, end)
        } else {
            self.versions.run_not_ended(at, end)
        }
    }

    /// How many of them pass a test that no later one passes where an earlier one fails. Cost: a binary search.
    pub(crate) fn cut<P: Test<GroupVersion>>(&self, test: &P) -> usize
        requires { Falls (P.passed test.now) self.now }
        ensures within { result ≤ length self.now }
        ensures cut { IsCut (P.passed test.now) result self.now }
    {
        if self.all {
            self.versions.cut(test)
        } else {
            self.versions.cut_not_ended(test)
        }
    }
}

impl Versions {
    /// No versions, and no room.
    pub(crate) fn new(alloc: Global) -> Result<Versions, NoMemory>
        ensures { IfOk result (λ versions. versions.list ≡ []) }
    {
        let mut shelf = Shelf::new(alloc);
        shelf.add_order(alloc)?;
        Ok(Versions { shelf })
    }

    /// The number of versions.
    pub(crate) fn len(&self) -> usize
        ensures { result ≡ length self.now.list }
    {
        self.shelf.len()
    }

    /// The number of those that have not ended.
    pub(crate) fn len_not_ended(&self) -> usize
        ensures { result ≡ length (not_ended self.now.list) }
    {
        self.shelf.len_in(0)
    }

    /// The version at a place, which is below the length.
    pub(crate) fn get(&self, at: usize) -> &GroupVersion
        requires { at < length self.now.list }
        ensures { slice_get self.now.list at ≡ Some result.now }
    {
        self.shelf.get(at)
    }

    /// The version at a place among those that have not ended.
    fn get_not_ended(&self, at: usize) -> &GroupVersion
        requires { at < length (not_ended self.now.list) }
        ensures { slice_get (not_ended self.now.list) at ≡ Some result.now }
    {
        self.shelf.get_in(0, at)
    }

    /// Versions from a place on that are looked up together.
    fn run(&self, at: usize, end: usize) -> Run<'_, GroupVersion>
        requires place { at < end }
        requires end { end ≤ length self.now.list }
        ensures some { 0 < length result }
        ensures within { at + length result ≤ end }
        ensures run { result ≡ take (length result) (drop at self.now.list) }
    {
        self.shelf.run(at, end)
    }

    /// The same, among those that have not ended.
    fn run_not_ended(&self, at: usize, end: usize) -> Run<'_, GroupVersion>
        requires place { at < end }
        requires end { end ≤ length (not_ended self.now.list) }
        ensures some { 0 < length result }
        ensures within { at + length result ≤ end }
        ensures run { result ≡ take (length result) (drop at (not_ended self.now.list)) }
    {
        self.shelf.run_in(0, at, end)
    }

    /// How many versions pass a test that no later one passes where an earlier one fails.
    fn cut<P: Test<GroupVersion>>(&self, test: &P) -> usize
        requires { Falls (P.passed test.now) self.now.list }
        ensures within { result ≤ length self.now.list }
        ensures cut { IsCut (P.passed test.now) result self.now.list }
    {
        self.shelf.cut(test)
    }

    /// How many of those that have not ended pass such a test.
    fn cut_not_ended<P: Test<GroupVersion>>(&self, test: &P) -> usize
        requires { Falls (P.passed test.now) (not_ended self.now.list) }
        ensures within { result ≤ length (not_ended self.now.list) }
        ensures cut { IsCut (P.passed test.now) result (not_ended self.now.list) }
    {
        self.shelf.cut_in(0, test)
    }

    /// All versions.
    pub(crate) fn all(&self) -> Candidates<'_>
        ensures { result ≡ self.now.list }
    {
        Candidates {
            versions: self,
            all: true,
        }
    }

    /// Those that have not ended.
    pub(crate) fn not_ended(&self) -> Candidates<'_>
        ensures { result ≡ not_ended self.now.list }
    {
        Candidates {
            versions: self,
            all: false,
        }
    }

    /// Makes room for the versions of `rows` rows. What is kept stays as it was, and the room never shrinks.
    pub(crate) fn reserve(&mut self, rows: u64) -> Result<(), NoMemory>
        ensures same { self.new.list ≡ self.old.list }
        ensures room { OnOk result (rows ≤ self.new.spare) }
        ensures kept { self.old.spare ≤ self.new.spare }
    {
        self.shelf.reserve(rows)
    }

    /// Puts a version that is not there at a place, where so many of those before it have not ended. It takes no memory.
    /// Cost: a move of small numbers in each order.
    pub(crate) fn insert(&mut self, at: usize, not_ended: usize, version: GroupVersion)
        requires room { 0 < self.old.spare }
        requires within { at ≤ length self.old.list }
        requires place { not_ended ≡ not_ended_before at self.old.list }
        requires absent { LacksItem version self.old.list }
        ensures added { self.new.list ≡ insert self.old.list at version }
        ensures room { self.new.spare + 1 ≡ self.old.spare }
    {
        let stays = version.has_no_end();
        self.shelf.insert(at, version, 0);
        if stays {
            self.shelf.enter(0, not_ended, at, 0);
        }
    }

    /// Puts a version that is not there behind all others. It takes no memory.
    pub(crate) fn push(&mut self, version: GroupVersion)
        requires room { 0 < self.old.spare }
        requires absent { LacksItem version self.old.list }
        ensures added { self.new.list ≡ self.old.list ++ version ∷ [] }
        ensures room { self.new.spare + 1 ≡ self.old.spare }
    {
        let at = self.len();
        let not_ended = self.len_not_ended();
        self.insert(at, not_ended, version);
    }

    /// Puts a version that is not there behind all others, with room for it.
    pub(crate) fn push_last(&mut self, version: GroupVersion) -> Result<(), NoMemory>
        requires { LacksItem version self.old.list }
        ensures { OnOk result (self.new.list ≡ self.old.list ++ version ∷ []) }
    {
        self.reserve(1)?;
        self.push(version);
        Ok(())
    }

    /// Ends the version at a place, which has not ended, where so many of those before it have not. It takes no memory.
    /// Cost: a move of small numbers.
    pub(crate) fn end(&mut self, at: usize, not_ended: usize, number: u64)
        requires at { at < length self.old.list }
        requires place { not_ended ≡ not_ended_before at self.old.list }
        requires order { Apart Precedes self.old.list }
        requires current { (v : GroupVersion) → slice_get self.old.list at ≡ Some v → has_no_end v ≡ true }
        ensures ended { (v : GroupVersion) → slice_get self.old.list at ≡ Some v → self.new.list ≡ slice_set self.old.list at (ended_at number v) }
        ensures room { self.new.spare ≡ self.old.spare }
    {
        self.shelf.leave(0, not_ended);
        self.shelf.edit(at, &EndOf { number });
    }

    /// Ends the version at a place, which has not ended, and puts one of a group from that commit on behind it. The new one
    /// takes the place of the old one among those that have not ended. It takes no memory. Cost: a move of small numbers.
    pub(crate) fn replace(&mut self, at: usize, group: SignedRow, number: u64)
        requires room { 0 < self.old.spare }
        requires at { at < length self.old.list }
        requires order { Apart Precedes self.old.list }
        requires current { (v : GroupVersion) → slice_get self.old.list at ≡ Some v → has_no_end v ≡ true }
        ensures replaced { (v : GroupVersion) → slice_get self.old.list at ≡ Some v → self.new.list ≡ insert (slice_set self.old.list at (ended_at number v)) (at + 1) (version_from number group) }
        ensures room { self.new.spare + 1 ≡ self.old.spare }
    {
        let mut version = self
            .shelf
            .exchange(at, GroupVersion::from_commit(number, group));
        version.until = Some(number);
        self.shelf.insert(at, version, 0);
    }

    /// Puts a group, from a commit on, in the place of a version's, where none has ended. It takes no memory. Cost: constant.
    pub(crate) fn set(&mut self, at: usize, group: SignedRow, number: u64)
        requires at { at < length self.old.list }
        requires order { Apart Precedes self.old.list }
        requires open { AreOpen self.old.list }
        ensures set { self.new.list ≡ slice_set self.old.list at (version_from number group) }
        ensures room { self.new.spare ≡ self.old.spare }
    {
        let _old = self
            .shelf
            .exchange(at, GroupVersion::from_commit(number, group));
    }

    /// Drops the version at a place, where none has ended. It takes no memory, and makes room for one. Cost: a move of small
    /// numbers in each order.
    pub(crate) fn remove(&mut self, at: usize)
        requires at { at < length self.old.list }
        requires order { Apart Precedes self.old.list }
        requires open { AreOpen self.old.list }
        ensures removed { self.new.list ≡ remove self.old.list at }
        ensures room { self.new.spare ≡ self.old.spare + 1 }
    {
        self.shelf.leave(0, at);
        self.shelf.remove(at);
    }

    /// Keeps the versions that pass. It takes no memory, and makes room for as many as go. Cost: two passes over four-byte
    /// places, and one over those of the versions that have not ended.
    pub(crate) fn keep<P: Test<GroupVersion>>(&mut self, test: &P)
        ensures kept { self.new.list ≡ filter (P.passed test.now) self.old.list }
        ensures room { self.old.spare ≤ self.new.spare }
    {
        self.shelf.keep(test);
    }

    /// Copies, in their order. Cost: linear in the versions.
    pub(crate) fn copy(&self, alloc: Global) -> Result<Versions, NoMemory>
        requires { Apart Precedes self.now.list }
        ensures { IfOk result (λ copy. copy.list ≡ self.now.list) }
    {
        let mut made = Versions::new(alloc)?;
        made.reserve(self.len() as u64)?;
        for at in 0..self.len() {
            made.push_last(self.get(at).copy(alloc)?)?;
        }
        Ok(made)
    }
}
