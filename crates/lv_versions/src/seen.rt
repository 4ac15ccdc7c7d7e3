//! The versions that a reader looks at.
ghost use Rattle.std.specs.Prelude.{◌≡◌, ◌≤◌, ◌<◌, ◌+◌, length, drop, take, map, Some, true, option_map};
ghost use Rattle.std.specs.List.{AllByRecursion};
ghost use Rattle.lv_shelf.specs.Cuts.{Falls, IsCut};
ghost use Rattle.lv_shelf.specs.Shelves.{other_at};
ghost use Rattle.lv_shelf.specs.Chains.{AgreesOn, HasSome, all_newest, before, chain_at, joined, newest_of, newest_that};
ghost use Rattle.lv_versions.specs.Versions.{alone, came_by};

use crate::version::CameBy;
use lv_schema::RowVersion;
use lv_shelf::{ChainShelf, Run};
use lv_values::Test;
use std::marker::Model;

/// All chains of a table's versions, or the versions of a further order, each as a chain by itself. Contracts see the chains.
#[derive(Drop)]
pub(crate) struct Seen<'a> {
    versions: &'a ChainShelf<RowVersion>,
    order: Option<usize>,
}

impl<'a> Model for Seen<'a> {
    ghost use Rattle.std.specs.Prelude.{List};
    ghost use Rattle.lv_schema.specs.declared.version.RowVersion.{RowVersion as ARowVersion};
    ghost use Rattle.lv_versions.specs.Versions.{IsSeen, seen_in};

    ghost Value = { List (List ARowVersion) };

    ghost view = { λ s. seen_in s.order s.versions.now.others s.versions.now.chains };

    ghost invariant = { λ s. IsSeen s.order s.versions.now.others };
}

impl<'a> Seen<'a> {
    /// All chains.
    pub(crate) fn all(versions: &'a ChainShelf<RowVersion>) -> Self
        ensures { result ≡ versions.now.chains }
    {
        Seen {
            versions,
            order: None,
        }
    }

    /// The versions of a further order.
    pub(crate) fn of(versions: &'a ChainShelf<RowVersion>, order: usize) -> Self
        requires { order < length versions.now.others }
        ensures { result ≡ map alone (other_at versions.now.others order) }
    {
        Seen {
            versions,
            order: Some(order),
        }
    }

    /// The number of chains.
    pub(crate) fn len(&self) -> usize
        ensures count { result ≡ length self.now }
        ensures some { AllByRecursion HasSome self.now }
    {
        match self.order {
            Some(order) => self.versions.len_in(order),
            None => self.versions.chains(),
        }
    }

    /// The newest version of a chain.
    pub(crate) fn newest(&self, chain: usize) -> &'a RowVersion
        requires { chain < length self.now }
        ensures { newest_of (chain_at self.now chain) ≡ Some result.now }
    {
        match self.order {
            Some(order) => self.versions.get_in(order, chain),
            None => self.versions.newest(chain),
        }
    }

    /// The newest versions of chains from one on that are looked up together: at least that of this one, and none of those
    /// from `end` on.
    pub(crate) fn run(&self, at: usize, end: usize) -> Run<'a, RowVersion>
        requires place { at < end }
        requires end { end ≤ length self.now }
        ensures some { 0 < length result }
        ensures within { at + length result ≤ end }
        ensures run { result ≡ take (length result) (drop at (all_newest self.now)) }
    {
        match self.order {
            Some(order) => self.versions.run_in(order, at, end),
            None => self.versions.run(at, end),
        }
    }

    /// The newest version of a chain that came by commit n, where its newest one is known. Cost: a test of that one, and of each
    /// newer one than what is given.
    pub(crate) fn came_by(
        &self,
        chain: usize,
        newest: &'a RowVersion,
        n: u64,
    ) -> Option<&'a RowVersion>
        requires chain { chain < length self.now }
        requires newest { newest_of (chain_at self.now chain) ≡ Some newest.now }
        ensures { option_map (λ found. found.now) result ≡ newest_that (came_by n) (chain_at self.now chain) }
    {
        if newest.from <= n {
            return Some(newest);
        }
        match self.order {
            Some(_) => None,
            None => self.versions.newest_that(chain, &CameBy { n }),
        }
    }

    /// How many chains pass a test, which says the same of all versions of a chain, and which no later one passes where an
    /// earlier one fails. Cost: as of `ChainShelf::cut_near`.
    pub(crate) fn cut_near<P: Test<RowVersion>>(&self, rank: i64, test: &P) -> usize
        requires falls { Falls (P.passed test.now) (joined self.now) }
        requires agrees { AllByRecursion (AgreesOn (P.passed test.now)) self.now }
        ensures within { result ≤ length self.now }
        ensures cut { IsCut (P.passed test.now) (before self.now result) (joined self.now) }
    {
        match self.order {
            Some(order) => self.versions.cut_in_near(order, rank, test),
            None => self.versions.cut_near(rank, test),
        }
    }

    /// Whether a chain is the last one that passes. Cost: two looks at versions.
    fn is_last<P: Test<RowVersion>>(&self, chain: usize, test: &P) -> bool
        requires falls { Falls (P.passed test.now) (joined self.now) }
        requires agrees { AllByRecursion (AgreesOn (P.passed test.now)) self.now }
        requires within { chain < length self.now }
        ensures cut { result ≡ true → IsCut (P.passed test.now) (before self.now (chain + 1)) (joined self.now) }
    {
        let len = self.len();
        let next = chain + 1;
        test.passes(self.newest(chain)) && (next == len || !test.passes(self.newest(next)))
    }

    /// What `cut_near` gives. Cost: two looks at versions where a chain is the last one that passes, or else these and that of
    /// `cut_near`.
    pub(crate) fn cut_behind<P: Test<RowVersion>>(&self, chain: usize, rank: i64, test: &P) -> usize
        requires falls { Falls (P.passed test.now) (joined self.now) }
        requires agrees { AllByRecursion (AgreesOn (P.passed test.now)) self.now }
        ensures within { result ≤ length self.now }
        ensures cut { IsCut (P.passed test.now) (before self.now result) (joined self.now) }
    {
        if chain < self.len() && self.is_last(chain, test) {
            chain + 1
        } else {
            self.cut_near(rank, test)
        }
    }
}
