//! A table's row versions.
ghost use Rattle.std.specs.Prelude.{◌≡◌, ◌+◌, ◌-◌, ◌^◌, ◌<◌, ◌≤◌, ◌++◌, ◌∷◌, [], ℕ, Bool, length, map, filter, Some, None, MatchOption, IfOk, OnOk, OnErr, option_to_list, drop, take, false, true, vec_len, vec_capacity};
ghost use Rattle.std.specs.Option.{option_copied, option_to_list};
ghost use Rattle.std.specs.List.{AllByRecursion};
ghost use Rattle.std.specs.List.Sorted.{IsPermutation};
ghost use Rattle.lv_values.specs.Rows.{key_cmp};
ghost use Rattle.lv_schema.specs.Nets.{with_net};
ghost use Rattle.lv_schema.specs.Once.{Ascends};
ghost use Rattle.lv_shelf.specs.Cuts.{Apart, Falls, IsCut};
ghost use Rattle.lv_shelf.specs.Shelves.{other_at};
ghost use Rattle.lv_shelf.specs.Chains.{HasSome, all_newest, before, chain_at, joined, newest_of};
ghost use Rattle.lv_versions.specs.Versions.{Applies, AreChains, AreHistories, EndsFrom, HaveOrders, IsBy, IsHigh, IsLow, Lived, Precedes, ends_after, is_open, is_upto, lost, new_version, row_with, rows_hit, rows_with, rows_within, soonest_after, soonest_pruned, state_at, with_index};

use crate::changing::change;
use crate::crowding::keep_current;
use crate::dropping::drop_over;
use crate::indexes::{CURRENT, INDEXES, add_first, add_index, index_by};
use crate::rank::rank_of_key;
use crate::seen::Seen;
use crate::version::{IsUpTo, hits, is_at};
use lv_schema::{Net, Positions, RowVersion, TableDef};
use lv_shelf::{ChainShelf, Run};
use lv_values::{Any, Copying, NoMemory, Room, Row, Rows, Steps, Test};
use std::alloc::Global;
use std::marker::Model;
use std::sync::ledger::Ledger;

/// A table's rows after each commit: for each key a chain of its versions, the newest of which are searched. It may have
/// indexes, by columns of which `probe` is asked: they make it faster, and its answers are the same. From the first commit on
/// that finds 1,024 chains or more whose newest version has ended, and four for each other one, an order of the versions that
/// have not ended is kept (`keep_current`). A search looks at ranks, which lie close together, and at few rows
/// (`ChainShelf::cut_near`). A move of small numbers, in the costs below, is one of at most 512 numbers, and of one more for each
/// 1,024 keys behind the place, or versions in an index; of more than 65,536, of at most 4,096, and one for each 8,192.
#[derive(Drop)]
pub struct Versions {
    def: TableDef,
    versions: ChainShelf<RowVersion>,
    indexes: Room<Positions>,
    last: u64,
    floor: u64,
    soonest: u64,
    current: bool,
    alloc: Global,
}

impl Model for Versions {
    ghost use Rattle.lv_shelf.specs.Chains.{joined};
    ghost use Rattle.lv_versions.specs.Versions.{AreKept, Kept};

    ghost Value = { Kept };

    ghost view = { λ v. record { def = v.def; versions = joined v.versions.chains; spare = v.versions.spare; last = v.last; floor = v.floor; indexes = v.indexes.list; soonest = v.soonest } };

    ghost invariant = { λ v. AreKept v.def.key v.last v.floor v.soonest v.indexes.list v.current v.versions.spare v.versions.others v.versions.chains };
}

impl Versions {
    /// No row after any commit. It takes no memory.
    pub fn new(alloc: Global, def: TableDef) -> Versions
        ensures def { result.def ≡ def }
        ensures none { result.versions ≡ [] }
        ensures last { result.last ≡ 0 }
        ensures floor { result.floor ≡ 0 }
        ensures room { result.spare ≡ 0 }
        ensures indexes { result.indexes ≡ [] }
        ensures soonest { result.soonest ≡ 2 ^ 64 - 1 }
    {
        Versions {
            def,
            versions: ChainShelf::new(alloc),
            indexes: Room::new(alloc),
            last: 0,
            floor: 0,
            soonest: u64::MAX,
            current: false,
            alloc,
        }
    }

    /// The table.
    pub fn def(&self) -> &TableDef
        ensures { result.now ≡ self.now.def }
    {
        &self.def
    }

    /// The row that has a key after commit n. Cost: a binary search, and a look at each version of the key that came later.
    pub fn read<L: Ledger>(&self, n: u64, key: &Row, steps: &mut Steps<L>) -> Option<&Row>
        requires { self.now.floor ≤ n }
        ensures found { MatchOption result (row_with self.now.def.key key.now (state_at n self.now.versions) ≡ None) (λ row. row_with self.now.def.key key.now (state_at n self.now.versions) ≡ Some row.now) }
        ensures keyed { Ascends (key_cmp self.now.def.key) (state_at n self.now.versions) }
        ensures cost { steps.new ≡ steps.old + length (option_to_list result) }
    {
        let positions = self.def.key.as_slice();
        let seen = Seen::all(&self.versions);
        let end = seen.cut_near(rank_of_key(key), &up_to_key(positions, key));
        if end == 0 {
            return None;
        }
        let version = seen.came_by(end - 1, seen.newest(end - 1), n)?;
        if hits(version, positions, key, n) {
            steps.tick();
            Some(&version.row)
        } else {
            None
        }
    }

    /// The rows after commit n, in the order of their keys. Cost: one pass over all chains, with a look at each version that
    /// came later, or, from the last commit on and where the order of the versions that have not ended is kept, over those
    /// alone, and a copy of each row.
    pub fn scan<L: Ledger>(
        &self,
        alloc: Global,
        n: u64,
        steps: &mut Steps<L>,
    ) -> Result<Rows, NoMemory>
        requires { self.now.floor ≤ n }
        ensures rows { IfOk result (λ rows. rows ≡ state_at n self.now.versions) }
        ensures keyed { Ascends (key_cmp self.now.def.key) (state_at n self.now.versions) }
        ensures cost { OnOk result (steps.new ≡ steps.old + length (state_at n self.now.versions)) }
        ensures most { OnErr result (steps.new ≤ steps.old + length (state_at n self.now.versions)) }
    {
        let seen = self.seen(n);
        rows_in(alloc, n, &seen, 0, seen.len(), &Any, steps)
    }

    /// Those rows of `scan` that pass. Where all that pass have first key values no less than some, or no greater than some,
    /// those may be given. Cost: two binary searches, or one where one of the chains that `scan` goes over is between these
    /// values, and one pass over those of them that are, as of `scan`, with a copy of each row that passes. A step is taken for
    /// each row between these values, which is tested, and for no other.
    pub fn scan_between<L: Ledger, T: Test<Row>>(
        &self,
        alloc: Global,
        n: u64,
        low: Option<&Row>,
        high: Option<&Row>,
        test: &T,
        steps: &mut Steps<L>,
    ) -> Result<Rows, NoMemory>
        requires floor { self.now.floor ≤ n }
        requires low { MatchOption low (Unit {0}) (λ values. IsLow self.now.def.key values.now (T.passed test.now)) }
        requires high { MatchOption high (Unit {0}) (λ values. IsHigh self.now.def.key values.now (T.passed test.now)) }
        ensures rows { IfOk result (λ rows. rows ≡ filter (T.passed test.now) (state_at n self.now.versions)) }
        ensures keyed { Ascends (key_cmp self.now.def.key) (state_at n self.now.versions) }
        ensures cost { OnOk result (steps.new ≡ steps.old + length (rows_within self.now.def.key (option_copied low.entry) (option_copied high.entry) (state_at n self.now.versions))) }
        ensures refused { OnErr result (steps.new ≤ steps.old + length (rows_within self.now.def.key (option_copied low.entry) (option_copied high.entry) (state_at n self.now.versions))) }
        ensures most { steps.new ≤ steps.old + length (state_at n self.now.versions) }
    {
        let positions = self.def.key.as_slice();
        let seen = self.seen(n);
        let first = place_of_low(positions, low, &seen);
        let end = place_of_high(positions, high, first, &seen);
        rows_in(alloc, n, &seen, first, end, test, steps)
    }

    /// The rows after commit n that have these values in these columns, in the order of their keys.
    /// Cost: as of `probe_in_place`, and a copy of each row, in room that is taken once.
    pub fn probe<L: Ledger>(
        &self,
        alloc: Global,
        n: u64,
        columns: &[u8],
        values: &Row,
        steps: &mut Steps<L>,
    ) -> Result<Rows, NoMemory>
        requires { self.now.floor ≤ n }
        ensures rows { IfOk result (λ rows. rows ≡ rows_with columns.now values.now (state_at n self.now.versions)) }
        ensures keyed { Ascends (key_cmp self.now.def.key) (rows_with columns.now values.now (state_at n self.now.versions)) }
        ensures cost { OnOk result (steps.new ≡ steps.old + length (rows_with columns.now values.now (state_at n self.now.versions))) }
        ensures most { OnErr result (steps.new ≤ steps.old + length (rows_with columns.now values.now (state_at n self.now.versions))) }
    {
        let found = self.probe_in_place(alloc, n, columns, values, steps)?;
        copies(alloc, &found)
    }

    /// References to the rows that `probe` copies, where they lie. Cost: with an index by these columns two binary
    /// searches, and for each version of any commit that has these values room for a reference, taken once, and a test of
    /// its commits alone; or else one pass over the chains that `scan` goes over, and a reference to each row.
    pub fn probe_in_place<'b, L: Ledger>(
        &'b self,
        alloc: Global,
        n: u64,
        columns: &[u8],
        values: &Row,
        steps: &mut Steps<L>,
    ) -> Result<Vec<&'b Row>, NoMemory>
        requires { self.now.floor ≤ n }
        ensures rows { IfOk result (λ rows. map (λ row. row.now) rows.items ≡ rows_with columns.now values.now (state_at n self.now.versions)) }
        ensures keyed { Ascends (key_cmp self.now.def.key) (rows_with columns.now values.now (state_at n self.now.versions)) }
        ensures cost { OnOk result (steps.new ≡ steps.old + length (rows_with columns.now values.now (state_at n self.now.versions))) }
        ensures most { OnErr result (steps.new ≤ steps.old + length (rows_with columns.now values.now (state_at n self.now.versions))) }
    {
        match index_by(self.indexes.as_slice(), columns) {
            Some(index) => rows_between(
                alloc,
                n,
                columns,
                values,
                index + INDEXES,
                &self.versions,
                steps,
            ),
            None => rows_with(alloc, n, columns, values, &self.seen(n), steps),
        }
    }

    /// Adds an index by some columns, in which `probe` then searches, and which `commit` and `prune` keep: each costs
    /// a binary search and a move of small numbers more for each row. Where there is one, nothing changes, as for want
    /// of memory. Cost: a binary search and a move of small numbers for each version.
    pub fn add_index(&mut self, columns: &[u8]) -> Result<(), NoMemory>
        ensures def { self.new.def ≡ self.old.def }
        ensures same { self.new.versions ≡ self.old.versions }
        ensures last { self.new.last ≡ self.old.last }
        ensures floor { self.new.floor ≡ self.old.floor }
        ensures room { self.new.spare ≡ self.old.spare }
        ensures added { OnOk result (self.new.indexes ≡ with_index columns.now self.old.indexes) }
        ensures refused { OnErr result (self.new.indexes ≡ self.old.indexes) }
        ensures soonest { self.new.soonest ≡ self.old.soonest }
    {
        if index_by(self.indexes.as_slice(), columns).is_some() {
            return Ok(());
        }
        add_index(
            self.alloc,
            self.def.key.as_slice(),
            columns,
            &mut self.indexes,
            &mut self.versions,
        )
    }

    /// Makes room for `rows` rows. The versions stay as they were, and the room never shrinks.
    pub fn reserve(&mut self, rows: u64) -> Result<(), NoMemory>
        ensures def { self.new.def ≡ self.old.def }
        ensures same { self.new.versions ≡ self.old.versions }
        ensures last { self.new.last ≡ self.old.last }
        ensures floor { self.new.floor ≡ self.old.floor }
        ensures room { OnOk result (rows ≤ self.new.spare) }
        ensures kept { self.old.spare ≤ self.new.spare }
        ensures indexes { self.new.indexes ≡ self.old.indexes }
        ensures soonest { self.new.soonest ≡ self.old.soonest }
    {
        add_first(self.alloc, &mut self.versions)?;
        self.versions.reserve(rows)
    }

    /// Commits a net change. It takes no memory. Cost: a binary search for each key of a row that goes or comes, where
    /// these are in the order of their keys, and a move of small numbers for each that comes with a new key, with a search and
    /// a move more in each index, and in the order of the versions that have not ended where it is kept. The commit from which
    /// on it is kept begins with one pass over all chains.
    pub fn commit(&mut self, number: u64, net: Net)
        requires later { self.old.last < number }
        requires above { self.old.floor < number }
        requires applies { Applies self.old.def.key net (state_at self.old.last self.old.versions) }
        requires room { length net.plus ≤ self.old.spare }
        ensures state { (n : ℕ) → number ≤ n → state_at n self.new.versions ≡ with_net self.old.def.key net (state_at self.old.last self.old.versions) }
        ensures before { (n : ℕ) → n < number → state_at n self.new.versions ≡ state_at n self.old.versions }
        ensures versions { IsPermutation (map (lost number net.minus) self.old.versions ++ map (new_version number) net.plus) self.new.versions }
        ensures last { self.new.last ≡ number }
        ensures def { self.new.def ≡ self.old.def }
        ensures floor { self.new.floor ≡ self.old.floor }
        ensures room { self.new.spare + length net.plus ≡ self.old.spare }
        ensures indexes { self.new.indexes ≡ self.old.indexes }
        ensures soonest { self.new.soonest ≡ soonest_after self.old.soonest number net.minus }
    {
        let soonest = soonest_after(self.soonest, number, &net.minus);
        let positions = self.def.key.as_slice();
        let indexes = self.indexes.as_slice();
        let current = keep_current(positions, self.current, &mut self.versions);
        change(positions, indexes, current, net, number, &mut self.versions);
        self.last = number;
        self.soonest = soonest;
        self.current = current;
    }

    /// Drops the versions that ended at or below a floor. It takes no memory. Cost: constant where none ended at or
    /// below it, a binary search for each where at most 64 did, and a search and a move of small numbers in each index, or
    /// else a pass over the chains, and one over the small numbers of each index; and a move of small numbers for each chain that
    /// goes.
    pub fn prune(&mut self, floor: u64)
        requires { self.old.floor ≤ floor }
        ensures kept { self.new.versions ≡ filter (λ v. ends_after floor v.until) self.old.versions }
        ensures stays { (n : ℕ) → floor ≤ n → state_at n self.new.versions ≡ state_at n self.old.versions }
        ensures newest { (n : ℕ) → self.old.last ≤ n → state_at n self.new.versions ≡ state_at n self.old.versions }
        ensures floor { self.new.floor ≡ floor }
        ensures def { self.new.def ≡ self.old.def }
        ensures last { self.new.last ≡ self.old.last }
        ensures room { self.old.spare ≤ self.new.spare }
        ensures indexes { self.new.indexes ≡ self.old.indexes }
        ensures soonest { self.new.soonest ≡ soonest_pruned floor self.old.last self.old.soonest }
    {
        let soonest = drop_ended(
            self.def.key.as_slice(),
            self.indexes.as_slice(),
            &mut self.versions,
            self.soonest,
            self.last,
            floor,
        );
        self.soonest = soonest;
        self.floor = floor;
    }

    /// From its last commit on a table shows the rows that it showed then: a law, and the call does nothing.
    pub fn newest(&self)
        ensures { (n : ℕ) → self.now.last ≤ n → state_at n self.now.versions ≡ state_at self.now.last self.now.versions }
    {
        let _ = &self.last;
    }

    /// What shows the rows after commit n: from the last commit on the versions that have not ended, where an order of
    /// these is kept, or else all chains. Cost: constant.
    fn seen(&self, n: u64) -> Seen<'_>
        ensures rows { state_at n (joined result) ≡ state_at n self.now.versions }
        ensures stand { Apart (Precedes self.now.def.key) (joined result) }
        ensures chained { AreChains self.now.def.key result }
        ensures some { AllByRecursion HasSome result }
    {
        let _chains = self.versions.chains();
        if self.current && self.last <= n && self.versions.orders() > CURRENT {
            Seen::of(&self.versions, CURRENT)
        } else {
            Seen::all(&self.versions)
        }
    }

    /// The number of versions.
    pub fn count(&self) -> u64
        ensures { result ≡ length self.now.versions }
    {
        self.versions.len() as u64
    }
}

/// The soonest end after a commit that takes these rows away.
fn soonest_after(soonest: u64, number: u64, minus: &Rows) -> u64
    ensures { result ≡ soonest_after soonest number minus.now }
{
    if minus.is_empty() {
        soonest
    } else {
        soonest.min(number)
    }
}

/// Drops the versions that ended at or below a floor, and answers a number below which none ends. Cost: constant where
/// none ends at or below the floor, or else that of the versions that go.
fn drop_ended(
    positions: &[u8],
    indexes: &[Positions],
    versions: &mut ChainShelf<RowVersion>,
    soonest: u64,
    last: u64,
    floor: u64,
) -> u64
    requires stand { Apart (Precedes positions.now) (joined versions.old.chains) }
    requires chained { AreChains positions.now versions.old.chains }
    requires lived { AllByRecursion Lived (joined versions.old.chains) }
    requires orders { HaveOrders positions.now indexes.now versions.old.spare versions.old.others (joined versions.old.chains) }
    requires unended { AllByRecursion (λ v. is_open v ≡ true) (other_at versions.old.others 1) }
    requires ends { AllByRecursion (λ v. EndsFrom soonest v.until) (joined versions.old.chains) }
    requires each { AllByRecursion (IsBy last) (joined versions.old.chains) }
    ensures kept { (joined versions.new.chains) ≡ filter (λ v. ends_after floor v.until) (joined versions.old.chains) }
    ensures chained { AreChains positions.now versions.new.chains }
    ensures room { versions.old.spare ≤ versions.new.spare }
    ensures orders { HaveOrders positions.now indexes.now versions.new.spare versions.new.others (joined versions.new.chains) }
    ensures current { other_at versions.new.others 1 ≡ other_at versions.old.others 1 }
    ensures ends { AllByRecursion (λ v. EndsFrom result v.until) (joined versions.new.chains) }
    ensures soonest { result ≡ soonest_pruned floor last soonest }
{
    if floor < soonest {
        return soonest;
    }
    drop_over(positions, indexes, floor, versions);
    if floor < last { floor + 1 } else { u64::MAX }
}

/// Appends a copy of the version's row, if it passes, and takes one step, if the row is there after commit n.
fn push_alive<L: Ledger, T: Test<Row>>(
    alloc: Global,
    n: u64,
    version: &RowVersion,
    test: &T,
    rows: &mut Rows,
    steps: &mut Steps<L>,
) -> Result<(), NoMemory>
    ensures pushed { OnOk result (rows.new ≡ rows.old ++ filter (T.passed test.now) (state_at n (version.now ∷ []))) }
    ensures cost { OnOk result (steps.new ≡ steps.old + length (state_at n (version.now ∷ []))) }
    ensures refused { OnErr result (steps.new ≡ steps.old) }
{
    if is_at(version, n) {
        if test.passes(&version.row) {
            rows.push(version.row.copy(alloc)?)?;
        }
        steps.tick();
    }
    Ok(())
}

/// Tests whether keys are not above this one.
fn up_to_key<'a>(positions: &'a [u8], key: &'a Row) -> IsUpTo<'a>
    ensures { result ≡ (positions.now, key.now, true) }
{
    IsUpTo {
        columns: positions,
        values: key,
        themselves: true,
    }
}

/// Tests whether first key values are below these, or, if these count too, are these.
fn up_to<'a>(positions: &'a [u8], values: &'a Row, themselves: bool) -> IsUpTo<'a>
    requires { length values.now ≤ length positions.now }
    ensures { result ≡ (take (length values.now) positions.now, values.now, themselves) }
{
    IsUpTo {
        columns: &positions[..values.len()],
        values,
        themselves,
    }
}

/// How many chains have first key values below these, none where none are given. Cost: a binary search.
fn place_of_low(positions: &[u8], low: Option<&Row>, seen: &Seen<'_>) -> usize
    requires stand { Apart (Precedes positions.now) (joined seen.now) }
    requires chained { AreChains positions.now seen.now }
    requires fits { MatchOption low (Unit {0}) (λ values. length values.now ≤ length positions.now) }
    ensures within { result ≤ length seen.now }
    ensures cut { MatchOption low.entry (result ≡ 0) (λ values. IsCut (is_upto (take (length values.now) positions.now) values.now false) (before seen.now result) (joined seen.now)) }
{
    match low {
        Some(values) => seen.cut_near(rank_of_key(values), &up_to(positions, values, false)),
        None => 0,
    }
}

/// How many chains have first key values no greater than these, all where none are given. Cost: two looks at versions
/// where these are one more than `first`, or else a binary search.
fn place_of_high(positions: &[u8], high: Option<&Row>, first: usize, seen: &Seen<'_>) -> usize
    requires stand { Apart (Precedes positions.now) (joined seen.now) }
    requires chained { AreChains positions.now seen.now }
    requires fits { MatchOption high (Unit {0}) (λ values. length values.now ≤ length positions.now) }
    ensures within { result ≤ length seen.now }
    ensures cut { MatchOption high.entry (result ≡ length seen.now) (λ values. IsCut (is_upto (take (length values.now) positions.now) values.now true) (before seen.now result) (joined seen.now)) }
{
    match high {
        Some(values) => seen.cut_behind(
            first,
            rank_of_key(values),
            &up_to(positions, values, true),
        ),
        None => seen.len(),
    }
}

/// Appends a copy of the row that a chain shows after commit n, if it passes, and takes one step, if it shows one.
fn copy_chain<L: Ledger, T: Test<Row>>(
    alloc: Global,
    n: u64,
    seen: &Seen<'_>,
    chain: usize,
    newest: &RowVersion,
    test: &T,
    rows: &mut Rows,
    steps: &mut Steps<L>,
) -> Result<(), NoMemory>
    requires chain { chain < length seen.now }
    requires newest { newest_of (chain_at seen.now chain) ≡ Some newest.now }
    requires histories { AreHistories seen.now }
    ensures pushed { OnOk result (rows.new ≡ rows.old ++ filter (T.passed test.now) (state_at n (chain_at seen.now chain))) }
    ensures cost { OnOk result (steps.new ≡ steps.old + length (state_at n (chain_at seen.now chain))) }
    ensures refused { OnErr result (steps.new ≡ steps.old) }
{
    match seen.came_by(chain, newest, n) {
        Some(version) => push_alive(alloc, n, version, test, rows, steps),
        None => Ok(()),
    }
}

/// Appends copies of the rows that chains from one on show after commit n and that pass, where their newest versions are
/// known, and takes one step for each row that they show.
fn copy_run<L: Ledger, T: Test<Row>>(
    alloc: Global,
    n: u64,
    seen: &Seen<'_>,
    first: usize,
    run: &Run<'_, RowVersion>,
    test: &T,
    rows: &mut Rows,
    steps: &mut Steps<L>,
) -> Result<(), NoMemory>
    requires end { first + length run.now ≤ length seen.now }
    requires run { run.now ≡ take (length run.now) (drop first (all_newest seen.now)) }
    requires histories { AreHistories seen.now }
    requires some { AllByRecursion HasSome seen.now }
    ensures pushed { OnOk result (rows.new ≡ rows.old ++ filter (T.passed test.now) (state_at n (joined (take (length run.now) (drop first seen.now))))) }
    ensures cost { OnOk result (steps.new ≡ steps.old + length (state_at n (joined (take (length run.now) (drop first seen.now))))) }
    ensures refused { OnErr result (steps.new ≤ steps.old + length (state_at n (joined (take (length run.now) (drop first seen.now))))) }
{
    let _count = seen.len();
    for i in 0..run.len() {
        copy_chain(alloc, n, seen, first + i, run.get(i), test, rows, steps)?;
    }
    Ok(())
}

/// Copies of the rows after commit n that pass, of the chains from one up to another one, and one step for each row after
/// that commit that these chains have.
fn rows_in<L: Ledger, T: Test<Row>>(
    alloc: Global,
    n: u64,
    seen: &Seen<'_>,
    first: usize,
    end: usize,
    test: &T,
    steps: &mut Steps<L>,
) -> Result<Rows, NoMemory>
    requires end { end ≤ length seen.now }
    requires histories { AreHistories seen.now }
    requires some { AllByRecursion HasSome seen.now }
    ensures rows { IfOk result (λ rows. rows ≡ filter (T.passed test.now) (state_at n (joined (drop first (take end seen.now))))) }
    ensures cost { OnOk result (steps.new ≡ steps.old + length (state_at n (joined (drop first (take end seen.now))))) }
    ensures most { OnErr result (steps.new ≤ steps.old + length (state_at n (joined (drop first (take end seen.now))))) }
{
    let mut rows = Rows::new(alloc);
    let mut at = first;
    while at < end {
        let run = seen.run(at, end);
        copy_run(alloc, n, seen, at, &run, test, &mut rows, steps)?;
        at += run.len();
    }
    Ok(rows)
}

/// Copies of the rows that references see. The list takes its room once.
fn copies(alloc: Global, found: &[&Row]) -> Result<Rows, NoMemory>
    ensures { IfOk result (λ rows. rows ≡ map (λ row. row.now) found.now) }
{
    let mut rows = Vec::with_capacity(alloc, found.len())?;
    for row in found {
        rows.push_reserved(row.copy(alloc)?);
    }
    Ok(Rows::from_vec(rows))
}

/// Appends a reference to the version's row, and takes one step, if the row is there after commit n and has these values.
fn push_hit<'b, L: Ledger>(
    n: u64,
    columns: &[u8],
    values: &Row,
    version: &'b RowVersion,
    rows: &mut Vec<&'b Row>,
    steps: &mut Steps<L>,
) -> Result<(), NoMemory>
    ensures pushed { OnOk result (map (λ row. row.now) rows.new.items ≡ map (λ row. row.now) rows.old.items ++ rows_hit columns.now values.now n (version.now ∷ [])) }
    ensures cost { OnOk result (steps.new ≡ steps.old + length (rows_hit columns.now values.now n (version.now ∷ []))) }
    ensures refused { OnErr result (steps.new ≡ steps.old) }
{
    if hits(version, columns, values, n) {
        rows.push(&version.row)?;
        steps.tick();
    }
    Ok(())
}

/// Appends a reference to the row that a chain shows after commit n, and takes one step, if it shows one and that has these
/// values.
fn push_chain<'b, L: Ledger>(
    n: u64,
    columns: &[u8],
    values: &Row,
    seen: &Seen<'b>,
    chain: usize,
    rows: &mut Vec<&'b Row>,
    steps: &mut Steps<L>,
) -> Result<(), NoMemory>
    requires chain { chain < length seen.now }
    requires histories { AreHistories seen.now }
    ensures pushed { OnOk result (map (λ row. row.now) rows.new.items ≡ map (λ row. row.now) rows.old.items ++ rows_hit columns.now values.now n (chain_at seen.now chain)) }
    ensures cost { OnOk result (steps.new ≡ steps.old + length (rows_hit columns.now values.now n (chain_at seen.now chain))) }
    ensures refused { OnErr result (steps.new ≡ steps.old) }
{
    match seen.came_by(chain, seen.newest(chain), n) {
        Some(version) => push_hit(n, columns, values, version, rows, steps),
        None => Ok(()),
    }
}

/// References to the rows after commit n that have these values, and one step for each.
fn rows_with<'b, L: Ledger>(
    alloc: Global,
    n: u64,
    columns: &[u8],
    values: &Row,
    seen: &Seen<'b>,
    steps: &mut Steps<L>,
) -> Result<Vec<&'b Row>, NoMemory>
    requires { AreHistories seen.now }
    ensures rows { IfOk result (λ rows. map (λ row. row.now) rows.items ≡ rows_with columns.now values.now (state_at n (joined seen.now))) }
    ensures cost { OnOk result (steps.new ≡ steps.old + length (rows_with columns.now values.now (state_at n (joined seen.now)))) }
    ensures most { OnErr result (steps.new ≤ steps.old + length (rows_with columns.now values.now (state_at n (joined seen.now)))) }
{
    let mut rows = Vec::new(alloc);
    for chain in 0..seen.len() {
        push_chain(n, columns, values, seen, chain, &mut rows, steps)?;
    }
    Ok(rows)
}

/// Appends a reference to the version's row, and takes one step, if the row is there after commit n. It takes no memory.
fn push_shown<'b, L: Ledger>(
    n: u64,
    version: &'b RowVersion,
    rows: &mut Vec<&'b Row>,
    steps: &mut Steps<L>,
)
    requires room { vec_len rows.old < vec_capacity rows.old }
    ensures pushed { map (λ row. row.now) rows.new.items ≡ map (λ row. row.now) rows.old.items ++ state_at n (version.now ∷ []) }
    ensures cost { steps.new ≡ steps.old + length (state_at n (version.now ∷ [])) }
    ensures len { vec_len rows.new ≤ vec_len rows.old + 1 }
    ensures capacity { vec_capacity rows.new ≡ vec_capacity rows.old }
{
    if is_at(version, n) {
        rows.push_reserved(&version.row);
        steps.tick();
    }
}

/// Appends a reference to each row after commit n that these versions have, and takes one step for each. It takes no
/// memory.
fn push_run<'b, L: Ledger>(
    n: u64,
    run: &Run<'b, RowVersion>,
    rows: &mut Vec<&'b Row>,
    steps: &mut Steps<L>,
)
    requires room { vec_len rows.old + length run.now ≤ vec_capacity rows.old }
    ensures pushed { map (λ row. row.now) rows.new.items ≡ map (λ row. row.now) rows.old.items ++ state_at n run.now }
    ensures cost { steps.new ≡ steps.old + length (state_at n run.now) }
    ensures len { vec_len rows.new ≤ vec_len rows.old + length run.now }
    ensures capacity { vec_capacity rows.new ≡ vec_capacity rows.old }
{
    for i in 0..run.len() {
        push_shown(n, run.get(i), rows, steps);
    }
}

/// References to the rows after commit n that have these values, from an index by these columns, and one step for each.
/// Cost: two binary searches, and for each version between room for a reference, taken once, and a test of its commits:
/// it has these values already.
fn rows_between<'b, L: Ledger>(
    alloc: Global,
    n: u64,
    columns: &[u8],
    values: &Row,
    order: usize,
    versions: &'b ChainShelf<RowVersion>,
    steps: &mut Steps<L>,
) -> Result<Vec<&'b Row>, NoMemory>
    requires order { order < length versions.now.others }
    requires falls { (b : Bool) → Falls (is_upto columns.now values.now b) (other_at versions.now.others order) }
    ensures rows { IfOk result (λ rows. map (λ row. row.now) rows.items ≡ rows_hit columns.now values.now n (other_at versions.now.others order)) }
    ensures cost { OnOk result (steps.new ≡ steps.old + length (rows_hit columns.now values.now n (other_at versions.now.others order))) }
    ensures most { OnErr result (steps.new ≤ steps.old + length (rows_hit columns.now values.now n (other_at versions.now.others order))) }
{
    let below = IsUpTo {
        columns,
        values,
        themselves: false,
    };
    let rank = rank_of_key(values);
    let first = versions.cut_in_near(order, rank, &below);
    let upto = IsUpTo {
        columns,
        values,
        themselves: true,
    };
    let end = versions.cut_in_near(order, rank, &upto);
    let mut rows = Vec::with_capacity(alloc, end - first)?;
    let mut at = first;
    while at < end {
        let run = versions.run_in(order, at, end);
        push_run(n, &run, &mut rows, steps);
        at += run.len();
    }
    Ok(rows)
}
