//! One table.
ghost use Rattle.std.specs.Prelude.{◌≡◌, ◌≤◌, ◌<◌, ◌+◌, ◌-◌, ◌^◌, [], ℕ, length, OnErr, OnOk};
ghost use Rattle.lv_base.specs.Bases.{CanTakeNet, kept_of, unindexed};
ghost use Rattle.lv_stands.specs.Kept.{shown};
ghost use Rattle.lv_stands.specs.Moves.{TableCleaned, TableCommits};
ghost use Rattle.lv_versions.specs.Versions.{soonest_after, soonest_pruned, with_index};

use lv_schema::{Net, TableDef};
use lv_values::NoMemory;
use lv_versions::Versions;
use std::alloc::Global;
use std::marker::Model;

/// A table's versions, with the number of the rows that its last state has. Before the first commit it has no row. Contracts
/// see the versions.
#[derive(Drop)]
pub(crate) struct Table {
    versions: Versions,
    rows: u64,
}

impl Model for Table {
    ghost use Rattle.lv_base.specs.Bases.{IsTable};
    ghost use Rattle.lv_versions.specs.Versions.{Kept};

    ghost Value = { Kept };

    ghost view = { λ t. t.versions };

    ghost invariant = { λ t. IsTable t.rows t.versions };
}

impl Table {
    /// A table without a row after any commit. It takes no memory.
    pub(crate) fn new(alloc: Global, def: TableDef) -> Table
        ensures def { result.def ≡ def }
        ensures none { result.versions ≡ [] }
        ensures last { result.last ≡ 0 }
        ensures floor { result.floor ≡ 0 }
        ensures room { result.spare ≡ 0 }
        ensures indexes { result.indexes ≡ [] }
        ensures soonest { result.soonest ≡ 2 ^ 64 - 1 }
    {
        Table {
            versions: Versions::new(alloc, def),
            rows: 0,
        }
    }

    /// The versions.
    pub(crate) fn versions(&self) -> &Versions
        ensures { result.now ≡ self.now }
    {
        &self.versions
    }

    /// How many rows it has from its last commit on.
    pub(crate) fn rows(&self) -> u64
        ensures { (n : ℕ) → self.now.last ≤ n → result ≡ length (shown n self.now.versions) }
    {
        self.versions.newest();
        self.rows
    }

    /// It has no row before the first commit: a law, and the call does nothing.
    pub(crate) fn begins_empty(&self)
        ensures { shown 0 self.now.versions ≡ [] }
    {
        let _ = &self.versions;
    }

    /// Makes room for `rows` rows. What is kept stays as it was, and the room never shrinks.
    pub(crate) fn reserve(&mut self, rows: u64) -> Result<(), NoMemory>
        ensures same { kept_of self.new ≡ kept_of self.old }
        ensures room { OnOk result (rows ≤ self.new.spare) }
        ensures kept { self.old.spare ≤ self.new.spare }
        ensures indexes { self.new.indexes ≡ self.old.indexes }
        ensures soonest { self.new.soonest ≡ self.old.soonest }
    {
        self.versions.reserve(rows)
    }

    /// Adds an index by some columns, if there is none. All else stays as it was.
    pub(crate) fn add_index(&mut self, columns: &[u8]) -> Result<(), NoMemory>
        ensures same { unindexed self.new ≡ unindexed self.old }
        ensures added { OnOk result (self.new.indexes ≡ with_index columns.now self.old.indexes) }
        ensures refused { OnErr result (self.new.indexes ≡ self.old.indexes) }
    {
        self.versions.add_index(columns)
    }

    /// Takes a net change as the commit after `last`. It takes no memory. Cost: that of `Versions::commit`; where nothing
    /// changes, constant.
    pub(crate) fn commit(&mut self, last: u64, net: Net)
        requires takes { CanTakeNet last net self.old }
        requires fits { last + 1 < 2 ^ 64 }
        ensures commits { TableCommits last net (kept_of self.old) (kept_of self.new) }
        ensures indexes { self.new.indexes ≡ self.old.indexes }
        ensures soonest { self.new.soonest ≡ soonest_after self.old.soonest (last + 1) net.minus }
    {
        self.versions.newest();
        if net.minus.len() == 0 && net.plus.len() == 0 {
            return;
        }
        let gone = net.minus.as_slice().len() as u64;
        let come = net.plus.as_slice().len() as u64;
        self.versions.commit(last + 1, net);
        self.rows = self.rows - gone + come;
    }

    /// Drops the versions that ended at or below a floor. It takes no memory.
    pub(crate) fn prune(&mut self, floor: u64)
        requires { self.old.floor ≤ floor }
        ensures cleaned { TableCleaned floor (kept_of self.old) (kept_of self.new) }
        ensures room { self.old.spare ≤ self.new.spare }
        ensures indexes { self.new.indexes ≡ self.old.indexes }
        ensures soonest { self.new.soonest ≡ soonest_pruned floor self.old.last self.old.soonest }
    {
        self.versions.prune(floor);
    }
}
