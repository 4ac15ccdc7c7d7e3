//! The committed states.
ghost use Rattle.std.specs.Prelude.{◌≡◌, ◌≤◌, ◌<◌, ◌+◌, ◌^◌, ◌++◌, ◌∷◌, [], ℕ, length, slice_set, IfOk, OnErr, OnOk};
ghost use Rattle.lv_base.specs.Bases.{CanCommit, IsReady, IsReindexed, base_of, defs_of, indexes_in, table_in};
ghost use Rattle.lv_stands.specs.Kept.{shown};
ghost use Rattle.lv_stands.specs.Moves.{BaseCleaned, BaseCommits, table_new, versions_counted};
ghost use Rattle.lv_versions.specs.Versions.{with_index};

use crate::cleaning::Kept;
use crate::preparing::{copy_actions, reserve_all, work_out};
use crate::ready::Ready;
use crate::table::Table;
use crate::tables::{commit_each, count_all, prune_each};
use lv_delta::Deltas;
use lv_schema::{Action, Actions, TableDef};
use lv_values::NoMemory;
use lv_versions::Versions;
use std::alloc::Global;
use std::marker::Model;

/// The row versions of each table, at the place of its number, and the entries of the commits. Contracts see what is
/// kept (`base_of`), and beside it the room that is ready for more.
#[derive(Drop)]
pub struct Base {
    tables: Vec<Table>,
    deltas: Deltas,
    number: u64,
    pruned: u64,
}

impl Model for Base {
    ghost use Rattle.std.specs.Prelude.{◌-◌};
    ghost use Rattle.std.specs.Vec.{vec_capacity, vec_len};
    ghost use Rattle.lv_base.specs.Bases.{BaseRoom, IsBase};

    ghost Value = { BaseRoom };

    ghost view = { λ b. record { tables = b.tables.items; deltas = b.deltas; number = b.number; pruned = b.pruned; free = vec_capacity b.tables - vec_len b.tables } };

    ghost invariant = { λ b. IsBase (record { tables = b.tables.items; deltas = b.deltas; number = b.number; pruned = b.pruned; free = vec_capacity b.tables - vec_len b.tables }) };
}

impl Base {
    /// No tables, no commits, and nothing dropped. It takes no memory.
    pub fn new(alloc: Global) -> Base
        ensures tables { result.tables ≡ [] }
        ensures entries { result.deltas.entries ≡ [] }
        ensures number { result.number ≡ 0 }
        ensures pruned { result.pruned ≡ 0 }
    {
        Base {
            tables: Vec::new(alloc),
            deltas: Deltas::new(alloc),
            number: 0,
            pruned: 0,
        }
    }

    /// Makes room for one more table. What is kept stays as it was.
    pub fn reserve_table(&mut self) -> Result<(), NoMemory>
        ensures same { self.new ≡ record self.old { free = self.new.free } }
        ensures room { OnOk result (0 < self.new.free) }
        ensures kept { self.old.free ≤ self.new.free }
    {
        self.tables.reserve(1)?;
        Ok(())
    }

    /// Adds a table without a row after any commit; its number is the next one. It takes no memory.
    pub fn add_table(&mut self, alloc: Global, def: TableDef)
        requires room { 0 < self.old.free }
        requires next { def.no ≡ length self.old.tables }
        ensures kept { base_of self.new ≡ record (base_of self.old) { tables = (base_of self.old).tables ++ table_new def ∷ [] } }
        ensures entries { self.new.deltas ≡ self.old.deltas }
        ensures room { self.new.free + 1 ≡ self.old.free }
        ensures indexes { indexes_in self.new.tables ≡ indexes_in self.old.tables ++ [] ∷ [] }
    {
        self.tables.push_reserved(Table::new(alloc, def));
    }

    /// Adds an index of a table's versions by some columns, in which `probe` then searches. Where there is one, nothing
    /// is done, as for want of memory. All else stays as it was. Cost: a binary search and a move of small numbers for
    /// each version, and later as much for each row that goes or comes.
    pub fn add_index(&mut self, table: u32, columns: &[u8]) -> Result<(), NoMemory>
        requires { table < length self.old.tables }
        ensures same { IsReindexed self.old self.new }
        ensures added { OnOk result (indexes_in self.new.tables ≡ slice_set (indexes_in self.old.tables) table (with_index columns.now (table_in self.old.tables table).indexes)) }
        ensures refused { OnErr result (indexes_in self.new.tables ≡ indexes_in self.old.tables) }
    {
        self.tables[table as usize].add_index(columns)
    }

    /// A table's versions, which can be read at the floor of the last clean-up and above.
    pub fn versions(&self, table: u32) -> &Versions
        requires { table < length self.now.tables }
        ensures versions { result.now ≡ table_in self.now.tables table }
        ensures number { result.now.def.no ≡ table }
        ensures last { result.now.last ≤ self.now.number }
        ensures floor { result.now.floor ≤ self.now.pruned }
    {
        self.tables[table as usize].versions()
    }

    /// Before the first commit no table has a row: a law, and the call does nothing.
    pub fn begins_empty(&self, table: u32)
        requires { table < length self.now.tables }
        ensures { shown 0 (table_in self.now.tables table).versions ≡ [] }
    {
        self.tables[table as usize].begins_empty();
    }

    /// The entries of the commits above the floor of the last clean-up.
    pub fn deltas(&self) -> &Deltas
        ensures deltas { result.now ≡ self.now.deltas }
        ensures floor { result.now.floor ≡ self.now.pruned }
    {
        &self.deltas
    }

    /// The number of the last commit.
    pub fn last(&self) -> u64
        ensures { result ≡ self.now.number }
    {
        self.number
    }

    /// The floor of the last clean-up, 0 before the first.
    pub fn pruned(&self) -> u64
        ensures pruned { result ≡ self.now.pruned }
        ensures within { self.now.pruned ≤ self.now.number }
    {
        self.pruned
    }

    /// How many rows a table has in the last state. Cost: constant.
    pub fn rows(&self, table: u32) -> u64
        requires { table < length self.now.tables }
        ensures { result ≡ length (shown self.now.number (table_in self.now.tables table).versions) }
    {
        self.tables[table as usize].rows()
    }

    /// Prepares a commit of actions that the last state can take in their order: works out the net change that they make
    /// of each table, and makes room for all of it. What is kept stays as it was, and no room shrinks.
    /// It also answers `NoMemory` where 64 bits could not count the versions with these. Cost: for each table one
    /// comparison of numbers for each action, and n log n comparisons of keys for the n actions on it.
    pub fn prepare_moved(&mut self, alloc: Global, actions: Actions) -> Result<Ready, NoMemory>
        requires { CanCommit self.old actions }
        ensures kept { base_of self.new ≡ base_of self.old }
        ensures actions { IfOk result (λ ready. ready.actions ≡ actions) }
        ensures ready { IfOk result (λ ready. IsReady self.new ready.actions ready.nets) }
        ensures tables_room { self.new.free ≡ self.old.free }
        ensures rows_room { (t : ℕ) → (table_in self.old.tables t).spare ≤ (table_in self.new.tables t).spare }
        ensures entries_room { self.old.deltas.spare ≤ self.new.deltas.spare }
        ensures indexes { indexes_in self.new.tables ≡ indexes_in self.old.tables }
    {
        let ready = work_out(alloc, &self.tables, actions)?;
        reserve_all(&mut self.tables, &mut self.deltas, &ready)?;
        Ok(ready)
    }

    /// The same of copies of the actions.
    pub fn prepare(&mut self, alloc: Global, actions: &[Action]) -> Result<Ready, NoMemory>
        requires { CanCommit self.old actions.now }
        ensures kept { base_of self.new ≡ base_of self.old }
        ensures actions { IfOk result (λ ready. ready.actions ≡ actions.now) }
        ensures ready { IfOk result (λ ready. IsReady self.new ready.actions ready.nets) }
        ensures tables_room { self.new.free ≡ self.old.free }
        ensures rows_room { (t : ℕ) → (table_in self.old.tables t).spare ≤ (table_in self.new.tables t).spare }
        ensures entries_room { self.old.deltas.spare ≤ self.new.deltas.spare }
        ensures indexes { indexes_in self.new.tables ≡ indexes_in self.old.tables }
    {
        let copies = copy_actions(alloc, actions)?;
        self.prepare_moved(alloc, copies)
    }

    /// Commits what was prepared for this state, as the next commit. It takes no memory. Cost: for each table constant,
    /// and for each row that goes or comes a binary search and a move of small numbers.
    pub fn commit(&mut self, ready: Ready)
        requires some { 0 < length ready.actions }
        requires ready { IsReady self.old ready.actions ready.nets }
        requires fits { self.old.number + 1 < 2 ^ 64 }
        ensures commits { BaseCommits (defs_of self.old) ready.actions (base_of self.old) (base_of self.new) }
        ensures room { self.new.free ≡ self.old.free }
        ensures indexes { indexes_in self.new.tables ≡ indexes_in self.old.tables }
    {
        let Ready { actions, nets } = ready;
        commit_each(&mut self.tables, self.number, nets);
        self.deltas.append(self.number + 1, actions);
        self.number += 1;
    }

    /// Drops the row versions that ended at or below a floor and the entries up to it, and counts what is kept. It takes
    /// no memory. Cost: for each table constant where none of its versions ended there, or else two passes over small
    /// numbers; and the entries that are dropped, averaged over many calls.
    pub fn clean(&mut self, floor: u64) -> Kept
        requires low { self.old.pruned ≤ floor }
        requires high { floor ≤ self.old.number }
        ensures cleaned { BaseCleaned floor (base_of self.old) (base_of self.new) }
        ensures versions { result.versions ≡ versions_counted (base_of self.new) }
        ensures deltas { result.deltas ≡ length self.new.deltas.entries }
        ensures tables_room { self.new.free ≡ self.old.free }
        ensures rows_room { (t : ℕ) → (table_in self.old.tables t).spare ≤ (table_in self.new.tables t).spare }
        ensures entries_room { self.old.deltas.spare ≤ self.new.deltas.spare }
        ensures indexes { indexes_in self.new.tables ≡ indexes_in self.old.tables }
    {
        prune_each(&mut self.tables, floor);
        self.deltas.prune(floor);
        self.pruned = floor;
        Kept {
            versions: count_all(&self.tables),
            deltas: self.deltas.count(),
        }
    }
}
