//! The entries of the commits.
ghost use Rattle.std.specs.Prelude.{◌≡◌, ◌≤◌, ◌<◌, ◌+◌, ◌-◌, ◌++◌, [], drop, filter, map, length, vec_capacity, vec_len, IfOk, OnOk};
ghost use Rattle.lv_schema.specs.Versions.{delta_entry};
ghost use Rattle.lv_delta.specs.Kept.{is_above, is_between, in_range, writer_after, AreInOrder};

use crate::searching::{above, between, copy_of_table, last_writer, up_to};
use lv_schema::{Actions, DeltaEntries, DeltaEntry, TableDef};
use lv_values::{NoMemory, Row};
use std::alloc::Global;
use std::marker::Model;

/// The actions of the commits above the floor of the last clean-up, each with the number of its commit, in their order.
/// Contracts see the entries, how many more go in without memory, the last number and the floor.
///
/// A clean-up leaves the entries that it drops where they are until they are half of all, so that it costs what it
/// drops; fewer lie there than are kept.
#[derive(Drop)]
pub struct Deltas {
    items: Vec<DeltaEntry>,
    first: usize,
    last: u64,
    floor: u64,
}

impl Model for Deltas {
    ghost use Rattle.std.specs.Prelude.{◌-◌, drop, length, vec_len, vec_capacity};
    ghost use Rattle.lv_delta.specs.Kept.{AreFewBehind, AreInOrder, DeltasKept};

    ghost Value = { DeltasKept };

    ghost view = { λ d. record { entries = drop d.first d.items.items; spare = vec_capacity d.items - vec_len d.items; last = d.last; floor = d.floor } };

    ghost invariant = { λ d. AreFewBehind d.first (length d.items.items) × AreInOrder d.last (drop d.first d.items.items) };
}

/// Adds the actions of a commit at the end, where there is room for them.
fn push_actions(items: &mut Vec<DeltaEntry>, number: u64, actions: Actions)
    requires { length actions ≤ vec_capacity items.old - vec_len items.old }
    ensures added { items.new.items ≡ items.old.items ++ map (delta_entry number) actions }
    ensures len { vec_len items.new ≡ vec_len items.old + length actions }
    ensures capacity { vec_capacity items.new ≡ vec_capacity items.old }
{
    for action in actions.into_vec() {
        items.push_reserved(DeltaEntry { number, action });
    }
}

impl Deltas {
    /// No entries, and no room. It takes no memory.
    pub fn new(alloc: Global) -> Deltas
        ensures entries { result.entries ≡ [] }
        ensures last { result.last ≡ 0 }
        ensures floor { result.floor ≡ 0 }
    {
        Deltas {
            items: Vec::new(alloc),
            first: 0,
            last: 0,
            floor: 0,
        }
    }

    /// Makes room for `actions` more entries. The entries stay as they were, and the room never shrinks.
    pub fn reserve(&mut self, actions: u64) -> Result<(), NoMemory>
        ensures same { self.new ≡ record self.old { spare = self.new.spare } }
        ensures room { OnOk result (actions ≤ self.new.spare) }
        ensures kept { self.old.spare ≤ self.new.spare }
    {
        self.items.reserve(actions as usize)?;
        Ok(())
    }

    /// Adds the actions of the commit of a number above all so far, in their order. It takes no memory.
    /// Cost: a move for each action.
    pub fn append(&mut self, number: u64, actions: Actions)
        requires above { self.old.last < number }
        requires room { length actions ≤ self.old.spare }
        ensures entries { self.new.entries ≡ self.old.entries ++ map (delta_entry number) actions }
        ensures last { self.new.last ≡ number }
        ensures floor { self.new.floor ≡ self.old.floor }
        ensures room { self.old.spare ≤ self.new.spare + length actions }
    {
        push_actions(&mut self.items, number, actions);
        self.last = number;
    }

    /// The entries, in their order.
    pub fn as_slice(&self) -> &[DeltaEntry]
        ensures entries { result.now ≡ self.now.entries }
        ensures order { AreInOrder self.now.last self.now.entries }
    {
        self.items.split_at(self.first).1
    }

    /// The entries above a number. Cost: a binary search.
    pub fn above(&self, n: u64) -> &[DeltaEntry]
        ensures { result.now ≡ filter (is_above n) self.now.entries }
    {
        above(self.as_slice(), n)
    }

    /// The entries above a number and up to another. Cost: two binary searches.
    pub fn between(&self, lo: u64, hi: u64) -> &[DeltaEntry]
        ensures { result.now ≡ filter (is_between lo hi) self.now.entries }
    {
        between(self.as_slice(), lo, hi)
    }

    /// Copies of the entries of a table above a number and up to another, in their order. The lower number is at or
    /// above the floor. Cost: two binary searches, a pass over the entries between, and the copies.
    pub fn range(
        &self,
        alloc: Global,
        table: u32,
        lo: u64,
        hi: u64,
    ) -> Result<DeltaEntries, NoMemory>
        requires { self.now.floor ≤ lo }
        ensures { IfOk result (λ entries. entries ≡ filter (in_range table lo hi) self.now.entries) }
    {
        copy_of_table(alloc, self.between(lo, hi), table)
    }

    /// The greatest number above `s` at which a key of the table is written, none exactly where it is not. The number
    /// `s` is at or above the floor. Cost: the entries from the last one back to that one, or to those up to `s`.
    pub fn last_writer_after(&self, table: &TableDef, s: u64, key: &Row) -> Option<u64>
        requires { self.now.floor ≤ s }
        ensures { result ≡ writer_after table.now s key.now self.now.entries }
    {
        last_writer(table, key, self.above(s))
    }

    /// Drops the entries up to a floor that is at or above the last one. It takes no memory.
    /// Cost: a binary search, and what it drops, averaged over many calls.
    pub fn prune(&mut self, floor: u64)
        requires { self.old.floor ≤ floor }
        ensures entries { self.new.entries ≡ filter (is_above floor) self.old.entries }
        ensures last { self.new.last ≡ self.old.last }
        ensures floor { self.new.floor ≡ floor }
        ensures room { self.old.spare ≤ self.new.spare }
    {
        let gone = up_to(self.as_slice(), floor);
        self.leave(gone, floor);
    }

    /// Leaves the first so many entries behind, and lets go of all that lie behind where they are half.
    fn leave(&mut self, gone: usize, floor: u64)
        requires within { gone ≤ length self.old.entries }
        ensures entries { self.new ≡ record self.old { entries = drop gone self.old.entries; spare = self.new.spare; floor = floor } }
        ensures room { self.old.spare ≤ self.new.spare }
    {
        self.floor = floor;
        self.first += gone;
        if self.first >= self.items.len() - self.first {
            drop(self.items.drain(..self.first));
            self.first = 0;
        }
    }

    /// How many entries are kept.
    pub fn count(&self) -> u64
        ensures { result ≡ length self.now.entries }
    {
        (self.items.len() - self.first) as u64
    }
}
