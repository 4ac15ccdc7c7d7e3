//! The writes of a transaction, each place once.
ghost use Rattle.std.specs.Prelude.{◌≡◌, ◌≤◌, ◌<◌, ◌+◌, [], Bool, length, true, slice_get, slice_set, Some, None, OnOk, MatchOption};
ghost use Rattle.std.specs.List.{insert, list_all};
ghost use Rattle.lv_schema.specs.Once.{Ascends};
ghost use Rattle.lv_shelf.specs.Cuts.{IsCut};
ghost use Rattle.lv_overlay.specs.declared.put.Put.{Put};
ghost use Rattle.lv_overlay.specs.Puts.{put_at, put_keys, PutIs};
ghost use Rattle.lv_overlay.specs.Ordered.{is_before, is_below, is_there, put_cmp};

use crate::put::{Before, Below, Put, is_at};
use crate::writes::Writes;
use lv_values::{NoMemory, Row};
use std::alloc::Global;
use std::marker::Model;

/// The rows that a transaction put, by table and key, each key once. Contracts see the writes, and beside them how many
/// more go in without memory.
#[derive(Drop)]
pub struct Overlay {
    writes: Writes,
}

impl Model for Overlay {
    ghost use Rattle.lv_values.specs.Room.{Roomy};
    ghost use Rattle.lv_schema.specs.Once.{Ascends};
    ghost use Rattle.lv_overlay.specs.declared.put.Put.{Put as APut};
    ghost use Rattle.lv_overlay.specs.Ordered.{put_cmp};

    ghost Value = { Roomy APut };

    ghost view = { λ o. record { list = o.writes.list; spare = o.writes.spare } };

    ghost invariant = { λ o. Ascends put_cmp o.writes.list };
}

impl Overlay {
    /// No writes, and no room. It takes no memory.
    pub fn new(alloc: Global) -> Overlay
        ensures { result.list ≡ [] }
    {
        Overlay {
            writes: Writes::new(alloc),
        }
    }

    /// Makes room for `rows` more writes. The writes stay as they were, and the room never shrinks.
    pub fn reserve(&mut self, rows: u64) -> Result<(), NoMemory>
        ensures same { self.new.list ≡ self.old.list }
        ensures room { OnOk result (rows ≤ self.new.spare) }
        ensures kept { self.old.spare ≤ self.new.spare }
    {
        self.writes.reserve(rows)
    }

    /// How many places are written. They stand in order.
    pub(crate) fn len(&self) -> usize
        ensures count { result ≡ length self.now.list }
        ensures order { Ascends put_cmp self.now.list }
    {
        self.writes.len()
    }

    /// The write at a place in the order.
    pub(crate) fn at(&self, at: usize) -> &Put
        requires { at < length self.now.list }
        ensures { slice_get self.now.list at ≡ Some result.now }
    {
        self.writes.get(at)
    }

    /// How many writes stand before a place, by table and key. Cost: a binary search.
    pub(crate) fn cut(&self, table: u32, key: &Row) -> usize
        ensures within { result ≤ length self.now.list }
        ensures order { Ascends put_cmp self.now.list }
        ensures cut { IsCut (is_before (table, key.now)) result self.now.list }
    {
        self.writes.cut(&Before { table, key })
    }

    /// How many writes are of the tables below a number. Cost: a binary search.
    pub(crate) fn below(&self, bound: u64) -> usize
        ensures within { result ≤ length self.now.list }
        ensures order { Ascends put_cmp self.now.list }
        ensures cut { IsCut (is_below bound) result self.now.list }
    {
        self.writes.cut(&Below { bound })
    }

    /// How many keys of a table are written. Cost: two binary searches.
    pub fn count(&self, table: u32) -> u64
        ensures { result ≡ length (put_keys self.now.list table) }
    {
        let first = self.below(table as u64);
        let last = self.below(table as u64 + 1);
        (last - first) as u64
    }

    /// Whether the write at a place in the order, if there is one, is of the table and the key.
    fn has_at(&self, at: usize, table: u32, key: &Row) -> bool
        ensures { result ≡ is_there (table, key.now) (slice_get self.now.list at) }
    {
        at < self.len() && is_at(self.at(at), table, key)
    }

    /// What was put last at a key of a table, if something was. Cost: a binary search.
    pub fn get(&self, table: u32, key: &Row) -> Option<&Option<Row>>
        ensures { MatchOption result (put_at self.now.list (table, key.now) ≡ None) (λ row. put_at self.now.list (table, key.now) ≡ Some row.now) }
    {
        let at = self.cut(table, key);
        if self.has_at(at, table, key) {
            Some(&self.at(at).row)
        } else {
            None
        }
    }

    /// Puts a write in the place of the one there, which is of the same table and key.
    fn replace(&mut self, at: usize, put: Put)
        requires place { at < length self.old.list }
        requires order { Ascends put_cmp (slice_set self.old.list at put) }
        ensures replaced { self.new.list ≡ slice_set self.old.list at put }
        ensures room { self.new.spare ≡ self.old.spare }
    {
        self.writes.set(at, put);
    }

    /// Puts a write among the others.
    fn insert(&mut self, at: usize, put: Put)
        requires room { 0 < self.old.spare }
        requires place { at ≤ length self.old.list }
        requires order { Ascends put_cmp (insert self.old.list at put) }
        ensures added { self.new.list ≡ insert self.old.list at put }
        ensures room { self.old.spare ≤ self.new.spare + 1 }
    {
        self.writes.insert(at, put);
    }

    /// Puts a row at a key of a table, or deletes the one there. It takes no memory.
    /// Cost: a binary search, and for a new key a move of a few writes or of small numbers.
    pub fn put(&mut self, table: u32, key: Row, row: Option<Row>)
        requires { 0 < self.old.spare }
        ensures put { PutIs (record { table = table; key = key; row = row }) self.old.list self.new.list }
        ensures only { (test : Put → Bool) → test (record { table = table; key = key; row = row }) ≡ true → list_all test self.old.list ≡ true → list_all test self.new.list ≡ true }
        ensures room { self.old.spare ≤ self.new.spare + 1 }
    {
        let at = self.cut(table, &key);
        if self.has_at(at, table, &key) {
            self.replace(at, Put { table, key, row });
        } else {
            self.insert(at, Put { table, key, row });
        }
    }
}
