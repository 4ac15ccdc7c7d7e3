//! Rows of aliases, each once.
ghost use Rattle.std.specs.Prelude.{◌≡◌, ◌<◌, ◌^◌, [], true, drop, length, map, slice_index_or, OnOk, OnErr};
ghost use Rattle.lv_schema.specs.Once.{are_apart};
ghost use Rattle.lv_reach.specs.Found.{with_found};
ghost use Rattle.lv_reach.specs.Reach.{alike, of_alias};
ghost use Rattle.lv_reach.specs.Walk.{put_all, put_behind};

use crate::found::add_from;
use crate::rows::{AliasRow, AliasRows};
use indexmap::IndexSet;
use lv_schema::Part;
use lv_values::{NoMemory, Rows};
use std::alloc::Global;
use std::marker::Model;

/// Rows of aliases, each once, in the order in which they were put in. Contracts see the list.
#[derive(Drop)]
pub struct NearRows {
    rows: IndexSet<AliasRow>,
}

impl Model for NearRows {
    ghost use Rattle.std.specs.Prelude.{◌≡◌, List, true};
    ghost use Rattle.lv_schema.specs.Once.{are_apart};
    ghost use Rattle.lv_reach.specs.declared.rows.AliasRow.{AliasRow as ARowOf};
    ghost use Rattle.lv_reach.specs.Reach.{alike};

    ghost Value = { List ARowOf };

    ghost view = { λ n. n.rows.keys };

    ghost invariant = { λ n. are_apart alike n.rows.keys ≡ true };
}

impl NearRows {
    /// No rows. It takes no memory.
    pub(crate) fn new(alloc: Global) -> NearRows
        ensures { result ≡ [] }
    {
        NearRows {
            rows: IndexSet::new(alloc),
        }
    }

    /// How many rows there are.
    pub fn len(&self) -> usize
        ensures len { result ≡ length self.now }
        ensures few { result < 2 ^ 63 }
    {
        self.rows.len()
    }

    /// The rows.
    pub fn as_slice(&self) -> &[AliasRow]
        ensures rows { result.now ≡ self.now }
        ensures once { are_apart alike self.now ≡ true }
    {
        self.rows.as_slice()
    }

    /// Takes room for so many more rows. Want of memory changes nothing.
    fn reserve(&mut self, more: usize) -> Result<(), NoMemory>
        ensures { self.new ≡ self.old }
    {
        self.rows.reserve(more)?;
        Ok(())
    }

    /// Puts a row behind the others, if it is not among them. Want of memory changes nothing. Cost: that of hashing the
    /// row, on average.
    fn put(&mut self, row: AliasRow) -> Result<(), NoMemory>
        ensures put { OnOk result (self.new ≡ put_behind row self.old) }
        ensures refused { OnErr result (self.new ≡ self.old) }
    {
        self.rows.insert(row)?;
        Ok(())
    }

    /// Puts rows behind the others, those that are not among them. It takes room for all of them at once.
    pub(crate) fn put_all(&mut self, rows: AliasRows) -> Result<(), NoMemory>
        ensures { OnOk result (self.new ≡ put_all rows self.old) }
    {
        self.reserve(rows.len())?;
        for row in rows.into_vec() {
            self.put(row)?;
        }
        Ok(())
    }

    /// Puts rows of an alias behind the others, those that are not among them. It takes room for all of them at once.
    pub(crate) fn put_rows(&mut self, alias: u8, rows: Rows) -> Result<(), NoMemory>
        ensures { OnOk result (self.new ≡ put_all (map (of_alias alias) rows) self.old) }
    {
        self.reserve(rows.len())?;
        for row in rows.into_vec() {
            self.put(AliasRow { alias, row })?;
        }
        Ok(())
    }

    /// Moves the rows from a place on behind the old rows of the parts of their aliases. One of an alias without a part is
    /// let go. Cost: one move for each row.
    pub fn move_into(self, from: usize, parts: &mut [Part]) -> Result<(), NoMemory>
        ensures { OnOk result (parts.new ≡ with_found 0 parts.old (drop from self)) }
    {
        let NearRows { rows } = self;
        let mut at = 0;
        for row in rows {
            add_from(parts, from, at, row)?;
            at += 1;
        }
        Ok(())
    }
}
