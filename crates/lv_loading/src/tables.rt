//! Records of tables.
ghost use Rattle.std.specs.Prelude.{◌≡◌, ◌&&◌, nat_eq, nat_lt, nat_le, length, map, OnOk, OnErr, Ok};
ghost use Rattle.std.specs.List.{list_all};
ghost use Rattle.std.specs.Str.{bytes_eq};
ghost use Rattle.lv_schema.specs.declared.rec.Rec.TheVariants as rec;
ghost use Rattle.lv_schema.specs.Bound.{IsBoundTable};
ghost use Rattle.lv_schema.specs.Names.{is_free};
ghost use Rattle.lv_schema.specs.Once.{are_apart};
ghost use Rattle.lv_record.specs.Kept.{IsKeptTable};
ghost use Rattle.lv_loading.specs.Taking.{IsWhole, Takes, kept_in, with_table};

use crate::names::{names_are_apart, numbers_are_apart};
use crate::parts::Parts;
use lv_replay::records_that_apply_are_what_calls_ask_for;
use lv_schema::{Schema, TableDef};
use lv_values::{Copying, NoMemory, Text};
use std::alloc::Global;

/// Whether no table or view has the name. Cost: a look-up.
pub(crate) fn is_free(schema: &Schema, name: &Text) -> bool
    ensures { result ≡ is_free schema.now.tables schema.now.views name.now }
{
    schema.find(name).is_none()
}

/// Whether each of these is a position below a number.
fn are_below(positions: &[u8], most: usize) -> bool
    ensures { result ≡ list_all (λ k. nat_lt k most) positions.now }
{
    positions.iter().all(|position| (*position as usize) < most)
}

/// Whether a table has a key of its columns.
fn has_key(def: &TableDef) -> bool
    ensures { result ≡ (nat_lt 0 (length def.now.key) && (are_apart nat_eq def.now.key && list_all (λ k. nat_lt k (length def.now.columns)) def.now.key)) }
{
    let key = def.key.as_slice();
    !key.is_empty() && numbers_are_apart(key) && are_below(key, def.columns.len())
}

/// Whether a table has columns of distinct names, at most 16, and a key of them.
fn has_columns(def: &TableDef) -> bool
    ensures { result ≡ (nat_lt 0 (length def.now.columns) && (nat_le (length def.now.columns) 16 && (are_apart bytes_eq (map (λ c. c.name) def.now.columns)
        && (nat_lt 0 (length def.now.key) && (are_apart nat_eq def.now.key && list_all (λ k. nat_lt k (length def.now.columns)) def.now.key))))) }
{
    let columns = def.columns.as_slice();
    !columns.is_empty() && columns.len() <= 16 && names_are_apart(columns) && has_key(def)
}

/// Whether a table can be the next: its name is free, there is room for it, and it has columns and a key of them.
fn can_be_next(schema: &Schema, def: &TableDef) -> bool
    ensures { result ≡ (is_free schema.now.tables schema.now.views def.now.name && (nat_lt (length schema.now.tables) 32 && (nat_lt 0 (length def.now.columns)
        && (nat_le (length def.now.columns) 16 && (are_apart bytes_eq (map (λ c. c.name) def.now.columns)
        && (nat_lt 0 (length def.now.key) && (are_apart nat_eq def.now.key && list_all (λ k. nat_lt k (length def.now.columns)) def.now.key))))))) }
{
    is_free(schema, &def.name) && schema.tables() < 32 && has_columns(def)
}

/// The table with this number.
fn numbered(def: TableDef, no: u32) -> TableDef
    ensures { result ≡ record def { no = no } }
{
    TableDef { no, ..def }
}

impl Parts {
    /// Adds a table that is bound. Want of memory changes nothing.
    fn add_table(&mut self, alloc: Global, def: TableDef) -> Result<(), NoMemory>
        requires bound { IsBoundTable self.old.schema.tables self.old.schema.views def }
        requires next { def.no ≡ length self.old.base.tables }
        ensures added { OnOk result (kept_in self.new ≡ with_table def (kept_in self.old)) }
        ensures refused { OnErr result (kept_in self.new ≡ kept_in self.old) }
    {
        let copied = def.copy(alloc)?;
        self.base.reserve_table()?;
        self.schema.reserve(alloc, &def.name)?;
        self.base.add_table(alloc, copied);
        self.schema.add_table(def);
        Ok(())
    }

    /// Takes the record of a table. Cost: a look-up of its name, a look at each pair of its columns, and a copy of it.
    pub(crate) fn take_table(&mut self, alloc: Global, def: TableDef) -> Result<bool, NoMemory>
        requires kept { IsKeptTable def }
        requires whole { IsWhole self.old }
        ensures { Takes (rec.Table def) self.old self.new result }
    {
        records_that_apply_are_what_calls_ask_for();
        if !can_be_next(&self.schema, &def) {
            return Ok(false);
        }
        let def = numbered(def, self.schema.tables());
        self.add_table(alloc, def)?;
        Ok(true)
    }
}
