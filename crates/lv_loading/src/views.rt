//! Records of views.
ghost use Rattle.std.specs.Prelude.{◌≡◌, ◌≤◌, ◌<◌, ◌==◌, ◌&&◌, not, is_some, nat_lt, nat_le, length, map, OnOk, OnErr, Ok};
ghost use Rattle.std.specs.List.{list_all};
ghost use Rattle.std.specs.Str.{bytes_eq};
ghost use Rattle.lv_schema.specs.declared.rec.Rec.TheVariants as rec;
ghost use Rattle.lv_schema.specs.Bound.{IsBoundView, alias_columns, broken_rules, first, is_in_range, is_int_column, item_name};
ghost use Rattle.lv_schema.specs.Differences.{summed_columns};
ghost use Rattle.lv_schema.specs.JoinViews.{plain_columns};
ghost use Rattle.lv_schema.specs.Names.{is_free};
ghost use Rattle.lv_schema.specs.Once.{are_apart};
ghost use Rattle.lv_record.specs.Kept.{IsKeptView};
ghost use Rattle.lv_replay.specs.Applies.{columns_fit, same_flag};
ghost use Rattle.lv_loading.specs.Taking.{IsWhole, Takes, kept_in, with_view};

use crate::conditions::{compares, kind_at};
use crate::names::names_are_apart;
use crate::parts::Parts;
use crate::tables::is_free;
use lv_schema::{Col, Item, Kind, Schema, ViewDef};
use lv_values::NoMemory;
use std::alloc::Global;

fn is_in_range(schema: &Schema, tables: &[u32], col: Col) -> bool
    ensures { result ≡ is_in_range (alias_columns schema.now.tables tables.now) col }
{
    kind_at(schema, tables, col).is_some()
}

/// Whether a column is one of whole numbers.
fn is_int_column(schema: &Schema, tables: &[u32], col: Col) -> bool
    ensures { result ≡ is_int_column (alias_columns schema.now.tables tables.now) col }
{
    match kind_at(schema, tables, col) {
        Some(Kind::Int) => true,
        Some(Kind::Text) | Some(Kind::Big) | None => false,
    }
}

/// Whether each listed column is in range.
fn plain_in_range(schema: &Schema, tables: &[u32], items: &[Item]) -> bool
    ensures { result ≡ list_all (is_in_range (alias_columns schema.now.tables tables.now)) (plain_columns items.now) }
{
    for item in items {
        if let Item::Plain { col, .. } = item
            && !is_in_range(schema, tables, *col)
        {
            return false;
        }
    }
    true
}

/// Whether each column that is summed is one of whole numbers.
fn sums_are_ints(schema: &Schema, def: &ViewDef) -> bool
    ensures { result ≡ list_all (is_int_column (alias_columns schema.now.tables def.now.tables)) (summed_columns def.now) }
{
    for item in def.items.as_slice() {
        if let Item::Sum { col, .. } = item
            && !is_int_column(schema, def.tables.as_slice(), *col)
        {
            return false;
        }
    }
    true
}

/// Whether each of these columns is in range.
fn are_in_range(schema: &Schema, tables: &[u32], cols: &[Col]) -> bool
    ensures { result ≡ list_all (is_in_range (alias_columns schema.now.tables tables.now)) cols.now }
{
    for col in cols {
        if !is_in_range(schema, tables, *col) {
            return false;
        }
    }
    true
}

/// Whether the columns and kinds of a view fit. Cost: a look at each column.
fn columns_fit(schema: &Schema, def: &ViewDef) -> bool
    ensures { result ≡ columns_fit schema.now.tables def.now }
{
    let tables = def.tables.as_slice();
    compares(schema, tables, &def.cond)
        && plain_in_range(schema, tables, def.items.as_slice())
        && sums_are_ints(schema, def)
        && are_in_range(schema, tables, def.groups.as_slice())
}

/// Whether a view is grouped where it has GROUP BY columns, and breaks no rule.
fn keeps_rules(schema: &Schema, def: &ViewDef) -> bool
    requires { length def.now.tables ≤ 4 }
    ensures { result ≡ (same_flag def.now.grouped (nat_lt 0 (length def.now.groups)) && not (is_some (first (broken_rules schema.now.tables def.now)))) }
{
    def.grouped != def.groups.is_empty() && def.broken_rule(schema).is_none()
}

/// Whether the list of a view is one that a view may have.
fn has_items(schema: &Schema, def: &ViewDef) -> bool
    requires { length def.now.tables ≤ 4 }
    ensures { result ≡ (nat_lt 0 (length def.now.items) && (nat_le (length def.now.items) 16 && (are_apart bytes_eq (map item_name def.now.items) && (columns_fit schema.now.tables def.now
        && (same_flag def.now.grouped (nat_lt 0 (length def.now.groups)) && not (is_some (first (broken_rules schema.now.tables def.now)))))))) }
{
    let items = def.items.as_slice();
    !items.is_empty()
        && items.len() <= 16
        && names_are_apart(items)
        && columns_fit(schema, def)
        && keeps_rules(schema, def)
}

/// Whether each of these tables is in use.
fn are_in_use(schema: &Schema, tables: &[u32]) -> bool
    ensures { result ≡ list_all (λ t. nat_lt t (length schema.now.tables)) tables.now }
{
    for table in tables {
        if *table >= schema.tables() {
            return false;
        }
    }
    true
}

/// Whether a view is over 1 to 4 tables that are in use, and its list is one that a view may have.
fn has_tables(schema: &Schema, def: &ViewDef) -> bool
    ensures { result ≡ (nat_lt 0 (length def.now.tables) && (nat_le (length def.now.tables) 4 && (list_all (λ t. nat_lt t (length schema.now.tables)) def.now.tables
        && (nat_lt 0 (length def.now.items) && (nat_le (length def.now.items) 16 && (are_apart bytes_eq (map item_name def.now.items) && (columns_fit schema.now.tables def.now
        && (same_flag def.now.grouped (nat_lt 0 (length def.now.groups)) && not (is_some (first (broken_rules schema.now.tables def.now))))))))))) }
{
    let tables = def.tables.as_slice();
    !tables.is_empty() && tables.len() <= 4 && are_in_use(schema, tables) && has_items(schema, def)
}

/// Whether a view can be the next: its name is free, there is room for it, it is created at the last commit, and its tables
/// and list are ones that a view may have. Cost: a look-up of its name, and a look at each pair of its items and at each
/// column.
fn can_be_next(schema: &Schema, last: u64, def: &ViewDef) -> bool
    ensures { result ≡ (is_free schema.now.tables schema.now.views def.now.name && (nat_lt (length schema.now.views) 32 && ((def.now.created == last)
        && (nat_lt 0 (length def.now.tables) && (nat_le (length def.now.tables) 4 && (list_all (λ t. nat_lt t (length schema.now.tables)) def.now.tables
        && (nat_lt 0 (length def.now.items) && (nat_le (length def.now.items) 16 && (are_apart bytes_eq (map item_name def.now.items) && (columns_fit schema.now.tables def.now
        && (same_flag def.now.grouped (nat_lt 0 (length def.now.groups)) && not (is_some (first (broken_rules schema.now.tables def.now)))))))))))))) }
{
    is_free(schema, &def.name)
        && schema.views() < 32
        && def.created == last
        && has_tables(schema, def)
}

/// The view with this number.
fn numbered(def: ViewDef, no: u32) -> ViewDef
    ensures { result ≡ record def { no = no } }
{
    ViewDef { no, ..def }
}

impl Parts {
    /// Adds a view that is bound. Want of memory changes nothing.
    fn add_view(&mut self, alloc: Global, def: ViewDef) -> Result<(), NoMemory>
        requires bound { IsBoundView self.old.schema.tables self.old.schema.views def }
        requires few { length self.old.upkeep.kept.points < 32 }
        ensures added { OnOk result (kept_in self.new ≡ with_view def (kept_in self.old)) }
        ensures refused { OnErr result (kept_in self.new ≡ kept_in self.old) }
    {
        self.upkeep.reserve_view()?;
        self.schema.reserve(alloc, &def.name)?;
        self.upkeep.add_view(def.created);
        self.schema.add_view(def);
        Ok(())
    }

    /// Takes the record of a view. Cost: that of `can_be_next`.
    pub(crate) fn take_view(&mut self, alloc: Global, def: ViewDef) -> Result<bool, NoMemory>
        requires kept { IsKeptView def }
        requires whole { IsWhole self.old }
        ensures { Takes (rec.View def) self.old self.new result }
    {
        if !can_be_next(&self.schema, self.base.last(), &def) {
            return Ok(false);
        }
        let def = numbered(def, self.schema.views());
        self.add_view(alloc, def)?;
        Ok(true)
    }
}
