//! A table's rows with a transaction's writes over them.
ghost use Rattle.std.specs.Prelude.{◌≡◌, ◌≤◌, ◌<◌, ◌+◌, ◌++◌, ◌∷◌, [], List, length, drop, true, false, slice_get, Some, IfOk, OnOk};
ghost use Rattle.std.specs.List.{cons_option};
ghost use Rattle.lv_values.specs.declared.value.Value.{Value};
ghost use Rattle.lv_values.specs.Rows.{key_cmp, values_at};
ghost use Rattle.lv_schema.specs.Once.{Ascends};
ghost use Rattle.lv_overlay.specs.declared.put.Put.{Put};
ghost use Rattle.lv_overlay.specs.Puts.{rows_over};
ghost use Rattle.lv_overlay.specs.Ordered.{is_less, is_of, is_same, put_cmp, AreFrom};

use crate::overlay::Overlay;
use lv_schema::TableDef;
use lv_values::{Copying, NoMemory, Row, Rows, compare_to_key};
use std::alloc::Global;

/// Whether the write at a place in the order, if there is one, is of the table.
fn is_of(overlay: &Overlay, at: usize, table: u32) -> bool
    ensures is { result ≡ is_of table (slice_get overlay.now.list at) }
    ensures there { result ≡ true → at < length overlay.now.list }
    ensures next { result ≡ true → at < usize.MAX }
{
    at < overlay.len() && table == overlay.at(at).table
}

/// Whether it is of the table, and its key is less than the row's.
fn is_less(overlay: &Overlay, at: usize, table: &TableDef, row: &Row) -> bool
    ensures is { result ≡ is_less table.now.no (values_at table.now.key row.now) (slice_get overlay.now.list at) }
    ensures there { result ≡ true → at < length overlay.now.list }
    ensures next { result ≡ true → at < usize.MAX }
{
    is_of(overlay, at, table.no)
        && compare_to_key(table.key.as_slice(), row, &overlay.at(at).key).is_gt()
}

/// Whether it is of the table, and its key is the row's.
fn is_same(overlay: &Overlay, at: usize, table: &TableDef, row: &Row) -> bool
    ensures is { result ≡ is_same table.now.no (values_at table.now.key row.now) (slice_get overlay.now.list at) }
    ensures there { result ≡ true → at < length overlay.now.list }
    ensures next { result ≡ true → at < usize.MAX }
{
    is_of(overlay, at, table.no)
        && compare_to_key(table.key.as_slice(), row, &overlay.at(at).key).is_eq()
}

/// Adds a copy of the row that a write left, if it left one.
fn push_written(
    alloc: Global,
    overlay: &Overlay,
    at: usize,
    rows: &mut Rows,
) -> Result<(), NoMemory>
    requires { at < length overlay.now.list }
    ensures { OnOk result ((q : Put) → slice_get overlay.now.list at ≡ Some q → rows.new ≡ rows.old ++ cons_option q.row []) }
{
    if let Some(row) = &overlay.at(at).row {
        rows.push(row.copy(alloc)?)?;
    }
    Ok(())
}

/// Adds what the writes before a row left, and answers the place behind them.
fn push_before(
    alloc: Global,
    overlay: &Overlay,
    from: usize,
    table: &TableDef,
    row: &Row,
    rows: &mut Rows,
) -> Result<usize, NoMemory>
    requires order { Ascends put_cmp overlay.now.list }
    ensures within { IfOk result (λ at. AreFrom table.now.no (drop from overlay.now.list) → AreFrom table.now.no (drop at overlay.now.list)) }
    ensures none { IfOk result (λ at. is_less table.now.no (values_at table.now.key row.now) (slice_get overlay.now.list at) ≡ false) }
    ensures rows { IfOk result (λ at. (others : List (List Value)) → Ascends (key_cmp table.now.key) (row.now ∷ others)
        → rows.new ++ rows_over table.now.key (drop at overlay.now.list) table.now.no (row.now ∷ others) ≡ rows.old ++ rows_over table.now.key (drop from overlay.now.list) table.now.no (row.now ∷ others)) }
{
    let mut at = from;
    'each: while is_less(overlay, at, table, row) {
        push_written(alloc, overlay, at, rows)?;
        at += 1;
    }
    Ok(at)
}

/// Adds a row, or what a write at its key left, and answers the place of the next write.
fn push_row(
    alloc: Global,
    overlay: &Overlay,
    at: usize,
    table: &TableDef,
    row: Row,
    rows: &mut Rows,
) -> Result<usize, NoMemory>
    requires order { Ascends put_cmp overlay.now.list }
    requires table { AreFrom table.now.no (drop at overlay.now.list) }
    requires none { is_less table.now.no (values_at table.now.key row) (slice_get overlay.now.list at) ≡ false }
    ensures within { IfOk result (λ next. AreFrom table.now.no (drop next overlay.now.list)) }
    ensures rows { IfOk result (λ next. (others : List (List Value)) → Ascends (key_cmp table.now.key) (row ∷ others)
        → rows.new ++ rows_over table.now.key (drop next overlay.now.list) table.now.no others ≡ rows.old ++ rows_over table.now.key (drop at overlay.now.list) table.now.no (row ∷ others)) }
{
    if is_same(overlay, at, table, &row) {
        push_written(alloc, overlay, at, rows)?;
        Ok(at + 1)
    } else {
        rows.push(row)?;
        Ok(at)
    }
}

/// Adds what the writes of the table left that are behind its last row.
fn push_rest(
    alloc: Global,
    overlay: &Overlay,
    from: usize,
    table: &TableDef,
    rows: &mut Rows,
) -> Result<(), NoMemory>
    requires order { Ascends put_cmp overlay.now.list }
    requires table { AreFrom table.now.no (drop from overlay.now.list) }
    ensures { OnOk result (rows.new ≡ rows.old ++ rows_over table.now.key (drop from overlay.now.list) table.now.no []) }
{
    let mut at = from;
    'each: while is_of(overlay, at, table.no) {
        push_written(alloc, overlay, at, rows)?;
        at += 1;
    }
    Ok(())
}

/// Adds a table's rows with the writes over them.
fn merge(
    alloc: Global,
    overlay: &Overlay,
    from: usize,
    table: &TableDef,
    base: Rows,
) -> Result<Rows, NoMemory>
    requires order { Ascends put_cmp overlay.now.list }
    requires table { AreFrom table.now.no (drop from overlay.now.list) }
    requires base { Ascends (key_cmp table.now.key) base }
    ensures { IfOk result (λ rows. rows ≡ rows_over table.now.key (drop from overlay.now.list) table.now.no base) }
{
    let mut rows = Rows::new(alloc);
    let mut at = from;
    for row in base.into_vec() {
        let next = push_before(alloc, overlay, at, table, &row, &mut rows)?;
        at = push_row(alloc, overlay, next, table, row, &mut rows)?;
    }
    push_rest(alloc, overlay, at, table, &mut rows)?;
    Ok(rows)
}

impl Overlay {
    /// A table's rows with the writes over them: each row whose key was put is replaced or left out, and each other row
    /// that was put is at the place of its key. The rows that are given stand in the order of their keys, which are
    /// distinct. Cost: one pass over the rows and the writes of the table; nothing where it has no write.
    pub fn merged(&self, alloc: Global, table: &TableDef, base: Rows) -> Result<Rows, NoMemory>
        requires { Ascends (key_cmp table.now.key) base }
        ensures { IfOk result (λ rows. rows ≡ rows_over table.now.key self.now.list table.now.no base) }
    {
        let first = self.below(table.no as u64);
        if is_of(self, first, table.no) {
            merge(alloc, self, first, table, base)
        } else {
            Ok(base)
        }
    }
}
