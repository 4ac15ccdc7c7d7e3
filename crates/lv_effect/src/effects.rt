//! What UPDATE and DELETE do to a table's rows.
ghost use Rattle.std.specs.Prelude.{◌≡◌, IfOk, Some, None, Ok, Err, ◌∷◌, [], length, filter, map, slice_get, ◌++◌, OnOk};
ghost use Rattle.std.specs.List.{filter_map, flat_map};
ghost use Rattle.lv_values.specs.Order.{number_of};
ghost use Rattle.lv_values.specs.Rows.{value_in};
ghost use Rattle.lv_schema.specs.Effects.{deletes as spec_deletes, matching, set_value, with_sets, updated, wide_number, first_wide, effect_on};
ghost use Rattle.lv_schema.specs.Truth.{holds};
ghost use Rattle.lv_schema.specs.declared.change.Change.TheVariants.{Update, Delete};
ghost use Rattle.lv_schema.specs.declared.table.TableDef.{TableDef as ATable};
ghost use Rattle.lv_effect.specs.Sums.{SumFits, RowSumsFit, SumsFit};
ghost use Rattle.lv_effect.specs.TableActions.{delete_actions, update_actions};
ghost use Rattle.lv_effect.specs.Answered.{GivesEffect};

use crate::fault::EffectFault;
use lv_schema::{Action, ActionKind, Actions, Cond, Fault, Set, SetValue, holds};
use lv_values::{Copying, NoMemory, Row, Rows, Value};
use std::alloc::Global;
use std::slice::from_ref;

/// Whether a condition keeps a row.
fn keeps(cond: &Cond, row: &Row) -> bool
    ensures { result ≡ holds cond.now (row.now ∷ []) }
{
    holds(cond, from_ref(row))
}

/// The number in a column of a row, 0 where there is none.
fn number_in(row: &Row, column: u8) -> i128
    ensures { result ≡ number_of (value_in row.now column) }
{
    match row.as_slice().get(column as usize) {
        Some(Value::Num(n)) => *n,
        Some(Value::Text(_)) | None => 0,
    }
}

/// The value that a SET gives of the old row.
fn set_value(alloc: Global, old: &Row, value: &SetValue) -> Result<Value, NoMemory>
    requires { SumFits old.now value.now }
    ensures { IfOk result (λ v. v ≡ set_value old.now value.now) }
{
    match value {
        SetValue::Literal(value) => value.copy(alloc),
        SetValue::Column(column) => match old.as_slice().get(*column as usize) {
            Some(value) => value.copy(alloc),
            None => Ok(Value::Num(0)),
        },
        SetValue::Plus { column, amount } => Ok(Value::Num(number_in(old, *column) + *amount)),
    }
}

/// The row with each set column replaced. All SETs take from the old row. Cost: linear in the row and the SETs.
fn updated(alloc: Global, sets: &[Set], old: &Row) -> Result<Row, NoMemory>
    requires { RowSumsFit sets.now old.now }
    ensures { IfOk result (λ row. row ≡ updated sets.now old.now) }
{
    let mut row = old.copy(alloc)?;
    for set in sets {
        let value = set_value(alloc, old, &set.value)?;
        let column = set.column as usize;
        if column < row.len() {
            row.set(column, value);
        }
    }
    Ok(row)
}

/// The number that a SET computes, where it is outside signed 64 bits.
fn wide_number(old: &Row, value: &SetValue) -> Option<i128>
    requires { SumFits old.now value.now }
    ensures { result ≡ wide_number old.now value.now }
{
    match value {
        SetValue::Literal(_) | SetValue::Column(_) => None,
        SetValue::Plus { column, amount } => {
            let sum = number_in(old, *column) + *amount;
            if sum >= -(1 << 63) && sum < 1 << 63 {
                None
            } else {
                Some(sum)
            }
        }
    }
}

/// The first number of a row outside signed 64 bits, by the place of its SET.
fn wide_in_row(sets: &[Set], old: &Row) -> Option<i128>
    requires { RowSumsFit sets.now old.now }
    ensures { result ≡ slice_get (filter_map (λ s. wide_number old.now s.value) sets.now) 0 }
{
    for set in sets {
        if let Some(number) = wide_number(old, &set.value) {
            return Some(number);
        }
    }
    None
}

/// The first number of a row outside signed 64 bits, where the condition keeps the row.
fn wide_where_kept(sets: &[Set], cond: &Cond, old: &Row) -> Option<i128>
    requires { RowSumsFit sets.now old.now }
    ensures { result ≡ first_wide sets.now (matching cond.now (old.now ∷ [])) }
{
    if keeps(cond, old) {
        wide_in_row(sets, old)
    } else {
        None
    }
}

/// The first number outside signed 64 bits that an UPDATE computes, by row and then by place.
fn first_wide(sets: &[Set], cond: &Cond, rows: &[Row]) -> Option<i128>
    requires { SumsFit sets.now rows.now }
    ensures { result ≡ first_wide sets.now (matching cond.now rows.now) }
{
    for row in rows {
        let wide = wide_where_kept(sets, cond, row);
        if wide.is_some() {
            return wide;
        }
    }
    None
}

/// An action that carries no number yet.
pub(crate) fn action(table: u32, kind: ActionKind, row: Row) -> Action
    ensures table { result.table ≡ table }
    ensures statement { result.statement ≡ 0 }
    ensures kind { result.kind ≡ kind }
    ensures row { result.row ≡ row }
{
    Action {
        table,
        statement: 0,
        kind,
        row,
    }
}

/// Appends the action of a DELETE on a row, where the condition keeps the row. The row moves into it.
fn delete_row(table: u32, cond: &Cond, row: Row, actions: &mut Actions) -> Result<(), NoMemory>
    ensures { OnOk result (actions.new ≡ actions.old ++ delete_actions table cond.now (row ∷ [])) }
{
    if keeps(cond, &row) {
        return actions.push(action(table, ActionKind::Delete, row));
    }
    Ok(())
}

/// The actions of a DELETE: one for each row that the condition keeps, in the order of the keys.
fn deletes(alloc: Global, table: u32, cond: &Cond, rows: Rows) -> Result<Actions, NoMemory>
    ensures { IfOk result (λ a. a ≡ delete_actions table cond.now rows) }
{
    let mut actions = Actions::new(alloc);
    for row in rows.into_vec() {
        delete_row(table, cond, row, &mut actions)?;
    }
    Ok(actions)
}

/// Appends the actions of an UPDATE on a row, where the condition keeps the row. The row moves into the first one.
fn update_row(
    alloc: Global,
    table: u32,
    sets: &[Set],
    cond: &Cond,
    row: Row,
    actions: &mut Actions,
) -> Result<(), NoMemory>
    requires { RowSumsFit sets.now row }
    ensures { OnOk result (actions.new ≡ actions.old ++ update_actions table sets.now cond.now (row ∷ [])) }
{
    if keeps(cond, &row) {
        let new = updated(alloc, sets, &row)?;
        actions.push(action(table, ActionKind::Delete, row))?;
        return actions.push(action(table, ActionKind::Insert, new));
    }
    Ok(())
}

/// The actions of an UPDATE: for each row that the condition keeps, in the order of the keys, the old row goes and the
/// new one comes, also where they are equal.
fn updates(
    alloc: Global,
    table: u32,
    sets: &[Set],
    cond: &Cond,
    rows: Rows,
) -> Result<Actions, NoMemory>
    requires { SumsFit sets.now rows }
    ensures { IfOk result (λ a. a ≡ update_actions table sets.now cond.now rows) }
{
    let mut actions = Actions::new(alloc);
    for row in rows.into_vec() {
        update_row(alloc, table, sets, cond, row, &mut actions)?;
    }
    Ok(actions)
}

/// What an UPDATE does. Cost: two passes over the rows.
pub(crate) fn update_effect(
    alloc: Global,
    table: u32,
    sets: &[Set],
    cond: &Cond,
    rows: Rows,
) -> Result<(u64, Actions), EffectFault>
    requires { SumsFit sets.now rows }
    ensures { (def : ATable) → GivesEffect result (effect_on def (Update table sets.now cond.now) rows) }
{
    if let Some(number) = first_wide(sets, cond, rows.as_slice()) {
        return Err(EffectFault::Stmt(Fault::Range { number }));
    }
    let actions = updates(alloc, table, sets, cond, rows)?;
    Ok((actions.len() as u64 / 2, actions))
}

/// What a DELETE does. Cost: one pass over the rows.
pub(crate) fn delete_effect(
    alloc: Global,
    table: u32,
    cond: &Cond,
    rows: Rows,
) -> Result<(u64, Actions), EffectFault>
    ensures { (def : ATable) → GivesEffect result (effect_on def (Delete table cond.now) rows) }
{
    let actions = deletes(alloc, table, cond, rows)?;
    Ok((actions.len() as u64, actions))
}
