//! The writes that actions make.
ghost use Rattle.std.specs.Prelude.{◌≡◌, ◌≤◌, ◌++◌, Bool, true, map, length, IfOk};
ghost use Rattle.std.specs.List.{list_all};
ghost use Rattle.lv_values.specs.Rows.{values_at};
ghost use Rattle.lv_schema.specs.Cases.{numbered};
ghost use Rattle.lv_schema.specs.Commits.{Place};
ghost use Rattle.lv_schema.specs.Keys.{left_by};
ghost use Rattle.lv_overlay.specs.Puts.{put_at};
ghost use Rattle.lv_txn.specs.Written.{is_overwritten, kept_puts, left_at, put_of};

use lv_overlay::{Overlay, Put};
use lv_schema::{Action, ActionKind, Actions, Schema};
use lv_values::{Copying, Items, NoMemory, Room, Row, Value, compare_keys};
use std::alloc::Global;

/// Writes in the order in which they are made.
pub(crate) type Puts = Items<Put>;

/// The values of a row at positions, the number 0 where the row has none.
pub(crate) fn key_of(alloc: Global, key: &[u8], row: &Row) -> Result<Row, NoMemory>
    ensures { IfOk result (λ r. r ≡ values_at key.now row.now) }
{
    let mut values = Row::from_vec(Vec::with_capacity(alloc, key.len())?);
    for at in key {
        let value = match row.as_slice().get(*at as usize) {
            Some(value) => value.copy(alloc)?,
            None => Value::Num(0),
        };
        values.push(value)?;
    }
    Ok(values)
}

/// What an action leaves at its key.
fn left_by(alloc: Global, action: &Action) -> Result<Option<Row>, NoMemory>
    ensures { IfOk result (λ row. row ≡ left_by action.now.kind action.now.row) }
{
    match action.kind {
        ActionKind::Insert => Ok(Some(action.row.copy(alloc)?)),
        ActionKind::Delete => Ok(None),
    }
}

/// Whether the first of the actions behind an action writes the same key. Cost: one comparison of keys in place.
fn is_overwritten(schema: &Schema, action: &Action, behind: &[Action]) -> bool
    ensures { result ≡ is_overwritten (put_of schema.now.tables action.now) (map (put_of schema.now.tables) behind.now) }
{
    match behind.first() {
        Some(next) => {
            action.table == next.table
                && compare_keys(schema.key(action.table), &action.row, &next.row).is_eq()
        }
        None => false,
    }
}

/// The writes of actions, without those that the next one overwrites. Cost: for each action a comparison of keys, and
/// for each write that is left copies of its key and row.
pub(crate) fn puts_of(alloc: Global, schema: &Schema, actions: &[Action]) -> Result<Puts, NoMemory>
    ensures { IfOk result (λ puts. puts ≡ kept_puts (map (put_of schema.now.tables) actions.now)) }
{
    let mut puts = Puts::from_vec(Vec::with_capacity(alloc, actions.len())?);
    for (i, action) in actions.iter().enumerate() {
        if !is_overwritten(schema, action, actions.split_at(i + 1).1) {
            puts.push(Put {
                table: action.table,
                key: key_of(alloc, schema.key(action.table), &action.row)?,
                row: left_by(alloc, action)?,
            })?;
        }
    }
    Ok(puts)
}

/// Makes writes, one after another.
pub(crate) fn put_all(puts: Puts, own: &mut Overlay)
    requires { length puts ≤ own.old.spare }
    ensures left { (p : Place) → put_at own.new.list p ≡ left_at puts p (put_at own.old.list p) }
    ensures only { (test : Put → Bool) → list_all test puts ≡ true → list_all test own.old.list ≡ true → list_all test own.new.list ≡ true }
{
    for put in puts.into_vec() {
        own.put(put.table, put.key, put.row);
    }
}

/// Adds actions, each with the number of its change.
pub(crate) fn push_numbered(statement: u32, actions: Actions, list: &mut Room<Action>)
    requires { length actions ≤ list.old.spare }
    ensures { list.new.list ≡ list.old.list ++ numbered statement actions }
{
    for action in actions.into_vec() {
        list.push(Action {
            table: action.table,
            statement,
            kind: action.kind,
            row: action.row,
        });
    }
}
