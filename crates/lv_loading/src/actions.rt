//! Whether the actions of a commit can be taken, one after another.
ghost use Rattle.std.specs.Prelude.{◌≡◌, ◌≤◌, ◌<◌, ◌+◌, [], true, length, Ok, IfOk, OnOk};
ghost use Rattle.std.specs.Option.{option_copied};
ghost use Rattle.lv_values.specs.Rows.{values_at};
ghost use Rattle.lv_schema.specs.Commits.{Place};
ghost use Rattle.lv_schema.specs.Databases.{IsDatabase};
ghost use Rattle.lv_schema.specs.Keys.{left_by};
ghost use Rattle.lv_overlay.specs.Puts.{PutIs};
ghost use Rattle.lv_replay.specs.Applies.{can_act};
ghost use Rattle.lv_base.specs.Bases.{defs_of, last_state};
ghost use Rattle.lv_loading.specs.Taking.{allows, is_row, may_take, seen, with_action};

use crate::values::action_fits;
use lv_base::Base;
use lv_overlay::Overlay;
use lv_schema::{Action, ActionKind, Schema};
use lv_values::{Copying, NoMemory, Row, Steps, Value};
use std::alloc::Global;
use std::sync::ledger::{Blank, Ledger};

/// The values of a row at positions, the number 0 where the row has none.
fn key_of(alloc: Global, key: &[u8], row: &Row) -> Result<Row, NoMemory>
    ensures { IfOk result (λ r. r ≡ values_at key.now row.now) }
{
    let mut values = Row::new(alloc);
    for at in key {
        let value = match row.as_slice().get(*at as usize) {
            Some(value) => value.copy(alloc)?,
            None => Value::Num(0),
        };
        values.push(value)?;
    }
    Ok(values)
}

/// What an action leaves at its key.
fn left_by(alloc: Global, action: &Action) -> Result<Option<Row>, NoMemory>
    ensures { IfOk result (λ row. row ≡ left_by action.now.kind action.now.row) }
{
    match action.kind {
        ActionKind::Insert => Ok(Some(action.row.copy(alloc)?)),
        ActionKind::Delete => Ok(None),
    }
}

/// Whether a row is the one that is there.
fn is_row(row: &Row, there: Option<&Row>) -> bool
    ensures { result ≡ is_row row.now (option_copied there.entry) }
{
    match there {
        Some(other) => row.cmp(other).is_eq(),
        None => false,
    }
}

/// Whether an action can be taken where this row is at its key.
fn allows(action: &Action, there: Option<&Row>) -> bool
    ensures { result ≡ allows action.now.kind action.now.row (option_copied there.entry) }
{
    match action.kind {
        ActionKind::Insert => there.is_none(),
        ActionKind::Delete => is_row(&action.row, there),
    }
}

/// Whether an action can be taken over what the earlier ones left. Cost: two binary searches.
fn may_stand<L: Ledger>(
    base: &Base,
    action: &Action,
    key: &Row,
    earlier: &Overlay,
    steps: &mut Steps<L>,
) -> bool
    requires table { action.now.table < length base.now.tables }
    requires kept { base.now.pruned ≡ 0 }
    ensures { result ≡ allows action.now.kind action.now.row (seen base.now earlier.now.list (action.now.table, key.now)) }
{
    match earlier.get(action.table, key) {
        Some(written) => allows(action, written.as_ref()),
        None => {
            let versions = base.versions(action.table);
            allows(action, versions.read(base.last(), key, steps))
        }
    }
}

/// Puts what an action leaves at its key over what the earlier ones left.
fn put_action(
    alloc: Global,
    action: &Action,
    key: Row,
    earlier: &mut Overlay,
) -> Result<(), NoMemory>
    requires room { 0 < earlier.old.spare }
    ensures put { OnOk result (PutIs (record { table = action.now.table; key = key; row = left_by action.now.kind action.now.row }) earlier.old.list earlier.new.list) }
    ensures room { earlier.old.spare ≤ earlier.new.spare + 1 }
{
    let row = left_by(alloc, action)?;
    earlier.put(action.table, key, row);
    Ok(())
}

/// Whether an action can be taken over what the earlier ones left; where it can, what it leaves is put over that.
/// Cost: a look at each value of its row, and three binary searches.
fn take_action<L: Ledger>(
    alloc: Global,
    schema: &Schema,
    base: &Base,
    action: &Action,
    earlier: &mut Overlay,
    steps: &mut Steps<L>,
) -> Result<bool, NoMemory>
    requires same { schema.now.tables ≡ defs_of base.now }
    requires kept { base.now.pruned ≡ 0 }
    requires room { 0 < earlier.old.spare }
    ensures taken { IfOk result (λ b. b ≡ may_take (defs_of base.now) (seen base.now earlier.old.list) action.now) }
    ensures left { result ≡ Ok true → (p : Place) → seen base.now earlier.new.list p ≡ with_action (defs_of base.now) (seen base.now earlier.old.list) action.now p }
    ensures room { earlier.old.spare ≤ earlier.new.spare + 1 }
{
    if !action_fits(schema, action) {
        return Ok(false);
    }
    let key = key_of(alloc, schema.key(action.table), &action.row)?;
    if !may_stand(base, action, &key, earlier, steps) {
        return Ok(false);
    }
    put_action(alloc, action, key, earlier)?;
    Ok(true)
}

/// Whether actions can be taken on the last state in their order, over an overlay that is empty at first and has what they leave.
fn take_each<L: Ledger>(
    alloc: Global,
    schema: &Schema,
    base: &Base,
    actions: &[Action],
    earlier: &mut Overlay,
    steps: &mut Steps<L>,
) -> Result<bool, NoMemory>
    requires same { schema.now.tables ≡ defs_of base.now }
    requires kept { base.now.pruned ≡ 0 }
    requires fits { IsDatabase (defs_of base.now) (last_state base.now) }
    requires none { earlier.old.list ≡ [] }
    ensures { IfOk result (λ b. b ≡ can_act (defs_of base.now) (last_state base.now) actions.now) }
{
    earlier.reserve(actions.len() as u64)?;
    for action in actions {
        if !take_action(alloc, schema, base, action, earlier, steps)? {
            return Ok(false);
        }
    }
    Ok(true)
}

/// Whether actions can be taken on the last state in their order. Cost: for each a look at the values of its row, and
/// three binary searches. Nobody looks at the count of the rows that are read. The overlay is let go of at one place.
pub(crate) fn can_act<L: Ledger>(
    alloc: Global,
    schema: &Schema,
    base: &Base,
    actions: &[Action],
    blank: Blank,
) -> Result<bool, NoMemory>
    requires name { blank.name ≡ L.name }
    requires parts { blank.parts ≡ L.parts }
    requires some { 0 < blank.parts }
    requires same { schema.now.tables ≡ defs_of base.now }
    requires kept { base.now.pruned ≡ 0 }
    requires fits { IsDatabase (defs_of base.now) (last_state base.now) }
    ensures { IfOk result (λ b. b ≡ can_act (defs_of base.now) (last_state base.now) actions.now) }
{
    let mut steps = Steps::<L>::new(blank);
    let mut earlier = Overlay::new(alloc);
    let can = take_each(alloc, schema, base, actions, &mut earlier, &mut steps);
    drop(earlier);
    can
}
