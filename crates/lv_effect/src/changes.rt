//! What a change does to a table.
ghost use Rattle.std.specs.Prelude.{◌≡◌, ◌≤◌, ◌+◌, false, length, Some, OnOk};
ghost use Rattle.lv_schema.specs.declared.cond.Cond.{Cond as ACond};
ghost use Rattle.lv_schema.specs.Effects.{effect_on};
ghost use Rattle.lv_overlay.specs.Puts.{StandUnder, put_keys};
ghost use Rattle.lv_versions.specs.Versions.{state_at};
ghost use Rattle.lv_effect.specs.Answered.{GivesEffect, condition_of, most_steps, most_within};
ghost use Rattle.lv_effect.specs.Bounds.{rows_bounded};
ghost use Rattle.lv_effect.specs.FixedKeys.{says_key};
ghost use Rattle.lv_effect.specs.Seen.{rows_seen};
ghost use Rattle.lv_effect.specs.Sums.{ChangeSumsFit};

use crate::effects::{delete_effect, update_effect};
use crate::fault::EffectFault;
use crate::inserting::insert_effect;
use crate::reading::rows_to_try;
use lv_overlay::{Overlay, writes_give_own_rows};
use lv_schema::{Actions, Change, TableDef};
use lv_values::Steps;
use lv_versions::Versions;
use std::alloc::Global;
use std::sync::ledger::Ledger;

/// What a change does to a table's rows after commit n with a transaction's own writes over them: the number of rows
/// that it inserts, updates or deletes, and its actions, not numbered yet. Refused with a number out of range, a
/// duplicate key or a full table, in this order. `most` is no less than the number of rows that the table has then; the
/// closer it is, the fewer INSERTs have to count.
///
/// Cost: an INSERT makes three binary searches at most for each of its rows, in the own writes, the versions and its
/// rows before, and two to count the own writes on the table; only where these, `most` and its rows are together
/// more than a table may have does it count the rows in one pass. An UPDATE or DELETE whose condition fixes every key
/// column finds its row by two binary searches, and any other one reads the rows whose first key column is between the
/// values by which its condition bounds it, which two binary searches find, or all where it gives none.
pub fn effect<L: Ledger>(
    alloc: Global,
    table: &TableDef,
    base: &Versions,
    n: u64,
    most: u64,
    own: &Overlay,
    change: &Change,
    steps: &mut Steps<L>,
) -> Result<(u64, Actions), EffectFault>
    requires table { base.now.def ≡ table.now }
    requires floor { base.now.floor ≤ n }
    requires most { length (state_at n base.now.versions) ≤ most }
    requires own { StandUnder table.now.key table.now.no own.now.list }
    requires sums { ChangeSumsFit change.now (rows_seen table.now base.now.versions n own.now.list) }
    ensures given { GivesEffect result (effect_on table.now change.now (rows_seen table.now base.now.versions n own.now.list)) }
    ensures cost { steps.new ≤ steps.old + most_steps table.now.key change.now (most + length (put_keys own.now.list table.now.no)) (length (state_at n base.now.versions)) }
    ensures within { steps.new ≤ steps.old + most_within table.now.key change.now (most + length (put_keys own.now.list table.now.no)) (state_at n base.now.versions) }
    ensures exact { (c : ACond) → condition_of change.now ≡ Some c → says_key c table.now.key ≡ false → OnOk result (steps.new ≡ steps.old + length (rows_bounded c table.now.key (state_at n base.now.versions))) }
{
    writes_give_own_rows();
    match change {
        Change::Insert {
            table: no,
            rows: new,
        } => insert_effect(alloc, *no, table, base, n, most, own, new.as_slice(), steps),
        Change::Update {
            table: no,
            sets,
            cond,
        } => {
            let tried = rows_to_try(alloc, table, base, n, own, cond, steps)?;
            update_effect(alloc, *no, sets.as_slice(), cond, tried)
        }
        Change::Delete { table: no, cond } => {
            let tried = rows_to_try(alloc, table, base, n, own, cond, steps)?;
            delete_effect(alloc, *no, cond, tried)
        }
    }
}
