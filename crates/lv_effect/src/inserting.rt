//! What INSERT does to a table's rows.
ghost use Rattle.std.specs.Prelude.{◌≡◌, ◌≤◌, ◌+◌, ◌||◌, IfOk, cond, is_some, length, map, nat_lt};
ghost use Rattle.lv_values.specs.Rows.{values_at};
ghost use Rattle.lv_schema.specs.Effects.{first_taken, effect_on, inserts as spec_inserts};
ghost use Rattle.lv_schema.specs.Keys.{row_at};
ghost use Rattle.lv_schema.specs.declared.change.Change.TheVariants.{Insert};
ghost use Rattle.lv_overlay.specs.Puts.{StandUnder, put_at, put_keys};
ghost use Rattle.lv_versions.specs.Versions.{state_at};
ghost use Rattle.lv_effect.specs.Answered.{GivesEffect, could_fill, insert_fault};
ghost use Rattle.lv_effect.specs.Seen.{rows_seen};

use crate::effects::action;
use crate::fault::{EffectFault, MOST_ROWS};
use crate::reading::{merged_rows, row_there};
use lv_overlay::Overlay;
use lv_schema::{ActionKind, Actions, Fault, TableDef};
use lv_values::{Copying, NoMemory, Row, Steps, Value};
use lv_versions::Versions;
use std::alloc::Global;
use std::sync::ledger::Ledger;

/// The values of a row at positions, the number 0 where the row has none.
fn key_of(alloc: Global, key: &[u8], row: &Row) -> Result<Row, NoMemory>
    ensures { IfOk result (λ r. r ≡ values_at key.now row.now) }
{
    let mut values = Row::new(alloc);
    for at in key {
        let value = match row.as_slice().get(*at as usize) {
            Some(value) => value.copy(alloc)?,
            None => Value::Num(0),
        };
        values.push(value)?;
    }
    Ok(values)
}

/// Whether a key is taken, by a new row before or by a row of the table. Cost: three binary searches at most.
fn is_taken<L: Ledger>(
    table: &TableDef,
    base: &Versions,
    n: u64,
    own: &Overlay,
    key: &Row,
    earlier: &Overlay,
    steps: &mut Steps<L>,
) -> bool
    requires table { base.now.def ≡ table.now }
    requires floor { base.now.floor ≤ n }
    requires own { StandUnder table.now.key table.now.no own.now.list }
    ensures taken { result ≡ (is_some (put_at earlier.now.list (table.now.no, key.now)) || is_some (row_at table.now.key key.now (rows_seen table.now base.now.versions n own.now.list))) }
    ensures cost { steps.new ≤ steps.old + 1 }
{
    earlier.get(table.no, key).is_some() || row_there(table, base, n, own, key, steps).is_some()
}

/// The key of the first new row whose key is taken. The keys of the rows before it are kept as writes are, but for the last
/// row's, behind which none comes.
/// Cost: for each new row three binary searches at most, a copy of its key, and a move of small numbers.
fn first_taken<L: Ledger>(
    alloc: Global,
    table: &TableDef,
    base: &Versions,
    n: u64,
    own: &Overlay,
    new: &[Row],
    steps: &mut Steps<L>,
) -> Result<Option<Row>, NoMemory>
    requires table { base.now.def ≡ table.now }
    requires floor { base.now.floor ≤ n }
    requires own { StandUnder table.now.key table.now.no own.now.list }
    ensures taken { IfOk result (λ taken. taken ≡ first_taken table.now.key (rows_seen table.now base.now.versions n own.now.list) new.now) }
    ensures cost { steps.new ≤ steps.old + length new.now }
{
    let mut earlier = Overlay::new(alloc);
    let followed = new.len().saturating_sub(1);
    earlier.reserve(followed as u64)?;
    for (at, row) in new.iter().enumerate() {
        let key = key_of(alloc, table.key.as_slice(), row)?;
        if is_taken(table, base, n, own, &key, &earlier, steps) {
            return Ok(Some(key));
        }
        if at < followed {
            earlier.put(table.no, key, None);
        }
    }
    Ok(None)
}

/// Whether a table with so many rows has no room for so many more.
fn is_overfull(rows: u64, more: u64) -> bool
    ensures { result ≡ nat_lt 65535 (rows + more) }
{
    more > MOST_ROWS || rows > MOST_ROWS - more
}

/// Whether so many more rows could be too many for a table that has at most `most`, where each own write on it was a row
/// of its own. Cost: two binary searches.
fn could_fill(table: &TableDef, most: u64, own: &Overlay, more: u64) -> bool
    ensures { result ≡ could_fill (most + length (put_keys own.now.list table.now.no)) more }
{
    let written = own.count(table.no);
    is_overfull(most, written) || is_overfull(most + written, more)
}

/// Whether a table has no room for so many more rows. Cost: two binary searches, and one pass over the rows where `most`,
/// own writes and new rows together are too many.
fn is_full<L: Ledger>(
    alloc: Global,
    table: &TableDef,
    base: &Versions,
    n: u64,
    most: u64,
    own: &Overlay,
    more: u64,
    steps: &mut Steps<L>,
) -> Result<bool, NoMemory>
    requires table { base.now.def ≡ table.now }
    requires floor { base.now.floor ≤ n }
    requires most { length (state_at n base.now.versions) ≤ most }
    ensures full { IfOk result (λ full. full ≡ nat_lt 65535 (length (rows_seen table.now base.now.versions n own.now.list) + more)) }
    ensures cost { steps.new ≤ steps.old + cond (could_fill (most + length (put_keys own.now.list table.now.no)) more) (length (state_at n base.now.versions)) 0 }
{
    if could_fill(table, most, own, more) {
        let rows = merged_rows(alloc, table, base, n, own, steps)?;
        Ok(is_overfull(rows.len() as u64, more))
    } else {
        Ok(false)
    }
}

/// Why an INSERT of these rows is refused, where it is: the first key that is taken, or more rows than a table may have.
/// Cost: that of `first_taken` and of `is_full`.
fn insert_fault<L: Ledger>(
    alloc: Global,
    no: u32,
    table: &TableDef,
    base: &Versions,
    n: u64,
    most: u64,
    own: &Overlay,
    new: &[Row],
    steps: &mut Steps<L>,
) -> Result<Option<Fault>, NoMemory>
    requires table { base.now.def ≡ table.now }
    requires floor { base.now.floor ≤ n }
    requires most { length (state_at n base.now.versions) ≤ most }
    requires own { StandUnder table.now.key table.now.no own.now.list }
    ensures fault { IfOk result (λ fault. fault ≡ insert_fault no table.now new.now (rows_seen table.now base.now.versions n own.now.list)) }
    ensures cost { steps.new ≤ steps.old + (length new.now + cond (could_fill (most + length (put_keys own.now.list table.now.no)) (length new.now)) (length (state_at n base.now.versions)) 0) }
{
    if let Some(key) = first_taken(alloc, table, base, n, own, new, steps)? {
        return Ok(Some(Fault::Duplicate { table: no, key }));
    }
    if is_full(alloc, table, base, n, most, own, new.len() as u64, steps)? {
        return Ok(Some(Fault::TableFull { table: no }));
    }
    Ok(None)
}

/// The actions of an INSERT.
fn inserts(alloc: Global, table: u32, new: &[Row]) -> Result<Actions, NoMemory>
    ensures { IfOk result (λ a. a ≡ map (spec_inserts table) new.now) }
{
    let mut actions = Actions::new(alloc);
    for row in new {
        let row = row.copy(alloc)?;
        actions.push(action(table, ActionKind::Insert, row))?;
    }
    Ok(actions)
}

/// What an INSERT does. Cost: as `insert_fault`, and a copy of each new row.
pub(crate) fn insert_effect<L: Ledger>(
    alloc: Global,
    no: u32,
    table: &TableDef,
    base: &Versions,
    n: u64,
    most: u64,
    own: &Overlay,
    new: &[Row],
    steps: &mut Steps<L>,
) -> Result<(u64, Actions), EffectFault>
    requires table { base.now.def ≡ table.now }
    requires floor { base.now.floor ≤ n }
    requires most { length (state_at n base.now.versions) ≤ most }
    requires own { StandUnder table.now.key table.now.no own.now.list }
    ensures given { GivesEffect result (effect_on table.now (Insert no new.now) (rows_seen table.now base.now.versions n own.now.list)) }
    ensures cost { steps.new ≤ steps.old + (length new.now + cond (could_fill (most + length (put_keys own.now.list table.now.no)) (length new.now)) (length (state_at n base.now.versions)) 0) }
{
    if let Some(fault) = insert_fault(alloc, no, table, base, n, most, own, new, steps)? {
        return Err(EffectFault::Stmt(fault));
    }
    Ok((new.len() as u64, inserts(alloc, no, new)?))
}
