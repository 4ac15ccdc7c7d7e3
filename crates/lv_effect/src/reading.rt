//! The rows that a change reads: those of a snapshot with a transaction's own writes over them.
ghost use Rattle.std.specs.Prelude.{◌≡◌, ◌≤◌, ◌+◌, true, false, length, List, Some, None, IfOk, OnOk, MatchOption};
ghost use Rattle.std.specs.Option.{option_to_list};
ghost use Rattle.lv_values.specs.Rows.{key_cmp};
ghost use Rattle.lv_schema.specs.Effects.{matching};
ghost use Rattle.lv_schema.specs.Keys.{row_at};
ghost use Rattle.lv_schema.specs.Once.{Ascends};
ghost use Rattle.lv_schema.specs.declared.change.Set.{Set as ASet};
ghost use Rattle.lv_overlay.specs.Puts.{StandUnder};
ghost use Rattle.lv_versions.specs.Versions.{state_at};
ghost use Rattle.lv_effect.specs.Bounds.{FirstBound, first_bound_of, rows_bounded};
ghost use Rattle.lv_effect.specs.FixedKeys.{says_key};
ghost use Rattle.lv_effect.specs.Seen.{rows_seen};
ghost use Rattle.lv_effect.specs.Sums.{SumsFit};

use crate::bounding::{Side, bound_value};
use crate::fixing::fixed_key;
use crate::passing::KeptBy;
use lv_overlay::{Overlay, writes_give_own_rows};
use lv_schema::{Cond, TableDef};
use lv_values::{Copying, NoMemory, Row, Rows, Steps};
use lv_versions::Versions;
use std::alloc::Global;
use std::sync::ledger::Ledger;

/// The rows of a table after commit n with a transaction's own writes over them. Want of memory is the only error.
/// Cost: one pass over the versions, and where there are writes of the table one over these and the rows.
pub fn merged_rows<L: Ledger>(
    alloc: Global,
    table: &TableDef,
    base: &Versions,
    n: u64,
    own: &Overlay,
    steps: &mut Steps<L>,
) -> Result<Rows, NoMemory>
    requires table { base.now.def ≡ table.now }
    requires floor { base.now.floor ≤ n }
    ensures rows { IfOk result (λ rows. rows ≡ rows_seen table.now base.now.versions n own.now.list) }
    ensures cost { steps.new ≤ steps.old + length (state_at n base.now.versions) }
{
    let rows = base.scan(alloc, n, steps)?;
    own.merged(alloc, table, rows)
}

/// The row at a key after commit n with the writes over it. Cost: two binary searches.
pub(crate) fn row_there<'a, L: Ledger>(
    table: &TableDef,
    base: &'a Versions,
    n: u64,
    own: &'a Overlay,
    key: &Row,
    steps: &mut Steps<L>,
) -> Option<&'a Row>
    requires table { base.now.def ≡ table.now }
    requires floor { base.now.floor ≤ n }
    requires own { StandUnder table.now.key table.now.no own.now.list }
    ensures found { MatchOption result (row_at table.now.key key.now (rows_seen table.now base.now.versions n own.now.list) ≡ None) (λ row. row_at table.now.key key.now (rows_seen table.now base.now.versions n own.now.list) ≡ Some row.now) }
    ensures cost { steps.new ≤ steps.old + 1 }
{
    writes_give_own_rows();
    match own.get(table.no, key) {
        Some(written) => written.as_ref(),
        None => base.read(n, key, steps),
    }
}

/// A copy of the row at a key, if one is there. Cost: two binary searches.
fn rows_there<L: Ledger>(
    alloc: Global,
    table: &TableDef,
    base: &Versions,
    n: u64,
    own: &Overlay,
    key: &Row,
    steps: &mut Steps<L>,
) -> Result<Rows, NoMemory>
    requires table { base.now.def ≡ table.now }
    requires floor { base.now.floor ≤ n }
    requires own { StandUnder table.now.key table.now.no own.now.list }
    ensures rows { IfOk result (λ rows. rows ≡ option_to_list (row_at table.now.key key.now (rows_seen table.now base.now.versions n own.now.list))) }
    ensures cost { steps.new ≤ steps.old + 1 }
{
    let mut rows = Rows::new(alloc);
    if let Some(row) = row_there(table, base, n, own, key, steps) {
        rows.push(row.copy(alloc)?)?;
    }
    Ok(rows)
}

/// The first value of a table's key by which a condition bounds it on a side, alone in a row, where the condition says so.
/// Cost: a pass over the condition.
fn first_bound(
    alloc: Global,
    table: &TableDef,
    side: Side,
    cond: &Cond,
) -> Result<Option<Row>, NoMemory>
    ensures found { IfOk result (λ found. found ≡ first_bound_of side cond.now table.now.key) }
    ensures bounds { IfOk result (λ found. MatchOption found (Unit {0}) (FirstBound side cond.now table.now.key)) }
{
    let [first, ..] = table.key.as_slice() else {
        return Ok(None);
    };
    let Some(value) = bound_value(alloc, *first, side, cond)? else {
        return Ok(None);
    };
    let mut values = Row::new(alloc);
    values.push(value)?;
    Ok(Some(values))
}

/// Rows of a table after commit n with a transaction's own writes over them, of which a condition keeps the same as of
/// all: those below that it keeps, with the writes over them.
/// Cost: two binary searches and the rows whose first key column is between the values by which the condition bounds it, on
/// each side the first that it says, or all where it says none; a copy of each row that the condition keeps, and a pass over
/// these and the writes of the table.
fn rows_kept<L: Ledger>(
    alloc: Global,
    table: &TableDef,
    base: &Versions,
    n: u64,
    own: &Overlay,
    cond: &Cond,
    steps: &mut Steps<L>,
) -> Result<Rows, NoMemory>
    requires table { base.now.def ≡ table.now }
    requires floor { base.now.floor ≤ n }
    requires own { StandUnder table.now.key table.now.no own.now.list }
    ensures all { IfOk result (λ tried. matching cond.now tried ≡ matching cond.now (rows_seen table.now base.now.versions n own.now.list)) }
    ensures sums { (sets : List ASet) → SumsFit sets (rows_seen table.now base.now.versions n own.now.list) → IfOk result (λ tried. SumsFit sets tried) }
    ensures cost { steps.new ≤ steps.old + length (rows_bounded cond.now table.now.key (state_at n base.now.versions)) }
    ensures exact { OnOk result (steps.new ≡ steps.old + length (rows_bounded cond.now table.now.key (state_at n base.now.versions))) }
    ensures most { steps.new ≤ steps.old + length (state_at n base.now.versions) }
{
    writes_give_own_rows();
    let low = first_bound(alloc, table, Side::Low, cond)?;
    let high = first_bound(alloc, table, Side::High, cond)?;
    let kept = base.scan_between(
        alloc,
        n,
        low.as_ref(),
        high.as_ref(),
        &KeptBy { cond },
        steps,
    )?;
    own.merged(alloc, table, kept)
}

/// Rows of a table after commit n with a transaction's own writes over them, of which a condition keeps the same as of
/// all: the one with a key, where the condition fixes every key column, or else those below that the condition keeps, with
/// the writes over them. Want of memory is the only error.
/// Cost: that of finding the key in the condition and two binary searches; or else two binary searches and the rows whose
/// first key column is between the values by which the condition bounds it, on each side the first that it says, or all
/// where it says none; a copy of each row that the condition keeps, and a pass over these and the writes of the table.
pub fn rows_to_try<L: Ledger>(
    alloc: Global,
    table: &TableDef,
    base: &Versions,
    n: u64,
    own: &Overlay,
    cond: &Cond,
    steps: &mut Steps<L>,
) -> Result<Rows, NoMemory>
    requires table { base.now.def ≡ table.now }
    requires floor { base.now.floor ≤ n }
    requires own { StandUnder table.now.key table.now.no own.now.list }
    ensures all { IfOk result (λ tried. matching cond.now tried ≡ matching cond.now (rows_seen table.now base.now.versions n own.now.list)) }
    ensures sums { (sets : List ASet) → SumsFit sets (rows_seen table.now base.now.versions n own.now.list) → IfOk result (λ tried. SumsFit sets tried) }
    ensures cost { says_key cond.now table.now.key ≡ false → steps.new ≤ steps.old + length (state_at n base.now.versions) }
    ensures within { says_key cond.now table.now.key ≡ false → steps.new ≤ steps.old + length (rows_bounded cond.now table.now.key (state_at n base.now.versions)) }
    ensures exact { says_key cond.now table.now.key ≡ false → OnOk result (steps.new ≡ steps.old + length (rows_bounded cond.now table.now.key (state_at n base.now.versions))) }
    ensures few { says_key cond.now table.now.key ≡ true → steps.new ≤ steps.old + 1 }
{
    writes_give_own_rows();
    match fixed_key(alloc, table.key.as_slice(), cond)? {
        Some(key) => rows_there(alloc, table, base, n, own, &key, steps),
        None => rows_kept(alloc, table, base, n, own, cond, steps),
    }
}
