//! The rows of each alias before and after a step.
ghost use Rattle.std.specs.Prelude.{◌≡◌, ◌<◌, ◌≤◌, ◌+◌, ◌∷◌, ◌++◌, List, drop, slice_get, IfOk, OnOk};
ghost use Rattle.lv_values.specs.declared.value.Value.{Value};
ghost use Rattle.lv_schema.specs.Jobs.{new_rows, old_sides};
ghost use Rattle.lv_maint.specs.Inputs.{IsOfTable};
ghost use Rattle.lv_join.specs.Ties.{seen};
ghost use Rattle.lv_maint.specs.Terms.{is_row, seen_sides, without};

use lv_join::references;
use lv_schema::Part;
use lv_values::{NoMemory, Row};
use std::alloc::Global;

/// Whether there is a row at a place, and it is this one.
fn is_row_at(rows: &[Row], at: usize, row: &Row) -> bool
    ensures { result ≡ is_row row.now (slice_get rows.now at) }
{
    match rows.get(at) {
        Some(other) => row.cmp(other).is_eq(),
        None => false,
    }
}

/// Puts a row behind those that are kept, or skips it where it is the next of those to be left out.
fn keep_or_skip<'a>(
    row: &'a Row,
    minus: &[Row],
    next: &mut usize,
    kept: &mut Vec<&'a Row>,
) -> Result<(), NoMemory>
    requires { next.old < usize.MAX }
    ensures kept { OnOk result ((rows : List (List Value)) → seen kept.new.items ++ without rows (drop next.new minus.now) ≡ seen kept.old.items ++ without (row.now ∷ rows) (drop next.old minus.now)) }
    ensures next { next.new ≤ next.old + 1 }
{
    if is_row_at(minus, *next, row) {
        *next += 1;
        return Ok(());
    }
    kept.push(row)?;
    Ok(())
}

/// References to the rows but for some that stand among them in the same order. Cost: one comparison for each row.
fn rows_without<'a>(alloc: Global, rows: &'a [Row], minus: &[Row]) -> Result<Vec<&'a Row>, NoMemory>
    ensures { IfOk result (λ kept. seen kept.items ≡ without rows.now minus.now) }
{
    let mut kept = Vec::with_capacity(alloc, rows.len())?;
    let mut next = 0;
    for row in rows {
        keep_or_skip(row, minus, &mut next, &mut kept)?;
    }
    Ok(kept)
}

/// Puts references to rows behind others, in room that is taken once. Cost: one for each row.
fn add_references<'a>(rows: &'a [Row], refs: &mut Vec<&'a Row>) -> Result<(), NoMemory>
    ensures { OnOk result (seen refs.new.items ≡ seen refs.old.items ++ rows.now) }
{
    refs.reserve(rows.len())?;
    for row in rows {
        refs.push(row)?;
    }
    Ok(())
}

/// References to the rows after the step. Cost: linear in the rows.
pub(crate) fn new_rows<'a>(alloc: Global, part: &'a Part) -> Result<Vec<&'a Row>, NoMemory>
    requires { IsOfTable part.now }
    ensures { IfOk result (λ rows. seen rows.items ≡ new_rows part.now) }
{
    let mut rows = rows_without(alloc, part.old.as_slice(), part.minus.as_slice())?;
    add_references(part.plus.as_slice(), &mut rows)?;
    Ok(rows)
}

/// References to the rows of each alias before the step. Cost: linear in the rows.
pub(crate) fn old_sides<'a>(alloc: Global, parts: &'a [Part]) -> Result<Vec<Vec<&'a Row>>, NoMemory>
    ensures { IfOk result (λ sides. seen_sides sides.items ≡ old_sides parts.now) }
{
    let mut sides = Vec::with_capacity(alloc, parts.len())?;
    for part in parts {
        sides.push(references(alloc, part.old.as_slice())?)?;
    }
    Ok(sides)
}
