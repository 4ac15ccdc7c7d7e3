//! The columns that a view uses.
ghost use Rattle.std.specs.Prelude.{◌≡◌, ◌++◌, map, IfOk, OnOk};
ghost use Rattle.lv_relevance.specs.Relevance.{columns_of, joined, operand_columns, used_columns};

use lv_bags::{key_columns, summed_columns};
use lv_schema::{Cols, Cond, Operand, ViewDef};
use lv_values::NoMemory;
use std::alloc::Global;

/// Puts the column that one side of a comparison names behind the others.
fn add_operand(cols: &mut Cols, operand: &Operand) -> Result<(), NoMemory>
    ensures { OnOk result (cols.new ≡ cols.old ++ operand_columns operand.now) }
{
    if let Operand::Column(col) = operand {
        cols.push(*col)?;
    }
    Ok(())
}

/// Puts the columns of a comparison behind the others.
fn add_operands(cols: &mut Cols, left: &Operand, right: &Operand) -> Result<(), NoMemory>
    ensures { OnOk result (cols.new ≡ cols.old ++ (operand_columns left.now ++ operand_columns right.now)) }
{
    add_operand(cols, left)?;
    add_operand(cols, right)
}

#[cycle(columns)]
fn add_columns_of_each(cols: &mut Cols, parts: &[Cond]) -> Result<(), NoMemory>
    ensures { OnOk result (cols.new ≡ cols.old ++ joined (map columns_of parts.now)) }
{
    for part in parts {
        add_columns(cols, part)?;
    }
    Ok(())
}

/// Puts the columns that a condition names behind the others, in the order of their place.
#[cycle(columns)]
fn add_columns(cols: &mut Cols, cond: &Cond) -> Result<(), NoMemory>
    ensures { OnOk result (cols.new ≡ cols.old ++ columns_of cond.now) }
{
    match cond {
        Cond::True => Ok(()),
        Cond::Cmp { op: _, left, right } => add_operands(cols, left, right),
        Cond::And(parts) | Cond::Or(parts) => add_columns_of_each(cols, parts.as_slice()),
        Cond::Not(part) => add_columns(cols, part.get()),
    }
}

/// The columns that a view tests, those that tell its rows or groups apart, and those that it sums. Cost: linear in the
/// view.
pub(crate) fn used_columns(alloc: Global, view: &ViewDef) -> Result<Cols, NoMemory>
    ensures { IfOk result (λ cols. cols ≡ used_columns view.now) }
{
    let mut cols = Cols::new(alloc);
    add_columns(&mut cols, &view.cond)?;
    let keys = key_columns(alloc, view)?;
    cols.extend_from_slice(&keys)?;
    let sums = summed_columns(alloc, view)?;
    cols.extend_from_slice(&sums)?;
    Ok(cols)
}
