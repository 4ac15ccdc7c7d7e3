//! Conditions that fix a table's key.
ghost use Rattle.std.specs.Prelude.{◌≡◌, ◌∷◌, [], true, List, IfOk, MatchOption, is_some};
ghost use Rattle.std.specs.List.{list_any};
ghost use Rattle.lv_values.specs.declared.value.Value.{Value as AValue};
ghost use Rattle.lv_values.specs.Rows.{value_in};
ghost use Rattle.lv_schema.specs.Truth.{operand_value};
ghost use Rattle.lv_schema.specs.Tuples.{Tuple};
ghost use Rattle.lv_effect.specs.FixedKeys.{Fixes, FixesKey, PartsFix, SidesFix, compares, is_column, is_literal, literal_value, says_column, says_key};

use lv_schema::{Cond, Op, Operand};
use lv_values::{Copying, NoMemory, Row, Value};
use std::alloc::Global;

/// Whether an operand is this column of the table.
pub(crate) fn is_column(operand: &Operand, column: u8) -> bool
    ensures is { result ≡ is_column column operand.now }
    ensures value { result ≡ true → (row : List AValue) → operand_value (row ∷ []) operand.now ≡ value_in row column }
{
    match operand {
        Operand::Column(col) => col.alias == 0 && col.column == column,
        Operand::Number(_) | Operand::Text(_) => false,
    }
}

/// Whether an operand is a literal.
pub(crate) fn is_literal(operand: &Operand) -> bool
    ensures is { result ≡ is_literal operand.now }
    ensures value { result ≡ true → (tuple : Tuple) → operand_value tuple operand.now ≡ literal_value operand.now }
{
    match operand {
        Operand::Column(_) => false,
        Operand::Number(_) | Operand::Text(_) => true,
    }
}

/// The literal that a column is compared with, on either side.
fn compared_with<'a>(column: u8, left: &'a Operand, right: &'a Operand) -> Option<&'a Operand>
    ensures found { is_some result ≡ compares column left.now right.now }
    ensures fixes { MatchOption result (Unit {0}) (λ it. SidesFix column left.now right.now (literal_value it.now)) }
{
    if is_column(left, column) && is_literal(right) {
        Some(right)
    } else if is_column(right, column) && is_literal(left) {
        Some(left)
    } else {
        None
    }
}

/// The literal that a column has in every row that all parts keep, where one of them says so.
#[cycle(fixed)]
fn fixed_by_parts(column: u8, parts: &[Cond]) -> Option<&Operand>
    ensures found { is_some result ≡ list_any (λ part. says_column part column) parts.now }
    ensures fixes { MatchOption result (Unit {0}) (λ it. PartsFix column parts.now (literal_value it.now)) }
{
    for part in parts {
        if let Some(literal) = fixed_by(column, part) {
            return Some(literal);
        }
    }
    None
}

/// The literal that a column has in every row that the condition keeps, where one of the parts that all hold says so.
#[cycle(fixed)]
fn fixed_by(column: u8, cond: &Cond) -> Option<&Operand>
    ensures found { is_some result ≡ says_column cond.now column }
    ensures fixes { MatchOption result (Unit {0}) (λ it. Fixes column cond.now (literal_value it.now)) }
{
    match cond {
        Cond::Cmp {
            op: Op::Eq,
            left,
            right,
        } => compared_with(column, left, right),
        Cond::And(parts) => fixed_by_parts(column, parts.as_slice()),
        Cond::True | Cond::Cmp { .. } | Cond::Or(_) | Cond::Not(_) => None,
    }
}

/// The value of a literal.
pub(crate) fn value_of(alloc: Global, literal: &Operand) -> Result<Value, NoMemory>
    ensures { IfOk result (λ value. value ≡ literal_value literal.now) }
{
    match literal {
        Operand::Column(_) => Ok(Value::Num(0)),
        Operand::Number(n) => Ok(Value::Num(*n)),
        Operand::Text(text) => Ok(Value::Text(text.copy(alloc)?)),
    }
}

/// The value that a column has in every row that the condition keeps, where one of the parts that all have to hold says
/// that it equals a literal. Cost: a pass over the condition.
pub fn fixed_value(alloc: Global, column: u8, cond: &Cond) -> Result<Option<Value>, NoMemory>
    ensures found { IfOk result (λ found. is_some found ≡ says_column cond.now column) }
    ensures fixes { IfOk result (λ found. MatchOption found (Unit {0}) (Fixes column cond.now)) }
{
    let Some(literal) = fixed_by(column, cond) else {
        return Ok(None);
    };
    Ok(Some(value_of(alloc, literal)?))
}

/// The key of every row that the condition keeps, where the condition fixes each key column.
/// Cost: a pass over the condition for each key column.
pub(crate) fn fixed_key(
    alloc: Global,
    positions: &[u8],
    cond: &Cond,
) -> Result<Option<Row>, NoMemory>
    ensures found { IfOk result (λ found. is_some found ≡ says_key cond.now positions.now) }
    ensures fixes { IfOk result (λ found. MatchOption found (Unit {0}) (λ key. FixesKey positions.now cond.now key)) }
{
    let mut key = Row::new(alloc);
    for at in positions {
        let Some(literal) = fixed_by(*at, cond) else {
            return Ok(None);
        };
        key.push(value_of(alloc, literal)?)?;
    }
    Ok(Some(key))
}
