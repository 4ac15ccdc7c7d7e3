//! Conditions that bound a column.
ghost use Rattle.std.specs.Prelude.{◌≡◌, IfOk, MatchOption, option_map};
ghost use Rattle.lv_effect.specs.Bounds.{Bounds, PartsBound, SidesBound, bound_in, bound_of, bound_of_sides, bounds, other_side};
ghost use Rattle.lv_effect.specs.FixedKeys.{literal_value};

use crate::fixing::{is_column, is_literal, value_of};
use lv_schema::{Cond, Op, Operand};
use lv_values::{NoMemory, Value};
use std::alloc::Global;

/// A side of a range.
#[derive(Clone, Copy, Debug, PartialEq, Eq)]
pub enum Side {
    /// No value is less than the bound.
    Low,
    /// No value is greater than the bound.
    High,
}

/// The other side.
fn other_side(side: Side) -> Side
    ensures { result ≡ other_side side }
{
    match side {
        Side::Low => Side::High,
        Side::High => Side::Low,
    }
}

/// Whether what is on the left of a sign is bounded by what is on its right.
fn bounds(side: Side, op: Op) -> bool
    ensures { result ≡ bounds side op }
{
    match (side, op) {
        (Side::Low, Op::Eq | Op::Gt | Op::Ge) | (Side::High, Op::Eq | Op::Lt | Op::Le) => true,
        _ => false,
    }
}

/// The literal by which a comparison bounds a column, on either side of its sign.
fn bounded_with<'a>(
    column: u8,
    side: Side,
    op: Op,
    left: &'a Operand,
    right: &'a Operand,
) -> Option<&'a Operand>
    ensures found { option_map (λ it. literal_value it.now) result ≡ bound_of_sides side column op left.now right.now }
    ensures bounds { MatchOption result (Unit {0}) (λ it. SidesBound side column op left.now right.now (literal_value it.now)) }
{
    if is_column(left, column) && is_literal(right) && bounds(side, op) {
        Some(right)
    } else if is_column(right, column) && is_literal(left) && bounds(other_side(side), op) {
        Some(left)
    } else {
        None
    }
}

/// The literal that bounds a column in every row that all parts keep, of the first that says so.
#[cycle(bounded)]
fn bounded_by_parts(column: u8, side: Side, parts: &[Cond]) -> Option<&Operand>
    ensures found { option_map (λ it. literal_value it.now) result ≡ bound_in side parts.now column }
    ensures bounds { MatchOption result (Unit {0}) (λ it. PartsBound side column parts.now (literal_value it.now)) }
{
    for part in parts {
        if let Some(literal) = bounded_by(column, side, part) {
            return Some(literal);
        }
    }
    None
}

/// The literal that bounds a column in every row that the condition keeps, of the first of the parts that all hold which
/// says so.
#[cycle(bounded)]
fn bounded_by(column: u8, side: Side, cond: &Cond) -> Option<&Operand>
    ensures found { option_map (λ it. literal_value it.now) result ≡ bound_of side cond.now column }
    ensures bounds { MatchOption result (Unit {0}) (λ it. Bounds side column cond.now (literal_value it.now)) }
{
    match cond {
        Cond::Cmp { op, left, right } => bounded_with(column, side, *op, left, right),
        Cond::And(parts) => bounded_by_parts(column, side, parts.as_slice()),
        Cond::True | Cond::Or(_) | Cond::Not(_) => None,
    }
}

/// The value that bounds a column in every row that the condition keeps, of the first of the parts that all have to hold
/// which says so.
/// Cost: a pass over the condition.
pub fn bound_value(
    alloc: Global,
    column: u8,
    side: Side,
    cond: &Cond,
) -> Result<Option<Value>, NoMemory>
    ensures found { IfOk result (λ found. found ≡ bound_of side cond.now column) }
    ensures bounds { IfOk result (λ found. MatchOption found (Unit {0}) (Bounds side column cond.now)) }
{
    let Some(literal) = bounded_by(column, side, cond) else {
        return Ok(None);
    };
    Ok(Some(value_of(alloc, literal)?))
}
