//! Fault 12, as far as it is seen in the statement: numbers outside signed 64 bits.
ghost use Rattle.std.specs.Prelude.{◌≡◌};
ghost use Rattle.std.specs.List.{flat_map};
ghost use Rattle.lv_schema.specs.Databases.{is_int};
ghost use Rattle.lv_bind.specs.Ranges.{wide_value, wide_tuple, wide_assign, ranges};
ghost use Rattle.lv_bind.specs.Sources.{first};

use lv_parser::{Assign, AssignValue, Literal, Stmt, Tuple};
use lv_values::Value;

fn is_int(number: i128) -> bool
    ensures { result ≡ is_int number }
{
    number >= i128::from(i64::MIN) && number <= i128::from(i64::MAX)
}

fn wide_value(value: &Value) -> Option<i128>
    ensures { result ≡ first (wide_value value.now) }
{
    match value {
        Value::Num(number) if !is_int(*number) => Some(*number),
        _ => None,
    }
}

fn wide_among(values: &[Literal]) -> Option<i128>
    ensures { result ≡ first (flat_map (λ l. wide_value l.value) values.now) }
{
    for literal in values {
        if let Some(number) = wide_value(&literal.value) {
            return Some(number);
        }
    }
    None
}

fn wide_inserted(tuples: &[Tuple]) -> Option<i128>
    ensures { result ≡ first (flat_map wide_tuple tuples.now) }
{
    for tuple in tuples {
        if let Some(number) = wide_among(tuple.values.as_slice()) {
            return Some(number);
        }
    }
    None
}

fn wide_assign(value: &AssignValue) -> Option<i128>
    ensures { result ≡ first (wide_assign value.now) }
{
    match value {
        AssignValue::Literal(literal) => wide_value(&literal.value),
        AssignValue::Column(_) | AssignValue::Plus { .. } => None,
    }
}

fn wide_set(sets: &[Assign]) -> Option<i128>
    ensures { result ≡ first (flat_map (λ a. wide_assign a.value) sets.now) }
{
    for assign in sets {
        if let Some(number) = wide_assign(&assign.value) {
            return Some(number);
        }
    }
    None
}

/// The first number in VALUES or SET that is outside signed 64 bits.
pub(crate) fn wide(stmt: &Stmt) -> Option<i128>
    ensures { result ≡ first (ranges stmt.now) }
{
    match stmt {
        Stmt::Insert { tuples, .. } => wide_inserted(tuples.as_slice()),
        Stmt::Update { sets, .. } => wide_set(sets.as_slice()),
        _ => None,
    }
}
