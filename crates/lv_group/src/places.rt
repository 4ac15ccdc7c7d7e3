//! Values of a tuple in place.
ghost use Rattle.std.specs.Prelude.{◌≡◌, pos};
ghost use Rattle.lv_values.specs.Order.{value_cmp};
ghost use Rattle.lv_schema.specs.Groups.{number_at};
ghost use Rattle.lv_schema.specs.Tuples.{value_at};

use lv_schema::Col;
use lv_values::{Row, Value};
use std::cmp::Ordering;

/// The value in a column of an alias; where there is none, the number 0 that is passed.
fn value_in_place<'a>(tuple: &'a [Row], col: Col, zero: &'a Value) -> &'a Value
    requires { zero.now ≡ Value.Num (pos 0) }
    ensures { result.now ≡ value_at tuple.now col }
{
    match tuple.get(col.alias as usize) {
        None => zero,
        Some(row) => row.as_slice().get(col.column as usize).unwrap_or(zero),
    }
}

/// The number in a column of an alias, 0 where there is none.
pub(crate) fn number_at(tuple: &[Row], col: Col) -> i128
    ensures { result ≡ number_at col tuple.now }
{
    match value_in_place(tuple, col, &Value::Num(0)) {
        Value::Num(n) => *n,
        Value::Text(_) => 0,
    }
}

/// Compares a value of one tuple with a value of another.
pub(crate) fn compare_values(a: &[Row], col: Col, b: &[Row], other: Col) -> Ordering
    ensures { result ≡ value_cmp (value_at a.now col) (value_at b.now other) }
{
    let zero = Value::Num(0);
    value_in_place(a, col, &zero).cmp(value_in_place(b, other, &zero))
}
