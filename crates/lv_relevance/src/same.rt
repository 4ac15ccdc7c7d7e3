//! Rows that are the same in some columns.
ghost use Rattle.std.specs.Prelude.{◌≡◌};
ghost use Rattle.std.specs.Cmp.Lexicographic.{pointwise};
ghost use Rattle.lv_values.specs.Order.{value_eq};
ghost use Rattle.lv_values.specs.Rows.{value_in};
ghost use Rattle.lv_relevance.specs.Relevance.{is_untold, same_at, same_in};

use lv_schema::{Col, Part};
use lv_values::{Row, Value};

/// Whether two rows have equal values in a column, the number 0 standing past a row's end.
fn have_same_value(a: &Row, b: &Row, column: u8) -> bool
    ensures { result ≡ value_eq (value_in a.now column) (value_in b.now column) }
{
    let zero = Value::Num(0);
    let first = a.as_slice().get(column as usize).unwrap_or(&zero);
    let second = b.as_slice().get(column as usize).unwrap_or(&zero);
    first == second
}

/// Whether a column is of another alias, or two rows have equal values in it, the number 0 standing past a row's end. Cost: that
/// of comparing two values.
pub fn is_same_at(alias: usize, a: &Row, b: &Row, col: &Col) -> bool
    ensures { result ≡ same_at alias a.now b.now col.now }
{
    col.alias as usize != alias || have_same_value(a, b, col.column)
}

/// Whether two rows have equal values in each of these columns that is of this alias.
fn is_same_in(cols: &[Col], alias: usize, a: &Row, b: &Row) -> bool
    ensures { result ≡ same_in cols.now alias a.now b.now }
{
    cols.iter().all(|col| is_same_at(alias, a, b, col))
}

/// Whether these are as many rows as those, and each is the same as the one in its place.
fn are_same_in(cols: &[Col], alias: usize, rows: &[Row], others: &[Row]) -> bool
    ensures { result ≡ pointwise (same_in cols.now alias) rows.now others.now }
{
    if rows.len() != others.len() {
        return false;
    }
    for i in 0..rows.len() {
        if !is_same_in(cols, alias, &rows[i], &others[i]) {
            return false;
        }
    }
    true
}

/// Whether these columns do not show the changes of an alias.
pub(crate) fn is_untold(cols: &[Col], alias: usize, part: &Part) -> bool
    ensures { result ≡ is_untold cols.now alias part.now }
{
    are_same_in(cols, alias, part.minus.as_slice(), part.plus.as_slice())
}
