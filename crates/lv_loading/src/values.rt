//! Which values a column may hold.
ghost use Rattle.std.specs.Prelude.{◌≡◌, ◌==◌, length};
ghost use Rattle.std.specs.List.{list_any};
ghost use Rattle.lv_values.specs.declared.value.Value.TheVariants.{Num, Text as Word};
ghost use Rattle.lv_schema.specs.Commits.{action_fits};
ghost use Rattle.lv_schema.specs.Databases.{is_int, is_line, row_fits, value_fits};

use lv_schema::{Action, Column, Kind, Schema};
use lv_values::{Row, Value};

fn has_line_feed(text: &[u8]) -> bool
    ensures { result ≡ list_any (λ b. b == 10) text.now }
{
    text.iter().any(|byte| *byte == b'\n')
}

/// Whether a column of texts may hold it.
pub(crate) fn is_line(text: &[u8]) -> bool
    ensures { result ≡ is_line text.now }
{
    text.len() <= 256 && !has_line_feed(text)
}

/// Whether a number has 64 bits.
fn is_int(number: i128) -> bool
    ensures { result ≡ is_int number }
{
    (i64::MIN as i128) <= number && number <= (i64::MAX as i128)
}

/// Whether a column of this kind may hold the number.
fn number_fits(kind: Kind, number: i128) -> bool
    ensures { result ≡ value_fits kind (Num number) }
{
    match kind {
        Kind::Int => is_int(number),
        Kind::Text => false,
        Kind::Big => true,
    }
}

/// Whether a column of this kind may hold the text.
fn text_fits(kind: Kind, text: &[u8]) -> bool
    ensures { result ≡ value_fits kind (Word text.now) }
{
    match kind {
        Kind::Text => is_line(text),
        Kind::Int | Kind::Big => false,
    }
}

/// Whether a column of this kind may hold the value.
fn value_fits(kind: Kind, value: &Value) -> bool
    ensures { result ≡ value_fits kind value.now }
{
    match value {
        Value::Num(number) => number_fits(kind, *number),
        Value::Text(text) => text_fits(kind, text.as_bytes()),
    }
}

/// Whether the values of a row, one for each column, are ones that the columns may hold.
fn values_fit(columns: &[Column], row: &Row) -> bool
    requires { length row.now ≡ length columns.now }
    ensures { result ≡ row_fits columns.now row.now }
{
    for (at, column) in columns.iter().enumerate() {
        if !value_fits(column.kind, row.get(at)) {
            return false;
        }
    }
    true
}

/// Whether a row has one value for each column, which the column may hold.
fn row_fits(columns: &[Column], row: &Row) -> bool
    ensures { result ≡ row_fits columns.now row.now }
{
    if row.len() == columns.len() {
        values_fit(columns, row)
    } else {
        false
    }
}

/// Whether an action is on a table in use, and its row fits the columns. Cost: a look at each value.
pub(crate) fn action_fits(schema: &Schema, action: &Action) -> bool
    ensures { result ≡ action_fits schema.now.tables action.now }
{
    action.table < schema.tables() && row_fits(schema.columns(action.table), &action.row)
}
