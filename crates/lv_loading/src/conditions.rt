//! Whether the comparisons of a condition can be made.
ghost use Rattle.std.specs.Prelude.{◌≡◌, map, option_map};
ghost use Rattle.std.specs.List.{list_all};
ghost use Rattle.lv_schema.specs.Bound.{alias_columns, both_are, compares, is_text, kind_at, operand_text};

use crate::values::is_line;
use lv_schema::{Col, Cond, Kind, Operand, Schema};

/// The kind of a column of these aliases, which there is where the column is in range. Cost: constant.
pub(crate) fn kind_at(schema: &Schema, tables: &[u32], col: Col) -> Option<Kind>
    ensures { result ≡ kind_at (alias_columns schema.now.tables tables.now) col }
{
    let table = tables.get(col.alias as usize)?;
    let column = schema.columns(*table).get(col.column as usize)?;
    Some(column.kind)
}

fn is_text(kind: Kind) -> bool
    ensures { result ≡ is_text kind }
{
    match kind {
        Kind::Text => true,
        Kind::Int | Kind::Big => false,
    }
}

/// Whether a column of these aliases is a text, if it is in range.
fn column_text(schema: &Schema, tables: &[u32], col: Col) -> Option<bool>
    ensures { result ≡ option_map is_text (kind_at (alias_columns schema.now.tables tables.now) col) }
{
    match kind_at(schema, tables, col) {
        Some(kind) => Some(is_text(kind)),
        None => None,
    }
}

/// Whether an operand is a text, if its column is in range and its text inside the limit.
fn operand_text(schema: &Schema, tables: &[u32], operand: &Operand) -> Option<bool>
    ensures { result ≡ operand_text (alias_columns schema.now.tables tables.now) operand.now }
{
    match operand {
        Operand::Column(col) => column_text(schema, tables, *col),
        Operand::Number(_) => Some(false),
        Operand::Text(text) => {
            if is_line(text.as_bytes()) {
                Some(true)
            } else {
                None
            }
        }
    }
}

/// Whether two operands may be compared: both are texts, or both are numbers.
fn both_are(left: Option<bool>, right: Option<bool>) -> bool
    ensures { result ≡ both_are left right }
{
    match (left, right) {
        (Some(a), Some(b)) => a == b,
        _ => false,
    }
}

#[cycle(compares)]
fn all_compare(schema: &Schema, tables: &[u32], parts: &[Cond]) -> bool
    ensures { result ≡ list_all (λ part. part) (map (compares (alias_columns schema.now.tables tables.now)) parts.now) }
{
    for part in parts {
        if !compares(schema, tables, part) {
            return false;
        }
    }
    true
}

/// Whether each comparison of a condition over these aliases may be made. Cost: a look at each comparison.
#[cycle(compares)]
pub(crate) fn compares(schema: &Schema, tables: &[u32], cond: &Cond) -> bool
    ensures { result ≡ compares (alias_columns schema.now.tables tables.now) cond.now }
{
    match cond {
        Cond::True => true,
        Cond::Cmp { left, right, .. } => both_are(
            operand_text(schema, tables, left),
            operand_text(schema, tables, right),
        ),
        Cond::And(parts) | Cond::Or(parts) => all_compare(schema, tables, parts.as_slice()),
        Cond::Not(part) => compares(schema, tables, part.get()),
    }
}
