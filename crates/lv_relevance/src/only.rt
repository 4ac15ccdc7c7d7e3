//! Whether a view uses no other columns of an alias than some.
ghost use Rattle.std.specs.Prelude.{◌≡◌, ◌++◌, map};
ghost use Rattle.std.specs.List.{filter_map, list_all};
ghost use Rattle.lv_schema.specs.Differences.{key_columns, summed_column, summed_columns};
ghost use Rattle.lv_schema.specs.JoinViews.{plain_column, plain_columns};
ghost use Rattle.lv_relevance.specs.Relevance.{columns_of, is_among, is_among_if, joined, operand_columns, uses_only};

use lv_schema::{Col, Cond, Item, Operand, ViewDef};

/// Whether a column is of another alias, or is among these.
fn is_among(alias: u8, columns: &[u8], col: &Col) -> bool
    ensures { result ≡ is_among alias columns.now col.now }
{
    col.alias != alias || columns.contains(&col.column)
}

/// Whether each of some columns is.
fn are_among(alias: u8, columns: &[u8], cols: &[Col]) -> bool
    ensures { result ≡ list_all (is_among alias columns.now) cols.now }
{
    cols.iter().all(|col| is_among(alias, columns, col))
}

/// Whether one side of a comparison names no other column of an alias than these.
fn operand_is_among(alias: u8, columns: &[u8], operand: &Operand) -> bool
    ensures { result ≡ list_all (is_among alias columns.now) (operand_columns operand.now) }
{
    match operand {
        Operand::Column(col) => is_among(alias, columns, col),
        Operand::Number(_) | Operand::Text(_) => true,
    }
}

/// Whether a comparison names no other columns of an alias than these.
fn operands_are_among(alias: u8, columns: &[u8], left: &Operand, right: &Operand) -> bool
    ensures { result ≡ list_all (is_among alias columns.now) (operand_columns left.now ++ operand_columns right.now) }
{
    operand_is_among(alias, columns, left) && operand_is_among(alias, columns, right)
}

#[cycle(names)]
fn each_names_only(alias: u8, columns: &[u8], parts: &[Cond]) -> bool
    ensures { result ≡ list_all (is_among alias columns.now) (joined (map columns_of parts.now)) }
{
    for part in parts {
        if !names_only(alias, columns, part) {
            return false;
        }
    }
    true
}

/// Whether a condition names no other columns of an alias than these.
#[cycle(names)]
fn names_only(alias: u8, columns: &[u8], cond: &Cond) -> bool
    ensures { result ≡ list_all (is_among alias columns.now) (columns_of cond.now) }
{
    match cond {
        Cond::True => true,
        Cond::Cmp { op: _, left, right } => operands_are_among(alias, columns, left, right),
        Cond::And(parts) | Cond::Or(parts) => each_names_only(alias, columns, parts.as_slice()),
        Cond::Not(part) => names_only(alias, columns, part.get()),
    }
}

/// Whether an item lists no other column of an alias than these as it is.
fn plain_is_among(alias: u8, columns: &[u8], item: &Item) -> bool
    ensures { result ≡ is_among_if alias columns.now (plain_column item.now) }
{
    match item {
        Item::Plain { col, name: _ } => is_among(alias, columns, col),
        Item::Sum { .. } | Item::Count { .. } => true,
    }
}

/// Whether an item sums no other column of an alias than these.
fn summed_is_among(alias: u8, columns: &[u8], item: &Item) -> bool
    ensures { result ≡ is_among_if alias columns.now (summed_column item.now) }
{
    match item {
        Item::Sum { col, name: _ } => is_among(alias, columns, col),
        Item::Plain { .. } | Item::Count { .. } => true,
    }
}

/// Whether a list has no other columns of an alias than these as they are.
fn lists_only(alias: u8, columns: &[u8], items: &[Item]) -> bool
    ensures { result ≡ list_all (is_among alias columns.now) (plain_columns items.now) }
{
    for item in items {
        if !plain_is_among(alias, columns, item) {
            return false;
        }
    }
    true
}

/// Whether a list sums no other columns of an alias than these.
fn sums_only(alias: u8, columns: &[u8], items: &[Item]) -> bool
    ensures { result ≡ list_all (is_among alias columns.now) (filter_map summed_column items.now) }
{
    for item in items {
        if !summed_is_among(alias, columns, item) {
            return false;
        }
    }
    true
}

/// Whether no other columns of an alias than these tell the rows or groups of a view apart.
fn keys_are_among(alias: u8, columns: &[u8], view: &ViewDef) -> bool
    ensures { result ≡ list_all (is_among alias columns.now) (key_columns view.now) }
{
    if view.grouped {
        return are_among(alias, columns, view.groups.as_slice());
    }
    lists_only(alias, columns, view.items.as_slice())
}

/// Whether a view uses no other columns of an alias than these: it tests, lists and sums no other. Cost: linear in the view,
/// times these columns.
pub fn uses_only(view: &ViewDef, alias: u8, columns: &[u8]) -> bool
    ensures { result ≡ uses_only view.now alias columns.now }
{
    names_only(alias, columns, &view.cond)
        && keys_are_among(alias, columns, view)
        && sums_only(alias, columns, view.items.as_slice())
}
