//! What is looked up of another alias for a row: the columns, and the values in them.
ghost use Rattle.std.specs.Prelude.{◌≡◌, ◌↔◌, ◌++◌, List, IsTrue, IfSome, IfNone, IfOk, OnOk};
ghost use Rattle.lv_values.specs.declared.value.Value.{Value as AValue};
ghost use Rattle.lv_values.specs.Order.{value_eq};
ghost use Rattle.lv_values.specs.Rows.{value_in};
ghost use Rattle.lv_reach.specs.Reach.{of_alias};
ghost use Rattle.lv_reach.specs.Walk.{columns_to, if_goes, values_to};

use crate::link::Link;
use crate::rows::{AliasRow, goes};
use lv_values::{Bytes, Copying, NoMemory, Row, Value};
use std::alloc::Global;

/// Puts a column behind the others, if a link goes from the one alias to the other.
fn add_column(
    columns: &mut Bytes,
    link: &Link,
    from: u8,
    to: u8,
    column: u8,
) -> Result<(), NoMemory>
    ensures { OnOk result (columns.new ≡ columns.old ++ if_goes link.now from to column) }
{
    if goes(link, from, to) {
        columns.push(column)?;
    }
    Ok(())
}

/// The columns of an alias in its links with another one, in their order. Cost: linear in the links.
#[tactic(auto, using(crate::proofs::Asking::columns_step))]
pub fn columns_to(alloc: Global, links: &[Link], from: u8, to: u8) -> Result<Bytes, NoMemory>
    ensures { IfOk result (λ columns. columns ≡ columns_to links.now from to) }
{
    let mut columns = Bytes::new(alloc);
    for link in links {
        add_column(&mut columns, link, from, to, link.right.column)?;
        add_column(&mut columns, link, to, from, link.left.column)?;
    }
    Ok(columns)
}

/// A copy of the value in a column, 0 past the row's end.
fn value_in(alloc: Global, row: &[Value], column: u8) -> Result<Value, NoMemory>
    ensures { IfOk result (λ value. value ≡ value_in row.now column) }
{
    match row.get(column as usize) {
        Some(value) => value.copy(alloc),
        None => Ok(Value::Num(0)),
    }
}

/// Puts a copy of the value in a column behind the others, if a link goes from the one alias to the other.
fn add_value(
    alloc: Global,
    values: &mut Row,
    link: &Link,
    from: u8,
    to: u8,
    row: &[Value],
    column: u8,
) -> Result<(), NoMemory>
    ensures { OnOk result (values.new ≡ values.old ++ if_goes link.now from to (value_in row.now column)) }
{
    if goes(link, from, to) {
        values.push(value_in(alloc, row, column)?)?;
    }
    Ok(())
}

/// Copies of the values of a row of an alias in that alias's links with another one, in their order. Cost: linear in
/// the links.
#[tactic(auto, using(crate::proofs::Asking::values_step))]
pub fn values_of(
    alloc: Global,
    links: &[Link],
    alias: u8,
    row: &Row,
    to: u8,
) -> Result<Row, NoMemory>
    ensures { IfOk result (λ values. values ≡ values_to links.now (of_alias alias row.now) to) }
{
    let mut values = Row::new(alloc);
    let row = row.as_slice();
    for link in links {
        add_value(alloc, &mut values, link, alias, to, row, link.left.column)?;
        add_value(alloc, &mut values, link, to, alias, row, link.right.column)?;
    }
    Ok(values)
}

/// Copies of a row's values in its alias's links with another alias, in their order.
pub(crate) fn values_to(
    alloc: Global,
    links: &[Link],
    a: &AliasRow,
    to: u8,
) -> Result<Row, NoMemory>
    ensures { IfOk result (λ values. values ≡ values_to links.now a.now to) }
{
    values_of(alloc, links, a.alias, &a.row, to)
}

/// Whether a value is that in a column of a row, 0 standing past the row's end.
fn is_value_in(value: &Value, row: &[Value], column: u8) -> bool
    ensures { result ≡ value_eq value.now (value_in row.now column) }
{
    let zero = Value::Num(0);
    let other = row.get(column as usize).unwrap_or(&zero);
    value == other
}

/// The values behind the one in a column, where a link goes from the one alias to the other; all of them where none goes.
/// There are none such where another value comes first.
fn behind_value<'a>(
    values: &'a [Value],
    link: &Link,
    from: u8,
    to: u8,
    row: &[Value],
    column: u8,
) -> Option<&'a [Value]>
    ensures some { IfSome result (λ rest. values.now ≡ if_goes link.now from to (value_in row.now column) ++ rest.now) }
    ensures none { IfNone result ((rest : List AValue) → values.now ≡ if_goes link.now from to (value_in row.now column) ++ rest → ⊥) }
{
    if !goes(link, from, to) {
        return Some(values);
    }
    let (first, rest) = values.split_first()?;
    if is_value_in(first, row, column) {
        Some(rest)
    } else {
        None
    }
}

/// The values behind those of a row in a link of its alias with another one. There are none such where others come first.
fn behind_link<'a>(values: &'a [Value], link: &Link, a: &AliasRow, to: u8) -> Option<&'a [Value]>
    ensures some { IfSome result (λ rest. values.now ≡ (if_goes link.now a.now.alias to (value_in a.now.row link.now.left.column) ++ if_goes link.now to a.now.alias (value_in a.now.row link.now.right.column)) ++ rest.now) }
    ensures none { IfNone result ((rest : List AValue) → values.now ≡ (if_goes link.now a.now.alias to (value_in a.now.row link.now.left.column) ++ if_goes link.now to a.now.alias (value_in a.now.row link.now.right.column)) ++ rest → ⊥) }
{
    let row = a.row.as_slice();
    let rest = behind_value(values, link, a.alias, to, row, link.left.column)?;
    behind_value(rest, link, to, a.alias, row, link.right.column)
}

/// Whether these are a row's values in its alias's links with another alias, in their order. They are compared where they
/// lie. Cost: linear in the links.
pub(crate) fn are_values_to(values: &[Value], links: &[Link], a: &AliasRow, to: u8) -> bool
    ensures { IsTrue result ↔ (values.now ≡ values_to links.now a.now to) }
{
    let mut rest = values;
    for link in links {
        match behind_link(rest, link, a, to) {
            Some(left) => rest = left,
            None => return false,
        }
    }
    rest.is_empty()
}
