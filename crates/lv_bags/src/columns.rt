//! The columns of a view that its rows and signed rows are made of.
ghost use Rattle.std.specs.Prelude.{◌≡◌, IfOk};
ghost use Rattle.std.specs.List.{filter_map};
ghost use Rattle.lv_schema.specs.Differences.{key_columns, summed_column, summed_columns};
ghost use Rattle.lv_schema.specs.JoinViews.{plain_column, plain_columns};

use lv_schema::{Col, Item, ViewDef};
use lv_values::NoMemory;
use std::alloc::{AllocError, Global};

/// The column that an item lists, if it is a column.
fn plain_column(item: &Item) -> Option<Col>
    ensures { result ≡ plain_column item.now }
{
    match item {
        Item::Plain { col, name: _ } => Some(*col),
        Item::Sum { .. } | Item::Count { .. } => None,
    }
}

/// The column that an item sums, if it is a sum.
fn summed_column(item: &Item) -> Option<Col>
    ensures { result ≡ summed_column item.now }
{
    match item {
        Item::Sum { col, name: _ } => Some(*col),
        Item::Plain { .. } | Item::Count { .. } => None,
    }
}

/// The columns that a list has as they are, in its order. Cost: linear.
pub fn plain_columns(alloc: Global, items: &[Item]) -> Result<Vec<Col>, NoMemory>
    ensures { IfOk result (λ cols. cols.items ≡ plain_columns items.now) }
{
    Ok(items.iter().filter_map(plain_column).collect(alloc)?)
}

/// The columns that a list sums, in its order.
fn summed_in(alloc: Global, items: &[Item]) -> Result<Vec<Col>, AllocError>
    ensures { IfOk result (λ cols. cols.items ≡ filter_map summed_column items.now) }
{
    items.iter().filter_map(summed_column).collect(alloc)
}

/// The columns that a view sums, in the order of its list. Cost: linear.
pub fn summed_columns(alloc: Global, view: &ViewDef) -> Result<Vec<Col>, NoMemory>
    ensures { IfOk result (λ cols. cols.items ≡ summed_columns view.now) }
{
    Ok(summed_in(alloc, view.items.as_slice())?)
}

/// The columns that tell the rows or groups of a view apart: those of GROUP BY, or those that a join view lists.
/// Cost: linear.
pub fn key_columns(alloc: Global, view: &ViewDef) -> Result<Vec<Col>, NoMemory>
    ensures { IfOk result (λ cols. cols.items ≡ key_columns view.now) }
{
    if view.grouped {
        return Ok(Vec::from_slice(alloc, view.groups.as_slice())?);
    }
    plain_columns(alloc, view.items.as_slice())
}
