//! Rows of groups.
ghost use Rattle.std.specs.Prelude.{◌≡◌, ◌<◌, ◌≤◌, ◌+◌, ◌++◌, ◌∷◌, List, map, drop, IfOk, OnOk};
ghost use Rattle.lv_schema.specs.declared.view.Item.{Item};
ghost use Rattle.lv_group.specs.Gathered.{group_value, listed_values};

use lv_schema::{Col, Item, SignedRow};
use lv_values::{Copying, NoMemory, Row, Rows, Value};
use std::alloc::Global;

/// A copy of the value that a group has in one of the columns that tell groups apart, the number 0 in any other.
fn group_value(alloc: Global, by: &[Col], group: &[Value], col: Col) -> Result<Value, NoMemory>
    ensures { IfOk result (λ value. value ≡ group_value by.now group.now col) }
{
    for (i, other) in by.iter().enumerate() {
        if i >= group.len() {
            return Ok(Value::Num(0));
        }
        if col == *other {
            return group[i].copy(alloc);
        }
    }
    Ok(Value::Num(0))
}

/// Adds the value that an item lists of a group, of which this many sums are listed already.
fn push_item(
    alloc: Global,
    by: &[Col],
    item: &Item,
    group: &SignedRow,
    sums: &mut usize,
    row: &mut Row,
) -> Result<(), NoMemory>
    requires { sums.old < usize.MAX }
    ensures values { OnOk result ((items : List Item) → row.new ++ listed_values by.now group.now items (drop sums.new group.now.sums) ≡ row.old ++ listed_values by.now group.now (item.now ∷ items) (drop sums.old group.now.sums)) }
    ensures sums { sums.new ≤ sums.old + 1 }
{
    match item {
        Item::Plain { col, name: _ } => {
            row.push(group_value(alloc, by, group.row.as_slice(), *col)?)
        }
        Item::Sum { col: _, name: _ } => {
            let sum = group.sums.as_slice().get(*sums).copied().unwrap_or(0);
            *sums += 1;
            row.push(Value::Num(sum))
        }
        Item::Count { name: _ } => row.push(Value::Num(group.count)),
    }
}

/// Puts the values that a view lists of a group into a row, in place of those there. Cost: a copy of each listed value;
/// where the row has room for them and they are numbers, no memory.
pub fn list_into(
    alloc: Global,
    by: &[Col],
    items: &[Item],
    group: &SignedRow,
    row: &mut Row,
) -> Result<(), NoMemory>
    ensures { OnOk result (row.new ≡ listed_values by.now group.now items.now group.now.sums) }
{
    row.clear();
    let mut sums = 0;
    for item in items {
        push_item(alloc, by, item, group, &mut sums, row)?;
    }
    Ok(())
}

/// The values that a view lists of a group, told from the columns that tell its groups apart and its list. Cost: a copy
/// of each listed value.
pub fn listed_row(
    alloc: Global,
    by: &[Col],
    items: &[Item],
    group: &SignedRow,
) -> Result<Row, NoMemory>
    ensures { IfOk result (λ row. row ≡ listed_values by.now group.now items.now group.now.sums) }
{
    let mut row = Row::from_vec(Vec::with_capacity(alloc, items.len())?);
    list_into(alloc, by, items, group, &mut row)?;
    Ok(row)
}

/// The listed values of each group.
pub(crate) fn listed_rows(
    alloc: Global,
    by: &[Col],
    items: &[Item],
    groups: &[SignedRow],
) -> Result<Rows, NoMemory>
    ensures { IfOk result (λ rows. rows ≡ map (λ group. listed_values by.now group items.now group.sums) groups.now) }
{
    let mut rows = Rows::new(alloc);
    for group in groups {
        rows.push(listed_row(alloc, by, items, group)?)?;
    }
    Ok(rows)
}
