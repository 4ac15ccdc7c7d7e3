//! The answer of a query.
ghost use Rattle.std.specs.Prelude.{◌≡◌, ℕ, map, IfOk};
ghost use Rattle.std.specs.List.{sum_by};
ghost use Rattle.lv_schema.specs.declared.directed.SortedRow.{SortedRow as ASortedRow};
ghost use Rattle.lv_schema.specs.Answers.{answer_over, directed, order_value, sorted_row};
ghost use Rattle.lv_schema.specs.JoinViews.{selected};

use crate::alone::found_among;
use lv_join::{Picked, Projection, join_in_any_order};
use lv_schema::{Directed, DirectedValues, HasRows, OrderCol, Query, SortedRow, listed, value_at};
use lv_values::{Items, NoMemory, Rows, Value};
use std::alloc::Global;

/// A value in the direction of its column.
fn directed(descending: bool, value: Value) -> Directed
    ensures { result ≡ directed descending value }
{
    if descending {
        Directed::Down(value)
    } else {
        Directed::Up(value)
    }
}

/// The values of the ORDER BY columns, in their directions.
pub(crate) fn order_values<T: HasRows + Copy>(
    alloc: Global,
    tuple: T,
    order: &[OrderCol],
) -> Result<DirectedValues, NoMemory>
    ensures { IfOk result (λ values. values ≡ map (order_value (T.rows tuple)) order.now) }
{
    let mut values = DirectedValues::new(alloc);
    for by in order {
        let value = value_at(alloc, tuple, by.col)?;
        values.push(directed(by.descending, value))?;
    }
    Ok(values)
}

/// The listed columns of a tuple, with what the answer is ordered by.
#[derive(Clone, Copy)]
struct ListedInOrder<'a> {
    query: &'a Query,
}

impl<'a> Projection<SortedRow> for ListedInOrder<'a> {
    ghost projected = { λ list tuple. sorted_row list.query.now tuple };

    fn project(&self, alloc: Global, tuple: &Picked<'_>) -> Result<SortedRow, NoMemory> {
        Ok(SortedRow {
            order: order_values(alloc, tuple, self.query.order.as_slice())?,
            row: listed(alloc, tuple, self.query.list.as_slice())?,
        })
    }
}

/// The listed rows. The list takes its room once.
fn listed_rows(alloc: Global, found: Items<SortedRow>) -> Result<Rows, NoMemory>
    ensures { IfOk result (λ rows. rows ≡ map (λ r. r.row) found) }
{
    let mut rows = Rows::from_vec(Vec::with_capacity(alloc, found.len())?);
    for sorted in found.into_vec() {
        rows.push(sorted.row)?;
    }
    Ok(rows)
}

/// The listed columns of the tuples that the condition keeps, in any order, with what the answer is ordered by.
fn found(alloc: Global, query: &Query, mut parts: Items<Rows>) -> Result<Items<SortedRow>, NoMemory>
    ensures { IfOk result (λ found. (weight : ASortedRow → ℕ) → sum_by weight found ≡ sum_by weight (map (sorted_row query.now) (selected query.now.cond parts))) }
{
    if parts.len() != 1 {
        let list = ListedInOrder { query };
        return join_in_any_order(alloc, parts.as_slice(), &query.cond, &list);
    }
    let rows = parts.replace(0, Rows::new(alloc));
    found_among(alloc, query, rows)
}

/// The answer of a query over the rows of each of its aliases: of the tuples that its condition keeps the listed
/// columns, equal rows as often as they occur. Without ORDER BY the rows ascend. With it they are in the order of
/// its columns, each up or down, and rows that tie there ascend.
///
/// Cost: of one alias a test of each row, and of more that of the join; n log n comparisons for n listed rows, none of them
/// more than once where they ascend; and one copy of each listed value and of each value to order by. Where the columns of
/// one alias are listed as they stand, its rows become the answer, and no listed value is copied.
pub fn answer(alloc: Global, query: &Query, parts: Items<Rows>) -> Result<Rows, NoMemory>
    ensures { IfOk result (λ rows. rows ≡ answer_over query.now parts) }
{
    let mut found = found(alloc, query, parts)?;
    found.sort();
    listed_rows(alloc, found)
}
