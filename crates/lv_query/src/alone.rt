//! Answers over the rows of one alias.
ghost use Rattle.std.specs.Prelude.{◌≡◌, ◌∷◌, [], true, map, IfOk};
ghost use Rattle.lv_schema.specs.Answers.{sorted_row};
ghost use Rattle.lv_schema.specs.Effects.{matching};
ghost use Rattle.lv_schema.specs.Tuples.{listed};
ghost use Rattle.lv_query.specs.Whole.{alone, whole_from};

use crate::answers::order_values;
use lv_schema::{Col, Query, SortedRow, holds, listed};
use lv_values::{Items, NoMemory, Row, Rows};
use std::alloc::Global;
use std::slice::from_ref;

/// Whether these are the first columns of the first alias, as they stand.
fn is_whole(list: &[Col]) -> bool
    ensures { result ≡ whole_from 0 list.now }
{
    for (i, col) in list.iter().enumerate() {
        if col.alias != 0 || col.column as usize != i {
            return false;
        }
    }
    true
}

/// The listed columns of a row: the row itself, where they are all of its columns as they stand.
fn listed_row(alloc: Global, list: &[Col], is_whole: bool, row: Row) -> Result<Row, NoMemory>
    requires { is_whole ≡ true → whole_from 0 list.now ≡ true }
    ensures { IfOk result (λ values. values ≡ listed list.now (row ∷ [])) }
{
    if is_whole && row.len() == list.len() {
        return Ok(row);
    }
    listed(alloc, from_ref(&row), list)
}

/// The listed columns of a row, with what the answer is ordered by.
fn sorted_row(alloc: Global, query: &Query, is_whole: bool, row: Row) -> Result<SortedRow, NoMemory>
    requires { is_whole ≡ true → whole_from 0 query.now.list ≡ true }
    ensures { IfOk result (λ sorted. sorted ≡ sorted_row query.now (row ∷ [])) }
{
    let order = order_values(alloc, from_ref(&row), query.order.as_slice())?;
    let row = listed_row(alloc, query.list.as_slice(), is_whole, row)?;
    Ok(SortedRow { order, row })
}

/// Of these rows those that the condition keeps, with their listed columns and what the answer is ordered by. Cost: a test
/// of each row, and a copy of each listed value and of each value to order by; where the columns are listed as they stand,
/// the rows move.
pub(crate) fn found_among(
    alloc: Global,
    query: &Query,
    rows: Rows,
) -> Result<Items<SortedRow>, NoMemory>
    ensures { IfOk result (λ found. found ≡ map (sorted_row query.now) (map alone (matching query.now.cond rows))) }
{
    let is_whole = is_whole(query.list.as_slice());
    let mut found = Items::from_vec(Vec::with_capacity(alloc, rows.len())?);
    for row in rows.into_vec() {
        if holds(&query.cond, from_ref(&row)) {
            found.push(sorted_row(alloc, query, is_whole, row)?)?;
        }
    }
    Ok(found)
}
