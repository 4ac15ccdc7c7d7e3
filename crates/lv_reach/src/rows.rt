//! Rows with the aliases that they stand for, and which of them agree.
ghost use Rattle.std.specs.Prelude.{◌≡◌};
ghost use Rattle.lv_values.specs.Order.{value_eq};
ghost use Rattle.lv_values.specs.Rows.{value_in};
ghost use Rattle.lv_reach.specs.Reach.{goes, are_linked, fit, all_fit, agree};

use crate::link::Link;
use lv_values::{Copying, Items, NoMemory, Row, Value};
use std::alloc::Global;

/// A row, and the alias that it stands for.
#[derive(Drop, PartialEq, Eq, Hash)]
pub struct AliasRow {
    pub alias: u8,
    pub row: Row,
}

/// Rows of aliases.
pub type AliasRows = Items<AliasRow>;

impl Copying for AliasRow {
    fn copy(&self, alloc: Global) -> Result<Self, NoMemory> {
        Ok(AliasRow {
            alias: self.alias,
            row: self.row.copy(alloc)?,
        })
    }
}

/// Whether a link goes from the one alias to the other.
pub(crate) fn goes(link: &Link, from: u8, to: u8) -> bool
    ensures { result ≡ goes link.now from to }
{
    link.left.alias == from && link.right.alias == to
}

/// Whether two aliases are linked, one way or the other. Cost: linear in the links.
pub fn are_linked(links: &[Link], a: u8, b: u8) -> bool
    ensures { result ≡ are_linked links.now a b }
{
    links
        .iter()
        .any(|link| goes(link, a, b) || goes(link, b, a))
}

/// Whether two rows have the same value in these columns, the number 0 standing past a row's end.
fn have_same_value(a: &[Value], left: u8, b: &[Value], right: u8) -> bool
    ensures { result ≡ value_eq (value_in a.now left) (value_in b.now right) }
{
    let zero = Value::Num(0);
    let first = a.get(left as usize).unwrap_or(&zero);
    let second = b.get(right as usize).unwrap_or(&zero);
    first == second
}

/// Whether two rows have equal values in both columns of a link, if it goes from the one's alias to the other's.
fn fit(link: &Link, a: &AliasRow, b: &AliasRow) -> bool
    ensures { result ≡ fit link.now a.now b.now }
{
    !goes(link, a.alias, b.alias)
        || have_same_value(
            a.row.as_slice(),
            link.left.column,
            b.row.as_slice(),
            link.right.column,
        )
}

/// Whether two rows have equal values in both columns of every link between their aliases.
fn all_fit(links: &[Link], a: &AliasRow, b: &AliasRow) -> bool
    ensures { result ≡ all_fit links.now a.now b.now }
{
    links.iter().all(|link| fit(link, a, b) && fit(link, b, a))
}

/// Whether two rows agree: their aliases are linked, and they have equal values in both columns of every link between
/// them. Cost: linear in the links.
pub fn agree(links: &[Link], a: &AliasRow, b: &AliasRow) -> bool
    ensures { result ≡ agree links.now a.now b.now }
{
    are_linked(links, a.alias, b.alias) && all_fit(links, a, b)
}
