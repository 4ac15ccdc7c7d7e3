//! SELECT, bound against a schema.

use crate::cond::{Col, Cols, Cond};
use lv_values::{Copying, Items, NoMemory};
use std::alloc::Global;

/// What an alias of a query stands for.
#[derive(Clone, Copy, Debug, PartialEq, Eq)]
pub enum Rel {
    /// The table of this number.
    Table(u32),
    /// The view of this number.
    View(u32),
}

/// The tables and views of FROM, one for each alias.
pub type Rels = Items<Rel>;

/// A column of ORDER BY: the order goes down by it, or up.
#[derive(Clone, Copy, Debug, PartialEq, Eq)]
pub struct OrderCol {
    pub col: Col,
    pub descending: bool,
}

/// The columns of ORDER BY, the first deciding first.
pub type OrderCols = Items<OrderCol>;

/// A query: what each alias stands for, the condition, the listed columns, and the columns of ORDER BY.
#[derive(Drop)]
pub struct Query {
    pub rels: Rels,
    pub cond: Cond,
    pub list: Cols,
    pub order: OrderCols,
}

impl Copying for Rel {
    fn copy(&self, _alloc: Global) -> Result<Self, NoMemory> {
        Ok(*self)
    }
}

impl Copying for OrderCol {
    fn copy(&self, _alloc: Global) -> Result<Self, NoMemory> {
        Ok(*self)
    }
}
