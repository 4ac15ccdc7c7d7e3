//! Views.

use crate::cond::{Col, Cols, Cond};
use lv_values::{Copying, Items, NoMemory, Text};
use std::alloc::Global;

/// One item of a view's list, with the name of the column that it gives.
#[derive(Drop)]
pub enum Item {
    /// A column.
    Plain { col: Col, name: Text },
    /// The sum of a column of numbers over the tuples of a group.
    Sum { col: Col, name: Text },
    /// The number of tuples of a group.
    Count { name: Text },
}

impl Item {
    ghost use Rattle.std.specs.Prelude.{◌≡◌};
    ghost use Rattle.lv_schema.specs.Bound.{item_name};

    /// The name of the column that the item gives.
    pub fn name(&self) -> &Text
        ensures { result.now ≡ item_name self.now }
    {
        match self {
            Item::Plain { name, .. } | Item::Sum { name, .. } | Item::Count { name } => name,
        }
    }
}

/// A view's list.
pub type ViewItems = Items<Item>;

/// Tables by their numbers.
pub type TableNumbers = Items<u32>;

/// A view: its number, counted from 0 in the order of creation, its name in lower case, the last commit at its
/// creation, the table of each alias, its condition, its list, and the columns of GROUP BY where it has one.
#[derive(Drop)]
pub struct ViewDef {
    pub no: u32,
    pub name: Text,
    pub created: u64,
    pub tables: TableNumbers,
    pub cond: Cond,
    pub items: ViewItems,
    pub grouped: bool,
    pub groups: Cols,
}

/// Views, each at the place of its number.
pub type ViewDefs = Items<ViewDef>;

impl Copying for Item {
    fn copy(&self, alloc: Global) -> Result<Self, NoMemory> {
        match self {
            Item::Plain { col, name } => Ok(Item::Plain {
                col: *col,
                name: name.copy(alloc)?,
            }),
            Item::Sum { col, name } => Ok(Item::Sum {
                col: *col,
                name: name.copy(alloc)?,
            }),
            Item::Count { name } => Ok(Item::Count {
                name: name.copy(alloc)?,
            }),
        }
    }
}

impl Copying for ViewDef {
    fn copy(&self, alloc: Global) -> Result<Self, NoMemory> {
        Ok(ViewDef {
            no: self.no,
            name: self.name.copy(alloc)?,
            created: self.created,
            tables: self.tables.copy(alloc)?,
            cond: self.cond.copy(alloc)?,
            items: self.items.copy(alloc)?,
            grouped: self.grouped,
            groups: self.groups.copy(alloc)?,
        })
    }
}
