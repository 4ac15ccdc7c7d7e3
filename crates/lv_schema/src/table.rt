//! Tables.

use lv_values::{Copying, Items, NoMemory, Text};
use std::alloc::Global;

/// What a column holds.
#[derive(Clone, Copy, Debug, PartialEq, Eq)]
pub enum Kind {
    /// A signed number of 64 bits.
    Int,
    /// A text of at most 256 bytes without a line feed.
    Text,
    /// A signed number of 128 bits. It occurs only in sums and counts of views.
    Big,
}

/// One column: its name in lower case, and what it holds.
#[derive(Drop)]
pub struct Column {
    pub name: Text,
    pub kind: Kind,
}

/// Columns, numbered from 0.
pub type Columns = Items<Column>;

/// Positions of columns in their table.
pub type Positions = Items<u8>;

/// A table: its number, counted from 0 in the order of creation, its name in lower case, its columns, and the
/// positions of its key.
#[derive(Drop)]
pub struct TableDef {
    pub no: u32,
    pub name: Text,
    pub columns: Columns,
    pub key: Positions,
}

/// Tables, each at the place of its number.
pub type TableDefs = Items<TableDef>;

impl Copying for Column {
    fn copy(&self, alloc: Global) -> Result<Self, NoMemory> {
        Ok(Column {
            name: self.name.copy(alloc)?,
            kind: self.kind,
        })
    }
}

impl Copying for TableDef {
    fn copy(&self, alloc: Global) -> Result<Self, NoMemory> {
        Ok(TableDef {
            no: self.no,
            name: self.name.copy(alloc)?,
            columns: self.columns.copy(alloc)?,
            key: self.key.copy(alloc)?,
        })
    }
}
