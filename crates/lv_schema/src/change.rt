//! INSERT, UPDATE and DELETE, bound against a schema.

use crate::cond::Cond;
use lv_values::{Copying, Items, NoMemory, Rows, Value};
use std::alloc::Global;

/// What a column is set to. Columns are those of the old row.
#[derive(Drop)]
pub enum SetValue {
    /// A value.
    Literal(Value),
    /// The value of a column.
    Column(u8),
    /// The number in a column and this amount; behind a `-` the amount is the number negated.
    Plus { column: u8, amount: i128 },
}

/// One column that an UPDATE sets.
#[derive(Drop)]
pub struct Set {
    pub column: u8,
    pub value: SetValue,
}

/// The columns that an UPDATE sets.
pub type Sets = Items<Set>;

/// A change of one table.
#[derive(Drop)]
pub enum Change {
    Insert { table: u32, rows: Rows },
    Update { table: u32, sets: Sets, cond: Cond },
    Delete { table: u32, cond: Cond },
}

impl Copying for SetValue {
    fn copy(&self, alloc: Global) -> Result<Self, NoMemory> {
        match self {
            SetValue::Literal(value) => Ok(SetValue::Literal(value.copy(alloc)?)),
            SetValue::Column(column) => Ok(SetValue::Column(*column)),
            SetValue::Plus { column, amount } => Ok(SetValue::Plus {
                column: *column,
                amount: *amount,
            }),
        }
    }
}

impl Copying for Set {
    fn copy(&self, alloc: Global) -> Result<Self, NoMemory> {
        Ok(Set {
            column: self.column,
            value: self.value.copy(alloc)?,
        })
    }
}
