//! The net change of a table.

use lv_values::{Copying, Items, NoMemory, Rows};
use std::alloc::Global;

/// The rows that a table loses and those that it gains, each in the order of their keys.
#[derive(Drop)]
pub struct Net {
    pub minus: Rows,
    pub plus: Rows,
}

/// The net change of each table, each at the place of its number.
pub type Nets = Items<Net>;

impl Copying for Net {
    fn copy(&self, alloc: Global) -> Result<Self, NoMemory> {
        Ok(Net {
            minus: self.minus.copy(alloc)?,
            plus: self.plus.copy(alloc)?,
        })
    }
}
