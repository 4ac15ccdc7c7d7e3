//! What a step of a view is computed from.

use lv_values::{Copying, Items, NoMemory, Rows};
use std::alloc::Global;

/// Of one alias the rows of its table before the step, those of them that go, and those that come, each in the order
/// of their keys.
#[derive(Drop)]
pub struct Part {
    pub old: Rows,
    pub minus: Rows,
    pub plus: Rows,
}

/// A part for each alias.
pub type Parts = Items<Part>;

impl Copying for Part {
    fn copy(&self, alloc: Global) -> Result<Self, NoMemory> {
        Ok(Part {
            old: self.old.copy(alloc)?,
            minus: self.minus.copy(alloc)?,
            plus: self.plus.copy(alloc)?,
        })
    }
}
