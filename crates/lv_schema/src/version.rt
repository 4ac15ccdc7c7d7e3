//! Versions of rows.

use lv_values::{Copying, Items, NoMemory, Row};
use std::alloc::Global;

/// A row, the commit that brought it, and the commit that took it away, where one did. The commits come first: many looks
/// at versions are at them alone.
#[derive(Drop)]
pub struct RowVersion {
    pub from: u64,
    pub until: Option<u64>,
    pub row: Row,
}

/// Versions of the rows of a table or a view.
pub type RowVersions = Items<RowVersion>;

impl Copying for RowVersion {
    fn copy(&self, alloc: Global) -> Result<Self, NoMemory> {
        Ok(RowVersion {
            from: self.from,
            until: self.until,
            row: self.row.copy(alloc)?,
        })
    }
}
