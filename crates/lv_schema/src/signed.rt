//! Signed rows: what becomes of the rows or groups of a view.

use lv_values::{Copying, Items, NoMemory, Row, Rows};
use std::alloc::Global;

/// Signed sums, modulo 2 ^ 128, wrapped to 128 bits.
pub type Sums = Items<i128>;

/// A row of a join view, or a group of a grouped view by the values of its columns, with a signed number of
/// tuples and a signed sum for each SUM of the view, in the order of its list. A join view has no sums.
#[derive(Drop)]
pub struct SignedRow {
    pub count: i128,
    pub row: Row,
    pub sums: Sums,
}

/// Signed rows.
pub type Signed = Items<SignedRow>;

/// Tuples of rows, one row for each alias.
pub type Joined = Items<Rows>;

impl Copying for SignedRow {
    fn copy(&self, alloc: Global) -> Result<Self, NoMemory> {
        Ok(SignedRow {
            row: self.row.copy(alloc)?,
            count: self.count,
            sums: self.sums.copy(alloc)?,
        })
    }
}
