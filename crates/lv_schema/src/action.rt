//! Actions on rows, and the entries that a commit leaves of them.

use lv_values::{Copying, Items, NoMemory, Row};
use std::alloc::Global;

/// Whether a row comes or goes.
#[derive(Clone, Copy, Debug, PartialEq, Eq)]
pub enum ActionKind {
    Insert,
    Delete,
}

/// One row that comes to a table or leaves it, by the transaction's change of this number, counted from 1.
#[derive(Drop)]
pub struct Action {
    pub table: u32,
    pub statement: u32,
    pub kind: ActionKind,
    pub row: Row,
}

/// Actions in the order in which they were taken.
pub type Actions = Items<Action>;

/// An action of the commit of this number.
#[derive(Drop)]
pub struct DeltaEntry {
    pub number: u64,
    pub action: Action,
}

/// Entries by commit, and within a commit in the order of its actions.
pub type DeltaEntries = Items<DeltaEntry>;

impl Copying for Action {
    fn copy(&self, alloc: Global) -> Result<Self, NoMemory> {
        Ok(Action {
            table: self.table,
            statement: self.statement,
            kind: self.kind,
            row: self.row.copy(alloc)?,
        })
    }
}

impl Copying for DeltaEntry {
    fn copy(&self, alloc: Global) -> Result<Self, NoMemory> {
        Ok(DeltaEntry {
            number: self.number,
            action: self.action.copy(alloc)?,
        })
    }
}
