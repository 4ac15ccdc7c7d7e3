//! Databases, and live transactions over them.

use crate::action::Actions;
use lv_values::{Items, Rows};

/// A database: the rows of each table, at the place of the table's number, in the order of their keys.
pub type Database = Items<Rows>;

/// A live transaction: the commit whose state it reads, its own database, its actions in order, and how many of its
/// changes were accepted.
#[derive(Drop)]
pub struct Open {
    pub snapshot: u64,
    pub own: Database,
    pub actions: Actions,
    pub changes: u32,
}
