//! A statement, bound against a schema.

use crate::change::Change;
use crate::query::Query;
use crate::table::TableDef;
use crate::view::ViewDef;

/// A bound statement.
#[derive(Drop)]
pub enum Bound {
    /// CREATE TABLE.
    Table(TableDef),
    /// CREATE VIEW. The commit of the creation is still 0.
    View(ViewDef),
    /// INSERT, UPDATE or DELETE.
    Change(Change),
    /// SELECT.
    Query(Query),
    Begin,
    Commit,
    Rollback,
    /// SHOW TASKS.
    Tasks,
}
