//! Why a statement is refused.

use lv_values::{Copying, NoMemory, Row, Text};
use std::alloc::Global;
use thiserror::Error;

/// A limit of a statement or of the schema.
#[derive(Clone, Copy, Debug, PartialEq, Eq)]
pub enum LimitKind {
    /// Bytes of a name.
    Name,
    /// Tables of the schema.
    Tables,
    /// Views of the schema.
    Views,
    /// Columns of a table, or of a view's list.
    Columns,
    /// Tables and views that one FROM joins.
    Aliases,
    /// Comparisons of one statement.
    Comparisons,
    /// Bytes of a text literal.
    Text,
    /// Tuples of one INSERT.
    Tuples,
    /// Columns of a query's list.
    List,
    /// Columns of an ORDER BY.
    Order,
}

/// A rule on what a view may be.
#[derive(Clone, Copy, Debug, PartialEq, Eq)]
pub enum ProfileRule {
    /// FROM names tables alone.
    Base,
    /// A list with `SUM` or `COUNT` has a GROUP BY; and its plain columns are those of the GROUP BY, each of them listed.
    Group,
    /// A grouped view has exactly one `COUNT(*)`.
    Count,
    /// A view without GROUP BY lists each key column of each alias.
    Key,
}

/// Why a statement is refused, by the number of the fault. A statement that has several gets the lowest.
#[derive(Debug, Drop, Error)]
pub enum Fault {
    /// 1: the line is no statement; the first byte of what cannot stand, counted from 1.
    #[error("syntax error at byte {byte}")]
    Syntax { byte: u32 },
    /// 2: nothing has this name.
    #[error("unknown name")]
    Unknown { name: Text },
    /// 3: the column fits more than one alias.
    #[error("ambiguous name")]
    Ambiguous { name: Text },
    /// 4: the name is used already.
    #[error("name in use")]
    InUse { name: Text },
    /// 5: a number stands where a text belongs, or the other way round; or a tuple has not one value for each column.
    #[error("wrong kind at byte {byte}")]
    Kinds { byte: u32 },
    /// 6: a limit is passed.
    #[error("limit of {most} passed")]
    Limit { which: LimitKind, most: u32 },
    /// 7: the view is outside the profile.
    #[error("view outside the profile")]
    Profile { rule: ProfileRule },
    /// 8: CREATE outside the setup.
    #[error("only in the setup")]
    NotSetup,
    /// 9: a transaction is live already.
    #[error("a transaction is live")]
    InTransaction,
    /// 10: no transaction is live.
    #[error("no transaction is live")]
    NoTransaction,
    /// 11: SET names a key column.
    #[error("key column assigned")]
    KeyAssigned { name: Text },
    /// 12: a number outside signed 64 bits.
    #[error("number {number} out of range")]
    Range { number: i128 },
    /// 13: the key is in the table, or in an earlier tuple of the INSERT.
    #[error("duplicate key")]
    Duplicate { table: u32, key: Row },
    /// 14: the transaction's table would pass 65,535 rows.
    #[error("table full")]
    TableFull { table: u32 },
    /// 15: another transaction has committed a write of the key since the snapshot.
    #[error("conflict with commit {commit}")]
    Conflict { table: u32, key: Row, commit: u64 },
    /// 16: the table would pass 65,535 rows once merged.
    #[error("table full after the merge")]
    MergedFull { table: u32 },
    /// 17: the disk failed.
    #[error("store fault")]
    Store,
    /// 18: the journal would pass its limit.
    #[error("journal full: {need} bytes needed, limit {limit}")]
    JournalFull { need: u64, limit: u64 },
}

impl Copying for Fault {
    fn copy(&self, alloc: Global) -> Result<Self, NoMemory> {
        Ok(match self {
            Fault::Syntax { byte } => Fault::Syntax { byte: *byte },
            Fault::Unknown { name } => Fault::Unknown {
                name: name.copy(alloc)?,
            },
            Fault::Ambiguous { name } => Fault::Ambiguous {
                name: name.copy(alloc)?,
            },
            Fault::InUse { name } => Fault::InUse {
                name: name.copy(alloc)?,
            },
            Fault::Kinds { byte } => Fault::Kinds { byte: *byte },
            Fault::Limit { which, most } => Fault::Limit {
                which: *which,
                most: *most,
            },
            Fault::Profile { rule } => Fault::Profile { rule: *rule },
            Fault::NotSetup => Fault::NotSetup,
            Fault::InTransaction => Fault::InTransaction,
            Fault::NoTransaction => Fault::NoTransaction,
            Fault::KeyAssigned { name } => Fault::KeyAssigned {
                name: name.copy(alloc)?,
            },
            Fault::Range { number } => Fault::Range { number: *number },
            Fault::Duplicate { table, key } => Fault::Duplicate {
                table: *table,
                key: key.copy(alloc)?,
            },
            Fault::TableFull { table } => Fault::TableFull { table: *table },
            Fault::Conflict { table, key, commit } => Fault::Conflict {
                table: *table,
                key: key.copy(alloc)?,
                commit: *commit,
            },
            Fault::MergedFull { table } => Fault::MergedFull { table: *table },
            Fault::Store => Fault::Store,
            Fault::JournalFull { need, limit } => Fault::JournalFull {
                need: *need,
                limit: *limit,
            },
        })
    }
}
