//! Why a commit is refused: another one came first.

use lv_values::Row;

/// A key that the transaction wrote, and the last commit above its snapshot that wrote it too.
#[derive(Debug, Drop)]
pub struct Conflict {
    pub table: u32,
    pub key: Row,
    pub commit: u64,
}
