//! A disk that is not opened.

use lv_journal::JFault;
use lv_outside::Disk;

/// A disk that gave no engine, and why.
#[derive(Drop)]
pub struct Reopen<D: Disk> {
    /// The disk.
    pub disk: D,
    /// Why.
    pub cause: JFault,
}
