//! Why a journal is not opened.
ghost use Rattle.std.specs.Prelude.{◌≡◌};

use lv_outside::{Disk, Failed};
use lv_values::NoMemory;
use thiserror::Error;

/// Why a journal gives no record.
#[derive(Clone, Copy, Debug, PartialEq, Eq, Error)]
pub enum JFault {
    /// The disk failed.
    #[error("the disk failed")]
    Failed,
    /// The bytes are no journal.
    #[error("bad journal at byte {offset}")]
    Bad {
        /// Where: 0 where the magic is not there, the place of a gate that is not there, or of a frame behind an open
        /// gate that is not whole or has no payload.
        offset: u64,
    },
    /// Memory was refused.
    #[error("out of memory")]
    NoMemory,
}

impl From<Failed> for JFault {
    ghost use Rattle.lv_journal.specs.declared.fault.JFault.TheVariants.{Failed as DiskFailed};

    ghost from_gives = { λ _ e. e ≡ DiskFailed };

    fn from(_: Failed) -> Self {
        JFault::Failed
    }
}

impl From<NoMemory> for JFault {
    ghost use Rattle.lv_journal.specs.declared.fault.JFault.TheVariants.{NoMemory as MemoryRefused};

    ghost from_gives = { λ _ e. e ≡ MemoryRefused };

    fn from(_: NoMemory) -> Self {
        JFault::NoMemory
    }
}

/// A disk that no reader was attached to, and why.
#[derive(Drop)]
pub struct Attach<D: Disk> {
    /// The disk.
    pub disk: D,
    /// Why.
    pub cause: JFault,
}
