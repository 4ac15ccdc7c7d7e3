//! Why a commit is refused before its record is written.

use lv_schema::Conflict;
use lv_values::NoMemory;
use thiserror::Error;

/// Why a commit is refused before its record is written. A conflict and a full table roll the transaction back.
#[derive(Debug, Drop, Error)]
pub enum PrepareFault {
    /// A key that the transaction wrote was written by a commit above its snapshot.
    #[error("conflict")]
    Conflict(Conflict),
    /// A table would have more than 65,535 rows.
    #[error("table full")]
    TableFull { table: u32 },
    /// Memory was refused.
    #[error("out of memory")]
    NoMemory,
}

impl From<NoMemory> for PrepareFault {
    ghost use Rattle.std.specs.Prelude.{◌≡◌};
    ghost use Rattle.lv_store.specs.declared.fault.PrepareFault.TheVariants.{NoMemory as MemoryRefused};

    ghost from_gives = { λ _ e. e ≡ MemoryRefused };

    fn from(_: NoMemory) -> Self {
        PrepareFault::NoMemory
    }
}
