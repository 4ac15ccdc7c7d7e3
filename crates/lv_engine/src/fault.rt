//! Why a call that writes the journal is refused.

use lv_effect::EffectFault;
use lv_schema::Conflict;
use lv_store::PrepareFault;
use lv_values::NoMemory;
use thiserror::Error;

/// Why a table, a view or a mark is not written. Nothing has changed then.
#[derive(Clone, Copy, Debug, PartialEq, Eq, Error)]
pub enum CreateFault {
    /// The disk failed.
    #[error("store fault")]
    Store,
    /// The journal would have this length, which is past its limit.
    #[error("journal full: {need} bytes needed, limit {limit}")]
    Full { need: u64, limit: u64 },
    /// Memory was refused.
    #[error("out of memory")]
    NoMemory,
}

impl From<NoMemory> for CreateFault {
    ghost use Rattle.std.specs.Prelude.{◌≡◌};
    ghost use Rattle.lv_engine.specs.declared.fault.CreateFault.TheVariants.{NoMemory as MemoryRefused};

    ghost from_gives = { λ _ e. e ≡ MemoryRefused };

    fn from(_: NoMemory) -> Self {
        CreateFault::NoMemory
    }
}

/// Why a commit is refused. A conflict and a full table roll the transaction back; after the others it is live, and
/// nothing has changed.
#[derive(Debug, Drop, Error)]
pub enum CommitFault {
    /// A key that the transaction wrote was written by a commit above its snapshot.
    #[error("conflict")]
    Conflict(Conflict),
    /// A table would have more than 65,535 rows.
    #[error("table full")]
    TableFull { table: u32 },
    /// The journal would have this length, which is past its limit.
    #[error("journal full: {need} bytes needed, limit {limit}")]
    Full { need: u64, limit: u64 },
    /// The disk failed.
    #[error("store fault")]
    Store,
    /// Memory was refused.
    #[error("out of memory")]
    NoMemory,
}

impl From<PrepareFault> for CommitFault {
    ghost use Rattle.std.specs.Prelude.{◌≡◌};
    ghost use Rattle.lv_store.specs.Committing.{prepare_fault};
    ghost use Rattle.lv_engine.specs.Answering.{commit_fault};

    ghost from_gives = { λ e f. commit_fault f ≡ prepare_fault e };

    fn from(fault: PrepareFault) -> Self {
        match fault {
            PrepareFault::Conflict(conflict) => CommitFault::Conflict(conflict),
            PrepareFault::TableFull { table } => CommitFault::TableFull { table },
            PrepareFault::NoMemory => CommitFault::NoMemory,
        }
    }
}

impl From<CreateFault> for CommitFault {
    ghost use Rattle.std.specs.Prelude.{◌≡◌};
    ghost use Rattle.lv_engine.specs.Answering.{commit_fault, create_fault};

    ghost from_gives = { λ e f. commit_fault f ≡ create_fault e };

    fn from(fault: CreateFault) -> Self {
        match fault {
            CreateFault::Full { need, limit } => CommitFault::Full { need, limit },
            CreateFault::Store => CommitFault::Store,
            CreateFault::NoMemory => CommitFault::NoMemory,
        }
    }
}

/// Why a change outside a transaction is refused. Nothing has changed then.
#[derive(Debug, Drop, Error)]
pub enum AloneFault {
    /// The change is refused, or a table would have more than 65,535 rows.
    #[error("change refused")]
    Change(EffectFault),
    /// Its record is not written.
    #[error("record not written")]
    Record(CreateFault),
}

impl From<EffectFault> for AloneFault {
    ghost use Rattle.std.specs.Prelude.{◌≡◌};
    ghost use Rattle.lv_engine.specs.declared.fault.AloneFault.TheVariants as fault;

    ghost from_gives = { λ e f. f ≡ fault.Change e };

    fn from(fault: EffectFault) -> Self {
        AloneFault::Change(fault)
    }
}

impl From<CreateFault> for AloneFault {
    ghost use Rattle.std.specs.Prelude.{◌≡◌};
    ghost use Rattle.lv_engine.specs.declared.fault.AloneFault.TheVariants as fault;

    ghost from_gives = { λ e f. f ≡ fault.Record e };

    fn from(fault: CreateFault) -> Self {
        AloneFault::Record(fault)
    }
}
