//! Why a change has no effect.

use lv_schema::Fault;
use lv_values::NoMemory;
use thiserror::Error;

/// How many rows a table may have.
pub(crate) const MOST_ROWS: u64 = 65535;

/// Why a change has no effect.
#[derive(Debug, Drop, Error)]
pub enum EffectFault {
    /// The statement is refused.
    #[error(transparent)]
    Stmt(Fault),
    /// Memory was refused.
    #[error("out of memory")]
    NoMemory,
}

impl From<NoMemory> for EffectFault {
    ghost use Rattle.std.specs.Prelude.{◌≡◌};
    ghost use Rattle.lv_effect.specs.declared.fault.EffectFault.TheVariants.{NoMemory as MemoryRefused};

    ghost from_gives = { λ _ e. e ≡ MemoryRefused };

    fn from(_: NoMemory) -> Self {
        EffectFault::NoMemory
    }
}
