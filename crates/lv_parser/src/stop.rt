//! Why reading stopped.

ghost use Rattle.lv_parser.specs.declared.stop.Stop.TheVariants.{NoMemory};
ghost use Rattle.std.specs.Prelude.{◌≡◌};

use lv_values::NoMemory;
use thiserror::Error;

/// Why a rule was not read to its end.
#[derive(Clone, Copy, Debug, PartialEq, Eq)]
pub(crate) enum Stop {
    /// The next token cannot stand here.
    Syntax,
    /// Memory was refused.
    NoMemory,
}

impl From<NoMemory> for Stop {
    ghost from_gives = { λ _ e. e ≡ NoMemory };

    fn from(_: NoMemory) -> Stop {
        Stop::NoMemory
    }
}

/// Why a line gives no statement.
#[derive(Clone, Copy, Debug, PartialEq, Eq, Error)]
pub enum ParseFault {
    /// The line is no statement. The byte, counted from 1, is the first byte of the first token that cannot stand,
    /// or of the piece that is no token; where all can stand and the line ends too early, it is the line's
    /// length plus 1.
    #[error("syntax error at byte {byte}")]
    Syntax { byte: u32 },
    /// Memory was refused.
    #[error("out of memory")]
    NoMemory,
}

impl From<NoMemory> for ParseFault {
    ghost use Rattle.lv_parser.specs.declared.stop.ParseFault.TheVariants.{NoMemory};

    ghost from_gives = { λ _ e. e ≡ NoMemory };

    fn from(_: NoMemory) -> ParseFault {
        ParseFault::NoMemory
    }
}
