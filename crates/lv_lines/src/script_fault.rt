//! Why a script is not read.
ghost use Rattle.std.specs.Prelude.{◌≡◌};
ghost use Rattle.lv_lines.specs.ScriptFault.{number_of};

use lv_values::NoMemory;
use thiserror::Error;

/// What is wrong with a line of a script, in the order in which it is shown: a line that has several faults
/// shows the first of them.
#[derive(Clone, Copy, Debug, PartialEq, Eq, Error)]
pub enum ScriptFaultKind {
    /// 1: the line is not UTF-8.
    #[error("not UTF-8")]
    NotUtf8,
    /// 2: the script has more than 16,777,216 bytes. The line is 0.
    #[error("the script is too long")]
    ScriptTooLong,
    /// 3: the line has more than 65,536 bytes without its end.
    #[error("the line is too long")]
    LineTooLong,
    /// 4: the line begins with `@` and is no section line, or has words that its section word does not take.
    #[error("no section line")]
    NoSectionLine,
    /// 5: a section or a statement out of place.
    #[error("out of place")]
    OutOfPlace,
    /// 6: the session's name is no name, or is reserved.
    #[error("no name for a session")]
    NoSessionName,
    /// 7: the session's name was used before.
    #[error("name used")]
    NameUsed,
    /// 8: the 17th session.
    #[error("too many sessions")]
    TooManySessions,
    /// 9: the 100,001st statement.
    #[error("too many statements")]
    TooManyStatements,
    /// 10: an order item that is none, or that names no session.
    #[error("no order item")]
    NoOrderItem,
    /// 11: an order item names a session that has no statement left.
    #[error("no statement left")]
    NoStatementLeft,
    /// 12: the 200,001st order item.
    #[error("too many order items")]
    TooManyItems,
}

impl ScriptFaultKind {
    /// The number under which the kind is shown, 1 to 12.
    pub fn number(self) -> u8
        ensures { result ≡ number_of self }
    {
        match self {
            ScriptFaultKind::NotUtf8 => 1,
            ScriptFaultKind::ScriptTooLong => 2,
            ScriptFaultKind::LineTooLong => 3,
            ScriptFaultKind::NoSectionLine => 4,
            ScriptFaultKind::OutOfPlace => 5,
            ScriptFaultKind::NoSessionName => 6,
            ScriptFaultKind::NameUsed => 7,
            ScriptFaultKind::TooManySessions => 8,
            ScriptFaultKind::TooManyStatements => 9,
            ScriptFaultKind::NoOrderItem => 10,
            ScriptFaultKind::NoStatementLeft => 11,
            ScriptFaultKind::TooManyItems => 12,
        }
    }
}

/// Why a script is not read.
#[derive(Clone, Copy, Debug, PartialEq, Eq, Error)]
pub enum ScriptFault {
    /// The first line that has a fault, counted from 1, and the first kind of its faults.
    #[error("line {line}: {kind}")]
    Bad { line: u64, kind: ScriptFaultKind },
    /// Memory was refused.
    #[error("out of memory")]
    NoMemory,
}

/// Why a line is not taken.
#[derive(Clone, Copy, Debug, PartialEq, Eq)]
pub(crate) enum LineFault {
    /// The first kind of its faults.
    Kind(ScriptFaultKind),
    /// Memory was refused.
    NoMemory,
}

impl From<NoMemory> for LineFault {
    ghost use Rattle.lv_lines.specs.declared.script_fault.LineFault.TheVariants as fault;

    ghost from_gives = { λ _ e. e ≡ fault.NoMemory };

    fn from(_: NoMemory) -> LineFault {
        LineFault::NoMemory
    }
}
