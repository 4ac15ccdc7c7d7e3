//! How a run ends.
ghost use Rattle.std.specs.Prelude.{◌≡◌};

/// How a run ends.
#[derive(Drop, PartialEq, Eq)]
pub enum Status {
    /// The script was read or made, every statement is answered, and the whole output is written.
    Done,
    /// The words are refused.
    Words,
    /// The script is refused: the first line with a fault, counted from 1, and the lowest kind of its faults, 1 to 12.
    /// A script that is too long has kind 2 at line 0.
    Script { line: u64, kind: u8 },
    /// The source failed.
    SourceFault,
    /// The sink failed.
    SinkFault,
    /// The journal is bad at this place.
    BadJournal { offset: u64 },
    /// No disk was handed out, or the one that was could not be read.
    OpenFault,
    /// Memory was refused.
    NoMemory,
}

impl Status {
    ghost use Rattle.lv_runner.specs.Status.{number_of};

    /// The number of the status, which is the program's exit status; 7 is given to none.
    pub fn number(&self) -> u8
        ensures { result ≡ number_of self.now }
    {
        match self {
            Status::Done => 0,
            Status::Words => 1,
            Status::Script { .. } => 2,
            Status::SourceFault => 3,
            Status::SinkFault => 4,
            Status::BadJournal { .. } => 5,
            Status::OpenFault => 6,
            Status::NoMemory => 8,
        }
    }
}
