//! A transcript: what each event of a run answered.

use lv_schema::{Fault, ForcedSteps};
use lv_values::{Copying, Items, NoMemory, Rows, Text};
use std::alloc::Global;

/// Pending tasks: a view's number and a commit's, by view and then by commit.
pub type TaskList = Items<(u32, u64)>;

/// A transcript.
pub type Entries = Items<Entry>;

/// What a statement is answered.
#[derive(Drop)]
pub enum Reply {
    /// A table or a view is made.
    Made,
    /// A change inside a transaction: how many rows it changed.
    Changed { count: u64 },
    /// A change outside a transaction, committed at once; without a change there is no commit.
    Alone { count: u64, number: Option<u64> },
    /// A transaction begins, at the snapshot of this commit.
    Began { snapshot: u64 },
    /// A transaction is committed; without a change there is no number.
    Committed { number: Option<u64> },
    /// A transaction is given up.
    RolledBack,
    /// The answer of a query.
    Rows(Rows),
    /// The pending tasks.
    Tasks(TaskList),
    /// The statement is refused.
    Refused(Fault),
}

/// What became of a mark.
#[derive(Drop)]
pub enum MarkOutcome {
    /// The view is marked as maintained up to this commit.
    Upto(u64),
    /// It was marked there already.
    Already,
    /// The mark could not be written: fault 17 or 18.
    Refused(Fault),
}

/// What one event of a run answered. Workers are numbered from 1.
#[derive(Drop)]
pub enum Entry {
    /// A session's statement: the session's number, the statement's place in it from 1, the steps that it
    /// forced, and its reply.
    Session {
        session: u32,
        place: u32,
        forced: ForcedSteps,
        reply: Reply,
    },
    /// The worker claims this step of maintenance.
    Fetched {
        worker: u32,
        view: u32,
        lo: u64,
        hi: u64,
    },
    /// The worker finds nothing to do.
    Idle {
        worker: u32,
    },
    /// The worker has a claim already.
    Busy {
        worker: u32,
    },
    /// The worker's step is installed.
    Installed {
        worker: u32,
        view: u32,
        lo: u64,
        hi: u64,
    },
    /// The view has moved on to this point, and nothing is installed.
    Moved {
        worker: u32,
        view: u32,
        lo: u64,
        hi: u64,
        point: u64,
    },
    /// The worker had no claim to install.
    Empty {
        worker: u32,
    },
    /// The worker gave its claim up.
    Released {
        worker: u32,
    },
    /// A mark of the view.
    Marked {
        view: u32,
        outcome: MarkOutcome,
    },
    /// A mark of a name that is no view's.
    MarkUnknown {
        name: Text,
    },
    /// A clean-up: its floor, and how many versions and deltas it kept.
    Cleaned {
        floor: u64,
        versions: u64,
        deltas: u64,
    },
}

impl Copying for Reply {
    fn copy(&self, alloc: Global) -> Result<Self, NoMemory> {
        match self {
            Reply::Made => Ok(Reply::Made),
            Reply::Changed { count } => Ok(Reply::Changed { count: *count }),
            Reply::Alone { count, number } => Ok(Reply::Alone {
                count: *count,
                number: *number,
            }),
            Reply::Began { snapshot } => Ok(Reply::Began {
                snapshot: *snapshot,
            }),
            Reply::Committed { number } => Ok(Reply::Committed { number: *number }),
            Reply::RolledBack => Ok(Reply::RolledBack),
            Reply::Rows(rows) => Ok(Reply::Rows(rows.copy(alloc)?)),
            Reply::Tasks(tasks) => Ok(Reply::Tasks(tasks.copy(alloc)?)),
            Reply::Refused(fault) => Ok(Reply::Refused(fault.copy(alloc)?)),
        }
    }
}

impl Copying for MarkOutcome {
    fn copy(&self, alloc: Global) -> Result<Self, NoMemory> {
        match self {
            MarkOutcome::Upto(number) => Ok(MarkOutcome::Upto(*number)),
            MarkOutcome::Already => Ok(MarkOutcome::Already),
            MarkOutcome::Refused(fault) => Ok(MarkOutcome::Refused(fault.copy(alloc)?)),
        }
    }
}

impl Copying for Entry {
    fn copy(&self, alloc: Global) -> Result<Self, NoMemory> {
        match self {
            Entry::Session {
                session,
                place,
                forced,
                reply,
            } => {
                let forced = forced.copy(alloc)?;
                Ok(Entry::Session {
                    session: *session,
                    place: *place,
                    forced,
                    reply: reply.copy(alloc)?,
                })
            }
            Entry::Fetched {
                worker,
                view,
                lo,
                hi,
            } => Ok(Entry::Fetched {
                worker: *worker,
                view: *view,
                lo: *lo,
                hi: *hi,
            }),
            Entry::Idle { worker } => Ok(Entry::Idle { worker: *worker }),
            Entry::Busy { worker } => Ok(Entry::Busy { worker: *worker }),
            Entry::Installed {
                worker,
                view,
                lo,
                hi,
            } => Ok(Entry::Installed {
                worker: *worker,
                view: *view,
                lo: *lo,
                hi: *hi,
            }),
            Entry::Moved {
                worker,
                view,
                lo,
                hi,
                point,
            } => Ok(Entry::Moved {
                worker: *worker,
                view: *view,
                lo: *lo,
                hi: *hi,
                point: *point,
            }),
            Entry::Empty { worker } => Ok(Entry::Empty { worker: *worker }),
            Entry::Released { worker } => Ok(Entry::Released { worker: *worker }),
            Entry::Marked { view, outcome } => Ok(Entry::Marked {
                view: *view,
                outcome: outcome.copy(alloc)?,
            }),
            Entry::MarkUnknown { name } => Ok(Entry::MarkUnknown {
                name: name.copy(alloc)?,
            }),
            Entry::Cleaned {
                floor,
                versions,
                deltas,
            } => Ok(Entry::Cleaned {
                floor: *floor,
                versions: *versions,
                deltas: *deltas,
            }),
        }
    }
}
