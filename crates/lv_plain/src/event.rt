//! What may happen in a run.

use lv_values::{Copying, Items, NoMemory, Text};
use std::alloc::Global;

/// Events, in the order in which they come.
pub type Events = Items<Event>;

/// What may happen in a run. Workers are numbered from 1.
#[derive(Drop)]
pub enum Event {
    /// A session's next statement is answered.
    Turn { session: u32 },
    /// A worker fetches a step of maintenance.
    Fetch { worker: u32 },
    /// A worker installs the step that it has claimed.
    Install { worker: u32 },
    /// A worker gives its claim up.
    Release { worker: u32 },
    /// The view with this name is marked as far as it is maintained.
    Mark { view: Text },
    /// What nobody needs is dropped.
    Clean,
}

impl Copying for Event {
    fn copy(&self, alloc: Global) -> Result<Self, NoMemory> {
        match self {
            Event::Turn { session } => Ok(Event::Turn { session: *session }),
            Event::Fetch { worker } => Ok(Event::Fetch { worker: *worker }),
            Event::Install { worker } => Ok(Event::Install { worker: *worker }),
            Event::Release { worker } => Ok(Event::Release { worker: *worker }),
            Event::Mark { view } => Ok(Event::Mark {
                view: view.copy(alloc)?,
            }),
            Event::Clean => Ok(Event::Clean),
        }
    }
}
