//! A program: the statements of the setup and of each session, and the order in which they run.

ghost use Rattle.std.specs.Prelude.{◌≡◌};
ghost use Rattle.lv_plain.specs.Limits.{statement_count};

use lv_values::{Copying, Items, NoMemory, Text};
use std::alloc::Global;

/// Statements, one a line.
pub type Texts = Items<Text>;

/// The sessions of a program, in the order in which they are declared.
pub type Scripts = Items<Script>;

/// The items of an order.
pub type Order = Items<OrderItem>;

/// One session: its name in lower case, and its statements in order.
#[derive(Drop)]
pub struct Script {
    pub name: Text,
    pub lines: Texts,
}

/// One item of an order.
#[derive(Drop)]
pub enum OrderItem {
    /// The session's next statement. Sessions are numbered from 1.
    Turn { session: u32 },
    /// The worker takes up a step of maintenance. Workers are numbered from 1.
    Fetch { worker: u32 },
    /// The worker installs what it took up.
    Install { worker: u32 },
    /// A fetch, and then an install.
    Work { worker: u32 },
    /// Writes down how far the view of this name is maintained.
    Mark { view: Text },
    /// Drops versions and deltas that nobody needs.
    Clean,
}

/// A whole program. The setup is session 0, and runs first.
#[derive(Drop)]
pub struct Program {
    pub setup: Texts,
    pub sessions: Scripts,
    pub order: Order,
}

impl Program {
    /// How many statements there are, in the setup and in the sessions. It fits, whatever the lists' lengths. Cost: one
    /// step for each session.
    pub fn statements(&self) -> u128
        ensures { result ≡ statement_count self.now }
    {
        let mut count = self.setup.len() as u128;
        for session in self.sessions.as_slice() {
            count += session.lines.len() as u128;
        }
        count
    }
}

impl Copying for Script {
    fn copy(&self, alloc: Global) -> Result<Self, NoMemory> {
        Ok(Script {
            name: self.name.copy(alloc)?,
            lines: self.lines.copy(alloc)?,
        })
    }
}

impl Copying for OrderItem {
    fn copy(&self, alloc: Global) -> Result<Self, NoMemory> {
        match self {
            OrderItem::Turn { session } => Ok(OrderItem::Turn { session: *session }),
            OrderItem::Fetch { worker } => Ok(OrderItem::Fetch { worker: *worker }),
            OrderItem::Install { worker } => Ok(OrderItem::Install { worker: *worker }),
            OrderItem::Work { worker } => Ok(OrderItem::Work { worker: *worker }),
            OrderItem::Mark { view } => Ok(OrderItem::Mark {
                view: view.copy(alloc)?,
            }),
            OrderItem::Clean => Ok(OrderItem::Clean),
        }
    }
}

impl Copying for Program {
    fn copy(&self, alloc: Global) -> Result<Self, NoMemory> {
        Ok(Program {
            setup: self.setup.copy(alloc)?,
            sessions: self.sessions.copy(alloc)?,
            order: self.order.copy(alloc)?,
        })
    }
}
