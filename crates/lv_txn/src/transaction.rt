//! One live transaction.
ghost use Rattle.std.specs.Prelude.{◌≡◌, ◌<◌, Bool, true, map, OnErr, OnOk};
ghost use Rattle.std.specs.List.{list_all};
ghost use Rattle.lv_overlay.specs.declared.put.Put.{Put};
ghost use Rattle.lv_txn.specs.Kept.{begun, Changes};
ghost use Rattle.lv_txn.specs.Written.{put_of};

use crate::writing::{push_numbered, put_all, puts_of};
use lv_overlay::Overlay;
use lv_schema::{Action, Actions, Schema};
use lv_values::{NoMemory, Room};
use std::alloc::Global;
use std::marker::Model;

/// A live transaction: the commit whose state it reads, its own rows, its actions in order, and how many of its
/// changes were accepted. Contracts see it without the room that is kept for more.
#[derive(Drop)]
pub(crate) struct Transaction {
    snapshot: u64,
    own: Overlay,
    actions: Room<Action>,
    changes: u32,
}

impl Model for Transaction {
    ghost use Rattle.lv_txn.specs.Kept.{TransactionKept};

    ghost Value = { TransactionKept };

    ghost view = { λ t. record { snapshot = t.snapshot; puts = t.own.list; actions = t.actions.list; changes = t.changes } };
}

impl Transaction {
    /// A transaction that begins. It takes no memory.
    pub(crate) fn begun(alloc: Global, snapshot: u64) -> Transaction
        ensures { result ≡ begun snapshot }
    {
        Transaction {
            snapshot,
            own: Overlay::new(alloc),
            actions: Room::new(alloc),
            changes: 0,
        }
    }

    /// The commit whose state it reads.
    pub(crate) fn snapshot(&self) -> u64
        ensures { result ≡ self.now.snapshot }
    {
        self.snapshot
    }

    /// Its own rows.
    pub(crate) fn own(&self) -> &Overlay
        ensures { result.now.list ≡ self.now.puts }
    {
        &self.own
    }

    /// Its actions, in order.
    pub(crate) fn actions(&self) -> &[Action]
        ensures { result.now ≡ self.now.actions }
    {
        self.actions.as_slice()
    }

    /// Takes the actions of one more accepted change. Want of memory changes nothing.
    pub(crate) fn note(
        &mut self,
        alloc: Global,
        schema: &Schema,
        actions: Actions,
    ) -> Result<(), NoMemory>
        requires { self.old.changes < 4294967295 }
        ensures noted { OnOk result (Changes schema.now.tables actions self.old self.new) }
        ensures only { OnOk result ((test : Put → Bool) → list_all test (map (put_of schema.now.tables) actions) ≡ true → list_all test self.old.puts ≡ true → list_all test self.new.puts ≡ true) }
        ensures refused { OnErr result (self.new ≡ self.old) }
    {
        let puts = puts_of(alloc, schema, actions.as_slice())?;
        self.own.reserve(puts.len() as u64)?;
        self.actions.reserve(actions.len() as u64)?;
        self.changes += 1;
        put_all(puts, &mut self.own);
        push_numbered(self.changes, actions, &mut self.actions);
        Ok(())
    }
}
