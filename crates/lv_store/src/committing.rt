//! COMMIT, in two halves.
ghost use Rattle.std.specs.Prelude.{◌≡◌, ◌+◌, ◌^◌, ◌<◌, None, Ok, length, IfOk, OnOk};
ghost use Rattle.lv_schema.specs.declared.rec.Rec.{Rec};
ghost use Rattle.lv_schema.specs.declared.rec.Rec.TheVariants.{Commit};
ghost use Rattle.lv_schema.specs.Cases.{Outcome, committed};
ghost use Rattle.lv_schema.specs.Cases as cases;
ghost use Rattle.lv_schema.specs.Commits.{conflict_in};
ghost use Rattle.lv_schema.specs.World.{World, transaction};
ghost use Rattle.lv_txn.specs.Kept.{IsLive, transaction_of};
ghost use Rattle.lv_store.specs.Answering.{wrote};
ghost use Rattle.lv_store.specs.Committing.{IsNext, MayCommit, Prepares};
ghost use Rattle.lv_store.specs.Kept.{IsStore, Stands, store_of};

use crate::fault::PrepareFault;
use crate::store::Store;
use lv_base::{Base, Ready, bases_that_stand_can_commit};
use lv_made::{add_tasks, check_entries, first_full};
use lv_schema::{Conflict, commit_takes_its_actions};
use lv_stands::{commits_keep_what_stands, refusals_are_told, what_stands_is_whole};
use lv_values::NoMemory;
use std::alloc::Global;

/// What becomes of a transaction that commits and has not been refused.
#[derive(Drop)]
pub enum Prepared {
    /// It had no action, and is over.
    Nothing,
    /// Its actions, and the net change that they make of each table.
    Ready(Ready),
}

/// What becomes of a transaction with an action that commits: a conflict or a full table rolls it back, or it is ready.
#[derive(Drop)]
enum Next {
    Conflict(Conflict),
    TableFull(u32),
    Ready(Ready),
}

/// Refuses a commit that 64 bits could not count, or whose entries they could not, for which there is no memory.
pub(crate) fn check_numbers(base: &Base, ready: &Ready) -> Result<(), NoMemory>
    ensures number { OnOk result (base.now.number + 1 < 2 ^ 64) }
    ensures entries { OnOk result (length base.now.deltas.entries + length ready.now.actions < 2 ^ 64) }
{
    if base.last() == u64::MAX {
        return Err(NoMemory);
    }
    check_entries(base, ready)
}

impl Store {
    /// Looks why a session that has an action cannot commit, and takes all memory that its commit needs. What is kept stays
    /// as it was.
    fn next_commit(&mut self, alloc: Global, session: u32) -> Result<Next, NoMemory>
        requires whole { IsStore self.old }
        requires live { IsLive self.old.txns session }
        ensures kept { store_of self.new ≡ store_of self.old }
        ensures next { IfOk result (IsNext (store_of self.old) (transaction_of self.old.txns session) self.new) }
        ensures whole { IsStore self.new }
    {
        let deltas = self.base.deltas();
        if let Some(conflict) = self.txns.conflict(alloc, session, &self.schema, deltas)? {
            return Ok(Next::Conflict(conflict));
        }
        self.next_without_conflict(alloc, session)
    }

    /// The same for a session without a conflict.
    fn next_without_conflict(&mut self, alloc: Global, session: u32) -> Result<Next, NoMemory>
        requires whole { IsStore self.old }
        requires live { IsLive self.old.txns session }
        requires free { conflict_in self.old.schema.tables self.old.base.deltas.entries (transaction_of self.old.txns session).snapshot (transaction_of self.old.txns session).actions ≡ None }
        ensures kept { store_of self.new ≡ store_of self.old }
        ensures next { IfOk result (IsNext (store_of self.old) (transaction_of self.old.txns session) self.new) }
        ensures whole { IsStore self.new }
    {
        refusals_are_told();
        commit_takes_its_actions();
        bases_that_stand_can_commit();
        let ready = self.base.prepare(alloc, self.txns.actions(session))?;
        if let Some(table) = first_full(&self.base, self.schema.tables(), ready.nets.as_slice()) {
            return Ok(Next::TableFull(table));
        }
        check_numbers(&self.base, &ready)?;
        self.upkeep.reserve(self.schema.views() as u64)?;
        Ok(Next::Ready(ready))
    }

    /// The first half of COMMIT of a session's transaction. One without an action ends. A conflict or a full table rolls it
    /// back. Else all memory is taken, and what is kept stays as it was; so it does after want of memory.
    /// Cost: what the conflict's and the net change's searches cost, for c actions c log c comparisons of keys.
    pub fn prepare_commit(&mut self, alloc: Global, session: u32) -> Result<Prepared, PrepareFault>
        requires whole { IsStore self.old }
        requires session { session < 17 }
        requires live { IsLive (store_of self.old).sessions session }
        ensures case { (w : World) (outcome : Rec → Outcome) → Stands w (store_of self.old)
            → Prepares session w outcome (store_of self.old) (store_of self.new) result (committed outcome session w.visible) }
        ensures may { (ready : Ready) → result ≡ Ok (Prepared.Ready ready) → MayCommit (store_of self.new) (transaction_of (store_of self.new).sessions session) self.new ready }
        ensures some { (ready : Ready) → result ≡ Ok (Prepared.Ready ready) → 0 < length ready.actions }
        ensures live { (ready : Ready) → result ≡ Ok (Prepared.Ready ready) → store_of self.new ≡ store_of self.old }
        ensures rows { (store_of self.new).rows ≡ (store_of self.old).rows }
        ensures points { (store_of self.new).upkeep ≡ (store_of self.old).upkeep }
        ensures settings { (store_of self.new).settings ≡ (store_of self.old).settings }
        ensures whole { IsStore self.new }
    {
        refusals_are_told();
        if self.txns.actions(session).is_empty() {
            self.rollback(session);
            return Ok(Prepared::Nothing);
        }
        match self.next_commit(alloc, session)? {
            Next::Conflict(conflict) => {
                self.rollback(session);
                Err(PrepareFault::Conflict(conflict))
            }
            Next::TableFull(table) => {
                self.rollback(session);
                Err(PrepareFault::TableFull { table })
            }
            Next::Ready(ready) => Ok(Prepared::Ready(ready)),
        }
    }

    /// The second half of COMMIT: the next commit has the actions, and each view on whose tables one of them is has one more
    /// pending task. No view is brought up to date. It answers the number of the commit, and takes no memory.
    /// Cost: for c actions a search and a move of small numbers each, and a look at each view.
    pub fn add_commit(&mut self, session: u32, ready: Ready) -> u64
        requires whole { IsStore self.old }
        requires session { session < 17 }
        requires live { IsLive (store_of self.old).sessions session }
        requires some { 0 < length ready.actions }
        requires may { MayCommit (store_of self.old) (transaction_of (store_of self.old).sessions session) self.old ready }
        ensures number { result ≡ (store_of self.old).base.number + 1 }
        ensures case { (w : World) → Stands w (store_of self.old)
            → Stands (wrote (Commit ((store_of self.old).base.number + 1) ready.actions) (cases.with_commit session (transaction session w.visible) w.visible) w) (store_of self.new) }
        ensures rows { (store_of self.new).rows ≡ (store_of self.old).rows }
        ensures points { (store_of self.new).upkeep.points ≡ (store_of self.old).upkeep.points }
        ensures settings { (store_of self.new).settings ≡ (store_of self.old).settings }
        ensures whole { IsStore self.new }
    {
        commits_keep_what_stands();
        what_stands_is_whole();
        let number = self.base.last() + 1;
        add_tasks(
            &self.schema,
            &mut self.upkeep,
            number,
            ready.actions.as_slice(),
        );
        self.base.commit(ready);
        self.txns.end(session);
        number
    }
}
