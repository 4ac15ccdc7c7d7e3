//! COMMIT: the store takes all memory, the record is written, and the store takes the commit.
ghost use Rattle.std.specs.Prelude.{◌≡◌, ◌≢◌, ◌≤◌, ◌<◌, ℕ, List, Err, length, OnErr};
ghost use Rattle.lv_outside.specs.Causes.{Rose};
ghost use Rattle.lv_schema.specs.declared.action.Action.{Action};
ghost use Rattle.lv_schema.specs.declared.rec.Rec.TheVariants as variant;
ghost use Rattle.lv_schema.specs.Cases.{committed};
ghost use Rattle.lv_schema.specs.UpkeepCases.{outcome_of};
ghost use Rattle.lv_schema.specs.World.{World};
ghost use Rattle.lv_schema.specs.World as schema;
ghost use Rattle.lv_txn.specs.Kept.{IsLive, transaction_of};
ghost use Rattle.lv_store.specs.Committing.{MayCommit};
ghost use Rattle.lv_store.specs.Kept.{IsStore, store_of};
ghost use Rattle.lv_engine.specs.Answering.{LogsCase, Meets, commit_fault, create_fault, fails};
ghost use Rattle.lv_engine.specs.Committing.{WritesCommit};
ghost use Rattle.lv_engine.specs.Kept.{Stands, engine_of};
ghost use Rattle.lv_engine.specs.Writing.{IsUntouched};

use crate::fault::{CommitFault, CreateFault};
use crate::writing::write;
use lv_base::Ready;
use lv_journal::Journal;
use lv_outside::Disk;
use lv_replay::written_records_can_be_kept;
use lv_schema::{Actions, Rec};
use lv_store::{Prepared, Store};
use std::alloc::Global;

/// The actions of a commit's record.
pub(crate) fn actions_of(rec: Rec) -> Actions
    requires { (number : ℕ) × (actions : List Action) × (rec ≡ variant.Commit number actions) }
    ensures { (number : ℕ) (actions : List Action) → rec ≡ variant.Commit number actions → result ≡ actions }
{
    match rec {
        Rec::Commit { actions, .. } => actions,
        Rec::Table(_) | Rec::View(_) | Rec::Mark { .. } => unreachable!(),
    }
}

/// The record of a commit for which all is ready, and then the commit itself. It answers the commit's number.
fn write_commit<D: Disk>(
    alloc: Global,
    store: &mut Store,
    journal: &mut Journal<D>,
    session: u32,
    ready: Ready,
) -> Result<u64, CreateFault>
    requires whole { IsStore store.old }
    requires session { session < 17 }
    requires live { IsLive (store_of store.old).sessions session }
    requires some { 0 < length ready.actions }
    requires may { MayCommit (store_of store.old) (transaction_of (store_of store.old).sessions session) store.old ready }
    ensures case { (w : World) (settings : schema.Settings) → settings.limit ≡ (store_of store.old).settings.log_limit → Stands w (engine_of store.old journal.old)
        → WritesCommit D.seen D.may_leave D.moment D.left_since session ready.actions w (engine_of store.old journal.old) (engine_of store.new journal.new) result (outcome_of settings (fails create_fault result) w.upkeep) }
    ensures rows { (store_of store.new).rows ≡ (store_of store.old).rows }
    ensures points { (store_of store.new).upkeep.points ≡ (store_of store.old).upkeep.points }
    ensures settings { (store_of store.new).settings ≡ (store_of store.old).settings }
    ensures later { D.failures journal.old.disk ≤ D.failures journal.new.disk }
    ensures untouched { result ≢ Err CreateFault.Store → OnErr result (IsUntouched D.seen D.may_leave D.failures journal.old.disk journal.new.disk) }
    ensures cause { result ≡ Err CreateFault.Store → Rose (D.failures journal.old.disk) (D.failures journal.new.disk) }
    ensures whole { IsStore store.new }
{
    written_records_can_be_kept();
    let Ready { actions, nets } = ready;
    let rec = Rec::Commit {
        number: store.base.last() + 1,
        actions,
    };
    write(alloc, journal, store.settings.log_limit, &rec)?;
    let actions = actions_of(rec);
    Ok(store.add_commit(session, Ready { actions, nets }))
}

/// COMMIT of a session's transaction.
pub(crate) fn commit<D: Disk>(
    alloc: Global,
    store: &mut Store,
    journal: &mut Journal<D>,
    session: u32,
) -> Result<Option<u64>, CommitFault>
    requires whole { IsStore store.old }
    requires session { session < 17 }
    requires live { IsLive (store_of store.old).sessions session }
    ensures case { (w : World) (settings : schema.Settings) → settings.limit ≡ (store_of store.old).settings.log_limit → Stands w (engine_of store.old journal.old)
        → Meets commit_fault w (engine_of store.old journal.old) (engine_of store.new journal.new) result (committed (outcome_of settings (fails commit_fault result) w.upkeep) session w.visible) }
    ensures log { (w : World) (settings : schema.Settings) → settings.limit ≡ (store_of store.old).settings.log_limit → Stands w (engine_of store.old journal.old)
        → let done = committed (outcome_of settings (fails commit_fault result) w.upkeep) session w.visible in LogsCase D.seen D.may_leave D.moment D.left_since commit_fault result done.attempted done.written journal.old journal.new }
    ensures rows { (store_of store.new).rows ≡ (store_of store.old).rows }
    ensures points { (store_of store.new).upkeep.points ≡ (store_of store.old).upkeep.points }
    ensures settings { (store_of store.new).settings ≡ (store_of store.old).settings }
    ensures later { D.failures journal.old.disk ≤ D.failures journal.new.disk }
    ensures untouched { result ≢ Err CommitFault.Store → OnErr result (IsUntouched D.seen D.may_leave D.failures journal.old.disk journal.new.disk) }
    ensures cause { result ≡ Err CommitFault.Store → Rose (D.failures journal.old.disk) (D.failures journal.new.disk) }
    ensures whole { IsStore store.new }
{
    match store.prepare_commit(alloc, session)? {
        Prepared::Nothing => Ok(None),
        Prepared::Ready(ready) => Ok(Some(write_commit(alloc, store, journal, session, ready)?)),
    }
}
