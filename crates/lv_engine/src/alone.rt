//! A change outside a transaction: the store takes all memory, the record is written, and the store takes the commit.
ghost use Rattle.std.specs.Prelude.{◌≡◌, ◌≢◌, ◌≤◌, ◌<◌, ℕ, Err, None, length, OnErr};
ghost use Rattle.lv_outside.specs.Causes.{Rose};
ghost use Rattle.lv_schema.specs.Bound.{IsBoundChange};
ghost use Rattle.lv_schema.specs.Cases.{alone};
ghost use Rattle.lv_schema.specs.UpkeepCases.{outcome_of};
ghost use Rattle.lv_schema.specs.World.{Visible, World};
ghost use Rattle.lv_schema.specs.World as schema;
ghost use Rattle.lv_txn.specs.Kept.{transaction_at};
ghost use Rattle.lv_store.specs.Alone.{MayCommitAlone, with_alone};
ghost use Rattle.lv_store.specs.Answering.{with_visible};
ghost use Rattle.lv_store.specs.Kept.{IsStore, Stands as MemoryStands, store_of};
ghost use Rattle.lv_engine.specs.declared.fault.AloneFault.TheVariants as fault;
ghost use Rattle.lv_engine.specs.Alone.{WritesAlone, alone_fails, alone_fault};
ghost use Rattle.lv_engine.specs.Answering.{LogsCase, Meets, create_fault, fails};
ghost use Rattle.lv_engine.specs.Kept.{Stands, engine_of};
ghost use Rattle.lv_engine.specs.Writing.{IsUntouched};

use crate::committing::actions_of;
use crate::fault::{AloneFault, CreateFault};
use crate::writing::write;
use lv_base::Ready;
use lv_journal::Journal;
use lv_outside::Disk;
use lv_replay::written_records_can_be_kept;
use lv_schema::{Change, Rec};
use lv_store::{Prepared, Store};
use lv_values::Steps;
use std::alloc::Global;
use std::sync::ledger::Ledger;

/// The record of a change outside a transaction for which all is ready, and then its commit. It answers the commit's number.
fn write_alone<D: Disk>(
    alloc: Global,
    store: &mut Store,
    journal: &mut Journal<D>,
    ready: Ready,
) -> Result<u64, CreateFault>
    requires whole { IsStore store.old }
    requires some { 0 < length ready.actions }
    requires may { (session : ℕ) × MayCommitAlone session store.old ready × (transaction_at (store_of store.old).sessions session ≡ None) }
    ensures case { (session count : ℕ) (w : World) (made : Visible) (settings : schema.Settings) → settings.limit ≡ (store_of store.old).settings.log_limit → MayCommitAlone session store.old ready → transaction_at (store_of store.old).sessions session ≡ None
        → Stands w (engine_of store.old journal.old) → MemoryStands (with_visible made w) (store_of (with_alone session ready.actions store.old))
        → WritesAlone D.seen D.may_leave D.moment D.left_since session count ready.actions made w (engine_of store.old journal.old) (engine_of store.new journal.new) result (outcome_of settings (fails create_fault result) w.upkeep) }
    ensures sessions { (store_of store.new).sessions ≡ (store_of store.old).sessions }
    ensures rows { (store_of store.new).rows ≡ (store_of store.old).rows }
    ensures points { (store_of store.new).upkeep.points ≡ (store_of store.old).upkeep.points }
    ensures settings { (store_of store.new).settings ≡ (store_of store.old).settings }
    ensures later { D.failures journal.old.disk ≤ D.failures journal.new.disk }
    ensures untouched { result ≢ Err CreateFault.Store → OnErr result (IsUntouched D.seen D.may_leave D.failures journal.old.disk journal.new.disk) }
    ensures cause { result ≡ Err CreateFault.Store → Rose (D.failures journal.old.disk) (D.failures journal.new.disk) }
    ensures whole { IsStore store.new }
{
    written_records_can_be_kept();
    let Ready { actions, nets } = ready;
    let rec = Rec::Commit {
        number: store.base.last() + 1,
        actions,
    };
    write(alloc, journal, store.settings.log_limit, &rec)?;
    let actions = actions_of(rec);
    Ok(store.add_alone(Ready { actions, nets }))
}

/// INSERT, UPDATE or DELETE outside a transaction.
pub(crate) fn change_alone<D: Disk, L: Ledger>(
    alloc: Global,
    store: &mut Store,
    journal: &mut Journal<D>,
    change: &Change,
    steps: &mut Steps<L>,
) -> Result<(u64, Option<u64>), AloneFault>
    requires whole { IsStore store.old }
    requires free { (session : ℕ) × (session < 17) × (transaction_at (store_of store.old).sessions session ≡ None) }
    requires bound { IsBoundChange (store_of store.old).tables change.now }
    ensures case { (session : ℕ) (w : World) (settings : schema.Settings) → session < 17 → transaction_at (store_of store.old).sessions session ≡ None → settings.limit ≡ (store_of store.old).settings.log_limit → Stands w (engine_of store.old journal.old)
        → Meets alone_fault w (engine_of store.old journal.old) (engine_of store.new journal.new) result (alone (outcome_of settings (alone_fails result) w.upkeep) session change.now w.visible) }
    ensures log { (session : ℕ) (w : World) (settings : schema.Settings) → session < 17 → transaction_at (store_of store.old).sessions session ≡ None → settings.limit ≡ (store_of store.old).settings.log_limit → Stands w (engine_of store.old journal.old)
        → let done = alone (outcome_of settings (alone_fails result) w.upkeep) session change.now w.visible in LogsCase D.seen D.may_leave D.moment D.left_since alone_fault result done.attempted done.written journal.old journal.new }
    ensures sessions { (store_of store.new).sessions ≡ (store_of store.old).sessions }
    ensures rows { (store_of store.new).rows ≡ (store_of store.old).rows }
    ensures points { (store_of store.new).upkeep.points ≡ (store_of store.old).upkeep.points }
    ensures settings { (store_of store.new).settings ≡ (store_of store.old).settings }
    ensures later { D.failures journal.old.disk ≤ D.failures journal.new.disk }
    ensures untouched { result ≢ Err (fault.Record CreateFault.Store) → OnErr result (IsUntouched D.seen D.may_leave D.failures journal.old.disk journal.new.disk) }
    ensures cause { result ≡ Err (fault.Record CreateFault.Store) → Rose (D.failures journal.old.disk) (D.failures journal.new.disk) }
    ensures whole { IsStore store.new }
{
    let (count, prepared) = store.prepare_alone(alloc, change, steps)?;
    match prepared {
        Prepared::Nothing => Ok((count, None)),
        Prepared::Ready(ready) => {
            let number = write_alone(alloc, store, journal, ready)?;
            Ok((count, Some(number)))
        }
    }
}
