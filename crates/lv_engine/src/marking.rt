//! A mark: its record is written, and then the view is marked.
ghost use Rattle.std.specs.Prelude.{◌≡◌, ◌≢◌, ◌≤◌, ◌<◌, Err, length, OnErr};
ghost use Rattle.lv_outside.specs.Causes.{Rose};
ghost use Rattle.lv_schema.specs.UpkeepCases.{marking, outcome_of};
ghost use Rattle.lv_schema.specs.World.{World};
ghost use Rattle.lv_schema.specs.World as schema;
ghost use Rattle.lv_replay.specs.Runs.{mark_written};
ghost use Rattle.lv_store.specs.Kept.{IsStore, store_of};
ghost use Rattle.lv_engine.specs.Answering.{LogsCase, MeetsMark, create_fault, fails};
ghost use Rattle.lv_engine.specs.Kept.{Stands, engine_of};
ghost use Rattle.lv_engine.specs.Writing.{IsUntouched};

use crate::fault::CreateFault;
use crate::writing::write;
use lv_journal::Journal;
use lv_outside::Disk;
use lv_replay::written_records_can_be_kept;
use lv_schema::Rec;
use lv_store::Store;
use std::alloc::Global;

/// Marks a view as maintained to its point.
pub(crate) fn mark<D: Disk>(
    alloc: Global,
    store: &mut Store,
    journal: &mut Journal<D>,
    view: u32,
) -> Result<Option<u64>, CreateFault>
    requires whole { IsStore store.old }
    requires view { view < length (store_of store.old).views }
    ensures case { (w : World) (settings : schema.Settings) → settings.limit ≡ (store_of store.old).settings.log_limit → Stands w (engine_of store.old journal.old)
        → MeetsMark w (engine_of store.old journal.old) (engine_of store.new journal.new) result (marking (outcome_of settings (fails create_fault result) w.upkeep) view w.upkeep) }
    ensures log { (w : World) (settings : schema.Settings) → settings.limit ≡ (store_of store.old).settings.log_limit → Stands w (engine_of store.old journal.old)
        → let done = marking (outcome_of settings (fails create_fault result) w.upkeep) view w.upkeep in LogsCase D.seen D.may_leave D.moment D.left_since create_fault result done.attempted (mark_written done) journal.old journal.new }
    ensures sessions { (store_of store.new).sessions ≡ (store_of store.old).sessions }
    ensures settings { (store_of store.new).settings ≡ (store_of store.old).settings }
    ensures later { D.failures journal.old.disk ≤ D.failures journal.new.disk }
    ensures untouched { result ≢ Err CreateFault.Store → OnErr result (IsUntouched D.seen D.may_leave D.failures journal.old.disk journal.new.disk) }
    ensures cause { result ≡ Err CreateFault.Store → Rose (D.failures journal.old.disk) (D.failures journal.new.disk) }
    ensures whole { IsStore store.new }
{
    written_records_can_be_kept();
    let point = store.point(view);
    if store.marked(view) == point {
        return Ok(None);
    }
    let rec = Rec::Mark { view, upto: point };
    write(alloc, journal, store.settings.log_limit, &rec)?;
    store.mark(view);
    Ok(Some(point))
}
