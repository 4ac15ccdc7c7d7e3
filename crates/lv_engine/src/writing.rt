//! A record on its way to the journal.
ghost use Rattle.std.specs.Prelude.{◌≡◌, ◌≢◌, ◌≤◌, Err, OnErr, OnOk};
ghost use Rattle.lv_outside.specs.Causes.{Rose};
ghost use Rattle.lv_record.specs.Kept.{IsKept};
ghost use Rattle.lv_schema.specs.UpkeepCases.{need, outcome_of};
ghost use Rattle.lv_schema.specs.World as schema;
ghost use Rattle.lv_schema.specs.World.{Upkeep};
ghost use Rattle.lv_engine.specs.Answering.{create_fault, fails};
ghost use Rattle.lv_engine.specs.Kept.{length_of};
ghost use Rattle.lv_engine.specs.Writing.{IsUntouched, LogsWrite, TellsOutcome};

use crate::fault::CreateFault;
use lv_journal::Journal;
use lv_outside::Disk;
use lv_record::{encode, size};
use lv_schema::Rec;
use lv_values::NoMemory;
use std::alloc::Global;

/// Writes a record to the journal, unless its length would pass the limit. All memory is taken before the disk is asked.
/// Cost: linear in the record, and two syncs.
pub(crate) fn write<D: Disk>(
    alloc: Global,
    journal: &mut Journal<D>,
    limit: u64,
    rec: &Rec,
) -> Result<(), CreateFault>
    requires kept { IsKept rec.now }
    ensures outcome { (settings : schema.Settings) (u : Upkeep) → settings.limit ≡ limit → length_of journal.old ≡ u.journal
        → TellsOutcome result (outcome_of settings (fails create_fault result) u rec.now) }
    ensures longer { OnOk result ((u : Upkeep) → length_of journal.old ≡ u.journal → length_of journal.new ≡ need u rec.now) }
    ensures stays { OnErr result (length_of journal.new ≡ length_of journal.old) }
    ensures log { LogsWrite D.seen D.may_leave D.moment D.left_since result rec.now journal.old journal.new }
    ensures later { D.failures journal.old.disk ≤ D.failures journal.new.disk }
    // A record that is refused for its length or for want of memory never reaches the disk.
    ensures untouched { result ≢ Err CreateFault.Store → OnErr result (IsUntouched D.seen D.may_leave D.failures journal.old.disk journal.new.disk) }
    ensures cause { result ≡ Err CreateFault.Store → Rose (D.failures journal.old.disk) (D.failures journal.new.disk) }
{
    let size = size(rec);
    let need = journal.need(size);
    if need > limit {
        return Err(CreateFault::Full { need, limit });
    }
    if size > u64::from(u32::MAX) {
        return Err(CreateFault::NoMemory);
    }
    let payload = encode(alloc, rec)?;
    journal.reserve(payload.len() as u64)?;
    match journal.put(payload.as_slice()) {
        Ok(()) => Ok(()),
        Err(_) => Err(CreateFault::Store),
    }
}
