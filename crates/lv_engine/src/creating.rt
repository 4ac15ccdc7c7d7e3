//! CREATE TABLE and CREATE VIEW: the store takes all memory, the record is written, and the store takes what is made.
ghost use Rattle.std.specs.Prelude.{◌≡◌, ◌≢◌, ◌≤◌, [], Err, IfOk, OnErr};
ghost use Rattle.lv_outside.specs.Causes.{Rose};
ghost use Rattle.lv_schema.specs.declared.rec.Rec.TheVariants as variant;
ghost use Rattle.lv_schema.specs.declared.table.TableDef.{TableDef};
ghost use Rattle.lv_schema.specs.Bound.{IsBoundTable, IsBoundView};
ghost use Rattle.lv_schema.specs.Cases.{table_made, view_made};
ghost use Rattle.lv_schema.specs.Records.{table_record};
ghost use Rattle.lv_schema.specs.UpkeepCases.{outcome_of};
ghost use Rattle.lv_schema.specs.World.{World};
ghost use Rattle.lv_schema.specs.World as schema;
ghost use Rattle.lv_txn.specs.Kept.{live_kept};
ghost use Rattle.lv_store.specs.Kept.{IsStore, store_of};
ghost use Rattle.lv_engine.specs.Answering.{LogsCase, Meets, create_fault, fails};
ghost use Rattle.lv_engine.specs.Kept.{Stands, engine_of};
ghost use Rattle.lv_engine.specs.Writing.{IsUntouched};

use crate::fault::CreateFault;
use crate::writing::write;
use lv_journal::Journal;
use lv_outside::Disk;
use lv_replay::written_records_can_be_kept;
use lv_schema::{Rec, TableDef, ViewDef};
use lv_store::{ReadyTable, Store};
use lv_values::{Copying, NoMemory, Steps};
use std::alloc::Global;
use std::sync::ledger::Ledger;

/// The record of a table, in which it has no number.
fn table_record(def: TableDef) -> Rec
    ensures { result ≡ table_record def }
{
    Rec::Table(TableDef { no: 0, ..def })
}

/// The table of a record, with its number.
fn table_of(rec: Rec, no: u32) -> TableDef
    requires { (def : TableDef) × (rec ≡ table_record def) }
    ensures { (def : TableDef) → rec ≡ table_record def → result ≡ record def { no = no } }
{
    match rec {
        Rec::Table(def) => TableDef { no, ..def },
        Rec::View(_) | Rec::Commit { .. } | Rec::Mark { .. } => unreachable!(),
    }
}

/// The record of a view that is made, in which it has no number.
fn view_record(alloc: Global, def: &ViewDef) -> Result<Rec, NoMemory>
    ensures { IfOk result (λ r. r ≡ variant.View (record def.now { no = 0 })) }
{
    let def = def.copy(alloc)?;
    Ok(Rec::View(ViewDef { no: 0, ..def }))
}

/// CREATE TABLE.
pub(crate) fn create_table<D: Disk>(
    alloc: Global,
    store: &mut Store,
    journal: &mut Journal<D>,
    def: TableDef,
) -> Result<(), CreateFault>
    requires whole { IsStore store.old }
    requires bound { IsBoundTable (store_of store.old).tables (store_of store.old).views def }
    ensures case { (w : World) (settings : schema.Settings) → settings.limit ≡ (store_of store.old).settings.log_limit → Stands w (engine_of store.old journal.old)
        → Meets create_fault w (engine_of store.old journal.old) (engine_of store.new journal.new) result (table_made (outcome_of settings (fails create_fault result) w.upkeep) def w.visible) }
    ensures log { (w : World) (settings : schema.Settings) → settings.limit ≡ (store_of store.old).settings.log_limit → Stands w (engine_of store.old journal.old)
        → let made = table_made (outcome_of settings (fails create_fault result) w.upkeep) def w.visible in LogsCase D.seen D.may_leave D.moment D.left_since create_fault result made.attempted made.written journal.old journal.new }
    ensures settings { (store_of store.new).settings ≡ (store_of store.old).settings }
    ensures later { D.failures journal.old.disk ≤ D.failures journal.new.disk }
    ensures untouched { result ≢ Err CreateFault.Store → OnErr result (IsUntouched D.seen D.may_leave D.failures journal.old.disk journal.new.disk) }
    ensures cause { result ≡ Err CreateFault.Store → Rose (D.failures journal.old.disk) (D.failures journal.new.disk) }
    ensures whole { IsStore store.new }
{
    written_records_can_be_kept();
    let ReadyTable { def, copied } = store.prepare_table(alloc, def)?;
    let rec = table_record(copied);
    write(alloc, journal, store.settings.log_limit, &rec)?;
    let copied = table_of(rec, def.no);
    store.add_table(alloc, ReadyTable { def, copied });
    Ok(())
}

/// CREATE VIEW.
pub(crate) fn create_view<D: Disk, L: Ledger>(
    alloc: Global,
    store: &mut Store,
    journal: &mut Journal<D>,
    def: ViewDef,
    steps: &mut Steps<L>,
) -> Result<(), CreateFault>
    requires whole { IsStore store.old }
    requires bound { IsBoundView (store_of store.old).tables (store_of store.old).views def }
    requires nobody { live_kept (store_of store.old).sessions ≡ [] }
    ensures case { (w : World) (settings : schema.Settings) → settings.limit ≡ (store_of store.old).settings.log_limit → Stands w (engine_of store.old journal.old)
        → Meets create_fault w (engine_of store.old journal.old) (engine_of store.new journal.new) result (view_made (outcome_of settings (fails create_fault result) w.upkeep) def w.visible) }
    ensures log { (w : World) (settings : schema.Settings) → settings.limit ≡ (store_of store.old).settings.log_limit → Stands w (engine_of store.old journal.old)
        → let made = view_made (outcome_of settings (fails create_fault result) w.upkeep) def w.visible in LogsCase D.seen D.may_leave D.moment D.left_since create_fault result made.attempted made.written journal.old journal.new }
    ensures settings { (store_of store.new).settings ≡ (store_of store.old).settings }
    ensures later { D.failures journal.old.disk ≤ D.failures journal.new.disk }
    ensures untouched { result ≢ Err CreateFault.Store → OnErr result (IsUntouched D.seen D.may_leave D.failures journal.old.disk journal.new.disk) }
    ensures cause { result ≡ Err CreateFault.Store → Rose (D.failures journal.old.disk) (D.failures journal.new.disk) }
    ensures whole { IsStore store.new }
{
    written_records_can_be_kept();
    let ready = store.prepare_view(alloc, def, steps)?;
    let rec = view_record(alloc, &ready.def)?;
    write(alloc, journal, store.settings.log_limit, &rec)?;
    store.add_view(ready);
    Ok(())
}
