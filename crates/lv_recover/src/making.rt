//! From what was read to an engine.
ghost use Rattle.std.specs.Prelude.{◌≡◌, ◌<◌, List, IfOk, None, true};
ghost use Rattle.lv_schema.specs.declared.rec.Rec.{Rec};
ghost use Rattle.lv_loading.specs.Loads.{LoadingKept, Loads};
ghost use Rattle.lv_replay.specs.Replayed.{state_of};
ghost use Rattle.lv_store.specs.Kept as kept;
ghost use Rattle.lv_store.specs.Kept.{IsStore, store_of};
ghost use Rattle.lv_engine.specs.Kept.{Stands};
ghost use Rattle.lv_engine.specs.Records.{HasRecords};
ghost use Rattle.lv_recover.specs.Reading.{HasRead};
ghost use Rattle.lv_recover.specs.Reopened.{IsFreshAt};

use lv_engine::Engine;
use lv_journal::JournalReader;
use lv_loading::{Loaded, Loading};
use lv_outside::Disk;
use lv_record::records_are_spelled_one_way;
use lv_replay::journal_is_as_long_as_its_records;
use lv_store::{Settings, Store};
use lv_txn::Txns;
use lv_values::{NoMemory, Steps};
use std::alloc::Global;
use std::sync::ledger::Ledger;

/// What lies in memory once the records are read: each view is evaluated where it is marked, and nobody is live.
pub(crate) fn make_store<L: Ledger>(
    alloc: Global,
    settings: Settings,
    loading: Loading,
    steps: &mut Steps<L>,
) -> Result<Store, NoMemory>
    requires { 0 < settings.combine }
    ensures settings { IfOk result (λ s. s.settings ≡ settings) }
    ensures whole { (recs : List Rec) → Loads recs loading → IfOk result IsStore }
    ensures stands { (recs : List Rec) → Loads recs loading → IfOk result (λ s. kept.Stands (state_of recs) (store_of s)) }
    ensures fresh { (recs : List Rec) → Loads recs loading → IfOk result (λ s. IsFreshAt (store_of s)) }
{
    let txns = Txns::new(alloc)?;
    let Loaded {
        schema,
        base,
        upkeep,
        rows,
    } = loading.finish(alloc, steps)?;
    Ok(Store {
        settings,
        schema,
        base,
        upkeep,
        rows,
        txns,
    })
}

/// The engine over a journal that was read to its end.
pub(crate) fn make_engine<D: Disk>(store: Store, reader: JournalReader<D>) -> Engine<D>
    requires whole { IsStore store }
    requires ended { reader.ended ≡ true }
    ensures store { result.store ≡ store_of store }
    ensures stands { (recs : List Rec) (k : LoadingKept) → HasRead D.seen D.may_leave recs reader k → kept.Stands (state_of recs) (store_of store) → Stands (state_of recs) result }
    ensures records { (recs : List Rec) (k : LoadingKept) → HasRead D.seen D.may_leave recs reader k → HasRecords D.seen D.may_leave recs None result.journal }
    ensures disk { result.journal.disk ≡ reader.disk }
{
    let journal = reader.finish();
    journal.meaning();
    records_are_spelled_one_way();
    journal_is_as_long_as_its_records();
    Engine::open(store, journal)
}
