//! From a disk to an engine.
ghost use Rattle.std.specs.Prelude.{◌≡◌, ◌⊎◌, ◌≤◌, ◌<◌, ℕ, List, [], ◌∷◌, ◌++◌, IfOk, IfErr, IfSome, MatchResult, Some, length, true};
ghost use Rattle.lv_schema.specs.declared.rec.Rec.{Rec};
ghost use Rattle.lv_journal.specs.Bytes.{magic};
ghost use Rattle.lv_journal.specs.Reading.{IsRead};
ghost use Rattle.lv_outside.specs.Causes.{Rose};
ghost use Rattle.lv_outside.specs.Images.{NoMore};
ghost use Rattle.lv_store.specs.Kept.{kept};
ghost use Rattle.lv_engine.specs.Fresh.{IsFresh};
ghost use Rattle.lv_engine.specs.Kept.{length_of};
ghost use Rattle.lv_recover.specs.Opening.{BadAt, IsBadBehind};
ghost use Rattle.lv_recover.specs.Reading.{EndsBehind, HasRead};
ghost use Rattle.lv_recover.specs.Reopened.{IsFreshAt, IsMadeOf, IsReopened};

use crate::making::{make_engine, make_store};
use crate::reading::read_all;
use crate::refusal::Reopen;
use lv_engine::Engine;
use lv_journal::{Attach, JFault, JournalReader};
use lv_loading::Loading;
use lv_outside::Disk;
use lv_store::Settings;
use lv_values::Steps;
use std::alloc::Global;
use std::sync::ledger::Ledger;

/// Makes the engine of a journal that was read to its end.
fn finish<D: Disk, L: Ledger>(
    alloc: Global,
    reader: JournalReader<D>,
    loading: Loading,
    settings: Settings,
    steps: &mut Steps<L>,
) -> Result<Engine<D>, Reopen<D>>
    requires combine { 0 < settings.combine }
    requires read { (recs : List Rec) × HasRead D.seen D.may_leave recs reader loading × IfSome (D.seen reader.disk) (EndsBehind recs) }
    requires ended { reader.ended ≡ true }
    ensures settings { IfOk result (λ e. e.store.settings ≡ settings) }
    ensures made { IfOk result (λ e. (recs : List Rec) × IsMadeOf D.seen D.may_leave (D.seen reader.disk) recs e) }
    ensures fresh { IfOk result (λ e. IsFreshAt e.store) }
    ensures disk { MatchResult result (λ e. e.journal.disk ≡ reader.disk) (λ r. r.disk ≡ reader.disk) }
    ensures memory { IfErr result (λ r. r.cause ≡ JFault.NoMemory) }
{
    match make_store(alloc, settings, loading, steps) {
        Ok(store) => Ok(make_engine(store, reader)),
        Err(_) => Err(Reopen {
            disk: reader.into_disk(),
            cause: JFault::NoMemory,
        }),
    }
}

/// Reads a journal from its first record on, and makes its engine.
fn load<D: Disk, L: Ledger>(
    alloc: Global,
    reader: JournalReader<D>,
    settings: Settings,
    steps: &mut Steps<L>,
) -> Result<Engine<D>, Reopen<D>>
    requires combine { 0 < settings.combine }
    requires begins { IsRead D.seen D.may_leave reader [] }
    ensures settings { IfOk result (λ e. e.store.settings ≡ settings) }
    ensures made { IfOk result (λ e. (recs : List Rec) × IsMadeOf D.seen D.may_leave (D.seen reader.disk) recs e) }
    ensures fresh { IfOk result (λ e. IsFreshAt e.store) }
    ensures bad { (offset : ℕ) → IfErr result (λ r. r.cause ≡ JFault.Bad offset → IfSome (D.seen reader.disk) (λ bytes. (recs : List Rec) × IsBadBehind bytes recs offset)) }
    ensures bytes { IfErr result (λ r. D.seen r.disk ≡ D.seen reader.disk) }
    ensures crash { IfErr result (λ r. NoMore (D.may_leave reader.disk) (D.may_leave r.disk)) }
    ensures later { MatchResult result (λ e. D.failures reader.disk ≤ D.failures e.journal.disk) (λ r. D.failures reader.disk ≤ D.failures r.disk) }
    ensures cause { IfErr result (λ r. r.cause ≡ JFault.Failed → Rose (D.failures reader.disk) (D.failures r.disk)) }
{
    let mut reader = reader;
    let mut loading = Loading::new(alloc);
    match read_all(alloc, &mut reader, &mut loading) {
        Ok(()) => finish(alloc, reader, loading, settings, steps),
        Err(cause) => Err(Reopen {
            disk: reader.into_disk(),
            cause,
        }),
    }
}

/// Opens the engine that a disk's journal keeps: it stands for the world that the journal's records make, nobody is live, and
/// nothing is claimed or dropped. An empty disk is a journal with no record, which is written. `Failed` only where the
/// disk's count rose in this call; `Bad` exactly where the bytes are no journal, or a frame's payload spells no record that
/// applies. The disk comes back in each case, and tells what it told, but where it was empty.
/// Cost: linear in the journal but for searches in the tables, and for each view the cost of its rows.
pub fn reopen<D: Disk, L: Ledger>(
    alloc: Global,
    disk: D,
    settings: Settings,
    steps: &mut Steps<L>,
) -> Result<Engine<D>, Reopen<D>>
    requires { 0 < settings.combine }
    ensures settings { IfOk result (λ e. e.store.settings ≡ settings) }
    ensures opened { IfOk result (λ e. (recs : List Rec) × IsReopened D.seen D.may_leave (D.seen disk) recs e) }
    ensures fresh { IfOk result (λ e. IsFresh (kept (length_of e.journal) e.store)) }
    ensures bad { (offset : ℕ) → IfErr result (λ r. r.cause ≡ JFault.Bad offset → IfSome (D.seen disk) (λ bytes. BadAt bytes offset)) }
    ensures stays { (offset : ℕ) → IfErr result (λ r. r.cause ≡ JFault.Bad offset → IfSome (D.seen disk) (λ bytes. D.seen r.disk ≡ Some bytes)) }
    // A disk that has bytes keeps them, whatever the refusal; of an empty one want of memory leaves nothing or a new journal.
    ensures left { IfErr result (λ r. IfSome (D.seen disk) (λ f. 0 < length f → D.seen r.disk ≡ Some f)) }
    ensures no_more { IfErr result (λ r. IfSome (D.seen disk) (λ f. 0 < length f → NoMore (D.may_leave disk) (D.may_leave r.disk))) }
    ensures begun { IfErr result (λ r. r.cause ≡ JFault.NoMemory → D.seen disk ≡ Some [] → (D.seen r.disk ≡ Some []) ⊎ (D.seen r.disk ≡ Some (magic ++ 0 ∷ []))) }
    ensures later { MatchResult result (λ e. D.failures disk ≤ D.failures e.journal.disk) (λ r. D.failures disk ≤ D.failures r.disk) }
    ensures cause { IfErr result (λ r. r.cause ≡ JFault.Failed → Rose (D.failures disk) (D.failures r.disk)) }
{
    match JournalReader::attach(alloc, disk) {
        Ok(reader) => load(alloc, reader, settings, steps),
        Err(Attach { disk, cause }) => Err(Reopen { disk, cause }),
    }
}
