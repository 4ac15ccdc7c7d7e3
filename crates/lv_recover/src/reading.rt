//! Reading a journal to its end.
ghost use Rattle.std.specs.Prelude.{◌≡◌, ◌≤◌, ◌++◌, ◌∷◌, [], ℕ, List, Ok, Err, OnOk, IfSome, true, false};
ghost use Rattle.lv_schema.specs.declared.rec.Rec.{Rec};
ghost use Rattle.lv_outside.specs.Causes.{Rose};
ghost use Rattle.lv_outside.specs.Images.{NoMore};
ghost use Rattle.lv_loading.specs.Loads.{Loads};
ghost use Rattle.lv_record.specs.Spelling.{Spells};
ghost use Rattle.lv_replay.specs.Applies.{applies};
ghost use Rattle.lv_replay.specs.Replayed.{state_of};
ghost use Rattle.lv_recover.specs.Opening.{IsBadBehind};
ghost use Rattle.lv_recover.specs.Reading.{EndsBehind, HasRead};

use lv_journal::{JFault, JournalReader};
use lv_loading::Loading;
use lv_outside::Disk;
use lv_record::{decode, records_are_spelled_one_way};
use lv_values::NoMemory;
use std::alloc::Global;

/// Takes the record that a payload spells, and answers whether it spells one that can be the next.
fn take(alloc: Global, payload: &[u8], loading: &mut Loading) -> Result<bool, NoMemory>
    ensures taken { (recs : List Rec) → Loads recs loading.old → result ≡ Ok true → (rec : Rec) × Spells payload.now rec × Loads (recs ++ rec ∷ []) loading.new }
    ensures refused { (recs : List Rec) → Loads recs loading.old → result ≡ Ok false → (rec : Rec) → Spells payload.now rec → applies rec (state_of recs) ≡ false }
{
    records_are_spelled_one_way();
    match decode(alloc, payload)? {
        Some(rec) => loading.apply(alloc, rec),
        None => Ok(false),
    }
}

/// Reads the next record and takes it, and answers whether there was one.
fn read_one<D: Disk>(
    alloc: Global,
    reader: &mut JournalReader<D>,
    loading: &mut Loading,
) -> Result<bool, JFault>
    ensures more { (recs : List Rec) → HasRead D.seen D.may_leave recs reader.old loading.old → result ≡ Ok true → (rec : Rec) × HasRead D.seen D.may_leave (recs ++ rec ∷ []) reader.new loading.new }
    ensures ended { (recs : List Rec) → HasRead D.seen D.may_leave recs reader.old loading.old → result ≡ Ok false → HasRead D.seen D.may_leave recs reader.new loading.new }
    ensures whole { (recs : List Rec) → HasRead D.seen D.may_leave recs reader.old loading.old → result ≡ Ok false → IfSome (D.seen reader.old.disk) (EndsBehind recs) }
    ensures flag { result ≡ Ok false → reader.new.ended ≡ true }
    ensures bad { (recs : List Rec) (offset : ℕ) → HasRead D.seen D.may_leave recs reader.old loading.old → result ≡ Err (JFault.Bad offset) → IfSome (D.seen reader.old.disk) (λ bytes. IsBadBehind bytes recs offset) }
    ensures bytes { D.seen reader.new.disk ≡ D.seen reader.old.disk }
    ensures crash { NoMore (D.may_leave reader.old.disk) (D.may_leave reader.new.disk) }
    ensures later { D.failures reader.old.disk ≤ D.failures reader.new.disk }
    ensures cause { result ≡ Err JFault.Failed → Rose (D.failures reader.old.disk) (D.failures reader.new.disk) }
{
    match reader.next()? {
        Some(payload) => {
            if take(alloc, payload.as_slice(), loading)? {
                return Ok(true);
            }
            Err(JFault::Bad {
                offset: reader.place(),
            })
        }
        None => Ok(false),
    }
}

/// Reads a journal to its end, and takes each record. 64 bits count more turns than a disk has frames.
pub(crate) fn read_all<D: Disk>(
    alloc: Global,
    reader: &mut JournalReader<D>,
    loading: &mut Loading,
) -> Result<(), JFault>
    requires { (recs : List Rec) × HasRead D.seen D.may_leave recs reader.old loading.old }
    ensures all { OnOk result ((recs : List Rec) × HasRead D.seen D.may_leave recs reader.new loading.new × IfSome (D.seen reader.old.disk) (EndsBehind recs)) }
    ensures flag { OnOk result (reader.new.ended ≡ true) }
    ensures bad { (offset : ℕ) → result ≡ Err (JFault.Bad offset) → IfSome (D.seen reader.old.disk) (λ bytes. (recs : List Rec) × IsBadBehind bytes recs offset) }
    ensures bytes { D.seen reader.new.disk ≡ D.seen reader.old.disk }
    ensures crash { NoMore (D.may_leave reader.old.disk) (D.may_leave reader.new.disk) }
    ensures later { D.failures reader.old.disk ≤ D.failures reader.new.disk }
    ensures cause { result ≡ Err JFault.Failed → Rose (D.failures reader.old.disk) (D.failures reader.new.disk) }
{
    for _ in 0..u64::MAX {
        if !read_one(alloc, reader, loading)? {
            return Ok(());
        }
    }
    Err(JFault::NoMemory)
}
