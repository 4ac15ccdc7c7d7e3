//! What is said of every record and of any bytes.
ghost use Rattle.std.specs.Prelude.{◌≡◌, ℕ, List, true, length};
ghost use Rattle.lv_schema.specs.Bound.{IsBoundTable, IsBoundView};
ghost use Rattle.lv_schema.specs.Databases.{Db};
ghost use Rattle.lv_schema.specs.Records.{record_size, table_record, view_record, commit_record};
ghost use Rattle.lv_schema.specs.Sound.{IsSchema};
ghost use Rattle.lv_schema.specs.SoundWorld.{CanAct};
ghost use Rattle.lv_schema.specs.World.{Visible};
ghost use Rattle.lv_schema.specs.declared.open.Open.{Open};
ghost use Rattle.lv_schema.specs.declared.table.TableDef.{TableDef};
ghost use Rattle.lv_schema.specs.declared.view.ViewDef.{ViewDef};
ghost use Rattle.lv_schema.specs.declared.rec.Rec.{Rec as SomeRec};
ghost use Rattle.lv_record.specs.Kept.{IsKept, HasFewActions, is_typed};
ghost use Rattle.lv_record.specs.Spelling.{Spells, spelling};

/// Exactly those records have a spelling that the journal can keep, that are as their types say, and that have no more
/// actions than four bytes can count.
pub fn kept_records_are_spelled()
    ensures spelled { (r : SomeRec) → IsKept r → is_typed r ≡ true → HasFewActions r → Spells (spelling r) r }
    ensures kept { (bytes : List ℕ) (r : SomeRec) → Spells bytes r → IsKept r × (is_typed r ≡ true) × HasFewActions r }
{}

/// A record has one spelling, bytes spell one record at most, and a spelling is as long as the record's size says.
pub fn records_are_spelled_one_way()
    ensures one_spelling { (bytes others : List ℕ) (r : SomeRec) → Spells bytes r → Spells others r → bytes ≡ others }
    ensures one_record { (bytes : List ℕ) (a b : SomeRec) → Spells bytes a → Spells bytes b → a ≡ b }
    ensures long { (bytes : List ℕ) (r : SomeRec) → Spells bytes r → length bytes ≡ record_size r }
{}

/// What statements make can be kept: the record of a bound table, of a bound view, and of actions that can be taken.
pub fn what_is_made_can_be_kept()
    ensures tables { (tables : List TableDef) (views : List ViewDef) (def : TableDef) → IsBoundTable tables views def → IsKept (table_record def) }
    ensures views { (tables : List TableDef) (views : List ViewDef) (def : ViewDef) (s : Visible) → IsSchema tables views → IsBoundView tables views def → IsKept (view_record def s) }
    ensures commits { (tables : List TableDef) (views : List ViewDef) (db : Db) (o : Open) (s : Visible) → IsSchema tables views → CanAct tables db o.actions → IsKept (commit_record o s) }
{}
