//! What is said of any bytes.
ghost use Rattle.std.specs.Prelude.{◌≡◌, ℕ, List};
ghost use Rattle.lv_schema.specs.declared.rec.Rec.{Rec};
ghost use Rattle.lv_recover.specs.Opening.{OpensAs, BadAt};

use lv_record::records_are_spelled_one_way;

/// Bytes open as one list of records at most, or they are bad at one place at most, and never both.
pub fn bytes_open_one_way()
    ensures one { (bytes : List ℕ) (recs others : List Rec) → OpensAs bytes recs → OpensAs bytes others → recs ≡ others }
    ensures never { (bytes : List ℕ) (recs : List Rec) (offset : ℕ) → OpensAs bytes recs → BadAt bytes offset → ⊥ }
    ensures one_place { (bytes : List ℕ) (offset other : ℕ) → BadAt bytes offset → BadAt bytes other → offset ≡ other }
{
    records_are_spelled_one_way();
}
