//! Laws about the definitions: each is the contract of a function that does nothing.
ghost use Rattle.std.specs.Prelude.{ℕ, List};
ghost use Rattle.lv_values.specs.declared.value.Value.{Value};
ghost use Rattle.lv_overlay.specs.declared.put.Put.{Put};
ghost use Rattle.lv_overlay.specs.Puts.{rows_over, StandUnder, AreOwnRows};

/// Where the rows that were put stand under their keys, the rows over a table's rows have at each key what the writes
/// left there, and else the row below.
pub fn writes_give_own_rows()
    ensures { (key : List ℕ) (puts : List Put) (t : ℕ) (rows : List (List Value)) → StandUnder key t puts → AreOwnRows key puts t rows (rows_over key puts t rows) }
{}
