//! Laws about the definitions: each is the contract of a function that does nothing.
ghost use Rattle.std.specs.Prelude.{ℕ, List, map};
ghost use Rattle.lv_schema.specs.declared.action.Action.{Action};
ghost use Rattle.lv_schema.specs.declared.table.TableDef.{TableDef};
ghost use Rattle.lv_schema.specs.World.{table_at};
ghost use Rattle.lv_overlay.specs.Puts.{StandUnder};
ghost use Rattle.lv_txn.specs.Written.{put_of};

/// The rows that actions write stand under their keys.
pub fn written_rows_stand_under_their_keys()
    ensures { (tables : List TableDef) (actions : List Action) (t : ℕ) → StandUnder (table_at tables t).key t (map (put_of tables) actions) }
{}
