//! Laws about the definitions: each is the contract of a function that does nothing.
ghost use Rattle.std.specs.Prelude.{List};
ghost use Rattle.lv_values.specs.declared.value.Value.{Value};
ghost use Rattle.lv_schema.specs.declared.change.Change.{Change};
ghost use Rattle.lv_schema.specs.declared.table.TableDef.{TableDef};
ghost use Rattle.lv_schema.specs.declared.view.ViewDef.{ViewDef};
ghost use Rattle.lv_schema.specs.Bound.{IsBoundChange};
ghost use Rattle.lv_schema.specs.Databases.{IsTable};
ghost use Rattle.lv_schema.specs.Effects.{changed_table};
ghost use Rattle.lv_schema.specs.Sound.{IsSchema};
ghost use Rattle.lv_schema.specs.World.{table_at};
ghost use Rattle.lv_effect.specs.Sums.{ChangeSumsFit};

/// The sums that a change computes over rows of its table fit, where the change is bound: the numbers of the rows have
/// 64 bits, and its amounts are short.
pub fn sums_of_a_bound_change_fit()
    ensures { (tables : List TableDef) (views : List ViewDef) (change : Change) (rows : List (List Value)) → IsSchema tables views → IsBoundChange tables change → IsTable (table_at tables (changed_table change)) rows → ChangeSumsFit change rows }
{}
