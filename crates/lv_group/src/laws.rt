//! Laws about the definitions: each is the contract of a function that does nothing.
ghost use Rattle.std.specs.Prelude.{◌≡◌, true, ◌≤◌, ◌^◌, List, length};
ghost use Rattle.std.specs.List.{list_all, AllByRecursion};
ghost use Rattle.lv_values.specs.declared.value.Value.{Value};
ghost use Rattle.lv_schema.specs.declared.view.ViewDef.{ViewDef};
ghost use Rattle.lv_schema.specs.Applicable.{IsGroup};
ghost use Rattle.lv_schema.specs.Bound.{has_col};
ghost use Rattle.lv_schema.specs.Databases.{Db};
ghost use Rattle.lv_schema.specs.Differences.{groups_of, groups_over, summed_columns, view_difference};
ghost use Rattle.lv_schema.specs.Groups.{grouped_rows};
ghost use Rattle.lv_schema.specs.JoinViews.{selected, plain_columns};
ghost use Rattle.lv_group.specs.Gathered.{Gathered, IsOfView, AreInts, regrouped, rows_of};

/// The rows that the groups of a view give are the view's, where it lists no other columns than those of its groups,
/// it sums numbers of 64 bits, and there are at most 2 ^ 64 tuples.
pub fn rows_of_groups_are_the_view_s()
    ensures { (view : ViewDef) (parts : List (List (List Value))) (g : Gathered) → view.grouped ≡ true
        → list_all (λ col. has_col col view.groups) (plain_columns view.items) ≡ true
        → AreInts view (selected view.cond parts) → length (selected view.cond parts) ≤ 2 ^ 64
        → IsOfView view g → g.groups ≡ groups_over view parts → rows_of g ≡ grouped_rows view parts }
{}

/// The groups of a view over one database, after the difference of the view to another, are its groups over that one,
/// where each of these has a tuple.
pub fn groups_after_a_difference()
    ensures { (view : ViewDef) (before after : Db) → AllByRecursion IsGroup (groups_of view after)
        → regrouped (length (summed_columns view)) (groups_of view before) (view_difference view before after) ≡ groups_of view after }
{}
