//! Laws about the definitions: each is the contract of a function that does nothing.
ghost use Rattle.std.specs.Prelude.{◌≡◌, ℕ, true, List, map, option_map, slice_get, slice_set};
ghost use Rattle.std.specs.List.{AllZip};
ghost use Rattle.std.specs.declared.cmp.Ordering.TheVariants.{Equal};
ghost use Rattle.lv_values.specs.declared.value.Value.{Value};
ghost use Rattle.lv_values.specs.Rows.{key_cmp, values_at};
ghost use Rattle.lv_schema.specs.declared.cond.Col.{Col};
ghost use Rattle.lv_schema.specs.declared.part.Part.{Part};
ghost use Rattle.lv_schema.specs.declared.table.TableDef.{TableDef};
ghost use Rattle.lv_schema.specs.declared.view.ViewDef.{ViewDef};
ghost use Rattle.lv_schema.specs.Differences.{difference, key_of, summed_columns};
ghost use Rattle.lv_schema.specs.Groups.{number_at};
ghost use Rattle.lv_schema.specs.Jobs.{IsPart, new_sides, old_sides};
ghost use Rattle.lv_schema.specs.Nets.{net_of};
ghost use Rattle.lv_schema.specs.Once.{Ascends};
ghost use Rattle.lv_schema.specs.Truth.{holds};
ghost use Rattle.lv_schema.specs.Tuples.{Tuple};
ghost use Rattle.lv_schema.specs.World.{table_at};
ghost use Rattle.lv_relevance.specs.Relevance.{IsToldOf, is_untold, part_of, same_in, told, told_part, used_columns, uses_only, without_old};

/// Without the changes that a view cannot tell, a step makes the same difference to it, and what is left are parts of the
/// tables of its aliases again.
pub fn changes_that_are_not_told_make_no_difference()
    ensures difference { (defs : List TableDef) (view : ViewDef) (parts : List Part) → AllZip (λ t p. IsPart (table_at defs t) p) view.tables parts
        → difference view (old_sides (told view parts)) (new_sides (told view parts)) ≡ difference view (old_sides parts) (new_sides parts) }
    ensures parts { (defs : List TableDef) (view : ViewDef) (parts : List Part) → AllZip (λ t p. IsPart (table_at defs t) p) view.tables parts
        → AllZip (λ t p. IsPart (table_at defs t) p) view.tables (told view parts) }
{}

/// Which changes a view can tell does not depend on the rows before the step.
pub fn old_rows_do_not_decide_what_is_told()
    ensures { (view : ViewDef) (parts : List Part) → map without_old (told view parts) ≡ told view (map without_old parts) }
{}

/// What is told of a part are its own old rows, and no changes but its own.
pub fn told_parts_have_no_other_changes()
    ensures { (view : ViewDef) (parts : List Part) → AllZip IsToldOf (told view parts) parts }
{}

/// Each alias is told by itself.
pub fn parts_are_told_alias_by_alias()
    ensures { (view : ViewDef) (parts : List Part) (alias : ℕ) → slice_get (told view parts) alias ≡ option_map (told_part (used_columns view) alias) (slice_get parts alias) }
{}

/// Of an alias of which a view uses no columns but these, two rows that have the same values in them are the same to it;
/// and with the one in its place a tuple has the same truth, the same values in the columns that tell rows or groups apart,
/// and the same numbers in those that are summed, as with the other.
pub fn rows_with_the_same_used_values_make_the_same_tuples()
    ensures same { (view : ViewDef) (alias : ℕ) (columns : List ℕ) (a b : List Value) → uses_only view alias columns ≡ true → values_at columns a ≡ values_at columns b
        → same_in (used_columns view) alias a b ≡ true }
    ensures tested { (view : ViewDef) (alias : ℕ) (tuple : Tuple) (a b : List Value) → same_in (used_columns view) alias a b ≡ true
        → holds view.cond (slice_set tuple alias a) ≡ holds view.cond (slice_set tuple alias b) }
    ensures listed { (view : ViewDef) (alias : ℕ) (tuple : Tuple) (a b : List Value) → same_in (used_columns view) alias a b ≡ true
        → key_of view (slice_set tuple alias a) ≡ key_of view (slice_set tuple alias b) }
    ensures summed { (view : ViewDef) (alias : ℕ) (tuple : Tuple) (a b : List Value) → same_in (used_columns view) alias a b ≡ true
        → map (λ col. number_at col (slice_set tuple alias a)) (summed_columns view) ≡ map (λ col. number_at col (slice_set tuple alias b)) (summed_columns view) }
{}

/// An update that leaves the key of each row as it was, and of an alias the columns of these, is not told: of the net change
/// of the table these columns show nothing.
pub fn updates_of_other_columns_are_not_told()
    ensures { (key : List ℕ) (cols : List Col) (alias : ℕ) (rows : List (List Value)) (update : List Value → List Value) → Ascends (key_cmp key) rows
        → ((row : List Value) → key_cmp key row (update row) ≡ Equal) → ((row : List Value) → same_in cols alias row (update row) ≡ true)
        → is_untold cols alias (part_of rows (net_of rows (map update rows))) ≡ true }
{}
