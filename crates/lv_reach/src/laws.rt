//! Laws about the definitions: each is the contract of a function that does nothing.
ghost use Rattle.std.specs.Prelude.{◌≡◌, ◌≤◌, ◌+◌, ℕ, Bool, true, false, List, filter, length};
ghost use Rattle.std.specs.List.{AllByRecursion};
ghost use Rattle.lv_schema.specs.declared.cond.Cond.{Cond};
ghost use Rattle.lv_schema.specs.declared.part.Part.{Part};
ghost use Rattle.lv_schema.specs.declared.table.Column.{Column};
ghost use Rattle.lv_schema.specs.declared.table.TableDef.{TableDef};
ghost use Rattle.lv_schema.specs.declared.view.ViewDef.{ViewDef};
ghost use Rattle.lv_schema.specs.Bound.{IsBoundCond, IsBoundView};
ghost use Rattle.lv_schema.specs.Differences.{difference};
ghost use Rattle.lv_schema.specs.Jobs.{old_sides, new_sides};
ghost use Rattle.lv_schema.specs.Nets.{has_row};
ghost use Rattle.lv_schema.specs.Truth.{holds};
ghost use Rattle.lv_schema.specs.Tuples.{Tuple, tuples};
ghost use Rattle.lv_reach.specs.declared.link.Link.{Link};
ghost use Rattle.lv_reach.specs.declared.rows.AliasRow.{AliasRow};
ghost use Rattle.lv_reach.specs.Cost.{IsReach, cost};
ghost use Rattle.lv_reach.specs.Links.{links_of};
ghost use Rattle.lv_reach.specs.Reach.{in_tuple, row_at, part_at, agree, IsPath, AreWithin, AgreesIn, is_changed, IsOver, unchanged, IsNear, KeepsReach, cut};
ghost use Rattle.lv_reach.specs.Within.{ChangesNoMore, OnlyChanges, with_lost_at, without_old};

/// A tuple that a condition keeps has equal values in both columns of each of its links.
pub fn kept_tuples_agree_in_links()
    ensures { (cond : Cond) (tuple : Tuple) → holds cond tuple ≡ true → AgreesIn (links_of cond) tuple }
{}

/// The links of a condition that is bound over some aliases are between two of them.
pub fn links_are_between_aliases()
    ensures { (aliases : List (List Column)) (cond : Cond) → IsBoundCond aliases cond → AreWithin (length aliases) (links_of cond) }
{}

/// The near rows are the least family that holds each changed row, and each old row that agrees with a row of the family.
pub fn near_rows_are_the_least()
    ensures changed { (links : List Link) (parts : List Part) (a : AliasRow) → is_changed (part_at parts a.alias) a.row ≡ true → IsNear links parts a }
    ensures agreeing { (links : List Link) (parts : List Part) (a b : AliasRow) → IsNear links parts a → has_row b.row (part_at parts b.alias).old ≡ true → agree links a b ≡ true → IsNear links parts b }
    ensures least { (links : List Link) (parts : List Part) (family : AliasRow → Bool)
        → ((a : AliasRow) → is_changed (part_at parts a.alias) a.row ≡ true → family a ≡ true)
        → ((a b : AliasRow) → family a ≡ true → has_row b.row (part_at parts b.alias).old ≡ true → agree links a b ≡ true → family b ≡ true)
        → (a : AliasRow) → IsNear links parts a → family a ≡ true }
{}

/// In a tuple that the condition keeps and that has a changed row, the row of each alias is near to which a chain of
/// links leads from that row's alias.
pub fn rows_that_join_a_changed_row_are_near()
    ensures { (cond : Cond) (parts : List Part) (tuple : Tuple) (i j : ℕ) (path : List ℕ) → AreWithin (length parts) (links_of cond) → IsOver parts tuple → holds cond tuple ≡ true
        → is_changed (part_at parts i) (row_at tuple i) ≡ true → IsPath (links_of cond) i path j → IsNear (links_of cond) parts (in_tuple tuple j) }
{}

/// The tuples without a changed row are the same before a step and after it, in the same order.
pub fn tuples_without_a_change_stay()
    ensures { (parts : List Part) → unchanged parts (tuples (old_sides parts)) ≡ unchanged parts (tuples (new_sides parts)) }
{}

/// The difference of a view over whole tables is that over the near rows, and the whole tables of the far aliases; and
/// it does not change where more of the old rows are kept. Of a bound view each link is between two of its aliases.
pub fn the_reach_gives_the_difference()
    ensures over { (view : ViewDef) (parts : List Part) (keep : AliasRow → Bool) → AreWithin (length parts) (links_of view.cond) → KeepsReach (links_of view.cond) parts keep
        → difference view (old_sides (cut keep parts)) (new_sides (cut keep parts)) ≡ difference view (old_sides parts) (new_sides parts) }
    ensures bound { (tables : List TableDef) (views : List ViewDef) (view : ViewDef) (parts : List Part) (keep : AliasRow → Bool) → IsBoundView tables views view → length parts ≡ length view.tables → KeepsReach (links_of view.cond) parts keep
        → difference view (old_sides (cut keep parts)) (new_sides (cut keep parts)) ≡ difference view (old_sides parts) (new_sides parts) }
{}

/// However the near rows are listed, the cost of a step is the same number.
pub fn the_cost_is_one_number()
    ensures { (links : List Link) (parts : List Part) (some all : List AliasRow) (f g : ℕ → Bool) → IsReach links parts some f → IsReach links parts all g → cost links parts some f ≡ cost links parts all g }
{}

/// A change costs no more than one that it lies within, and a bound that follows from its cost follows from the other's.
pub fn a_smaller_change_costs_no_more()
    ensures cost { (links : List Link) (small parts : List Part) (near near_small : List AliasRow) (far far_small : ℕ → Bool)
        → ChangesNoMore small parts → IsReach links small near_small far_small → IsReach links parts near far
        → cost links small near_small far_small ≤ cost links parts near far }
    ensures bound { (links : List Link) (small parts : List Part) (start end : ℕ) → ChangesNoMore small parts
        → ((near : List AliasRow) (far : ℕ → Bool) → IsReach links small near far → end ≤ start + cost links small near far)
        → (near : List AliasRow) (far : ℕ → Bool) → IsReach links parts near far → end ≤ start + cost links parts near far }
{}

/// A change lies within itself, and within what one lies within that it lies within; and it has less where an alias has
/// no rows before the step.
pub fn smaller_changes_add_up()
    ensures none { (parts : List Part) → ChangesNoMore parts parts }
    ensures both { (small middle parts : List Part) → ChangesNoMore small middle → ChangesNoMore middle parts → ChangesNoMore small parts }
    ensures without { (i : ℕ) (parts : List Part) → ChangesNoMore (without_old i parts) parts }
{}

/// Where one alias alone changes, the reach is that of the parts without its old rows: with those of its rows that go, it
/// gives the difference over whole tables. The rows that go are there, and those that come are not.
pub fn one_alias_that_changes_needs_no_rows_of_its_own()
    ensures { (view : ViewDef) (parts : List Part) (i : ℕ) (keep : AliasRow → Bool) → AreWithin (length parts) (links_of view.cond) → OnlyChanges i parts
        → filter (λ row. has_row row (part_at parts i).minus) (part_at parts i).old ≡ (part_at parts i).minus
        → AllByRecursion (λ row. has_row row (part_at parts i).old ≡ false) (part_at parts i).plus
        → KeepsReach (links_of view.cond) (without_old i parts) keep
        → difference view (old_sides (cut keep (with_lost_at i parts))) (new_sides (cut keep (with_lost_at i parts))) ≡ difference view (old_sides parts) (new_sides parts) }
{}
