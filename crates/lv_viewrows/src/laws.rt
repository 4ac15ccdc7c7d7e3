//! Laws about the definitions: each is the contract of a function that does nothing.
ghost use Rattle.std.specs.Prelude.{◌≡◌, ℕ, List};
ghost use Rattle.std.specs.List.{AllByRecursion};
ghost use Rattle.lv_schema.specs.declared.signed.SignedRow.{SignedRow};
ghost use Rattle.lv_schema.specs.Applicable.{AreNetted};
ghost use Rattle.lv_group.specs.Gathered.{regrouped};
ghost use Rattle.lv_viewrows.specs.Changed.{SumsFit, groups_with};

/// Groups with changes are those that `Groups::apply` leaves, where each has as many sums, of 128 bits.
pub fn groups_with_changes_are_regrouped()
    ensures { (n : ℕ) (groups changes : List SignedRow) → AreNetted n groups → AreNetted n changes → AllByRecursion SumsFit groups → AllByRecursion SumsFit changes → groups_with changes groups ≡ regrouped n groups changes }
{}
