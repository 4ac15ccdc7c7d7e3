//! Laws about the definitions: each is the contract of a function that does nothing.
ghost use Rattle.std.specs.Prelude.{◌≡◌, ℕ, ◌<◌, List, length};
ghost use Rattle.std.specs.List.{AllByRecursion};
ghost use Rattle.lv_schema.specs.StepPlans.{forced, is_inside, planned};
ghost use Rattle.lv_schema.specs.World.{Settings, World, live};
ghost use Rattle.lv_upkeep.specs.Kept.{UpkeepKept, forced_in, planned_in};
ghost use Rattle.lv_upkeep.specs.Stands.{UpkeepStands};

/// Where the upkeep that is kept stands for a world's, the steps that are told from it are the world's.
pub fn steps_are_told_from_what_is_kept()
    ensures planned { (w : World) (u : UpkeepKept) (settings : Settings) (v m : ℕ) → UpkeepStands w u → v < length w.visible.views
        → planned_in (is_inside (live w.visible.sessions)) settings.combine u v m ≡ planned settings v w m }
    ensures forced { (w : World) (u : UpkeepKept) (settings : Settings) (m : ℕ) (views : List ℕ) → UpkeepStands w u → AllByRecursion (λ v. v < length w.visible.views) views
        → forced_in (is_inside (live w.visible.sessions)) settings.combine u views m ≡ forced settings w views m }
{}
