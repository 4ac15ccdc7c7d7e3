//! A law about fresh engines: it is the contract of a function that does nothing.
ghost use Rattle.std.specs.Prelude.{◌≡◌, replicate, None};
ghost use Rattle.lv_schema.specs.World.{World};
ghost use Rattle.lv_stands.specs.Kept.{EngineKept};
ghost use Rattle.lv_stands.specs.Stands.{StandsFor};
ghost use Rattle.lv_engine.specs.Fresh.{IsFresh, world_kept};

/// A fresh engine stands for one world alone, which is told from what it keeps. And where no transaction is kept, no
/// session of the world has one.
pub fn fresh_engines_stand_for_one_world()
    ensures world { (w : World) (e : EngineKept) → IsFresh e → StandsFor w e → w ≡ world_kept e }
    ensures nobody { (w : World) (e : EngineKept) → StandsFor w e → e.sessions ≡ replicate 17 None → w.visible.sessions ≡ replicate 17 None }
{}
