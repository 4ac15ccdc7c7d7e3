//! Laws about the committed states: each is the contract of a function that does nothing.
ghost use Rattle.std.specs.Prelude.{◌≡◌, ℕ, List, length};
ghost use Rattle.lv_schema.specs.declared.action.Action.{Action};
ghost use Rattle.lv_schema.specs.declared.net.Net.{Net};
ghost use Rattle.lv_schema.specs.SoundWorld.{CanAct, IsSound};
ghost use Rattle.lv_schema.specs.World.{Visible, last, snap};
ghost use Rattle.lv_base.specs.Bases.{BaseRoom, CanCommit, IsReady, IsReindexed, base_of, defs_of, last_state, table_in};
ghost use Rattle.lv_stands.specs.Stands.{BaseStands};

/// A base that stands for a sound world has its tables and its last state, and can commit the actions that this state
/// can take.
pub fn bases_that_stand_can_commit()
    ensures tables { (s : Visible) (pruned : ℕ) (b : BaseRoom) → BaseStands s pruned (base_of b) → defs_of b ≡ s.tables }
    ensures state { (s : Visible) (pruned : ℕ) (b : BaseRoom) → IsSound s → BaseStands s pruned (base_of b) → last_state b ≡ snap s (last s) }
    ensures commit { (s : Visible) (pruned : ℕ) (b : BaseRoom) (actions : List Action) → IsSound s → BaseStands s pruned (base_of b) → CanAct s.tables (snap s (last s)) actions → CanCommit b actions }
{}

/// A base with other indexes keeps the same, has the same room, and can make the same commits.
pub fn indexes_are_not_kept()
    ensures kept { (old new : BaseRoom) → IsReindexed old new → base_of new ≡ base_of old }
    ensures tables { (old new : BaseRoom) → IsReindexed old new → defs_of new ≡ defs_of old }
    ensures state { (old new : BaseRoom) → IsReindexed old new → last_state new ≡ last_state old }
    ensures long { (old new : BaseRoom) → IsReindexed old new → length new.tables ≡ length old.tables }
    ensures deltas { (old new : BaseRoom) → IsReindexed old new → new.deltas ≡ old.deltas }
    ensures free { (old new : BaseRoom) → IsReindexed old new → new.free ≡ old.free }
    ensures room { (old new : BaseRoom) (t : ℕ) → IsReindexed old new → (table_in new.tables t).spare ≡ (table_in old.tables t).spare }
    ensures commit { (old new : BaseRoom) (actions : List Action) → IsReindexed old new → CanCommit old actions → CanCommit new actions }
    ensures ready { (old new : BaseRoom) (actions : List Action) (nets : List Net) → IsReindexed old new → IsReady old actions nets → IsReady new actions nets }
{}
