//! Marks: how far a view is maintained, as the journal keeps it.
ghost use Rattle.std.specs.Prelude.{◌≡◌, ◌≢◌, ◌<◌, length, slice_index};
ghost use Rattle.lv_schema.specs.UpkeepCases.{mark_record};
ghost use Rattle.lv_schema.specs.World.{World};
ghost use Rattle.lv_upkeep.specs.Moves.{upkeep_marked};
ghost use Rattle.lv_store.specs.Answering.{wrote};
ghost use Rattle.lv_store.specs.Kept.{IsStore, Stands, store_of};

use crate::store::Store;
use lv_stands::{what_stands_is_whole, workers_keep_what_stands};

impl Store {
    /// The commit to which a view is marked as maintained.
    pub fn marked(&self, view: u32) -> u64
        requires whole { IsStore self.now }
        requires view { view < length (store_of self.now).views }
        ensures { result ≡ slice_index (store_of self.now).upkeep.marks view }
    {
        what_stands_is_whole();
        self.upkeep.marked(view)
    }

    /// Marks a view as maintained to its point, which is not its mark. It takes no memory. Cost: constant.
    pub fn mark(&mut self, view: u32)
        requires whole { IsStore self.old }
        requires view { view < length (store_of self.old).views }
        requires moved { slice_index (store_of self.old).upkeep.marks view ≢ slice_index (store_of self.old).upkeep.points view }
        ensures case { (w : World) → Stands w (store_of self.old) → Stands (wrote (mark_record view w.upkeep) w.visible w) (store_of self.new) }
        ensures others { store_of self.new ≡ record (store_of self.old) { upkeep = upkeep_marked view (store_of self.old).upkeep } }
        ensures whole { IsStore self.new }
    {
        what_stands_is_whole();
        workers_keep_what_stands();
        self.upkeep.mark(view);
    }
}
