//! BEGIN and ROLLBACK, and what is told without a statement.
ghost use Rattle.std.specs.Prelude.{◌≡◌, ◌<◌, Ok, Some, None, slice_index, slice_set, length, IfOk};
ghost use Rattle.lv_schema.specs.Cases.{began, rolled_back};
ghost use Rattle.lv_schema.specs.Tasks.{pending_tasks};
ghost use Rattle.lv_schema.specs.WholeWorld.{world_after};
ghost use Rattle.lv_schema.specs.World.{World, empty_world};
ghost use Rattle.lv_txn.specs.Kept.{IsLive, begun, transaction_at};
ghost use Rattle.lv_store.specs.Kept.{IsStore, Stands, store_of};

use crate::settings::Settings;
use crate::store::Store;
use lv_base::Base;
use lv_schema::Schema;
use lv_stands::{
    transactions_come_and_go, upkeep_is_told_from_what_is_kept, what_is_made_stands,
    what_stands_is_whole,
};
use lv_txn::Txns;
use lv_upkeep::Upkeep;
use lv_values::{Items, NoMemory, Room};
use std::alloc::Global;

impl Store {
    /// Nothing, and nobody live.
    pub fn new(alloc: Global, settings: Settings) -> Result<Store, NoMemory>
        requires { 0 < settings.combine }
        ensures settings { IfOk result (λ p. (store_of p).settings ≡ settings) }
        ensures stands { IfOk result (λ p. Stands empty_world (store_of p)) }
        ensures whole { IfOk result IsStore }
    {
        what_is_made_stands();
        let txns = Txns::new(alloc)?;
        Ok(Store {
            settings,
            schema: Schema::new(alloc),
            base: Base::new(alloc),
            upkeep: Upkeep::new(alloc),
            rows: Room::new(alloc),
            txns,
        })
    }

    /// The commit to which a view is maintained.
    pub fn point(&self, view: u32) -> u64
        requires whole { IsStore self.now }
        requires view { view < length (store_of self.now).views }
        ensures { result ≡ slice_index (store_of self.now).upkeep.points view }
    {
        what_stands_is_whole();
        self.upkeep.point(view)
    }

    /// The pending tasks of all views.
    pub fn tasks(&self, alloc: Global) -> Result<Items<(u32, u64)>, NoMemory>
        ensures { (w : World) → Stands w (store_of self.now) → IfOk result (λ list. list ≡ pending_tasks w) }
    {
        upkeep_is_told_from_what_is_kept();
        self.upkeep.tasks(alloc)
    }

    /// BEGIN.
    pub fn begin(&mut self, session: u32) -> u64
        requires whole { IsStore self.old }
        requires session { session < 17 }
        requires free { transaction_at (store_of self.old).sessions session ≡ None }
        ensures case { (w : World) → Stands w (store_of self.old) → (Ok result ≡ (began session w.visible).answer) × Stands (world_after (began session w.visible) w) (store_of self.new) }
        ensures live { transaction_at (store_of self.new).sessions session ≡ Some (begun (store_of self.old).base.number) }
        ensures others { store_of self.new ≡ record (store_of self.old) { sessions = slice_set (store_of self.old).sessions session (transaction_at (store_of self.new).sessions session) } }
        ensures whole { IsStore self.new }
    {
        transactions_come_and_go();
        what_stands_is_whole();
        let snapshot = self.base.last();
        self.txns.begin(session, snapshot);
        snapshot
    }

    /// ROLLBACK.
    pub fn rollback(&mut self, session: u32)
        requires whole { IsStore self.old }
        requires session { session < 17 }
        requires live { IsLive (store_of self.old).sessions session }
        ensures case { (w : World) → Stands w (store_of self.old) → Stands (world_after (rolled_back session w.visible) w) (store_of self.new) }
        ensures free { transaction_at (store_of self.new).sessions session ≡ None }
        ensures others { store_of self.new ≡ record (store_of self.old) { sessions = slice_set (store_of self.old).sessions session (transaction_at (store_of self.new).sessions session) } }
        ensures whole { IsStore self.new }
    {
        transactions_come_and_go();
        self.txns.end(session);
    }
}
