//! Clean-up: what nobody needs is dropped.
ghost use Rattle.std.specs.Prelude.{◌≡◌, ◌<◌, ℕ, length};
ghost use Rattle.lv_schema.specs.UpkeepCases.{cleaning};
ghost use Rattle.lv_schema.specs.WholeWorld.{maintained};
ghost use Rattle.lv_schema.specs.World.{World};
ghost use Rattle.lv_stands.specs.Moves.{floor_kept, least_read};
ghost use Rattle.lv_store.specs.Maintaining.{GivesCleaned, KeepsNoneBelow, RowsPruned, lesser};
ghost use Rattle.lv_store.specs.Kept.{IsStore, Stands, kept, rows_in, store_of};

use crate::cleaned::Cleaned;
use crate::store::Store;
use lv_base::Kept;
use lv_values::Room;
use lv_viewrows::ViewRows;
use std::alloc::Global;

/// The lesser of a number and another one, if there is another.
fn lesser(number: u64, other: Option<u64>) -> u64
    ensures { result ≡ lesser number other }
{
    match other {
        Some(other) => number.min(other),
        None => number,
    }
}

/// Drops the versions of each view's rows that ended at or below a number.
fn prune_views(views: &mut [ViewRows], number: u64)
    ensures all { length views.new ≡ length views.old }
    ensures each { (v : ℕ) → v < length views.old → RowsPruned number (rows_in views.old v) (rows_in views.new v) }
{
    for at in 0..views.len() {
        views[at].prune(number);
    }
}

/// The same where the views are kept. It takes no memory.
fn prune_each(alloc: Global, number: u64, rows: &mut Room<ViewRows>)
    ensures all { length rows.new.list ≡ length rows.old.list }
    ensures each { (v : ℕ) → v < length rows.old.list → RowsPruned number (rows_in rows.old.list v) (rows_in rows.new.list v) }
{
    let mut views = std::mem::replace(rows, Room::new(alloc)).into_vec();
    prune_views(&mut views, number);
    *rows = Room::from_vec(views);
}

impl Store {
    /// The floor below which nobody reads the tables.
    fn floor(&self) -> u64
        ensures { result ≡ floor_kept (kept 0 (store_of self.now)) }
    {
        let last_or_point = lesser(self.base.last(), self.upkeep.least_point());
        lesser(last_or_point, self.txns.least())
    }

    /// The number below which nobody reads the views.
    pub(crate) fn least_read(&self) -> u64
        ensures { result ≡ least_read (kept 0 (store_of self.now)) }
    {
        lesser(self.base.last(), self.txns.least())
    }

    /// Drops what nobody needs.
    pub fn clean(&mut self, alloc: Global) -> Cleaned
        requires whole { IsStore self.old }
        ensures case { (w : World) → Stands w (store_of self.old) → GivesCleaned (maintained (cleaning w) w) result (store_of self.new) }
        ensures rows { KeepsNoneBelow (least_read (kept 0 (store_of self.old))) (store_of self.new).rows }
        ensures others { store_of self.new ≡ record (store_of self.old) { base = (store_of self.new).base; rows = (store_of self.new).rows } }
        ensures whole { IsStore self.new }
    {
        let floor = self.floor();
        let least = self.least_read();
        let Kept { versions, deltas } = self.base.clean(floor);
        prune_each(alloc, least, &mut self.rows);
        Cleaned {
            floor,
            versions,
            deltas,
        }
    }
}
