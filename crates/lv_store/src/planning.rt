//! The views that a query reads, and the steps that it forces.
ghost use Rattle.std.specs.Prelude.{◌≡◌, ◌≤◌, length, OnOk, IfOk, MatchOption};
ghost use Rattle.std.specs.List.{insert};
ghost use Rattle.std.specs.Ordering.{nat_cmp};
ghost use Rattle.lv_schema.specs.Bound.{IsBoundQuery};
ghost use Rattle.lv_schema.specs.Once.{put_once};
ghost use Rattle.lv_schema.specs.UpkeepCases.{views_of};
ghost use Rattle.lv_store.specs.Querying.{steps_in};
ghost use Rattle.lv_store.specs.Kept.{IsStore};

use crate::store::Store;
use lv_schema::{ForcedSteps, Query, Rel};
use lv_values::{Items, NoMemory};
use std::alloc::Global;
use std::cmp::Ordering;

/// Where a view belongs among others in ascending order, unless it is there. Cost: a look at each.
fn place_of(view: u32, views: &[u32]) -> Option<usize>
    ensures { MatchOption result (put_once nat_cmp view views.now ≡ views.now) (λ at. (at ≤ length views.now) × (put_once nat_cmp view views.now ≡ insert views.now at view)) }
{
    for at in 0..views.len() {
        match view.cmp(&views[at]) {
            Ordering::Less => return Some(at),
            Ordering::Equal => return None,
            Ordering::Greater => {}
        }
    }
    Some(views.len())
}

/// Puts a view among others in ascending order, unless it is there.
fn put_once(view: u32, views: &mut Items<u32>) -> Result<(), NoMemory>
    ensures { OnOk result (views.new ≡ put_once nat_cmp view views.old) }
{
    match place_of(view, views.as_slice()) {
        Some(at) => views.insert(at, view),
        None => Ok(()),
    }
}

/// The views that a query reads, ascending, each once.
pub(crate) fn views_of(alloc: Global, query: &Query) -> Result<Items<u32>, NoMemory>
    ensures { IfOk result (λ views. views ≡ views_of query.now) }
{
    let mut views = Items::new(alloc);
    let mut at = query.rels.len();
    while at > 0 {
        at -= 1;
        if let Rel::View(view) = query.rels.get(at) {
            put_once(*view, &mut views)?;
        }
    }
    Ok(views)
}

impl Store {
    /// The steps that bring the views of a query up to the snapshot of a session, view by view.
    pub(crate) fn forced(
        &self,
        alloc: Global,
        session: u32,
        query: &Query,
    ) -> Result<ForcedSteps, NoMemory>
        requires whole { IsStore self.now }
        requires bound { IsBoundQuery self.now.schema.tables self.now.schema.views query.now }
        ensures { IfOk result (λ forced. forced ≡ steps_in self.now session query.now) }
    {
        let views = views_of(alloc, query)?;
        let snapshot = self.snapshot(session);
        self.upkeep.forced(
            alloc,
            views.as_slice(),
            snapshot,
            &self.txns,
            self.settings.combine,
        )
    }
}
