//! The rows of all views, once the records are taken.
ghost use Rattle.std.specs.Prelude.{◌≡◌, ◌<◌, ◌≤◌, length, IfOk, OnOk};
ghost use Rattle.lv_base.specs.Bases.{IsReindexed, KeepsIndexes};
ghost use Rattle.lv_loading.specs.Making.{AreMade, HaveLinkIndexes, IsMadeAt};
ghost use Rattle.lv_loading.specs.Taking.{IsWhole};

use crate::parts::Parts;
use lv_made::{made_view, parts_at};
use lv_near::index_links;
use lv_values::{Copying, NoMemory, Room, Steps};
use lv_viewrows::ViewRows;
use std::alloc::Global;
use std::sync::ledger::Ledger;

impl Parts {
    /// A view by its definition at the commit to which it is maintained. Cost: that of the join, and of a scan of its
    /// tables.
    fn evaluated<L: Ledger>(
        &self,
        alloc: Global,
        view: u32,
        steps: &mut Steps<L>,
    ) -> Result<ViewRows, NoMemory>
        requires whole { IsWhole self.now }
        requires in_use { view < length self.now.schema.views }
        ensures { IfOk result (IsMadeAt self.now view) }
    {
        let def = self.schema.view(view);
        let commit = self.upkeep.point(view);
        let parts = parts_at(alloc, &self.base, commit, def.tables.as_slice(), steps)?;
        let copied = def.copy(alloc)?;
        made_view(alloc, copied, commit, parts.as_slice())
    }

    /// Adds the indexes in which steps of the views look rows up. All else does not change, also for want of memory.
    /// Cost: for each that is new a binary search and a move of small numbers for each version.
    pub(crate) fn index_all(&mut self, alloc: Global) -> Result<(), NoMemory>
        requires whole { IsWhole self.old }
        ensures same { self.new ≡ record self.old { base = self.new.base } }
        ensures reindexed { IsReindexed self.old.base self.new.base }
        ensures kept { KeepsIndexes self.old.base self.new.base }
        ensures there { OnOk result (HaveLinkIndexes self.new.base self.new.schema.views (length self.new.schema.views)) }
    {
        for view in 0..self.schema.views() {
            index_links(alloc, &mut self.base, self.schema.view(view))?;
        }
        Ok(())
    }

    /// All views by their definitions, each at the commit to which it is maintained.
    pub(crate) fn evaluate_all<L: Ledger>(
        &self,
        alloc: Global,
        steps: &mut Steps<L>,
    ) -> Result<Room<ViewRows>, NoMemory>
        requires whole { IsWhole self.now }
        ensures { IfOk result (λ rows. AreMade self.now (length self.now.schema.views) rows.list) }
    {
        let mut rows = Room::new(alloc);
        for view in 0..self.schema.views() {
            let made = self.evaluated(alloc, view, steps)?;
            rows.reserve(1)?;
            rows.push(made);
        }
        Ok(rows)
    }
}
