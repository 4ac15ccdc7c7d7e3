//! What workers do: a step is claimed and copied out, computed elsewhere, and installed where its view still stands where
//! it begins.
ghost use Rattle.std.specs.Prelude.{◌≡◌, ◌<◌, None, true, is_some, IfOk, OnErr};
ghost use Rattle.lv_schema.specs.UpkeepCases.{fetching, installing, released};
ghost use Rattle.lv_schema.specs.WholeWorld.{maintained, with_upkeep};
ghost use Rattle.lv_schema.specs.World.{World};
ghost use Rattle.lv_schema.specs.World as schema;
ghost use Rattle.lv_upkeep.specs.Kept.{claim_kept};
ghost use Rattle.lv_store.specs.Maintaining.{GivesClaim, GivesFetch, GivesInstall, TakesGiven, TakesInstalled, next_in};
ghost use Rattle.lv_store.specs.Kept.{IsStore, Stands, store_of};

use crate::installed::Installed;
use crate::installing::install_in;
use crate::store::Store;
use lv_maint::{JobInput, JobResult};
use lv_picker::Picker;
use lv_schema::Forced;
use lv_values::{NoMemory, Steps};
use std::alloc::Global;
use std::sync::ledger::Ledger;

impl Store {
    /// What a worker has claimed.
    pub fn claim(&self, worker: u32) -> Option<Forced>
        requires worker { worker < 9 }
        ensures { result ≡ claim_kept (store_of self.now).upkeep worker }
    {
        self.upkeep.claim(worker)
    }

    /// The step that a worker would be given, none where no view that nobody has claimed has pending tasks. Nothing moves.
    /// Cost: a look at each view, and at each task that the step takes.
    fn next_step(&self, alloc: Global, picker: &Picker) -> Result<Option<Forced>, NoMemory>
        requires whole { IsStore self.now }
        ensures { IfOk result (λ step. step ≡ next_in picker.now.kind self.now) }
    {
        let pending = self.upkeep.unclaimed(alloc)?;
        let list = pending.as_slice();
        if list.is_empty() {
            return Ok(None);
        }
        let view = list[picker.choose(list)].view;
        let last = self.base.last();
        Ok(
            self.upkeep
                .planned(view, last, &self.txns, self.settings.combine),
        )
    }

    /// A worker claims the step that a fetch would give it, and nothing is copied out. Cost: that of choosing it.
    pub fn claim_next(
        &mut self,
        alloc: Global,
        worker: u32,
        picker: &Picker,
    ) -> Result<Option<Forced>, NoMemory>
        requires whole { IsStore self.old }
        requires worker { worker < 9 }
        requires free { claim_kept (store_of self.old).upkeep worker ≡ None }
        ensures done { (w : World) (settings : schema.Settings) → settings.combine ≡ (store_of self.old).settings.combine → settings.policy ≡ picker.now.kind → Stands w (store_of self.old)
            → IfOk result (λ step. GivesClaim (maintained (fetching settings worker w) w) step (store_of self.new)) }
        ensures refused { OnErr result (store_of self.new ≡ store_of self.old) }
        ensures others { store_of self.new ≡ record (store_of self.old) { upkeep = (store_of self.new).upkeep } }
        ensures whole { IsStore self.new }
    {
        let Some(step) = self.next_step(alloc, picker)? else {
            return Ok(None);
        };
        self.upkeep.set_claim(worker, step);
        Ok(Some(step))
    }

    /// A worker fetches a step. Cost: that of choosing it and of its input. It reads nothing where it answers none, and else
    /// at most what the step costs, also for want of memory.
    pub fn fetch<L: Ledger>(
        &mut self,
        alloc: Global,
        worker: u32,
        picker: &Picker,
        steps: &mut Steps<L>,
    ) -> Result<Option<JobInput>, NoMemory>
        requires whole { IsStore self.old }
        requires worker { worker < 9 }
        requires free { claim_kept (store_of self.old).upkeep worker ≡ None }
        ensures done { (w : World) (settings : schema.Settings) → settings.combine ≡ (store_of self.old).settings.combine → settings.policy ≡ picker.now.kind → Stands w (store_of self.old)
            → IfOk result (λ input. GivesFetch w.visible (maintained (fetching settings worker w) w) input (store_of self.new)) }
        ensures most { (w : World) (settings : schema.Settings) → settings.combine ≡ (store_of self.old).settings.combine → settings.policy ≡ picker.now.kind → Stands w (store_of self.old)
            → TakesGiven w.visible (fetching settings worker w).0 steps.old steps.new }
        ensures refused { OnErr result (store_of self.new ≡ store_of self.old) }
        ensures others { store_of self.new ≡ record (store_of self.old) { upkeep = (store_of self.new).upkeep } }
        ensures whole { IsStore self.new }
    {
        let Some(step) = self.next_step(alloc, picker)? else {
            return Ok(None);
        };
        let input = self.input(alloc, step, steps)?;
        self.upkeep.set_claim(worker, step);
        Ok(Some(input))
    }

    /// A worker installs its step. Cost: that of the step's input, of its difference where there is no offer for that
    /// input, and of the install. It reads nothing where the view has moved on, and else at most what the step costs, also
    /// for want of memory.
    pub fn install<L: Ledger>(
        &mut self,
        alloc: Global,
        worker: u32,
        offer: Option<JobResult>,
        steps: &mut Steps<L>,
    ) -> Result<Installed, NoMemory>
        requires whole { IsStore self.old }
        requires worker { worker < 9 }
        requires claimed { is_some (claim_kept (store_of self.old).upkeep worker) ≡ true }
        ensures done { (w : World) → Stands w (store_of self.old) → IfOk result (λ answer. GivesInstall (maintained (installing worker w.upkeep) w) answer (store_of self.new)) }
        ensures most { (w : World) → Stands w (store_of self.old) → TakesInstalled w.visible (installing worker w.upkeep).0 steps.old steps.new }
        ensures refused { OnErr result (store_of self.new ≡ store_of self.old) }
        ensures others { store_of self.new ≡ record (store_of self.old) { upkeep = (store_of self.new).upkeep; rows = (store_of self.new).rows } }
        ensures whole { IsStore self.new }
    {
        let Forced { view, lo, hi } = self.upkeep.claim(worker).unwrap();
        let point = self.upkeep.point(view);
        if point != lo {
            self.upkeep.end_claim(worker);
            return Ok(Installed::Moved {
                view,
                lo,
                hi,
                point,
            });
        }
        let changes = self.step_changes(alloc, Forced { view, lo, hi }, offer, steps)?;
        let floor = self.least_read();
        install_in(alloc, view, hi, changes, floor, &mut self.rows)?;
        self.upkeep.advance(view, hi);
        self.upkeep.end_claim(worker);
        Ok(Installed::Done { view, lo, hi })
    }

    /// A worker gives its claim up.
    pub fn release(&mut self, worker: u32)
        requires whole { IsStore self.old }
        requires worker { worker < 9 }
        requires claimed { is_some (claim_kept (store_of self.old).upkeep worker) ≡ true }
        ensures case { (w : World) → Stands w (store_of self.old) → Stands (with_upkeep (released worker w.upkeep) w) (store_of self.new) }
        ensures others { store_of self.new ≡ record (store_of self.old) { upkeep = (store_of self.new).upkeep } }
        ensures free { claim_kept (store_of self.new).upkeep worker ≡ None }
        ensures whole { IsStore self.new }
    {
        self.upkeep.end_claim(worker);
    }
}
