//! Forced steps of one view, one behind the other, are taken as one step where nobody reads between them and all but the
//! last one keep links: then the one step costs no more than they would.
ghost use Rattle.std.specs.Prelude.{◌≡◌, ◌↔◌, ◌≤◌, ◌==◌, ◌&&◌, ◌++◌, ◌∷◌, List, [], not, true, IfOk};
ghost use Rattle.std.specs.List.{AllByRecursion};
ghost use Rattle.lv_schema.specs.declared.forced.Forced.{Forced};
ghost use Rattle.lv_schema.specs.Steady.{IsStep};
ghost use Rattle.lv_schema.specs.StepPlans.{is_inside};
ghost use Rattle.lv_schema.specs.World.{World};
ghost use Rattle.lv_stands.specs.Moves.{StepsFollow};
ghost use Rattle.lv_txn.specs.Kept.{live_kept};
ghost use Rattle.lv_joining.specs.Kept.{KeepsLinksBetween};
ghost use Rattle.lv_store.specs.Querying.{CanCompute, InPlaceOf, IsJoined};
ghost use Rattle.lv_store.specs.Kept.{IsStore, Stands, store_of};

use crate::store::Store;
use lv_joining::step_keeps_links;
use lv_maint::JobResult;
use lv_schema::{Forced, ForcedSteps, Live};
use lv_values::{Copying, Items, NoMemory};
use std::alloc::Global;

impl Store {
    /// Whether a step goes on with the same view where the one before it ends, and no live snapshot is between their ends.
    fn goes_on(&self, before: Forced, step: Forced) -> bool
        ensures { result ≡ ((before.view == step.view) && (before.hi == step.lo) && not (is_inside (live_kept self.now.txns) before.hi step.hi)) }
    {
        before.view == step.view && before.hi == step.lo && !self.txns.inside(before.hi, step.hi)
    }

    /// Whether a step keeps links. Cost: for each alias of its view the condensing of the entries between its commits.
    fn keeps_links(&self, alloc: Global, step: Forced) -> Result<bool, NoMemory>
        requires whole { IsStore self.now }
        requires can { CanCompute self.now step }
        ensures { (w : World) → Stands w (store_of self.now) → IsStep w.visible step → w.upkeep.pruned ≤ step.lo → IfOk result (λ keeps. (keeps ≡ true) ↔ KeepsLinksBetween w.visible step.view step.lo step.hi) }
    {
        step_keeps_links(alloc, &self.base, self.schema.view(step.view), step)
    }

    /// Whether a step can be joined to one that is taken in place of some, of which `before` is the last.
    fn can_join(
        &self,
        alloc: Global,
        joined: Forced,
        before: Forced,
        step: Forced,
    ) -> Result<bool, NoMemory>
        requires whole { IsStore self.now }
        requires can { CanCompute self.now before }
        ensures goes { IfOk result (λ can. can ≡ true → ((joined.view == step.view) && (joined.hi == step.lo) && not (is_inside (live_kept self.now.txns) joined.hi step.hi)) ≡ true) }
        ensures keeps { (w : World) → Stands w (store_of self.now) → IsStep w.visible before → w.upkeep.pruned ≤ before.lo → IfOk result (λ can. can ≡ true → KeepsLinksBetween w.visible before.view before.lo before.hi) }
    {
        if !self.goes_on(joined, step) {
            return Ok(false);
        }
        self.keeps_links(alloc, before)
    }

    /// The step that is to be taken next, behind those that are taken for sure: `step` joined to the last one where it can
    /// be, or else `step` itself, and the last one is taken.
    fn join_step(
        &self,
        alloc: Global,
        joined: Forced,
        before: Forced,
        step: Forced,
        taken: &mut ForcedSteps,
    ) -> Result<Forced, NoMemory>
        requires whole { IsStore self.now }
        requires can { CanCompute self.now before }
        ensures { (w : World) (rest : List Forced) → Stands w (store_of self.now) → IsJoined w.visible joined before → IsStep w.visible before → w.upkeep.pruned ≤ before.lo → StepsFollow w (taken.old ++ joined ∷ step ∷ rest)
            → IfOk result (λ next. IsJoined w.visible next step × InPlaceOf w (taken.old ++ joined ∷ step ∷ rest) (taken.new ++ next ∷ rest)) }
    {
        if self.can_join(alloc, joined, before, step)? {
            return Ok(Forced {
                view: joined.view,
                lo: joined.lo,
                hi: step.hi,
            });
        }
        taken.push(joined)?;
        Ok(step)
    }

    /// The steps that are taken in place of a first one and these behind it.
    fn join_all(
        &self,
        alloc: Global,
        first: Forced,
        rest: &[Forced],
    ) -> Result<ForcedSteps, NoMemory>
        requires whole { IsStore self.now }
        requires can { AllByRecursion (CanCompute self.now) (first ∷ rest.now) }
        ensures { (w : World) → Stands w (store_of self.now) → StepsFollow w (first ∷ rest.now) → IfOk result (λ taken. InPlaceOf w (first ∷ rest.now) taken) }
    {
        let mut taken = ForcedSteps::new(alloc);
        let mut joined = first;
        let mut before = first;
        for step in rest {
            joined = self.join_step(alloc, joined, before, *step, &mut taken)?;
            before = *step;
        }
        taken.push(joined)?;
        Ok(taken)
    }

    /// The fewest steps that lead where these lead and cost no more.
    fn joined(&self, alloc: Global, forced: &[Forced]) -> Result<ForcedSteps, NoMemory>
        requires whole { IsStore self.now }
        requires can { AllByRecursion (CanCompute self.now) forced.now }
        ensures taken { (w : World) → Stands w (store_of self.now) → StepsFollow w forced.now → IfOk result (λ taken. InPlaceOf w forced.now taken) }
        ensures none { forced.now ≡ [] → IfOk result (λ taken. taken ≡ []) }
    {
        match forced.split_first() {
            Some((first, rest)) => self.join_all(alloc, *first, rest),
            None => Ok(ForcedSteps::new(alloc)),
        }
    }

    /// The steps that are taken where these are forced: the steps themselves where there are offers, which are for single
    /// steps, or else fewer that lead there and cost no more.
    pub(crate) fn to_take(
        &self,
        alloc: Global,
        forced: &ForcedSteps,
        offers: &Items<JobResult>,
    ) -> Result<ForcedSteps, NoMemory>
        requires whole { IsStore self.now }
        requires can { AllByRecursion (CanCompute self.now) forced.now }
        ensures taken { (w : World) → Stands w (store_of self.now) → StepsFollow w forced.now → IfOk result (λ taken. InPlaceOf w forced.now taken) }
        ensures none { forced.now ≡ [] → IfOk result (λ taken. taken ≡ []) }
    {
        if offers.is_empty() {
            self.joined(alloc, forced.as_slice())
        } else {
            forced.copy(alloc)
        }
    }
}
