//! What steps are computed from.
ghost use Rattle.std.specs.Prelude.{◌≡◌, ◌≤◌, ◌+◌, ℕ, IfOk};
ghost use Rattle.std.specs.List.{AllByRecursion, AllZip};
ghost use Rattle.lv_store.specs.Inputs.{AreCosts};
ghost use Rattle.lv_store.specs.Querying.{CanCompute, IsCostIn, IsInputIn, changes_in};
ghost use Rattle.lv_store.specs.Kept.{IsStore};

use crate::store::Store;
use lv_maint::JobInput;
use lv_near::{step_difference, step_input};
use lv_schema::{Forced, Signed};
use lv_values::{Items, NoMemory, Steps};
use std::alloc::Global;
use std::sync::ledger::Ledger;

impl Store {
    /// What a step is computed from. Cost: for each alias of its view the condensing of the entries between its commits,
    /// and a look-up for each row that can join a changed one; a far alias is scanned. So it is by what changed, and not
    /// by what is there, unless an alias is far.
    pub(crate) fn input<L: Ledger>(
        &self,
        alloc: Global,
        step: Forced,
        steps: &mut Steps<L>,
    ) -> Result<JobInput, NoMemory>
        requires whole { IsStore self.now }
        requires can { CanCompute self.now step }
        ensures input { IfOk result (IsInputIn self.now step) }
        ensures most { (n : ℕ) → IsCostIn self.now step n → steps.new ≤ steps.old + n }
    {
        let def = self.schema.view(step.view);
        step_input(alloc, &self.base, def, step.lo, step.hi, steps)
    }

    /// The difference that a step gives, computed. Cost: that of the step's input, without a copy of the view, and of the
    /// difference.
    pub(crate) fn difference<L: Ledger>(
        &self,
        alloc: Global,
        step: Forced,
        steps: &mut Steps<L>,
    ) -> Result<Signed, NoMemory>
        requires whole { IsStore self.now }
        requires can { CanCompute self.now step }
        ensures changes { IfOk result (λ changes. changes ≡ changes_in self.now step) }
        ensures most { (n : ℕ) → IsCostIn self.now step n → steps.new ≤ steps.old + n }
    {
        let def = self.schema.view(step.view);
        step_difference(alloc, &self.base, def, step.lo, step.hi, steps)
    }

    /// What each of these steps is computed from.
    pub(crate) fn inputs<L: Ledger>(
        &self,
        alloc: Global,
        forced: &[Forced],
        steps: &mut Steps<L>,
    ) -> Result<Items<JobInput>, NoMemory>
        requires whole { IsStore self.now }
        requires can { AllByRecursion (CanCompute self.now) forced.now }
        ensures inputs { IfOk result (λ inputs. AllZip (IsInputIn self.now) forced.now inputs) }
        ensures most { (n : ℕ) → AreCosts (IsCostIn self.now) forced.now n → steps.new ≤ steps.old + n }
    {
        let mut inputs = Items::new(alloc);
        for step in forced {
            inputs.push(self.input(alloc, *step, steps)?)?;
        }
        Ok(inputs)
    }
}
