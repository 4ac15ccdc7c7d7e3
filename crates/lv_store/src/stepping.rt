//! Steps of views: the difference that each gives, and how they move the points of views on.
ghost use Rattle.std.specs.Prelude.{◌≡◌, ◌<◌, ◌≤◌, ◌+◌, ℕ, true, [], length, nat_lt, slice_index_or, IfOk, IfSome, OnOk};
ghost use Rattle.std.specs.List.{AllByRecursion, list_all};
ghost use Rattle.lv_schema.specs.declared.forced.Forced.{Forced};
ghost use Rattle.lv_schema.specs.Differences.{difference};
ghost use Rattle.lv_maint.specs.Inputs.{Outcome};
ghost use Rattle.lv_schema.specs.Jobs.{new_sides, old_sides};
ghost use Rattle.lv_store.specs.Inputs.{AreCosts};
ghost use Rattle.lv_store.specs.Pending.{ArePending, difference_in, with_difference};
ghost use Rattle.lv_store.specs.Querying.{CanCompute, IsCostIn, changes_in, upkeep_after};
ghost use Rattle.lv_store.specs.Kept.{IsStore};

use crate::pending::{Difference, Pending, add_difference, none_pending};
use crate::store::Store;
use lv_maint::{JobInput, JobResult, compute};
use lv_schema::{Forced, Signed};
use lv_upkeep::Upkeep;
use lv_values::{Items, NoMemory, Steps};
use std::alloc::Global;
use std::sync::ledger::Ledger;

/// The place of an offer for an input.
fn place_of_offer(offers: &[JobResult], input: &JobInput) -> Option<usize>
    ensures { IfSome result (λ at. (at < length offers.now) × ((d : Outcome) → (slice_index_or offers.now at d).input ≡ input.now)) }
{
    offers.iter().position(|offer| offer.input().equals(input))
}

/// The difference that an offer for this very input gives, if there is one. The offer is used up.
fn offered(offers: &mut Items<JobResult>, input: &JobInput) -> Option<Signed>
    ensures { IfSome result (λ changes. changes ≡ difference input.now.def (old_sides input.now.parts) (new_sides input.now.parts)) }
{
    let at = place_of_offer(offers.as_slice(), input)?;
    let (_, changes) = offers.remove(at).into_inner();
    Some(changes)
}

/// The difference that a step gives: an offer for its very input has it, or else it is computed.
fn changes_of(
    alloc: Global,
    input: JobInput,
    offers: &mut Items<JobResult>,
) -> Result<Signed, NoMemory>
    ensures { IfOk result (λ changes. changes ≡ difference input.def (old_sides input.parts) (new_sides input.parts)) }
{
    match offered(offers, &input) {
        Some(changes) => Ok(changes),
        None => Ok(compute(alloc, input)?.into_inner().1),
    }
}

impl Store {
    /// The difference that a step gives: an offer for its very input has it, or else it is computed. Cost: that of the step's
    /// input, and of the difference where it is computed.
    fn changes<L: Ledger>(
        &self,
        alloc: Global,
        step: Forced,
        offers: &mut Items<JobResult>,
        steps: &mut Steps<L>,
    ) -> Result<Signed, NoMemory>
        requires whole { IsStore self.now }
        requires can { CanCompute self.now step }
        ensures changes { IfOk result (λ changes. changes ≡ changes_in self.now step) }
        ensures most { (n : ℕ) → IsCostIn self.now step n → steps.new ≤ steps.old + n }
    {
        if offers.is_empty() {
            return self.difference(alloc, step, steps);
        }
        let input = self.input(alloc, step, steps)?;
        changes_of(alloc, input, offers)
    }

    /// Puts the difference that a step gives behind the others of its view. Cost: that of the step's input, and of the
    /// difference where it is computed.
    fn add_step_difference<L: Ledger>(
        &self,
        alloc: Global,
        step: Forced,
        offers: &mut Items<JobResult>,
        pending: &mut Pending,
        steps: &mut Steps<L>,
    ) -> Result<(), NoMemory>
        requires whole { IsStore self.now }
        requires can { CanCompute self.now step }
        requires view { step.view < length pending.old }
        ensures added { OnOk result (pending.new ≡ with_difference step.view (difference_in self.now step) pending.old) }
        ensures most { (n : ℕ) → IsCostIn self.now step n → steps.new ≤ steps.old + n }
    {
        let changes = self.changes(alloc, step, offers, steps)?;
        let difference = Difference {
            hi: step.hi,
            changes,
        };
        add_difference(alloc, step.view, difference, pending)
    }

    /// The differences that steps give, for each view its own.
    pub(crate) fn differences<L: Ledger>(
        &self,
        alloc: Global,
        taken: &[Forced],
        mut offers: Items<JobResult>,
        steps: &mut Steps<L>,
    ) -> Result<Pending, NoMemory>
        requires whole { IsStore self.now }
        requires can { AllByRecursion (CanCompute self.now) taken.now }
        requires views { AllByRecursion (λ (f : Forced). f.view < length self.now.rows.list) taken.now }
        ensures pending { IfOk result (ArePending self.now taken.now) }
        ensures cost { taken.now ≡ [] → steps.new ≡ steps.old }
        ensures most { (n : ℕ) → AreCosts (IsCostIn self.now) taken.now n → steps.new ≤ steps.old + n }
    {
        let mut pending = none_pending(alloc, self.rows.len())?;
        for step in taken {
            self.add_step_difference(alloc, *step, &mut offers, &mut pending, steps)?;
        }
        Ok(pending)
    }
}

/// Moves the points of views on by steps, and drops the tasks up to there. It takes no memory.
pub(crate) fn advance_each(forced: &[Forced], upkeep: &mut Upkeep)
    requires { list_all (λ (f : Forced). nat_lt f.view (length upkeep.old.kept.points)) forced.now ≡ true }
    ensures { upkeep.new.kept ≡ upkeep_after forced.now upkeep.old.kept }
{
    for step in forced {
        upkeep.advance(step.view, step.hi);
    }
}
