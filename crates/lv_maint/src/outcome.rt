//! What a step gives.
ghost use Rattle.std.specs.Prelude.{◌≡◌, IfOk};
ghost use Rattle.lv_schema.specs.Differences.{difference};
ghost use Rattle.lv_schema.specs.Jobs.{new_sides, old_sides};

use crate::input::JobInput;
use crate::summing::difference;
use lv_schema::Signed;
use lv_values::NoMemory;
use std::alloc::Global;
use std::marker::Model;

/// The input of a step, and what becomes of the view's rows or groups: the difference of the view over the rows of its
/// aliases before the step and after it.
#[derive(Drop)]
pub struct JobResult {
    input: JobInput,
    signed: Signed,
}

impl Model for JobResult {
    ghost use Rattle.std.specs.Prelude.{◌≡◌};
    ghost use Rattle.lv_schema.specs.Differences.{difference};
    ghost use Rattle.lv_schema.specs.Jobs.{new_sides, old_sides};
    ghost use Rattle.lv_maint.specs.Inputs.{Outcome};

    ghost Value = { Outcome };

    ghost use Rattle.lv_schema.specs.contracts.cond.Cond as cond;
    ghost use Rattle.std.specs.Coded.{codes};

    ghost coded = { Prim.hlevel (codes, cond.the_row.coded) };

    ghost view = { λ r. record { input = r.input; signed = r.signed } };

    ghost invariant = { λ r. r.signed ≡ difference r.input.def (old_sides r.input.parts) (new_sides r.input.parts) };
}

impl JobResult {
    /// The input of the step.
    pub fn input(&self) -> &JobInput
        ensures { result.now ≡ self.now.input }
    {
        &self.input
    }

    /// What becomes of the view's rows or groups.
    pub fn signed(&self) -> &Signed
        ensures signed { result.now ≡ self.now.signed }
        ensures difference { result.now ≡ difference self.now.input.def (old_sides self.now.input.parts) (new_sides self.now.input.parts) }
    {
        &self.signed
    }

    /// Both of them.
    pub fn into_inner(self) -> (JobInput, Signed)
        ensures input { result.0 ≡ self.input }
        ensures signed { result.1 ≡ self.signed }
        ensures difference { result.1 ≡ difference self.input.def (old_sides self.input.parts) (new_sides self.input.parts) }
    {
        let JobResult { input, signed } = self;
        (input, signed)
    }
}

/// The result of a step. One term is added up for each alias that has a change: its rows that come and those that go,
/// beside the new rows of the aliases before it and the old rows of those behind it.
///
/// Cost: for each term a join of the changed rows of one alias with the rows of the others; a sort of the entries that
/// they give, one for each run of tuples of one row or group, so that a tuple of the row or group before it takes no
/// memory and is not sorted; and for each alias a reference to each of its rows, for those that change two but for the
/// last. No row is copied but for the values that the entries list.
pub fn compute(alloc: Global, input: JobInput) -> Result<JobResult, NoMemory>
    ensures input { IfOk result (λ r. r.input ≡ input) }
    ensures difference { IfOk result (λ r. r.signed ≡ difference input.def (old_sides input.parts) (new_sides input.parts)) }
{
    let signed = difference(alloc, input.def(), input.parts())?;
    Ok(JobResult { input, signed })
}
