//! The work of actors, and what it comes to.
ghost use Rattle.std.specs.Prelude.{◌≡◌, IfOk, map};
ghost use Rattle.lv_maint.specs.Inputs.{Outcome};
ghost use Rattle.lv_core.specs.Actors.{AreOf, offer_of, offers_of};

use lv_maint::{JobInput, JobResult, compute};
use lv_values::{Items, NoMemory};
use std::alloc::Global;

/// What steps are computed from.
#[derive(Drop)]
pub enum Jobs {
    /// A session's: the steps that its next statement would force.
    Forced(Items<JobInput>),
    /// A worker's: the step that it has fetched.
    Fetched(JobInput),
}

/// What steps come to.
#[derive(Drop)]
pub enum Results {
    /// A session's offers for its next statement.
    Forced(Items<JobResult>),
    /// A worker's offer for the step that it has fetched.
    Fetched(JobResult),
}

/// The work of an actor, and the memory that it is done with.
#[derive(Drop)]
pub struct Assignment {
    alloc: Global,
    jobs: Jobs,
}

impl Assignment {
    /// These jobs, with this memory.
    pub fn new(alloc: Global, jobs: Jobs) -> Assignment
        ensures { result.jobs ≡ jobs }
    {
        Assignment { alloc, jobs }
    }
}

impl Results {
    /// A session's offers, none where these are a worker's.
    pub fn offers(self, alloc: Global) -> Items<JobResult>
        ensures { result ≡ offers_of self }
    {
        match self {
            Results::Forced(outcomes) => outcomes,
            Results::Fetched(_) => Items::new(alloc),
        }
    }

    /// A worker's offer, none where these are a session's.
    pub fn offer(self) -> Option<JobResult>
        ensures { result ≡ offer_of self }
    {
        match self {
            Results::Forced(_) => None,
            Results::Fetched(outcome) => Some(outcome),
        }
    }
}

/// The results of steps, in their order.
fn compute_each(alloc: Global, inputs: Items<JobInput>) -> Result<Items<JobResult>, NoMemory>
    ensures { IfOk result (λ outcomes. map (λ (o : Outcome). o.input) outcomes ≡ inputs) }
{
    let mut outcomes = Items::new(alloc);
    for input in inputs.into_vec() {
        outcomes.push(compute(alloc, input)?)?;
    }
    Ok(outcomes)
}

/// Does the work of an actor: each result is that of its input. It sees no core. Cost: that of `compute` for each step.
pub fn compute_all(work: Assignment) -> Result<Results, NoMemory>
    ensures { IfOk result (AreOf work.jobs) }
{
    let Assignment { alloc, jobs } = work;
    match jobs {
        Jobs::Forced(inputs) => Ok(Results::Forced(compute_each(alloc, inputs)?)),
        Jobs::Fetched(input) => Ok(Results::Fetched(compute(alloc, input)?)),
    }
}
