//! A core that actors change in turn.
ghost use Rattle.std.specs.Prelude.{◌≡◌, ◌≤◌, ℕ, None};
ghost use Rattle.lv_core.specs.Actors.{Ends, IsFree, Waits};
ghost use Rattle.lv_core.specs.Run.{HasGrown, IsRun, state_of};
ghost use Rattle.lv_core.specs.Slots.{slot_of};
ghost use Rattle.lv_plain.specs.Legal.{IsWorker};
ghost use Rattle.lv_schema.specs.UpkeepCases.{claim_of};

use crate::jobs::{Assignment, Results, compute_all};
use crate::machine::Core;
use lv_outside::{Disk, Gate};
use lv_shared::{Driven, Machine, Taken, drive};
use lv_values::{NoMemory, Steps};
use std::sync::Wait;
use std::sync::ledger::Ledger;
use std::thread::Threads;

// What the calls do to the run is said by `take_work`, `give_results` and `forget_work`.
impl<D: Disk + Send> Machine for Core<D> {
    type Work = Assignment;

    type Done = Results;

    ghost keeps = { λ core. IsRun D.seen D.may_leave D.moment D.left_since D.failures core.run };

    ghost becomes = { λ first core. HasGrown first.run core.run };

    ghost is_idle = { λ core actor. Waits core.run actor };

    ghost is_ended = { λ core actor. Ends core.run actor };

    ghost is_free = { λ core actor. IsFree core.run core.slots actor };

    fn take<L: Ledger>(
        &mut self,
        actor: u32,
        steps: &mut Steps<L>,
    ) -> Result<Taken<Assignment>, NoMemory> {
        let taken = self.take_work(actor, steps);
        self.known();
        taken
    }

    fn labour(work: Assignment) -> Result<Results, NoMemory> {
        compute_all(work)
    }

    fn give<L: Ledger>(
        &mut self,
        actor: u32,
        done: Results,
        steps: &mut Steps<L>,
    ) -> Result<(), NoMemory> {
        let given = self.give_results(actor, done, steps);
        self.known();
        given
    }

    fn forget(&mut self, actor: u32) {
        self.forget_work(actor);
        self.known();
    }
}

/// Runs actors over a core, each in a thread of its own where threads can be made: sessions 1 to `sessions`, and workers 1 to
/// `workers`, which are the actors from 17 on. Each turn is a take, the labour on what was taken, and a give; only the labour
/// is outside the lock. A session has 100,000 turns at most, and a worker `turns`, of which idle ones count. The gate is
/// called before and after each turn. `starved` says whether an actor met want of memory.
///
/// It waits for the lock. Where it returns, the core that comes back keeps its run, as each core does. That is a run of the same
/// program over the same opened engine, with all entries that there were, and others behind them; no worker has a claim, and
/// their slots are empty. Nothing says which entries came, or that any did.
pub fn drive_core<R: Threads + Wait + Sync, D: Disk + Send, G: Gate + Sync>(
    rt: &R,
    core: Core<D>,
    sessions: u32,
    workers: u32,
    turns: u32,
    gate: &G,
) -> Driven<Core<D>>
    requires sessions { sessions ≤ 16 }
    requires workers { workers ≤ 8 }
    ensures known { IsRun D.seen D.may_leave D.moment D.left_since D.failures result.machine.run }
    ensures same { HasGrown core.run result.machine.run }
    ensures free { (worker : ℕ) → IsWorker worker → claim_of (state_of result.machine.run).world.upkeep worker ≡ None }
    ensures slots { (worker : ℕ) → IsWorker worker → slot_of result.machine.slots worker ≡ None }
{
    core.known();
    drive(rt, core, sessions, workers, turns, gate)
}
