//! The calls of actors: sessions 1 to 16, and behind them workers 1 to 8.
ghost use Rattle.std.specs.Prelude.{◌≡◌, ◌≤◌, ◌<◌, ◌-◌, ◌↔◌, None, false, IfOk, OnErr, OnOk};
ghost use Rattle.lv_schema.specs.Policies.{unclaimed};
ghost use Rattle.lv_schema.specs.UpkeepCases.{claim_of};
ghost use Rattle.lv_plain.specs.Legal.{IsWorker};
ghost use Rattle.lv_plain.specs.Programs.{may_turn};
ghost use Rattle.lv_shared.specs.declared.machine.Taken.TheVariants.{Ended, Idle};
ghost use Rattle.lv_shared.specs.Taking.{hands_out};
ghost use Rattle.lv_core.specs.Actors.{Ends, Fetches, Frees, Gives, HandsForced, HoldsNothing, Takes, Tells, Turns, Waits, views_for};
ghost use Rattle.lv_core.specs.Run.{state_of};
ghost use Rattle.lv_core.specs.Slots.{slots_without};

use crate::jobs::{Assignment, Jobs, Results};
use crate::machine::Core;
use crate::slots::take_slot;
use lv_maint::JobResult;
use lv_outside::Disk;
use lv_shared::Taken;
use lv_values::{Items, NoMemory, Steps};
use std::sync::ledger::Ledger;

/// How many actors are sessions.
const SESSIONS: u32 = 16;

impl<D: Disk> Core<D> {
    /// What the steps are computed from that a session's next statement would force now, if it may be answered now.
    fn take_forced<L: Ledger>(
        &self,
        session: u32,
        steps: &mut Steps<L>,
    ) -> Result<Taken<Assignment>, NoMemory>
        ensures hands { HandsForced session self.now.run result }
        ensures idle { IfOk result (λ taken. taken ≡ Idle → ⊥) }
        ensures ended { IfOk result (λ taken. (taken ≡ Ended) ↔ (may_turn self.now.run.program self.now.run.places session ≡ false)) }
    {
        if !self.left(session) {
            return Ok(Taken::Ended);
        }
        let inputs = self.stale(self.alloc, session, steps)?;
        Ok(Taken::Work(Assignment::new(self.alloc, Jobs::Forced(inputs))))
    }

    /// A worker without a claim fetches a step, if there is one.
    fn take_fetched<L: Ledger>(
        &mut self,
        worker: u32,
        steps: &mut Steps<L>,
    ) -> Result<Taken<Assignment>, NoMemory>
        requires worker { IsWorker worker }
        requires free { claim_of (state_of self.old.run).world.upkeep worker ≡ None }
        ensures done { Fetches D.seen D.may_leave D.moment D.left_since D.failures worker self.old.run self.new.run result }
        ensures tells { Tells self.old.run.program self.old.run.places (unclaimed (state_of self.old.run).world) result }
        ensures slots { self.new.slots ≡ self.old.slots }
    {
        if !self.run.is_set_up() {
            return Ok(Taken::Ended);
        }
        if self.picker.kind() != self.run.policy() {
            return Err(NoMemory);
        }
        let Some(input) = self.run.fetch_any(self.alloc, worker, &self.picker, steps)? else {
            if self.run.is_answered() {
                return Ok(Taken::Ended);
            }
            return Ok(Taken::Idle);
        };
        Ok(Taken::Work(Assignment::new(self.alloc, Jobs::Fetched(input))))
    }

    /// A worker's take.
    fn take_step<L: Ledger>(
        &mut self,
        worker: u32,
        steps: &mut Steps<L>,
    ) -> Result<Taken<Assignment>, NoMemory>
        requires { IsWorker worker }
        ensures done { Takes D.seen D.may_leave D.moment D.left_since D.failures worker self.old.run self.new.run result }
        ensures tells { Tells self.old.run.program self.old.run.places (views_for worker (state_of self.old.run).world) result }
        ensures free { hands_out result ≡ false → claim_of (state_of self.new.run).world.upkeep worker ≡ None }
        ensures slots { self.new.slots ≡ slots_without worker self.old.slots }
    {
        self.run.end_claim(worker);
        take_slot(&mut self.slots, worker);
        self.take_fetched(worker, steps)
    }

    /// A session's give.
    fn give_turn<L: Ledger>(
        &mut self,
        session: u32,
        offers: Items<JobResult>,
        steps: &mut Steps<L>,
    ) -> Result<(), NoMemory>
        ensures done { Turns D.seen D.may_leave D.moment D.left_since D.failures session self.old.run self.new.run result }
        ensures slots { self.new.slots ≡ self.old.slots }
    {
        if !self.left(session) {
            return Ok(());
        }
        self.turn(self.alloc, session, offers, steps)
    }

    /// A worker's give; its slot is empty then.
    fn give_step<L: Ledger>(
        &mut self,
        worker: u32,
        offer: Option<JobResult>,
        steps: &mut Steps<L>,
    ) -> Result<(), NoMemory>
        requires { IsWorker worker }
        ensures done { Gives D.seen D.may_leave D.moment D.left_since D.failures worker self.old.run self.new.run result }
        ensures free { OnOk result (claim_of (state_of self.new.run).world.upkeep worker ≡ None) }
        ensures slots { OnOk result (self.new.slots ≡ slots_without worker self.old.slots) }
        ensures kept { OnErr result (self.new.slots ≡ self.old.slots) }
    {
        if !self.run.is_set_up() {
            self.run.known();
            take_slot(&mut self.slots, worker);
            return Ok(());
        }
        self.run
            .install_and_clean(self.alloc, worker, offer, steps)?;
        take_slot(&mut self.slots, worker);
        Ok(())
    }

    /// Hands out the next work of an actor, 1 to 24.
    ///
    /// Of a session the work is what the steps are computed from that its next statement would force now. It has ended
    /// where it has no statement to be answered now, and it never waits. The run stays as it is.
    ///
    /// Of a worker the claim ends first that it may have, and its slot is emptied. Then it fetches a step, and the work is what that is computed
    /// from. Where there is none to fetch, the worker waits if a statement is left, and has ended if none is; no entry
    /// comes of that. It has ended too where the setup is not answered. After want of memory it has no claim.
    ///
    /// Cost: that of `stale`, or of `fetch`.
    pub fn take_work<L: Ledger>(
        &mut self,
        actor: u32,
        steps: &mut Steps<L>,
    ) -> Result<Taken<Assignment>, NoMemory>
        requires first { 1 ≤ actor }
        requires last { actor ≤ 24 }
        ensures session { actor ≤ 16 → self.new.run ≡ self.old.run }
        ensures forced { actor ≤ 16 → HandsForced actor self.old.run result }
        ensures worker { 16 < actor → Takes D.seen D.may_leave D.moment D.left_since D.failures (actor - 16) self.old.run self.new.run result }
        ensures idle { IfOk result (λ taken. (taken ≡ Idle) ↔ Waits self.old.run actor) }
        ensures ended { IfOk result (λ taken. (taken ≡ Ended) ↔ Ends self.old.run actor) }
        ensures free { hands_out result ≡ false → HoldsNothing self.new.run actor }
        ensures slot { 16 < actor → self.new.slots ≡ slots_without (actor - 16) self.old.slots }
        ensures slots { actor ≤ 16 → self.new.slots ≡ self.old.slots }
    {
        if actor <= SESSIONS {
            self.take_forced(actor, steps)
        } else {
            self.take_step(actor - SESSIONS, steps)
        }
    }

    /// Hands in what the work of an actor, 1 to 24, came to; results of the other kind count as no offer.
    ///
    /// A session's next statement is answered, if that may be answered now; after want of memory nothing has come.
    ///
    /// Once the setup is answered a worker installs the step that it has claimed, if it has. Where the step is installed a
    /// clean-up follows. Want of memory changes nothing. Else the worker has no claim, and its slot is empty.
    ///
    /// Cost: that of `turn`, or of `install` and `clean`.
    pub fn give_results<L: Ledger>(
        &mut self,
        actor: u32,
        results: Results,
        steps: &mut Steps<L>,
    ) -> Result<(), NoMemory>
        requires first { 1 ≤ actor }
        requires last { actor ≤ 24 }
        ensures session { actor ≤ 16 → Turns D.seen D.may_leave D.moment D.left_since D.failures actor self.old.run self.new.run result }
        ensures worker { 16 < actor → Gives D.seen D.may_leave D.moment D.left_since D.failures (actor - 16) self.old.run self.new.run result }
        ensures free { OnOk result (HoldsNothing self.new.run actor) }
        ensures slot { OnOk result (16 < actor → self.new.slots ≡ slots_without (actor - 16) self.old.slots) }
        ensures slots { actor ≤ 16 → self.new.slots ≡ self.old.slots }
        ensures kept { OnErr result (self.new.slots ≡ self.old.slots) }
    {
        if actor <= SESSIONS {
            self.give_turn(actor, results.offers(self.alloc), steps)
        } else {
            self.give_step(actor - SESSIONS, results.offer(), steps)
        }
    }

    /// Gives the work of an actor, 1 to 24, up: the claim of a worker ends, if it has one, and its slot is empty then. Of a
    /// session nothing comes. It takes no memory. Cost: constant.
    pub fn forget_work(&mut self, actor: u32)
        requires first { 1 ≤ actor }
        requires last { actor ≤ 24 }
        ensures session { actor ≤ 16 → self.new.run ≡ self.old.run }
        ensures worker { 16 < actor → Frees D.seen D.may_leave D.moment D.left_since D.failures (actor - 16) self.old.run self.new.run }
        ensures free { HoldsNothing self.new.run actor }
        ensures slot { 16 < actor → self.new.slots ≡ slots_without (actor - 16) self.old.slots }
        ensures slots { actor ≤ 16 → self.new.slots ≡ self.old.slots }
    {
        if actor <= SESSIONS {
            return;
        }
        let worker = actor - SESSIONS;
        self.run.end_claim(worker);
        take_slot(&mut self.slots, worker);
    }
}
