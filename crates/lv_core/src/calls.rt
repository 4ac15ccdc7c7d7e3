//! The calls of a core.
ghost use Rattle.std.specs.Prelude.{◌≡◌, [], List, true, false, is_some, replicate, None, Ok, OnErr, OnOk, IfErr, IfOk, map, ◌≤◌, ◌+◌, ℕ};
ghost use Rattle.std.specs.List.{AllZip};
ghost use Rattle.lv_outside.specs.Causes.{Rose};
ghost use Rattle.lv_values.specs.Names.{is_lower_name};
ghost use Rattle.lv_schema.specs.declared.bound.Bound.TheVariants as bound;
ghost use Rattle.lv_schema.specs.declared.query.Query.{Query as AQuery};
ghost use Rattle.lv_schema.specs.declared.rec.Rec.{Rec};
ghost use Rattle.lv_schema.specs.UpkeepCases.{fetching, installing};
ghost use Rattle.lv_plain.specs.declared.event.Event.TheVariants.{Turn as turn_of, Fetch as fetch_of, Install as install_of, Release as release_of, Mark as mark_of, Clean as clean_up};
ghost use Rattle.lv_plain.specs.Legal.{IsWorker};
ghost use Rattle.lv_plain.specs.Limits.{IsWithinLimits};
ghost use Rattle.lv_plain.specs.Programs.{may_turn, setup_answered};
ghost use Rattle.lv_upkeep.specs.Kept.{claim_kept};
ghost use Rattle.lv_store.specs.Answering.{IsCostBetween, IsInputBetween, ReadsNoTable, ReadsViews};
ghost use Rattle.lv_store.specs.Inputs.{AreCosts};
ghost use Rattle.lv_store.specs.Maintaining.{TakesGiven, TakesInstalled};
ghost use Rattle.lv_engine.specs.Kept.{length_of};
ghost use Rattle.lv_core.specs.Answering.{IsUndone};
ghost use Rattle.lv_core.specs.Run.{Gave, IsOpenedBy, IsOpening, IsRun, IsSame, IsSetupAlone, failures_shown, next_bound, next_steps, settings_of, state_of};
ghost use Rattle.lv_core.specs.Slots.{GivesSlot, slot_of, slots_without};

use crate::machine::Core;
use crate::opening::Opened;
use crate::running::Run;
use crate::slots::{Slots, give_slot, no_slots, take_slot};
use lv_engine::Engine;
use lv_maint::{JobInput, JobResult};
use lv_outside::Disk;
use lv_picker::Picker;
use lv_plain::{Entry, Program};
use lv_store::Settings;
use lv_values::{Items, NoMemory, Steps, Text};
use std::alloc::Global;
use std::sync::ledger::Ledger;

impl<D: Disk> Core<D> {
    /// A program of which no statement is answered, over an engine in which nobody is live, nothing is claimed or dropped,
    /// and each view is where it is marked, as it is opened from some records. Every slot is empty. The error is want of memory, and gives the engine back.
    pub fn new(
        alloc: Global,
        engine: Engine<D>,
        program: Program,
        picker: Picker,
    ) -> Result<Core<D>, Engine<D>>
        requires within { IsWithinLimits program }
        requires opening { IsOpening engine }
        requires records { (recs : List Rec) × IsOpenedBy D.seen D.may_leave recs engine }
        ensures program { IfOk result (λ core. core.run.program ≡ program) }
        ensures settings { IfOk result (λ core. core.run.settings ≡ settings_of engine.store.settings picker.kind) }
        ensures entries { IfOk result (λ core. core.run.entries ≡ []) }
        ensures opened { IfOk result (λ core. core.run.opened ≡ engine) }
        ensures engine { IfOk result (λ core. core.run.engine ≡ engine) }
        ensures slots { IfOk result (λ core. core.slots ≡ replicate 9 None) }
        ensures refused { IfErr result (λ back. back ≡ engine) }
    {
        let Ok(slots) = no_slots(alloc) else {
            return Err(engine);
        };
        let run = Run::new(alloc, engine, program, picker.kind())?;
        Ok(Core {
            run,
            picker,
            slots,
            alloc,
        })
    }

    /// What the core keeps of its run: its entries are legal, and its engine stands for the world after them. Where the
    /// disk's count has not risen since the core was made no entry shows that it failed; and before the setup is answered no
    /// session but the setup is live, and no worker has a claim. It is a law, and the call does nothing.
    pub fn known(&self)
        ensures run { IsRun D.seen D.may_leave D.moment D.left_since D.failures self.now.run }
        ensures unfailed { (Rose (D.failures self.now.run.opened.journal.disk) (D.failures self.now.run.engine.journal.disk) → ⊥) → failures_shown self.now.run.entries ≡ 0 }
        ensures idle { setup_answered self.now.run.program self.now.run.places ≡ false → IsSetupAlone self.now.run.engine.store }
    {
        self.run.known();
    }

    /// The engine.
    pub fn engine(&self) -> &Engine<D>
        ensures { result.now ≡ self.now.run.engine }
    {
        self.run.engine()
    }

    /// The engine, and the core is gone.
    pub fn into_engine(self) -> Engine<D>
        ensures { result ≡ self.run.engine }
    {
        let Core { run, .. } = self;
        run.into_engine()
    }

    /// The length of the journal and the disk's count when the core was made.
    pub fn opened(&self) -> Opened
        ensures length { result.length ≡ length_of self.now.run.opened.journal }
        ensures faults { result.faults ≡ D.failures self.now.run.opened.journal.disk }
    {
        self.run.opened()
    }

    /// What the engine is run with.
    pub fn settings(&self) -> Settings
        ensures { result ≡ self.now.run.engine.store.settings }
    {
        self.run.engine().settings()
    }

    /// The program.
    pub fn program(&self) -> &Program
        ensures { result.now ≡ self.now.run.program }
    {
        self.run.program()
    }

    /// The kind of the policy.
    pub fn kind(&self) -> u8
        ensures { result ≡ self.now.run.settings.policy }
    {
        self.run.policy()
    }

    /// What the events have answered, in order.
    pub fn entries(&self) -> &[Entry]
        ensures { result.now ≡ self.now.run.entries }
    {
        self.run.entries()
    }

    /// Whether a session has a statement to be answered now: one that is not answered and, where it is not the setup, the
    /// setup has none. The setup is session 0. Cost: constant.
    pub fn left(&self, session: u32) -> bool
        ensures { result ≡ may_turn self.now.run.program self.now.run.places session }
    {
        self.run.left(session)
    }

    /// What the steps are computed from that the next statement of a session would force now, where it binds to a query;
    /// else nothing. Cost: that of binding, and of the engine's `stale`.
    pub fn stale<L: Ledger>(
        &self,
        alloc: Global,
        session: u32,
        steps: &mut Steps<L>,
    ) -> Result<Items<JobInput>, NoMemory>
        requires may { may_turn self.now.run.program self.now.run.places session ≡ true }
        ensures inputs { IfOk result (λ inputs. AllZip (IsInputBetween (state_of self.now.run).world.visible) (next_steps self.now.run session) inputs) }
        ensures most { (n : ℕ) → AreCosts (IsCostBetween (state_of self.now.run).world.visible) (next_steps self.now.run session) n → steps.new ≤ steps.old + n }
    {
        self.run.stale(alloc, session, steps)
    }

    /// Answers the next statement of a session, and keeps the entry. An offer is used where it is a step's that the
    /// statement forces. After want of memory nothing has come. A query that names no table, on whose views' tables its
    /// transaction wrote nothing, reads at most what the steps cost that it forces, each by itself, also for want of memory:
    /// nothing where its views are fresh.
    /// Cost: that of binding, and of the statement's call of the engine.
    pub fn turn<L: Ledger>(
        &mut self,
        alloc: Global,
        session: u32,
        offers: Items<JobResult>,
        steps: &mut Steps<L>,
    ) -> Result<(), NoMemory>
        requires may { may_turn self.old.run.program self.old.run.places session ≡ true }
        ensures done { OnOk result (Gave D.seen D.may_leave D.moment D.left_since D.failures (turn_of session) self.old.run self.new.run) }
        ensures slots { self.new.slots ≡ self.old.slots }
        ensures kept { OnErr result (IsSame self.old.run self.new.run) }
        ensures journal { OnErr result (IsUndone D.seen D.may_leave D.moment D.left_since D.failures self.old.run.engine self.new.run.engine) }
        ensures fresh { (query : AQuery) → next_bound self.old.run session ≡ Ok (bound.Query query) → ReadsNoTable session query (state_of self.old.run).world → steps.new ≡ steps.old }
        ensures most { (query : AQuery) → next_bound self.old.run session ≡ Ok (bound.Query query) → ReadsViews session query (state_of self.old.run).world
            → (n : ℕ) → AreCosts (IsCostBetween (state_of self.old.run).world.visible) (next_steps self.old.run session) n → steps.new ≤ steps.old + n }
    {
        self.run.turn(alloc, session, offers, steps)
    }

    /// A worker fetches a step, once the setup is answered: it is busy where it has a claim, and idle where no view that
    /// nobody has claimed has a pending task. The step that is fetched becomes its claim, and what this is computed from
    /// lies in its slot. Want of memory changes nothing. Cost: that of the engine's `fetch`.
    pub fn fetch<L: Ledger>(
        &mut self,
        alloc: Global,
        worker: u32,
        steps: &mut Steps<L>,
    ) -> Result<(), NoMemory>
        requires worker { IsWorker worker }
        requires setup { setup_answered self.old.run.program self.old.run.places ≡ true }
        ensures done { OnOk result (Gave D.seen D.may_leave D.moment D.left_since D.failures (fetch_of worker) self.old.run self.new.run) }
        ensures slot { OnOk result (GivesSlot self.old.run worker self.old.slots self.new.slots) }
        ensures most { TakesGiven (state_of self.old.run).world.visible (fetching self.old.run.settings worker (state_of self.old.run).world).0 steps.old steps.new }
        ensures kept { OnErr result ((self.new.run ≡ self.old.run) × (self.new.slots ≡ self.old.slots)) }
    {
        if self.picker.kind() != self.run.policy() {
            return Err(NoMemory);
        }
        let input = self.run.fetch(alloc, worker, &self.picker, steps)?;
        give_slot(&mut self.slots, worker, input);
        Ok(())
    }

    /// A worker claims a step, once the setup is answered: its entry is that of `fetch`, and its slot stays as it is, since
    /// nothing is copied out. So it is for steps that `install_slot` computes. Want of memory changes nothing. Cost: that of
    /// the engine's `claim_next`.
    pub fn claim_next(&mut self, alloc: Global, worker: u32) -> Result<(), NoMemory>
        requires worker { IsWorker worker }
        requires setup { setup_answered self.old.run.program self.old.run.places ≡ true }
        ensures done { OnOk result (Gave D.seen D.may_leave D.moment D.left_since D.failures (fetch_of worker) self.old.run self.new.run) }
        ensures slots { self.new.slots ≡ self.old.slots }
        ensures kept { OnErr result (self.new.run ≡ self.old.run) }
    {
        if self.picker.kind() != self.run.policy() {
            return Err(NoMemory);
        }
        self.run.claim_next(alloc, worker, &self.picker)
    }

    /// Takes out what lies in a worker's slot. The run stays as it is. Cost: constant.
    pub fn take_slot(&mut self, worker: u32) -> Option<JobInput>
        requires worker { IsWorker worker }
        ensures taken { result ≡ slot_of self.old.slots worker }
        ensures slot { self.new.slots ≡ slots_without worker self.old.slots }
        ensures run { self.new.run ≡ self.old.run }
    {
        take_slot(&mut self.slots, worker)
    }

    /// A worker installs the step that it has claimed, if it has, once the setup is answered; its slot is empty then. The
    /// offer is used where it is of the step. Want of memory changes nothing. Cost: that of the engine's `install`.
    pub fn install<L: Ledger>(
        &mut self,
        alloc: Global,
        worker: u32,
        offer: JobResult,
        steps: &mut Steps<L>,
    ) -> Result<(), NoMemory>
        requires worker { IsWorker worker }
        requires setup { setup_answered self.old.run.program self.old.run.places ≡ true }
        ensures done { OnOk result (Gave D.seen D.may_leave D.moment D.left_since D.failures (install_of worker) self.old.run self.new.run) }
        ensures most { TakesInstalled (state_of self.old.run).world.visible (installing worker (state_of self.old.run).world.upkeep).0 steps.old steps.new }
        ensures slot { OnOk result (self.new.slots ≡ slots_without worker self.old.slots) }
        ensures kept { OnErr result ((self.new.run ≡ self.old.run) × (self.new.slots ≡ self.old.slots)) }
    {
        self.run.install(alloc, worker, Some(offer), steps)?;
        take_slot(&mut self.slots, worker);
        Ok(())
    }

    /// The same without an offer: the engine computes the step itself, as a slot's input would only be compared with the
    /// engine's own. So after want of memory what lies in the slot is still there.
    pub fn install_slot<L: Ledger>(
        &mut self,
        alloc: Global,
        worker: u32,
        steps: &mut Steps<L>,
    ) -> Result<(), NoMemory>
        requires worker { IsWorker worker }
        requires setup { setup_answered self.old.run.program self.old.run.places ≡ true }
        ensures done { OnOk result (Gave D.seen D.may_leave D.moment D.left_since D.failures (install_of worker) self.old.run self.new.run) }
        ensures most { TakesInstalled (state_of self.old.run).world.visible (installing worker (state_of self.old.run).world.upkeep).0 steps.old steps.new }
        ensures slot { OnOk result (self.new.slots ≡ slots_without worker self.old.slots) }
        ensures kept { OnErr result ((self.new.run ≡ self.old.run) × (self.new.slots ≡ self.old.slots)) }
    {
        self.run.install(alloc, worker, None, steps)?;
        take_slot(&mut self.slots, worker);
        Ok(())
    }

    /// A worker that has a claim gives it up; its slot is empty then. It takes no memory. Cost: constant.
    pub fn release(&mut self, worker: u32)
        requires worker { IsWorker worker }
        requires claim { is_some (claim_kept self.old.run.engine.store.upkeep worker) ≡ true }
        ensures done { Gave D.seen D.may_leave D.moment D.left_since D.failures (release_of worker) self.old.run self.new.run }
        ensures slot { self.new.slots ≡ slots_without worker self.old.slots }
    {
        self.run.release(worker);
        take_slot(&mut self.slots, worker);
    }

    /// Marks the view with this name as maintained to its point, once the setup is answered. After want of memory nothing
    /// has come. Cost: that of the engine's `mark`.
    pub fn mark(&mut self, alloc: Global, view: &Text) -> Result<(), NoMemory>
        requires setup { setup_answered self.old.run.program self.old.run.places ≡ true }
        requires name { is_lower_name view.now ≡ true }
        ensures done { OnOk result (Gave D.seen D.may_leave D.moment D.left_since D.failures (mark_of view.now) self.old.run self.new.run) }
        ensures slots { self.new.slots ≡ self.old.slots }
        ensures kept { OnErr result (IsSame self.old.run self.new.run) }
        ensures journal { OnErr result (IsUndone D.seen D.may_leave D.moment D.left_since D.failures self.old.run.engine self.new.run.engine) }
    {
        self.run.mark(alloc, view)
    }

    /// Drops what nobody needs, once the setup is answered, and keeps the entry of what is left. Want of memory changes
    /// nothing. Cost: that of the engine's `clean`.
    pub fn clean(&mut self, alloc: Global) -> Result<(), NoMemory>
        requires setup { setup_answered self.old.run.program self.old.run.places ≡ true }
        ensures done { OnOk result (Gave D.seen D.may_leave D.moment D.left_since D.failures clean_up self.old.run self.new.run) }
        ensures slots { self.new.slots ≡ self.old.slots }
        ensures kept { OnErr result ((self.new.run ≡ self.old.run) × (self.new.slots ≡ self.old.slots)) }
    {
        self.run.clean(alloc)
    }
}
