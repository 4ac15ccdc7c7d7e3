//! The run of a program over an engine. Each event adds its entry; once it has come nothing takes memory.
ghost use Rattle.std.specs.Prelude.{◌≡◌, ◌<◌, ◌≤◌, ◌+◌, ◌↔◌, [], List, None, Some, true, is_some, Ok, OnErr, OnOk, IfErr, IfOk, length, map, slice_index, ℕ};
ghost use Rattle.std.specs.List.{AllZip};
ghost use Rattle.lv_values.specs.Names.{is_lower_name};
ghost use Rattle.lv_schema.specs.declared.bound.Bound.TheVariants as bound;
ghost use Rattle.lv_schema.specs.declared.query.Query.{Query as AQuery};
ghost use Rattle.lv_schema.specs.declared.rec.Rec.{Rec};
ghost use Rattle.lv_schema.specs.Policies.{unclaimed};
ghost use Rattle.lv_schema.specs.UpkeepCases.{claim_of, fetching, installing};
ghost use Rattle.lv_maint.specs.Inputs.{Input};
ghost use Rattle.lv_plain.specs.declared.event.Event.TheVariants.{Turn as turn_of, Fetch as fetch_of, Install as install_of, Release as release_of, Mark as mark_of, Clean as clean_up};
ghost use Rattle.lv_plain.specs.Legal.{IsWorker};
ghost use Rattle.lv_plain.specs.Limits.{IsWithinLimits};
ghost use Rattle.lv_plain.specs.Programs.{all_answered, first_places, has_more, may_turn, setup_answered};
ghost use Rattle.lv_upkeep.specs.Kept.{claim_kept};
ghost use Rattle.lv_store.specs.Answering.{IsCostBetween, IsInputBetween, ReadsNoTable, ReadsViews};
ghost use Rattle.lv_store.specs.Inputs.{AreCosts};
ghost use Rattle.lv_store.specs.Maintaining.{TakesGiven, TakesInstalled};
ghost use Rattle.lv_engine.specs.Kept.{length_of};
ghost use Rattle.lv_core.specs.Actors.{Frees, HasFetched, Installs, views_for};
ghost use Rattle.lv_core.specs.Answering.{IsUndone};
ghost use Rattle.lv_core.specs.Slots.{IsNextInput};
ghost use Rattle.lv_core.specs.Run.{Gave, IsOpenedBy, IsOpening, IsRun, IsSame, next_bound, next_steps, settings_of, state_of, view_of};

use crate::answering::{answer_line, stale_line};
use crate::lines::{all_answered, has_more, line_left};
use crate::maintaining::{Given, claim_next, clean, fetch, install, is_installed, release};
use crate::marking::{mark_view, view_of_name};
use crate::opening::{Opened, Opening};
use lv_engine::Engine;
use lv_maint::{JobInput, JobResult};
use lv_outside::Disk;
use lv_picker::Picker;
use lv_plain::{Entry, Program};
use lv_values::{Copying, Items, NoMemory, Room, Steps, Text};
use std::alloc::Global;
use std::marker::Model;
use std::mem::forget;
use std::sync::ledger::Ledger;

/// A program, the engine that its statements have come to, what that was when the run began, the kind of the policy by which
/// workers choose, how many statements of each session are answered, and what the events were answered. There is spare room
/// for the entries of all who may give their claims up.
#[derive(Drop)]
pub struct Run<D: Disk> {
    engine: Engine<D>,
    opening: Opening<D>,
    program: Program,
    policy: u8,
    places: Items<u32>,
    entries: Room<Entry>,
}

impl<D: Disk> Model for Run<D> {
    ghost use Rattle.lv_core.specs.Run.{CoreView, IsKept, view_of};

    ghost Value = { CoreView D };

    ghost use Rattle.lv_schema.specs.contracts.cond.Cond as cond;
    ghost use Rattle.std.specs.Coded.{codes};

    ghost coded = { Prim.hlevel (codes, cond.the_row.coded) };

    ghost view = { λ r. view_of r.policy r.program r.engine r.opening.engine.value r.places r.entries.list };

    ghost invariant = { λ r. IsKept D.seen D.may_leave D.moment D.left_since D.failures (view_of r.policy r.program r.engine r.opening.engine.value r.places r.entries.list) r.entries.spare r.opening.counts.length r.opening.counts.faults };
}

/// No statement of any session is answered.
fn no_places(alloc: Global, program: &Program) -> Result<Items<u32>, NoMemory>
    requires { IsWithinLimits program.now }
    ensures { IfOk result (λ places. places ≡ first_places program.now) }
{
    let mut places = Items::new(alloc);
    for _ in 0..program.sessions.len() + 1 {
        places.push(0)?;
    }
    Ok(places)
}

/// No entries, with room for one of each statement of a program: a list that grew would be copied again and again.
fn room_for_all(alloc: Global, program: &Program) -> Result<Room<Entry>, NoMemory>
    requires { IsWithinLimits program.now }
    ensures { IfOk result (λ entries. entries.list ≡ []) }
{
    let mut entries = Room::new(alloc);
    entries.reserve(program.statements() as u64)?;
    Ok(entries)
}

/// How many statements of a session are answered.
fn place_of(places: &[u32], session: usize) -> u32
    requires { session < length places.now }
    ensures { result ≡ slice_index places.now session }
{
    places[session]
}

/// Makes room for the entries of a call, one or two, and for those of eight workers that may give their claims up after it.
fn make_room(entries: &mut Room<Entry>, count: u64) -> Result<(), NoMemory>
    requires { count ≤ 2 }
    ensures same { entries.new.list ≡ entries.old.list }
    ensures room { OnOk result (count + 8 ≤ entries.new.spare) }
    ensures kept { entries.old.spare ≤ entries.new.spare }
{
    entries.reserve(count + 8)
}

impl<D: Disk> Run<D> {
    /// A program of which no statement is answered, over an engine in which nobody is live, nothing is claimed or dropped,
    /// and each view is where it is marked, as it is opened from some records. Want of memory gives the engine back.
    pub fn new(
        alloc: Global,
        engine: Engine<D>,
        program: Program,
        policy: u8,
    ) -> Result<Run<D>, Engine<D>>
        requires within { IsWithinLimits program }
        requires opening { IsOpening engine }
        requires records { (recs : List Rec) × IsOpenedBy D.seen D.may_leave recs engine }
        ensures program { IfOk result (λ run. run.program ≡ program) }
        ensures settings { IfOk result (λ run. run.settings ≡ settings_of engine.store.settings policy) }
        ensures entries { IfOk result (λ run. run.entries ≡ []) }
        ensures opened { IfOk result (λ run. run.opened ≡ engine) }
        ensures engine { IfOk result (λ run. run.engine ≡ engine) }
        ensures refused { IfErr result (λ back. back ≡ engine) }
    {
        engine.known();
        let Ok(places) = no_places(alloc, &program) else {
            return Err(engine);
        };
        let Ok(entries) = room_for_all(alloc, &program) else {
            return Err(engine);
        };
        let opening = Opening::of(&engine);
        Ok(Run {
            engine,
            opening,
            program,
            policy,
            places,
            entries,
        })
    }

    /// The entries are legal, and the engine stands for the world after them: a law, and the call does nothing.
    pub fn known(&self)
        ensures { IsRun D.seen D.may_leave D.moment D.left_since D.failures self.now }
    {
        let _ = &self.entries;
    }

    /// The engine.
    pub fn engine(&self) -> &Engine<D>
        ensures { result.now ≡ self.now.engine }
    {
        &self.engine
    }

    /// The engine, and the run is over. Its program and its transcript stay in memory, for the end of the process to take.
    /// Cost: constant.
    pub fn into_engine(self) -> Engine<D>
        ensures { result ≡ self.engine }
    {
        let Run {
            engine,
            program,
            entries,
            ..
        } = self;
        forget(program);
        forget(entries);
        engine
    }

    /// What was counted when the run began.
    pub fn opened(&self) -> Opened
        ensures length { result.length ≡ length_of self.now.opened.journal }
        ensures faults { result.faults ≡ D.failures self.now.opened.journal.disk }
    {
        self.opening.counts
    }

    /// The kind of the policy.
    pub fn policy(&self) -> u8
        ensures { result ≡ self.now.settings.policy }
    {
        self.policy
    }

    /// The program.
    pub fn program(&self) -> &Program
        ensures { result.now ≡ self.now.program }
    {
        &self.program
    }

    /// What the events have answered, in order.
    pub fn entries(&self) -> &[Entry]
        ensures { result.now ≡ self.now.entries }
    {
        self.entries.as_slice()
    }

    /// Whether a session has a statement that is not answered.
    fn has_more(&self, session: usize) -> bool
        ensures { result ≡ has_more self.now.program self.now.places session }
    {
        has_more(&self.program, self.places.as_slice(), session)
    }

    /// Whether the setup is answered. Cost: constant.
    pub fn is_set_up(&self) -> bool
        ensures { result ≡ setup_answered self.now.program self.now.places }
    {
        !self.has_more(0)
    }

    /// Whether every statement is answered. Cost: linear in the sessions.
    pub fn is_answered(&self) -> bool
        ensures { result ≡ all_answered self.now.program self.now.places }
    {
        all_answered(&self.program, self.places.as_slice())
    }

    /// Whether a session has a statement to be answered now. Cost: constant.
    pub fn left(&self, session: u32) -> bool
        ensures { result ≡ may_turn self.now.program self.now.places session }
    {
        let session = session as usize;
        self.has_more(session) && (session == 0 || !self.has_more(0))
    }

    /// What the steps are computed from that the next statement of a session would force now.
    pub fn stale<L: Ledger>(
        &self,
        alloc: Global,
        session: u32,
        steps: &mut Steps<L>,
    ) -> Result<Items<JobInput>, NoMemory>
        requires may { may_turn self.now.program self.now.places session ≡ true }
        ensures inputs { IfOk result (λ inputs. AllZip (IsInputBetween (state_of self.now).world.visible) (next_steps self.now session) inputs) }
        ensures most { (n : ℕ) → AreCosts (IsCostBetween (state_of self.now).world.visible) (next_steps self.now session) n → steps.new ≤ steps.old + n }
    {
        let at = session as usize;
        let place = place_of(self.places.as_slice(), at);
        let line = line_left(&self.program, at, place as usize);
        stale_line(&self.engine, alloc, session, line, steps)
    }

    /// Answers the next statement of a session, and keeps the entry. After want of memory nothing has come.
    pub fn turn<L: Ledger>(
        &mut self,
        alloc: Global,
        session: u32,
        offers: Items<JobResult>,
        steps: &mut Steps<L>,
    ) -> Result<(), NoMemory>
        requires may { may_turn self.old.program self.old.places session ≡ true }
        ensures done { OnOk result (Gave D.seen D.may_leave D.moment D.left_since D.failures (turn_of session) self.old self.new) }
        ensures kept { OnErr result (IsSame self.old self.new) }
        ensures journal { OnErr result (IsUndone D.seen D.may_leave D.moment D.left_since D.failures self.old.engine self.new.engine) }
        ensures fresh { (query : AQuery) → next_bound self.old session ≡ Ok (bound.Query query) → ReadsNoTable session query (state_of self.old).world → steps.new ≡ steps.old }
        ensures most { (query : AQuery) → next_bound self.old session ≡ Ok (bound.Query query) → ReadsViews session query (state_of self.old).world
            → (n : ℕ) → AreCosts (IsCostBetween (state_of self.old).world.visible) (next_steps self.old session) n → steps.new ≤ steps.old + n }
    {
        make_room(&mut self.entries, 1)?;
        let at = session as usize;
        let place = place_of(self.places.as_slice(), at);
        let line = line_left(&self.program, at, place as usize);
        let answered = answer_line(&mut self.engine, alloc, session, line, offers, steps)?;
        self.entries.push(Entry::Session {
            session,
            place: place + 1,
            forced: answered.forced,
            reply: answered.reply,
        });
        self.places.set(at, place + 1);
        Ok(())
    }

    /// A worker, 1 to 8, claims a step, by a policy of the run's kind: the entry is that of `fetch`, and nothing is copied out.
    pub fn claim_next(
        &mut self,
        alloc: Global,
        worker: u32,
        picker: &Picker,
    ) -> Result<(), NoMemory>
        requires worker { IsWorker worker }
        requires setup { setup_answered self.old.program self.old.places ≡ true }
        requires policy { self.old.settings.policy ≡ picker.now.kind }
        ensures done { OnOk result (Gave D.seen D.may_leave D.moment D.left_since D.failures (fetch_of worker) self.old self.new) }
        ensures kept { OnErr result (self.new ≡ self.old) }
    {
        make_room(&mut self.entries, 1)?;
        let entry = claim_next(&mut self.engine, alloc, worker, picker)?;
        self.entries.push(entry);
        Ok(())
    }

    /// A worker, 1 to 8, fetches a step, by a policy of the run's kind. It answers what the step is computed from, none
    /// where there is no step. Want of memory changes nothing.
    pub fn fetch<L: Ledger>(
        &mut self,
        alloc: Global,
        worker: u32,
        picker: &Picker,
        steps: &mut Steps<L>,
    ) -> Result<Option<JobInput>, NoMemory>
        requires worker { IsWorker worker }
        requires setup { setup_answered self.old.program self.old.places ≡ true }
        requires policy { self.old.settings.policy ≡ picker.now.kind }
        ensures done { OnOk result (Gave D.seen D.may_leave D.moment D.left_since D.failures (fetch_of worker) self.old self.new) }
        ensures input { IfOk result (IsNextInput self.old worker) }
        ensures most { TakesGiven (state_of self.old).world.visible (fetching self.old.settings worker (state_of self.old).world).0 steps.old steps.new }
        ensures kept { OnErr result (self.new ≡ self.old) }
    {
        make_room(&mut self.entries, 1)?;
        let given = fetch(&mut self.engine, alloc, worker, picker, steps)?;
        self.entries.push(given.entry);
        Ok(given.input)
    }

    /// A worker, 1 to 8, that has no claim fetches a step, if there is one; else no entry comes, and the run stays as it is.
    /// Want of memory changes nothing.
    pub fn fetch_any<L: Ledger>(
        &mut self,
        alloc: Global,
        worker: u32,
        picker: &Picker,
        steps: &mut Steps<L>,
    ) -> Result<Option<JobInput>, NoMemory>
        requires worker { IsWorker worker }
        requires setup { setup_answered self.old.program self.old.places ≡ true }
        requires policy { self.old.settings.policy ≡ picker.now.kind }
        requires free { claim_of (state_of self.old).world.upkeep worker ≡ None }
        ensures fetched { IfOk result (λ given. (input : Input) → given ≡ Some input → HasFetched D.seen D.may_leave D.moment D.left_since D.failures worker self.old self.new input) }
        ensures idle { IfOk result (λ given. given ≡ None → self.new ≡ self.old) }
        ensures none { IfOk result (λ given. (given ≡ None) ↔ (unclaimed (state_of self.old).world ≡ [])) }
        ensures kept { OnErr result (self.new ≡ self.old) }
    {
        make_room(&mut self.entries, 1)?;
        let Given { entry, input } = fetch(&mut self.engine, alloc, worker, picker, steps)?;
        let Some(input) = input else {
            return Ok(None);
        };
        self.entries.push(entry);
        Ok(Some(input))
    }

    /// A worker, 1 to 8, installs the step that it has claimed. Want of memory changes nothing.
    pub fn install<L: Ledger>(
        &mut self,
        alloc: Global,
        worker: u32,
        offer: Option<JobResult>,
        steps: &mut Steps<L>,
    ) -> Result<(), NoMemory>
        requires worker { IsWorker worker }
        requires setup { setup_answered self.old.program self.old.places ≡ true }
        ensures done { OnOk result (Gave D.seen D.may_leave D.moment D.left_since D.failures (install_of worker) self.old self.new) }
        ensures most { TakesInstalled (state_of self.old).world.visible (installing worker (state_of self.old).world.upkeep).0 steps.old steps.new }
        ensures kept { OnErr result (self.new ≡ self.old) }
    {
        make_room(&mut self.entries, 1)?;
        let entry = install(&mut self.engine, alloc, worker, offer, steps)?;
        self.entries.push(entry);
        Ok(())
    }

    /// The same, and where the step is installed a clean-up follows. Want of memory changes nothing.
    pub fn install_and_clean<L: Ledger>(
        &mut self,
        alloc: Global,
        worker: u32,
        offer: Option<JobResult>,
        steps: &mut Steps<L>,
    ) -> Result<(), NoMemory>
        requires worker { IsWorker worker }
        requires setup { setup_answered self.old.program self.old.places ≡ true }
        ensures done { OnOk result (Installs D.seen D.may_leave D.moment D.left_since D.failures worker self.old self.new) }
        ensures free { OnOk result (claim_of (state_of self.new).world.upkeep worker ≡ None) }
        ensures kept { OnErr result (self.new ≡ self.old) }
    {
        make_room(&mut self.entries, 2)?;
        let entry = install(&mut self.engine, alloc, worker, offer, steps)?;
        let cleans = is_installed(&entry);
        self.entries.push(entry);
        if cleans {
            let entry = clean(&mut self.engine, alloc);
            self.entries.push(entry);
        }
        Ok(())
    }

    /// A worker, 1 to 8, gives its claim up. It takes no memory.
    pub fn release(&mut self, worker: u32)
        requires worker { IsWorker worker }
        requires claim { is_some (claim_kept self.old.engine.store.upkeep worker) ≡ true }
        ensures { Gave D.seen D.may_leave D.moment D.left_since D.failures (release_of worker) self.old self.new }
    {
        let entry = release(&mut self.engine, worker);
        self.entries.push(entry);
    }

    /// The claim ends that a worker, 1 to 8, may have. It takes no memory.
    pub fn end_claim(&mut self, worker: u32)
        requires { IsWorker worker }
        ensures done { Frees D.seen D.may_leave D.moment D.left_since D.failures worker self.old self.new }
        ensures free { claim_of (state_of self.new).world.upkeep worker ≡ None }
        ensures views { unclaimed (state_of self.new).world ≡ views_for worker (state_of self.old).world }
        ensures program { self.new.program ≡ self.old.program }
        ensures places { self.new.places ≡ self.old.places }
    {
        if self.engine.claim(worker).is_none() {
            return;
        }
        self.release(worker);
    }

    /// Marks a view as maintained to its point. After want of memory nothing has come.
    pub fn mark(&mut self, alloc: Global, view: &Text) -> Result<(), NoMemory>
        requires setup { setup_answered self.old.program self.old.places ≡ true }
        requires name { is_lower_name view.now ≡ true }
        ensures done { OnOk result (Gave D.seen D.may_leave D.moment D.left_since D.failures (mark_of view.now) self.old self.new) }
        ensures kept { OnErr result (IsSame self.old self.new) }
        ensures journal { OnErr result (IsUndone D.seen D.may_leave D.moment D.left_since D.failures self.old.engine self.new.engine) }
    {
        make_room(&mut self.entries, 1)?;
        let Some(number) = view_of_name(self.engine.schema(), view) else {
            let name = view.copy(alloc)?;
            self.entries.push(Entry::MarkUnknown { name });
            return Ok(());
        };
        let entry = mark_view(&mut self.engine, alloc, number)?;
        self.entries.push(entry);
        Ok(())
    }

    /// What nobody needs is dropped. Want of memory changes nothing.
    pub fn clean(&mut self, alloc: Global) -> Result<(), NoMemory>
        requires setup { setup_answered self.old.program self.old.places ≡ true }
        ensures done { OnOk result (Gave D.seen D.may_leave D.moment D.left_since D.failures clean_up self.old self.new) }
        ensures kept { OnErr result (self.new ≡ self.old) }
    {
        make_room(&mut self.entries, 1)?;
        let entry = clean(&mut self.engine, alloc);
        self.entries.push(entry);
        Ok(())
    }
}
