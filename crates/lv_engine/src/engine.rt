//! The engine.
ghost use Rattle.std.specs.Prelude.{◌≡◌, ◌≤◌, ◌≢◌, ◌↔◌, ℕ, ◌<◌, Ok, Some, None, Err, true, is_some, map, length, slice_index, slice_set, option_map, [], IfOk, OnErr, ◌+◌};
ghost use Rattle.std.specs.List.{AllZip};
ghost use Rattle.lv_journal.specs.declared.writer.Writer.{Writer};
ghost use Rattle.lv_outside.specs.Causes.{Rose};
ghost use Rattle.lv_schema.specs.declared.rec.Rec.{Rec};
ghost use Rattle.lv_schema.specs.Bound.{IsBoundTable, IsBoundView, IsBoundChange, IsBoundQuery};
ghost use Rattle.lv_schema.specs.Cases.{table_made, view_made, began, rolled_back, changed, committed, alone};
ghost use Rattle.lv_schema.specs.Policies.{unclaimed};
ghost use Rattle.lv_schema.specs.Tasks.{pending_tasks};
ghost use Rattle.lv_schema.specs.UpkeepCases.{cleaning, fetching, forced_by, installing, marking, outcome_of, released};
ghost use Rattle.lv_schema.specs.WholeWorld.{maintained, querying, with_upkeep, world_after};
ghost use Rattle.lv_schema.specs.World.{World};
ghost use Rattle.lv_schema.specs.World as schema;
ghost use Rattle.lv_txn.specs.Kept.{IsLive, begun, live_kept, transaction_at, transaction_of};
ghost use Rattle.lv_store.specs.Answering.{IsCostBetween, IsInputBetween, ReadsNoTable, ReadsViews, effect_fault};
ghost use Rattle.lv_store.specs.Inputs.{AreCosts};
ghost use Rattle.lv_store.specs.Kept.{IsStore, kept, store_of};
ghost use Rattle.lv_store.specs.Maintaining.{KeepsNoneBelow, TakesGiven, TakesInstalled};
ghost use Rattle.lv_engine.specs.declared.fault.AloneFault.TheVariants as fault;
ghost use Rattle.lv_engine.specs.Alone.{alone_fails, alone_fault};
ghost use Rattle.lv_engine.specs.Answering.{GivesCleaned, GivesClaim, GivesFetch, GivesInstall, GivesQuery, LogsCase, Meets, MeetsMark, commit_fault, create_fault, fails};
ghost use Rattle.lv_replay.specs.Runs.{mark_written};
ghost use Rattle.lv_engine.specs.Kept.{IsSame, Stands, StandsForSome, length_of};
ghost use Rattle.lv_engine.specs.Writing.{IsUntouched};
ghost use Rattle.lv_stands.specs.Moves.{least_read};
ghost use Rattle.lv_upkeep.specs.Kept.{claim_kept};

use crate::alone::change_alone;
use crate::committing::commit;
use crate::creating::{create_table, create_view};
use crate::fault::{AloneFault, CommitFault, CreateFault};
use crate::marking::mark;
use lv_effect::EffectFault;
use lv_journal::Journal;
use lv_maint::{JobInput, JobResult};
use lv_outside::Disk;
use lv_picker::Picker;
use lv_schema::{Change, Forced, Query, Schema, TableDef, ViewDef};
use lv_store::{Answer, Cleaned, Installed, Settings, Store};
use lv_values::{Items, NoMemory, Steps};
use std::alloc::Global;
use std::marker::Model;
use std::mem::forget;
use std::sync::ledger::Ledger;

/// Tables with their committed states, live transactions, and views whose rows are kept, over a journal on a disk. Sessions
/// are 0, the setup, to 16, and workers 1 to 8. Contracts see what is kept in memory and the journal; they say of each call
/// for which worlds the engine stands then, of those that it stood for before, and which records the journal has then.
#[derive(Drop)]
pub struct Engine<D: Disk> {
    store: Store,
    journal: Journal<D>,
}

impl<D: Disk> Model for Engine<D> {
    ghost use Rattle.lv_engine.specs.Kept.{EngineView, engine_of};
    ghost use Rattle.lv_store.specs.Kept.{IsStore};
    ghost use Rattle.std.specs.Coded.{codes};
    ghost use Rattle.lv_schema.specs.contracts.cond.Cond as cond;

    ghost Value = { EngineView D };

    ghost coded = { Prim.hlevel (codes, cond.the_row.coded) };

    ghost view = { λ e. engine_of e.store e.journal };

    ghost invariant = { λ e. IsStore e.store };
}

impl<D: Disk> Engine<D> {
    /// What lies in memory, over a journal.
    pub fn open(store: Store, journal: Journal<D>) -> Engine<D>
        requires whole { IsStore store }
        ensures store { result.store ≡ store_of store }
        ensures journal { result.journal ≡ journal }
    {
        Engine { store, journal }
    }

    /// It stands for a world: a law, and the call does nothing.
    pub fn known(&self)
        ensures { StandsForSome self.now }
    {
        let _ = &self.store;
    }

    /// What it is run with.
    pub fn settings(&self) -> Settings
        ensures { result ≡ self.now.store.settings }
    {
        self.store.settings
    }

    /// The tables and views by name.
    pub fn schema(&self) -> &Schema
        ensures tables { result.now.tables ≡ self.now.store.tables }
        ensures views { result.now.views ≡ self.now.store.views }
    {
        &self.store.schema
    }

    /// The number of the last commit.
    pub fn last(&self) -> u64
        ensures { result ≡ self.now.store.base.number }
    {
        self.store.base.last()
    }

    /// The commit to which a view is maintained.
    pub fn point(&self, view: u32) -> u64
        requires { view < length self.now.store.views }
        ensures { result ≡ slice_index self.now.store.upkeep.points view }
    {
        self.store.point(view)
    }

    /// The commit to which a view is marked as maintained.
    pub fn marked(&self, view: u32) -> u64
        requires { view < length self.now.store.views }
        ensures { result ≡ slice_index self.now.store.upkeep.marks view }
    {
        self.store.marked(view)
    }

    /// The snapshot of a session, none exactly where it is not live.
    pub fn live(&self, session: u32) -> Option<u64>
        ensures { result ≡ option_map (λ t. t.snapshot) (transaction_at self.now.store.sessions session) }
    {
        self.store.txns.live(session)
    }

    /// The length of the journal, which ends with its closed gate. Cost: constant.
    pub fn length(&self) -> u64
        ensures { result ≡ length_of self.now.journal }
    {
        self.journal.length()
    }

    /// The disk's count of failures.
    pub fn faults(&self) -> u64
        ensures { result ≡ D.failures self.now.journal.disk }
    {
        self.journal.faults()
    }

    /// The disk, at the end of a run. The tables and views stay in memory, for the end of the process to take: giving back
    /// millions of rows one by one is time in which nothing is answered. Cost: constant.
    pub fn into_disk(self) -> D
        ensures { result ≡ self.journal.disk }
    {
        let Engine { journal, store, .. } = self;
        forget(store);
        journal.into_disk()
    }

    /// The pending tasks of all views, by view and then by commit. Cost: linear in them.
    pub fn tasks(&self, alloc: Global) -> Result<Items<(u32, u64)>, NoMemory>
        ensures { (w : World) → Stands w self.now → IfOk result (λ list. list ≡ pending_tasks w) }
    {
        self.store.tasks(alloc)
    }

    /// CREATE TABLE: its record is written, and the table is empty at every commit. A refusal changes nothing.
    /// Cost: a copy of its definition, and two syncs.
    pub fn create_table(&mut self, alloc: Global, def: TableDef) -> Result<(), CreateFault>
        requires bound { IsBoundTable self.old.store.tables self.old.store.views def }
        ensures case { (w : World) (settings : schema.Settings) → settings.limit ≡ self.old.store.settings.log_limit → Stands w self.old
            → Meets create_fault w self.old self.new result (table_made (outcome_of settings (fails create_fault result) w.upkeep) def w.visible) }
        ensures log { (w : World) (settings : schema.Settings) → settings.limit ≡ self.old.store.settings.log_limit → Stands w self.old
            → let made = table_made (outcome_of settings (fails create_fault result) w.upkeep) def w.visible in LogsCase D.seen D.may_leave D.moment D.left_since create_fault result made.attempted made.written self.old.journal self.new.journal }
        ensures settings { self.new.store.settings ≡ self.old.store.settings }
        ensures later { D.failures self.old.journal.disk ≤ D.failures self.new.journal.disk }
        ensures untouched { result ≢ Err CreateFault.Store → OnErr result (IsUntouched D.seen D.may_leave D.failures self.old.journal.disk self.new.journal.disk) }
        ensures cause { result ≡ Err CreateFault.Store → Rose (D.failures self.old.journal.disk) (D.failures self.new.journal.disk) }
    {
        create_table(alloc, &mut self.store, &mut self.journal, def)
    }

    /// CREATE VIEW, where nobody is live: its rows are evaluated at the last commit, and its record is written. A refusal
    /// changes nothing. Cost: that of the join and of a scan of its tables, and two syncs.
    pub fn create_view<L: Ledger>(
        &mut self,
        alloc: Global,
        def: ViewDef,
        steps: &mut Steps<L>,
    ) -> Result<(), CreateFault>
        requires bound { IsBoundView self.old.store.tables self.old.store.views def }
        requires nobody { live_kept self.old.store.sessions ≡ [] }
        ensures case { (w : World) (settings : schema.Settings) → settings.limit ≡ self.old.store.settings.log_limit → Stands w self.old
            → Meets create_fault w self.old self.new result (view_made (outcome_of settings (fails create_fault result) w.upkeep) def w.visible) }
        ensures log { (w : World) (settings : schema.Settings) → settings.limit ≡ self.old.store.settings.log_limit → Stands w self.old
            → let made = view_made (outcome_of settings (fails create_fault result) w.upkeep) def w.visible in LogsCase D.seen D.may_leave D.moment D.left_since create_fault result made.attempted made.written self.old.journal self.new.journal }
        ensures settings { self.new.store.settings ≡ self.old.store.settings }
        ensures later { D.failures self.old.journal.disk ≤ D.failures self.new.journal.disk }
        ensures untouched { result ≢ Err CreateFault.Store → OnErr result (IsUntouched D.seen D.may_leave D.failures self.old.journal.disk self.new.journal.disk) }
        ensures cause { result ≡ Err CreateFault.Store → Rose (D.failures self.old.journal.disk) (D.failures self.new.journal.disk) }
    {
        create_view(alloc, &mut self.store, &mut self.journal, def, steps)
    }

    /// BEGIN: the session is live, and its snapshot is the last commit, which is answered. It takes no memory.
    /// Cost: constant.
    pub fn begin(&mut self, session: u32) -> u64
        requires session { session < 17 }
        requires free { transaction_at self.old.store.sessions session ≡ None }
        ensures case { (w : World) → Stands w self.old → (Ok result ≡ (began session w.visible).answer) × Stands (world_after (began session w.visible) w) self.new }
        ensures live { transaction_at self.new.store.sessions session ≡ Some (begun self.old.store.base.number) }
        ensures others { self.new ≡ record self.old { store = record self.old.store { sessions = slice_set self.old.store.sessions session (transaction_at self.new.store.sessions session) } } }
    {
        self.store.begin(session)
    }

    /// ROLLBACK: the session is not live, and its writes are gone. It takes no memory. Cost: linear in what it wrote.
    pub fn rollback(&mut self, session: u32)
        requires session { session < 17 }
        requires live { IsLive self.old.store.sessions session }
        ensures case { (w : World) → Stands w self.old → Stands (world_after (rolled_back session w.visible) w) self.new }
        ensures free { transaction_at self.new.store.sessions session ≡ None }
        ensures others { self.new ≡ record self.old { store = record self.old.store { sessions = slice_set self.old.store.sessions session (transaction_at self.new.store.sessions session) } } }
    {
        self.store.rollback(session)
    }

    /// INSERT, UPDATE or DELETE in a session's transaction. It answers the number of rows. A refusal changes nothing.
    /// Cost: that of the effect on the table, and a search for each action.
    pub fn change<L: Ledger>(
        &mut self,
        alloc: Global,
        session: u32,
        change: &Change,
        steps: &mut Steps<L>,
    ) -> Result<u64, EffectFault>
        requires session { session < 17 }
        requires live { IsLive self.old.store.sessions session }
        requires few { (transaction_of self.old.store.sessions session).changes < 4294967295 }
        requires bound { IsBoundChange self.old.store.tables change.now }
        ensures case { (w : World) → Stands w self.old → Meets effect_fault w self.old self.new result (changed session change.now w.visible) }
        ensures refused { OnErr result (self.new ≡ self.old) }
        ensures others { self.new ≡ record self.old { store = record self.old.store { sessions = slice_set self.old.store.sessions session (transaction_at self.new.store.sessions session) } } }
    {
        self.store.change(alloc, session, change, steps)
    }

    /// COMMIT of a session's transaction: its record is written, and no view is brought up to date: its point and its rows stay,
    /// and each view on whose tables it acts has one more pending task. It answers the number of the commit, none where the
    /// transaction has no action. A conflict or a full table rolls it back; after any other refusal it is live, and nothing
    /// has changed.
    /// Cost: what the conflict's and the net change's searches cost, for c actions c log c comparisons of keys, a
    /// search and a move of small numbers each, a look at each view, and two syncs.
    pub fn commit(&mut self, alloc: Global, session: u32) -> Result<Option<u64>, CommitFault>
        requires session { session < 17 }
        requires live { IsLive self.old.store.sessions session }
        ensures case { (w : World) (settings : schema.Settings) → settings.limit ≡ self.old.store.settings.log_limit → Stands w self.old
            → Meets commit_fault w self.old self.new result (committed (outcome_of settings (fails commit_fault result) w.upkeep) session w.visible) }
        ensures log { (w : World) (settings : schema.Settings) → settings.limit ≡ self.old.store.settings.log_limit → Stands w self.old
            → let done = committed (outcome_of settings (fails commit_fault result) w.upkeep) session w.visible in LogsCase D.seen D.may_leave D.moment D.left_since commit_fault result done.attempted done.written self.old.journal self.new.journal }
        ensures rows { self.new.store.rows ≡ self.old.store.rows }
        ensures points { self.new.store.upkeep.points ≡ self.old.store.upkeep.points }
        ensures settings { self.new.store.settings ≡ self.old.store.settings }
        ensures later { D.failures self.old.journal.disk ≤ D.failures self.new.journal.disk }
        ensures untouched { result ≢ Err CommitFault.Store → OnErr result (IsUntouched D.seen D.may_leave D.failures self.old.journal.disk self.new.journal.disk) }
        ensures cause { result ≡ Err CommitFault.Store → Rose (D.failures self.old.journal.disk) (D.failures self.new.journal.disk) }
    {
        commit(alloc, &mut self.store, &mut self.journal, session)
    }

    /// INSERT, UPDATE or DELETE outside a transaction, as BEGIN, the change and COMMIT would do it for any session that has
    /// none; it opens none. It answers the number of rows and that of the commit, none where the change has no action. A
    /// refusal changes nothing.
    /// Cost: that of the effect on the table, for its c actions c log c comparisons of keys, a search and a move of small
    /// numbers each, a look at each view, and two syncs.
    pub fn change_alone<L: Ledger>(
        &mut self,
        alloc: Global,
        change: &Change,
        steps: &mut Steps<L>,
    ) -> Result<(u64, Option<u64>), AloneFault>
        requires free { (session : ℕ) × (session < 17) × (transaction_at self.old.store.sessions session ≡ None) }
        requires bound { IsBoundChange self.old.store.tables change.now }
        ensures case { (session : ℕ) (w : World) (settings : schema.Settings) → session < 17 → transaction_at self.old.store.sessions session ≡ None → settings.limit ≡ self.old.store.settings.log_limit → Stands w self.old
            → Meets alone_fault w self.old self.new result (alone (outcome_of settings (alone_fails result) w.upkeep) session change.now w.visible) }
        ensures log { (session : ℕ) (w : World) (settings : schema.Settings) → session < 17 → transaction_at self.old.store.sessions session ≡ None → settings.limit ≡ self.old.store.settings.log_limit → Stands w self.old
            → let done = alone (outcome_of settings (alone_fails result) w.upkeep) session change.now w.visible in LogsCase D.seen D.may_leave D.moment D.left_since alone_fault result done.attempted done.written self.old.journal self.new.journal }
        ensures sessions { self.new.store.sessions ≡ self.old.store.sessions }
        ensures rows { self.new.store.rows ≡ self.old.store.rows }
        ensures points { self.new.store.upkeep.points ≡ self.old.store.upkeep.points }
        ensures settings { self.new.store.settings ≡ self.old.store.settings }
        ensures later { D.failures self.old.journal.disk ≤ D.failures self.new.journal.disk }
        ensures untouched { result ≢ Err (fault.Record CreateFault.Store) → OnErr result (IsUntouched D.seen D.may_leave D.failures self.old.journal.disk self.new.journal.disk) }
        ensures cause { result ≡ Err (fault.Record CreateFault.Store) → Rose (D.failures self.old.journal.disk) (D.failures self.new.journal.disk) }
    {
        change_alone(alloc, &mut self.store, &mut self.journal, change, steps)
    }

    /// Marks a view as maintained to its point, by a record. It answers the point, none exactly where the view was marked there
    /// already. A refusal changes nothing. Cost: two syncs.
    pub fn mark(&mut self, alloc: Global, view: u32) -> Result<Option<u64>, CreateFault>
        requires view { view < length self.old.store.views }
        ensures case { (w : World) (settings : schema.Settings) → settings.limit ≡ self.old.store.settings.log_limit → Stands w self.old
            → MeetsMark w self.old self.new result (marking (outcome_of settings (fails create_fault result) w.upkeep) view w.upkeep) }
        ensures log { (w : World) (settings : schema.Settings) → settings.limit ≡ self.old.store.settings.log_limit → Stands w self.old
            → let done = marking (outcome_of settings (fails create_fault result) w.upkeep) view w.upkeep in LogsCase D.seen D.may_leave D.moment D.left_since create_fault result done.attempted (mark_written done) self.old.journal self.new.journal }
        ensures sessions { self.new.store.sessions ≡ self.old.store.sessions }
        ensures settings { self.new.store.settings ≡ self.old.store.settings }
        ensures later { D.failures self.old.journal.disk ≤ D.failures self.new.journal.disk }
        ensures untouched { result ≢ Err CreateFault.Store → OnErr result (IsUntouched D.seen D.may_leave D.failures self.old.journal.disk self.new.journal.disk) }
        ensures cause { result ≡ Err CreateFault.Store → Rose (D.failures self.old.journal.disk) (D.failures self.new.journal.disk) }
    {
        mark(alloc, &mut self.store, &mut self.journal, view)
    }

    /// What the steps are computed from that a query of the session would force now, views in the order of their
    /// numbers: the net changes, and the rows that can join one, or the whole table of an alias that no chain of equations
    /// ties to a change. A session that is not live would read the last commit. Cost: for each step the condensing of the
    /// entries between its commits, and the rows that it reads, of which there are at most as many as the step costs.
    pub fn stale<L: Ledger>(
        &self,
        alloc: Global,
        session: u32,
        query: &Query,
        steps: &mut Steps<L>,
    ) -> Result<Items<JobInput>, NoMemory>
        requires session { session < 17 }
        requires bound { IsBoundQuery self.now.store.tables self.now.store.views query.now }
        ensures inputs { (w : World) (settings : schema.Settings) → settings.combine ≡ self.now.store.settings.combine → Stands w self.now
            → IfOk result (λ inputs. AllZip (IsInputBetween w.visible) (forced_by settings session query.now w) inputs) }
        ensures most { (w : World) (settings : schema.Settings) → settings.combine ≡ self.now.store.settings.combine → Stands w self.now
            → (n : ℕ) → AreCosts (IsCostBetween w.visible) (forced_by settings session query.now w) n → steps.new ≤ steps.old + n }
    {
        self.store.stale(alloc, session, query, steps)
    }

    /// A query of a session that is live: the views that it reads are brought up to its snapshot, and it reads its snapshot
    /// with its own writes. It answers the steps that it forced, and its rows. A step takes the offer whose input is the
    /// step's own, and is computed where there is none; so the answer does not depend on the offers. Where there are no
    /// offers, steps of one view with no live snapshot between them are taken as one, where all but the last of them keep
    /// links: no row goes for good in them, and none changes its values in the linked columns; each step of a view of one
    /// table does. So many changes of one row cost their condensing and no more. Where it names no table, and the
    /// transaction wrote none of its views' tables, it reads at most what the steps cost that it forces, each by itself,
    /// also for want of memory. Want of memory leaves every view as it was.
    /// Cost: of a view that is up to date, on whose tables the transaction wrote nothing, one pass over its rows; else
    /// that of its steps, which read what can join a changed row, or of the view by its definition over the transaction's
    /// own rows; and the join and the sort of the answer.
    pub fn query<L: Ledger>(
        &mut self,
        alloc: Global,
        session: u32,
        query: &Query,
        offers: Items<JobResult>,
        steps: &mut Steps<L>,
    ) -> Result<Answer, NoMemory>
        requires session { session < 17 }
        requires live { IsLive self.old.store.sessions session }
        requires bound { IsBoundQuery self.old.store.tables self.old.store.views query.now }
        ensures done { (w : World) (settings : schema.Settings) → settings.combine ≡ self.old.store.settings.combine → Stands w self.old
            → IfOk result (λ answer. GivesQuery (querying settings session query.now w) answer self.new) }
        ensures refused { OnErr result (self.new ≡ self.old) }
        ensures sessions { self.new.store.sessions ≡ self.old.store.sessions }
        ensures settings { self.new.store.settings ≡ self.old.store.settings }
        ensures journal { self.new.journal ≡ self.old.journal }
        ensures fresh { (w : World) → Stands w self.old → ReadsNoTable session query.now w → steps.new ≡ steps.old }
        ensures most { (w : World) (settings : schema.Settings) → settings.combine ≡ self.old.store.settings.combine → Stands w self.old → ReadsViews session query.now w
            → (n : ℕ) → AreCosts (IsCostBetween w.visible) (forced_by settings session query.now w) n → steps.new ≤ steps.old + n }
    {
        self.store.query(alloc, session, query, offers, steps)
    }

    /// The step that a worker, 1 to 8, has claimed; none exactly where it has no claim. Cost: constant.
    pub fn claim(&self, worker: u32) -> Option<Forced>
        requires { worker < 9 }
        ensures { result ≡ claim_kept self.now.store.upkeep worker }
    {
        self.store.claim(worker)
    }

    /// A worker, 1 to 8, that has no claim claims the step that `fetch` would give it, which it answers, none exactly where
    /// there is none; nothing is read or copied out. Want of memory changes nothing. Cost: a look at each view, and at each
    /// task that the step takes.
    pub fn claim_next(
        &mut self,
        alloc: Global,
        worker: u32,
        picker: &Picker,
    ) -> Result<Option<Forced>, NoMemory>
        requires worker { worker < 9 }
        requires free { claim_kept self.old.store.upkeep worker ≡ None }
        ensures done { (w : World) (settings : schema.Settings) → settings.combine ≡ self.old.store.settings.combine → settings.policy ≡ picker.now.kind → Stands w self.old
            → IfOk result (λ step. GivesClaim (maintained (fetching settings worker w) w) step self.new) }
        ensures none { (w : World) → Stands w self.old → IfOk result (λ step. (step ≡ None) ↔ (unclaimed w ≡ [])) }
        ensures refused { OnErr result (self.new ≡ self.old) }
        ensures others { self.new ≡ record self.old { store = record self.old.store { upkeep = self.new.store.upkeep } } }
    {
        self.store.claim_next(alloc, worker, picker)
    }

    /// A worker, 1 to 8, that has no claim fetches a step: of the views that nobody has claimed and that have pending
    /// tasks the policy chooses one, and the next step of this view becomes the worker's claim. It answers a copy of what
    /// the step is computed from, none exactly where there is no such view. Want of memory changes nothing.
    /// Cost: a look at each view, for each alias of the chosen one the condensing of the entries between the step's commits,
    /// and the rows that can join a changed one; it reads at most what the step costs, and nothing where it answers none.
    pub fn fetch<L: Ledger>(
        &mut self,
        alloc: Global,
        worker: u32,
        picker: &Picker,
        steps: &mut Steps<L>,
    ) -> Result<Option<JobInput>, NoMemory>
        requires worker { worker < 9 }
        requires free { claim_kept self.old.store.upkeep worker ≡ None }
        ensures done { (w : World) (settings : schema.Settings) → settings.combine ≡ self.old.store.settings.combine → settings.policy ≡ picker.now.kind → Stands w self.old
            → IfOk result (λ input. GivesFetch w.visible (maintained (fetching settings worker w) w) input self.new) }
        ensures none { (w : World) → Stands w self.old → IfOk result (λ input. (input ≡ None) ↔ (unclaimed w ≡ [])) }
        ensures most { (w : World) (settings : schema.Settings) → settings.combine ≡ self.old.store.settings.combine → settings.policy ≡ picker.now.kind → Stands w self.old
            → TakesGiven w.visible (fetching settings worker w).0 steps.old steps.new }
        ensures refused { OnErr result (self.new ≡ self.old) }
        ensures others { self.new ≡ record self.old { store = record self.old.store { upkeep = self.new.store.upkeep } } }
    {
        self.store.fetch(alloc, worker, picker, steps)
    }

    /// A worker, 1 to 8, installs the step that it has claimed, where its view still stands where the step begins; where
    /// the view has moved on, nothing is installed. The claim ends in both cases. The offer is used where its input is
    /// the step's own; else the step is computed here, so the answer does not depend on it. Want of memory changes
    /// nothing. Cost: that of the step's input, of its difference where it is computed here, and of the install, which is
    /// linear in the rows that change. It reads at most what the step costs, and nothing where the view has moved on.
    pub fn install<L: Ledger>(
        &mut self,
        alloc: Global,
        worker: u32,
        offer: Option<JobResult>,
        steps: &mut Steps<L>,
    ) -> Result<Installed, NoMemory>
        requires worker { worker < 9 }
        requires claimed { is_some (claim_kept self.old.store.upkeep worker) ≡ true }
        ensures done { (w : World) → Stands w self.old → IfOk result (λ answer. GivesInstall (maintained (installing worker w.upkeep) w) answer self.new) }
        ensures most { (w : World) → Stands w self.old → TakesInstalled w.visible (installing worker w.upkeep).0 steps.old steps.new }
        ensures refused { OnErr result (self.new ≡ self.old) }
        ensures others { self.new ≡ record self.old { store = record self.old.store { upkeep = self.new.store.upkeep; rows = self.new.store.rows } } }
    {
        self.store.install(alloc, worker, offer, steps)
    }

    /// A worker, 1 to 8, gives its claim up. It takes no memory. Cost: constant.
    pub fn release(&mut self, worker: u32)
        requires worker { worker < 9 }
        requires claimed { is_some (claim_kept self.old.store.upkeep worker) ≡ true }
        ensures case { (w : World) → Stands w self.old → Stands (with_upkeep (released worker w.upkeep) w) self.new }
        ensures others { self.new ≡ record self.old { store = record self.old.store { upkeep = self.new.store.upkeep } } }
        ensures free { claim_kept self.new.store.upkeep worker ≡ None }
    {
        self.store.release(worker);
    }

    /// Drops what nobody needs: the row versions and delta entries below the floor, which is the least of the live
    /// snapshots, the points of the views and the last commit; and the view rows that ended at or below the least live
    /// snapshot, or the last commit where nobody is live. It answers the floor and what is kept. It takes no memory.
    /// Cost: for each table and view from which something goes two passes over small numbers, and the entries that are
    /// dropped, averaged over many calls.
    pub fn clean(&mut self, alloc: Global) -> Cleaned
        ensures case { (w : World) → Stands w self.old → GivesCleaned (maintained (cleaning w) w) result self.new }
        ensures rows { KeepsNoneBelow (least_read (kept 0 self.old.store)) self.new.store.rows }
        ensures others { self.new ≡ record self.old { store = record self.old.store { base = self.new.store.base; rows = self.new.store.rows } } }
    {
        self.store.clean(alloc)
    }
}
