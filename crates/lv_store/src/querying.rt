//! Queries.
ghost use Rattle.std.specs.Prelude.{◌≡◌, ◌<◌, ◌≤◌, ◌+◌, ℕ, true, List, [], length, map, nat_lt, IfOk, OnErr, OnOk};
ghost use Rattle.std.specs.List.{list_all, AllZip};
ghost use Rattle.lv_schema.specs.declared.forced.Forced.{Forced};
ghost use Rattle.lv_schema.specs.Answers.{answer_over};
ghost use Rattle.lv_schema.specs.Bound.{IsBoundQuery};
ghost use Rattle.lv_schema.specs.UpkeepCases.{forced_by};
ghost use Rattle.lv_schema.specs.WholeWorld.{querying};
ghost use Rattle.lv_schema.specs.World.{World};
ghost use Rattle.lv_schema.specs.World as schema;
ghost use Rattle.lv_stands.specs.Moves.{least_read};
ghost use Rattle.lv_txn.specs.Kept.{IsLive};
ghost use Rattle.lv_store.specs.Answering.{GivesQuery, IsCostBetween, IsInputBetween, ReadsNoTable, ReadsViews};
ghost use Rattle.lv_store.specs.Pending.{AllTake, ArePending, CanAllTake};
ghost use Rattle.lv_store.specs.Querying.{InPlaceOf, OnlyRoom, reads_kept, rel_rows_in, steps_in, upkeep_after};
ghost use Rattle.lv_store.specs.Inputs.{AreCosts};
ghost use Rattle.lv_viewrows.specs.Kept.{ViewKept};
ghost use Rattle.lv_store.specs.Kept.{IsStore, Stands, kept, store_of};

use crate::answer::Answer;
use crate::pending::{Pending, take_pending};
use crate::stepping::advance_each;
use crate::store::Store;
use lv_maint::{JobInput, JobResult};
use lv_schema::{Forced, ForcedSteps, Query};
use lv_values::{Items, NoMemory, Rows, Steps};
use std::alloc::Global;
use std::sync::ledger::Ledger;

/// The steps that a query forces and those that are taken for them, with their differences, and the answer, before
/// anything is changed.
struct Found {
    forced: ForcedSteps,
    taken: ForcedSteps,
    pending: Pending,
    rows: Rows,
}

impl Store {
    /// Finds the answer of a query, and the steps that it forces.
    fn find<L: Ledger>(
        &self,
        alloc: Global,
        session: u32,
        query: &Query,
        offers: Items<JobResult>,
        steps: &mut Steps<L>,
    ) -> Result<Found, NoMemory>
        requires whole { IsStore self.now }
        requires live { IsLive self.now.txns session }
        requires bound { IsBoundQuery self.now.schema.tables self.now.schema.views query.now }
        ensures forced { IfOk result (λ found. found.forced ≡ steps_in self.now session query.now) }
        ensures taken { (w : World) → Stands w (store_of self.now) → IfOk result (λ found. InPlaceOf w found.forced found.taken) }
        ensures pending { IfOk result (λ found. ArePending self.now found.taken found.pending) }
        ensures rows { (floor : ℕ) (last : List ViewKept) → IfOk result (λ found. AllTake floor found.pending self.now.rows.list last → found.rows ≡ answer_over query.now (map (rel_rows_in self.now session last) query.now.rels)) }
        ensures cost { steps_in self.now session query.now ≡ [] → list_all (reads_kept self.now session) query.now.rels ≡ true → steps.new ≡ steps.old }
        ensures most { list_all (reads_kept self.now session) query.now.rels ≡ true → (w : World) → Stands w (store_of self.now) → (n : ℕ) → AreCosts (IsCostBetween w.visible) (steps_in self.now session query.now) n → steps.new ≤ steps.old + n }
    {
        let forced = self.forced(alloc, session, query)?;
        let taken = self.to_take(alloc, &forced, &offers)?;
        let pending = self.differences(alloc, taken.as_slice(), offers, steps)?;
        let rows = self.answer_with(alloc, session, &pending, query, steps)?;
        Ok(Found {
            forced,
            taken,
            pending,
            rows,
        })
    }

    /// Takes steps whose differences are pending. Want of memory changes nothing but the room.
    fn take_steps(
        &mut self,
        alloc: Global,
        taken: &[Forced],
        pending: Pending,
    ) -> Result<(), NoMemory>
        requires can { CanAllTake (least_read (kept 0 (store_of self.old))) pending self.old.rows.list }
        requires views { list_all (λ (f : Forced). nat_lt f.view (length self.old.upkeep.kept.points)) taken.now ≡ true }
        ensures rows { OnOk result (AllTake (least_read (kept 0 (store_of self.old))) pending self.old.rows.list self.new.rows.list) }
        ensures upkeep { OnOk result (self.new.upkeep.kept ≡ upkeep_after taken.now self.old.upkeep.kept) }
        ensures refused { OnErr result (OnlyRoom self.old.rows.list self.new.rows.list × (self.new.upkeep ≡ self.old.upkeep)) }
        ensures others { self.new ≡ record self.old { rows = self.new.rows; upkeep = self.new.upkeep } }
    {
        let floor = self.least_read();
        take_pending(alloc, pending, floor, &mut self.rows)?;
        advance_each(taken, &mut self.upkeep);
        Ok(())
    }

    /// What the steps are computed from that a query would force now. It reads at most what these steps cost, also for
    /// want of memory.
    pub fn stale<L: Ledger>(
        &self,
        alloc: Global,
        session: u32,
        query: &Query,
        steps: &mut Steps<L>,
    ) -> Result<Items<JobInput>, NoMemory>
        requires whole { IsStore self.now }
        requires session { session < 17 }
        requires bound { IsBoundQuery (store_of self.now).tables (store_of self.now).views query.now }
        ensures inputs { (w : World) (settings : schema.Settings) → settings.combine ≡ (store_of self.now).settings.combine → Stands w (store_of self.now)
            → IfOk result (λ inputs. AllZip (IsInputBetween w.visible) (forced_by settings session query.now w) inputs) }
        ensures most { (w : World) (settings : schema.Settings) → settings.combine ≡ (store_of self.now).settings.combine → Stands w (store_of self.now)
            → (n : ℕ) → AreCosts (IsCostBetween w.visible) (forced_by settings session query.now w) n → steps.new ≤ steps.old + n }
    {
        let forced = self.forced(alloc, session, query)?;
        self.inputs(alloc, forced.as_slice(), steps)
    }

    /// A query of a session that is live. Cost: that of the steps that are taken for those that it forces, of their
    /// installs, and of its answer. Where it names no table and the transaction wrote none of its views' tables, it reads at most what the
    /// steps cost that it forces, each by itself, also for want of memory.
    pub fn query<L: Ledger>(
        &mut self,
        alloc: Global,
        session: u32,
        query: &Query,
        offers: Items<JobResult>,
        steps: &mut Steps<L>,
    ) -> Result<Answer, NoMemory>
        requires whole { IsStore self.old }
        requires session { session < 17 }
        requires live { IsLive (store_of self.old).sessions session }
        requires bound { IsBoundQuery (store_of self.old).tables (store_of self.old).views query.now }
        ensures done { (w : World) (settings : schema.Settings) → settings.combine ≡ (store_of self.old).settings.combine → Stands w (store_of self.old)
            → IfOk result (λ answer. GivesQuery (querying settings session query.now w) answer (store_of self.new)) }
        ensures refused { OnErr result (store_of self.new ≡ store_of self.old) }
        ensures sessions { (store_of self.new).sessions ≡ (store_of self.old).sessions }
        ensures settings { (store_of self.new).settings ≡ (store_of self.old).settings }
        ensures fresh { (w : World) → Stands w (store_of self.old) → ReadsNoTable session query.now w → steps.new ≡ steps.old }
        ensures most { (w : World) (settings : schema.Settings) → settings.combine ≡ (store_of self.old).settings.combine → Stands w (store_of self.old) → ReadsViews session query.now w
            → (n : ℕ) → AreCosts (IsCostBetween w.visible) (forced_by settings session query.now w) n → steps.new ≤ steps.old + n }
        ensures whole { IsStore self.new }
    {
        let found = self.find(alloc, session, query, offers, steps)?;
        let Found {
            forced,
            taken,
            pending,
            rows,
        } = found;
        self.take_steps(alloc, taken.as_slice(), pending)?;
        Ok(Answer { forced, rows })
    }
}
