//! INSERT, UPDATE and DELETE in a transaction.
ghost use Rattle.std.specs.Prelude.{◌≡◌, ◌<◌, ◌≤◌, OnErr, length, slice_set};
ghost use Rattle.lv_schema.specs.Bound.{IsBoundChange};
ghost use Rattle.lv_schema.specs.Cases.{changed};
ghost use Rattle.lv_schema.specs.Effects.{changed_table, effect_of};
ghost use Rattle.lv_schema.specs.World.{World, transaction};
ghost use Rattle.lv_base.specs.Bases.{table_in};
ghost use Rattle.lv_effect.specs.Answered.{GivesEffect};
ghost use Rattle.lv_stands.specs.Kept.{shown};
ghost use Rattle.lv_txn.specs.Kept.{IsLive, transaction_at, transaction_of};
ghost use Rattle.lv_store.specs.Answering.{Meets, effect_fault};
ghost use Rattle.lv_store.specs.Kept.{IsStore, Stands, store_of};

use crate::store::Store;
use lv_effect::{EffectFault, effect, sums_of_a_bound_change_fit};
use lv_schema::{Actions, Change};
use lv_txn::written_rows_stand_under_their_keys;
use lv_values::Steps;
use std::alloc::Global;
use std::sync::ledger::Ledger;

/// The table that a change is on.
pub(crate) fn changed_table(change: &Change) -> u32
    ensures { result ≡ changed_table change.now }
{
    match change {
        Change::Insert { table, rows: _ }
        | Change::Update {
            table,
            sets: _,
            cond: _,
        }
        | Change::Delete { table, cond: _ } => *table,
    }
}

impl Store {
    /// No fewer than the rows of a table at a snapshot: those of the last commit where that is the snapshot, or else all
    /// versions that are kept. Cost: constant.
    fn most_rows(&self, table: u32, snapshot: u64) -> u64
        requires { table < length self.now.base.tables }
        ensures { length (shown snapshot (table_in self.now.base.tables table).versions) ≤ result }
    {
        if snapshot == self.base.last() {
            self.base.rows(table)
        } else {
            self.base.versions(table).count()
        }
    }

    /// The number of rows and the actions of a change over the rows of a session's own.
    fn effect_of<L: Ledger>(
        &self,
        alloc: Global,
        session: u32,
        change: &Change,
        steps: &mut Steps<L>,
    ) -> Result<(u64, Actions), EffectFault>
        requires whole { IsStore self.now }
        requires session { session < 17 }
        requires live { IsLive (store_of self.now).sessions session }
        requires bound { IsBoundChange (store_of self.now).tables change.now }
        ensures given { (w : World) → Stands w (store_of self.now) → GivesEffect result (effect_of w.visible.tables change.now (transaction session w.visible).own) }
    {
        sums_of_a_bound_change_fit();
        let table = changed_table(change);
        let snapshot = self.txns.live(session).unwrap();
        effect(
            alloc,
            self.schema.table(table),
            self.base.versions(table),
            snapshot,
            self.most_rows(table, snapshot),
            self.txns.own(session),
            change,
            steps,
        )
    }

    /// INSERT, UPDATE or DELETE in a session's transaction.
    pub fn change<L: Ledger>(
        &mut self,
        alloc: Global,
        session: u32,
        change: &Change,
        steps: &mut Steps<L>,
    ) -> Result<u64, EffectFault>
        requires whole { IsStore self.old }
        requires session { session < 17 }
        requires live { IsLive (store_of self.old).sessions session }
        requires few { (transaction_of (store_of self.old).sessions session).changes < 4294967295 }
        requires bound { IsBoundChange (store_of self.old).tables change.now }
        ensures case { (w : World) → Stands w (store_of self.old) → Meets effect_fault w (store_of self.old) (store_of self.new) result (changed session change.now w.visible) }
        ensures refused { OnErr result (store_of self.new ≡ store_of self.old) }
        ensures others { store_of self.new ≡ record (store_of self.old) { sessions = slice_set (store_of self.old).sessions session (transaction_at (store_of self.new).sessions session) } }
        ensures whole { IsStore self.new }
    {
        written_rows_stand_under_their_keys();
        let (count, actions) = self.effect_of(alloc, session, change, steps)?;
        self.txns.note(alloc, session, &self.schema, actions)?;
        Ok(count)
    }
}
