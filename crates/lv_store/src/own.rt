//! What a transaction reads of tables: the rows at its snapshot with its own writes over them; and views over these.
ghost use Rattle.std.specs.Prelude.{◌≡◌, ◌<◌, true, length, map, nat_lt, IfOk};
ghost use Rattle.std.specs.List.{list_all, list_any};
ghost use Rattle.lv_schema.specs.Effects.{matching};
ghost use Rattle.lv_schema.specs.Groups.{view_rows_over};
ghost use Rattle.lv_schema.specs.Keys.{writes_table};
ghost use Rattle.lv_schema.specs.World.{view_at};
ghost use Rattle.lv_txn.specs.Kept.{IsLive, transaction_of};
ghost use Rattle.lv_store.specs.Querying.{has_written, own_rows_in, snapshot_in};
ghost use Rattle.lv_store.specs.Kept.{IsStore};

use crate::store::Store;
use lv_effect::{merged_rows, rows_to_try};
use lv_made::rows_by_definition;
use lv_schema::{Action, Cond};
use lv_values::{Items, NoMemory, Rows, Steps};
use std::alloc::Global;
use std::sync::ledger::Ledger;

/// Whether one of the actions is on the table.
fn writes_table(actions: &[Action], table: u32) -> bool
    ensures { result ≡ writes_table actions.now table }
{
    actions.iter().any(|action| action.table == table)
}

/// Whether one of the actions is on one of the tables.
fn writes_any(actions: &[Action], tables: &[u32]) -> bool
    ensures { result ≡ list_any (writes_table actions.now) tables.now }
{
    tables.iter().any(|table| writes_table(actions, *table))
}

impl Store {
    /// The number of a session's snapshot. A session that is not live would read the last commit.
    pub(crate) fn snapshot(&self, session: u32) -> u64
        ensures is { result ≡ snapshot_in self.now session }
        ensures live { IsLive self.now.txns session → result ≡ (transaction_of self.now.txns session).snapshot }
    {
        match self.txns.live(session) {
            Some(snapshot) => snapshot,
            None => self.base.last(),
        }
    }

    /// A table's rows, as the transaction of a session reads them. Cost: one pass.
    pub(crate) fn own_rows<L: Ledger>(
        &self,
        alloc: Global,
        session: u32,
        table: u32,
        steps: &mut Steps<L>,
    ) -> Result<Rows, NoMemory>
        requires whole { IsStore self.now }
        requires live { IsLive self.now.txns session }
        requires table { table < length self.now.schema.tables }
        ensures { IfOk result (λ rows. rows ≡ own_rows_in self.now session table) }
    {
        let def = self.schema.table(table);
        let versions = self.base.versions(table);
        let snapshot = self.snapshot(session);
        merged_rows(
            alloc,
            def,
            versions,
            snapshot,
            self.txns.own(session),
            steps,
        )
    }

    /// Rows of a table of which a condition keeps the same as of all: the one with a key, where the condition fixes
    /// it, or else all. Cost: two binary searches, or else one pass.
    pub(crate) fn own_rows_to_try<L: Ledger>(
        &self,
        alloc: Global,
        session: u32,
        table: u32,
        cond: &Cond,
        steps: &mut Steps<L>,
    ) -> Result<Rows, NoMemory>
        requires whole { IsStore self.now }
        requires live { IsLive self.now.txns session }
        requires table { table < length self.now.schema.tables }
        ensures { IfOk result (λ tried. matching cond.now tried ≡ matching cond.now (own_rows_in self.now session table)) }
    {
        let def = self.schema.table(table);
        let versions = self.base.versions(table);
        let snapshot = self.snapshot(session);
        rows_to_try(
            alloc,
            def,
            versions,
            snapshot,
            self.txns.own(session),
            cond,
            steps,
        )
    }

    /// The rows of each of these tables.
    fn own_parts<L: Ledger>(
        &self,
        alloc: Global,
        session: u32,
        tables: &[u32],
        steps: &mut Steps<L>,
    ) -> Result<Items<Rows>, NoMemory>
        requires whole { IsStore self.now }
        requires live { IsLive self.now.txns session }
        requires tables { list_all (λ t. nat_lt t (length self.now.schema.tables)) tables.now ≡ true }
        ensures { IfOk result (λ parts. parts ≡ map (own_rows_in self.now session) tables.now) }
    {
        let mut parts = Items::new(alloc);
        for table in tables {
            parts.push(self.own_rows(alloc, session, *table, steps)?)?;
        }
        Ok(parts)
    }

    /// A view's rows by its definition. Cost: a pass over each of its tables, and that of the definition.
    pub(crate) fn view_over_own_rows<L: Ledger>(
        &self,
        alloc: Global,
        session: u32,
        view: u32,
        steps: &mut Steps<L>,
    ) -> Result<Rows, NoMemory>
        requires whole { IsStore self.now }
        requires live { IsLive self.now.txns session }
        requires view { view < length self.now.schema.views }
        ensures { IfOk result (λ rows. rows ≡ view_rows_over (view_at self.now.schema.views view) (map (own_rows_in self.now session) (view_at self.now.schema.views view).tables)) }
    {
        let def = self.schema.view(view);
        let parts = self.own_parts(alloc, session, def.tables.as_slice(), steps)?;
        rows_by_definition(alloc, def, parts.as_slice())
    }

    /// Whether the transaction of a session wrote a table of a view. Cost: a look at each of its actions for each table
    /// of the view.
    pub(crate) fn has_written(&self, session: u32, view: u32) -> bool
        requires live { IsLive self.now.txns session }
        requires view { view < length self.now.schema.views }
        ensures { result ≡ has_written self.now session view }
    {
        writes_any(
            self.txns.actions(session),
            self.schema.view(view).tables.as_slice(),
        )
    }
}
