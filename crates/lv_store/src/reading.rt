//! The rows that a query reads, where differences of its views are pending.
ghost use Rattle.std.specs.Prelude.{◌≡◌, ◌≢◌, ◌<◌, ◌∷◌, ℕ, List, [], true, false, filter, length, map, not, slice_get, IfOk, MatchOption, Some};
ghost use Rattle.std.specs.List.{list_all};
ghost use Rattle.lv_schema.specs.declared.query.Rel.{Rel as ARel};
ghost use Rattle.lv_schema.specs.Effects.{matching};
ghost use Rattle.lv_schema.specs.Answers.{answer_over};
ghost use Rattle.lv_schema.specs.Bound.{rel_in_use};
ghost use Rattle.lv_schema.specs.JoinViews.{selected};
ghost use Rattle.lv_txn.specs.Kept.{IsLive};
ghost use Rattle.lv_schema.specs.Truth.{holds};
ghost use Rattle.lv_viewrows.specs.Beginning.{AllFrom, AllUpTo, first_column};
ghost use Rattle.lv_viewrows.specs.Kept.{ViewKept};
ghost use Rattle.lv_store.specs.Querying.{has_written, reads_kept, rel_rows_in, view_rows_in};
ghost use Rattle.lv_store.specs.Ranges.{IsSaidOf, highest_of, lowest_of};
ghost use Rattle.lv_store.specs.Pending.{AllTake, CanRead};
ghost use Rattle.lv_store.specs.Kept.{IsStore};

use crate::pending::{Pending, rows_with};
use crate::sought::{FirstRange, SoughtBy, range_of};
use crate::store::Store;
use lv_effect::KeptBy;
use lv_query::answer;
use lv_schema::{Cond, Query, Rel};
use lv_values::{Any, Items, NoMemory, Rows, Steps};
use lv_viewrows::Seek;
use std::alloc::Global;
use std::sync::ledger::Ledger;

/// What a query reads that names one table or view and nothing else.
fn only_rel(rels: &[Rel]) -> Option<Rel>
    ensures { MatchOption result ((rel : ARel) → rels.now ≢ rel ∷ []) (λ rel. rels.now ≡ rel ∷ []) }
{
    match rels {
        [rel] => Some(*rel),
        _ => None,
    }
}

impl Store {
    /// The values with which what is kept of a view's rows begins wherever a condition keeps the row, as the condition says.
    /// Cost: a look at each item of the view, and up to three passes over the condition.
    fn first_range(&self, alloc: Global, view: u32, cond: &Cond) -> Result<FirstRange, NoMemory>
        requires { view < length self.now.rows.list }
        ensures said { (kept : ViewKept) → slice_get self.now.rows.list view ≡ Some kept → IfOk result (λ range. IsSaidOf (first_column kept.def) cond.now range) }
        ensures low { (kept : ViewKept) → slice_get self.now.rows.list view ≡ Some kept → IfOk result (λ range. AllFrom kept.def (λ row. holds cond.now (row ∷ [])) (lowest_of range)) }
        ensures high { (kept : ViewKept) → slice_get self.now.rows.list view ≡ Some kept → IfOk result (λ range. AllUpTo kept.def (λ row. holds cond.now (row ∷ [])) (highest_of range)) }
    {
        match self.rows.get(view as usize).first_column() {
            Some(column) => range_of(alloc, column, cond),
            None => Ok(FirstRange::Between {
                lowest: None,
                highest: None,
            }),
        }
    }

    /// Rows of which the same pass as of a view's rows, as the transaction of a session reads them. Cost: that of
    /// `rows_with`, where the transaction wrote none of its tables; else that of its definition.
    fn view_rows<L: Ledger, T: Seek>(
        &self,
        alloc: Global,
        session: u32,
        pending: &Pending,
        view: u32,
        test: &T,
        steps: &mut Steps<L>,
    ) -> Result<Rows, NoMemory>
        requires low { (kept : ViewKept) → slice_get self.now.rows.list view ≡ Some kept → AllFrom kept.def (T.passed test.now) (T.lowest test.now) }
        requires high { (kept : ViewKept) → slice_get self.now.rows.list view ≡ Some kept → AllUpTo kept.def (T.passed test.now) (T.highest test.now) }
        requires whole { IsStore self.now }
        requires live { IsLive self.now.txns session }
        requires pending { CanRead self.now session pending.now }
        requires view { view < length self.now.schema.views }
        ensures rows { (floor : ℕ) (last : List ViewKept) → AllTake floor pending.now self.now.rows.list last → IfOk result (λ rows. filter (T.passed test.now) rows ≡ filter (T.passed test.now) (view_rows_in self.now session last view)) }
        ensures cost { has_written self.now session view ≡ false → steps.new ≡ steps.old }
    {
        if self.has_written(session, view) {
            return self.view_over_own_rows(alloc, session, view, steps);
        }
        let snapshot = self.snapshot(session);
        let rows = self.rows.get(view as usize);
        let differences = pending.get(view as usize).as_slice();
        rows_with(alloc, snapshot, rows, differences, test)
    }

    /// The rows that a table or a view stands for.
    fn rel_rows<L: Ledger>(
        &self,
        alloc: Global,
        session: u32,
        pending: &Pending,
        rel: &Rel,
        steps: &mut Steps<L>,
    ) -> Result<Rows, NoMemory>
        requires whole { IsStore self.now }
        requires live { IsLive self.now.txns session }
        requires pending { CanRead self.now session pending.now }
        requires in_use { rel_in_use self.now.schema.tables self.now.schema.views rel.now ≡ true }
        ensures rows { (floor : ℕ) (last : List ViewKept) → AllTake floor pending.now self.now.rows.list last → IfOk result (λ rows. rows ≡ rel_rows_in self.now session last rel.now) }
        ensures cost { reads_kept self.now session rel.now ≡ true → steps.new ≡ steps.old }
    {
        match rel {
            Rel::Table(table) => self.own_rows(alloc, session, *table, steps),
            Rel::View(view) => self.view_rows(alloc, session, pending, *view, &Any, steps),
        }
    }

    /// The rows of each alias of a query.
    fn query_parts<L: Ledger>(
        &self,
        alloc: Global,
        session: u32,
        pending: &Pending,
        rels: &[Rel],
        steps: &mut Steps<L>,
    ) -> Result<Items<Rows>, NoMemory>
        requires whole { IsStore self.now }
        requires live { IsLive self.now.txns session }
        requires pending { CanRead self.now session pending.now }
        requires in_use { list_all (rel_in_use self.now.schema.tables self.now.schema.views) rels.now ≡ true }
        ensures parts { (floor : ℕ) (last : List ViewKept) → AllTake floor pending.now self.now.rows.list last → IfOk result (λ parts. parts ≡ map (rel_rows_in self.now session last) rels.now) }
        ensures cost { list_all (reads_kept self.now session) rels.now ≡ true → steps.new ≡ steps.old }
    {
        let mut parts = Items::new(alloc);
        for rel in rels {
            parts.push(self.rel_rows(alloc, session, pending, rel, steps)?)?;
        }
        Ok(parts)
    }

    /// Rows of a table or a view of which a condition keeps the same as of all: of a table the row with a key, where the
    /// condition fixes it; of a view whose tables the transaction did not write those that the condition keeps, found by a
    /// search where the condition fixes or bounds the first value of what is kept of it.
    fn rel_rows_to_try<L: Ledger>(
        &self,
        alloc: Global,
        session: u32,
        pending: &Pending,
        rel: Rel,
        cond: &Cond,
        steps: &mut Steps<L>,
    ) -> Result<Rows, NoMemory>
        requires whole { IsStore self.now }
        requires live { IsLive self.now.txns session }
        requires pending { CanRead self.now session pending.now }
        requires in_use { rel_in_use self.now.schema.tables self.now.schema.views rel ≡ true }
        ensures rows { (floor : ℕ) (last : List ViewKept) → AllTake floor pending.now self.now.rows.list last → IfOk result (λ tried. matching cond.now tried ≡ matching cond.now (rel_rows_in self.now session last rel)) }
        ensures cost { reads_kept self.now session rel ≡ true → steps.new ≡ steps.old }
    {
        match rel {
            Rel::Table(table) => self.own_rows_to_try(alloc, session, table, cond, steps),
            Rel::View(view) => {
                let range = self.first_range(alloc, view, cond)?;
                let kept = KeptBy { cond };
                let test = SoughtBy { kept, range };
                self.view_rows(alloc, session, pending, view, &test, steps)
            }
        }
    }

    /// Rows of each alias of a query, of which its condition keeps the same tuples as of all.
    fn parts_to_try<L: Ledger>(
        &self,
        alloc: Global,
        session: u32,
        pending: &Pending,
        query: &Query,
        steps: &mut Steps<L>,
    ) -> Result<Items<Rows>, NoMemory>
        requires whole { IsStore self.now }
        requires live { IsLive self.now.txns session }
        requires pending { CanRead self.now session pending.now }
        requires in_use { list_all (rel_in_use self.now.schema.tables self.now.schema.views) query.now.rels ≡ true }
        ensures parts { (floor : ℕ) (last : List ViewKept) → AllTake floor pending.now self.now.rows.list last → IfOk result (λ parts. selected query.now.cond parts ≡ selected query.now.cond (map (rel_rows_in self.now session last) query.now.rels)) }
        ensures cost { list_all (reads_kept self.now session) query.now.rels ≡ true → steps.new ≡ steps.old }
    {
        let Some(rel) = only_rel(query.rels.as_slice()) else {
            return self.query_parts(alloc, session, pending, query.rels.as_slice(), steps);
        };
        let mut parts = Items::new(alloc);
        parts.push(self.rel_rows_to_try(alloc, session, pending, rel, &query.cond, steps)?)?;
        Ok(parts)
    }

    /// The answer of a query.
    pub(crate) fn answer_with<L: Ledger>(
        &self,
        alloc: Global,
        session: u32,
        pending: &Pending,
        query: &Query,
        steps: &mut Steps<L>,
    ) -> Result<Rows, NoMemory>
        requires whole { IsStore self.now }
        requires live { IsLive self.now.txns session }
        requires pending { CanRead self.now session pending.now }
        requires in_use { list_all (rel_in_use self.now.schema.tables self.now.schema.views) query.now.rels ≡ true }
        ensures rows { (floor : ℕ) (last : List ViewKept) → AllTake floor pending.now self.now.rows.list last → IfOk result (λ rows. rows ≡ answer_over query.now (map (rel_rows_in self.now session last) query.now.rels)) }
        ensures cost { list_all (reads_kept self.now session) query.now.rels ≡ true → steps.new ≡ steps.old }
    {
        let parts = self.parts_to_try(alloc, session, pending, query, steps)?;
        answer(alloc, query, parts)
    }
}
