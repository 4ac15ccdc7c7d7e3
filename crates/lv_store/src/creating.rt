//! CREATE TABLE and CREATE VIEW.
ghost use Rattle.std.specs.Prelude.{◌≡◌, ◌<◌, [], ◌∷◌, ◌++◌, length, IfOk, OnOk};
ghost use Rattle.lv_schema.specs.Bound.{IsBoundTable, IsBoundView};
ghost use Rattle.lv_schema.specs.Cases.{with_table};
ghost use Rattle.lv_schema.specs.Cases as cases;
ghost use Rattle.lv_schema.specs.Records.{table_record, view_record};
ghost use Rattle.lv_schema.specs.World.{World};
ghost use Rattle.lv_txn.specs.Kept.{live_kept};
ghost use Rattle.lv_base.specs.Bases.{KeepsIndexes};
ghost use Rattle.lv_made.specs.Views.{IsMadeView, parts_at};
ghost use Rattle.lv_near.specs.Orders.{HasLinkIndexes};
ghost use Rattle.lv_store.specs.Answering.{wrote};
ghost use Rattle.lv_store.specs.MadeViews.{HasRoom, IsReadyTable, IsReadyView, with_view};
ghost use Rattle.lv_store.specs.Kept.{IsStore, Stands, store_of};

use crate::store::Store;
use lv_made::{made_view, parts_at};
use lv_near::index_links;
use lv_schema::{TableDef, ViewDef, view_rows_are_distinct};
use lv_stands::{groups_can_be_kept, what_is_made_stands};
use lv_values::{Copying, NoMemory, Steps, Text};
use lv_viewrows::ViewRows;
use std::alloc::Global;
use std::sync::ledger::Ledger;

/// A table for which there is room: its definition, for the schema and for the committed states.
#[derive(Drop)]
pub struct ReadyTable {
    pub def: TableDef,
    pub copied: TableDef,
}

/// A view for which there is room, and its rows at the last commit.
#[derive(Drop)]
pub struct ReadyView {
    pub def: ViewDef,
    pub rows: ViewRows,
}

/// The view as it is made at a commit.
fn created_at(def: ViewDef, commit: u64) -> ViewDef
    ensures { result ≡ record def { created = commit } }
{
    ViewDef {
        created: commit,
        ..def
    }
}

impl Store {
    /// The first half of CREATE TABLE: it takes all memory. What is kept stays as it was.
    pub fn prepare_table(&mut self, alloc: Global, def: TableDef) -> Result<ReadyTable, NoMemory>
        requires whole { IsStore self.old }
        ensures kept { store_of self.new ≡ store_of self.old }
        ensures ready { IfOk result (IsReadyTable def self.new) }
        ensures whole { IsStore self.new }
    {
        let copied = def.copy(alloc)?;
        self.base.reserve_table()?;
        self.schema.reserve(alloc, &def.name)?;
        Ok(ReadyTable { def, copied })
    }

    /// The second half of CREATE TABLE: the table is empty at every commit. It takes no memory. Cost: constant.
    pub fn add_table(&mut self, alloc: Global, ready: ReadyTable)
        requires whole { IsStore self.old }
        requires ready { IsReadyTable ready.def self.old ready }
        requires bound { IsBoundTable (store_of self.old).tables (store_of self.old).views ready.def }
        ensures case { (w : World) → Stands w (store_of self.old) → Stands (wrote (table_record ready.def) (with_table ready.def w.visible) w) (store_of self.new) }
        ensures settings { (store_of self.new).settings ≡ (store_of self.old).settings }
        ensures whole { IsStore self.new }
    {
        what_is_made_stands();
        self.base.add_table(alloc, ready.copied);
        self.schema.add_table(ready.def);
    }

    /// A view that is bound, over the last state. Cost: that of the join, and of a scan of its tables.
    fn evaluated<L: Ledger>(
        &self,
        alloc: Global,
        def: &ViewDef,
        steps: &mut Steps<L>,
    ) -> Result<ViewRows, NoMemory>
        requires whole { IsStore self.now }
        requires bound { IsBoundView self.now.schema.tables self.now.schema.views def.now }
        ensures { IfOk result (IsMadeView def.now self.now.base.number (parts_at self.now.base self.now.base.number def.now.tables)) }
    {
        groups_can_be_kept();
        view_rows_are_distinct();
        let commit = self.base.last();
        let parts = parts_at(alloc, &self.base, commit, def.tables.as_slice(), steps)?;
        let def = def.copy(alloc)?;
        made_view(alloc, def, commit, parts.as_slice())
    }

    /// Makes room for one more view of this name. Want of memory changes nothing that is kept.
    fn reserve_view(&mut self, alloc: Global, name: &Text) -> Result<(), NoMemory>
        ensures store { store_of self.new ≡ store_of self.old }
        ensures rows { self.new.rows.list ≡ self.old.rows.list }
        ensures room { OnOk result (HasRoom name.now self.new) }
        ensures base { self.new.base ≡ self.old.base }
    {
        self.upkeep.reserve_view()?;
        self.rows.reserve(1)?;
        self.schema.reserve(alloc, name)
    }

    /// Adds a view with its rows, for which room is kept. It takes no memory.
    fn push_view(&mut self, def: ViewDef, rows: ViewRows)
        requires room { HasRoom def.name self.old }
        requires bound { IsBoundView self.old.schema.tables self.old.schema.views def }
        requires few { length self.old.upkeep.kept.points < 32 }
        ensures store { store_of self.new ≡ with_view def rows (store_of self.old) }
        ensures rows { self.new.rows.list ≡ self.old.rows.list ++ rows ∷ [] }
    {
        let created = def.created;
        self.schema.add_view(def);
        self.upkeep.add_view(created);
        self.rows.push(rows);
    }

    /// The first half of CREATE VIEW: the view is evaluated at the last commit, its tables get the indexes in which its
    /// steps look rows up, and all memory is taken. What is kept stays as it was. Cost: that of the join, of a scan of its
    /// tables, and for each index that is new a binary search for each row version.
    pub fn prepare_view<L: Ledger>(
        &mut self,
        alloc: Global,
        def: ViewDef,
        steps: &mut Steps<L>,
    ) -> Result<ReadyView, NoMemory>
        requires whole { IsStore self.old }
        requires bound { IsBoundView (store_of self.old).tables (store_of self.old).views def }
        ensures kept { store_of self.new ≡ store_of self.old }
        ensures def { IfOk result (λ ready. ready.def ≡ record def { created = (store_of self.new).base.number }) }
        ensures bound { IfOk result (λ ready. IsBoundView (store_of self.new).tables (store_of self.new).views ready.def) }
        ensures ready { IfOk result (IsReadyView self.new) }
        ensures whole { IsStore self.new }
        ensures indexes { OnOk result (HasLinkIndexes self.new.base def) }
        ensures indexes_stay { KeepsIndexes self.old.base self.new.base }
    {
        let def = created_at(def, self.base.last());
        index_links(alloc, &mut self.base, &def)?;
        self.reserve_view(alloc, &def.name)?;
        let rows = self.evaluated(alloc, &def, steps)?;
        Ok(ReadyView { def, rows })
    }

    /// The second half of CREATE VIEW, where nobody is live. It takes no memory. Cost: constant.
    pub fn add_view(&mut self, ready: ReadyView)
        requires whole { IsStore self.old }
        requires ready { IsReadyView self.old ready }
        requires bound { IsBoundView (store_of self.old).tables (store_of self.old).views ready.def }
        requires nobody { live_kept (store_of self.old).sessions ≡ [] }
        ensures case { (w : World) → Stands w (store_of self.old) → Stands (wrote (view_record ready.def w.visible) (cases.with_view ready.def w.visible) w) (store_of self.new) }
        ensures settings { (store_of self.new).settings ≡ (store_of self.old).settings }
        ensures whole { IsStore self.new }
    {
        what_is_made_stands();
        self.push_view(ready.def, ready.rows);
    }
}
