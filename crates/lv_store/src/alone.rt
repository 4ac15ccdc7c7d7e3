//! INSERT, UPDATE and DELETE outside a transaction: the change and its commit at once, in two halves.
ghost use Rattle.std.specs.Prelude.{◌≡◌, ◌+◌, ◌<◌, ℕ, None, Ok, Some, Err, length, IfOk};
ghost use Rattle.lv_schema.specs.declared.change.Change.{Change};
ghost use Rattle.lv_schema.specs.declared.fault.Fault.{Fault};
ghost use Rattle.lv_schema.specs.declared.rec.Rec.{Rec};
ghost use Rattle.lv_schema.specs.declared.rec.Rec.TheVariants.{Commit};
ghost use Rattle.lv_schema.specs.Bound.{IsBoundChange};
ghost use Rattle.lv_schema.specs.Cases.{Outcome, alone, numbered};
ghost use Rattle.lv_schema.specs.Cases as cases;
ghost use Rattle.lv_schema.specs.Effects.{effect_of};
ghost use Rattle.lv_schema.specs.World.{World, opened, transaction};
ghost use Rattle.lv_effect.specs.declared.fault.EffectFault.TheVariants.{Stmt};
ghost use Rattle.lv_effect.specs.Answered.{GivesEffect};
ghost use Rattle.lv_stands.specs.Moves.{full_in};
ghost use Rattle.lv_txn.specs.Kept.{transaction_at};
ghost use Rattle.lv_store.specs.Alone.{IsEffectAlone, MayCommitAlone, PreparesAlone, made_alone, with_alone};
ghost use Rattle.lv_store.specs.Answering.{with_visible, wrote};
ghost use Rattle.lv_store.specs.Kept.{IsStore, Stands, store_of};

use crate::changing::changed_table;
use crate::committing::{Prepared, check_numbers};
use crate::store::Store;
use lv_base::{Ready, bases_that_stand_can_commit};
use lv_effect::{EffectFault, effect, sums_of_a_bound_change_fit};
use lv_made::{add_tasks, first_full};
use lv_overlay::Overlay;
use lv_schema::{Action, Actions, Change, Fault};
use lv_stands::what_stands_is_whole;
use lv_txn::written_rows_stand_under_their_keys;
use lv_values::{Edit, Steps};
use std::alloc::Global;
use std::sync::ledger::Ledger;

/// Gives an action the number of a first change.
#[derive(Drop)]
struct AsFirst;

impl Edit<Action> for AsFirst {
    ghost use Rattle.lv_schema.specs.Cases.{with_number};

    ghost edited = { λ _ action. with_number 1 action };

    fn edit(&self, action: &mut Action) {
        action.statement = 1;
    }
}

impl Store {
    /// The number of rows and the actions of a change over the last commit.
    fn effect_alone<L: Ledger>(
        &self,
        alloc: Global,
        change: &Change,
        steps: &mut Steps<L>,
    ) -> Result<(u64, Actions), EffectFault>
        requires whole { IsStore self.now }
        requires bound { IsBoundChange (store_of self.now).tables change.now }
        ensures given { (w : World) → Stands w (store_of self.now) → GivesEffect result (effect_of w.visible.tables change.now (opened w.visible).own) }
    {
        sums_of_a_bound_change_fit();
        let table = changed_table(change);
        let snapshot = self.base.last();
        let own = Overlay::new(alloc);
        effect(
            alloc,
            self.schema.table(table),
            self.base.versions(table),
            snapshot,
            self.base.rows(table),
            &own,
            change,
            steps,
        )
    }

    /// Takes all memory that the commit of a change's actions needs, unless a table would be full. What is kept stays as it
    /// was.
    fn ready_alone(&mut self, alloc: Global, actions: Actions) -> Result<Ready, EffectFault>
        requires whole { IsStore self.old }
        requires effect { (change : Change) × (count : ℕ) × IsEffectAlone (store_of self.old) change count actions }
        ensures kept { store_of self.new ≡ store_of self.old }
        ensures actions { IfOk result (λ ready. ready.actions ≡ numbered 1 actions) }
        ensures may { IfOk result (λ ready. (session : ℕ) → session < 17 → MayCommitAlone session self.new ready) }
        ensures full { (fault : Fault) → result ≡ Err (Stmt fault) → full_in (store_of self.old).tables (store_of self.old).base (numbered 1 actions) ≡ Some fault }
        ensures whole { IsStore self.new }
    {
        bases_that_stand_can_commit();
        written_rows_stand_under_their_keys();
        let mut actions = actions;
        actions.edit_each(&AsFirst);
        let ready = self.base.prepare_moved(alloc, actions)?;
        if let Some(table) = first_full(&self.base, self.schema.tables(), ready.nets.as_slice()) {
            return Err(EffectFault::Stmt(Fault::MergedFull { table }));
        }
        check_numbers(&self.base, &ready)?;
        self.upkeep.reserve(self.schema.views() as u64)?;
        Ok(ready)
    }

    /// The first half of a change outside a transaction. It answers the number of rows, and the commit for which all memory is
    /// taken, none where the change has no action. What is kept stays as it was.
    /// Cost: that of the effect on the table, and for its c actions c log c comparisons of keys.
    pub fn prepare_alone<L: Ledger>(
        &mut self,
        alloc: Global,
        change: &Change,
        steps: &mut Steps<L>,
    ) -> Result<(u64, Prepared), EffectFault>
        requires whole { IsStore self.old }
        requires bound { IsBoundChange (store_of self.old).tables change.now }
        ensures kept { store_of self.new ≡ store_of self.old }
        ensures case { (session : ℕ) (w : World) (outcome : Rec → Outcome) → session < 17 → transaction_at (store_of self.old).sessions session ≡ None → Stands w (store_of self.old)
            → PreparesAlone (made_alone session change.now w.visible) w outcome session (store_of self.old) result (alone outcome session change.now w.visible) }
        ensures made { (count : ℕ) (ready : Ready) → result ≡ Ok (count, Prepared.Ready ready) → (session : ℕ) (w : World) → session < 17 → Stands w (store_of self.old)
            → Stands (with_visible (made_alone session change.now w.visible) w) (store_of (with_alone session ready.actions self.new)) }
        ensures may { (count : ℕ) (ready : Ready) → result ≡ Ok (count, Prepared.Ready ready) → (session : ℕ) → session < 17 → MayCommitAlone session self.new ready }
        ensures some { (count : ℕ) (ready : Ready) → result ≡ Ok (count, Prepared.Ready ready) → 0 < length ready.actions }
        ensures whole { IsStore self.new }
    {
        written_rows_stand_under_their_keys();
        let (count, actions) = self.effect_alone(alloc, change, steps)?;
        if actions.is_empty() {
            return Ok((count, Prepared::Nothing));
        }
        let ready = self.ready_alone(alloc, actions)?;
        Ok((count, Prepared::Ready(ready)))
    }

    /// The second half of a change outside a transaction: the next commit has its actions, and each view on whose tables one of
    /// them is has one more pending task. It answers the number of the commit, and takes no memory.
    /// Cost: for c actions a search and a move of small numbers each, and a look at each view.
    pub fn add_alone(&mut self, ready: Ready) -> u64
        requires whole { IsStore self.old }
        requires some { 0 < length ready.actions }
        requires may { (session : ℕ) × MayCommitAlone session self.old ready × (transaction_at self.old.txns session ≡ None) }
        ensures number { result ≡ (store_of self.old).base.number + 1 }
        ensures case { (session : ℕ) (w : World) → MayCommitAlone session self.old ready → transaction_at (store_of self.old).sessions session ≡ None → Stands w (store_of (with_alone session ready.actions self.old))
            → Stands (wrote (Commit ((store_of self.old).base.number + 1) ready.actions) (cases.with_commit session (transaction session w.visible) w.visible) w) (store_of self.new) }
        ensures sessions { (store_of self.new).sessions ≡ (store_of self.old).sessions }
        ensures rows { (store_of self.new).rows ≡ (store_of self.old).rows }
        ensures points { (store_of self.new).upkeep.points ≡ (store_of self.old).upkeep.points }
        ensures settings { (store_of self.new).settings ≡ (store_of self.old).settings }
        ensures whole { IsStore self.new }
    {
        what_stands_is_whole();
        let number = self.base.last() + 1;
        add_tasks(
            &self.schema,
            &mut self.upkeep,
            number,
            ready.actions.as_slice(),
        );
        self.base.commit(ready);
        number
    }
}
