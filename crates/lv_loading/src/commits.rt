//! Records of commits.
ghost use Rattle.std.specs.Prelude.{◌≡◌, ◌+◌, ◌<◌, ◌==◌, length, true, IfOk, Ok};
ghost use Rattle.std.specs.List.{list_all};
ghost use Rattle.lv_schema.specs.declared.rec.Rec.TheVariants as rec;
ghost use Rattle.lv_schema.specs.Databases.{IsDatabase};
ghost use Rattle.lv_base.specs.Bases.{CanCommit, base_of, defs_of, last_state};
ghost use Rattle.lv_stands.specs.Moves.{BaseCommits, with_tasks};
ghost use Rattle.lv_record.specs.Kept.{is_kept_action};
ghost use Rattle.lv_replay.specs.Numbers.{number_rises};
ghost use Rattle.lv_loading.specs.Taking.{IsPrepared, IsWhole, MayCommit, Takes, is_numbered, kept_in, may_commit};

use crate::actions::can_act;
use crate::parts::Parts;
use lv_base::{Base, Ready};
use lv_made::{add_tasks, check_entries, first_full};
use lv_schema::{Action, Schema};
use lv_values::NoMemory;
use std::alloc::Global;
use std::marker::Brand;
use std::sync::ledger::{Blank, Ledger};

/// Whether the numbers of the statements that actions come from are 1 or more, and do not fall.
fn number_rises(actions: &[Action]) -> bool
    ensures { result ≡ number_rises 1 actions.now }
{
    let mut least = 1;
    for action in actions {
        if action.statement < least {
            return false;
        }
        least = action.statement;
    }
    true
}

/// Whether a number follows the last one.
fn is_next(number: u64, last: u64) -> bool
    ensures { result ≡ (number == (last + 1)) }
{
    number > 0 && number - 1 == last
}

/// Whether a commit has the next number and an action, and its actions are numbered by statements.
fn is_numbered(base: &Base, number: u64, actions: &[Action]) -> bool
    ensures { result ≡ is_numbered number actions.now base.now }
{
    is_next(number, base.last()) && !actions.is_empty() && number_rises(actions)
}

/// Whether a commit can be the next, but for the numbers of rows that its tables get. Cost: for each action a look at the
/// values of its row, and three binary searches.
fn may_commit(
    alloc: Global,
    schema: &Schema,
    base: &Base,
    number: u64,
    actions: &[Action],
) -> Result<bool, NoMemory>
    requires same { schema.now.tables ≡ defs_of base.now }
    requires kept { base.now.pruned ≡ 0 }
    requires fits { IsDatabase (defs_of base.now) (last_state base.now) }
    ensures { IfOk result (λ b. b ≡ may_commit number actions.now base.now) }
{
    if !is_numbered(base, number, actions) {
        return Ok(false);
    }
    can_act::<Brand>(alloc, schema, base, actions, Blank::new(1))
}

impl Parts {
    /// Takes all memory that a commit of these actions needs; none where a table would get too many rows. What is kept
    /// stays as it was.
    fn prepare(&mut self, alloc: Global, actions: &[Action]) -> Result<Option<Ready>, NoMemory>
        requires same { self.old.schema.tables ≡ defs_of self.old.base }
        requires can { CanCommit self.old.base actions.now }
        ensures kept { kept_in self.new ≡ kept_in self.old }
        ensures prepared { IfOk result (IsPrepared actions.now self.new) }
    {
        let ready = self.base.prepare(alloc, actions)?;
        if first_full(&self.base, self.schema.tables(), ready.nets.as_slice()).is_some() {
            return Ok(None);
        }
        check_entries(&self.base, &ready)?;
        self.upkeep.reserve(self.schema.views() as u64)?;
        Ok(Some(ready))
    }

    /// Commits what was prepared. It takes no memory.
    fn add_commit(&mut self, number: u64, ready: Ready)
        requires whole { IsWhole self.old }
        requires next { number ≡ self.old.base.number + 1 }
        requires some { 0 < length ready.actions }
        requires may { MayCommit self.old ready }
        ensures schema { self.new.schema ≡ self.old.schema }
        ensures commits { BaseCommits (defs_of self.old.base) ready.actions (base_of self.old.base) (base_of self.new.base) }
        ensures upkeep { self.new.upkeep.kept ≡ record self.old.upkeep.kept { tasks = with_tasks number ready.actions self.old.schema.views self.old.upkeep.kept.tasks } }
    {
        add_tasks(
            &self.schema,
            &mut self.upkeep,
            number,
            ready.actions.as_slice(),
        );
        self.base.commit(ready);
    }

    /// Takes the record of a commit. Cost: for each action a look at the values of its row and three binary searches, what it
    /// takes to condense the actions and to put the net change into the versions, and for each view a look at each
    /// action.
    pub(crate) fn take_commit(
        &mut self,
        alloc: Global,
        number: u64,
        actions: &[Action],
    ) -> Result<bool, NoMemory>
        requires kept { list_all is_kept_action actions.now ≡ true }
        requires whole { IsWhole self.old }
        ensures { Takes (rec.Commit number actions.now) self.old self.new result }
    {
        if !may_commit(alloc, &self.schema, &self.base, number, actions)? {
            return Ok(false);
        }
        match self.prepare(alloc, actions)? {
            None => Ok(false),
            Some(ready) => {
                self.add_commit(number, ready);
                Ok(true)
            }
        }
    }
}
