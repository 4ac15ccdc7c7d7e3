//! What the rows of a net change are gathered in: copies of them, or references to where they lie.
ghost use Rattle.std.specs.Prelude.{◌≡◌, [], map, IfOk};

use lv_schema::{Action, Net};
use lv_values::{Copying, NoMemory, Row, Rows};
use std::alloc::Global;
use std::marker::Model;

/// A net change to which the rows of actions are added.
pub(crate) trait Gathers<'a>: Drop {
    ghost use Rattle.std.specs.Prelude.{◌≡◌, ◌++◌, ◌∷◌, [], IfOk, OnOk};
    ghost use Rattle.lv_schema.specs.declared.net.Net.{Net as ANet};

    /// The net change.
    ghost net: { Self → ANet };

    /// No rows, with room for so many that are lost and so many that are gained; each list takes its room once, and none
    /// where no row is expected.
    fn with_room(alloc: Global, lost: usize, gained: usize) -> Result<Self, NoMemory>
        ensures lost { IfOk result (λ rows. (net rows).minus ≡ []) }
        ensures gained { IfOk result (λ rows. (net rows).plus ≡ []) };

    /// The row of an action is lost.
    fn lose(&mut self, alloc: Global, action: &'a Action) -> Result<(), NoMemory>
        ensures lost { OnOk result ((net self.new).minus ≡ (net self.old).minus ++ action.now.row ∷ []) }
        ensures gained { (net self.new).plus ≡ (net self.old).plus };

    /// The row of an action is gained.
    fn gain(&mut self, alloc: Global, action: &'a Action) -> Result<(), NoMemory>
        ensures lost { (net self.new).minus ≡ (net self.old).minus }
        ensures gained { OnOk result ((net self.new).plus ≡ (net self.old).plus ++ action.now.row ∷ []) };
}

impl<'a> Gathers<'a> for Net {
    ghost net = { λ net. net };

    fn with_room(alloc: Global, lost: usize, gained: usize) -> Result<Self, NoMemory> {
        Ok(Net {
            minus: Rows::from_vec(Vec::with_capacity(alloc, lost)?),
            plus: Rows::from_vec(Vec::with_capacity(alloc, gained)?),
        })
    }

    fn lose(&mut self, alloc: Global, action: &'a Action) -> Result<(), NoMemory> {
        self.minus.push(action.row.copy(alloc)?)
    }

    fn gain(&mut self, alloc: Global, action: &'a Action) -> Result<(), NoMemory> {
        self.plus.push(action.row.copy(alloc)?)
    }
}

/// References to the rows that a table loses and to those that it gains, each in the order of their keys. Contracts see
/// the net change.
#[derive(Drop)]
pub struct NetRows<'a> {
    minus: Vec<&'a Row>,
    plus: Vec<&'a Row>,
}

impl<'a> Model for NetRows<'a> {
    ghost use Rattle.std.specs.Prelude.{map};
    ghost use Rattle.lv_schema.specs.declared.net.Net.{Net};

    ghost Value = { Net };

    ghost view = { λ n. record { minus = map (λ row. row.now) n.minus.items; plus = map (λ row. row.now) n.plus.items } };
}

impl<'a> Gathers<'a> for NetRows<'a> {
    ghost net = { λ net. net };

    fn with_room(alloc: Global, lost: usize, gained: usize) -> Result<Self, NoMemory> {
        Ok(NetRows {
            minus: Vec::with_capacity(alloc, lost)?,
            plus: Vec::with_capacity(alloc, gained)?,
        })
    }

    fn lose(&mut self, _alloc: Global, action: &'a Action) -> Result<(), NoMemory> {
        self.minus.push(&action.row)?;
        Ok(())
    }

    fn gain(&mut self, _alloc: Global, action: &'a Action) -> Result<(), NoMemory> {
        self.plus.push(&action.row)?;
        Ok(())
    }
}

impl<'a> NetRows<'a> {
    /// The rows that are lost.
    pub fn minus(&self) -> &[&'a Row]
        ensures { map (λ row. row.now) result.now ≡ self.now.minus }
    {
        &self.minus
    }

    /// The rows that are gained.
    pub fn plus(&self) -> &[&'a Row]
        ensures { map (λ row. row.now) result.now ≡ self.now.plus }
    {
        &self.plus
    }
}
