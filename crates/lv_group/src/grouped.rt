//! The groups of a view.
ghost use Rattle.std.specs.Prelude.{◌≡◌, ◌≤◌, ◌+◌, length, IfOk, OnOk};
ghost use Rattle.std.specs.List.{filter_map};
ghost use Rattle.lv_schema.specs.Applicable.{AreNetted, ApplyToGroups};
ghost use Rattle.lv_schema.specs.Differences.{summed_column};

use crate::applying::{add_all, drop_empty};
use crate::listing::listed_rows;
use lv_schema::{Cols, Signed, SignedRow, ViewItems};
use lv_values::{NoMemory, Rows};
use std::alloc::Global;
use std::marker::Model;

/// The groups of a view with their counts and sums, each once, in ascending order.
#[derive(Drop)]
pub struct Groups {
    by: Cols,
    items: ViewItems,
    groups: Vec<SignedRow>,
}

impl Model for Groups {
    ghost use Rattle.std.specs.Prelude.{◌-◌, length};
    ghost use Rattle.std.specs.List.{filter_map};
    ghost use Rattle.std.specs.Vec.{vec_len, vec_capacity};
    ghost use Rattle.lv_schema.specs.Differences.{summed_column};
    ghost use Rattle.lv_group.specs.Gathered.{AreGroups, Gathered};

    ghost Value = { Gathered };

    ghost view = { λ g. record { by = g.by; items = g.items; groups = g.groups.items; spare = vec_capacity g.groups - vec_len g.groups } };

    ghost invariant = { λ g. AreGroups (length (filter_map summed_column g.items)) g.groups.items };
}

impl Groups {
    ghost use Rattle.lv_group.specs.Gathered.{AreGroups, regrouped, rows_of};

    /// These groups, with the columns that tell them apart, and a view's list.
    pub(crate) fn new(by: Cols, items: ViewItems, groups: Vec<SignedRow>) -> Groups
        requires { AreGroups (length (filter_map summed_column items)) groups.items }
        ensures by { result.by ≡ by }
        ensures items { result.items ≡ items }
        ensures groups { result.groups ≡ groups.items }
    {
        Groups { by, items, groups }
    }

    /// The groups themselves. Cost: constant.
    pub fn into_groups(self) -> Signed
        ensures { result ≡ self.groups }
    {
        let Groups {
            by: _,
            items: _,
            groups,
        } = self;
        Signed::from_vec(groups)
    }

    /// The row of each group with the view's listed values, in ascending order. Cost: a copy of the listed values,
    /// and n log n comparisons for n groups.
    pub fn rows(&self, alloc: Global) -> Result<Rows, NoMemory>
        ensures { IfOk result (λ rows. rows ≡ rows_of self.now) }
    {
        let mut rows = listed_rows(
            alloc,
            self.by.as_slice(),
            self.items.as_slice(),
            &self.groups,
        )?;
        rows.sort();
        Ok(rows)
    }

    /// Makes room for `groups` more groups. The groups stay as they were, and the room never shrinks.
    pub fn reserve(&mut self, groups: u64) -> Result<(), NoMemory>
        ensures same { self.new ≡ record self.old { spare = self.new.spare } }
        ensures room { OnOk result (groups ≤ self.new.spare) }
        ensures kept { self.old.spare ≤ self.new.spare }
    {
        self.groups.reserve(groups as usize)?;
        Ok(())
    }

    /// Applies changes that are added up: counts are added, sums are added modulo 2 ^ 128, and a group whose count is
    /// then 0 goes. It takes no memory. `groups_after_a_difference` says that the difference of the view leads from its
    /// groups to its groups.
    ///
    /// Cost: for each change a binary search, and a move of the groups behind it where it is of a new one; and one test
    /// of the count of each group.
    pub fn apply(&mut self, signed: Signed)
        requires netted { AreNetted (length (filter_map summed_column self.old.items)) signed }
        requires apply { ApplyToGroups self.old.groups signed }
        requires room { length signed ≤ self.old.spare }
        ensures by { self.new.by ≡ self.old.by }
        ensures items { self.new.items ≡ self.old.items }
        ensures groups { self.new.groups ≡ regrouped (length (filter_map summed_column self.old.items)) self.old.groups signed }
        ensures room { self.old.spare ≤ self.new.spare + length signed }
    {
        add_all(&mut self.groups, signed.into_vec());
        drop_empty(&mut self.groups);
    }
}
