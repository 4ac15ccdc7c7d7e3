//! Tests of rows.

use lv_schema::{Cond, holds};
use lv_values::{Row, Test};
use std::marker::Model;
use std::slice::from_ref;

/// Passed by the rows that a condition keeps.
#[derive(Drop)]
pub struct KeptBy<'a> {
    /// The condition.
    pub cond: &'a Cond,
}

impl<'a> Model for KeptBy<'a> {
    ghost use Rattle.std.specs.Coded.{codes};
    ghost use Rattle.lv_schema.specs.declared.cond.Cond.{Cond as ACond};
    ghost use Rattle.lv_schema.specs.contracts.cond.Cond as condition;

    ghost Value = { ACond };

    ghost coded = { Prim.hlevel (codes, condition.the_row.coded) };

    ghost view = { λ t. t.cond.now };
}

impl<'a> Test<Row> for KeptBy<'a> {
    ghost use Rattle.std.specs.Prelude.{◌∷◌, []};
    ghost use Rattle.lv_schema.specs.Truth.{holds};

    ghost passed = { λ cond row. holds cond (row ∷ []) };

    fn passes(&self, row: &Row) -> bool {
        holds(self.cond, from_ref(row))
    }
}
