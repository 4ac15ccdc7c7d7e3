//! What a step is computed from.
ghost use Rattle.std.specs.Prelude.{◌≡◌, ◌↔◌, IsTrue};
ghost use Rattle.lv_maint.specs.Inputs.{AreOfTables, Fit};

use lv_schema::{Part, Parts, SameValue, ViewDef, are_same};
use std::marker::Model;

/// A view, the commits that a step of it goes from and to, and for each alias the rows of its table before the step and
/// their net change, all copied. The view is bound over some tables, and each part is of its alias's table.
#[derive(Drop)]
pub struct JobInput {
    def: ViewDef,
    lo: u64,
    hi: u64,
    parts: Parts,
}

impl Model for JobInput {
    ghost use Rattle.lv_maint.specs.Inputs.{Fit, Input};

    ghost Value = { Input };

    ghost use Rattle.lv_schema.specs.contracts.cond.Cond as cond;
    ghost use Rattle.std.specs.Coded.{codes};

    ghost coded = { Prim.hlevel (codes, cond.the_row.coded) };

    ghost view = { λ i. record { def = i.def; lo = i.lo; hi = i.hi; parts = i.parts } };

    ghost invariant = { λ i. Fit i.def i.parts };
}

impl JobInput {
    /// The input of a step.
    pub fn new(def: ViewDef, lo: u64, hi: u64, parts: Parts) -> JobInput
        requires { Fit def parts }
        ensures { result ≡ record { def = def; lo = lo; hi = hi; parts = parts } }
    {
        JobInput { def, lo, hi, parts }
    }

    /// The view.
    pub fn def(&self) -> &ViewDef
        ensures { result.now ≡ self.now.def }
    {
        &self.def
    }

    /// The commit that the step goes from.
    pub fn lo(&self) -> u64
        ensures { result ≡ self.now.lo }
    {
        self.lo
    }

    /// The commit that the step goes to.
    pub fn hi(&self) -> u64
        ensures { result ≡ self.now.hi }
    {
        self.hi
    }

    /// The part of each alias. The view is bound over some tables, of which they are.
    pub fn parts(&self) -> &[Part]
        ensures parts { result.now ≡ self.now.parts }
        ensures fit { Fit self.now.def self.now.parts }
    {
        self.parts.as_slice()
    }

    /// Whether it is the same input: the same view, commits and parts. They are compared where they lie, the numbers
    /// first, up to the first difference. Cost: linear in what is the same.
    pub fn equals(&self, other: &JobInput) -> bool
        ensures { IsTrue result ↔ (self.now ≡ other.now) }
    {
        self.lo == other.lo
            && self.hi == other.hi
            && self.def.is_same(&other.def)
            && are_same(self.parts.as_slice(), other.parts.as_slice())
    }
}
