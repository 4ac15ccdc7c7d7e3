//! Whether two definitions of views, or two parts of steps, are the same, compared where they lie.
ghost use Rattle.std.specs.Prelude.{◌≡◌, ◌≢◌};
ghost use Rattle.std.specs.Bool.{MatchBool};
ghost use Rattle.lv_schema.specs.Jobs.{AskTheSame};

use crate::cond::{Col, Cond, Operand};
use crate::part::Part;
use crate::view::{Item, ViewDef};
use lv_values::Rows;

/// What can be told apart.
pub trait SameValue {
    /// Whether it is the same value. Cost: linear in what is the same.
    fn is_same(&self, other: &Self) -> bool
        ensures { MatchBool result (self.now ≡ other.now) (self.now ≢ other.now) };
}

/// Whether two lists are the same. Cost: linear in what is the same, up to the first difference.
pub fn are_same<T: SameValue>(a: &[T], b: &[T]) -> bool
    ensures { MatchBool result (a.now ≡ b.now) (a.now ≢ b.now) }
{
    if a.len() != b.len() {
        return false;
    }
    for (i, x) in a.iter().enumerate() {
        if !x.is_same(&b[i]) {
            return false;
        }
    }
    true
}

/// Whether two lists of rows are the same.
fn are_same_rows(a: &Rows, b: &Rows) -> bool
    ensures { MatchBool result (a.now ≡ b.now) (a.now ≢ b.now) }
{
    a == b
}

impl SameValue for Part {
    fn is_same(&self, other: &Part) -> bool {
        are_same_rows(&self.minus, &other.minus)
            && are_same_rows(&self.plus, &other.plus)
            && are_same_rows(&self.old, &other.old)
    }
}

impl SameValue for Col {
    fn is_same(&self, other: &Col) -> bool {
        self == other
    }
}

impl SameValue for Item {
    fn is_same(&self, other: &Item) -> bool {
        match (self, other) {
            (Item::Plain { col: x, name: p }, Item::Plain { col: y, name: q }) => x == y && p == q,
            (Item::Sum { col: x, name: p }, Item::Sum { col: y, name: q }) => x == y && p == q,
            (Item::Count { name: p }, Item::Count { name: q }) => p == q,
            _ => false,
        }
    }
}

impl SameValue for Operand {
    fn is_same(&self, other: &Operand) -> bool {
        match (self, other) {
            (Operand::Column(x), Operand::Column(y)) => x == y,
            (Operand::Number(x), Operand::Number(y)) => x == y,
            (Operand::Text(x), Operand::Text(y)) => x == y,
            _ => false,
        }
    }
}

/// Whether two conditions are the same.
#[cycle(same_cond)]
fn same_cond(a: &Cond, b: &Cond) -> bool
    ensures { MatchBool result (a.now ≡ b.now) (a.now ≢ b.now) }
{
    match (a, b) {
        (Cond::True, Cond::True) => true,
        (
            Cond::Cmp {
                op: p,
                left: w,
                right: x,
            },
            Cond::Cmp {
                op: q,
                left: y,
                right: z,
            },
        ) => p == q && w.is_same(y) && x.is_same(z),
        (Cond::And(xs), Cond::And(ys)) | (Cond::Or(xs), Cond::Or(ys)) => {
            same_conds(xs.as_slice(), ys.as_slice())
        }
        (Cond::Not(x), Cond::Not(y)) => same_cond(x.get(), y.get()),
        _ => false,
    }
}

/// Whether two lists of conditions are the same.
#[cycle(same_cond)]
fn same_conds(a: &[Cond], b: &[Cond]) -> bool
    ensures { MatchBool result (a.now ≡ b.now) (a.now ≢ b.now) }
{
    if a.len() != b.len() {
        return false;
    }
    for (i, x) in a.iter().enumerate() {
        if !same_cond(x, &b[i]) {
            return false;
        }
    }
    true
}

/// Whether two views ask the same.
fn ask_the_same(a: &ViewDef, b: &ViewDef) -> bool
    ensures { MatchBool result (AskTheSame a.now b.now) (¬ (AskTheSame a.now b.now)) }
{
    a.tables == b.tables
        && are_same(a.groups.as_slice(), b.groups.as_slice())
        && same_cond(&a.cond, &b.cond)
        && are_same(a.items.as_slice(), b.items.as_slice())
}

impl SameValue for ViewDef {
    fn is_same(&self, other: &ViewDef) -> bool {
        self.no == other.no
            && self.created == other.created
            && self.grouped == other.grouped
            && self.name == other.name
            && ask_the_same(self, other)
    }
}
