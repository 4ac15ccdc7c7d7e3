//! Conditions on one row for each alias.
ghost use Rattle.std.specs.Prelude.{◌≡◌, IfOk};

use lv_values::{Boxed, Copying, Items, NoMemory, Text};
use std::alloc::Global;

/// A column of an alias. Aliases are numbered from 0 in the order of FROM, columns from 0 in their table.
#[derive(Clone, Copy, Debug, PartialEq, Eq)]
pub struct Col {
    pub alias: u8,
    pub column: u8,
}

/// Columns in the order of their list.
pub type Cols = Items<Col>;

/// A sign of comparison.
#[derive(Clone, Copy, Debug, PartialEq, Eq)]
pub enum Op {
    Eq,
    Ne,
    Lt,
    Le,
    Gt,
    Ge,
}

/// One side of a comparison.
#[derive(Drop)]
pub enum Operand {
    Column(Col),
    Number(i128),
    Text(Text),
}

/// A condition.
#[derive(Drop)]
pub enum Cond {
    /// No condition.
    True,
    /// A comparison.
    Cmp {
        op: Op,
        left: Operand,
        right: Operand,
    },
    /// All parts.
    And(Conds),
    /// At least one part.
    Or(Conds),
    /// The opposite of the part.
    Not(Boxed<Cond>),
}

/// The parts of a condition.
pub type Conds = Items<Cond>;

impl Copying for Col {
    fn copy(&self, _alloc: Global) -> Result<Self, NoMemory> {
        Ok(*self)
    }
}

impl Copying for Operand {
    fn copy(&self, alloc: Global) -> Result<Self, NoMemory> {
        match self {
            Operand::Column(col) => Ok(Operand::Column(*col)),
            Operand::Number(n) => Ok(Operand::Number(*n)),
            Operand::Text(text) => Ok(Operand::Text(text.copy(alloc)?)),
        }
    }
}

#[cycle(copy_cond)]
fn copy_cond(cond: &Cond, alloc: Global) -> Result<Cond, NoMemory>
    ensures { IfOk result (λ c. c ≡ cond.now) }
{
    match cond {
        Cond::True => Ok(Cond::True),
        Cond::Cmp { op, left, right } => Ok(Cond::Cmp {
            op: *op,
            left: left.copy(alloc)?,
            right: right.copy(alloc)?,
        }),
        Cond::And(parts) => Ok(Cond::And(copy_conds(parts.as_slice(), alloc)?)),
        Cond::Or(parts) => Ok(Cond::Or(copy_conds(parts.as_slice(), alloc)?)),
        Cond::Not(part) => Ok(Cond::Not(Boxed::new(alloc, copy_cond(part.get(), alloc)?)?)),
    }
}

#[cycle(copy_cond)]
fn copy_conds(conds: &[Cond], alloc: Global) -> Result<Conds, NoMemory>
    ensures { IfOk result (λ c. c ≡ conds.now) }
{
    let mut out = Items::new(alloc);
    for cond in conds {
        out.push(copy_cond(cond, alloc)?)?;
    }
    Ok(out)
}

impl Copying for Cond {
    fn copy(&self, alloc: Global) -> Result<Self, NoMemory> {
        copy_cond(self, alloc)
    }
}
