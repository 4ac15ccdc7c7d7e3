//! Copies of trees.

ghost use Rattle.std.specs.Prelude.{◌≡◌, IfOk};

use crate::tree::{
    Assign, AssignValue, ColName, ColumnTree, CondTree, CondTrees, ItemTree, Literal, Named,
    OperandTree, RefTree, Stmt, Tuple,
};
use lv_values::{Boxed, Copying, NoMemory};
use std::alloc::Global;

impl Copying for Named {
    fn copy(&self, alloc: Global) -> Result<Self, NoMemory> {
        Ok(Named {
            name: self.name.copy(alloc)?,
            byte: self.byte,
        })
    }
}

impl Copying for ColName {
    fn copy(&self, alloc: Global) -> Result<Self, NoMemory> {
        Ok(ColName {
            qualifier: self.qualifier.copy(alloc)?,
            name: self.name.copy(alloc)?,
        })
    }
}

impl Copying for Literal {
    fn copy(&self, alloc: Global) -> Result<Self, NoMemory> {
        Ok(Literal {
            value: self.value.copy(alloc)?,
            byte: self.byte,
        })
    }
}

impl Copying for Tuple {
    fn copy(&self, alloc: Global) -> Result<Self, NoMemory> {
        Ok(Tuple {
            byte: self.byte,
            values: self.values.copy(alloc)?,
        })
    }
}

impl Copying for ColumnTree {
    fn copy(&self, alloc: Global) -> Result<Self, NoMemory> {
        Ok(ColumnTree {
            name: self.name.copy(alloc)?,
            kind: self.kind,
        })
    }
}

impl Copying for RefTree {
    fn copy(&self, alloc: Global) -> Result<Self, NoMemory> {
        Ok(RefTree {
            name: self.name.copy(alloc)?,
            alias: self.alias.copy(alloc)?,
        })
    }
}

impl Copying for ItemTree {
    fn copy(&self, alloc: Global) -> Result<Self, NoMemory> {
        match self {
            ItemTree::Plain { col, output } => Ok(ItemTree::Plain {
                col: col.copy(alloc)?,
                output: output.copy(alloc)?,
            }),
            ItemTree::Sum { col, output } => Ok(ItemTree::Sum {
                col: col.copy(alloc)?,
                output: output.copy(alloc)?,
            }),
            ItemTree::Count { output } => Ok(ItemTree::Count {
                output: output.copy(alloc)?,
            }),
        }
    }
}

impl Copying for AssignValue {
    fn copy(&self, alloc: Global) -> Result<Self, NoMemory> {
        match self {
            AssignValue::Literal(literal) => Ok(AssignValue::Literal(literal.copy(alloc)?)),
            AssignValue::Column(column) => Ok(AssignValue::Column(column.copy(alloc)?)),
            AssignValue::Plus { column, amount } => Ok(AssignValue::Plus {
                column: column.copy(alloc)?,
                amount: *amount,
            }),
        }
    }
}

impl Copying for Assign {
    fn copy(&self, alloc: Global) -> Result<Self, NoMemory> {
        Ok(Assign {
            column: self.column.copy(alloc)?,
            value: self.value.copy(alloc)?,
        })
    }
}

impl Copying for OperandTree {
    fn copy(&self, alloc: Global) -> Result<Self, NoMemory> {
        match self {
            OperandTree::Column(col) => Ok(OperandTree::Column(col.copy(alloc)?)),
            OperandTree::Literal(literal) => Ok(OperandTree::Literal(literal.copy(alloc)?)),
        }
    }
}

#[cycle(copy_cond)]
fn copy_cond(cond: &CondTree, alloc: Global) -> Result<CondTree, NoMemory>
    ensures { IfOk result (λ c. c ≡ cond.now) }
{
    match cond {
        CondTree::True => Ok(CondTree::True),
        CondTree::Cmp { op, left, right } => Ok(CondTree::Cmp {
            op: *op,
            left: left.copy(alloc)?,
            right: right.copy(alloc)?,
        }),
        CondTree::And(parts) => Ok(CondTree::And(copy_conds(parts.as_slice(), alloc)?)),
        CondTree::Or(parts) => Ok(CondTree::Or(copy_conds(parts.as_slice(), alloc)?)),
        CondTree::Not(part) => Ok(CondTree::Not(Boxed::new(alloc, copy_cond(part.get(), alloc)?)?)),
    }
}

#[cycle(copy_cond)]
fn copy_conds(conds: &[CondTree], alloc: Global) -> Result<CondTrees, NoMemory>
    ensures { IfOk result (λ c. c ≡ conds.now) }
{
    let mut out = CondTrees::new(alloc);
    for cond in conds {
        out.push(copy_cond(cond, alloc)?)?;
    }
    Ok(out)
}

impl Copying for CondTree {
    fn copy(&self, alloc: Global) -> Result<Self, NoMemory> {
        copy_cond(self, alloc)
    }
}

impl Copying for Stmt {
    fn copy(&self, alloc: Global) -> Result<Self, NoMemory> {
        match self {
            Stmt::CreateTable { name, columns, key } => Ok(Stmt::CreateTable {
                name: name.copy(alloc)?,
                columns: columns.copy(alloc)?,
                key: key.copy(alloc)?,
            }),
            Stmt::CreateView {
                name,
                items,
                refs,
                cond,
                groups,
            } => Ok(Stmt::CreateView {
                name: name.copy(alloc)?,
                items: items.copy(alloc)?,
                refs: refs.copy(alloc)?,
                cond: cond.copy(alloc)?,
                groups: groups.copy(alloc)?,
            }),
            Stmt::Insert { table, tuples } => Ok(Stmt::Insert {
                table: table.copy(alloc)?,
                tuples: tuples.copy(alloc)?,
            }),
            Stmt::Update { table, sets, cond } => Ok(Stmt::Update {
                table: table.copy(alloc)?,
                sets: sets.copy(alloc)?,
                cond: cond.copy(alloc)?,
            }),
            Stmt::Delete { table, cond } => Ok(Stmt::Delete {
                table: table.copy(alloc)?,
                cond: cond.copy(alloc)?,
            }),
            Stmt::Select {
                list,
                refs,
                cond,
                order,
            } => Ok(Stmt::Select {
                list: list.copy(alloc)?,
                refs: refs.copy(alloc)?,
                cond: cond.copy(alloc)?,
                order: order.copy(alloc)?,
            }),
            Stmt::Begin => Ok(Stmt::Begin),
            Stmt::Commit => Ok(Stmt::Commit),
            Stmt::Rollback => Ok(Stmt::Rollback),
            Stmt::ShowTasks => Ok(Stmt::ShowTasks),
        }
    }
}
