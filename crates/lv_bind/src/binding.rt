//! The bound statement: names are numbers.
ghost use Rattle.std.specs.Prelude.{◌≡◌, ◌++◌, map, IfOk, OnOk};
ghost use Rattle.lv_bind.specs.Binding.{IsNarrow, bound_col, bound_literal, bound_side, bound_op, bound_cond, bound_rows, bound_value, bound_set, bound_order, columns_from, bound_list, rel_of, table_number};
ghost use Rattle.std.specs.List.{range_with_len};
ghost use Rattle.lv_bind.specs.Seen.{aliases, column_seen};
ghost use Rattle.lv_schema.specs.declared.change.Change.{Change};

use crate::pieces::Mention;
use crate::sources::{Scope, Source, place_of};
use lv_parser::{
    Assign, AssignValue, ColName, ColNames, CondTree, Literal, OperandTree, Sign, Tuple,
};
use lv_schema::{
    Change, Col, Cols, Cond, Conds, Op, Operand, OrderCol, OrderCols, Query, Rel, Rels, Set,
    SetValue, Sets,
};
use lv_values::{Boxed, Copying, Items, NoMemory, Row, Rows, Value};
use std::alloc::Global;

/// The column that is named, among few aliases of few columns.
#[tactic(auto, using(crate::proofs::NarrowLemmas::narrow_alias, crate::proofs::NarrowLemmas::narrow_column))]
pub(crate) fn bound_col(scope: &Scope<'_>, column: Mention<'_>) -> Col
    requires { IsNarrow (aliases scope.now) }
    ensures { result ≡ bound_col (aliases scope.now) (column_seen column.entry) }
{
    let place = place_of(scope, column);
    Col {
        alias: place.alias as u8,
        column: place.column as u8,
    }
}

pub(crate) fn bound_literal(alloc: Global, value: &Value) -> Result<Operand, NoMemory>
    ensures { IfOk result (λ operand. operand ≡ bound_literal value.now) }
{
    match value {
        Value::Num(number) => Ok(Operand::Number(*number)),
        Value::Text(text) => Ok(Operand::Text(text.copy(alloc)?)),
    }
}

fn bound_side(alloc: Global, scope: &Scope<'_>, side: &OperandTree) -> Result<Operand, NoMemory>
    requires { IsNarrow (aliases scope.now) }
    ensures { IfOk result (λ operand. operand ≡ bound_side (aliases scope.now) side.now) }
{
    match side {
        OperandTree::Column(column) => Ok(Operand::Column(bound_col(scope, Mention::of(column)))),
        OperandTree::Literal(literal) => bound_literal(alloc, &literal.value),
    }
}

pub(crate) fn bound_op(sign: Sign) -> Op
    ensures { result ≡ bound_op sign }
{
    match sign {
        Sign::Eq => Op::Eq,
        Sign::Ne => Op::Ne,
        Sign::Lt => Op::Lt,
        Sign::Le => Op::Le,
        Sign::Gt => Op::Gt,
        Sign::Ge => Op::Ge,
    }
}

/// The condition on these aliases. Cost: linear, with a look-up for each column.
#[cycle(bound_cond)]
pub(crate) fn bound_cond(
    alloc: Global,
    scope: &Scope<'_>,
    cond: &CondTree,
) -> Result<Cond, NoMemory>
    requires { IsNarrow (aliases scope.now) }
    ensures { IfOk result (λ c. c ≡ bound_cond (aliases scope.now) cond.now) }
{
    match cond {
        CondTree::True => Ok(Cond::True),
        CondTree::Cmp { op, left, right } => Ok(Cond::Cmp {
            op: bound_op(*op),
            left: bound_side(alloc, scope, left)?,
            right: bound_side(alloc, scope, right)?,
        }),
        CondTree::And(parts) => Ok(Cond::And(bound_conds(alloc, scope, parts.as_slice())?)),
        CondTree::Or(parts) => Ok(Cond::Or(bound_conds(alloc, scope, parts.as_slice())?)),
        CondTree::Not(part) => Ok(Cond::Not(Boxed::new(
            alloc,
            bound_cond(alloc, scope, part.get())?,
        )?)),
    }
}

#[cycle(bound_cond)]
fn bound_conds(alloc: Global, scope: &Scope<'_>, conds: &[CondTree]) -> Result<Conds, NoMemory>
    requires { IsNarrow (aliases scope.now) }
    ensures { IfOk result (λ cs. cs ≡ map (bound_cond (aliases scope.now)) conds.now) }
{
    let mut out = Items::new(alloc);
    for cond in conds {
        out.push(bound_cond(alloc, scope, cond)?)?;
    }
    Ok(out)
}

/// The values of a tuple.
fn bound_row(alloc: Global, values: &[Literal]) -> Result<Row, NoMemory>
    ensures { IfOk result (λ row. row ≡ map (λ l. l.value) values.now) }
{
    let mut row = Row::new(alloc);
    for literal in values {
        row.push(literal.value.copy(alloc)?)?;
    }
    Ok(row)
}

/// The rows of an INSERT. Cost: linear.
pub(crate) fn bound_rows(alloc: Global, tuples: &[Tuple]) -> Result<Rows, NoMemory>
    ensures { IfOk result (λ rows. rows ≡ bound_rows tuples.now) }
{
    let mut rows = Rows::new(alloc);
    for tuple in tuples {
        rows.push(bound_row(alloc, tuple.values.as_slice())?)?;
    }
    Ok(rows)
}

fn bound_value(alloc: Global, scope: &Scope<'_>, value: &AssignValue) -> Result<SetValue, NoMemory>
    requires { IsNarrow (aliases scope.now) }
    ensures { IfOk result (λ v. v ≡ bound_value (aliases scope.now) value.now) }
{
    match value {
        AssignValue::Literal(literal) => Ok(SetValue::Literal(literal.value.copy(alloc)?)),
        AssignValue::Column(column) => {
            Ok(SetValue::Column(bound_col(scope, Mention::unqualified(column)).column))
        }
        AssignValue::Plus { column, amount } => Ok(SetValue::Plus {
            column: bound_col(scope, Mention::unqualified(column)).column,
            amount: *amount,
        }),
    }
}

/// The columns that an UPDATE of this alias sets.
fn bound_sets(alloc: Global, scope: &Scope<'_>, sets: &[Assign]) -> Result<Sets, NoMemory>
    requires { IsNarrow (aliases scope.now) }
    ensures { IfOk result (λ found. found ≡ map (bound_set (aliases scope.now)) sets.now) }
{
    let mut out = Sets::new(alloc);
    for assign in sets {
        out.push(Set {
            column: bound_col(scope, Mention::unqualified(&assign.column)).column,
            value: bound_value(alloc, scope, &assign.value)?,
        })?;
    }
    Ok(out)
}

/// The columns that are listed.
pub(crate) fn bound_cols(
    alloc: Global,
    scope: &Scope<'_>,
    columns: &[ColName],
) -> Result<Cols, NoMemory>
    requires { IsNarrow (aliases scope.now) }
    ensures { IfOk result (λ cols. cols ≡ map (bound_col (aliases scope.now)) columns.now) }
{
    let mut out = Cols::new(alloc);
    for column in columns {
        out.push(bound_col(scope, Mention::of(column)))?;
    }
    Ok(out)
}

/// The columns of ORDER BY.
fn bound_order(
    alloc: Global,
    scope: &Scope<'_>,
    order: &[(ColName, bool)],
) -> Result<OrderCols, NoMemory>
    requires { IsNarrow (aliases scope.now) }
    ensures { IfOk result (λ cols. cols ≡ bound_order (aliases scope.now) order.now) }
{
    let mut out = OrderCols::new(alloc);
    for (column, descending) in order {
        out.push(OrderCol {
            col: bound_col(scope, Mention::of(column)),
            descending: *descending,
        })?;
    }
    Ok(out)
}

/// Puts as many columns of an alias at the end.
fn push_each(alias: u8, width: u8, out: &mut Cols) -> Result<(), NoMemory>
    ensures { OnOk result (out.new ≡ out.old ++ map (λ k. record { alias = alias; column = k }) (range_with_len 0 width)) }
{
    for column in 0..width {
        out.push(Col { alias, column })?;
    }
    Ok(())
}

/// All columns of all aliases, which `*` lists.
#[tactic(auto, using(crate::proofs::NarrowLemmas::narrow_width))]
pub(crate) fn every_col(alloc: Global, scope: &Scope<'_>) -> Result<Cols, NoMemory>
    requires { IsNarrow (aliases scope.now) }
    ensures { IfOk result (λ cols. cols ≡ columns_from 0 (aliases scope.now)) }
{
    let mut out = Cols::new(alloc);
    for (alias, source) in scope.sources.iter().enumerate() {
        push_each(alias as u8, source.width(scope.schema) as u8, &mut out)?;
    }
    Ok(out)
}

/// The list of a query.
fn bound_list(alloc: Global, scope: &Scope<'_>, list: &Option<ColNames>) -> Result<Cols, NoMemory>
    requires { IsNarrow (aliases scope.now) }
    ensures { IfOk result (λ cols. cols ≡ bound_list (aliases scope.now) list.now) }
{
    match list {
        None => every_col(alloc, scope),
        Some(columns) => bound_cols(alloc, scope, columns.as_slice()),
    }
}

/// What the aliases stand for.
pub(crate) fn bound_rels(alloc: Global, sources: &[Source<'_>]) -> Result<Rels, NoMemory>
    ensures { IfOk result (λ rels. rels ≡ map (λ s. rel_of s.rel) sources.now) }
{
    let mut out = Rels::new(alloc);
    for source in sources {
        out.push(source.rel.unwrap_or(Rel::Table(0)))?;
    }
    Ok(out)
}

/// What an UPDATE of the table of these aliases is bound to.
pub(crate) fn bound_update(
    alloc: Global,
    scope: &Scope<'_>,
    sets: &[Assign],
    cond: &CondTree,
) -> Result<Change, NoMemory>
    requires { IsNarrow (aliases scope.now) }
    ensures { IfOk result (λ c. c ≡ Change.Update (table_number scope.now.target) (map (bound_set (aliases scope.now)) sets.now) (bound_cond (aliases scope.now) cond.now)) }
{
    Ok(Change::Update {
        table: table_number(scope.target),
        sets: bound_sets(alloc, scope, sets)?,
        cond: bound_cond(alloc, scope, cond)?,
    })
}

/// What a query of these aliases is bound to.
pub(crate) fn bound_query(
    alloc: Global,
    scope: &Scope<'_>,
    list: &Option<ColNames>,
    cond: &CondTree,
    order: &[(ColName, bool)],
) -> Result<Query, NoMemory>
    requires { IsNarrow (aliases scope.now) }
    ensures { IfOk result (λ q. q ≡ record { rels = map (λ s. rel_of s.rel) scope.now.sources.now; cond = bound_cond (aliases scope.now) cond.now; list = bound_list (aliases scope.now) list.now; order = bound_order (aliases scope.now) order.now }) }
{
    Ok(Query {
        rels: bound_rels(alloc, scope.sources)?,
        cond: bound_cond(alloc, scope, cond)?,
        list: bound_list(alloc, scope, list)?,
        order: bound_order(alloc, scope, order)?,
    })
}

/// The number of a table, 0 where there is none.
pub(crate) fn table_number(rel: Option<Rel>) -> u32
    ensures { result ≡ table_number rel }
{
    match rel {
        Some(Rel::Table(number)) => number,
        Some(Rel::View(_)) | None => 0,
    }
}
