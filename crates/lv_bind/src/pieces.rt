//! What a statement names, each kind of thing as a list in the order of its places.
ghost use Rattle.std.specs.Prelude.{◌≡◌, ◌++◌, map, OnOk, IfOk};
ghost use Rattle.lv_bind.specs.Pieces.{comparisons_in, columns_in, sides_of, joined, side_columns, compared_columns, item_columns, assign_columns};
ghost use Rattle.std.specs.List.{flat_map};
ghost use Rattle.lv_bind.specs.Seen.{column_seen, sides_seen};

use lv_parser::{Assign, AssignValue, ColName, CondTree, ItemTree, Named, OperandTree, Stmt};
use lv_values::{Items, NoMemory};
use std::alloc::Global;

/// A column as it is written.
#[derive(Clone, Copy)]
pub(crate) struct Mention<'a> {
    pub qualifier: Option<&'a Named>,
    pub name: &'a Named,
}

impl<'a> Mention<'a> {
    ghost use Rattle.lv_bind.specs.Seen.{column_seen};
    ghost use Rattle.lv_bind.specs.Pieces.{unqualified};

    /// The column that stands there.
    pub fn of(column: &'a ColName) -> Mention<'a>
        ensures { column_seen result ≡ column.now }
    {
        Mention {
            qualifier: column.qualifier.as_ref(),
            name: &column.name,
        }
    }

    /// A name that stands alone as a column.
    pub fn unqualified(name: &'a Named) -> Mention<'a>
        ensures { column_seen result ≡ unqualified name.now }
    {
        Mention {
            qualifier: None,
            name,
        }
    }
}

/// The two sides of a comparison.
#[derive(Clone, Copy)]
pub(crate) struct Sides<'a> {
    pub left: &'a OperandTree,
    pub right: &'a OperandTree,
}

/// Puts the comparisons of a condition at the end, in their order.
#[cycle(push_sides)]
fn push_sides<'a>(cond: &'a CondTree, out: &mut Items<Sides<'a>>) -> Result<(), NoMemory>
    ensures { OnOk result (map sides_seen out.new ≡ map sides_seen out.old ++ sides_of cond.now) }
{
    match cond {
        CondTree::True => Ok(()),
        CondTree::Cmp { left, right, .. } => {
            out.push(Sides { left, right })?;
            Ok(())
        }
        CondTree::And(parts) => push_sides_of_each(parts.as_slice(), out),
        CondTree::Or(parts) => push_sides_of_each(parts.as_slice(), out),
        CondTree::Not(part) => push_sides(part.get(), out),
    }
}

#[cycle(push_sides)]
fn push_sides_of_each<'a>(conds: &'a [CondTree], out: &mut Items<Sides<'a>>) -> Result<(), NoMemory>
    ensures { OnOk result (map sides_seen out.new ≡ map sides_seen out.old ++ joined (map sides_of conds.now)) }
{
    for cond in conds {
        push_sides(cond, out)?;
    }
    Ok(())
}

fn push_side<'a>(side: &'a OperandTree, out: &mut Items<Mention<'a>>) -> Result<(), NoMemory>
    ensures { OnOk result (map column_seen out.new ≡ map column_seen out.old ++ side_columns side.now) }
{
    if let OperandTree::Column(column) = side {
        out.push(Mention::of(column))?;
    }
    Ok(())
}

fn push_compared<'a>(sides: &[Sides<'a>], out: &mut Items<Mention<'a>>) -> Result<(), NoMemory>
    ensures { OnOk result (map column_seen out.new ≡ map column_seen out.old ++ compared_columns (map sides_seen sides.now)) }
{
    for Sides { left, right } in sides {
        push_side(left, out)?;
        push_side(right, out)?;
    }
    Ok(())
}

fn push_listed<'a>(columns: &'a [ColName], out: &mut Items<Mention<'a>>) -> Result<(), NoMemory>
    ensures { OnOk result (map column_seen out.new ≡ map column_seen out.old ++ columns.now) }
{
    for column in columns {
        out.push(Mention::of(column))?;
    }
    Ok(())
}

fn push_ordered<'a>(
    order: &'a [(ColName, bool)],
    out: &mut Items<Mention<'a>>,
) -> Result<(), NoMemory>
    ensures { OnOk result (map column_seen out.new ≡ map column_seen out.old ++ map (λ by. by.0) order.now) }
{
    for (column, _) in order {
        out.push(Mention::of(column))?;
    }
    Ok(())
}

fn push_item<'a>(item: &'a ItemTree, out: &mut Items<Mention<'a>>) -> Result<(), NoMemory>
    ensures { OnOk result (map column_seen out.new ≡ map column_seen out.old ++ item_columns item.now) }
{
    match item {
        ItemTree::Plain { col, .. } | ItemTree::Sum { col, .. } => out.push(Mention::of(col)),
        ItemTree::Count { .. } => Ok(()),
    }
}

fn push_items<'a>(items: &'a [ItemTree], out: &mut Items<Mention<'a>>) -> Result<(), NoMemory>
    ensures { OnOk result (map column_seen out.new ≡ map column_seen out.old ++ flat_map item_columns items.now) }
{
    for item in items {
        push_item(item, out)?;
    }
    Ok(())
}

fn push_assign<'a>(assign: &'a Assign, out: &mut Items<Mention<'a>>) -> Result<(), NoMemory>
    ensures { OnOk result (map column_seen out.new ≡ map column_seen out.old ++ assign_columns assign.now) }
{
    out.push(Mention::unqualified(&assign.column))?;
    match &assign.value {
        AssignValue::Literal(_) => Ok(()),
        AssignValue::Column(column) | AssignValue::Plus { column, .. } => out.push(
            Mention::unqualified(column),
        ),
    }
}

fn push_assigns<'a>(sets: &'a [Assign], out: &mut Items<Mention<'a>>) -> Result<(), NoMemory>
    ensures { OnOk result (map column_seen out.new ≡ map column_seen out.old ++ flat_map assign_columns sets.now) }
{
    for assign in sets {
        push_assign(assign, out)?;
    }
    Ok(())
}

/// The comparisons of a statement, in the order of their places.
pub(crate) fn comparisons_in<'a>(
    alloc: Global,
    stmt: &'a Stmt,
) -> Result<Items<Sides<'a>>, NoMemory>
    ensures { IfOk result (λ sides. map sides_seen sides ≡ comparisons_in stmt.now) }
{
    let mut out = Items::new(alloc);
    match stmt {
        Stmt::CreateView { cond, .. }
        | Stmt::Update { cond, .. }
        | Stmt::Delete { cond, .. }
        | Stmt::Select { cond, .. } => push_sides(cond, &mut out)?,
        _ => (),
    }
    Ok(out)
}

/// Puts the columns that a statement names of its aliases at the end, in the order of their places.
fn push_columns<'a>(
    stmt: &'a Stmt,
    sides: &[Sides<'a>],
    out: &mut Items<Mention<'a>>,
) -> Result<(), NoMemory>
    requires { map sides_seen sides.now ≡ comparisons_in stmt.now }
    ensures { OnOk result (map column_seen out.new ≡ map column_seen out.old ++ columns_in stmt.now) }
{
    match stmt {
        Stmt::CreateView { items, groups, .. } => {
            push_items(items.as_slice(), out)?;
            push_compared(sides, out)?;
            push_listed(groups.as_slice(), out)
        }
        Stmt::Update { sets, .. } => {
            push_assigns(sets.as_slice(), out)?;
            push_compared(sides, out)
        }
        Stmt::Delete { .. } => push_compared(sides, out),
        Stmt::Select { list, order, .. } => {
            if let Some(list) = list {
                push_listed(list.as_slice(), out)?;
            }
            push_compared(sides, out)?;
            push_ordered(order.as_slice(), out)
        }
        _ => Ok(()),
    }
}

/// The columns that a statement names of its aliases, in the order of their places, where these are its comparisons.
pub(crate) fn columns_in<'a>(
    alloc: Global,
    stmt: &'a Stmt,
    sides: &[Sides<'a>],
) -> Result<Items<Mention<'a>>, NoMemory>
    requires { map sides_seen sides.now ≡ comparisons_in stmt.now }
    ensures { IfOk result (λ found. map column_seen found ≡ columns_in stmt.now) }
{
    let mut out = Items::new(alloc);
    push_columns(stmt, sides, &mut out)?;
    Ok(out)
}
