//! A statement, printed as a line.

ghost use Rattle.std.specs.Prelude.{◌≡◌, ℕ, Bool, List, OnOk, IfOk};
ghost use Rattle.lv_lexer.specs.Written.{with_tokens, line_of};
ghost use Rattle.lv_parser.specs.declared.tree.Stmt.{Stmt};
ghost use Rattle.lv_parser.specs.Bare.{bare};
ghost use Rattle.lv_parser.specs.Lines.{ReadsAs};
ghost use Rattle.lv_parser.specs.Printed as printed;

use crate::print_lists::{Print, print_all};
use crate::print_names::print_name;
use crate::print_sources::{print_filter, print_from};
use crate::tree::{Assign, ColName, ColumnTree, CondTree, ItemTree, Named, RefTree, Stmt, Tuple};
use lv_lexer::Writer;
use lv_values::{Items, NoMemory, Text};
use std::alloc::Global;

/// Writes CREATE TABLE.
fn print_create_table(
    alloc: Global,
    out: &mut Writer,
    table: &Named,
    columns: &[ColumnTree],
    key: &[Named],
) -> Result<(), NoMemory>
    ensures { OnOk result (out.new ≡ with_tokens out.old (printed.create_table_tokens table.now columns.now key.now)) }
{
    out.word("create")?;
    out.word("table")?;
    print_name(out, table)?;
    out.sign("(")?;
    print_all(alloc, out, columns)?;
    print_key(alloc, out, key)?;
    out.sign(")")
}

/// Writes the key of a table, behind a comma.
fn print_key(alloc: Global, out: &mut Writer, key: &[Named]) -> Result<(), NoMemory>
    ensures { OnOk result (out.new ≡ with_tokens out.old (printed.key_tokens key.now)) }
{
    out.sign(",")?;
    out.word("primary")?;
    out.word("key")?;
    out.sign("(")?;
    print_all(alloc, out, key)?;
    out.sign(")")
}

/// Writes GROUP BY and the columns, where there are any.
fn print_groups(alloc: Global, out: &mut Writer, groups: &[ColName]) -> Result<(), NoMemory>
    ensures { OnOk result (out.new ≡ with_tokens out.old (printed.groups_tokens groups.now)) }
{
    match groups {
        [] => Ok(()),
        [_, ..] => {
            out.word("group")?;
            out.word("by")?;
            print_all(alloc, out, groups)
        }
    }
}

/// Writes CREATE VIEW up to its list.
fn print_view_name(out: &mut Writer, view: &Named) -> Result<(), NoMemory>
    ensures { OnOk result (out.new ≡ with_tokens out.old (printed.view_name_tokens view.now)) }
{
    out.word("create")?;
    out.word("view")?;
    print_name(out, view)?;
    out.word("as")?;
    out.word("select")
}

/// Writes CREATE VIEW.
fn print_create_view(
    alloc: Global,
    out: &mut Writer,
    view: &Named,
    items: &[ItemTree],
    refs: &[RefTree],
    cond: &CondTree,
    groups: &[ColName],
) -> Result<(), NoMemory>
    ensures { OnOk result (out.new ≡ with_tokens out.old (printed.create_view_tokens view.now items.now refs.now cond.now groups.now)) }
{
    print_view_name(out, view)?;
    print_all(alloc, out, items)?;
    print_from(alloc, out, refs, cond)?;
    print_groups(alloc, out, groups)
}

/// Writes INSERT.
fn print_insert(
    alloc: Global,
    out: &mut Writer,
    table: &Named,
    tuples: &[Tuple],
) -> Result<(), NoMemory>
    ensures { OnOk result (out.new ≡ with_tokens out.old (printed.insert_tokens table.now tuples.now)) }
{
    out.word("insert")?;
    out.word("into")?;
    print_name(out, table)?;
    out.word("values")?;
    print_all(alloc, out, tuples)
}

/// Writes UPDATE.
fn print_update(
    alloc: Global,
    out: &mut Writer,
    table: &Named,
    sets: &[Assign],
    cond: &CondTree,
) -> Result<(), NoMemory>
    ensures { OnOk result (out.new ≡ with_tokens out.old (printed.update_tokens table.now sets.now cond.now)) }
{
    out.word("update")?;
    print_name(out, table)?;
    out.word("set")?;
    print_all(alloc, out, sets)?;
    print_filter(alloc, out, cond)
}

/// Writes DELETE.
fn print_delete(
    alloc: Global,
    out: &mut Writer,
    table: &Named,
    cond: &CondTree,
) -> Result<(), NoMemory>
    ensures { OnOk result (out.new ≡ with_tokens out.old (printed.delete_tokens table.now cond.now)) }
{
    out.word("delete")?;
    out.word("from")?;
    print_name(out, table)?;
    print_filter(alloc, out, cond)
}

/// Writes the list of a query.
fn print_listed(
    alloc: Global,
    out: &mut Writer,
    listed: &Option<Items<ColName>>,
) -> Result<(), NoMemory>
    ensures { OnOk result (out.new ≡ with_tokens out.old (printed.listed_tokens listed.now)) }
{
    match listed {
        None => out.sign("*"),
        Some(cols) => print_all(alloc, out, cols.as_slice()),
    }
}

/// Writes ORDER BY and the columns, where there are any.
fn print_order(alloc: Global, out: &mut Writer, order: &[(ColName, bool)]) -> Result<(), NoMemory>
    ensures { OnOk result (out.new ≡ with_tokens out.old (printed.order_tokens order.now)) }
{
    match order {
        [] => Ok(()),
        [_, ..] => {
            out.word("order")?;
            out.word("by")?;
            print_all(alloc, out, order)
        }
    }
}

/// Writes a query.
fn print_select(
    alloc: Global,
    out: &mut Writer,
    listed: &Option<Items<ColName>>,
    refs: &[RefTree],
    cond: &CondTree,
    order: &[(ColName, bool)],
) -> Result<(), NoMemory>
    ensures { OnOk result (out.new ≡ with_tokens out.old (printed.select_tokens listed.now refs.now cond.now order.now)) }
{
    out.word("select")?;
    print_listed(alloc, out, listed)?;
    print_from(alloc, out, refs, cond)?;
    print_order(alloc, out, order)
}

/// Writes SHOW TASKS.
fn print_show_tasks(out: &mut Writer) -> Result<(), NoMemory>
    ensures { OnOk result (out.new ≡ with_tokens out.old printed.show_tasks_tokens) }
{
    out.word("show")?;
    out.word("tasks")
}

/// Writes a statement.
fn print_stmt(alloc: Global, out: &mut Writer, stmt: &Stmt) -> Result<(), NoMemory>
    ensures { OnOk result (out.new ≡ with_tokens out.old (printed.stmt_tokens stmt.now)) }
{
    match stmt {
        Stmt::CreateTable { name, columns, key } => {
            print_create_table(alloc, out, name, columns.as_slice(), key.as_slice())
        }
        Stmt::CreateView {
            name,
            items,
            refs,
            cond,
            groups,
        } => print_create_view(
            alloc,
            out,
            name,
            items.as_slice(),
            refs.as_slice(),
            cond,
            groups.as_slice(),
        ),
        Stmt::Insert { table, tuples } => print_insert(alloc, out, table, tuples.as_slice()),
        Stmt::Update { table, sets, cond } => print_update(
            alloc,
            out,
            table,
            sets.as_slice(),
            cond,
        ),
        Stmt::Delete { table, cond } => print_delete(alloc, out, table, cond),
        Stmt::Select {
            list,
            refs,
            cond,
            order,
        } => print_select(alloc, out, list, refs.as_slice(), cond, order.as_slice()),
        Stmt::Begin => out.word("begin"),
        Stmt::Commit => out.word("commit"),
        Stmt::Rollback => out.word("rollback"),
        Stmt::ShowTasks => print_show_tasks(out),
    }
}

/// The printed form of a statement, as a line. Keywords are in lower case, one space stands between a word and a word or
/// number that follows it, and no other space. Parentheses stand only round an Or in an And or an Or, round an And in an
/// And, and round an And or an Or under NOT. Where the condition behind FROM is an And of no more parts than there are
/// references, all its parts but the last are printed after ON. Cost: linear in the line.
pub fn print(alloc: Global, stmt: &Stmt) -> Result<Text, NoMemory>
    ensures text { IfOk result (λ line. line ≡ line_of (printed.stmt_tokens stmt.now)) }

    // What some line reads as, the printed line reads as again, but for places.
    ensures again { (line : List ℕ) → ReadsAs line stmt.now
        → IfOk result (λ text. (found : Stmt) × ReadsAs text found × (bare found ≡ bare stmt.now)) }
{
    let mut out = Writer::new(alloc);
    print_stmt(alloc, &mut out, stmt)?;
    out.finish(alloc)
}
