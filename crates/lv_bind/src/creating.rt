//! The tables and views that CREATE makes.
ghost use Rattle.std.specs.Prelude.{◌≡◌, ◌<◌, ◌≤◌, map, length, position, IfOk, IfSome};
ghost use Rattle.std.specs.Str.{bytes_eq};
ghost use Rattle.lv_bind.specs.Binding.{IsNarrow, bound_kind, bound_column, bound_table, key_place, bound_item, table_numbers, bound_view};
ghost use Rattle.lv_bind.specs.Seen.{aliases, tables_of, views_of};

use crate::binding::{bound_col, bound_cols, bound_cond, table_number};
use crate::pieces::Mention;
use crate::sources::Scope;
use lv_parser::{ColName, ColumnKind, ColumnTree, CondTree, ItemTree, Named, RefTree};
use lv_schema::{
    Column, Columns, Item, Kind, Positions, Schema, TableDef, TableNumbers, ViewDef, ViewItems,
};
use lv_values::{Copying, NoMemory, Text};
use std::alloc::Global;

fn bound_kind(kind: ColumnKind) -> Kind
    ensures { result ≡ bound_kind kind }
{
    match kind {
        ColumnKind::Int => Kind::Int,
        ColumnKind::Text => Kind::Text,
    }
}

fn bound_columns(alloc: Global, columns: &[ColumnTree]) -> Result<Columns, NoMemory>
    ensures { IfOk result (λ found. found ≡ map bound_column columns.now) }
{
    let mut out = Columns::new(alloc);
    for column in columns {
        out.push(Column {
            name: column.name.name.copy(alloc)?,
            kind: bound_kind(column.kind),
        })?;
    }
    Ok(out)
}

/// The place of a name among new columns.
fn place_among(columns: &[ColumnTree], name: &Text) -> Option<usize>
    ensures place { result ≡ position (λ c. bytes_eq name.now c.name.name) columns.now }
    ensures within { IfSome result (λ at. at < length columns.now) }
{
    columns.iter().position(|column| *name == column.name.name)
}

/// The place of a name among at most 16 new columns, 0 where it is none.
fn key_place(columns: &[ColumnTree], name: &Text) -> u8
    requires { length columns.now ≤ 16 }
    ensures { result ≡ key_place columns.now name.now }
{
    match place_among(columns, name) {
        Some(at) => at as u8,
        None => 0,
    }
}

fn bound_key(alloc: Global, columns: &[ColumnTree], key: &[Named]) -> Result<Positions, NoMemory>
    requires { length columns.now ≤ 16 }
    ensures { IfOk result (λ found. found ≡ map (λ k. key_place columns.now k.name) key.now) }
{
    let mut out = Positions::new(alloc);
    for column in key {
        out.push(key_place(columns, &column.name))?;
    }
    Ok(out)
}

/// The table of a CREATE TABLE with at most 16 columns. Cost: linear, with a search of the columns for each of the key.
pub(crate) fn bound_table(
    alloc: Global,
    schema: &Schema,
    name: &Named,
    columns: &[ColumnTree],
    key: &[Named],
) -> Result<TableDef, NoMemory>
    requires { length columns.now ≤ 16 }
    ensures { IfOk result (λ def. def ≡ bound_table schema.now.tables name.now columns.now key.now) }
{
    Ok(TableDef {
        no: schema.tables(),
        name: name.name.copy(alloc)?,
        columns: bound_columns(alloc, columns)?,
        key: bound_key(alloc, columns, key)?,
    })
}

fn bound_item(alloc: Global, scope: &Scope<'_>, item: &ItemTree) -> Result<Item, NoMemory>
    requires { IsNarrow (aliases scope.now) }
    ensures { IfOk result (λ found. found ≡ bound_item (aliases scope.now) item.now) }
{
    match item {
        ItemTree::Plain { col, output } => Ok(Item::Plain {
            col: bound_col(scope, Mention::of(col)),
            name: output.as_ref().unwrap_or(&col.name).name.copy(alloc)?,
        }),
        ItemTree::Sum { col, output } => Ok(Item::Sum {
            col: bound_col(scope, Mention::of(col)),
            name: output.name.copy(alloc)?,
        }),
        ItemTree::Count { output } => Ok(Item::Count {
            name: output.name.copy(alloc)?,
        }),
    }
}

fn bound_items(alloc: Global, scope: &Scope<'_>, items: &[ItemTree]) -> Result<ViewItems, NoMemory>
    requires { IsNarrow (aliases scope.now) }
    ensures { IfOk result (λ found. found ≡ map (bound_item (aliases scope.now)) items.now) }
{
    let mut out = ViewItems::new(alloc);
    for item in items {
        out.push(bound_item(alloc, scope, item)?)?;
    }
    Ok(out)
}

fn table_numbers(alloc: Global, schema: &Schema, refs: &[RefTree]) -> Result<TableNumbers, NoMemory>
    ensures { IfOk result (λ numbers. numbers ≡ table_numbers schema.now.tables schema.now.views refs.now) }
{
    let mut out = TableNumbers::new(alloc);
    for table in refs {
        out.push(table_number(schema.find(&table.name.name)))?;
    }
    Ok(out)
}

/// The view of a CREATE VIEW with these aliases. Cost: linear, with a look-up for each column.
pub(crate) fn bound_view(
    alloc: Global,
    scope: &Scope<'_>,
    name: &Named,
    items: &[ItemTree],
    refs: &[RefTree],
    cond: &CondTree,
    groups: &[ColName],
) -> Result<ViewDef, NoMemory>
    requires { IsNarrow (aliases scope.now) }
    ensures { IfOk result (λ def. def ≡ bound_view (tables_of scope.now) (views_of scope.now) (aliases scope.now) name.now items.now refs.now cond.now groups.now) }
{
    Ok(ViewDef {
        no: scope.schema.views(),
        name: name.name.copy(alloc)?,
        created: 0,
        tables: table_numbers(alloc, scope.schema, refs)?,
        cond: bound_cond(alloc, scope, cond)?,
        items: bound_items(alloc, scope, items)?,
        grouped: !groups.is_empty(),
        groups: bound_cols(alloc, scope, groups)?,
    })
}
