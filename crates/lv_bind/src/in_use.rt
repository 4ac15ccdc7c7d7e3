//! Fault 4: names that are used already, or that stand twice.
ghost use Rattle.std.specs.Prelude.{◌≡◌, ◌++◌, map, IfOk};
ghost use Rattle.std.specs.List.{list_any};
ghost use Rattle.std.specs.Option.{option_copied};
ghost use Rattle.std.specs.Str.{bytes_eq};
ghost use Rattle.lv_bind.specs.InUse.{repeated, same_column, regrouped, taken, repeated_columns, repeated_names, repeated_outputs, repeated_aliases, in_use};
ghost use Rattle.lv_bind.specs.Seen.{aliases, tables_of, views_of};
ghost use Rattle.lv_bind.specs.Sources.{first, sources_of};

use crate::entries::Entry;
use crate::pieces::Mention;
use crate::sources::{Place, Scope, place_of};
use lv_parser::{ColName, ColumnTree, ItemTree, Named, RefTree, Stmt};
use lv_schema::Schema;
use lv_values::{Items, NoMemory, Text};
use std::alloc::Global;

fn is_named<T: Entry>(entries: &[T], name: &Text) -> bool
    ensures { result ≡ list_any (bytes_eq name.now) (map T.name_of entries.now) }
{
    for entry in entries {
        if *name == *entry.name() {
            return true;
        }
    }
    false
}

/// The first name that stands before in the list.
pub(crate) fn repeated<T: Entry>(entries: &[T]) -> Option<&Text>
    ensures { option_copied result ≡ first (repeated (map T.name_of entries.now)) }
{
    for (at, entry) in entries.iter().enumerate() {
        if is_named(&entries[..at], entry.name()) {
            return Some(entry.name());
        }
    }
    None
}

fn is_before(places: &[Place], place: Place) -> bool
    ensures { result ≡ list_any (same_column place) places.now }
{
    for other in places {
        if place.alias == other.alias && place.column == other.column {
            return true;
        }
    }
    false
}

/// The first GROUP BY column that is one before.
fn regrouped<'a>(
    alloc: Global,
    scope: &Scope<'_>,
    columns: &'a [ColName],
) -> Result<Option<&'a Text>, NoMemory>
    ensures { IfOk result (λ found. option_copied found ≡ first (regrouped (aliases scope.now) columns.now)) }
{
    let mut before = Items::new(alloc);
    for column in columns {
        let place = place_of(scope, Mention::of(column));
        if is_before(before.as_slice(), place) {
            return Ok(Some(&column.name.name));
        }
        before.push(place)?;
    }
    Ok(None)
}

/// A new table's or view's name, if it is in the schema.
fn taken<'a>(schema: &Schema, name: &'a Named) -> Option<&'a Text>
    ensures { option_copied result ≡ first (taken schema.now.tables schema.now.views name.now) }
{
    match schema.find(&name.name) {
        None => None,
        Some(_) => Some(&name.name),
    }
}

fn in_use_by_table<'a>(
    schema: &Schema,
    name: &'a Named,
    columns: &'a [ColumnTree],
    key: &'a [Named],
) -> Option<&'a Text>
    ensures { option_copied result ≡ first (taken schema.now.tables schema.now.views name.now ++ (repeated_columns columns.now ++ repeated_names key.now)) }
{
    if let Some(name) = taken(schema, name) {
        return Some(name);
    }
    if let Some(name) = repeated(columns) {
        return Some(name);
    }
    repeated(key)
}

fn in_use_by_view<'a>(
    schema: &Schema,
    name: &'a Named,
    items: &'a [ItemTree],
    refs: &'a [RefTree],
) -> Option<&'a Text>
    ensures { option_copied result ≡ first (taken schema.now.tables schema.now.views name.now ++ (repeated_outputs items.now ++ repeated_aliases refs.now)) }
{
    if let Some(name) = taken(schema, name) {
        return Some(name);
    }
    if let Some(name) = repeated(items) {
        return Some(name);
    }
    repeated(refs)
}

/// The first name of a statement with these aliases that is used already or stands twice. Cost: a comparison of each
/// name with those before it in its list.
pub(crate) fn in_use<'a>(
    alloc: Global,
    scope: &Scope<'_>,
    stmt: &'a Stmt,
) -> Result<Option<&'a Text>, NoMemory>
    requires { aliases scope.now ≡ sources_of (tables_of scope.now) (views_of scope.now) stmt.now }
    ensures { IfOk result (λ found. option_copied found ≡ first (in_use (tables_of scope.now) (views_of scope.now) stmt.now)) }
{
    match stmt {
        Stmt::CreateTable { name, columns, key } => Ok(in_use_by_table(
            scope.schema,
            name,
            columns.as_slice(),
            key.as_slice(),
        )),
        Stmt::CreateView {
            name,
            items,
            refs,
            groups,
            ..
        } => {
            match in_use_by_view(scope.schema, name, items.as_slice(), refs.as_slice()) {
                Some(name) => Ok(Some(name)),
                None => regrouped(alloc, scope, groups.as_slice()),
            }
        }
        Stmt::Update { sets, .. } => Ok(repeated(sets.as_slice())),
        Stmt::Select { refs, .. } => Ok(repeated(refs.as_slice())),
        _ => Ok(None),
    }
}
