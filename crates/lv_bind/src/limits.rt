//! Fault 6: limits.
ghost use Rattle.std.specs.Prelude.{◌≡◌, ◌++◌, ◌∷◌, [], map, length, nat_lt, IfSome};
ghost use Rattle.std.specs.List.{flat_map, list_any};
ghost use Rattle.lv_bind.specs.Limits.{passed_limits, lengths, value_texts, tuple_texts, side_texts, compared_texts, assign_texts, column_total, list_length, table_measures, view_measures, query_measures, measures};
ghost use Rattle.lv_bind.specs.Seen.{aliases, sides_seen, tables_of, views_of};
ghost use Rattle.lv_bind.specs.Sources.{first};

use crate::entries::Entry;
use crate::pieces::Sides;
use crate::sources::Scope;
use lv_parser::{
    Assign, AssignValue, ColName, ColNames, ColumnTree, ItemTree, Literal, Named, OperandTree,
    RefTree, Stmt, Tuple,
};
use lv_schema::{Fault, LimitKind, Schema};
use lv_values::{Text, Value};

/// A limit, and whether the statement passes it.
#[derive(Clone, Copy)]
struct Measure {
    which: LimitKind,
    most: u32,
    passed: bool,
}

/// The first limit that is passed.
fn first_passed(all: &[Measure]) -> Option<Fault>
    ensures { result ≡ first (passed_limits all.now) }
{
    for measure in all {
        if measure.passed {
            return Some(Fault::Limit {
                which: measure.which,
                most: measure.most,
            });
        }
    }
    None
}

fn is_longer(text: &Text, most: usize) -> bool
    ensures { result ≡ nat_lt most (length text.now) }
{
    text.as_bytes().len() > most
}

/// Whether one of the names is longer.
pub(crate) fn has_longer<T: Entry>(entries: &[T], most: usize) -> bool
    ensures { result ≡ list_any (nat_lt most) (lengths (map T.name_of entries.now)) }
{
    for entry in entries {
        if is_longer(entry.name(), most) {
            return true;
        }
    }
    false
}

pub(crate) fn is_long_value(value: &Value) -> bool
    ensures { result ≡ list_any (nat_lt 256) (lengths (value_texts value.now)) }
{
    match value {
        Value::Num(_) => false,
        Value::Text(text) => is_longer(text, 256),
    }
}

fn has_long_value(values: &[Literal]) -> bool
    ensures { result ≡ list_any (nat_lt 256) (lengths (flat_map (λ l. value_texts l.value) values.now)) }
{
    for literal in values {
        if is_long_value(&literal.value) {
            return true;
        }
    }
    false
}

pub(crate) fn has_long_tuple(tuples: &[Tuple]) -> bool
    ensures { result ≡ list_any (nat_lt 256) (lengths (flat_map tuple_texts tuples.now)) }
{
    for tuple in tuples {
        if has_long_value(tuple.values.as_slice()) {
            return true;
        }
    }
    false
}

fn is_long_side(side: &OperandTree) -> bool
    ensures { result ≡ list_any (nat_lt 256) (lengths (side_texts side.now)) }
{
    match side {
        OperandTree::Column(_) => false,
        OperandTree::Literal(literal) => is_long_value(&literal.value),
    }
}

fn has_long_side(comparisons: &[Sides<'_>]) -> bool
    ensures { result ≡ list_any (nat_lt 256) (lengths (compared_texts (map sides_seen comparisons.now))) }
{
    for Sides { left, right } in comparisons {
        if is_long_side(left) || is_long_side(right) {
            return true;
        }
    }
    false
}

fn is_long_assign(value: &AssignValue) -> bool
    ensures { result ≡ list_any (nat_lt 256) (lengths (assign_texts value.now)) }
{
    match value {
        AssignValue::Literal(literal) => is_long_value(&literal.value),
        AssignValue::Column(_) | AssignValue::Plus { .. } => false,
    }
}

fn has_long_assign(sets: &[Assign]) -> bool
    ensures { result ≡ list_any (nat_lt 256) (lengths (flat_map (λ a. assign_texts a.value) sets.now)) }
{
    for assign in sets {
        if is_long_assign(&assign.value) {
            return true;
        }
    }
    false
}

/// Whether `*` lists more than 64 columns.
fn lists_more(scope: &Scope<'_>) -> bool
    ensures { result ≡ nat_lt 64 (column_total (aliases scope.now)) }
{
    let mut left = 64;
    for source in scope.sources {
        let columns = source.width(scope.schema);
        if columns > left {
            return true;
        }
        left -= columns;
    }
    false
}

fn measured(which: LimitKind, most: u32, passed: bool) -> Measure
    ensures { result ≡ record { which = which; most = most; passed = passed } }
{
    Measure {
        which,
        most,
        passed,
    }
}

fn table_limit(schema: &Schema, name: &Named, columns: &[ColumnTree]) -> Option<Fault>
    ensures { result ≡ first (passed_limits (table_measures (length schema.now.tables) name.now columns.now)) }
{
    let long = is_longer(&name.name, 32) || has_longer(columns, 32);
    first_passed(&[
        measured(LimitKind::Name, 32, long),
        measured(LimitKind::Tables, 32, schema.tables() >= 32),
        measured(LimitKind::Columns, 16, columns.len() > 16),
    ])
}

fn view_limit(
    schema: &Schema,
    comparisons: &[Sides<'_>],
    name: &Named,
    items: &[ItemTree],
    refs: &[RefTree],
) -> Option<Fault>
    ensures { result ≡ first (passed_limits (view_measures (length schema.now.views) (map sides_seen comparisons.now) name.now items.now refs.now)) }
{
    let long = is_longer(&name.name, 32) || has_longer(items, 32) || has_longer(refs, 32);
    first_passed(&[
        measured(LimitKind::Name, 32, long),
        measured(LimitKind::Views, 32, schema.views() >= 32),
        measured(LimitKind::Columns, 16, items.len() > 16),
        measured(LimitKind::Aliases, 4, refs.len() > 4),
        measured(LimitKind::Comparisons, 16, comparisons.len() > 16),
        measured(LimitKind::Text, 256, has_long_side(comparisons)),
    ])
}

/// Whether a query lists more than 64 columns.
pub(crate) fn is_long_list(scope: &Scope<'_>, list: &Option<ColNames>) -> bool
    ensures { result ≡ nat_lt 64 (list_length (aliases scope.now) list.now) }
{
    match list {
        None => lists_more(scope),
        Some(columns) => columns.len() > 64,
    }
}

fn query_limit(
    scope: &Scope<'_>,
    comparisons: &[Sides<'_>],
    list: &Option<ColNames>,
    refs: &[RefTree],
    order: &[(ColName, bool)],
) -> Option<Fault>
    ensures { result ≡ first (passed_limits (query_measures (aliases scope.now) (map sides_seen comparisons.now) list.now refs.now order.now)) }
{
    first_passed(&[
        measured(LimitKind::Name, 32, has_longer(refs, 32)),
        measured(LimitKind::Aliases, 4, refs.len() > 4),
        measured(LimitKind::Comparisons, 16, comparisons.len() > 16),
        measured(LimitKind::Text, 256, has_long_side(comparisons)),
        measured(LimitKind::List, 64, is_long_list(scope, list)),
        measured(LimitKind::Order, 16, order.len() > 16),
    ])
}

/// The first limit that a statement with these aliases and comparisons passes.
pub(crate) fn limit(scope: &Scope<'_>, stmt: &Stmt, comparisons: &[Sides<'_>]) -> Option<Fault>
    ensures { result ≡ first (passed_limits (measures (length (tables_of scope.now)) (length (views_of scope.now)) (aliases scope.now) (map sides_seen comparisons.now) stmt.now)) }
{
    match stmt {
        Stmt::CreateTable { name, columns, .. } => table_limit(
            scope.schema,
            name,
            columns.as_slice(),
        ),
        Stmt::CreateView {
            name,
            items,
            refs,
            ..
        } => view_limit(
            scope.schema,
            comparisons,
            name,
            items.as_slice(),
            refs.as_slice(),
        ),
        Stmt::Insert { tuples, .. } => first_passed(&[
            measured(LimitKind::Text, 256, has_long_tuple(tuples.as_slice())),
            measured(LimitKind::Tuples, 1000, tuples.len() > 1000),
        ]),
        Stmt::Update { sets, .. } => first_passed(&[
            measured(LimitKind::Comparisons, 16, comparisons.len() > 16),
            measured(
                LimitKind::Text,
                256,
                has_long_assign(sets.as_slice()) || has_long_side(comparisons),
            ),
        ]),
        Stmt::Delete { .. } => first_passed(&[
            measured(LimitKind::Comparisons, 16, comparisons.len() > 16),
            measured(LimitKind::Text, 256, has_long_side(comparisons)),
        ]),
        Stmt::Select {
            list,
            refs,
            order,
            ..
        } => query_limit(scope, comparisons, list, refs.as_slice(), order.as_slice()),
        _ => None,
    }
}
