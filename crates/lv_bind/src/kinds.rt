//! Fault 5: a number where a text belongs, or the other way round, and tuples of another length than the table.
ghost use Rattle.std.specs.Prelude.{◌≡◌, ◌++◌, map, length};
ghost use Rattle.std.specs.List.{flat_map};
ghost use Rattle.lv_schema.specs.Bound.{is_text};
ghost use Rattle.lv_bind.specs.Kinds.{value_is_text, kind_of, column_byte, side_is_text, side_byte, compared_kinds, item_kinds, literal_fits, value_kinds, tuple_kinds, assign_fits, assign_byte, assign_kinds, insert_columns, kinds_among};
ghost use Rattle.lv_bind.specs.Seen.{aliases, column_seen, sides_seen, tables_of, views_of};
ghost use Rattle.lv_bind.specs.Sources.{first, target_of};

use crate::pieces::{Mention, Sides};
use crate::sources::{Scope, kind_at, place_of};
use lv_parser::{Assign, AssignValue, ColName, ItemTree, Literal, OperandTree, Stmt, Tuple};
use lv_schema::{Column, Kind, Rel, Schema};
use lv_values::Value;

pub(crate) fn is_text(kind: Kind) -> bool
    ensures { result ≡ is_text kind }
{
    match kind {
        Kind::Text => true,
        Kind::Int | Kind::Big => false,
    }
}

pub(crate) fn value_is_text(value: &Value) -> bool
    ensures { result ≡ value_is_text value.now }
{
    match value {
        Value::Num(_) => false,
        Value::Text(_) => true,
    }
}

/// The kind of a column that a statement names.
fn kind_of(scope: &Scope<'_>, column: Mention<'_>) -> Kind
    ensures { result ≡ kind_of (aliases scope.now) (column_seen column.entry) }
{
    kind_at(scope, place_of(scope, column))
}

fn column_byte(column: &ColName) -> u32
    ensures { result ≡ column_byte column.now }
{
    match &column.qualifier {
        Some(qualifier) => qualifier.byte,
        None => column.name.byte,
    }
}

fn side_is_text(scope: &Scope<'_>, side: &OperandTree) -> bool
    ensures { result ≡ side_is_text (aliases scope.now) side.now }
{
    match side {
        OperandTree::Column(column) => is_text(kind_of(scope, Mention::of(column))),
        OperandTree::Literal(literal) => value_is_text(&literal.value),
    }
}

fn side_byte(side: &OperandTree) -> u32
    ensures { result ≡ side_byte side.now }
{
    match side {
        OperandTree::Column(column) => column_byte(column),
        OperandTree::Literal(literal) => literal.byte,
    }
}

/// The first comparison of a number and a text.
fn compared_kinds(scope: &Scope<'_>, comparisons: &[Sides<'_>]) -> Option<u32>
    ensures { result ≡ first (compared_kinds (aliases scope.now) (map sides_seen comparisons.now)) }
{
    for Sides { left, right } in comparisons {
        if side_is_text(scope, left) != side_is_text(scope, right) {
            return Some(side_byte(right));
        }
    }
    None
}

fn item_kinds(scope: &Scope<'_>, item: &ItemTree) -> Option<u32>
    ensures { result ≡ first (item_kinds (aliases scope.now) item.now) }
{
    match item {
        ItemTree::Sum { col, .. } if is_text(kind_of(scope, Mention::of(col))) => {
            Some(column_byte(col))
        }
        _ => None,
    }
}

/// The first sum of a text.
fn summed_kinds(scope: &Scope<'_>, items: &[ItemTree]) -> Option<u32>
    ensures { result ≡ first (flat_map (item_kinds (aliases scope.now)) items.now) }
{
    for item in items {
        if let Some(byte) = item_kinds(scope, item) {
            return Some(byte);
        }
    }
    None
}

fn literal_fits(kind: Kind, literal: &Literal) -> bool
    ensures { result ≡ literal_fits kind literal.now }
{
    is_text(kind) == value_is_text(&literal.value)
}

/// The first value that its column does not hold.
fn value_kinds(columns: &[Column], values: &[Literal]) -> Option<u32>
    ensures { result ≡ first (value_kinds columns.now values.now) }
{
    for (at, literal) in values.iter().enumerate() {
        match columns.get(at) {
            None => return None,
            Some(column) => {
                if !literal_fits(column.kind, literal) {
                    return Some(literal.byte);
                }
            }
        }
    }
    None
}

fn tuple_kinds(columns: &[Column], tuple: &Tuple) -> Option<u32>
    ensures { result ≡ first (tuple_kinds columns.now tuple.now) }
{
    if tuple.values.len() != columns.len() {
        return Some(tuple.byte);
    }
    value_kinds(columns, tuple.values.as_slice())
}

/// The first tuple of another length, or value that its column does not hold.
pub(crate) fn inserted_kinds(columns: &[Column], tuples: &[Tuple]) -> Option<u32>
    ensures { result ≡ first (flat_map (tuple_kinds columns.now) tuples.now) }
{
    for tuple in tuples {
        if let Some(byte) = tuple_kinds(columns, tuple) {
            return Some(byte);
        }
    }
    None
}

fn assign_fits(scope: &Scope<'_>, kind: Kind, value: &AssignValue) -> bool
    ensures { result ≡ assign_fits (aliases scope.now) kind value.now }
{
    match value {
        AssignValue::Literal(literal) => literal_fits(kind, literal),
        AssignValue::Column(column) => is_text(kind)
            == is_text(kind_of(scope, Mention::unqualified(column))),
        AssignValue::Plus { column, .. } => !is_text(kind)
            && !is_text(kind_of(scope, Mention::unqualified(column))),
    }
}

fn assign_byte(value: &AssignValue) -> u32
    ensures { result ≡ assign_byte value.now }
{
    match value {
        AssignValue::Literal(literal) => literal.byte,
        AssignValue::Column(column) | AssignValue::Plus { column, .. } => column.byte,
    }
}

/// The first value that the column to which it is assigned does not hold.
fn assigned_kinds(scope: &Scope<'_>, sets: &[Assign]) -> Option<u32>
    ensures { result ≡ first (flat_map (assign_kinds (aliases scope.now)) sets.now) }
{
    for assign in sets {
        let kind = kind_of(scope, Mention::unqualified(&assign.column));
        if !assign_fits(scope, kind, &assign.value) {
            return Some(assign_byte(&assign.value));
        }
    }
    None
}

/// The columns of the table of an INSERT.
pub(crate) fn insert_columns(schema: &Schema, target: Option<Rel>) -> &[Column]
    ensures { result.now ≡ insert_columns schema.now.tables target }
{
    match target {
        Some(Rel::Table(number)) => schema.columns(number),
        Some(Rel::View(_)) | None => &[],
    }
}

/// The byte of the first value of a statement with these aliases and comparisons that is of another kind than it has
/// to be.
pub(crate) fn kinds(scope: &Scope<'_>, stmt: &Stmt, comparisons: &[Sides<'_>]) -> Option<u32>
    requires { scope.now.target ≡ target_of (tables_of scope.now) (views_of scope.now) stmt.now }
    ensures { result ≡ first (kinds_among (tables_of scope.now) (views_of scope.now) (aliases scope.now) (map sides_seen comparisons.now) stmt.now) }
{
    match stmt {
        Stmt::Insert { tuples, .. } => inserted_kinds(
            insert_columns(scope.schema, scope.target),
            tuples.as_slice(),
        ),
        Stmt::CreateView { items, .. } => {
            if let Some(byte) = summed_kinds(scope, items.as_slice()) {
                return Some(byte);
            }
            compared_kinds(scope, comparisons)
        }
        Stmt::Update { sets, .. } => {
            if let Some(byte) = assigned_kinds(scope, sets.as_slice()) {
                return Some(byte);
            }
            compared_kinds(scope, comparisons)
        }
        Stmt::Delete { .. } | Stmt::Select { .. } => compared_kinds(scope, comparisons),
        _ => None,
    }
}
