//! Fault 2: names that stand for nothing.
ghost use Rattle.std.specs.Prelude.{◌≡◌};
ghost use Rattle.std.specs.Option.{option_copied};
ghost use Rattle.lv_bind.specs.Pieces.{columns_in};
ghost use Rattle.lv_bind.specs.Seen.{aliases, column_seen, tables_of, views_of};
ghost use Rattle.lv_bind.specs.Sources.{first, fit_of, places, shown_unless, sources_of, target_of};
ghost use Rattle.lv_bind.specs.Unknown.{unknown_refs, is_table, unknown_rels, unknown_qualifier, unknown_in, unknown_columns, is_column, unknown_key, unknown_keys, unknown};

use crate::pieces::Mention;
use crate::sources::{Fit, Scope};
use lv_parser::{ColumnTree, Named, RefTree, Stmt};
use lv_schema::{Rel, Schema};
use lv_values::Text;

fn unknown_ref<'a>(schema: &Schema, refs: &'a [RefTree]) -> Option<&'a Text>
    ensures { option_copied result ≡ first (unknown_refs schema.now.tables schema.now.views refs.now) }
{
    for table in refs {
        if schema.find(&table.name.name).is_none() {
            return Some(&table.name.name);
        }
    }
    None
}

/// The name of a table that stands for this, unless it is a table.
fn unknown_table(target: Option<Rel>, table: &Named) -> Option<&Text>
    ensures { option_copied result ≡ first (shown_unless (is_table target) table.now.name) }
{
    match target {
        Some(Rel::Table(_)) => None,
        Some(Rel::View(_)) | None => Some(&table.name),
    }
}

/// The first table or view that is not in the schema, or that is a view where a table is needed.
fn unknown_rel<'a>(scope: &Scope<'_>, stmt: &'a Stmt) -> Option<&'a Text>
    requires { scope.now.target ≡ target_of (tables_of scope.now) (views_of scope.now) stmt.now }
    ensures { option_copied result ≡ first (unknown_rels (tables_of scope.now) (views_of scope.now) stmt.now) }
{
    match stmt {
        Stmt::CreateView { refs, .. } | Stmt::Select { refs, .. } => {
            unknown_ref(scope.schema, refs.as_slice())
        }
        Stmt::Insert { table, .. } | Stmt::Update { table, .. } | Stmt::Delete { table, .. } => {
            unknown_table(scope.target, table)
        }
        _ => None,
    }
}

fn unknown_qualifier<'a>(scope: &Scope<'_>, qualifier: Option<&'a Named>) -> Option<&'a Text>
    ensures { option_copied result ≡ first (unknown_qualifier (aliases scope.now) (option_copied qualifier.entry)) }
{
    let qualifier = qualifier?;
    for source in scope.sources {
        if qualifier.name == *source.alias {
            return None;
        }
    }
    Some(&qualifier.name)
}

/// What is unknown of a column that fits so: its qualifier, or the column itself.
pub(crate) fn unknown_in<'a>(scope: &Scope<'_>, column: Mention<'a>, fit: Fit) -> Option<&'a Text>
    requires { fit ≡ fit_of (places (aliases scope.now) (column_seen column)) }
    ensures { option_copied result ≡ first (unknown_in (aliases scope.now) (column_seen column.entry)) }
{
    if let Some(name) = unknown_qualifier(scope, column.qualifier) {
        return Some(name);
    }
    match fit {
        Fit::Nothing => Some(&column.name.name),
        Fit::One(_) | Fit::Several(_) => None,
    }
}

fn is_column(columns: &[ColumnTree], name: &Text) -> bool
    ensures { result ≡ is_column columns.now name.now }
{
    columns.iter().any(|column| *name == column.name.name)
}

fn unknown_key<'a>(columns: &[ColumnTree], key: &'a [Named]) -> Option<&'a Text>
    ensures { option_copied result ≡ first (unknown_key columns.now key.now) }
{
    for column in key {
        if !is_column(columns, &column.name) {
            return Some(&column.name);
        }
    }
    None
}

/// The first unknown name of a statement with these aliases, of whose columns this is the first unknown name.
pub(crate) fn unknown<'a>(
    scope: &Scope<'_>,
    stmt: &'a Stmt,
    in_columns: Option<&'a Text>,
) -> Option<&'a Text>
    requires sources { aliases scope.now ≡ sources_of (tables_of scope.now) (views_of scope.now) stmt.now }
    requires target { scope.now.target ≡ target_of (tables_of scope.now) (views_of scope.now) stmt.now }
    requires columns { option_copied in_columns ≡ first (unknown_columns (aliases scope.now) (columns_in stmt.now)) }
    ensures { option_copied result ≡ first (unknown (tables_of scope.now) (views_of scope.now) stmt.now) }
{
    if let Some(name) = unknown_rel(scope, stmt) {
        return Some(name);
    }
    if let Some(name) = in_columns {
        return Some(name);
    }
    match stmt {
        Stmt::CreateTable { columns, key, .. } => unknown_key(columns.as_slice(), key.as_slice()),
        _ => None,
    }
}
