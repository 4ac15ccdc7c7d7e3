//! The aliases of a statement, and where a column that it names is.
ghost use Rattle.std.specs.Prelude.{◌≡◌, ◌++◌, ◌∷◌, [], map, position, slice_index_or, OnOk, IfOk, IfSome};
ghost use Rattle.std.specs.Str.{bytes_eq};
ghost use Rattle.std.specs.Option.{option_copied};
ghost use Rattle.lv_bind.specs.Rels.{rels_in, rels_of};
ghost use Rattle.lv_bind.specs.Sources.{AreNarrow, no_column, sources_of, source_of, alias_of, columns_of, target_of, places, place_of, fit_of, place_in, goes_by, kind_at, column_named};
ghost use Rattle.lv_bind.specs.Seen.{alias_seen, aliases, column_seen};
ghost use Rattle.lv_schema.specs.declared.table.Column.{Column};
ghost use Rattle.lv_schema.specs.declared.table.Kind.TheVariants.{Big};
ghost use Rattle.lv_schema.specs.Bound.{item_name, rel_columns, view_columns, listed_column, alias_columns};
ghost use Rattle.lv_schema.specs.Catalog.{rel_named};
ghost use Rattle.lv_schema.specs.World.{table_at, view_at};

use crate::pieces::Mention;
use lv_parser::{Named, RefTree, Stmt};
use lv_schema::{Col, Column, Item, Kind, Rel, Schema, ViewDef};
use lv_values::{Items, NoMemory, Text};
use std::alloc::Global;

/// One alias: its name, and the table or view that it stands for, if there is one.
#[derive(Clone, Copy)]
pub(crate) struct Source<'a> {
    pub alias: &'a Text,
    pub rel: Option<Rel>,
}

/// The schema, what the table that a statement changes stands for, and the aliases of the statement.
#[derive(Clone, Copy)]
pub(crate) struct Scope<'a> {
    pub schema: &'a Schema,
    pub target: Option<Rel>,
    pub sources: &'a [Source<'a>],
}

/// What an alias goes by: its own name, or that of its table or view.
pub(crate) fn alias_of(table: &RefTree) -> &Named
    ensures { result.now ≡ alias_of table.now }
{
    match &table.alias {
        Some(alias) => alias,
        None => &table.name,
    }
}

/// What the table that a statement changes stands for. Cost: a look-up of its name.
pub(crate) fn target(schema: &Schema, stmt: &Stmt) -> Option<Rel>
    ensures { result ≡ target_of schema.now.tables schema.now.views stmt.now }
{
    match stmt {
        Stmt::Insert { table, .. } | Stmt::Update { table, .. } | Stmt::Delete { table, .. } => {
            schema.find(&table.name)
        }
        _ => None,
    }
}

/// Puts an alias of this table or view at the end.
#[tactic(auto, using(crate::proofs::NarrowLemmas::narrow_pushed))]
fn push_source<'a>(
    schema: &Schema,
    alias: &'a Text,
    rel: Option<Rel>,
    out: &mut Items<Source<'a>>,
) -> Result<(), NoMemory>
    ensures added { OnOk result (let seen = map (alias_seen schema.now.tables schema.now.views) in seen out.new ≡ seen out.old ++ record { name = alias.now; columns = columns_of schema.now.tables schema.now.views rel } ∷ []) }
    ensures narrow { OnOk result (let seen = map (alias_seen schema.now.tables schema.now.views) in AreNarrow (seen out.old) → AreNarrow (seen out.new)) }
    ensures rels { OnOk result (map (λ s. s.rel) out.new ≡ map (λ s. s.rel) out.old ++ rel ∷ []) }
{
    let _tables = schema.tables();
    out.push(Source { alias, rel })
}

/// Puts the aliases of a FROM at the end.
fn push_refs<'a>(
    schema: &Schema,
    refs: &'a [RefTree],
    out: &mut Items<Source<'a>>,
) -> Result<(), NoMemory>
    ensures added { OnOk result (let seen = map (alias_seen schema.now.tables schema.now.views) in seen out.new ≡ seen out.old ++ map (source_of schema.now.tables schema.now.views) refs.now) }
    ensures narrow { OnOk result (let seen = map (alias_seen schema.now.tables schema.now.views) in AreNarrow (seen out.old) → AreNarrow (seen out.new)) }
    ensures rels { OnOk result (map (λ s. s.rel) out.new ≡ map (λ s. s.rel) out.old ++ rels_in schema.now.tables schema.now.views refs.now) }
{
    for table in refs {
        push_source(
            schema,
            &alias_of(table).name,
            schema.find(&table.name.name),
            out,
        )?;
    }
    Ok(())
}

/// The aliases of a statement that changes this table or none, in the order of FROM. Cost: a look-up of each name in
/// FROM.
pub(crate) fn sources<'a>(
    alloc: Global,
    schema: &Schema,
    target: Option<Rel>,
    stmt: &'a Stmt,
) -> Result<Items<Source<'a>>, NoMemory>
    requires { target ≡ target_of schema.now.tables schema.now.views stmt.now }
    ensures are { IfOk result (λ found. map (alias_seen schema.now.tables schema.now.views) found ≡ sources_of schema.now.tables schema.now.views stmt.now) }
    ensures narrow { IfOk result (λ found. AreNarrow (map (alias_seen schema.now.tables schema.now.views) found)) }
    ensures rels { IfOk result (λ found. map (λ s. s.rel) found ≡ rels_of schema.now.tables schema.now.views stmt.now) }
{
    let mut out = Items::new(alloc);
    match stmt {
        Stmt::CreateView { refs, .. } | Stmt::Select { refs, .. } => {
            push_refs(schema, refs.as_slice(), &mut out)?;
        }
        Stmt::Update { table, .. } | Stmt::Delete { table, .. } => {
            push_source(schema, &table.name, target, &mut out)?;
        }
        _ => (),
    }
    Ok(out)
}

/// The alias of a statement that changes this table, or that reads one table or view; none for other statements. Cost: a
/// look-up of the name in FROM.
pub(crate) fn one_source<'a>(
    schema: &Schema,
    target: Option<Rel>,
    stmt: &'a Stmt,
) -> Option<Source<'a>>
    requires { target ≡ target_of schema.now.tables schema.now.views stmt.now }
    ensures is { IfSome result (λ s. alias_seen schema.now.tables schema.now.views s ∷ [] ≡ sources_of schema.now.tables schema.now.views stmt.now) }
    ensures rels { IfSome result (λ s. s.rel ∷ [] ≡ rels_of schema.now.tables schema.now.views stmt.now) }
{
    match stmt {
        Stmt::Update { table, .. } | Stmt::Delete { table, .. } => Some(Source {
            alias: &table.name,
            rel: target,
        }),
        Stmt::Select { refs, .. } => match refs.as_slice() {
            [table] => Some(Source {
                alias: &alias_of(table).name,
                rel: schema.find(&table.name.name),
            }),
            _ => None,
        },
        _ => None,
    }
}

/// Where a column is: the number of its alias, and its number there.
#[derive(Clone, Copy, Debug, PartialEq, Eq)]
pub(crate) struct Place {
    pub alias: usize,
    pub column: usize,
}

/// What a column fits among the aliases.
#[derive(Clone, Copy)]
pub(crate) enum Fit {
    Nothing,
    One(Place),
    Several(Place),
}

/// Whether two names are the same. Names are short: they are compared byte by byte, if they are as long.
fn is_same(name: &Text, other: &Text) -> bool
    ensures { result ≡ bytes_eq name.now other.now }
{
    let (name, other) = (name.as_bytes(), other.as_bytes());
    if name.len() != other.len() {
        return false;
    }
    for (at, byte) in name.iter().enumerate() {
        if *byte != other[at] {
            return false;
        }
    }
    true
}

/// The place of a name among columns.
fn named_column(columns: &[Column], name: &Text) -> Option<usize>
    ensures { result ≡ column_named name.now columns.now }
{
    columns
        .iter()
        .position(|column| is_same(name, &column.name))
}

/// The place of a name among the items of a view.
fn named_item(items: &[Item], name: &Text) -> Option<usize>
    ensures { result ≡ position (λ item. bytes_eq name.now (item_name item)) items.now }
{
    items.iter().position(|item| is_same(name, item.name()))
}

/// The items of a view, none where the number is not in use.
fn view_items(schema: &Schema, number: u32) -> &[Item]
    ensures { result.now ≡ (view_at schema.now.views number).items }
{
    if number < schema.views() {
        schema.view(number).items.as_slice()
    } else {
        &[]
    }
}

/// The place of a name among the columns of a view.
fn named_in_view(schema: &Schema, number: u32, name: &Text) -> Option<usize>
    ensures { result ≡ column_named name.now (view_columns schema.now.tables (view_at schema.now.views number)) }
{
    named_item(view_items(schema, number), name)
}

/// The place of a name among the columns of a table or view.
fn named_in(schema: &Schema, rel: Option<Rel>, name: &Text) -> Option<usize>
    ensures { result ≡ column_named name.now (columns_of schema.now.tables schema.now.views rel) }
{
    match rel {
        None => None,
        Some(Rel::Table(number)) => named_column(schema.columns(number), name),
        Some(Rel::View(number)) => named_in_view(schema, number, name),
    }
}

/// The kind of the column at a place, that of sums past the end.
fn kind_in_table(columns: &[Column], at: usize) -> Kind
    ensures { (d : Column) → d.kind ≡ Big → result ≡ (slice_index_or columns.now at d).kind }
{
    match columns.get(at) {
        None => Kind::Big,
        Some(column) => column.kind,
    }
}

/// The kind of a column of the tables with these numbers, that of sums where there is none.
fn kind_in_tables(schema: &Schema, numbers: &[u32], col: Col) -> Kind
    ensures { (d : Column) → d.kind ≡ Big → result ≡ (slice_index_or (slice_index_or (alias_columns schema.now.tables numbers.now) col.alias []) col.column d).kind }
{
    match numbers.get(col.alias as usize) {
        None => Kind::Big,
        Some(number) => kind_in_table(schema.columns(*number), col.column as usize),
    }
}

/// The kind of the column that an item of a view over these tables gives.
fn kind_of_item(schema: &Schema, numbers: &[u32], item: &Item) -> Kind
    ensures { result ≡ (listed_column (alias_columns schema.now.tables numbers.now) item.now).kind }
{
    match item {
        Item::Plain { col, .. } => kind_in_tables(schema, numbers, *col),
        Item::Sum { .. } | Item::Count { .. } => Kind::Big,
    }
}

/// The kind of a view's column, that of sums past the end.
fn kind_in_view(schema: &Schema, view: &ViewDef, at: usize) -> Kind
    ensures { result ≡ (slice_index_or (view_columns schema.now.tables view.now) at no_column).kind }
{
    match view.items.as_slice().get(at) {
        None => Kind::Big,
        Some(item) => kind_of_item(schema, view.tables.as_slice(), item),
    }
}

/// The kind of a column of the view with this number, that of sums where there is none.
fn kind_in_view_at(schema: &Schema, number: u32, at: usize) -> Kind
    ensures { result ≡ (slice_index_or (view_columns schema.now.tables (view_at schema.now.views number)) at no_column).kind }
{
    if number < schema.views() {
        kind_in_view(schema, schema.view(number), at)
    } else {
        Kind::Big
    }
}

/// The kind of a column of a table or view, that of sums where there is none.
fn kind_in(schema: &Schema, rel: Option<Rel>, at: usize) -> Kind
    ensures { result ≡ (slice_index_or (columns_of schema.now.tables schema.now.views rel) at no_column).kind }
{
    match rel {
        None => Kind::Big,
        Some(Rel::Table(number)) => kind_in_table(schema.columns(number), at),
        Some(Rel::View(number)) => kind_in_view_at(schema, number, at),
    }
}

impl Source<'_> {
    ghost use Rattle.std.specs.Prelude.{length};
    ghost use Rattle.lv_bind.specs.Seen.{alias_seen};

    /// How many columns the alias has.
    pub fn width(&self, schema: &Schema) -> usize
        ensures { result ≡ length (alias_seen schema.now.tables schema.now.views self.now).columns }
    {
        match self.rel {
            None => 0,
            Some(Rel::Table(number)) => schema.columns(number).len(),
            Some(Rel::View(number)) => view_items(schema, number).len(),
        }
    }
}

/// The kind of a column of the aliases, that of sums where there is none.
pub(crate) fn kind_at(scope: &Scope<'_>, place: Place) -> Kind
    ensures { result ≡ kind_at (aliases scope.now) place }
{
    match scope.sources.get(place.alias) {
        None => Kind::Big,
        Some(source) => kind_in(scope.schema, source.rel, place.column),
    }
}

/// Whether a column with this qualifier may be one of the alias.
fn goes_by(qualifier: Option<&Named>, alias: &Text) -> bool
    ensures { result ≡ goes_by (option_copied qualifier.entry) alias.now }
{
    match qualifier {
        None => true,
        Some(qualifier) => qualifier.name == *alias,
    }
}

/// The place that a column fits in the alias of this number, if it fits one.
fn place_in(
    schema: &Schema,
    number: usize,
    source: &Source<'_>,
    column: Mention<'_>,
) -> Option<Place>
    ensures { result ≡ place_in number (alias_seen schema.now.tables schema.now.views source.now) (column_seen column.entry) }
{
    if !goes_by(column.qualifier, source.alias) {
        return None;
    }
    let at = named_in(schema, source.rel, &column.name.name)?;
    Some(Place {
        alias: number,
        column: at,
    })
}

/// What a column fits among the aliases, each of which is looked at.
fn resolve_among(scope: &Scope<'_>, column: Mention<'_>) -> Fit
    ensures { result ≡ fit_of (places (aliases scope.now) (column_seen column.entry)) }
{
    let mut found = None;
    for (number, source) in scope.sources.iter().enumerate() {
        let Some(place) = place_in(scope.schema, number, source, column) else {
            continue;
        };
        if let Some(first) = found {
            return Fit::Several(first);
        }
        found = Some(place);
    }
    match found {
        None => Fit::Nothing,
        Some(place) => Fit::One(place),
    }
}

/// What a column fits among the aliases, of which there is mostly one. Cost: a look-up among the columns of each.
pub(crate) fn resolve(scope: &Scope<'_>, column: Mention<'_>) -> Fit
    ensures { result ≡ fit_of (places (aliases scope.now) (column_seen column.entry)) }
{
    match scope.sources {
        [source] => match place_in(scope.schema, 0, source, column) {
            None => Fit::Nothing,
            Some(place) => Fit::One(place),
        },
        _ => resolve_among(scope, column),
    }
}

/// Where a column fits first, or the first place of all. Each alias is looked at, up to the one that it fits.
fn place_among(scope: &Scope<'_>, column: Mention<'_>) -> Place
    ensures { result ≡ place_of (aliases scope.now) (column_seen column.entry) }
{
    for (number, source) in scope.sources.iter().enumerate() {
        if let Some(place) = place_in(scope.schema, number, source, column) {
            return place;
        }
    }
    Place {
        alias: 0,
        column: 0,
    }
}

/// Where a column is, once it fits one place; else where it fits first, or at the first place of all. Cost: a look-up
/// among the columns of each alias, up to the one that it fits.
pub(crate) fn place_of(scope: &Scope<'_>, column: Mention<'_>) -> Place
    ensures { result ≡ place_of (aliases scope.now) (column_seen column.entry) }
{
    match scope.sources {
        [source] => match place_in(scope.schema, 0, source, column) {
            None => Place {
                alias: 0,
                column: 0,
            },
            Some(place) => place,
        },
        _ => place_among(scope, column),
    }
}
