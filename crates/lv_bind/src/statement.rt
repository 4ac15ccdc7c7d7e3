//! Binding of a statement.
ghost use Rattle.std.specs.Prelude.{◌≡◌, ◌∷◌, [], Bool, map, IfOk, OnOk, None, Ok, Err};
ghost use Rattle.lv_bind.specs.Binding.{IsNarrow, IsSmallTable, IsSmallView, bound_among};
ghost use Rattle.lv_bind.specs.Faults.{lowest, reading_faults, profile_fault, later_faults, bound_of};
ghost use Rattle.lv_bind.specs.Rels.{rels_of};
ghost use Rattle.lv_bind.specs.Seen.{alias_seen, aliases, tables_of, views_of};
ghost use Rattle.lv_bind.specs.Spoken.{IsSpoken};
ghost use Rattle.lv_schema.specs.Bound.{IsBound};
ghost use Rattle.lv_bind.specs.Sources.{AreNarrow, sources_of, target_of};
ghost use Rattle.lv_schema.specs.declared.fault.Fault.{Fault};

use crate::at_once::{Stop, bound_at_once};
use crate::binding::{bound_cond, bound_query, bound_rows, bound_update, table_number};
use crate::creating::{bound_table, bound_view};
use crate::pieces::{columns_in, comparisons_in};
use crate::profile::profile;
use crate::refusals::{later_fault, reading_fault};
use crate::sources::{Scope, Source, one_source, sources, target};
use lv_parser::Stmt;
use lv_schema::{Bound, Change, Fault, Rel, Schema};
use lv_values::NoMemory;
use std::alloc::Global;
use thiserror::Error;

/// Why a statement is not bound.
#[derive(Debug, Drop, Error)]
pub enum BindFault {
    /// The statement is refused.
    #[error(transparent)]
    Stmt(Fault),
    /// Memory was refused.
    #[error("out of memory")]
    NoMemory,
}

impl From<NoMemory> for BindFault {
    ghost use Rattle.std.specs.Prelude.{◌≡◌};
    ghost use Rattle.lv_bind.specs.declared.statement.BindFault.TheVariants.{NoMemory};

    ghost from_gives = { λ _ e. e ≡ NoMemory };

    fn from(_: NoMemory) -> BindFault {
        BindFault::NoMemory
    }
}

/// What a statement with these aliases is bound to, once none of the faults 2 to 6 refuses it.
fn bound_among(alloc: Global, scope: &Scope<'_>, stmt: &Stmt) -> Result<Bound, NoMemory>
    requires narrow { IsNarrow (aliases scope.now) }
    requires small { IsSmallTable stmt.now }
    requires target { scope.now.target ≡ target_of (tables_of scope.now) (views_of scope.now) stmt.now }
    requires rels { map (λ s. s.rel) scope.now.sources.now ≡ rels_of (tables_of scope.now) (views_of scope.now) stmt.now }
    ensures { IfOk result (λ b. b ≡ bound_among (tables_of scope.now) (views_of scope.now) (aliases scope.now) stmt.now) }
{
    match stmt {
        Stmt::CreateTable { name, columns, key } => Ok(Bound::Table(bound_table(
            alloc,
            scope.schema,
            name,
            columns.as_slice(),
            key.as_slice(),
        )?)),
        Stmt::CreateView {
            name,
            items,
            refs,
            cond,
            groups,
        } => Ok(Bound::View(bound_view(
            alloc,
            scope,
            name,
            items.as_slice(),
            refs.as_slice(),
            cond,
            groups.as_slice(),
        )?)),
        Stmt::Insert { tuples, .. } => Ok(Bound::Change(Change::Insert {
            table: table_number(scope.target),
            rows: bound_rows(alloc, tuples.as_slice())?,
        })),
        Stmt::Update { sets, cond, .. } => Ok(Bound::Change(bound_update(
            alloc,
            scope,
            sets.as_slice(),
            cond,
        )?)),
        Stmt::Delete { cond, .. } => Ok(Bound::Change(Change::Delete {
            table: table_number(scope.target),
            cond: bound_cond(alloc, scope, cond)?,
        })),
        Stmt::Select {
            list,
            cond,
            order,
            ..
        } => Ok(Bound::Query(bound_query(alloc, scope, list, cond, order.as_slice())?)),
        Stmt::Begin => Ok(Bound::Begin),
        Stmt::Commit => Ok(Bound::Commit),
        Stmt::Rollback => Ok(Bound::Rollback),
        Stmt::ShowTasks => Ok(Bound::Tasks),
    }
}

/// The lowest of the faults 2 to 6 of a statement with these aliases.
fn early_fault(alloc: Global, scope: &Scope<'_>, stmt: &Stmt) -> Result<Option<Fault>, NoMemory>
    requires sources { aliases scope.now ≡ sources_of (tables_of scope.now) (views_of scope.now) stmt.now }
    requires target { scope.now.target ≡ target_of (tables_of scope.now) (views_of scope.now) stmt.now }
    ensures { IfOk result (λ found. found ≡ lowest (reading_faults (tables_of scope.now) (views_of scope.now) stmt.now)) }
{
    let comparisons = comparisons_in(alloc, stmt)?;
    let columns = columns_in(alloc, stmt, comparisons.as_slice())?;
    reading_fault(
        alloc,
        scope,
        stmt,
        columns.as_slice(),
        comparisons.as_slice(),
    )
}

/// The lowest of the faults 7 to 12 of a statement with these aliases, which is bound to this.
fn late_fault(
    alloc: Global,
    scope: &Scope<'_>,
    setup: bool,
    live: bool,
    stmt: &Stmt,
    bound: &Bound,
) -> Result<Option<Fault>, NoMemory>
    requires sources { aliases scope.now ≡ sources_of (tables_of scope.now) (views_of scope.now) stmt.now }
    requires small { IsSmallView bound.now }
    requires bound { bound.now ≡ bound_among (tables_of scope.now) (views_of scope.now) (sources_of (tables_of scope.now) (views_of scope.now) stmt.now) stmt.now }
    ensures { IfOk result (λ found. found ≡ lowest (profile_fault (tables_of scope.now) (views_of scope.now) stmt.now ∷ later_faults (tables_of scope.now) (views_of scope.now) setup live stmt.now)) }
{
    if let Some(rule) = profile(scope.schema, stmt, bound) {
        return Ok(Some(Fault::Profile { rule }));
    }
    later_fault(alloc, scope, setup, live, stmt, bound)
}

/// What a statement with these aliases is bound to, unless one of the faults 2 to 6, which are searched, refuses it.
#[inline(never)]
fn bound_searched(alloc: Global, scope: &Scope<'_>, stmt: &Stmt) -> Result<Bound, BindFault>
    requires sources { aliases scope.now ≡ sources_of (tables_of scope.now) (views_of scope.now) stmt.now }
    requires narrow { AreNarrow (aliases scope.now) }
    requires target { scope.now.target ≡ target_of (tables_of scope.now) (views_of scope.now) stmt.now }
    requires rels { map (λ s. s.rel) scope.now.sources.now ≡ rels_of (tables_of scope.now) (views_of scope.now) stmt.now }
    ensures bound { IfOk result (λ b. b ≡ bound_among (tables_of scope.now) (views_of scope.now) (aliases scope.now) stmt.now) }
    ensures readable { OnOk result (lowest (reading_faults (tables_of scope.now) (views_of scope.now) stmt.now) ≡ None) }
    ensures refused { (setup live : Bool) (fault : Fault) → result ≡ Err (BindFault.Stmt fault) → bound_of (tables_of scope.now) (views_of scope.now) setup live stmt.now ≡ Err fault }
{
    match early_fault(alloc, scope, stmt)? {
        Some(fault) => Err(BindFault::Stmt(fault)),
        None => Ok(bound_among(alloc, scope, stmt)?),
    }
}

/// What a statement with these aliases is bound to, unless one of the faults 2 to 6 refuses it. They are searched only
/// where one look does not show that there is none.
fn bound_readable(alloc: Global, scope: &Scope<'_>, stmt: &Stmt) -> Result<Bound, BindFault>
    requires sources { aliases scope.now ≡ sources_of (tables_of scope.now) (views_of scope.now) stmt.now }
    requires narrow { AreNarrow (aliases scope.now) }
    requires target { scope.now.target ≡ target_of (tables_of scope.now) (views_of scope.now) stmt.now }
    requires rels { map (λ s. s.rel) scope.now.sources.now ≡ rels_of (tables_of scope.now) (views_of scope.now) stmt.now }
    ensures bound { IfOk result (λ b. b ≡ bound_among (tables_of scope.now) (views_of scope.now) (aliases scope.now) stmt.now) }
    ensures readable { OnOk result (lowest (reading_faults (tables_of scope.now) (views_of scope.now) stmt.now) ≡ None) }
    ensures refused { (setup live : Bool) (fault : Fault) → result ≡ Err (BindFault.Stmt fault) → bound_of (tables_of scope.now) (views_of scope.now) setup live stmt.now ≡ Err fault }
{
    match bound_at_once(alloc, scope, stmt) {
        Ok(bound) => Ok(bound),
        Err(Stop::NoMemory) => Err(BindFault::NoMemory),
        Err(Stop::Doubt) => bound_searched(alloc, scope, stmt),
    }
}

/// Binds a statement with these aliases.
fn bind_among(
    alloc: Global,
    scope: &Scope<'_>,
    setup: bool,
    live: bool,
    stmt: &Stmt,
) -> Result<Bound, BindFault>
    requires sources { aliases scope.now ≡ sources_of (tables_of scope.now) (views_of scope.now) stmt.now }
    requires narrow { AreNarrow (aliases scope.now) }
    requires target { scope.now.target ≡ target_of (tables_of scope.now) (views_of scope.now) stmt.now }
    requires rels { map (λ s. s.rel) scope.now.sources.now ≡ rels_of (tables_of scope.now) (views_of scope.now) stmt.now }
    ensures found { IfOk result (λ b. bound_of (tables_of scope.now) (views_of scope.now) setup live stmt.now ≡ Ok b) }
    ensures refused { (fault : Fault) → result ≡ Err (BindFault.Stmt fault) → bound_of (tables_of scope.now) (views_of scope.now) setup live stmt.now ≡ Err fault }
{
    let bound = bound_readable(alloc, scope, stmt)?;
    match late_fault(alloc, scope, setup, live, stmt, &bound)? {
        Some(fault) => Err(BindFault::Stmt(fault)),
        None => Ok(bound),
    }
}

/// Binds a statement with this one alias. Cost: no list of aliases is made.
#[tactic(auto, using(crate::proofs::NarrowLemmas::narrow_one))]
fn bind_one(
    alloc: Global,
    schema: &Schema,
    target: Option<Rel>,
    source: Source<'_>,
    setup: bool,
    live: bool,
    stmt: &Stmt,
) -> Result<Bound, BindFault>
    requires source { alias_seen schema.now.tables schema.now.views source ∷ [] ≡ sources_of schema.now.tables schema.now.views stmt.now }
    requires target { target ≡ target_of schema.now.tables schema.now.views stmt.now }
    requires rels { source.rel ∷ [] ≡ rels_of schema.now.tables schema.now.views stmt.now }
    ensures found { IfOk result (λ b. bound_of schema.now.tables schema.now.views setup live stmt.now ≡ Ok b) }
    ensures refused { (fault : Fault) → result ≡ Err (BindFault.Stmt fault) → bound_of schema.now.tables schema.now.views setup live stmt.now ≡ Err fault }
{
    let _tables = schema.tables();
    let sources = [source];
    let scope = Scope {
        schema,
        target,
        sources: &sources,
    };
    bind_among(alloc, &scope, setup, live, stmt)
}

/// Binds a statement against a schema, for the setup or for another session, with a live transaction or without one: its
/// names become numbers.
///
/// # Errors
/// The statement is refused: of its faults 2 to 12 the lowest number, and of that the first place. Of fault 12 only the
/// numbers that stand in the statement are seen here; what the rows decide comes when the statement runs. Or memory was
/// refused.
///
/// Cost: linear in the statement, but for a search of the aliases' columns for each column, and of the names before it
/// for each name that may stand only once.
#[tactic(auto, using(crate::proofs::BoundStatements::spoken_fits))]
pub fn bind(
    alloc: Global,
    schema: &Schema,
    setup: bool,
    live: bool,
    stmt: &Stmt,
) -> Result<Bound, BindFault>
    ensures found { IfOk result (λ b. bound_of schema.now.tables schema.now.views setup live stmt.now ≡ Ok b) }
    // What a line's statement is bound to fits the schema.
    ensures bound { IsSpoken stmt.now → IfOk result (IsBound schema.now.tables schema.now.views) }
    ensures refused { (fault : Fault) → result ≡ Err (BindFault.Stmt fault) → bound_of schema.now.tables schema.now.views setup live stmt.now ≡ Err fault }
{
    let _tables = schema.tables();
    let target = target(schema, stmt);
    if let Some(source) = one_source(schema, target, stmt) {
        return bind_one(alloc, schema, target, source, setup, live, stmt);
    }
    let found = sources(alloc, schema, target, stmt)?;
    let scope = Scope {
        schema,
        target,
        sources: found.as_slice(),
    };
    bind_among(alloc, &scope, setup, live, stmt)
}
