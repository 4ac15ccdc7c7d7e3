//! The lowest fault of a statement.
ghost use Rattle.std.specs.Prelude.{◌≡◌, map, IfOk};
ghost use Rattle.lv_bind.specs.Binding.{bound_among};
ghost use Rattle.lv_bind.specs.Faults.{lowest, reading_faults, later_faults};
ghost use Rattle.lv_bind.specs.Pieces.{columns_in, comparisons_in};
ghost use Rattle.lv_bind.specs.Seen.{aliases, column_seen, sides_seen, tables_of, views_of};
ghost use Rattle.lv_bind.specs.Sources.{sources_of, target_of};

use crate::assigned::assigned;
use crate::in_use::in_use;
use crate::kinds::kinds;
use crate::limits::limit;
use crate::misfits::misfits_of;
use crate::pieces::{Mention, Sides};
use crate::ranges::wide;
use crate::rights::{in_transaction, no_transaction, outside_setup};
use crate::sources::Scope;
use crate::unknown::unknown;
use lv_parser::Stmt;
use lv_schema::{Bound, Fault};
use lv_values::{Copying, NoMemory};
use std::alloc::Global;

/// The lowest of the faults 2 to 6, which are seen before anything is bound, of a statement with these aliases, columns
/// and comparisons.
pub(crate) fn reading_fault(
    alloc: Global,
    scope: &Scope<'_>,
    stmt: &Stmt,
    columns: &[Mention<'_>],
    comparisons: &[Sides<'_>],
) -> Result<Option<Fault>, NoMemory>
    requires sources { aliases scope.now ≡ sources_of (tables_of scope.now) (views_of scope.now) stmt.now }
    requires target { scope.now.target ≡ target_of (tables_of scope.now) (views_of scope.now) stmt.now }
    requires columns { map column_seen columns.now ≡ columns_in stmt.now }
    requires comparisons { map sides_seen comparisons.now ≡ comparisons_in stmt.now }
    ensures { IfOk result (λ found. found ≡ lowest (reading_faults (tables_of scope.now) (views_of scope.now) stmt.now)) }
{
    let misfits = misfits_of(scope, columns);
    if let Some(name) = unknown(scope, stmt, misfits.unknown) {
        return Ok(Some(Fault::Unknown {
            name: name.copy(alloc)?,
        }));
    }
    if let Some(name) = misfits.ambiguous {
        return Ok(Some(Fault::Ambiguous {
            name: name.copy(alloc)?,
        }));
    }
    if let Some(name) = in_use(alloc, scope, stmt)? {
        return Ok(Some(Fault::InUse {
            name: name.copy(alloc)?,
        }));
    }
    if let Some(byte) = kinds(scope, stmt, comparisons) {
        return Ok(Some(Fault::Kinds { byte }));
    }
    Ok(limit(scope, stmt, comparisons))
}

/// The lowest of the faults 8 to 12 of a statement with these aliases, which is bound to this.
pub(crate) fn later_fault(
    alloc: Global,
    scope: &Scope<'_>,
    setup: bool,
    live: bool,
    stmt: &Stmt,
    bound: &Bound,
) -> Result<Option<Fault>, NoMemory>
    requires sources { aliases scope.now ≡ sources_of (tables_of scope.now) (views_of scope.now) stmt.now }
    requires bound { bound.now ≡ bound_among (tables_of scope.now) (views_of scope.now) (sources_of (tables_of scope.now) (views_of scope.now) stmt.now) stmt.now }
    ensures { IfOk result (λ found. found ≡ lowest (later_faults (tables_of scope.now) (views_of scope.now) setup live stmt.now)) }
{
    if let Some(fault) = outside_setup(setup, stmt) {
        return Ok(Some(fault));
    }
    if let Some(fault) = in_transaction(setup, live, stmt) {
        return Ok(Some(fault));
    }
    if let Some(fault) = no_transaction(live, stmt) {
        return Ok(Some(fault));
    }
    if let Some(name) = assigned(scope, stmt, bound) {
        return Ok(Some(Fault::KeyAssigned {
            name: name.copy(alloc)?,
        }));
    }
    match wide(stmt) {
        Some(number) => Ok(Some(Fault::Range { number })),
        None => Ok(None),
    }
}
